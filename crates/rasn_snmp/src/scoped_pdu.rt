// Written by `soqavise generate` from the ASN.1 of SNMP: change that, and write it again.
//! `ScopedPDU ::= SEQUENCE`
use crate::Pdus;
use rasn::prelude::*;

/// `ScopedPDU ::= SEQUENCE`
#[derive(Debug, PartialEq, Eq, Drop)]
pub struct ScopedPdu {
    /// `contextEngineID OCTET STRING`
    pub context_engine_id: OctetString,
    /// `contextName OCTET STRING`
    pub context_name: OctetString,
    /// `data PDUs`
    pub data: Pdus,
}

/// The components, as they are read.
type Parts = Required<OctetString, Parts1>;

type Parts1 = Required<OctetString, Parts2>;

type Parts2 = Required<Pdus, End>;

impl AsnType for ScopedPdu {
    ghost use Rattle.std.specs.Prelude.{refl};
    ghost use Rattle.rasn_types.specs.Tags.{in_universal};
    ghost use Rattle.rasn_types.specs.Shapes.{seq};
    ghost use Rattle.rasn_types.specs.Trees.{unconstrained};

    ghost TAG = { in_universal 16 };

    const TAG: Tag = Tag::SEQUENCE;

    ghost CONSTRAINTS = { unconstrained };

    const CONSTRAINTS: Constraints = Constraints::NONE;

    ghost shape = { seq (in_universal 16) ⟦<Parts as DecodeParts>⟧.parts };

    ghost tree = { λ a. ⟦<Parts as DecodeParts>⟧.tree (record { 0 = a.context_engine_id; 1 = record { 0 = a.context_name; 1 = record { 0 = a.data; 1 = record {} } } }) };

    ghost own = { refl };
}

impl LawfulEq for ScopedPdu {
    ghost use Rattle.rasn_types.specs.Deciding.{deciding};
    ghost use Rattle.rasn_snmp.specs.contracts.pdus.PdusLawfulEq.TheImpl.Laws.{decides-law as pdus_law};

    ghost decides = { Prim.search (pdus_law, deciding) depth 64 };
}

impl Present for ScopedPdu {
    ghost use Rattle.rasn_types.specs.Equality.{parts_not_absent};

    ghost present = { λ _. parts_not_absent };
}

impl Decode for ScopedPdu {
    ghost use Rattle.rasn_de.specs.PartTypes.{DecodesSequenceParts};
    ghost use Rattle.rasn_de.specs.ValueErrors.{errors_of};

    ghost errors = { λ tag _. errors_of (DecodesSequenceParts ⟦<Parts as DecodeParts>⟧.parts ⟦<Parts as DecodeParts>⟧.tree ⟦<Parts as DecodeParts>⟧.errors tag) };

    fn decode_with_tag_and_constraints(
        decoder: &mut Decoder<'_>,
        tag: Tag,
        _constraints: &Constraints,
    ) -> Result<ScopedPdu, DecodeError> {
        let parts = match decoder.read_sequence::<Parts>(tag) {
            Ok(parts) => parts,
            Err(error) => return Err(error),
        };
        let Required(context_engine_id, rest) = parts;
        let Required(context_name, rest) = rest;
        let Required(data, End) = rest;
        Ok(ScopedPdu {
            context_engine_id,
            context_name,
            data,
        })
    }
}

impl Encode for ScopedPdu {
    fn encode_with_tag_and_constraints(
        &self,
        encoder: &mut Encoder,
        tag: Tag,
        _constraints: &Constraints,
        _identifier: Identifier,
    ) -> Result<(), EncodeError> {
        let rest = Put(&self.data, End);
        let rest = Put(&self.context_name, rest);
        encoder.write_sequence(tag, Put(&self.context_engine_id, rest))
    }

    fn is_present(&self) -> bool {
        true
    }
}
