// Written by `soqavise generate` from the ASN.1 of SNMP: change that, and write it again.
//! `Message ::= SEQUENCE`
use crate::Pdus;
use rasn::prelude::*;

/// `Message ::= SEQUENCE`
#[derive(Debug, PartialEq, Eq, Drop)]
pub struct Message {
    /// `version INTEGER { version-1(0), version-2c(1) }`
    pub version: Integer,
    /// `community OCTET STRING`
    pub community: OctetString,
    /// `data PDUs`
    pub data: Pdus,
}

/// The components, as they are read.
type Parts = Required<Integer, Parts1>;

type Parts1 = Required<OctetString, Parts2>;

type Parts2 = Required<Pdus, End>;

impl AsnType for Message {
    ghost use Rattle.std.specs.Prelude.{refl};
    ghost use Rattle.rasn_types.specs.Tags.{in_universal};
    ghost use Rattle.rasn_types.specs.Shapes.{seq};
    ghost use Rattle.rasn_types.specs.Trees.{unconstrained};

    ghost TAG = { in_universal 16 };

    const TAG: Tag = Tag::SEQUENCE;

    ghost CONSTRAINTS = { unconstrained };

    const CONSTRAINTS: Constraints = Constraints::NONE;

    ghost shape = { seq (in_universal 16) ⟦<Parts as DecodeParts>⟧.parts };

    ghost tree = { λ a. ⟦<Parts as DecodeParts>⟧.tree (record { 0 = a.version; 1 = record { 0 = a.community; 1 = record { 0 = a.data; 1 = record {} } } }) };

    ghost own = { refl };
}

impl LawfulEq for Message {
    ghost use Rattle.rasn_types.specs.Deciding.{deciding};
    ghost use Rattle.rasn_snmp.specs.contracts.pdus.PdusLawfulEq.TheImpl.Laws.{decides-law as pdus_law};

    ghost decides = { Prim.search (pdus_law, deciding) depth 64 };
}

impl Present for Message {
    ghost use Rattle.rasn_types.specs.Equality.{parts_not_absent};

    ghost present = { λ _. parts_not_absent };
}

impl Decode for Message {
    ghost use Rattle.rasn_de.specs.PartTypes.{DecodesSequenceParts};
    ghost use Rattle.rasn_de.specs.ValueErrors.{errors_of};

    ghost errors = { λ tag _. errors_of (DecodesSequenceParts ⟦<Parts as DecodeParts>⟧.parts ⟦<Parts as DecodeParts>⟧.tree ⟦<Parts as DecodeParts>⟧.errors tag) };

    fn decode_with_tag_and_constraints(
        decoder: &mut Decoder<'_>,
        tag: Tag,
        _constraints: &Constraints,
    ) -> Result<Message, DecodeError> {
        let parts = match decoder.read_sequence::<Parts>(tag) {
            Ok(parts) => parts,
            Err(error) => return Err(error),
        };
        let Required(version, rest) = parts;
        let Required(community, rest) = rest;
        let Required(data, End) = rest;
        Ok(Message {
            version,
            community,
            data,
        })
    }
}

impl Encode for Message {
    fn encode_with_tag_and_constraints(
        &self,
        encoder: &mut Encoder,
        tag: Tag,
        _constraints: &Constraints,
        _identifier: Identifier,
    ) -> Result<(), EncodeError> {
        let rest = Put(&self.data, End);
        let rest = Put(&self.community, rest);
        encoder.write_sequence(tag, Put(&self.version, rest))
    }

    fn is_present(&self) -> bool {
        true
    }
}

impl WholeMessage for Message {
    ghost use Rattle.std.specs.Prelude.{refl};
    ghost use Rattle.rasn_types.specs.declared.types.codec.Codec.TheVariants.{Ber};

    ghost RULES = { Ber };

    const RULES: Codec = Codec::Ber;

    ghost whole = { refl };
}
