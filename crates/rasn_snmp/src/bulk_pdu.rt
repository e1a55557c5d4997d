// Written by `soqavise generate` from the ASN.1 of SNMP: change that, and write it again.
//! `BulkPDU ::= SEQUENCE`
use crate::{Unsigned31, VarBindList};
use rasn::prelude::*;

/// `BulkPDU ::= SEQUENCE`
#[derive(Debug, PartialEq, Eq, Drop)]
pub struct BulkPdu {
    /// `request-id INTEGER (-2147483648..2147483647)`
    pub request_id: i32,
    /// `non-repeaters Unsigned31`
    pub non_repeaters: Unsigned31,
    /// `max-repetitions Unsigned31`
    pub max_repetitions: Unsigned31,
    /// `variable-bindings VarBindList`
    pub variable_bindings: VarBindList,
}

/// The components, as they are read.
type Parts = Required<i32, Parts1>;

type Parts1 = Required<Unsigned31, Parts2>;

type Parts2 = Required<Unsigned31, Parts3>;

type Parts3 = Required<VarBindList, End>;

impl AsnType for BulkPdu {
    ghost use Rattle.std.specs.Prelude.{refl};
    ghost use Rattle.rasn_types.specs.Tags.{in_universal};
    ghost use Rattle.rasn_types.specs.Shapes.{seq};
    ghost use Rattle.rasn_types.specs.Trees.{unconstrained};

    ghost TAG = { in_universal 16 };

    const TAG: Tag = Tag::SEQUENCE;

    ghost CONSTRAINTS = { unconstrained };

    const CONSTRAINTS: Constraints = Constraints::NONE;

    ghost shape = { seq (in_universal 16) ⟦<Parts as DecodeParts>⟧.parts };

    ghost tree = { λ a. ⟦<Parts as DecodeParts>⟧.tree (record { 0 = a.request_id; 1 = record { 0 = a.non_repeaters; 1 = record { 0 = a.max_repetitions; 1 = record { 0 = a.variable_bindings; 1 = record {} } } } }) };

    ghost own = { refl };
}

impl LawfulEq for BulkPdu {
    ghost use Rattle.rasn_types.specs.Deciding.{deciding};
    ghost use Rattle.rasn_snmp.specs.contracts.unsigned31.Unsigned31LawfulEq.TheImpl.Laws.{decides-law as unsigned31_law};
    ghost use Rattle.rasn_snmp.specs.contracts.var_bind_list.VarBindListLawfulEq.TheImpl.Laws.{decides-law as var_bind_list_law};

    ghost decides = { Prim.search (unsigned31_law, var_bind_list_law, deciding) depth 64 };
}

impl Present for BulkPdu {
    ghost use Rattle.rasn_types.specs.Equality.{parts_not_absent};

    ghost present = { λ _. parts_not_absent };
}

impl Decode for BulkPdu {
    ghost use Rattle.rasn_de.specs.PartTypes.{DecodesSequenceParts};
    ghost use Rattle.rasn_de.specs.ValueErrors.{errors_of};

    ghost errors = { λ tag _. errors_of (DecodesSequenceParts ⟦<Parts as DecodeParts>⟧.parts ⟦<Parts as DecodeParts>⟧.tree ⟦<Parts as DecodeParts>⟧.errors tag) };

    fn decode_with_tag_and_constraints(
        decoder: &mut Decoder<'_>,
        tag: Tag,
        _constraints: &Constraints,
    ) -> Result<BulkPdu, DecodeError> {
        let parts = match decoder.read_sequence::<Parts>(tag) {
            Ok(parts) => parts,
            Err(error) => return Err(error),
        };
        let Required(request_id, rest) = parts;
        let Required(non_repeaters, rest) = rest;
        let Required(max_repetitions, rest) = rest;
        let Required(variable_bindings, End) = rest;
        Ok(BulkPdu {
            request_id,
            non_repeaters,
            max_repetitions,
            variable_bindings,
        })
    }
}

impl Encode for BulkPdu {
    fn encode_with_tag_and_constraints(
        &self,
        encoder: &mut Encoder,
        tag: Tag,
        _constraints: &Constraints,
        _identifier: Identifier,
    ) -> Result<(), EncodeError> {
        let rest = Put(&self.variable_bindings, End);
        let rest = Put(&self.max_repetitions, rest);
        let rest = Put(&self.non_repeaters, rest);
        encoder.write_sequence(tag, Put(&self.request_id, rest))
    }

    fn is_present(&self) -> bool {
        true
    }
}
