// Written by `soqavise generate` from the ASN.1 of SNMP: change that, and write it again.
//! `PDU ::= SEQUENCE`
use crate::{Unsigned31, VarBindList};
use rasn::prelude::*;

/// `PDU ::= SEQUENCE`
#[derive(Debug, PartialEq, Eq, Drop)]
pub struct Pdu {
    /// `request-id INTEGER (-2147483648..2147483647)`
    pub request_id: i32,
    /// `error-status INTEGER { noError(0), tooBig(1), noSuchName(2), badValue(3), readOnly(4),
    /// genErr(5), noAccess(6), wrongType(7), wrongLength(8), wrongEncoding(9), wrongValue(10),
    /// noCreation(11), inconsistentValue(12), resourceUnavailable(13), commitFailed(14),
    /// undoFailed(15), authorizationError(16), notWritable(17), inconsistentName(18) }`
    pub error_status: Integer,
    /// `error-index Unsigned31`
    pub error_index: Unsigned31,
    /// `variable-bindings VarBindList`
    pub variable_bindings: VarBindList,
}

/// The components, as they are read.
type Parts = Required<i32, Parts1>;

type Parts1 = Required<Integer, Parts2>;

type Parts2 = Required<Unsigned31, Parts3>;

type Parts3 = Required<VarBindList, End>;

impl AsnType for Pdu {
    ghost use Rattle.std.specs.Prelude.{refl};
    ghost use Rattle.rasn_types.specs.Tags.{in_universal};
    ghost use Rattle.rasn_types.specs.Shapes.{seq};
    ghost use Rattle.rasn_types.specs.Trees.{unconstrained};

    ghost TAG = { in_universal 16 };

    const TAG: Tag = Tag::SEQUENCE;

    ghost CONSTRAINTS = { unconstrained };

    const CONSTRAINTS: Constraints = Constraints::NONE;

    ghost shape = { seq (in_universal 16) ⟦<Parts as DecodeParts>⟧.parts };

    ghost tree = { λ a. ⟦<Parts as DecodeParts>⟧.tree (record { 0 = a.request_id; 1 = record { 0 = a.error_status; 1 = record { 0 = a.error_index; 1 = record { 0 = a.variable_bindings; 1 = record {} } } } }) };

    ghost own = { refl };
}

impl LawfulEq for Pdu {
    ghost use Rattle.rasn_types.specs.Deciding.{deciding};
    ghost use Rattle.rasn_snmp.specs.contracts.unsigned31.Unsigned31LawfulEq.TheImpl.Laws.{decides-law as unsigned31_law};
    ghost use Rattle.rasn_snmp.specs.contracts.var_bind_list.VarBindListLawfulEq.TheImpl.Laws.{decides-law as var_bind_list_law};

    ghost decides = { Prim.search (unsigned31_law, var_bind_list_law, deciding) depth 64 };
}

impl Present for Pdu {
    ghost use Rattle.rasn_types.specs.Equality.{parts_not_absent};

    ghost present = { λ _. parts_not_absent };
}

impl Decode for Pdu {
    ghost use Rattle.rasn_de.specs.PartTypes.{DecodesSequenceParts};
    ghost use Rattle.rasn_de.specs.ValueErrors.{errors_of};

    ghost errors = { λ tag _. errors_of (DecodesSequenceParts ⟦<Parts as DecodeParts>⟧.parts ⟦<Parts as DecodeParts>⟧.tree ⟦<Parts as DecodeParts>⟧.errors tag) };

    fn decode_with_tag_and_constraints(
        decoder: &mut Decoder<'_>,
        tag: Tag,
        _constraints: &Constraints,
    ) -> Result<Pdu, DecodeError> {
        let parts = match decoder.read_sequence::<Parts>(tag) {
            Ok(parts) => parts,
            Err(error) => return Err(error),
        };
        let Required(request_id, rest) = parts;
        let Required(error_status, rest) = rest;
        let Required(error_index, rest) = rest;
        let Required(variable_bindings, End) = rest;
        Ok(Pdu {
            request_id,
            error_status,
            error_index,
            variable_bindings,
        })
    }
}

impl Encode for Pdu {
    fn encode_with_tag_and_constraints(
        &self,
        encoder: &mut Encoder,
        tag: Tag,
        _constraints: &Constraints,
        _identifier: Identifier,
    ) -> Result<(), EncodeError> {
        let rest = Put(&self.variable_bindings, End);
        let rest = Put(&self.error_index, rest);
        let rest = Put(&self.error_status, rest);
        encoder.write_sequence(tag, Put(&self.request_id, rest))
    }

    fn is_present(&self) -> bool {
        true
    }
}
