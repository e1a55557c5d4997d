// Written by `soqavise generate` from the ASN.1 of SNMP: change that, and write it again.
//! `VarBind ::= SEQUENCE`
use crate::{ObjectName, VarBindValue};
use rasn::prelude::*;

/// `VarBind ::= SEQUENCE`
#[derive(Debug, PartialEq, Eq, Drop)]
pub struct VarBind {
    /// `name ObjectName`
    pub name: ObjectName,
    /// `value VarBindValue`
    pub value: VarBindValue,
}

/// The components, as they are read.
type Parts = Required<ObjectName, Parts1>;

type Parts1 = Required<VarBindValue, End>;

impl AsnType for VarBind {
    ghost use Rattle.std.specs.Prelude.{refl};
    ghost use Rattle.rasn_types.specs.Tags.{in_universal};
    ghost use Rattle.rasn_types.specs.Shapes.{seq};
    ghost use Rattle.rasn_types.specs.Trees.{unconstrained};

    ghost TAG = { in_universal 16 };

    const TAG: Tag = Tag::SEQUENCE;

    ghost CONSTRAINTS = { unconstrained };

    const CONSTRAINTS: Constraints = Constraints::NONE;

    ghost shape = { seq (in_universal 16) ⟦<Parts as DecodeParts>⟧.parts };

    ghost tree = { λ a. ⟦<Parts as DecodeParts>⟧.tree (record { 0 = a.name; 1 = record { 0 = a.value; 1 = record {} } }) };

    ghost own = { refl };
}

impl LawfulEq for VarBind {
    ghost use Rattle.rasn_types.specs.Deciding.{deciding};
    ghost use Rattle.rasn_snmp.specs.contracts.var_bind_value.VarBindValueLawfulEq.TheImpl.Laws.{decides-law as var_bind_value_law};

    ghost decides = { Prim.search (var_bind_value_law, deciding) depth 64 };
}

impl Present for VarBind {
    ghost use Rattle.rasn_types.specs.Equality.{parts_not_absent};

    ghost present = { λ _. parts_not_absent };
}

impl Decode for VarBind {
    ghost use Rattle.rasn_de.specs.PartTypes.{DecodesSequenceParts};
    ghost use Rattle.rasn_de.specs.ValueErrors.{errors_of};

    ghost errors = { λ tag _. errors_of (DecodesSequenceParts ⟦<Parts as DecodeParts>⟧.parts ⟦<Parts as DecodeParts>⟧.tree ⟦<Parts as DecodeParts>⟧.errors tag) };

    fn decode_with_tag_and_constraints(
        decoder: &mut Decoder<'_>,
        tag: Tag,
        _constraints: &Constraints,
    ) -> Result<VarBind, DecodeError> {
        let parts = match decoder.read_sequence::<Parts>(tag) {
            Ok(parts) => parts,
            Err(error) => return Err(error),
        };
        let Required(name, rest) = parts;
        let Required(value, End) = rest;
        Ok(VarBind { name, value })
    }
}

impl Encode for VarBind {
    fn encode_with_tag_and_constraints(
        &self,
        encoder: &mut Encoder,
        tag: Tag,
        _constraints: &Constraints,
        _identifier: Identifier,
    ) -> Result<(), EncodeError> {
        let rest = Put(&self.value, End);
        encoder.write_sequence(tag, Put(&self.name, rest))
    }

    fn is_present(&self) -> bool {
        true
    }
}
