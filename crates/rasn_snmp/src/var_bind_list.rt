// Written by `soqavise generate` from the ASN.1 of SNMP: change that, and write it again.
//! `VarBindList ::= SEQUENCE (SIZE (0..2147483647)) OF VarBind`
use crate::VarBind;
use rasn::prelude::*;

/// `VarBindList ::= SEQUENCE (SIZE (0..2147483647)) OF VarBind`
#[derive(Debug, PartialEq, Eq, Drop)]
pub struct VarBindList {
    /// The value.
    pub value: Vec<VarBind>,
}

impl AsnType for VarBindList {
    ghost use Rattle.std.specs.Prelude.{None, Some, false, refl};
    ghost use Rattle.rasn_types.specs.declared.types.constraints.Bounded.TheVariants.{Range};
    ghost use Rattle.rasn_types.specs.Tags.{in_universal};
    ghost use Rattle.rasn_types.specs.Shapes.{tagged_as};

    ghost TAG = { in_universal 16 };

    const TAG: Tag = Tag::SEQUENCE;

    ghost CONSTRAINTS = { record { value = None; size = Some (record { constraint = Range (Some 0) (Some 2147483647); extensible = false }) } };

    const CONSTRAINTS: Constraints = Constraints {
        value: None,
        size: Some(Bound {
            constraint: Bounded::Range {
                start: Some(0),
                end: Some(2147483647),
            },
            extensible: false,
        }),
    };

    ghost shape = { tagged_as (in_universal 16) (record { value = None; size = Some (record { constraint = Range (Some 0) (Some 2147483647); extensible = false }) }) ⟦<Vec<VarBind> as AsnType>⟧.shape };

    ghost tree = { λ a. ⟦<Vec<VarBind> as AsnType>⟧.tree a.value };

    ghost own = { refl };
}

impl LawfulEq for VarBindList {
    ghost use Rattle.rasn_types.specs.Deciding.{deciding};
    ghost use Rattle.rasn_snmp.specs.contracts.var_bind.VarBindLawfulEq.TheImpl.Laws.{decides-law as var_bind_law};

    ghost decides = { Prim.search (var_bind_law, deciding) depth 64 };
}

impl Present for VarBindList {
    ghost use Rattle.rasn_types.specs.Deciding.{deciding};
    ghost use Rattle.rasn_snmp.specs.contracts.var_bind.VarBindLawfulEq.TheImpl.Laws.{decides-law as var_bind_law};

    ghost present = { Prim.search (var_bind_law, deciding) depth 64 };
}

impl Decode for VarBindList {
    ghost errors = { ⟦<Vec<VarBind> as Decode>⟧.errors };

    fn decode_with_tag_and_constraints(
        decoder: &mut Decoder<'_>,
        tag: Tag,
        constraints: &Constraints,
    ) -> Result<VarBindList, DecodeError> {
        let value = <Vec<VarBind> as Decode>::decode_with_tag_and_constraints(
            decoder,
            tag,
            constraints,
        )?;
        Ok(VarBindList { value })
    }
}

impl Encode for VarBindList {
    fn encode_with_tag_and_constraints(
        &self,
        encoder: &mut Encoder,
        tag: Tag,
        constraints: &Constraints,
        identifier: Identifier,
    ) -> Result<(), EncodeError> {
        self.value
            .encode_with_tag_and_constraints(encoder, tag, constraints, identifier)
    }

    fn is_present(&self) -> bool {
        self.value.is_present()
    }
}
