// Written by `soqavise generate` from the ASN.1 of LDAP: change that, and write it again.
//! `BindRequest-version ::= INTEGER (1..127)`
use rasn::prelude::*;

/// `BindRequest-version ::= INTEGER (1..127)`
#[derive(Debug, PartialEq, Eq, Drop)]
pub struct BindRequestVersion {
    /// The value.
    pub value: u8,
}

impl AsnType for BindRequestVersion {
    ghost use Rattle.std.specs.Prelude.{None, Some, false, pos, refl};
    ghost use Rattle.rasn_types.specs.declared.types.constraints.Bounded.TheVariants.{Range};
    ghost use Rattle.rasn_types.specs.Tags.{in_universal};
    ghost use Rattle.rasn_types.specs.Shapes.{tagged_as};

    ghost TAG = { in_universal 2 };

    const TAG: Tag = Tag::INTEGER;

    ghost CONSTRAINTS = { record { value = Some (record { constraint = Range (Some (pos 1)) (Some (pos 127)); extensible = false }); size = None } };

    const CONSTRAINTS: Constraints = Constraints {
        value: Some(Bound {
            constraint: Bounded::Range {
                start: Some(1),
                end: Some(127),
            },
            extensible: false,
        }),
        size: None,
    };

    ghost shape = { tagged_as (in_universal 2) (record { value = Some (record { constraint = Range (Some (pos 1)) (Some (pos 127)); extensible = false }); size = None }) ⟦<u8 as AsnType>⟧.shape };

    ghost tree = { λ a. ⟦<u8 as AsnType>⟧.tree a.value };

    ghost own = { refl };
}

impl LawfulEq for BindRequestVersion {
    ghost use Rattle.rasn_types.specs.Deciding.{deciding};

    ghost decides = { Prim.search deciding depth 64 };
}

impl Present for BindRequestVersion {
    ghost use Rattle.rasn_types.specs.Deciding.{deciding};

    ghost present = { Prim.search deciding depth 64 };
}

impl Decode for BindRequestVersion {
    ghost errors = { ⟦<u8 as Decode>⟧.errors };

    fn decode_with_tag_and_constraints(
        decoder: &mut Decoder<'_>,
        tag: Tag,
        constraints: &Constraints,
    ) -> Result<BindRequestVersion, DecodeError> {
        let value = <u8 as Decode>::decode_with_tag_and_constraints(decoder, tag, constraints)?;
        Ok(BindRequestVersion { value })
    }
}

impl Encode for BindRequestVersion {
    fn encode_with_tag_and_constraints(
        &self,
        encoder: &mut Encoder,
        tag: Tag,
        constraints: &Constraints,
        identifier: Identifier,
    ) -> Result<(), EncodeError> {
        self.value
            .encode_with_tag_and_constraints(encoder, tag, constraints, identifier)
    }

    fn is_present(&self) -> bool {
        true
    }
}
