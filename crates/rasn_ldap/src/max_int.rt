// Written by `soqavise generate` from the ASN.1 of LDAP: change that, and write it again.
//! `MaxInt ::= INTEGER (0..2147483647)`
use rasn::prelude::*;

/// `MaxInt ::= INTEGER (0..2147483647)`
#[derive(Debug, PartialEq, Eq, Drop)]
pub struct MaxInt {
    /// The value.
    pub value: u32,
}

impl AsnType for MaxInt {
    ghost use Rattle.std.specs.Prelude.{None, Some, false, pos, refl};
    ghost use Rattle.rasn_types.specs.declared.types.constraints.Bounded.TheVariants.{Range};
    ghost use Rattle.rasn_types.specs.Tags.{in_universal};
    ghost use Rattle.rasn_types.specs.Shapes.{tagged_as};

    ghost TAG = { in_universal 2 };

    const TAG: Tag = Tag::INTEGER;

    ghost CONSTRAINTS = { record { value = Some (record { constraint = Range (Some (pos 0)) (Some (pos 2147483647)); extensible = false }); size = None } };

    const CONSTRAINTS: Constraints = Constraints {
        value: Some(Bound {
            constraint: Bounded::Range {
                start: Some(0),
                end: Some(2147483647),
            },
            extensible: false,
        }),
        size: None,
    };

    ghost shape = { tagged_as (in_universal 2) (record { value = Some (record { constraint = Range (Some (pos 0)) (Some (pos 2147483647)); extensible = false }); size = None }) ⟦<u32 as AsnType>⟧.shape };

    ghost tree = { λ a. ⟦<u32 as AsnType>⟧.tree a.value };

    ghost own = { refl };
}

impl LawfulEq for MaxInt {
    ghost use Rattle.rasn_types.specs.Deciding.{deciding};

    ghost decides = { Prim.search deciding depth 64 };
}

impl Present for MaxInt {
    ghost use Rattle.rasn_types.specs.Deciding.{deciding};

    ghost present = { Prim.search deciding depth 64 };
}

impl Decode for MaxInt {
    ghost errors = { ⟦<u32 as Decode>⟧.errors };

    fn decode_with_tag_and_constraints(
        decoder: &mut Decoder<'_>,
        tag: Tag,
        constraints: &Constraints,
    ) -> Result<MaxInt, DecodeError> {
        let value = <u32 as Decode>::decode_with_tag_and_constraints(decoder, tag, constraints)?;
        Ok(MaxInt { value })
    }
}

impl Encode for MaxInt {
    fn encode_with_tag_and_constraints(
        &self,
        encoder: &mut Encoder,
        tag: Tag,
        constraints: &Constraints,
        identifier: Identifier,
    ) -> Result<(), EncodeError> {
        self.value
            .encode_with_tag_and_constraints(encoder, tag, constraints, identifier)
    }

    fn is_present(&self) -> bool {
        true
    }
}
