// Written by `soqavise generate` from the ASN.1 of AddressBook: change that, and write it again.
//! `Percent ::= INTEGER (1..100)`
use rasn::prelude::*;

/// `Percent ::= INTEGER (1..100)`
#[derive(Debug, PartialEq, Eq, Drop)]
pub struct Percent {
    /// The value.
    pub value: u8,
}

impl AsnType for Percent {
    ghost use Rattle.std.specs.Prelude.{None, Some, false, pos, refl};
    ghost use Rattle.rasn_types.specs.declared.types.constraints.Bounded.TheVariants.{Range};
    ghost use Rattle.rasn_types.specs.Tags.{in_universal};
    ghost use Rattle.rasn_types.specs.Shapes.{tagged_as};

    ghost TAG = { in_universal 2 };

    const TAG: Tag = Tag::INTEGER;

    ghost CONSTRAINTS = { record { value = Some (record { constraint = Range (Some (pos 1)) (Some (pos 100)); extensible = false }); size = None } };

    const CONSTRAINTS: Constraints = Constraints {
        value: Some(Bound {
            constraint: Bounded::Range {
                start: Some(1),
                end: Some(100),
            },
            extensible: false,
        }),
        size: None,
    };

    ghost shape = { tagged_as (in_universal 2) (record { value = Some (record { constraint = Range (Some (pos 1)) (Some (pos 100)); extensible = false }); size = None }) ⟦<u8 as AsnType>⟧.shape };

    ghost tree = { λ a. ⟦<u8 as AsnType>⟧.tree a.value };

    ghost own = { refl };
}

impl LawfulEq for Percent {
    ghost use Rattle.rasn_types.specs.Deciding.{deciding};

    ghost decides = { Prim.search deciding depth 64 };
}

impl Present for Percent {
    ghost use Rattle.rasn_types.specs.Deciding.{deciding};

    ghost present = { Prim.search deciding depth 64 };
}

impl Decode for Percent {
    ghost errors = { ⟦<u8 as Decode>⟧.errors };

    fn decode_with_tag_and_constraints(
        decoder: &mut Decoder<'_>,
        tag: Tag,
        constraints: &Constraints,
    ) -> Result<Percent, DecodeError> {
        let value = <u8 as Decode>::decode_with_tag_and_constraints(decoder, tag, constraints)?;
        Ok(Percent { value })
    }
}

impl Encode for Percent {
    fn encode_with_tag_and_constraints(
        &self,
        encoder: &mut Encoder,
        tag: Tag,
        constraints: &Constraints,
        identifier: Identifier,
    ) -> Result<(), EncodeError> {
        self.value
            .encode_with_tag_and_constraints(encoder, tag, constraints, identifier)
    }

    fn is_present(&self) -> bool {
        true
    }
}
