// Written by `soqavise generate` from the ASN.1 of AddressBook: change that, and write it again.
//! `Title ::= UTF8String (SIZE (1..64))`
use rasn::prelude::*;

/// `Title ::= UTF8String (SIZE (1..64))`
#[derive(Debug, PartialEq, Eq, Drop)]
pub struct Title {
    /// The value.
    pub value: Utf8String,
}

impl AsnType for Title {
    ghost use Rattle.std.specs.Prelude.{None, Some, false, refl};
    ghost use Rattle.rasn_types.specs.declared.types.constraints.Bounded.TheVariants.{Range};
    ghost use Rattle.rasn_types.specs.Tags.{in_universal};
    ghost use Rattle.rasn_types.specs.Shapes.{tagged_as};

    ghost TAG = { in_universal 12 };

    const TAG: Tag = Tag::UTF8_STRING;

    ghost CONSTRAINTS = { record { value = None; size = Some (record { constraint = Range (Some 1) (Some 64); extensible = false }) } };

    const CONSTRAINTS: Constraints = Constraints {
        value: None,
        size: Some(Bound {
            constraint: Bounded::Range {
                start: Some(1),
                end: Some(64),
            },
            extensible: false,
        }),
    };

    ghost shape = { tagged_as (in_universal 12) (record { value = None; size = Some (record { constraint = Range (Some 1) (Some 64); extensible = false }) }) ⟦<Utf8String as AsnType>⟧.shape };

    ghost tree = { λ a. ⟦<Utf8String as AsnType>⟧.tree a.value };

    ghost own = { refl };
}

impl LawfulEq for Title {
    ghost use Rattle.rasn_types.specs.Deciding.{deciding};

    ghost decides = { Prim.search deciding depth 64 };
}

impl Present for Title {
    ghost use Rattle.rasn_types.specs.Deciding.{deciding};

    ghost present = { Prim.search deciding depth 64 };
}

impl Decode for Title {
    ghost errors = { ⟦<Utf8String as Decode>⟧.errors };

    fn decode_with_tag_and_constraints(
        decoder: &mut Decoder<'_>,
        tag: Tag,
        constraints: &Constraints,
    ) -> Result<Title, DecodeError> {
        let value = <Utf8String as Decode>::decode_with_tag_and_constraints(
            decoder,
            tag,
            constraints,
        )?;
        Ok(Title { value })
    }
}

impl Encode for Title {
    fn encode_with_tag_and_constraints(
        &self,
        encoder: &mut Encoder,
        tag: Tag,
        constraints: &Constraints,
        identifier: Identifier,
    ) -> Result<(), EncodeError> {
        self.value
            .encode_with_tag_and_constraints(encoder, tag, constraints, identifier)
    }

    fn is_present(&self) -> bool {
        true
    }
}
