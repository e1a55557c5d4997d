// Written by `soqavise generate` from the ASN.1 of AddressBook: change that, and write it again.
//! Any value with this tag.
use rasn::prelude::*;

/// Any value with this tag.
///
/// Its values are the octets of encodings, since a type holds its own values.
#[derive(Debug, PartialEq, Eq, Drop)]
pub struct OpenSequence {
    /// The value.
    pub value: Any,
}

impl AsnType for OpenSequence {
    ghost use Rattle.std.specs.Prelude.{None, refl};
    ghost use Rattle.rasn_types.specs.Tags.{in_universal};
    ghost use Rattle.rasn_types.specs.Shapes.{tagged_as};

    ghost TAG = { in_universal 16 };

    const TAG: Tag = Tag::SEQUENCE;

    ghost CONSTRAINTS = { record { value = None; size = None } };

    const CONSTRAINTS: Constraints = Constraints::NONE;

    ghost shape = { tagged_as (in_universal 16) (record { value = None; size = None }) ⟦<Any as AsnType>⟧.shape };

    ghost tree = { λ a. ⟦<Any as AsnType>⟧.tree a.value };

    ghost own = { refl };
}

impl LawfulEq for OpenSequence {
    ghost use Rattle.rasn_types.specs.Deciding.{deciding};

    ghost decides = { Prim.search deciding depth 64 };
}

impl Present for OpenSequence {
    ghost use Rattle.rasn_types.specs.Deciding.{deciding};

    ghost present = { Prim.search deciding depth 64 };
}

impl Decode for OpenSequence {
    ghost errors = { ⟦<Any as Decode>⟧.errors };

    fn decode_with_tag_and_constraints(
        decoder: &mut Decoder<'_>,
        tag: Tag,
        constraints: &Constraints,
    ) -> Result<OpenSequence, DecodeError> {
        let value = <Any as Decode>::decode_with_tag_and_constraints(decoder, tag, constraints)?;
        Ok(OpenSequence { value })
    }
}

impl Encode for OpenSequence {
    fn encode_with_tag_and_constraints(
        &self,
        encoder: &mut Encoder,
        tag: Tag,
        constraints: &Constraints,
        identifier: Identifier,
    ) -> Result<(), EncodeError> {
        self.value
            .encode_with_tag_and_constraints(encoder, tag, constraints, identifier)
    }

    fn is_present(&self) -> bool {
        true
    }
}
