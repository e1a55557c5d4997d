// Written by `soqavise generate` from the ASN.1 of AddressBook: change that, and write it again.
//! `Greeting ::= SEQUENCE`
use rasn::prelude::*;

/// `Greeting ::= SEQUENCE`
///
/// Its values are the octets of encodings, since a default of this kind isn't written.
#[derive(Debug, PartialEq, Eq, Drop)]
pub struct Greeting {
    /// The value.
    pub value: Any,
}

impl AsnType for Greeting {
    ghost use Rattle.std.specs.Prelude.{None, refl};
    ghost use Rattle.rasn_types.specs.Tags.{in_universal};
    ghost use Rattle.rasn_types.specs.Shapes.{tagged_as};

    ghost TAG = { in_universal 16 };

    const TAG: Tag = Tag::SEQUENCE;

    ghost CONSTRAINTS = { record { value = None; size = None } };

    const CONSTRAINTS: Constraints = Constraints::NONE;

    ghost shape = { tagged_as (in_universal 16) (record { value = None; size = None }) ⟦<Any as AsnType>⟧.shape };

    ghost tree = { λ a. ⟦<Any as AsnType>⟧.tree a.value };

    ghost own = { refl };
}

impl LawfulEq for Greeting {
    ghost use Rattle.rasn_types.specs.Deciding.{deciding};

    ghost decides = { Prim.search deciding depth 64 };
}

impl Present for Greeting {
    ghost use Rattle.rasn_types.specs.Deciding.{deciding};

    ghost present = { Prim.search deciding depth 64 };
}

impl Decode for Greeting {
    ghost errors = { ⟦<Any as Decode>⟧.errors };

    fn decode_with_tag_and_constraints(
        decoder: &mut Decoder<'_>,
        tag: Tag,
        constraints: &Constraints,
    ) -> Result<Greeting, DecodeError> {
        let value = <Any as Decode>::decode_with_tag_and_constraints(decoder, tag, constraints)?;
        Ok(Greeting { value })
    }
}

impl Encode for Greeting {
    fn encode_with_tag_and_constraints(
        &self,
        encoder: &mut Encoder,
        tag: Tag,
        constraints: &Constraints,
        identifier: Identifier,
    ) -> Result<(), EncodeError> {
        self.value
            .encode_with_tag_and_constraints(encoder, tag, constraints, identifier)
    }

    fn is_present(&self) -> bool {
        true
    }
}
