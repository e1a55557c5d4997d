// Written by `soqavise generate` from the ASN.1 of AddressBook: change that, and write it again.
//! `Rights ::= BIT STRING { read(0), write(3) }`
use rasn::prelude::*;

/// `Rights ::= BIT STRING { read(0), write(3) }`
#[derive(Debug, PartialEq, Eq, Drop)]
pub struct Rights {
    /// The value.
    pub value: NamedBits,
}

impl AsnType for Rights {
    ghost use Rattle.std.specs.Prelude.{None, refl};
    ghost use Rattle.rasn_types.specs.Tags.{in_universal};
    ghost use Rattle.rasn_types.specs.Shapes.{tagged_as};

    ghost TAG = { in_universal 3 };

    const TAG: Tag = Tag::BIT_STRING;

    ghost CONSTRAINTS = { record { value = None; size = None } };

    const CONSTRAINTS: Constraints = Constraints::NONE;

    ghost shape = { tagged_as (in_universal 3) (record { value = None; size = None }) ⟦<NamedBits as AsnType>⟧.shape };

    ghost tree = { λ a. ⟦<NamedBits as AsnType>⟧.tree a.value };

    ghost own = { refl };
}

impl LawfulEq for Rights {
    ghost use Rattle.rasn_types.specs.Deciding.{deciding};
    ghost use Rattle.rasn_types.specs.NamedBits.{named_bits_decided, named_bits_not_absent};

    ghost decides = { Prim.search (named_bits_decided, named_bits_not_absent, deciding) depth 64 };
}

impl Present for Rights {
    ghost use Rattle.rasn_types.specs.Deciding.{deciding};
    ghost use Rattle.rasn_types.specs.NamedBits.{named_bits_decided, named_bits_not_absent};

    ghost present = { Prim.search (named_bits_decided, named_bits_not_absent, deciding) depth 64 };
}

impl Decode for Rights {
    ghost errors = { ⟦<NamedBits as Decode>⟧.errors };

    fn decode_with_tag_and_constraints(
        decoder: &mut Decoder<'_>,
        tag: Tag,
        constraints: &Constraints,
    ) -> Result<Rights, DecodeError> {
        let value = <NamedBits as Decode>::decode_with_tag_and_constraints(
            decoder,
            tag,
            constraints,
        )?;
        Ok(Rights { value })
    }
}

impl Encode for Rights {
    fn encode_with_tag_and_constraints(
        &self,
        encoder: &mut Encoder,
        tag: Tag,
        constraints: &Constraints,
        identifier: Identifier,
    ) -> Result<(), EncodeError> {
        self.value
            .encode_with_tag_and_constraints(encoder, tag, constraints, identifier)
    }

    fn is_present(&self) -> bool {
        true
    }
}
