//! A SEQUENCE whose components may all be absent (X.680 25), for tests.

use rasn::error::{DecodeError, EncodeError};
use rasn::parts::{End, Optional, PutOptional};
use rasn::types::{AsnType, Constraints, ContextTag, Identifier, Implicit, Tag, Utf8String};
use rasn::{Decode, Decoder, Encode, Encoder};

/// SEQUENCE { name [0] IMPLICIT UTF8String OPTIONAL, age INTEGER (0..255) OPTIONAL }
#[derive(Debug, Drop)]
pub struct Profile {
    pub name: Option<Implicit<ContextTag<0>, Utf8String>>,
    pub age: Option<u8>,
}

impl AsnType for Profile {
    ghost use Rattle.std.specs.Prelude.{refl, ◌∷◌, [], pos, chars};
    ghost use Rattle.std.specs.String.{string_bytes};
    ghost use Rattle.rasn_types.specs.declared.types.tag.Class.TheVariants.{Context};
    ghost use Rattle.rasn_types.specs.Shapes.{seq, part, optional, leaf, utf8, integer, number, numbers, items};
    ghost use Rattle.rasn_types.specs.Shapes.Parts.{none};
    ghost use Rattle.rasn_types.specs.Tags.{in_universal};
    ghost use Rattle.rasn_types.specs.Trees.{unconstrained, unsigned_range, option_tree};

    ghost TAG = { in_universal 16 };

    const TAG: Tag = Tag::SEQUENCE;

    ghost CONSTRAINTS = { unconstrained };

    const CONSTRAINTS: Constraints = Constraints::NONE;

    ghost shape = { seq (in_universal 16) (part optional (leaf utf8 (record { class = Context; value = 0 }) unconstrained) (part optional (leaf (integer (unsigned_range 8)) (in_universal 2) unconstrained) none)) };

    ghost tree = { λ p. items (option_tree (λ s. numbers (chars (string_bytes s))) p.name ∷ option_tree (λ n. number (pos n)) p.age ∷ []) };

    ghost own = { refl };
}

impl Decode for Profile {
    fn decode_with_tag_and_constraints(
        decoder: &mut Decoder<'_>,
        tag: Tag,
        _constraints: &Constraints,
    ) -> Result<Profile, DecodeError> {
        let Optional(name, Optional(age, End)) = decoder.read_sequence(tag)?;
        Ok(Profile { name, age })
    }
}

impl Encode for Profile {
    fn encode_with_tag_and_constraints(
        &self,
        encoder: &mut Encoder,
        tag: Tag,
        _constraints: &Constraints,
        _identifier: Identifier,
    ) -> Result<(), EncodeError> {
        encoder.write_sequence(tag, PutOptional(&self.name, PutOptional(&self.age, End)))
    }

    fn is_present(&self) -> bool {
        true
    }
}
