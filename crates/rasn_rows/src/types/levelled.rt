//! A SET with a DEFAULT component (X.680 27), for tests.

use rasn::error::{DecodeError, EncodeError};
use rasn::parts::{DefaultValue, Defaulted, End, PutDefault};
use rasn::types::{AsnType, Constraints, ContextTag, Identifier, Implicit, Integer, Tag};
use rasn::{Decode, Decoder, Encode, Encoder};
use std::alloc::{AllocError, Global};

/// SET { level [0] IMPLICIT INTEGER DEFAULT 7 }
#[derive(Debug, Drop)]
pub struct Levelled {
    pub level: Implicit<ContextTag<0>, Integer>,
}

impl AsnType for Levelled {
    ghost use Rattle.std.specs.Prelude.{refl, ◌∷◌, [], pos};
    ghost use Rattle.rasn_types.specs.declared.types.tag.Class.TheVariants.{Context};
    ghost use Rattle.rasn_types.specs.Shapes.{set, part, default, leaf, integer, every, number, items};
    ghost use Rattle.rasn_types.specs.Shapes.Parts.{none};
    ghost use Rattle.rasn_types.specs.Tags.{in_universal};
    ghost use Rattle.rasn_types.specs.Trees.{unconstrained};

    ghost TAG = { in_universal 17 };

    const TAG: Tag = Tag::SET;

    ghost CONSTRAINTS = { unconstrained };

    const CONSTRAINTS: Constraints = Constraints::NONE;

    ghost shape = { set (in_universal 17) (part (default (number (pos 7))) (leaf (integer every) (record { class = Context; value = 0 }) unconstrained) none) };

    ghost tree = { λ l. items (number l.level ∷ []) };

    ghost own = { refl };
}

/// The default level.
#[derive(Drop)]
pub struct UsualLevel;

impl DefaultValue for UsualLevel {
    ghost use Rattle.std.specs.Prelude.{pos};
    ghost use Rattle.rasn_types.specs.Shapes.{number};

    type Value = Implicit<ContextTag<0>, Integer>;

    ghost default_tree = { number (pos 7) };

    fn default_value(alloc: Global) -> Result<Implicit<ContextTag<0>, Integer>, AllocError> {
        let level = Integer::from_i128(alloc, 7)?;
        Ok(Implicit::new(level))
    }
}

impl Decode for Levelled {
    fn decode_with_tag_and_constraints(
        decoder: &mut Decoder<'_>,
        tag: Tag,
        _constraints: &Constraints,
    ) -> Result<Levelled, DecodeError> {
        let Defaulted::<UsualLevel, _>(level, End) = decoder.read_set(tag, "Levelled", &["level"])?;
        Ok(Levelled { level })
    }
}

impl Encode for Levelled {
    fn encode_with_tag_and_constraints(
        &self,
        encoder: &mut Encoder,
        tag: Tag,
        _constraints: &Constraints,
        _identifier: Identifier,
    ) -> Result<(), EncodeError> {
        encoder.write_set(tag, PutDefault::<UsualLevel, _>(&self.level, End))
    }

    fn is_present(&self) -> bool {
        true
    }
}
