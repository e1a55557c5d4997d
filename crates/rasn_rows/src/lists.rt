//! Nested SEQUENCEs OF (X.690 8.10): each takes two of 128 levels, and a SEQUENCE one, so that 64
//! lists are read.

use rasn::error::DecodeError;
use rasn::types::{AsnType, Constraints, Tag};
use rasn::{Decode, Decoder};
use std::fmt;

/// Four nested SEQUENCEs OF.
type Lists<T> = Vec<Vec<Vec<Vec<T>>>>;

/// Four nested SEQUENCEs OF, as a struct.
#[derive(Drop)]
pub struct Four<T> {
    lists: Lists<T>,
}

impl<T: AsnType> AsnType for Four<T> {
    ghost use Rattle.std.specs.Prelude.{refl};
    ghost use Rattle.rasn_types.specs.Tags.{in_universal};
    ghost use Rattle.rasn_types.specs.Trees.{unconstrained};

    ghost TAG = { in_universal 16 };

    const TAG: Tag = Tag::SEQUENCE;

    ghost CONSTRAINTS = { unconstrained };

    const CONSTRAINTS: Constraints = Constraints::NONE;

    ghost shape = { ⟦<Lists<T> as AsnType>⟧.shape };

    ghost tree = { λ four. ⟦<Lists<T> as AsnType>⟧.tree four.lists };

    ghost own = { refl };
}

impl<T: Decode> Decode for Four<T> {
    fn decode_with_tag_and_constraints(
        decoder: &mut Decoder<'_>,
        tag: Tag,
        constraints: &Constraints,
    ) -> Result<Four<T>, DecodeError> {
        let lists = Lists::<T>::decode_with_tag_and_constraints(decoder, tag, constraints)?;
        Ok(Four { lists })
    }
}

/// Writes the lists alone.
impl<T: fmt::Debug> fmt::Debug for Four<T> {
    fn fmt<W: fmt::Write>(&self, f: &mut fmt::Formatter<W>) -> fmt::Result {
        write!(f, "{:?}", self.lists)
    }
}

/// Sixteen nested SEQUENCEs OF.
type Fours<T> = Four<Four<Four<Four<T>>>>;

/// Sixteen nested SEQUENCEs OF, as a struct.
#[derive(Drop)]
pub struct Sixteen<T> {
    lists: Fours<T>,
}

impl<T: AsnType> AsnType for Sixteen<T> {
    ghost use Rattle.std.specs.Prelude.{refl};
    ghost use Rattle.rasn_types.specs.Tags.{in_universal};
    ghost use Rattle.rasn_types.specs.Trees.{unconstrained};

    ghost TAG = { in_universal 16 };

    const TAG: Tag = Tag::SEQUENCE;

    ghost CONSTRAINTS = { unconstrained };

    const CONSTRAINTS: Constraints = Constraints::NONE;

    ghost shape = { ⟦<Fours<T> as AsnType>⟧.shape };

    ghost tree = { λ sixteen. ⟦<Fours<T> as AsnType>⟧.tree sixteen.lists };

    ghost own = { refl };
}

impl<T: Decode> Decode for Sixteen<T> {
    fn decode_with_tag_and_constraints(
        decoder: &mut Decoder<'_>,
        tag: Tag,
        constraints: &Constraints,
    ) -> Result<Sixteen<T>, DecodeError> {
        let lists = Fours::<T>::decode_with_tag_and_constraints(decoder, tag, constraints)?;
        Ok(Sixteen { lists })
    }
}

/// Writes the lists alone.
impl<T: fmt::Debug> fmt::Debug for Sixteen<T> {
    fn fmt<W: fmt::Write>(&self, f: &mut fmt::Formatter<W>) -> fmt::Result {
        write!(f, "{:?}", self.lists)
    }
}

/// Sixty-four nested SEQUENCEs OF.
pub type SixtyFour = Sixteen<Sixteen<Sixteen<Sixteen<bool>>>>;
