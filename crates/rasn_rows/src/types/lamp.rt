//! A CHOICE that is optional or has a default, before and after other components (X.680 25.5,
//! 25.8), for tests.

use rasn::error::{DecodeError, EncodeError};
use rasn::parts::{
    DecodeAlternatives, DefaultValue, DefaultedChoice, End, Last, LeastTag, OneOf, OptionalChoice,
    Put, PutDefaultChoice, PutOptionalChoice, Required,
};
use rasn::types::{AsnType, Constraints, FirstTags, Identifier, LawfulEq, Tag};
use rasn::{Decode, Decoder, Encode, Encoder};
use std::alloc::{AllocError, Global};

/// CHOICE { number INTEGER (0..255), off NULL }
#[derive(Debug, PartialEq, Eq, Drop)]
pub enum Level {
    Number(u8),
    Off,
}

impl AsnType for Level {
    ghost use Rattle.std.specs.Prelude.{refl};
    ghost use Rattle.rasn_types.specs.Tags.{eoc};
    ghost use Rattle.rasn_types.specs.Trees.{unconstrained};
    ghost use Rattle.rasn_rows.specs.Lamp.{level_shape, level_tree};

    ghost TAG = { eoc };

    const TAG: Tag = Tag::EOC;

    ghost CONSTRAINTS = { unconstrained };

    const CONSTRAINTS: Constraints = Constraints::NONE;

    ghost shape = { level_shape };

    ghost tree = { level_tree };

    ghost own = { refl };
}

/// The alternatives, as they are read.
type Levels = OneOf<u8, Last<()>>;

impl FirstTags for Level {
    fn is_first_tag(tag: Tag) -> bool {
        <Levels as DecodeAlternatives>::has_tag(tag)
    }
}

impl LeastTag for Level {
    fn least_tag() -> Tag {
        Tag::INTEGER
    }
}

impl LawfulEq for Level {
    ghost use Rattle.rasn_types.specs.Equality.{choice_decided, alternative, unsigned_decided};
    ghost use Rattle.rasn_rows.specs.contracts.types.lamp.Level.{enum as level_enum};
    ghost use Rattle.rasn_rows.specs.Lamp.{level_tree, no_field};

    ghost decides = { choice_decided level_enum _ level_tree (alternative (λ x. x.0) unsigned_decided, (no_field, tt)) };
}

impl Decode for Level {
    fn decode_with_tag_and_constraints(
        decoder: &mut Decoder<'_>,
        _tag: Tag,
        _constraints: &Constraints,
    ) -> Result<Level, DecodeError> {
        match decoder.read_choice::<Levels>("Level")? {
            OneOf::This(number) => Ok(Level::Number(number)),
            OneOf::Other(Last(())) => Ok(Level::Off),
        }
    }
}

/// The alternatives, as they are written.
type Written<'a> = OneOf<&'a u8, Last<&'a ()>>;

impl Encode for Level {
    fn encode_with_tag_and_constraints(
        &self,
        encoder: &mut Encoder,
        _tag: Tag,
        _constraints: &Constraints,
        _identifier: Identifier,
    ) -> Result<(), EncodeError> {
        match self {
            Level::Number(number) => encoder.write_choice::<Written<'_>>(OneOf::This(number)),
            Level::Off => encoder.write_choice::<Written<'_>>(OneOf::Other(Last(&()))),
        }
    }

    fn is_present(&self) -> bool {
        true
    }
}

/// The level of a lamp that tells none.
#[derive(Drop)]
pub struct Off;

impl DefaultValue for Off {
    ghost use Rattle.rasn_rows.specs.Lamp.{off_tree};

    type Value = Level;

    ghost default_tree = { off_tree };

    fn default_value(_alloc: Global) -> Result<Level, AllocError> {
        Ok(Level::Off)
    }
}

/// SEQUENCE { level Level DEFAULT off : NULL, lit BOOLEAN, dimmed Level OPTIONAL }
#[derive(Debug, Drop)]
pub struct Lamp {
    pub level: Level,
    pub lit: bool,
    pub dimmed: Option<Level>,
}

impl AsnType for Lamp {
    ghost use Rattle.std.specs.Prelude.{refl};
    ghost use Rattle.rasn_types.specs.Tags.{in_universal};
    ghost use Rattle.rasn_types.specs.Trees.{unconstrained};
    ghost use Rattle.rasn_rows.specs.Lamp.{lamp_shape, lamp_tree};

    ghost TAG = { in_universal 16 };

    const TAG: Tag = Tag::SEQUENCE;

    ghost CONSTRAINTS = { unconstrained };

    const CONSTRAINTS: Constraints = Constraints::NONE;

    ghost shape = { lamp_shape };

    ghost tree = { lamp_tree };

    ghost own = { refl };
}

impl Decode for Lamp {
    fn decode_with_tag_and_constraints(
        decoder: &mut Decoder<'_>,
        tag: Tag,
        _constraints: &Constraints,
    ) -> Result<Lamp, DecodeError> {
        let DefaultedChoice::<Off, _>(level, Required(lit, OptionalChoice(dimmed, End))) =
            decoder.read_sequence(tag)?;
        Ok(Lamp { level, lit, dimmed })
    }
}

impl Encode for Lamp {
    fn encode_with_tag_and_constraints(
        &self,
        encoder: &mut Encoder,
        tag: Tag,
        _constraints: &Constraints,
        _identifier: Identifier,
    ) -> Result<(), EncodeError> {
        encoder.write_sequence(
            tag,
            PutDefaultChoice::<Off, _>(
                &self.level,
                Put(&self.lit, PutOptionalChoice(&self.dimmed, End)),
            ),
        )
    }

    fn is_present(&self) -> bool {
        true
    }
}
