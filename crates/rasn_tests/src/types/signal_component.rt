//! `Signal`, made by a function from its components, for tests.
ghost use Rattle.std.specs.Prelude.{◌≡◌, IfOk};

use crate::types::Signal;
use rasn::de::{DecodeChoice, Error};
use rasn::error::DecodeError;
use rasn::types::{
    AsnType, Class, Codec, Constraints, Constructed, Field, FieldPresence, Fields, Implicit, Tag,
};
use rasn::{Decode, Decoder};
use std::alloc::{AllocError, Global};

const MARK: Tag = Tag {
    class: Class::Context,
    value: 0,
};

impl Constructed<3, 0> for Signal {
    ghost use Rattle.std.specs.Prelude.{refl, true, false};
    ghost use Rattle.rasn_tests.specs.Signal.{signal_parts};

    const FIELDS: Fields<3> = Fields {
        fields: [
            Field {
                index: 0,
                tag: Tag::BOOL,
                presence: FieldPresence::Optional,
                name: "truth",
            },
            Field {
                index: 1,
                tag: Tag::INTEGER,
                presence: FieldPresence::Default,
                name: "level",
            },
            Field {
                index: 2,
                tag: MARK,
                presence: FieldPresence::Required,
                name: "mark",
            },
        ],
    };

    const EXTENDED_FIELDS: Option<Fields<0>> = None;

    ghost IS_EXTENSIBLE = { false };

    const IS_EXTENSIBLE: bool = false;

    ghost HAS_REQUIRED_FIELDS = { true };

    const HAS_REQUIRED_FIELDS: bool = true;

    ghost parts = { signal_parts };

    ghost described = { refl };
}

/// A component of a `Signal`.
#[derive(Drop)]
pub enum Component {
    Truth(bool),
    Level(u8),
    Mark(u8),
}

impl AsnType for Component {
    ghost use Rattle.std.specs.Prelude.{refl};
    ghost use Rattle.rasn_types.specs.Tags.{eoc};
    ghost use Rattle.rasn_types.specs.Shapes.{choice, chosen};
    ghost use Rattle.rasn_types.specs.Trees.{bool_tree, unconstrained};
    ghost use Rattle.rasn_tests.specs.Signal.{signal_parts, level_tree};
    ghost use Rattle.rasn_tests.specs.declared.types.signal_component.Component.TheVariants.{Truth, Level, Mark};

    ghost TAG = { eoc };

    const TAG: Tag = Tag::EOC;

    ghost CONSTRAINTS = { unconstrained };

    const CONSTRAINTS: Constraints = Constraints::NONE;

    ghost shape = { choice signal_parts };

    ghost tree = { λ c. elim c [ Truth truth ↦ chosen 0 (bool_tree truth) | Level level ↦ chosen 1 (level_tree level) | Mark mark ↦ chosen 2 (level_tree mark) ] };

    ghost own = { refl };
}

impl Decode for Component {
    fn decode_with_tag_and_constraints(
        decoder: &mut Decoder<'_>,
        _tag: Tag,
        constraints: &Constraints,
    ) -> Result<Component, DecodeError> {
        decoder.decode_choice::<Component>(constraints)
    }
}

/// Returns the default level.
fn usual() -> Result<u8, AllocError>
    ensures { IfOk result (λ level. level ≡ 7) }
{
    Ok(7)
}

impl DecodeChoice for Component {
    ghost use Rattle.std.specs.Prelude.{refl};
    ghost use Rattle.rasn_tests.specs.Signal.{signal_parts};

    ghost alternatives = { signal_parts };

    fn from_tag(decoder: &mut Decoder<'_>, tag: Tag) -> Result<Component, DecodeError> {
        if tag == Tag::BOOL {
            let truth = bool::decode(decoder)?;
            return Ok(Component::Truth(truth));
        }
        if tag == Tag::INTEGER {
            let level = decoder.decode_default::<u8, _>(usual)?;
            return Ok(Component::Level(level));
        }
        if tag == MARK {
            let mark = u8::decode_with_tag(decoder, MARK)?;
            return Ok(Component::Mark(mark));
        }
        Err(DecodeError::no_valid_choice(decoder.alloc(), "Signal", decoder.codec()))
    }

    ghost chooses = { refl };
}

/// Returns the value of these components. A component that is present twice is an error.
fn gather(alloc: Global, codec: Codec, components: Vec<Component>) -> Result<Signal, DecodeError> {
    let mut truth = None;
    let mut level = None;
    let mut mark = None;
    for component in components {
        match component {
            Component::Truth(value) => {
                if truth.replace(value).is_some() {
                    return Err(DecodeError::duplicate_field(alloc, "truth", codec));
                }
            }
            Component::Level(value) => {
                if level.replace(value).is_some() {
                    return Err(DecodeError::duplicate_field(alloc, "level", codec));
                }
            }
            Component::Mark(value) => {
                if mark.replace(value).is_some() {
                    return Err(DecodeError::duplicate_field(alloc, "mark", codec));
                }
            }
        }
    }
    let Some(mark) = mark else {
        return Err(DecodeError::missing_field(alloc, "mark", codec));
    };
    Ok(Signal {
        truth,
        level: level.unwrap_or(7),
        mark: Implicit::new(mark),
    })
}

/// Reads a `Signal` by its components.
pub fn decode_signal(decoder: &mut Decoder<'_>) -> Result<Signal, DecodeError> {
    let alloc = decoder.alloc();
    let codec = decoder.codec();
    decoder.decode_set::<3, 0, Component, Signal, _, _>(
        Tag::SET,
        |inner: &mut Decoder<'_>, _index: usize, _tag: Tag| -> Result<Component, DecodeError> {
            Component::decode(inner)
        },
        |components: Vec<Component>| -> Result<Signal, DecodeError> {
            gather(alloc, codec, components)
        },
    )
}
