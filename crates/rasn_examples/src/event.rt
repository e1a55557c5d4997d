//! `Event ::= SET { time Time, level [0] IMPLICIT INTEGER (0..255) DEFAULT 7, confirmed [1]
//! IMPLICIT BOOLEAN OPTIONAL }`
//!
//! It is read and written by closures, as an example of a SET and of a CHOICE.
//!
//! # A CHOICE
//! `DecodeChoice::from_tag` reads the alternative of the next tag. It needs an answer for each `?`,
//! each value and the end: `alternative_refused`, `alternative_got` and `no_alternative`, with
//! `only` if the tag belongs to this alternative alone, and `nowhere` if it belongs to none.
//! `encode_choice` takes a closure that writes the alternative and returns its tag
//! (`EncodesAlternative`).
//!
//! # A SET
//! Components are read as values of an enum with a variant for each part, whose shape is `choice`
//! of the parts; a closure makes the value of all of them (`MakesSet`). It keeps an `Option` for
//! each part, and refuses one that is present twice and, at the end, a required one that is
//! missing; the invariant of its loop is `Slot` of `Components.antt`. In `from_tag` a default part
//! is read by a default form, an optional part as its value, and a CHOICE by each of its tags, with
//! a lemma that it alone has them (`time_alone` of `EventComponents.antt`).
//!
//! # Errors
//! A type that closures read also says by `errors` which error a refused reading has: `from_tag`
//! that of the alternative with the next tag, the closure of `decode_set` in its clause `named` the
//! component that is present twice or missing, and the closure of `decode_sequence` that of the
//! first part that isn't read (`both.rt`).
//!
//! # Offsets of times
//! A type that closures read also says by `beyond` that a GeneralizedTime has the offset of its
//! text. The closure of `decode_set` says which components the parts are, and the method's answer
//! starts from `beyond`. That of `decode_sequence` says what is kept of the octets between
//! `decoder.old` and `decoder.new`, and the answer starts from `exact`, by `read_inside` of
//! `Beyond.antt` (`both.rt`). For `decode_choice`, `from_tag` has the ghost member `beyond`, and no
//! answer is needed.
ghost use Rattle.std.specs.Prelude.{◌≡◌, false, Err, IfOk, IfErr, map};
ghost use Rattle.rasn_types.specs.Shapes.{IsFirst};
ghost use Rattle.rasn_de.specs.Set.{MakesSet};
ghost use Rattle.rasn_de.specs.SetPartTypes.{MakesNamed};
ghost use Rattle.rasn_enc.specs.Sequence.{EncodesParts};
ghost use Rattle.rasn_examples.specs.Times.{time_shape};
ghost use Rattle.rasn_examples.specs.Event.{event_parts, event_tree, event_names, component_tree, HoldsTime};
ghost use Rattle.rasn_types.specs.Truth.{IsWhether};

use crate::Time;
use rasn::de::{DecodeChoice, Error};
use rasn::error::{DecodeError, EncodeError};
use rasn::types::{
    AsnType, Class, Codec, Constraints, Constructed, Field, FieldPresence, Fields, GeneralizedTime,
    Identifier, LawfulEq, Present, Tag, UtcTime,
};
use rasn::{Decode, Decoder, Encode, Encoder};
use std::alloc::{AllocError, Global};

const LEVEL: Tag = Tag {
    class: Class::Context,
    value: 0,
};

const CONFIRMED: Tag = Tag {
    class: Class::Context,
    value: 1,
};

/// SET { time Time, level \[0\] INTEGER (0..255) DEFAULT 7, confirmed \[1\] BOOLEAN OPTIONAL },
/// with implicit tags.
#[derive(Debug, PartialEq, Eq, Drop)]
pub struct Event {
    pub time: Time,
    pub level: u8,
    pub confirmed: Option<bool>,
}

impl AsnType for Event {
    ghost use Rattle.std.specs.Prelude.{refl};
    ghost use Rattle.rasn_types.specs.Tags.{in_universal};
    ghost use Rattle.rasn_types.specs.Trees.{unconstrained};
    ghost use Rattle.rasn_examples.specs.Event.{event_shape, event_tree};

    ghost TAG = { in_universal 17 };

    const TAG: Tag = Tag::SET;

    ghost CONSTRAINTS = { unconstrained };

    const CONSTRAINTS: Constraints = Constraints::NONE;

    ghost shape = { event_shape };

    ghost tree = { event_tree };

    ghost own = { refl };
}

impl LawfulEq for Event {
    ghost use Rattle.rasn_types.specs.Deciding.{deciding};
    ghost use Rattle.rasn_examples.specs.contracts.time.TimeLawfulEq.TheImpl.Laws.{decides-law as time_law};

    ghost decides = { Prim.search (time_law, deciding) depth 64 };
}

impl Present for Event {
    ghost use Rattle.rasn_types.specs.Equality.{parts_not_absent};

    ghost present = { λ _. parts_not_absent };
}

impl Constructed<3, 0> for Event {
    ghost use Rattle.std.specs.Prelude.{refl, true, false};
    ghost use Rattle.rasn_examples.specs.Event.{event_parts};

    const FIELDS: Fields<3> = Fields {
        fields: [
            Field {
                index: 0,
                tag: Tag::EOC,
                presence: FieldPresence::Required,
                name: "time",
            },
            Field {
                index: 1,
                tag: LEVEL,
                presence: FieldPresence::Default,
                name: "level",
            },
            Field {
                index: 2,
                tag: CONFIRMED,
                presence: FieldPresence::Optional,
                name: "confirmed",
            },
        ],
    };

    const EXTENDED_FIELDS: Option<Fields<0>> = None;

    ghost IS_EXTENSIBLE = { false };

    const IS_EXTENSIBLE: bool = false;

    ghost HAS_REQUIRED_FIELDS = { true };

    const HAS_REQUIRED_FIELDS: bool = true;

    ghost parts = { event_parts };

    ghost described = { refl };
}

/// Returns the default level.
fn usual() -> Result<u8, AllocError>
    ensures { IfOk result (λ level. level ≡ 7) }
{
    Ok(7)
}

/// Returns whether values of `Time` may begin with the tag.
fn is_time(tag: Tag) -> bool
    ensures { IsWhether result (IsFirst time_shape tag) }
{
    tag == UtcTime::TAG || tag == GeneralizedTime::TAG
}

/// A component of an `Event`.
#[derive(Drop)]
enum Component {
    At(Time),
    Level(u8),
    Confirmed(bool),
}

impl AsnType for Component {
    ghost use Rattle.std.specs.Prelude.{refl};
    ghost use Rattle.rasn_types.specs.Tags.{eoc};
    ghost use Rattle.rasn_types.specs.Shapes.{choice};
    ghost use Rattle.rasn_types.specs.Trees.{unconstrained};
    ghost use Rattle.rasn_examples.specs.Event.{event_parts, component_tree};

    ghost TAG = { eoc };

    const TAG: Tag = Tag::EOC;

    ghost CONSTRAINTS = { unconstrained };

    const CONSTRAINTS: Constraints = Constraints::NONE;

    ghost shape = { choice event_parts };

    ghost tree = { component_tree };

    ghost own = { refl };
}

impl Decode for Component {
    ghost use Rattle.rasn_examples.specs.Event.{DecodesComponent, OrNoTag};

    ghost beyond = { λ _. DecodesComponent };

    ghost errors = { λ _ _. OrNoTag ⟦<Component as DecodeChoice>⟧.errors };

    fn decode_with_tag_and_constraints(
        decoder: &mut Decoder<'_>,
        _tag: Tag,
        constraints: &Constraints,
    ) -> Result<Component, DecodeError> {
        decoder.decode_choice::<Component>(constraints)
    }
}

impl DecodeChoice for Component {
    ghost use Rattle.std.specs.Prelude.{refl};
    ghost use Rattle.rasn_examples.specs.Event.{context, event_parts, DecodesComponent, component_errors, level_errors};

    ghost alternatives = { event_parts };

    ghost beyond = { DecodesComponent };

    ghost errors = { component_errors (⟦<Time as Decode>⟧.errors ⟦<Time as AsnType>⟧.TAG ⟦<Time as AsnType>⟧.CONSTRAINTS) (level_errors (⟦<u8 as Decode>⟧.errors (context 0) ⟦<u8 as AsnType>⟧.CONSTRAINTS)) (⟦<bool as Decode>⟧.errors (context 1) ⟦<bool as AsnType>⟧.CONSTRAINTS) };

    fn from_tag(decoder: &mut Decoder<'_>, tag: Tag) -> Result<Component, DecodeError> {
        if is_time(tag) {
            let time = Time::decode(decoder)?;
            return Ok(Component::At(time));
        }
        if tag == LEVEL {
            let level = decoder.decode_default_with_tag::<u8, _>(LEVEL, usual)?;
            return Ok(Component::Level(level));
        }
        if tag == CONFIRMED {
            let confirmed = bool::decode_with_tag(decoder, CONFIRMED)?;
            return Ok(Component::Confirmed(confirmed));
        }
        Err(DecodeError::no_valid_choice(decoder.alloc(), "Event", decoder.codec()))
    }

    ghost chooses = { refl };
}

/// Returns the value of these components. A component that is present twice is an error.
fn gather(alloc: Global, codec: Codec, components: Vec<Component>) -> Result<Event, DecodeError>
    ensures makes { MakesSet event_parts event_tree (map component_tree components.items) result }
    ensures beyond { IfOk result (HoldsTime components.items) }
    ensures rules { IfErr result (λ e. e.codec ≡ codec) }
    ensures named { IfErr result (λ e. MakesNamed false event_parts event_tree event_names codec (map component_tree components.items) (Err e)) }
{
    let mut time = None;
    let mut level = None;
    let mut confirmed = None;
    for component in components {
        match component {
            Component::At(moment) => {
                if time.replace(moment).is_some() {
                    return Err(DecodeError::duplicate_field(alloc, "time", codec));
                }
            }
            Component::Level(number) => {
                if level.replace(number).is_some() {
                    return Err(DecodeError::duplicate_field(alloc, "level", codec));
                }
            }
            Component::Confirmed(truth) => {
                if confirmed.replace(truth).is_some() {
                    return Err(DecodeError::duplicate_field(alloc, "confirmed", codec));
                }
            }
        }
    }
    let Some(time) = time else {
        return Err(DecodeError::missing_field(alloc, "time", codec));
    };
    let level = level.unwrap_or(7);
    Ok(Event {
        time,
        level,
        confirmed,
    })
}

impl Decode for Event {
    ghost use Rattle.std.specs.Prelude.{IfOk};
    ghost use Rattle.rasn_examples.specs.Event.{event_beyond, event_errors};

    ghost beyond = { λ tag old result _. IfOk result (event_beyond tag old) };

    ghost errors = { λ tag _. event_errors (⟦<Component as Decode>⟧.errors ⟦<Component as AsnType>⟧.TAG ⟦<Component as AsnType>⟧.CONSTRAINTS) tag };

    fn decode_with_tag_and_constraints(
        decoder: &mut Decoder<'_>,
        tag: Tag,
        _constraints: &Constraints,
    ) -> Result<Event, DecodeError> {
        let alloc = decoder.alloc();
        let codec = decoder.codec();
        decoder.decode_set::<3, 0, Component, Event, _, _>(
            tag,
            |decoder: &mut Decoder<'_>, _index: usize, _tag: Tag| -> Result<
                Component,
                DecodeError,
            > { Component::decode(decoder) },
            |components: Vec<Component>| -> Result<Event, DecodeError>
                ensures makes { MakesSet event_parts event_tree (map component_tree components.items) result }
                ensures beyond { IfOk result (HoldsTime components.items) }
                ensures rules { IfErr result (λ e. e.codec ≡ codec) }
                ensures named { IfErr result (λ e. MakesNamed false event_parts event_tree event_names codec (map component_tree components.items) (Err e)) }
            { gather(alloc, codec, components) },
        )
    }
}

impl Encode for Event {
    fn encode_with_tag_and_constraints(
        &self,
        encoder: &mut Encoder,
        tag: Tag,
        _constraints: &Constraints,
        identifier: Identifier,
    ) -> Result<(), EncodeError> {
        encoder.encode_set::<3, 0, Event, _>(
            tag,
            |inner: &mut Encoder| -> Result<(), EncodeError>
                ensures writes { EncodesParts event_parts (event_tree self.entry.now) inner.old result inner.new }
                ensures rules { IfErr result (λ e. e.codec ≡ inner.old.rule) }
            {
                self.time.encode(inner)?;
                inner.encode_default_with_tag(LEVEL, &self.level, usual, Identifier::EMPTY)?;
                self.confirmed
                    .encode_with_tag(inner, CONFIRMED, Identifier::EMPTY)
            },
            identifier,
        )
    }

    fn is_present(&self) -> bool {
        true
    }
}
