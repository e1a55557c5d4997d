//! CHOICEs directly in one another.

use crate::types::{made, schema_of};
use rasn_dynamic::{Step, WriteError, decode, encode, fits, path_named};
use rasn_schema::constants::prelude::*;
use rasn_schema::{Schema, TypeId, Value};
use rasn_types::types::Codec;
use std::alloc::Global;

/// `First ::= CHOICE { second CHOICE { third CHOICE { fourth CHOICE { number INTEGER, again [0]
/// EXPLICIT First }, flag BOOLEAN }, none NULL } }`, which has the number 7.
const TYPES: &[StaticType] = &[
    Leaf(Signed64, Tag::INTEGER, NONE, &[]),
    Leaf(Null, Tag::NULL, NONE, &[]),
    Leaf(Boolean, Tag::BOOL, NONE, &[]),
    Tagged(tag!(Context, 0), 7),
    Choice("Fourth", &[("number", 0), ("again", 3)]),
    Choice("Third", &[("fourth", 4), ("flag", 2)]),
    Choice("Second", &[("third", 5), ("none", 1)]),
    Choice("First", &[("second", 6)]),
];

const FIRST: TypeId = TypeId(7);

/// Returns whether a value is written as these octets.
fn is_written(alloc: Global, schema: &Schema, value: &Value<'_>, octets: &[u8]) -> bool {
    match encode(alloc, Codec::Der, schema, FIRST, value) {
        Ok(written) => written.as_slice() == octets,
        Err(_) => false,
    }
}

/// Returns whether a copy of a value is equal to it and of the type, and is written as these
/// octets.
fn is_copied(alloc: Global, schema: &Schema, value: &Value<'_>, octets: &[u8]) -> bool {
    match value.try_clone(alloc) {
        Ok(copy) => {
            copy == *value && fits(schema, FIRST, &copy) && is_written(alloc, schema, &copy, octets)
        }
        Err(_) => false,
    }
}

/// Returns whether the value of these octets is written as them, and so is a copy of it, which is
/// equal to it.
fn is_kept(alloc: Global, schema: &Schema, octets: &[u8]) -> bool {
    match decode(alloc, Codec::Der, schema, FIRST, octets) {
        Ok(value) => is_copied(alloc, schema, &value, octets),
        Err(_) => false,
    }
}

// X.690 8.13: a CHOICE has no octets of its own. They are put together by hand.
const VALUES: &[&[u8]] = &[
    &[2, 1, 5],
    &[2, 1, 6],
    &[1, 1, 0xFF],
    &[5, 0],
    &[0xA0, 3, 2, 1, 5],
    &[0xA0, 2, 5, 0],
    &[0xA0, 5, 0xA0, 3, 1, 1, 0],
];

#[test]
fn alternatives_of_alternatives_are_kept(rt: HostRuntime) {
    let schema = made(&rt, rt.alloc(), TYPES);
    for octets in VALUES {
        assert!(rt; is_kept(rt.alloc(), &schema, octets));
    }
}

/// Returns whether the values of these octets are equal.
fn are_equal(alloc: Global, schema: &Schema, octets: &[u8], others: &[u8]) -> Option<bool> {
    let value = decode(alloc, Codec::Der, schema, FIRST, octets).ok()?;
    let other = decode(alloc, Codec::Der, schema, FIRST, others).ok()?;
    Some(value == other)
}

#[test]
fn other_alternatives_are_not_equal(rt: HostRuntime) {
    let schema = made(&rt, rt.alloc(), TYPES);
    for octets in VALUES {
        for others in VALUES {
            let is_same = are_equal(rt.alloc(), &schema, octets, others);
            assert!(rt; is_same == Some(octets == others));
        }
    }
}

/// Returns a NULL in so many alternatives, each the first of its CHOICE.
fn in_choices<'any>(alloc: Global, depth: usize) -> Option<Value<'any>> {
    let mut value = Value::Null;
    for _ in 0..depth {
        value = Value::Chosen(0, Box::new(alloc, value).ok()?);
    }
    Some(value)
}

/// Returns the path to the part that isn't of its type.
fn unfit_path(alloc: Global, depth: usize) -> Option<Vec<usize>> {
    let schema = schema_of(alloc, TYPES)?;
    let value = in_choices(alloc, depth)?;
    match encode(alloc, Codec::Der, &schema, FIRST, &value) {
        Err(WriteError::Unfit { path }) => Some(path.indices),
        _ => None,
    }
}

// The fourth alternative is an INTEGER, and what is inside that has no type.
#[test]
fn alternative_that_is_unfit_is_found(rt: HostRuntime) {
    let found = unfit_path(rt.alloc(), 4);
    assert!(rt; matches!(&found, Some(path) if path.as_slice() == [0, 0, 0, 0].as_slice()));
    let found = unfit_path(rt.alloc(), 2);
    assert!(rt; matches!(&found, Some(path) if path.as_slice() == [0, 0].as_slice()));
}

/// Returns the path that the names of alternatives lead along.
fn path_by_names(alloc: Global) -> Option<Vec<usize>> {
    const NAMES: &[Step<'static>] = &[
        Step::Name("second"),
        Step::Name("third"),
        Step::Name("fourth"),
        Step::Name("again"),
        Step::Name("second"),
        Step::Name("none"),
    ];
    path_named(alloc, &schema_of(alloc, TYPES)?, FIRST, NAMES).ok()?
}

// The explicit tag is a step without a name.
#[test]
fn alternatives_are_found_by_names(rt: HostRuntime) {
    let found = path_by_names(rt.alloc());
    assert!(rt;
        matches!(&found, Some(path) if path.as_slice() == [0, 0, 0, 1, 0, 0, 1].as_slice())
    );
}

/// Returns whether a value in so many CHOICEs is equal to its copy, and none of its type.
fn is_deep(alloc: Global, depth: usize) -> Option<bool> {
    let schema = schema_of(alloc, TYPES)?;
    let value = in_choices(alloc, depth)?;
    let copy = value.try_clone(alloc).ok()?;
    Some(copy == value && !fits(&schema, FIRST, &copy))
}

// Each is dropped, copied and compared without stack for each CHOICE.
#[test]
fn many_choices_take_no_stack(rt: HostRuntime) {
    assert!(rt; is_deep(rt.alloc(), 100_000) == Some(true));
}
