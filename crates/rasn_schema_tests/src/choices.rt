//! A CHOICE that may be absent, before another component (X.680 25.6, 29.3), and CHOICEs in one
//! another.

use crate::faults;
use crate::types::made;
use rasn_dynamic::{decode, decode_or_locate, encode};
use rasn_schema::constants::prelude::*;
use rasn_schema::constants::types_of;
use rasn_schema::{Schema, SchemaError, TypeId, Value};
use rasn_types::types::Codec;
use std::alloc::Global;

/// `SEQUENCE { either Either OPTIONAL, number INTEGER }`
const BEFORE_A_NUMBER: &[StaticComponent] = &[("either", Optional, 2), ("number", Required, 3)];

/// `Either ::= CHOICE { flag BOOLEAN, count [0] INTEGER }`, an INTEGER, and the SEQUENCE.
const TYPES: &[StaticType] = &[
    Leaf(Boolean, Tag::BOOL, NONE, &[]),
    Leaf(Signed64, tag!(Context, 0), NONE, &[]),
    Choice("Either", &[("flag", 0), ("count", 1)]),
    Leaf(Signed64, Tag::INTEGER, NONE, &[]),
    Sequence(Tag::SEQUENCE, BEFORE_A_NUMBER),
];

const SEQUENCE: TypeId = TypeId(4);

/// Returns whether the value of these octets is written as them under DER.
fn is_kept(alloc: Global, schema: &Schema, octets: &[u8]) -> bool {
    match decode(alloc, Codec::Der, schema, SEQUENCE, octets) {
        Ok(value) => match encode(alloc, Codec::Der, schema, SEQUENCE, &value) {
            Ok(written) => written.as_slice() == octets,
            Err(_) => false,
        },
        Err(_) => false,
    }
}

// X.690 8.9, 8.13: the octets are put together by hand.
#[test]
fn choices_are_present_or_absent(rt: HostRuntime) {
    const ROWS: &[&[u8]] = &[
        &[0x30, 3, 2, 1, 7],
        &[0x30, 6, 1, 1, 0xFF, 2, 1, 7],
        &[0x30, 6, 0x80, 1, 5, 2, 1, 7],
    ];
    let schema = made(&rt, rt.alloc(), TYPES);
    for octets in ROWS {
        assert!(rt; is_kept(rt.alloc(), &schema, octets));
    }
}

/// Returns whether these octets are refused at this offset, at the end of these steps.
fn is_refused_at(
    alloc: Global,
    schema: &Schema,
    octets: &[u8],
    offset: usize,
    steps: &[usize],
) -> bool {
    match decode_or_locate(alloc, Codec::Der, schema, SEQUENCE, octets) {
        Ok(_) => false,
        Err(refusal) => refusal.offset == offset && refusal.steps.as_slice() == steps,
    }
}

// A second alternative is at the place of the number.
#[test]
fn two_choices_are_refused(rt: HostRuntime) {
    const BOTH: &[u8] = &[0x30, 9, 1, 1, 0xFF, 0x80, 1, 5, 2, 1, 7];
    let schema = made(&rt, rt.alloc(), TYPES);
    assert!(rt; is_refused_at(rt.alloc(), &schema, BOTH, 5, &[1]));
}

/// Returns the components that clash in the SEQUENCE of these components, added to the types.
fn clash(alloc: Global, components: &'static [StaticComponent]) -> Option<(usize, usize)> {
    let mut defined = types_of(alloc, TYPES).ok()?;
    let sequence = types_of(alloc, &[Sequence(Tag::SEQUENCE, components)]).ok()?;
    defined.extend(sequence).ok()?;
    match Schema::new(defined) {
        Err(SchemaError::ComponentsClash { index, other, .. }) => Some((index, other)),
        _ => None,
    }
}

// X.680 25.6: the first tags of the CHOICE aren't those of what may follow.
#[test]
fn choices_are_told_from_what_follows(rt: HostRuntime) {
    const BEFORE_ITS_FLAG: &[StaticComponent] = &[("either", Optional, 2), ("flag", Required, 0)];
    const BEFORE_ITS_COUNT: &[StaticComponent] = &[
        ("either", Optional, 2),
        ("number", Optional, 3),
        ("count", Optional, 1),
    ];
    assert!(rt; clash(rt.alloc(), BEFORE_ITS_FLAG) == Some((0, 1)));
    assert!(rt; clash(rt.alloc(), BEFORE_ITS_COUNT) == Some((0, 2)));
}

/// Returns whether the indices of CHOICEs in one another, from the outermost on, are these, and the
/// innermost value is this one.
fn is_chosen(outermost: &Value<'_>, path: &[usize], innermost: &Value<'_>) -> bool {
    let mut value = outermost;
    for index in path {
        match value {
            Value::Chosen(number, inner) if number == index => value = inner,
            _ => return false,
        }
    }
    value.means_same(innermost)
}

/// Returns whether octets are read as such a value: a BOOLEAN, or a NULL if there is no truth.
fn is_read_as(
    alloc: Global,
    schema: &Schema,
    octets: &[u8],
    path: &[usize],
    truth: Option<bool>,
) -> bool {
    let innermost = match truth {
        Some(truth) => Value::Boolean(truth),
        None => Value::Null,
    };
    match decode(alloc, Codec::Der, schema, TypeId(14), octets) {
        Ok(value) => is_chosen(&value, path, &innermost),
        Err(_) => false,
    }
}

// X.690 8.13.1: a CHOICE is encoded as its alternative, so all of them have the same octets.
#[test]
fn choices_in_one_another_are_read(rt: HostRuntime) {
    const ROWS: &[(&[u8], &[usize], Option<bool>, bool)] = &[
        (&[5, 0], &[0], None, true),
        (&[1, 1, 0xFF], &[1, 1, 1, 0], Some(true), true),
        (&[1, 1, 0], &[1, 1, 1, 0], Some(false), true),
        (&[1, 1, 0], &[1, 1, 0, 0], Some(false), false),
    ];
    let alloc = rt.alloc();
    let schema = made(&rt, alloc, faults::TYPES);
    for (octets, path, truth, is_so) in ROWS {
        assert!(rt; is_read_as(alloc, &schema, octets, path, *truth) == *is_so);
    }
}
