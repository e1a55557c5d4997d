//! Values that are compared, copied and written into a buffer.

use crate::types::{A_PAIR, FLAG, LIST, PAIR, SET, TYPES, made, value};
use rasn_dynamic::{encode_buf, fits};
use rasn_schema::{Schema, TypeId, Value};
use rasn_types::types::Codec;
use std::alloc::Global;

/// Two values, each with its type.
type Row = (TypeId, &'static [u8], TypeId, &'static [u8]);

/// Returns whether the two values are equal, or none if one can't be read or they only mean the
/// same.
fn are_equal(alloc: Global, schema: &Schema, row: &Row) -> Option<bool> {
    let (id, octets, other_id, other_octets) = row;
    let one = value(alloc, schema, *id, octets)?;
    let other = value(alloc, schema, *other_id, other_octets)?;
    let equal = one == other;
    if one.means_same(&other) == equal {
        Some(equal)
    } else {
        None
    }
}

#[test]
fn elements_of_a_set_have_no_order(rt: HostRuntime) {
    const SAME: Row = (
        SET,
        &[0x31, 9, 2, 1, 1, 2, 1, 2, 2, 1, 2],
        SET,
        &[0x31, 9, 2, 1, 2, 2, 1, 1, 2, 1, 2],
    );
    const OTHERS: &[Row] = &[
        (
            SET,
            &[0x31, 9, 2, 1, 1, 2, 1, 2, 2, 1, 2],
            SET,
            &[0x31, 9, 2, 1, 1, 2, 1, 1, 2, 1, 2],
        ),
        (
            LIST,
            &[0x30, 6, 2, 1, 1, 2, 1, 2],
            LIST,
            &[0x30, 6, 2, 1, 2, 2, 1, 1],
        ),
        (SET, &[0x31, 3, 2, 1, 1], LIST, &[0x30, 3, 2, 1, 1]),
    ];
    let schema = made(&rt, rt.alloc(), TYPES);
    assert!(rt; are_equal(rt.alloc(), &schema, &SAME) == Some(true));
    for row in OTHERS {
        assert!(rt; are_equal(rt.alloc(), &schema, row) == Some(false));
    }
}

/// Returns whether the copy of a value is equal to it.
fn is_copied(alloc: Global, schema: &Schema, id: TypeId, octets: &[u8]) -> Option<bool> {
    let value = value(alloc, schema, id, octets)?;
    let copy = value.try_clone(alloc).ok()?;
    Some(copy == value)
}

#[test]
fn copies_are_equal(rt: HostRuntime) {
    let schema = made(&rt, rt.alloc(), TYPES);
    assert!(rt; is_copied(rt.alloc(), &schema, PAIR, A_PAIR) == Some(true));
}

/// Returns whether a buffer, whatever it held, holds the octets of the value alone, or nothing if
/// it has none.
fn is_written(
    alloc: Global,
    schema: &Schema,
    value: &Value<'_>,
    expected: Option<&[u8]>,
) -> Option<bool> {
    let mut buffer = Vec::from_slice(alloc, b"what it held").ok()?;
    let written = encode_buf(alloc, Codec::Der, schema, FLAG, value, &mut buffer);
    Some(match expected {
        Some(octets) => written.is_ok() && buffer.as_slice() == octets,
        None => written.is_err() && buffer.is_empty(),
    })
}

// A flag is written alone, and what isn't one leaves nothing.
#[test]
fn buffer_holds_the_value_alone(rt: HostRuntime) {
    let schema = made(&rt, rt.alloc(), TYPES);
    let flag = Value::Boolean(false);
    let null = Value::Null;
    assert!(rt; is_written(rt.alloc(), &schema, &flag, Some(&[1, 1, 0])) == Some(true));
    assert!(rt; is_written(rt.alloc(), &schema, &null, None) == Some(true));
    assert!(rt; fits(&schema, FLAG, &flag));
    assert!(rt; !fits(&schema, FLAG, &null));
}
