//! Which types some types are made of.

use crate::faults;
use rasn_schema::constants::prelude::*;
use rasn_schema::constants::types_of;
use rasn_schema::{Schema, TypeId};
use std::alloc::Global;

/// `List ::= SEQUENCE { first BOOLEAN, rest List OPTIONAL }`, then two types that are made of each
/// other, and one that is made of neither.
const RECURSIVE: &[StaticType] = &[
    Leaf(Boolean, Tag::BOOL, NONE, &[]),
    Sequence(Tag::SEQUENCE, LIST),
    SequenceOf(Tag::SEQUENCE, 3, NONE),
    SetOf(Tag::SET, 2, NONE),
    Leaf(Null, Tag::NULL, NONE, &[]),
];

const LIST: &[StaticComponent] = &[("first", Required, 0), ("rest", Optional, 1)];

/// Types, the numbers of some of them, and those of all that they are made of, in order.
type Row = (&'static [StaticType], &'static [TypeId], &'static [usize]);

// The types are followed by hand.
const ROWS: &[Row] = &[
    (faults::TYPES, &[], &[]),
    (faults::TYPES, &[TypeId(0)], &[0]),
    (faults::TYPES, &[TypeId(3)], &[0, 1, 2, 3]),
    (faults::TYPES, &[TypeId(4)], &[0, 1, 2, 3, 4]),
    (faults::TYPES, &[TypeId(13)], &[0, 1, 2, 10, 11, 12, 13]),
    (faults::TYPES, &[TypeId(7), TypeId(9)], &[0, 6, 7, 9]),
    (faults::TYPES, &[TypeId(9), TypeId(9), TypeId(15)], &[9]),
    (RECURSIVE, &[TypeId(1)], &[0, 1]),
    (RECURSIVE, &[TypeId(2)], &[2, 3]),
    (RECURSIVE, &[TypeId(4), TypeId(3)], &[2, 3, 4]),
];

/// Returns whether the types are made of those that a row has.
fn is_reached(alloc: Global, row: &Row) -> Option<bool> {
    let (table, roots, expected) = row;
    let schema = Schema::new(types_of(alloc, *table).ok()?).ok()?;
    let marks = schema.reached_from(alloc, *roots).ok()?;
    let mut found = Vec::new(alloc);
    for (number, is_marked) in marks.iter().enumerate() {
        if *is_marked {
            found.push(number).ok()?;
        }
    }
    Some(marks.len() == schema.types().len() && found.as_slice() == *expected)
}

#[test]
fn types_are_reached_by_their_parts(rt: HostRuntime) {
    for row in ROWS {
        assert!(rt; is_reached(rt.alloc(), row) == Some(true));
    }
}
