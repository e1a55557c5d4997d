//! When the number of elements is checked.

use crate::types::made;
use rasn_dynamic::decode;
use rasn_schema::constants::prelude::*;
use rasn_schema::{Schema, TypeId};
use rasn_types::types::Codec;
use std::alloc::Global;

const TYPES: &[StaticType] = &[
    Leaf(Boolean, Tag::BOOL, NONE, &[]),
    SequenceOf(Tag::SEQUENCE, 0, size!(1..)),
    SetOf(Tag::SET, 0, size!(1..)),
];

/// Returns whether octets are refused with an error whose kind begins with this text.
fn is_refused(alloc: Global, schema: &Schema, id: usize, octets: &[u8], kind: &str) -> bool {
    match decode(alloc, Codec::Ber, schema, TypeId(id), octets) {
        Ok(_) => false,
        Err(error) => {
            let text = format!(in alloc; "{:?}", error.kind);
            text.is_ok_and(|text| text.as_str().starts_with(kind))
        }
    }
}

const NO_ELEMENTS: &str =
    "SizeConstraintNotSatisfied { size: Some(0), expected: Range { start: Some(1), end: None } }";

// X.690 8.1.5, 8.10.1 and 8.12.1: the value ends with its end-of-contents octets, and is whole only
// then.
#[test]
fn size_is_checked_after_the_end(rt: HostRuntime) {
    const ROWS: &[(usize, &[u8], &[u8])] = &[
        (1, &[0x30, 0x80], &[0x30, 0x80, 0, 0]),
        (2, &[0x31, 0x80], &[0x31, 0x80, 0, 0]),
    ];
    let schema = made(&rt, rt.alloc(), TYPES);
    for (id, cut, whole) in ROWS {
        assert!(rt; is_refused(rt.alloc(), &schema, *id, cut, "Incomplete"));
        assert!(rt; is_refused(rt.alloc(), &schema, *id, whole, NO_ELEMENTS));
    }
}
