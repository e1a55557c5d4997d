//! Small schemas, whose octets are put together by hand (X.690 8).

use crate::types::schema_of;
use rasn_schema::TypeId;
use rasn_schema::constants::prelude::*;
use rasn_schema_bench::{CERTIFICATE, CERTIFICATE_TYPES, FILTER, FILTER_TYPES};
use rasn_schema_octets::{Compiled, read, write};
use std::alloc::Global;

/// Types, the number of one of them, and the octets.
type Row = (&'static [StaticType], usize, &'static [u8]);

const ROWS: &[Row] = &[
    // A BOOLEAN: version 1, type 0, no constraint unchecked, no names; a leaf of kind 0 with the
    // tag universal 1, no constraints and no names of numbers.
    (
        &[Leaf(Boolean, Tag::BOOL, NONE, &[])],
        0,
        &[
            0x30, 0x17, 0x02, 0x01, 0x01, 0x02, 0x01, 0x00, 0x02, 0x01, 0x00, 0x30, 0x0C, 0xA0,
            0x0A, 0x0A, 0x01, 0x00, 0x80, 0x01, 0x01, 0x30, 0x00, 0x30, 0x00,
        ],
    ),
    // An open type, and type 1, SEQUENCE SIZE (1..MAX) OF it with the tag [0]: its size has an end.
    (
        &[Any(Tag::EOC), SequenceOf(tag!(Context, 0), 0, size!(1..))],
        1,
        &[
            0x30, 0x26, 0x02, 0x01, 0x01, 0x02, 0x01, 0x01, 0x02, 0x01, 0x00, 0x30, 0x1B, 0xA2,
            0x03, 0x80, 0x01, 0x00, 0xA7, 0x14, 0x82, 0x01, 0x00, 0x02, 0x01, 0x00, 0x30, 0x0C,
            0xA1, 0x0A, 0x01, 0x01, 0x00, 0xA2, 0x05, 0xA0, 0x03, 0x02, 0x01, 0x01,
        ],
    ),
];

/// Returns the octets of a schema of these types.
fn octets_of(alloc: Global, table: &[StaticType], root: TypeId) -> Option<Vec<u8>> {
    let schema = schema_of(alloc, table)?;
    write(alloc, &schema, root, 0).ok()
}

/// Returns the octets of the schema that is read from octets.
fn written_again(alloc: Global, octets: &[u8]) -> Option<Vec<u8>> {
    let Compiled {
        schema,
        root,
        unchecked,
    } = read(alloc, octets).ok()?;
    write(alloc, &schema, root, unchecked).ok()
}

#[test]
fn schemas_have_these_octets(rt: HostRuntime) {
    for (table, root, octets) in ROWS {
        let written = octets_of(rt.alloc(), *table, TypeId(*root));
        assert!(rt; matches!(&written, Some(found) if found.as_slice() == *octets));
        let again = written_again(rt.alloc(), *octets);
        assert!(rt; matches!(&again, Some(found) if found.as_slice() == *octets));
    }
}

/// Returns whether the schema that is read from the octets of these types has the same octets.
fn is_read_back(alloc: Global, table: &[StaticType], root: TypeId) -> Option<bool> {
    let octets = octets_of(alloc, table, root)?;
    let again = written_again(alloc, &octets)?;
    Some(again.as_slice() == octets.as_slice())
}

#[test]
fn messages_are_read_back(rt: HostRuntime) {
    let is_certificate = is_read_back(rt.alloc(), CERTIFICATE_TYPES, CERTIFICATE);
    assert!(rt; is_certificate.unwrap_or(false));
    let is_filter = is_read_back(rt.alloc(), FILTER_TYPES, FILTER);
    assert!(rt; is_filter.unwrap_or(false));
}
