//! Where an input is refused.

use crate::types::made;
use rasn_dynamic::{Refusal, check_or_locate, decode_or_locate};
use rasn_schema::constants::prelude::*;
use rasn_schema::{Schema, TypeId};
use rasn_types::types::Codec;
use std::alloc::Global;
use std::process::Abort;

const PAIR: &[StaticComponent] = &[("flag", Required, 0), ("number", Required, 1)];

pub const TYPES: &[StaticType] = &[
    Leaf(Boolean, Tag::BOOL, NONE, &[]),
    Leaf(Signed64, Tag::INTEGER, NONE, &[]),
    Sequence(Tag::SEQUENCE, PAIR),
    SequenceOf(Tag::SEQUENCE, 2, NONE),
    Tagged(tag!(Context, 0), 3),
    Choice("Any", &[("flag", 0), ("list", 3), ("tagged", 4)]),
    Unknown,
    Sequence(Tag::SEQUENCE, EXTENSIBLE),
    Set("Open", Tag::SET, OPEN),
    Leaf(Null, Tag::NULL, NONE, &[]),
    Tagged(tag!(Context, 0), 1),
    Choice("Fourth", &[("flag", 0), ("pair", 2)]),
    Choice("Third", &[("number", 1), ("fourth", 11)]),
    Choice("Second", &[("tagged", 10), ("third", 12)]),
    Choice("First", &[("none", 9), ("second", 13)]),
];

const EXTENSIBLE: &[StaticComponent] = &[("flag", Required, 0), ("...", Required, 6)];

const OPEN: &[StaticComponent] = &[
    ("flag", Required, 0),
    ("number", Required, 1),
    ("...", Required, 6),
];

/// Where octets are refused: the offset, the type of what is there, the steps to it, and how the
/// refusal with its names begins.
type Place = (usize, usize, &'static [usize], &'static str);

/// Returns whether a refusal is at this place.
fn is_at(alloc: Global, refusal: &Refusal, schema: &Schema, id: TypeId, place: &Place) -> bool {
    let (offset, inner, steps, shown) = place;
    let text = format!(in alloc; "{}", refusal.with_names(schema, id));
    refusal.offset == *offset
        && refusal.id == TypeId(*inner)
        && refusal.steps.as_slice() == *steps
        && !refusal.is_cut
        && text.is_ok_and(|text| text.as_str().starts_with(*shown))
}

/// Returns whether octets are refused at this place when a value is to be made.
fn is_unread_at(alloc: Global, schema: &Schema, row: &Row) -> bool {
    let (id, octets, place) = row;
    match decode_or_locate(alloc, Codec::Ber, schema, TypeId(*id), octets) {
        Ok(_) => false,
        Err(refusal) => is_at(alloc, &refusal, schema, TypeId(*id), place),
    }
}

/// Returns whether octets are refused at this place when they are only checked.
fn is_unchecked_at(alloc: Global, schema: &Schema, row: &Row) -> bool {
    let (id, octets, place) = row;
    match check_or_locate(alloc, Codec::Ber, schema, TypeId(*id), octets) {
        Ok(_) => false,
        Err(refusal) => is_at(alloc, &refusal, schema, TypeId(*id), place),
    }
}

/// Asserts that the octets of each row are refused at its place, whether a value is made or not.
fn assert_refused(rt: &impl Abort, alloc: Global, rows: &[Row]) {
    let schema = made(rt, alloc, TYPES);
    for row in rows {
        assert!(rt; is_unread_at(alloc, &schema, row));
        assert!(rt; is_unchecked_at(alloc, &schema, row));
    }
}

/// A type, octets, and where they are refused.
type Row = (usize, &'static [u8], Place);

// X.690 8.1.2, 8.1.3, 8.2.1, 8.3.1: offsets are counted in the octets by hand.
#[test]
fn innermost_value_is_named(rt: HostRuntime) {
    const ROWS: &[Row] = &[
        (
            3,
            &[0x30, 14, 0x30, 6, 1, 1, 0xFF, 2, 1, 7, 0x30, 4, 1, 2, 0, 0],
            (12, 0, &[1, 0], "[1].flag, byte 12: BER: "),
        ),
        (
            3,
            &[0x30, 0x80, 0x30, 0x80, 1, 1, 0xFF, 2, 0, 0, 0, 0, 0],
            (7, 1, &[0, 1], "[0].number, byte 7: BER: "),
        ),
        (
            2,
            &[0x30, 6, 1, 1, 0xFF, 2, 2, 7],
            (5, 1, &[1], "number, byte 5: BER: "),
        ),
        (
            2,
            &[0x30, 3, 1, 1, 0xFF],
            (5, 1, &[1], "number, byte 5: BER: "),
        ),
        (
            5,
            &[0xA0, 2, 4, 0],
            (2, 3, &[2, 0], "tagged, byte 2: BER: "),
        ),
        (2, &[0x31, 0], (0, 2, &[], "byte 0: BER: ")),
        (
            7,
            &[0x30, 7, 1, 1, 0xFF, 5, 0, 5, 1],
            (5, 6, &[1], "[1], byte 5: BER: "),
        ),
        (
            8,
            &[0x31, 9, 5, 0, 2, 1, 7, 1, 2, 0, 0],
            (7, 0, &[0], "flag, byte 7: BER: "),
        ),
        (
            8,
            &[0x31, 5, 1, 1, 0xFF, 5, 5],
            (5, 6, &[2], "[2], byte 5: BER: "),
        ),
        (
            8,
            &[0x31, 7, 1, 1, 0xFF, 0xA0, 0x80, 5, 0],
            (5, 6, &[2], "[2], byte 5: BER: "),
        ),
        (
            8,
            &[0x31, 7, 5, 0, 0x80, 1, 0x55, 5, 5],
            (7, 6, &[2], "[2], byte 7: BER: "),
        ),
        (
            8,
            &[0x31, 6, 5, 0, 0xA0, 2, 1, 5],
            (0, 8, &[], "byte 0: BER: "),
        ),
    ];
    assert_refused(&rt, rt.alloc(), ROWS);
}

// X.690 8.13: of CHOICEs in one another each is a step, whichever of their alternatives is refused.
#[test]
fn choices_in_one_another_are_steps(rt: HostRuntime) {
    const ROWS: &[Row] = &[
        (14, &[4, 0], (0, 14, &[], "byte 0: BER: ")),
        (14, &[5, 1, 0], (0, 9, &[0], "none, byte 0: BER: ")),
        (
            14,
            &[0xA0, 2, 2, 0],
            (2, 1, &[1, 0, 0], "second.tagged, byte 2: BER: "),
        ),
        (
            14,
            &[2, 0],
            (0, 1, &[1, 1, 0], "second.third.number, byte 0: BER: "),
        ),
        (
            14,
            &[1, 2, 0, 0],
            (
                0,
                0,
                &[1, 1, 1, 0],
                "second.third.fourth.flag, byte 0: BER: ",
            ),
        ),
        (
            14,
            &[0x30, 5, 1, 1, 0xFF],
            (
                0,
                2,
                &[1, 1, 1, 1],
                "second.third.fourth.pair, byte 0: BER: ",
            ),
        ),
        (
            14,
            &[0x30, 6, 1, 1, 0xFF, 2, 2, 7],
            (
                5,
                1,
                &[1, 1, 1, 1, 1],
                "second.third.fourth.pair.number, byte 5: BER: ",
            ),
        ),
    ];
    assert_refused(&rt, rt.alloc(), ROWS);
}
