//! Character strings (X.690 8.23), in segments under CER (9.2).

use crate::writing::{assert_output, assert_refuses, assert_written, made, new_encoder};
use rasn_types::types::{
    BmpString, Bound, Bounded, Codec, Constraints, GeneralString, GraphicString, Ia5String,
    Identifier, NumericString, PrintableString, Tag, TeletexString, VisibleString,
};

/// SIZE (2)
const SIZE_2: Constraints = Constraints {
    value: None,
    size: Some(Bound {
        constraint: Bounded::Single(2),
        extensible: false,
    }),
};

#[test]
fn calls_write_numeric_to_ia5(rt: HostRuntime) {
    let alloc = rt.alloc();
    let mut encoder = new_encoder(&rt, alloc, Codec::Der);
    let any = Constraints::NONE;
    let none = Identifier::EMPTY;
    assert_written(
        &rt,
        encoder.encode_numeric_string(
            Tag::NUMERIC_STRING,
            &any,
            &made(&rt, NumericString::from_octets(alloc, b"1")),
            none,
        ),
    );
    assert_written(
        &rt,
        encoder.encode_printable_string(
            Tag::PRINTABLE_STRING,
            &any,
            &made(&rt, PrintableString::from_octets(alloc, b"A")),
            none,
        ),
    );
    assert_written(
        &rt,
        encoder.encode_teletex_string(
            Tag::TELETEX_STRING,
            &any,
            &made(&rt, TeletexString::from_octets(alloc, &[0xC8])),
            none,
        ),
    );
    assert_written(
        &rt,
        encoder.encode_ia5_string(
            Tag::IA5_STRING,
            &any,
            &made(&rt, Ia5String::from_octets(alloc, b"A")),
            none,
        ),
    );
    const FOUR_STRINGS: &[u8] = &[
        0x12, 0x01, 0x31, 0x13, 0x01, 0x41, 0x14, 0x01, 0xC8, 0x16, 0x01, 0x41,
    ];
    assert_output(&rt, encoder.output(), FOUR_STRINGS);
}

#[test]
fn calls_write_graphic_to_general(rt: HostRuntime) {
    let alloc = rt.alloc();
    let mut encoder = new_encoder(&rt, alloc, Codec::Der);
    let any = Constraints::NONE;
    let none = Identifier::EMPTY;
    assert_written(
        &rt,
        encoder.encode_graphic_string(
            Tag::GRAPHIC_STRING,
            &any,
            &made(&rt, GraphicString::from_octets(alloc, b"A")),
            none,
        ),
    );
    assert_written(
        &rt,
        encoder.encode_visible_string(
            Tag::VISIBLE_STRING,
            &any,
            &made(&rt, VisibleString::from_octets(alloc, b"A")),
            none,
        ),
    );
    assert_written(
        &rt,
        encoder.encode_general_string(
            Tag::GENERAL_STRING,
            &any,
            &made(&rt, GeneralString::from_octets(alloc, b"A")),
            none,
        ),
    );
    const THREE_STRINGS: &[u8] = &[0x19, 0x01, 0x41, 0x1A, 0x01, 0x41, 0x1B, 0x01, 0x41];
    assert_output(&rt, encoder.output(), THREE_STRINGS);
}

// The size of a UTF8String counts characters, that of a BMPString counts units.
#[test]
fn checks_sizes_in_characters_and_units(rt: HostRuntime) {
    let alloc = rt.alloc();
    let mut encoder = new_encoder(&rt, alloc, Codec::Der);
    let none = Identifier::EMPTY;
    assert_written(
        &rt,
        encoder.encode_utf8_string(Tag::UTF8_STRING, &SIZE_2, "ëa", none),
    );
    let units = made(
        &rt,
        BmpString::from_octets(alloc, &[0x00, 0x41, 0x00, 0x42]),
    );
    let answer = encoder.encode_bmp_string(Tag::BMP_STRING, &SIZE_2, &units, none);
    assert_written(&rt, answer);
    let answer = encoder.encode_utf8_string(Tag::UTF8_STRING, &SIZE_2, "abc", none);
    const THREE_NOT_TWO: &str = "SizeConstraintNotSatisfied { size: 3, expected: Single(2) }";
    assert_refuses(&rt, alloc, Codec::Der, answer, THREE_NOT_TWO);
    const TWO_CHARACTERS_AND_TWO_UNITS: &[u8] = &[
        0x0C, 0x03, 0xC3, 0xAB, 0x61, 0x1E, 0x04, 0x00, 0x41, 0x00, 0x42,
    ];
    assert_output(&rt, encoder.output(), TWO_CHARACTERS_AND_TWO_UNITS);
}
