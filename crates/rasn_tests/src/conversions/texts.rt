//! Values, decoders and encoders as text.

use crate::reading::{assert_shown, assert_text, debug_text, decoder_of};
use crate::writing::{made, new_encoder};
use rasn::Codec;
use rasn::prelude::*;
use rasn::types::Hexadecimal;

// Octets with the first and last digits of the hexadecimal ranges.
#[test]
fn octets(rt: HostRuntime) {
    let alloc = rt.alloc();
    let octets = [0x05, 0x00, 0x9A, 0xAF, 0xF0];
    assert_shown(&rt, alloc, Hexadecimal::new(&octets), "05009AAFF0");
    assert_shown(&rt, alloc, OctetString::from_vec(Vec::new(alloc)), "");
}

// Years that have a sign by ISO 8601.
#[test]
fn days(rt: HostRuntime) {
    let alloc = rt.alloc();
    for (year, month, day, text) in [(12345, 1, 2, "+12345-01-02"), (-1, 12, 31, "-0001-12-31")] {
        let date = made(&rt, Ok(Date::new(year, month, day)));
        assert_shown(&rt, alloc, date, text);
    }
}

// A reader shows what it has passed and what is left, a writer the octets of the value that was
// opened last.
#[test]
fn readers_and_writers_are_shown(rt: HostRuntime) {
    const TRUE_AND_NULL: &[u8] = &[0x01, 0x01, 0xFF, 0x05, 0x00];
    let alloc = rt.alloc();
    let mut decoder = decoder_of(alloc, TRUE_AND_NULL, Codec::Der);
    assert!(rt; decoder.skip_value().is_ok());
    assert_text(
        &rt,
        debug_text(alloc, &decoder),
        "Decoder { codec: Der, decoded_len: 3, remaining: 2 }",
    );
    let mut encoder = new_encoder(&rt, alloc, Codec::Cer);
    assert!(rt; encoder.encode_null(Tag::NULL, Identifier::EMPTY).is_ok());
    assert_text(
        &rt,
        debug_text(alloc, &encoder),
        "Encoder { codec: Cer, written: 2 }",
    );
    assert!(rt; encoder.open(false).is_ok());
    assert_text(
        &rt,
        debug_text(alloc, &encoder),
        "Encoder { codec: Cer, written: 0 }",
    );
}
