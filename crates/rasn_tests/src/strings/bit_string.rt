//! BIT STRING (X.690 8.6), in segments under CER (9.2).

use crate::writing::{assert_output, assert_written, made, new_encoder};
use rasn_types::types::{BitStr, Codec, Constraints, Identifier, Tag};
use std::alloc::Global;
use std::process::Abort;

/// Asserts that these rules write the bits as these octets.
fn assert_writes_bits(
    rt: &impl Abort,
    alloc: Global,
    rules: Codec,
    bits: &BitStr<'_>,
    octets: &[u8],
) {
    let mut encoder = new_encoder(rt, alloc, rules);
    let answer = encoder.encode_bit_string(
        Tag::BIT_STRING,
        &Constraints::NONE,
        bits,
        Identifier::EMPTY,
    );
    assert_written(rt, answer);
    assert_output(rt, encoder.output(), octets);
}

// The bits 1,1,0,1,0,1,0,1,1,0,1, the last ten of them, and no bits (X.690 8.6.2).
#[test]
fn writes_bits(rt: HostRuntime) {
    let alloc = rt.alloc();
    let bits = made(&rt, Ok(BitStr::new(&[0xD5, 0xBF], 0, 11)));
    assert!(rt; bits.len() == 11);
    let (none, _) = bits.split_at(0);
    let (_, ten) = bits.split_at(1);
    for rules in [Codec::Ber, Codec::Cer, Codec::Der] {
        assert_writes_bits(&rt, alloc, rules, &bits, &[0x03, 0x03, 0x05, 0xD5, 0xA0]);
        assert_writes_bits(&rt, alloc, rules, &ten, &[0x03, 0x03, 0x06, 0xAB, 0x40]);
        assert_writes_bits(&rt, alloc, rules, &none, &[0x03, 0x01, 0x00]);
    }
}
