//! Headers in more octets than needed (X.690 8.1.2.4, 8.1.3.5), lengths beyond any input, and
//! universal 0 (8.1.5).

use crate::reading::{answers_octets, assert_answer, decoder_of};
use crate::writing::of_pieces;
use rasn::types::{Codec, Constraints, Tag};
use std::alloc::Global;
use std::process::Abort;

/// Asserts that the octets are an OCTET STRING of one octet with a long header.
fn assert_reads_one_octet(rt: &impl Abort, alloc: Global, octets: &[u8]) {
    let mut decoder = decoder_of(alloc, octets, Codec::Ber);
    let answer = decoder.decode_octet_string(Tag::OCTET_STRING, &Constraints::NONE);
    assert!(rt; answers_octets(answer, &[0xA1], true));
    assert!(rt; decoder.remaining().is_empty());
}

// A length may have 126 octets, all but the last of them zero, except under DER (X.690 8.1.3.5,
// 10.1).
#[test]
fn lengths_of_126_octets(rt: HostRuntime) {
    let alloc = rt.alloc();
    match of_pieces(alloc, &[(&[0x04, 0xFE], 0, 125), (&[0x01, 0xA1], 0, 0)]) {
        Ok(octets) => {
            assert_reads_one_octet(&rt, alloc, &octets);
            let mut decoder = decoder_of(alloc, &octets, Codec::Der);
            let answer = decoder.decode_octet_string(Tag::OCTET_STRING, &Constraints::NONE);
            let kind = "CodecSpecific { inner: Der(NonMinimalLength) }";
            assert_answer(&rt, alloc, Codec::Der, answer, kind);
            assert!(rt; decoder.decoded_len() == 0);
        }
        Err(_) => assert!(rt; false, "no memory"),
    }
}
