//! OCTET STRING (X.690 8.7), in segments or in one piece.

use crate::reading::{answers_octets, decoder_of};
use rasn_types::types::{Codec, Constraints, Tag};

/// The octets A1 B2 C3 in nested segments of definite and indefinite length.
const SEGMENTS: &[u8] = &[
    0x24, 0x80, 0x04, 0x01, 0xA1, 0x24, 0x03, 0x04, 0x01, 0xB2, 0x24, 0x80, 0x04, 0x01, 0xC3, 0x00,
    0x00, 0x00, 0x00,
];

/// The same octets in one piece.
const ONE_PIECE: &[u8] = &[0x04, 0x03, 0xA1, 0xB2, 0xC3];

/// Encodings of A1 B2 C3, the rules to read them by, and whether the result is borrowed.
const THREE_OCTETS: &[(&[u8], Codec, bool)] = &[
    (SEGMENTS, Codec::Ber, false),
    (SEGMENTS, Codec::Cer, false),
    (ONE_PIECE, Codec::Ber, true),
    (ONE_PIECE, Codec::Cer, true),
    (ONE_PIECE, Codec::Der, true),
];

// Segments are joined; one primitive string is borrowed (X.690 8.7).
#[test]
fn gathers_segments(rt: HostRuntime) {
    for (octets, rules, is_borrowed) in THREE_OCTETS {
        let mut decoder = decoder_of(rt.alloc(), octets, *rules);
        let answer = decoder.decode_octet_string(Tag::OCTET_STRING, &Constraints::NONE);
        assert!(rt; answers_octets(answer, &[0xA1, 0xB2, 0xC3], *is_borrowed));
        assert!(rt; decoder.remaining().is_empty());
    }
}
