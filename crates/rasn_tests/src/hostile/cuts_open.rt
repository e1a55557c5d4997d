//! Truncated values of indefinite length (X.690 8.1.3.6): each proper prefix of their octets is
//! refused.

use crate::reading::{assert_answer, decoder_of, held};
use rasn::de::Decode;
use rasn::types::{Any, Codec};
use std::alloc::{AllocError, Global};
use std::process::Abort;

/// Returns a thousand nested SEQUENCEs of indefinite length.
fn levels(alloc: Global) -> Result<Vec<u8>, AllocError> {
    let mut octets = Vec::new(alloc);
    for _ in 0..1000u32 {
        octets.extend_from_slice(&[0x30, 0x80])?;
    }
    for _ in 0..1000u32 {
        octets.extend_from_slice(&[0x00, 0x00])?;
    }
    Ok(octets)
}

/// Asserts that a value that is skipped or kept as an open type is refused and nothing is consumed:
/// an octet is missing, or, if a single zero octet remains, the end of contents is unexpected.
fn assert_is_not_taken(rt: &impl Abort, alloc: Global, front: &[u8]) {
    const ONE_OCTET_MISSING: &str = "Incomplete { needed: Size(1) }";
    const END_OF_CONTENTS: &str = "CodecSpecific { inner: Ber(UnexpectedEndOfContents) }";
    let text = if front.len() % 2 == 0 {
        ONE_OCTET_MISSING
    } else {
        END_OF_CONTENTS
    };
    let mut decoder = decoder_of(alloc, front, Codec::Ber);
    assert_answer(rt, alloc, Codec::Ber, decoder.skip_value(), text);
    assert_answer(rt, alloc, Codec::Ber, Any::decode(&mut decoder), text);
    assert!(rt; decoder.decoded_len() == 0);
}

// One to a hundred octets are missing from the prefixes (X.690 8.1.5).
#[test]
fn cut_levels_are_refused(rt: HostRuntime) {
    let alloc = rt.alloc();
    let octets = held(&rt, levels(alloc));
    for count in 1..=100usize {
        let (front, _) = octets.split_at(octets.len().saturating_sub(count));
        assert_is_not_taken(&rt, alloc, front);
    }
}
