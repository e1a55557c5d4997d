//! Decoding of nested SEQUENCEs of indefinite length (X.690 8.1.3.6) to a depth of 128.
ghost use Rattle.rasn_de.specs.Constructed.{Keeps};

use crate::reading::{assert_answer, decoder_of};
use crate::types::NumberAndTruth;
use rasn::ber::de::Decoder;
use rasn::error::DecodeError;
use rasn::types::{Codec, Tag};
use rasn_bench::Both;
use std::alloc::{AllocError, Global};
use std::process::Abort;

/// Reads a BOOLEAN inside `levels` nested SEQUENCEs.
fn nested(decoder: &mut Decoder<'_>, levels: u8) -> Result<NumberAndTruth, DecodeError>
    ensures { Keeps decoder.old decoder.new }
{
    if levels == 0 {
        let truth = decoder.decode_bool(Tag::BOOL)?;
        return Ok(Both {
            first: 0,
            second: truth,
        });
    }
    let below = levels - 1;
    decoder.decode_sequence::<2, 0, NumberAndTruth, _, _>(
        Tag::SEQUENCE,
        Some(|| -> Result<NumberAndTruth, AllocError> { Err(AllocError) }),
        |inner|
            ensures { Keeps inner.old inner.new }
        { nested(inner, below) },
    )
}

/// Returns TRUE in 128 SEQUENCEs of indefinite length.
fn nest(alloc: Global) -> Result<Vec<u8>, AllocError> {
    let mut octets = Vec::new(alloc);
    for _ in 0..128u8 {
        octets.extend_from_slice(&[0x30, 0x80])?;
    }
    octets.extend_from_slice(&[0x01, 0x01, 0xFF])?;
    for _ in 0..128u8 {
        octets.extend_from_slice(&[0x00, 0x00])?;
    }
    Ok(octets)
}

/// Asserts the result of reading `levels` nested SEQUENCEs, and the number of octets consumed.
fn assert_reads_nested(
    rt: &impl Abort,
    alloc: Global,
    octets: &[u8],
    levels: u8,
    text: &str,
    consumed: usize,
) {
    let mut decoder = decoder_of(alloc, octets, Codec::Ber);
    let answer = nested(&mut decoder, levels);
    assert_answer(rt, alloc, Codec::Ber, answer, text);
    assert!(rt; decoder.decoded_len() == consumed);
}

#[test]
fn sequences_are_128_deep_at_most(rt: HostRuntime) {
    let alloc = rt.alloc();
    match nest(alloc) {
        Ok(octets) => {
            let truth = "Both { first: 0, second: true }";
            assert_reads_nested(&rt, alloc, &octets, 128, truth, 515);
            assert_reads_nested(&rt, alloc, &octets, 129, "ExceedsMaxParseDepth", 2);
        }
        Err(_) => assert!(rt; false, "no memory"),
    }
}
