//! Closures of a SEQUENCE (X.690 8.9) that drop a refusal and go on, or that read under other
//! rules.
ghost use Rattle.rasn_de.specs.Constructed.{Keeps};
ghost use Rattle.rasn_de.specs.State.{IsEnd};
ghost use Rattle.rasn_enc.specs.View.{LeavesOthers};

use crate::reading::{assert_answer, decoder_of};
use crate::types::NumberAndTruth;
use crate::writing::{assert_output, assert_written, new_encoder};
use rasn::ber::de::{Decoder, DecoderOptions};
use rasn::ber::enc::Encoder;
use rasn::error::{DecodeError, EncodeError};
use rasn::types::{Bound, Bounded, Codec, Constraints, Identifier, Tag};
use rasn_bench::Both;
use std::alloc::AllocError;

/// SIZE (3)
const SIZE_3: Constraints = Constraints {
    value: None,
    size: Some(Bound {
        constraint: Bounded::Single(3),
        extensible: false,
    }),
};

/// Reads a SEQUENCE whose closure drops the refusal of a BOOLEAN and then reads a number.
fn read_past_a_refusal(decoder: &mut Decoder<'_>) -> Result<NumberAndTruth, DecodeError> {
    decoder.decode_sequence::<2, 0, NumberAndTruth, fn() -> Result<NumberAndTruth, AllocError>, _>(
        Tag::SEQUENCE,
        None,
        |inner|
            ensures { Keeps inner.old inner.new }
        {
            let _ = inner.decode_bool(Tag::BOOL);
            let number = inner.decode_integer::<i32>(Tag::INTEGER, &Constraints::NONE)?;
            Ok(Both {
                first: number,
                second: false,
            })
        },
    )
}

/// Reads a SEQUENCE whose closure reads a number and a BOOLEAN under BER, with a decoder that it
/// creates.
fn read_by_ber(decoder: &mut Decoder<'_>) -> Result<NumberAndTruth, DecodeError> {
    decoder.decode_sequence::<2, 0, NumberAndTruth, fn() -> Result<NumberAndTruth, AllocError>, _>(
        Tag::SEQUENCE,
        None,
        |inner|
            ensures { IsEnd inner.old.rest inner.new.rest }
        {
            *inner = Decoder::new(inner.alloc(), inner.remaining(), DecoderOptions::ber());
            let number = inner.decode_integer::<i32>(Tag::INTEGER, &Constraints::NONE)?;
            let truth = inner.decode_bool(Tag::BOOL)?;
            Ok(Both {
                first: number,
                second: truth,
            })
        },
    )
}

/// Writes a SEQUENCE whose closure drops the refusal of two octets and then writes TRUE.
fn write_past_a_refusal(encoder: &mut Encoder) -> Result<(), EncodeError> {
    encoder.encode_sequence::<2, 0, NumberAndTruth, _>(
        Tag::SEQUENCE,
        |inner: &mut Encoder| -> Result<(), EncodeError>
            ensures { LeavesOthers inner.old inner.new }
        {
            let _ = inner.encode_octet_string(
                Tag::OCTET_STRING,
                &SIZE_3,
                &[1, 2],
                Identifier::EMPTY,
            );
            inner.encode_bool(Tag::BOOL, true, Identifier::EMPTY)
        },
        Identifier::EMPTY,
    )
}

// A closure may drop a refusal and go on where the refused call left the decoder.
#[test]
fn a_dropped_refusal_is_gone_on_from(rt: HostRuntime) {
    let alloc = rt.alloc();
    const FIVE_ALONE: &[u8] = &[0x30, 0x03, 0x02, 0x01, 0x05];
    let mut decoder = decoder_of(alloc, FIVE_ALONE, Codec::Ber);
    let answer = read_past_a_refusal(&mut decoder);
    const FIVE_AND_FALSE: &str = "Both { first: 5, second: false }";
    assert_answer(&rt, alloc, Codec::Ber, answer, FIVE_AND_FALSE);
    assert!(rt; decoder.decoded_len() == 5);
}

// Under BER any octet but 00 is TRUE, under DER FF alone (X.690 8.2.2, 11.1). A decoder that a
// closure puts in place of the inner one is used for the contents alone: the SEQUENCE is closed,
// and the next value read, under the rules and at the place of the outer decoder.
#[test]
fn a_closure_reads_by_other_rules(rt: HostRuntime) {
    let alloc = rt.alloc();
    const FIVE_AND_TRUE: &str = "Both { first: 5, second: true }";
    const SEQUENCE_AND_TRUE: &[u8] = &[
        0x30, 0x06, 0x02, 0x01, 0x05, 0x01, 0x01, 0x01, 0x01, 0x01, 0x01,
    ];
    let mut decoder = decoder_of(alloc, SEQUENCE_AND_TRUE, Codec::Der);
    let answer = read_by_ber(&mut decoder);
    assert_answer(&rt, alloc, Codec::Der, answer, FIVE_AND_TRUE);
    assert!(rt; decoder.decoded_len() == 8);
    let answer = decoder.decode_bool(Tag::BOOL);
    assert_answer(&rt, alloc, Codec::Der, answer, "InvalidBool { value: 1 }");
}

// The error for octets that such a closure leaves names the outer rules, under which the
// SEQUENCE is closed.
#[test]
fn octets_left_by_other_rules_are_refused_outside(rt: HostRuntime) {
    let alloc = rt.alloc();
    const FIVE_TRUE_AND_NULL: &[u8] = &[0x30, 0x08, 0x02, 0x01, 0x05, 0x01, 0x01, 0x01, 0x05, 0x00];
    let mut decoder = decoder_of(alloc, FIVE_TRUE_AND_NULL, Codec::Der);
    let answer = read_by_ber(&mut decoder);
    const TWO_OCTETS_LEFT: &str = "UnexpectedExtraData { length: 2 }";
    assert_answer(&rt, alloc, Codec::Der, answer, TWO_OCTETS_LEFT);
    assert!(rt; decoder.decoded_len() == 10);
}

// A refused call in a closure writes nothing.
#[test]
fn a_dropped_refusal_leaves_no_octets(rt: HostRuntime) {
    let mut encoder = new_encoder(&rt, rt.alloc(), Codec::Der);
    assert_written(&rt, write_past_a_refusal(&mut encoder));
    assert_output(&rt, encoder.output(), &[0x30, 0x03, 0x01, 0x01, 0xFF]);
}
