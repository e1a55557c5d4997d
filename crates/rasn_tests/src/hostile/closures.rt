//! Closures that drop refusals, and elements that consume nothing: what is read and written after
//! them (X.690 8.9 to 8.12).
ghost use Rattle.rasn_de.specs.Constructed.{Keeps};
ghost use Rattle.rasn_enc.specs.View.{LeavesOthers};

use crate::hostile::{TRUE_ALONE, one_boolean};
use crate::reading::{assert_answer, decoder_of};
use crate::types::{NumberAndTruth, Three};
use crate::writing::{assert_output, assert_written, new_encoder};
use rasn::ber::de::Decoder;
use rasn::ber::enc::Encoder;
use rasn::enc::Encode;
use rasn::error::{DecodeError, EncodeError};
use rasn::types::{Class, Codec, ContextTag, Identifier, Implicit, Tag};
use rasn_bench::Both;
use std::alloc::{AllocError, Global};
use std::process::Abort;

/// The value that the closures return, whatever they read.
const ANSWER: NumberAndTruth = Both {
    first: 0,
    second: true,
};

/// Reads a SEQUENCE whose closure drops the result of reading a BOOLEAN.
fn past_a_boolean(decoder: &mut Decoder<'_>) -> Result<NumberAndTruth, DecodeError> {
    decoder.decode_sequence::<2, 0, NumberAndTruth, fn() -> Result<NumberAndTruth, AllocError>, _>(
        Tag::SEQUENCE,
        None,
        |inner|
            ensures { Keeps inner.old inner.new }
        {
            let _ = inner.decode_bool(Tag::BOOL);
            Ok(ANSWER)
        },
    )
}

/// Reads a SEQUENCE whose closure drops the result of reading SEQUENCE { BOOLEAN }.
fn past_a_sequence(decoder: &mut Decoder<'_>) -> Result<NumberAndTruth, DecodeError> {
    decoder.decode_sequence::<2, 0, NumberAndTruth, fn() -> Result<NumberAndTruth, AllocError>, _>(
        Tag::SEQUENCE,
        None,
        |inner|
            ensures { Keeps inner.old inner.new }
        {
            let _ = one_boolean(inner);
            Ok(ANSWER)
        },
    )
}

/// Asserts the result of reading a SEQUENCE whose closure drops a BOOLEAN, and the number of octets
/// consumed.
fn assert_drops_a_boolean(
    rt: &impl Abort,
    alloc: Global,
    octets: &[u8],
    text: &str,
    consumed: usize,
) {
    let mut decoder = decoder_of(alloc, octets, Codec::Ber);
    assert_answer(rt, alloc, Codec::Ber, past_a_boolean(&mut decoder), text);
    assert!(rt; decoder.decoded_len() == consumed);
}

/// Asserts the result of reading a SEQUENCE whose closure drops a SEQUENCE, and the number of
/// octets consumed.
fn assert_drops_a_sequence(
    rt: &impl Abort,
    alloc: Global,
    octets: &[u8],
    text: &str,
    consumed: usize,
) {
    let mut decoder = decoder_of(alloc, octets, Codec::Ber);
    assert_answer(rt, alloc, Codec::Ber, past_a_sequence(&mut decoder), text);
    assert!(rt; decoder.decoded_len() == consumed);
}

// A BOOLEAN with invalid contents is consumed. A fault of the identifier or length consumes
// nothing, so octets remain.
#[test]
fn a_dropped_refusal_leaves_what_it_leaves(rt: HostRuntime) {
    let alloc = rt.alloc();
    const NO_BOOLEAN: &[u8] = &[0x30, 0x04, 0x01, 0x02, 0x00, 0x00];
    assert_drops_a_boolean(&rt, alloc, NO_BOOLEAN, TRUE_ALONE, 6);
    const CUT_BOOLEAN: &[u8] = &[0x30, 0x02, 0x01, 0x05];
    const TWO_OCTETS_LEFT: &str = "UnexpectedExtraData { length: 2 }";
    assert_drops_a_boolean(&rt, alloc, CUT_BOOLEAN, TWO_OCTETS_LEFT, 4);
    const MISSING_END_OF_CONTENTS: &str = "CodecSpecific { inner: Ber(MissingEndOfContents) }";
    assert_drops_a_boolean(
        &rt,
        alloc,
        &[0x30, 0x80, 0x01, 0x05],
        MISSING_END_OF_CONTENTS,
        2,
    );
}

// A refused value of definite length is consumed whole. Of one of indefinite length the header
// alone is consumed, and then the end-of-contents octets of the inner value close the outer one.
#[test]
fn a_dropped_value_is_gone_on_from(rt: HostRuntime) {
    let alloc = rt.alloc();
    const DEFINITE_IN_DEFINITE: &[u8] = &[0x30, 0x05, 0x30, 0x03, 0x02, 0x01, 0x01];
    assert_drops_a_sequence(&rt, alloc, DEFINITE_IN_DEFINITE, TRUE_ALONE, 7);
    const INDEFINITE_IN_INDEFINITE: &[u8] = &[0x30, 0x80, 0x30, 0x80, 0x00, 0x00, 0x00, 0x00];
    assert_drops_a_sequence(&rt, alloc, INDEFINITE_IN_INDEFINITE, TRUE_ALONE, 6);
}

/// SET { \[0\], \[1\] }
type Components = Three<Implicit<ContextTag<0>, u8>, Implicit<ContextTag<1>, u8>, u8>;

/// Writes a number under a tag of this number.
fn write_at(encoder: &mut Encoder, number: u32, value: u8) -> Result<(), EncodeError>
    ensures { LeavesOthers encoder.old encoder.new }
{
    value.encode_with_tag(encoder, Tag::new(Class::Context, number), Identifier::EMPTY)
}

/// Writes a SET whose closure writes \[1\] before \[0\], which is refused.
fn write_falling(encoder: &mut Encoder) -> Result<(), EncodeError>
    ensures { LeavesOthers encoder.old encoder.new }
{
    encoder.encode_set::<3, 0, Components, _>(
        Tag::SET,
        |inner: &mut Encoder| -> Result<(), EncodeError>
            ensures { LeavesOthers inner.old inner.new }
        {
            write_at(inner, 1, 1)?;
            write_at(inner, 0, 2)
        },
        Identifier::EMPTY,
    )
}

/// Writes a SET whose closure writes \[0\] and \[1\], and between them drops the refusal of a
/// SET whose components are out of order.
fn write_past_a_set(encoder: &mut Encoder) -> Result<(), EncodeError> {
    encoder.encode_set::<3, 0, Components, _>(
        Tag::SET,
        |outer: &mut Encoder| -> Result<(), EncodeError>
            ensures { LeavesOthers outer.old outer.new }
        {
            write_at(outer, 0, 1)?;
            let _ = write_falling(outer);
            write_at(outer, 1, 2)
        },
        Identifier::EMPTY,
    )
}

// A refused SET leaves neither octets nor its tag, which would be out of order before [1]
// (X.690 10.3).
#[test]
fn a_dropped_set_leaves_no_tag(rt: HostRuntime) {
    let mut encoder = new_encoder(&rt, rt.alloc(), Codec::Der);
    assert_written(&rt, write_past_a_set(&mut encoder));
    const TWO_COMPONENTS: &[u8] = &[0x31, 0x06, 0x80, 0x01, 0x01, 0x81, 0x01, 0x02];
    assert_output(&rt, encoder.output(), TWO_COMPONENTS);
}
