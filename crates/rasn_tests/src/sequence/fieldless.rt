//! SEQUENCEs without components (X.690 8.9), with and without an extension marker (X.680 25), and
//! the closure that reads them.
ghost use Rattle.rasn_de.specs.Constructed.{Keeps};

use crate::reading::{Row, assert_answer, assert_row, decoder_of};
use crate::types::{Closed, Extensible};
use rasn::ber::de::Decoder;
use rasn::error::DecodeError;
use rasn::types::{Codec, Tag};
use std::alloc::{AllocError, Global};
use std::process::Abort;

/// Reads a SEQUENCE {}, with a BOOLEAN in it if the closure is called.
fn read_closed(decoder: &mut Decoder<'_>) -> Result<Closed, DecodeError> {
    decoder.decode_sequence::<0, 0, Closed, _, _>(
        Tag::SEQUENCE,
        Some(|| -> Result<Closed, AllocError> { Ok(Closed { by_closure: false }) }),
        |inner|
            ensures { Keeps inner.old inner.new }
        {
            inner.decode_bool(Tag::BOOL)?;
            Ok(Closed { by_closure: true })
        },
    )
}

/// Reads a SEQUENCE { ... }, with a BOOLEAN in it if the closure is called.
fn read_extensible(decoder: &mut Decoder<'_>) -> Result<Extensible, DecodeError> {
    decoder.decode_sequence::<0, 0, Extensible, _, _>(
        Tag::SEQUENCE,
        Some(|| -> Result<Extensible, AllocError> { Ok(Extensible { by_closure: false }) }),
        |inner|
            ensures { Keeps inner.old inner.new }
        {
            inner.decode_bool(Tag::BOOL)?;
            Ok(Extensible { by_closure: true })
        },
    )
}

/// Asserts the result of reading SEQUENCE {} from the octets of each row, and the number of octets
/// consumed.
fn assert_reads_closed(rt: &impl Abort, alloc: Global, rows: &[Row]) {
    for (octets, rules, text, consumed) in rows {
        let mut decoder = decoder_of(alloc, octets, *rules);
        assert_answer(rt, alloc, *rules, read_closed(&mut decoder), text);
        assert_row(rt, octets, *rules, decoder.decoded_len() == *consumed);
    }
}

/// Asserts the result of reading SEQUENCE { ... } from the octets of each row, and the number of
/// octets consumed.
fn assert_reads_extensible(rt: &impl Abort, alloc: Global, rows: &[Row]) {
    for (octets, rules, text, consumed) in rows {
        let mut decoder = decoder_of(alloc, octets, *rules);
        assert_answer(rt, alloc, *rules, read_extensible(&mut decoder), text);
        assert_row(rt, octets, *rules, decoder.decoded_len() == *consumed);
    }
}

const TRUE_ALONE: &[u8] = &[0x30, 0x03, 0x01, 0x01, 0xFF];

const TRUE_ALONE_INDEFINITE: &[u8] = &[0x30, 0x80, 0x01, 0x01, 0xFF, 0x00, 0x00];

// If there are neither components nor an extension marker, the initializer makes the value and the
// closure isn't called.
#[test]
fn initializers_read_types_without_fields(rt: HostRuntime) {
    const BY_INITIALIZER: &str = "Closed { by_closure: false }";
    const THREE_OCTETS_LEFT: &str = "UnexpectedExtraData { length: 3 }";
    const ROWS: &[Row] = &[
        (&[0x30, 0x00], Codec::Ber, BY_INITIALIZER, 2),
        (&[0x30, 0x00], Codec::Cer, BY_INITIALIZER, 2),
        (&[0x30, 0x00], Codec::Der, BY_INITIALIZER, 2),
        (&[0x30, 0x80, 0x00, 0x00], Codec::Ber, BY_INITIALIZER, 4),
        (TRUE_ALONE, Codec::Ber, THREE_OCTETS_LEFT, 5),
        (TRUE_ALONE, Codec::Cer, THREE_OCTETS_LEFT, 5),
        (TRUE_ALONE, Codec::Der, THREE_OCTETS_LEFT, 5),
    ];
    assert_reads_closed(&rt, rt.alloc(), ROWS);
}

// If there is an extension marker, the closure is called unless the contents are empty.
#[test]
fn closures_read_extensible_types(rt: HostRuntime) {
    const BY_INITIALIZER: &str = "Extensible { by_closure: false }";
    const BY_CLOSURE: &str = "Extensible { by_closure: true }";
    const ROWS: &[Row] = &[
        (&[0x30, 0x00], Codec::Ber, BY_INITIALIZER, 2),
        (&[0x30, 0x00], Codec::Cer, BY_INITIALIZER, 2),
        (&[0x30, 0x00], Codec::Der, BY_INITIALIZER, 2),
        (TRUE_ALONE, Codec::Ber, BY_CLOSURE, 5),
        (TRUE_ALONE, Codec::Cer, BY_CLOSURE, 5),
        (TRUE_ALONE, Codec::Der, BY_CLOSURE, 5),
        (TRUE_ALONE_INDEFINITE, Codec::Ber, BY_CLOSURE, 7),
        (TRUE_ALONE_INDEFINITE, Codec::Cer, BY_CLOSURE, 7),
    ];
    assert_reads_extensible(&rt, rt.alloc(), ROWS);
}
