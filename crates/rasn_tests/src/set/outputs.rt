//! The calls that write into a vector or with a closure, and those that write the components of a
//! SET (X.690 9.3, 10.3).
ghost use Rattle.rasn_enc.specs.View.{Extends};

use crate::set::order::OUT_OF_ORDER;
use crate::set::set_of::lists;
use crate::writing::{assert_output, assert_refuses, assert_written, made};
use rasn::ber::enc::{Encoder, EncoderOptions};
use rasn::enc::Encode;
use rasn::error::EncodeError;
use rasn::types::Codec;
use rasn::{ber, cer, der};
use std::alloc::{AllocError, Global};
use std::process::Abort;

/// The octets of TRUE.
const TRUE: [u8; 3] = [0x01, 0x01, 0xFF];

/// Returns a vector of one octet.
fn held(alloc: Global) -> Result<Option<Vec<u8>>, AllocError> {
    let octets = Vec::from_slice(alloc, &[0xAA])?;
    Ok(Some(octets))
}

/// Replaces the contents of the vector by the value's encoding, with the entry point of these
/// rules.
fn fill<T: Encode>(
    alloc: Global,
    rules: Codec,
    value: &T,
    buffer: &mut Vec<u8>,
) -> Result<(), EncodeError> {
    match rules {
        Codec::Ber => ber::encode_buf(alloc, value, buffer),
        Codec::Cer => cer::encode_buf(alloc, value, buffer),
        Codec::Der => der::encode_buf(alloc, value, buffer),
    }
}

// The contents of the vector are replaced.
#[test]
fn fills_vectors(rt: HostRuntime) {
    let alloc = rt.alloc();
    for rules in &[Codec::Ber, Codec::Cer, Codec::Der] {
        let mut buffer = made(&rt, held(alloc));
        assert_written(&rt, fill(alloc, *rules, &true, &mut buffer));
        assert!(rt; buffer.as_slice() == TRUE.as_slice());
    }
}

// A refused value leaves the vector empty.
#[test]
fn a_refused_value_empties_the_vector(rt: HostRuntime) {
    let alloc = rt.alloc();
    let mut buffer = made(&rt, held(alloc));
    let falling = made(&rt, lists(alloc, &[&[1, 1], &[2]]));
    let answer = fill(alloc, Codec::Der, &falling, &mut buffer);
    assert_refuses(&rt, alloc, Codec::Der, answer, OUT_OF_ORDER);
    assert!(rt; buffer.is_empty());
}

// A closure that writes nothing produces no octets.
#[test]
fn an_empty_scope_has_no_octets_by_ber(rt: HostRuntime) {
    let answer = ber::encode_scope(
        rt.alloc(),
        |encoder: &mut Encoder| -> Result<(), EncodeError>
            ensures { Extends encoder.old encoder.new }
        { Ok(()) },
    );
    assert_output(&rt, answer, &[]);
}

#[test]
fn an_empty_scope_has_no_octets_by_der(rt: HostRuntime) {
    let answer = der::encode_scope(
        rt.alloc(),
        |encoder: &mut Encoder| -> Result<(), EncodeError>
            ensures { Extends encoder.old encoder.new }
        { Ok(()) },
    );
    assert_output(&rt, answer, &[]);
}

/// Returns the encoder. Panics if an allocation failed.
fn started(rt: &impl Abort, encoder: Result<Encoder, EncodeError>) -> Encoder {
    match encoder {
        Ok(encoder) => encoder,
        Err(_) => panic!(rt; "no memory"),
    }
}

#[test]
fn encoders_begin_without_octets(rt: HostRuntime) {
    let alloc = rt.alloc();
    let buffer = made(&rt, held(alloc));
    let answer = Encoder::new_with_buffer(alloc, EncoderOptions::der(), buffer);
    let mut encoder = started(&rt, answer);
    assert_written(&rt, true.encode(&mut encoder));
    assert_output(&rt, encoder.output(), &TRUE);
    let mut encoder = Encoder::over(alloc, EncoderOptions::der(), made(&rt, held(alloc)));
    assert_written(&rt, true.encode(&mut encoder));
    assert_output(&rt, encoder.output(), &TRUE);
    let mut encoder = started(&rt, Encoder::new_set(alloc, EncoderOptions::der()));
    assert_written(&rt, true.encode(&mut encoder));
    assert_output(&rt, encoder.output(), &TRUE);
}

/// Returns the output of the encoder after an INTEGER and a BOOLEAN, whose tags are out of order.
fn outputs_falling(rt: &impl Abort, mut encoder: Encoder) -> Result<Vec<u8>, EncodeError> {
    assert_written(rt, 2u8.encode(&mut encoder));
    assert_written(rt, true.encode(&mut encoder));
    encoder.output()
}

// Only an encoder of `new_set` requires an order.
#[test]
fn outputs_of_sets_are_in_order(rt: HostRuntime) {
    let alloc = rt.alloc();
    let encoder = started(&rt, Encoder::new_set(alloc, EncoderOptions::der()));
    let answer = outputs_falling(&rt, encoder).map(|_| ());
    assert_refuses(&rt, alloc, Codec::Der, answer, OUT_OF_ORDER);
    let encoder = started(&rt, Encoder::new(alloc, EncoderOptions::der()));
    const TWO_AND_TRUE: &[u8] = &[0x02, 0x01, 0x02, 0x01, 0x01, 0xFF];
    assert_output(&rt, outputs_falling(&rt, encoder), TWO_AND_TRUE);
}
