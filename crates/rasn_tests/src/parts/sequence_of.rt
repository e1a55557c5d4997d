//! Encoding of SEQUENCE OF (X.690 8.10), of definite length except under CER (9.1).

use crate::writing::{
    INVALID_0_40, assert_output, assert_refuses, assert_written, identifiers_of, made, new_encoder,
};
use rasn_enc::enc::Encode;
use rasn_types::types::{Bound, Bounded, Class, Codec, Constraints, Identifier, Tag};
use std::alloc::{AllocError, Global};

/// SIZE (2..2)
const SIZE_2: Constraints = Constraints {
    value: None,
    size: Some(Bound {
        constraint: Bounded::Range {
            start: Some(2),
            end: Some(2),
        },
        extensible: false,
    }),
};

/// Returns a SEQUENCE OF INTEGER.
fn numbers(alloc: Global, numbers: &[u8]) -> Result<Option<Vec<u8>>, AllocError> {
    let numbers = Vec::from_slice(alloc, numbers)?;
    Ok(Some(numbers))
}

#[test]
fn calls_write_lists(rt: HostRuntime) {
    let alloc = rt.alloc();
    let mut encoder = new_encoder(&rt, alloc, Codec::Der);
    let zero = Tag::new(Class::Context, 0);
    let answer = encoder.encode_sequence_of::<u8>(zero, &[5, 7], &SIZE_2, Identifier::EMPTY);
    assert_written(&rt, answer);
    let three = Tag::new(Class::Context, 3);
    let nine = made(&rt, numbers(alloc, &[9]));
    let answer = encoder.encode_explicit_prefix(three, &nine, Identifier::EMPTY);
    assert_written(&rt, answer);
    const FIVE_SEVEN_THEN_NINE: &[u8] = &[
        0xA0, 0x06, 0x02, 0x01, 0x05, 0x02, 0x01, 0x07, 0xA3, 0x05, 0x30, 0x03, 0x02, 0x01, 0x09,
    ];
    assert_output(&rt, encoder.output(), FIVE_SEVEN_THEN_NINE);
}

// The object identifier 1.2 has an encoding, 0.40 doesn't (X.690 8.19.4).
#[test]
fn a_refused_element_takes_the_list_along(rt: HostRuntime) {
    let alloc = rt.alloc();
    let mut encoder = new_encoder(&rt, alloc, Codec::Der);
    assert_written(&rt, true.encode(&mut encoder));
    let identifiers = made(&rt, identifiers_of(alloc, &[&[1, 2], &[0, 40]]));
    assert_refuses(
        &rt,
        alloc,
        Codec::Der,
        identifiers.encode(&mut encoder),
        INVALID_0_40,
    );
    assert_output(&rt, encoder.output(), &[0x01, 0x01, 0xFF]);
}
