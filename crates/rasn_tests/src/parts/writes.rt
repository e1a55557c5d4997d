//! Encoding of components that are OPTIONAL or DEFAULT (X.690 8.9.3, 11.5), of explicit and
//! implicit tags (8.14) and of extension additions.

use crate::reading::assert_facts;
use crate::types::NumberAndTruth;
use crate::writing::{
    NO_PERCENTAGE, PERCENTAGE, Written, assert_output, assert_refuses, assert_writes,
    assert_written, new_encoder,
};
use rasn_bench::Both;
use rasn_enc::ber::enc::Encoder;
use rasn_enc::enc::Encode;
use rasn_types::error::EncodeError;
use rasn_types::types::{
    Class, Codec, Constraints, ContextTag, Explicit, Identifier, Implicit, Tag,
};
use std::alloc::AllocError;

/// \[0\]
const TAG_0: Tag = Tag {
    class: Class::Context,
    value: 0,
};

const NO_IDENTIFIER: Identifier = Identifier::EMPTY;

#[test]
fn writes_options(rt: HostRuntime) {
    const OPTION_ROWS: &[Written<Option<bool>>] = &[
        (Some(true), Codec::Der, &[0x01, 0x01, 0xFF]),
        (None, Codec::Der, &[]),
    ];
    const NESTED_ROWS: &[Written<Option<Option<bool>>>] = &[(Some(None), Codec::Der, &[])];
    let alloc = rt.alloc();
    assert_writes::<Option<bool>>(&rt, alloc, OPTION_ROWS);
    assert_writes::<Option<Option<bool>>>(&rt, alloc, NESTED_ROWS);
    let absent: Option<bool> = None;
    let present = Some(true).is_present();
    assert_facts(
        &rt,
        &[present, !absent.is_present(), !Some(absent).is_present()],
    );
}

#[test]
fn calls_write_options(rt: HostRuntime) {
    let mut encoder = new_encoder(&rt, rt.alloc(), Codec::Der);
    assert_written(&rt, encoder.encode_some(&true, NO_IDENTIFIER));
    assert_written(&rt, encoder.encode_none::<bool>(NO_IDENTIFIER));
    assert_written(
        &rt,
        encoder.encode_some_with_tag(TAG_0, &true, NO_IDENTIFIER),
    );
    assert_written(&rt, encoder.encode_none_with_tag(TAG_0, NO_IDENTIFIER));
    let answer = encoder.encode_some_with_tag_and_constraints(
        TAG_0,
        &PERCENTAGE,
        &5u8,
        NO_IDENTIFIER,
    );
    assert_written(&rt, answer);
    const TRUE_TRUE_FIVE: &[u8] = &[0x01, 0x01, 0xFF, 0x80, 0x01, 0xFF, 0x80, 0x01, 0x05];
    assert_output(&rt, encoder.output(), TRUE_TRUE_FIVE);
}

// The number 200 isn't in 0..100.
#[test]
fn refused_options_write_nothing(rt: HostRuntime) {
    let alloc = rt.alloc();
    let mut encoder = new_encoder(&rt, alloc, Codec::Der);
    let answer = encoder.encode_some_with_tag_and_constraints(
        TAG_0,
        &PERCENTAGE,
        &200u8,
        NO_IDENTIFIER,
    );
    assert_refuses(&rt, alloc, Codec::Der, answer, NO_PERCENTAGE);
    assert_output(&rt, encoder.output(), &[]);
}

/// Writes a number whose default is 7, with the three calls without constraints.
fn write_thrice(encoder: &mut Encoder, number: u8) -> Result<(), EncodeError> {
    encoder.encode_default(&number, || Ok(7), NO_IDENTIFIER)?;
    encoder.encode_default_with_tag(TAG_0, &number, || Ok(7), NO_IDENTIFIER)?;
    encoder.encode_default_with_explicit_prefix(TAG_0, &number, || Ok(7), NO_IDENTIFIER)
}

/// Writes a percentage whose default is 7, with the two calls with constraints.
fn write_percentage_twice(encoder: &mut Encoder, number: u8) -> Result<(), EncodeError> {
    encoder.encode_default_with_constraints(&PERCENTAGE, &number, || Ok(7), NO_IDENTIFIER)?;
    encoder.encode_default_with_tag_and_constraints(
        TAG_0,
        &PERCENTAGE,
        &number,
        || Ok(7),
        NO_IDENTIFIER,
    )
}

#[test]
fn calls_leave_out_defaults(rt: HostRuntime) {
    const TWICE: &[u8] = &[0x02, 0x01, 0x05, 0x80, 0x01, 0x05];
    const THRICE: &[u8] = &[
        0x02, 0x01, 0x05, 0x80, 0x01, 0x05, 0xA0, 0x03, 0x02, 0x01, 0x05,
    ];
    const ROWS: &[(u8, &[u8], &[u8])] = &[(7, &[], &[]), (5, THRICE, TWICE)];
    for (number, thrice, twice) in ROWS {
        let mut encoder = new_encoder(&rt, rt.alloc(), Codec::Der);
        assert_written(&rt, write_thrice(&mut encoder, *number));
        assert_output(&rt, encoder.output(), thrice);
        let mut encoder = new_encoder(&rt, rt.alloc(), Codec::Der);
        assert_written(&rt, write_percentage_twice(&mut encoder, *number));
        assert_output(&rt, encoder.output(), twice);
    }
}

#[test]
fn a_default_may_want_memory(rt: HostRuntime) {
    let alloc = rt.alloc();
    let mut encoder = new_encoder(&rt, alloc, Codec::Cer);
    let answer = encoder.encode_default(&5u8, || Err(AllocError), NO_IDENTIFIER);
    assert!(rt; answer.as_ref().is_err_and(|error| error.is_out_of_memory()));
    assert_refuses(&rt, alloc, Codec::Cer, answer, "OutOfMemory");
    assert_output(&rt, encoder.output(), &[]);
}

#[test]
fn named_tags_keep_presence(rt: HostRuntime) {
    assert_facts(
        &rt,
        &[
            Explicit::<ContextTag<0>, u8>::new(5).is_present(),
            Implicit::<ContextTag<0>, u8>::new(5).is_present(),
            !Explicit::<ContextTag<0>, Option<u8>>::new(None).is_present(),
            !Implicit::<ContextTag<0>, Option<u8>>::new(None).is_present(),
            true.is_present(),
            Vec::<u8>::new(rt.alloc()).is_present(),
        ],
    );
}

#[test]
fn writes_explicit_prefixes(rt: HostRuntime) {
    let mut encoder = new_encoder(&rt, rt.alloc(), Codec::Der);
    let absent: Option<u8> = None;
    assert_written(
        &rt,
        encoder.encode_explicit_prefix(TAG_0, &absent, NO_IDENTIFIER),
    );
    assert_written(
        &rt,
        encoder.encode_explicit_prefix(TAG_0, &Some(5u8), NO_IDENTIFIER),
    );
    assert_output(&rt, encoder.output(), &[0xA0, 0x03, 0x02, 0x01, 0x05]);
}

// A group of extension additions is written as a SEQUENCE, and nothing is written for an absent
// group.
#[test]
fn writes_extension_additions(rt: HostRuntime) {
    let mut encoder = new_encoder(&rt, rt.alloc(), Codec::Der);
    let one = Tag::new(Class::Context, 1);
    let answer = encoder.encode_extension_addition(one, &Constraints::NONE, 5u8, NO_IDENTIFIER);
    assert_written(&rt, answer);
    let answer = encoder.encode_extension_addition_group::<2, 0, NumberAndTruth>(
        None,
        NO_IDENTIFIER,
    );
    assert_written(&rt, answer);
    let group = Both {
        first: 5,
        second: true,
    };
    let answer = encoder.encode_extension_addition_group::<2, 0, NumberAndTruth>(
        Some(&group),
        NO_IDENTIFIER,
    );
    assert_written(&rt, answer);
    const FIVE_AND_GROUP: &[u8] = &[
        0x81, 0x01, 0x05, 0x30, 0x06, 0x02, 0x01, 0x05, 0x01, 0x01, 0xFF,
    ];
    assert_output(&rt, encoder.output(), FIVE_AND_GROUP);
}
