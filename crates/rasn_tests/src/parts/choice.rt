//! Encoding of a CHOICE as its alternative (X.690 8.13).
ghost use Rattle.rasn_enc.specs.View.{Extends};

use crate::writing::{assert_output, assert_refuses, assert_written, new_encoder};
use rasn_enc::ber::enc::Encoder;
use rasn_types::error::{EncodeError, EncodeErrorKind};
use rasn_types::types::{Codec, Constraints, Identifier, Tag};

/// Writes TRUE as the alternative of a CHOICE.
fn choose_true(encoder: &mut Encoder) -> Result<(), EncodeError> {
    encoder.encode_choice::<bool, _>(
        &Constraints::NONE,
        Tag::EOC,
        |inner: &mut Encoder| -> Result<Tag, EncodeError>
            ensures { Extends inner.old inner.new }
        {
            inner.encode_bool(Tag::BOOL, true, Identifier::EMPTY)?;
            Ok(Tag::BOOL)
        },
        Identifier::EMPTY,
    )
}

/// Writes FALSE as the alternative of a CHOICE, and then returns an error.
fn choose_nothing(encoder: &mut Encoder) -> Result<(), EncodeError> {
    encoder.encode_choice::<bool, _>(
        &Constraints::NONE,
        Tag::EOC,
        |inner: &mut Encoder| -> Result<Tag, EncodeError>
            ensures { Extends inner.old inner.new }
        {
            inner.encode_bool(Tag::BOOL, false, Identifier::EMPTY)?;
            Err(EncodeError {
                kind: EncodeErrorKind::RealNotSupported,
                codec: Codec::Der,
            })
        },
        Identifier::EMPTY,
    )
}

#[test]
fn writes_choices(rt: HostRuntime) {
    let mut encoder = new_encoder(&rt, rt.alloc(), Codec::Der);
    assert_written(&rt, choose_true(&mut encoder));
    assert_output(&rt, encoder.output(), &[0x01, 0x01, 0xFF]);
}

// What a closure writes before it fails is removed.
#[test]
fn a_refused_choice_leaves_no_octets(rt: HostRuntime) {
    let alloc = rt.alloc();
    let mut encoder = new_encoder(&rt, alloc, Codec::Der);
    let answer = encoder.encode_bool(Tag::BOOL, true, Identifier::EMPTY);
    assert_written(&rt, answer);
    let answer = choose_nothing(&mut encoder);
    assert_refuses(&rt, alloc, Codec::Der, answer, "RealNotSupported");
    assert_output(&rt, encoder.output(), &[0x01, 0x01, 0xFF]);
}
