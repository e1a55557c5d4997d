//! The texts of errors, with ranges as X.680 51.4 writes them.

use crate::reading::assert_shown;
use rasn_types::error::{BerEncodeErrorKind, CodecEncodeError, EncodeError, EncodeErrorKind};
use rasn_types::types::{Bounded, Codec};

// An open end is MIN or MAX (X.680 51.4).
#[test]
fn tells_open_ends(rt: HostRuntime) {
    let alloc = rt.alloc();
    assert_shown(&rt, alloc, Bounded::<u8>::None, "MIN..MAX");
    let upper = Bounded::Range {
        start: None,
        end: Some(7u8),
    };
    assert_shown(&rt, alloc, upper, "MIN..7");
    let lower = Bounded::Range {
        start: Some(7u8),
        end: None,
    };
    assert_shown(&rt, alloc, lower, "7..MAX");
}

// The texts say why a value isn't written.
#[test]
fn tells_why_a_value_is_not_written(rt: HostRuntime) {
    let alloc = rt.alloc();
    let kind = EncodeErrorKind::CodecSpecific {
        inner: CodecEncodeError::Ber(BerEncodeErrorKind::SetOutOfOrder),
    };
    assert_shown(
        &rt,
        alloc,
        EncodeError {
            kind,
            codec: Codec::Cer,
        },
        "CER: components of a SET or elements of a SET OF are not in ascending order",
    );
    let kind = EncodeErrorKind::SizeConstraintNotSatisfied {
        size: 3,
        expected: Bounded::Single(4),
    };
    assert_shown(&rt, alloc, kind, "size 3 violates the constraint 4");
}
