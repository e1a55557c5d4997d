//! Encoding of GeneralizedTime (X.690 11.7) in its canonical form.

use crate::writing::{assert_output, assert_written, made, new_encoder};
use rasn_types::types::{Class, Codec, Date, GeneralizedTime, Identifier, Tag, UtcTime};

/// Returns the instant half a second into the leap second of 2016.
fn leap() -> Option<GeneralizedTime> {
    let instant = UtcTime::new(Date::new(2016, 12, 31)?, 23, 59, 59, 1_500_000_000)?;
    GeneralizedTime::new(instant, 0)
}

// A fraction doesn't end in zeros (X.690 11.7.3), and a leap second is second 60.
#[test]
fn writes_fractions(rt: HostRuntime) {
    let alloc = rt.alloc();
    let mut encoder = new_encoder(&rt, alloc, Codec::Der);
    let tag = Tag::new(Class::Context, 3);
    let time = made(&rt, Ok(leap()));
    let answer = encoder.encode_generalized_time(tag, &time, Identifier::EMPTY);
    assert_written(&rt, answer);
    assert_output(&rt, encoder.output(), b"\x83\x1120161231235960.5Z");
}
