//! Functions that the tests of the entry points share: rows of octets, rules and results.

use crate::reading::{assert_answer, value};
use crate::writing::assert_output;
use rasn::de::Decode;
use rasn::enc::Encode;
use rasn::error::{DecodeError, EncodeError};
use rasn::types::Codec;
use rasn::{ber, cer, der};
use std::alloc::Global;
use std::fmt::Debug;
use std::process::Abort;

/// Octets, the rules to read them by, and the text of the value or of the error's kind.
pub type Answer<'octets> = (&'octets [u8], Codec, &'static str);

/// Octets, the rules to read them by, the rules to write the value by, and the octets written.
pub type Rewritten<'octets> = (&'octets [u8], Codec, Codec, &'octets [u8]);

/// Decodes the value that the octets begin with, by the entry point `decode` of these rules. Only
/// that of DER refuses further octets.
pub fn decoded<T: Decode>(alloc: Global, rules: Codec, octets: &[u8]) -> Result<T, DecodeError> {
    match rules {
        Codec::Ber => ber::decode(alloc, octets),
        Codec::Cer => cer::decode(alloc, octets),
        Codec::Der => der::decode(alloc, octets),
    }
}

/// Encodes the value with the entry point of these rules.
pub fn encoded<T: Encode>(alloc: Global, rules: Codec, value: &T) -> Result<Vec<u8>, EncodeError> {
    match rules {
        Codec::Ber => ber::encode(alloc, value),
        Codec::Cer => cer::encode(alloc, value),
        Codec::Der => der::encode(alloc, value),
    }
}

/// Asserts the result of the entry point for the octets of each row.
pub fn assert_decodes<T: Decode + Debug + Drop>(
    rt: &impl Abort,
    alloc: Global,
    rows: &[Answer<'_>],
) {
    for (octets, rules, text) in rows {
        assert_answer(rt, alloc, *rules, decoded::<T>(alloc, *rules, octets), text);
    }
}

/// Asserts that the octets of each row are read, and that the value is written as the row's other
/// octets.
pub fn assert_rewrites<T: Decode + Encode>(rt: &impl Abort, alloc: Global, rows: &[Rewritten<'_>]) {
    for (octets, from, to, written) in rows {
        let found = value(rt, decoded::<T>(alloc, *from, octets));
        assert_output(rt, encoded(alloc, *to, &found), written);
    }
}
