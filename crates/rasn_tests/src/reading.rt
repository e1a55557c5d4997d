//! Functions that the tests of reading share: rows of octets, rules and results, and assertions on
//! results as text or as octets.

use rasn_de::ber::de::{Decoder, DecoderOptions};
use rasn_de::de::Decode;
use rasn_types::error::{DecodeError, DecodeErrorKind, Needed};
use rasn_types::types::Codec;
use std::alloc::{AllocError, Global};
use std::borrow::CowSlice;
use std::fmt::{Debug, Display};
use std::process::Abort;

/// Octets, the rules to read them by, the text of the value or of the error's kind, and the number
/// of octets consumed.
pub type Row = (&'static [u8], Codec, &'static str, usize);

/// Returns a decoder of the octets under these rules.
pub fn decoder_of(alloc: Global, octets: &[u8], rules: Codec) -> Decoder<'_> {
    Decoder::new(alloc, octets, DecoderOptions::of(rules))
}

/// Returns the value as text.
pub fn debug_text<T: Debug>(alloc: Global, value: &T) -> Result<String, AllocError> {
    format!(in alloc; "{value:?}")
}

/// Returns the kind of an error as text if the error is one under these rules, otherwise a text
/// that no kind has.
pub fn kind_text<K: Debug>(
    alloc: Global,
    rules: Codec,
    codec: Codec,
    kind: &K,
) -> Result<String, AllocError> {
    if codec == rules {
        debug_text(alloc, kind)
    } else {
        String::from_str(alloc, "an error under other rules")
    }
}

/// Asserts that all facts are true. One list of many calls is cheaper to prove than an assertion
/// for each.
pub fn assert_facts(rt: &impl Abort, facts: &[bool]) {
    for (place, fact) in facts.iter().enumerate() {
        assert!(rt; *fact, "{place}");
    }
}

/// Asserts the fact, with the octets and rules of a row in the message.
pub fn assert_row(rt: &impl Abort, octets: &[u8], rules: Codec, fact: bool) {
    assert!(rt; fact, "{octets:?} {rules:?}");
}

/// Returns the value. Panics if an allocation failed.
pub fn held<T>(rt: &impl Abort, value: Result<T, AllocError>) -> T {
    match value {
        Ok(value) => value,
        Err(_) => panic!(rt; "no memory"),
    }
}

/// Asserts that `found` is this text.
pub fn assert_text(rt: &impl Abort, found: Result<String, AllocError>, text: &str) {
    assert_eq!(rt; held(rt, found).as_str(), text);
}

/// Asserts that the value is shown as this text.
pub fn assert_shown<T: Display + Drop>(rt: &impl Abort, alloc: Global, value: T, text: &str) {
    assert_text(rt, format!(in alloc; "{value}"), text);
}

/// Returns the value of a call. Panics if the call failed.
pub fn value<T>(rt: &impl Abort, answer: Result<T, DecodeError>) -> T {
    match answer {
        Ok(value) => value,
        Err(error) => panic!(rt; "{:?}", error.kind),
    }
}

/// Returns the error of a call. Panics if the call succeeded.
pub fn refusal<T: Drop>(rt: &impl Abort, answer: Result<T, DecodeError>) -> DecodeError {
    match answer {
        Ok(_) => panic!(rt; "it is read"),
        Err(error) => error,
    }
}

/// Returns whether the error is that this number of octets is missing, under these rules.
pub fn is_incomplete(error: &DecodeError, octets: usize, codec: Codec) -> bool {
    let kind = DecodeErrorKind::Incomplete {
        needed: Needed::new(octets),
    };
    *error == DecodeError { kind, codec }
}

/// Returns the text of a call's result: of the value, or of the error's kind.
fn answer_text<T: Debug>(
    alloc: Global,
    rules: Codec,
    answer: &Result<T, DecodeError>,
) -> Result<String, AllocError> {
    match answer {
        Ok(value) => debug_text(alloc, value),
        Err(error) => kind_text(alloc, rules, error.codec, &error.kind),
    }
}

/// Asserts that a call returns the value, or an error of the kind, with this text.
pub fn assert_answer<T: Debug + Drop>(
    rt: &impl Abort,
    alloc: Global,
    rules: Codec,
    answer: Result<T, DecodeError>,
    text: &str,
) {
    assert_text(rt, answer_text(alloc, rules, &answer), text);
}

/// Asserts the result of reading a value of the type from the octets of each row, and the number of
/// octets consumed.
pub fn assert_reads<T: Decode + Debug>(rt: &impl Abort, alloc: Global, rows: &[Row]) {
    for (octets, rules, text, consumed) in rows {
        let mut decoder = decoder_of(alloc, octets, *rules);
        assert_answer(rt, alloc, *rules, T::decode(&mut decoder), text);
        assert_row(rt, octets, *rules, decoder.decoded_len() == *consumed);
    }
}

/// Returns whether a call returns these octets, borrowed or owned as `is_borrowed` says.
pub fn answers_octets(
    answer: Result<CowSlice<'_, u8>, DecodeError>,
    octets: &[u8],
    is_borrowed: bool,
) -> bool {
    match answer {
        Ok(found) => {
            found.as_slice() == octets && matches!(&found, CowSlice::Borrowed(_)) == is_borrowed
        }
        Err(_) => false,
    }
}
