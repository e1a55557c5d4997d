//! The reading of values, and the errors that refuse them.

use crate::row::Row;
use rasn::ber::de::{Decoder, DecoderOptions};
use rasn::de::Decode;
use rasn::error::DecodeError;
use rasn::types::{Codec, Constraints};
use std::alloc::{AllocError, Global};
use std::fmt::{Debug, Display};

/// Returns the text of a value.
pub fn shown<T: Display>(alloc: Global, value: &T) -> Result<String, AllocError> {
    format!(in alloc; "= {value}")
}

/// Returns the text of an error.
pub fn failed<E: Display>(alloc: Global, error: &E) -> Result<String, AllocError> {
    format!(in alloc; "! {error}")
}

/// Returns the rules and the kind of an error.
pub fn refused<K: Debug>(alloc: Global, rules: Codec, kind: &K) -> Result<String, AllocError> {
    format!(in alloc; "! {rules:?} {kind:?}")
}

/// Returns the text of a value, or of the error's rules and kind.
pub fn told<T: Debug>(
    alloc: Global,
    answer: &Result<T, DecodeError>,
) -> Result<String, AllocError> {
    match answer {
        Ok(value) => format!(in alloc; "= {value:?}"),
        Err(error) => refused(alloc, error.codec, &error.kind),
    }
}

/// Returns the same text, with the number of octets that are consumed.
pub fn counted<T: Debug>(
    alloc: Global,
    answer: &Result<T, DecodeError>,
    consumed: usize,
) -> Result<String, AllocError> {
    let text = told(alloc, answer)?;
    format!(in alloc; "{text}, {consumed}")
}

/// Returns a decoder of the octets of a row under its rules.
pub fn decoder_of<'row>(alloc: Global, row: &'row Row<'_>) -> Decoder<'row> {
    Decoder::new(alloc, &row.octets, DecoderOptions::of(row.rules))
}

/// Returns the result of reading a value of the type.
pub fn read<T: Decode + Debug>(alloc: Global, row: &Row<'_>) -> Result<String, AllocError> {
    let mut decoder = decoder_of(alloc, row);
    let answer = T::decode(&mut decoder);
    counted(alloc, &answer, decoder.decoded_len())
}

/// Returns the result of reading a value of the type under these constraints.
pub fn read_within<T: Decode + Debug>(
    alloc: Global,
    row: &Row<'_>,
    constraints: &Constraints,
) -> Result<String, AllocError> {
    let mut decoder = decoder_of(alloc, row);
    let answer = T::decode_with_constraints(&mut decoder, constraints);
    counted(alloc, &answer, decoder.decoded_len())
}

/// Returns the text of the error under these constraints.
pub fn tell_within<T: Decode>(
    alloc: Global,
    row: &Row<'_>,
    constraints: &Constraints,
) -> Result<String, AllocError> {
    match T::decode_with_constraints(&mut decoder_of(alloc, row), constraints) {
        Ok(_) => String::from_str(alloc, "= a value"),
        Err(error) => failed(alloc, &error),
    }
}
