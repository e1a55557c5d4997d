//! The writing of values that are read.

use crate::entry::decoded;
use crate::octets::text_of;
use crate::reading::{refused, shown};
use crate::row::Row;
use rasn::ber::enc::{Encoder, EncoderOptions};
use rasn::de::Decode;
use rasn::enc::Encode;
use rasn::error::EncodeError;
use rasn::types::{Codec, Constraints, Identifier};
use rasn::{ber, cer, der};
use std::alloc::{AllocError, Global};

/// Returns the text of octets, or of the error's rules and kind.
pub fn written(alloc: Global, answer: &Result<Vec<u8>, EncodeError>) -> Result<String, AllocError> {
    match answer {
        Ok(octets) => {
            let octets = text_of(alloc, octets)?;
            shown(alloc, &octets)
        }
        Err(error) => refused(alloc, error.codec, &error.kind),
    }
}

/// Returns the result of reading a value of the type and writing it under these rules.
pub fn write<T: Decode + Encode>(
    alloc: Global,
    row: &Row<'_>,
    rules: Codec,
) -> Result<String, AllocError> {
    match decoded::<T>(alloc, row.rules, &row.octets) {
        Ok(value) => write_value(alloc, rules, &value),
        Err(error) => refused(alloc, error.codec, &error.kind),
    }
}

/// Encodes a value with the entry point of these rules.
fn encoded<T: Encode>(alloc: Global, rules: Codec, value: &T) -> Result<Vec<u8>, EncodeError> {
    match rules {
        Codec::Ber => ber::encode(alloc, value),
        Codec::Cer => cer::encode(alloc, value),
        Codec::Der => der::encode(alloc, value),
    }
}

/// Returns the text of the octets of a value, or of the error's rules and kind.
pub fn write_value<T: Encode>(
    alloc: Global,
    rules: Codec,
    value: &T,
) -> Result<String, AllocError> {
    let answer = encoded(alloc, rules, value);
    written(alloc, &answer)
}

/// Returns the output of an encoder after a call. If the call was refused, the error is returned in
/// place of an output that has no octets.
pub fn only_output(
    encoder: Encoder,
    answer: Result<(), EncodeError>,
) -> Result<Vec<u8>, EncodeError> {
    let output = encoder.output()?;
    match answer {
        Err(error) if output.is_empty() => Err(error),
        _ => Ok(output),
    }
}

/// Writes a value under constraints into an encoder of these rules, and returns the output.
fn encoded_within<T: Encode>(
    alloc: Global,
    rules: Codec,
    constraints: &Constraints,
    value: &T,
) -> Result<Vec<u8>, EncodeError> {
    let mut encoder = Encoder::new(alloc, EncoderOptions::of(rules))?;
    let answer = value.encode_with_constraints(&mut encoder, constraints, Identifier::EMPTY);
    only_output(encoder, answer)
}

/// Returns the result of reading a value of the type and writing it under these rules and
/// constraints.
pub fn write_within<T: Decode + Encode>(
    alloc: Global,
    row: &Row<'_>,
    rules: Codec,
    constraints: &Constraints,
) -> Result<String, AllocError> {
    match decoded::<T>(alloc, row.rules, &row.octets) {
        Ok(value) => {
            let answer = encoded_within(alloc, rules, constraints, &value);
            written(alloc, &answer)
        }
        Err(error) => refused(alloc, error.codec, &error.kind),
    }
}
