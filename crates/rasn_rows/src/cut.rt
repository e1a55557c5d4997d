//! Truncated values: each proper prefix of their octets is refused (X.690 8.1.3).

use crate::row::Row;
use rasn::ber::de::{Decoder, DecoderOptions};
use rasn::de::Decode;
use rasn::error::{BerDecodeErrorKind, CodecDecodeError, DecodeError, DecodeErrorKind, Needed};
use rasn::types::{Codec, Constraints};
use std::alloc::{AllocError, Global};

/// Returns for each prefix, the shortest first, the number of octets that its refusal reports as
/// missing if nothing was consumed. The number is 0 if all of the prefix is read as a value. Any
/// other result is shown as `?`.
pub fn cut<T: Decode>(
    alloc: Global,
    row: &Row<'_>,
    constraints: &Constraints,
) -> Result<String, AllocError> {
    let mut text = String::from_str(alloc, "=")?;
    for count in 0..=row.octets.len() {
        let (front, _) = row.octets.split_at(count);
        match lacking::<T>(alloc, front, row.rules, constraints) {
            Some(octets) => text.push_str(&format!(in alloc; " {octets}")?)?,
            None => text.push_str(" ?")?,
        }
    }
    Ok(text)
}

/// Returns the number of octets that are reported as missing, or 0 if all of the octets are read as
/// a value.
fn lacking<T: Decode>(
    alloc: Global,
    octets: &[u8],
    rules: Codec,
    constraints: &Constraints,
) -> Option<usize> {
    let mut decoder = Decoder::new(alloc, octets, DecoderOptions::of(rules));
    match T::decode_with_constraints(&mut decoder, constraints) {
        Ok(_) => decoder.remaining().is_empty().then_some(0),
        Err(error) => needed(&error, rules).filter(|_| decoder.decoded_len() == 0),
    }
}

/// Returns the number of octets that the error reports as missing, if it does so under these rules.
fn needed(error: &DecodeError, rules: Codec) -> Option<usize> {
    match &error.kind {
        DecodeErrorKind::Incomplete {
            needed: Needed::Size(octets),
        } if error.codec == rules => Some(*octets),
        _ => None,
    }
}

/// Returns the number of proper prefixes that are refused as truncated, if the whole is a value.
pub fn open<T: Decode>(alloc: Global, row: &Row<'_>) -> Result<String, AllocError> {
    let mut refused = 0usize;
    for count in 0..row.octets.len() {
        let (front, _) = row.octets.split_at(count);
        if is_cut::<T>(alloc, front, row.rules) {
            refused = refused.saturating_add(1);
        }
    }
    match lacking::<T>(alloc, &row.octets, row.rules, &T::CONSTRAINTS) {
        Some(0) => format!(in alloc; "= {refused} of {}", row.octets.len()),
        _ => String::from_str(alloc, "! no value"),
    }
}

/// Returns whether the octets are refused as a truncated value: octets or a component are missing,
/// or a single zero octet is where a value may begin.
fn is_cut<T: Decode>(alloc: Global, octets: &[u8], rules: Codec) -> bool {
    let mut decoder = Decoder::new(alloc, octets, DecoderOptions::of(rules));
    match T::decode(&mut decoder) {
        Ok(_) => false,
        Err(error) => is_of_cut(&error.kind),
    }
}

/// Returns whether the error is one of a truncated value.
fn is_of_cut(kind: &DecodeErrorKind) -> bool {
    matches!(
        kind,
        DecodeErrorKind::Incomplete { .. }
            | DecodeErrorKind::MissingField { .. }
            | DecodeErrorKind::CodecSpecific {
                inner: CodecDecodeError::Ber(BerDecodeErrorKind::UnexpectedEndOfContents),
            }
    )
}
