//! The entry points of the rules, and those that take the rules.

use crate::octets::text_of;
use crate::reading::{refused, shown, told};
use crate::row::Row;
use crate::writing::written;
use rasn::de::Decode;
use rasn::enc::Encode;
use rasn::error::DecodeError;
use rasn::open_type::{decode_any, encode_any};
use rasn::types::{Any, Codec, LawfulEq};
use rasn::{ber, cer, decode, decode_with_remainder, der, normalise};
use std::alloc::{AllocError, Global};
use std::fmt::Debug;

/// Decodes the value that the octets begin with, by the entry point `decode` of these rules. Only
/// that of DER refuses further octets.
pub fn decoded<T: Decode>(alloc: Global, rules: Codec, octets: &[u8]) -> Result<T, DecodeError> {
    match rules {
        Codec::Ber => ber::decode(alloc, octets),
        Codec::Cer => cer::decode(alloc, octets),
        Codec::Der => der::decode(alloc, octets),
    }
}

/// Decodes the value that the octets begin with, by the entry point `decode_with_remainder` of
/// these rules, and returns it with the octets that follow.
pub fn begun<T: Decode>(
    alloc: Global,
    rules: Codec,
    octets: &[u8],
) -> Result<(T, &[u8]), DecodeError> {
    match rules {
        Codec::Ber => ber::decode_with_remainder(alloc, octets),
        Codec::Cer => cer::decode_with_remainder(alloc, octets),
        Codec::Der => der::decode_with_remainder(alloc, octets),
    }
}

/// Returns the result of `decode`, the entry point of the rules, which refuses further octets only
/// under DER.
pub fn whole<T: Decode + Debug>(alloc: Global, row: &Row<'_>) -> Result<String, AllocError> {
    let answer = decoded::<T>(alloc, row.rules, &row.octets);
    told(alloc, &answer)
}

/// Returns the result of `decode_with_remainder`, the entry point of the rules that returns further
/// octets.
pub fn begin<T: Decode + Debug>(alloc: Global, row: &Row<'_>) -> Result<String, AllocError> {
    let answer = begun::<T>(alloc, row.rules, &row.octets);
    told(alloc, &answer)
}

/// Returns the result of the entry point that takes the rules, which refuses further octets.
pub fn all<T: Decode + Debug>(alloc: Global, row: &Row<'_>) -> Result<String, AllocError> {
    let answer = decode::<T>(alloc, row.rules, &row.octets);
    told(alloc, &answer)
}

/// Returns the result of the entry point that takes the rules and returns further octets.
pub fn front<T: Decode + Debug>(alloc: Global, row: &Row<'_>) -> Result<String, AllocError> {
    let answer = decode_with_remainder::<T>(alloc, row.rules, &row.octets);
    told(alloc, &answer)
}

/// Returns the DER octets of a value, or the error.
pub fn normal<T: Decode + Encode + LawfulEq>(
    alloc: Global,
    row: &Row<'_>,
) -> Result<String, AllocError> {
    match normalise::<T>(alloc, row.rules, &row.octets) {
        Ok(octets) => {
            let octets = text_of(alloc, &octets)?;
            shown(alloc, &octets)
        }
        Err(error) => format!(in alloc; "! {error:?}"),
    }
}

/// Returns whether the octets are those that DER writes of a value.
pub fn canonical<T: Decode + Encode + LawfulEq>(
    alloc: Global,
    row: &Row<'_>,
) -> Result<String, AllocError> {
    let answer = der::is_canonical::<T>(alloc, &row.octets)?;
    shown(alloc, &answer)
}

/// Returns the result of reading a value out of an open type with the octets.
pub fn inside<T: Decode + Debug>(alloc: Global, row: &Row<'_>) -> Result<String, AllocError> {
    let any = Any::new(Vec::from_slice(alloc, &row.octets)?);
    let answer = decode_any::<T>(alloc, row.rules, &any);
    told(alloc, &answer)
}

/// Returns the octets of an open type that holds the value that is read.
pub fn held<T: Decode + Encode>(alloc: Global, row: &Row<'_>) -> Result<String, AllocError> {
    match decoded::<T>(alloc, row.rules, &row.octets) {
        Ok(value) => {
            let answer = encode_any(alloc, row.rules, &value).map(|any| any.into_vec());
            written(alloc, &answer)
        }
        Err(error) => refused(alloc, error.codec, &error.kind),
    }
}
