//! Hexadecimal digits (X.697, OCTET STRING).
ghost use Rattle.std.specs.Prelude.{◌≡◌, IfOk, string_bytes};
ghost use Rattle.json.specs.Value.{value_view};
ghost use Rattle.rasn_types.specs.Text.{hexadecimal};
ghost use Rattle.rasn_json.specs.Reading.{HexadecimalRead};

use crate::error::{JsonError, JsonErrorKind};
use crate::found::string_of;
use hex::FromHexError;
use json::Value as Json;
use std::alloc::{AllocError, Global};

/// Returns octets as hexadecimal digits, in capitals.
pub fn digits_of(alloc: Global, octets: &[u8]) -> Result<String, AllocError>
    ensures { IfOk result (λ s. string_bytes s ≡ hexadecimal octets.now) }
{
    hex::encode_upper(alloc, octets)
}

/// Returns the octets of a string of hexadecimal digits, two for each octet, in capitals or not.
pub fn octets_in(alloc: Global, json: &Json<'_>) -> Result<Vec<u8>, JsonError>
    ensures { IfOk result (λ octets. HexadecimalRead (value_view json.now) octets.items) }
{
    let digits = string_of(alloc, "a string of hexadecimal digits", json)?;
    match hex::decode(alloc, digits) {
        Ok(octets) => Ok(octets),
        Err(FromHexError::OutOfMemory) => Err(JsonError::memory(alloc)),
        Err(_) => Err(JsonError::new(alloc, JsonErrorKind::NotHexadecimal)),
    }
}
