//! BIT STRING (X.697, encoding of bitstring values).
ghost use Rattle.std.specs.Prelude.{◌≡◌, None, pos, IfOk, OnOk};
ghost use Rattle.json.specs.Value.{value_view};
ghost use Rattle.rasn_types.specs.Truth.{IsWhether};
ghost use Rattle.rasn_json.specs.Json.{one_size};
ghost use Rattle.rasn_json.specs.Reading.{AllBitsRead, AreNames, IsNameOfBits, WholeRead, names_of};
ghost use Rattle.rasn_json.specs.Texts.{ArePacked};

use crate::digits::octets_in;
use crate::error::{JsonError, JsonErrorKind};
use crate::found::{other_form, whole_number};
use crate::members::{check_member, present};
use json::Value as Json;
use rasn_types::types::{BitString, Bounded, Constraints};
use std::alloc::Global;

/// Returns the one size that a constraint admits, if there is one. Such a BIT STRING is a string,
/// and any other an object with its length.
pub fn fixed_size(constraints: &Constraints) -> Option<usize>
    ensures { result ≡ one_size constraints.now }
{
    let bound = constraints.size?;
    if bound.extensible {
        return None;
    }
    match bound.constraint {
        Bounded::Single(only) => Some(only),
        Bounded::Range {
            start: Some(start),
            end: Some(end),
        } => if start == end { Some(start) } else { None },
        _ => None,
    }
}

/// Returns the bits that a JSON value is: digits for as many bits as the type has, or an object
/// with digits and the number of bits.
pub fn bits_of(
    alloc: Global,
    constraints: &Constraints,
    json: &Json<'_>,
) -> Result<BitString, JsonError>
    ensures { IfOk result (λ b. AllBitsRead (one_size constraints.now) (value_view json.now) b) }
{
    match fixed_size(constraints) {
        Some(len) => {
            let octets = octets_in(alloc, json)?;
            bits_in(alloc, octets, len)
        }
        None => counted_bits(alloc, json),
    }
}

/// Returns the bits of an object with the members `value` and `length`.
fn counted_bits(alloc: Global, json: &Json<'_>) -> Result<BitString, JsonError>
    ensures { IfOk result (λ b. AllBitsRead None (value_view json.now) b) }
{
    let Json::Object(members) = json else {
        return Err(other_form(alloc, "an object", json));
    };
    check_names(alloc, members.as_slice())?;
    let value = present(alloc, json, "value")?;
    let length = present(alloc, json, "length")?;
    let octets = match octets_in(alloc, value) {
        Ok(octets) => octets,
        Err(error) => return Err(error.in_member(alloc, "value")),
    };
    match size_of(alloc, length) {
        Ok(len) => bits_in(alloc, octets, len),
        Err(error) => Err(error.in_member(alloc, "length")),
    }
}

/// Returns whether this is the name of a member that bits have.
fn is_name_of_bits(name: &str) -> bool
    ensures { IsWhether result (IsNameOfBits name.now) }
{
    name == "value" || name == "length"
}

/// Checks that each member is one of the two, and none of them twice.
fn check_names<'text>(alloc: Global, members: &[(&'text str, Json<'text>)]) -> Result<(), JsonError>
    ensures { OnOk result (AreNames IsNameOfBits (names_of members.now)) }
{
    for (position, member) in members.iter().enumerate() {
        let is_known = is_name_of_bits(member.0);
        check_member(alloc, member.0, is_known, &members[..position])?;
    }
    Ok(())
}

/// Returns a JSON number as a size.
fn size_of(alloc: Global, json: &Json<'_>) -> Result<usize, JsonError>
    ensures { IfOk result (λ n. WholeRead (value_view json.now) (pos n)) }
{
    let number = whole_number(alloc, "a number", json)?;
    if let Some(number) = number.to_i128() {
        if let Ok(size) = usize::try_from(number) {
            return Ok(size);
        }
    }
    let expected = Bounded::Range {
        start: Some(0),
        end: Some(usize::MAX as i128),
    };
    Err(JsonError::new(alloc, JsonErrorKind::NumberOutOfRange { expected }))
}

/// Returns so many bits of octets, which are as many as the bits need. Unused bits are 0.
fn bits_in(alloc: Global, octets: Vec<u8>, length: usize) -> Result<BitString, JsonError>
    ensures { IfOk result (ArePacked octets.items length) }
{
    let count = octets.len();
    if count != length.div_ceil(8) {
        let kind = JsonErrorKind::WrongLength {
            length,
            octets: count,
        };
        return Err(JsonError::new(alloc, kind));
    }
    if has_unused_bit(octets.as_slice(), length) {
        return Err(JsonError::new(alloc, JsonErrorKind::UnusedBit));
    }
    match BitString::new(octets, length) {
        Some(bits) => Ok(bits),
        None => unreachable!(),
    }
}

/// Returns whether a bit of the last octet that isn't one of so many is 1.
fn has_unused_bit(octets: &[u8], length: usize) -> bool {
    match octets.last() {
        Some(last) => length % 8 != 0 && *last & (0xFF >> (length % 8)) != 0,
        None => false,
    }
}
