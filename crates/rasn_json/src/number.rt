//! INTEGER and ENUMERATED (X.697, encoding of integer and of enumerated values).
ghost use Rattle.std.specs.Prelude.{◌≡◌, Contains, IfOk, MatchOption};
ghost use Rattle.json.specs.Json.{string};
ghost use Rattle.json.specs.Value.{value_view};
ghost use Rattle.rasn_types.specs.Truth.{IsWhether};
ghost use Rattle.rasn_schema.specs.Shapes.{numbers_of};
ghost use Rattle.rasn_schema.specs.Fitting.{FitsLeaf, IsNumber};
ghost use Rattle.rasn_json.specs.Json.{IsExtensible, IsUnnamed, NameJson};
ghost use Rattle.rasn_json.specs.Reading.{EnumeratedRead, LeafRead, NameRead};

use crate::error::{JsonError, JsonErrorKind};
use crate::found::{copied, number_or_digits, string_of, whole_number};
use json::Value as Json;
use rasn_schema::{LeafKind, NamedNumber, Value, index_named, leaf_fits};
use rasn_types::types::{Bounded, Constraints, Integer};
use std::alloc::Global;

/// Returns whether numbers of this kind with these names are those of an ENUMERATED with an
/// extension marker, whose names are strings: those of an INTEGER aren't used.
pub fn is_enumerated(kind: LeafKind, names: &[NamedNumber]) -> bool
    ensures { IsWhether result (IsExtensible kind names.now) }
{
    kind == LeafKind::Signed64 && !names.is_empty()
}

/// Returns the numbers of a kind, for errors.
fn range_of(kind: LeafKind) -> Bounded<i128> {
    let (start, end) = match kind {
        LeafKind::Signed32 => (i32::MIN as i128, i32::MAX as i128),
        LeafKind::Signed64 => (i64::MIN as i128, i64::MAX as i128),
        LeafKind::Unsigned32 => (0, u32::MAX as i128),
        LeafKind::Unsigned64 => (0, u64::MAX as i128),
        _ => return Bounded::None,
    };
    Bounded::Range {
        start: Some(start),
        end: Some(end),
    }
}

fn out_of_range(alloc: Global, expected: Bounded<i128>) -> JsonError {
    JsonError::new(alloc, JsonErrorKind::NumberOutOfRange { expected })
}

/// Returns the value of an INTEGER that a JSON value is: a number, or a string of its digits, since
/// many programs round numbers that a double hasn't.
pub fn integer_value<'any>(
    alloc: Global,
    kind: LeafKind,
    constraints: &Constraints,
    names: &[NamedNumber],
    json: &Json<'_>,
) -> Result<Value<'any>, JsonError>
    requires { IsExtensible kind names.now → ⊥ }
    ensures fits { IfOk result (λ v. FitsLeaf kind v) }
    ensures reads { IfOk result (LeafRead kind constraints.now names.now (value_view json.now)) }
{
    let number = number_or_digits(alloc, json)?;
    if !constraints.admits_number(number.as_octets()) {
        return Err(out_of_range(alloc, constraints.value_bounds()));
    }
    checked(alloc, kind, Value::Integer(number))
}

/// Returns the number that has a name.
fn number_of(alloc: Global, named: &NamedNumber) -> Result<Integer, JsonError>
    ensures { IfOk result (λ n. n ≡ named.now.number) }
{
    let number = named.number as i128;
    match Integer::from_i128(alloc, number) {
        Ok(number) => Ok(number),
        Err(_) => Err(JsonError::memory(alloc)),
    }
}

/// Returns the number that a JSON string names.
fn number_named(
    alloc: Global,
    numbers: &[NamedNumber],
    json: &Json<'_>,
) -> Result<Integer, JsonError>
    ensures known { IfOk result (λ n. Contains (numbers_of numbers.now) n) }
    ensures reads { IfOk result (NameRead numbers.now (value_view json.now)) }
{
    let name = string_of(alloc, "a string", json)?;
    match index_named(numbers, name) {
        Some(index) => number_of(alloc, &numbers[index]),
        None => {
            let name = copied(alloc, name)?;
            Err(JsonError::new(alloc, JsonErrorKind::UnknownName { name }))
        }
    }
}

/// Returns the value of an ENUMERATED that a JSON value is.
pub fn enumerated_value<'any>(
    alloc: Global,
    numbers: &[NamedNumber],
    json: &Json<'_>,
) -> Result<Value<'any>, JsonError>
    ensures fits { IfOk result (λ v. IsNumber (numbers_of numbers.now) v) }
    ensures reads { IfOk result (EnumeratedRead numbers.now (value_view json.now)) }
{
    Ok(Value::Integer(number_named(alloc, numbers, json)?))
}

/// Returns the value of an ENUMERATED with an extension marker that a JSON value is: a name, or a
/// number that a newer version may name.
pub fn extensible_value<'any>(
    alloc: Global,
    kind: LeafKind,
    constraints: &Constraints,
    numbers: &[NamedNumber],
    json: &Json<'_>,
) -> Result<Value<'any>, JsonError>
    requires { IsExtensible kind numbers.now }
    ensures fits { IfOk result (λ v. FitsLeaf kind v) }
    ensures reads { IfOk result (LeafRead kind constraints.now numbers.now (value_view json.now)) }
{
    if json.as_str().is_some() {
        let value = Value::Integer(number_named(alloc, numbers, json)?);
        return checked(alloc, kind, value);
    }
    let value = Value::Integer(whole_number(alloc, "a string or a number", json)?);
    checked(alloc, kind, value)
}

/// Returns a value of a kind, or an error if its number is out of the kind's range.
fn checked<'any>(
    alloc: Global,
    kind: LeafKind,
    value: Value<'any>,
) -> Result<Value<'any>, JsonError>
    ensures fits { IfOk result (λ v. FitsLeaf kind v) }
    ensures same { IfOk result (λ v. v ≡ value.entry) }
{
    if leaf_fits(kind, &value) {
        return Ok(value);
    }
    Err(out_of_range(alloc, range_of(kind)))
}

/// Returns whether this is the number.
fn has_number(named: &NamedNumber, number: &Integer) -> bool
    ensures { IsWhether result (named.now.number ≡ number.now) }
{
    let listed = named.number as i128;
    match number.to_i128() {
        Some(number) => number == listed,
        None => false,
    }
}

/// Returns the first name of a number, if it has one.
pub fn name_of<'types>(numbers: &'types [NamedNumber], number: &Integer) -> Option<&'types str>
    ensures { MatchOption result (IsUnnamed numbers.now number.now) (λ name. NameJson numbers.now number.now (string name.now)) }
{
    for named in numbers {
        if has_number(named, number) {
            return Some(named.name.as_str());
        }
    }
    None
}
