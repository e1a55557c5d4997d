//! Which form a JSON value has.
ghost use Rattle.std.specs.Prelude.{◌≡◌, ◌⊎◌, Some, IfOk};
ghost use Rattle.json.specs.Find.{as_str};
ghost use Rattle.json.specs.Value.{value_view};
ghost use Rattle.rasn_json.specs.Decimal.{IsWhole};
ghost use Rattle.rasn_json.specs.Reading.{NumeralRead, WholeRead};

use crate::decimal::{MAX_NUMBER_CHARACTERS, integer_of, is_long};
use crate::error::{JsonError, JsonErrorKind, or_memory};
use json::Value as Json;
use rasn_types::types::Integer;
use std::alloc::Global;

/// Returns the form of a JSON value, for errors.
fn form_of(json: &Json<'_>) -> &'static str {
    match json {
        Json::Null => "null",
        Json::Bool(_) => "a truth value",
        Json::Number(_) => "a number",
        Json::String(_) => "a string",
        Json::Array(_) => "an array",
        Json::Object(_) => "an object",
    }
}

/// Returns the error that a JSON value has another form than this.
pub fn other_form(alloc: Global, expected: &'static str, json: &Json<'_>) -> JsonError {
    let kind = JsonErrorKind::OtherForm {
        expected,
        found: form_of(json),
    };
    JsonError::new(alloc, kind)
}

/// Returns the characters of a string.
pub fn string_of<'text>(
    alloc: Global,
    expected: &'static str,
    json: &Json<'text>,
) -> Result<&'text str, JsonError>
    ensures { IfOk result (λ s. as_str (value_view json.now) ≡ Some s.now) }
{
    match json.as_str() {
        Some(text) => Ok(text),
        None => Err(other_form(alloc, expected, json)),
    }
}

/// Returns a whole number, unless it has too many octets.
pub fn whole_number(
    alloc: Global,
    expected: &'static str,
    json: &Json<'_>,
) -> Result<Integer, JsonError>
    ensures { IfOk result (λ n. WholeRead (value_view json.now) n) }
{
    match json.as_number() {
        Some(text) => number_in(alloc, text),
        None => Err(other_form(alloc, expected, json)),
    }
}

/// Returns a whole number or the one whose digits a string is, unless it has too many octets.
pub fn number_or_digits(alloc: Global, json: &Json<'_>) -> Result<Integer, JsonError>
    ensures { IfOk result (λ n. WholeRead (value_view json.now) n ⊎ NumeralRead (value_view json.now) n) }
{
    match json.as_str() {
        Some(text) => number_in(alloc, text),
        None => whole_number(alloc, "a number", json),
    }
}

/// Returns the whole number that a text is, unless it has too many octets.
fn number_in(alloc: Global, text: &str) -> Result<Integer, JsonError>
    ensures { IfOk result (IsWhole text.now) }
{
    if text.len() > MAX_NUMBER_CHARACTERS {
        return Err(JsonError::new(alloc, JsonErrorKind::LongNumber));
    }
    match or_memory(alloc, integer_of(alloc, text))? {
        Some(number) => {
            if is_long(&number) {
                return Err(JsonError::new(alloc, JsonErrorKind::LongNumber));
            }
            Ok(number)
        }
        None => Err(JsonError::new(alloc, JsonErrorKind::NotWhole)),
    }
}

/// Returns a copy of a name, for errors.
pub fn copied(alloc: Global, name: &str) -> Result<String, JsonError> {
    match String::from_str(alloc, name) {
        Ok(name) => Ok(name),
        Err(_) => Err(JsonError::memory(alloc)),
    }
}
