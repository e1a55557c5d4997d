//! Members of objects.
ghost use Rattle.std.specs.Prelude.{◌≡◌, Some, true, IfOk, OnOk};
ghost use Rattle.json.specs.Find.{get};
ghost use Rattle.json.specs.Value.{value_view};
ghost use Rattle.rasn_types.specs.Truth.{IsWhether};
ghost use Rattle.rasn_json.specs.Reading.{IsAmong, names_of};

use crate::error::{JsonError, JsonErrorKind};
use crate::found::copied;
use json::Value as Json;
use std::alloc::Global;

/// Returns whether a member has this name.
fn has_member<'text>(members: &[(&'text str, Json<'text>)], name: &str) -> bool
    ensures { IsWhether result (IsAmong (names_of members.now) name.now) }
{
    for member in members {
        if member.0 == name {
            return true;
        }
    }
    false
}

/// Returns the member with this name, or an error if there is none.
pub fn present<'json, 'text>(
    alloc: Global,
    json: &'json Json<'text>,
    name: &str,
) -> Result<&'json Json<'text>, JsonError>
    ensures { IfOk result (λ member. get name.now (value_view json.now) ≡ Some (value_view member.now)) }
{
    match json.get(name) {
        Some(member) => Ok(member),
        None => Err(missing_member(alloc, name)),
    }
}

/// Checks that the name of a member is known, and that none before it has the same.
pub fn check_member<'text>(
    alloc: Global,
    name: &str,
    is_known: bool,
    before: &[(&'text str, Json<'text>)],
) -> Result<(), JsonError>
    ensures known { OnOk result (is_known ≡ true) }
    ensures first { OnOk result (IsAmong (names_of before.now) name.now → ⊥) }
{
    if !is_known {
        return Err(unknown_member(alloc, name));
    }
    if has_member(before, name) {
        return Err(repeated_member(alloc, name));
    }
    Ok(())
}

/// Returns the error that a member is missing.
pub fn missing_member(alloc: Global, name: &str) -> JsonError {
    match copied(alloc, name) {
        Ok(name) => JsonError::new(alloc, JsonErrorKind::MissingMember { name }),
        Err(error) => error,
    }
}

/// Returns the error that a member is none of the type.
fn unknown_member(alloc: Global, name: &str) -> JsonError {
    match copied(alloc, name) {
        Ok(name) => JsonError::new(alloc, JsonErrorKind::UnknownMember { name }),
        Err(error) => error,
    }
}

/// Returns the error that two members have the same name.
fn repeated_member(alloc: Global, name: &str) -> JsonError {
    match copied(alloc, name) {
        Ok(name) => JsonError::new(alloc, JsonErrorKind::RepeatedMember { name }),
        Err(error) => error,
    }
}
