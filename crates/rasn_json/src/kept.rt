//! Errors that are kept in one place.
//!
//! A `JsonError` is large. So that none is moved for each level of a value, the functions that read
//! and write values return only whether they did, and put the error where their caller keeps it.
//! Functions that make an error aren't inlined in those that call themselves, so they take none of
//! their stack.
ghost use Rattle.std.specs.Prelude.{◌≡◌, Ok, IfErr, IsErr, MatchResult};
ghost use Rattle.rasn_json.specs.Refusals.{IsMemory, IsOfElement, IsOfItself, IsOfMember, OrMemory};
ghost use Rattle.rasn_json.specs.declared.error.JsonErrorKind.TheVariants.{NoType, TooDeep, Unfit};

use crate::error::{JsonError, JsonErrorKind};
use crate::found::{copied, other_form};
use crate::members::missing_member;
use crate::write_leaf::unfit;
use json::Value as Json;
use rasn_schema::TypeId;
use std::alloc::Global;
use std::mem;

/// Says that a value isn't read, or isn't written. The error is stored in the caller's `error`.
#[derive(Clone, Copy)]
pub struct Refused;

/// Keeps the error of an outcome, if it is one.
pub fn kept<T>(outcome: Result<T, JsonError>, error: &mut JsonError) -> Result<T, Refused>
    ensures ok { MatchResult outcome (λ v. result ≡ Ok v) (λ _. IsErr result) }
    ensures err { IfErr outcome (λ e. error.new ≡ e) }
{
    match outcome {
        Ok(value) => Ok(value),
        Err(fault) => {
            *error = fault;
            Err(Refused)
        }
    }
}

/// Keeps the error that a value is nested too deep.
#[cold]
#[inline(never)]
pub fn refuse_depth(alloc: Global, error: &mut JsonError) -> Refused
    ensures { IsOfItself TooDeep error.new }
{
    *error = JsonError::new(alloc, JsonErrorKind::TooDeep);
    Refused
}

/// Keeps the error that the schema has no type with this number.
#[cold]
#[inline(never)]
pub fn refuse_type(alloc: Global, id: TypeId, error: &mut JsonError) -> Refused
    ensures { IsOfItself (NoType id) error.new }
{
    *error = JsonError::new(alloc, JsonErrorKind::NoType { id });
    Refused
}

/// Keeps the error that a value isn't one of its type.
#[cold]
#[inline(never)]
pub fn refuse_unfit(alloc: Global, error: &mut JsonError) -> Refused
    ensures { IsOfItself Unfit error.new }
{
    *error = unfit(alloc);
    Refused
}

/// Keeps the error that a JSON value has another form than this.
#[cold]
#[inline(never)]
pub fn refuse_form(
    alloc: Global,
    expected: &'static str,
    json: &Json<'_>,
    error: &mut JsonError,
) -> Refused {
    *error = other_form(alloc, expected, json);
    Refused
}

/// Keeps the error that the object of a CHOICE has so many members.
#[cold]
#[inline(never)]
pub fn refuse_members(alloc: Global, members: usize, error: &mut JsonError) -> Refused {
    *error = JsonError::new(alloc, JsonErrorKind::NotOneMember { members });
    Refused
}

/// Keeps the error that no alternative has this name.
#[cold]
#[inline(never)]
pub fn refuse_alternative(alloc: Global, name: &str, error: &mut JsonError) -> Refused {
    *error = match copied(alloc, name) {
        Ok(name) => JsonError::new(alloc, JsonErrorKind::UnknownAlternative { name }),
        Err(fault) => fault,
    };
    Refused
}

/// Keeps the error that the member with this name is missing.
#[cold]
#[inline(never)]
pub fn refuse_missing(alloc: Global, name: &str, error: &mut JsonError) -> Refused {
    *error = missing_member(alloc, name);
    Refused
}

/// Keeps the error that memory ran out.
#[cold]
#[inline(never)]
pub fn refuse_memory(alloc: Global, error: &mut JsonError) -> Refused
    ensures { IsMemory error.new }
{
    *error = JsonError::memory(alloc);
    Refused
}

/// Adds to the error of a member that it is the one with this name.
#[cold]
#[inline(never)]
pub fn refuse_in_member(alloc: Global, name: &str, error: &mut JsonError) -> Refused
    ensures { OrMemory (IsOfMember name.now (λ e. e ≡ error.old)) error.new }
{
    let inner = mem::replace(error, JsonError::memory(alloc));
    *error = inner.in_member(alloc, name);
    Refused
}

/// Adds to the error of an element that it is the one with this index.
#[cold]
#[inline(never)]
pub fn refuse_in_element(alloc: Global, index: usize, error: &mut JsonError) -> Refused
    ensures { OrMemory (IsOfElement index (λ e. e ≡ error.old)) error.new }
{
    let inner = mem::replace(error, JsonError::memory(alloc));
    *error = inner.in_element(alloc, index);
    Refused
}
