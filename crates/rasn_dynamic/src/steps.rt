//! Paths to parts by names.
ghost use Rattle.std.specs.Prelude.{◌≡◌, ◌++◌, ℕ, List, Some, OnOk, IfOk, MatchOption, MatchBool, ◌∷◌, []};
ghost use Rattle.rasn_schema.specs.declared.type_id.TypeId.{TypeId};
ghost use Rattle.rasn_schema.specs.Held.{part_name};
ghost use Rattle.rasn_dynamic.specs.Steps.{IsFirstName, IsNamedStep, IsIndexedStep, IsStepOf, IsWay, IsNoWay};

use rasn_schema::{Schema, Type, TypeId, components_of, index_named, part_type, type_at};
use std::alloc::{AllocError, Global};

/// A step on the way to a part.
#[derive(Clone, Copy, Debug)]
pub enum Step<'name> {
    /// To the component or the alternative with this name.
    Name(&'name str),
    /// To the element with this index, counted from 0.
    Index(usize),
}

/// Returns the index of the first component or alternative with this name.
fn index_of(ty: &Type, name: &str) -> Option<usize>
    ensures { MatchOption result ((k : ℕ) → Some name.now ≡ part_name ty.now k → ⊥) (λ k. IsFirstName ty.now name.now k) }
{
    match ty {
        Type::Choice { alternatives, .. } => index_named(alternatives.as_slice(), name),
        _ => index_named(components_of(ty), name),
    }
}

/// Returns the index of the part with this name, and the number of its type.
fn named_step(ty: &Type, name: &str) -> Option<(usize, TypeId)>
    ensures { MatchOption result ((k : ℕ) (id : TypeId) → IsNamedStep ty.now name.now k id → ⊥) (λ q. IsNamedStep ty.now name.now q.0 q.1) }
{
    let index = index_of(ty, name)?;
    Some((index, part_type(ty, index)?))
}

/// Returns the index of an element, and the number of its type.
fn indexed_step(ty: &Type, index: usize) -> Option<(usize, TypeId)>
    ensures { MatchOption result ((k : ℕ) (id : TypeId) → IsIndexedStep ty.now index k id → ⊥) (λ q. IsIndexedStep ty.now index q.0 q.1) }
{
    match ty {
        Type::SequenceOf { element, .. } => Some((index, *element)),
        Type::SetOf { element, .. } => Some((index, *element)),
        _ => None,
    }
}

/// Returns the index of the part to which a step leads, and the number of its type.
fn part_step(ty: &Type, step: &Step<'_>) -> Option<(usize, TypeId)>
    ensures { MatchOption result ((k : ℕ) (id : TypeId) → IsStepOf ty.now step.now k id → ⊥) (λ q. IsStepOf ty.now step.now q.0 q.1) }
{
    match step {
        Step::Name(name) => named_step(ty, name),
        Step::Index(index) => indexed_step(ty, *index),
    }
}

/// Appends an index.
fn append(path: &mut Vec<usize>, index: usize) -> Result<(), AllocError>
    ensures { OnOk result (path.new.items ≡ path.old.items ++ index ∷ []) }
{
    match path.push(index) {
        Ok(()) => Ok(()),
        Err(_) => Err(AllocError),
    }
}

/// Appends the indices to which steps lead from a type. Returns whether each step leads to a part.
/// Types are followed `levels` deep.
fn append_way(
    types: &[Type],
    levels: usize,
    id: TypeId,
    steps: &[Step<'_>],
    path: &mut Vec<usize>,
) -> Result<bool, AllocError>
    ensures { IfOk result (λ found. MatchBool found
        ((more : List ℕ) × (path.new.items ≡ path.old.items ++ more) × IsWay types.now levels id.0 steps.now more)
        (IsNoWay types.now levels id.0 steps.now)) }
{
    let mut left = levels;
    let mut next = id;
    let mut rest = steps;
    while let [step, after @ ..] = rest {
        if left == 0 {
            return Ok(false);
        }
        left -= 1;
        let Some(ty) = type_at(types, next) else {
            return Ok(false);
        };
        if let Type::Tagged { inner, .. } = ty {
            append(path, 0)?;
            next = *inner;
            continue;
        }
        let Some((index, part)) = part_step(ty, step) else {
            return Ok(false);
        };
        append(path, index)?;
        next = part;
        rest = after;
    }
    Ok(true)
}

/// Returns the path to the part to which steps lead from the type with this number, for
/// [`find_part`](crate::find_part). An explicit tag on the way is a step of the path, with the
/// index 0, and has no name. Returns `None` if a step leads to no part.
///
/// # Errors
/// `AllocError` if memory runs out.
///
/// # Examples
/// ```
/// // `id` is the number of SEQUENCE { name IA5String, ok BOOLEAN } in `schema`.
/// let path = rasn_dynamic::path_named(alloc, &schema, id, &[Step::Name("ok")])?;
/// // `path` is [1]
/// ```
pub fn path_named(
    alloc: Global,
    schema: &Schema,
    id: TypeId,
    steps: &[Step<'_>],
) -> Result<Option<Vec<usize>>, AllocError>
    ensures { IfOk result (λ found. MatchOption found
        (IsNoWay schema.now.types.items 18446744073709551615 id.0 steps.now)
        (λ path. IsWay schema.now.types.items 18446744073709551615 id.0 steps.now path.items)) }
{
    let mut path = Vec::new(alloc);
    if append_way(schema.types(), usize::MAX, id, steps, &mut path)? {
        Ok(Some(path))
    } else {
        Ok(None)
    }
}
