//! Copies of values.
ghost use Rattle.std.specs.Prelude.{◌≡◌, ℕ, IfOk};
ghost use Rattle.std.specs.Cow.{cow_slice_items, cow_str_bytes};
ghost use Rattle.rasn_types.specs.CowBits.{cow_bits};
ghost use Rattle.rasn_types.specs.Order.{Each};
ghost use Rattle.rasn_schema.specs.declared.value.Value.{Chosen};
ghost use Rattle.rasn_schema.specs.Copies.{IsChosenBy, IsCopy};

use crate::value::Value;
use rasn_types::types::{BitString, CowBits, TryClone};
use std::alloc::{AllocError, Global};
use std::borrow::{CowSlice, CowStr};

fn owned_bits<'any>(bits: &CowBits<'_>, alloc: Global) -> Result<CowBits<'any>, AllocError>
    ensures { IfOk result (λ copy. cow_bits copy ≡ cow_bits bits.now) }
{
    Ok(CowBits::Owned(BitString::from_bitstr(alloc, &bits.as_bitstr())?))
}

fn owned_octets<'any>(octets: &[u8], alloc: Global) -> Result<CowSlice<'any, u8>, AllocError>
    ensures { IfOk result (λ copy. cow_slice_items copy ≡ octets.now) }
{
    Ok(CowSlice::Owned(Vec::from_slice(alloc, octets)?))
}

fn owned_text<'any>(text: &str, alloc: Global) -> Result<CowStr<'any>, AllocError>
    ensures { IfOk result (λ copy. cow_str_bytes copy ≡ text.now) }
{
    Ok(CowStr::Owned(String::from_str(alloc, text)?))
}

/// Returns the value of a CHOICE whose alternatives, in one another, have these indices, the last of
/// which has this value.
fn chosen_by<'any>(
    value: Value<'any>,
    mut indices: Vec<usize>,
    alloc: Global,
) -> Result<Value<'any>, AllocError>
    ensures { IfOk result (λ outer. IsChosenBy indices.items value.entry outer) }
{
    let mut outer = value;
    while let Some(index) = indices.pop() {
        outer = Value::Chosen(index, Box::new(alloc, outer)?);
    }
    Ok(outer)
}

/// Returns a copy of a value, with memory of its own. CHOICEs directly in one another take no
/// stack.
#[cycle(copy)]
pub fn copy_of<'any>(value: &Value<'_>, alloc: Global) -> Result<Value<'any>, AllocError>
    ensures { IfOk result (λ copy. IsCopy value.now copy) }
{
    let mut indices = Vec::new(alloc);
    let mut inner = value;
    while let Value::Chosen(index, chosen) = inner {
        indices.push(*index)?;
        inner = chosen;
    }
    let copy = copy_of_innermost(inner, alloc)?;
    chosen_by(copy, indices, alloc)
}

/// Returns a copy of a value that isn't a CHOICE's.
#[cycle(copy)]
fn copy_of_innermost<'any>(value: &Value<'_>, alloc: Global) -> Result<Value<'any>, AllocError>
    requires { (index : ℕ) (inner : _) → value.now ≡ Chosen index inner → ⊥ }
    ensures { IfOk result (λ copy. IsCopy value.now copy) }
{
    match value {
        Value::Boolean(truth) => Ok(Value::Boolean(*truth)),
        Value::Null => Ok(Value::Null),
        Value::Integer(integer) => Ok(Value::Integer(integer.try_clone(alloc)?)),
        Value::Bits(bits) => Ok(Value::Bits(owned_bits(bits, alloc)?)),
        Value::Octets(octets) => Ok(Value::Octets(owned_octets(octets.as_slice(), alloc)?)),
        Value::Text(text) => Ok(Value::Text(owned_text(text.as_str(), alloc)?)),
        Value::Units(units) => Ok(Value::Units(units.try_clone(alloc)?)),
        Value::Arcs(arcs) => Ok(Value::Arcs(arcs.try_clone(alloc)?)),
        Value::Instant(time) => Ok(Value::Instant(*time)),
        Value::Day(date) => Ok(Value::Day(*date)),
        Value::Items(values) => Ok(Value::Items(copies_of(values.as_slice(), alloc)?)),
        Value::Elements(values) => Ok(Value::Elements(copies_of(values.as_slice(), alloc)?)),
        Value::Chosen(_, _) => unreachable!(),
        Value::Absent => Ok(Value::Absent),
    }
}

/// Returns copies of values, in their order.
#[cycle(copy)]
fn copies_of<'any>(values: &[Value<'_>], alloc: Global) -> Result<Vec<Value<'any>>, AllocError>
    ensures { IfOk result (λ copies. Each IsCopy values.now copies.items) }
{
    let mut copies = Vec::with_capacity(alloc, values.len())?;
    for value in values {
        let copy = copy_of(value, alloc)?;
        copies.push(copy)?;
    }
    Ok(copies)
}
