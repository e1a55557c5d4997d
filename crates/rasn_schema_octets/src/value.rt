//! Defaults from nodes.
ghost use Rattle.std.specs.Prelude.{◌⊎◌, ◌∷◌, ℕ, List, IfOk, IfErr};
ghost use Rattle.rasn_types.specs.Shapes.{Tree};
ghost use Rattle.rasn_schema.specs.declared.value.Value.{Value};
ghost use Rattle.rasn_schema_octets.specs.Forms.{node_form_tree};
ghost use Rattle.rasn_schema_octets.specs.Nodes.{node_trees, IsParted, BeginsWith, BeginsWithAll, IsWhole};
ghost use Rattle.rasn_schema_octets.specs.Stops.{IsMemory};

use crate::fault::Stop;
use crate::node::NodeForm;
use rasn::types::{BitString, TryClone};
use rasn_schema::{TypeId, Value};
use rasn_types::types::CowBits;
use std::alloc::{AllocError, Global};
use std::borrow::{CowSlice, CowStr};

/// How deep the values of a default may be nested.
const MAX_DEPTH: usize = 32;

/// What a node is: a value alone, or the first node of one that holds others.
#[derive(Drop)]
pub(crate) enum Parted {
    /// A value that holds no others.
    Leaf(Value<'static>),
    /// A list of so many values.
    Items(usize),
    /// A SET OF so many values.
    Elements(usize),
    /// The alternative of a CHOICE with this index.
    Chosen(usize),
}

/// Returns the error that nodes aren't those of one value, or that it is nested too deep.
fn spoilt() -> Stop {
    Stop::Default {
        id: TypeId(0),
        index: 0,
    }
}

/// Returns the value whose nodes these are.
///
/// # Errors
/// If memory runs out, the nodes aren't those of one value, or it is nested too deep.
pub(crate) fn value_of(alloc: Global, nodes: &[NodeForm]) -> Result<Value<'static>, Stop>
    ensures ok { IfOk result (λ v. IsWhole (node_trees nodes.now) 32 v) }
    ensures refused { IfErr result (λ e. IsMemory e ⊎ ((v : Value) → IsWhole (node_trees nodes.now) 32 v → ⊥)) }
{
    let (value, rest) = first_value(alloc, nodes, MAX_DEPTH)?;
    if rest.is_empty() {
        return Ok(value);
    }
    Err(spoilt())
}

/// Returns what a node is.
fn part_of(alloc: Global, node: &NodeForm) -> Result<Parted, AllocError>
    ensures { IfOk result (λ p. IsParted p (node_form_tree node.now)) }
{
    match node {
        NodeForm::Boolean(truth) => Ok(Parted::Leaf(Value::Boolean(*truth))),
        NodeForm::Null(_) => Ok(Parted::Leaf(Value::Null)),
        NodeForm::Integer(number) => Ok(Parted::Leaf(Value::Integer(number.try_clone(alloc)?))),
        NodeForm::Bits(bits) => {
            let copy = BitString::from_bitstr(alloc, &bits.as_bitstr())?;
            Ok(Parted::Leaf(Value::Bits(CowBits::Owned(copy))))
        }
        NodeForm::Octets(octets) => {
            let copy = Vec::from_slice(alloc, octets.as_octets())?;
            Ok(Parted::Leaf(Value::Octets(CowSlice::Owned(copy))))
        }
        NodeForm::Text(text) => {
            let copy = String::from_str(alloc, text.as_str())?;
            Ok(Parted::Leaf(Value::Text(CowStr::Owned(copy))))
        }
        NodeForm::Units(units) => Ok(Parted::Leaf(Value::Units(units.try_clone(alloc)?))),
        NodeForm::Arcs(arcs) => Ok(Parted::Leaf(Value::Arcs(arcs.try_clone(alloc)?))),
        NodeForm::Instant(time) => Ok(Parted::Leaf(Value::Instant(*time))),
        NodeForm::Day(day) => Ok(Parted::Leaf(Value::Day(*day))),
        NodeForm::Items(count) => Ok(Parted::Items(**count)),
        NodeForm::Elements(count) => Ok(Parted::Elements(**count)),
        NodeForm::Chosen(index) => Ok(Parted::Chosen(**index)),
        NodeForm::Absent(_) => Ok(Parted::Leaf(Value::Absent)),
    }
}

/// Returns the value with which the nodes begin, and the nodes after it.
#[cycle(values)]
fn first_value<'a>(
    alloc: Global,
    nodes: &'a [NodeForm],
    levels: usize,
) -> Result<(Value<'static>, &'a [NodeForm]), Stop>
    ensures ok { IfOk result (λ r. BeginsWith (node_trees nodes.now) levels r.0 (node_trees r.1.now)) }
    ensures refused { IfErr result (λ e. IsMemory e ⊎ ((v : Value) (left : List Tree) → BeginsWith (node_trees nodes.now) levels v left → ⊥)) }
{
    let [node, rest @ ..] = nodes else {
        return Err(spoilt());
    };
    match part_of(alloc, node)? {
        Parted::Leaf(value) => Ok((value, rest)),
        Parted::Items(count) => {
            let (values, rest) = first_values(alloc, rest, levels, count)?;
            Ok((Value::Items(values), rest))
        }
        Parted::Elements(count) => {
            let (values, rest) = first_values(alloc, rest, levels, count)?;
            Ok((Value::Elements(values), rest))
        }
        Parted::Chosen(index) => {
            if levels == 0 {
                return Err(spoilt());
            }
            let (value, rest) = first_value(alloc, rest, levels - 1)?;
            Ok((Value::Chosen(index, Box::new(alloc, value)?), rest))
        }
    }
}

/// Returns so many values with which the nodes begin, which another one holds, and the nodes after
/// them.
#[cycle(values)]
fn first_values<'a>(
    alloc: Global,
    nodes: &'a [NodeForm],
    levels: usize,
    count: usize,
) -> Result<(Vec<Value<'static>>, &'a [NodeForm]), Stop>
    ensures ok { IfOk result (λ r. BeginsWithAll (node_trees nodes.now) levels count r.0.items (node_trees r.1.now)) }
    ensures refused { IfErr result (λ e. IsMemory e ⊎ ((vs : List Value) (left : List Tree) → BeginsWithAll (node_trees nodes.now) levels count vs left → ⊥)) }
{
    if levels == 0 {
        return Err(spoilt());
    }
    let mut values = Vec::new(alloc);
    let mut left = nodes;
    for _ in 0..count {
        let (value, rest) = first_value(alloc, left, levels - 1)?;
        values.push(value)?;
        left = rest;
    }
    Ok((values, left))
}
