//! Nodes of defaults.
ghost use Rattle.std.specs.Prelude.{◌≡◌, ◌-◌, ◌<◌, ◌⊎◌, ◌∷◌, ◌++◌, IfOk, IfErr, OnOk};
ghost use Rattle.rasn_schema_octets.specs.Defaults.{nodes_of, all_nodes, nodes_held, IsWithinDepth};
ghost use Rattle.rasn_schema_octets.specs.Forms.{node_form_tree};
ghost use Rattle.rasn_schema_octets.specs.Nodes.{node_trees};
ghost use Rattle.rasn_schema_octets.specs.Shallow.{Every};
ghost use Rattle.rasn_schema_octets.specs.Stops.{IsMemory};

use crate::fault::Stop;
use crate::node::NodeForm;
use rasn::types::{BitString, Implicit, OctetString, TryClone};
use rasn_schema::{TypeId, Value};
use std::alloc::{AllocError, Global};

/// How deep the values of a default may be nested.
const MAX_DEPTH: usize = 32;

/// Returns the error that a value is nested too deep.
fn too_deep() -> Stop {
    Stop::Default {
        id: TypeId(0),
        index: 0,
    }
}

/// Returns the nodes of a value.
///
/// # Errors
/// If memory runs out, or the value is nested too deep.
pub(crate) fn value_nodes(alloc: Global, value: &Value<'_>) -> Result<Vec<NodeForm>, Stop>
    ensures ok { IfOk result (λ nodes. node_trees nodes.items ≡ nodes_of value.now) }
    ensures refused { IfErr result (λ e. IsMemory e ⊎ (IsWithinDepth value.now 32 → ⊥)) }
{
    let mut nodes = Vec::new(alloc);
    append_value(alloc, value, MAX_DEPTH, &mut nodes)?;
    Ok(nodes)
}

/// Returns the first node of a value.
fn first_node(alloc: Global, value: &Value<'_>) -> Result<NodeForm, AllocError>
    ensures { IfOk result (λ n. nodes_of value.now ≡ node_form_tree n ∷ nodes_held value.now) }
{
    match value {
        Value::Boolean(truth) => Ok(NodeForm::Boolean(*truth)),
        Value::Null => Ok(NodeForm::Null(())),
        Value::Integer(number) => Ok(NodeForm::Integer(number.try_clone(alloc)?)),
        Value::Bits(bits) => Ok(NodeForm::Bits(BitString::from_bitstr(alloc, &bits.as_bitstr())?)),
        Value::Octets(octets) => {
            let copy = Vec::from_slice(alloc, octets.as_slice())?;
            Ok(NodeForm::Octets(OctetString::from_vec(copy)))
        }
        Value::Text(text) => Ok(NodeForm::Text(String::from_str(alloc, text.as_str())?)),
        Value::Units(units) => Ok(NodeForm::Units(units.try_clone(alloc)?)),
        Value::Arcs(arcs) => Ok(NodeForm::Arcs(arcs.try_clone(alloc)?)),
        Value::Instant(time) => Ok(NodeForm::Instant(*time)),
        Value::Day(day) => Ok(NodeForm::Day(*day)),
        Value::Items(values) => Ok(NodeForm::Items(Implicit::new(values.len()))),
        Value::Elements(values) => Ok(NodeForm::Elements(Implicit::new(values.len()))),
        Value::Chosen(index, _) => Ok(NodeForm::Chosen(Implicit::new(*index))),
        Value::Absent => Ok(NodeForm::Absent(Implicit::new(()))),
    }
}

/// Appends the nodes of a value.
#[cycle(nodes)]
fn append_value(
    alloc: Global,
    value: &Value<'_>,
    levels: usize,
    nodes: &mut Vec<NodeForm>,
) -> Result<(), Stop>
    ensures ok { OnOk result (node_trees nodes.new.items ≡ node_trees nodes.old.items ++ nodes_of value.now) }
    ensures refused { IfErr result (λ e. IsMemory e ⊎ (IsWithinDepth value.now levels → ⊥)) }
{
    nodes.push(first_node(alloc, value)?)?;
    match value {
        Value::Items(values) => append_values(alloc, values, levels, nodes),
        Value::Elements(values) => append_values(alloc, values, levels, nodes),
        Value::Chosen(_, value) => {
            if levels == 0 {
                return Err(too_deep());
            }
            append_value(alloc, value, levels - 1, nodes)
        }
        Value::Boolean(_) | Value::Null | Value::Integer(_) | Value::Bits(_) => Ok(()),
        Value::Octets(_) | Value::Text(_) | Value::Units(_) | Value::Arcs(_) => Ok(()),
        Value::Instant(_) | Value::Day(_) | Value::Absent => Ok(()),
    }
}

/// Appends the nodes of values that another one holds.
#[cycle(nodes)]
fn append_values(
    alloc: Global,
    values: &[Value<'_>],
    levels: usize,
    nodes: &mut Vec<NodeForm>,
) -> Result<(), Stop>
    ensures ok { OnOk result (node_trees nodes.new.items ≡ node_trees nodes.old.items ++ all_nodes values.now) }
    ensures refused { IfErr result (λ e. IsMemory e ⊎ ((0 < levels) × Every (λ v. IsWithinDepth v (levels - 1)) values.now → ⊥)) }
{
    if levels == 0 {
        return Err(too_deep());
    }
    for value in values {
        append_value(alloc, value, levels - 1, nodes)?;
    }
    Ok(())
}
