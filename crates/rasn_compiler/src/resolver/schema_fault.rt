//! Rules that types of a module break, with their place.
use crate::fault::{Halt, Problem};
use crate::modules::Modules;
use crate::position::Position;
use crate::resolver::node::Node;
use crate::resolver::order::Order;
use rasn_schema::{SchemaError, TypeId};

/// Returns the fault of a type that breaks a rule, at its place in a text.
pub(crate) fn schema_fault<'text>(
    modules: &Modules<'text>,
    nodes: &[Node<'text>],
    order: &Order,
    error: SchemaError,
) -> Halt<'text> {
    let (id, index, other) = place(error);
    let Some(node) = nodes.get(order.node(id)) else {
        let broken = Problem::Broken(rule(error));
        return modules.fault(0, Position::START, broken);
    };
    let (one, first) = part(node, index);
    let (two, second) = part(node, other);
    let position = second.or(first).unwrap_or(node.position);
    modules.fault(node.place.module, position, problem(error, one, two))
}

/// Returns the name and the place of a part, or those of the type.
fn part<'text>(node: &Node<'text>, index: Option<usize>) -> (&'text str, Option<Position>) {
    if let Some(index) = index {
        if let Some(part) = node.parts.get(index) {
            return (part.name, Some(part.position));
        }
    }
    (node.name, None)
}

/// Returns the type that breaks a rule.
pub(crate) fn type_of_error(error: SchemaError) -> TypeId {
    let (id, _, _) = place(error);
    id
}

/// Returns the type that breaks a rule, and the parts of it that do so.
fn place(error: SchemaError) -> (TypeId, Option<usize>, Option<usize>) {
    match error {
        SchemaError::ReservedTag { id }
        | SchemaError::ConstructedTag { id }
        | SchemaError::LateInner { id }
        | SchemaError::NoNumbers { id }
        | SchemaError::NumbersClash { id, .. }
        | SchemaError::NoAlternatives { id } => (id, None, None),
        SchemaError::LateAlternative { id, index }
        | SchemaError::UntaggedAlternative { id, index }
        | SchemaError::UntaggedComponent { id, index }
        | SchemaError::AdditionInSet { id, index }
        | SchemaError::UntaggedInSet { id, index }
        | SchemaError::MisplacedUnknown { id, index }
        | SchemaError::UnfitDefault { id, index } => (id, Some(index), None),
        SchemaError::AlternativesClash { id, index, other }
        | SchemaError::ComponentsClash { id, index, other }
        | SchemaError::SetClash { id, index, other } => (id, Some(index), Some(other)),
    }
}

/// Returns why the standard or only the schema refuses a type, of which two parts may clash.
fn problem<'text>(error: SchemaError, one: &'text str, other: &'text str) -> Problem<'text> {
    match error {
        SchemaError::AlternativesClash { .. }
        | SchemaError::ComponentsClash { .. }
        | SchemaError::SetClash { .. } => Problem::Clash(one, other),
        SchemaError::UntaggedComponent { .. } => {
            Problem::Unsupported("a component that may be absent, has no tag and isn't the last")
        }
        SchemaError::LateAlternative { .. } | SchemaError::LateInner { .. } => {
            Problem::Unsupported("such an order of types")
        }
        _ => Problem::Broken(rule(error)),
    }
}

/// Returns the rule that a type breaks.
fn rule(error: SchemaError) -> &'static str {
    match error {
        SchemaError::ReservedTag { .. } => "universal 0 is reserved (X.690 8.1.5)",
        SchemaError::ConstructedTag { .. } => {
            "a string or a time has the tag of SEQUENCE or SET (X.680 31.2.3)"
        }
        SchemaError::NumbersClash { .. } => "two of the numbers are the same (X.680 20.3)",
        SchemaError::NoNumbers { .. } => "an ENUMERATED without names (X.680 20.1)",
        SchemaError::NoAlternatives { .. } => "a CHOICE without alternatives (X.680 29.1)",
        SchemaError::UntaggedAlternative { .. } => "an open type without a tag (X.680 29.3)",
        SchemaError::UntaggedInSet { .. } => "an open type without a tag (X.680 27.3)",
        SchemaError::UnfitDefault { .. } => "the default isn't a value of the type (X.680 25)",
        _ => "two parts begin with the same tag (X.680 25.6, 27.3, 29.3)",
    }
}
