//! Types that differ in their tag alone.
use crate::kinds::typed_kind;
use crate::members::inner_of;
use rasn_schema::{
    Alternative, Component, LeafKind, NamedNumber, Presence, Type, Value, components_of,
};
use rasn_types::types::Constraints;

/// Returns whether two types differ in their tag at most, so that one is the other with an implicit
/// tag (X.680 31.2.7). Types with defaults other than a BOOLEAN, a number or an empty list are
/// taken to differ in more.
pub(crate) fn is_same_but_tag(ty: &Type, other: &Type) -> bool {
    match (ty, other) {
        (Type::Sequence { .. }, Type::Sequence { .. }) | (Type::Set { .. }, Type::Set { .. }) => {
            are_same_components(components_of(ty), components_of(other))
        }
        (Type::SequenceOf { .. }, Type::SequenceOf { .. })
        | (Type::SetOf { .. }, Type::SetOf { .. }) => {
            inner_of(ty) == inner_of(other) && constraints_of(ty) == constraints_of(other)
        }
        (Type::Choice { .. }, Type::Choice { .. }) => {
            are_same_alternatives(alternatives_of(ty), alternatives_of(other))
        }
        (Type::Enumerated { .. }, Type::Enumerated { .. }) => {
            are_same_numbers(numbers_of(ty), numbers_of(other))
        }
        (Type::Leaf { .. }, Type::Leaf { .. }) => {
            kind_of(ty) == kind_of(other)
                && constraints_of(ty) == constraints_of(other)
                && are_same_numbers(numbers_of(ty), numbers_of(other))
        }
        _ => false,
    }
}

/// Returns the kind of a leaf.
fn kind_of(ty: &Type) -> Option<LeafKind> {
    match ty {
        Type::Leaf { kind, .. } => Some(typed_kind(*kind)),
        _ => None,
    }
}

/// Returns the constraints of a type.
pub(crate) fn constraints_of(ty: &Type) -> Constraints {
    match ty {
        Type::Leaf { constraints, .. }
        | Type::SequenceOf { constraints, .. }
        | Type::SetOf { constraints, .. } => *constraints,
        _ => Constraints::NONE,
    }
}

/// Returns the numbers with names of a type.
fn numbers_of(ty: &Type) -> &[NamedNumber] {
    match ty {
        Type::Enumerated { numbers, .. } => numbers.as_slice(),
        Type::Leaf { names, .. } => names.as_slice(),
        _ => &[],
    }
}

/// Returns the alternatives of a CHOICE.
pub(crate) fn alternatives_of(ty: &Type) -> &[Alternative] {
    match ty {
        Type::Choice { alternatives, .. } => alternatives.as_slice(),
        _ => &[],
    }
}

/// Returns whether the numbers are the same with the same names.
fn are_same_numbers(numbers: &[NamedNumber], others: &[NamedNumber]) -> bool {
    numbers.len() == others.len()
        && numbers.iter().zip(others.iter()).all(|(number, other)| number.name == other.name
            && number.number == other.number)
}

/// Returns whether the components have the same names and types, and may be absent alike.
fn are_same_components(components: &[Component], others: &[Component]) -> bool {
    components.len() == others.len()
        && components
            .iter()
            .zip(others.iter())
            .all(|(component, other)| is_same_component(component, other))
}

/// Returns whether two components have the same name and type, and may be absent alike.
fn is_same_component(component: &Component, other: &Component) -> bool {
    component.name == other.name
        && component.type_id == other.type_id
        && is_same_presence(&component.presence, &other.presence)
}

/// Returns whether the alternatives have the same names and types.
fn are_same_alternatives(alternatives: &[Alternative], others: &[Alternative]) -> bool {
    alternatives.len() == others.len()
        && alternatives.iter().zip(others.iter()).all(|(one, other)| one.name == other.name
            && one.type_id == other.type_id)
}

/// Returns whether two components may be absent alike.
fn is_same_presence(presence: &Presence, other: &Presence) -> bool {
    match (presence, other) {
        (Presence::Required, Presence::Required)
        | (Presence::Optional, Presence::Optional)
        | (Presence::Addition, Presence::Addition) => true,
        (Presence::Default(value), Presence::Default(other)) => is_same_value(value, other),
        _ => false,
    }
}

/// Returns whether two values are the same BOOLEAN or number, or both an empty list.
fn is_same_value(value: &Value<'_>, other: &Value<'_>) -> bool {
    match (value, other) {
        (Value::Boolean(truth), Value::Boolean(other)) => *truth == *other,
        (Value::Integer(number), Value::Integer(other)) => *number == *other,
        (Value::Items(items), Value::Items(others)) => items.is_empty() && others.is_empty(),
        _ => false,
    }
}
