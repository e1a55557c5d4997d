//! Whether two schemas have the same types.

use rasn_schema::{
    Alternative, Component, LeafKind, NamedNumber, Presence, Schema, Type, TypeId, type_at,
};
use rasn_types::types::{Constraints, Tag};
use std::alloc::{AllocError, Global};
use std::collections::BTreeSet;

/// What a type is, without its names and the types that it is made of.
#[derive(Clone, Copy, PartialEq, Eq)]
struct Head {
    form: Form,
    tag: Tag,
    constraints: Constraints,
}

/// The alternative of [`Type`].
#[derive(Clone, Copy, PartialEq, Eq)]
enum Form {
    Leaf(LeafKind),
    Enumerated,
    Any,
    Unknown,
    Tagged,
    Choice,
    Sequence,
    Set,
    SequenceOf,
    SetOf,
}

/// A type that another is made of, with the name that it has there.
#[derive(Clone, Copy)]
struct Part<'schema> {
    name: &'schema str,
    presence: Option<&'schema Presence>,
    id: TypeId,
}

/// Types of two schemas that have to be the same, each pair once.
#[derive(Drop)]
struct Pairs {
    list: Vec<(TypeId, TypeId)>,
    known: BTreeSet<(usize, usize)>,
}

impl Pairs {
    /// Adds a type of each schema.
    fn add(&mut self, one: TypeId, other: TypeId) -> Result<(), AllocError> {
        if self.known.insert((one.0, other.0))? {
            self.list.push((one, other))?;
        }
        Ok(())
    }

    /// Adds the parts of two types, if they have the same names and may be absent in the same
    /// cases. Returns whether they do.
    fn add_parts(&mut self, ones: &[Part<'_>], others: &[Part<'_>]) -> Result<bool, AllocError> {
        if ones.len() != others.len() {
            return Ok(false);
        }
        for (one, other) in ones.iter().zip(others) {
            let is_alike = one.name == other.name && is_same_presence(one.presence, other.presence);
            if !is_alike {
                return Ok(false);
            }
            self.add(one.id, other.id)?;
        }
        Ok(true)
    }
}

/// Returns whether types of two schemas are the same: what they are made of, the names of
/// components, alternatives and numbers, and defaults. The names and the numbers of types may be
/// others, and one type may be the same as several.
pub fn are_same(
    alloc: Global,
    one: &Schema,
    left: TypeId,
    other: &Schema,
    right: TypeId,
) -> Result<bool, AllocError> {
    let mut pairs = Pairs {
        list: Vec::new(alloc),
        known: BTreeSet::new(alloc),
    };
    pairs.add(left, right)?;
    for next in 0..usize::MAX {
        let Some((left, right)) = pairs.list.get(next).copied() else {
            break;
        };
        if !compare(alloc, one, left, other, right, &mut pairs)? {
            return Ok(false);
        }
    }
    Ok(true)
}

/// Returns whether two types are the same as far as the types that they are made of may be, which
/// are added.
fn compare(
    alloc: Global,
    one: &Schema,
    left: TypeId,
    other: &Schema,
    right: TypeId,
    pairs: &mut Pairs,
) -> Result<bool, AllocError> {
    match (type_at(one.types(), left), type_at(other.types(), right)) {
        (Some(left), Some(right)) if is_same_head(left, right) => {
            let ones = parts(alloc, left)?;
            let others = parts(alloc, right)?;
            pairs.add_parts(ones.as_slice(), others.as_slice())
        }
        _ => Ok(false),
    }
}

/// Returns whether two types are the same except for the types that they are made of.
fn is_same_head(left: &Type, right: &Type) -> bool {
    head_of(left) == head_of(right) && are_same_numbers(numbers(left), numbers(right))
}

/// Returns what a type is.
fn head_of(ty: &Type) -> Head {
    Head {
        form: form_of(ty),
        tag: ty.tag(),
        constraints: constraints_of(ty),
    }
}

/// Returns the alternative that a type is.
fn form_of(ty: &Type) -> Form {
    match ty {
        Type::Leaf { kind, .. } => Form::Leaf(*kind),
        Type::Enumerated { .. } => Form::Enumerated,
        Type::Any { .. } => Form::Any,
        Type::Unknown => Form::Unknown,
        Type::Tagged { .. } => Form::Tagged,
        Type::Choice { .. } => Form::Choice,
        Type::Sequence { .. } => Form::Sequence,
        Type::Set { .. } => Form::Set,
        Type::SequenceOf { .. } => Form::SequenceOf,
        Type::SetOf { .. } => Form::SetOf,
    }
}

/// Returns the constraints of a type, which only leaves and repeated types have.
pub fn constraints_of(ty: &Type) -> Constraints {
    match ty {
        Type::Leaf { constraints, .. }
        | Type::SequenceOf { constraints, .. }
        | Type::SetOf { constraints, .. } => *constraints,
        _ => Constraints::NONE,
    }
}

/// Returns the names of a type's numbers.
pub fn numbers(ty: &Type) -> &[NamedNumber] {
    match ty {
        Type::Leaf { names, .. } => names.as_slice(),
        Type::Enumerated { numbers, .. } => numbers.as_slice(),
        _ => &[],
    }
}

/// Returns whether two lists have the same names and numbers.
fn are_same_numbers(ones: &[NamedNumber], others: &[NamedNumber]) -> bool {
    for (one, other) in ones.iter().zip(others) {
        if one.number != other.number || one.name.as_str() != other.name.as_str() {
            return false;
        }
    }
    ones.len() == others.len()
}

/// Returns the types that a type is made of.
fn parts<'schema>(alloc: Global, ty: &'schema Type) -> Result<Vec<Part<'schema>>, AllocError> {
    match ty {
        Type::Tagged { inner: id, .. }
        | Type::SequenceOf { element: id, .. }
        | Type::SetOf { element: id, .. } => part_of(alloc, "", *id),
        Type::Choice { alternatives, .. } => alternatives_of(alloc, alternatives),
        Type::Sequence { components, .. } | Type::Set { components, .. } => {
            components_of(alloc, components)
        }
        _ => Ok(Vec::new(alloc)),
    }
}

/// Returns the one type that a type is made of.
fn part_of(alloc: Global, name: &str, id: TypeId) -> Result<Vec<Part<'_>>, AllocError> {
    let mut parts = Vec::new(alloc);
    parts.push(Part {
        name,
        presence: None,
        id,
    })?;
    Ok(parts)
}

/// Returns the alternatives of a CHOICE.
fn alternatives_of<'schema>(
    alloc: Global,
    alternatives: &'schema [Alternative],
) -> Result<Vec<Part<'schema>>, AllocError> {
    let mut parts = Vec::new(alloc);
    for alternative in alternatives {
        parts.push(Part {
            name: alternative.name.as_str(),
            presence: None,
            id: alternative.type_id,
        })?;
    }
    Ok(parts)
}

/// Returns the components of a SEQUENCE or a SET.
fn components_of<'schema>(
    alloc: Global,
    components: &'schema [Component],
) -> Result<Vec<Part<'schema>>, AllocError> {
    let mut parts = Vec::new(alloc);
    for component in components {
        parts.push(Part {
            name: component.name.as_str(),
            presence: Some(&component.presence),
            id: component.type_id,
        })?;
    }
    Ok(parts)
}

/// Returns whether two components are absent in the same cases, and have the same default.
fn is_same_presence(one: Option<&Presence>, other: Option<&Presence>) -> bool {
    match one {
        None => other.is_none(),
        Some(Presence::Required) => matches!(other, Some(Presence::Required)),
        Some(Presence::Optional) => matches!(other, Some(Presence::Optional)),
        Some(Presence::Addition) => matches!(other, Some(Presence::Addition)),
        Some(Presence::Default(value)) => match other {
            Some(Presence::Default(found)) => value.means_same(found),
            _ => false,
        },
    }
}
