//! The types of a schema, made of those of a constant.
ghost use Rattle.std.specs.Prelude.{◌≡◌, ℕ, IfOk, map};
ghost use Rattle.rasn_types.specs.Shapes.{own_tag};
ghost use Rattle.rasn_schema.specs.Trees.{tree_of};
ghost use Rattle.rasn_schema.specs.Shapes.{shape_of_type, presence_of};
ghost use Rattle.rasn_schema.specs.Statics.{static_tree, static_presence, static_shape, number_in, static_number, type_in, static_type, component_in, static_component, IsMade, IsListed};

use crate::constants::{
    StaticAlternative, StaticComponent, StaticNumber, StaticPresence, StaticType, StaticValue,
};
use crate::{Alternative, Component, NamedNumber, Presence, Type, TypeId, Value};
use rasn_types::types::Integer;
use std::alloc::{AllocError, Global};

/// Returns the types of a constant as those of a schema. Each has the shape that it has in the
/// constant.
///
/// # Errors
/// `AllocError` if an allocation fails.
///
/// # Examples
/// ```
/// const TYPES: &[StaticType] = &[Leaf(Integer, tag!(Universal, 2), value!(0..=127), &[])];
///
/// let schema = Schema::new(types_of(alloc, TYPES)?)?;
/// // `schema` has one type, INTEGER (0..127)
/// ```
pub fn types_of(alloc: Global, types: &[StaticType]) -> Result<Vec<Type>, AllocError>
    ensures { IfOk result (λ made. (levels id : ℕ) → shape_of_type made.items levels id ≡ static_shape types.now levels id) }
{
    let mut made = Vec::with_capacity(alloc, types.len())?;
    for ty in types {
        made.push(type_of(alloc, ty)?)?;
    }
    Ok(made)
}

fn type_of(alloc: Global, ty: &StaticType) -> Result<Type, AllocError>
    ensures { IfOk result (λ made. IsMade ty.now made) }
{
    match ty {
        StaticType::Leaf(kind, tag, constraints, names) => Ok(Type::Leaf {
            kind: *kind,
            tag: *tag,
            constraints: *constraints,
            names: numbers_of(alloc, names)?,
        }),
        StaticType::Enumerated(tag, numbers) => Ok(Type::Enumerated {
            tag: *tag,
            numbers: numbers_of(alloc, numbers)?,
        }),
        StaticType::Any(tag) => Ok(Type::Any { tag: *tag }),
        StaticType::Tagged(tag, inner) => Ok(Type::Tagged {
            tag: *tag,
            inner: TypeId(*inner),
        }),
        StaticType::Choice(name, alternatives) => Ok(Type::Choice {
            name: String::from_str(alloc, name)?,
            alternatives: alternatives_of(alloc, alternatives)?,
        }),
        listed => listed_type_of(alloc, listed),
    }
}

/// Returns a type with components or elements.
fn listed_type_of(alloc: Global, ty: &StaticType) -> Result<Type, AllocError>
    requires { IsListed ty.now }
    ensures { IfOk result (λ made. IsMade ty.now made) }
{
    match ty {
        StaticType::Sequence(tag, components) => Ok(Type::Sequence {
            tag: *tag,
            components: components_of(alloc, components)?,
        }),
        StaticType::Set(name, tag, components) => Ok(Type::Set {
            name: String::from_str(alloc, name)?,
            tag: *tag,
            components: components_of(alloc, components)?,
        }),
        StaticType::SequenceOf(tag, element, constraints) => Ok(Type::SequenceOf {
            tag: *tag,
            element: TypeId(*element),
            constraints: *constraints,
        }),
        StaticType::SetOf(tag, element, constraints) => Ok(Type::SetOf {
            tag: *tag,
            element: TypeId(*element),
            constraints: *constraints,
        }),
        _ => Ok(Type::Unknown),
    }
}

fn numbers_of(alloc: Global, numbers: &[StaticNumber]) -> Result<Vec<NamedNumber>, AllocError>
    ensures { IfOk result (λ made. map number_in made.items ≡ map static_number numbers.now) }
{
    let mut made = Vec::with_capacity(alloc, numbers.len())?;
    for (name, number) in numbers {
        made.push(NamedNumber {
            name: String::from_str(alloc, name)?,
            number: *number,
        })?;
    }
    Ok(made)
}

fn alternatives_of(
    alloc: Global,
    alternatives: &[StaticAlternative],
) -> Result<Vec<Alternative>, AllocError>
    ensures { IfOk result (λ made. map type_in made.items ≡ map static_type alternatives.now) }
{
    let mut made = Vec::with_capacity(alloc, alternatives.len())?;
    for (name, id) in alternatives {
        made.push(Alternative {
            name: String::from_str(alloc, name)?,
            type_id: TypeId(*id),
        })?;
    }
    Ok(made)
}

fn components_of(
    alloc: Global,
    components: &[StaticComponent],
) -> Result<Vec<Component>, AllocError>
    ensures { IfOk result (λ made. map component_in made.items ≡ map static_component components.now) }
{
    let mut made = Vec::with_capacity(alloc, components.len())?;
    for (name, presence, id) in components {
        made.push(Component {
            name: String::from_str(alloc, name)?,
            presence: presence_of(alloc, presence)?,
            type_id: TypeId(*id),
        })?;
    }
    Ok(made)
}

fn presence_of(alloc: Global, presence: &StaticPresence) -> Result<Presence, AllocError>
    ensures { IfOk result (λ made. presence_of made ≡ static_presence own_tag presence.now) }
{
    match presence {
        StaticPresence::Required => Ok(Presence::Required),
        StaticPresence::Optional => Ok(Presence::Optional),
        StaticPresence::Addition => Ok(Presence::Addition),
        StaticPresence::Default(value) => Ok(Presence::Default(value_of(alloc, value)?)),
    }
}

fn value_of(alloc: Global, value: &StaticValue) -> Result<Value<'static>, AllocError>
    ensures { IfOk result (λ made. tree_of made ≡ static_tree value.now) }
{
    match value {
        StaticValue::Truth(truth) => Ok(Value::Boolean(*truth)),
        StaticValue::Number(number) => {
            let integer = Integer::from_i128(alloc, i128::from(*number))?;
            Ok(Value::Integer(integer))
        }
        StaticValue::Empty => Ok(Value::Items(Vec::new(alloc))),
    }
}
