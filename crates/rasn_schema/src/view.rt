//! Access into values by index and by name.
ghost use Rattle.std.specs.Prelude.{◌≡◌, slice_get, option_copied, option_map, IfSome, MatchOption};
ghost use Rattle.rasn_schema.specs.declared.type_id.TypeId.{TypeId};
ghost use Rattle.rasn_schema.specs.declared.types.«Type».{«Type»};
ghost use Rattle.rasn_schema.specs.declared.types.Alternative.{Alternative};
ghost use Rattle.rasn_schema.specs.declared.types.Component.{Component};
ghost use Rattle.rasn_schema.specs.declared.value.Value.{Value};
ghost use Rattle.rasn_schema.specs.Held.{held_in, part_type, part_name, IsUntagged, IsPartAt, IsComponentValue, IsChosenValue, IsPartNamed, IsNamedPartOf};

use crate::named::{Named, has_name, index_named};
use crate::schema::Schema;
use crate::type_id::TypeId;
use crate::types::{Alternative, Component, Type, components_of, type_at};
use crate::value::Value;

/// A value with its type: its parts are found by index and by name.
#[derive(Drop)]
pub struct View<'view, 'input> {
    /// The schema of the type.
    pub schema: &'view Schema,
    /// The number of the type.
    pub type_id: TypeId,
    /// The value.
    pub value: &'view Value<'input>,
}

/// Returns the type with this number, or the one inside its explicit tags.
pub fn untagged(schema: &Schema, id: TypeId) -> Option<&Type>
    ensures { MatchOption result ((ty : «Type») → IsUntagged schema.now.types.items id.0 ty → ⊥) (λ ty. IsUntagged schema.now.types.items id.0 ty.now) }
{
    match type_at(schema.types(), id)? {
        Type::Tagged { inner, .. } => untagged(schema, *inner),
        ty => Some(ty),
    }
}

/// Returns the number of the type of the component with this index.
fn component_type(components: &[Component], index: usize) -> Option<TypeId>
    ensures { result ≡ option_map (λ (c : Component). c.type_id) (slice_get components.now index) }
{
    let component = component_at(components, index)?;
    Some(component.type_id)
}

/// Returns the number of the type of the alternative with this index.
fn alternative_type(alternatives: &[Alternative], index: usize) -> Option<TypeId>
    ensures { result ≡ option_map (λ (a : Alternative). a.type_id) (slice_get alternatives.now index) }
{
    let alternative = alternative_at(alternatives, index)?;
    Some(alternative.type_id)
}

/// Returns the number of the type of the part with this index, counted from 0, if there is one: of
/// a component, an alternative or an element. Of what an explicit tag holds, the index doesn't
/// count.
pub fn part_type(ty: &Type, index: usize) -> Option<TypeId>
    ensures { result ≡ part_type ty.now index }
{
    match ty {
        Type::Tagged { inner, .. } => Some(*inner),
        Type::Choice { alternatives, .. } => alternative_type(alternatives.as_slice(), index),
        Type::Sequence { components, .. } => component_type(components.as_slice(), index),
        Type::Set { components, .. } => component_type(components.as_slice(), index),
        Type::SequenceOf { element, .. } => Some(*element),
        Type::SetOf { element, .. } => Some(*element),
        _ => None,
    }
}

/// Returns the name of the element of a list with this index.
fn name_at<N: Named>(list: &[N], index: usize) -> Option<&str>
    ensures { option_copied result ≡ option_map N.name (slice_get list.now index) }
{
    let named = list.get(index)?;
    Some(named.name())
}

/// Returns the name of the component or the alternative with this index, counted from 0, if there
/// is one.
pub fn part_name(ty: &Type, index: usize) -> Option<&str>
    ensures { option_copied result ≡ part_name ty.now index }
{
    match ty {
        Type::Choice { alternatives, .. } => name_at(alternatives.as_slice(), index),
        _ => name_at(components_of(ty), index),
    }
}

fn value_at<'view, 'input>(
    values: &'view [Value<'input>],
    index: usize,
) -> Option<&'view Value<'input>>
    ensures { option_copied result ≡ slice_get values.now index }
{
    values.get(index)
}

/// Returns the value with this index among those that a value holds.
fn part_at<'view, 'input>(value: &'view Value<'input>, index: usize) -> Option<&'view Value<'input>>
    ensures { option_copied result ≡ slice_get (held_in value.now) index }
{
    match value {
        Value::Items(values) => value_at(values.as_slice(), index),
        Value::Elements(values) => value_at(values.as_slice(), index),
        _ => None,
    }
}

fn component_at(components: &[Component], index: usize) -> Option<&Component>
    ensures { option_copied result ≡ slice_get components.now index }
{
    components.get(index)
}

fn alternative_at(alternatives: &[Alternative], index: usize) -> Option<&Alternative>
    ensures { option_copied result ≡ slice_get alternatives.now index }
{
    alternatives.get(index)
}

/// Returns the value of the alternative that is chosen, and the number of its type, if the
/// alternative has this name.
fn chosen_named<'view, 'input>(
    alternatives: &'view [Alternative],
    value: &'view Value<'input>,
    name: &str,
) -> Option<(TypeId, &'view Value<'input>)>
    ensures { MatchOption result
        ((id : TypeId) (part : Value) → IsChosenValue alternatives.now name.now value.now id part → ⊥)
        (λ part. IsChosenValue alternatives.now name.now value.now part.0 part.1.now) }
{
    let Value::Chosen(index, inner) = value else {
        return None;
    };
    let alternative = alternative_at(alternatives, *index)?;
    if has_name(alternative, name) {
        Some((alternative.type_id, inner))
    } else {
        None
    }
}

/// Returns the value of the first component with this name, and the number of its type.
fn component_value<'view, 'input>(
    components: &'view [Component],
    value: &'view Value<'input>,
    name: &str,
) -> Option<(TypeId, &'view Value<'input>)>
    ensures { MatchOption result
        ((id : TypeId) (part : Value) → IsComponentValue components.now name.now value.now id part → ⊥)
        (λ part. IsComponentValue components.now name.now value.now part.0 part.1.now) }
{
    let index = index_named(components, name)?;
    let component = component_at(components, index)?;
    Some((component.type_id, part_at(value, index)?))
}

/// Returns the part with this name, and the number of its type.
fn part_named<'view, 'input>(
    ty: &'view Type,
    value: &'view Value<'input>,
    name: &str,
) -> Option<(TypeId, &'view Value<'input>)>
    ensures { MatchOption result
        ((id : TypeId) (part : Value) → IsPartNamed ty.now name.now value.now id part → ⊥)
        (λ part. IsPartNamed ty.now name.now value.now part.0 part.1.now) }
{
    match ty {
        Type::Sequence { components, .. } => component_value(components.as_slice(), value, name),
        Type::Set { components, .. } => component_value(components.as_slice(), value, name),
        Type::Choice { alternatives, .. } => chosen_named(alternatives.as_slice(), value, name),
        _ => None,
    }
}

impl<'view, 'input> View<'view, 'input> {
    /// Returns the component or the element with this index, counted from 0, if there is one.
    pub fn at(&self, index: usize) -> Option<View<'view, 'input>>
        ensures part { MatchOption result
            ((id : TypeId) (part : Value) → IsPartAt self.now.schema.now.types.items self.now.type_id.0 self.now.value.now index id part → ⊥)
            (λ part. IsPartAt self.now.schema.now.types.items self.now.type_id.0 self.now.value.now index part.type_id part.value.now) }
        ensures schema { IfSome result (λ part. part.schema.now ≡ self.now.schema.now) }
    {
        let ty = untagged(self.schema, self.type_id)?;
        Some(View {
            schema: self.schema,
            type_id: part_type(ty, index)?,
            value: part_at(self.value, index)?,
        })
    }

    /// Returns the first component with this name, or the value of the alternative with this name,
    /// if it is the one that is chosen.
    pub fn get(&self, name: &str) -> Option<View<'view, 'input>>
        ensures part { MatchOption result
            ((id : TypeId) (part : Value) → IsNamedPartOf self.now.schema.now.types.items self.now.type_id.0 self.now.value.now name.now id part → ⊥)
            (λ part. IsNamedPartOf self.now.schema.now.types.items self.now.type_id.0 self.now.value.now name.now part.type_id part.value.now) }
        ensures schema { IfSome result (λ part. part.schema.now ≡ self.now.schema.now) }
    {
        let ty = untagged(self.schema, self.type_id)?;
        let (type_id, value) = part_named(ty, self.value, name)?;
        Some(View {
            schema: self.schema,
            type_id,
            value,
        })
    }
}
