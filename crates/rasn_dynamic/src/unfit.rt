//! Which part of a value isn't of its type.
ghost use Rattle.std.specs.Prelude.{◌≡◌, ◌++◌, List, ℕ, MatchOption, OnOk};
ghost use Rattle.rasn_schema.specs.Fitting.{AlternativeFits, IsChosen, ComponentsFit, EachFits, FitsBy, Fits};
ghost use Rattle.rasn_dynamic.specs.Unfit.{IsComponent, IsElement, IsOfAlternative, IsPart, IsOtherForm, IsUnfitBy, IsUnfitAt};
ghost use Rattle.rasn_schema.specs.declared.types.«Type».TheVariants.{Tagged};
ghost use Rattle.rasn_schema.specs.declared.type_id.TypeId.{TypeId};
ghost use Rattle.rasn_types.specs.declared.types.tag.Tag.{Tag};

use rasn_schema::{
    Alternative, Component, Type, TypeId, Value, component_fits, elements_of, fits_at, items_of,
    type_at,
};
use std::alloc::AllocError;

/// A part of a value: its index, and the number of its type.
#[derive(Drop)]
pub struct UnfitPart<'value, 'input> {
    index: usize,
    type_id: TypeId,
    value: &'value Value<'input>,
}

/// Returns the value of the alternative that was chosen, if there is such an alternative.
fn chosen_part<'value, 'input>(
    alternatives: &[Alternative],
    value: &'value Value<'input>,
) -> Option<UnfitPart<'value, 'input>>
    ensures { MatchOption result (IsChosen (AlternativeFits (λ j w. Unit {0}) alternatives.now) value.now → ⊥) (λ p. IsChosen (IsOfAlternative alternatives.now p.index p.type_id.0 p.value.now) value.now) }
{
    let Value::Chosen(index, inner) = value else {
        return None;
    };
    let alternative = alternatives.get(*index)?;
    Some(UnfitPart {
        index: *index,
        type_id: alternative.type_id,
        value: inner,
    })
}

/// Returns the first component whose value isn't one of its type. If there is none, there are more
/// values or fewer than components.
fn first_unfit_component<'value, 'input>(
    types: &[Type],
    below: usize,
    components: &[Component],
    values: &'value [Value<'input>],
) -> Option<UnfitPart<'value, 'input>>
    requires { ComponentsFit (Fits types.now below) components.now values.now → ⊥ }
    ensures { MatchOption result (ComponentsFit (λ j w. Unit {0}) components.now values.now → ⊥) (λ p. IsComponent components.now p.index p.type_id.0 p.value.now values.now × (Fits types.now below p.type_id.0 p.value.now → ⊥)) }
{
    let mut index = 0;
    while let Some(component) = components.get(index) {
        let value = values.get(index)?;
        if !component_fits(types, below, component, value) {
            return Some(UnfitPart {
                index,
                type_id: component.type_id,
                value,
            });
        }
        index += 1;
    }
    None
}

/// Returns the first value that isn't one of the type.
fn first_unfit_element<'value, 'input>(
    types: &[Type],
    below: usize,
    element: TypeId,
    values: &'value [Value<'input>],
) -> Option<UnfitPart<'value, 'input>>
    requires { EachFits (Fits types.now below element.0) values.now → ⊥ }
    ensures { MatchOption result ⊥ (λ p. IsElement element.0 p.index p.type_id.0 p.value.now values.now × (Fits types.now below p.type_id.0 p.value.now → ⊥)) }
{
    let mut index = 0;
    while let Some(value) = values.get(index) {
        if !fits_at(types, below, element, value) {
            return Some(UnfitPart {
                index,
                type_id: element,
                value,
            });
        }
        index += 1;
    }
    None
}

/// Returns the first part that isn't a value of its type. If there is none, the value isn't of the
/// type's form.
fn first_unfit_part<'value, 'input>(
    types: &[Type],
    below: usize,
    ty: &Type,
    value: &'value Value<'input>,
) -> Option<UnfitPart<'value, 'input>>
    requires plain { (tag : Tag) (k : TypeId) → ty.now ≡ Tagged tag k → ⊥ }
    requires unfit { FitsBy (Fits types.now below) ty.now value.now → ⊥ }
    ensures { MatchOption result (IsOtherForm ty.now value.now) (λ p. IsPart ty.now value.now p.index p.type_id.0 p.value.now × (Fits types.now below p.type_id.0 p.value.now → ⊥)) }
{
    match ty {
        Type::Choice { alternatives, .. } => chosen_part(alternatives, value),
        Type::Sequence { components, .. } => {
            first_unfit_component(types, below, components, items_of(value)?)
        }
        Type::Set { components, .. } => {
            first_unfit_component(types, below, components, items_of(value)?)
        }
        Type::SequenceOf { element, .. } => {
            first_unfit_element(types, below, *element, items_of(value)?)
        }
        Type::SetOf { element, .. } => {
            first_unfit_element(types, below, *element, elements_of(value)?)
        }
        Type::Leaf { .. } => None,
        Type::Enumerated { .. } => None,
        Type::Any { .. } => None,
        Type::Unknown => None,
        Type::Tagged { .. } => None,
    }
}

/// Appends the indices of the parts that lead to one that isn't of its type's form.
#[cycle(path)]
pub fn append_unfit_path(
    types: &[Type],
    levels: usize,
    id: TypeId,
    value: &Value<'_>,
    path: &mut Vec<usize>,
) -> Result<(), AllocError>
    requires { Fits types.now levels id.0 value.now → ⊥ }
    ensures { OnOk result ((indices : List ℕ) × (path.new.items ≡ path.old.items ++ indices) × IsUnfitAt types.now levels id.0 value.now indices) }
{
    if levels == 0 {
        return Ok(());
    }
    match type_at(types, id) {
        Some(ty) => append_path_in(types, levels - 1, ty, value, path),
        None => Ok(()),
    }
}

/// Appends the path in a value of this type.
#[cycle(path)]
fn append_path_in(
    types: &[Type],
    below: usize,
    ty: &Type,
    value: &Value<'_>,
    path: &mut Vec<usize>,
) -> Result<(), AllocError>
    requires { FitsBy (Fits types.now below) ty.now value.now → ⊥ }
    ensures { OnOk result ((indices : List ℕ) × (path.new.items ≡ path.old.items ++ indices) × IsUnfitBy (IsUnfitAt types.now below) ty.now value.now indices) }
{
    match ty {
        Type::Tagged { inner, .. } => append_unfit_path(types, below, *inner, value, path),
        _ => match first_unfit_part(types, below, ty, value) {
            Some(part) => {
                path.push(part.index)?;
                append_unfit_path(types, below, part.type_id, part.value, path)
            }
            None => Ok(()),
        },
    }
}
