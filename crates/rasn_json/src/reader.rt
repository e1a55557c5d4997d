//! Values of JSON.
ghost use Rattle.std.specs.Prelude.{◌≡◌, ℕ, ◌≤◌, ◌<◌, ◌-◌, ◌⊎◌, [], ◌∷◌, ◌++◌, IfOk, OnOk, string_bytes};
ghost use Rattle.json.specs.Find.{get};
ghost use Rattle.json.specs.Json.{array};
ghost use Rattle.json.specs.Value.{items_view, value_view};
ghost use Rattle.rasn_schema.specs.Trees.{tree_of};
ghost use Rattle.rasn_schema.specs.Shapes.{numbers_of, presence_of};
ghost use Rattle.rasn_schema.specs.Fitting.{AlternativeFits, AreItems, AreOctets, ComponentFits, ComponentsFit, EachFits, Fits, FitsBy, FitsLeaf, IsChosen, IsNumber};
ghost use Rattle.rasn_json.specs.Json.{IsNothing, unknown_in};
ghost use Rattle.rasn_json.specs.Reading.{AreNames, ArrayRead, ChosenRead, ComponentRead, ComponentsRead, EnumeratedRead, IsAbsentAs, IsComponentName, ItemsRead, LeafRead, ObjectRead, OpenRead, ReadAt, ReadBy, names_of};

use crate::error::{JsonError, or_memory};
use crate::kept::{
    Refused, kept, refuse_alternative, refuse_depth, refuse_form, refuse_in_element,
    refuse_in_member, refuse_members, refuse_memory, refuse_missing, refuse_type,
};
use crate::members::check_member;
use crate::number::enumerated_value;
use crate::read_leaf::{check_size, leaf_value, open_value};
use crate::syntax::MAX_NESTING;
use json::Value as Json;
use rasn_schema::{
    Alternative, Component, LeafKind, NamedNumber, Presence, Type, TypeId, Value, index_named,
    is_unknown_at, type_at,
};
use rasn_types::types::Constraints;
use std::alloc::Global;

/// How many types of a value may be in one another: those of arrays and objects, of the explicit
/// tags that a decoder admits between them, and of what is inside the innermost.
const MAX_LEVELS: usize = MAX_NESTING + 129;

/// Converts a JSON value to a value of the type with this number, which `depth` types are around.
/// Keeps what is wrong in `error`.
///
/// # Errors
/// `TooDeep` also for explicit tags in one another, which JSON doesn't show.
#[cycle(read)]
pub fn value_at<'any>(
    alloc: Global,
    types: &[Type],
    depth: usize,
    id: TypeId,
    json: &Json<'_>,
    error: &mut JsonError,
) -> Result<Value<'any>, Refused>
    ensures shallow { IfOk result (λ v. depth < 641) }
    ensures fits { IfOk result (λ v. Fits types.now (usize.MAX - depth) id.0 v) }
    ensures reads { IfOk result (ReadAt types.now (usize.MAX - depth) id.0 (value_view json.now)) }
{
    if depth >= MAX_LEVELS {
        return Err(refuse_depth(alloc, error));
    }
    match type_at(types, id) {
        Some(ty) => value_of(alloc, types, depth + 1, ty, json, error),
        None => Err(refuse_type(alloc, id, error)),
    }
}

/// Returns the value of a type that a JSON value is.
#[cycle(read)]
fn value_of<'any>(
    alloc: Global,
    types: &[Type],
    depth: usize,
    ty: &Type,
    json: &Json<'_>,
    error: &mut JsonError,
) -> Result<Value<'any>, Refused>
    requires { depth ≤ 641 }
    ensures fits { IfOk result (λ v. FitsBy (Fits types.now (usize.MAX - depth)) ty.now v) }
    ensures reads { IfOk result (ReadBy (unknown_in types.now) (ReadAt types.now (usize.MAX - depth)) ty.now (value_view json.now)) }
{
    match ty {
        Type::Leaf {
            kind,
            constraints,
            names,
            ..
        } => kept_leaf(alloc, *kind, constraints, names, json, error),
        Type::Enumerated { numbers, .. } => kept_number(alloc, numbers, json, error),
        Type::Any { .. } => kept_open(alloc, json, error),
        Type::Unknown => unknown_values(alloc, json, error),
        Type::Tagged { inner, .. } => value_at(alloc, types, depth, *inner, json, error),
        Type::Choice { alternatives, .. } => {
            chosen_value(alloc, types, depth, alternatives, json, error)
        }
        Type::Sequence { components, .. } | Type::Set { components, .. } => {
            object_value(alloc, types, depth, components, json, error)
        }
        Type::SequenceOf {
            element,
            constraints,
            ..
        } => {
            let items = items_within(alloc, constraints, json, error)?;
            let values = element_values(alloc, types, depth, *element, items, error)?;
            Ok(Value::Items(values))
        }
        Type::SetOf {
            element,
            constraints,
            ..
        } => {
            let items = items_within(alloc, constraints, json, error)?;
            let values = element_values(alloc, types, depth, *element, items, error)?;
            Ok(Value::Elements(values))
        }
    }
}

/// Returns the value of a kind that a JSON value is.
#[inline(never)]
fn kept_leaf<'any>(
    alloc: Global,
    kind: LeafKind,
    constraints: &Constraints,
    names: &[NamedNumber],
    json: &Json<'_>,
    error: &mut JsonError,
) -> Result<Value<'any>, Refused>
    ensures fits { IfOk result (λ v. FitsLeaf kind v) }
    ensures reads { IfOk result (LeafRead kind constraints.now names.now (value_view json.now)) }
{
    kept(leaf_value(alloc, kind, constraints, names, json), error)
}

/// Returns the number of an ENUMERATED that a JSON value names.
#[inline(never)]
fn kept_number<'any>(
    alloc: Global,
    numbers: &[NamedNumber],
    json: &Json<'_>,
    error: &mut JsonError,
) -> Result<Value<'any>, Refused>
    ensures fits { IfOk result (λ v. IsNumber (numbers_of numbers.now) v) }
    ensures reads { IfOk result (EnumeratedRead numbers.now (value_view json.now)) }
{
    kept(enumerated_value(alloc, numbers, json), error)
}

/// Returns the octets of an open type that a JSON value is.
#[inline(never)]
fn kept_open<'any>(
    alloc: Global,
    json: &Json<'_>,
    error: &mut JsonError,
) -> Result<Value<'any>, Refused>
    ensures fits { IfOk result (λ v. AreOctets v) }
    ensures reads { IfOk result (OpenRead (value_view json.now)) }
{
    kept(open_value(alloc, json), error)
}

/// Returns the items of an array, whose number has to be within the constraints.
#[inline(never)]
fn items_within<'json, 'text>(
    alloc: Global,
    constraints: &Constraints,
    json: &'json Json<'text>,
    error: &mut JsonError,
) -> Result<&'json [Json<'text>], Refused>
    ensures { IfOk result (λ items. value_view json.now ≡ array (items_view items.now)) }
{
    let Json::Array(items) = json else {
        return Err(refuse_form(alloc, "an array", json, error));
    };
    kept(check_size(alloc, constraints, items.len()), error)?;
    Ok(items.as_slice())
}

/// Returns the value of a CHOICE: an object whose one member is the alternative.
#[cycle(read)]
#[inline(never)]
fn chosen_value<'any>(
    alloc: Global,
    types: &[Type],
    depth: usize,
    alternatives: &[Alternative],
    json: &Json<'_>,
    error: &mut JsonError,
) -> Result<Value<'any>, Refused>
    ensures fits { IfOk result (λ v. IsChosen (AlternativeFits (Fits types.now (usize.MAX - depth)) alternatives.now) v) }
    ensures reads { IfOk result (IsChosen (ChosenRead (ReadAt types.now (usize.MAX - depth)) alternatives.now (value_view json.now))) }
{
    let Json::Object(members) = json else {
        return Err(refuse_form(alloc, "an object", json, error));
    };
    let [(name, member)] = members.as_slice() else {
        return Err(refuse_members(alloc, members.len(), error));
    };
    let Some(index) = index_named(alternatives, name) else {
        return Err(refuse_alternative(alloc, name, error));
    };
    match value_at(
        alloc,
        types,
        depth,
        alternatives[index].type_id,
        member,
        error,
    ) {
        Ok(value) => match Box::new(alloc, value) {
            Ok(value) => Ok(Value::Chosen(index, value)),
            Err(_) => Err(refuse_memory(alloc, error)),
        },
        Err(Refused) => Err(refuse_in_member(alloc, name, error)),
    }
}

/// Returns the value of a SEQUENCE or a SET: an object whose members are the components, in any
/// order.
#[cycle(read)]
fn object_value<'any>(
    alloc: Global,
    types: &[Type],
    depth: usize,
    components: &[Component],
    json: &Json<'_>,
    error: &mut JsonError,
) -> Result<Value<'any>, Refused>
    requires { depth ≤ 641 }
    ensures fits { IfOk result (λ v. AreItems (ComponentsFit (Fits types.now (usize.MAX - depth)) components.now) v) }
    ensures reads { IfOk result (AreItems (ObjectRead (unknown_in types.now) (ReadAt types.now (usize.MAX - depth)) components.now (value_view json.now))) }
{
    let Json::Object(members) = json else {
        return Err(refuse_form(alloc, "an object", json, error));
    };
    check_names(alloc, components, members.as_slice(), error)?;
    let values = component_values(alloc, types, depth, components, json, error)?;
    Ok(Value::Items(values))
}

/// Checks that each member is a component, and none of them twice.
#[inline(never)]
fn check_names<'text>(
    alloc: Global,
    components: &[Component],
    members: &[(&'text str, Json<'text>)],
    error: &mut JsonError,
) -> Result<(), Refused>
    ensures { OnOk result (AreNames (IsComponentName components.now) (names_of members.now)) }
{
    for (position, member) in members.iter().enumerate() {
        let is_known = index_named(components, member.0).is_some();
        let outcome = check_member(alloc, member.0, is_known, &members[..position]);
        kept(outcome, error)?;
    }
    Ok(())
}

/// Appends a value.
fn append<'any>(
    alloc: Global,
    values: &mut Vec<Value<'any>>,
    value: Value<'any>,
    error: &mut JsonError,
) -> Result<(), Refused>
    ensures { OnOk result (values.new.items ≡ values.old.items ++ value.entry ∷ []) }
{
    match values.push(value) {
        Ok(()) => Ok(()),
        Err(_) => Err(refuse_memory(alloc, error)),
    }
}

/// Returns the values of components.
#[cycle(read)]
fn component_values<'any>(
    alloc: Global,
    types: &[Type],
    depth: usize,
    components: &[Component],
    json: &Json<'_>,
    error: &mut JsonError,
) -> Result<Vec<Value<'any>>, Refused>
    requires { depth ≤ 641 }
    ensures fits { IfOk result (λ vs. ComponentsFit (Fits types.now (usize.MAX - depth)) components.now vs.items) }
    ensures reads { IfOk result (λ vs. ComponentsRead (unknown_in types.now) (ReadAt types.now (usize.MAX - depth)) components.now (value_view json.now) vs.items) }
{
    let mut values = Vec::new(alloc);
    let mut rest = components;
    while let [component, after @ ..] = rest {
        let value = component_value(alloc, types, depth, component, json, error)?;
        append(alloc, &mut values, value, error)?;
        rest = after;
    }
    Ok(values)
}

/// Returns the value of a component, which is absent or its default if there is no member for it.
#[cycle(read)]
fn component_value<'any>(
    alloc: Global,
    types: &[Type],
    depth: usize,
    component: &Component,
    json: &Json<'_>,
    error: &mut JsonError,
) -> Result<Value<'any>, Refused>
    requires { depth ≤ 641 }
    ensures fits { IfOk result (λ v. ComponentFits (Fits types.now (usize.MAX - depth)) component.now v) }
    ensures reads { IfOk result (ComponentRead (unknown_in types.now) (ReadAt types.now (usize.MAX - depth)) component.now (get (string_bytes component.now.name) (value_view json.now))) }
{
    let name = component.name.as_str();
    let Some(member) = json.get(name) else {
        return absent_value(alloc, types, component, error);
    };
    match value_at(alloc, types, depth, component.type_id, member, error) {
        Ok(value) => Ok(value),
        Err(Refused) => Err(refuse_in_member(alloc, name, error)),
    }
}

/// Returns the value of a component without a member.
#[inline(never)]
fn absent_value<'any>(
    alloc: Global,
    types: &[Type],
    component: &Component,
    error: &mut JsonError,
) -> Result<Value<'any>, Refused>
    ensures fits { IfOk result (λ v. (levels : ℕ) → 0 < levels → ComponentFits (Fits types.now levels) component.now v) }
    ensures reads { IfOk result (λ v. IsAbsentAs (presence_of component.now.presence) (tree_of v) ⊎ IsNothing (unknown_in types.now) component.now v) }
{
    match &component.presence {
        Presence::Required => no_unknown_values(alloc, types, component, error),
        Presence::Optional | Presence::Addition => Ok(Value::Absent),
        Presence::Default(default) => kept(or_memory(alloc, default.try_clone(alloc)), error),
    }
}

/// Returns no unknown values, which need no member.
fn no_unknown_values<'any>(
    alloc: Global,
    types: &[Type],
    component: &Component,
    error: &mut JsonError,
) -> Result<Value<'any>, Refused>
    ensures fits { IfOk result (λ v. (levels : ℕ) → 0 < levels → Fits types.now levels component.now.type_id.0 v) }
    ensures reads { IfOk result (λ v. IsNothing (unknown_in types.now) component.now v) }
{
    if is_unknown_at(types, component.type_id) {
        return Ok(Value::Items(Vec::new(alloc)));
    }
    Err(refuse_missing(alloc, component.name.as_str(), error))
}

/// Returns the octets of unknown values that an array is.
#[inline(never)]
fn unknown_values<'any>(
    alloc: Global,
    json: &Json<'_>,
    error: &mut JsonError,
) -> Result<Value<'any>, Refused>
    ensures fits { IfOk result (λ v. AreItems (EachFits AreOctets) v) }
    ensures reads { IfOk result (λ v. AreItems (ArrayRead OpenRead (value_view json.now)) v) }
{
    let Json::Array(items) = json else {
        return Err(refuse_form(alloc, "an array", json, error));
    };
    let values = open_values(alloc, items.as_slice(), error)?;
    Ok(Value::Items(values))
}

/// Returns the values of an open type that items are.
fn open_values<'any>(
    alloc: Global,
    items: &[Json<'_>],
    error: &mut JsonError,
) -> Result<Vec<Value<'any>>, Refused>
    ensures fits { IfOk result (λ vs. EachFits AreOctets vs.items) }
    ensures reads { IfOk result (λ vs. ItemsRead OpenRead (items_view items.now) vs.items) }
{
    let mut values = Vec::new(alloc);
    for (index, item) in items.iter().enumerate() {
        match kept_open(alloc, item, error) {
            Ok(value) => append(alloc, &mut values, value, error)?,
            Err(Refused) => return Err(refuse_in_element(alloc, index, error)),
        }
    }
    Ok(values)
}

/// Returns the values of elements.
#[cycle(read)]
fn element_values<'any>(
    alloc: Global,
    types: &[Type],
    depth: usize,
    element: TypeId,
    items: &[Json<'_>],
    error: &mut JsonError,
) -> Result<Vec<Value<'any>>, Refused>
    ensures fits { IfOk result (λ vs. EachFits (Fits types.now (usize.MAX - depth) element.0) vs.items) }
    ensures reads { IfOk result (λ vs. ItemsRead (ReadAt types.now (usize.MAX - depth) element.0) (items_view items.now) vs.items) }
{
    let mut values = Vec::new(alloc);
    for (index, item) in items.iter().enumerate() {
        match value_at(alloc, types, depth, element, item, error) {
            Ok(value) => append(alloc, &mut values, value, error)?,
            Err(Refused) => return Err(refuse_in_element(alloc, index, error)),
        }
    }
    Ok(values)
}
