//! Values as JSON.
ghost use Rattle.std.specs.Prelude.{◌≡◌, ◌≤◌, ◌<◌, ◌+◌, ◌++◌, ◌∷◌, [], None, OnOk, OnErr};
ghost use Rattle.json.specs.Json.{object, array};
ghost use Rattle.json.specs.Print.{IsPrintable};
ghost use Rattle.json.specs.Reads.{token_of};
ghost use Rattle.json.specs.Tree.{depth as json_depth};
ghost use Rattle.rasn_types.specs.Truth.{IsWhether};
ghost use Rattle.rasn_schema.specs.Fitting.{FitsLeaf, IsChosen};
ghost use Rattle.rasn_json.specs.Json.{Appends, AppendsComponent, AppendsMember, ArrayJson, ChosenJson, EnumeratedJson, IsCounted, JsonAt, JsonBy, JsonWithin, IsLeftOut, IsNothing, LeafJson, ObjectJson, OpenJson, unknown_in};
ghost use Rattle.rasn_json.specs.declared.error.JsonErrorKind.TheVariants.{Unfit};
ghost use Rattle.rasn_json.specs.Refusals.{AreRefusedComponents, AreRefusedElements, HasJsonWithin, HasNone, HasOpen, IsMemory, IsOfMember, IsRefusedAt, IsRefusedBy, IsRefusedChoice, IsRefusedComponent, IsRefusedInside, IsRefusedLeaf, IsRefusedOpen, OrMemory};

use crate::error::JsonError;
use crate::kept::{
    Refused, kept, refuse_depth, refuse_in_element, refuse_in_member, refuse_memory, refuse_type,
    refuse_unfit,
};
use crate::tokens::Tokens;
use crate::write_leaf::{Leaf, put_enumerated, put_leaf, put_open, put_unknown};
use json::Token;
use rasn_schema::{
    Alternative, Component, NamedNumber, Type, TypeId, Value, elements_of, is_left_out,
    is_unknown_at, items_of, type_at,
};
use std::alloc::Global;

/// The types of a value that is written, and the limits there.
#[derive(Clone, Copy)]
pub struct ValuePlace<'types> {
    pub alloc: Global,
    pub types: &'types [Type],
    /// Limits the types that are followed, one after the other.
    pub levels: usize,
    /// Limits the arrays and objects that are nested there.
    pub depth: usize,
}

/// Appends a value of the type with this number. Keeps what is wrong in `error`.
#[cycle(write)]
pub fn put_at<T: Tokens>(
    out: &mut T,
    place: &ValuePlace<'_>,
    id: TypeId,
    value: &Value<'_>,
    error: &mut JsonError,
) -> Result<(), Refused>
    ensures ok { OnOk result (Appends (JsonWithin place.now.types.now place.now.levels place.now.depth id.0 value.now) (T.Tokens.written out.old) (T.Tokens.written out.new)) }
    ensures err { OnErr result (OrMemory (IsRefusedAt place.now.types.now place.now.levels place.now.depth id.0 value.now) error.new) }
{
    if place.levels == 0 {
        return Err(refuse_unfit(place.alloc, error));
    }
    match type_at(place.types, id) {
        Some(ty) => {
            let below = ValuePlace {
                levels: place.levels - 1,
                ..*place
            };
            put_value(out, &below, ty, value, error)
        }
        None => Err(refuse_type(place.alloc, id, error)),
    }
}

/// Appends a value of a type.
#[cycle(write)]
fn put_value<T: Tokens>(
    out: &mut T,
    place: &ValuePlace<'_>,
    ty: &Type,
    value: &Value<'_>,
    error: &mut JsonError,
) -> Result<(), Refused>
    ensures ok { OnOk result (Appends (λ j. JsonBy (unknown_in place.now.types.now) (JsonAt place.now.types.now place.now.levels) ty.now value.now j × (json_depth j ≤ place.now.depth)) (T.Tokens.written out.old) (T.Tokens.written out.new)) }
    ensures err { OnErr result (OrMemory (IsRefusedBy (unknown_in place.now.types.now) (HasJsonWithin place.now.types.now place.now.levels) (IsRefusedAt place.now.types.now place.now.levels) place.now.depth ty.now value.now) error.new) }
{
    match ty {
        Type::Leaf {
            kind,
            constraints,
            names,
            ..
        } => {
            let leaf = Leaf {
                kind: *kind,
                constraints,
                names,
            };
            kept_leaf(out, place, leaf, value, error)
        }
        Type::Enumerated { numbers, .. } => {
            kept_enumerated(out, place.alloc, numbers, value, error)
        }
        Type::Any { .. } => kept_open(out, place.alloc, value, error),
        Type::Tagged { inner, .. } => put_at(out, place, *inner, value, error),
        _ => {
            if place.depth == 0 {
                return Err(refuse_depth(place.alloc, error));
            }
            let inside = ValuePlace {
                depth: place.depth - 1,
                ..*place
            };
            put_inside(out, &inside, ty, value, error)
        }
    }
}

/// Appends a value that holds no others.
#[inline(never)]
fn kept_leaf<T: Tokens>(
    out: &mut T,
    place: &ValuePlace<'_>,
    leaf: Leaf<'_>,
    value: &Value<'_>,
    error: &mut JsonError,
) -> Result<(), Refused>
    ensures fits { OnOk result (FitsLeaf leaf.entry.kind value.now) }
    ensures json { OnOk result (Appends (LeafJson leaf.entry.kind leaf.entry.constraints.now leaf.entry.names.now value.now) (T.Tokens.written out.old) (T.Tokens.written out.new)) }
    ensures nested { OnOk result (IsCounted leaf.entry.kind leaf.entry.constraints.now value.now → 0 < place.now.depth) }
    ensures err { OnErr result (OrMemory (IsRefusedLeaf place.now.depth leaf.entry.kind leaf.entry.constraints.now leaf.entry.names.now value.now) error.new) }
{
    kept(put_leaf(out, place.alloc, place.depth, leaf, value), error)
}

/// Appends the name of a number of an ENUMERATED.
#[inline(never)]
fn kept_enumerated<T: Tokens>(
    out: &mut T,
    alloc: Global,
    numbers: &[NamedNumber],
    value: &Value<'_>,
    error: &mut JsonError,
) -> Result<(), Refused>
    ensures ok { OnOk result (Appends (EnumeratedJson numbers.now value.now) (T.Tokens.written out.old) (T.Tokens.written out.new)) }
    ensures err { OnErr result (OrMemory (HasNone Unfit (EnumeratedJson numbers.now value.now)) error.new) }
{
    kept(put_enumerated(out, alloc, numbers, value), error)
}

/// Appends the octets of an open type.
#[inline(never)]
fn kept_open<T: Tokens>(
    out: &mut T,
    alloc: Global,
    value: &Value<'_>,
    error: &mut JsonError,
) -> Result<(), Refused>
    ensures ok { OnOk result (Appends (OpenJson value.now) (T.Tokens.written out.old) (T.Tokens.written out.new)) }
    ensures err { OnErr result (OrMemory (IsRefusedOpen value.now) error.new) }
{
    kept(put_open(out, alloc, value), error)
}

/// Appends the octets of unknown values as an array.
#[inline(never)]
fn kept_unknown<T: Tokens>(
    out: &mut T,
    alloc: Global,
    values: &[Value<'_>],
    error: &mut JsonError,
) -> Result<(), Refused>
    ensures ok { OnOk result (Appends (λ j. ArrayJson OpenJson j values.now) (T.Tokens.written out.old) (T.Tokens.written out.new)) }
    ensures err { OnErr result (OrMemory (AreRefusedElements HasOpen IsRefusedOpen 0 values.now) error.new) }
{
    kept(put_unknown(out, alloc, values), error)
}

/// Appends a token.
fn put_token<T: Tokens>(
    out: &mut T,
    alloc: Global,
    token: Token<'_>,
    error: &mut JsonError,
) -> Result<(), Refused>
    requires { IsPrintable (token_of token) }
    ensures ok { OnOk result (T.Tokens.written out.new ≡ T.Tokens.written out.old ++ token_of token.entry ∷ []) }
    ensures err { OnErr result (IsMemory error.new) }
{
    match out.put(token) {
        Ok(()) => Ok(()),
        Err(_) => Err(refuse_memory(alloc, error)),
    }
}

/// Appends a value that holds others.
#[cycle(write)]
fn put_inside<T: Tokens>(
    out: &mut T,
    place: &ValuePlace<'_>,
    ty: &Type,
    value: &Value<'_>,
    error: &mut JsonError,
) -> Result<(), Refused>
    ensures ok { OnOk result (Appends (λ j. JsonBy (unknown_in place.now.types.now) (JsonAt place.now.types.now place.now.levels) ty.now value.now j × (json_depth j ≤ place.now.depth + 1)) (T.Tokens.written out.old) (T.Tokens.written out.new)) }
    ensures err { OnErr result (OrMemory (IsRefusedInside (unknown_in place.now.types.now) (HasJsonWithin place.now.types.now place.now.levels place.now.depth) (IsRefusedAt place.now.types.now place.now.levels place.now.depth) ty.now value.now) error.new) }
{
    match ty {
        Type::Choice { alternatives, .. } => put_chosen(out, place, alternatives, value, error),
        Type::Sequence { components, .. } | Type::Set { components, .. } => match items_of(value) {
            Some(values) => put_object(out, place, components, values, error),
            None => Err(refuse_unfit(place.alloc, error)),
        },
        Type::SequenceOf { element, .. } => match items_of(value) {
            Some(values) => put_array(out, place, *element, values, error),
            None => Err(refuse_unfit(place.alloc, error)),
        },
        Type::SetOf { element, .. } => match elements_of(value) {
            Some(values) => put_array(out, place, *element, values, error),
            None => Err(refuse_unfit(place.alloc, error)),
        },
        Type::Unknown => match items_of(value) {
            Some(values) => kept_unknown(out, place.alloc, values, error),
            None => Err(refuse_unfit(place.alloc, error)),
        },
        _ => Err(refuse_unfit(place.alloc, error)),
    }
}

/// Appends the alternative that is chosen, as an object with one member.
#[cycle(write)]
fn put_chosen<T: Tokens>(
    out: &mut T,
    place: &ValuePlace<'_>,
    alternatives: &[Alternative],
    value: &Value<'_>,
    error: &mut JsonError,
) -> Result<(), Refused>
    ensures ok { OnOk result (Appends (λ j. IsChosen (ChosenJson (JsonWithin place.now.types.now place.now.levels place.now.depth) alternatives.now j) value.now) (T.Tokens.written out.old) (T.Tokens.written out.new)) }
    ensures err { OnErr result (OrMemory (IsRefusedChoice (IsRefusedAt place.now.types.now place.now.levels place.now.depth) alternatives.now value.now) error.new) }
{
    let Value::Chosen(index, inner) = value else {
        return Err(refuse_unfit(place.alloc, error));
    };
    let Some(alternative) = alternatives.get(*index) else {
        return Err(refuse_unfit(place.alloc, error));
    };
    let name = alternative.name.as_str();
    put_token(out, place.alloc, Token::BeginObject, error)?;
    put_member(out, place, name, alternative.type_id, inner, error)?;
    put_token(out, place.alloc, Token::EndObject, error)
}

/// Appends a member.
#[cycle(write)]
fn put_member<T: Tokens>(
    out: &mut T,
    place: &ValuePlace<'_>,
    name: &str,
    id: TypeId,
    value: &Value<'_>,
    error: &mut JsonError,
) -> Result<(), Refused>
    ensures ok { OnOk result (AppendsMember (JsonWithin place.now.types.now place.now.levels place.now.depth id.0 value.now) name.now (T.Tokens.written out.old) (T.Tokens.written out.new)) }
    ensures err { OnErr result (OrMemory (IsOfMember name.now (IsRefusedAt place.now.types.now place.now.levels place.now.depth id.0 value.now)) error.new) }
{
    put_token(out, place.alloc, Token::Key(name), error)?;
    match put_at(out, place, id, value, error) {
        Ok(()) => Ok(()),
        Err(Refused) => Err(refuse_in_member(place.alloc, name, error)),
    }
}

/// Appends components as an object, except those that aren't written.
#[cycle(write)]
fn put_object<T: Tokens>(
    out: &mut T,
    place: &ValuePlace<'_>,
    components: &[Component],
    values: &[Value<'_>],
    error: &mut JsonError,
) -> Result<(), Refused>
    ensures ok { OnOk result (Appends (λ j. ObjectJson (unknown_in place.now.types.now) (JsonWithin place.now.types.now place.now.levels place.now.depth) components.now j values.now) (T.Tokens.written out.old) (T.Tokens.written out.new)) }
    ensures err { OnErr result (OrMemory (AreRefusedComponents (unknown_in place.now.types.now) (HasJsonWithin place.now.types.now place.now.levels place.now.depth) (IsRefusedAt place.now.types.now place.now.levels place.now.depth) components.now values.now) error.new) }
{
    put_token(out, place.alloc, Token::BeginObject, error)?;
    let mut rest = components;
    let mut left = values;
    while let [component, after @ ..] = rest {
        let [value, others @ ..] = left else {
            return Err(refuse_unfit(place.alloc, error));
        };
        put_component(out, place, component, value, error)?;
        rest = after;
        left = others;
    }
    if left.is_empty() {
        return put_token(out, place.alloc, Token::EndObject, error);
    }
    Err(refuse_unfit(place.alloc, error))
}

/// Returns whether there are no unknown values, where the component is such.
fn is_nothing(types: &[Type], component: &Component, value: &Value<'_>) -> bool
    ensures { IsWhether result (IsNothing (unknown_in types.now) component.now value.now) }
{
    if !is_unknown_at(types, component.type_id) {
        return false;
    }
    match items_of(value) {
        Some(values) => values.is_empty(),
        None => false,
    }
}

/// Returns whether a component isn't written: if it is absent, has its default's value, or is
/// unknown values of which there are none.
#[inline(never)]
fn is_unwritten(types: &[Type], component: &Component, value: &Value<'_>) -> bool
    ensures { IsWhether result (IsLeftOut (unknown_in types.now) component.now value.now) }
{
    is_left_out(component, value) || is_nothing(types, component, value)
}

/// Appends a component, unless it isn't written.
#[cycle(write)]
fn put_component<T: Tokens>(
    out: &mut T,
    place: &ValuePlace<'_>,
    component: &Component,
    value: &Value<'_>,
    error: &mut JsonError,
) -> Result<(), Refused>
    ensures ok { OnOk result (AppendsComponent (unknown_in place.now.types.now) (JsonWithin place.now.types.now place.now.levels place.now.depth) component.now value.now (T.Tokens.written out.old) (T.Tokens.written out.new)) }
    ensures err { OnErr result (OrMemory (IsRefusedComponent (unknown_in place.now.types.now) (IsRefusedAt place.now.types.now place.now.levels place.now.depth) component.now value.now) error.new) }
{
    if is_unwritten(place.types, component, value) {
        return Ok(());
    }
    let name = component.name.as_str();
    put_member(out, place, name, component.type_id, value, error)
}

/// Appends elements as an array.
#[cycle(write)]
fn put_array<T: Tokens>(
    out: &mut T,
    place: &ValuePlace<'_>,
    element: TypeId,
    values: &[Value<'_>],
    error: &mut JsonError,
) -> Result<(), Refused>
    ensures ok { OnOk result (Appends (λ j. ArrayJson (JsonWithin place.now.types.now place.now.levels place.now.depth element.0) j values.now) (T.Tokens.written out.old) (T.Tokens.written out.new)) }
    ensures err { OnErr result (OrMemory (AreRefusedElements (HasJsonWithin place.now.types.now place.now.levels place.now.depth element.0) (IsRefusedAt place.now.types.now place.now.levels place.now.depth element.0) 0 values.now) error.new) }
{
    put_token(out, place.alloc, Token::BeginArray, error)?;
    let mut index = 0usize;
    let mut left = values;
    while let [value, others @ ..] = left {
        match put_at(out, place, element, value, error) {
            Ok(()) => {}
            Err(Refused) => return Err(refuse_in_element(place.alloc, index, error)),
        }
        left = others;
        index += 1;
    }
    put_token(out, place.alloc, Token::EndArray, error)
}
