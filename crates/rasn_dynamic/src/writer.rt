//! Writes a value of a type.
ghost use Rattle.std.specs.Prelude.{◌≡◌, ◌⊎◌, None, false, map, OnOk, IfOk, IfErr};
ghost use Rattle.rasn_types.specs.Tags.{eoc};
ghost use Rattle.rasn_types.specs.Trees.{list_tree};
ghost use Rattle.rasn_types.specs.Bytes.{Bytes, WritesPart};
ghost use Rattle.rasn_types.specs.Errors.{IsEncodeOutOfMemory};
ghost use Rattle.rasn_enc.specs.Any.{IsUntaggedInSetError};
ghost use Rattle.rasn_enc.specs.Encoding.{NoEncodingOfPart};
ghost use Rattle.rasn_enc.specs.View.{fresh};
ghost use Rattle.rasn_enc.specs.Primitive.{IsOrderError};
ghost use Rattle.rasn_schema.specs.Trees.{tree_of};
ghost use Rattle.rasn_schema.specs.Schemas.{IsChoice};
ghost use Rattle.rasn_schema.specs.Shapes.{shape_of_type, type_by, set_among, components_by, presence_in};
ghost use Rattle.rasn_schema.specs.Fitting.{ComponentFits, ComponentsFit, EachFits, FitsBy, Fits};
ghost use Rattle.rasn_dynamic.specs.Making.{reported};
ghost use Rattle.rasn_dynamic.specs.Written.{EncodesIf, EncodesPartIf, EncodesInsideIf, EncodesPartsIf, EncodesElementsIf, EncodesSetOfIf, HoldsOthers, HoldsSet, FailsAtSet, AddsPart, FailsAtPart};

use crate::kept::{check_size, drop_open, keep, kept, refuse_form};
use crate::place::place_tag;
use crate::set::named_components;
use crate::walk::Refused;
use crate::write_leaf::{
    encode_leaf, encode_number, encode_open_value, encode_unknown_values, other_form, out_of_room,
    unknown_as_components,
};
use rasn_enc::ber::enc::set_parts::{SetComponent, insert_component};
use rasn_enc::ber::enc::{Encoder, EncoderOptions};
use rasn_schema::{
    Component, Type, TypeId, Value, elements_of, innermost_at, is_left_out, items_of,
};
use rasn_types::error::{BerEncodeErrorKind, CodecEncodeError, EncodeError, EncodeErrorKind};

/// Returns the error that the octets of a set aren't in ascending order.
fn out_of_order(encoder: &Encoder) -> EncodeError
    ensures { IsOrderError encoder.now.rule result }
{
    EncodeError {
        kind: EncodeErrorKind::CodecSpecific {
            inner: CodecEncodeError::Ber(BerEncodeErrorKind::SetOutOfOrder),
        },
        codec: encoder.codec(),
    }
}

/// Returns the error that a component doesn't begin with an identifier, so that its place isn't
/// known.
fn no_place(encoder: &Encoder) -> EncodeError
    ensures { IsUntaggedInSetError encoder.now.rule result }
{
    EncodeError {
        kind: EncodeErrorKind::CodecSpecific {
            inner: CodecEncodeError::Ber(BerEncodeErrorKind::AnyInSet),
        },
        codec: encoder.codec(),
    }
}

/// Writes a value of the type with this number, if it is one, or puts the error into `error`. Types
/// are followed `levels` deep.
#[cycle(encode)]
pub fn encode_at(
    encoder: &mut Encoder,
    types: &[Type],
    levels: usize,
    id: TypeId,
    value: &Value<'_>,
    error: &mut EncodeError,
) -> Result<(), Refused>
    ensures { EncodesIf (Fits types.now levels id.0 value.now) (shape_of_type types.now levels id.0) (tree_of value.now) encoder.old (reported result error.new) encoder.new }
{
    match innermost_at(types, levels, id, value) {
        Some(inner) => encode_type(encoder, types, inner.below, inner.ty, inner.value, error),
        None => refuse_form(encoder, error),
    }
}

/// Writes a value of a type that isn't a CHOICE.
#[cycle(encode)]
fn encode_type(
    encoder: &mut Encoder,
    types: &[Type],
    below: usize,
    ty: &Type,
    value: &Value<'_>,
    error: &mut EncodeError,
) -> Result<(), Refused>
    requires { IsChoice ty.now → ⊥ }
    ensures { EncodesIf (FitsBy (Fits types.now below) ty.now value.now) (type_by (shape_of_type types.now below) ty.now) (tree_of value.now) encoder.old (reported result error.new) encoder.new }
{
    match ty {
        Type::Leaf {
            kind,
            tag,
            constraints,
            ..
        } => encode_leaf(encoder, *kind, *tag, constraints, value, error),
        Type::Enumerated { tag, numbers } => encode_number(encoder, *tag, numbers, value, error),
        Type::Any { tag } => encode_open_value(encoder, *tag, value, error),
        Type::Unknown => encode_unknown_values(encoder, value, error),
        Type::Choice { .. } => unreachable!(),
        Type::Tagged { .. } => encode_inside(encoder, types, below, ty, value, error),
        Type::Sequence { .. } => encode_inside(encoder, types, below, ty, value, error),
        Type::Set { .. } => encode_inside(encoder, types, below, ty, value, error),
        Type::SequenceOf { .. } => encode_inside(encoder, types, below, ty, value, error),
        Type::SetOf { .. } => encode_inside(encoder, types, below, ty, value, error),
    }
}

/// Writes a value that holds other values, and its header.
#[inline(never)]
#[cycle(encode)]
fn encode_inside(
    encoder: &mut Encoder,
    types: &[Type],
    below: usize,
    ty: &Type,
    value: &Value<'_>,
    error: &mut EncodeError,
) -> Result<(), Refused>
    requires { HoldsOthers (type_by (shape_of_type types.now below) ty.now) }
    ensures { EncodesIf (FitsBy (Fits types.now below) ty.now value.now) (type_by (shape_of_type types.now below) ty.now) (tree_of value.now) encoder.old (reported result error.new) encoder.new }
{
    match encoder.open(false) {
        Ok(()) => match encode_contents(encoder, types, below, ty, value, error) {
            Ok(()) => kept(encoder.close(ty.tag(), Ok(())), error),
            Err(unwritten) => {
                drop_open(encoder);
                Err(unwritten)
            }
        },
        Err(fault) => keep(fault, error),
    }
}

/// Writes the contents of a value that holds other values.
#[cycle(encode)]
fn encode_contents(
    encoder: &mut Encoder,
    types: &[Type],
    below: usize,
    ty: &Type,
    value: &Value<'_>,
    error: &mut EncodeError,
) -> Result<(), Refused>
    requires holds { HoldsOthers (type_by (shape_of_type types.now below) ty.now) }
    requires fresh { encoder.old.last ≡ fresh false }
    ensures { EncodesInsideIf (FitsBy (Fits types.now below) ty.now value.now) (type_by (shape_of_type types.now below) ty.now) (tree_of value.now) encoder.old (reported result error.new) encoder.new }
{
    match ty {
        Type::Tagged { inner, .. } => encode_at(encoder, types, below, *inner, value, error),
        Type::Sequence { components, .. } => match items_of(value) {
            Some(values) => encode_components(encoder, types, below, components, values, error),
            None => refuse_form(encoder, error),
        },
        Type::Set { components, .. } => match items_of(value) {
            Some(values) => encode_set(encoder, types, below, components, values, error),
            None => refuse_form(encoder, error),
        },
        Type::SequenceOf {
            element,
            constraints,
            ..
        } => match items_of(value) {
            Some(values) => {
                check_size(encoder, constraints, values.len(), error)?;
                encode_elements(encoder, types, below, *element, values, error)
            }
            None => refuse_form(encoder, error),
        },
        Type::SetOf {
            element,
            constraints,
            ..
        } => match elements_of(value) {
            Some(values) => {
                check_size(encoder, constraints, values.len(), error)?;
                encode_elements_in_order(encoder, types, below, *element, values, error)
            }
            None => refuse_form(encoder, error),
        },
        _ => unreachable!(),
    }
}

/// Writes components, one after the other.
#[cycle(encode)]
fn encode_components(
    encoder: &mut Encoder,
    types: &[Type],
    below: usize,
    components: &[Component],
    values: &[Value<'_>],
    error: &mut EncodeError,
) -> Result<(), Refused>
    ensures { EncodesPartsIf (ComponentsFit (Fits types.now below) components.now values.now) (components_by (shape_of_type types.now below) components.now) (list_tree tree_of values.now) encoder.old (reported result error.new) encoder.new }
{
    let mut rest = components;
    let mut left = values;
    while let [component, after @ ..] = rest {
        let [value, others @ ..] = left else {
            return refuse_form(encoder, error);
        };
        encode_component(encoder, types, below, component, value, error)?;
        rest = after;
        left = others;
    }
    if left.is_empty() {
        return Ok(());
    }
    refuse_form(encoder, error)
}

/// Writes a component, or nothing if it is absent.
#[cycle(encode)]
fn encode_component(
    encoder: &mut Encoder,
    types: &[Type],
    below: usize,
    component: &Component,
    value: &Value<'_>,
    error: &mut EncodeError,
) -> Result<(), Refused>
    ensures { EncodesPartIf (ComponentFits (Fits types.now below) component.now value.now) (presence_in (shape_of_type types.now below) component.now) (shape_of_type types.now below component.now.type_id.0) (tree_of value.now) encoder.old (reported result error.new) encoder.new }
{
    if is_left_out(component, value) {
        return Ok(());
    }
    encode_at(encoder, types, below, component.type_id, value, error)
}

/// Writes the components of a SET in the order of their tags (X.690 9.3, 10.3), whatever their
/// order in the type. If there may be unknown components, the last value is the list of them, and
/// each is written where its tag belongs.
#[cycle(encode)]
fn encode_set(
    encoder: &mut Encoder,
    types: &[Type],
    below: usize,
    components: &[Component],
    values: &[Value<'_>],
    error: &mut EncodeError,
) -> Result<(), Refused>
    requires { encoder.old.last ≡ fresh false }
    ensures { EncodesInsideIf (ComponentsFit (Fits types.now below) components.now values.now) (set_among eoc (components_by (shape_of_type types.now below) components.now)) (list_tree tree_of values.now) encoder.old (reported result error.new) encoder.new }
{
    match set_components(encoder, types, below, components, values) {
        Ok(found) => kept(encoder.append_components(&found), error),
        Err(fault) => keep(fault, error),
    }
}

/// Writes each component of a SET alone, and returns them in the order of their tags.
#[cycle(encode)]
fn set_components(
    encoder: &Encoder,
    types: &[Type],
    below: usize,
    components: &[Component],
    values: &[Value<'_>],
) -> Result<Vec<SetComponent>, EncodeError>
    ensures ok { IfOk result (λ v. ComponentsFit (Fits types.now below) components.now values.now × HoldsSet (components_by (shape_of_type types.now below) components.now) (list_tree tree_of values.now) encoder.now.rule v.items) }
    ensures refused { ComponentsFit (Fits types.now below) components.now values.now → IfErr result (FailsAtSet (components_by (shape_of_type types.now below) components.now) (list_tree tree_of values.now) encoder.now.rule) }
    ensures rules { IfErr result (λ e. e.codec ≡ encoder.now.rule) }
{
    if values.len() != components.len() {
        return Err(other_form(encoder));
    }
    let (named, extensible) = named_components(types, below, components);
    let mut found = Vec::new(encoder.alloc());
    if extensible {
        let last = named.len();
        let value = &values[last];
        // The unknown values of a schema are required, so that they aren't left out.
        if is_left_out(&components[last], value) {
            return Err(out_of_room(encoder));
        }
        found = unknown_as_components(encoder, value)?;
    }
    let mut left = named.len();
    while left > 0 {
        left -= 1;
        add_component(
            encoder,
            types,
            below,
            &named[left],
            &values[left],
            &mut found,
        )?;
    }
    Ok(found)
}

/// Writes a component alone, and puts it among others where its tag belongs, if it isn't left out.
#[cycle(encode)]
fn add_component(
    encoder: &Encoder,
    types: &[Type],
    below: usize,
    component: &Component,
    value: &Value<'_>,
    found: &mut Vec<SetComponent>,
) -> Result<(), EncodeError>
    ensures ok { OnOk result (ComponentFits (Fits types.now below) component.now value.now × AddsPart (presence_in (shape_of_type types.now below) component.now) (shape_of_type types.now below component.now.type_id.0) (tree_of value.now) encoder.now.rule found.old.items found.new.items) }
    ensures refused { ComponentFits (Fits types.now below) component.now value.now → IfErr result (FailsAtPart (presence_in (shape_of_type types.now below) component.now) (shape_of_type types.now below component.now.type_id.0) (tree_of value.now) encoder.now.rule) }
    ensures rules { IfErr result (λ e. e.codec ≡ encoder.now.rule) }
{
    let octets = component_octets(encoder, types, below, component, value)?;
    if octets.is_empty() {
        return Ok(());
    }
    let rule = encoder.codec();
    let Some(tag) = place_tag(types, below, rule, component.type_id, &octets) else {
        return Err(no_place(encoder));
    };
    insert_component(found, SetComponent { tag, octets }, rule)
}

/// Writes a component alone, and returns its octets: none if it is left out.
#[cycle(encode)]
fn component_octets(
    encoder: &Encoder,
    types: &[Type],
    below: usize,
    component: &Component,
    value: &Value<'_>,
) -> Result<Vec<u8>, EncodeError>
    ensures ok { IfOk result (λ v. ComponentFits (Fits types.now below) component.now value.now × WritesPart (presence_in (shape_of_type types.now below) component.now) (Bytes encoder.now.rule (shape_of_type types.now below component.now.type_id.0)) (tree_of value.now) v.items) }
    ensures refused { ComponentFits (Fits types.now below) component.now value.now → IfErr result (λ e. IsEncodeOutOfMemory e.kind ⊎ NoEncodingOfPart (presence_in (shape_of_type types.now below) component.now) encoder.now.rule (shape_of_type types.now below component.now.type_id.0) (tree_of value.now)) }
    ensures rules { IfErr result (λ e. e.codec ≡ encoder.now.rule) }
{
    let alloc = encoder.alloc();
    let options = EncoderOptions::of(encoder.codec());
    let mut alone = Encoder::over(alloc, options, Vec::new(alloc));
    let mut error = out_of_room(encoder);
    match encode_component(&mut alone, types, below, component, value, &mut error) {
        Ok(()) => alone.output(),
        Err(_) => Err(error),
    }
}

/// Writes elements, one after the other.
#[cycle(encode)]
fn encode_elements(
    encoder: &mut Encoder,
    types: &[Type],
    below: usize,
    element: TypeId,
    values: &[Value<'_>],
    error: &mut EncodeError,
) -> Result<(), Refused>
    requires { encoder.old.last.tags ≡ None }
    ensures { EncodesElementsIf (EachFits (Fits types.now below element.0) values.now) (shape_of_type types.now below element.0) (map tree_of values.now) encoder.old (reported result error.new) encoder.new }
{
    let mut rest = values;
    while let [value, after @ ..] = rest {
        encode_at(encoder, types, below, element, value, error)?;
        rest = after;
    }
    Ok(())
}

/// Writes elements whose octets are in ascending order.
#[cycle(encode)]
fn encode_elements_in_order(
    encoder: &mut Encoder,
    types: &[Type],
    below: usize,
    element: TypeId,
    values: &[Value<'_>],
    error: &mut EncodeError,
) -> Result<(), Refused>
    requires { encoder.old.last.tags ≡ None }
    ensures { EncodesSetOfIf (EachFits (Fits types.now below element.0) values.now) (shape_of_type types.now below element.0) (map tree_of values.now) encoder.old (reported result error.new) encoder.new }
{
    let mut previous = encoder.last_len();
    let mut rest = values;
    while let [value, after @ ..] = rest {
        let start = encoder.last_len();
        encode_at(encoder, types, below, element, value, error)?;
        if encoder.neighbours_out_of_order(previous, start) {
            return keep(out_of_order(encoder), error);
        }
        previous = start;
        rest = after;
    }
    Ok(())
}
