//! Finding a part of a message.
ghost use Rattle.std.specs.Prelude.{◌≡◌, ◌≢◌, ◌⊎◌, ◌+◌, ◌≤◌, ◌∷◌, [], length, true, None, OnOk, IfOk, IfErr, MatchOption, MatchBool};
ghost use Rattle.rasn_types.specs.Errors.{IsOutOfMemory};
ghost use Rattle.rasn_types.specs.Shapes.{any};
ghost use Rattle.rasn_schema.specs.Shapes.{shape_of_type, type_by, components_by, presence_in, IsReadable, AreReadable};
ghost use Rattle.rasn_dynamic.specs.Inside.{ReadsComponent};
ghost use Rattle.rasn_dynamic.specs.Sets.{AreLawfulMembers};
ghost use Rattle.rasn_dynamic.specs.Faults.{IsAlternativeAt, IsComponentAt, IsMemberAt, IsElementAt, IsPart, Leads, IsLocated, start};
ghost use Rattle.rasn_dynamic.specs.Parts.{IsSeen, LacksAlternative, IsAbsentHere, LacksComponent, LacksMember, LacksElement, LacksPart, IsEntered, LacksPartAt, LacksPath, IsReadHere, IsPartAt, PassesBy, PassesPresent, PassesElement};

use crate::components::{is_always_there, leaves_all_out};
use crate::locate::{check_or_locate, out_of_memory};
use crate::made::Nothing;
use crate::order::octets_before;
use crate::part::{Part, part_header};
use crate::read_leaf::decode_any_value;
use crate::reader::{decode_at, decode_component, decode_present, header_for, is_next};
use crate::refusal::Refusal;
use crate::refuse::{extra, no_value};
use crate::set::{component_for, named_components};
use crate::span::no_list;
use crate::trace::octets_after;
use crate::types::Types;
use crate::walk::new_walk;
use rasn_de::ber::de::{ConstructedHeader, Decoder, DecoderOptions};
use rasn_schema::{Alternative, Component, Schema, Type, TypeId, Value, alternative_for, type_at};
use rasn_types::error::DecodeError;
use rasn_types::types::{Codec, Tag};
use std::alloc::Global;

/// Where a value begins.
#[derive(Drop)]
struct Cursor<'input> {
    /// Reads there.
    decoder: Decoder<'input>,
    /// Where what the decoder sees ends, in octets from the start of the message.
    end: usize,
    /// The number of the value's type.
    id: TypeId,
    /// How deep types are followed from there.
    levels: usize,
}

/// Goes to the contents of a value of the type, if it has a header before them.
fn enter(place: &mut Cursor<'_>, ty: &Type) -> Result<(), DecodeError>
    requires seen { length place.old.decoder.rest ≤ place.old.end }
    ensures entered { OnOk result (IsEntered ty.now place.old.decoder place.new.decoder) }
    ensures seen { OnOk result (IsSeen place.old.decoder.rest place.old.end place.new.decoder.rest place.new.end) }
{
    let Some(header) = header_for(ty) else {
        return Ok(());
    };
    let (inner, _) = place.decoder.open(header)?;
    place.end -= octets_after(&place.decoder, &inner);
    place.decoder = inner;
    Ok(())
}

/// Returns the type of the alternative that follows, if it is the one with this index.
fn alternative_here(
    decoder: &Decoder<'_>,
    types: &[Type],
    below: usize,
    alternatives: &[Alternative],
    index: usize,
) -> Result<Option<TypeId>, DecodeError>
    ensures { IfOk result (λ found. MatchOption found (LacksAlternative (shape_of_type types.now below) alternatives.now decoder.now index) (λ id. IsAlternativeAt (shape_of_type types.now below) alternatives.now decoder.now index id.0 decoder.now)) }
{
    let tag = decoder.peek_tag()?;
    let Some(number) = alternative_for(types, below, alternatives, tag) else {
        return Err(no_value(decoder));
    };
    if number == index {
        Ok(Some(alternatives[number].type_id))
    } else {
        Ok(None)
    }
}

/// Returns the type of a component of a SEQUENCE, if the component is present.
fn component_here(
    decoder: &Decoder<'_>,
    types: &[Type],
    below: usize,
    component: &Component,
) -> Result<Option<TypeId>, DecodeError>
    requires lawful { IsReadable (shape_of_type types.now below component.now.type_id.0) }
    ensures { IfOk result (λ found. MatchOption found (IsAbsentHere (shape_of_type types.now below) component.now decoder.now) (λ id. id ≡ component.now.type_id)) }
{
    if is_always_there(component) {
        return Ok(Some(component.type_id));
    }
    let types = Types {
        list: types,
        levels: below,
    };
    match is_next(decoder, &types, component.type_id) {
        Ok(true) => Ok(Some(component.type_id)),
        Ok(false) => Ok(None),
        Err(error) => Err(error),
    }
}

/// Reads a component of a SEQUENCE, unless it is absent.
fn pass_component(
    decoder: &mut Decoder<'_>,
    types: &[Type],
    below: usize,
    component: &Component,
) -> Result<(), DecodeError>
    requires lawful { IsReadable (shape_of_type types.now below component.now.type_id.0) }
    ensures { OnOk result (PassesBy (ReadsComponent (presence_in (shape_of_type types.now below) component.now) (shape_of_type types.now below component.now.type_id.0)) decoder.old decoder.new) }
{
    let mut walk = new_walk(decoder.codec(), no_list());
    let mut value = Value::Absent;
    let types = Types {
        list: types,
        levels: below,
    };
    match decode_component::<Nothing>(decoder, &mut walk, &types, component, 0, &mut value) {
        Ok(()) => Ok(()),
        Err(_) => Err(walk.error),
    }
}

/// Goes to the component of a SEQUENCE with this index. Returns its type, if it is present.
fn go_to_component(
    decoder: &mut Decoder<'_>,
    types: &[Type],
    below: usize,
    components: &[Component],
    index: usize,
) -> Result<Option<TypeId>, DecodeError>
    requires lawful { AreReadable (components_by (shape_of_type types.now below) components.now) }
    ensures found { IfOk result (λ found. MatchOption found (LacksComponent (shape_of_type types.now below) components.now decoder.old index) (λ id. IsComponentAt (shape_of_type types.now below) components.now decoder.old index id.0 decoder.new)) }
{
    if leaves_all_out(decoder, components) {
        return Ok(None);
    }
    let mut rest = components;
    let mut number = 0;
    while let [component, after @ ..] = rest {
        if number == index {
            return component_here(decoder, types, below, component);
        }
        pass_component(decoder, types, below, component)?;
        rest = after;
        number += 1;
    }
    Ok(None)
}

/// Returns an error if a value took nothing of so many octets.
fn check_taken(decoder: &Decoder<'_>, left: usize) -> Result<(), DecodeError>
    ensures { OnOk result (length decoder.now.rest ≢ left) }
{
    if decoder.remaining().len() == left {
        return Err(extra(decoder, left));
    }
    Ok(())
}

/// Reads a component of a SET, which must take some of the input. It is present.
fn pass_member(
    decoder: &mut Decoder<'_>,
    types: &[Type],
    below: usize,
    component: &Component,
) -> Result<(), DecodeError>
    requires lawful { IsReadable (shape_of_type types.now below component.now.type_id.0) }
    ensures { OnOk result (PassesPresent (presence_in (shape_of_type types.now below) component.now) (shape_of_type types.now below component.now.type_id.0) decoder.old decoder.new) }
{
    let left = decoder.remaining().len();
    let mut walk = new_walk(decoder.codec(), no_list());
    let mut value = Value::Absent;
    let types = Types {
        list: types,
        levels: below,
    };
    match decode_present::<Nothing>(decoder, &mut walk, &types, component, 0, &mut value) {
        Ok(()) => check_taken(decoder, left),
        Err(_) => Err(walk.error),
    }
}

/// Reads an unknown component of a SET, which has one only if it is extensible.
fn pass_unknown(decoder: &mut Decoder<'_>, extensible: bool) -> Result<(), DecodeError>
    ensures { OnOk result ((extensible ≡ true) × PassesElement (any None) decoder.old decoder.new) }
{
    if !extensible {
        return Err(no_value(decoder));
    }
    match decode_any_value(decoder, Tag::EOC) {
        Ok(value) => {
            drop(value);
            Ok(())
        }
        Err(error) => Err(error),
    }
}

/// Goes to the component of a SET with this index, past those before it and unknown ones. Returns
/// its type, if it is present.
fn go_to_member(
    decoder: &mut Decoder<'_>,
    types: &[Type],
    below: usize,
    components: &[Component],
    extensible: bool,
    index: usize,
) -> Result<Option<TypeId>, DecodeError>
    requires lawful { AreLawfulMembers (components_by (shape_of_type types.now below) components.now) }
    ensures found { IfOk result (λ found. MatchOption found (LacksMember (shape_of_type types.now below) extensible components.now decoder.old index) (λ id. IsMemberAt (shape_of_type types.now below) extensible components.now decoder.old index id.0 decoder.new)) }
{
    while !decoder.has_ended() {
        let tag = decoder.peek_tag()?;
        match component_for(types, below, components, tag) {
            Some((number, component)) => {
                if number == index {
                    return Ok(Some(component.type_id));
                }
                pass_member(decoder, types, below, component)?;
            }
            None => pass_unknown(decoder, extensible)?,
        }
    }
    Ok(None)
}

/// Reads an element, which must take some of the input.
fn pass_element(
    decoder: &mut Decoder<'_>,
    types: &[Type],
    below: usize,
    element: TypeId,
) -> Result<(), DecodeError>
    requires lawful { IsReadable (shape_of_type types.now below element.0) }
    ensures { OnOk result (PassesElement (shape_of_type types.now below element.0) decoder.old decoder.new) }
{
    let left = decoder.remaining().len();
    let mut walk = new_walk(decoder.codec(), no_list());
    let mut value = Value::Absent;
    let types = Types {
        list: types,
        levels: below,
    };
    match decode_at::<Nothing>(decoder, &mut walk, &types, element, &mut value) {
        Ok(()) => check_taken(decoder, left),
        Err(_) => Err(walk.error),
    }
}

/// Goes to the element with this index. Returns its type, if there is one.
fn go_to_element(
    decoder: &mut Decoder<'_>,
    types: &[Type],
    below: usize,
    element: TypeId,
    index: usize,
) -> Result<Option<TypeId>, DecodeError>
    requires lawful { IsReadable (shape_of_type types.now below element.0) }
    ensures found { IfOk result (λ found. MatchOption found (LacksElement (shape_of_type types.now below) element.0 decoder.old index) (λ id. IsElementAt (shape_of_type types.now below) element.0 decoder.old index id.0 decoder.new)) }
{
    let mut number = 0;
    while !decoder.has_ended() {
        if number == index {
            return Ok(Some(element));
        }
        pass_element(decoder, types, below, element)?;
        number += 1;
    }
    Ok(None)
}

/// Returns the type of the one part of a value, if it is the one with this index.
fn only_part(inner: TypeId, index: usize) -> Option<TypeId>
    ensures { MatchOption result (index ≢ 0) (λ id. (index ≡ 0) × (id ≡ inner)) }
{
    if index == 0 {
        return Some(inner);
    }
    None
}

/// Goes to the part with this index in the contents of a value. Returns its type, if it is present.
fn go_inside(
    decoder: &mut Decoder<'_>,
    types: &[Type],
    below: usize,
    ty: &Type,
    index: usize,
) -> Result<Option<TypeId>, DecodeError>
    requires lawful { IsReadable (type_by (shape_of_type types.now below) ty.now) }
    ensures found { IfOk result (λ found. MatchOption found (LacksPart (shape_of_type types.now below) ty.now decoder.old index) (λ id. IsPart (shape_of_type types.now below) ty.now decoder.old index id.0 decoder.new)) }
{
    match ty {
        Type::Tagged { inner, .. } => Ok(only_part(*inner, index)),
        Type::Choice { alternatives, .. } => {
            alternative_here(decoder, types, below, alternatives, index)
        }
        Type::Sequence { components, .. } => {
            go_to_component(decoder, types, below, components, index)
        }
        Type::Set { components, .. } => {
            let (named, extensible) = named_components(types, below, components);
            go_to_member(decoder, types, below, named, extensible, index)
        }
        Type::SequenceOf { element, .. } => go_to_element(decoder, types, below, *element, index),
        Type::SetOf { element, .. } => go_to_element(decoder, types, below, *element, index),
        _ => Ok(None),
    }
}

/// Goes from a value to its part with this index. Returns whether the part is present.
fn go_to_part(place: &mut Cursor<'_>, types: &[Type], index: usize) -> Result<bool, DecodeError>
    requires lawful { IsReadable (shape_of_type types.now place.old.levels place.old.id.0) }
    requires seen { length place.old.decoder.rest ≤ place.old.end }
    ensures found { IfOk result (λ found. MatchBool found (Leads types.now (index ∷ []) place.old.levels place.old.id.0 place.old.decoder place.new.levels place.new.id.0 place.new.decoder) (LacksPartAt types.now place.old.levels place.old.id.0 place.old.decoder index)) }
    ensures seen { IfOk result (λ found. found ≡ true → IsSeen place.old.decoder.rest place.old.end place.new.decoder.rest place.new.end) }
    ensures lawful { IfOk result (λ found. found ≡ true → IsReadable (shape_of_type types.now place.new.levels place.new.id.0)) }
{
    if place.levels == 0 {
        return Err(no_value(&place.decoder));
    }
    let Some(ty) = type_at(types, place.id) else {
        return Err(no_value(&place.decoder));
    };
    let below = place.levels - 1;
    enter(place, ty)?;
    match go_inside(&mut place.decoder, types, below, ty, index)? {
        Some(id) => {
            place.id = id;
            place.levels = below;
            Ok(true)
        }
        None => Ok(false),
    }
}

/// Goes along a path. Returns whether there is a part at its end.
fn go_along(place: &mut Cursor<'_>, types: &[Type], path: &[usize]) -> Result<bool, DecodeError>
    requires lawful { IsReadable (shape_of_type types.now place.old.levels place.old.id.0) }
    requires seen { length place.old.decoder.rest ≤ place.old.end }
    ensures found { IfOk result (λ found. MatchBool found (Leads types.now path.now place.old.levels place.old.id.0 place.old.decoder place.new.levels place.new.id.0 place.new.decoder) (LacksPath types.now path.now place.old.levels place.old.id.0 place.old.decoder)) }
    ensures seen { IfOk result (λ found. found ≡ true → IsSeen place.old.decoder.rest place.old.end place.new.decoder.rest place.new.end) }
    ensures lawful { IfOk result (λ found. found ≡ true → IsReadable (shape_of_type types.now place.new.levels place.new.id.0)) }
{
    let mut rest = path;
    while let [index, after @ ..] = rest {
        if go_to_part(place, types, *index)? {
            rest = after;
        } else {
            return Ok(false);
        }
    }
    Ok(true)
}

/// Reads the value at a place, and returns where it is.
fn read_part<'input>(
    place: &mut Cursor<'input>,
    types: &[Type],
) -> Result<Part<'input>, DecodeError>
    requires lawful { IsReadable (shape_of_type types.now place.old.levels place.old.id.0) }
    requires seen { length place.old.decoder.rest ≤ place.old.end }
    ensures read { IfOk result (λ p. IsReadHere types.now place.old.levels place.old.id.0 place.old.decoder p.octets.now p.header_len p.is_indefinite) }
    ensures at { IfOk result (λ p. (p.id ≡ place.old.id) × (p.offset + length place.old.decoder.rest ≡ place.old.end)) }
{
    let start = place.decoder.remaining();
    let mut walk = new_walk(place.decoder.codec(), no_list());
    let mut value = Value::Absent;
    let types = Types {
        list: types,
        levels: place.levels,
    };
    match decode_at::<Nothing>(&mut place.decoder, &mut walk, &types, place.id, &mut value) {
        Ok(()) => {
            let octets = octets_before(start, place.decoder.remaining());
            let (header_len, is_indefinite) = part_header(place.decoder.alloc(), octets)?;
            Ok(Part {
                id: place.id,
                offset: place.end - start.len(),
                header_len,
                is_indefinite,
                octets,
            })
        }
        Err(_) => Err(walk.error),
    }
}

/// Goes to the part at the end of a path, and reads it.
fn read_along<'input>(
    alloc: Global,
    rule: Codec,
    schema: &Schema,
    id: TypeId,
    input: &'input [u8],
    path: &[usize],
) -> Result<Option<Part<'input>>, DecodeError>
    ensures found { IfOk result (λ found. MatchOption found (LacksPath schema.now.types.items path.now 18446744073709551615 id.0 (start rule input.now)) (IsPartAt schema.now.types.items rule id.0 input.now path.now)) }
{
    let types = schema.types();
    let mut place = Cursor {
        decoder: Decoder::new(alloc, input, DecoderOptions::of(rule)),
        end: input.len(),
        id,
        levels: usize::MAX,
    };
    if go_along(&mut place, types, path)? {
        match read_part(&mut place, types) {
            Ok(part) => Ok(Some(part)),
            Err(error) => Err(error),
        }
    } else {
        Ok(None)
    }
}

/// Returns the refusal of an input of which some part can't be read, or that memory ran out.
fn refuse(alloc: Global, rule: Codec, schema: &Schema, id: TypeId, input: &[u8]) -> Refusal
    ensures located { IsOutOfMemory result.error.kind ⊎ IsLocated schema.now.types.items rule id.0 input.now result }
    ensures rules { result.error.codec ≡ rule }
{
    match check_or_locate(alloc, rule, schema, id, input) {
        Ok(_) => out_of_memory(alloc, rule, id),
        Err(refusal) => refusal,
    }
}

/// Finds the part of the message to which a path leads. Each step of the path is the index of a
/// component, an alternative or an element, counted from 0; an explicit tag is a step of its own,
/// with the index 0. Returns `None` if there is no such part, because a component is absent,
/// another alternative is chosen, or there are fewer elements. The components that the type of a
/// SET doesn't name share the index of its extension marker: no path leads to one of them alone,
/// and there is no part at that index. The parts before the one at the path are read and not kept,
/// and those after it aren't read.
///
/// # Errors
/// The refusal of [`check_or_locate`] if a part before it, or the part itself, can't be read.
///
/// # Examples
/// ```
/// // `id` is the number of SEQUENCE { name IA5String, ok BOOLEAN } in `schema`.
/// let octets: &[u8] = &[0x30, 0x05, 0x16, 0x00, 0x01, 0x01, 0xFF];
/// let found = rasn_dynamic::find_part(alloc, Codec::Der, &schema, id, octets, &[1])?;
/// // `found` is the part with the offset 4 and the octets 01 01 FF
/// ```
pub fn find_part<'input>(
    alloc: Global,
    rule: Codec,
    schema: &Schema,
    id: TypeId,
    input: &'input [u8],
    path: &[usize],
) -> Result<Option<Part<'input>>, Refusal>
    ensures found { IfOk result (λ found. MatchOption found (LacksPath schema.now.types.items path.now 18446744073709551615 id.0 (start rule input.now)) (IsPartAt schema.now.types.items rule id.0 input.now path.now)) }
    ensures located { IfErr result (λ r. IsOutOfMemory r.error.kind ⊎ IsLocated schema.now.types.items rule id.0 input.now r) }
    ensures rules { IfErr result (λ r. r.error.codec ≡ rule) }
{
    match read_along(alloc, rule, schema, id, input, path) {
        Ok(found) => Ok(found),
        Err(error) => {
            drop(error);
            Err(refuse(alloc, rule, schema, id, input))
        }
    }
}
