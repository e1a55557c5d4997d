//! Large values as lines that are written as they are made: their parts are read one by one, so that
//! a message takes little more memory than its octets. The lines are those of a value that is read
//! whole, except that an identifier inside a large component says nothing of the components after it.

use super::{
    LinePlace, MESSAGE_LEVELS, hint_of, identifier_in, is_name, print, print_encoding,
    print_heading, print_title,
};
use crate::dump::{Entry, entry_of, first_encoding, is_ended};
use crate::fault::CallFault;
use crate::known::Form;
use crate::work::lines_shown;
use rasn_dynamic::{check, decode};
use rasn_schema::{
    Component, Presence, Schema, Type, TypeId, Value, alternative_for, begins, components_of,
    is_unknown_at, part_name, part_type, type_at,
};
use rasn_types::error::DecodeError;
use rasn_types::types::Tag;
use std::alloc::{AllocError, Global};
use std::io::Write;
use std::{mem, slice};

/// Parts of so many octets are gone through part by part; smaller ones are read whole.
pub(crate) const LARGE: usize = 1 << 20;

/// Lines are written once they have so many octets.
const ENOUGH: usize = 1 << 16;

/// Where the lines of a large value are written.
#[derive(Drop)]
pub(crate) struct Lines<'w, W: Write + Drop> {
    pub output: &'w mut W,
    /// The lines that haven't been written yet.
    pub text: String,
    /// Whether names are in bold.
    pub is_colored: bool,
}

impl<W: Write + Drop> Lines<'_, W> {
    /// Writes the lines that haven't been written yet.
    pub(super) fn flush(&mut self, alloc: Global) -> Result<(), CallFault> {
        let text = mem::replace(&mut self.text, String::new(alloc));
        let shown = lines_shown(alloc, self.is_colored, text)?;
        self.output
            .write_all(shown.as_bytes())
            .map_err(CallFault::of_write)
    }
}

/// Writes the lines of a value of this type, which octets encode, the first of which has the title of
/// its place. Some of them may still be kept: see `Lines::flush`.
///
/// # Errors
/// `Write` or `Closed` if they can't be written, `Memory` if memory runs out.
#[cycle(write)]
pub(super) fn write<W: Write + Drop>(
    lines: &mut Lines<'_, W>,
    place: LinePlace<'_>,
    schema: &Schema,
    id: TypeId,
    octets: &[u8],
) -> Result<(), CallFault> {
    if octets.len() < LARGE || place.levels == 0 {
        return write_whole(lines, place, schema, id, octets);
    }
    let mut title = String::from_str(place.alloc, place.title)?;
    let (id, octets) = innermost(&mut title, place, schema, id, octets)?;
    let part = LinePlace {
        levels: place.levels - 1,
        title: title.as_str(),
        ..place
    };
    if is_name(schema, id) {
        return write_whole(lines, part, schema, id, octets);
    }
    match type_at(schema.types(), id) {
        Some(Type::SequenceOf { element, .. } | Type::SetOf { element, .. }) => {
            write_elements(lines, part, schema, *element, octets)
        }
        Some(ty @ (Type::Sequence { .. } | Type::Set { .. })) => {
            write_components(lines, part, &*schema, ty, octets)
        }
        Some(Type::Any { .. }) => write_open(lines, part, schema, id, octets),
        Some(
            Type::Leaf { .. }
            | Type::Enumerated { .. }
            | Type::Tagged { .. }
            | Type::Choice { .. }
            | Type::Unknown,
        )
        | None => write_whole(lines, part, schema, id, octets),
    }
}

/// Writes the lines of a value that is read whole.
fn write_whole<W: Write + Drop>(
    lines: &mut Lines<'_, W>,
    place: LinePlace<'_>,
    schema: &Schema,
    id: TypeId,
    octets: &[u8],
) -> Result<(), CallFault> {
    if let Some(value) = value_of(place, schema, id, octets)? {
        print(&mut lines.text, place, &schema.view(id, &value))?;
    }
    if lines.text.len() >= ENOUGH {
        lines.flush(place.alloc)?;
    }
    Ok(())
}

/// Returns the value of this type that octets encode.
fn value_of<'input>(
    place: LinePlace<'_>,
    schema: &Schema,
    id: TypeId,
    octets: &'input [u8],
) -> Result<Option<Value<'input>>, AllocError> {
    if_read(decode(place.alloc, place.rule, schema, id, octets))
}

/// Returns what is read, unless memory ran out.
fn if_read<T>(outcome: Result<T, DecodeError>) -> Result<Option<T>, AllocError> {
    match outcome {
        Ok(value) => Ok(Some(value)),
        Err(error) if error.is_out_of_memory() => Err(AllocError),
        Err(_) => Ok(None),
    }
}

/// Returns what is inside explicit tags and CHOICEs, and appends the names of the alternatives to the
/// title.
fn innermost<'input>(
    title: &mut String,
    place: LinePlace<'_>,
    schema: &Schema,
    id: TypeId,
    octets: &'input [u8],
) -> Result<(TypeId, &'input [u8]), AllocError> {
    let (mut inner, mut held) = (id, octets);
    for _ in octets {
        let Some(ty) = type_at(schema.types(), inner) else {
            break;
        };
        let Some((index, next)) = inside(place.alloc, schema, ty, held)? else {
            break;
        };
        if let (Some(name), true) = (part_name(ty, index), part_type(ty, 1).is_some()) {
            write!(title, ".{name}")?;
        }
        held = next;
        let Some(id) = part_type(ty, index) else {
            break;
        };
        inner = id;
    }
    Ok((inner, held))
}

/// Returns the index of what is in an explicit tag or of the alternative of a CHOICE, and its octets.
/// Returns `None` of other types.
fn inside<'input>(
    alloc: Global,
    schema: &Schema,
    ty: &Type,
    octets: &'input [u8],
) -> Result<Option<(usize, &'input [u8])>, AllocError> {
    let Some(entry) = if_read(entry_of(alloc, octets, 0, 0))? else {
        return Ok(None);
    };
    match ty {
        Type::Tagged { .. } => Ok(Some((0, Rest::of(&entry).next(alloc)))),
        Type::Choice { alternatives, .. } => {
            let types = schema.types();
            let index = alternative_for(types, types.len(), alternatives.as_slice(), entry.tag);
            Ok(index.map(|index| (index, octets)))
        }
        Type::Leaf { .. }
        | Type::Enumerated { .. }
        | Type::Any { .. }
        | Type::Sequence { .. }
        | Type::Set { .. }
        | Type::SequenceOf { .. }
        | Type::SetOf { .. }
        | Type::Unknown => Ok(None),
    }
}

/// Encodings in contents, from one of them on.
#[derive(Clone, Copy)]
struct Rest<'input> {
    octets: &'input [u8],
    /// Whether end-of-contents octets end them.
    is_indefinite: bool,
}

impl<'input> Rest<'input> {
    /// Returns the contents of an encoding.
    fn of(entry: &Entry<'input>) -> Rest<'input> {
        Rest {
            octets: entry.octets.get(entry.header_len..).unwrap_or(&[]),
            is_indefinite: entry.is_indefinite,
        }
    }

    /// Returns whether none is left.
    fn is_empty(&self) -> bool {
        self.octets.is_empty() || is_ended(self.octets, self.is_indefinite)
    }

    /// Goes on to the next one. Returns the one that is first.
    fn next(&mut self, alloc: Global) -> &'input [u8] {
        let (first, after) = first_encoding(alloc, self.octets);
        self.octets = after;
        first
    }
}

/// Writes the lines of the elements of a list.
#[cycle(write)]
fn write_elements<W: Write + Drop>(
    lines: &mut Lines<'_, W>,
    place: LinePlace<'_>,
    schema: &Schema,
    element: TypeId,
    octets: &[u8],
) -> Result<(), CallFault> {
    let alloc = place.alloc;
    let Some(entry) = if_read(entry_of(alloc, octets, 0, 0))? else {
        return Ok(());
    };
    print_title(&mut lines.text, place)?;
    let mut rest = Rest::of(&entry);
    // Each element has an octet of its own.
    for index in 0..octets.len() {
        if rest.is_empty() {
            break;
        }
        let title = format!(in alloc; "[{index}]")?;
        let part = LinePlace {
            depth: place.depth.saturating_add(1),
            title: title.as_str(),
            ..place
        };
        write(lines, part, schema, element, rest.next(alloc))?;
    }
    Ok(())
}

/// The components of a value.
#[derive(Drop)]
struct Found<'input> {
    /// The octets of each component that is there, in the order of the type.
    named: Vec<Option<&'input [u8]>>,
    /// The encodings that the type doesn't name.
    unknown: Vec<&'input [u8]>,
}

/// Returns the components of a value of a SEQUENCE or SET with these.
fn components_in<'input>(
    place: LinePlace<'_>,
    types: &[Type],
    ty: &Type,
    octets: &'input [u8],
) -> Result<Found<'input>, AllocError> {
    let (alloc, components) = (place.alloc, components_of(ty));
    let mut named = Vec::new(alloc);
    for _ in components {
        named.push(None)?;
    }
    let mut unknown = Vec::new(alloc);
    let mut next = 0;
    if let Some(entry) = if_read(entry_of(alloc, octets, 0, 0))? {
        let mut rest = Rest::of(&entry);
        for _ in octets {
            if rest.is_empty() {
                break;
            }
            let tag = tag_of(alloc, rest.octets)?;
            let octets = rest.next(alloc);
            match component_for(types, components, next, tag) {
                Some(index) => {
                    if let Some(place) = named.get_mut(index) {
                        *place = Some(octets);
                    }
                    if let Type::Sequence { .. } = ty {
                        next = index.saturating_add(1);
                    }
                }
                None => unknown.push(octets)?,
            }
        }
    }
    Ok(Found { named, unknown })
}

/// Returns the tag of the encoding with which octets begin.
fn tag_of(alloc: Global, octets: &[u8]) -> Result<Tag, AllocError> {
    match if_read(entry_of(alloc, octets, 0, 0))? {
        Some(entry) => Ok(entry.tag),
        None => Ok(Tag::EOC),
    }
}

/// Returns the index of the first component from the next on that may begin with a tag.
fn component_for(types: &[Type], components: &[Component], next: usize, tag: Tag) -> Option<usize> {
    for (index, component) in components.iter().enumerate().skip(next) {
        let id = component.type_id;
        if !is_unknown_at(types, id) && begins(types, types.len(), id, tag) {
            return Some(index);
        }
    }
    None
}

/// Writes the lines of the components of a value of a SEQUENCE or SET.
#[cycle(write)]
fn write_components<'place, W: Write + Drop>(
    lines: &mut Lines<'_, W>,
    place: LinePlace<'place>,
    schema: &'place Schema,
    ty: &'place Type,
    octets: &[u8],
) -> Result<(), CallFault> {
    let alloc = place.alloc;
    let found = components_in(place, schema.types(), ty, octets)?;
    let is_headed = write_heading(lines, place, schema, ty, &found)?;
    let hint = hint_in(place, schema, ty, &found)?;
    for (index, component) in components_of(ty).iter().enumerate() {
        if index == 0 && is_headed {
            continue;
        }
        let part = LinePlace {
            depth: place.depth.saturating_add(1),
            title: component.name.as_str(),
            hint,
            ..place
        };
        match (found.named.get(index), &component.presence) {
            (Some(Some(octets)), _) => write(lines, part, schema, component.type_id, octets)?,
            (_, Presence::Default(value)) => {
                let view = schema.view(component.type_id, value);
                print(&mut lines.text, part, &view)?;
            }
            (_, Presence::Required | Presence::Optional | Presence::Addition) => {}
        }
        if is_unknown_at(schema.types(), component.type_id) {
            for octets in &found.unknown {
                print_encoding(&mut lines.text, part, octets)?;
            }
        }
    }
    Ok(())
}

/// Returns the value of the component with this index, if it is there and isn't large.
fn small_value<'input>(
    place: LinePlace<'_>,
    schema: &Schema,
    ty: &Type,
    found: &Found<'input>,
    index: usize,
) -> Result<Option<Value<'input>>, AllocError> {
    match (part_type(ty, index), found.named.get(index)) {
        (Some(id), Some(Some(octets))) if octets.len() < LARGE => {
            value_of(place, schema, id, octets)
        }
        _ => Ok(None),
    }
}

/// Writes the line of the title of components. Returns whether the first of them, an identifier, is
/// in it.
fn write_heading<W: Write + Drop>(
    lines: &mut Lines<'_, W>,
    place: LinePlace<'_>,
    schema: &Schema,
    ty: &Type,
    found: &Found<'_>,
) -> Result<bool, AllocError> {
    if let Some(value) = small_value(place, schema, ty, found, 0)? {
        if let Value::Arcs(_) = &value {
            print_heading(&mut lines.text, place, false, slice::from_ref(&value))?;
            return Ok(true);
        }
    }
    print_title(&mut lines.text, place)?;
    Ok(false)
}

/// Returns the name of the identifier that says what the open types among components are.
fn hint_in(
    place: LinePlace<'_>,
    schema: &Schema,
    ty: &Type,
    found: &Found<'_>,
) -> Result<Option<&'static str>, AllocError> {
    for (index, _) in found.named.iter().enumerate() {
        if let Some(value) = small_value(place, schema, ty, found, index)? {
            if identifier_in(&value).is_some() {
                return Ok(hint_of(slice::from_ref(&value)));
            }
        }
    }
    Ok(None)
}

/// Writes the lines of an open type: those of a value of its type, if the identifier beside it says
/// that.
#[cycle(write)]
fn write_open<W: Write + Drop>(
    lines: &mut Lines<'_, W>,
    place: LinePlace<'_>,
    schema: &Schema,
    id: TypeId,
    octets: &[u8],
) -> Result<(), CallFault> {
    let (alloc, known) = (place.alloc, place.known);
    if place.levels > MESSAGE_LEVELS {
        if let Some(inner) = known.find(Form::Open, place.hint.unwrap_or("")) {
            if if_read(check(alloc, place.rule, &known.schema, inner, octets))?.is_some() {
                let part = LinePlace {
                    hint: None,
                    ..place
                };
                return write(lines, part, &known.schema, inner, octets);
            }
        }
    }
    write_whole(lines, place, schema, id, octets)
}
