//! Values as JSON that says what `show` says: names, times and identifiers as text, and what
//! extensions, keys and open types hold by its type.

use super::{Held, LinePlace, held_by, hint_of, inside, parts_of, short_text};
use crate::exact::is_exact;
use crate::known::{Form, Known};
use crate::leaf::{
    bit_text, is_named_bits, leaf_text, meaning_text, name_of, names_of, number_text, string_text,
};
use crate::types::MessageType;
use json::{Pretty, Reader, Scratch, Token, Writer};
use rasn_json::Layout;
use rasn_schema::{
    LeafKind, Schema, Type, Value, View, is_unknown_at, part_name, part_type, type_at,
};
use rasn_types::types::{BitStr, Hexadecimal, Integer};
use std::alloc::{AllocError, Global};

/// Whether there was memory for what is written.
type Put = Result<(), AllocError>;

/// Returns a value of this type as JSON.
///
/// # Errors
/// `AllocError` if memory runs out.
pub(crate) fn object_text(
    alloc: Global,
    known: &Known<'_>,
    wanted: &MessageType<'_>,
    value: &Value<'_>,
    layout: Layout,
) -> Result<String, AllocError> {
    let place = LinePlace::of(alloc, known, wanted.rule, wanted.name);
    let mut out = Writer::new(Vec::new(alloc));
    put(&mut out, place, &wanted.schema.view(wanted.root, value))?;
    laid_out(alloc, written(alloc, out.into_inner()), layout)
}

/// Returns JSON as it is laid out, of which this is the text without spaces.
///
/// # Errors
/// `AllocError` if memory runs out.
pub(crate) fn laid_out(alloc: Global, text: String, layout: Layout) -> Result<String, AllocError> {
    match layout {
        Layout::Compact => Ok(text),
        Layout::Indented => indented(alloc, text.as_str()),
    }
}

/// Returns JSON as text.
fn written(alloc: Global, octets: Vec<u8>) -> String {
    String::from_utf8(octets).unwrap_or(String::new(alloc))
}

/// Returns JSON with line breaks.
fn indented(alloc: Global, text: &str) -> Result<String, AllocError> {
    let mut scratch = Scratch::new(alloc);
    let mut reader = Reader::new(text, &mut scratch)?;
    let mut out = Pretty::new(alloc);
    // Each token has an octet of its own.
    for _ in 0..text.len() {
        match reader.next() {
            Some(Token::Bad) | None => break,
            Some(token) => out.token(token)?,
        }
    }
    Ok(written(alloc, out.into_inner()))
}

/// Writes a value. A CHOICE is an object with its alternative, unless it has a single one.
#[cycle(put)]
fn put(out: &mut Writer, place: LinePlace<'_>, view: &View<'_, '_>) -> Put {
    if place.levels == 0 {
        return out.string("..");
    }
    let place = LinePlace {
        levels: place.levels - 1,
        ..place
    };
    let mut title = String::from_str(place.alloc, place.title)?;
    let mut inner = view.schema.view(view.type_id, view.value);
    let mut objects = 0usize;
    for _ in 0..usize::MAX {
        if let Some(shown) = short_text(place, title.as_str(), &inner)? {
            out.string(shown.as_str())?;
            return end_objects(out, objects);
        }
        let Some((name, next)) = inside(&inner) else {
            break;
        };
        if !name.is_empty() {
            out.begin_object()?;
            out.key(name)?;
            title = String::from_str(place.alloc, name)?;
            objects = objects.saturating_add(1);
        }
        inner = next;
    }
    put_by(out, place, &inner)?;
    end_objects(out, objects)
}

/// Ends so many objects.
fn end_objects(out: &mut Writer, count: usize) -> Put {
    for _ in 0..count {
        out.end_object()?;
    }
    Ok(())
}

/// Writes a value that is in no CHOICE and no explicit tag any more.
#[cycle(put)]
fn put_by(out: &mut Writer, place: LinePlace<'_>, view: &View<'_, '_>) -> Put {
    let value = view.value;
    let Some(ty) = type_at(view.schema.types(), view.type_id) else {
        return out.null();
    };
    match ty {
        Type::Any { .. } => put_octets(out, place, value, Form::Open),
        Type::Unknown => put_additions(out, place.alloc, value),
        Type::Leaf { kind, .. } if *kind == LeafKind::OctetString => {
            put_octets(out, place, value, Form::Octets)
        }
        Type::Leaf { kind, .. } if *kind == LeafKind::BitString => {
            put_octets(out, place, value, Form::Bits)
        }
        Type::Leaf { .. } | Type::Enumerated { .. } => { put_leaf(out, place, Some(ty), value) }
        Type::Sequence { .. } | Type::Set { .. } => {
            put_components(out, place, view.schema, ty, parts_of(value))
        }
        Type::SequenceOf { .. } | Type::SetOf { .. } => {
            put_elements(out, place, view.schema, ty, parts_of(value))
        }
        // What is in these is written in their place.
        Type::Tagged { .. } | Type::Choice { .. } => out.null(),
    }
}

/// Writes an object of the components that are present.
#[cycle(put)]
fn put_components<'view>(
    out: &mut Writer,
    place: LinePlace<'_>,
    schema: &'view Schema,
    ty: &Type,
    values: &'view [Value<'_>],
) -> Put {
    let hint = hint_of(values);
    out.begin_object()?;
    for (index, value) in values.iter().enumerate() {
        let (Some(id), Some(title)) = (part_type(ty, index), part_name(ty, index)) else {
            break;
        };
        let is_unknown = is_unknown_at(schema.types(), id);
        if matches!(value, Value::Absent) || is_unknown && parts_of(value).is_empty() {
            continue;
        }
        out.key(title)?;
        let part = LinePlace {
            title,
            hint,
            ..place
        };
        put(out, part, &schema.view(id, value))?;
    }
    out.end_object()
}

/// Writes an array of the elements.
#[cycle(put)]
fn put_elements<'view>(
    out: &mut Writer,
    place: LinePlace<'_>,
    schema: &'view Schema,
    ty: &Type,
    values: &'view [Value<'_>],
) -> Put {
    out.begin_array()?;
    for (index, value) in values.iter().enumerate() {
        let Some(id) = part_type(ty, index) else {
            break;
        };
        let part = LinePlace { title: "", ..place };
        put(out, part, &schema.view(id, value))?;
    }
    out.end_array()
}

/// Writes octets: as the value whose encoding they are, if the identifier beside them says its type.
#[cycle(put)]
fn put_octets(out: &mut Writer, place: LinePlace<'_>, value: &Value<'_>, form: Form) -> Put {
    if let Value::Bits(bits) = value {
        let mut octets = Vec::new(place.alloc);
        bits.as_bitstr().append_to(&mut octets)?;
        return put_held(out, place, value, form, &octets);
    }
    let Value::Octets(held) = value else {
        return out.null();
    };
    put_held(out, place, value, form, held.as_slice())
}

/// Writes a value that holds these octets.
#[cycle(put)]
fn put_held(
    out: &mut Writer,
    place: LinePlace<'_>,
    value: &Value<'_>,
    form: Form,
    octets: &[u8],
) -> Put {
    match held_by(place, form, octets)? {
        Held::Unknown => put_closed(out, place, value, form, octets),
        Held::Value(id, held) => {
            let inner = LinePlace {
                hint: None,
                ..place
            };
            put(out, inner, &place.known.schema.view(id, &held))
        }
        Held::Refused(cause) => {
            out.begin_object()?;
            out.key("octets")?;
            put_digits(out, place.alloc, octets)?;
            out.key("error")?;
            out.string(cause.as_str())?;
            out.end_object()
        }
    }
}

/// Writes octets of a type that isn't known: in hexadecimal, or as the value of a universal type that
/// the octets of an open type are.
fn put_closed(
    out: &mut Writer,
    place: LinePlace<'_>,
    value: &Value<'_>,
    form: Form,
    octets: &[u8],
) -> Put {
    let (alloc, known) = (place.alloc, place.known);
    if form == Form::Bits {
        return out.string(leaf_text(alloc, known, None, value, false)?.as_str());
    }
    if form == Form::Open {
        if let (Some(id), Some(value)) = (known.universal, known.universal_value(alloc, octets)?) {
            if let Some((_, inner)) = inside(&known.schema.view(id, &value)) {
                return put_leaf(
                    out,
                    place,
                    type_at(known.schema.types(), inner.type_id),
                    inner.value,
                );
            }
        }
    }
    put_digits(out, alloc, octets)
}

/// Writes an array of unknown values, each of which is an encoding.
fn put_additions(out: &mut Writer, alloc: Global, value: &Value<'_>) -> Put {
    out.begin_array()?;
    for value in parts_of(value) {
        if let Value::Octets(octets) = value {
            put_digits(out, alloc, octets.as_slice())?;
        }
    }
    out.end_array()
}

/// Writes octets in hexadecimal.
fn put_digits(out: &mut Writer, alloc: Global, octets: &[u8]) -> Put {
    out.string(Hexadecimal::new(octets).to_string(alloc)?.as_str())
}

/// Writes a value that holds no others: a truth value, null, a number or text; bits that have names as
/// an array of those that are 1.
fn put_leaf(out: &mut Writer, place: LinePlace<'_>, ty: Option<&Type>, value: &Value<'_>) -> Put {
    let (alloc, known) = (place.alloc, place.known);
    match value {
        Value::Boolean(truth) => out.boolean(*truth),
        Value::Null | Value::Absent => out.null(),
        Value::Integer(number) => put_number(out, alloc, ty, number),
        Value::Bits(bits) if is_named_bits(ty) => put_bits(out, alloc, ty, &bits.as_bitstr()),
        Value::Octets(octets) => match meaning_text(alloc, ty, octets.as_slice())? {
            Some(text) => out.string(text.as_str()),
            None => put_characters(out, alloc, ty, value, octets.as_slice()),
        },
        Value::Text(_) | Value::Units(_) => match string_text(alloc, ty, value)? {
            Some(text) => out.string(text.as_str()),
            None => out.string(leaf_text(alloc, known, ty, value, false)?.as_str()),
        },
        Value::Bits(_)
        | Value::Arcs(_)
        | Value::Instant(_)
        | Value::Day(_)
        | Value::Items(_)
        | Value::Elements(_)
        | Value::Chosen(_, _) => out.string(leaf_text(alloc, known, ty, value, false)?.as_str()),
    }
}

/// Writes the characters of a string, or octets in hexadecimal.
fn put_characters(
    out: &mut Writer,
    alloc: Global,
    ty: Option<&Type>,
    value: &Value<'_>,
    octets: &[u8],
) -> Put {
    match string_text(alloc, ty, value)? {
        Some(text) => out.string(text.as_str()),
        None => put_digits(out, alloc, octets),
    }
}

/// Writes a number, or the text of one that has a name or that a double hasn't: digits, of more than
/// 128 bits hexadecimal ones.
fn put_number(out: &mut Writer, alloc: Global, ty: Option<&Type>, number: &Integer) -> Put {
    let names = names_of(ty);
    let text = match number.to_i128() {
        Some(small) if name_of(names, small).is_none() => match i64::try_from(small) {
            Ok(exact) if is_exact(exact) => return out.i64(exact),
            _ => small.to_string(alloc)?,
        },
        _ => number_text(alloc, names, number, false)?,
    };
    out.string(text.as_str())
}

/// Writes the names of the bits that are 1.
fn put_bits(out: &mut Writer, alloc: Global, ty: Option<&Type>, bits: &BitStr<'_>) -> Put {
    out.begin_array()?;
    for (place, bit) in bits.iter().enumerate() {
        if bit {
            out.string(bit_text(alloc, names_of(ty), place)?.as_str())?;
        }
    }
    out.end_array()
}
