//! Distinguished names as text (RFC 4514, in the order of their octets).

use crate::identifiers::attribute_name;
use crate::known::Known;
use crate::leaf::string_text;
use rasn_schema::Value;
use rasn_text::push_escaped;
use rasn_types::types::{Hexadecimal, ObjectIdentifier};
use std::alloc::{AllocError, Global};
use std::{slice, str};

/// Returns the attributes of a name in their order, `C=DE, O=Example, CN=example.org`. Those of one
/// relative distinguished name, as which any value but `Items` is taken, are separated by `+`.
/// Returns `None` if the value has another form.
pub(crate) fn name_text(
    alloc: Global,
    known: &Known<'_>,
    value: &Value<'_>,
) -> Result<Option<String>, AllocError> {
    let relatives = match value {
        Value::Items(relatives) => relatives.as_slice(),
        relative => slice::from_ref(relative),
    };
    let mut text = String::new(alloc);
    for relative in relatives {
        if !push_relative(&mut text, alloc, known, relative)? {
            return Ok(None);
        }
    }
    Ok(Some(text))
}

/// Appends the attributes of a relative distinguished name, and returns whether the value is one.
fn push_relative(
    text: &mut String,
    alloc: Global,
    known: &Known<'_>,
    relative: &Value<'_>,
) -> Result<bool, AllocError> {
    let Value::Elements(attributes) = relative else {
        return Ok(false);
    };
    let mut mark = if text.is_empty() { "" } else { ", " };
    for attribute in attributes {
        let Some((kind, value)) = attribute_of(attribute) else {
            return Ok(false);
        };
        text.push_str(mark)?;
        push_attribute(text, alloc, known, kind, value)?;
        mark = " + ";
    }
    Ok(true)
}

/// Returns the type and the value of an attribute; `None` if the value has another form.
fn attribute_of<'value>(
    attribute: &'value Value<'_>,
) -> Option<(&'value ObjectIdentifier, &'value [u8])> {
    let Value::Items(parts) = attribute else {
        return None;
    };
    let (Value::Arcs(kind), Value::Octets(octets)) = (parts.first()?, parts.get(1)?) else {
        return None;
    };
    Some((kind, octets.as_slice()))
}

/// Appends the type of an attribute, by its short name if it has one, and the characters of its
/// value, or its octets in hexadecimal after `#` if it is no string (RFC 4514 2.3, 2.4).
fn push_attribute(
    text: &mut String,
    alloc: Global,
    known: &Known<'_>,
    kind: &ObjectIdentifier,
    value: &[u8],
) -> Result<(), AllocError> {
    match attribute_name(known, kind) {
        Some(name) => write!(text, "{name}=")?,
        None => write!(text, "{kind}=")?,
    }
    match string_of(alloc, known, value)? {
        Some(value) => push_escaped(text, value.as_str()),
        None => {
            let shown = Hexadecimal::new(value);
            write!(text, "#{shown}")
        }
    }
}

/// Returns the characters of an encoding of a string type whose characters are known: UTF8String,
/// NumericString, PrintableString, TeletexString, IA5String, VisibleString, UniversalString or
/// BMPString. Returns `None` for other encodings, of a string with control characters that aren't
/// ASCII, and of a TeletexString that isn't ASCII, since few programs use the other octets as T.61
/// defines them.
fn string_of(
    alloc: Global,
    known: &Known<'_>,
    octets: &[u8],
) -> Result<Option<String>, AllocError> {
    let Some(0x0C | 0x12 | 0x13 | 0x14 | 0x16 | 0x1A | 0x1C | 0x1E) = octets.first() else {
        return Ok(None);
    };
    let found = known.universal_value(alloc, octets)?;
    let Some(Value::Chosen(_, value)) = &found else {
        return Ok(None);
    };
    let text = match &**value {
        Value::Octets(octets) if octets.as_slice().is_ascii() => {
            Some(String::from_str(alloc, str::from_utf8(octets.as_slice()).unwrap_or(""))?)
        }
        value => string_text(alloc, None, value)?,
    };
    Ok(text.filter(|text| !text.chars().any(|it| matches!(it, '\u{80}'..='\u{9F}'))))
}
