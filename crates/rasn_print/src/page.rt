//! Messages as a page of HTML: their parts with their places, of which a script makes a tree beside
//! the octets.

pub(crate) mod list;

use crate::dump::tag_text;
use crate::leaf::names_of;
use crate::page_text::{POLICY, SCRIPT, STYLE};
use crate::reason::Reason;
use crate::similar::part_names;
use json::Writer;
use list::Listed;
use rasn_schema::{NamedNumber, Type};
use rasn_text::{Escaping, visible};
use rasn_types::types::Hexadecimal;
use std::alloc::{AllocError, Global};

/// Whether there was memory for what is written.
type Put = Result<(), AllocError>;

/// Returns the beginning of a page, which the blocks of messages follow.
///
/// # Errors
/// `AllocError` if memory runs out.
pub(crate) fn page_head(alloc: Global) -> Result<String, AllocError> {
    format!(in alloc;
        "<!DOCTYPE html>\n<html lang=\"en\">\n<meta charset=\"utf-8\">\n<meta http-equiv=\"Content-Security-Policy\" content=\"{POLICY}\">\n<meta name=\"viewport\" content=\"width=device-width\">\n<title>soqavise</title>\n<style>{STYLE}</style>\n<script>{SCRIPT}</script>\n"
    )
}

/// Returns the block of a message with this name: its data as JSON, in which nothing ends a script.
///
/// # Errors
/// `AllocError` if memory runs out.
pub(crate) fn page_block(alloc: Global, name: &str, data: &[u8]) -> Result<Vec<u8>, AllocError> {
    let mut out = Writer::new(Vec::new(alloc));
    out.string(name)?;
    let name = script_text(alloc, out.into_inner())?;
    let mut block = Vec::from_slice(alloc, b"<script type=\"application/json\">[")?;
    block.extend_from_slice(name.as_bytes())?;
    block.push(b',')?;
    block.extend_from_slice(data)?;
    block.extend_from_slice(b"]</script>\n")?;
    Ok(block)
}

/// Returns the data of octets for a page: of a message the name of its type and its parts, with what
/// departs from DER, and of others why they are refused, as the only reason. These have no parts:
/// the script shows their encodings as far as it finds any.
///
/// # Errors
/// `AllocError` if memory runs out.
pub(crate) fn page_data(
    alloc: Global,
    octets: &[u8],
    name: &str,
    listed: Option<&Listed<'_>>,
    reasons: &[Reason],
) -> Result<Vec<u8>, AllocError> {
    let mut out = Writer::new(Vec::new(alloc));
    out.begin_object()?;
    out.key("type")?;
    out.string(name)?;
    out.key("refused")?;
    out.begin_array()?;
    if let (None, Some(reason)) = (listed, reasons.first()) {
        out.string(reason.to_line(alloc)?.as_str())?;
    }
    out.end_array()?;
    out.key("octets")?;
    out.string(Hexadecimal::new(octets).to_string(alloc)?.as_str())?;
    put_parts(&mut out, alloc, listed)?;
    put_faults(&mut out, listed, reasons)?;
    out.end_object()?;
    Ok(script_text(alloc, out.into_inner())?.into_bytes())
}

/// Returns JSON in which no character is hidden and nothing is like a tag of HTML.
fn script_text(alloc: Global, json: Vec<u8>) -> Result<String, AllocError> {
    let text = String::from_utf8(json).unwrap_or(String::new(alloc));
    let text = visible(alloc, Escaping::Json, text.as_str())?;
    text.as_str().replace(alloc, "<", "\\u003c")
}

/// Writes the parts of a message, with their types, and the names of identifiers.
fn put_parts(out: &mut Writer, alloc: Global, listed: Option<&Listed<'_>>) -> Put {
    out.key("parts")?;
    out.begin_array()?;
    for number in listed.map(|it| it.numbers.as_slice()).unwrap_or(&[]) {
        out.i64(*number)?;
    }
    out.end_array()?;
    out.key("types")?;
    out.begin_object()?;
    if let Some(listed) = listed {
        put_types(out, alloc, listed)?;
    }
    out.end_object()?;
    out.key("identifiers")?;
    out.begin_object()?;
    for (arcs, name) in listed.map(|it| it.identifiers.as_slice()).unwrap_or(&[]) {
        out.key(arcs.as_str())?;
        out.string(name)?;
    }
    out.end_object()
}

/// Writes what is wrong at which octet.
fn put_faults(out: &mut Writer, listed: Option<&Listed<'_>>, reasons: &[Reason]) -> Put {
    out.key("faults")?;
    out.begin_array()?;
    for (offset, text) in listed.map(|it| it.faults.as_slice()).unwrap_or(&[]) {
        put_fault(out, *offset, text.as_str())?;
    }
    for reason in reasons {
        if let Some(offset) = reason.byte {
            put_fault(out, offset, reason.text.as_str())?;
        }
    }
    out.end_array()
}

/// Writes what is wrong at an octet.
fn put_fault(out: &mut Writer, offset: usize, text: &str) -> Put {
    out.begin_array()?;
    out.u64(offset as u64)?;
    out.string(text)?;
    out.end_array()
}

/// Writes the types that parts are of, by their numbers.
fn put_types(out: &mut Writer, alloc: Global, listed: &Listed<'_>) -> Put {
    let types = listed.known.schema.types();
    for (index, (ty, is_used)) in types.iter().zip(listed.types.as_slice()).enumerate() {
        if *is_used {
            out.key(index.to_string(alloc)?.as_str())?;
            put_type(out, alloc, ty)?;
        }
    }
    Ok(())
}

/// Writes a type: what it is called, and the names of its parts or numbers.
fn put_type(out: &mut Writer, alloc: Global, ty: &Type) -> Put {
    out.begin_object()?;
    out.key("kind")?;
    out.string(kind_text(alloc, ty)?.as_str())?;
    match ty {
        Type::Leaf { .. } | Type::Enumerated { .. } => put_names(out, alloc, names_of(Some(ty)))?,
        Type::Sequence { .. } | Type::Set { .. } | Type::Choice { .. } => {
            put_part_names(out, alloc, ty)?;
        }
        Type::Tagged { .. } => {
            out.key("parts")?;
            out.begin_array()?;
            out.string("value")?;
            out.end_array()?;
        }
        Type::SequenceOf { .. } | Type::SetOf { .. } | Type::Any { .. } | Type::Unknown => {}
    }
    out.end_object()
}

/// Writes the names of numbers or bits, if there are any.
fn put_names(out: &mut Writer, alloc: Global, names: &[NamedNumber]) -> Put {
    if names.is_empty() {
        return Ok(());
    }
    out.key("names")?;
    out.begin_object()?;
    for named in names {
        out.key(named.number.to_string(alloc)?.as_str())?;
        out.string(named.name.as_str())?;
    }
    out.end_object()
}

/// Writes the names of components or alternatives.
fn put_part_names(out: &mut Writer, alloc: Global, ty: &Type) -> Put {
    out.key("parts")?;
    out.begin_array()?;
    for name in part_names(alloc, ty)? {
        out.string(name)?;
    }
    out.end_array()
}

/// Returns what a type is called.
fn kind_text(alloc: Global, ty: &Type) -> Result<String, AllocError> {
    let text = match ty {
        Type::Leaf { kind, .. } => kind.names().notation,
        Type::Enumerated { .. } => "ENUMERATED",
        Type::Any { .. } => "ANY",
        Type::Choice { .. } => "CHOICE",
        Type::Sequence { .. } => "SEQUENCE",
        Type::Set { .. } => "SET",
        Type::SequenceOf { .. } => "SEQUENCE OF",
        Type::SetOf { .. } => "SET OF",
        Type::Unknown => "unknown",
        Type::Tagged { tag, .. } => return tag_text(alloc, *tag),
    };
    String::from_str(alloc, text)
}
