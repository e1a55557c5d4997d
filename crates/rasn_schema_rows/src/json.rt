//! Messages as JSON.

use crate::messages::Row;
use crate::octets::octets_of;
use rasn_compiler::Resolved;
use rasn_dynamic::{decode, encode};
use rasn_json::{Layout, from_json, json, to_json};
use rasn_schema::Value;
use rasn_types::types::{Codec, Hexadecimal};
use std::alloc::{AllocError, Global};

/// Returns the octets of JSON.
pub fn encoded(alloc: Global, resolved: &Resolved, row: &Row<'_>) -> Result<String, AllocError> {
    match rasn_json::encode(alloc, row.rules, &resolved.schema, resolved.root, row.text) {
        Ok(octets) => {
            let shown = Hexadecimal::new(&octets);
            format!(in alloc; "= {shown}")
        }
        Err(error) => format!(in alloc; "! {error}"),
    }
}

/// Returns the JSON of octets.
pub fn printed(
    alloc: Global,
    resolved: &Resolved,
    row: &Row<'_>,
    layout: Layout,
) -> Result<String, AllocError> {
    match octets_of(alloc, row.text)? {
        Some(octets) => json_of(alloc, resolved, row.rules, &octets, layout),
        None => String::from_str(alloc, "has no octets"),
    }
}

/// Returns the JSON of octets under these rules.
fn json_of(
    alloc: Global,
    resolved: &Resolved,
    rules: Codec,
    octets: &[u8],
    layout: Layout,
) -> Result<String, AllocError> {
    match json(
        alloc,
        rules,
        &resolved.schema,
        resolved.root,
        octets,
        layout,
    ) {
        Ok(text) => format!(in alloc; "= {text}"),
        Err(error) => format!(in alloc; "! {error}"),
    }
}

/// Returns whether the JSON of octets is the JSON of their value: it is read as a value with the
/// same DER octets, in both layouts.
pub fn again(alloc: Global, resolved: &Resolved, row: &Row<'_>) -> Result<String, AllocError> {
    match octets_of(alloc, row.text)? {
        Some(octets) => value_again(alloc, resolved, row.rules, &octets),
        None => String::from_str(alloc, "has no octets"),
    }
}

/// Returns whether the value that the octets encode under these rules is read from its JSON again.
fn value_again(
    alloc: Global,
    resolved: &Resolved,
    rules: Codec,
    octets: &[u8],
) -> Result<String, AllocError> {
    match decode(alloc, rules, &resolved.schema, resolved.root, octets) {
        Ok(value) => compared(alloc, resolved, &value),
        Err(error) => format!(in alloc; "! {error}"),
    }
}

/// Returns whether a value is read from its JSON again, in both layouts.
fn compared(alloc: Global, resolved: &Resolved, value: &Value<'_>) -> Result<String, AllocError> {
    let answer = read_again(alloc, resolved, value, Layout::Indented)?;
    if answer.as_str().starts_with('=') {
        return read_again(alloc, resolved, value, Layout::Compact);
    }
    Ok(answer)
}

/// Returns the number of octets of a value's JSON if it is read as the value, and otherwise why it
/// isn't.
fn read_again(
    alloc: Global,
    resolved: &Resolved,
    value: &Value<'_>,
    layout: Layout,
) -> Result<String, AllocError> {
    match to_json(alloc, &resolved.schema, resolved.root, value, layout) {
        Ok(text) => text_again(alloc, resolved, value, text.as_str()),
        Err(error) => format!(in alloc; "has no JSON: {error}"),
    }
}

/// Returns the number of octets of JSON if it is read as the value, and otherwise why it isn't.
fn text_again(
    alloc: Global,
    resolved: &Resolved,
    value: &Value<'_>,
    text: &str,
) -> Result<String, AllocError> {
    match from_json(alloc, &resolved.schema, resolved.root, text) {
        Ok(read) => same_text(alloc, is_same(alloc, resolved, &read, value), text.len()),
        Err(error) => format!(in alloc; "isn't read: {error}"),
    }
}

/// Returns the number of octets of JSON that is read as the same value, or that it is another.
fn same_text(alloc: Global, is_same: bool, len: usize) -> Result<String, AllocError> {
    if is_same {
        return format!(in alloc; "= {len} octets");
    }
    String::from_str(alloc, "is another value")
}

/// Returns whether two values mean the same and have the same DER octets, or none.
fn is_same(alloc: Global, resolved: &Resolved, value: &Value<'_>, other: &Value<'_>) -> bool {
    if !value.means_same(other) {
        return false;
    }
    match encode(alloc, Codec::Der, &resolved.schema, resolved.root, value) {
        Ok(octets) => is_written_as(alloc, resolved, other, Some(&octets)),
        Err(_) => is_written_as(alloc, resolved, other, None),
    }
}

/// Returns whether a value has these DER octets, or none.
fn is_written_as(
    alloc: Global,
    resolved: &Resolved,
    value: &Value<'_>,
    octets: Option<&[u8]>,
) -> bool {
    match encode(alloc, Codec::Der, &resolved.schema, resolved.root, value) {
        Ok(found) => octets.is_some_and(|octets| found.as_slice() == octets),
        Err(_) => octets.is_none(),
    }
}
