//! Rows of messages: a type of a module, the rules, and octets or JSON.

use crate::json::{again, encoded, printed};
use crate::octets::octets_of;
use rasn_compiler::{Modules, Resolved};
use rasn_dynamic::{decode_or_locate, encode};
use rasn_json::Layout;
use rasn_schema::Value;
use rasn_types::types::{Codec, Hexadecimal};
use std::alloc::{AllocError, Global};

/// A message.
#[derive(Drop)]
pub struct Row<'line> {
    pub module: &'line str,
    /// The name of the type.
    pub name: &'line str,
    pub rules: Codec,
    /// Octets in hexadecimal, or JSON.
    pub text: &'line str,
}

/// Returns the row of a text `MODULE.TYPE RULES TEXT`.
fn row_of(text: &str) -> Option<Row<'_>> {
    let (name, rest) = text.split_once(' ')?;
    let (rules, text) = rest.split_once(' ')?;
    let (module, name) = name.split_once('.')?;
    Some(Row {
        module,
        name,
        rules: rules_of(rules)?,
        text,
    })
}

/// Returns the rules of this name.
fn rules_of(name: &str) -> Option<Codec> {
    match name {
        "ber" => Some(Codec::Ber),
        "cer" => Some(Codec::Cer),
        "der" => Some(Codec::Der),
        _ => None,
    }
}

/// Returns the result of a row with this verb.
pub fn answer_of(
    alloc: Global,
    read: &Modules<'_>,
    verb: &str,
    text: &str,
) -> Result<String, AllocError> {
    match row_of(text) {
        Some(row) => row_answer(alloc, read, verb, &row),
        None => String::from_str(alloc, "is no row"),
    }
}

/// Returns the result of a row by the schema of its type.
fn row_answer(
    alloc: Global,
    read: &Modules<'_>,
    verb: &str,
    row: &Row<'_>,
) -> Result<String, AllocError> {
    match read.schema(alloc, row.module, row.name) {
        Ok(resolved) => answer_by(alloc, &resolved, verb, row),
        Err(stop) => format!(in alloc; "has no schema: {stop}"),
    }
}

/// Returns the result of a row by a schema.
fn answer_by(
    alloc: Global,
    resolved: &Resolved,
    verb: &str,
    row: &Row<'_>,
) -> Result<String, AllocError> {
    match verb {
        "read" => read_message(alloc, resolved, row),
        "encode" => encoded(alloc, resolved, row),
        "json" => printed(alloc, resolved, row, Layout::Compact),
        "indented" => printed(alloc, resolved, row, Layout::Indented),
        "again" => again(alloc, resolved, row),
        _ => String::from_str(alloc, "is of no verb"),
    }
}

/// Returns the DER octets of the message and how many octets follow it, or where it is refused and
/// why.
fn read_message(alloc: Global, resolved: &Resolved, row: &Row<'_>) -> Result<String, AllocError> {
    match octets_of(alloc, row.text)? {
        Some(octets) => read_octets(alloc, resolved, row.rules, &octets),
        None => String::from_str(alloc, "has no octets"),
    }
}

/// Returns the same of octets.
fn read_octets(
    alloc: Global,
    resolved: &Resolved,
    rules: Codec,
    octets: &[u8],
) -> Result<String, AllocError> {
    match decode_or_locate(alloc, rules, &resolved.schema, resolved.root, octets) {
        Ok((value, rest)) => written(alloc, resolved, &value, rest.len()),
        Err(refusal) => {
            let shown = refusal.with_names(&resolved.schema, resolved.root);
            format!(in alloc; "! {shown}")
        }
    }
}

/// Returns the DER octets of a message as text, and the number of octets that follow it, if some
/// do.
fn written(
    alloc: Global,
    resolved: &Resolved,
    value: &Value<'_>,
    more: usize,
) -> Result<String, AllocError> {
    match encode(alloc, Codec::Der, &resolved.schema, resolved.root, value) {
        Ok(octets) => {
            let shown = Hexadecimal::new(&octets);
            if more == 0 {
                return format!(in alloc; "= {shown}");
            }
            format!(in alloc; "= {shown}, {more} more")
        }
        Err(error) => format!(in alloc; "= no DER octets: {error}"),
    }
}
