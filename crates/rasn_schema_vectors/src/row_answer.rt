//! The results of rows: a row with its result.

use crate::line_types::{LINE_TYPES, type_id};
use crate::row::{Row, Verb};
use crate::row_types::{ROW_TYPES, TRIED_TYPES};
use rasn_bench::ValueType;
use rasn_dynamic::{check, decode, encode, is_canonical, normalise};
use rasn_schema::constants::{StaticType, types_of};
use rasn_schema::{Schema, TypeId, Value};
use rasn_schema_bench::{CERTIFICATE, CERTIFICATE_TYPES, FILTER, FILTER_TYPES};
use rasn_types::types::Hexadecimal;
use std::alloc::{AllocError, Global};

/// Returns the row with its answer, a comment as it is, or nothing if the line is neither.
pub fn text_of_row(alloc: Global, line: &str) -> Result<Option<String>, AllocError> {
    if line.starts_with('#') {
        return Ok(Some(String::from_str(alloc, line)?));
    }
    let answer = match line.strip_prefix("schema ") {
        Some(name) => fault_of(alloc, name)?,
        None => match Row::of_line(alloc, line)? {
            Some(row) => answer_of(alloc, &row)?,
            None => return Ok(None),
        },
    };
    Ok(Some(format!(in alloc; "{line} {answer}")?))
}

/// Returns why the types of this name aren't a schema, or that they are one.
fn fault_of(alloc: Global, name: &str) -> Result<String, AllocError> {
    for (own, definitions) in TRIED_TYPES {
        if *own == name {
            return match Schema::new(types_of(alloc, definitions)?) {
                Ok(_) => String::from_str(alloc, "= a schema"),
                Err(error) => format!(in alloc; "! {error}"),
            };
        }
    }
    String::from_str(alloc, "is of no types that are known")
}

/// Returns the types that a row may name, and the number of the one with this name.
fn types_named(name: &str) -> Option<(&'static [StaticType], TypeId)> {
    match name {
        "certificate" => Some((CERTIFICATE_TYPES, CERTIFICATE)),
        "filter" => Some((FILTER_TYPES, FILTER)),
        "time" => Some((LINE_TYPES, TypeId(18))),
        "named-flags" => Some((ROW_TYPES, TypeId(5))),
        "other-names" => Some((ROW_TYPES, TypeId(10))),
        "each-kind" => Some((ROW_TYPES, TypeId(19))),
        "answer" => Some((ROW_TYPES, TypeId(21))),
        "set2" => Some((ROW_TYPES, TypeId(22))),
        "pair2" => Some((ROW_TYPES, TypeId(23))),
        "bounds" => Some((ROW_TYPES, TypeId(26))),
        "any-bits" => Some((ROW_TYPES, TypeId(14))),
        "usage" => Some((ROW_TYPES, TypeId(27))),
        "operation" => Some((ROW_TYPES, TypeId(28))),
        "extensible" => Some((ROW_TYPES, TypeId(30))),
        "with-flags" => Some((ROW_TYPES, TypeId(32))),
        "reply" => Some((ROW_TYPES, TypeId(34))),
        "open-set" => Some((ROW_TYPES, TypeId(35))),
        "mixed" => Some((ROW_TYPES, TypeId(36))),
        _ => Some((LINE_TYPES, type_id(ValueType::of_name(name)?))),
    }
}

/// Returns the answer to a row.
fn answer_of(alloc: Global, row: &Row<'_>) -> Result<String, AllocError> {
    let Some((definitions, id)) = types_named(row.name) else {
        return String::from_str(alloc, "is of no type that is known");
    };
    match Schema::new(types_of(alloc, definitions)?) {
        Ok(schema) => answer_by(alloc, &schema, id, row),
        Err(error) => format!(in alloc; "! {error}"),
    }
}

/// Returns the answer to a row of this type.
fn answer_by(
    alloc: Global,
    schema: &Schema,
    id: TypeId,
    row: &Row<'_>,
) -> Result<String, AllocError> {
    match row.verb {
        Verb::Canonical => {
            let answer = is_canonical(alloc, schema, id, &row.octets)?;
            format!(in alloc; "= {answer}")
        }
        Verb::Normal => match normalise(alloc, row.rule, schema, id, &row.octets) {
            Ok(octets) => format!(in alloc; "= {}", Hexadecimal::new(&octets)),
            Err(error) => format!(in alloc; "! {error}"),
        },
        _ => answer_checked(alloc, schema, id, row),
    }
}

/// Returns the answer to a row whose octets are read and checked, with the same result.
fn answer_checked(
    alloc: Global,
    schema: &Schema,
    id: TypeId,
    row: &Row<'_>,
) -> Result<String, AllocError> {
    let checked = match check(alloc, row.rule, schema, id, &row.octets) {
        Ok(()) => String::new(alloc),
        Err(error) => format!(in alloc; "! {:?} {:?}", error.codec, error.kind)?,
    };
    match decode(alloc, row.rule, schema, id, &row.octets) {
        Ok(value) => {
            if checked.is_empty() {
                return answer_with(alloc, schema, id, row, &value);
            }
            format!(in alloc; "is read, but checked with {checked}")
        }
        Err(error) => {
            let answer = format!(in alloc; "! {:?} {:?}", error.codec, error.kind)?;
            if checked == answer {
                return Ok(answer);
            }
            format!(in alloc; "{answer} is checked with {checked}")
        }
    }
}

/// Returns the answer to a row whose octets are this value.
fn answer_with(
    alloc: Global,
    schema: &Schema,
    id: TypeId,
    row: &Row<'_>,
    value: &Value<'_>,
) -> Result<String, AllocError> {
    match row.verb {
        Verb::Bare => format!(in alloc; "= {value}"),
        Verb::Debug => format!(in alloc; "= {value:?}"),
        Verb::Write => {
            let other = match types_named(row.other) {
                Some((_, other)) => other,
                None => id,
            };
            match encode(alloc, row.rule, schema, other, value) {
                Ok(octets) => format!(in alloc; "= {}", Hexadecimal::new(&octets)),
                Err(error) => format!(in alloc; "! {error}"),
            }
        }
        _ => format!(in alloc; "= {}", schema.view(id, value)),
    }
}
