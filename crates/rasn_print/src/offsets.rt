//! The parts of a message with their places.
ghost use Rattle.std.specs.Prelude.{◌≡◌, IfOk, IfErr};
ghost use Rattle.rasn_types.specs.Errors.{IsOutOfMemory};
ghost use Rattle.rasn_lint.specs.Lint.{rest_after};
ghost use Rattle.rasn_print.specs.Reading.{IsMessage, IsAtFault};

use crate::dump::push_place;
use crate::known::Known;
use crate::leaf::leaf_text;
use crate::reading::{out_of_memory, refuse_rest};
use crate::types::MessageType;
use rasn_dynamic::{MessageParts, Part, Refusal, decode, parts_of};
use rasn_schema::{Type, TypeId, is_unknown_at, part_name, type_at};
use rasn_types::types::Hexadecimal;
use std::alloc::{AllocError, Global};

/// Returns the parts of the message that the octets are as lines: where each begins, how many octets
/// its header and its contents have, its name, and its value if it holds no others.
///
/// # Errors
/// As [`check`](crate::check), or if memory runs out.
pub fn offsets_text(
    alloc: Global,
    known: &Known<'_>,
    wanted: &MessageType<'_>,
    octets: &[u8],
) -> Result<String, Refusal>
    ensures ok { IfOk result (λ _. IsMessage wanted.now octets.now) }
    ensures err { IfErr result (λ r. (IsOutOfMemory r.error.kind → ⊥) → IsAtFault wanted.now octets.now r) }
{
    let mut parts = parts_of(alloc, wanted.rule, wanted.schema, wanted.root, octets)?;
    refuse_rest(alloc, wanted, octets, rest_of(&parts, octets))?;
    match text_of(alloc, known, wanted, &mut parts) {
        Ok(text) => Ok(text),
        Err(_) => Err(out_of_memory(alloc, wanted)),
    }
}

/// Returns what follows the message that octets begin with, which has these parts.
pub(crate) fn rest_of<'input>(parts: &MessageParts<'_>, octets: &'input [u8]) -> &'input [u8]
    ensures { result.now ≡ rest_after parts.now.list.items octets.now }
{
    match parts.list.first() {
        Some(whole) => octets.get(whole.octets.len()..).unwrap_or(&[]),
        None => octets,
    }
}

/// Returns the lines of all parts.
fn text_of(
    alloc: Global,
    known: &Known<'_>,
    wanted: &MessageType<'_>,
    parts: &mut MessageParts<'_>,
) -> Result<String, AllocError> {
    let mut text = String::new(alloc);
    let mut around = Vec::new(alloc);
    for _ in 0..parts.list.len() {
        let Ok(Some(part)) = parts.next(alloc) else {
            return Err(AllocError);
        };
        let path = parts.path.as_slice();
        around.truncate(path.len());
        // Of unknown values there may be none.
        if !part.octets.is_empty() {
            push_header(&mut text, wanted, &part, path.len())?;
            push_name(&mut text, wanted, around.as_slice(), path)?;
            push_value(&mut text, alloc, known, wanted, &part)?;
        }
        around.push(part.id)?;
    }
    Ok(text)
}

/// Appends where a part begins and its lengths. Unknown values have no header around them.
fn push_header(
    text: &mut String,
    wanted: &MessageType<'_>,
    part: &Part<'_>,
    depth: usize,
) -> Result<(), AllocError> {
    let (offset, len, is_indefinite) = (part.offset, part.octets.len(), part.is_indefinite);
    if is_unknown_at(wanted.schema.types(), part.id) {
        return push_place(text, offset, 0, len, false, depth);
    }
    push_place(text, offset, part.header_len, len, is_indefinite, depth)
}

/// Appends the name of the part with this path: of the message itself that of its type, of an
/// element its index in brackets, and of what is in an explicit tag `value`.
fn push_name(
    text: &mut String,
    wanted: &MessageType<'_>,
    around: &[TypeId],
    path: &[usize],
) -> Result<(), AllocError> {
    let (Some(outer), Some(index)) = (around.last(), path.last()) else {
        return text.push_str(wanted.name);
    };
    match type_at(wanted.schema.types(), *outer) {
        Some(Type::SequenceOf { .. } | Type::SetOf { .. }) => write!(text, "[{index}]"),
        Some(ty) => text.push_str(part_name(ty, *index).unwrap_or("value")),
        None => text.push_str("value"),
    }
}

/// Appends the value of a part that holds no others, and ends the line.
fn push_value(
    text: &mut String,
    alloc: Global,
    known: &Known<'_>,
    wanted: &MessageType<'_>,
    part: &Part<'_>,
) -> Result<(), AllocError> {
    let shown = match type_at(wanted.schema.types(), part.id) {
        Some(Type::Any { .. } | Type::Unknown) => Hexadecimal::new(part.octets).to_string(alloc)?,
        Some(ty @ (Type::Leaf { .. } | Type::Enumerated { .. })) => {
            part_text(alloc, known, wanted, part, ty)?
        }
        Some(
            Type::Tagged { .. }
            | Type::Choice { .. }
            | Type::Sequence { .. }
            | Type::Set { .. }
            | Type::SequenceOf { .. }
            | Type::SetOf { .. },
        )
        | None => return text.push('\n'),
    };
    writeln!(text, ": {shown}")
}

/// Returns the value of a part of this type, which holds no others, as text.
fn part_text(
    alloc: Global,
    known: &Known<'_>,
    wanted: &MessageType<'_>,
    part: &Part<'_>,
    ty: &Type,
) -> Result<String, AllocError> {
    match decode(alloc, wanted.rule, wanted.schema, part.id, part.octets) {
        Ok(value) => leaf_text(alloc, known, Some(ty), &value, false),
        Err(error) if error.is_out_of_memory() => Err(AllocError),
        Err(_) => Hexadecimal::new(part.octets).to_string(alloc),
    }
}
