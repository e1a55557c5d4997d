//! The parts of a message, one after the other.
ghost use Rattle.std.specs.Prelude.{◌≡◌, ◌⊎◌, List, [], map, Err, OnOk, OnErr, IfOk, IfErr};
ghost use Rattle.rasn_types.specs.Errors.{IsOutOfMemory};
ghost use Rattle.rasn_dynamic.specs.Entry.{IsCheckedUpTo, shape_of};
ghost use Rattle.rasn_dynamic.specs.Faults.{IsLocated};
ghost use Rattle.rasn_dynamic.specs.Listed.{IsEmpty, wanted_of};
ghost use Rattle.rasn_dynamic.specs.Walk.{AreOpenPartsOf, AreParts, ArePartsOf, IsNextOf, is_open_type, path_at_depth};
ghost use Rattle.rasn_dynamic.specs.declared.span.Span.{Span};

use crate::locate::{out_of_memory, read_first};
use crate::made::Nothing;
use crate::part::{Part, part_header};
use crate::refusal::Refusal;
use crate::span::{Span, Spans, finish, list_of, new_list, new_list_of, note};
use rasn_schema::{Schema, Type, TypeId};
use rasn_types::error::{DecodeError, DecodeErrorKind};
use rasn_types::types::Codec;
use std::alloc::{AllocError, Global};

/// For how many indices of a path there is room from the start.
const DEPTH_EXPECTED: usize = 16;

/// The parts of a message, and how many of them `next` has returned.
#[derive(Drop)]
pub struct MessageParts<'input> {
    /// The parts in the order of their octets, each before those inside it.
    pub list: Vec<Span<'input>>,
    /// The message and what follows it.
    pub input: &'input [u8],
    /// How many parts `next` has returned.
    pub next: usize,
    /// The path of the last of those, for `find_part`.
    pub path: Vec<usize>,
}

/// Parts of a message, and what follows the message.
#[derive(Drop)]
pub struct ListedParts<'input> {
    /// The parts in the order of their octets.
    pub list: Vec<Span<'input>>,
    /// What follows the value.
    pub rest: &'input [u8],
}

/// Reads the value at the front of the input, and returns its parts, the value itself among them.
/// No value is made, as by `check`. Each component that the type of an extensible SET doesn't name
/// is a part without parts inside it (X.680 27). Its type and its index are those of the extension
/// marker, so several of them have the same path, and [`find_part`](crate::find_part) finds none.
///
/// # Errors
/// As [`check_or_locate`](crate::check_or_locate), or if memory for the list of parts runs out.
///
/// # Examples
/// ```
/// // `id` is the number of SEQUENCE { name IA5String, ok BOOLEAN } in `schema`.
/// let octets: &[u8] = &[0x30, 0x05, 0x16, 0x00, 0x01, 0x01, 0xFF];
/// let mut parts = rasn_dynamic::parts_of(alloc, Codec::Der, &schema, id, octets)?;
/// while let Some(part) = parts.next(alloc)? {
///     // The parts have the offsets 0, 2 and 4, and `parts.path` is [], [0] and [1].
/// }
/// ```
pub fn parts_of<'input>(
    alloc: Global,
    rule: Codec,
    schema: &Schema,
    id: TypeId,
    input: &'input [u8],
) -> Result<MessageParts<'input>, Refusal>
    ensures parts { IfOk result (ArePartsOf schema.now.types.items rule id.0 input.now) }
    ensures located { IfErr result (λ r. IsOutOfMemory r.error.kind ⊎ IsLocated schema.now.types.items rule id.0 input.now r) }
    ensures exact { IfErr result (λ r. IsOutOfMemory r.error.kind ⊎ IsCheckedUpTo rule (shape_of schema.now.types.items id.0) input.now (Err r.error)) }
    ensures rules { IfErr result (λ r. r.error.codec ≡ rule) }
{
    let spans = new_list(alloc, input.len());
    match wanted_parts(alloc, rule, schema, id, input, spans) {
        Ok(found) => Ok(MessageParts {
            list: found.list,
            input,
            next: 0,
            path: empty_path(alloc),
        }),
        Err(refusal) => Err(refusal),
    }
}

/// Reads the value at the front of the input, and returns those of its parts that are values of an
/// open type or unknown values, with what follows the value. No value is made, as by `check`.
///
/// # Errors
/// As [`check_or_locate`](crate::check_or_locate), or if memory for the list of parts runs out.
///
/// # Examples
/// ```
/// // `id` is the number of SEQUENCE { name IA5String, ok BOOLEAN } in `schema`.
/// let octets: &[u8] = &[0x30, 0x05, 0x16, 0x00, 0x01, 0x01, 0xFF];
/// let parts = rasn_dynamic::open_parts_of(alloc, Codec::Der, &schema, id, octets)?;
/// // `parts.list` is empty, and so is `parts.rest`.
/// ```
pub fn open_parts_of<'input>(
    alloc: Global,
    rule: Codec,
    schema: &Schema,
    id: TypeId,
    input: &'input [u8],
) -> Result<ListedParts<'input>, Refusal>
    ensures parts { IfOk result (AreOpenPartsOf schema.now.types.items rule id.0 input.now) }
    ensures refused { IfErr result (λ r. IsOutOfMemory r.error.kind ⊎ (IsLocated schema.now.types.items rule id.0 input.now r × IsCheckedUpTo rule (shape_of schema.now.types.items id.0) input.now (Err r.error))) }
    ensures rules { IfErr result (λ r. r.error.codec ≡ rule) }
{
    match open_types(alloc, schema.types()) {
        Ok(open) => {
            let spans = new_list_of(alloc, open);
            wanted_parts(alloc, rule, schema, id, input, spans)
        }
        Err(_) => Err(out_of_memory(alloc, rule, id)),
    }
}

/// Returns whether values of a type are those of an open type, or unknown values.
fn is_open_type(ty: &Type) -> bool
    ensures { result ≡ is_open_type ty.now }
{
    match ty {
        Type::Any { .. } => true,
        Type::Unknown => true,
        _ => false,
    }
}

/// Returns the same for each type.
fn open_types(alloc: Global, types: &[Type]) -> Result<Vec<bool>, AllocError>
    ensures { IfOk result (λ v. v.items ≡ map is_open_type types.now) }
{
    let mut open = Vec::new(alloc);
    for ty in types {
        open.push(is_open_type(ty))?;
    }
    Ok(open)
}

/// Reads the value at the front of the input, and returns its parts that are wanted, with what
/// follows the value.
fn wanted_parts<'input>(
    alloc: Global,
    rule: Codec,
    schema: &Schema,
    id: TypeId,
    input: &'input [u8],
    spans: Spans<'input>,
) -> Result<ListedParts<'input>, Refusal>
    requires { IsEmpty spans }
    ensures parts { IfOk result (λ o. (all : List Span) × AreParts schema.now.types.items rule id.0 input.now o.rest.now all × (o.list.items ≡ wanted_of spans.entry.wanted all)) }
    ensures refused { IfErr result (λ r. IsOutOfMemory r.error.kind ⊎ (IsLocated schema.now.types.items rule id.0 input.now r × IsCheckedUpTo rule (shape_of schema.now.types.items id.0) input.now (Err r.error))) }
    ensures rules { IfErr result (λ r. r.error.codec ≡ rule) }
{
    let mut spans = spans;
    let place = note(&mut spans, id, 0, usize::MAX, input);
    match read_first::<Nothing>(alloc, rule, schema, id, input, &mut spans) {
        Ok((value, rest)) => {
            drop(value);
            finish(&mut spans, place, rest);
            match list_of(spans) {
                Some(list) => Ok(ListedParts { list, rest }),
                None => Err(out_of_memory(alloc, rule, id)),
            }
        }
        Err(refusal) => Err(refusal),
    }
}

/// Returns an empty path, with room for some indices.
fn empty_path(alloc: Global) -> Vec<usize>
    ensures { result.items ≡ [] }
{
    match Vec::with_capacity(alloc, DEPTH_EXPECTED) {
        Ok(path) => path,
        Err(_) => Vec::new(alloc),
    }
}

/// Makes the path of a part of that of the part before it: the part is in so many others.
fn go_along(path: &mut Vec<usize>, depth: usize, index: usize) -> Result<(), AllocError>
    ensures { OnOk result (path.new.items ≡ path_at_depth depth path.old.items index) }
{
    if depth == 0 {
        path.truncate(0);
        return Ok(());
    }
    path.truncate(depth - 1);
    match path.push(index) {
        Ok(()) => Ok(()),
        Err(_) => Err(AllocError),
    }
}

impl<'input> MessageParts<'input> {
    /// Goes to the next part and returns it, or `None` after the last one.
    ///
    /// # Errors
    /// `OutOfMemory` if there is no memory for the path: the next call tries the same part again.
    /// Otherwise the framing error of the part's octets, which the parts of a message don't have.
    pub fn next(&mut self, alloc: Global) -> Result<Option<Part<'input>>, DecodeError>
        ensures next { IfOk result (λ found. IsNextOf self.old found self.new) }
        ensures same { (self.new.list ≡ self.old.list) × (self.new.input.now ≡ self.old.input.now) }
        ensures err { OnErr result (self.new.next ≡ self.old.next) }
    {
        let Some(span) = self.list.get(self.next) else {
            return Ok(None);
        };
        let (id, index, octets) = (span.id, span.index, span.octets);
        let (depth, left) = (span.depth, span.left);
        let (header_len, is_indefinite) = part_header(alloc, octets)?;
        if go_along(&mut self.path, depth, index).is_err() {
            return Err(DecodeError {
                kind: DecodeErrorKind::OutOfMemory,
                codec: Codec::Ber,
            });
        }
        self.next += 1;
        Ok(Some(Part {
            id,
            offset: self.input.len().saturating_sub(left),
            header_len,
            is_indefinite,
            octets,
        }))
    }
}
