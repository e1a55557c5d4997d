//! Local times: each is a GeneralizedTime without a zone (X.680 46.3).
ghost use Rattle.std.specs.Prelude.{◌≡◌, ◌⊎◌, ℕ, List, IfOk, IfErr, MatchOption, slice_get};
ghost use Rattle.std.specs.List.{list_any};
ghost use Rattle.std.specs.Cow.{cow_slice_items};
ghost use Rattle.rasn_types.specs.Errors.{IsOutOfMemory};
ghost use Rattle.rasn_dynamic.specs.Faults.{IsLocated};
ghost use Rattle.rasn_lint.specs.LocalTimes.{is_of_zone, is_generalized_time, time_tag, time_tag_of, IsTimeText, IsLocalTime, IsNotLocal, IsRefusalOf, IsFirstOrNone, IsFirstIn};

use crate::first::out_of_memory;
use crate::place::reader_of;
use crate::trail::extend_path;
use rasn_dynamic::{Refusal, Span, parts_of};
use rasn_schema::{LeafKind, Schema, Type, TypeId, type_at};
use rasn_types::error::{BerDecodeErrorKind, CodecDecodeError, DecodeError, DecodeErrorKind};
use rasn_types::types::{Codec, Constraints, Tag};
use std::alloc::{AllocError, Global};
use std::borrow::CowSlice;

/// Returns whether a text has a character of a zone: `Z`, or the sign of a difference from UTC.
fn names_zone(text: &[u8]) -> bool
    ensures { result ≡ list_any is_of_zone text.now }
{
    text.iter()
        .any(|it| *it == b'Z' || *it == b'+' || *it == b'-')
}

/// Returns whether values of a kind are GeneralizedTimes.
fn is_generalized_time(kind: LeafKind) -> bool
    ensures { result ≡ is_generalized_time kind }
{
    matches!(kind, LeafKind::GeneralizedTime)
}

/// Returns the tag of a type of GeneralizedTimes.
fn time_tag(ty: &Type) -> Option<Tag>
    ensures { result ≡ time_tag ty.now }
{
    match ty {
        Type::Leaf { kind, tag, .. } => if is_generalized_time(*kind) {
            Some(*tag)
        } else {
            None
        },
        _ => None,
    }
}

/// Returns the tag of the type with this number, if its values are GeneralizedTimes.
fn time_tag_at(types: &[Type], id: TypeId) -> Option<Tag>
    ensures { result ≡ time_tag_of (slice_get types.now id.0) }
{
    match type_at(types, id) {
        Some(ty) => time_tag(ty),
        None => None,
    }
}

/// Returns the text of a part that is a GeneralizedTime: that of segments one after the other.
fn time_text<'input>(
    alloc: Global,
    schema: &Schema,
    part: &Span<'input>,
) -> Result<Option<CowSlice<'input, u8>>, AllocError>
    ensures { IfOk result (λ found. MatchOption found ((text : List ℕ) → IsTimeText schema.now.types.items part.now text → ⊥) (λ text. IsTimeText schema.now.types.items part.now (cow_slice_items text))) }
{
    let Some(tag) = time_tag_at(schema.types(), part.id) else {
        return Ok(None);
    };
    match reader_of(alloc, part.octets).decode_octet_string(tag, &Constraints::NONE) {
        Ok(text) => Ok(Some(text)),
        Err(error) => if error.is_out_of_memory() {
            Err(AllocError)
        } else {
            Ok(None)
        },
    }
}

/// Returns the text of a part that is a local time.
fn local_text(
    alloc: Global,
    schema: &Schema,
    part: &Span<'_>,
) -> Result<Option<Vec<u8>>, AllocError>
    ensures { IfOk result (λ found. MatchOption found (IsNotLocal schema.now.types.items part.now) (λ text. IsLocalTime schema.now.types.items part.now text.items)) }
{
    let Some(text) = time_text(alloc, schema, part)? else {
        return Ok(None);
    };
    if names_zone(&text) {
        return Ok(None);
    }
    Ok(Some(Vec::from_slice(alloc, &text)?))
}

/// Returns the refusal of a part with this text, which is no time of DER (X.690 11.7.1).
fn refusal_of(part: &Span<'_>, text: Vec<u8>, path: Vec<usize>, len: usize) -> Refusal
    ensures { IsRefusalOf len path.items part.now text.items result }
{
    Refusal {
        error: DecodeError {
            kind: DecodeErrorKind::CodecSpecific {
                inner: CodecDecodeError::Ber(BerDecodeErrorKind::InvalidDate { octets: text }),
            },
            codec: Codec::Der,
        },
        offset: len.saturating_sub(part.left),
        id: part.id,
        steps: path,
        is_cut: false,
    }
}

/// Returns the refusal of the first of these parts of a message of so many octets that is a local
/// time.
fn first_local(
    alloc: Global,
    schema: &Schema,
    len: usize,
    parts: &[Span<'_>],
) -> Result<Option<Refusal>, AllocError>
    ensures { IfOk result (IsFirstOrNone schema.now.types.items len parts.now) }
{
    let mut path = Vec::new(alloc);
    for part in parts {
        extend_path(&mut path, part)?;
        if let Some(text) = local_text(alloc, schema, part)? {
            return Ok(Some(refusal_of(part, text, path, len)));
        }
    }
    Ok(None)
}

/// Returns the refusal of the first local time in the message at the front of the octets: of a
/// GeneralizedTime without a zone (X.680 46.3), which no instant in UTC has to be. BER alone reads
/// one, DER refuses it with this error. What is in open types isn't looked into.
///
/// # Errors
/// As [`parts_of`](rasn_dynamic::parts_of).
///
/// # Examples
/// ```
/// // GeneralizedTime "2026120112"
/// let octets: &[u8] = &[0x18, 0x0A, 0x32, 0x30, 0x32, 0x36, 0x31, 0x32, 0x30, 0x31, 0x31, 0x32];
/// let found = rasn_lint::local_time(alloc, Codec::Ber, &schema, id, octets)?;
/// // some refusal at byte 0: "DER: invalid time ..."
/// ```
pub fn local_time(
    alloc: Global,
    rule: Codec,
    schema: &Schema,
    id: TypeId,
    octets: &[u8],
) -> Result<Option<Refusal>, Refusal>
    ensures found { IfOk result (IsFirstIn schema.now.types.items rule id.0 octets.now) }
    ensures refused { IfErr result (λ r. IsOutOfMemory r.error.kind ⊎ IsLocated schema.now.types.items rule id.0 octets.now r) }
{
    let parts = parts_of(alloc, rule, schema, id, octets)?;
    match first_local(alloc, schema, octets.len(), parts.list.as_slice()) {
        Ok(found) => Ok(found),
        Err(_) => Err(out_of_memory(alloc, id).refusal),
    }
}
