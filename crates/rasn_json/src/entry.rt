//! Values as JSON text, and octets as JSON text.
ghost use Rattle.std.specs.Prelude.{◌≡◌, ◌↔◌, Ok, IfOk, IfErr, IsTrue, IsUtf8, OnOk, string_bytes};
ghost use Rattle.json.specs.Lex.{tokens};
ghost use Rattle.json.specs.Print.{print};
ghost use Rattle.json.specs.Layout.{pretty};
ghost use Rattle.rasn.specs.Headline.{AnsweredAlone};
ghost use Rattle.rasn_schema.specs.declared.value.Value.{Value};
ghost use Rattle.rasn_schema.specs.Trees.{tree_of};
ghost use Rattle.rasn_dynamic.specs.Entry.{FitsType, IsEncoded, shape_of};
ghost use Rattle.rasn_json.specs.Json.{Appends, JsonWithin};
ghost use Rattle.rasn_json.specs.Entry.{HasJson, HasNoJson, IsLaidOut, IsMemoryAlone, IsNoJsonOf, IsNotEncodedFrom, IsReadAs};

use crate::error::JsonError;
use crate::kept::Refused;
use crate::layout::Layout;
use crate::reader::value_at;
use crate::syntax::{MAX_NESTING, parse};
use crate::tokens::{Compact, Tokens};
use crate::writer::{ValuePlace, put_at};
use json::{Pretty, Scratch, Writer};
use rasn_dynamic::{WriteError, decode};
use rasn_schema::{Schema, TypeId, Value};
use rasn_types::error::DecodeError;
use rasn_types::types::Codec;
use std::alloc::Global;
use thiserror::Error;

/// Returns a value as JSON text (X.697).
///
/// # Errors
/// If the value has no JSON that is nested at most [`MAX_NESTING`] deep. The error is that of the
/// first part without, in the order of components and elements:
/// - `Unfit` if it isn't a value of its type, as `fits` tells, or a number of an ENUMERATED.
/// - `NoJson` for a BMPString with an unpaired surrogate, arcs without a subidentifier, and a time
///   of a year that its text can't have, or with more than the text says.
/// - `LongNumber` for an INTEGER of more octets than
///   [`MAX_NUMBER_OCTETS`](crate::MAX_NUMBER_OCTETS).
/// - `WrongSize` for a BIT STRING that hasn't the one size of its type.
/// - `TooDeep` if it is an array or an object and would be nested deeper.
/// - `NoType` if the schema has no such type.
///
/// `OutOfMemory` if an allocation fails.
///
/// # Examples
/// ```
/// // `value` is one of SEQUENCE { name IA5String, ok BOOLEAN } (X.690 8.9.3), and `id` is its type.
/// let text = rasn_json::to_json(alloc, &schema, id, &value, Layout::Compact)?;
/// // `text` is {"name":"Smith","ok":true}
/// ```
pub fn to_json(
    alloc: Global,
    schema: &Schema,
    id: TypeId,
    value: &Value<'_>,
    layout: Layout,
) -> Result<String, JsonError>
    ensures json { IfOk result (λ text. HasJson schema.now.types.items id.0 value.now (string_bytes text)) }
    ensures layout { IfOk result (λ text. IsLaidOut layout (string_bytes text)) }
    ensures err { IfErr result (HasNoJson schema.now.types.items id.0 value.now) }
{
    match layout {
        Layout::Compact => compact(alloc, schema, id, value),
        Layout::Indented => indented(alloc, schema, id, value),
    }
}

/// Appends a value as JSON.
fn put_whole<T: Tokens>(
    out: &mut T,
    alloc: Global,
    schema: &Schema,
    id: TypeId,
    value: &Value<'_>,
) -> Result<(), JsonError>
    ensures ok { OnOk result (Appends (JsonWithin schema.now.types.items usize.MAX MAX_NESTING id.0 value.now) (T.Tokens.written out.old) (T.Tokens.written out.new)) }
    ensures err { IfErr result (HasNoJson schema.now.types.items id.0 value.now) }
{
    let place = ValuePlace {
        alloc,
        types: schema.types(),
        levels: usize::MAX,
        depth: MAX_NESTING,
    };
    let mut error = JsonError::memory(alloc);
    match put_at(out, &place, id, value, &mut error) {
        Ok(()) => Ok(()),
        Err(Refused) => Err(error),
    }
}

/// Returns a value as JSON text without spaces.
fn compact(
    alloc: Global,
    schema: &Schema,
    id: TypeId,
    value: &Value<'_>,
) -> Result<String, JsonError>
    ensures json { IfOk result (λ text. HasJson schema.now.types.items id.0 value.now (string_bytes text)) }
    ensures text { IfOk result (λ text. string_bytes text ≡ print (tokens (string_bytes text))) }
    ensures err { IfErr result (HasNoJson schema.now.types.items id.0 value.now) }
{
    let mut out = Compact {
        out: Writer::new(Vec::new(alloc)),
    };
    put_whole(&mut out, alloc, schema, id, value)?;
    Ok(text_of(out.out.into_inner()))
}

/// Returns a value as JSON text with line breaks.
fn indented(
    alloc: Global,
    schema: &Schema,
    id: TypeId,
    value: &Value<'_>,
) -> Result<String, JsonError>
    ensures json { IfOk result (λ text. HasJson schema.now.types.items id.0 value.now (string_bytes text)) }
    ensures text { IfOk result (λ text. string_bytes text ≡ pretty (tokens (string_bytes text))) }
    ensures err { IfErr result (HasNoJson schema.now.types.items id.0 value.now) }
{
    let mut out = Pretty::new(alloc);
    put_whole(&mut out, alloc, schema, id, value)?;
    Ok(text_of(out.into_inner()))
}

/// Returns UTF-8 as text.
fn text_of(octets: Vec<u8>) -> String
    requires { IsUtf8 octets.items }
    ensures { string_bytes result ≡ octets.items }
{
    match String::from_utf8(octets) {
        Ok(text) => text,
        Err(_) => unreachable!(),
    }
}

/// Returns the value that a JSON text is (X.697). It borrows nothing from the text.
///
/// # Errors
/// `Syntax` if the text isn't JSON; otherwise why the first part, in the order of the components,
/// isn't a value of its type, with its place; `OutOfMemory`.
///
/// # Examples
/// ```
/// // `id` is the number of SEQUENCE { name IA5String, ok BOOLEAN } in `schema`.
/// let value = rasn_json::from_json(alloc, &schema, id, r#"{"name":"Smith","ok":true}"#)?;
/// let refused = rasn_json::from_json(alloc, &schema, id, r#"{"name":"Smith","ok":1}"#);
/// // `refused` is an error at the member `ok`
/// ```
pub fn from_json<'any>(
    alloc: Global,
    schema: &Schema,
    id: TypeId,
    text: &str,
) -> Result<Value<'any>, JsonError>
    ensures fits { IfOk result (λ v. FitsType schema.now.types.items id.0 v) }
    ensures reads { IfOk result (IsReadAs schema.now.types.items id.0 text.now) }
{
    let mut scratch = Scratch::new(alloc);
    let json = parse(alloc, text, &mut scratch)?;
    let mut error = JsonError::memory(alloc);
    match value_at(alloc, schema.types(), 0, id, &json, &mut error) {
        Ok(value) => Ok(value),
        Err(Refused) => Err(error),
    }
}

/// Why octets have no JSON.
#[derive(Debug, Drop, Error)]
pub enum ToJsonError {
    /// The octets aren't a value of the type.
    #[error("{0}")]
    Decode(DecodeError),
    /// The value has no JSON.
    #[error("{0}")]
    Json(JsonError),
}

/// Why a JSON text can't be encoded.
#[derive(Debug, Drop, Error)]
pub enum EncodeJsonError {
    /// The text isn't the JSON of a value of the type.
    #[error("{0}")]
    Json(JsonError),
    /// The value has no encoding.
    #[error("{0}")]
    Encode(WriteError),
}

impl EncodeJsonError {
    /// Returns whether memory ran out.
    pub fn is_out_of_memory(&self) -> bool
        ensures { IsTrue result ↔ IsMemoryAlone self.now }
    {
        match self {
            EncodeJsonError::Json(error) => error.is_out_of_memory(),
            EncodeJsonError::Encode(WriteError::Encode(error)) => error.is_out_of_memory(),
            EncodeJsonError::Encode(WriteError::Unfit { .. }) => false,
        }
    }
}

/// Returns the JSON text of the value that is all of the input by these rules.
///
/// # Errors
/// `Decode` with the error of [`rasn_dynamic::decode`], or `Json` with that of [`to_json`].
///
/// # Examples
/// ```
/// // `id` is the number of SEQUENCE { name IA5String, ok BOOLEAN } (X.690 8.9.3) in `schema`.
/// let octets: &[u8] = &[
///     0x30, 0x0A, 0x16, 0x05, 0x53, 0x6D, 0x69, 0x74, 0x68, 0x01, 0x01, 0xFF,
/// ];
/// let text = rasn_json::json(alloc, Codec::Der, &schema, id, octets, Layout::Compact)?;
/// // `text` is {"name":"Smith","ok":true}
/// ```
pub fn json(
    alloc: Global,
    rule: Codec,
    schema: &Schema,
    id: TypeId,
    input: &[u8],
    layout: Layout,
) -> Result<String, ToJsonError>
    ensures ok { IfOk result (λ text. (v : Value) × AnsweredAlone rule (shape_of schema.now.types.items id.0) tree_of input.now (Ok v) × HasJson schema.now.types.items id.0 v (string_bytes text)) }
    ensures layout { IfOk result (λ text. IsLaidOut layout (string_bytes text)) }
    ensures err { IfErr result (IsNoJsonOf rule schema.now.types.items id.0 input.now) }
{
    match decode(alloc, rule, schema, id, input) {
        Ok(value) => match to_json(alloc, schema, id, &value, layout) {
            Ok(text) => Ok(text),
            Err(error) => Err(ToJsonError::Json(error)),
        },
        Err(error) => Err(ToJsonError::Decode(error)),
    }
}

/// Returns the octets, by these rules, of the value that a JSON text is.
///
/// # Errors
/// `Json` with the error of [`from_json`], or `Encode` with that of [`rasn_dynamic::encode`].
///
/// # Examples
/// ```
/// // `id` is the number of SEQUENCE { name IA5String, ok BOOLEAN } (X.690 8.9.3) in `schema`.
/// let text = r#"{"name":"Smith","ok":true}"#;
/// let octets = rasn_json::encode(alloc, Codec::Der, &schema, id, text)?;
/// // `octets` are 30 0A 16 05 53 6D 69 74 68 01 01 FF
/// ```
pub fn encode(
    alloc: Global,
    rule: Codec,
    schema: &Schema,
    id: TypeId,
    text: &str,
) -> Result<Vec<u8>, EncodeJsonError>
    ensures ok { IfOk result (λ octets. (v : Value) × IsReadAs schema.now.types.items id.0 text.now v × IsEncoded rule schema.now.types.items id.0 v octets.items) }
    ensures err { IfErr result (IsNotEncodedFrom rule schema.now.types.items id.0 text.now) }
{
    match from_json(alloc, schema, id, text) {
        Ok(value) => match rasn_dynamic::encode(alloc, rule, schema, id, &value) {
            Ok(octets) => Ok(octets),
            Err(error) => Err(EncodeJsonError::Encode(error)),
        },
        Err(error) => Err(EncodeJsonError::Json(error)),
    }
}
