//! Reading, writing and checking one value.
ghost use Rattle.std.specs.Prelude.{◌≡◌, [], Result, OnOk, OnErr, IfOk, IfErr};
ghost use Rattle.rasn_types.specs.declared.error.decode.DecodeError.{DecodeError};
ghost use Rattle.rasn_schema.specs.declared.value.Value.{Value};
ghost use Rattle.rasn_types.specs.Errors.{IsOutOfMemory};
ghost use Rattle.rasn_types.specs.Framing.{AreOctets};
ghost use Rattle.rasn_types.specs.Truth.{IsWhether};
ghost use Rattle.rasn_types.specs.declared.types.codec.Codec.TheVariants.{Der};
ghost use Rattle.rasn_de.specs.State.{IsEnd};
ghost use Rattle.rasn.specs.Headline.{Answered, AnsweredAlone, ConsumesWritten, IsAsWritten, Identify};
ghost use Rattle.rasn.specs.Normal.{IsNormal, IsNoNormal, IsIdentified, IsKept, IsUnchanged, IsAnswered, IsByRules};
ghost use Rattle.rasn_enc.specs.Primitive.{IsAllocError};
ghost use Rattle.rasn_schema.specs.Trees.{tree_of};
ghost use Rattle.rasn_dynamic.specs.Entry.{IsEncoded, IsNotEncoded, FailsIfFits, NamesRules, IsReadBack, IsNormalOf, IsNoNormalOf, IsByDer, FitsType, IsChecked, Agree, shape_of};
ghost use Rattle.rasn_dynamic.specs.Refusals.{FailsSomewhere, FailsWhole, IsReadingError};
ghost use Rattle.rasn_dynamic.specs.Times.{HasItsTimes};

use crate::locate::{check_or_locate, decode_or_locate};
use crate::path::ValuePath;
use crate::unfit::append_unfit_path;
use crate::writer::encode_at;
use rasn::{NormaliseError, refuse_remainder};
use rasn_enc::ber::enc::{Encoder, EncoderOptions, INITIAL_CAPACITY};
use rasn_schema::{Schema, TypeId, Value, fits};
use rasn_types::error::{DecodeError, EncodeError, EncodeErrorKind};
use rasn_types::types::Codec;
use std::alloc::{AllocError, Global};
use std::error::Error;
use std::{fmt, mem};

/// Reads the value at the front of the input, and returns it with the remaining octets.
///
/// # Errors
/// Those of `rasn::decode_with_remainder` for a type written in Rattle that has the same shape.
///
/// # Examples
/// ```
/// // `id` is the number of BOOLEAN in `schema`.
/// let octets: &[u8] = &[0x01, 0x01, 0xFF, 0x05, 0x00];
/// let (value, rest) =
///     rasn_dynamic::decode_with_remainder(alloc, Codec::Der, &schema, id, octets)?;
/// // `value` is Value::Boolean(true), and `rest` is the octets 05 00
/// ```
pub fn decode_with_remainder<'input>(
    alloc: Global,
    rule: Codec,
    schema: &Schema,
    id: TypeId,
    input: &'input [u8],
) -> Result<(Value<'input>, &'input [u8]), DecodeError>
    ensures exact { Answered rule (shape_of schema.now.types.items id.0) tree_of input.now result }
    ensures fits { IfOk result (λ read. FitsType schema.now.types.items id.0 read.0) }
    ensures times { IfOk result (λ read. HasItsTimes schema.now.types.items rule id.0 input.now read.0) }
    ensures end { IfOk result (λ read. IsEnd input.now read.1.now) }
    ensures written { rule ≡ Der → ConsumesWritten (shape_of schema.now.types.items id.0) tree_of input.now result }
    ensures fails { IfErr result (FailsSomewhere schema.now.types.items rule id.0 input.now) }
    ensures rules { IfErr result (λ e. e.codec ≡ rule) }
{
    match decode_or_locate(alloc, rule, schema, id, input) {
        Ok(read) => Ok(read),
        Err(refusal) => Err(refusal.error),
    }
}

/// Reads an input that is exactly one value.
///
/// # Errors
/// Those of `decode_with_remainder`; `UnexpectedExtraData` with the number of octets that follow
/// the value, if some do (X.690 8.1.1.1).
///
/// # Examples
/// ```
/// // `id` is the number of SEQUENCE { name IA5String, ok BOOLEAN } (X.690 8.9.3) in `schema`.
/// let octets: &[u8] = &[
///     0x30, 0x0A, 0x16, 0x05, 0x53, 0x6D, 0x69, 0x74, 0x68, 0x01, 0x01, 0xFF,
/// ];
/// let value = rasn_dynamic::decode(alloc, Codec::Der, &schema, id, octets)?;
/// let ok = schema.view(id, &value).get("ok");
/// // `ok` has the value Value::Boolean(true)
/// ```
pub fn decode<'input>(
    alloc: Global,
    rule: Codec,
    schema: &Schema,
    id: TypeId,
    input: &'input [u8],
) -> Result<Value<'input>, DecodeError>
    ensures exact { AnsweredAlone rule (shape_of schema.now.types.items id.0) tree_of input.now result }
    ensures written { rule ≡ Der → IsAsWritten (shape_of schema.now.types.items id.0) tree_of input.now result }
    ensures fits { IfOk result (λ v. FitsType schema.now.types.items id.0 v) }
    ensures times { IfOk result (λ v. HasItsTimes schema.now.types.items rule id.0 input.now v) }
    ensures fails { IfErr result (FailsWhole schema.now.types.items rule id.0 input.now) }
    ensures rules { IfErr result (λ e. e.codec ≡ rule) }
{
    let (value, remainder) = decode_with_remainder(alloc, rule, schema, id, input)?;
    refuse_remainder(rule, remainder)?;
    Ok(value)
}

/// Checks that the input is exactly one value of the type, as `decode` reads it. No value is made,
/// except of a component with a default under DER, which is compared with the default. Otherwise a
/// success takes memory only to note the components of a SET and CHOICEs directly in one another,
/// and for a time of more than 32 octets in segments.
///
/// # Errors
/// As [`decode`].
///
/// # Examples
/// ```
/// // `id` is the number of BOOLEAN in `schema`; DER has the octet FF for TRUE (X.690 11.1).
/// let refused = rasn_dynamic::check(alloc, Codec::Der, &schema, id, &[0x01, 0x01, 0x05]);
/// // `refused` is an error
/// ```
pub fn check(
    alloc: Global,
    rule: Codec,
    schema: &Schema,
    id: TypeId,
    input: &[u8],
) -> Result<(), DecodeError>
    ensures exact { IsChecked rule (shape_of schema.now.types.items id.0) input.now result }
    ensures agrees { (r : Result Value DecodeError) → AnsweredAlone rule (shape_of schema.now.types.items id.0) tree_of input.now r → Agree result r }
    ensures fails { IfErr result (FailsWhole schema.now.types.items rule id.0 input.now) }
    ensures rules { IfErr result (λ e. e.codec ≡ rule) }
{
    match check_or_locate(alloc, rule, schema, id, input) {
        Ok(rest) => refuse_remainder(rule, rest),
        Err(refusal) => Err(refusal.error),
    }
}

/// What is wrong with a value that can't be written.
#[derive(Debug, Drop)]
pub enum WriteError {
    /// A part of the value isn't one of its type, as [`fits`] tells.
    Unfit {
        /// Leads to the part.
        path: ValuePath,
    },
    /// The value has no encoding, or memory runs out.
    Encode(EncodeError),
}

/// Writes the path of the part, or the text of the encoder's error.
impl fmt::Display for WriteError {
    ghost use Rattle.rasn_dynamic.specs.Shown.{shown_write_error};

    ghost output = { shown_write_error };

    fn fmt<W: fmt::Write>(&self, f: &mut fmt::Formatter<W>) -> fmt::Result {
        match self {
            WriteError::Unfit { path } => write!(f, "the value doesn't fit its type at {path}"),
            WriteError::Encode(error) => fmt::Display::fmt(error, f),
        }
    }
}

impl Error for WriteError {}

/// Returns the octets of a value.
///
/// # Errors
/// - `Unfit` exactly if [`fits`] is false, whatever else is wrong with the value, unless memory for
///   the path runs out.
/// - `Encode` with the error of the writer of a type written in Rattle that has the same shape,
///   with these rules.
///
/// # Examples
/// ```
/// // `id` is the number of BOOLEAN in `schema`.
/// let octets = rasn_dynamic::encode(alloc, Codec::Der, &schema, id, &Value::Boolean(true))?;
/// // `octets` are 01 01 FF
/// let unfit = rasn_dynamic::encode(alloc, Codec::Der, &schema, id, &Value::Null);
/// // `unfit` is the error WriteError::Unfit with an empty path
/// ```
pub fn encode(
    alloc: Global,
    rule: Codec,
    schema: &Schema,
    id: TypeId,
    value: &Value<'_>,
) -> Result<Vec<u8>, WriteError>
    ensures ok { IfOk result (λ octets. IsEncoded rule schema.now.types.items id.0 value.now octets.items) }
    ensures canonical { rule ≡ Der → IfOk result (λ octets. Identify (shape_of schema.now.types.items id.0) (tree_of value.now) octets.items) }
    ensures fails { IfErr result (IsNotEncoded rule schema.now.types.items id.0 value.now) }
    ensures rules { IfErr result (NamesRules rule) }
{
    match write(alloc, rule, schema, id, value, Vec::new(alloc)) {
        Ok(octets) => Ok(octets),
        Err(error) => Err(write_error(alloc, rule, schema, id, value, error)),
    }
}

/// Writes the value's octets into the vector, replacing what it holds.
///
/// # Errors
/// Those of [`encode`]. The vector is then empty.
///
/// # Examples
/// ```
/// let mut buffer = Vec::new(alloc);
/// rasn_dynamic::encode_buf(alloc, Codec::Der, &schema, id, &value, &mut buffer)?;
/// ```
pub fn encode_buf(
    alloc: Global,
    rule: Codec,
    schema: &Schema,
    id: TypeId,
    value: &Value<'_>,
    buffer: &mut Vec<u8>,
) -> Result<(), WriteError>
    ensures ok { OnOk result (IsEncoded rule schema.now.types.items id.0 value.now buffer.new.items) }
    ensures canonical { rule ≡ Der → OnOk result (Identify (shape_of schema.now.types.items id.0) (tree_of value.now) buffer.new.items) }
    ensures emptied { OnErr result (buffer.new.items ≡ []) }
    ensures fails { IfErr result (IsNotEncoded rule schema.now.types.items id.0 value.now) }
    ensures rules { IfErr result (NamesRules rule) }
{
    let held = mem::replace(buffer, Vec::new(alloc));
    match write(alloc, rule, schema, id, value, held) {
        Ok(octets) => {
            *buffer = octets;
            Ok(())
        }
        Err(error) => Err(write_error(alloc, rule, schema, id, value, error)),
    }
}

/// Writes a value into this vector, in place of what it holds, if the value fits its type.
fn write(
    alloc: Global,
    rule: Codec,
    schema: &Schema,
    id: TypeId,
    value: &Value<'_>,
    buffer: Vec<u8>,
) -> Result<Vec<u8>, EncodeError>
    ensures ok { IfOk result (λ octets. IsEncoded rule schema.now.types.items id.0 value.now octets.items) }
    ensures canonical { rule ≡ Der → IfOk result (λ octets. Identify (shape_of schema.now.types.items id.0) (tree_of value.now) octets.items) }
    ensures fails { IfErr result (FailsIfFits rule schema.now.types.items id.0 value.now) }
    ensures rules { IfErr result (λ e. e.codec ≡ rule) }
{
    let mut buffer = buffer;
    buffer.clear();
    if buffer.reserve(INITIAL_CAPACITY).is_err() {
        return Err(out_of_memory(rule));
    }
    let mut encoder = Encoder::over(alloc, EncoderOptions::of(rule), buffer);
    let mut error = out_of_memory(rule);
    match encode_at(
        &mut encoder,
        schema.types(),
        usize::MAX,
        id,
        value,
        &mut error,
    ) {
        Ok(()) => encoder.output(),
        Err(_) => Err(error),
    }
}

/// Returns the error of a value that isn't written: `Unfit` if it doesn't fit its type, else that
/// of the writer.
fn write_error(
    alloc: Global,
    rule: Codec,
    schema: &Schema,
    id: TypeId,
    value: &Value<'_>,
    error: EncodeError,
) -> WriteError
    requires fails { FailsIfFits rule schema.now.types.items id.0 value.now error }
    requires rules { error.codec ≡ rule }
    ensures fails { IsNotEncoded rule schema.now.types.items id.0 value.now result }
    ensures rules { NamesRules rule result }
{
    if fits(schema, id, value) {
        return WriteError::Encode(error);
    }
    let mut indices = Vec::new(alloc);
    match append_unfit_path(schema.types(), usize::MAX, id, value, &mut indices) {
        Ok(()) => WriteError::Unfit {
            path: ValuePath { indices },
        },
        Err(_) => WriteError::Encode(out_of_memory(rule)),
    }
}

/// Returns the error that memory ran out.
fn out_of_memory(rule: Codec) -> EncodeError
    ensures { IsAllocError rule result }
{
    EncodeError {
        kind: EncodeErrorKind::OutOfMemory,
        codec: rule,
    }
}

/// Returns the DER octets of the value that is all of the input by these rules (X.690 10, 11).
///
/// As `rasn::normalise` for a type written in Rattle: two inputs of carried values
/// (docs/GLOSSARY.md) have the same octets exactly if their values mean the same; normalising the
/// result returns the same octets again; an input that DER reads is returned unchanged; and the
/// only error of such an input is that memory runs out.
///
/// # Errors
/// - `Decode` with the error of [`decode`] by these rules.
/// - `Encode` if the value has no DER octets.
/// - `NotCanonical` if DER doesn't read these octets, or reads another value.
///
/// # Examples
/// ```
/// // `id` is the number of BOOLEAN in `schema`.
/// let octets: &[u8] = &[0x01, 0x01, 0x05];
/// let normal = rasn_dynamic::normalise(alloc, Codec::Ber, &schema, id, octets)?;
/// // `normal` is 01 01 FF (X.690 11.1)
/// ```
pub fn normalise(
    alloc: Global,
    rule: Codec,
    schema: &Schema,
    id: TypeId,
    input: &[u8],
) -> Result<Vec<u8>, NormaliseError>
    ensures normal { IfOk result (λ octets. IsNormal rule (shape_of schema.now.types.items id.0) input.now octets.items) }
    ensures identifies { IfOk result (λ octets. IsIdentified rule (shape_of schema.now.types.items id.0) input.now octets.items) }
    ensures kept { IfOk result (λ octets. IsKept rule (shape_of schema.now.types.items id.0) input.now octets.items) }
    ensures unchanged { IfOk result (λ octets. IsUnchanged rule (shape_of schema.now.types.items id.0) input.now octets.items) }
    ensures answered { IfErr result (λ error. IsAnswered rule (shape_of schema.now.types.items id.0) input.now error) }
    ensures fails { IfErr result (λ error. IsNoNormal rule (shape_of schema.now.types.items id.0) input.now error) }
    ensures errors { IfErr result (IsReadingError schema.now.types.items rule id.0 input.now) }
    ensures rules { IfErr result (λ error. IsByRules rule error) }
{
    convert(alloc, rule, schema, id, input)
}

/// Reads a value, writes it by DER, and reads that again.
fn convert(
    alloc: Global,
    rule: Codec,
    schema: &Schema,
    id: TypeId,
    input: &[u8],
) -> Result<Vec<u8>, NormaliseError>
    ensures normal { IfOk result (λ octets. IsNormal rule (shape_of schema.now.types.items id.0) input.now octets.items) }
    ensures octets { IfOk result (λ octets. AreOctets octets.items) }
    ensures fails { IfErr result (λ error. IsNoNormal rule (shape_of schema.now.types.items id.0) input.now error) }
    ensures errors { IfErr result (IsReadingError schema.now.types.items rule id.0 input.now) }
    ensures rules { IfErr result (λ error. IsByRules rule error) }
{
    match decode(alloc, rule, schema, id, input) {
        Ok(value) => write_normal(alloc, schema, id, &value),
        Err(error) => Err(NormaliseError::Decode(error)),
    }
}

/// Returns the DER octets of a value that fits its type, if DER reads them as the same value.
fn write_normal(
    alloc: Global,
    schema: &Schema,
    id: TypeId,
    value: &Value<'_>,
) -> Result<Vec<u8>, NormaliseError>
    requires { FitsType schema.now.types.items id.0 value.now }
    ensures normal { IfOk result (λ octets. IsNormalOf (shape_of schema.now.types.items id.0) (tree_of value.now) octets.items) }
    ensures octets { IfOk result (λ octets. AreOctets octets.items) }
    ensures fails { IfErr result (IsNoNormalOf (shape_of schema.now.types.items id.0) (tree_of value.now)) }
    ensures rules { IfErr result IsByDer }
{
    match write(alloc, Codec::Der, schema, id, value, Vec::new(alloc)) {
        Ok(octets) => match is_read_back(alloc, schema, id, value, &octets) {
            Ok(is_same) => {
                if is_same {
                    return Ok(octets);
                }
                Err(NormaliseError::NotCanonical)
            }
            Err(error) => Err(NormaliseError::Decode(error)),
        },
        Err(error) => Err(NormaliseError::Encode(error)),
    }
}

/// Returns whether DER reads the octets, alone, as this value.
///
/// # Errors
/// Returns an error only if memory runs out.
fn is_read_back(
    alloc: Global,
    schema: &Schema,
    id: TypeId,
    value: &Value<'_>,
    octets: &[u8],
) -> Result<bool, DecodeError>
    ensures ok { IfOk result (λ answer. IsReadBack answer (shape_of schema.now.types.items id.0) (tree_of value.now) octets.now) }
    ensures octets { AreOctets octets.now }
    ensures memory_alone { IfErr result (λ e. IsOutOfMemory e.kind) }
    ensures rules { IfErr result (λ e. e.codec ≡ Der) }
{
    match decode(alloc, Codec::Der, schema, id, octets) {
        Ok(again) => Ok(again.means_same(value)),
        Err(error) => {
            if error.is_out_of_memory() {
                return Err(error);
            }
            Ok(false)
        }
    }
}

/// Returns whether the octets are the one encoding that DER has of a value of the type (X.690 10,
/// 11).
///
/// # Errors
/// `AllocError` if memory runs out.
///
/// # Examples
/// ```
/// // `id` is the number of BOOLEAN in `schema`.
/// let octets: &[u8] = &[0x01, 0x01, 0x05];
/// let is_canonical = rasn_dynamic::is_canonical(alloc, &schema, id, octets)?;
/// // `is_canonical` is false: DER has the octet FF for TRUE (X.690 11.1)
/// ```
pub fn is_canonical(
    alloc: Global,
    schema: &Schema,
    id: TypeId,
    octets: &[u8],
) -> Result<bool, AllocError>
    ensures { IfOk result (λ answer. IsWhether answer (IsNormal Der (shape_of schema.now.types.items id.0) octets.now octets.now)) }
{
    match normalise(alloc, Codec::Der, schema, id, octets) {
        Ok(normal) => Ok(normal.as_slice() == octets),
        Err(error) => {
            if error.is_out_of_memory() {
                return Err(AllocError);
            }
            Ok(false)
        }
    }
}
