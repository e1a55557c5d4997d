//! Writes values that hold no other values.
ghost use Rattle.std.specs.Prelude.{◌≡◌, ◌⊎◌, true, chars, OnOk, OnErr, IfOk, IfErr, MatchOption, map};
ghost use Rattle.rasn_types.specs.Shapes.{bits, numbers, joined, tagged_as, done, leaf, any, unknown, looked_for, enumerated, universal};
ghost use Rattle.rasn_types.specs.Shapes.Parts.{none};
ghost use Rattle.rasn_types.specs.Trees.{unconstrained};
ghost use Rattle.rasn_schema.specs.Trees.{tree_of};
ghost use Rattle.rasn_schema.specs.Shapes.{kind_of, numbers_of};
ghost use Rattle.rasn_schema.specs.declared.types.LeafKind.TheVariants.{Utf8, Universal};
ghost use Rattle.rasn_schema.specs.Fitting.{BitsFit, OctetsFit, FitsLeaf, IsNumber, AreOctets, AreItems, EachFits};
ghost use Rattle.rasn_enc.specs.Encoding.{AppendsEncoding, EncodeFails};
ghost use Rattle.rasn_enc.specs.Primitive.{IsAllocError};
ghost use Rattle.rasn_enc.specs.SortedSet.{HoldsParts, FailsAtComponents};
ghost use Rattle.rasn_dynamic.specs.Making.{reported};
ghost use Rattle.rasn_dynamic.specs.Written.{Encodes, EncodesIf};

use crate::kept::{keep, kept, refuse_form};
use crate::walk::Refused;
use rasn_enc::ber::enc::Encoder;
use rasn_enc::ber::enc::set_parts::{SetComponent, unknown_components};
use rasn_enc::enc::Encode;
use rasn_schema::{LeafKind, NamedNumber, Value, is_listed, items_of, leaf_fits, universal_octets};
use rasn_types::error::{EncodeError, EncodeErrorKind};
use rasn_types::types::{Any, BitStr, Constraints, Identifier, Integer, Tag, Unknown};
use std::alloc::{AllocError, Global};

/// Returns an error for a value of another form than its type's. No public call returns it:
/// `encode` asks `fits` after an error, and returns `Unfit` then.
pub fn other_form(encoder: &Encoder) -> EncodeError
    ensures { result.codec ≡ encoder.now.rule }
{
    EncodeError {
        kind: EncodeErrorKind::RealNotSupported,
        codec: encoder.codec(),
    }
}

/// Returns the error that an allocation failed.
pub fn out_of_room(encoder: &Encoder) -> EncodeError
    ensures { IsAllocError encoder.now.rule result }
{
    EncodeError {
        kind: EncodeErrorKind::OutOfMemory,
        codec: encoder.codec(),
    }
}

/// Writes a BIT STRING, whose bits may have names.
#[inline(always)]
fn encode_bits(
    encoder: &mut Encoder,
    kind: LeafKind,
    tag: Tag,
    constraints: &Constraints,
    value: &BitStr<'_>,
) -> Result<(), EncodeError>
    requires { BitsFit kind value.now }
    ensures does { Encodes (leaf (kind_of kind) tag constraints.now) (bits value.now) encoder.old result encoder.new }
    ensures err { OnErr result (encoder.new ≡ encoder.old) }
    ensures rules { IfErr result (λ e. e.codec ≡ encoder.old.rule) }
{
    match kind {
        LeafKind::NamedBits => encoder.encode_named_bits(
            tag,
            constraints,
            value,
            Identifier::EMPTY,
        ),
        _ => encoder.encode_bit_string(tag, constraints, value, Identifier::EMPTY),
    }
}

/// Writes octets: contents, or a string.
#[inline(always)]
fn encode_octets(
    encoder: &mut Encoder,
    kind: LeafKind,
    tag: Tag,
    constraints: &Constraints,
    octets: &[u8],
) -> Result<(), EncodeError>
    requires { OctetsFit kind octets.now }
    ensures does { Encodes (leaf (kind_of kind) tag constraints.now) (numbers octets.now) encoder.old result encoder.new }
    ensures err { OnErr result (encoder.new ≡ encoder.old) }
    ensures rules { IfErr result (λ e. e.codec ≡ encoder.old.rule) }
{
    match kind {
        LeafKind::Real
        | LeafKind::Time
        | LeafKind::Duration
        | LeafKind::TimeOfDay
        | LeafKind::DateTime => encoder.encode_contents(tag, octets),
        _ => encoder.encode_octet_string(tag, constraints, octets, Identifier::EMPTY),
    }
}

/// Writes the characters of a UTF8String or a UniversalString.
#[inline(always)]
fn encode_text(
    encoder: &mut Encoder,
    kind: LeafKind,
    tag: Tag,
    constraints: &Constraints,
    text: &str,
) -> Result<(), EncodeError>
    requires { (kind ≡ Utf8) ⊎ (kind ≡ Universal) }
    ensures does { Encodes (leaf (kind_of kind) tag constraints.now) (numbers (chars text.now)) encoder.old result encoder.new }
    ensures err { OnErr result (encoder.new ≡ encoder.old) }
    ensures rules { IfErr result (λ e. e.codec ≡ encoder.old.rule) }
{
    match kind {
        LeafKind::Universal => encode_universal(encoder, tag, constraints, text),
        _ => encoder.encode_utf8_string(tag, constraints, text, Identifier::EMPTY),
    }
}

/// Writes a UniversalString, four octets a character (X.690 8.23.7). Its size is in characters.
#[inline(never)]
fn encode_universal(
    encoder: &mut Encoder,
    tag: Tag,
    constraints: &Constraints,
    text: &str,
) -> Result<(), EncodeError>
    ensures does { Encodes (leaf universal tag constraints.now) (numbers (chars text.now)) encoder.old result encoder.new }
    ensures err { OnErr result (encoder.new ≡ encoder.old) }
    ensures rules { IfErr result (λ e. e.codec ≡ encoder.old.rule) }
{
    let Ok(octets) = universal_octets(encoder.alloc(), text) else {
        return Err(out_of_room(encoder));
    };
    encoder.check_size(constraints, octets.len() / 4)?;
    encoder.encode_octet_string(tag, &Constraints::NONE, &octets, Identifier::EMPTY)
}

/// Writes a value as one of a type written in Rattle, and keeps the error.
#[inline(always)]
fn encode_held<T: Encode>(
    held: &T,
    encoder: &mut Encoder,
    tag: Tag,
    constraints: &Constraints,
    error: &mut EncodeError,
) -> Result<(), Refused>
    ensures ok { OnOk (reported result error.new) (AppendsEncoding (tagged_as tag constraints.now T.shape) (T.tree held.now) encoder.old encoder.new) }
    ensures err { OnErr (reported result error.new) (encoder.new ≡ encoder.old) }
    ensures refused { IfErr (reported result error.new) (EncodeFails (tagged_as tag constraints.now T.shape) (T.tree held.now) encoder.old) }
    ensures rules { IfErr (reported result error.new) (λ e. e.codec ≡ encoder.old.rule) }
{
    kept(
        held.encode_with_tag_and_constraints(encoder, tag, constraints, Identifier::EMPTY),
        error,
    )
}

/// Writes a value that holds no other values.
#[inline(never)]
pub fn encode_leaf(
    encoder: &mut Encoder,
    kind: LeafKind,
    tag: Tag,
    constraints: &Constraints,
    value: &Value<'_>,
    error: &mut EncodeError,
) -> Result<(), Refused>
    ensures { EncodesIf (FitsLeaf kind value.now) (leaf (kind_of kind) tag constraints.now) (tree_of value.now) encoder.old (reported result error.new) encoder.new }
{
    if !leaf_fits(kind, value) {
        return refuse_form(encoder, error);
    }
    match value {
        Value::Boolean(held) => encode_held(held, encoder, tag, constraints, error),
        Value::Null => encode_held(&(), encoder, tag, constraints, error),
        Value::Integer(held) => kept(
            encoder.encode_integer::<Integer>(tag, constraints, held, Identifier::EMPTY),
            error,
        ),
        Value::Bits(held) => kept(
            encode_bits(encoder, kind, tag, constraints, &held.as_bitstr()),
            error,
        ),
        Value::Octets(held) => kept(
            encode_octets(encoder, kind, tag, constraints, held.as_slice()),
            error,
        ),
        Value::Text(held) => kept(
            encode_text(encoder, kind, tag, constraints, held.as_str()),
            error,
        ),
        Value::Units(held) => encode_held(held, encoder, tag, constraints, error),
        Value::Arcs(held) => encode_held(held, encoder, tag, constraints, error),
        Value::Instant(held) => {
            if matches!(kind, LeafKind::UtcTime) {
                encode_held(&held.utc(), encoder, tag, constraints, error)
            } else {
                encode_held(held, encoder, tag, constraints, error)
            }
        }
        Value::Day(held) => encode_held(held, encoder, tag, constraints, error),
        Value::Items(_) | Value::Elements(_) | Value::Chosen(_, _) | Value::Absent => {
            unreachable!()
        }
    }
}

/// Writes a number of an ENUMERATED.
#[inline(never)]
pub fn encode_number(
    encoder: &mut Encoder,
    tag: Tag,
    numbers: &[NamedNumber],
    value: &Value<'_>,
    error: &mut EncodeError,
) -> Result<(), Refused>
    ensures { EncodesIf (IsNumber (numbers_of numbers.now) value.now) (leaf (enumerated (numbers_of numbers.now)) tag unconstrained) (tree_of value.now) encoder.old (reported result error.new) encoder.new }
{
    let Value::Integer(held) = value else {
        return refuse_form(encoder, error);
    };
    if !is_listed(numbers, held) {
        return refuse_form(encoder, error);
    }
    kept(
        encoder.encode_integer::<Integer>(tag, &Constraints::NONE, held, Identifier::EMPTY),
        error,
    )
}

/// Writes a value of an open type.
#[inline(never)]
pub fn encode_open_value(
    encoder: &mut Encoder,
    tag: Tag,
    value: &Value<'_>,
    error: &mut EncodeError,
) -> Result<(), Refused>
    ensures { EncodesIf (AreOctets value.now) (any (looked_for tag)) (tree_of value.now) encoder.old (reported result error.new) encoder.new }
{
    let Value::Octets(held) = value else {
        return refuse_form(encoder, error);
    };
    kept(encoder.encode_open(tag, held.as_slice()), error)
}

/// Copies the octets of a value of an open type.
fn copy_octets(alloc: Global, value: &Value<'_>) -> Result<Option<Any>, AllocError>
    ensures { IfOk result (λ found. MatchOption found (AreOctets value.now → ⊥) (λ a. AreOctets value.now × (numbers a ≡ tree_of value.now))) }
{
    let Value::Octets(held) = value else {
        return Ok(None);
    };
    Ok(Some(Any::new(Vec::from_slice(alloc, held.as_slice())?)))
}

/// Copies the octets of unknown values.
fn copy_unknown(alloc: Global, values: &[Value<'_>]) -> Result<Option<Unknown>, AllocError>
    ensures { IfOk result (λ found. MatchOption found (EachFits AreOctets values.now → ⊥) (λ u. EachFits AreOctets values.now × (map numbers u.values.items ≡ map tree_of values.now))) }
{
    let mut copies = Vec::new(alloc);
    let mut rest = values;
    while let [value, after @ ..] = rest {
        let Some(copy) = copy_octets(alloc, value)? else {
            return Ok(None);
        };
        copies.push(copy)?;
        rest = after;
    }
    Ok(Some(Unknown { values: copies }))
}

/// Writes the octets of unknown values, one value after the other (X.680 25).
#[inline(never)]
pub fn encode_unknown_values(
    encoder: &mut Encoder,
    value: &Value<'_>,
    error: &mut EncodeError,
) -> Result<(), Refused>
    ensures { EncodesIf (AreItems (EachFits AreOctets) value.now) unknown (tree_of value.now) encoder.old (reported result error.new) encoder.new }
{
    let Some(values) = items_of(value) else {
        return refuse_form(encoder, error);
    };
    match copy_unknown(encoder.alloc(), values) {
        Ok(Some(values)) => kept(encoder.encode_unknown(&values), error),
        Ok(None) => refuse_form(encoder, error),
        Err(_) => keep(out_of_room(encoder), error),
    }
}

/// Returns the unknown components of a SET, a list of octets, in the order of their tags (X.680
/// 27).
pub fn unknown_as_components(
    encoder: &Encoder,
    value: &Value<'_>,
) -> Result<Vec<SetComponent>, EncodeError>
    ensures ok { IfOk result (λ v. AreItems (EachFits AreOctets) value.now × HoldsParts true none (joined (tree_of value.now) done) encoder.now.rule v.items) }
    ensures refused { AreItems (EachFits AreOctets) value.now → IfErr result (FailsAtComponents true none (joined (tree_of value.now) done) encoder.now.rule) }
    ensures rules { IfErr result (λ e. e.codec ≡ encoder.now.rule) }
{
    let Some(values) = items_of(value) else {
        return Err(other_form(encoder));
    };
    let alloc = encoder.alloc();
    match copy_unknown(alloc, values) {
        Ok(Some(copies)) => unknown_components(alloc, encoder.codec(), &copies.values),
        Ok(None) => Err(other_form(encoder)),
        Err(_) => Err(out_of_room(encoder)),
    }
}
