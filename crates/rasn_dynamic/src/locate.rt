//! Reading a value, with the place where it can't be read.
ghost use Rattle.std.specs.Prelude.{◌≡◌, ◌≤◌, ◌<◌, ◌^◌, length, true, Some, IfOk, IfErr};
ghost use Rattle.rasn_types.specs.Errors.{IsOutOfMemory};
ghost use Rattle.rasn_de.specs.State.{IsEnd};
ghost use Rattle.rasn.specs.Headline.{Answered};
ghost use Rattle.rasn_schema.specs.Trees.{tree_of};
ghost use Rattle.rasn_dynamic.specs.Entry.{FitsType, IsCheckedUpTo, IsReadFirst, shape_of};
ghost use Rattle.rasn_dynamic.specs.Faults.{IsLocated, IsRefusalOf, start, unlocated};
ghost use Rattle.rasn_dynamic.specs.Listed.{Lists, PartsInside};
ghost use Rattle.rasn_dynamic.specs.Times.{HasItsTimes};
ghost use Rattle.rasn_dynamic.specs.declared.trace.UnreadValue.{UnreadValue};

use crate::made::{Made, Nothing, Values};
use crate::reader::decode_at;
use crate::refusal::Refusal;
use crate::span::{Spans, no_list};
use crate::trace::{UnreadValue, octets_left};
use crate::types::Types;
use crate::walk::new_walk;
use rasn_de::ber::de::{Decoder, DecoderOptions};
use rasn_schema::{Schema, TypeId, Value};
use rasn_types::error::{DecodeError, DecodeErrorKind};
use rasn_types::types::Codec;
use std::alloc::Global;

/// Returns the refusal of an input of so many octets.
pub(crate) fn refusal_of(
    alloc: Global,
    error: DecodeError,
    trace: Option<UnreadValue>,
    id: TypeId,
    len: usize,
) -> Refusal
    requires { (f : UnreadValue) → trace ≡ Some f → f.left ≤ len }
    ensures { IsRefusalOf error trace len result }
{
    match trace {
        Some(fault) => {
            let mut steps = fault.steps;
            steps.reverse();
            Refusal {
                error,
                offset: len - fault.left,
                id: fault.id,
                steps,
                is_cut: fault.is_cut,
            }
        }
        None => Refusal {
            error,
            offset: 0,
            id,
            steps: Vec::new(alloc),
            is_cut: false,
        },
    }
}

/// Returns the refusal that memory ran out.
pub(crate) fn out_of_memory(alloc: Global, rule: Codec, id: TypeId) -> Refusal
    ensures kind { IsOutOfMemory result.error.kind }
    ensures rules { result.error.codec ≡ rule }
{
    let error = DecodeError {
        kind: DecodeErrorKind::OutOfMemory,
        codec: rule,
    };
    Refusal {
        error,
        offset: 0,
        id,
        steps: Vec::new(alloc),
        is_cut: false,
    }
}

/// Reads the value with which the input begins, and notes its parts. Returns what is made of it,
/// and what follows it.
///
/// # Errors
/// With the place of the innermost value that can't be read.
pub(crate) fn read_first<'input, M: Made>(
    alloc: Global,
    rule: Codec,
    schema: &Schema,
    id: TypeId,
    input: &'input [u8],
    spans: &mut Spans<'input>,
) -> Result<(Value<'input>, &'input [u8]), Refusal>
    ensures read { IsReadFirst M.KEEP rule (shape_of schema.now.types.items id.0) input.now result }
    ensures times { M.KEEP ≡ true → IfOk result (λ read. HasItsTimes schema.now.types.items rule id.0 input.now read.0) }
    ensures rules { IfErr result (λ r. r.error.codec ≡ rule) }
    ensures located { IfErr result (IsLocated schema.now.types.items rule id.0 input.now) }
    ensures listed { IfOk result (λ read. Lists (λ b es. PartsInside schema.now.types.items 18446744073709551615 id.0 b (start rule input.now) es) spans.old spans.new) }
    ensures short { length input.now < 2 ^ 64 }
{
    let mut decoder = Decoder::new(alloc, input, DecoderOptions::of(rule));
    let len = octets_left(&decoder);
    let mut walk = new_walk(rule, std::mem::replace(spans, no_list()));
    let mut value = Value::Absent;
    let types = Types {
        list: schema.types(),
        levels: usize::MAX,
    };
    match decode_at::<M>(&mut decoder, &mut walk, &types, id, &mut value) {
        Ok(()) => {
            *spans = walk.spans;
            Ok((value, decoder.remaining()))
        }
        Err(_) => Err(refusal_of(alloc, walk.error, walk.fault, id, len)),
    }
}

/// Reads the value at the front of the input, and returns it with the remaining octets.
///
/// # Errors
/// The error of `decode_with_remainder`, with the place of the innermost value that can't be read.
///
/// # Examples
/// ```
/// // `id` is the number of SEQUENCE { name IA5String, ok BOOLEAN } in `schema`.
/// let octets: &[u8] = &[0x30, 0x05, 0x16, 0x00, 0x01, 0x01, 0x05];
/// let read = rasn_dynamic::decode_or_locate(alloc, Codec::Der, &schema, id, octets);
/// // The error has the offset 4 and the steps [1]: `ok` isn't DER (X.690 11.1).
/// ```
pub fn decode_or_locate<'input>(
    alloc: Global,
    rule: Codec,
    schema: &Schema,
    id: TypeId,
    input: &'input [u8],
) -> Result<(Value<'input>, &'input [u8]), Refusal>
    ensures exact { Answered rule (shape_of schema.now.types.items id.0) tree_of input.now (unlocated result) }
    ensures fits { IfOk result (λ read. FitsType schema.now.types.items id.0 read.0) }
    ensures times { IfOk result (λ read. HasItsTimes schema.now.types.items rule id.0 input.now read.0) }
    ensures end { IfOk result (λ read. IsEnd input.now read.1.now) }
    ensures rules { IfErr result (λ r. r.error.codec ≡ rule) }
    ensures located { IfErr result (IsLocated schema.now.types.items rule id.0 input.now) }
{
    read_first::<Values>(alloc, rule, schema, id, input, &mut no_list())
}

/// Checks that a value of the type is at the front of the input, and returns the remaining octets.
/// No value is made, as by `check`.
///
/// # Errors
/// As [`decode_or_locate`].
///
/// # Examples
/// ```
/// let rest = rasn_dynamic::check_or_locate(alloc, Codec::Der, &schema, id, input)?;
/// // `rest` is empty if the input is one value and nothing else
/// ```
pub fn check_or_locate<'input>(
    alloc: Global,
    rule: Codec,
    schema: &Schema,
    id: TypeId,
    input: &'input [u8],
) -> Result<&'input [u8], Refusal>
    ensures exact { IsCheckedUpTo rule (shape_of schema.now.types.items id.0) input.now (unlocated result) }
    ensures end { IfOk result (λ rest. IsEnd input.now rest.now) }
    ensures rules { IfErr result (λ r. r.error.codec ≡ rule) }
    ensures located { IfErr result (IsLocated schema.now.types.items rule id.0 input.now) }
{
    match read_first::<Nothing>(alloc, rule, schema, id, input, &mut no_list()) {
        Ok((value, rest)) => {
            drop(value);
            Ok(rest)
        }
        Err(refusal) => Err(refusal),
    }
}
