//! Octets that are one whole value of a type, and that value as text.
ghost use Rattle.std.specs.Prelude.{◌≡◌, ◌-◌, [], length, IfOk, IfErr, MatchResult};
ghost use Rattle.rasn_types.specs.Errors.{IsOutOfMemory};
ghost use Rattle.rasn_schema.specs.Trees.{tree_of};
ghost use Rattle.rasn.specs.Headline.{IsExtraData};
ghost use Rattle.rasn_print.specs.Reading.{IsRead, IsMessage, IsRefused};

use crate::known::Known;
use crate::printer::value_text;
use crate::types::MessageType;
use rasn::refuse_remainder;
use rasn_dynamic::{Refusal, check_or_locate, decode_or_locate};
use rasn_schema::Value;
use rasn_types::error::{DecodeError, DecodeErrorKind};
use rasn_types::types::Codec;
use std::alloc::Global;

/// Returns the refusal at a place that is in no part of a value of this type.
fn refusal_at(alloc: Global, wanted: &MessageType<'_>, error: DecodeError, offset: usize) -> Refusal
    ensures { (result.error ≡ error) × (result.offset ≡ offset) }
{
    Refusal {
        error,
        offset,
        id: wanted.root,
        steps: Vec::new(alloc),
        is_cut: false,
    }
}

/// Returns the refusal that memory ran out.
pub(crate) fn out_of_memory(alloc: Global, wanted: &MessageType<'_>) -> Refusal
    ensures { IsOutOfMemory result.error.kind }
{
    let (kind, codec) = (DecodeErrorKind::OutOfMemory, wanted.rule);
    refusal_at(alloc, wanted, DecodeError { kind, codec }, 0)
}

/// Returns the refusal of so many octets that follow a value of BER.
pub(crate) fn remainder(
    alloc: Global,
    wanted: &MessageType<'_>,
    octets: &[u8],
    length: usize,
) -> Refusal {
    let error = DecodeError {
        kind: DecodeErrorKind::UnexpectedExtraData { length },
        codec: Codec::Ber,
    };
    refusal_at(alloc, wanted, error, octets.len().saturating_sub(length))
}

/// Refuses octets after the value, which begin at this place.
pub(crate) fn refuse_rest(
    alloc: Global,
    wanted: &MessageType<'_>,
    octets: &[u8],
    rest: &[u8],
) -> Result<(), Refusal>
    ensures { MatchResult result (λ _. rest.now ≡ []) (λ r. IsExtraData wanted.now.rule rest.now r.error × (r.offset ≡ length octets.now - length rest.now)) }
{
    match refuse_remainder(wanted.rule, rest) {
        Ok(()) => Ok(()),
        Err(error) => {
            let offset = octets.len().saturating_sub(rest.len());
            Err(refusal_at(alloc, wanted, error, offset))
        }
    }
}

/// Checks that all of the octets encode one value of the type under its rules. Under DER they are
/// then its only encoding (X.690 10).
///
/// # Errors
/// Memory aside, exactly if they don't: the innermost value that can't be read, or what follows the
/// value.
pub fn check(alloc: Global, wanted: &MessageType<'_>, octets: &[u8]) -> Result<(), Refusal>
    ensures { MatchResult result (λ _. IsMessage wanted.now octets.now) (IsRefused wanted.now octets.now) }
{
    let rest = check_or_locate(alloc, wanted.rule, wanted.schema, wanted.root, octets)?;
    refuse_rest(alloc, wanted, octets, rest)
}

/// Returns the value that all of the octets encode under the rules of the type.
///
/// # Errors
/// As [`check`].
pub(crate) fn read_alone<'input>(
    alloc: Global,
    wanted: &MessageType<'_>,
    octets: &'input [u8],
) -> Result<Value<'input>, Refusal>
    ensures ok { IfOk result (λ v. IsRead wanted.now octets.now (tree_of v) []) }
    ensures err { IfErr result (IsRefused wanted.now octets.now) }
{
    match decode_or_locate(alloc, wanted.rule, wanted.schema, wanted.root, octets) {
        Ok((value, rest)) => match refuse_rest(alloc, wanted, octets, rest) {
            Ok(()) => Ok(value),
            Err(refusal) => Err(refusal),
        },
        Err(refusal) => Err(refusal),
    }
}

/// Returns the value that all of the octets encode under the rules of the type, as lines, the first
/// of which has the name of the type.
///
/// # Errors
/// As [`check`].
pub fn show(
    alloc: Global,
    known: &Known<'_>,
    wanted: &MessageType<'_>,
    octets: &[u8],
) -> Result<String, Refusal>
    ensures { MatchResult result (λ _. IsMessage wanted.now octets.now) (IsRefused wanted.now octets.now) }
{
    let value = read_alone(alloc, wanted, octets)?;
    match value_text(alloc, known, wanted, &value) {
        Ok(text) => Ok(text),
        Err(_) => Err(out_of_memory(alloc, wanted)),
    }
}
