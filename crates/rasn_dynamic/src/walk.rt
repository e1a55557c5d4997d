//! The state of one reading.
ghost use Rattle.std.specs.Prelude.{◌≡◌, ◌+◌, ◌<◌, ◌^◌, length, Some, None};
ghost use Rattle.rasn_de.specs.Set.{PeeksInOrder};
ghost use Rattle.rasn_de.specs.Steps.{PeeksTag, IsNextTag};
ghost use Rattle.rasn_dynamic.specs.declared.trace.UnreadValue.{UnreadValue};
ghost use Rattle.rasn_dynamic.specs.Faults.{octets_after};
ghost use Rattle.rasn_dynamic.specs.Making.{reported};
ghost use Rattle.rasn_dynamic.specs.Readers.{IsCounted};

use crate::span::Spans;
use crate::trace::{UnreadValue, add_after, octets_after};
use rasn_de::ber::de::Decoder;
use rasn_types::error::{DecodeError, DecodeErrorKind};
use rasn_types::types::{Codec, Tag};

/// Says that a value isn't read or written. The error is stored in the caller's `error`.
#[derive(Clone, Copy)]
pub struct Refused;

/// The state of one reading: the error, its place, and the parts so far.
#[derive(Drop)]
pub struct Walk<'input> {
    /// The innermost value that can't be read, once one can't.
    pub fault: Option<UnreadValue>,
    /// Why it can't be read. Until then, any error.
    pub error: DecodeError,
    /// The parts that have been read.
    pub spans: Spans<'input>,
}

/// Returns what is known before anything is read.
pub fn new_walk<'input>(rule: Codec, spans: Spans<'input>) -> Walk<'input>
    ensures clear { result.fault ≡ None }
    ensures spans { result.spans ≡ spans.entry }
{
    Walk {
        fault: None,
        error: DecodeError {
            kind: DecodeErrorKind::UnexpectedEmptyInput,
            codec: rule,
        },
        spans,
    }
}

/// Keeps the error of an outcome, if it is one.
///
/// It takes the outcome by value, which costs time: where a value is opened, closed or made, and in
/// the checks of values that hold no others, a `match` keeps the error instead.
#[inline(always)]
pub fn kept<T>(outcome: Result<T, DecodeError>, error: &mut DecodeError) -> Result<T, Refused>
    ensures { reported result error.new ≡ outcome }
{
    match outcome {
        Ok(value) => Ok(value),
        Err(fault) => {
            *error = fault;
            Err(Refused)
        }
    }
}

/// Passes on how many elements were read in contents. If the contents weren't read, counts the octets after them, which their
/// decoder doesn't see, for the value inside that is named.
#[inline(always)]
pub fn count_after(
    decoder: &Decoder<'_>,
    inner: &Decoder<'_>,
    fault: &mut Option<UnreadValue>,
    read: Result<usize, Refused>,
) -> Result<usize, Refused>
    requires { (f : UnreadValue) → fault.old ≡ Some f → f.left + octets_after inner.now.closing (length decoder.now.rest) < 2 ^ 64 }
    ensures { IsCounted (octets_after inner.now.closing (length decoder.now.rest)) read fault.old result fault.new }
{
    match read {
        Ok(count) => Ok(count),
        Err(refused) => {
            add_after(fault, octets_after(decoder, inner));
            Err(refused)
        }
    }
}

/// Returns the next tag, or stores in `error` why there is none.
#[inline(never)]
pub fn peek(decoder: &Decoder<'_>, error: &mut DecodeError) -> Result<Tag, Refused>
    ensures next { IsNextTag decoder.now (reported result error.new) }
    ensures exact { PeeksTag decoder.now (reported result error.new) }
{
    kept(decoder.peek_tag(), error)
}

/// Returns the next tag under DER, which must not be less than the last one, or keeps the error.
pub fn peek_in_order(
    decoder: &Decoder<'_>,
    error: &mut DecodeError,
    last: Option<Tag>,
) -> Result<Option<Tag>, Refused>
    ensures { PeeksInOrder last decoder.now (reported result error.new) }
{
    kept(decoder.peek_tag_in_order(last), error)
}
