//! Why a call by a schema has no result.
ghost use Rattle.std.specs.Prelude.{◌≡◌, ◌-◌, length, string_bytes, IfOk};
ghost use Rattle.rasn_c.specs.ErrorKinds.{kind_number};
ghost use Rattle.rasn_c.specs.declared.status.Status.TheVariants.{OutOfMemory};
ghost use Rattle.rasn_c.specs.Reasons.{IsPlain, IsNamedText, IsStopOf, IsStatusOr, IsReported, no_reason};

use crate::buffers::put_text;
use crate::error_kinds::kind_number;
use crate::status::Status;
use rasn_dynamic::{NamedRefusal, Refusal};
use rasn_schema::{Schema, TypeId};
use std::alloc::{AllocError, Global};

/// Why a call by a schema has no result: `soq_reason` of the header.
#[repr(C)]
#[derive(Clone, Copy, Debug, PartialEq, Eq)]
pub struct Reason {
    /// The number of the kind of a decoding error, otherwise 0.
    pub kind: u32,
    /// The line of a text in which the fault is, counted from 1; 0 if it isn't in a text.
    pub line: u32,
    /// Its column, counted from 1.
    pub column: u32,
    /// Where the value that is refused begins, in octets from the start of the message.
    pub offset: usize,
    /// How many octets at the front of the text are the path to the part.
    pub path_length: usize,
    /// The number of octets of the text.
    pub text_length: usize,
}

/// There is nothing to report.
pub(crate) const NO_REASON: Reason = Reason {
    kind: 0,
    line: 0,
    column: 0,
    offset: 0,
    path_length: 0,
    text_length: 0,
};

/// The end of a call that has no result.
#[derive(Debug, Drop)]
pub(crate) struct CallStop {
    pub status: Status,
    pub reason: Reason,
    pub text: String,
}

impl CallStop {
    /// Returns an end that has a status alone.
    pub(crate) fn plain(alloc: Global, status: Status) -> CallStop
        ensures { IsPlain status result }
    {
        CallStop {
            status,
            reason: NO_REASON,
            text: String::new(alloc),
        }
    }

    /// Returns an end with this status, reason and text.
    pub(crate) fn of_text(status: Status, reason: Reason, text: String) -> CallStop
        ensures status { result.status ≡ status }
        ensures reason { result.reason ≡ record reason { text_length = length (string_bytes text) } }
        ensures text { string_bytes result.text ≡ string_bytes text }
    {
        let mut reason = reason;
        reason.text_length = text.len();
        CallStop {
            status,
            reason,
            text,
        }
    }

    /// Returns the end for a refusal of a message, whose type has this number. Inside an open type
    /// the path goes on by these indices.
    pub(crate) fn of_refusal(
        alloc: Global,
        schema: &Schema,
        root: TypeId,
        inner: &[usize],
        refusal: &Refusal,
    ) -> CallStop
        ensures { IsStopOf schema.now root inner.now refusal.now result }
    {
        if refusal.error.is_out_of_memory() {
            return CallStop::plain(alloc, Status::OutOfMemory);
        }
        let named = NamedRefusal {
            schema,
            id: root,
            refusal,
            inner,
        };
        match named_text(alloc, &named) {
            Ok((text, path_length)) => {
                let reason = reason_of(refusal, path_length);
                CallStop::of_text(Status::Refused, reason, text)
            }
            Err(error) => without_memory(alloc, error),
        }
    }
}

/// Returns the text of a refusal with the names on the way, and how many octets of it are the path.
fn named_text(alloc: Global, named: &NamedRefusal<'_>) -> Result<(String, usize), AllocError>
    ensures { IfOk result (λ r. IsNamedText named.now.schema.now named.now.id named.now.inner.now named.now.refusal.now (string_bytes r.0) r.1) }
{
    let text = format!(in alloc; "{named}")?;
    let own = format!(in alloc; "{}", named.refusal)?;
    let path_length = path_length(text.len(), own.len());
    Ok((text, path_length))
}

/// Returns the reason of a refusal, with so many octets of a path.
fn reason_of(refusal: &Refusal, path_length: usize) -> Reason
    ensures { result ≡ record no_reason { kind = kind_number refusal.now.error.kind; offset = refusal.now.offset; path_length = path_length } }
{
    Reason {
        kind: kind_number(&refusal.error.kind),
        line: 0,
        column: 0,
        offset: refusal.offset,
        path_length,
        text_length: 0,
    }
}

/// Returns how many octets of a text are the path before the text's own part. Two octets, a comma
/// or a colon and a space, are between the two.
pub(crate) fn path_length(text: usize, own: usize) -> usize
    ensures { result ≡ (text - own) - 2 }
{
    text.saturating_sub(own).saturating_sub(2)
}

/// Returns the end of a call for which memory ran out.
pub(crate) fn without_memory(alloc: Global, _error: AllocError) -> CallStop
    ensures { IsPlain OutOfMemory result }
{
    CallStop::plain(alloc, Status::OutOfMemory)
}

/// Returns an end with this status and text.
pub(crate) fn stop_of(alloc: Global, status: Status, text: &str) -> CallStop
    ensures { IsStatusOr status result }
{
    match String::from_str(alloc, text) {
        Ok(text) => CallStop::of_text(status, NO_REASON, text),
        Err(error) => without_memory(alloc, error),
    }
}

/// Writes the reason and as much of its text as fits, if a call has no result.
pub(crate) fn report<T>(
    made: Result<T, CallStop>,
    reason: &mut Reason,
    text: &mut [u8],
) -> Result<T, Status>
    ensures { IsReported made reason.new text.old text.new result }
{
    match made {
        Ok(value) => {
            *reason = NO_REASON;
            put_text("", text);
            Ok(value)
        }
        Err(stop) => {
            *reason = stop.reason;
            put_text(stop.text.as_str(), text);
            Err(stop.status)
        }
    }
}
