//! A message as JSON, JSON as a message, and the DER octets of a message.
ghost use Rattle.std.specs.Prelude.{◌≡◌, ◌++◌, ◌∷◌, [], MatchResult};
ghost use Rattle.rasn_json.specs.Entry.{IsMemoryAlone};
ghost use Rattle.rasn_json.specs.Refusals.{IsMemory};
ghost use Rattle.rasn_json.specs.declared.entry.EncodeJsonError.TheVariants.{Encode};
ghost use Rattle.rasn_c.specs.Status.{IsNumberOf};
ghost use Rattle.rasn_c.specs.declared.status.Status.TheVariants.{OutOfMemory};
ghost use Rattle.rasn_c.specs.Reasons.{IsPlain, IsStopAt, no_reason};
ghost use Rattle.rasn_c.specs.Converting.{AnswersJson, AnswersEncode, AnswersNormaliseBy, IsJson, IsNoJsonBy, IsEncodedFrom, IsNotEncodedBy, IsNormalBy, IsNotNormalised, column_of, layout_of, line_of};

use crate::buffers::deliver;
use crate::checking::unread_stop;
use crate::reasons::{CallStop, NO_REASON, Reason, path_length, report, stop_of, without_memory};
use crate::schemas::{Query, query_of};
use crate::status::Status;
use rasn::NormaliseError;
use rasn_dynamic::{WriteError, normalise};
use rasn_json::{EncodeJsonError, JsonError, JsonErrorKind, Layout, ToJsonError, encode, json};
use std::alloc::Global;
use std::str;

/// Writes the JSON text (X.697) of the value that all of the octets are to the buffer, and a zero:
/// with a line for each member and element if `lines` isn't 0.
#[unsafe(no_mangle)]
pub extern "C" fn soq_proved_json(
    alloc: Global,
    schema: &[u8],
    rule: u32,
    lines: u32,
    octets: &[u8],
    buffer: &mut [u8],
    needed: &mut usize,
    reason: &mut Reason,
    text: &mut [u8],
) -> u32
    ensures { IsNumberOf (AnswersJson schema.now rule lines octets.now reason.new text.old text.new buffer.old buffer.new needed.new) result }
{
    let made = json_by(alloc, schema, rule, lines, octets);
    deliver(report(made, reason, text), buffer, needed).number()
}

/// Returns the JSON text of a message, and a zero.
fn json_by(
    alloc: Global,
    schema: &[u8],
    rule: u32,
    lines: u32,
    octets: &[u8],
) -> Result<Vec<u8>, CallStop>
    ensures { MatchResult result (λ v. IsJson schema.now rule lines octets.now v.items) (λ stop. IsNoJsonBy schema.now rule octets.now stop stop.status) }
{
    let Query { schema, root, rule } = query_of(alloc, schema, rule)?;
    match json(alloc, rule, &schema, root, octets, layout_of(lines)) {
        Ok(text) => with_zero(alloc, text.into_bytes()),
        Err(ToJsonError::Decode(_)) => Err(unread_stop(alloc, rule, &schema, root, octets)),
        Err(ToJsonError::Json(error)) => Err(json_stop(alloc, &error)),
    }
}

/// Returns how JSON is laid out.
fn layout_of(lines: u32) -> Layout
    ensures { result ≡ layout_of lines }
{
    if lines == 0 {
        Layout::Compact
    } else {
        Layout::Indented
    }
}

/// Returns the octets with a zero after them.
fn with_zero(alloc: Global, octets: Vec<u8>) -> Result<Vec<u8>, CallStop>
    ensures { MatchResult result (λ v. v.items ≡ octets.items ++ 0 ∷ []) (IsPlain OutOfMemory) }
{
    let mut octets = octets;
    match octets.push(0) {
        Ok(()) => Ok(octets),
        Err(_) => Err(CallStop::plain(alloc, Status::OutOfMemory)),
    }
}

/// Writes the octets, by the rules of this number, of the value whose JSON text this is to the
/// buffer.
#[unsafe(no_mangle)]
pub extern "C" fn soq_proved_encode(
    alloc: Global,
    schema: &[u8],
    rule: u32,
    json: &[u8],
    buffer: &mut [u8],
    needed: &mut usize,
    reason: &mut Reason,
    text: &mut [u8],
) -> u32
    ensures { IsNumberOf (AnswersEncode schema.now rule json.now reason.new text.old text.new buffer.old buffer.new needed.new) result }
{
    let made = encode_by(alloc, schema, rule, json);
    deliver(report(made, reason, text), buffer, needed).number()
}

/// Returns the octets of the value of a JSON text.
fn encode_by(alloc: Global, schema: &[u8], rule: u32, json: &[u8]) -> Result<Vec<u8>, CallStop>
    ensures { MatchResult result (λ v. IsEncodedFrom schema.now rule json.now v.items) (λ stop. IsNotEncodedBy schema.now rule json.now stop stop.status) }
{
    let Query { schema, root, rule } = query_of(alloc, schema, rule)?;
    let Ok(json) = str::from_utf8(json) else {
        return Err(stop_of(alloc, Status::Refused, "the JSON text isn't UTF-8"));
    };
    match encode(alloc, rule, &schema, root, json) {
        Ok(octets) => Ok(octets),
        Err(EncodeJsonError::Json(error)) => Err(json_stop(alloc, &error)),
        Err(EncodeJsonError::Encode(error)) => Err(write_stop(alloc, &error)),
    }
}

/// Returns the end for JSON that is refused, or for a value that has none.
fn json_stop(alloc: Global, error: &JsonError) -> CallStop
    ensures place { IsStopAt (line_of error.now.kind) (column_of error.now.kind) result result.status }
    ensures memory { IsMemory error.now → result.status ≡ OutOfMemory }
{
    if error.is_out_of_memory() {
        return CallStop::plain(alloc, Status::OutOfMemory);
    }
    let kind = &error.kind;
    let (Ok(text), Ok(own)) = (format!(in alloc; "{error}"), format!(in alloc; "{kind}")) else {
        return CallStop::plain(alloc, Status::OutOfMemory);
    };
    let mut reason = place_in(kind);
    reason.path_length = path_length(text.len(), own.len());
    CallStop::of_text(Status::Refused, reason, text)
}

/// Returns a reason with the line and the column of a fault that is in a text.
fn place_in(kind: &JsonErrorKind) -> Reason
    ensures { result ≡ record no_reason { line = line_of kind.now; column = column_of kind.now } }
{
    let mut reason = NO_REASON;
    if let JsonErrorKind::Syntax { line, column }
    | JsonErrorKind::TextTooDeep { line, column } = kind
    {
        reason.line = u32::try_from(*line).unwrap_or(u32::MAX);
        reason.column = u32::try_from(*column).unwrap_or(u32::MAX);
    }
    reason
}

/// Returns the end for a value that isn't written.
fn write_stop(alloc: Global, error: &WriteError) -> CallStop
    ensures place { IsStopAt 0 0 result result.status }
    ensures memory { IsMemoryAlone (Encode error.now) → result.status ≡ OutOfMemory }
{
    if let WriteError::Encode(inner) = error {
        if inner.is_out_of_memory() {
            return CallStop::plain(alloc, Status::OutOfMemory);
        }
    }
    match format!(in alloc; "{error}") {
        Ok(text) => CallStop::of_text(Status::Refused, NO_REASON, text),
        Err(error) => without_memory(alloc, error),
    }
}

/// Writes the DER octets of the value that all of the octets are to the buffer.
#[unsafe(no_mangle)]
pub extern "C" fn soq_proved_normalise_by(
    alloc: Global,
    schema: &[u8],
    rule: u32,
    octets: &[u8],
    buffer: &mut [u8],
    needed: &mut usize,
    reason: &mut Reason,
    text: &mut [u8],
) -> u32
    ensures { IsNumberOf (AnswersNormaliseBy schema.now rule octets.now reason.new text.old text.new buffer.old buffer.new needed.new) result }
{
    let made = normalise_by(alloc, schema, rule, octets);
    deliver(report(made, reason, text), buffer, needed).number()
}

/// Returns the DER octets of a message.
fn normalise_by(alloc: Global, schema: &[u8], rule: u32, octets: &[u8]) -> Result<Vec<u8>, CallStop>
    ensures { MatchResult result (λ v. IsNormalBy schema.now rule octets.now v.items) (λ stop. IsNotNormalised schema.now rule octets.now stop.status) }
{
    let Query { schema, root, rule } = query_of(alloc, schema, rule)?;
    match normalise(alloc, rule, &schema, root, octets) {
        Ok(normal) => Ok(normal),
        Err(error) if error.is_out_of_memory() => Err(CallStop::plain(alloc, Status::OutOfMemory)),
        Err(NormaliseError::Decode(_)) => Err(unread_stop(alloc, rule, &schema, root, octets)),
        Err(error) => match format!(in alloc; "{error}") {
            Ok(text) => Err(CallStop::of_text(Status::Refused, NO_REASON, text)),
            Err(error) => Err(without_memory(alloc, error)),
        },
    }
}
