//! The reason why octets aren't one value.
ghost use Rattle.std.specs.Prelude.{◌≡◌, List, ℕ, Some, IfOk, length, string_bytes};
ghost use Rattle.rasn_types.specs.ErrorText.{shown_decode_error};
ghost use Rattle.rasn_c.specs.Status.{IsNumberOf};
ghost use Rattle.rasn_c.specs.declared.status.Status.TheVariants.{Refused};
ghost use Rattle.rasn_c.specs.Errors.{AnswersError, HoldsText, IsNoFault, IsReportOf};

use crate::buffers::put_text;
use crate::error_kinds::kind_number;
use crate::reading::Reading;
use crate::rules::rule_numbered;
use crate::status::Status;
use crate::types::answer_of;
use rasn::error::DecodeError;
use std::alloc::{AllocError, Global};

/// The reason why octets aren't one value: `soq_fault` of the header.
#[repr(C)]
#[derive(Clone, Copy, Debug, PartialEq, Eq)]
pub struct Fault {
    /// The number of the error's kind; 0 if there is no error.
    pub kind: u32,
    /// The offset of the octets that follow the value; 0 if no value is read.
    pub offset: usize,
    /// The number of octets of the error's text.
    pub text_length: usize,
}

/// Reports why the octets aren't exactly one value. The type and the rules are given by their
/// numbers, and `buffer` receives the text.
#[unsafe(no_mangle)]
pub extern "C" fn soq_proved_decode_error(
    alloc: Global,
    type_number: u32,
    rule: u32,
    octets: &[u8],
    fault: &mut Fault,
    buffer: &mut [u8],
) -> u32
    ensures { IsNumberOf (λ status. HoldsText (λ text. AnswersError type_number rule octets.now fault.new text status) fault.new buffer.old buffer.new) result }
{
    let report = report_of(alloc, type_number, rule, octets);
    *fault = report.fault;
    put_text(report.text.as_str(), buffer);
    report.status.number()
}

/// The result for octets: a status, the fault, and its text.
#[derive(Debug, Drop)]
struct Report {
    status: Status,
    fault: Fault,
    text: String,
}

impl Report {
    /// Returns a result that has a status alone.
    fn without_fault(alloc: Global, status: Status) -> Report
        ensures status { result.status ≡ status }
        ensures none { IsNoFault result.fault }
        ensures text { result.fault.text_length ≡ length (string_bytes result.text) }
    {
        Report {
            status,
            fault: Fault {
                kind: 0,
                offset: 0,
                text_length: 0,
            },
            text: String::new(alloc),
        }
    }

    /// Returns the result for an error at this offset, or for a failed allocation.
    fn of_error(alloc: Global, offset: usize, error: &DecodeError) -> Report
        ensures report { IsReportOf offset error.now result.fault (string_bytes result.text) result.status }
        ensures text { result.fault.text_length ≡ length (string_bytes result.text) }
    {
        if error.is_out_of_memory() {
            return Report::without_fault(alloc, Status::OutOfMemory);
        }
        let Ok(text) = shown(alloc, error) else {
            return Report::without_fault(alloc, Status::OutOfMemory);
        };
        Report::refused(kind_number(&error.kind), offset, text)
    }

    /// Returns the result for octets that are refused from the offset on, for the cause of this
    /// number.
    fn refused(kind: u32, offset: usize, text: String) -> Report
        ensures status { result.status ≡ Refused }
        ensures kind { result.fault.kind ≡ kind }
        ensures offset { result.fault.offset ≡ offset }
        ensures octets { string_bytes result.text ≡ string_bytes text }
        ensures text { result.fault.text_length ≡ length (string_bytes result.text) }
    {
        Report {
            status: Status::Refused,
            fault: Fault {
                kind,
                offset,
                text_length: text.len(),
            },
            text,
        }
    }
}

/// Returns the reason why the octets aren't exactly one value. The type and the rules are given by
/// their numbers.
fn report_of(alloc: Global, type_number: u32, rule: u32, octets: &[u8]) -> Report
    ensures answer { AnswersError type_number rule octets.now result.fault (string_bytes result.text) result.status }
    ensures text { result.fault.text_length ≡ length (string_bytes result.text) }
{
    let Some(rule) = rule_numbered(rule) else {
        return Report::without_fault(alloc, Status::UnknownRule);
    };
    match answer_of::<Reading>(alloc, type_number, rule, octets) {
        None => Report::without_fault(alloc, Status::UnknownType),
        Some(Reading::Alone) => Report::without_fault(alloc, Status::Ok),
        Some(Reading::Refused { offset, error }) => Report::of_error(alloc, offset, &error),
    }
}

/// The text of an error: the rules, and what is wrong.
fn shown(alloc: Global, error: &DecodeError) -> Result<String, AllocError>
    ensures { IfOk result (λ text. shown_decode_error error.now ≡ Some (string_bytes text)) }
{
    format!(in alloc; "{error}")
}
