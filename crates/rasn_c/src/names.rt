//! Distinguished names as text (RFC 4514).
ghost use Rattle.std.specs.Prelude.{IfOk};
ghost use Rattle.rasn_c.specs.Status.{IsNumberOf};
ghost use Rattle.rasn_c.specs.Names.{AnswersName, IsEndedText};

use crate::buffers::fill;
use crate::rules::rule_numbered;
use crate::status::Status;
use crate::whole::whole_value;
use rasn_pkix::Name;
use rasn_text::name_text;
use std::alloc::{AllocError, Global};

/// Writes the text of the Name (RFC 5280, 4.1.2.4) that all of the octets are to the buffer, with a
/// zero after it. `needed` is the number of octets of this text, also if the buffer is smaller; the
/// buffer is then unchanged.
#[unsafe(no_mangle)]
pub extern "C" fn soq_proved_name_text(
    alloc: Global,
    rule: u32,
    octets: &[u8],
    buffer: &mut [u8],
    needed: &mut usize,
) -> u32
    ensures { IsNumberOf (AnswersName rule octets.now buffer.old buffer.new needed.new) result }
{
    put_name(alloc, rule, octets, buffer, needed).number()
}

fn put_name(
    alloc: Global,
    rule: u32,
    octets: &[u8],
    buffer: &mut [u8],
    needed: &mut usize,
) -> Status
    ensures { AnswersName rule octets.now buffer.old buffer.new needed.new result }
{
    *needed = 0;
    let Some(rule) = rule_numbered(rule) else {
        return Status::UnknownRule;
    };
    let name = match whole_value::<Name>(alloc, rule, octets) {
        Ok(name) => name,
        Err(status) => return status,
    };
    let Ok(text) = ended_text(alloc, &name) else {
        return Status::OutOfMemory;
    };
    fill(&text, buffer, needed)
}

/// Returns the text of a name, and a zero.
fn ended_text(alloc: Global, name: &Name) -> Result<Vec<u8>, AllocError>
    ensures { IfOk result (λ text. IsEndedText name.now text.items) }
{
    let mut text = name_text(alloc, name)?.into_bytes();
    text.push(0)?;
    Ok(text)
}
