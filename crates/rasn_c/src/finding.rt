//! A part of a message by its path.
ghost use Rattle.std.specs.Prelude.{MatchResult};
ghost use Rattle.rasn_c.specs.Status.{IsNumberOf};
ghost use Rattle.rasn_c.specs.Finding.{AnswersFind, IsFound, IsNotFound, IsPathOf, IsNoPath, IsGiven};

use crate::extent::{Extent, NO_EXTENT, extent_of};
use crate::reasons::{CallStop, Reason, report, stop_of, without_memory};
use crate::schemas::{Query, query_of};
use crate::status::Status;
use rasn_dynamic::{find_part, path_named, steps_of};
use std::alloc::Global;
use std::str;

/// Finds the part of the message at the front of the octets to which a path leads, as
/// `extensions[1].extnValue`.
#[unsafe(no_mangle)]
pub extern "C" fn soq_proved_find(
    alloc: Global,
    schema: &[u8],
    rule: u32,
    octets: &[u8],
    path: &[u8],
    part: &mut Extent,
    reason: &mut Reason,
    text: &mut [u8],
) -> u32
    ensures { IsNumberOf (AnswersFind schema.now rule octets.now path.now part.new reason.new text.old text.new) result }
{
    let made = report(find(alloc, schema, rule, octets, path), reason, text);
    put_extent(made, part).number()
}

/// Writes the part, or none, and returns the status.
fn put_extent(made: Result<Extent, Status>, part: &mut Extent) -> Status
    ensures { IsGiven made part.new result }
{
    match made {
        Ok(found) => {
            *part = found;
            Status::Ok
        }
        Err(status) => {
            *part = NO_EXTENT;
            status
        }
    }
}

fn find(
    alloc: Global,
    schema: &[u8],
    rule: u32,
    octets: &[u8],
    path: &[u8],
) -> Result<Extent, CallStop>
    ensures { MatchResult result (IsFound schema.now rule octets.now path.now) (IsNotFound schema.now rule octets.now path.now) }
{
    let asked = query_of(alloc, schema, rule)?;
    let indices = indices_of(alloc, &asked, path)?;
    let Query { schema, root, rule } = asked;
    match find_part(alloc, rule, &schema, root, octets, indices.as_slice()) {
        Ok(Some(part)) => Ok(extent_of(alloc, &schema, &part)),
        Ok(None) => Err(CallStop::plain(alloc, Status::Absent)),
        Err(refusal) => Err(CallStop::of_refusal(alloc, &schema, root, &[], &refusal)),
    }
}

/// Returns the index of each part on the way.
fn indices_of(alloc: Global, asked: &Query, path: &[u8]) -> Result<Vec<usize>, CallStop>
    ensures { MatchResult result (λ indices. IsPathOf asked.now.schema asked.now.root path.now indices.items) (λ stop. IsNoPath asked.now.schema asked.now.root path.now stop.status) }
{
    let Ok(text) = str::from_utf8(path) else {
        return Err(stop_of(alloc, Status::UnknownPath, "the path isn't UTF-8"));
    };
    let steps = match steps_of(alloc, text) {
        Ok(Some(steps)) => steps,
        Ok(None) => {
            return Err(stop_of(alloc, Status::UnknownPath, "the text isn't a path"));
        }
        Err(error) => return Err(without_memory(alloc, error)),
    };
    match path_named(alloc, &asked.schema, asked.root, steps.as_slice()) {
        Ok(Some(indices)) => Ok(indices),
        Ok(None) => Err(stop_of(
            alloc,
            Status::UnknownPath,
            "the type has no part with this path",
        )),
        Err(error) => Err(without_memory(alloc, error)),
    }
}
