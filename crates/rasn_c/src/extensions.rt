//! The octets of an extension by its identifier (RFC 5280, 4.1).
ghost use Rattle.std.specs.Prelude.{◌≡◌, IfOk, MatchOption};
ghost use Rattle.std.specs.List.{All};
ghost use Rattle.rasn_types.specs.Text.{dotted};
ghost use Rattle.rasn_types.specs.Truth.{IsWhether};
ghost use Rattle.rasn_c.specs.Status.{IsNumberOf};
ghost use Rattle.rasn_c.specs.Extensions.{AnswersExtension, HasOther, IsFirstWith};

use crate::buffers::fill;
use crate::rules::rule_numbered;
use crate::status::Status;
use crate::whole::whole_value;
use rasn_pkix::Extension;
use std::alloc::{AllocError, Global};

/// Writes the octets of `extnValue` of the first extension with this identifier, `2.5.29.17`, of
/// the Extensions that all of the octets are to the buffer. `needed` is their number, also if the
/// buffer is smaller; the buffer is then unchanged.
#[unsafe(no_mangle)]
pub extern "C" fn soq_proved_extension(
    alloc: Global,
    rule: u32,
    octets: &[u8],
    identifier: &[u8],
    buffer: &mut [u8],
    needed: &mut usize,
) -> u32
    ensures { IsNumberOf (AnswersExtension rule octets.now identifier.now buffer.old buffer.new needed.new) result }
{
    put_extension(alloc, rule, octets, identifier, buffer, needed).number()
}

fn put_extension(
    alloc: Global,
    rule: u32,
    octets: &[u8],
    identifier: &[u8],
    buffer: &mut [u8],
    needed: &mut usize,
) -> Status
    ensures { AnswersExtension rule octets.now identifier.now buffer.old buffer.new needed.new result }
{
    *needed = 0;
    let Some(rule) = rule_numbered(rule) else {
        return Status::UnknownRule;
    };
    let extensions = match whole_value::<Vec<Extension>>(alloc, rule, octets) {
        Ok(extensions) => extensions,
        Err(status) => return status,
    };
    match first_with(alloc, extensions.as_slice(), identifier) {
        Ok(Some(extension)) => fill(extension.extn_value.as_octets(), buffer, needed),
        Ok(None) => Status::Absent,
        Err(_) => Status::OutOfMemory,
    }
}

/// Returns the first extension whose identifier has this text.
fn first_with<'list>(
    alloc: Global,
    extensions: &'list [Extension],
    identifier: &[u8],
) -> Result<Option<&'list Extension>, AllocError>
    ensures { IfOk result (λ found. MatchOption found (All (HasOther identifier.now) extensions.now) (λ e. IsFirstWith identifier.now extensions.now e.now)) }
{
    for extension in extensions {
        if has_identifier(alloc, extension, identifier)? {
            return Ok(Some(extension));
        }
    }
    Ok(None)
}

/// Returns whether the identifier of the extension has this text.
fn has_identifier(
    alloc: Global,
    extension: &Extension,
    identifier: &[u8],
) -> Result<bool, AllocError>
    ensures { IfOk result (λ has. IsWhether has (identifier.now ≡ dotted extension.now.extn_id)) }
{
    let id = &extension.extn_id;
    let text = format!(in alloc; "{id}")?;
    Ok(identifier == text.as_bytes())
}
