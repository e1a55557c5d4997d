//! Functions that write octets to a caller's buffer.
ghost use Rattle.rasn_c.specs.Buffers.{IsPut, IsCutInto, IsFilled, IsDelivered};

use crate::status::Status;

/// Writes the octets to the front of the buffer if they fit, and nothing otherwise. Returns whether
/// they fit.
fn put(octets: &[u8], buffer: &mut [u8]) -> bool
    ensures { IsPut octets.now buffer.old result buffer.new }
{
    if buffer.len() < octets.len() {
        return false;
    }
    buffer[..octets.len()].copy_from_slice(octets);
    true
}

/// Writes the octets to the front of the buffer if they fit, and nothing otherwise. Their number is
/// written in both cases.
pub(crate) fn fill(octets: &[u8], buffer: &mut [u8], needed: &mut usize) -> Status
    ensures { IsFilled octets.now buffer.old buffer.new needed.new result }
{
    *needed = octets.len();
    if put(octets, buffer) {
        Status::Ok
    } else {
        Status::BufferTooSmall
    }
}

/// Writes what a call makes to the front of the buffer if it fits, and nothing otherwise.
pub(crate) fn deliver(
    made: Result<Vec<u8>, Status>,
    buffer: &mut [u8],
    needed: &mut usize,
) -> Status
    ensures { IsDelivered made buffer.old buffer.new needed.new result }
{
    match made {
        Ok(octets) => fill(&octets, buffer, needed),
        Err(status) => {
            *needed = 0;
            status
        }
    }
}

/// Writes as much of the text as fits to the front of the buffer, followed by a zero. An empty
/// buffer is unchanged.
pub(crate) fn put_text(text: &str, buffer: &mut [u8])
    ensures { IsCutInto text.now buffer.old buffer.new }
{
    let Some((_, others)) = buffer.split_first() else {
        return;
    };
    let length = text.len().min(others.len());
    let (front, _) = text.as_bytes().split_at(length);
    put(front, buffer);
    buffer[length] = 0;
}
