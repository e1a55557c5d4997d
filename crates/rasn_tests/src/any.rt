//! Open types, kept as their octets and written again (X.690 8.15), and skipped values (8.1.5).

use rasn::types::{Any, Class, Tag};
use std::alloc::{AllocError, Global};

mod kept;
mod written;

/// \[1\]
const TAG_1: Tag = Tag {
    class: Class::Context,
    value: 1,
};

/// Returns an open type with these octets.
fn any_of(alloc: Global, octets: &[u8]) -> Result<Option<Any>, AllocError> {
    let octets = Vec::from_slice(alloc, octets)?;
    Ok(Some(Any::new(octets)))
}

/// Returns a million nested SEQUENCEs of indefinite length.
fn deep(alloc: Global) -> Result<Vec<u8>, AllocError> {
    let mut octets = Vec::new(alloc);
    for _ in 0..1_000_000u32 {
        octets.extend_from_slice(&[0x30, 0x80])?;
    }
    for _ in 0..1_000_000u32 {
        octets.extend_from_slice(&[0x00, 0x00])?;
    }
    Ok(octets)
}
