//! Whether a schema is read again from its octets.

use crate::same::are_same;
use rasn_compiler::Resolved;
use rasn_schema_octets::{Compiled, ReadFault, WriteFault, read, write};
use std::alloc::{AllocError, Global};

/// Returns why the schema isn't read again from its octets, if it isn't: it has other types then,
/// other octets, or none.
pub fn octets_difference(alloc: Global, resolved: &Resolved) -> Result<Option<String>, AllocError> {
    let Resolved {
        schema,
        root,
        unchecked,
    } = resolved;
    match write(alloc, schema, *root, *unchecked) {
        Ok(octets) => difference_in(alloc, resolved, &octets),
        Err(WriteFault::OutOfMemory) => Err(AllocError),
        Err(fault) => format!(in alloc; "{fault}").map(Some),
    }
}

/// Returns why the schema isn't read from these octets, if it isn't.
fn difference_in(
    alloc: Global,
    resolved: &Resolved,
    octets: &[u8],
) -> Result<Option<String>, AllocError> {
    match read(alloc, octets) {
        Ok(again) => difference_of(alloc, resolved, &again, octets),
        Err(ReadFault::OutOfMemory) => Err(AllocError),
        Err(fault) => format!(in alloc; "{fault}").map(Some),
    }
}

/// Returns how a schema that is read from octets differs, if it does: in its types, or in its
/// octets.
fn difference_of(
    alloc: Global,
    resolved: &Resolved,
    again: &Compiled,
    octets: &[u8],
) -> Result<Option<String>, AllocError> {
    if !are_same(
        alloc,
        &resolved.schema,
        resolved.root,
        &again.schema,
        again.root,
    )? {
        return String::from_str(alloc, "other types in octets").map(Some);
    }
    if has_octets(alloc, again, octets) {
        return Ok(None);
    }
    String::from_str(alloc, "other octets").map(Some)
}

/// Returns whether these are the octets of the schema.
fn has_octets(alloc: Global, compiled: &Compiled, octets: &[u8]) -> bool {
    match write(alloc, &compiled.schema, compiled.root, compiled.unchecked) {
        Ok(found) => found.as_slice() == octets,
        Err(_) => false,
    }
}
