//! Octets as text: hexadecimal digits, with a space between any two octets. The empty list is `-`.
use hex::FromHexError;
use std::alloc::{AllocError, Global};

/// Returns the octets that a text denotes; `None` if it isn't well-formed.
pub fn octets_of(alloc: Global, text: &str) -> Result<Option<Vec<u8>>, AllocError> {
    let mut octets = Vec::new(alloc);
    if text == "-" {
        return Ok(Some(octets));
    }
    for digits in text.split(' ') {
        match hex::decode(alloc, digits) {
            Ok(more) => octets.extend_from_slice(&more)?,
            Err(FromHexError::OutOfMemory) => return Err(AllocError),
            Err(_) => return Ok(None),
        }
    }
    Ok(Some(octets))
}
