//! Octets as text: hexadecimal digits. A repeated octet is written once with its count, between
//! commas, as `55*1000`. The empty list is `-`.

use rasn::types::Codec;
use rasn_bench::{Request, ValueType};
use std::alloc::{AllocError, Global};

/// The smallest number of equal octets that is written as a count.
const COUNTED: usize = 32;

/// Returns the octets that a text denotes; `None` if it isn't well-formed.
pub fn octets_of(alloc: Global, text: &str) -> Result<Option<Vec<u8>>, AllocError> {
    let mut octets = Vec::new(alloc);
    for piece in text.split(',') {
        match piece_of(alloc, piece)? {
            Some((piece, count)) => {
                for _ in 0..count {
                    octets.extend_from_slice(&piece)?;
                }
            }
            None => return Ok(None),
        }
    }
    Ok(Some(octets))
}

/// Returns the octets of a piece and the number of times that they are repeated.
fn piece_of(alloc: Global, piece: &str) -> Result<Option<(Vec<u8>, u16)>, AllocError> {
    let (digits, count) = match piece.split_once('*') {
        Some((digits, count)) => (digits, count.parse::<u16>().unwrap_or(0)),
        None => (piece, 1),
    };
    let request = Request {
        rule: Codec::Ber,
        value_type: ValueType::Any,
        digits: if digits.is_empty() { "-" } else { digits },
    };
    let octets = request.octets(alloc)?;
    Ok(octets.map(|octets| (octets, count)))
}

/// Returns the text of octets.
pub fn text_of(alloc: Global, octets: &[u8]) -> Result<String, AllocError> {
    let mut text = String::from_str(alloc, if octets.is_empty() { "-" } else { "" })?;
    let (mut last, mut count) = (0u8, 0usize);
    for octet in octets {
        if *octet == last && count > 0 {
            count = count.saturating_add(1);
        } else {
            push_run(alloc, &mut text, last, count)?;
            (last, count) = (*octet, 1);
        }
    }
    push_run(alloc, &mut text, last, count)?;
    Ok(text)
}

/// Appends `count` equal octets.
fn push_run(alloc: Global, text: &mut String, octet: u8, count: usize) -> Result<(), AllocError> {
    if count >= COUNTED {
        return text.push_str(&format!(in alloc; ",{octet:02X}*{count},")?);
    }
    for _ in 0..count {
        text.push_str(&format!(in alloc; "{octet:02X}")?)?;
    }
    Ok(())
}
