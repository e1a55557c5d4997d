//! Why a block of PEM has no octets.

use base64::DecodeError;
use rasn_text::{PemError, is_space, line_start};
use std::alloc::{AllocError, Global};

/// The first line of a block whose contents are encrypted (RFC 1421 4.6.1.1).
const ENCRYPTED: &[u8] = b"Proc-Type: 4,ENCRYPTED";

/// Returns why the block that begins in this line of a text has no octets, with the line of the
/// character at fault if it isn't base64.
pub(crate) fn block_fault(
    alloc: Global,
    text: &[u8],
    first: usize,
    error: &PemError,
) -> Result<String, AllocError> {
    let PemError::Base64(cause) = error else {
        return error.to_string(alloc);
    };
    let start = line_start(text, first.saturating_add(1));
    if text.get(start..).unwrap_or(&[]).starts_with(ENCRYPTED) {
        return String::from_str(alloc, "the contents are encrypted (RFC 1421 4.6.1.1)");
    }
    let index = match cause {
        DecodeError::InvalidByte(index, _) => *index,
        DecodeError::InvalidLastSymbol { offset, .. } => *offset,
        DecodeError::InvalidLength(_) | DecodeError::InvalidPadding => usize::MAX,
    };
    let line = line_of_symbol(text, first, index);
    let uneven = uneven_text(alloc, text, first)?;
    match cause {
        DecodeError::InvalidByte(_, octet) if *octet == b'=' => {
            format!(in alloc; "base64: unexpected octet 3D in line {line}{uneven}")
        }
        DecodeError::InvalidByte(_, octet) => {
            format!(in alloc; "base64: unexpected octet {octet:02X} in line {line}")
        }
        DecodeError::InvalidLastSymbol { symbol, .. } => {
            format!(in alloc; "base64: unused bits of octet {symbol:02X} in line {line} aren't 0")
        }
        DecodeError::InvalidLength(_) | DecodeError::InvalidPadding => {
            format!(in alloc; "base64: padding is missing or wrong in line {line}{uneven}")
        }
    }
}

/// Returns which line of a block that others follow is the first one that isn't as long as its first
/// line (RFC 7468 2). The block begins in the line `first`.
fn uneven_text(alloc: Global, text: &[u8], first: usize) -> Result<String, AllocError> {
    let start = line_start(text, first.saturating_add(1));
    let rest = text.get(start..).unwrap_or(&[]);
    let mut number = first;
    let mut usual = 0;
    let mut other = None;
    for line in rest.split(|octet| *octet == b'\n') {
        number = number.saturating_add(1);
        if line.starts_with(b"-----") {
            break;
        }
        let count = line.iter().filter(|octet| !is_space(**octet)).count();
        match other {
            Some((found, len)) if count > 0 => {
                return format!(in alloc; "; line {found} has {len} characters, the first {usual}");
            }
            None if count > 0 && usual > 0 && count != usual => other = Some((number, count)),
            _ => {}
        }
        if usual == 0 {
            usual = count;
        }
    }
    Ok(String::new(alloc))
}

/// Returns the number of the line in which a block has the character with this index, white space
/// aside, or of its last line of base64 if it has fewer. The block begins in the line `first`.
fn line_of_symbol(text: &[u8], first: usize, index: usize) -> usize {
    let start = line_start(text, first.saturating_add(1));
    let rest = text.get(start..).unwrap_or(&[]);
    let mut number = first;
    let mut found = first;
    let mut before = 0usize;
    for line in rest.split(|octet| *octet == b'\n') {
        number = number.saturating_add(1);
        if before > index || line.starts_with(b"-----") {
            break;
        }
        let count = line.iter().filter(|octet| !is_space(**octet)).count();
        if count > 0 {
            found = number;
        }
        before = before.saturating_add(count);
    }
    found
}
