//! The fingerprint of a certificate.

use crate::types::MessageType;
use sha2::{Digest, Sha256};
use std::alloc::{AllocError, Global};

/// Returns a line with the SHA-256 digest of a certificate (RFC 5280 4.1), in pairs of hexadecimal
/// digits with colons between them, and nothing for a message of another type.
pub(crate) fn fingerprint_line(
    alloc: Global,
    wanted: &MessageType<'_>,
    octets: &[u8],
) -> Result<String, AllocError> {
    let mut line = String::new(alloc);
    if (wanted.module, wanted.name) != ("Certificates", "Certificate") {
        return Ok(line);
    }
    line.push_str("SHA-256 fingerprint")?;
    let mut mark = ": ";
    for octet in Sha256::digest(octets) {
        write!(line, "{mark}{octet:02X}")?;
        mark = ":";
    }
    line.push('\n')?;
    Ok(line)
}
