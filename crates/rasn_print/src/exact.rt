//! Numbers of JSON, of which many programs round those that a double can't hold (RFC 8259 6).

use json::{Reader, Scratch, Token, Writer};
use std::alloc::{AllocError, Global};

/// A double has each whole number up to this one (IEEE 754).
const GREATEST: i64 = 1 << 53;

/// Returns whether a double has this number and each one nearer to 0.
pub(crate) fn is_exact(number: i64) -> bool {
    (-GREATEST..=GREATEST).contains(&number)
}

/// Returns JSON, without a space between its tokens, in which whole numbers that a double can't hold
/// are strings of their digits.
///
/// # Errors
/// `AllocError` if memory runs out.
pub(crate) fn exact_numbers(alloc: Global, json: &str) -> Result<String, AllocError> {
    let mut scratch = Scratch::new(alloc);
    let mut reader = Reader::new(json, &mut scratch)?;
    let mut out = Writer::new(Vec::new(alloc));
    // Each token has an octet of its own.
    for _ in 0..json.len() {
        match reader.next() {
            Some(Token::Bad) | None => break,
            Some(Token::Number(number)) if is_rounded(number) => out.string(number)?,
            Some(token) => out.token(token)?,
        }
    }
    Ok(String::from_utf8(out.into_inner()).unwrap_or(String::new(alloc)))
}

/// Returns whether a number is a whole one that a double can't hold.
fn is_rounded(number: &str) -> bool {
    let is_whole = !number.contains(['.', 'E', 'e'].as_slice());
    is_whole && !matches!(number.parse::<i64>(), Ok(small) if is_exact(small))
}
