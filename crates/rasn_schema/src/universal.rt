//! UniversalString: characters of four octets each (X.690 8.23.7, ISO/IEC 10646).
ghost use Rattle.std.specs.Prelude.{◌≡◌, ◌+◌, ◌*◌, chars, string_bytes, IfOk, MatchOption};
ghost use Rattle.rasn_types.specs.Grammar.{quads};

use std::alloc::{AllocError, Global};

/// Returns the characters that octets are, four each and the high one first, or `None` if they
/// aren't such, or one is a surrogate or is above 10FFFF.
///
/// # Errors
/// If an allocation fails.
pub fn universal_text(alloc: Global, octets: &[u8]) -> Result<Option<String>, AllocError>
    ensures { IfOk result (λ found. MatchOption found ((ns : _) → quads octets.now ns → ⊥) (λ s. quads octets.now (chars (string_bytes s)))) }
{
    let mut text = String::new(alloc);
    let mut rest = octets;
    while let [first, second, third, last, more @ ..] = rest {
        let Some(character) = char::from_u32(number_of(*first, *second, *third, *last)) else {
            return Ok(None);
        };
        text.push(character)?;
        rest = more;
    }
    if rest.is_empty() {
        Ok(Some(text))
    } else {
        Ok(None)
    }
}

/// Returns the number of four octets, the high one first.
fn number_of(first: u8, second: u8, third: u8, last: u8) -> u32
    ensures { result ≡ 256 * (256 * (256 * first + second) + third) + last }
{
    let high = u32::from(first) * 256 + u32::from(second);
    (high * 256 + u32::from(third)) * 256 + u32::from(last)
}

/// Returns the octets of characters, four each and the high one first.
///
/// # Errors
/// If an allocation fails.
pub fn universal_octets(alloc: Global, text: &str) -> Result<Vec<u8>, AllocError>
    ensures { IfOk result (λ octets. quads octets.items (chars text.now)) }
{
    let mut octets = Vec::new(alloc);
    for character in text.chars() {
        let number = u32::from(character);
        octets.extend_from_slice(&[
            0,
            (number / 65536) as u8,
            (number / 256 % 256) as u8,
            (number % 256) as u8,
        ])?;
    }
    Ok(octets)
}
