//! The values of attributes as text (RFC 4514, 2.4).
ghost use Rattle.std.specs.Prelude.{◌≡◌, ◌++◌, ◌∷◌, [], ◌<◌, OnOk, false, string_bytes, encode_utf8, chars};
ghost use Rattle.std.specs.Fmt.{digit_glyph};
ghost use Rattle.rasn_text.specs.Escapes.{written, escaped, octet_digits, octets_text};

use std::alloc::AllocError;

/// Appends the characters of a value, with escapes (RFC 4514, 2.4): a backslash precedes characters
/// that have a meaning in names, and the hexadecimal digits of control characters of ASCII.
///
/// # Errors
/// If an allocation fails.
///
/// # Examples
/// ```
/// let mut text = String::new(alloc);
/// rasn_text::push_escaped(&mut text, "Jones, John")?;
/// // `text` is "Jones\\, John" (RFC 4514, 2.4)
/// ```
pub fn push_escaped(text: &mut String, value: &str) -> Result<(), AllocError>
    ensures { OnOk result (string_bytes text.new ≡ string_bytes text.old ++ escaped (chars value.now)) }
{
    let mut is_first = true;
    let mut characters = value.chars();
    while let Some(character) = characters.next() {
        let is_last = characters.as_str().is_empty();
        push_character(text, is_first, is_last, character)?;
        is_first = false;
    }
    Ok(())
}

/// Appends a character of a value, of which it may be the first or the last.
fn push_character(
    text: &mut String,
    is_first: bool,
    is_last: bool,
    character: char,
) -> Result<(), AllocError>
    ensures { OnOk result (string_bytes text.new ≡ string_bytes text.old ++ written is_first is_last character) }
{
    match character {
        '"' | '+' | ',' | ';' | '<' | '>' | '\\' => push_prefixed(text, character),
        ' ' if is_first || is_last => push_prefixed(text, character),
        '#' if is_first => push_prefixed(text, character),
        '\0'..='\u{1F}' | '\u{7F}' => {
            text.push('\\')?;
            push_octet(text, character as u8)
        }
        _ => text.push(character),
    }
}

/// Appends a backslash and the character.
fn push_prefixed(text: &mut String, character: char) -> Result<(), AllocError>
    ensures { OnOk result (string_bytes text.new ≡ string_bytes text.old ++ 92 ∷ encode_utf8 character) }
{
    text.push('\\')?;
    text.push(character)
}

/// Appends the hexadecimal digits of octets, after `#`.
pub(crate) fn push_octets(text: &mut String, octets: &[u8]) -> Result<(), AllocError>
    ensures { OnOk result (string_bytes text.new ≡ string_bytes text.old ++ octets_text octets.now) }
{
    text.push('#')?;
    for octet in octets {
        push_octet(text, *octet)?;
    }
    Ok(())
}

/// Appends the two hexadecimal digits of an octet.
fn push_octet(text: &mut String, octet: u8) -> Result<(), AllocError>
    ensures { OnOk result (string_bytes text.new ≡ string_bytes text.old ++ octet_digits octet) }
{
    text.push(digit(octet / 16))?;
    text.push(digit(octet % 16))
}

/// Returns a hexadecimal digit.
pub(crate) fn digit(value: u8) -> char
    requires { value < 16 }
    ensures { result ≡ digit_glyph false value }
{
    if value < 10 {
        char::from(b'0' + value)
    } else {
        char::from(b'a' + (value - 10))
    }
}
