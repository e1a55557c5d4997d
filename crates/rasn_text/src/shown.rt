//! Texts as they are printed: none of their characters ends a line, reverses or colours what
//! follows, or can't be seen.
ghost use Rattle.std.specs.Prelude.{◌≡◌, ◌++◌, IfOk, OnOk, string_bytes, chars, encode_utf8_all, flat_map};
ghost use Rattle.std.specs.Char.Escape.{escape_unicode};
ghost use Rattle.rasn_text.specs.Shown.{is_hidden, is_ignorable_above, is_ignorable_below, shown, shown_by, shown_in_json, unit_text};

use crate::escapes::digit;
use std::alloc::{AllocError, Global};

/// Returns whether a character is printed as an escape: a control character (general category Cc), a
/// line or paragraph separator (Zl, Zp), or one with the property Default_Ignorable_Code_Point, as
/// all characters with the property Bidi_Control have (Unicode 16.0, DerivedCoreProperties.txt and
/// PropList.txt).
///
/// # Examples
/// ```
/// // U+202E RIGHT-TO-LEFT OVERRIDE
/// let is_override_hidden = rasn_text::is_hidden('\u{202E}');
/// // `is_override_hidden` is true
/// ```
pub fn is_hidden(character: char) -> bool
    ensures { result ≡ is_hidden character }
{
    match character {
        '\0'..='\u{1F}' | '\u{7F}'..='\u{9F}' => true,
        '\u{2028}'..='\u{2029}' => true,
        _ => is_ignorable_below(character) || is_ignorable_above(character),
    }
}

/// Returns whether a character before U+2000 has the property Default_Ignorable_Code_Point.
fn is_ignorable_below(character: char) -> bool
    ensures { result ≡ is_ignorable_below character }
{
    matches!(
        character,
        '\u{AD}'
            | '\u{34F}'
            | '\u{61C}'
            | '\u{115F}'..='\u{1160}'
            | '\u{17B4}'..='\u{17B5}'
            | '\u{180B}'..='\u{180F}'
    )
}

/// Returns whether a character after U+1FFF has the property Default_Ignorable_Code_Point.
fn is_ignorable_above(character: char) -> bool
    ensures { result ≡ is_ignorable_above character }
{
    matches!(
        character,
        '\u{200B}'..='\u{200F}'
            | '\u{202A}'..='\u{202E}'
            | '\u{2060}'..='\u{206F}'
            | '\u{3164}'
            | '\u{FE00}'..='\u{FE0F}'
            | '\u{FEFF}'
            | '\u{FFA0}'
            | '\u{FFF0}'..='\u{FFF8}'
            | '\u{1BCA0}'..='\u{1BCA3}'
            | '\u{1D173}'..='\u{1D17A}'
            | '\u{E0000}'..='\u{E0FFF}'
    )
}

/// Which characters of a text are escapes when it is printed, and of which form.
#[derive(Clone, Copy, Debug, PartialEq, Eq)]
pub enum Escaping {
    /// All that are hidden, as `\u{202e}`: the text is a part of a line.
    Line,
    /// The same except line feeds: the text is lines.
    Lines,
    /// These as `\u202e` (RFC 8259, 7): the text is JSON, and the same JSON then, since nothing else
    /// but its strings can have them.
    Json,
}

/// Returns a text as it is printed.
///
/// # Errors
/// If an allocation fails.
///
/// # Examples
/// ```
/// // U+202E RIGHT-TO-LEFT OVERRIDE
/// let line = rasn_text::visible(alloc, Escaping::Line, "a\u{202E}\n")?;
/// // `line` is "a\\u{202e}\\u{a}"
/// ```
pub fn visible(alloc: Global, escaping: Escaping, text: &str) -> Result<String, AllocError>
    ensures { IfOk result (λ s. string_bytes s ≡ flat_map (shown_by escaping) (chars text.now)) }
{
    let mut shown = String::new(alloc);
    for character in text.chars() {
        push_by(&mut shown, escaping, character)?;
    }
    Ok(shown)
}

/// Appends a character, or its escape.
fn push_by(text: &mut String, escaping: Escaping, character: char) -> Result<(), AllocError>
    ensures { OnOk result (string_bytes text.new ≡ string_bytes text.old ++ shown_by escaping character) }
{
    match escaping {
        Escaping::Line => push_shown(text, character),
        Escaping::Lines => {
            if character == '\n' {
                text.push(character)
            } else {
                push_shown(text, character)
            }
        }
        Escaping::Json => {
            if character == '\n' {
                text.push(character)
            } else {
                push_in_json(text, character)
            }
        }
    }
}

/// Appends a character, or its escape if it is hidden.
fn push_shown(text: &mut String, character: char) -> Result<(), AllocError>
    ensures { OnOk result (string_bytes text.new ≡ string_bytes text.old ++ shown character) }
{
    if is_hidden(character) {
        push_escape(text, character)
    } else {
        text.push(character)
    }
}

/// Appends the escape of a character, such as `\u{202e}`.
fn push_escape(text: &mut String, character: char) -> Result<(), AllocError>
    ensures { OnOk result (string_bytes text.new ≡ string_bytes text.old ++ encode_utf8_all (escape_unicode character)) }
{
    for part in character.escape_unicode() {
        text.push(part)?;
    }
    Ok(())
}

/// Appends a character of JSON, or its units of UTF-16 if it is hidden.
fn push_in_json(text: &mut String, character: char) -> Result<(), AllocError>
    ensures { OnOk result (string_bytes text.new ≡ string_bytes text.old ++ shown_in_json character) }
{
    if !is_hidden(character) {
        return text.push(character);
    }
    let mut units = [0u16; 2];
    push_units(text, character.encode_utf16(&mut units))
}

/// Appends the escapes of units of UTF-16.
fn push_units(text: &mut String, units: &[u16]) -> Result<(), AllocError>
    ensures { OnOk result (string_bytes text.new ≡ string_bytes text.old ++ flat_map unit_text units.now) }
{
    for unit in units {
        push_unit(text, *unit)?;
    }
    Ok(())
}

/// Appends the escape of a unit, such as `\u202e`.
fn push_unit(text: &mut String, unit: u16) -> Result<(), AllocError>
    ensures { OnOk result (string_bytes text.new ≡ string_bytes text.old ++ unit_text unit) }
{
    text.push_str("\\u")?;
    text.push(digit((unit / 4096) as u8))?;
    text.push(digit((unit / 256 % 16) as u8))?;
    text.push(digit((unit / 16 % 16) as u8))?;
    text.push(digit((unit % 16) as u8))
}
