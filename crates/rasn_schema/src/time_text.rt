//! The characters of TIME, DURATION, TIME-OF-DAY and DATE-TIME (X.680 12.16, X.690 8.26).
ghost use Rattle.std.specs.Prelude.{◌≡◌, ◌++◌, ◌∷◌, [], length, IfOk, MatchOption};
ghost use Rattle.std.specs.Fmt.{WritesOnOk};
ghost use Rattle.std.specs.Str.{encode_utf8_all};
ghost use Rattle.rasn_types.specs.Contents.{IsTimeCharacter, IsTimeText, AreTimeDigits};
ghost use Rattle.rasn_types.specs.Truth.{IsWhether};
ghost use Rattle.rasn_schema.specs.TimeTexts.{shown_digits, AreDigitsOf};

use std::alloc::{AllocError, Global};
use std::fmt;

/// The characters of the text of a time, except for digits.
const TIME_MARKS: &[u8] = b"+,-./:CDHMPRSTWYZ";

/// Returns whether an octet is a character of the text of a time.
fn is_time_character(octet: u8) -> bool
    ensures { IsWhether result (IsTimeCharacter octet) }
{
    octet.is_ascii_digit() || TIME_MARKS.contains(&octet)
}

/// Returns whether the octets are the text of a TIME or a DURATION as far as its characters tell.
#[tactic(auto, using(crate::proofs::RealTexts::times_more, crate::proofs::RealTexts::time_told))]
pub fn is_time_text(octets: &[u8]) -> bool
    ensures { IsWhether result (IsTimeText octets.now) }
{
    for octet in octets {
        if !is_time_character(*octet) {
            return false;
        }
    }
    !octets.is_empty()
}

/// Returns whether the octets are so many digits.
#[tactic(auto, using(crate::proofs::RealTexts::digits_more, crate::proofs::RealTexts::digits_told))]
pub fn are_time_digits(count: usize, octets: &[u8]) -> bool
    ensures { IsWhether result (AreTimeDigits count octets.now) }
{
    for octet in octets {
        if !octet.is_ascii_digit() {
            return false;
        }
    }
    octets.len() == count
}

/// The digits of a TIME-OF-DAY or a DATE-TIME, shown as value notation has them (X.680 38.4).
#[derive(Clone, Copy)]
pub struct TimeDigits<'digits> {
    /// Six digits, or fourteen.
    pub digits: &'digits [u8],
}

/// Writes the digits with a hyphen, a T or a colon between them: `12:30:00`,
/// `1985-04-12T12:30:00`. Others than six or fourteen are written as they are. An octet that is no
/// digit is written as the character with its number.
impl fmt::Display for TimeDigits<'_> {
    ghost use Rattle.std.specs.Prelude.{Some};
    ghost use Rattle.std.specs.Str.{encode_utf8_all};
    ghost use Rattle.rasn_schema.specs.TimeTexts.{shown_digits};

    ghost output = { λ t. Some (encode_utf8_all (shown_digits t.digits.now)) };

    #[tactic(auto, using(crate::proofs::LeafTexts::others_text))]
    fn fmt<W: fmt::Write>(&self, f: &mut fmt::Formatter<W>) -> fmt::Result {
        match self.digits.len() {
            6 => write_clock(f, self.digits),
            14 => write_moment(f, self.digits),
            _ => write_octets(f, self.digits),
        }
    }
}

/// Writes octets as the characters with these numbers.
pub(crate) fn write_octets<W: fmt::Write>(f: &mut fmt::Formatter<W>, octets: &[u8]) -> fmt::Result
    ensures { WritesOnOk W.write_str_gives f.old result (encode_utf8_all octets.now) f.new }
{
    for octet in octets {
        f.write_char(char::from(*octet))?;
    }
    Ok(())
}

/// Writes octets as the characters with these numbers, and a mark after them.
fn write_before<W: fmt::Write>(f: &mut fmt::Formatter<W>, octets: &[u8], mark: char) -> fmt::Result
    ensures { WritesOnOk W.write_str_gives f.old result (encode_utf8_all (octets.now ++ mark ∷ [])) f.new }
{
    write_octets(f, octets)?;
    f.write_char(mark)
}

/// Writes six digits with a colon between each two.
#[tactic(auto, using(crate::proofs::LeafTexts::clock_text))]
fn write_clock<W: fmt::Write>(f: &mut fmt::Formatter<W>, digits: &[u8]) -> fmt::Result
    requires { length digits.now ≡ 6 }
    ensures { WritesOnOk W.write_str_gives f.old result (encode_utf8_all (shown_digits digits.now)) f.new }
{
    write_before(f, &digits[..2], ':')?;
    write_before(f, &digits[2..4], ':')?;
    write_octets(f, &digits[4..])
}

/// Writes fourteen digits, those of the day with a hyphen between them, and the others after a T.
#[tactic(auto, using(crate::proofs::LeafTexts::moment_text))]
fn write_moment<W: fmt::Write>(f: &mut fmt::Formatter<W>, digits: &[u8]) -> fmt::Result
    requires { length digits.now ≡ 14 }
    ensures { WritesOnOk W.write_str_gives f.old result (encode_utf8_all (shown_digits digits.now)) f.new }
{
    write_before(f, &digits[..4], '-')?;
    write_before(f, &digits[4..6], '-')?;
    write_before(f, &digits[6..8], 'T')?;
    write_clock(f, &digits[8..])
}

/// Returns the digits of a TIME-OF-DAY or a DATE-TIME in value notation, or `None` if the text isn't
/// one of so many digits (X.680 38.4).
///
/// # Errors
/// If an allocation fails.
pub fn time_digits(alloc: Global, count: usize, text: &str) -> Result<Option<Vec<u8>>, AllocError>
    ensures { IfOk result (λ found. MatchOption found ((digits : _) → AreDigitsOf count text.now digits → ⊥) (λ v. AreDigitsOf count text.now v.items)) }
{
    let mut digits = Vec::new(alloc);
    for octet in text.as_bytes() {
        if octet.is_ascii_digit() {
            digits.push(*octet)?;
        }
    }
    let shown = TimeDigits { digits: &digits };
    if digits.len() == count && format!(in alloc; "{shown}")?.as_str() == text {
        return Ok(Some(digits));
    }
    Ok(None)
}
