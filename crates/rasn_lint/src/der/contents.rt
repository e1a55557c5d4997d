//! The contents octets of primitive encodings (X.690 8, 11).
ghost use Rattle.std.specs.Prelude.{◌≡◌, [], ◌≢◌, IsUtf8};
ghost use Rattle.rasn_types.specs.CharacterString.{AreAdmitted, ArePaired};
ghost use Rattle.rasn_types.specs.Contents.{IsShortestInteger};
ghost use Rattle.rasn_types.specs.Truth.{IsWhether};
ghost use Rattle.rasn_lint.specs.Contents.{IsBoolean, IsBitString, AreSubidentifiers, IsUtcTime, IsGeneralizedTime, IsDate, AllowsContents};

use crate::der::universal::ContentsRule;
use rasn_types::ber::time::{parse_canonical_utc_time, parse_date, parse_strict_generalized_time};
use rasn_types::types::Alphabet;

/// Returns whether the octets are those of a BOOLEAN (X.690 8.2, 11.1).
fn is_boolean(contents: &[u8]) -> bool
    ensures { IsWhether result (IsBoolean contents.now) }
{
    match contents {
        [0] | [0xFF] => true,
        _ => false,
    }
}

/// Returns whether the octets are those of a whole number (X.690 8.3).
fn is_integer(contents: &[u8]) -> bool
    ensures { IsWhether result (IsShortestInteger contents.now) }
{
    match contents {
        [] | [0, 0..=0x7F, ..] | [0xFF, 0x80..=0xFF, ..] => false,
        _ => true,
    }
}

/// Returns whether the octets are those of a BIT STRING (X.690 8.6.2, 11.2.1).
fn is_bit_string(contents: &[u8]) -> bool
    ensures { IsWhether result (IsBitString contents.now) }
{
    match contents {
        [] => false,
        [unused] => *unused == 0,
        [unused, .., last] => *unused < 8 && *last % (1 << *unused) == 0,
    }
}

/// Returns whether the octets are subidentifiers, of which there is at least one (X.690 8.19.2).
fn are_subidentifiers(contents: &[u8]) -> bool
    ensures { IsWhether result (AreSubidentifiers contents.now) }
{
    let mut begins = true;
    let mut rest = contents;
    while let [octet, after @ ..] = rest {
        if begins && *octet == 0x80 {
            return false;
        }
        begins = *octet < 0x80;
        rest = after;
    }
    begins && !contents.is_empty()
}

/// Returns whether the octets are of this alphabet (X.680 41).
fn are_admitted(alphabet: Alphabet, contents: &[u8]) -> bool
    ensures { IsWhether result (AreAdmitted alphabet contents.now) }
{
    alphabet.first_foreign(contents).is_none()
}

/// Returns whether the octets are UTF-8 (X.690 8.23.10).
fn is_utf8(contents: &[u8]) -> bool
    ensures { IsWhether result (IsUtf8 contents.now) }
{
    str::from_utf8(contents).is_ok()
}

/// Returns whether the octets are 16-bit units (X.690 8.23.8).
fn are_paired(contents: &[u8]) -> bool
    ensures { IsWhether result (ArePaired contents.now) }
{
    contents.len() % 2 == 0
}

/// Returns whether the octets are those of a UTCTime (X.690 11.8).
fn is_utc_time(contents: &[u8]) -> bool
    ensures { IsWhether result (IsUtcTime contents.now) }
{
    match parse_canonical_utc_time(contents) {
        Some(_) => true,
        None => false,
    }
}

/// Returns whether the octets are those of a GeneralizedTime (X.690 11.7).
fn is_generalized_time(contents: &[u8]) -> bool
    ensures { IsWhether result (IsGeneralizedTime contents.now) }
{
    match parse_strict_generalized_time(contents) {
        Some(_) => true,
        None => false,
    }
}

/// Returns whether the octets are those of a DATE (X.680 38.4.1).
fn is_date(contents: &[u8]) -> bool
    ensures { IsWhether result (IsDate contents.now) }
{
    match parse_date(contents) {
        Some(_) => true,
        None => false,
    }
}

/// Returns whether a primitive encoding may have these contents octets.
pub fn allows_contents(rule: ContentsRule, contents: &[u8]) -> bool
    ensures { IsWhether result (AllowsContents rule contents.now) }
{
    match rule {
        ContentsRule::Boolean => is_boolean(contents),
        ContentsRule::Integer => is_integer(contents),
        ContentsRule::BitString => is_bit_string(contents),
        ContentsRule::Null => contents.is_empty(),
        ContentsRule::Subidentifiers => are_subidentifiers(contents),
        ContentsRule::Utf8 => is_utf8(contents),
        ContentsRule::Characters(alphabet) => are_admitted(alphabet, contents),
        ContentsRule::Units => are_paired(contents),
        ContentsRule::UtcTime => is_utc_time(contents),
        ContentsRule::GeneralizedTime => is_generalized_time(contents),
        ContentsRule::Date => is_date(contents),
        ContentsRule::Octets | ContentsRule::Unknown => true,
        ContentsRule::Values | ContentsRule::Set => false,
    }
}
