//! Values that hold no other values, as text.
ghost use Rattle.std.specs.Prelude.{List, ℕ};
ghost use Rattle.rasn_schema.specs.Reals.{IsShownAs};

use crate::identifiers::identifier_text;
use crate::known::Known;
use rasn_schema::{
    LeafKind, NamedNumber, Real, RelativeOid, TimeDigits, Type, Value, name_of_number,
};
use rasn_types::types::{BitStr, BmpString, Hexadecimal, Integer};
use std::alloc::{AllocError, Global};
use std::str;

/// Of more than so many octets the first are shown where long ones are cut.
const LONG: usize = 96;

/// How many of long octets are shown.
const SHOWN: usize = 48;

/// Returns a value that holds no others as text, with the names that its type has, if it is known.
/// Long octets may be cut.
pub(crate) fn leaf_text(
    alloc: Global,
    known: &Known<'_>,
    ty: Option<&Type>,
    value: &Value<'_>,
    is_cut: bool,
) -> Result<String, AllocError> {
    match value {
        Value::Boolean(true) => String::from_str(alloc, "TRUE"),
        Value::Boolean(false) => String::from_str(alloc, "FALSE"),
        Value::Null => String::from_str(alloc, "NULL"),
        Value::Integer(number) => number_text(alloc, names_of(ty), number, is_cut),
        Value::Bits(bits) if is_named_bits(ty) => {
            named_bits_text(alloc, names_of(ty), &bits.as_bitstr())
        }
        Value::Bits(bits) => bits_text(alloc, &bits.as_bitstr(), is_cut),
        Value::Octets(octets) => match meaning_text(alloc, ty, octets.as_slice())? {
            Some(text) => Ok(text),
            None => octets_text(alloc, octets.as_slice(), is_cut),
        },
        Value::Text(text) => octets_text(alloc, text.as_str().as_bytes(), is_cut),
        Value::Units(units) => match characters_of(alloc, units)? {
            Some(text) => octets_text(alloc, text.as_bytes(), is_cut),
            None => digits_text(alloc, units.as_octets(), is_cut),
        },
        Value::Arcs(held) if kind_of(ty) == Some(LeafKind::RelativeOid) => {
            RelativeOid { held }.to_string(alloc)
        }
        Value::Arcs(identifier) => identifier_text(alloc, known, identifier),
        Value::Instant(time) => time.to_string(alloc),
        Value::Day(date) => date.to_string(alloc),
        Value::Items(_) | Value::Elements(_) | Value::Chosen(_, _) | Value::Absent => {
            Ok(String::new(alloc))
        }
    }
}

/// Returns the kind of a type whose values hold no others.
fn kind_of(ty: Option<&Type>) -> Option<LeafKind> {
    match ty {
        Some(Type::Leaf { kind, .. }) => Some(*kind),
        _ => None,
    }
}

/// Returns what octets mean in a REAL, a TIME-OF-DAY or a DATE-TIME, as text. Returns `None` of other
/// types.
pub(crate) fn meaning_text(
    alloc: Global,
    ty: Option<&Type>,
    octets: &[u8],
) -> Result<Option<String>, AllocError> {
    match meaning_of(ty) {
        Meaning::Real => match Real::of_contents(octets) {
            Some(real) => Ok(Some(real_text(alloc, real)?)),
            None => Ok(None),
        },
        Meaning::TimeDigits => { Ok(Some(TimeDigits { digits: octets }.to_string(alloc)?)) }
        Meaning::Characters | Meaning::Other => Ok(None),
    }
}

/// Returns a REAL with base 2 as the `f64` that is equal to it, and any other value, also of one to
/// which none is, in value notation (X.680 21.6).
fn real_text(alloc: Global, real: Real<'_>) -> Result<String, AllocError>
    requires { (octets : List ℕ) × IsShownAs octets real }
{
    match (real, real.to_f64()) {
        (Real::Binary { .. }, Some(number)) if number.is_finite() => {
            String::from_str(alloc, ryu::Buffer::new().format_finite(number))
        }
        _ => real.to_string(alloc),
    }
}

/// Returns the characters of a value of a type of character strings, if they are UTF-8 or units of a
/// BMPString that are characters. Returns `None` of other values.
pub(crate) fn string_text(
    alloc: Global,
    ty: Option<&Type>,
    value: &Value<'_>,
) -> Result<Option<String>, AllocError> {
    match value {
        Value::Text(text) => Ok(Some(String::from_str(alloc, text.as_str())?)),
        Value::Units(units) => characters_of(alloc, units),
        Value::Octets(octets) if meaning_of(ty) == Meaning::Characters => match str::from_utf8(
            octets.as_slice(),
        ) {
            Ok(text) => Ok(Some(String::from_str(alloc, text)?)),
            Err(_) => Ok(None),
        },
        Value::Octets(_)
        | Value::Boolean(_)
        | Value::Null
        | Value::Integer(_)
        | Value::Bits(_)
        | Value::Arcs(_)
        | Value::Instant(_)
        | Value::Day(_)
        | Value::Items(_)
        | Value::Elements(_)
        | Value::Chosen(_, _)
        | Value::Absent => Ok(None),
    }
}

/// The meaning that the contents octets of a leaf have as text.
#[derive(Clone, Copy, Debug, PartialEq, Eq)]
enum Meaning {
    Characters,
    Real,
    TimeDigits,
    Other,
}

/// Returns what octets of a type mean.
fn meaning_of(ty: Option<&Type>) -> Meaning {
    let Some(kind) = kind_of(ty) else {
        return Meaning::Other;
    };
    match kind {
        LeafKind::Utf8
        | LeafKind::Bmp
        | LeafKind::Numeric
        | LeafKind::Printable
        | LeafKind::Visible
        | LeafKind::Ia5
        | LeafKind::AnyOctets
        | LeafKind::Universal
        | LeafKind::Time
        | LeafKind::Duration => Meaning::Characters,
        LeafKind::Real => Meaning::Real,
        LeafKind::TimeOfDay | LeafKind::DateTime => Meaning::TimeDigits,
        LeafKind::Boolean
        | LeafKind::Null
        | LeafKind::Integer
        | LeafKind::Signed32
        | LeafKind::Signed64
        | LeafKind::Unsigned32
        | LeafKind::Unsigned64
        | LeafKind::ObjectIdentifier
        | LeafKind::BitString
        | LeafKind::NamedBits
        | LeafKind::OctetString
        | LeafKind::FixedOctetString(_)
        | LeafKind::UtcTime
        | LeafKind::GeneralizedTime
        | LeafKind::Date
        | LeafKind::RelativeOid => Meaning::Other,
    }
}

/// Returns whether a type is a BIT STRING whose bits have names.
pub(crate) fn is_named_bits(ty: Option<&Type>) -> bool {
    kind_of(ty) == Some(LeafKind::NamedBits)
}

/// Returns the names of the numbers of a type, or of its bits.
pub(crate) fn names_of<'types>(ty: Option<&'types Type>) -> &'types [NamedNumber] {
    match ty {
        Some(Type::Leaf { names, .. } | Type::Enumerated { numbers: names, .. }) =>
            names.as_slice(),
        Some(
            Type::Any { .. }
            | Type::Tagged { .. }
            | Type::Choice { .. }
            | Type::Sequence { .. }
            | Type::Set { .. }
            | Type::SequenceOf { .. }
            | Type::SetOf { .. }
            | Type::Unknown,
        )
        | None => &[],
    }
}

/// Returns a number in decimal, with its name if it has one: `2 (v3)`. One of more than four octets
/// is also in hexadecimal, and one of more than 128 bits is so alone, with the number of its bits.
pub(crate) fn number_text(
    alloc: Global,
    names: &[NamedNumber],
    number: &Integer,
    is_cut: bool,
) -> Result<String, AllocError> {
    let octets = match number.as_octets() {
        [0, more @ ..] if !more.is_empty() => more,
        all => all,
    };
    let Some(small) = number.to_i128() else {
        let (first, dots) = first_of(octets, is_cut);
        let shown = Hexadecimal::new(first);
        if number.is_negative() {
            return format!(in alloc; "0x{shown}{dots} (negative, in two's complement)");
        }
        let unused = octets.first().copied().unwrap_or(0).leading_zeros() as usize;
        let bits = octets.len().saturating_mul(8).saturating_sub(unused);
        return format!(in alloc; "0x{shown}{dots} ({bits} bits)");
    };
    if let Some(name) = name_of(names, small) {
        return format!(in alloc; "{small} ({name})");
    }
    if small < 0 || octets.len() <= 4 {
        return small.to_string(alloc);
    }
    format!(in alloc; "{small} (0x{})", Hexadecimal::new(octets))
}

/// Returns the octets that are shown of these, and what follows if these are not all.
fn first_of(octets: &[u8], is_cut: bool) -> (&[u8], &'static str) {
    match octets.get(..SHOWN) {
        Some(first) if is_cut && octets.len() > LONG => (first, ".."),
        _ => (octets, ""),
    }
}

/// Returns octets in hexadecimal. If long ones are cut, their number follows the first of them.
pub(crate) fn digits_text(
    alloc: Global,
    octets: &[u8],
    is_cut: bool,
) -> Result<String, AllocError> {
    let (first, dots) = first_of(octets, is_cut);
    let shown = Hexadecimal::new(first);
    if dots.is_empty() {
        return shown.to_string(alloc);
    }
    format!(in alloc; "{shown}{dots} ({} octets)", octets.len())
}

/// Returns the name of a number or of the bit at this place.
pub(crate) fn name_of(names: &[NamedNumber], number: i128) -> Option<&str> {
    match isize::try_from(number) {
        Ok(number) => name_of_number(names, number),
        Err(_) => None,
    }
}

/// Returns the name of the bit at this place, or `bit 9` of one without a name.
pub(crate) fn bit_text(
    alloc: Global,
    names: &[NamedNumber],
    place: usize,
) -> Result<String, AllocError> {
    match name_of(names, place as i128) {
        Some(name) => String::from_str(alloc, name),
        None => format!(in alloc; "bit {place}"),
    }
}

/// Returns the names of the bits that are 1, separated by commas.
fn named_bits_text(
    alloc: Global,
    names: &[NamedNumber],
    bits: &BitStr<'_>,
) -> Result<String, AllocError> {
    let mut text = String::new(alloc);
    for (place, bit) in bits.iter().enumerate() {
        if bit {
            let mark = if text.is_empty() { "" } else { ", " };
            text.push_str(mark)?;
            text.push_str(bit_text(alloc, names, place)?.as_str())?;
        }
    }
    if text.is_empty() {
        text.push_str("no bits")?;
    }
    Ok(text)
}

/// Returns the bits in hexadecimal, with the number of unused bits in the last octet if it has any.
fn bits_text(alloc: Global, bits: &BitStr<'_>, is_cut: bool) -> Result<String, AllocError> {
    let mut octets = Vec::new(alloc);
    bits.append_to(&mut octets)?;
    let shown = digits_text(alloc, &octets, is_cut)?;
    match bits.unused() {
        0 => Ok(shown),
        unused => format!(in alloc; "{shown} ({unused} bits unused)"),
    }
}

/// Returns octets that are UTF-8 without control characters as quoted text, others in hexadecimal.
/// Characters that are hidden otherwise are escaped where the text is printed.
pub(crate) fn octets_text(
    alloc: Global,
    octets: &[u8],
    is_cut: bool,
) -> Result<String, AllocError> {
    match str::from_utf8(octets) {
        Ok(text) if !text.chars().any(|it| it.is_control()) => quoted(alloc, text),
        _ => digits_text(alloc, octets, is_cut),
    }
}

/// Returns a text in quotation marks. A backslash precedes those inside it, and a backslash.
fn quoted(alloc: Global, text: &str) -> Result<String, AllocError> {
    let mut shown = String::from_str(alloc, "\"")?;
    for character in text.chars() {
        if matches!(character, '"' | '\\') {
            shown.push('\\')?;
        }
        shown.push(character)?;
    }
    shown.push('"')?;
    Ok(shown)
}

/// Returns the characters of a BMPString; `None` if a unit isn't a character.
fn characters_of(alloc: Global, units: &BmpString) -> Result<Option<String>, AllocError> {
    let mut text = String::new(alloc);
    for unit in units.units() {
        let Some(character) = char::from_u32(u32::from(unit)) else {
            return Ok(None);
        };
        text.push(character)?;
    }
    Ok(Some(text))
}
