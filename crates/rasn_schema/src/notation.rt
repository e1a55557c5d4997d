//! Values as text, in the value notation of X.680 as far as the type or its names are known.
use crate::named::name_of_number;
use crate::real::Real;
use crate::relative::RelativeOid;
use crate::schema::Schema;
use crate::time_text::TimeDigits;
use crate::types::{LeafKind, NamedNumber, Type};
use crate::value::Value;
use crate::view::{View, part_name, part_type, untagged};
use rasn_types::types::{BitStr, BmpString, Hexadecimal, Integer, Tag};
use std::fmt;

/// Writes a character of a text in quotes, a quote twice (X.680 12.14).
fn write_quoted<W: fmt::Write>(f: &mut fmt::Formatter<W>, character: char) -> fmt::Result {
    if character == '"' {
        f.write_char('"')?;
    }
    f.write_char(character)
}

/// Writes a text in quotes.
fn write_text<W: fmt::Write>(f: &mut fmt::Formatter<W>, text: &str) -> fmt::Result {
    f.write_char('"')?;
    for character in text.chars() {
        write_quoted(f, character)?;
    }
    f.write_char('"')
}

/// Writes octets that are characters in quotes.
fn write_characters<W: fmt::Write>(f: &mut fmt::Formatter<W>, octets: &[u8]) -> fmt::Result {
    f.write_char('"')?;
    for octet in octets {
        write_quoted(f, char::from(*octet))?;
    }
    f.write_char('"')
}

/// Writes the units of a BMPString as characters in quotes.
fn write_units<W: fmt::Write>(f: &mut fmt::Formatter<W>, units: &BmpString) -> fmt::Result {
    f.write_char('"')?;
    for unit in units.units() {
        write_quoted(f, char::from_u32(u32::from(unit)).unwrap_or('\u{fffd}'))?;
    }
    f.write_char('"')
}

/// Returns the names of the numbers of an INTEGER or an ENUMERATED.
fn numbers_in<'types>(ty: Option<&'types Type>) -> &'types [NamedNumber] {
    match ty {
        Some(Type::Leaf { names, .. }) => names.as_slice(),
        Some(Type::Enumerated { numbers, .. }) => numbers.as_slice(),
        _ => &[],
    }
}

/// Returns the name of a number, if it has one.
fn named<'types>(integer: &Integer, ty: Option<&'types Type>) -> Option<&'types str> {
    match isize::try_from(integer.to_i128()?) {
        Ok(number) => name_of_number(numbers_in(ty), number),
        Err(_) => None,
    }
}

/// Writes a number, or its name if it has one (X.680 19.9, 20.8).
fn write_number<W: fmt::Write>(
    f: &mut fmt::Formatter<W>,
    integer: &Integer,
    ty: Option<&Type>,
) -> fmt::Result {
    match named(integer, ty) {
        Some(name) => f.write_str(name),
        None => write!(f, "{integer}"),
    }
}

/// Returns the name of a bit, if it has one.
fn bit_name(names: &[NamedNumber], place: usize) -> Option<&str> {
    match isize::try_from(place) {
        Ok(place) => name_of_number(names, place),
        Err(_) => None,
    }
}

/// Returns the names of the bits of a BIT STRING, if each bit that is 1 has one.
fn names_of_bits<'types>(
    bits: &BitStr<'_>,
    ty: Option<&'types Type>,
) -> Option<&'types [NamedNumber]> {
    let Some(
        Type::Leaf {
            kind: LeafKind::NamedBits,
            names,
            ..
        },
    ) = ty
    else {
        return None;
    };
    for (place, bit) in bits.iter().enumerate() {
        if bit && bit_name(names.as_slice(), place).is_none() {
            return None;
        }
    }
    Some(names.as_slice())
}

/// Writes bits, or the names of those that are 1 if each of these has one (X.680 22.9).
fn write_bits<W: fmt::Write>(
    f: &mut fmt::Formatter<W>,
    bits: &BitStr<'_>,
    ty: Option<&Type>,
) -> fmt::Result {
    let Some(names) = names_of_bits(bits, ty) else {
        return write!(f, "{bits}");
    };
    let mut first = true;
    for (place, bit) in bits.iter().enumerate() {
        if bit {
            f.write_str(if first { "{ " } else { ", " })?;
            first = false;
            f.write_str(bit_name(names, place).unwrap_or(""))?;
        }
    }
    f.write_str(if first { "{ }" } else { " }" })
}

/// Returns whether the octets of such a value are ASCII characters.
fn is_text(ty: Option<&Type>) -> bool {
    match ty {
        Some(Type::Leaf { kind, .. }) => match kind {
            LeafKind::Numeric | LeafKind::Printable | LeafKind::Visible | LeafKind::Ia5 => true,
            LeafKind::Time | LeafKind::Duration => true,
            _ => false,
        },
        _ => false,
    }
}

/// Returns whether octets are a NULL that is the value of an open type (X.690 8.8).
fn is_open_null(octets: &[u8], ty: Option<&Type>) -> bool {
    match (ty, octets) {
        (Some(Type::Any { tag }), [5, 0]) => *tag == Tag::EOC,
        _ => false,
    }
}

/// Returns the kind of a type whose values hold no others.
fn kind_of(ty: Option<&Type>) -> Option<LeafKind> {
    match ty {
        Some(Type::Leaf { kind, .. }) => Some(*kind),
        _ => None,
    }
}

/// Writes octets in hexadecimal, or as the type says. A NULL as the value of an open type is written
/// as such (X.681 14.6).
fn write_octets<W: fmt::Write>(
    f: &mut fmt::Formatter<W>,
    octets: &[u8],
    ty: Option<&Type>,
) -> fmt::Result {
    if is_text(ty) {
        return write_characters(f, octets);
    }
    if is_open_null(octets, ty) {
        return f.write_str("NULL : NULL");
    }
    match kind_of(ty) {
        Some(LeafKind::Real) => write_real(f, octets),
        Some(LeafKind::TimeOfDay | LeafKind::DateTime) => write_time(f, octets),
        _ => write!(f, "'{}'H", Hexadecimal::new(octets)),
    }
}

/// Writes the value of a REAL with these contents octets, or octets that are none in hexadecimal.
fn write_real<W: fmt::Write>(f: &mut fmt::Formatter<W>, octets: &[u8]) -> fmt::Result {
    match Real::of_contents(octets) {
        Some(real) => write!(f, "{real}"),
        None => write!(f, "'{}'H", Hexadecimal::new(octets)),
    }
}

/// Writes the digits of a TIME-OF-DAY or a DATE-TIME in quotes, as value notation has them: with
/// hyphens, colons and T between them (X.680 38.4).
fn write_time<W: fmt::Write>(f: &mut fmt::Formatter<W>, digits: &[u8]) -> fmt::Result {
    let text = TimeDigits { digits };
    write!(f, "\"{text}\"")
}

/// Writes the arcs of an OBJECT IDENTIFIER in braces (X.680 32.3).
fn write_arcs<W: fmt::Write>(f: &mut fmt::Formatter<W>, arcs: &[u32]) -> fmt::Result {
    f.write_char('{')?;
    for arc in arcs {
        write!(f, " {arc}")?;
    }
    f.write_str(" }")
}

/// Writes the arcs of a RELATIVE-OID in braces (X.680 33.3).
fn write_relative<W: fmt::Write>(
    f: &mut fmt::Formatter<W>,
    relative: RelativeOid<'_>,
) -> fmt::Result {
    let first = relative.first();
    write!(f, "{{ {first}")?;
    for arc in relative.others() {
        write!(f, " {arc}")?;
    }
    f.write_str(" }")
}

/// Returns the name of the part with this index, if the type is given and the part has one.
fn name_of<'types>(ty: Option<&'types Type>, index: usize) -> Option<&'types str> {
    part_name(ty?, index)
}

/// Returns the type of the part with this index, inside its explicit tags.
fn part_of<'schema>(
    schema: Option<&'schema Schema>,
    ty: Option<&Type>,
    index: usize,
) -> Option<&'schema Type> {
    untagged(schema?, part_type(ty?, index)?)
}

/// Writes a value. Names are those of its type, if it is given.
#[cycle(notation)]
fn write_value<W: fmt::Write>(
    f: &mut fmt::Formatter<W>,
    value: &Value<'_>,
    schema: Option<&Schema>,
    ty: Option<&Type>,
) -> fmt::Result {
    match value {
        Value::Boolean(truth) => f.write_str(if *truth { "TRUE" } else { "FALSE" }),
        Value::Null => f.write_str("NULL"),
        Value::Integer(integer) => write_number(f, integer, ty),
        Value::Bits(bits) => write_bits(f, &bits.as_bitstr(), ty),
        Value::Octets(octets) => write_octets(f, octets.as_slice(), ty),
        Value::Text(text) => write_text(f, text.as_str()),
        Value::Units(units) => write_units(f, units),
        Value::Arcs(arcs) => if kind_of(ty) == Some(LeafKind::RelativeOid) {
            write_relative(f, RelativeOid { held: arcs })
        } else {
            write_arcs(f, arcs.arcs())
        },
        Value::Instant(time) => write!(f, "\"{time}\""),
        Value::Day(date) => write!(f, "\"{date}\""),
        Value::Items(values) => write_values(f, values.as_slice(), schema, ty),
        Value::Elements(values) => write_values(f, values.as_slice(), schema, ty),
        Value::Chosen(index, value) => write_chosen(f, *index, value, schema, ty),
        Value::Absent => f.write_str("absent"),
    }
}

/// Returns whether a component is shown: unless it is absent, or unknown values of which there are
/// none.
fn is_shown(value: &Value<'_>, ty: Option<&Type>) -> bool {
    match (value, ty) {
        (Value::Absent, _) => false,
        (Value::Items(values), Some(Type::Unknown)) => !values.is_empty(),
        _ => true,
    }
}

/// Writes the values of a list in braces. Components that are absent are left out, and unknown
/// values if there are none.
#[cycle(notation)]
fn write_values<W: fmt::Write>(
    f: &mut fmt::Formatter<W>,
    values: &[Value<'_>],
    schema: Option<&Schema>,
    ty: Option<&Type>,
) -> fmt::Result {
    let mut first = true;
    for (index, value) in values.iter().enumerate() {
        let part = part_of(schema, ty, index);
        if !is_shown(value, part) {
            continue;
        }
        f.write_str(if first { "{ " } else { ", " })?;
        first = false;
        if let Some(name) = name_of(ty, index) {
            f.write_str(name)?;
            f.write_char(' ')?;
        }
        write_value(f, value, schema, part)?;
    }
    f.write_str(if first { "{ }" } else { " }" })
}

/// Writes the value of an alternative after its name, or after its index if that isn't known.
#[cycle(notation)]
fn write_chosen<W: fmt::Write>(
    f: &mut fmt::Formatter<W>,
    index: usize,
    value: &Value<'_>,
    schema: Option<&Schema>,
    ty: Option<&Type>,
) -> fmt::Result {
    match name_of(ty, index) {
        Some(name) => f.write_str(name)?,
        None => write!(f, "[{index}]")?,
    }
    f.write_str(" : ")?;
    write_value(f, value, schema, part_of(schema, ty, index))
}

/// Shows a value without names, as `{ 5, TRUE }`.
impl fmt::Display for Value<'_> {
    fn fmt<W: fmt::Write>(&self, f: &mut fmt::Formatter<W>) -> fmt::Result {
        write_value(f, self, None, None)
    }
}

/// Shows a value as [`Display`](fmt::Display) does.
impl fmt::Debug for Value<'_> {
    fn fmt<W: fmt::Write>(&self, f: &mut fmt::Formatter<W>) -> fmt::Result {
        write_value(f, self, None, None)
    }
}

/// Shows a value with the names of its type, as `{ version 2, critical TRUE }`.
impl fmt::Display for View<'_, '_> {
    fn fmt<W: fmt::Write>(&self, f: &mut fmt::Formatter<W>) -> fmt::Result {
        let schema = self.schema;
        write_value(f, self.value, Some(schema), untagged(schema, self.type_id))
    }
}
