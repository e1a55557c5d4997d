//! Values that hold no others, of JSON.
ghost use Rattle.std.specs.Prelude.{◌≡◌, Some, length, IfOk, string_bytes, encode_utf8_all};
ghost use Rattle.json.specs.Find.{as_str};
ghost use Rattle.json.specs.Value.{value_view};
ghost use Rattle.rasn_types.specs.CharacterString.{AreAdmitted};
ghost use Rattle.rasn_types.specs.CowBits.{cow_bits};
ghost use Rattle.rasn_schema.specs.Fitting.{AreOctets, FitsLeaf};
ghost use Rattle.rasn_json.specs.Json.{one_size};
ghost use Rattle.rasn_types.specs.Contents.{IsTimeText, AreTimeDigits};
ghost use Rattle.rasn_json.specs.Texts.{shown_digits};
ghost use Rattle.rasn_json.specs.Reading.{RelativeRead, AllBitsRead, ArcsRead, DayRead, HexadecimalRead, InstantRead, LeafRead, NamedBitsRead, OpenRead, UnitsRead};

use crate::arcs::have_subidentifier;
use crate::bits::bits_of;
use crate::characters::{foreign, octets_of, units_of};
use crate::digits::octets_in;
use crate::error::{JsonError, JsonErrorKind, or_memory};
use crate::found::{other_form, string_of};
use crate::number::{extensible_value, integer_value, is_enumerated};
use crate::reals::real_of;
use crate::times::{day_of, instant_of};
use json::Value as Json;
use rasn_schema::{LeafKind, NamedNumber, RelativeOid, Value, is_time_text, time_digits};
use rasn_types::types::{
    Alphabet, BitString, BmpString, Bounded, Constraints, CowBits, Date, GeneralizedTime,
    ObjectIdentifier,
};
use std::alloc::Global;
use std::borrow::{CowSlice, CowStr};

/// Returns the value of a kind that a JSON value is.
pub fn leaf_value<'any>(
    alloc: Global,
    kind: LeafKind,
    constraints: &Constraints,
    names: &[NamedNumber],
    json: &Json<'_>,
) -> Result<Value<'any>, JsonError>
    ensures fits { IfOk result (λ v. FitsLeaf kind v) }
    ensures reads { IfOk result (LeafRead kind constraints.now names.now (value_view json.now)) }
{
    match kind {
        LeafKind::Boolean => match json {
            Json::Bool(truth) => Ok(Value::Boolean(*truth)),
            _ => Err(other_form(alloc, "a truth value", json)),
        },
        LeafKind::Null => match json {
            Json::Null => Ok(Value::Null),
            _ => Err(other_form(alloc, "null", json)),
        },
        LeafKind::Integer
        | LeafKind::Signed32
        | LeafKind::Signed64
        | LeafKind::Unsigned32
        | LeafKind::Unsigned64 => {
            if is_enumerated(kind, names) {
                extensible_value(alloc, kind, constraints, names, json)
            } else {
                integer_value(alloc, kind, constraints, names, json)
            }
        }
        LeafKind::ObjectIdentifier => Ok(Value::Arcs(arcs_of(alloc, json)?)),
        LeafKind::RelativeOid => Ok(Value::Arcs(relative_arcs_of(alloc, json)?)),
        LeafKind::BitString => {
            let bits = sized_bits(alloc, constraints, json)?;
            Ok(Value::Bits(CowBits::Owned(bits)))
        }
        LeafKind::NamedBits => Ok(Value::Bits(named_bits(alloc, constraints, json)?)),
        LeafKind::Utf8 | LeafKind::Universal => {
            Ok(Value::Text(CowStr::Owned(text_of(alloc, constraints, json)?)))
        }
        LeafKind::Bmp => Ok(Value::Units(sized_units(alloc, constraints, json)?)),
        LeafKind::UtcTime => Ok(Value::Instant(time_of(alloc, LeafKind::UtcTime, json)?)),
        LeafKind::GeneralizedTime => {
            let time = time_of(alloc, LeafKind::GeneralizedTime, json)?;
            Ok(Value::Instant(time))
        }
        LeafKind::Date => Ok(Value::Day(sole_day(alloc, json)?)),
        LeafKind::Real => Ok(Value::Octets(CowSlice::Owned(real_of(alloc, json)?))),
        LeafKind::Time | LeafKind::Duration => {
            let octets = time_text_of(alloc, json)?;
            Ok(Value::Octets(CowSlice::Owned(octets)))
        }
        LeafKind::TimeOfDay => Ok(Value::Octets(CowSlice::Owned(digits_of(alloc, 6, json)?))),
        LeafKind::DateTime => Ok(Value::Octets(CowSlice::Owned(digits_of(alloc, 14, json)?))),
        LeafKind::OctetString => {
            let octets = sized_octets(alloc, constraints, json)?;
            Ok(Value::Octets(CowSlice::Owned(octets)))
        }
        LeafKind::FixedOctetString(len) => {
            let octets = fixed_octets(alloc, len, constraints, json)?;
            Ok(Value::Octets(CowSlice::Owned(octets)))
        }
        LeafKind::Numeric => {
            let octets = characters_of(alloc, Alphabet::Numeric, constraints, json)?;
            Ok(Value::Octets(CowSlice::Owned(octets)))
        }
        LeafKind::Printable => {
            let octets = characters_of(alloc, Alphabet::Printable, constraints, json)?;
            Ok(Value::Octets(CowSlice::Owned(octets)))
        }
        LeafKind::Visible => {
            let octets = characters_of(alloc, Alphabet::Visible, constraints, json)?;
            Ok(Value::Octets(CowSlice::Owned(octets)))
        }
        LeafKind::Ia5 => {
            let octets = characters_of(alloc, Alphabet::Ia5, constraints, json)?;
            Ok(Value::Octets(CowSlice::Owned(octets)))
        }
        LeafKind::AnyOctets => {
            let octets = characters_of(alloc, Alphabet::Every, constraints, json)?;
            Ok(Value::Octets(CowSlice::Owned(octets)))
        }
    }
}

fn arcs_of(alloc: Global, json: &Json<'_>) -> Result<ObjectIdentifier, JsonError>
    ensures { IfOk result (ArcsRead (value_view json.now)) }
{
    let text = string_of(alloc, "a string", json)?;
    if let Some(arcs) = or_memory(alloc, ObjectIdentifier::parse(alloc, text))? {
        if have_subidentifier(arcs.arcs()) {
            return Ok(arcs);
        }
    }
    Err(JsonError::new(alloc, JsonErrorKind::NotArcs))
}

/// Returns the arcs of a RELATIVE-OID, as an OBJECT IDENTIFIER holds them.
fn relative_arcs_of(alloc: Global, json: &Json<'_>) -> Result<ObjectIdentifier, JsonError>
    ensures { IfOk result (RelativeRead (value_view json.now)) }
{
    let text = string_of(alloc, "a string", json)?;
    match or_memory(alloc, RelativeOid::parse(alloc, text))? {
        Some(arcs) => Ok(arcs),
        None => Err(JsonError::new(alloc, JsonErrorKind::NotArcs)),
    }
}

/// Returns the characters of a TIME or a DURATION.
fn time_text_of(alloc: Global, json: &Json<'_>) -> Result<Vec<u8>, JsonError>
    ensures admitted { IfOk result (λ octets. IsTimeText octets.items) }
    ensures reads { IfOk result (λ octets. as_str (value_view json.now) ≡ Some (encode_utf8_all octets.items)) }
{
    let octets = octets_of(alloc, string_of(alloc, "a string", json)?)?;
    if is_time_text(&octets) {
        return Ok(octets);
    }
    Err(JsonError::new(alloc, JsonErrorKind::NotTime))
}

/// Returns the digits of a TIME-OF-DAY or a DATE-TIME, of which there are so many.
fn digits_of(alloc: Global, count: usize, json: &Json<'_>) -> Result<Vec<u8>, JsonError>
    ensures admitted { IfOk result (λ octets. AreTimeDigits count octets.items) }
    ensures reads { IfOk result (λ octets. as_str (value_view json.now) ≡ Some (shown_digits octets.items)) }
{
    let text = string_of(alloc, "a string", json)?;
    match or_memory(alloc, time_digits(alloc, count, text))? {
        Some(digits) => Ok(digits),
        None => Err(JsonError::new(alloc, JsonErrorKind::NotTime)),
    }
}

fn wrong_size(alloc: Global, size: usize, expected: Bounded<usize>) -> JsonError {
    JsonError::new(alloc, JsonErrorKind::WrongSize { size, expected })
}

/// Checks the size of a value: of octets, characters or elements.
pub fn check_size(alloc: Global, constraints: &Constraints, size: usize) -> Result<(), JsonError> {
    if constraints.admits_size(size) {
        return Ok(());
    }
    Err(wrong_size(alloc, size, constraints.size_bounds()))
}

fn sized_bits(
    alloc: Global,
    constraints: &Constraints,
    json: &Json<'_>,
) -> Result<BitString, JsonError>
    ensures { IfOk result (AllBitsRead (one_size constraints.now) (value_view json.now)) }
{
    let bits = bits_of(alloc, constraints, json)?;
    check_size(alloc, constraints, bits.len())?;
    Ok(bits)
}

/// Returns the bits that a JSON value is, without trailing 0 bits (X.680 22.7).
fn named_bits<'any>(
    alloc: Global,
    constraints: &Constraints,
    json: &Json<'_>,
) -> Result<CowBits<'any>, JsonError>
    ensures { IfOk result (λ b. NamedBitsRead (one_size constraints.now) (value_view json.now) (cow_bits b)) }
{
    let bits = CowBits::Owned(bits_of(alloc, constraints, json)?).into_significant();
    let size = bits.as_bitstr().len();
    if constraints.admits_padded_size(size) {
        return Ok(bits);
    }
    Err(wrong_size(alloc, size, constraints.size_bounds()))
}

fn sized_octets(
    alloc: Global,
    constraints: &Constraints,
    json: &Json<'_>,
) -> Result<Vec<u8>, JsonError>
    ensures { IfOk result (λ octets. HexadecimalRead (value_view json.now) octets.items) }
{
    let octets = octets_in(alloc, json)?;
    check_size(alloc, constraints, octets.len())?;
    Ok(octets)
}

fn fixed_octets(
    alloc: Global,
    len: usize,
    constraints: &Constraints,
    json: &Json<'_>,
) -> Result<Vec<u8>, JsonError>
    ensures reads { IfOk result (λ octets. HexadecimalRead (value_view json.now) octets.items) }
    ensures length { IfOk result (λ octets. length octets.items ≡ len) }
{
    let octets = sized_octets(alloc, constraints, json)?;
    if octets.len() == len {
        return Ok(octets);
    }
    Err(wrong_size(alloc, octets.len(), Bounded::Single(len)))
}

/// Returns the octets of an open type, a value's whole encoding.
pub fn open_value<'any>(alloc: Global, json: &Json<'_>) -> Result<Value<'any>, JsonError>
    ensures fits { IfOk result (λ v. AreOctets v) }
    ensures reads { IfOk result (OpenRead (value_view json.now)) }
{
    let octets = octets_in(alloc, json)?;
    Ok(Value::Octets(CowSlice::Owned(octets)))
}

/// Returns the octets of a string of single octets.
fn characters_of(
    alloc: Global,
    alphabet: Alphabet,
    constraints: &Constraints,
    json: &Json<'_>,
) -> Result<Vec<u8>, JsonError>
    ensures admitted { IfOk result (λ octets. AreAdmitted alphabet octets.items) }
    ensures reads { IfOk result (λ octets. as_str (value_view json.now) ≡ Some (encode_utf8_all octets.items)) }
{
    let octets = octets_of(alloc, string_of(alloc, "a string", json)?)?;
    if let Some(position) = alphabet.first_foreign(octets.as_slice()) {
        return Err(foreign(alloc, position));
    }
    check_size(alloc, constraints, octets.len())?;
    Ok(octets)
}

fn sized_units(
    alloc: Global,
    constraints: &Constraints,
    json: &Json<'_>,
) -> Result<BmpString, JsonError>
    ensures { IfOk result (UnitsRead (value_view json.now)) }
{
    let text = string_of(alloc, "a string", json)?;
    let units = or_memory(alloc, units_of(alloc, text))?;
    check_size(alloc, constraints, units.as_octets().len() / 2)?;
    Ok(units)
}

fn text_of(alloc: Global, constraints: &Constraints, json: &Json<'_>) -> Result<String, JsonError>
    ensures { IfOk result (λ s. as_str (value_view json.now) ≡ Some (string_bytes s)) }
{
    let text = string_of(alloc, "a string", json)?;
    check_size(alloc, constraints, text.chars().count())?;
    or_memory(alloc, String::from_str(alloc, text))
}

fn time_of(alloc: Global, kind: LeafKind, json: &Json<'_>) -> Result<GeneralizedTime, JsonError>
    ensures { IfOk result (λ t. InstantRead kind (value_view json.now) t.moment) }
{
    let text = string_of(alloc, "a string", json)?;
    match instant_of(kind, text) {
        Some(time) => Ok(time),
        None => Err(JsonError::new(alloc, JsonErrorKind::NotTime)),
    }
}

fn sole_day(alloc: Global, json: &Json<'_>) -> Result<Date, JsonError>
    ensures { IfOk result (DayRead (value_view json.now)) }
{
    let text = string_of(alloc, "a string", json)?;
    match day_of(text) {
        Some(day) => Ok(day),
        None => Err(JsonError::new(alloc, JsonErrorKind::NotTime)),
    }
}
