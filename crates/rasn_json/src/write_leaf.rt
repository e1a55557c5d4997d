//! Values that hold no others, as JSON.
ghost use Rattle.std.specs.Prelude.{◌≡◌, ◌≤◌, ◌<◌, ◌-◌, ◌∷◌, ◌++◌, [], None, Some, Ok, length, OnOk, IfErr, IfOk, MatchOption, string_bytes, decimal};
ghost use Rattle.json.specs.Reads.{token_of};
ghost use Rattle.json.specs.Print.{IsPrintable};
ghost use Rattle.json.specs.Json.{string};
ghost use Rattle.json.specs.Token.{number};
ghost use Rattle.rasn_types.specs.BitString.{zeros};
ghost use Rattle.rasn_types.specs.Truth.{IsWhether};
ghost use Rattle.rasn_schema.specs.declared.types.LeafKind.TheVariants.{Real, RelativeOid as Relative};
ghost use Rattle.rasn_schema.specs.Fitting.{FitsLeaf, OctetsFit};
ghost use Rattle.rasn_json.specs.Json.{Appends, ArcsJson, BitsJson, CountedJson, DayJson, DigitsJson, EnumeratedJson, HexadecimalJson, InstantJson, IntegerJson, IsCounted, IsExtensible, IsSize, IsUnnamed, LeafJson, NameJson, NumberJson, OctetsJson, OpenJson, ArrayJson, UnitsJson, one_size};
ghost use Rattle.rasn_json.specs.declared.error.JsonErrorKind.TheVariants.{LongNumber, NoJson, Unfit};
ghost use Rattle.rasn_json.specs.Refusals.{AreRefusedBits, AreRefusedElements, HasNone, HasOpen, IsMemory, IsOfItself, IsRefusedLeaf, IsRefusedOpen, IsRefusedReal, OrMemory};
ghost use Rattle.rasn_json.specs.Reals.{IsDecimalReal};

use crate::arcs::have_subidentifier;
use crate::bits::fixed_size;
use crate::characters::{text_of, text_of_units};
use crate::decimal::decimal_of;
use crate::digits::digits_of;
use crate::error::{JsonError, JsonErrorKind, or_memory};
use crate::number::{is_enumerated, name_of};
use crate::reals::put_real;
use crate::times::{text_of_day, text_of_instant};
use crate::tokens::Tokens;
use json::Token;
use rasn_schema::{LeafKind, NamedNumber, RelativeOid, TimeDigits, Value, leaf_fits};
use rasn_types::types::{
    BitStr, BitString, BmpString, Constraints, Date, GeneralizedTime, Integer, ObjectIdentifier,
};
use std::alloc::{AllocError, Global};

/// Appends a token.
pub fn put<T: Tokens>(out: &mut T, alloc: Global, token: Token<'_>) -> Result<(), JsonError>
    requires { IsPrintable (token_of token) }
    ensures ok { OnOk result (T.Tokens.written out.new ≡ T.Tokens.written out.old ++ token_of token.entry ∷ []) }
    ensures err { IfErr result IsMemory }
{
    or_memory(alloc, out.put(token))
}

/// Returns a text, or an error of this kind if the value has none, or that memory ran out.
fn some_text(
    alloc: Global,
    none: JsonErrorKind,
    text: Result<Option<String>, AllocError>,
) -> Result<String, JsonError>
    ensures ok { IfOk result (λ s. text ≡ Ok (Some s)) }
    ensures err { IfErr result (OrMemory (λ e. (text ≡ Ok None) × IsOfItself none e)) }
{
    match text {
        Ok(Some(text)) => Ok(text),
        Ok(None) => Err(JsonError::new(alloc, none)),
        Err(_) => Err(JsonError::memory(alloc)),
    }
}

/// Returns the error of a value that isn't one of its type.
pub fn unfit(alloc: Global) -> JsonError
    ensures { IsOfItself Unfit result }
{
    JsonError::new(alloc, JsonErrorKind::Unfit)
}

/// Appends a number.
fn put_number<T: Tokens>(out: &mut T, alloc: Global, number: &Integer) -> Result<(), JsonError>
    ensures ok { OnOk result (Appends (NumberJson number.now) (T.Tokens.written out.old) (T.Tokens.written out.new)) }
    ensures err { IfErr result (OrMemory (HasNone LongNumber (NumberJson number.now))) }
{
    let text = some_text(alloc, JsonErrorKind::LongNumber, decimal_of(alloc, number))?;
    put(out, alloc, Token::Number(text.as_str()))
}

/// Returns the name of a number of an ENUMERATED with an extension marker, if it has one.
fn own_name<'types>(
    kind: LeafKind,
    names: &'types [NamedNumber],
    number: &Integer,
) -> Option<&'types str>
    ensures { MatchOption result (IsExtensible kind names.now → IsUnnamed names.now number.now) (λ name. IsExtensible kind names.now × NameJson names.now number.now (string name.now)) }
{
    if !is_enumerated(kind, names) {
        return None;
    }
    name_of(names, number)
}

/// Appends the number of an INTEGER, or of an ENUMERATED with an extension marker: its name or, if
/// it has none, the number.
fn put_integer<T: Tokens>(
    out: &mut T,
    alloc: Global,
    kind: LeafKind,
    names: &[NamedNumber],
    number: &Integer,
) -> Result<(), JsonError>
    ensures ok { OnOk result (Appends (IntegerJson kind names.now number.now) (T.Tokens.written out.old) (T.Tokens.written out.new)) }
    ensures err { IfErr result (OrMemory (HasNone LongNumber (IntegerJson kind names.now number.now))) }
{
    match own_name(kind, names, number) {
        Some(name) => put(out, alloc, Token::String(name)),
        None => put_number(out, alloc, number),
    }
}

/// Appends the name of a number of an ENUMERATED.
pub fn put_enumerated<T: Tokens>(
    out: &mut T,
    alloc: Global,
    numbers: &[NamedNumber],
    value: &Value<'_>,
) -> Result<(), JsonError>
    ensures ok { OnOk result (Appends (EnumeratedJson numbers.now value.now) (T.Tokens.written out.old) (T.Tokens.written out.new)) }
    ensures err { IfErr result (OrMemory (HasNone Unfit (EnumeratedJson numbers.now value.now))) }
{
    let Value::Integer(number) = value else {
        return Err(unfit(alloc));
    };
    match name_of(numbers, number) {
        Some(name) => put(out, alloc, Token::String(name)),
        None => Err(unfit(alloc)),
    }
}

/// Appends octets as hexadecimal digits.
fn put_digits<T: Tokens>(out: &mut T, alloc: Global, octets: &[u8]) -> Result<(), JsonError>
    ensures ok { OnOk result (Appends (HexadecimalJson octets.now) (T.Tokens.written out.old) (T.Tokens.written out.new)) }
    ensures err { IfErr result IsMemory }
{
    let digits = or_memory(alloc, digits_of(alloc, octets))?;
    put(out, alloc, Token::String(digits.as_str()))
}

/// Appends the octets of an open type.
pub fn put_open<T: Tokens>(out: &mut T, alloc: Global, value: &Value<'_>) -> Result<(), JsonError>
    ensures ok { OnOk result (Appends (OpenJson value.now) (T.Tokens.written out.old) (T.Tokens.written out.new)) }
    ensures err { IfErr result (OrMemory (IsRefusedOpen value.now)) }
{
    match value {
        Value::Octets(octets) => put_digits(out, alloc, octets.as_slice()),
        _ => Err(unfit(alloc)),
    }
}

/// Appends the octets of unknown values as an array.
pub fn put_unknown<T: Tokens>(
    out: &mut T,
    alloc: Global,
    values: &[Value<'_>],
) -> Result<(), JsonError>
    ensures ok { OnOk result (Appends (λ j. ArrayJson OpenJson j values.now) (T.Tokens.written out.old) (T.Tokens.written out.new)) }
    ensures err { IfErr result (OrMemory (AreRefusedElements HasOpen IsRefusedOpen 0 values.now)) }
{
    put(out, alloc, Token::BeginArray)?;
    let mut index = 0usize;
    let mut left = values;
    while let [value, others @ ..] = left {
        match put_open(out, alloc, value) {
            Ok(()) => {}
            Err(error) => return Err(error.in_element(alloc, index)),
        }
        left = others;
        index += 1;
    }
    put(out, alloc, Token::EndArray)
}

/// Returns whether values of a kind with this one size may have so many bits. Named bits may be
/// fewer.
fn is_size(kind: LeafKind, size: usize, len: usize) -> bool
    ensures { IsWhether result (IsSize kind size len) }
{
    len == size || kind == LeafKind::NamedBits && len < size
}

/// Appends bits: as a string if the type has one size, else as an object with their number.
fn put_bits<T: Tokens>(
    out: &mut T,
    alloc: Global,
    depth: usize,
    kind: LeafKind,
    constraints: &Constraints,
    bits: &BitStr<'_>,
) -> Result<(), JsonError>
    ensures ok { OnOk result (Appends (BitsJson kind (one_size constraints.now) bits.now) (T.Tokens.written out.old) (T.Tokens.written out.new)) }
    ensures nested { OnOk result (one_size constraints.now ≡ None → 0 < depth) }
    ensures err { IfErr result (OrMemory (AreRefusedBits depth kind constraints.now (one_size constraints.now) bits.now)) }
{
    match fixed_size(constraints) {
        Some(size) => {
            if is_size(kind, size, bits.len()) {
                return put_fixed_bits(out, alloc, size, bits);
            }
            let kind = JsonErrorKind::WrongSize {
                size: bits.len(),
                expected: constraints.size_bounds(),
            };
            Err(JsonError::new(alloc, kind))
        }
        None => {
            if depth == 0 {
                return Err(JsonError::new(alloc, JsonErrorKind::TooDeep));
            }
            put_counted_bits(out, alloc, bits)
        }
    }
}

/// Appends bits, and 0 bits up to this size, as hexadecimal digits.
fn put_fixed_bits<T: Tokens>(
    out: &mut T,
    alloc: Global,
    size: usize,
    bits: &BitStr<'_>,
) -> Result<(), JsonError>
    requires { length bits.now ≤ size }
    ensures ok { OnOk result (Appends (DigitsJson (bits.now ++ zeros (size - length bits.now))) (T.Tokens.written out.old) (T.Tokens.written out.new)) }
    ensures err { IfErr result IsMemory }
{
    let mut octets = or_memory(alloc, BitString::from_bitstr(alloc, bits))?.into_vec();
    or_memory(alloc, octets.resize(size.div_ceil(8), 0))?;
    put_digits(out, alloc, octets.as_slice())
}

/// Appends bits as an object with their hexadecimal digits and their number.
fn put_counted_bits<T: Tokens>(
    out: &mut T,
    alloc: Global,
    bits: &BitStr<'_>,
) -> Result<(), JsonError>
    ensures ok { OnOk result (Appends (CountedJson bits.now) (T.Tokens.written out.old) (T.Tokens.written out.new)) }
    ensures err { IfErr result IsMemory }
{
    let octets = or_memory(alloc, BitString::from_bitstr(alloc, bits))?.into_vec();
    put(out, alloc, Token::BeginObject)?;
    put(out, alloc, Token::Key("value"))?;
    put_digits(out, alloc, octets.as_slice())?;
    put(out, alloc, Token::Key("length"))?;
    put_size(out, alloc, bits.len())?;
    put(out, alloc, Token::EndObject)
}

/// Appends a size.
fn put_size<T: Tokens>(out: &mut T, alloc: Global, size: usize) -> Result<(), JsonError>
    ensures ok { OnOk result (T.Tokens.written out.new ≡ T.Tokens.written out.old ++ number (decimal size) ∷ []) }
    ensures err { IfErr result IsMemory }
{
    let mut buffer = itoa::Buffer::new();
    put(out, alloc, Token::Number(buffer.format(size)))
}

/// Appends octets: as hexadecimal digits, as the characters that they are, or as what they mean.
fn put_octets<T: Tokens>(
    out: &mut T,
    alloc: Global,
    depth: usize,
    kind: LeafKind,
    octets: &[u8],
) -> Result<(), JsonError>
    requires { OctetsFit kind octets.now }
    ensures ok { OnOk result (Appends (OctetsJson kind octets.now) (T.Tokens.written out.old) (T.Tokens.written out.new)) }
    ensures nested { OnOk result (kind ≡ Real → IsDecimalReal octets.now → 0 < depth) }
    ensures err { IfErr result (OrMemory (IsRefusedReal kind depth octets.now)) }
{
    match kind {
        LeafKind::OctetString => put_digits(out, alloc, octets),
        LeafKind::FixedOctetString(_) => put_digits(out, alloc, octets),
        LeafKind::Real => put_real(out, alloc, depth, octets),
        LeafKind::TimeOfDay | LeafKind::DateTime => {
            let digits = TimeDigits { digits: octets };
            let text = or_memory(alloc, format!(in alloc; "{digits}"))?;
            put(out, alloc, Token::String(text.as_str()))
        }
        _ => {
            let text = or_memory(alloc, text_of(alloc, octets))?;
            put(out, alloc, Token::String(text.as_str()))
        }
    }
}

/// Appends the units of a BMPString.
fn put_units<T: Tokens>(out: &mut T, alloc: Global, units: &BmpString) -> Result<(), JsonError>
    ensures ok { OnOk result (Appends (UnitsJson units.now) (T.Tokens.written out.old) (T.Tokens.written out.new)) }
    ensures err { IfErr result (OrMemory (HasNone NoJson (UnitsJson units.now))) }
{
    let text = some_text(alloc, JsonErrorKind::NoJson, text_of_units(alloc, units))?;
    put(out, alloc, Token::String(text.as_str()))
}

/// Appends the arcs of a RELATIVE-OID that these hold, if they have a subidentifier of 32 bits, as
/// they have to where they are read.
fn put_relative<T: Tokens>(
    out: &mut T,
    alloc: Global,
    arcs: &ObjectIdentifier,
) -> Result<(), JsonError>
    ensures ok { OnOk result (Appends (ArcsJson Relative arcs.now) (T.Tokens.written out.old) (T.Tokens.written out.new)) }
    ensures err { IfErr result (OrMemory (HasNone NoJson (ArcsJson Relative arcs.now))) }
{
    let relative = RelativeOid { held: arcs };
    if !have_subidentifier(arcs.arcs()) || relative.first() > u64::from(u32::MAX) {
        return Err(JsonError::new(alloc, JsonErrorKind::NoJson));
    }
    let text = or_memory(alloc, format!(in alloc; "{relative}"))?;
    put(out, alloc, Token::String(text.as_str()))
}

/// Appends the arcs of an OBJECT IDENTIFIER, or those of a RELATIVE-OID that they hold, if they
/// have a subidentifier, as they have to where they are read.
fn put_arcs<T: Tokens>(
    out: &mut T,
    alloc: Global,
    kind: LeafKind,
    arcs: &ObjectIdentifier,
) -> Result<(), JsonError>
    ensures ok { OnOk result (Appends (ArcsJson kind arcs.now) (T.Tokens.written out.old) (T.Tokens.written out.new)) }
    ensures err { IfErr result (OrMemory (HasNone NoJson (ArcsJson kind arcs.now))) }
{
    if kind == LeafKind::RelativeOid {
        return put_relative(out, alloc, arcs);
    }
    if !have_subidentifier(arcs.arcs()) {
        return Err(JsonError::new(alloc, JsonErrorKind::NoJson));
    }
    let text = or_memory(alloc, format!(in alloc; "{arcs}"))?;
    put(out, alloc, Token::String(text.as_str()))
}

/// Appends an instant.
fn put_instant<T: Tokens>(
    out: &mut T,
    alloc: Global,
    kind: LeafKind,
    time: &GeneralizedTime,
) -> Result<(), JsonError>
    ensures ok { OnOk result (Appends (InstantJson kind time.now.moment) (T.Tokens.written out.old) (T.Tokens.written out.new)) }
    ensures err { IfErr result (OrMemory (HasNone NoJson (InstantJson kind time.now.moment))) }
{
    let text = some_text(
        alloc,
        JsonErrorKind::NoJson,
        text_of_instant(alloc, kind, time),
    )?;
    put(out, alloc, Token::String(text.as_str()))
}

/// Appends a day.
fn put_day<T: Tokens>(out: &mut T, alloc: Global, day: &Date) -> Result<(), JsonError>
    ensures ok { OnOk result (Appends (DayJson day.now) (T.Tokens.written out.old) (T.Tokens.written out.new)) }
    ensures err { IfErr result (OrMemory (HasNone NoJson (DayJson day.now))) }
{
    let text = some_text(alloc, JsonErrorKind::NoJson, text_of_day(alloc, day))?;
    put(out, alloc, Token::String(text.as_str()))
}

/// A type whose values hold no others.
#[derive(Clone, Copy)]
pub struct Leaf<'types> {
    pub kind: LeafKind,
    pub constraints: &'types Constraints,
    /// The names of its numbers.
    pub names: &'types [NamedNumber],
}

/// Appends a value that holds no others. So many arrays and objects may be nested in it.
pub fn put_leaf<T: Tokens>(
    out: &mut T,
    alloc: Global,
    depth: usize,
    leaf: Leaf<'_>,
    value: &Value<'_>,
) -> Result<(), JsonError>
    ensures fits { OnOk result (FitsLeaf leaf.entry.kind value.now) }
    ensures json { OnOk result (Appends (LeafJson leaf.entry.kind leaf.entry.constraints.now leaf.entry.names.now value.now) (T.Tokens.written out.old) (T.Tokens.written out.new)) }
    ensures nested { OnOk result (IsCounted leaf.entry.kind leaf.entry.constraints.now value.now → 0 < depth) }
    ensures err { IfErr result (OrMemory (IsRefusedLeaf depth leaf.entry.kind leaf.entry.constraints.now leaf.entry.names.now value.now)) }
{
    let Leaf {
        kind,
        constraints,
        names,
    } = leaf;
    if !leaf_fits(kind, value) {
        return Err(unfit(alloc));
    }
    match value {
        Value::Boolean(truth) => put(out, alloc, Token::Bool(*truth)),
        Value::Null => put(out, alloc, Token::Null),
        Value::Integer(number) => put_integer(out, alloc, kind, names, number),
        Value::Bits(bits) => put_bits(out, alloc, depth, kind, constraints, &bits.as_bitstr()),
        Value::Octets(octets) => put_octets(out, alloc, depth, kind, octets.as_slice()),
        Value::Text(text) => put(out, alloc, Token::String(text.as_str())),
        Value::Units(units) => put_units(out, alloc, units),
        Value::Arcs(arcs) => put_arcs(out, alloc, kind, arcs),
        Value::Instant(time) => put_instant(out, alloc, kind, time),
        Value::Day(day) => put_day(out, alloc, day),
        Value::Items(_) | Value::Elements(_) | Value::Chosen(_, _) | Value::Absent => {
            unreachable!()
        }
    }
}
