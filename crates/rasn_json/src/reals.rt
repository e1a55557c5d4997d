//! REAL (X.697, encoding of real values).
ghost use Rattle.std.specs.Prelude.{◌≡◌, ◌<◌, ◌∷◌, List, ℕ, ℤ, IfErr, IfOk, IfSome, OnOk, string_bytes};
ghost use Rattle.json.specs.Json.{string};
ghost use Rattle.json.specs.Value.{value_view};
ghost use Rattle.rasn_types.specs.Contents.{number_of_digits, SpellsDigits};
ghost use Rattle.rasn_schema.specs.declared.types.LeafKind.TheVariants.{Real as RealKind};
ghost use Rattle.rasn_schema.specs.Reals.{IsCanonicalReal, IsShownAs, IsWholeText};
ghost use Rattle.rasn_json.specs.Json.{Appends};
ghost use Rattle.rasn_json.specs.Reals.{base_ten, decimal_text, BinaryJson, IsBinaryView, IsDecimalReal, IsFoundReal, RealJson, RealRead};
ghost use Rattle.rasn_json.specs.Refusals.{IsMemory, IsRefusedReal, OrMemory};

use crate::characters::text_of;
use crate::error::{JsonError, JsonErrorKind, or_memory};
use crate::found::other_form;
use crate::tokens::Tokens;
use crate::write_leaf::put;
use hex::FromHexError;
use json::{Token, Value as Json};
use rasn_schema::{Real, contents_of_binary, contents_of_decimal, contents_of_f64};
use std::alloc::{AllocError, Global};

/// The text before a mantissa with base 2 (X.680 21.6).
const MANTISSA: &str = "{mantissa ";

/// The text between a mantissa and its exponent.
const EXPONENT: &str = ", base 2, exponent ";

/// Appends a REAL with these contents octets, which canonical rules have: a number as one of JSON,
/// if an `f64` is equal to it, with base 10 as an object.
pub fn put_real<T: Tokens>(
    out: &mut T,
    alloc: Global,
    depth: usize,
    octets: &[u8],
) -> Result<(), JsonError>
    requires { IsCanonicalReal octets.now }
    ensures ok { OnOk result (Appends (RealJson octets.now) (T.Tokens.written out.old) (T.Tokens.written out.new)) }
    ensures nested { OnOk result (IsDecimalReal octets.now → 0 < depth) }
    ensures err { IfErr result (OrMemory (IsRefusedReal RealKind depth octets.now)) }
{
    let Some(real) = Real::of_contents(octets) else {
        unreachable!()
    };
    match real {
        Real::Zero => put(out, alloc, Token::Number("0")),
        Real::MinusZero => put(out, alloc, Token::String("-0")),
        Real::Infinity => put(out, alloc, Token::String("INF")),
        Real::MinusInfinity => put(out, alloc, Token::String("-INF")),
        Real::NotANumber => put(out, alloc, Token::String("NaN")),
        Real::Binary { .. } => put_binary(out, alloc, real),
        Real::Decimal {
            is_negative,
            mantissa,
            exponent,
        } => {
            if depth == 0 {
                return Err(JsonError::new(alloc, JsonErrorKind::TooDeep));
            }
            put_decimal(out, alloc, is_negative, mantissa, exponent)
        }
    }
}

/// Appends a number with base 2.
fn put_binary<T: Tokens>(out: &mut T, alloc: Global, real: Real<'_>) -> Result<(), JsonError>
    requires binary { IsBinaryView real }
    requires shown { (octets : List ℕ) × IsShownAs octets real }
    ensures ok { OnOk result (Appends (BinaryJson real.entry) (T.Tokens.written out.old) (T.Tokens.written out.new)) }
    ensures err { IfErr result IsMemory }
{
    match real.to_f64() {
        Some(number) => {
            let mut buffer = ryu::Buffer::new();
            put(out, alloc, Token::Number(buffer.format_finite(number)))
        }
        None => {
            let text = or_memory(alloc, format!(in alloc; "{real}"))?;
            put(out, alloc, Token::String(text.as_str()))
        }
    }
}

/// Appends a number with base 10 as an object.
fn put_decimal<T: Tokens>(
    out: &mut T,
    alloc: Global,
    is_negative: bool,
    mantissa: &[u8],
    exponent: &[u8],
) -> Result<(), JsonError>
    requires mantissa { SpellsDigits mantissa.now (number_of_digits mantissa.now) }
    requires exponent { (e : ℤ) × IsWholeText exponent.now e }
    ensures ok { OnOk result (Appends (λ j. j ≡ base_ten (decimal_text is_negative mantissa.now exponent.now)) (T.Tokens.written out.old) (T.Tokens.written out.new)) }
    ensures err { IfErr result IsMemory }
{
    let text = or_memory(alloc, decimal_text(alloc, is_negative, mantissa, exponent))?;
    put(out, alloc, Token::BeginObject)?;
    put(out, alloc, Token::Key("base10Value"))?;
    put(out, alloc, Token::Number(text.as_str()))?;
    put(out, alloc, Token::EndObject)
}

/// Returns a number with base 10 as JSON has it: `15E-1`.
fn decimal_text(
    alloc: Global,
    is_negative: bool,
    mantissa: &[u8],
    exponent: &[u8],
) -> Result<String, AllocError>
    requires mantissa { SpellsDigits mantissa.now (number_of_digits mantissa.now) }
    requires exponent { (e : ℤ) × IsWholeText exponent.now e }
    ensures { IfOk result (λ s. string_bytes s ≡ decimal_text is_negative mantissa.now exponent.now) }
{
    let digits = text_of(alloc, mantissa)?;
    let exponent = text_of(alloc, exponent)?;
    if is_negative {
        format!(in alloc; "-{digits}E{exponent}")
    } else {
        format!(in alloc; "{digits}E{exponent}")
    }
}

/// Returns the contents octets, as canonical rules have them, of the REAL that a JSON value is: a
/// number is the `f64` nearest to it.
pub fn real_of(alloc: Global, json: &Json<'_>) -> Result<Vec<u8>, JsonError>
    ensures fits { IfOk result (λ octets. IsCanonicalReal octets.items) }
    ensures reads { IfOk result (λ octets. RealRead (value_view json.now) octets.items) }
{
    let octets = match json {
        Json::Number(_) => number_octets(alloc, json),
        Json::String(text) => text_octets(alloc, text),
        Json::Object(_) => decimal_octets(alloc, json),
        Json::Null | Json::Bool(_) | Json::Array(_) => {
            return Err(other_form(alloc, "a number", json));
        }
    };
    match or_memory(alloc, octets)? {
        Some(octets) => Ok(octets),
        None => Err(JsonError::new(alloc, JsonErrorKind::NotReal)),
    }
}

/// Returns the contents octets of the `f64` nearest to a number, unless it is too large.
fn number_octets(alloc: Global, json: &Json<'_>) -> Result<Option<Vec<u8>>, AllocError>
    ensures { IfOk result (λ found. IfSome found (λ v. IsFoundReal (value_view json.now) v.items)) }
{
    match json.as_f64() {
        Some(number) if number.is_finite() => Ok(Some(contents_of_f64(alloc, number)?)),
        _ => Ok(None),
    }
}

/// Returns the contents octets of the only member of an object.
fn decimal_octets(alloc: Global, json: &Json<'_>) -> Result<Option<Vec<u8>>, AllocError>
    ensures { IfOk result (λ found. IfSome found (λ v. IsFoundReal (value_view json.now) v.items)) }
{
    let Json::Object(members) = json else {
        return Ok(None);
    };
    let [(name, member)] = members.as_slice() else {
        return Ok(None);
    };
    if *name != "base10Value" {
        return Ok(None);
    }
    match member.as_number() {
        Some(text) => contents_of_decimal(alloc, text),
        None => Ok(None),
    }
}

/// Returns the contents octets of a value that is a string.
fn text_octets(alloc: Global, text: &str) -> Result<Option<Vec<u8>>, AllocError>
    ensures { IfOk result (λ found. IfSome found (λ v. IsFoundReal (string text.now) v.items)) }
{
    let contents = match text {
        "-0" => 0x43u8,
        "INF" => 0x40,
        "-INF" => 0x41,
        "NaN" => 0x42,
        _ => return notation_octets(alloc, text),
    };
    Ok(Some(Vec::from_slice(alloc, &[contents])?))
}

/// Returns the contents octets of a mantissa and an exponent with base 2, in value notation.
fn notation_octets(alloc: Global, text: &str) -> Result<Option<Vec<u8>>, AllocError>
    ensures { IfOk result (λ found. IfSome found (λ v. IsFoundReal (string text.now) v.items)) }
{
    let Some((is_negative, mantissa, exponent)) = parts_of(text) else {
        return Ok(None);
    };
    let Some(mantissa) = mantissa_octets(alloc, mantissa)? else {
        return Ok(None);
    };
    let Some(exponent) = exponent_octets(alloc, exponent)? else {
        return Ok(None);
    };
    shown_octets(alloc, text, is_negative, &mantissa, &exponent)
}

/// Returns the contents octets of a mantissa and an exponent whose number is shown as this text.
fn shown_octets(
    alloc: Global,
    text: &str,
    is_negative: bool,
    mantissa: &[u8],
    exponent: &[u8],
) -> Result<Option<Vec<u8>>, AllocError>
    ensures { IfOk result (λ found. IfSome found (λ v. IsFoundReal (string text.now) v.items)) }
{
    let real = Real::Binary {
        is_negative,
        mantissa,
        exponent,
    };
    // The text is the only one of these octets.
    if format!(in alloc; "{real}")?.as_str() != text {
        return Ok(None);
    }
    contents_of_binary(alloc, is_negative, mantissa, exponent)
}

/// Returns the sign, the mantissa and the exponent of a text.
fn parts_of(text: &str) -> Option<(bool, &str, &str)> {
    let (mantissa, exponent) = text
        .strip_prefix(MANTISSA)?
        .strip_suffix('}')?
        .split_once(EXPONENT)?;
    match mantissa.strip_prefix('-') {
        Some(mantissa) => Some((true, mantissa, exponent)),
        None => Some((false, mantissa, exponent)),
    }
}

/// Returns the octets of a mantissa without its sign.
fn mantissa_octets(alloc: Global, text: &str) -> Result<Option<Vec<u8>>, AllocError> {
    match text.parse::<u64>() {
        Ok(number) => Ok(Some(Vec::from_slice(alloc, &number.to_be_bytes())?)),
        Err(_) => hexadecimal_octets(alloc, text),
    }
}

/// Returns the octets of an exponent in two's complement.
fn exponent_octets(alloc: Global, text: &str) -> Result<Option<Vec<u8>>, AllocError> {
    match text.parse::<i64>() {
        Ok(number) => Ok(Some(Vec::from_slice(alloc, &number.to_be_bytes())?)),
        Err(_) => hexadecimal_octets(alloc, text),
    }
}

/// Returns the octets of hexadecimal digits after `0x`.
fn hexadecimal_octets(alloc: Global, text: &str) -> Result<Option<Vec<u8>>, AllocError> {
    let Some(digits) = text.strip_prefix("0x") else {
        return Ok(None);
    };
    match hex::decode(alloc, digits) {
        Ok(octets) => Ok(Some(octets)),
        Err(FromHexError::OutOfMemory) => Err(AllocError),
        Err(_) => Ok(None),
    }
}
