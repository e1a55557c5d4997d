//! REAL: the contents octets of a value, and those that canonical rules have for it (X.690 8.5,
//! 11.3).
ghost use Rattle.std.specs.Prelude.{◌≡◌, ◌<◌, ◌≤◌, ◌⊎◌, ◌^◌, ◌+◌, ◌%◌, ◌*◌, ◌≢◌, ◌<ℤ◌, ◌≤ℤ◌, ◌-ℤ◌, neg_ℤ, pos, List, ℕ, [], ◌∷◌, length, false, nat_lt, if◌then◌else◌, IfOk, MatchOption, to_bits};
ghost use Rattle.std.specs.Float.{binary64};
ghost use Rattle.std.specs.Fmt.{WritesOnOk};
ghost use Rattle.rasn_types.specs.Truth.{IsWhether};
ghost use Rattle.rasn_types.specs.Framing.{bit_of, number_in};
ghost use Rattle.rasn_types.specs.Contents.{signed};
ghost use Rattle.rasn_schema.specs.Reals.{IsRealOctets, IsCanonicalReal, IsShownAs, IsDouble, IsOfBits, HasBits};
ghost use Rattle.rasn_schema.specs.RealShown.{before_mantissa, mantissa_text, base_text, exponent_text};

use crate::octets::{signed_i64, whole};
use crate::real_binary::{binary_view, canonical_binary, contents_of_number};
use crate::real_decimal::{canonical_decimal, decimal_view};
use crate::time_text::write_octets;
use rasn_types::types::{Hexadecimal, signed_i128};
use std::alloc::{AllocError, Global};
use std::fmt;

/// A value of a REAL, as canonical rules have it (X.690 11.3).
#[derive(Clone, Copy, Debug, PartialEq, Eq)]
pub enum Real<'octets> {
    /// Zero.
    Zero,
    /// Minus zero.
    MinusZero,
    /// PLUS-INFINITY.
    Infinity,
    /// MINUS-INFINITY.
    MinusInfinity,
    /// NOT-A-NUMBER.
    NotANumber,
    /// An odd mantissa times a power of 2: the octets of the mantissa without its sign, and those of
    /// the exponent in two's complement, both as few as possible.
    Binary {
        is_negative: bool,
        mantissa: &'octets [u8],
        exponent: &'octets [u8],
    },
    /// A mantissa, which isn't a multiple of 10, times a power of 10: the digits of the mantissa
    /// without its sign, and the exponent in decimal.
    Decimal {
        is_negative: bool,
        mantissa: &'octets [u8],
        exponent: &'octets [u8],
    },
}

impl<'octets> Real<'octets> {
    /// Returns the value that canonical rules encode with these contents octets, or `None` if they
    /// encode none so (X.690 11.3).
    pub fn of_contents(contents: &'octets [u8]) -> Option<Real<'octets>>
        ensures { MatchOption result (IsCanonicalReal contents.now → ⊥) (IsShownAs contents.now) }
    {
        match contents {
            [] => Some(Real::Zero),
            [first, after @ ..] => real_after(*first, after),
        }
    }

    /// Returns the number as an `f64`, or `None` if none is equal to it. Of a number with base 10
    /// none is.
    pub fn to_f64(&self) -> Option<f64>
        requires { (octets : List ℕ) × IsShownAs octets self.now }
        ensures { MatchOption result ((bits : ℕ) → HasBits self.now bits → ⊥) (λ x. HasBits self.now (to_bits binary64 x)) }
    {
        match self {
            Real::Zero => Some(0.0),
            Real::MinusZero => Some(-0.0),
            Real::Infinity => Some(f64::INFINITY),
            Real::MinusInfinity => Some(f64::NEG_INFINITY),
            Real::NotANumber => Some(f64::NAN),
            Real::Binary {
                is_negative,
                mantissa,
                exponent,
            } => match double_bits(*is_negative, mantissa, exponent) {
                Some(bits) => Some(f64::from_bits(bits)),
                None => None,
            },
            Real::Decimal { .. } => None,
        }
    }
}

/// Writes the value in value notation (X.680 21.6): a number with its mantissa, its base and its
/// exponent. With base 2 a mantissa of more than 64 bits is written in hexadecimal after `0x`, and
/// an exponent of more than eight octets as these in two's complement.
impl fmt::Display for Real<'_> {
    ghost use Rattle.std.specs.Prelude.{Some};
    ghost use Rattle.rasn_schema.specs.RealShown.{real_text};

    ghost output = { λ r. Some (real_text r) };

    fn fmt<W: fmt::Write>(&self, f: &mut fmt::Formatter<W>) -> fmt::Result {
        match self {
            Real::Zero => f.write_str("0"),
            Real::MinusZero => f.write_str("-0"),
            Real::Infinity => f.write_str("PLUS-INFINITY"),
            Real::MinusInfinity => f.write_str("MINUS-INFINITY"),
            Real::NotANumber => f.write_str("NOT-A-NUMBER"),
            Real::Binary {
                is_negative,
                mantissa,
                exponent,
            } => {
                f.write_str(before_mantissa(*is_negative))?;
                write_mantissa(f, mantissa)?;
                write_base(f, 2)?;
                write_exponent(f, exponent)?;
                f.write_str("}")
            }
            Real::Decimal {
                is_negative,
                mantissa,
                exponent,
            } => {
                f.write_str(before_mantissa(*is_negative))?;
                write_octets(f, mantissa)?;
                write_base(f, 10)?;
                write_octets(f, exponent)?;
                f.write_str("}")
            }
        }
    }
}

/// Returns what is written before a mantissa.
fn before_mantissa(is_negative: bool) -> &'static str
    ensures { result.now ≡ before_mantissa is_negative }
{
    if is_negative {
        "{mantissa -"
    } else {
        "{mantissa "
    }
}

/// Writes a mantissa with base 2 without its sign.
fn write_mantissa<W: fmt::Write>(f: &mut fmt::Formatter<W>, octets: &[u8]) -> fmt::Result
    ensures { WritesOnOk W.write_str_gives f.old result (mantissa_text octets.now) f.new }
{
    match whole(octets) {
        Some(number) => write!(f, "{number}"),
        None => write!(f, "0x{}", Hexadecimal::new(octets)),
    }
}

/// Writes a base, after a mantissa and before an exponent.
fn write_base<W: fmt::Write>(f: &mut fmt::Formatter<W>, base: u8) -> fmt::Result
    ensures { WritesOnOk W.write_str_gives f.old result (base_text base) f.new }
{
    write!(f, ", base {base}, exponent ")
}

/// Writes an exponent with base 2.
fn write_exponent<W: fmt::Write>(f: &mut fmt::Formatter<W>, octets: &[u8]) -> fmt::Result
    ensures { WritesOnOk W.write_str_gives f.old result (exponent_text octets.now) f.new }
{
    match signed_i64(octets) {
        Some(number) => write!(f, "{number}"),
        None => write!(f, "0x{}", Hexadecimal::new(octets)),
    }
}

/// Returns the value of contents octets, of which there is a first one.
#[tactic(auto, using(crate::proofs::RealViews::at_three, crate::proofs::RealViews::at_one, crate::proofs::RealViews::no_real))]
fn real_after(first: u8, after: &[u8]) -> Option<Real<'_>>
    ensures { MatchOption result (IsCanonicalReal (first ∷ after.now) → ⊥) (IsShownAs (first ∷ after.now)) }
{
    if first >= 0x80 {
        return binary_view(first, after);
    }
    if first == 3 {
        return decimal_view(after);
    }
    if after.is_empty() {
        special(first)
    } else {
        None
    }
}

/// Returns the value that is one octet (X.690 8.5.9).
fn special(first: u8) -> Option<Real<'static>>
    ensures { MatchOption result ((first < 64) ⊎ (67 < first)) (IsShownAs (first ∷ [])) }
{
    match first {
        0x40 => Some(Real::Infinity),
        0x41 => Some(Real::MinusInfinity),
        0x42 => Some(Real::NotANumber),
        0x43 => Some(Real::MinusZero),
        _ => None,
    }
}

/// Returns whether the octets are the contents of a REAL under canonical rules (X.690 11.3).
pub fn is_canonical_real(contents: &[u8]) -> bool
    ensures { IsWhether result (IsCanonicalReal contents.now) }
{
    Real::of_contents(contents).is_some()
}

/// Returns the contents octets that canonical rules have for the REAL that these encode under BER,
/// or `None` if they encode none (X.690 8.5, 11.3).
///
/// # Errors
/// If an allocation fails.
pub fn canonical_real(alloc: Global, contents: &[u8]) -> Result<Option<Vec<u8>>, AllocError>
    ensures { IfOk result (λ found. MatchOption found ((octets : _) → IsRealOctets contents.now octets → ⊥) (λ v. IsRealOctets contents.now v.items)) }
{
    match contents {
        [] => Ok(Some(Vec::new(alloc))),
        [first, after @ ..] => canonical_after(alloc, *first, after),
    }
}

/// Returns the contents octets that canonical rules have for these, of which there is a first one.
#[tactic(auto, using(crate::proofs::RealMade::no_special))]
fn canonical_after(alloc: Global, first: u8, after: &[u8]) -> Result<Option<Vec<u8>>, AllocError>
    ensures { IfOk result (λ found. MatchOption found ((octets : _) → IsRealOctets (first ∷ after.now) octets → ⊥) (λ v. IsRealOctets (first ∷ after.now) v.items)) }
{
    if first >= 0x80 {
        return canonical_binary(alloc, first, after);
    }
    if first < 0x40 {
        return canonical_decimal(alloc, first, after);
    }
    if first <= 0x43 && after.is_empty() {
        Ok(Some(Vec::from_slice(alloc, &[first])?))
    } else {
        Ok(None)
    }
}

/// Returns the contents octets of an `f64` (X.690 11.3.1).
///
/// # Errors
/// If an allocation fails.
pub fn contents_of_f64(alloc: Global, number: f64) -> Result<Vec<u8>, AllocError>
    ensures { IfOk result (λ v. IsOfBits (to_bits binary64 number) v.items) }
{
    if number.is_nan() {
        Vec::from_slice(alloc, &[0x42])
    } else {
        contents_of_bits(alloc, number.to_bits())
    }
}

/// Returns the contents octets of the `f64` with these bits, which are those of a number or an
/// infinity.
fn contents_of_bits(alloc: Global, bits: u64) -> Result<Vec<u8>, AllocError>
    requires { bits % 2 ^ 63 ≤ 2047 * 2 ^ 52 }
    ensures { IfOk result (λ v. IsOfBits bits v.items) }
{
    let is_negative = bits >= 1 << 63;
    let fraction = bits % (1 << 52);
    let scale = bits / (1 << 52) % 2048;
    if scale == 2047 {
        return Vec::from_slice(alloc, &[if is_negative { 0x41 } else { 0x40 }]);
    }
    if scale == 0 {
        return contents_of_fraction(alloc, is_negative, fraction);
    }
    contents_of_number(
        alloc,
        is_negative,
        fraction + (1 << 52),
        scale as i64 - 1075,
    )
}

/// Returns the contents octets of an `f64` with scale 0.
fn contents_of_fraction(
    alloc: Global,
    is_negative: bool,
    fraction: u64,
) -> Result<Vec<u8>, AllocError>
    requires { fraction < 2 ^ 52 }
    ensures { IfOk result (λ v. IsOfBits (2 ^ 63 * bit_of is_negative + fraction) v.items) }
{
    if fraction != 0 {
        contents_of_number(alloc, is_negative, fraction, -1074)
    } else if is_negative {
        Vec::from_slice(alloc, &[0x43])
    } else {
        Ok(Vec::new(alloc))
    }
}

/// Returns the bits of the `f64` that is an odd mantissa times a power of 2, or `None` if none is.
#[tactic(auto, using(crate::proofs::Doubles::signed, crate::proofs::Doubles::no_signed, crate::proofs::Doubles::too_large))]
fn double_bits(is_negative: bool, mantissa: &[u8], exponent: &[u8]) -> Option<u64>
    requires odd { number_in 256 mantissa.now % 2 ≡ 1 }
    requires some { 0 < length exponent.now }
    ensures { MatchOption result ((bits : ℕ) → IsDouble bits is_negative (number_in 256 mantissa.now) (signed exponent.now) → ⊥) (λ bits. IsDouble bits is_negative (number_in 256 mantissa.now) (signed exponent.now)) }
{
    let Some(number) = whole(mantissa) else {
        return None;
    };
    let Some(exponent) = signed_i128(exponent) else {
        return None;
    };
    let Some(bits) = magnitude(number, exponent) else {
        return None;
    };
    Some(if is_negative { bits + (1 << 63) } else { bits })
}

/// Returns the bits of the `f64` that is an odd mantissa times a power of 2, or `None` if none is.
fn magnitude(mantissa: u64, exponent: i128) -> Option<u64>
    requires { mantissa % 2 ≡ 1 }
    ensures { MatchOption result ((bits : ℕ) → IsDouble bits false mantissa exponent → ⊥) (λ bits. (bits < 2 ^ 63) × IsDouble bits false mantissa exponent) }
{
    let Some(place) = place_of(exponent) else {
        return None;
    };
    let width = width_of(mantissa);
    if width > 53 || place + width > 2098 {
        return None;
    }
    if place + width <= 52 {
        return Some(shifted(mantissa, place));
    }
    let scale = place + width - 53;
    Some(shifted(u64::from(scale), 52) + shifted(mantissa, 53 - width))
}

/// Returns how many times the least `f64` has to be doubled to have this power of 2, or `None` if
/// no `f64` has it.
fn place_of(exponent: i128) -> Option<u32>
    ensures { MatchOption result ((exponent <ℤ neg_ℤ (pos 1074)) ⊎ (pos 1024 ≤ℤ exponent)) (λ place. (place ≤ 2097) × (exponent ≡ pos place -ℤ pos 1074)) }
{
    if exponent < -1074 || exponent > 1023 {
        None
    } else {
        Some((exponent + 1074) as u32)
    }
}

/// Returns a number times a power of 2.
fn shifted(number: u64, shift: u32) -> u64
    requires few { shift < 64 }
    requires fits { number * 2 ^ shift < 2 ^ 64 }
    ensures { result ≡ number * 2 ^ shift }
{
    number << shift
}

/// Returns how many bits a number has from the first that is 1.
#[tactic(auto, using(crate::proofs::Doubles::is_wide))]
fn width_of(number: u64) -> u32
    requires { number ≢ 0 }
    ensures above { number < 2 ^ result }
    ensures below { 2 ^ result ≤ 2 * number }
{
    let mut rest = number;
    let mut width = 0u32;
    while rest > 0 {
        rest /= 2;
        width += 1;
    }
    width
}
