//! REAL with base 2 (X.690 8.5.7, 11.3.1).
ghost use Rattle.std.specs.Prelude.{◌≡◌, ◌≢◌, ℕ, ◌+◌, ◌*◌, ◌^◌, ◌%◌, ◌/◌, ◌-◌, ◌≤◌, ◌<◌, ◌++◌, ◌∷◌, pos, neg_ℤ, ◌+ℤ◌, ◌*ℤ◌, ◌≤ℤ◌, ◌<ℤ◌, List, length, All, IfOk, MatchOption};
ghost use Rattle.rasn_types.specs.Truth.{IsWhether};
ghost use Rattle.rasn_types.specs.Framing.{bit_of, number_in};
ghost use Rattle.rasn_types.specs.Contents.{signed, IsBase, HoldsExponent, IsShortestInteger, IsShortestMantissa, IsCanonicalBinary};
ghost use Rattle.rasn_schema.specs.Reals.{IsRealOctets, IsCanonicalReal, IsOfBinary, IsShownAs};
ghost use Rattle.rasn_schema.specs.RealParts.{IsCut, IsNoCut, AreParts, IsNoBinary, HasCanonicalForm, IsPower, EndsOffZero, LowZeros, ZerosAtEnd, IsOddPart};

use crate::octets::{fewest_unsigned, multiply_and_add};
use crate::real::Real;
use rasn_types::types::{LONGEST_NUMBER, i64_octets, repeats_sign, shortest};
use std::alloc::{AllocError, Global};

/// The parts of a number with base 2, 8 or 16 (X.690 8.5.7).
#[derive(Clone, Copy)]
pub(crate) struct BinaryParts<'octets> {
    pub is_negative: bool,
    /// The base is 2 to this power.
    pub power: u8,
    /// The scaling factor.
    pub factor: u8,
    /// Says how many octets the exponent has: bits 2 and 1 of the first octet.
    pub form: u8,
    /// The exponent in two's complement.
    pub exponent: &'octets [u8],
    /// The mantissa without its sign.
    pub mantissa: &'octets [u8],
}

/// Returns the parts of contents octets, the first of which has its high bit set; `None` if the
/// base is none, the exponent has too few octets or more than it needs, or the mantissa is 0.
pub(crate) fn binary_parts(first: u8, after: &[u8]) -> Option<BinaryParts<'_>>
    requires { 128 ≤ first }
    ensures { MatchOption result (IsNoBinary (first ∷ after.now)) (AreParts (first ∷ after.now)) }
{
    let Some(power) = power_of(first / 16 % 4) else {
        return None;
    };
    let form = first % 4;
    let Some((exponent, mantissa)) = cut(form, after) else {
        return None;
    };
    if is_zero(mantissa) {
        return None;
    }
    Some(BinaryParts {
        is_negative: has_sign(first),
        power,
        factor: first / 4 % 4,
        form,
        exponent,
        mantissa,
    })
}

/// Returns whether the bit of the sign is set (X.690 8.5.7.1).
fn has_sign(first: u8) -> bool
    ensures { IsWhether result (first / 64 % 2 ≡ 1) }
{
    first / 64 % 2 == 1
}

/// Returns the power of 2 that a base is (X.690 8.5.7.2).
fn power_of(base: u8) -> Option<u8>
    ensures { MatchOption result ((power : ℕ) → IsBase base power → ⊥) (IsBase base) }
{
    match base {
        0 => Some(1),
        1 => Some(3),
        2 => Some(4),
        _ => None,
    }
}

/// Returns the octets of the exponent and those of the mantissa (X.690 8.5.7.4).
#[tactic(auto, using(crate::proofs::RealViews::short_cut, crate::proofs::RealViews::no_long_cut))]
fn cut(form: u8, octets: &[u8]) -> Option<(&[u8], &[u8])>
    requires { form < 4 }
    ensures { MatchOption result (IsNoCut form octets.now) (λ r. IsCut form octets.now r.0.now r.1.now) }
{
    if form < 3 {
        return front(usize::from(form) + 1, octets);
    }
    match octets {
        [] => None,
        [count, after @ ..] => long_cut(form, *count, after),
    }
}

/// Returns the octets of the exponent, of which there are so many, and those of the mantissa.
#[tactic(auto, using(crate::proofs::RealViews::too_short, crate::proofs::RealViews::not_shortest, crate::proofs::RealViews::long_cut))]
fn long_cut(form: u8, count: u8, after: &[u8]) -> Option<(&[u8], &[u8])>
    requires { form ≡ 3 }
    ensures { MatchOption result (IsNoCut form (count ∷ after.now)) (λ r. IsCut form (count ∷ after.now) r.0.now r.1.now) }
{
    let (exponent, mantissa) = front(usize::from(count), after)?;
    if is_shortest(exponent) {
        Some((exponent, mantissa))
    } else {
        None
    }
}

/// Returns so many octets and those after them.
fn front(count: usize, octets: &[u8]) -> Option<(&[u8], &[u8])>
    ensures { MatchOption result (length octets.now < count) (λ r. (length r.0.now ≡ count) × (octets.now ≡ r.0.now ++ r.1.now)) }
{
    if octets.len() < count {
        None
    } else {
        Some(octets.split_at(count))
    }
}

/// Returns whether no octet of a number in two's complement only repeats its sign, and there is
/// one.
fn is_shortest(octets: &[u8]) -> bool
    ensures { IsWhether result (IsShortestInteger octets.now) }
{
    match octets {
        [] => false,
        [_] => true,
        [first, second, ..] => !repeats_sign(*first, *second),
    }
}

/// Returns whether all octets are 0.
fn is_zero(octets: &[u8]) -> bool
    ensures { IsWhether result (All (λ octet. octet ≡ 0) octets.now) }
{
    for octet in octets {
        if *octet != 0 {
            return false;
        }
    }
    true
}

/// Returns whether there is a first octet, and it isn't 0.
fn begins_off_zero(octets: &[u8]) -> bool
    ensures { IsWhether result (IsShortestMantissa octets.now) }
{
    match octets {
        [] => false,
        [first, ..] => *first != 0,
    }
}

/// Returns whether a number is odd.
fn is_odd(octets: &[u8]) -> bool
    ensures { IsWhether result (number_in 256 octets.now % 2 ≡ 1) }
{
    match octets {
        [] => false,
        [.., last] => *last % 2 == 1,
    }
}

impl BinaryParts<'_> {
    /// Returns whether canonical rules have these parts (X.690 11.3.1).
    fn is_canonical(&self) -> bool
        ensures { IsWhether result (HasCanonicalForm self.now) }
    {
        self.power == 1
            && self.factor == 0
            && is_shortest(self.exponent)
            && (self.form != 3 || self.exponent.len() > 3)
            && begins_off_zero(self.mantissa)
            && is_odd(self.mantissa)
    }
}

/// Returns a number with base 2 whose contents octets are canonical.
#[tactic(auto, using(crate::proofs::RealViews::no_parts, crate::proofs::RealViews::not_canonical, crate::proofs::RealViews::canonical_parts))]
pub(crate) fn binary_view(first: u8, after: &[u8]) -> Option<Real<'_>>
    requires { 128 ≤ first }
    ensures { MatchOption result (IsCanonicalReal (first ∷ after.now) → ⊥) (IsShownAs (first ∷ after.now)) }
{
    let Some(parts) = binary_parts(first, after) else {
        return None;
    };
    if !parts.is_canonical() {
        return None;
    }
    Some(Real::Binary {
        is_negative: parts.is_negative,
        mantissa: parts.mantissa,
        exponent: parts.exponent,
    })
}

/// Returns the contents octets that canonical rules have for the REAL that these encode, the first
/// of which has its high bit set, or `None` if they encode none.
#[tactic(auto, using(crate::proofs::RealMade::no_octets))]
pub(crate) fn canonical_binary(
    alloc: Global,
    first: u8,
    after: &[u8],
) -> Result<Option<Vec<u8>>, AllocError>
    requires { 128 ≤ first }
    ensures { IfOk result (λ found. MatchOption found ((octets : _) → IsRealOctets (first ∷ after.now) octets → ⊥) (λ v. IsRealOctets (first ∷ after.now) v.items)) }
{
    let Some(parts) = binary_parts(first, after) else {
        return Ok(None);
    };
    let (mantissa, zeros) = odd_part(alloc, parts.mantissa)?;
    let shift = zeros + u128::from(parts.factor);
    let exponent = scaled(alloc, parts.exponent, parts.power, shift)?;
    binary_contents(alloc, parts.is_negative, &mantissa, &exponent)
}

/// Returns the contents octets of a mantissa without its sign, of octets, times a power of 2, whose
/// exponent is in two's complement (X.690 11.3.1); `None` if the mantissa is 0, or the exponent of
/// its odd part needs more than 255 octets.
///
/// # Errors
/// If an allocation fails.
pub fn contents_of_binary(
    alloc: Global,
    is_negative: bool,
    mantissa: &[u8],
    exponent: &[u8],
) -> Result<Option<Vec<u8>>, AllocError>
    ensures { IfOk result (λ found. MatchOption found ((octets : _) → IsOfBinary is_negative (number_in 256 mantissa.now) (signed exponent.now) octets → ⊥) (λ v. IsOfBinary is_negative (number_in 256 mantissa.now) (signed exponent.now) v.items)) }
{
    if is_zero(mantissa) {
        return Ok(None);
    }
    let (odd, zeros) = odd_part(alloc, mantissa)?;
    let exponent = scaled(alloc, exponent, 1, zeros)?;
    binary_contents(alloc, is_negative, &odd, &exponent)
}

/// Returns a number in two's complement times a power, plus a number, in two's complement.
fn scaled(alloc: Global, exponent: &[u8], power: u8, shift: u128) -> Result<Vec<u8>, AllocError>
    requires base { IsPower power }
    requires short { shift ≤ 2 ^ 80 }
    ensures is { IfOk result (λ v. signed v.items ≡ signed exponent.now *ℤ pos power +ℤ pos shift) }
    ensures some { IfOk result (λ v. 0 < length v.items) }
{
    let mut last = Vec::from_slice(alloc, exponent)?;
    let carry = multiply_and_add(&mut last, 0, 256, u128::from(power), shift) as i128;
    let first = if is_below_zero(exponent) {
        carry - i128::from(power)
    } else {
        carry
    };
    let mut octets = Vec::from_slice(alloc, &first.to_be_bytes())?;
    octets.extend_from_slice(&last)?;
    Ok(octets)
}

/// Returns whether a number in two's complement is below 0.
fn is_below_zero(octets: &[u8]) -> bool
    ensures { IsWhether result (signed octets.now <ℤ pos 0) }
{
    match octets {
        [] => false,
        [first, ..] => *first >= 128,
    }
}

/// Returns the octets of a number without the bits 0 at its end, and how many these are.
fn odd_part(alloc: Global, octets: &[u8]) -> Result<(Vec<u8>, u128), AllocError>
    requires { number_in 256 octets.now ≢ 0 }
    ensures { IfOk result (λ r. (r.1 < 2 ^ 70) × IsOddPart (number_in 256 octets.now) (number_in 256 r.0.items) r.1) }
{
    let kept = without_zeros_after(octets);
    let zeros = zeros_at_end(kept);
    let odd = divided(alloc, kept, 1 << zeros)?;
    Ok((
        odd,
        8 * (octets.len() - kept.len()) as u128 + u128::from(zeros),
    ))
}

/// Returns octets without the octets 0 after the last that isn't 0.
#[tactic(auto, using(crate::proofs::RealNumbers::zero_after, crate::proofs::RealNumbers::ends_off))]
fn without_zeros_after(octets: &[u8]) -> &[u8]
    ensures shorter { length result.now ≤ length octets.now }
    ensures same { number_in 256 octets.now ≡ number_in 256 result.now * 256 ^ (length octets.now - length result.now) }
    ensures short { EndsOffZero result.now }
{
    let mut end = octets.len();
    while end > 0 && octets[end - 1] == 0 {
        end -= 1;
    }
    &octets[..end]
}

/// Returns how many of the last bits of octets are 0. The last octet, if there is one, isn't 0.
fn zeros_at_end(octets: &[u8]) -> u32
    requires { EndsOffZero octets.now }
    ensures { ZerosAtEnd octets.now result }
{
    match octets {
        [] => 0,
        [.., last] => low_zeros(*last),
    }
}

/// Returns how many of the last bits of an octet are 0.
#[tactic(auto, using(crate::proofs::RealNumbers::halved, crate::proofs::RealNumbers::few_halves))]
fn low_zeros(octet: u8) -> u32
    requires { octet ≢ 0 }
    ensures { LowZeros octet result }
{
    let mut rest = octet;
    let mut count = 0u32;
    while rest % 2 == 0 {
        rest /= 2;
        count += 1;
    }
    count
}

/// Returns a number divided by another one, which is at most 128.
#[tactic(auto, using(crate::proofs::RealNumbers::divide_more, crate::proofs::RealNumbers::divided_is))]
fn divided(alloc: Global, octets: &[u8], unit: u16) -> Result<Vec<u8>, AllocError>
    requires some { 0 < unit }
    requires few { unit ≤ 128 }
    ensures { IfOk result (λ v. number_in 256 v.items ≡ number_in 256 octets.now / unit) }
{
    let mut quotient = Vec::with_capacity(alloc, octets.len())?;
    let mut rest = 0u16;
    for octet in octets {
        let number = rest * 256 + u16::from(*octet);
        quotient.push((number / unit) as u8)?;
        rest = number % unit;
    }
    Ok(quotient)
}

/// Returns the contents octets of an odd mantissa times a power of 2, whose exponent is in two's
/// complement (X.690 11.3.1); `None` if the exponent needs more than 255 octets.
fn binary_contents(
    alloc: Global,
    is_negative: bool,
    mantissa: &[u8],
    exponent: &[u8],
) -> Result<Option<Vec<u8>>, AllocError>
    requires odd { number_in 256 mantissa.now % 2 ≡ 1 }
    requires some { 0 < length exponent.now }
    ensures { IfOk result (λ found. MatchOption found ((octets : _) → IsCanonicalBinary octets is_negative (number_in 256 mantissa.now) (signed exponent.now) → ⊥) (λ v. IsCanonicalBinary v.items is_negative (number_in 256 mantissa.now) (signed exponent.now))) }
{
    let exponent = shortest(exponent);
    if exponent.len() > 255 {
        return Ok(None);
    }
    Ok(Some(number_contents(alloc, is_negative, mantissa, exponent)?))
}

/// Returns the contents octets of an odd mantissa times a power of 2, whose exponent has at most 255
/// octets.
fn number_contents(
    alloc: Global,
    is_negative: bool,
    mantissa: &[u8],
    exponent: &[u8],
) -> Result<Vec<u8>, AllocError>
    requires odd { number_in 256 mantissa.now % 2 ≡ 1 }
    requires few { length exponent.now ≤ 255 }
    requires short { IsShortestInteger exponent.now }
    ensures { IfOk result (λ v. IsCanonicalBinary v.items is_negative (number_in 256 mantissa.now) (signed exponent.now)) }
{
    let mut contents = octets_before_mantissa(alloc, is_negative, exponent)?;
    contents.extend_from_slice(fewest_unsigned(mantissa))?;
    Ok(contents)
}

/// Returns the first octet of a number with base 2, and those of its exponent (X.690 8.5.7.4).
fn octets_before_mantissa(
    alloc: Global,
    is_negative: bool,
    exponent: &[u8],
) -> Result<Vec<u8>, AllocError>
    requires few { length exponent.now ≤ 255 }
    requires short { IsShortestInteger exponent.now }
    ensures { IfOk result (λ v. (form : ℕ) × (field : List ℕ) × HoldsExponent form field exponent.now × (form ≡ 3 → 3 < length exponent.now) × (v.items ≡ (128 + 64 * bit_of is_negative + form) ∷ field)) }
{
    let count = exponent.len() as u8;
    let mut octets = Vec::new(alloc);
    if count < 4 {
        octets.push(first_octet(is_negative, count - 1))?;
    } else {
        octets.extend_from_slice(&[first_octet(is_negative, 3), count])?;
    }
    octets.extend_from_slice(exponent)?;
    Ok(octets)
}

/// Returns the first octet of a number with base 2 and no scaling factor (X.690 8.5.7).
fn first_octet(is_negative: bool, form: u8) -> u8
    requires { form < 4 }
    ensures { result ≡ 128 + 64 * bit_of is_negative + form }
{
    if is_negative {
        0xC0 + form
    } else {
        0x80 + form
    }
}

/// Returns the contents octets of a mantissa, which isn't 0, times a power of 2.
pub(crate) fn contents_of_number(
    alloc: Global,
    is_negative: bool,
    mantissa: u64,
    exponent: i64,
) -> Result<Vec<u8>, AllocError>
    requires some { mantissa ≢ 0 }
    requires low { neg_ℤ (pos 2000) ≤ℤ exponent }
    requires high { exponent ≤ℤ pos 2000 }
    ensures { IfOk result (λ v. (m : ℕ) × (shift : ℕ) × IsOddPart mantissa m shift × IsCanonicalBinary v.items is_negative m (exponent +ℤ pos shift)) }
{
    let (odd, zeros) = odd_part(alloc, &mantissa.to_be_bytes())?;
    let mut room = [0; LONGEST_NUMBER];
    let exponent = i64_octets(exponent + zeros as i64, &mut room);
    number_contents(alloc, is_negative, &odd, exponent)
}
