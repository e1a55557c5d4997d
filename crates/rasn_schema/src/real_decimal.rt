//! REAL with base 10: numerals of ISO 6093 (X.690 8.5.8, 11.3.2).
ghost use Rattle.std.specs.Prelude.{◌≡◌, ◌≢◌, ◌<◌, ◌≤◌, ◌⊎◌, ◌^◌, ◌%◌, ◌++◌, ◌-◌, ◌*◌, List, ℕ, ℤ, pos, neg_ℤ, ◌+ℤ◌, ◌≤ℤ◌, ◌∷◌, [], length, All, IfOk, MatchOption};
ghost use Rattle.rasn_types.specs.Truth.{IsWhether};
ghost use Rattle.rasn_types.specs.Contents.{IsDigit, number_of_digits, with_sign, sign_text, SpellsDigits, IsShortestExponent};
ghost use Rattle.rasn_schema.specs.Reals.{IsRealOctets, IsCanonicalReal, IsShownAs, IsOfNumeral, IsWholeText};
ghost use Rattle.rasn_schema.specs.RealParts.{AreLeadingDigits, IsAfterMinus, IsAfterSign, StartsOffZeroDigit, EndsOffZeroDigit};
ghost use Rattle.rasn_schema.specs.Numerals.{IsAfterSpaces, IsFractionCut, IsExponentPart, IsNoExponentPart, HasDigits, exponent_or_zero, IsNumeral, IsNoNumeral, HasForm, IsContentsOf, HasNoContents};

use crate::octets::{multiply_and_add, subtract};
use crate::real::Real;
use std::alloc::{AllocError, Global};

/// A numeral: its sign, its digits before and after the mark, and its exponent.
#[derive(Clone, Copy)]
struct Numeral<'text> {
    is_negative: bool,
    whole: &'text [u8],
    /// The digits after the mark.
    after: &'text [u8],
    /// Says whether a decimal mark is there.
    has_mark: bool,
    exponent: Option<Exponent<'text>>,
}

/// An exponent: its sign and its digits.
#[derive(Clone, Copy)]
struct Exponent<'text> {
    is_negative: bool,
    digits: &'text [u8],
}

/// Returns the digits that a text begins with, and what is after them.
#[tactic(auto, using(crate::proofs::RealTexts::digits_more))]
fn leading_digits(text: &[u8]) -> (&[u8], &[u8])
    ensures is { AreLeadingDigits text.now result.0.now result.1.now }
    ensures short { length result.0.now < 2 ^ 64 }
{
    let mut count = 0usize;
    while count < text.len() && text[count].is_ascii_digit() {
        count += 1;
    }
    text.split_at(count)
}

/// Returns whether a minus sign is before the text, and what is after it.
fn after_minus(text: &[u8]) -> (bool, &[u8])
    ensures { IsAfterMinus text.now result.0 result.1.now }
{
    match text {
        [b'-', rest @ ..] => (true, rest),
        _ => (false, text),
    }
}

/// Returns a number with base 10 whose text is that of canonical rules (X.690 11.3.2).
pub(crate) fn decimal_view(text: &[u8]) -> Option<Real<'_>>
    ensures { MatchOption result (IsCanonicalReal (3 ∷ text.now) → ⊥) (IsShownAs (3 ∷ text.now)) }
{
    let (is_negative, unsigned) = after_minus(text);
    let (mantissa, rest) = leading_digits(unsigned);
    let Some(exponent) = after_mark(rest) else {
        return None;
    };
    if !begins_off_zero(mantissa) {
        return None;
    }
    if !ends_off_zero(mantissa) {
        return None;
    }
    let Some(exponent) = whole_text(exponent) else {
        return None;
    };
    Some(Real::Decimal {
        is_negative,
        mantissa,
        exponent,
    })
}

/// Returns what is after `.E`, if a text begins with that.
fn after_mark(text: &[u8]) -> Option<&[u8]>
    ensures { MatchOption result ((rest : List ℕ) → text.now ≡ 46 ∷ (69 ∷ rest) → ⊥) (λ rest. text.now ≡ 46 ∷ (69 ∷ rest.now)) }
{
    match text {
        [b'.', b'E', rest @ ..] => Some(rest),
        _ => None,
    }
}

/// Returns whether there is a first digit, and it isn't 0.
fn begins_off_zero(digits: &[u8]) -> bool
    requires { All IsDigit digits.now }
    ensures { IsWhether result (SpellsDigits digits.now (number_of_digits digits.now)) }
{
    match digits {
        [] => false,
        [first, ..] => *first != b'0',
    }
}

/// Returns whether there is a last digit, and it isn't 0.
fn ends_off_zero(digits: &[u8]) -> bool
    requires { All IsDigit digits.now }
    ensures { IsWhether result (number_of_digits digits.now % 10 ≢ 0) }
{
    match digits {
        [] => false,
        [.., last] => *last != b'0',
    }
}

/// Returns the text that canonical rules have for an exponent, `+0` without its sign; `None` if the
/// text is none of them.
fn whole_text(text: &[u8]) -> Option<&[u8]>
    ensures { MatchOption result ((e : ℤ) → IsShortestExponent text.now e → ⊥) (λ whole. (e : ℤ) × IsShortestExponent text.now e × IsWholeText whole.now e) }
{
    match text {
        [b'+', b'0'] => Some(&text[1..]),
        _ => shortest_text(text),
    }
}

/// Returns a text that is digits after a minus sign or none, of which the first isn't 0.
fn shortest_text(text: &[u8]) -> Option<&[u8]>
    requires { text.now ≢ 43 ∷ (48 ∷ []) }
    ensures { MatchOption result ((e : ℤ) → IsShortestExponent text.now e → ⊥) (λ whole. (e : ℤ) × IsShortestExponent text.now e × IsWholeText whole.now e) }
{
    let (_, digits) = after_minus(text);
    let (front, rest) = leading_digits(digits);
    if !rest.is_empty() {
        return None;
    }
    if begins_off_zero(front) {
        Some(text)
    } else {
        None
    }
}

/// Returns the number of digits after a sign, or `None` if it isn't below 10^30.
#[tactic(auto, using(crate::proofs::RealTexts::many_digits))]
fn small(is_negative: bool, digits: &[u8]) -> Option<i128>
    requires { All IsDigit digits.now }
    ensures { MatchOption result (10 ^ 30 ≤ number_of_digits digits.now) (λ e. (number_of_digits digits.now < 10 ^ 30) × (e ≡ with_sign is_negative (number_of_digits digits.now))) }
{
    let digits = without_zeros(digits);
    if digits.len() > 30 {
        return None;
    }
    let number = folded(digits) as i128;
    Some(if is_negative { -number } else { number })
}

/// Returns the number of at most 30 digits.
#[tactic(auto, using(crate::proofs::RealTexts::few_digits))]
fn folded(digits: &[u8]) -> u128
    requires all { All IsDigit digits.now }
    requires few { length digits.now ≤ 30 }
    ensures is { result ≡ number_of_digits digits.now }
    ensures below { result < 10 ^ 30 }
{
    let mut number = 0u128;
    for digit in digits {
        number = number * 10 + u128::from(*digit - b'0');
    }
    number
}

/// Returns digits without the zeros before them.
fn without_zeros(digits: &[u8]) -> &[u8]
    requires { All IsDigit digits.now }
    ensures all { All IsDigit result.now }
    ensures same { number_of_digits result.now ≡ number_of_digits digits.now }
    ensures short { StartsOffZeroDigit result.now }
{
    let mut start = 0usize;
    while start < digits.len() && digits[start] == b'0' {
        start += 1;
    }
    &digits[start..]
}

/// Returns whether a minus sign is before the text, and what is after a sign.
fn after_sign(text: &[u8]) -> (bool, &[u8])
    ensures { IsAfterSign text.now result.0 result.1.now }
{
    match text {
        [b'-', rest @ ..] => (true, rest),
        [b'+', rest @ ..] => (false, rest),
        _ => (false, text),
    }
}

/// Returns what is after the spaces that a text begins with.
fn after_spaces(text: &[u8]) -> &[u8]
    ensures { IsAfterSpaces text.now result.now }
{
    let mut start = 0usize;
    while start < text.len() && text[start] == b' ' {
        start += 1;
    }
    &text[start..]
}

/// Returns the exponent that is all of a text, or none if the text is empty.
fn exponent_in(text: &[u8]) -> Option<Option<Exponent<'_>>>
    ensures { MatchOption result (IsNoExponentPart text.now) (IsExponentPart text.now) }
{
    let [mark, rest @ ..] = text else {
        return Some(None);
    };
    if *mark != b'E' && *mark != b'e' {
        return None;
    }
    let (is_negative, rest) = after_sign(rest);
    let (digits, rest) = leading_digits(rest);
    if digits.is_empty() {
        return None;
    }
    if !rest.is_empty() {
        return None;
    }
    Some(Some(Exponent {
        is_negative,
        digits,
    }))
}

/// Returns whether a text begins with a mark, the digits after that, and what is after them.
fn fraction_of(text: &[u8]) -> (bool, &[u8], &[u8])
    ensures is { IsFractionCut text.now result.0 result.1.now result.2.now }
    ensures short { length result.1.now < 2 ^ 64 }
{
    let [mark, more @ ..] = text else {
        return (false, text, text);
    };
    if *mark != b'.' && *mark != b',' {
        return (false, &text[..0], text);
    }
    let (digits, rest) = leading_digits(more);
    (true, digits, rest)
}

/// Returns the numeral that is all of a text (ISO 6093).
fn numeral_in(text: &[u8]) -> Option<Numeral<'_>>
    ensures { MatchOption result (IsNoNumeral text.now) (IsNumeral text.now) }
{
    let (is_negative, rest) = after_sign(after_spaces(text));
    let (whole, rest) = leading_digits(rest);
    let (has_mark, after, rest) = fraction_of(rest);
    if whole.is_empty() && after.is_empty() {
        return None;
    }
    let Some(exponent) = exponent_in(rest) else {
        return None;
    };
    Some(Numeral {
        is_negative,
        whole,
        after,
        has_mark,
        exponent,
    })
}

/// Returns whether a numeral is of the form NR1, NR2 or NR3 with this number (X.690 8.5.8).
fn has_form(form: u8, numeral: &Numeral<'_>) -> bool
    ensures { IsWhether result (HasForm form numeral.now) }
{
    match form {
        1 => !numeral.has_mark && numeral.exponent.is_none(),
        2 => numeral.has_mark && numeral.exponent.is_none(),
        3 => numeral.exponent.is_some(),
        _ => false,
    }
}

/// Returns the contents octets that canonical rules have for a numeral of this form, or `None` if
/// the text is none, or is 0.
#[tactic(auto, using(crate::proofs::RealNumerals::no_numeral))]
pub(crate) fn canonical_decimal(
    alloc: Global,
    form: u8,
    text: &[u8],
) -> Result<Option<Vec<u8>>, AllocError>
    requires { form < 64 }
    ensures { IfOk result (λ found. MatchOption found ((octets : _) → IsRealOctets (form ∷ text.now) octets → ⊥) (λ v. IsRealOctets (form ∷ text.now) v.items)) }
{
    let Some(numeral) = numeral_in(text) else {
        return Ok(None);
    };
    if !has_form(form, &numeral) {
        return Ok(None);
    }
    contents_of(alloc, &numeral)
}

/// Returns the contents octets that canonical rules have for a number in decimal, such as `-1.5`
/// or `2E+10`, with base 10; `None` if the text is none, or is 0 (X.690 11.3.2).
///
/// # Errors
/// If an allocation fails.
pub fn contents_of_decimal(alloc: Global, text: &str) -> Result<Option<Vec<u8>>, AllocError>
    ensures { IfOk result (λ found. MatchOption found ((octets : _) → IsOfNumeral text.now octets → ⊥) (λ v. IsOfNumeral text.now v.items)) }
{
    match numeral_in(text.as_bytes()) {
        Some(numeral) => contents_of(alloc, &numeral),
        None => Ok(None),
    }
}

/// Returns the contents octets of a numeral: the digits without zeros at their ends, a point, and
/// the exponent (X.690 11.3.2).
fn contents_of(alloc: Global, numeral: &Numeral<'_>) -> Result<Option<Vec<u8>>, AllocError>
    requires whole { All IsDigit numeral.now.whole.now }
    requires after { All IsDigit numeral.now.after.now }
    requires exponent { HasDigits numeral.now.exponent }
    ensures { IfOk result (λ found. MatchOption found (HasNoContents numeral.now) (λ v. IsContentsOf numeral.now v.items)) }
{
    let mut digits = Vec::from_slice(alloc, numeral.whole)?;
    digits.extend_from_slice(numeral.after)?;
    let kept = without_zeros_after(&digits);
    let shown = without_zeros(kept);
    if shown.is_empty() {
        return Ok(None);
    }
    let moved = (digits.len() - kept.len()) as i128 - numeral.after.len() as i128;
    let exponent = exponent_text(alloc, numeral.exponent, moved)?;
    let contents = decimal_contents(alloc, numeral.is_negative, shown, &exponent)?;
    Ok(Some(contents))
}

/// Returns digits without the zeros after the last that isn't 0.
#[tactic(auto, using(crate::proofs::RealDecimals::digit_zero_after, crate::proofs::RealDecimals::ends_off_zero))]
fn without_zeros_after(digits: &[u8]) -> &[u8]
    requires { All IsDigit digits.now }
    ensures all { All IsDigit result.now }
    ensures shorter { length result.now ≤ length digits.now }
    ensures same { number_of_digits digits.now ≡ number_of_digits result.now * 10 ^ (length digits.now - length result.now) }
    ensures short { EndsOffZeroDigit result.now }
{
    let mut end = digits.len();
    while end > 0 && digits[end - 1] == b'0' {
        end -= 1;
    }
    &digits[..end]
}

/// Returns the contents octets of digits without a zero at their ends, and of the text of an exponent
/// (X.690 11.3.2).
fn decimal_contents(
    alloc: Global,
    is_negative: bool,
    digits: &[u8],
    exponent: &[u8],
) -> Result<Vec<u8>, AllocError>
    ensures { IfOk result (λ v. v.items ≡ 3 ∷ (sign_text is_negative ++ (digits.now ++ 46 ∷ 69 ∷ exponent.now))) }
{
    let mut contents = Vec::from_slice(alloc, &[3])?;
    if is_negative {
        contents.push(b'-')?;
    }
    contents.extend_from_slice(digits)?;
    contents.extend_from_slice(b".E")?;
    contents.extend_from_slice(exponent)?;
    Ok(contents)
}

/// Returns the text that canonical rules have for an exponent plus a number (X.690 11.3.2.6).
fn exponent_text(
    alloc: Global,
    exponent: Option<Exponent<'_>>,
    moved: i128,
) -> Result<Vec<u8>, AllocError>
    requires digits { HasDigits exponent }
    requires low { neg_ℤ (pos (2 ^ 65)) ≤ℤ moved }
    requires high { moved ≤ℤ pos (2 ^ 65) }
    ensures { IfOk result (λ v. IsShortestExponent v.items (exponent_or_zero exponent.entry +ℤ moved)) }
{
    let Some(exponent) = exponent else {
        return small_text(alloc, moved);
    };
    match small(exponent.is_negative, exponent.digits) {
        Some(number) => small_text(alloc, number + moved),
        None => long_text(alloc, exponent.is_negative, exponent.digits, moved),
    }
}

/// Returns the text that canonical rules have for an exponent.
fn small_text(alloc: Global, exponent: i128) -> Result<Vec<u8>, AllocError>
    requires low { neg_ℤ (pos (10 ^ 31)) ≤ℤ exponent }
    requires high { exponent ≤ℤ pos (10 ^ 31) }
    ensures { IfOk result (λ v. IsShortestExponent v.items exponent) }
{
    if exponent == 0 {
        return Vec::from_slice(alloc, b"+0");
    }
    Ok(format!(in alloc; "{exponent}")?.into_bytes())
}

/// Returns the text that canonical rules have for an exponent of 10^30 or more without its sign, plus
/// a number, which can't change the sign.
fn long_text(
    alloc: Global,
    is_negative: bool,
    digits: &[u8],
    moved: i128,
) -> Result<Vec<u8>, AllocError>
    requires digits { All IsDigit digits.now }
    requires long { 10 ^ 30 ≤ number_of_digits digits.now }
    requires low { neg_ℤ (pos (2 ^ 65)) ≤ℤ moved }
    requires high { moved ≤ℤ pos (2 ^ 65) }
    ensures { IfOk result (λ v. IsShortestExponent v.items (with_sign is_negative (number_of_digits digits.now) +ℤ moved)) }
{
    let away = if is_negative { -moved } else { moved };
    let sum = digits_of_sum(alloc, digits, away)?;
    let mut text = Vec::new(alloc);
    if is_negative {
        text.push(b'-')?;
    }
    text.extend_from_slice(without_zeros(&sum))?;
    Ok(text)
}

/// Returns the digits of a number of 10^30 or more plus another number, after a 0 or more.
fn digits_of_sum(alloc: Global, digits: &[u8], away: i128) -> Result<Vec<u8>, AllocError>
    requires digits { All IsDigit digits.now }
    requires long { 10 ^ 30 ≤ number_of_digits digits.now }
    requires low { neg_ℤ (pos (2 ^ 65)) ≤ℤ away }
    requires high { away ≤ℤ pos (2 ^ 65) }
    ensures digits { IfOk result (λ v. All IsDigit v.items) }
    ensures sum { IfOk result (λ v. pos (number_of_digits v.items) ≡ pos (number_of_digits digits.now) +ℤ away) }
{
    let mut sum = Vec::from_slice(alloc, b"0")?;
    sum.extend_from_slice(digits)?;
    if away < 0 {
        subtract(&mut sum, away.unsigned_abs());
    } else {
        multiply_and_add(&mut sum, b'0', 10, 1, away as u128);
    }
    Ok(sum)
}
