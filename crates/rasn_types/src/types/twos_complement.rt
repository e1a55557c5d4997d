//! Whole numbers as octets in two's complement, most significant first (X.690 8.3).
ghost use Rattle.std.specs.Prelude.{◌≡◌, ◌<◌, ◌≤◌, length, MatchOption, pos, ℤ};
ghost use Rattle.rasn_types.specs.Truth.{IsWhether};
ghost use Rattle.rasn_types.specs.Framing.{number_in, AreOctets};
ghost use Rattle.rasn_types.specs.Contents.{signed, IsShortestInteger, RepeatsSign};
ghost use Rattle.rasn_types.specs.Shapes.{IsIn};
ghost use Rattle.rasn_types.specs.Trees.{signed_range, unsigned_range, IsShortestOf};

use crate::types::LONGEST_NUMBER;

/// Returns the octets without the leading ones that only repeat the sign (X.690 8.3.2).
#[inline(always)]
pub fn shortest(octets: &[u8]) -> &[u8]
    requires { 0 < length octets.now }
    ensures same { signed result.now ≡ signed octets.now }
    ensures short { IsShortestInteger result.now }
    ensures octets { AreOctets result.now }
{
    let mut start = 0;
    while start + 1 < octets.len() && repeats_sign(octets[start], octets[start + 1]) {
        start += 1;
    }
    &octets[start..]
}

/// Returns whether an octet only repeats the sign of the octet after it (X.690 8.3.2).
#[inline(always)]
pub fn repeats_sign(octet: u8, next: u8) -> bool
    ensures { IsWhether result (RepeatsSign octet next) }
{
    if next < 128 { octet == 0 } else { octet == 255 }
}

/// Returns the number that octets represent, or `None` if it doesn't fit in an `i128`.
pub fn signed_i128(octets: &[u8]) -> Option<i128>
    requires { 0 < length octets.now }
    ensures { MatchOption result (IsIn (signed_range 128) (signed octets.now) → ⊥) (λ n. n ≡ signed octets.now) }
{
    let octets = shortest(octets);
    if octets.len() <= 16 {
        Some(fold_i128(octets))
    } else {
        None
    }
}

fn fold_i128(octets: &[u8]) -> i128
    requires some { 0 < length octets.now }
    requires few { length octets.now ≤ 16 }
    ensures { result ≡ signed octets.now }
{
    let mut number: i128 = if octets[0] < 128 { 0 } else { -1 };
    for octet in octets {
        number = number * 256 + i128::from(*octet);
    }
    number
}

/// Returns the number that octets represent, or `None` if it doesn't fit in a `u128`.
pub fn unsigned_u128(octets: &[u8]) -> Option<u128>
    requires { 0 < length octets.now }
    ensures { MatchOption result (IsIn (unsigned_range 128) (signed octets.now) → ⊥) (λ n. pos n ≡ signed octets.now) }
{
    let octets = shortest(octets);
    if octets[0] >= 128 {
        None
    } else if octets.len() <= 16 {
        Some(fold_u128(octets))
    } else if octets.len() == 17 && octets[0] == 0 {
        Some(fold_u128(&octets[1..]))
    } else {
        None
    }
}

fn fold_u128(digits: &[u8]) -> u128
    requires { length digits.now ≤ 16 }
    ensures { result ≡ number_in 256 digits.now }
{
    let mut number: u128 = 0;
    for digit in digits {
        number = number * 256 + u128::from(*digit);
    }
    number
}

/// Writes a number to `room` in two's complement, and returns its fewest octets.
#[inline(always)]
pub fn i64_octets(number: i64, room: &mut [u8; LONGEST_NUMBER]) -> &[u8]
    ensures { IsShortestOf number result.now }
{
    let octets = &mut room[..8];
    octets.copy_from_slice(&number.to_be_bytes());
    shortest(octets)
}

/// Writes a number to `room` in two's complement, and returns its fewest octets.
#[inline(always)]
pub fn i128_octets(number: i128, room: &mut [u8; LONGEST_NUMBER]) -> &[u8]
    ensures { IsShortestOf number result.now }
{
    let octets = &mut room[..16];
    octets.copy_from_slice(&number.to_be_bytes());
    shortest(octets)
}

/// Writes a number to `room` in two's complement, and returns its fewest octets.
#[inline(always)]
pub fn u128_octets(number: u128, room: &mut [u8; LONGEST_NUMBER]) -> &[u8]
    ensures { IsShortestOf (pos number) result.now }
{
    let mut octets = [0; LONGEST_NUMBER];
    octets[1..].copy_from_slice(&number.to_be_bytes());
    *room = octets;
    shortest(room)
}
