//! A view of bits.
ghost use Rattle.std.specs.Prelude.{◌≡◌, ◌+◌, ◌*◌, ◌/◌, ◌%◌, ◌≤◌, ◌<◌, length, take, drop, OnOk, OnErr, MatchOption, get_or, nat_eq, Bool};
ghost use Rattle.std.specs.Bool.{beq};
ghost use Rattle.std.specs.Cmp.Lexicographic.{pointwise};
ghost use Rattle.rasn_types.specs.Framing.{AreOctets};
ghost use Rattle.rasn_types.specs.Options.{IsSomeExactlyIf};
ghost use Rattle.rasn_types.specs.BitString.{bits_from, significant, Pushes};

use crate::types::bits::BitIter;
use crate::types::bits::packing::{clear_last, octets_for, push_cleared, push_shifted, unused_by};
use std::alloc::AllocError;
use std::fmt;
use std::marker::Model;

/// Bits borrowed from octets, which may begin and end inside an octet. Contracts see them as a list
/// of bits.
#[derive(Debug, Drop)]
pub struct BitStr<'a> {
    octets: &'a [u8],
    shift: usize,
    len: usize,
}

impl<'a> Model for BitStr<'a> {
    ghost use Rattle.std.specs.Prelude.{List, Bool, ◌+◌, ◌*◌, ◌<◌, ◌≤◌, length};
    ghost use Rattle.rasn_types.specs.BitString.{bits_from};

    ghost Value = { List Bool };

    ghost view = { λ b. bits_from b.shift b.len b.octets.now };

    ghost invariant = { λ b. (b.shift < 8) × (b.shift + b.len ≤ 8 * length b.octets.now) };
}

impl<'a> BitStr<'a> {
    /// Returns `len` bits of the octets from the bit `start` on, counted from 0; the first bit of
    /// an octet is its highest. Returns `None` if the octets have fewer bits.
    pub fn new(octets: &'a [u8], start: usize, len: usize) -> Option<BitStr<'a>>
        ensures { IsSomeExactlyIf result (start + len ≤ 8 * length octets.now) (bits_from start len octets.now) }
    {
        if start / 8 > octets.len() {
            return None;
        }
        let octets = &octets[start / 8..];
        let shift = start % 8;
        if octets_across(shift, len) > octets.len() {
            return None;
        }
        Some(BitStr { octets, shift, len })
    }

    // Returns the first `len` bits of the octets.
    pub(crate) fn at_front(octets: &'a [u8], len: usize) -> BitStr<'a>
        requires { len ≤ 8 * length octets.now }
        ensures { result ≡ bits_from 0 len octets.now }
    {
        BitStr {
            octets,
            shift: 0,
            len,
        }
    }

    /// Returns the number of bits.
    pub fn len(&self) -> usize
        ensures { result ≡ length self.now }
    {
        self.len
    }

    /// Returns whether there are no bits.
    pub fn is_empty(&self) -> bool
        ensures { result ≡ nat_eq (length self.now) 0 }
    {
        self.len() == 0
    }

    /// Returns the bit at `place`, counted from 0, or `None` if there are no more than `place`
    /// bits.
    pub fn get(&self, place: usize) -> Option<bool>
        ensures { MatchOption result (length self.now ≤ place) (λ b. (place < length self.now) × (b ≡ get_or self.now place b)) }
    {
        if place < self.len() {
            Some(self.bit(place))
        } else {
            None
        }
    }

    // Returns the bit at `place`.
    fn bit(&self, place: usize) -> bool
        requires { place < length self.now }
        ensures { (b : Bool) → result ≡ get_or self.now place b }
    {
        let behind = self.shift + place % 8;
        let octet = self.octets[place / 8 + behind / 8];
        (octet >> (7 - behind % 8)) % 2 == 1
    }

    // Returns whether two views of the same length have the same bits.
    fn agrees(&self, other: &BitStr<'_>) -> bool
        requires { length self.now ≡ length other.now }
        ensures { result ≡ pointwise beq self.now other.now }
    {
        for place in 0..self.len() {
            if self.bit(place) != other.bit(place) {
                return false;
            }
        }
        true
    }

    // Returns all the bits.
    pub(crate) fn all(&self) -> BitStr<'a>
        ensures { result ≡ self.now }
    {
        BitStr {
            octets: self.octets,
            shift: self.shift,
            len: self.len,
        }
    }

    /// Returns an iterator over the bits.
    pub fn iter(&self) -> BitIter<'a>
        ensures { result ≡ self.now }
    {
        BitIter::over(self.all())
    }

    /// Returns the bits before `place`, and those from `place` on.
    pub fn split_at(&self, place: usize) -> (BitStr<'a>, BitStr<'a>)
        requires { place ≤ length self.now }
        ensures front { result.0 ≡ take place self.now }
        ensures back { result.1 ≡ drop place self.now }
    {
        let behind = self.shift + place % 8;
        let front = BitStr {
            octets: self.octets,
            shift: self.shift,
            len: place,
        };
        let back = BitStr {
            octets: &self.octets[place / 8 + behind / 8..],
            shift: behind % 8,
            len: self.len - place,
        };
        (front, back)
    }

    /// Returns the number of bits up to the last that is 1.
    pub fn significant_len(&self) -> usize
        ensures { result ≡ length (significant self.now) }
    {
        let mut len = self.len();
        while len > 0 {
            if self.bit(len - 1) {
                return len;
            }
            len -= 1;
        }
        len
    }

    /// Returns the number of bits of the last octet that are unused if the bits are packed from the
    /// first bit of an octet on (X.690 8.6.2.2).
    pub fn unused(&self) -> u8
        ensures few { result < 8 }
        ensures whole { (length self.now + result) % 8 ≡ 0 }
    {
        unused_by(self.len) as u8
    }

    /// Appends the bits to octets, packed from the first bit of an octet on. The unused bits of the
    /// last octet are 0.
    ///
    /// # Errors
    /// `AllocError` if an allocation fails. Nothing is appended then.
    pub fn append_to(&self, out: &mut Vec<u8>) -> Result<(), AllocError>
        ensures ok { OnOk result (Pushes self.now out.old.items out.new.items) }
        ensures err { OnErr result (out.new.items ≡ out.old.items) }
        ensures octets { OnOk result (AreOctets out.new.items) }
    {
        if self.len == 0 {
            return Ok(());
        }
        if self.shift == 0 {
            let octets = &self.octets[..octets_for(self.len)];
            return push_cleared(out, octets, unused_by(self.len));
        }
        let held = octets_across(self.shift, self.len);
        out.reserve(held)?;
        if let [first, more @ ..] = &self.octets[..held] {
            let kept = out.len() + octets_for(self.len);
            push_shifted(out, *first, more, self.shift);
            out.truncate(kept);
            clear_last(out, unused_by(self.len));
        }
        Ok(())
    }
}

/// Its bits as a value is written in ASN.1 (X.680 12.10): `'10110'B`.
impl fmt::Display for BitStr<'_> {
    ghost use Rattle.std.specs.Prelude.{Some};
    ghost use Rattle.rasn_types.specs.Text.{shown_bits};

    ghost output = { λ s. Some (shown_bits s) };

    fn fmt<W: fmt::Write>(&self, f: &mut fmt::Formatter<W>) -> fmt::Result {
        f.write_str("'")?;
        for bit in self.iter() {
            f.write_char(if bit { '1' } else { '0' })?;
        }
        f.write_str("'B")
    }
}

impl PartialEq for BitStr<'_> {
    ghost use Rattle.std.specs.Bool.{beq};
    ghost use Rattle.std.specs.Cmp.Lexicographic.{pointwise};
    ghost use Rattle.std.proofs.Common.{rules};
    ghost use Rattle.std.specs.Cmp.Rules.{comparing};

    ghost eq = { pointwise beq };

    ghost laws = { Prim.search (comparing, rules) };

    fn eq(&self, other: &Self) -> bool {
        other.len() == self.len() && self.agrees(other)
    }
}

impl Eq for BitStr<'_> {
    ghost use Rattle.std.proofs.Common.{rules};
    ghost use Rattle.std.specs.Cmp.Rules.{comparing};

    ghost laws = { Prim.search (comparing, rules) };
}

// Returns the number of octets that `len` bits span if they begin after the first `shift` bits of
// an octet.
fn octets_across(shift: usize, len: usize) -> usize
    requires { shift < 8 }
    ensures { result ≡ (shift + len + 7) / 8 }
{
    len / 8 + octets_for(shift + len % 8)
}
