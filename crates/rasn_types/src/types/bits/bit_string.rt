//! A list of bits.
ghost use Rattle.std.specs.Prelude.{◌≡◌, ◌*◌, ◌≤◌, ◌<◌, length, get_or, nat_eq, MatchOption, IfOk};
ghost use Rattle.rasn_types.specs.Options.{IsSomeExactlyIf};
ghost use Rattle.rasn_types.specs.BitString.{bits_from, Packs};

use crate::types::bits::packing::{clear_last, octets_for, unused_by};
use crate::types::bits::{BitIter, BitStr};
use crate::types::{AsnType, Constraints, Tag, TryClone};
use std::alloc::{AllocError, Global};
use std::fmt;
use std::marker::Model;

/// A list of bits (X.680 22), kept in as few octets as possible. Contracts see it as this list.
#[derive(Debug, Drop)]
pub struct BitString {
    octets: Vec<u8>,
    len: usize,
}

impl Model for BitString {
    ghost use Rattle.std.specs.Prelude.{List, Bool};
    ghost use Rattle.rasn_types.specs.BitString.{bits_from, HoldsBits};

    ghost Value = { List Bool };

    ghost view = { λ s. bits_from 0 s.len s.octets.items };

    ghost invariant = { λ s. HoldsBits s.len s.octets.items };
}

impl BitString {
    /// Returns the first `len` bits of the octets; the first bit of an octet is its highest.
    /// Returns `None` if the octets have fewer bits.
    pub fn new(octets: Vec<u8>, len: usize) -> Option<BitString>
        ensures { IsSomeExactlyIf result (len ≤ 8 * length octets.items) (bits_from 0 len octets.items) }
    {
        let mut octets = octets;
        let kept = octets_for(len);
        if kept > octets.len() {
            return None;
        }
        octets.truncate(kept);
        clear_last(&mut octets, unused_by(len));
        Some(BitString { octets, len })
    }

    /// Returns a copy of the bits of a view.
    ///
    /// # Errors
    /// If an allocation fails.
    pub fn from_bitstr(alloc: Global, bits: &BitStr<'_>) -> Result<BitString, AllocError>
        ensures { IfOk result (λ s. s ≡ bits.now) }
    {
        let mut octets = Vec::new(alloc);
        bits.append_to(&mut octets)?;
        Ok(BitString {
            octets,
            len: bits.len(),
        })
    }

    /// Returns the number of bits.
    pub fn len(&self) -> usize
        ensures { result ≡ length self.now }
    {
        self.len
    }

    /// Returns whether there are no bits.
    pub fn is_empty(&self) -> bool
        ensures { result ≡ nat_eq (length self.now) 0 }
    {
        self.len() == 0
    }

    /// Returns the bit at `place`, counted from 0, or `None` if there are no more than `place`
    /// bits.
    pub fn get(&self, place: usize) -> Option<bool>
        ensures { MatchOption result (length self.now ≤ place) (λ b. (place < length self.now) × (b ≡ get_or self.now place b)) }
    {
        self.as_bitstr().get(place)
    }

    /// Returns a view of all bits.
    pub fn as_bitstr(&self) -> BitStr<'_>
        ensures { result ≡ self.now }
    {
        BitStr::at_front(&self.octets, self.len)
    }

    /// Returns an iterator over the bits.
    pub fn iter(&self) -> BitIter<'_>
        ensures { result ≡ self.now }
    {
        self.as_bitstr().iter()
    }

    /// Returns the bits in as few octets as possible; the first bit of an octet is its highest, and
    /// the unused bits of the last octet are 0.
    pub fn as_octets(&self) -> &[u8]
        ensures { Packs self.now result.now }
    {
        self.octets.as_slice()
    }

    /// Returns the octets of `as_octets` without a copy.
    pub fn into_vec(self) -> Vec<u8>
        ensures { Packs self result.items }
    {
        let BitString { octets, len: _ } = self;
        octets
    }
}

/// Writes the bits in ASN.1 notation (X.680 12.10): `'10110'B`. `Hexadecimal` shows octets.
impl fmt::Display for BitString {
    ghost use Rattle.std.specs.Prelude.{Some};
    ghost use Rattle.rasn_types.specs.Text.{shown_bits};

    ghost output = { λ s. Some (shown_bits s) };

    fn fmt<W: fmt::Write>(&self, f: &mut fmt::Formatter<W>) -> fmt::Result {
        write!(f, "{}", self.as_bitstr())
    }
}

impl PartialEq for BitString {
    ghost use Rattle.std.specs.Bool.{beq};
    ghost use Rattle.std.specs.Cmp.Lexicographic.{pointwise};
    ghost use Rattle.std.proofs.Common.{rules};
    ghost use Rattle.std.specs.Cmp.Rules.{comparing};

    ghost eq = { pointwise beq };

    ghost laws = { Prim.search (comparing, rules) };

    fn eq(&self, other: &BitString) -> bool {
        self.len == other.len && self.octets == other.octets
    }
}

impl Eq for BitString {
    ghost use Rattle.std.proofs.Common.{rules};
    ghost use Rattle.std.specs.Cmp.Rules.{comparing};

    ghost laws = { Prim.search (comparing, rules) };
}

impl AsnType for BitString {
    ghost use Rattle.std.specs.Prelude.{refl};
    ghost use Rattle.rasn_types.specs.Shapes.{leaf, bit_string, bits};
    ghost use Rattle.rasn_types.specs.Tags.{in_universal};
    ghost use Rattle.rasn_types.specs.Trees.{unconstrained};

    ghost TAG = { in_universal 3 };

    const TAG: Tag = Tag::BIT_STRING;

    ghost CONSTRAINTS = { unconstrained };

    const CONSTRAINTS: Constraints = Constraints::NONE;

    ghost shape = { leaf bit_string (in_universal 3) unconstrained };

    ghost tree = { λ s. bits s };

    ghost own = { refl };
}

impl TryClone for BitString {
    fn try_clone(&self, alloc: Global) -> Result<BitString, AllocError>
        ensures { IfOk result (λ v. v ≡ self.now) }
    {
        let octets = Vec::from_slice(alloc, &self.octets)?;
        Ok(BitString {
            octets,
            len: self.len,
        })
    }
}
