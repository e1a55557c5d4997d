//! Whole numbers of any length.
ghost use Rattle.std.specs.Prelude.{◌≡◌, ◌≢◌, ◌<◌, [], length, IfOk, IfErr, MatchOption, pos, ◌<ℤ◌, ◌↔◌, IsTrue};
ghost use Rattle.rasn_types.specs.Framing.{AreOctets};
ghost use Rattle.rasn_types.specs.Contents.{signed, IsShortestInteger};
ghost use Rattle.rasn_types.specs.Shapes.{IsIn};
ghost use Rattle.rasn_types.specs.Inline.{IsLong};
ghost use Rattle.std.specs.Ordering.{int_cmp};
ghost use Rattle.rasn_types.specs.Trees.{IsShortestOf, signed_range, unsigned_range};

use crate::hexadecimal::Hexadecimal;
use crate::types::integer::small_octets::SmallOctets;
use crate::types::twos_complement::{
    i128_octets, shortest, signed_i128, u128_octets, unsigned_u128,
};
use crate::types::{AsnType, Constraints, IntegerType, LONGEST_NUMBER, Tag, TryClone};
use std::alloc::{AllocError, Global};
use std::cmp::Ordering;
use std::fmt;
use std::marker::Model;

/// A whole number of any length, kept as octets in two's complement, most significant first
/// (X.690 8.3). Values are ordered as numbers.
#[derive(Debug, Drop)]
pub struct Integer {
    octets: SmallOctets,
}

impl Model for Integer {
    ghost use Rattle.std.specs.Prelude.{ℤ};
    ghost use Rattle.rasn_types.specs.Framing.{AreOctets};
    ghost use Rattle.rasn_types.specs.Contents.{signed, IsShortestInteger};

    ghost Value = { ℤ };

    ghost view = { λ a. signed a.octets };

    ghost invariant = { λ a. IsShortestInteger a.octets × AreOctets a.octets };
}

impl Integer {
    /// Returns the number that octets represent in two's complement, or `None` if there are no
    /// octets.
    ///
    /// # Errors
    /// If an allocation fails, for a number that takes more than 23 octets.
    pub fn from_octets(alloc: Global, octets: &[u8]) -> Result<Option<Integer>, AllocError>
        ensures ok { IfOk result (λ v. MatchOption v (octets.now ≡ []) (λ n. (octets.now ≢ []) × (n ≡ signed octets.now))) }
        ensures memory { IfErr result (λ _. IsLong (signed octets.now)) }
    {
        if octets.is_empty() {
            return Ok(None);
        }
        let octets = SmallOctets::from_slice(alloc, shortest(octets))?;
        Ok(Some(Integer { octets }))
    }

    /// Returns this number.
    ///
    /// # Errors
    /// If an allocation fails.
    pub fn from_i128(alloc: Global, number: i128) -> Result<Integer, AllocError>
        ensures { IfOk result (λ n. n ≡ number) }
    {
        let mut room = [0; LONGEST_NUMBER];
        let octets = SmallOctets::from_slice(alloc, i128_octets(number, &mut room))?;
        Ok(Integer { octets })
    }

    /// Returns this number.
    ///
    /// # Errors
    /// If an allocation fails.
    pub fn from_u128(alloc: Global, number: u128) -> Result<Integer, AllocError>
        ensures { IfOk result (λ n. n ≡ pos number) }
    {
        let mut room = [0; LONGEST_NUMBER];
        let octets = SmallOctets::from_slice(alloc, u128_octets(number, &mut room))?;
        Ok(Integer { octets })
    }

    /// Returns the number, or `None` if it doesn't fit in an `i128`.
    pub fn to_i128(&self) -> Option<i128>
        ensures { MatchOption result (IsIn (signed_range 128) self.now → ⊥) (λ n. n ≡ self.now) }
    {
        signed_i128(self.octets.as_slice())
    }

    /// Returns the number, or `None` if it doesn't fit in a `u128`.
    pub fn to_u128(&self) -> Option<u128>
        ensures { MatchOption result (IsIn (unsigned_range 128) self.now → ⊥) (λ n. pos n ≡ self.now) }
    {
        unsigned_u128(self.octets.as_slice())
    }

    /// Returns whether the number is below 0.
    pub fn is_negative(&self) -> bool
        ensures { IsTrue result ↔ (self.now <ℤ pos 0) }
    {
        is_below_zero(self.octets.as_slice())
    }

    /// Returns the fewest octets of the number in two's complement (X.690 8.3.2).
    pub fn as_octets(&self) -> &[u8]
        ensures { IsShortestOf self.now result.now }
    {
        self.octets.as_slice()
    }
}

/// Writes the number in decimal if it fits in an `i128` or a `u128`, and otherwise its octets in
/// two's complement, in hexadecimal after `0x`.
impl fmt::Display for Integer {
    ghost use Rattle.std.specs.Prelude.{Some};
    ghost use Rattle.rasn_types.specs.Text.{shown_number};

    ghost output = { λ n. Some (shown_number n) };

    fn fmt<W: fmt::Write>(&self, f: &mut fmt::Formatter<W>) -> fmt::Result {
        let octets = self.octets.as_slice();
        if let Some(number) = signed_i128(octets) {
            return write!(f, "{number}");
        }
        match unsigned_u128(octets) {
            Some(number) => write!(f, "{number}"),
            None => write!(f, "0x{}", Hexadecimal(octets)),
        }
    }
}

impl PartialEq for Integer {
    ghost use Rattle.std.specs.Ordering.{int_eq};
    ghost use Rattle.std.proofs.Common.{rules};
    ghost use Rattle.std.specs.Cmp.Rules.{comparing};

    ghost eq = { int_eq };

    ghost laws = { Prim.search (comparing, rules) };

    fn eq(&self, other: &Integer) -> bool {
        let (octets, others) = (self.octets.as_slice(), other.octets.as_slice());
        octets == others
    }
}

impl Eq for Integer {
    ghost use Rattle.std.proofs.Common.{rules};
    ghost use Rattle.std.specs.Cmp.Rules.{comparing};

    ghost laws = { Prim.search (comparing, rules) };
}

impl PartialOrd for Integer {
    ghost use Rattle.std.specs.Prelude.{Some};
    ghost use Rattle.std.specs.Cmp.{signed_po};
    ghost use Rattle.std.specs.Ordering.{int_cmp};

    ghost partial_cmp = { λ a b. Some (int_cmp a b) };

    ghost laws = { signed_po };

    fn partial_cmp(&self, other: &Integer) -> Option<Ordering> {
        Some(self.cmp(other))
    }
}

impl Ord for Integer {
    ghost use Rattle.std.proofs.Common.{rules};
    ghost use Rattle.std.specs.Cmp.Rules.{comparing};
    ghost use Rattle.std.specs.Ordering.{int_cmp};

    ghost cmp = { int_cmp };

    ghost total = { Prim.search (comparing, rules) };

    ghost matches_partial_cmp = { Prim.search (comparing, rules) };

    ghost matches_eq = { Prim.search (comparing, rules) };

    fn cmp(&self, other: &Integer) -> Ordering {
        order(self.octets.as_slice(), other.octets.as_slice())
    }
}

// Returns whether octets represent a number below 0 in two's complement.
fn is_below_zero(octets: &[u8]) -> bool
    requires some { 0 < length octets.now }
    requires octets { AreOctets octets.now }
    ensures { IsTrue result ↔ (signed octets.now <ℤ pos 0) }
{
    octets[0] >= 128
}

// Compares two numbers by their fewest octets: by sign, then by the number of octets, then by the
// octets.
fn order(octets: &[u8], others: &[u8]) -> Ordering
    requires short { IsShortestInteger octets.now × IsShortestInteger others.now }
    requires octets { AreOctets octets.now × AreOctets others.now }
    ensures { result ≡ int_cmp (signed octets.now) (signed others.now) }
{
    match (octets[0] < 128, others[0] < 128) {
        (true, false) => Ordering::Greater,
        (false, true) => Ordering::Less,
        (true, true) => octets.len().cmp(&others.len()).then(octets.cmp(&others)),
        (false, false) => others.len().cmp(&octets.len()).then(octets.cmp(&others)),
    }
}

impl AsnType for Integer {
    ghost use Rattle.std.specs.Prelude.{refl};
    ghost use Rattle.rasn_types.specs.Shapes.{leaf, integer, every, number as number_tree};
    ghost use Rattle.rasn_types.specs.Tags.{in_universal};
    ghost use Rattle.rasn_types.specs.Trees.{unconstrained};

    ghost TAG = { in_universal 2 };

    const TAG: Tag = Tag::INTEGER;

    ghost CONSTRAINTS = { unconstrained };

    const CONSTRAINTS: Constraints = Constraints::NONE;

    ghost shape = { leaf (integer every) (in_universal 2) unconstrained };

    ghost tree = { λ v. number_tree v };

    ghost own = { refl };
}

impl IntegerType for Integer {
    ghost use Rattle.rasn_types.specs.Shapes.{every};

    ghost WIDTH = { 0 };

    const WIDTH: u32 = 0;

    ghost range = { every };

    ghost number = { λ v. v };

    ghost takes_memory = { IsLong };

    fn from_octets(alloc: Global, octets: &[u8]) -> Result<Option<Integer>, AllocError> {
        Integer::from_octets(alloc, octets)
    }

    #[inline(always)]
    fn octets<'a>(&'a self, _room: &'a mut [u8; LONGEST_NUMBER]) -> &'a [u8] {
        self.as_octets()
    }
}

impl TryClone for Integer {
    fn try_clone(&self, alloc: Global) -> Result<Integer, AllocError>
        ensures ok { IfOk result (λ v. v ≡ self.now) }
        ensures memory { IfErr result (λ _. IsLong self.now) }
    {
        let octets = self.octets.try_clone(alloc)?;
        Ok(Integer { octets })
    }
}
