//! BMPString.
ghost use Rattle.std.specs.Prelude.{◌≡◌, nat_eq, IfOk};
ghost use Rattle.std.specs.Cmp.Lexicographic.{pointwise, slice_cmp};
ghost use Rattle.rasn_types.specs.CharacterString.{ArePaired, units_of};
ghost use Rattle.std.specs.Ordering.{nat_cmp};
ghost use Rattle.rasn_types.specs.Framing.{AreOctets};
ghost use Rattle.rasn_types.specs.Options.{IsSomeExactlyIf};

use crate::types::{AsnType, Constraints, Tag, TryClone};
use std::alloc::{AllocError, Global};
use std::cmp::Ordering;
use std::marker::Model;

/// A BMPString: 16-bit units, the high octet first (X.690 8.23.8). Its size is the number of units.
///
/// Values are ordered lexicographically by their units.
///
/// Contracts see it as the list of its octets.
#[derive(Debug, Drop)]
pub struct BmpString {
    octets: Vec<u8>,
}

impl Model for BmpString {
    ghost use Rattle.std.specs.Prelude.{List, ℕ};
    ghost use Rattle.rasn_types.specs.CharacterString.{ArePaired};

    ghost Value = { List ℕ };

    ghost view = { λ a. a.octets.items };

    ghost invariant = { λ a. ArePaired a.octets.items };
}

impl BmpString {
    /// Returns a string with a copy of these octets, or `None` if their number is odd.
    ///
    /// # Errors
    /// If an allocation fails.
    pub fn from_octets(alloc: Global, octets: &[u8]) -> Result<Option<BmpString>, AllocError>
        ensures { IfOk result (λ v. IsSomeExactlyIf v (ArePaired octets.now) octets.now) }
    {
        if octets.len() % 2 != 0 {
            return Ok(None);
        }
        let mut kept = Vec::new(alloc);
        kept.extend_from_slice(octets)?;
        Ok(Some(BmpString::from_paired(kept)))
    }

    /// Returns the string of these octets, whose number is even.
    pub fn from_paired(octets: Vec<u8>) -> BmpString
        requires { ArePaired octets.items }
        ensures { result ≡ octets.items }
    {
        BmpString { octets }
    }

    /// Returns the octets.
    pub fn as_octets(&self) -> &[u8]
        ensures octets { result.now ≡ self.now }
        ensures paired { ArePaired self.now }
    {
        self.octets.as_slice()
    }

    /// Returns the octets without a copy.
    pub fn into_vec(self) -> Vec<u8>
        ensures octets { result.items ≡ self }
        ensures paired { ArePaired self }
    {
        let BmpString { octets } = self;
        octets
    }
}

impl BmpString {
    /// Returns an iterator over the 16-bit units.
    pub fn units(&self) -> Units<'_>
        ensures { result ≡ units_of self.now }
    {
        Units {
            octets: self.octets.as_slice(),
        }
    }
}

/// An iterator over the 16-bit units of a BMPString. Contracts see it as the list of the remaining
/// units, as numbers.
#[derive(Debug, Drop)]
pub struct Units<'a> {
    octets: &'a [u8],
}

impl<'a> Model for Units<'a> {
    ghost use Rattle.std.specs.Prelude.{List, ℕ};
    ghost use Rattle.rasn_types.specs.CharacterString.{units_of};

    ghost Value = { List ℕ };

    ghost view = { λ u. units_of u.octets.now };
}

impl Iterator for Units<'_> {
    ghost use Rattle.std.specs.Iterator.{YieldsFirst, item_count};

    type Item = u16;

    ghost next_gives = { YieldsFirst (λ units. units) };

    ghost remaining = { item_count (λ units. units) };

    fn next(&mut self) -> Option<u16> {
        let [high, low, rest @ ..] = self.octets else {
            return None;
        };
        self.octets = rest;
        Some(u16::from(*high) * 256 + u16::from(*low))
    }

    fn size_hint(&self) -> (usize, Option<usize>) {
        let left = self.octets.len() / 2;
        (left, Some(left))
    }
}

// Returns whether octets that are whole units are equal, which they are exactly if their units are.
fn are_equal(octets: &[u8], others: &[u8]) -> bool
    requires paired { ArePaired octets.now × ArePaired others.now }
    requires octets { AreOctets octets.now × AreOctets others.now }
    ensures { result ≡ pointwise nat_eq (units_of octets.now) (units_of others.now) }
{
    octets == others
}

impl PartialEq for BmpString {
    ghost use Rattle.std.specs.Prelude.{nat_eq};
    ghost use Rattle.std.specs.Cmp.{on_per, partial_equiv_from_equiv};
    ghost use Rattle.std.specs.Cmp.Lexicographic.{pointwise, nat_list_eq_equiv};
    ghost use Rattle.std.specs.Ordering.{on};
    ghost use Rattle.rasn_types.specs.CharacterString.{units_of};

    ghost eq = { on units_of (pointwise nat_eq) };

    ghost laws = { on_per units_of (partial_equiv_from_equiv nat_list_eq_equiv) };

    fn eq(&self, other: &BmpString) -> bool {
        let octets = self.as_octets();
        let others = other.as_octets();
        are_equal(octets, others)
    }
}

impl Eq for BmpString {
    ghost use Rattle.std.specs.Cmp.{on_equiv};
    ghost use Rattle.std.specs.Cmp.Lexicographic.{nat_list_eq_equiv};
    ghost use Rattle.rasn_types.specs.CharacterString.{units_of};

    ghost laws = { on_equiv units_of nat_list_eq_equiv };
}

impl PartialOrd for BmpString {
    ghost use Rattle.std.specs.Prelude.{Some};
    ghost use Rattle.std.specs.Cmp.{on_po};
    ghost use Rattle.std.specs.Cmp.Lexicographic.{slice_cmp, texts_po};
    ghost use Rattle.std.specs.Ordering.{nat_cmp};
    ghost use Rattle.rasn_types.specs.CharacterString.{units_of};

    ghost partial_cmp = { λ s t. Some (slice_cmp nat_cmp (units_of s) (units_of t)) };

    ghost laws = { on_po units_of texts_po };

    fn partial_cmp(&self, other: &BmpString) -> Option<Ordering> {
        Some(self.cmp(other))
    }
}

impl Ord for BmpString {
    ghost use Rattle.std.specs.Cmp.{on_total};
    ghost use Rattle.std.specs.Cmp.Lexicographic.{slice_cmp, nat_list_cmp_total, texts_ties};
    ghost use Rattle.std.specs.Ordering.{nat_cmp, on};
    ghost use Rattle.std.proofs.Common.{rules};
    ghost use Rattle.rasn_types.specs.CharacterString.{units_of};

    ghost cmp = { on units_of (slice_cmp nat_cmp) };

    ghost total = { on_total units_of nat_list_cmp_total };

    ghost matches_partial_cmp = { Prim.search rules };

    ghost matches_eq = { λ s t. texts_ties (units_of s) (units_of t) };

    fn cmp(&self, other: &BmpString) -> Ordering {
        let octets = self.as_octets();
        let others = other.as_octets();
        order(octets, others)
    }
}

// Compares octets that are whole units, which have the order of their units.
fn order(octets: &[u8], others: &[u8]) -> Ordering
    requires whole { ArePaired octets.now × ArePaired others.now }
    requires octets { AreOctets octets.now × AreOctets others.now }
    ensures { result ≡ slice_cmp nat_cmp (units_of octets.now) (units_of others.now) }
{
    octets.cmp(&others)
}

impl AsnType for BmpString {
    ghost use Rattle.std.specs.Prelude.{refl};
    ghost use Rattle.rasn_types.specs.CharacterString.{units_of};
    ghost use Rattle.rasn_types.specs.Shapes.{leaf, bmp, numbers};
    ghost use Rattle.rasn_types.specs.Tags.{in_universal};
    ghost use Rattle.rasn_types.specs.Trees.{unconstrained};

    ghost TAG = { in_universal 30 };

    const TAG: Tag = Tag::BMP_STRING;

    ghost CONSTRAINTS = { unconstrained };

    const CONSTRAINTS: Constraints = Constraints::NONE;

    ghost shape = { leaf bmp (in_universal 30) unconstrained };

    ghost tree = { λ s. numbers (units_of s) };

    ghost own = { refl };
}

impl TryClone for BmpString {
    fn try_clone(&self, alloc: Global) -> Result<BmpString, AllocError>
        ensures { IfOk result (λ v. v ≡ self.now) }
    {
        let octets = Vec::from_slice(alloc, &self.octets)?;
        Ok(BmpString { octets })
    }
}
