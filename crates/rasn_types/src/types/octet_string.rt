//! OCTET STRING.
ghost use Rattle.std.specs.Prelude.{◌≡◌, IfOk};

use crate::hexadecimal::Hexadecimal;
use crate::types::{AsnType, Constraints, Tag, TryClone};
use std::alloc::{AllocError, Global};
use std::cmp::Ordering;
use std::fmt;
use std::marker::Model;

/// A list of octets (X.680 23). Contracts see it as this list.
///
/// Values are ordered lexicographically by their octets.
#[derive(Debug, Drop)]
pub struct OctetString {
    octets: Vec<u8>,
}

impl Model for OctetString {
    ghost use Rattle.std.specs.Prelude.{List, ℕ};

    ghost Value = { List ℕ };

    ghost view = { λ s. s.octets.items };
}

impl OctetString {
    /// Returns the string of these octets.
    pub fn from_vec(octets: Vec<u8>) -> OctetString
        ensures { result ≡ octets.items }
    {
        OctetString { octets }
    }

    /// Returns the octets.
    pub fn as_octets(&self) -> &[u8]
        ensures { result.now ≡ self.now }
    {
        &self.octets
    }

    /// Returns the octets without a copy.
    pub fn into_vec(self) -> Vec<u8>
        ensures { result.items ≡ self }
    {
        let OctetString { octets } = self;
        octets
    }
}

/// Writes the octets in hexadecimal, two digits each.
impl fmt::Display for OctetString {
    ghost use Rattle.std.specs.Prelude.{Some};
    ghost use Rattle.rasn_types.specs.Text.{hexadecimal};

    ghost output = { λ s. Some (hexadecimal s) };

    fn fmt<W: fmt::Write>(&self, f: &mut fmt::Formatter<W>) -> fmt::Result {
        Hexadecimal(&self.octets).fmt(f)
    }
}

impl PartialEq for OctetString {
    ghost use Rattle.std.specs.Prelude.{nat_eq};
    ghost use Rattle.std.specs.Cmp.{partial_equiv_from_equiv};
    ghost use Rattle.std.specs.Cmp.Lexicographic.{pointwise, nat_list_eq_equiv};

    ghost eq = { pointwise nat_eq };

    ghost laws = { partial_equiv_from_equiv nat_list_eq_equiv };

    fn eq(&self, other: &OctetString) -> bool {
        self.octets == other.octets
    }
}

impl Eq for OctetString {
    ghost use Rattle.std.specs.Cmp.Lexicographic.{nat_list_eq_equiv};

    ghost laws = { nat_list_eq_equiv };
}

impl PartialOrd for OctetString {
    ghost use Rattle.std.specs.Prelude.{Some};
    ghost use Rattle.std.specs.Cmp.Lexicographic.{slice_cmp, texts_po};
    ghost use Rattle.std.specs.Ordering.{nat_cmp};

    ghost partial_cmp = { λ s t. Some (slice_cmp nat_cmp s t) };

    ghost laws = { texts_po };

    fn partial_cmp(&self, other: &OctetString) -> Option<Ordering> {
        Some(self.cmp(other))
    }
}

impl Ord for OctetString {
    ghost use Rattle.std.specs.Cmp.Lexicographic.{slice_cmp, nat_list_cmp_total, texts_ties};
    ghost use Rattle.std.specs.Ordering.{nat_cmp};
    ghost use Rattle.std.proofs.Common.{rules};

    ghost cmp = { slice_cmp nat_cmp };

    ghost total = { nat_list_cmp_total };

    ghost matches_partial_cmp = { Prim.search rules };

    ghost matches_eq = { texts_ties };

    fn cmp(&self, other: &OctetString) -> Ordering {
        self.octets.cmp(&other.octets)
    }
}

impl AsnType for OctetString {
    ghost use Rattle.std.specs.Prelude.{refl};
    ghost use Rattle.rasn_types.specs.Shapes.{leaf, octet_string, numbers};
    ghost use Rattle.rasn_types.specs.Tags.{in_universal};
    ghost use Rattle.rasn_types.specs.Trees.{unconstrained};

    ghost TAG = { in_universal 4 };

    const TAG: Tag = Tag::OCTET_STRING;

    ghost CONSTRAINTS = { unconstrained };

    const CONSTRAINTS: Constraints = Constraints {
        value: None,
        size: None,
    };

    ghost shape = { leaf octet_string (in_universal 4) unconstrained };

    ghost tree = { numbers };

    ghost own = { refl };
}

impl TryClone for OctetString {
    fn try_clone(&self, alloc: Global) -> Result<OctetString, AllocError>
        ensures { IfOk result (λ v. v ≡ self.now) }
    {
        let octets = Vec::from_slice(alloc, &self.octets)?;
        Ok(OctetString { octets })
    }
}
