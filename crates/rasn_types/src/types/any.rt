//! Open types.
ghost use Rattle.std.specs.Prelude.{◌≡◌, IfOk};

use crate::hexadecimal::Hexadecimal;
use crate::types::{AsnType, Constraints, LawfulEq, Present, Tag, TryClone};
use std::alloc::{AllocError, Global};
use std::cmp::Ordering;
use std::fmt;
use std::marker::Model;

/// A value of an open type, kept as its octets (X.681 14): one complete encoding or, under a tag of
/// its own, the contents octets of the value with this tag. Contracts see it as the list of its
/// octets.
///
/// Values are ordered lexicographically by their octets. For complete encodings, this is the order
/// of the elements of a SET OF (X.690 11.6).
#[derive(Debug, Drop)]
pub struct Any {
    octets: Vec<u8>,
}

impl Model for Any {
    ghost use Rattle.std.specs.Prelude.{List, ℕ};

    ghost Value = { List ℕ };

    ghost view = { λ a. a.octets.items };
}

impl Any {
    /// Returns the value with these octets.
    pub fn new(octets: Vec<u8>) -> Any
        ensures { result ≡ octets.items }
    {
        Any { octets }
    }

    /// Returns the octets.
    pub fn as_bytes(&self) -> &[u8]
        ensures { result.now ≡ self.now }
    {
        &self.octets
    }

    /// Returns the octets without a copy.
    pub fn into_vec(self) -> Vec<u8>
        ensures { result.items ≡ self }
    {
        let Any { octets } = self;
        octets
    }
}

/// Writes the octets in hexadecimal, two digits each.
impl fmt::Display for Any {
    ghost use Rattle.std.specs.Prelude.{Some};
    ghost use Rattle.rasn_types.specs.Text.{hexadecimal};

    ghost output = { λ s. Some (hexadecimal s) };

    fn fmt<W: fmt::Write>(&self, f: &mut fmt::Formatter<W>) -> fmt::Result {
        Hexadecimal(&self.octets).fmt(f)
    }
}

impl PartialEq for Any {
    ghost use Rattle.std.specs.Prelude.{nat_eq};
    ghost use Rattle.std.specs.Cmp.{partial_equiv_from_equiv};
    ghost use Rattle.std.specs.Cmp.Lexicographic.{pointwise, nat_list_eq_equiv};

    ghost eq = { pointwise nat_eq };

    ghost laws = { partial_equiv_from_equiv nat_list_eq_equiv };

    fn eq(&self, other: &Any) -> bool {
        self.octets == other.octets
    }
}

impl Eq for Any {
    ghost use Rattle.std.specs.Cmp.Lexicographic.{nat_list_eq_equiv};

    ghost laws = { nat_list_eq_equiv };
}

impl PartialOrd for Any {
    ghost use Rattle.std.specs.Prelude.{Some};
    ghost use Rattle.std.specs.Cmp.Lexicographic.{slice_cmp, texts_po};
    ghost use Rattle.std.specs.Ordering.{nat_cmp};

    ghost partial_cmp = { λ s t. Some (slice_cmp nat_cmp s t) };

    ghost laws = { texts_po };

    fn partial_cmp(&self, other: &Any) -> Option<Ordering> {
        Some(self.cmp(other))
    }
}

impl Ord for Any {
    ghost use Rattle.std.specs.Cmp.Lexicographic.{slice_cmp, nat_list_cmp_total, texts_ties};
    ghost use Rattle.std.specs.Ordering.{nat_cmp};
    ghost use Rattle.std.proofs.Common.{rules};

    ghost cmp = { slice_cmp nat_cmp };

    ghost total = { nat_list_cmp_total };

    ghost matches_partial_cmp = { Prim.search rules };

    ghost matches_eq = { texts_ties };

    fn cmp(&self, other: &Any) -> Ordering {
        self.octets.cmp(&other.octets)
    }
}

impl AsnType for Any {
    ghost use Rattle.std.specs.Prelude.{refl, None};
    ghost use Rattle.rasn_types.specs.Shapes.{any, numbers};
    ghost use Rattle.rasn_types.specs.Tags.{eoc};
    ghost use Rattle.rasn_types.specs.Trees.{unconstrained};

    ghost TAG = { eoc };

    const TAG: Tag = Tag::EOC;

    ghost CONSTRAINTS = { unconstrained };

    const CONSTRAINTS: Constraints = Constraints::NONE;

    ghost shape = { any None };

    ghost tree = { numbers };

    ghost own = { refl };
}

impl LawfulEq for Any {
    ghost use Rattle.rasn_types.specs.Equality.{octets_decided};

    ghost decides = { octets_decided };
}

impl Present for Any {
    ghost use Rattle.rasn_types.specs.Equality.{numbers_not_absent};

    ghost present = { numbers_not_absent };
}

impl TryClone for Any {
    fn try_clone(&self, alloc: Global) -> Result<Any, AllocError>
        ensures { IfOk result (λ v. v ≡ self.now) }
    {
        let octets = Vec::from_slice(alloc, &self.octets)?;
        Ok(Any { octets })
    }
}
