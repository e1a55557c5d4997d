//! OCTET STRING of a fixed size.
ghost use Rattle.std.specs.Prelude.{◌≡◌, length};

use crate::types::{AsnType, Constraints, Tag, TryClone};
use std::alloc::{AllocError, Global};
use std::marker::Model;

/// An OCTET STRING of `N` octets (X.680 23).
///
/// Contracts see it as the list of its octets.
#[derive(Clone, Copy, Debug, PartialEq, Eq, PartialOrd, Ord, Drop)]
pub struct FixedOctetString<const N: usize> {
    octets: [u8; N],
}

impl<const N: usize> Model for FixedOctetString<N> {
    ghost use Rattle.std.specs.Prelude.{List, ℕ};

    ghost Value = { List ℕ };

    ghost view = { λ a. a.octets };

    ghost inverse = { λ l. record { octets = l } };
}

impl<const N: usize> FixedOctetString<N> {
    /// Returns the string of these octets.
    pub fn new(octets: [u8; N]) -> FixedOctetString<N>
        ensures { result ≡ octets.entry }
    {
        FixedOctetString { octets }
    }

    /// Returns the octets.
    pub fn as_octets(&self) -> &[u8]
        ensures octets { result.now ≡ self.now }
        ensures size { length result.now ≡ N }
    {
        &self.octets
    }
}

impl<const N: usize> AsnType for FixedOctetString<N> {
    ghost use Rattle.std.specs.Prelude.{refl};
    ghost use Rattle.rasn_types.specs.Shapes.{leaf, fixed, numbers};
    ghost use Rattle.rasn_types.specs.Tags.{in_universal};
    ghost use Rattle.rasn_types.specs.Trees.{unconstrained};

    ghost TAG = { in_universal 4 };

    const TAG: Tag = Tag::OCTET_STRING;

    ghost CONSTRAINTS = { unconstrained };

    const CONSTRAINTS: Constraints = Constraints::NONE;

    ghost shape = { leaf (fixed N) (in_universal 4) unconstrained };

    ghost tree = { λ s. numbers s };

    ghost own = { refl };
}

impl<const N: usize> TryClone for FixedOctetString<N> {
    fn try_clone(&self, _alloc: Global) -> Result<FixedOctetString<N>, AllocError> {
        Ok(*self)
    }
}
