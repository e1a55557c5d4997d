//! ENUMERATED with an extension marker (X.680 20.1).
ghost use Rattle.std.specs.Prelude.{◌≡◌, Contains, MatchOption};

use crate::types::{AsnType, Constraints, Enumerated, Tag};
use std::marker::{Model, PhantomData};

/// A number of an ENUMERATED with an extension marker: one that `E` names, or another one, from a
/// newer version of its type (X.680 20.1). It is read from and written as an INTEGER of 64 bits
/// with the tag of ENUMERATED (X.690 8.4).
///
/// Contracts see it as the number.
#[derive(Debug, Drop)]
pub struct Extensible<E: Enumerated> {
    number: isize,
    names: PhantomData<E>,
}

impl<E: Enumerated> Model for Extensible<E> {
    ghost use Rattle.std.specs.Prelude.{ℤ};

    ghost Value = { ℤ };

    ghost view = { λ s. s.number };
}

impl<E: Enumerated> Extensible<E> {
    /// Returns the value with this number, which may have no name.
    pub fn from_number(number: isize) -> Extensible<E>
        ensures { result ≡ number }
    {
        Extensible {
            number,
            names: PhantomData,
        }
    }

    /// Returns the value with the number of a named one.
    pub fn from_named(value: &E) -> Extensible<E>
        ensures { result ≡ E.number value.now }
    {
        Extensible::from_number(value.discriminant())
    }

    /// Returns the number.
    pub fn number(&self) -> isize
        ensures { result ≡ self.now }
    {
        self.number
    }

    /// Returns the named value with the number, or `None` if the type doesn't name it.
    pub fn named(&self) -> Option<E>
        ensures { MatchOption result (Contains E.known self.now → ⊥) (λ v. E.number v ≡ self.now) }
    {
        E::from_discriminant(self.number)
    }
}

impl<E: Enumerated> PartialEq for Extensible<E> {
    ghost use Rattle.std.specs.Ordering.{int_eq};
    ghost use Rattle.std.specs.Cmp.{partial_equiv_from_equiv, int_eq_equiv};

    ghost eq = { int_eq };

    ghost laws = { partial_equiv_from_equiv int_eq_equiv };

    fn eq(&self, other: &Extensible<E>) -> bool {
        self.number == other.number
    }
}

impl<E: Enumerated> Eq for Extensible<E> {
    ghost use Rattle.std.specs.Cmp.{int_eq_equiv};

    ghost laws = { int_eq_equiv };
}

impl<E: Enumerated> AsnType for Extensible<E> {
    ghost use Rattle.std.specs.Prelude.{refl};
    ghost use Rattle.rasn_types.specs.Shapes.{leaf, integer, number};
    ghost use Rattle.rasn_types.specs.Tags.{in_universal};
    ghost use Rattle.rasn_types.specs.Trees.{signed_range, unconstrained};

    ghost TAG = { in_universal 10 };

    const TAG: Tag = Tag::ENUMERATED;

    ghost CONSTRAINTS = { unconstrained };

    const CONSTRAINTS: Constraints = Constraints::NONE;

    ghost shape = { leaf (integer (signed_range 64)) (in_universal 10) unconstrained };

    ghost tree = { λ s. number s };

    ghost own = { refl };
}
