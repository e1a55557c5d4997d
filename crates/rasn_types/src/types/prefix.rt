//! Values under a tag that a type parameter names (X.680 31).
ghost use Rattle.std.specs.Prelude.{◌≡◌};

use crate::types::{AsnType, Constraints, Tag, TryClone};
use std::alloc::{AllocError, Global};
use std::marker::{Model, PhantomData};
use std::ops::Deref;

/// A value whose outermost tag is replaced by the tag of `G` (X.680 31.2.7). A CHOICE has no tag to
/// replace.
///
/// Contracts see it as the value.
#[derive(Debug, Drop)]
pub struct Implicit<G: AsnType, T> {
    value: T,
    tag: PhantomData<G>,
}

impl<G: AsnType, T> Model for Implicit<G, T> {
    ghost Value = { T };

    ghost view = { λ a. a.value };
}

impl<G: AsnType, T> Implicit<G, T> {
    /// Returns the value under the tag.
    pub fn new(value: T) -> Implicit<G, T>
        ensures { result ≡ value }
    {
        Implicit {
            value,
            tag: PhantomData,
        }
    }

    /// Returns the value without the tag.
    pub fn into_inner(self) -> T
        ensures { result ≡ self }
    {
        let Implicit { value, tag: _ } = self;
        value
    }
}

impl<G: AsnType, T> From<T> for Implicit<G, T> {
    ghost use Rattle.std.specs.Prelude.{◌≡◌};

    ghost from_gives = { λ x y. y ≡ x };

    fn from(value: T) -> Implicit<G, T> {
        Implicit::new(value)
    }
}

impl<G: AsnType, T> Deref for Implicit<G, T> {
    ghost use Rattle.std.specs.Prelude.{◌≡◌};

    type Target = T;

    ghost deref_gives = { λ x y. y ≡ x };

    fn deref(&self) -> &T
        ensures { result.now ≡ self.now }
    {
        &self.value
    }
}

impl<G: AsnType, T: PartialEq> PartialEq for Implicit<G, T> {
    ghost eq = { T.eq };

    ghost laws = { T.laws };

    fn eq(&self, other: &Implicit<G, T>) -> bool {
        self.value == other.value
    }
}

impl<G: AsnType, T: Eq> Eq for Implicit<G, T> {
    ghost laws = { T.Eq.laws };
}

impl<G: AsnType, T: AsnType> AsnType for Implicit<G, T> {
    ghost use Rattle.rasn_types.specs.Shapes.{tagged_as};
    ghost use Rattle.rasn_types.specs.Tagging.{tagged_again};

    ghost TAG = { G.TAG };

    const TAG: Tag = G::TAG;

    ghost CONSTRAINTS = { T.CONSTRAINTS };

    const CONSTRAINTS: Constraints = T::CONSTRAINTS;

    ghost shape = { tagged_as G.TAG T.CONSTRAINTS T.shape };

    ghost tree = { T.tree };

    ghost own = { tagged_again G.TAG T.CONSTRAINTS G.TAG T.CONSTRAINTS T.shape };
}

/// A value under the explicit tag of `G`, before its own tag (X.680 31.2.7).
///
/// Contracts see it as the value.
#[derive(Debug, Drop)]
pub struct Explicit<G: AsnType, T> {
    value: T,
    tag: PhantomData<G>,
}

impl<G: AsnType, T> Model for Explicit<G, T> {
    ghost Value = { T };

    ghost view = { λ a. a.value };
}

impl<G: AsnType, T> Explicit<G, T> {
    /// Returns the value under the explicit tag.
    pub fn new(value: T) -> Explicit<G, T>
        ensures { result ≡ value }
    {
        Explicit {
            value,
            tag: PhantomData,
        }
    }

    /// Returns the value without the explicit tag.
    pub fn into_inner(self) -> T
        ensures { result ≡ self }
    {
        let Explicit { value, tag: _ } = self;
        value
    }
}

impl<G: AsnType, T> From<T> for Explicit<G, T> {
    ghost use Rattle.std.specs.Prelude.{◌≡◌};

    ghost from_gives = { λ x y. y ≡ x };

    fn from(value: T) -> Explicit<G, T> {
        Explicit::new(value)
    }
}

impl<G: AsnType, T> Deref for Explicit<G, T> {
    ghost use Rattle.std.specs.Prelude.{◌≡◌};

    type Target = T;

    ghost deref_gives = { λ x y. y ≡ x };

    fn deref(&self) -> &T
        ensures { result.now ≡ self.now }
    {
        &self.value
    }
}

impl<G: AsnType, T: PartialEq> PartialEq for Explicit<G, T> {
    ghost eq = { T.eq };

    ghost laws = { T.laws };

    fn eq(&self, other: &Explicit<G, T>) -> bool {
        self.value == other.value
    }
}

impl<G: AsnType, T: Eq> Eq for Explicit<G, T> {
    ghost laws = { T.Eq.laws };
}

impl<G: AsnType, T: AsnType> AsnType for Explicit<G, T> {
    ghost use Rattle.std.specs.Prelude.{refl};
    ghost use Rattle.rasn_types.specs.Shapes.{prefix};
    ghost use Rattle.rasn_types.specs.Trees.{unconstrained};

    ghost TAG = { G.TAG };

    const TAG: Tag = G::TAG;

    ghost CONSTRAINTS = { unconstrained };

    const CONSTRAINTS: Constraints = Constraints::NONE;

    ghost shape = { prefix G.TAG T.shape };

    ghost tree = { T.tree };

    ghost own = { refl };
}

impl<G: AsnType, T: TryClone> TryClone for Implicit<G, T> {
    fn try_clone(&self, alloc: Global) -> Result<Implicit<G, T>, AllocError> {
        Ok(Implicit::new(self.value.try_clone(alloc)?))
    }
}

impl<G: AsnType, T: TryClone> TryClone for Explicit<G, T> {
    fn try_clone(&self, alloc: Global) -> Result<Explicit<G, T>, AllocError> {
        Ok(Explicit::new(self.value.try_clone(alloc)?))
    }
}
