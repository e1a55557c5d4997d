//! SET OF.
ghost use Rattle.std.specs.Prelude.{◌≡◌, ◌∷◌, ◌++◌, [], length, nat_eq, count_by, OnOk, OnErr};
ghost use Rattle.std.specs.List.{list_all};
ghost use Rattle.std.specs.Slice.Iter.{iter_rest};

use crate::types::{AsnType, Constraints, LawfulEq, Present, Tag, TryClone};
use std::alloc::{AllocError, Global};
use std::marker::Model;
use std::slice;

/// The elements of a SET OF (X.680 28), in the order in which they were inserted. Two values are
/// equal if each element occurs equally often in both.
///
/// Contracts see it as the list of its elements.
#[derive(Debug, Drop)]
pub struct SetOf<T> {
    elements: Vec<T>,
}

impl<T> Model for SetOf<T> {
    ghost use Rattle.std.specs.Prelude.{List};

    ghost Value = { List T };

    ghost view = { λ a. a.elements.items };
}

impl<T> SetOf<T> {
    /// Returns a value without elements.
    pub fn new(alloc: Global) -> SetOf<T>
        ensures { result ≡ [] }
    {
        SetOf {
            elements: Vec::new(alloc),
        }
    }

    /// Returns a value with these elements, in their order.
    pub fn from_vec(elements: Vec<T>) -> SetOf<T>
        ensures { result ≡ elements.items }
    {
        SetOf { elements }
    }

    /// Returns the number of elements. Equal elements are counted separately.
    pub fn len(&self) -> usize
        ensures { result ≡ length self.now }
    {
        self.elements.len()
    }

    /// Returns whether there are no elements.
    pub fn is_empty(&self) -> bool
        ensures { result ≡ nat_eq (length self.now) 0 }
    {
        self.elements.is_empty()
    }

    /// Returns an iterator over the elements, in their order.
    pub fn iter(&self) -> slice::Iter<'_, T>
        ensures { iter_rest result ≡ self.now }
    {
        self.elements.iter()
    }

    /// Returns the elements, in their order.
    pub fn as_slice(&self) -> &[T]
        ensures { result.now ≡ self.now }
    {
        self.elements.as_slice()
    }

    /// Returns the elements, in their order, without a copy.
    pub fn into_vec(self) -> Vec<T>
        ensures { result.items ≡ self }
    {
        let SetOf { elements } = self;
        elements
    }
}

impl<T: Drop> SetOf<T> {
    /// Appends an element.
    ///
    /// # Errors
    /// If an allocation fails. The elements are unchanged then.
    pub fn insert(&mut self, value: T) -> Result<(), AllocError>
        ensures ok { OnOk result (self.new ≡ self.old ++ value ∷ []) }
        ensures err { OnErr result (self.new ≡ self.old) }
    {
        match self.elements.push(value) {
            Ok(()) => Ok(()),
            Err(_) => Err(AllocError),
        }
    }
}

impl<T: Eq> PartialEq for SetOf<T> {
    ghost use Rattle.std.specs.Cmp.{partial_equiv_from_equiv};
    ghost use Rattle.rasn_types.specs.SetOf.{set_of_eq, set_of_equiv};

    ghost eq = { set_of_eq T.eq };

    ghost laws = { partial_equiv_from_equiv (set_of_equiv T.Eq.laws) };

    fn eq(&self, other: &SetOf<T>) -> bool {
        are_as_often(&self.elements, &self.elements, &other.elements)
            && are_as_often(&other.elements, &self.elements, &other.elements)
    }
}

impl<T: Eq> Eq for SetOf<T> {
    ghost use Rattle.rasn_types.specs.SetOf.{set_of_equiv};

    ghost laws = { set_of_equiv T.Eq.laws };
}

impl<'a, T> IntoIterator for &'a SetOf<T> {
    ghost use Rattle.std.specs.Prelude.{◌≡◌};
    ghost use Rattle.std.specs.Slice.Iter.{iter_rest};

    type Item = &'a T;

    type IntoIter = slice::Iter<'a, T>;

    ghost into_iter_gives = { λ s r. iter_rest r ≡ s.now };

    fn into_iter(self) -> slice::Iter<'a, T> {
        self.iter()
    }
}

// Returns whether each of `these` occurs equally often in both lists.
fn are_as_often<T: PartialEq>(these: &[T], first: &[T], second: &[T]) -> bool
    ensures { result ≡ list_all (λ z. nat_eq (count_by (T.eq z) first.now) (count_by (T.eq z) second.now)) these.now }
{
    these
        .iter()
        .all(|value| count(value, first) == count(value, second))
}

// Returns the number of values in `these` that equal `value`.
fn count<T: PartialEq>(value: &T, these: &[T]) -> usize
    ensures { result ≡ count_by (T.eq value.now) these.now }
{
    these.iter().filter(|other| value == *other).count()
}

impl<T: AsnType> AsnType for SetOf<T> {
    ghost use Rattle.std.specs.Prelude.{refl, None};
    ghost use Rattle.rasn_types.specs.Shapes.{set_of, set_elements};
    ghost use Rattle.rasn_types.specs.Tags.{in_universal};
    ghost use Rattle.rasn_types.specs.Trees.{list_tree, unconstrained};

    ghost TAG = { in_universal 17 };

    const TAG: Tag = Tag::SET;

    ghost CONSTRAINTS = { unconstrained };

    const CONSTRAINTS: Constraints = Constraints::NONE;

    ghost shape = { set_of (in_universal 17) T.shape None };

    ghost tree = { λ v. set_elements (list_tree T.tree v) };

    ghost own = { refl };
}

impl<T: LawfulEq + Eq> LawfulEq for SetOf<T> {
    ghost use Rattle.rasn_types.specs.SetOf.{set_of_told};

    ghost decides = { set_of_told T.Eq.laws T.decides };
}

impl<T: AsnType> Present for SetOf<T> {
    ghost use Rattle.rasn_types.specs.Equality.{set_elements_not_absent};

    ghost present = { λ v. set_elements_not_absent };
}

impl<T: TryClone> TryClone for SetOf<T> {
    fn try_clone(&self, alloc: Global) -> Result<SetOf<T>, AllocError> {
        let elements = self.elements.try_clone(alloc)?;
        Ok(SetOf { elements })
    }
}
