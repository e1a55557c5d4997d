//! The values at the end of an extensible SEQUENCE that its type doesn't name.
ghost use Rattle.std.specs.Prelude.{◌≡◌, [], IfOk};

use crate::types::{Any, AsnType, Constraints, LawfulEq, Present, Tag, TryClone};
use std::alloc::{AllocError, Global};

/// The values that follow the components of a SEQUENCE with an extension marker (X.680 25): those
/// of a newer version of its type. Each is kept as the octets of one complete encoding, and written
/// as it was read. It is the last part of a SEQUENCE, and `new` is what older versions have there.
#[derive(Debug, Drop)]
pub struct Unknown {
    pub values: Vec<Any>,
}

impl Unknown {
    /// Returns no values.
    pub fn new(alloc: Global) -> Unknown
        ensures { result.values.items ≡ [] }
    {
        Unknown {
            values: Vec::new(alloc),
        }
    }
}

impl PartialEq for Unknown {
    ghost use Rattle.std.specs.Prelude.{nat_eq};
    ghost use Rattle.std.specs.Cmp.{on_equiv, partial_equiv_from_equiv};
    ghost use Rattle.std.specs.Cmp.Lexicographic.{pointwise, lists_equiv, nat_list_eq_equiv};

    ghost eq = { λ u v. pointwise (pointwise nat_eq) u.values.items v.values.items };

    ghost laws = { partial_equiv_from_equiv (on_equiv (λ u. u.values.items) (lists_equiv nat_list_eq_equiv)) };

    fn eq(&self, other: &Unknown) -> bool {
        self.values == other.values
    }
}

impl Eq for Unknown {
    ghost use Rattle.std.specs.Cmp.{on_equiv};
    ghost use Rattle.std.specs.Cmp.Lexicographic.{lists_equiv, nat_list_eq_equiv};

    ghost laws = { on_equiv (λ u. u.values.items) (lists_equiv nat_list_eq_equiv) };
}

impl AsnType for Unknown {
    ghost use Rattle.std.specs.Prelude.{refl};
    ghost use Rattle.rasn_types.specs.Shapes.{unknown, numbers};
    ghost use Rattle.rasn_types.specs.Tags.{eoc};
    ghost use Rattle.rasn_types.specs.Trees.{list_tree, unconstrained};

    ghost TAG = { eoc };

    const TAG: Tag = Tag::EOC;

    ghost CONSTRAINTS = { unconstrained };

    const CONSTRAINTS: Constraints = Constraints::NONE;

    ghost shape = { unknown };

    ghost tree = { λ u. list_tree numbers u.values.items };

    ghost own = { refl };
}

impl LawfulEq for Unknown {
    ghost use Rattle.rasn_types.specs.Equality.{list_decided, octets_decided};

    ghost decides = { λ u v. list_decided octets_decided u.values.items v.values.items };
}

impl Present for Unknown {
    ghost use Rattle.rasn_types.specs.Equality.{list_not_absent};
    ghost use Rattle.rasn_types.specs.Shapes.{numbers};

    ghost present = { λ u. list_not_absent numbers u.values.items };
}

impl TryClone for Unknown {
    fn try_clone(&self, alloc: Global) -> Result<Unknown, AllocError> {
        Ok(Unknown {
            values: self.values.try_clone(alloc)?,
        })
    }
}
