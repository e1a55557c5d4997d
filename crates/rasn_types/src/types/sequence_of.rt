//! Lists of values of one type.
use crate::types::{AsnType, Constraints, Tag, TryClone};
use std::alloc::{AllocError, Global};

/// SEQUENCE OF (X.680 26).
impl<T: AsnType> AsnType for Vec<T> {
    ghost use Rattle.std.specs.Prelude.{refl, None};
    ghost use Rattle.rasn_types.specs.Shapes.{list};
    ghost use Rattle.rasn_types.specs.Tags.{in_universal};
    ghost use Rattle.rasn_types.specs.Trees.{list_tree, unconstrained};

    ghost TAG = { in_universal 16 };

    const TAG: Tag = Tag::SEQUENCE;

    ghost CONSTRAINTS = { unconstrained };

    const CONSTRAINTS: Constraints = Constraints::NONE;

    ghost shape = { list (in_universal 16) T.shape None };

    ghost tree = { λ v. list_tree T.tree v.items };

    ghost own = { refl };
}

impl<T: TryClone> TryClone for Vec<T> {
    fn try_clone(&self, alloc: Global) -> Result<Vec<T>, AllocError> {
        let mut copies = Vec::with_capacity(alloc, self.len())?;
        for value in self {
            copies.push(value.try_clone(alloc)?)?;
        }
        Ok(copies)
    }
}
