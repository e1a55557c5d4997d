//! Values that may be absent.
use crate::types::{AsnType, Constraints, Tag, TryClone};
use std::alloc::{AllocError, Global};

/// The value of an OPTIONAL component (X.680 25.5). `TAG` is the tag that the decoder looks for.
impl<T: AsnType> AsnType for Option<T> {
    ghost use Rattle.std.proofs.Common.{ap};
    ghost use Rattle.rasn_types.specs.Shapes.{option, looked_for};
    ghost use Rattle.rasn_types.specs.Trees.{option_tree};

    ghost TAG = { T.TAG };

    const TAG: Tag = T::TAG;

    ghost CONSTRAINTS = { T.CONSTRAINTS };

    const CONSTRAINTS: Constraints = T::CONSTRAINTS;

    ghost shape = { option (looked_for T.TAG) T.shape };

    ghost tree = { option_tree T.tree };

    ghost own = { ap (option (looked_for T.TAG)) T.own };
}

impl<T: TryClone> TryClone for Option<T> {
    fn try_clone(&self, alloc: Global) -> Result<Option<T>, AllocError> {
        match self {
            Some(value) => Ok(Some(value.try_clone(alloc)?)),
            None => Ok(None),
        }
    }
}
