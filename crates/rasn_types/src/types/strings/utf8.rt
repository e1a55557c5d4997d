//! UTF8String.
ghost use Rattle.std.specs.Prelude.{◌≡◌, IfOk, string_bytes};

use crate::types::{AsnType, Constraints, Tag, TryClone};
use std::alloc::{AllocError, Global};

/// UTF8String (X.680 41). Its size is the number of characters.
pub type Utf8String = String;

impl AsnType for String {
    ghost use Rattle.std.specs.Prelude.{refl, chars};
    ghost use Rattle.std.specs.String.{string_bytes};
    ghost use Rattle.rasn_types.specs.Shapes.{leaf, utf8, numbers};
    ghost use Rattle.rasn_types.specs.Tags.{in_universal};
    ghost use Rattle.rasn_types.specs.Trees.{unconstrained};

    ghost TAG = { in_universal 12 };

    const TAG: Tag = Tag::UTF8_STRING;

    ghost CONSTRAINTS = { unconstrained };

    const CONSTRAINTS: Constraints = Constraints::NONE;

    ghost shape = { leaf utf8 (in_universal 12) unconstrained };

    ghost tree = { λ s. numbers (chars (string_bytes s)) };

    ghost own = { refl };
}

impl TryClone for String {
    fn try_clone(&self, alloc: Global) -> Result<String, AllocError>
        ensures { IfOk result (λ v. string_bytes v ≡ string_bytes self.now) }
    {
        String::from_str(alloc, self.as_str())
    }
}
