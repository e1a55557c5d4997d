//! NULL.
use crate::types::{AsnType, Constraints, Tag};

impl AsnType for () {
    ghost use Rattle.std.specs.Prelude.{refl, pos};
    ghost use Rattle.rasn_types.specs.Shapes.{leaf, null, number};
    ghost use Rattle.rasn_types.specs.Tags.{in_universal};
    ghost use Rattle.rasn_types.specs.Trees.{unconstrained};

    ghost TAG = { in_universal 5 };

    const TAG: Tag = Tag::NULL;

    ghost CONSTRAINTS = { unconstrained };

    const CONSTRAINTS: Constraints = Constraints::NONE;

    ghost shape = { leaf null (in_universal 5) unconstrained };

    ghost tree = { λ _. number (pos 0) };

    ghost own = { refl };
}
