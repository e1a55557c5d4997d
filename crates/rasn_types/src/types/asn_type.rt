//! The items that all types have in common.
use crate::types::{Constraints, Tag};

/// A type with its own tag and constraints. Contracts see a shape of the type, and a tree of each
/// value.
pub trait AsnType: Drop {
    ghost use Rattle.std.specs.Prelude.{◌≡◌};
    ghost use Rattle.rasn_types.specs.declared.types.tag.Tag.{Tag};
    ghost use Rattle.rasn_types.specs.declared.types.constraints.Constraints.{Constraints};
    ghost use Rattle.rasn_types.specs.Shapes.{Shape, Tree, tagged_as};

    ghost TAG: { Tag };

    /// The tag of a value if no tag is passed in: `Tag::EOC` for a CHOICE and for an open type.
    const TAG: Tag;

    ghost CONSTRAINTS: { Constraints };

    /// The constraints on a value if no constraints are passed in.
    const CONSTRAINTS: Constraints;

    ghost shape: { Shape };

    ghost tree: { Self → Tree };

    /// The proof that `TAG` and `CONSTRAINTS` are those of the shape.
    ghost own: { tagged_as TAG CONSTRAINTS shape ≡ shape };
}

impl AsnType for bool {
    ghost use Rattle.std.specs.Prelude.{refl};
    ghost use Rattle.rasn_types.specs.Shapes.{leaf, boolean};
    ghost use Rattle.rasn_types.specs.Tags.{in_universal};
    ghost use Rattle.rasn_types.specs.Trees.{bool_tree, unconstrained};

    ghost TAG = { in_universal 1 };

    const TAG: Tag = Tag::BOOL;

    ghost CONSTRAINTS = { unconstrained };

    const CONSTRAINTS: Constraints = Constraints {
        value: None,
        size: None,
    };

    ghost shape = { leaf boolean (in_universal 1) unconstrained };

    ghost tree = { bool_tree };

    ghost own = { refl };
}
