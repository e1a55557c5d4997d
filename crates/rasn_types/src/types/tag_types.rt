//! Types that name a tag (X.680 31), for [`Implicit`](crate::types::Implicit) and
//! [`Explicit`](crate::types::Explicit).
use crate::types::{AsnType, Class, Constraints, Tag};

/// The context-specific tag `[N]`.
#[derive(Debug, Drop)]
pub struct ContextTag<const N: u32>;

/// The tag `[APPLICATION N]`.
#[derive(Debug, Drop)]
pub struct ApplicationTag<const N: u32>;

/// The tag `[PRIVATE N]`.
#[derive(Debug, Drop)]
pub struct PrivateTag<const N: u32>;

impl<const N: u32> AsnType for ContextTag<N> {
    ghost use Rattle.std.specs.Prelude.{refl};
    ghost use Rattle.rasn_types.specs.declared.types.tag.Class.TheVariants.{Context};
    ghost use Rattle.rasn_types.specs.Shapes.{leaf, null, done};
    ghost use Rattle.rasn_types.specs.Trees.{unconstrained};

    ghost TAG = { record { class = Context; value = N } };

    const TAG: Tag = Tag {
        class: Class::Context,
        value: N,
    };

    ghost CONSTRAINTS = { unconstrained };

    const CONSTRAINTS: Constraints = Constraints::NONE;

    ghost shape = { leaf null (record { class = Context; value = N }) unconstrained };

    ghost tree = { λ t. done };

    ghost own = { refl };
}

impl<const N: u32> AsnType for ApplicationTag<N> {
    ghost use Rattle.std.specs.Prelude.{refl};
    ghost use Rattle.rasn_types.specs.declared.types.tag.Class.TheVariants.{Application};
    ghost use Rattle.rasn_types.specs.Shapes.{leaf, null, done};
    ghost use Rattle.rasn_types.specs.Trees.{unconstrained};

    ghost TAG = { record { class = Application; value = N } };

    const TAG: Tag = Tag {
        class: Class::Application,
        value: N,
    };

    ghost CONSTRAINTS = { unconstrained };

    const CONSTRAINTS: Constraints = Constraints::NONE;

    ghost shape = { leaf null (record { class = Application; value = N }) unconstrained };

    ghost tree = { λ t. done };

    ghost own = { refl };
}

impl<const N: u32> AsnType for PrivateTag<N> {
    ghost use Rattle.std.specs.Prelude.{refl};
    ghost use Rattle.rasn_types.specs.declared.types.tag.Class.TheVariants.{Private};
    ghost use Rattle.rasn_types.specs.Shapes.{leaf, null, done};
    ghost use Rattle.rasn_types.specs.Trees.{unconstrained};

    ghost TAG = { record { class = Private; value = N } };

    const TAG: Tag = Tag {
        class: Class::Private,
        value: N,
    };

    ghost CONSTRAINTS = { unconstrained };

    const CONSTRAINTS: Constraints = Constraints::NONE;

    ghost shape = { leaf null (record { class = Private; value = N }) unconstrained };

    ghost tree = { λ t. done };

    ghost own = { refl };
}
