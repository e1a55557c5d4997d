//! SEQUENCEs without components, with and without an extension marker (X.680 25), for tests.

use rasn_types::types::{AsnType, Constraints, Constructed, Fields, Tag};

/// SEQUENCE {}
#[derive(Debug, Drop)]
pub struct Closed {
    pub by_closure: bool,
}

impl AsnType for Closed {
    ghost use Rattle.std.specs.Prelude.{refl, []};
    ghost use Rattle.rasn_types.specs.Shapes.{seq, items};
    ghost use Rattle.rasn_types.specs.Shapes.Parts.{none};
    ghost use Rattle.rasn_types.specs.Tags.{in_universal};
    ghost use Rattle.rasn_types.specs.Trees.{unconstrained};

    ghost TAG = { in_universal 16 };

    const TAG: Tag = Tag::SEQUENCE;

    ghost CONSTRAINTS = { unconstrained };

    const CONSTRAINTS: Constraints = Constraints::NONE;

    ghost shape = { seq (in_universal 16) none };

    ghost tree = { λ _. items [] };

    ghost own = { refl };
}

impl Constructed<0, 0> for Closed {
    ghost use Rattle.std.specs.Prelude.{refl, false};
    ghost use Rattle.rasn_types.specs.Shapes.Parts.{none};

    const FIELDS: Fields<0> = Fields { fields: [] };

    const EXTENDED_FIELDS: Option<Fields<0>> = None;

    ghost IS_EXTENSIBLE = { false };

    const IS_EXTENSIBLE: bool = false;

    ghost HAS_REQUIRED_FIELDS = { false };

    const HAS_REQUIRED_FIELDS: bool = false;

    ghost parts = { none };

    ghost described = { refl };
}

/// SEQUENCE { ... }
#[derive(Debug, Drop)]
pub struct Extensible {
    pub by_closure: bool,
}

impl AsnType for Extensible {
    ghost use Rattle.std.specs.Prelude.{refl, []};
    ghost use Rattle.rasn_types.specs.Shapes.{seq, items};
    ghost use Rattle.rasn_types.specs.Shapes.Parts.{none};
    ghost use Rattle.rasn_types.specs.Tags.{in_universal};
    ghost use Rattle.rasn_types.specs.Trees.{unconstrained};

    ghost TAG = { in_universal 16 };

    const TAG: Tag = Tag::SEQUENCE;

    ghost CONSTRAINTS = { unconstrained };

    const CONSTRAINTS: Constraints = Constraints::NONE;

    ghost shape = { seq (in_universal 16) none };

    ghost tree = { λ _. items [] };

    ghost own = { refl };
}

impl Constructed<0, 0> for Extensible {
    ghost use Rattle.std.specs.Prelude.{refl, true, false};
    ghost use Rattle.rasn_types.specs.Shapes.Parts.{none};

    const FIELDS: Fields<0> = Fields { fields: [] };

    const EXTENDED_FIELDS: Option<Fields<0>> = Some(Fields { fields: [] });

    ghost IS_EXTENSIBLE = { true };

    const IS_EXTENSIBLE: bool = true;

    ghost HAS_REQUIRED_FIELDS = { false };

    const HAS_REQUIRED_FIELDS: bool = false;

    ghost parts = { none };

    ghost described = { refl };
}
