//! SETs of any three components (X.680 27), for tests.

use rasn::parts::{End, Put};
use rasn_enc::ber::enc::Encoder;
use rasn_enc::enc::Encode;
use rasn_types::error::EncodeError;
use rasn_types::types::{
    AsnType, Constraints, Constructed, Field, FieldPresence, Fields, Identifier, Tag,
};

/// SET { first A, second B, third C }
#[derive(Debug, Drop)]
pub struct Three<A, B, C> {
    pub first: A,
    pub second: B,
    pub third: C,
}

impl<A: AsnType, B: AsnType, C: AsnType> AsnType for Three<A, B, C> {
    ghost use Rattle.std.specs.Prelude.{refl, ◌∷◌, []};
    ghost use Rattle.rasn_types.specs.Shapes.{set, part, required, items};
    ghost use Rattle.rasn_types.specs.Shapes.Parts.{none};
    ghost use Rattle.rasn_types.specs.Tags.{in_universal};
    ghost use Rattle.rasn_types.specs.Trees.{unconstrained};

    ghost TAG = { in_universal 17 };

    const TAG: Tag = Tag::SET;

    ghost CONSTRAINTS = { unconstrained };

    const CONSTRAINTS: Constraints = Constraints::NONE;

    ghost shape = { set (in_universal 17) (part required A.shape (part required B.shape (part required C.shape none))) };

    ghost tree = { λ v. items (A.tree v.first ∷ B.tree v.second ∷ C.tree v.third ∷ []) };

    ghost own = { refl };
}

impl<A: AsnType, B: AsnType, C: AsnType> Constructed<3, 0> for Three<A, B, C> {
    ghost use Rattle.std.specs.Prelude.{refl, true, false};
    ghost use Rattle.rasn_types.specs.Shapes.{part, required};
    ghost use Rattle.rasn_types.specs.Shapes.Parts.{none};

    const FIELDS: Fields<3> = Fields {
        fields: [
            Field {
                index: 0,
                tag: A::TAG,
                presence: FieldPresence::Required,
                name: "first",
            },
            Field {
                index: 1,
                tag: B::TAG,
                presence: FieldPresence::Required,
                name: "second",
            },
            Field {
                index: 2,
                tag: C::TAG,
                presence: FieldPresence::Required,
                name: "third",
            },
        ],
    };

    const EXTENDED_FIELDS: Option<Fields<0>> = None;

    ghost IS_EXTENSIBLE = { false };

    const IS_EXTENSIBLE: bool = false;

    ghost HAS_REQUIRED_FIELDS = { true };

    const HAS_REQUIRED_FIELDS: bool = true;

    ghost parts = { part required A.shape (part required B.shape (part required C.shape none)) };

    ghost described = { refl };
}

impl<A: Encode, B: Encode, C: Encode> Encode for Three<A, B, C> {
    fn encode_with_tag_and_constraints(
        &self,
        encoder: &mut Encoder,
        tag: Tag,
        _constraints: &Constraints,
        _identifier: Identifier,
    ) -> Result<(), EncodeError> {
        encoder.write_set(
            tag,
            Put(&self.first, Put(&self.second, Put(&self.third, End))),
        )
    }

    fn is_present(&self) -> bool {
        true
    }
}
