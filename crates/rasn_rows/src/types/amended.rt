//! An extensible SET, which keeps the components that it doesn't name (X.680 27), for tests.

use rasn::error::{DecodeError, EncodeError};
use rasn::parts::{Optional, Put, PutOptional, Required};
use rasn::types::{AsnType, Constraints, ContextTag, Identifier, Implicit, Tag, Unknown};
use rasn::{Decode, Decoder, Encode, Encoder};

/// SET { mark [0] IMPLICIT INTEGER (0..255) OPTIONAL, passed BOOLEAN, ... }
#[derive(Debug, Drop)]
pub struct Amended {
    pub mark: Option<Implicit<ContextTag<0>, u8>>,
    pub passed: bool,
    pub unknown: Unknown,
}

impl AsnType for Amended {
    ghost use Rattle.std.specs.Prelude.{refl, true, ◌∷◌, [], pos};
    ghost use Rattle.rasn_types.specs.declared.types.tag.Class.TheVariants.{Context};
    ghost use Rattle.rasn_types.specs.Shapes.{sorted_set, part, required, optional, leaf, boolean, integer, number, numbers, items};
    ghost use Rattle.rasn_types.specs.Shapes.Parts.{none};
    ghost use Rattle.rasn_types.specs.Tags.{in_universal};
    ghost use Rattle.rasn_types.specs.Trees.{unconstrained, unsigned_range, option_tree, list_tree, bool_tree};

    ghost TAG = { in_universal 17 };

    const TAG: Tag = Tag::SET;

    ghost CONSTRAINTS = { unconstrained };

    const CONSTRAINTS: Constraints = Constraints::NONE;

    ghost shape = { sorted_set true (in_universal 17) (part optional (leaf (integer (unsigned_range 8)) (record { class = Context; value = 0 }) unconstrained) (part required (leaf boolean (in_universal 1) unconstrained) none)) };

    ghost tree = { λ g. items (option_tree (λ m. number (pos m)) g.mark ∷ bool_tree g.passed ∷ list_tree numbers g.unknown.values.items ∷ []) };

    ghost own = { refl };
}

impl Decode for Amended {
    fn decode_with_tag_and_constraints(
        decoder: &mut Decoder<'_>,
        tag: Tag,
        _constraints: &Constraints,
    ) -> Result<Amended, DecodeError> {
        let Optional(mark, Required(passed, unknown)) = decoder.read_set(
            tag,
            "Amended",
            &["mark", "passed"],
        )?;
        Ok(Amended {
            mark,
            passed,
            unknown,
        })
    }
}

impl Encode for Amended {
    fn encode_with_tag_and_constraints(
        &self,
        encoder: &mut Encoder,
        tag: Tag,
        _constraints: &Constraints,
        _identifier: Identifier,
    ) -> Result<(), EncodeError> {
        encoder.write_sorted_set(
            tag,
            PutOptional(&self.mark, Put(&self.passed, &self.unknown)),
        )
    }

    fn is_present(&self) -> bool {
        true
    }
}
