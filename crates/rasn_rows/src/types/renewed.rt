//! An extensible SEQUENCE, which keeps the components that it doesn't name (X.680 25), for tests.

use rasn::error::{DecodeError, EncodeError};
use rasn::parts::{End, Optional, Put, PutOptional, Required};
use rasn::types::{AsnType, Constraints, ContextTag, Identifier, Implicit, Tag, Unknown};
use rasn::{Decode, Decoder, Encode, Encoder};

/// SEQUENCE { passed BOOLEAN, mark [0] IMPLICIT INTEGER (0..255) OPTIONAL, ... }
#[derive(Debug, Drop)]
pub struct Renewed {
    pub passed: bool,
    pub mark: Option<Implicit<ContextTag<0>, u8>>,
    pub unknown: Unknown,
}

impl AsnType for Renewed {
    ghost use Rattle.std.specs.Prelude.{refl, ◌∷◌, [], pos};
    ghost use Rattle.rasn_types.specs.declared.types.tag.Class.TheVariants.{Context};
    ghost use Rattle.rasn_types.specs.Shapes.{seq, part, required, optional, leaf, unknown, boolean, integer, number, numbers, items};
    ghost use Rattle.rasn_types.specs.Shapes.Parts.{none};
    ghost use Rattle.rasn_types.specs.Tags.{in_universal};
    ghost use Rattle.rasn_types.specs.Trees.{unconstrained, unsigned_range, option_tree, list_tree, bool_tree};

    ghost TAG = { in_universal 16 };

    const TAG: Tag = Tag::SEQUENCE;

    ghost CONSTRAINTS = { unconstrained };

    const CONSTRAINTS: Constraints = Constraints::NONE;

    ghost shape = { seq (in_universal 16) (part required (leaf boolean (in_universal 1) unconstrained) (part optional (leaf (integer (unsigned_range 8)) (record { class = Context; value = 0 }) unconstrained) (part required unknown none))) };

    ghost tree = { λ g. items (bool_tree g.passed ∷ option_tree (λ m. number (pos m)) g.mark ∷ list_tree numbers g.unknown.values.items ∷ []) };

    ghost own = { refl };
}

impl Decode for Renewed {
    fn decode_with_tag_and_constraints(
        decoder: &mut Decoder<'_>,
        tag: Tag,
        _constraints: &Constraints,
    ) -> Result<Renewed, DecodeError> {
        let Required(passed, Optional(mark, Required(unknown, End))) = decoder.read_sequence(tag)?;
        Ok(Renewed {
            passed,
            mark,
            unknown,
        })
    }
}

impl Encode for Renewed {
    fn encode_with_tag_and_constraints(
        &self,
        encoder: &mut Encoder,
        tag: Tag,
        _constraints: &Constraints,
        _identifier: Identifier,
    ) -> Result<(), EncodeError> {
        encoder.write_sequence(
            tag,
            Put(
                &self.passed,
                PutOptional(&self.mark, Put(&self.unknown, End)),
            ),
        )
    }

    fn is_present(&self) -> bool {
        true
    }
}
