//! A SEQUENCE with an extension addition under an explicit tag (X.680 25.4), for tests.

use rasn::error::{DecodeError, EncodeError};
use rasn::parts::{Addition, End, Put, PutAddition, Required};
use rasn::types::{AsnType, Constraints, ContextTag, Explicit, Identifier, Tag};
use rasn::{Decode, Decoder, Encode, Encoder};

/// SEQUENCE { passed BOOLEAN, ..., mark [0] EXPLICIT INTEGER (0..255) }
#[derive(Debug, Drop)]
pub struct Graded {
    pub passed: bool,
    pub mark: Option<Explicit<ContextTag<0>, u8>>,
}

impl AsnType for Graded {
    ghost use Rattle.std.specs.Prelude.{refl, ◌∷◌, [], pos};
    ghost use Rattle.rasn_types.specs.declared.types.tag.Class.TheVariants.{Context};
    ghost use Rattle.rasn_types.specs.Shapes.{seq, part, required, addition, leaf, prefix, boolean, integer, number, items};
    ghost use Rattle.rasn_types.specs.Shapes.Parts.{none};
    ghost use Rattle.rasn_types.specs.Tags.{in_universal};
    ghost use Rattle.rasn_types.specs.Trees.{unconstrained, unsigned_range, option_tree, bool_tree};

    ghost TAG = { in_universal 16 };

    const TAG: Tag = Tag::SEQUENCE;

    ghost CONSTRAINTS = { unconstrained };

    const CONSTRAINTS: Constraints = Constraints::NONE;

    ghost shape = { seq (in_universal 16) (part required (leaf boolean (in_universal 1) unconstrained) (part addition (prefix (record { class = Context; value = 0 }) (leaf (integer (unsigned_range 8)) (in_universal 2) unconstrained)) none)) };

    ghost tree = { λ g. items (bool_tree g.passed ∷ option_tree (λ m. number (pos m)) g.mark ∷ []) };

    ghost own = { refl };
}

impl Decode for Graded {
    fn decode_with_tag_and_constraints(
        decoder: &mut Decoder<'_>,
        tag: Tag,
        _constraints: &Constraints,
    ) -> Result<Graded, DecodeError> {
        let Required(passed, Addition(mark, End)) = decoder.read_sequence(tag)?;
        Ok(Graded { passed, mark })
    }
}

impl Encode for Graded {
    fn encode_with_tag_and_constraints(
        &self,
        encoder: &mut Encoder,
        tag: Tag,
        _constraints: &Constraints,
        _identifier: Identifier,
    ) -> Result<(), EncodeError> {
        encoder.write_sequence(tag, Put(&self.passed, PutAddition(&self.mark, End)))
    }

    fn is_present(&self) -> bool {
        true
    }
}
