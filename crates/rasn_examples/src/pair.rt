//! `Pair ::= SEQUENCE { number INTEGER (-2147483648..2147483647), truth BOOLEAN }`

use rasn::error::{DecodeError, EncodeError};
use rasn::parts::{DecodeParts, End, Put, Required};
use rasn::types::{AsnType, Constraints, Identifier, LawfulEq, Present, Tag};
use rasn::{Decode, Decoder, Encode, Encoder};

/// SEQUENCE { number INTEGER (-2147483648..2147483647), truth BOOLEAN }
#[derive(Debug, PartialEq, Eq, Drop)]
pub struct Pair {
    pub number: i32,
    pub truth: bool,
}

impl AsnType for Pair {
    ghost use Rattle.std.specs.Prelude.{refl};
    ghost use Rattle.rasn_types.specs.Tags.{in_universal};
    ghost use Rattle.rasn_types.specs.Trees.{unconstrained};
    ghost use Rattle.rasn_examples.specs.Pair.{pair_shape, pair_tree};

    ghost TAG = { in_universal 16 };

    const TAG: Tag = Tag::SEQUENCE;

    ghost CONSTRAINTS = { unconstrained };

    const CONSTRAINTS: Constraints = Constraints::NONE;

    ghost shape = { pair_shape };

    ghost tree = { pair_tree };

    ghost own = { refl };
}

impl LawfulEq for Pair {
    ghost use Rattle.rasn_types.specs.Deciding.{deciding};

    ghost decides = { Prim.search deciding depth 64 };
}

impl Present for Pair {
    ghost use Rattle.rasn_types.specs.Equality.{parts_not_absent};

    ghost present = { λ _. parts_not_absent };
}

/// The components, as they are read.
type Parts = Required<i32, Required<bool, End>>;

impl Decode for Pair {
    ghost use Rattle.rasn_de.specs.PartTypes.{DecodesSequenceParts};
    ghost use Rattle.rasn_de.specs.ValueErrors.{errors_of};

    ghost errors = { λ tag _. errors_of (DecodesSequenceParts ⟦<Parts as DecodeParts>⟧.parts ⟦<Parts as DecodeParts>⟧.tree ⟦<Parts as DecodeParts>⟧.errors tag) };

    fn decode_with_tag_and_constraints(
        decoder: &mut Decoder<'_>,
        tag: Tag,
        _constraints: &Constraints,
    ) -> Result<Pair, DecodeError> {
        let parts = match decoder.read_sequence::<Parts>(tag) {
            Ok(parts) => parts,
            Err(error) => return Err(error),
        };
        let Required(number, Required(truth, End)) = parts;
        Ok(Pair { number, truth })
    }
}

impl Encode for Pair {
    fn encode_with_tag_and_constraints(
        &self,
        encoder: &mut Encoder,
        tag: Tag,
        _constraints: &Constraints,
        _identifier: Identifier,
    ) -> Result<(), EncodeError> {
        encoder.write_sequence(tag, Put(&self.number, Put(&self.truth, End)))
    }

    fn is_present(&self) -> bool {
        true
    }
}
