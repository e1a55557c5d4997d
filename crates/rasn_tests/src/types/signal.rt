//! A SET of components with each presence (X.680 27), for tests.

use rasn::error::{DecodeError, EncodeError};
use rasn::parts::{Defaulted, End, Optional, Put, PutDefault, PutOptional, Required};
use rasn::types::{AsnType, Constraints, ContextTag, Identifier, Implicit, LawfulEq, Tag};
use rasn::{Decode, Decoder, Encode, Encoder};
use rasn_bench::Seven;

/// SET { truth BOOLEAN OPTIONAL, level INTEGER (0..255) DEFAULT 7, mark [0] IMPLICIT INTEGER
/// (0..255) }
#[derive(Debug, PartialEq, Eq, Drop)]
pub struct Signal {
    pub truth: Option<bool>,
    pub level: u8,
    pub mark: Implicit<ContextTag<0>, u8>,
}

impl AsnType for Signal {
    ghost use Rattle.std.specs.Prelude.{refl, ◌∷◌, []};
    ghost use Rattle.rasn_types.specs.Shapes.{set, items};
    ghost use Rattle.rasn_types.specs.Tags.{in_universal};
    ghost use Rattle.rasn_types.specs.Trees.{unconstrained, option_tree, bool_tree};
    ghost use Rattle.rasn_tests.specs.Signal.{signal_parts, level_tree};

    ghost TAG = { in_universal 17 };

    const TAG: Tag = Tag::SET;

    ghost CONSTRAINTS = { unconstrained };

    const CONSTRAINTS: Constraints = Constraints::NONE;

    ghost shape = { set (in_universal 17) signal_parts };

    ghost tree = { λ s. items (option_tree bool_tree s.truth ∷ level_tree s.level ∷ level_tree s.mark ∷ []) };

    ghost own = { refl };
}

impl LawfulEq for Signal {
    ghost use Rattle.rasn_types.specs.Deciding.{deciding};

    ghost decides = { Prim.search deciding depth 64 };
}

impl Decode for Signal {
    fn decode_with_tag_and_constraints(
        decoder: &mut Decoder<'_>,
        tag: Tag,
        _constraints: &Constraints,
    ) -> Result<Signal, DecodeError> {
        let Optional(truth, Defaulted::<Seven, _>(level, Required(mark, End))) = decoder.read_set(
            tag,
            "Signal",
            &["truth", "level", "mark"],
        )?;
        Ok(Signal { truth, level, mark })
    }
}

impl Encode for Signal {
    fn encode_with_tag_and_constraints(
        &self,
        encoder: &mut Encoder,
        tag: Tag,
        _constraints: &Constraints,
        _identifier: Identifier,
    ) -> Result<(), EncodeError> {
        encoder.write_set(
            tag,
            PutOptional(
                &self.truth,
                PutDefault::<Seven, _>(&self.level, Put(&self.mark, End)),
            ),
        )
    }

    fn is_present(&self) -> bool {
        true
    }
}
