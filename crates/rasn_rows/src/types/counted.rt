//! A SEQUENCE with a DEFAULT component (X.680 25), for tests.

use rasn::parts::{Defaulted, End, PutDefault};
use rasn_bench::Seven;
use rasn_de::ber::de::Decoder;
use rasn_de::de::Decode;
use rasn_enc::ber::enc::Encoder;
use rasn_enc::enc::Encode;
use rasn_types::error::{DecodeError, EncodeError};
use rasn_types::types::{
    AsnType, Constraints, Constructed, Field, FieldPresence, Fields, Identifier, Tag,
};

/// SEQUENCE { number INTEGER (0..255) DEFAULT 7 }
#[derive(Debug, Drop)]
pub struct Counted {
    pub number: u8,
}

impl AsnType for Counted {
    ghost use Rattle.std.specs.Prelude.{refl, pos, ◌∷◌, []};
    ghost use Rattle.rasn_types.specs.Shapes.{seq, part, default, leaf, integer, number, items};
    ghost use Rattle.rasn_types.specs.Shapes.Parts.{none};
    ghost use Rattle.rasn_types.specs.Tags.{in_universal};
    ghost use Rattle.rasn_types.specs.Trees.{unconstrained, unsigned_range};

    ghost TAG = { in_universal 16 };

    const TAG: Tag = Tag::SEQUENCE;

    ghost CONSTRAINTS = { unconstrained };

    const CONSTRAINTS: Constraints = Constraints::NONE;

    ghost shape = { seq (in_universal 16) (part (default (number (pos 7))) (leaf (integer (unsigned_range 8)) (in_universal 2) unconstrained) none) };

    ghost tree = { λ counted. items (number (pos counted.number) ∷ []) };

    ghost own = { refl };
}

impl Constructed<1, 0> for Counted {
    ghost use Rattle.std.specs.Prelude.{refl, false, pos};
    ghost use Rattle.rasn_types.specs.Shapes.{part, default, leaf, integer, number};
    ghost use Rattle.rasn_types.specs.Shapes.Parts.{none};
    ghost use Rattle.rasn_types.specs.Tags.{in_universal};
    ghost use Rattle.rasn_types.specs.Trees.{unconstrained, unsigned_range};

    const FIELDS: Fields<1> = Fields {
        fields: [Field {
            index: 0,
            tag: Tag::INTEGER,
            presence: FieldPresence::Default,
            name: "number",
        }],
    };

    const EXTENDED_FIELDS: Option<Fields<0>> = None;

    ghost IS_EXTENSIBLE = { false };

    const IS_EXTENSIBLE: bool = false;

    ghost HAS_REQUIRED_FIELDS = { false };

    const HAS_REQUIRED_FIELDS: bool = false;

    ghost parts = { part (default (number (pos 7))) (leaf (integer (unsigned_range 8)) (in_universal 2) unconstrained) none };

    ghost described = { refl };
}

impl Decode for Counted {
    fn decode_with_tag_and_constraints(
        decoder: &mut Decoder<'_>,
        tag: Tag,
        _constraints: &Constraints,
    ) -> Result<Counted, DecodeError> {
        let Defaulted::<Seven, _>(number, End) = decoder.read_sequence(tag)?;
        Ok(Counted { number })
    }
}

impl Encode for Counted {
    fn encode_with_tag_and_constraints(
        &self,
        encoder: &mut Encoder,
        tag: Tag,
        _constraints: &Constraints,
        _identifier: Identifier,
    ) -> Result<(), EncodeError> {
        encoder.write_sequence(tag, PutDefault::<Seven, _>(&self.number, End))
    }

    fn is_present(&self) -> bool {
        true
    }
}
