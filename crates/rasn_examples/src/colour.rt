//! The example ENUMERATED { red (0), green (1), blue (2) }.
use rasn::ber::de::Decoder;
use rasn::ber::enc::Encoder;
use rasn::de::Decode;
use rasn::enc::Encode;
use rasn::error::{DecodeError, EncodeError};
use rasn::types::{AsnType, Constraints, Enumerated, Identifier, LawfulEq, Present, Tag};

/// A colour.
#[derive(Clone, Copy, Debug, PartialEq, Eq, Drop)]
pub enum Colour {
    Red,
    Green,
    Blue,
}

impl AsnType for Colour {
    ghost use Rattle.std.specs.Prelude.{refl};
    ghost use Rattle.rasn_types.specs.Shapes.{leaf, enumerated, number};
    ghost use Rattle.rasn_types.specs.Tags.{in_universal};
    ghost use Rattle.rasn_types.specs.Trees.{unconstrained};
    ghost use Rattle.rasn_examples.specs.Colour.{colours, colour_number};

    ghost TAG = { in_universal 10 };

    const TAG: Tag = Tag::ENUMERATED;

    ghost CONSTRAINTS = { unconstrained };

    const CONSTRAINTS: Constraints = Constraints::NONE;

    ghost shape = { leaf (enumerated colours) (in_universal 10) unconstrained };

    ghost tree = { λ colour. number (colour_number colour) };

    ghost own = { refl };
}

impl Enumerated for Colour {
    ghost use Rattle.std.specs.Prelude.{refl};
    ghost use Rattle.rasn_types.specs.OwnEnumerated.{all_listed, all_distinct};
    ghost use Rattle.rasn_examples.specs.contracts.colour.Colour.{enum as colour_enum};
    ghost use Rattle.rasn_examples.specs.Colour.{colours, colour_number};

    ghost known = { colours };

    ghost number = { colour_number };

    ghost listed = { all_listed colour_enum colour_number colours refl };

    ghost distinct = { all_distinct colour_enum colour_number refl };

    ghost fits = { refl };

    fn discriminant(&self) -> isize {
        match self {
            Colour::Red => 0,
            Colour::Green => 1,
            Colour::Blue => 2,
        }
    }

    fn from_discriminant(discriminant: isize) -> Option<Colour> {
        match discriminant {
            0 => Some(Colour::Red),
            1 => Some(Colour::Green),
            2 => Some(Colour::Blue),
            _ => None,
        }
    }
}

impl LawfulEq for Colour {
    ghost use Rattle.std.specs.Prelude.{refl};
    ghost use Rattle.rasn_types.specs.OwnEnumerated.{all_decided};
    ghost use Rattle.rasn_examples.specs.contracts.colour.Colour.{enum as colour_enum};
    ghost use Rattle.rasn_examples.specs.Colour.{colour_number};

    ghost decides = { all_decided colour_enum colour_number refl };
}

impl Present for Colour {
    ghost use Rattle.rasn_types.specs.Equality.{number_not_absent};
    ghost use Rattle.rasn_examples.specs.Colour.{colour_number};

    ghost present = { λ colour. number_not_absent (colour_number colour) };
}

impl Decode for Colour {
    ghost use Rattle.rasn_de.specs.Leaves.{FailsAs};
    ghost use Rattle.rasn_de.specs.Enumerated.{EnumeratedAt};

    ghost errors = { λ tag _ old. FailsAs (EnumeratedAt ⟦<Colour as Enumerated>⟧.known old.rule tag old.rest) old };

    #[tactic(auto, unfolding(rasn_types::specs::Grammar::Reads))]
    fn decode_with_tag_and_constraints(
        decoder: &mut Decoder<'_>,
        tag: Tag,
        _constraints: &Constraints,
    ) -> Result<Colour, DecodeError> {
        decoder.decode_enumerated(tag)
    }
}

impl Encode for Colour {
    fn encode_with_tag_and_constraints(
        &self,
        encoder: &mut Encoder,
        tag: Tag,
        _constraints: &Constraints,
        identifier: Identifier,
    ) -> Result<(), EncodeError> {
        encoder.encode_enumerated(tag, self, identifier)
    }

    fn is_present(&self) -> bool {
        true
    }
}
