//! `Setting ::= SEQUENCE { truth BOOLEAN, level INTEGER (0..255) DEFAULT 7 }`

use rasn::error::{DecodeError, EncodeError};
use rasn::parts::{DecodeParts, DefaultValue, Defaulted, End, Put, PutDefault, Required};
use rasn::types::{AsnType, Constraints, Identifier, LawfulEq, Present, Tag};
use rasn::{Decode, Decoder, Encode, Encoder};
use std::alloc::{AllocError, Global};

/// SEQUENCE { truth BOOLEAN, level INTEGER (0..255) DEFAULT 7 }
#[derive(Debug, PartialEq, Eq, Drop)]
pub struct Setting {
    pub truth: bool,
    pub level: u8,
}

impl AsnType for Setting {
    ghost use Rattle.std.specs.Prelude.{refl};
    ghost use Rattle.rasn_types.specs.Tags.{in_universal};
    ghost use Rattle.rasn_types.specs.Trees.{unconstrained};
    ghost use Rattle.rasn_examples.specs.Setting.{setting_shape, setting_tree};

    ghost TAG = { in_universal 16 };

    const TAG: Tag = Tag::SEQUENCE;

    ghost CONSTRAINTS = { unconstrained };

    const CONSTRAINTS: Constraints = Constraints::NONE;

    ghost shape = { setting_shape };

    ghost tree = { setting_tree };

    ghost own = { refl };
}

impl LawfulEq for Setting {
    ghost use Rattle.rasn_types.specs.Deciding.{deciding};

    ghost decides = { Prim.search deciding depth 64 };
}

impl Present for Setting {
    ghost use Rattle.rasn_types.specs.Equality.{parts_not_absent};

    ghost present = { λ _. parts_not_absent };
}

/// The default level.
#[derive(Drop)]
pub struct Seven;

impl DefaultValue for Seven {
    ghost use Rattle.std.specs.Prelude.{pos};
    ghost use Rattle.rasn_types.specs.Shapes.{number};

    type Value = u8;

    ghost default_tree = { number (pos 7) };

    fn default_value(_alloc: Global) -> Result<u8, AllocError> {
        Ok(7)
    }
}

/// The components, as they are read.
type Parts = Required<bool, Defaulted<Seven, End>>;

impl Decode for Setting {
    ghost use Rattle.rasn_de.specs.PartTypes.{DecodesSequenceParts};
    ghost use Rattle.rasn_de.specs.ValueErrors.{errors_of};

    ghost errors = { λ tag _. errors_of (DecodesSequenceParts ⟦<Parts as DecodeParts>⟧.parts ⟦<Parts as DecodeParts>⟧.tree ⟦<Parts as DecodeParts>⟧.errors tag) };

    fn decode_with_tag_and_constraints(
        decoder: &mut Decoder<'_>,
        tag: Tag,
        _constraints: &Constraints,
    ) -> Result<Setting, DecodeError> {
        let parts = match decoder.read_sequence::<Parts>(tag) {
            Ok(parts) => parts,
            Err(error) => return Err(error),
        };
        let Required(truth, Defaulted::<Seven, _>(level, End)) = parts;
        Ok(Setting { truth, level })
    }
}

impl Encode for Setting {
    fn encode_with_tag_and_constraints(
        &self,
        encoder: &mut Encoder,
        tag: Tag,
        _constraints: &Constraints,
        _identifier: Identifier,
    ) -> Result<(), EncodeError> {
        encoder.write_sequence(
            tag,
            Put(&self.truth, PutDefault::<Seven, _>(&self.level, End)),
        )
    }

    fn is_present(&self) -> bool {
        true
    }
}
