//! A SEQUENCE whose defaults are allocated (X.680 25.8), modelled on RSASSA-PSS-params of RFC 8017,
//! A.2.3, for tests.

use rasn::error::{DecodeError, EncodeError};
use rasn::parts::{
    DefaultValue, Defaulted, DefaultedExplicit, End, ExplicitDefault, PutDefault,
    PutDefaultExplicit,
};
use rasn::types::{AsnType, Constraints, ContextTag, Identifier, Integer, ObjectIdentifier, Tag};
use rasn::{Decode, Decoder, Encode, Encoder};
use std::alloc::{AllocError, Global};

/// SEQUENCE { hash [0] EXPLICIT OBJECT IDENTIFIER DEFAULT { 1 3 14 3 2 26 }, saltLength INTEGER
/// DEFAULT 20 }
#[derive(Debug, Drop)]
pub struct Padding {
    pub hash: ObjectIdentifier,
    pub salt_length: Integer,
}

impl AsnType for Padding {
    ghost use Rattle.std.specs.Prelude.{refl, ◌∷◌, [], pos};
    ghost use Rattle.rasn_types.specs.declared.types.tag.Class.TheVariants.{Context};
    ghost use Rattle.rasn_types.specs.Shapes.{seq, part, default, leaf, prefix, integer, every, object_identifier, number, numbers, items};
    ghost use Rattle.rasn_types.specs.Shapes.Parts.{none};
    ghost use Rattle.rasn_types.specs.Tags.{in_universal};
    ghost use Rattle.rasn_types.specs.Trees.{unconstrained};

    ghost TAG = { in_universal 16 };

    const TAG: Tag = Tag::SEQUENCE;

    ghost CONSTRAINTS = { unconstrained };

    const CONSTRAINTS: Constraints = Constraints::NONE;

    ghost shape = { seq (in_universal 16)
        (part (default (numbers (1 ∷ 3 ∷ 14 ∷ 3 ∷ 2 ∷ 26 ∷ []))) (prefix (record { class = Context; value = 0 }) (leaf object_identifier (in_universal 6) unconstrained))
        (part (default (number (pos 20))) (leaf (integer every) (in_universal 2) unconstrained) none)) };

    ghost tree = { λ p. items (numbers p.hash ∷ number p.salt_length ∷ []) };

    ghost own = { refl };
}

/// The default hash: id-sha1 (RFC 8017, A.2.3).
#[derive(Drop)]
pub struct Sha1;

impl DefaultValue for Sha1 {
    ghost use Rattle.std.specs.Prelude.{◌∷◌, []};
    ghost use Rattle.rasn_types.specs.Shapes.{numbers};

    type Value = ObjectIdentifier;

    ghost default_tree = { numbers (1 ∷ 3 ∷ 14 ∷ 3 ∷ 2 ∷ 26 ∷ []) };

    fn default_value(alloc: Global) -> Result<ObjectIdentifier, AllocError> {
        let hash = ObjectIdentifier::from_arcs(alloc, &[1, 3, 14, 3, 2, 26])?;
        hash.ok_or(AllocError)
    }
}

impl ExplicitDefault for Sha1 {
    type Prefix = ContextTag<0>;
}

/// The default length.
#[derive(Drop)]
pub struct Twenty;

impl DefaultValue for Twenty {
    ghost use Rattle.std.specs.Prelude.{pos};
    ghost use Rattle.rasn_types.specs.Shapes.{number};

    type Value = Integer;

    ghost default_tree = { number (pos 20) };

    fn default_value(alloc: Global) -> Result<Integer, AllocError> {
        Integer::from_i128(alloc, 20)
    }
}

impl Decode for Padding {
    fn decode_with_tag_and_constraints(
        decoder: &mut Decoder<'_>,
        tag: Tag,
        _constraints: &Constraints,
    ) -> Result<Padding, DecodeError> {
        let DefaultedExplicit::<Sha1, _>(hash, Defaulted::<Twenty, _>(salt_length, End)) =
            decoder.read_sequence(tag)?;
        Ok(Padding { hash, salt_length })
    }
}

impl Encode for Padding {
    fn encode_with_tag_and_constraints(
        &self,
        encoder: &mut Encoder,
        tag: Tag,
        _constraints: &Constraints,
        _identifier: Identifier,
    ) -> Result<(), EncodeError> {
        let salt_length = PutDefault::<Twenty, _>(&self.salt_length, End);
        encoder.write_sequence(tag, PutDefaultExplicit::<Sha1, _>(&self.hash, salt_length))
    }

    fn is_present(&self) -> bool {
        true
    }
}
