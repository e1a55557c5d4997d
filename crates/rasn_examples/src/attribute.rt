//! `AttributeTypeAndValue ::= SEQUENCE { type OBJECT IDENTIFIER, value ANY DEFINED BY type }`
//! (RFC 5280, 4.1.2.4).
use rasn::error::{DecodeError, EncodeError};
use rasn::parts::{DecodeParts, End, Put, Required};
use rasn::types::{
    Any, AsnType, Constraints, Identifier, LawfulEq, ObjectIdentifier, Present, Tag,
};
use rasn::{Decode, Decoder, Encode, Encoder};

/// SEQUENCE { type OBJECT IDENTIFIER, value ANY DEFINED BY type }
#[derive(Debug, PartialEq, Eq, Drop)]
pub struct AttributeTypeAndValue {
    /// The type of the attribute. It is named `kind` since `type` is a keyword of Rust.
    pub kind: ObjectIdentifier,
    /// The value, as an open type.
    pub value: Any,
}

impl AsnType for AttributeTypeAndValue {
    ghost use Rattle.std.specs.Prelude.{refl};
    ghost use Rattle.rasn_types.specs.Tags.{in_universal};
    ghost use Rattle.rasn_types.specs.Trees.{unconstrained};
    ghost use Rattle.rasn_examples.specs.Attribute.{attribute_shape, attribute_tree};

    ghost TAG = { in_universal 16 };

    const TAG: Tag = Tag::SEQUENCE;

    ghost CONSTRAINTS = { unconstrained };

    const CONSTRAINTS: Constraints = Constraints::NONE;

    ghost shape = { attribute_shape };

    ghost tree = { attribute_tree };

    ghost own = { refl };
}

impl LawfulEq for AttributeTypeAndValue {
    ghost use Rattle.rasn_types.specs.Deciding.{deciding};

    ghost decides = { Prim.search deciding depth 64 };
}

impl Present for AttributeTypeAndValue {
    ghost use Rattle.rasn_types.specs.Equality.{parts_not_absent};

    ghost present = { λ _. parts_not_absent };
}

/// The components, as they are read.
type Parts = Required<ObjectIdentifier, Required<Any, End>>;

impl Decode for AttributeTypeAndValue {
    ghost use Rattle.rasn_de.specs.PartTypes.{DecodesSequenceParts};
    ghost use Rattle.rasn_de.specs.ValueErrors.{errors_of};

    ghost errors = { λ tag _. errors_of (DecodesSequenceParts ⟦<Parts as DecodeParts>⟧.parts ⟦<Parts as DecodeParts>⟧.tree ⟦<Parts as DecodeParts>⟧.errors tag) };

    fn decode_with_tag_and_constraints(
        decoder: &mut Decoder<'_>,
        tag: Tag,
        _constraints: &Constraints,
    ) -> Result<AttributeTypeAndValue, DecodeError> {
        let parts = match decoder.read_sequence::<Parts>(tag) {
            Ok(parts) => parts,
            Err(error) => return Err(error),
        };
        let Required(kind, Required(value, End)) = parts;
        Ok(AttributeTypeAndValue { kind, value })
    }
}

impl Encode for AttributeTypeAndValue {
    fn encode_with_tag_and_constraints(
        &self,
        encoder: &mut Encoder,
        tag: Tag,
        _constraints: &Constraints,
        _identifier: Identifier,
    ) -> Result<(), EncodeError> {
        encoder.write_sequence(tag, Put(&self.kind, Put(&self.value, End)))
    }

    fn is_present(&self) -> bool {
        true
    }
}
