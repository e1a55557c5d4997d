// Written by `soqavise generate` from the ASN.1 of CmsMessages, CMS: change that, and write it
// again.
//! `OtherKeyAttribute ::= SEQUENCE`
use rasn::prelude::*;

/// `OtherKeyAttribute ::= SEQUENCE`
#[derive(Debug, PartialEq, Eq, Drop)]
pub struct OtherKeyAttribute {
    /// `keyAttrId OBJECT IDENTIFIER`
    pub key_attr_id: ObjectIdentifier,
    /// `keyAttr ANY OPTIONAL`
    pub key_attr: Option<Any>,
}

/// The components, as they are read.
type Parts = Required<ObjectIdentifier, Parts1>;

type Parts1 = Optional<Any, End>;

impl AsnType for OtherKeyAttribute {
    ghost use Rattle.std.specs.Prelude.{refl};
    ghost use Rattle.rasn_types.specs.Tags.{in_universal};
    ghost use Rattle.rasn_types.specs.Shapes.{seq};
    ghost use Rattle.rasn_types.specs.Trees.{unconstrained};

    ghost TAG = { in_universal 16 };

    const TAG: Tag = Tag::SEQUENCE;

    ghost CONSTRAINTS = { unconstrained };

    const CONSTRAINTS: Constraints = Constraints::NONE;

    ghost shape = { seq (in_universal 16) ⟦<Parts as DecodeParts>⟧.parts };

    ghost tree = { λ a. ⟦<Parts as DecodeParts>⟧.tree (record { 0 = a.key_attr_id; 1 = record { 0 = a.key_attr; 1 = record {} } }) };

    ghost own = { refl };
}

impl LawfulEq for OtherKeyAttribute {
    ghost use Rattle.rasn_types.specs.Deciding.{deciding};

    ghost decides = { Prim.search deciding depth 64 };
}

impl Present for OtherKeyAttribute {
    ghost use Rattle.rasn_types.specs.Equality.{parts_not_absent};

    ghost present = { λ _. parts_not_absent };
}

impl Decode for OtherKeyAttribute {
    ghost use Rattle.rasn_de.specs.PartTypes.{DecodesSequenceParts};
    ghost use Rattle.rasn_de.specs.ValueErrors.{errors_of};

    ghost errors = { λ tag _. errors_of (DecodesSequenceParts ⟦<Parts as DecodeParts>⟧.parts ⟦<Parts as DecodeParts>⟧.tree ⟦<Parts as DecodeParts>⟧.errors tag) };

    fn decode_with_tag_and_constraints(
        decoder: &mut Decoder<'_>,
        tag: Tag,
        _constraints: &Constraints,
    ) -> Result<OtherKeyAttribute, DecodeError> {
        let parts = match decoder.read_sequence::<Parts>(tag) {
            Ok(parts) => parts,
            Err(error) => return Err(error),
        };
        let Required(key_attr_id, rest) = parts;
        let Optional(key_attr, End) = rest;
        Ok(OtherKeyAttribute {
            key_attr_id,
            key_attr,
        })
    }
}

impl Encode for OtherKeyAttribute {
    fn encode_with_tag_and_constraints(
        &self,
        encoder: &mut Encoder,
        tag: Tag,
        _constraints: &Constraints,
        _identifier: Identifier,
    ) -> Result<(), EncodeError> {
        let rest = PutOptional(&self.key_attr, End);
        encoder.write_sequence(tag, Put(&self.key_attr_id, rest))
    }

    fn is_present(&self) -> bool {
        true
    }
}
