// Written by `soqavise generate` from the ASN.1 of CmsMessages, CMS: change that, and write it
// again.
//! `EncapsulatedContentInfo ::= SEQUENCE`
use crate::ContentType;
use rasn::prelude::*;

/// `EncapsulatedContentInfo ::= SEQUENCE`
#[derive(Debug, PartialEq, Eq, Drop)]
pub struct EncapsulatedContentInfo {
    /// `eContentType ContentType`
    pub e_content_type: ContentType,
    /// `eContent [0] EXPLICIT OCTET STRING OPTIONAL`
    pub e_content: Option<Explicit<ContextTag<0>, OctetString>>,
}

/// The components, as they are read.
type Parts = Required<ContentType, Parts1>;

type Parts1 = Optional<Explicit<ContextTag<0>, OctetString>, End>;

impl AsnType for EncapsulatedContentInfo {
    ghost use Rattle.std.specs.Prelude.{refl};
    ghost use Rattle.rasn_types.specs.Tags.{in_universal};
    ghost use Rattle.rasn_types.specs.Shapes.{seq};
    ghost use Rattle.rasn_types.specs.Trees.{unconstrained};

    ghost TAG = { in_universal 16 };

    const TAG: Tag = Tag::SEQUENCE;

    ghost CONSTRAINTS = { unconstrained };

    const CONSTRAINTS: Constraints = Constraints::NONE;

    ghost shape = { seq (in_universal 16) ⟦<Parts as DecodeParts>⟧.parts };

    ghost tree = { λ a. ⟦<Parts as DecodeParts>⟧.tree (record { 0 = a.e_content_type; 1 = record { 0 = a.e_content; 1 = record {} } }) };

    ghost own = { refl };
}

impl LawfulEq for EncapsulatedContentInfo {
    ghost use Rattle.rasn_types.specs.Deciding.{deciding};

    ghost decides = { Prim.search deciding depth 64 };
}

impl Present for EncapsulatedContentInfo {
    ghost use Rattle.rasn_types.specs.Equality.{parts_not_absent};

    ghost present = { λ _. parts_not_absent };
}

impl Decode for EncapsulatedContentInfo {
    ghost use Rattle.rasn_de.specs.PartTypes.{DecodesSequenceParts};
    ghost use Rattle.rasn_de.specs.ValueErrors.{errors_of};

    ghost errors = { λ tag _. errors_of (DecodesSequenceParts ⟦<Parts as DecodeParts>⟧.parts ⟦<Parts as DecodeParts>⟧.tree ⟦<Parts as DecodeParts>⟧.errors tag) };

    fn decode_with_tag_and_constraints(
        decoder: &mut Decoder<'_>,
        tag: Tag,
        _constraints: &Constraints,
    ) -> Result<EncapsulatedContentInfo, DecodeError> {
        let parts = match decoder.read_sequence::<Parts>(tag) {
            Ok(parts) => parts,
            Err(error) => return Err(error),
        };
        let Required(e_content_type, rest) = parts;
        let Optional(e_content, End) = rest;
        Ok(EncapsulatedContentInfo {
            e_content_type,
            e_content,
        })
    }
}

impl Encode for EncapsulatedContentInfo {
    fn encode_with_tag_and_constraints(
        &self,
        encoder: &mut Encoder,
        tag: Tag,
        _constraints: &Constraints,
        _identifier: Identifier,
    ) -> Result<(), EncodeError> {
        let rest = PutOptional(&self.e_content, End);
        encoder.write_sequence(tag, Put(&self.e_content_type, rest))
    }

    fn is_present(&self) -> bool {
        true
    }
}
