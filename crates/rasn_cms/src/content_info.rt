// Written by `soqavise generate` from the ASN.1 of CmsMessages, CMS: change that, and write it
// again.
//! `ContentInfo ::= SEQUENCE`
use crate::ContentType;
use rasn::prelude::*;

/// `ContentInfo ::= SEQUENCE`
#[derive(Debug, PartialEq, Eq, Drop)]
pub struct ContentInfo {
    /// `contentType ContentType`
    pub content_type: ContentType,
    /// `content [0] EXPLICIT ANY`
    pub content: Explicit<ContextTag<0>, Any>,
}

/// The components, as they are read.
type Parts = Required<ContentType, Parts1>;

type Parts1 = Required<Explicit<ContextTag<0>, Any>, End>;

impl AsnType for ContentInfo {
    ghost use Rattle.std.specs.Prelude.{refl};
    ghost use Rattle.rasn_types.specs.Tags.{in_universal};
    ghost use Rattle.rasn_types.specs.Shapes.{seq};
    ghost use Rattle.rasn_types.specs.Trees.{unconstrained};

    ghost TAG = { in_universal 16 };

    const TAG: Tag = Tag::SEQUENCE;

    ghost CONSTRAINTS = { unconstrained };

    const CONSTRAINTS: Constraints = Constraints::NONE;

    ghost shape = { seq (in_universal 16) ⟦<Parts as DecodeParts>⟧.parts };

    ghost tree = { λ a. ⟦<Parts as DecodeParts>⟧.tree (record { 0 = a.content_type; 1 = record { 0 = a.content; 1 = record {} } }) };

    ghost own = { refl };
}

impl LawfulEq for ContentInfo {
    ghost use Rattle.rasn_types.specs.Deciding.{deciding};

    ghost decides = { Prim.search deciding depth 64 };
}

impl Present for ContentInfo {
    ghost use Rattle.rasn_types.specs.Equality.{parts_not_absent};

    ghost present = { λ _. parts_not_absent };
}

impl Decode for ContentInfo {
    ghost use Rattle.rasn_de.specs.PartTypes.{DecodesSequenceParts};
    ghost use Rattle.rasn_de.specs.ValueErrors.{errors_of};

    ghost errors = { λ tag _. errors_of (DecodesSequenceParts ⟦<Parts as DecodeParts>⟧.parts ⟦<Parts as DecodeParts>⟧.tree ⟦<Parts as DecodeParts>⟧.errors tag) };

    fn decode_with_tag_and_constraints(
        decoder: &mut Decoder<'_>,
        tag: Tag,
        _constraints: &Constraints,
    ) -> Result<ContentInfo, DecodeError> {
        let parts = match decoder.read_sequence::<Parts>(tag) {
            Ok(parts) => parts,
            Err(error) => return Err(error),
        };
        let Required(content_type, rest) = parts;
        let Required(content, End) = rest;
        Ok(ContentInfo {
            content_type,
            content,
        })
    }
}

impl Encode for ContentInfo {
    fn encode_with_tag_and_constraints(
        &self,
        encoder: &mut Encoder,
        tag: Tag,
        _constraints: &Constraints,
        _identifier: Identifier,
    ) -> Result<(), EncodeError> {
        let rest = Put(&self.content, End);
        encoder.write_sequence(tag, Put(&self.content_type, rest))
    }

    fn is_present(&self) -> bool {
        true
    }
}

impl WholeMessage for ContentInfo {
    ghost use Rattle.std.specs.Prelude.{refl};
    ghost use Rattle.rasn_types.specs.declared.types.codec.Codec.TheVariants.{Ber};

    ghost RULES = { Ber };

    const RULES: Codec = Codec::Ber;

    ghost whole = { refl };
}
