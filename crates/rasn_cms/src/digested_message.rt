// Written by `soqavise generate` from the ASN.1 of CmsMessages, CMS: change that, and write it
// again.
//! `DigestedMessage ::= SEQUENCE`
use crate::{ContentType, DigestedData};
use rasn::prelude::*;

/// `DigestedMessage ::= SEQUENCE`
#[derive(Debug, PartialEq, Eq, Drop)]
pub struct DigestedMessage {
    /// `contentType ContentType`
    pub content_type: ContentType,
    /// `content [0] EXPLICIT DigestedData`
    pub content: Explicit<ContextTag<0>, DigestedData>,
}

/// The components, as they are read.
type Parts = Required<ContentType, Parts1>;

type Parts1 = Required<Explicit<ContextTag<0>, DigestedData>, End>;

impl AsnType for DigestedMessage {
    ghost use Rattle.std.specs.Prelude.{refl};
    ghost use Rattle.rasn_types.specs.Tags.{in_universal};
    ghost use Rattle.rasn_types.specs.Shapes.{seq};
    ghost use Rattle.rasn_types.specs.Trees.{unconstrained};

    ghost TAG = { in_universal 16 };

    const TAG: Tag = Tag::SEQUENCE;

    ghost CONSTRAINTS = { unconstrained };

    const CONSTRAINTS: Constraints = Constraints::NONE;

    ghost shape = { seq (in_universal 16) ⟦<Parts as DecodeParts>⟧.parts };

    ghost tree = { λ a. ⟦<Parts as DecodeParts>⟧.tree (record { 0 = a.content_type; 1 = record { 0 = a.content; 1 = record {} } }) };

    ghost own = { refl };
}

impl LawfulEq for DigestedMessage {
    ghost use Rattle.rasn_types.specs.Deciding.{deciding};
    ghost use Rattle.rasn_cms.specs.contracts.digested_data.DigestedDataLawfulEq.TheImpl.Laws.{decides-law as digested_data_law};

    ghost decides = { Prim.search (digested_data_law, deciding) depth 64 };
}

impl Present for DigestedMessage {
    ghost use Rattle.rasn_types.specs.Equality.{parts_not_absent};

    ghost present = { λ _. parts_not_absent };
}

impl Decode for DigestedMessage {
    ghost use Rattle.rasn_de.specs.PartTypes.{DecodesSequenceParts};
    ghost use Rattle.rasn_de.specs.ValueErrors.{errors_of};

    ghost errors = { λ tag _. errors_of (DecodesSequenceParts ⟦<Parts as DecodeParts>⟧.parts ⟦<Parts as DecodeParts>⟧.tree ⟦<Parts as DecodeParts>⟧.errors tag) };

    fn decode_with_tag_and_constraints(
        decoder: &mut Decoder<'_>,
        tag: Tag,
        _constraints: &Constraints,
    ) -> Result<DigestedMessage, DecodeError> {
        let parts = match decoder.read_sequence::<Parts>(tag) {
            Ok(parts) => parts,
            Err(error) => return Err(error),
        };
        let Required(content_type, rest) = parts;
        let Required(content, End) = rest;
        Ok(DigestedMessage {
            content_type,
            content,
        })
    }
}

impl Encode for DigestedMessage {
    fn encode_with_tag_and_constraints(
        &self,
        encoder: &mut Encoder,
        tag: Tag,
        _constraints: &Constraints,
        _identifier: Identifier,
    ) -> Result<(), EncodeError> {
        let rest = Put(&self.content, End);
        encoder.write_sequence(tag, Put(&self.content_type, rest))
    }

    fn is_present(&self) -> bool {
        true
    }
}

impl WholeMessage for DigestedMessage {
    ghost use Rattle.std.specs.Prelude.{refl};
    ghost use Rattle.rasn_types.specs.declared.types.codec.Codec.TheVariants.{Ber};

    ghost RULES = { Ber };

    const RULES: Codec = Codec::Ber;

    ghost whole = { refl };
}
