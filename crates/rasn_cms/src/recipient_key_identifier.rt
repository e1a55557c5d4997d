// Written by `soqavise generate` from the ASN.1 of CmsMessages, CMS: change that, and write it
// again.
//! `RecipientKeyIdentifier ::= SEQUENCE`
use crate::{KeyIdentifier, OtherKeyAttribute};
use rasn::prelude::*;

/// `RecipientKeyIdentifier ::= SEQUENCE`
#[derive(Debug, PartialEq, Eq, Drop)]
pub struct RecipientKeyIdentifier {
    /// `subjectKeyIdentifier KeyIdentifier`
    pub subject_key_identifier: KeyIdentifier,
    /// `date GeneralizedTime OPTIONAL`
    pub date: Option<GeneralizedTime>,
    /// `other OtherKeyAttribute OPTIONAL`
    pub other: Option<OtherKeyAttribute>,
}

/// The components, as they are read.
type Parts = Required<KeyIdentifier, Parts1>;

type Parts1 = Optional<GeneralizedTime, Parts2>;

type Parts2 = Optional<OtherKeyAttribute, End>;

impl AsnType for RecipientKeyIdentifier {
    ghost use Rattle.std.specs.Prelude.{refl};
    ghost use Rattle.rasn_types.specs.Tags.{in_universal};
    ghost use Rattle.rasn_types.specs.Shapes.{seq};
    ghost use Rattle.rasn_types.specs.Trees.{unconstrained};

    ghost TAG = { in_universal 16 };

    const TAG: Tag = Tag::SEQUENCE;

    ghost CONSTRAINTS = { unconstrained };

    const CONSTRAINTS: Constraints = Constraints::NONE;

    ghost shape = { seq (in_universal 16) ⟦<Parts as DecodeParts>⟧.parts };

    ghost tree = { λ a. ⟦<Parts as DecodeParts>⟧.tree (record { 0 = a.subject_key_identifier; 1 = record { 0 = a.date; 1 = record { 0 = a.other; 1 = record {} } } }) };

    ghost own = { refl };
}

impl LawfulEq for RecipientKeyIdentifier {
    ghost use Rattle.rasn_types.specs.Deciding.{deciding};
    ghost use Rattle.rasn_cms.specs.contracts.other_key_attribute.OtherKeyAttributeLawfulEq.TheImpl.Laws.{decides-law as other_key_attribute_law};
    ghost use Rattle.rasn_cms.specs.contracts.other_key_attribute.OtherKeyAttributePresent.TheImpl.Laws.{present-law as other_key_attribute_present};

    ghost decides = { Prim.search (other_key_attribute_law, other_key_attribute_present, deciding) depth 64 };
}

impl Present for RecipientKeyIdentifier {
    ghost use Rattle.rasn_types.specs.Equality.{parts_not_absent};

    ghost present = { λ _. parts_not_absent };
}

impl Decode for RecipientKeyIdentifier {
    ghost use Rattle.std.specs.Prelude.{IfOk};
    ghost use Rattle.rasn_de.specs.Beyond.{BeyondInside};
    ghost use Rattle.rasn_de.specs.Constructed.{sequence_header};

    ghost beyond = { λ tag old result _. IfOk result (λ a. BeyondInside ⟦<Parts as DecodeParts>⟧.beyond (sequence_header tag) old (record { 0 = a.subject_key_identifier; 1 = record { 0 = a.date; 1 = record { 0 = a.other; 1 = record {} } } })) };

    ghost use Rattle.rasn_de.specs.PartTypes.{DecodesSequenceParts};
    ghost use Rattle.rasn_de.specs.ValueErrors.{errors_of};

    ghost errors = { λ tag _. errors_of (DecodesSequenceParts ⟦<Parts as DecodeParts>⟧.parts ⟦<Parts as DecodeParts>⟧.tree ⟦<Parts as DecodeParts>⟧.errors tag) };

    fn decode_with_tag_and_constraints(
        decoder: &mut Decoder<'_>,
        tag: Tag,
        _constraints: &Constraints,
    ) -> Result<RecipientKeyIdentifier, DecodeError> {
        let parts = match decoder.read_sequence::<Parts>(tag) {
            Ok(parts) => parts,
            Err(error) => return Err(error),
        };
        let Required(subject_key_identifier, rest) = parts;
        let Optional(date, rest) = rest;
        let Optional(other, End) = rest;
        Ok(RecipientKeyIdentifier {
            subject_key_identifier,
            date,
            other,
        })
    }
}

impl Encode for RecipientKeyIdentifier {
    fn encode_with_tag_and_constraints(
        &self,
        encoder: &mut Encoder,
        tag: Tag,
        _constraints: &Constraints,
        _identifier: Identifier,
    ) -> Result<(), EncodeError> {
        let rest = PutOptional(&self.other, End);
        let rest = PutOptional(&self.date, rest);
        encoder.write_sequence(tag, Put(&self.subject_key_identifier, rest))
    }

    fn is_present(&self) -> bool {
        true
    }
}
