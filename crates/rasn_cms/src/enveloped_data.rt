// Written by `soqavise generate` from the ASN.1 of CmsMessages, CMS: change that, and write it
// again.
//! `EnvelopedData ::= SEQUENCE`
use crate::{
    CmsVersion, EncryptedContentInfo, EnvelopedDataUnprotectedAttrs, OriginatorInfo, RecipientInfos,
};
use rasn::prelude::*;

/// `EnvelopedData ::= SEQUENCE`
#[derive(Debug, PartialEq, Eq, Drop)]
pub struct EnvelopedData {
    /// `version CMSVersion`
    pub version: CmsVersion,
    /// `originatorInfo [0] IMPLICIT OriginatorInfo OPTIONAL`
    pub originator_info: Option<Implicit<ContextTag<0>, OriginatorInfo>>,
    /// `recipientInfos RecipientInfos`
    pub recipient_infos: RecipientInfos,
    /// `encryptedContentInfo EncryptedContentInfo`
    pub encrypted_content_info: EncryptedContentInfo,
    /// `unprotectedAttrs EnvelopedData-unprotectedAttrs OPTIONAL`
    pub unprotected_attrs: Option<EnvelopedDataUnprotectedAttrs>,
}

/// The components, as they are read.
type Parts = Required<CmsVersion, Parts1>;

type Parts1 = Optional<Implicit<ContextTag<0>, OriginatorInfo>, Parts2>;

type Parts2 = Required<RecipientInfos, Parts3>;

type Parts3 = Required<EncryptedContentInfo, Parts4>;

type Parts4 = Optional<EnvelopedDataUnprotectedAttrs, End>;

impl AsnType for EnvelopedData {
    ghost use Rattle.std.specs.Prelude.{refl};
    ghost use Rattle.rasn_types.specs.Tags.{in_universal};
    ghost use Rattle.rasn_types.specs.Shapes.{seq};
    ghost use Rattle.rasn_types.specs.Trees.{unconstrained};

    ghost TAG = { in_universal 16 };

    const TAG: Tag = Tag::SEQUENCE;

    ghost CONSTRAINTS = { unconstrained };

    const CONSTRAINTS: Constraints = Constraints::NONE;

    ghost shape = { seq (in_universal 16) ⟦<Parts as DecodeParts>⟧.parts };

    ghost tree = { λ a. ⟦<Parts as DecodeParts>⟧.tree (record { 0 = a.version; 1 = record { 0 = a.originator_info; 1 = record { 0 = a.recipient_infos; 1 = record { 0 = a.encrypted_content_info; 1 = record { 0 = a.unprotected_attrs; 1 = record {} } } } } }) };

    ghost own = { refl };
}

impl LawfulEq for EnvelopedData {
    ghost use Rattle.rasn_types.specs.Deciding.{deciding};
    ghost use Rattle.rasn_cms.specs.contracts.encrypted_content_info.EncryptedContentInfoLawfulEq.TheImpl.Laws.{decides-law as encrypted_content_info_law};
    ghost use Rattle.rasn_cms.specs.contracts.enveloped_data_unprotected_attrs.EnvelopedDataUnprotectedAttrsLawfulEq.TheImpl.Laws.{decides-law as enveloped_data_unprotected_attrs_law};
    ghost use Rattle.rasn_cms.specs.contracts.enveloped_data_unprotected_attrs.EnvelopedDataUnprotectedAttrsPresent.TheImpl.Laws.{present-law as enveloped_data_unprotected_attrs_present};
    ghost use Rattle.rasn_cms.specs.contracts.originator_info.OriginatorInfoLawfulEq.TheImpl.Laws.{decides-law as originator_info_law};
    ghost use Rattle.rasn_cms.specs.contracts.originator_info.OriginatorInfoPresent.TheImpl.Laws.{present-law as originator_info_present};
    ghost use Rattle.rasn_cms.specs.contracts.recipient_infos.RecipientInfosLawfulEq.TheImpl.Laws.{decides-law as recipient_infos_law};

    ghost decides = { Prim.search (encrypted_content_info_law, enveloped_data_unprotected_attrs_law, enveloped_data_unprotected_attrs_present, originator_info_law, originator_info_present, recipient_infos_law, deciding) depth 64 };
}

impl Present for EnvelopedData {
    ghost use Rattle.rasn_types.specs.Equality.{parts_not_absent};

    ghost present = { λ _. parts_not_absent };
}

impl Decode for EnvelopedData {
    ghost use Rattle.std.specs.Prelude.{IfOk};
    ghost use Rattle.rasn_de.specs.Beyond.{BeyondInside};
    ghost use Rattle.rasn_de.specs.Constructed.{sequence_header};

    ghost beyond = { λ tag old result _. IfOk result (λ a. BeyondInside ⟦<Parts as DecodeParts>⟧.beyond (sequence_header tag) old (record { 0 = a.version; 1 = record { 0 = a.originator_info; 1 = record { 0 = a.recipient_infos; 1 = record { 0 = a.encrypted_content_info; 1 = record { 0 = a.unprotected_attrs; 1 = record {} } } } } })) };

    ghost use Rattle.rasn_de.specs.PartTypes.{DecodesSequenceParts};
    ghost use Rattle.rasn_de.specs.ValueErrors.{errors_of};

    ghost errors = { λ tag _. errors_of (DecodesSequenceParts ⟦<Parts as DecodeParts>⟧.parts ⟦<Parts as DecodeParts>⟧.tree ⟦<Parts as DecodeParts>⟧.errors tag) };

    fn decode_with_tag_and_constraints(
        decoder: &mut Decoder<'_>,
        tag: Tag,
        _constraints: &Constraints,
    ) -> Result<EnvelopedData, DecodeError> {
        let parts = match decoder.read_sequence::<Parts>(tag) {
            Ok(parts) => parts,
            Err(error) => return Err(error),
        };
        let Required(version, rest) = parts;
        let Optional(originator_info, rest) = rest;
        let Required(recipient_infos, rest) = rest;
        let Required(encrypted_content_info, rest) = rest;
        let Optional(unprotected_attrs, End) = rest;
        Ok(EnvelopedData {
            version,
            originator_info,
            recipient_infos,
            encrypted_content_info,
            unprotected_attrs,
        })
    }
}

impl Encode for EnvelopedData {
    fn encode_with_tag_and_constraints(
        &self,
        encoder: &mut Encoder,
        tag: Tag,
        _constraints: &Constraints,
        _identifier: Identifier,
    ) -> Result<(), EncodeError> {
        let rest = PutOptional(&self.unprotected_attrs, End);
        let rest = Put(&self.encrypted_content_info, rest);
        let rest = Put(&self.recipient_infos, rest);
        let rest = PutOptional(&self.originator_info, rest);
        encoder.write_sequence(tag, Put(&self.version, rest))
    }

    fn is_present(&self) -> bool {
        true
    }
}
