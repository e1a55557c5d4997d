// Written by `soqavise generate` from the ASN.1 of CmsMessages, CMS: change that, and write it
// again.
//! `EncryptedData ::= SEQUENCE`
use crate::{CmsVersion, EncryptedContentInfo, EncryptedDataUnprotectedAttrs};
use rasn::prelude::*;

/// `EncryptedData ::= SEQUENCE`
#[derive(Debug, PartialEq, Eq, Drop)]
pub struct EncryptedData {
    /// `version CMSVersion`
    pub version: CmsVersion,
    /// `encryptedContentInfo EncryptedContentInfo`
    pub encrypted_content_info: EncryptedContentInfo,
    /// `unprotectedAttrs EncryptedData-unprotectedAttrs OPTIONAL`
    pub unprotected_attrs: Option<EncryptedDataUnprotectedAttrs>,
}

/// The components, as they are read.
type Parts = Required<CmsVersion, Parts1>;

type Parts1 = Required<EncryptedContentInfo, Parts2>;

type Parts2 = Optional<EncryptedDataUnprotectedAttrs, End>;

impl AsnType for EncryptedData {
    ghost use Rattle.std.specs.Prelude.{refl};
    ghost use Rattle.rasn_types.specs.Tags.{in_universal};
    ghost use Rattle.rasn_types.specs.Shapes.{seq};
    ghost use Rattle.rasn_types.specs.Trees.{unconstrained};

    ghost TAG = { in_universal 16 };

    const TAG: Tag = Tag::SEQUENCE;

    ghost CONSTRAINTS = { unconstrained };

    const CONSTRAINTS: Constraints = Constraints::NONE;

    ghost shape = { seq (in_universal 16) ⟦<Parts as DecodeParts>⟧.parts };

    ghost tree = { λ a. ⟦<Parts as DecodeParts>⟧.tree (record { 0 = a.version; 1 = record { 0 = a.encrypted_content_info; 1 = record { 0 = a.unprotected_attrs; 1 = record {} } } }) };

    ghost own = { refl };
}

impl LawfulEq for EncryptedData {
    ghost use Rattle.rasn_types.specs.Deciding.{deciding};
    ghost use Rattle.rasn_cms.specs.contracts.encrypted_content_info.EncryptedContentInfoLawfulEq.TheImpl.Laws.{decides-law as encrypted_content_info_law};
    ghost use Rattle.rasn_cms.specs.contracts.encrypted_data_unprotected_attrs.EncryptedDataUnprotectedAttrsLawfulEq.TheImpl.Laws.{decides-law as encrypted_data_unprotected_attrs_law};
    ghost use Rattle.rasn_cms.specs.contracts.encrypted_data_unprotected_attrs.EncryptedDataUnprotectedAttrsPresent.TheImpl.Laws.{present-law as encrypted_data_unprotected_attrs_present};

    ghost decides = { Prim.search (encrypted_content_info_law, encrypted_data_unprotected_attrs_law, encrypted_data_unprotected_attrs_present, deciding) depth 64 };
}

impl Present for EncryptedData {
    ghost use Rattle.rasn_types.specs.Equality.{parts_not_absent};

    ghost present = { λ _. parts_not_absent };
}

impl Decode for EncryptedData {
    ghost use Rattle.rasn_de.specs.PartTypes.{DecodesSequenceParts};
    ghost use Rattle.rasn_de.specs.ValueErrors.{errors_of};

    ghost errors = { λ tag _. errors_of (DecodesSequenceParts ⟦<Parts as DecodeParts>⟧.parts ⟦<Parts as DecodeParts>⟧.tree ⟦<Parts as DecodeParts>⟧.errors tag) };

    fn decode_with_tag_and_constraints(
        decoder: &mut Decoder<'_>,
        tag: Tag,
        _constraints: &Constraints,
    ) -> Result<EncryptedData, DecodeError> {
        let parts = match decoder.read_sequence::<Parts>(tag) {
            Ok(parts) => parts,
            Err(error) => return Err(error),
        };
        let Required(version, rest) = parts;
        let Required(encrypted_content_info, rest) = rest;
        let Optional(unprotected_attrs, End) = rest;
        Ok(EncryptedData {
            version,
            encrypted_content_info,
            unprotected_attrs,
        })
    }
}

impl Encode for EncryptedData {
    fn encode_with_tag_and_constraints(
        &self,
        encoder: &mut Encoder,
        tag: Tag,
        _constraints: &Constraints,
        _identifier: Identifier,
    ) -> Result<(), EncodeError> {
        let rest = PutOptional(&self.unprotected_attrs, End);
        let rest = Put(&self.encrypted_content_info, rest);
        encoder.write_sequence(tag, Put(&self.version, rest))
    }

    fn is_present(&self) -> bool {
        true
    }
}
