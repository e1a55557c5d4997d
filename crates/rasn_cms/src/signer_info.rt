// Written by `soqavise generate` from the ASN.1 of CmsMessages, CMS: change that, and write it
// again.
//! `SignerInfo ::= SEQUENCE`
use crate::{
    CmsVersion, SignatureValue, SignerIdentifier, SignerInfoSignedAttrs, SignerInfoUnsignedAttrs,
};
use rasn::prelude::*;
use rasn_pkix::AlgorithmIdentifier;

/// `SignerInfo ::= SEQUENCE`
#[derive(Debug, PartialEq, Eq, Drop)]
pub struct SignerInfo {
    /// `version CMSVersion`
    pub version: CmsVersion,
    /// `sid SignerIdentifier`
    pub sid: SignerIdentifier,
    /// `digestAlgorithm AlgorithmIdentifier`
    pub digest_algorithm: AlgorithmIdentifier,
    /// `signedAttrs SignerInfo-signedAttrs OPTIONAL`
    pub signed_attrs: Option<SignerInfoSignedAttrs>,
    /// `signatureAlgorithm AlgorithmIdentifier`
    pub signature_algorithm: AlgorithmIdentifier,
    /// `signature SignatureValue`
    pub signature: SignatureValue,
    /// `unsignedAttrs SignerInfo-unsignedAttrs OPTIONAL`
    pub unsigned_attrs: Option<SignerInfoUnsignedAttrs>,
}

/// The components, as they are read.
type Parts = Required<CmsVersion, Parts1>;

type Parts1 = Required<SignerIdentifier, Parts2>;

type Parts2 = Required<AlgorithmIdentifier, Parts3>;

type Parts3 = Optional<SignerInfoSignedAttrs, Parts4>;

type Parts4 = Required<AlgorithmIdentifier, Parts5>;

type Parts5 = Required<SignatureValue, Parts6>;

type Parts6 = Optional<SignerInfoUnsignedAttrs, End>;

impl AsnType for SignerInfo {
    ghost use Rattle.std.specs.Prelude.{refl};
    ghost use Rattle.rasn_types.specs.Tags.{in_universal};
    ghost use Rattle.rasn_types.specs.Shapes.{seq};
    ghost use Rattle.rasn_types.specs.Trees.{unconstrained};

    ghost TAG = { in_universal 16 };

    const TAG: Tag = Tag::SEQUENCE;

    ghost CONSTRAINTS = { unconstrained };

    const CONSTRAINTS: Constraints = Constraints::NONE;

    ghost shape = { seq (in_universal 16) ⟦<Parts as DecodeParts>⟧.parts };

    ghost tree = { λ a. ⟦<Parts as DecodeParts>⟧.tree (record { 0 = a.version; 1 = record { 0 = a.sid; 1 = record { 0 = a.digest_algorithm; 1 = record { 0 = a.signed_attrs; 1 = record { 0 = a.signature_algorithm; 1 = record { 0 = a.signature; 1 = record { 0 = a.unsigned_attrs; 1 = record {} } } } } } } }) };

    ghost own = { refl };
}

impl LawfulEq for SignerInfo {
    ghost use Rattle.rasn_types.specs.Deciding.{deciding};
    ghost use Rattle.rasn_pkix.specs.contracts.algorithm_identifier.AlgorithmIdentifierLawfulEq.TheImpl.Laws.{decides-law as algorithm_identifier_law};
    ghost use Rattle.rasn_cms.specs.contracts.signer_identifier.SignerIdentifierLawfulEq.TheImpl.Laws.{decides-law as signer_identifier_law};
    ghost use Rattle.rasn_cms.specs.contracts.signer_info_signed_attrs.SignerInfoSignedAttrsLawfulEq.TheImpl.Laws.{decides-law as signer_info_signed_attrs_law};
    ghost use Rattle.rasn_cms.specs.contracts.signer_info_signed_attrs.SignerInfoSignedAttrsPresent.TheImpl.Laws.{present-law as signer_info_signed_attrs_present};
    ghost use Rattle.rasn_cms.specs.contracts.signer_info_unsigned_attrs.SignerInfoUnsignedAttrsLawfulEq.TheImpl.Laws.{decides-law as signer_info_unsigned_attrs_law};
    ghost use Rattle.rasn_cms.specs.contracts.signer_info_unsigned_attrs.SignerInfoUnsignedAttrsPresent.TheImpl.Laws.{present-law as signer_info_unsigned_attrs_present};

    ghost decides = { Prim.search (algorithm_identifier_law, signer_identifier_law, signer_info_signed_attrs_law, signer_info_signed_attrs_present, signer_info_unsigned_attrs_law, signer_info_unsigned_attrs_present, deciding) depth 64 };
}

impl Present for SignerInfo {
    ghost use Rattle.rasn_types.specs.Equality.{parts_not_absent};

    ghost present = { λ _. parts_not_absent };
}

impl Decode for SignerInfo {
    ghost use Rattle.rasn_de.specs.PartTypes.{DecodesSequenceParts};
    ghost use Rattle.rasn_de.specs.ValueErrors.{errors_of};

    ghost errors = { λ tag _. errors_of (DecodesSequenceParts ⟦<Parts as DecodeParts>⟧.parts ⟦<Parts as DecodeParts>⟧.tree ⟦<Parts as DecodeParts>⟧.errors tag) };

    fn decode_with_tag_and_constraints(
        decoder: &mut Decoder<'_>,
        tag: Tag,
        _constraints: &Constraints,
    ) -> Result<SignerInfo, DecodeError> {
        let parts = match decoder.read_sequence::<Parts>(tag) {
            Ok(parts) => parts,
            Err(error) => return Err(error),
        };
        let Required(version, rest) = parts;
        let Required(sid, rest) = rest;
        let Required(digest_algorithm, rest) = rest;
        let Optional(signed_attrs, rest) = rest;
        let Required(signature_algorithm, rest) = rest;
        let Required(signature, rest) = rest;
        let Optional(unsigned_attrs, End) = rest;
        Ok(SignerInfo {
            version,
            sid,
            digest_algorithm,
            signed_attrs,
            signature_algorithm,
            signature,
            unsigned_attrs,
        })
    }
}

impl Encode for SignerInfo {
    fn encode_with_tag_and_constraints(
        &self,
        encoder: &mut Encoder,
        tag: Tag,
        _constraints: &Constraints,
        _identifier: Identifier,
    ) -> Result<(), EncodeError> {
        let rest = PutOptional(&self.unsigned_attrs, End);
        let rest = Put(&self.signature, rest);
        let rest = Put(&self.signature_algorithm, rest);
        let rest = PutOptional(&self.signed_attrs, rest);
        let rest = Put(&self.digest_algorithm, rest);
        let rest = Put(&self.sid, rest);
        encoder.write_sequence(tag, Put(&self.version, rest))
    }

    fn is_present(&self) -> bool {
        true
    }
}
