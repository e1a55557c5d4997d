// Written by `soqavise generate` from the ASN.1 of CmsMessages, CMS: change that, and write it
// again.
//! `SignedData ::= SEQUENCE`
use crate::{
    CertificateChoices, CmsVersion, DigestAlgorithmIdentifiers, EncapsulatedContentInfo,
    RevocationInfoChoice, SignerInfos,
};
use rasn::prelude::*;

/// `SignedData ::= SEQUENCE`
#[derive(Debug, PartialEq, Eq, Drop)]
pub struct SignedData {
    /// `version CMSVersion`
    pub version: CmsVersion,
    /// `digestAlgorithms DigestAlgorithmIdentifiers`
    pub digest_algorithms: DigestAlgorithmIdentifiers,
    /// `encapContentInfo EncapsulatedContentInfo`
    pub encap_content_info: EncapsulatedContentInfo,
    /// `certificates [0] IMPLICIT SET OF CertificateChoices OPTIONAL`
    pub certificates: Option<Implicit<ContextTag<0>, SetOf<CertificateChoices>>>,
    /// `crls [1] IMPLICIT SET OF RevocationInfoChoice OPTIONAL`
    pub crls: Option<Implicit<ContextTag<1>, SetOf<RevocationInfoChoice>>>,
    /// `signerInfos SignerInfos`
    pub signer_infos: SignerInfos,
}

/// The components, as they are read.
type Parts = Required<CmsVersion, Parts1>;

type Parts1 = Required<DigestAlgorithmIdentifiers, Parts2>;

type Parts2 = Required<EncapsulatedContentInfo, Parts3>;

type Parts3 = Optional<Implicit<ContextTag<0>, SetOf<CertificateChoices>>, Parts4>;

type Parts4 = Optional<Implicit<ContextTag<1>, SetOf<RevocationInfoChoice>>, Parts5>;

type Parts5 = Required<SignerInfos, End>;

impl AsnType for SignedData {
    ghost use Rattle.std.specs.Prelude.{refl};
    ghost use Rattle.rasn_types.specs.Tags.{in_universal};
    ghost use Rattle.rasn_types.specs.Shapes.{seq};
    ghost use Rattle.rasn_types.specs.Trees.{unconstrained};

    ghost TAG = { in_universal 16 };

    const TAG: Tag = Tag::SEQUENCE;

    ghost CONSTRAINTS = { unconstrained };

    const CONSTRAINTS: Constraints = Constraints::NONE;

    ghost shape = { seq (in_universal 16) ⟦<Parts as DecodeParts>⟧.parts };

    ghost tree = { λ a. ⟦<Parts as DecodeParts>⟧.tree (record { 0 = a.version; 1 = record { 0 = a.digest_algorithms; 1 = record { 0 = a.encap_content_info; 1 = record { 0 = a.certificates; 1 = record { 0 = a.crls; 1 = record { 0 = a.signer_infos; 1 = record {} } } } } } }) };

    ghost own = { refl };
}

impl LawfulEq for SignedData {
    ghost use Rattle.rasn_types.specs.Deciding.{deciding};
    ghost use Rattle.rasn_pkix.specs.contracts.algorithm_identifier.AlgorithmIdentifierLawfulEq.TheImpl.Laws.{decides-law as algorithm_identifier_law};
    ghost use Rattle.rasn_pkix.specs.contracts.algorithm_identifier.AlgorithmIdentifierEq.TheImpl.Laws.{laws-law as algorithm_identifier_equiv};
    ghost use Rattle.rasn_cms.specs.contracts.encapsulated_content_info.EncapsulatedContentInfoLawfulEq.TheImpl.Laws.{decides-law as encapsulated_content_info_law};
    ghost use Rattle.rasn_cms.specs.contracts.signer_info.SignerInfoLawfulEq.TheImpl.Laws.{decides-law as signer_info_law};
    ghost use Rattle.rasn_cms.specs.contracts.signer_info.SignerInfoEq.TheImpl.Laws.{laws-law as signer_info_equiv};

    ghost decides = { Prim.search (algorithm_identifier_law, algorithm_identifier_equiv, encapsulated_content_info_law, signer_info_law, signer_info_equiv, deciding) depth 64 };
}

impl Present for SignedData {
    ghost use Rattle.rasn_types.specs.Equality.{parts_not_absent};

    ghost present = { λ _. parts_not_absent };
}

impl Decode for SignedData {
    ghost use Rattle.rasn_de.specs.PartTypes.{DecodesSequenceParts};
    ghost use Rattle.rasn_de.specs.ValueErrors.{errors_of};

    ghost errors = { λ tag _. errors_of (DecodesSequenceParts ⟦<Parts as DecodeParts>⟧.parts ⟦<Parts as DecodeParts>⟧.tree ⟦<Parts as DecodeParts>⟧.errors tag) };

    fn decode_with_tag_and_constraints(
        decoder: &mut Decoder<'_>,
        tag: Tag,
        _constraints: &Constraints,
    ) -> Result<SignedData, DecodeError> {
        let parts = match decoder.read_sequence::<Parts>(tag) {
            Ok(parts) => parts,
            Err(error) => return Err(error),
        };
        let Required(version, rest) = parts;
        let Required(digest_algorithms, rest) = rest;
        let Required(encap_content_info, rest) = rest;
        let Optional(certificates, rest) = rest;
        let Optional(crls, rest) = rest;
        let Required(signer_infos, End) = rest;
        Ok(SignedData {
            version,
            digest_algorithms,
            encap_content_info,
            certificates,
            crls,
            signer_infos,
        })
    }
}

impl Encode for SignedData {
    fn encode_with_tag_and_constraints(
        &self,
        encoder: &mut Encoder,
        tag: Tag,
        _constraints: &Constraints,
        _identifier: Identifier,
    ) -> Result<(), EncodeError> {
        let rest = Put(&self.signer_infos, End);
        let rest = PutOptional(&self.crls, rest);
        let rest = PutOptional(&self.certificates, rest);
        let rest = Put(&self.encap_content_info, rest);
        let rest = Put(&self.digest_algorithms, rest);
        encoder.write_sequence(tag, Put(&self.version, rest))
    }

    fn is_present(&self) -> bool {
        true
    }
}
