// Written by `soqavise generate` from the ASN.1 of CmsMessages, CMS: change that, and write it
// again.
//! `AuthenticatedData ::= SEQUENCE`
use crate::{
    AuthenticatedDataAuthAttrs, AuthenticatedDataUnauthAttrs, CmsVersion, EncapsulatedContentInfo,
    MessageAuthenticationCode, OriginatorInfo, RecipientInfos,
};
use rasn::prelude::*;
use rasn_pkix::AlgorithmIdentifier;

/// `AuthenticatedData ::= SEQUENCE`
#[derive(Debug, PartialEq, Eq, Drop)]
pub struct AuthenticatedData {
    /// `version CMSVersion`
    pub version: CmsVersion,
    /// `originatorInfo [0] IMPLICIT OriginatorInfo OPTIONAL`
    pub originator_info: Option<Implicit<ContextTag<0>, OriginatorInfo>>,
    /// `recipientInfos RecipientInfos`
    pub recipient_infos: RecipientInfos,
    /// `macAlgorithm AlgorithmIdentifier`
    pub mac_algorithm: AlgorithmIdentifier,
    /// `digestAlgorithm [1] IMPLICIT AlgorithmIdentifier OPTIONAL`
    pub digest_algorithm: Option<Implicit<ContextTag<1>, AlgorithmIdentifier>>,
    /// `encapContentInfo EncapsulatedContentInfo`
    pub encap_content_info: EncapsulatedContentInfo,
    /// `authAttrs AuthenticatedData-authAttrs OPTIONAL`
    pub auth_attrs: Option<AuthenticatedDataAuthAttrs>,
    /// `mac MessageAuthenticationCode`
    pub mac: MessageAuthenticationCode,
    /// `unauthAttrs AuthenticatedData-unauthAttrs OPTIONAL`
    pub unauth_attrs: Option<AuthenticatedDataUnauthAttrs>,
}

/// The components, as they are read.
type Parts = Required<CmsVersion, Parts1>;

type Parts1 = Optional<Implicit<ContextTag<0>, OriginatorInfo>, Parts2>;

type Parts2 = Required<RecipientInfos, Parts3>;

type Parts3 = Required<AlgorithmIdentifier, Parts4>;

type Parts4 = Optional<Implicit<ContextTag<1>, AlgorithmIdentifier>, Parts5>;

type Parts5 = Required<EncapsulatedContentInfo, Parts6>;

type Parts6 = Optional<AuthenticatedDataAuthAttrs, Parts7>;

type Parts7 = Required<MessageAuthenticationCode, Parts8>;

type Parts8 = Optional<AuthenticatedDataUnauthAttrs, End>;

impl AsnType for AuthenticatedData {
    ghost use Rattle.std.specs.Prelude.{refl};
    ghost use Rattle.rasn_types.specs.Tags.{in_universal};
    ghost use Rattle.rasn_types.specs.Shapes.{seq};
    ghost use Rattle.rasn_types.specs.Trees.{unconstrained};

    ghost TAG = { in_universal 16 };

    const TAG: Tag = Tag::SEQUENCE;

    ghost CONSTRAINTS = { unconstrained };

    const CONSTRAINTS: Constraints = Constraints::NONE;

    ghost shape = { seq (in_universal 16) ⟦<Parts as DecodeParts>⟧.parts };

    ghost tree = { λ a. ⟦<Parts as DecodeParts>⟧.tree (record { 0 = a.version; 1 = record { 0 = a.originator_info; 1 = record { 0 = a.recipient_infos; 1 = record { 0 = a.mac_algorithm; 1 = record { 0 = a.digest_algorithm; 1 = record { 0 = a.encap_content_info; 1 = record { 0 = a.auth_attrs; 1 = record { 0 = a.mac; 1 = record { 0 = a.unauth_attrs; 1 = record {} } } } } } } } } }) };

    ghost own = { refl };
}

impl LawfulEq for AuthenticatedData {
    ghost use Rattle.rasn_types.specs.Deciding.{deciding};
    ghost use Rattle.rasn_pkix.specs.contracts.algorithm_identifier.AlgorithmIdentifierLawfulEq.TheImpl.Laws.{decides-law as algorithm_identifier_law};
    ghost use Rattle.rasn_pkix.specs.contracts.algorithm_identifier.AlgorithmIdentifierPresent.TheImpl.Laws.{present-law as algorithm_identifier_present};
    ghost use Rattle.rasn_cms.specs.contracts.authenticated_data_auth_attrs.AuthenticatedDataAuthAttrsLawfulEq.TheImpl.Laws.{decides-law as authenticated_data_auth_attrs_law};
    ghost use Rattle.rasn_cms.specs.contracts.authenticated_data_auth_attrs.AuthenticatedDataAuthAttrsPresent.TheImpl.Laws.{present-law as authenticated_data_auth_attrs_present};
    ghost use Rattle.rasn_cms.specs.contracts.authenticated_data_unauth_attrs.AuthenticatedDataUnauthAttrsLawfulEq.TheImpl.Laws.{decides-law as authenticated_data_unauth_attrs_law};
    ghost use Rattle.rasn_cms.specs.contracts.authenticated_data_unauth_attrs.AuthenticatedDataUnauthAttrsPresent.TheImpl.Laws.{present-law as authenticated_data_unauth_attrs_present};
    ghost use Rattle.rasn_cms.specs.contracts.encapsulated_content_info.EncapsulatedContentInfoLawfulEq.TheImpl.Laws.{decides-law as encapsulated_content_info_law};
    ghost use Rattle.rasn_cms.specs.contracts.originator_info.OriginatorInfoLawfulEq.TheImpl.Laws.{decides-law as originator_info_law};
    ghost use Rattle.rasn_cms.specs.contracts.originator_info.OriginatorInfoPresent.TheImpl.Laws.{present-law as originator_info_present};
    ghost use Rattle.rasn_cms.specs.contracts.recipient_infos.RecipientInfosLawfulEq.TheImpl.Laws.{decides-law as recipient_infos_law};

    ghost decides = { Prim.search (algorithm_identifier_law, algorithm_identifier_present, authenticated_data_auth_attrs_law, authenticated_data_auth_attrs_present, authenticated_data_unauth_attrs_law, authenticated_data_unauth_attrs_present, encapsulated_content_info_law, originator_info_law, originator_info_present, recipient_infos_law, deciding) depth 64 };
}

impl Present for AuthenticatedData {
    ghost use Rattle.rasn_types.specs.Equality.{parts_not_absent};

    ghost present = { λ _. parts_not_absent };
}

impl Decode for AuthenticatedData {
    ghost use Rattle.std.specs.Prelude.{IfOk};
    ghost use Rattle.rasn_de.specs.Beyond.{BeyondInside};
    ghost use Rattle.rasn_de.specs.Constructed.{sequence_header};

    ghost beyond = { λ tag old result _. IfOk result (λ a. BeyondInside ⟦<Parts as DecodeParts>⟧.beyond (sequence_header tag) old (record { 0 = a.version; 1 = record { 0 = a.originator_info; 1 = record { 0 = a.recipient_infos; 1 = record { 0 = a.mac_algorithm; 1 = record { 0 = a.digest_algorithm; 1 = record { 0 = a.encap_content_info; 1 = record { 0 = a.auth_attrs; 1 = record { 0 = a.mac; 1 = record { 0 = a.unauth_attrs; 1 = record {} } } } } } } } } })) };

    ghost use Rattle.rasn_de.specs.PartTypes.{DecodesSequenceParts};
    ghost use Rattle.rasn_de.specs.ValueErrors.{errors_of};

    ghost errors = { λ tag _. errors_of (DecodesSequenceParts ⟦<Parts as DecodeParts>⟧.parts ⟦<Parts as DecodeParts>⟧.tree ⟦<Parts as DecodeParts>⟧.errors tag) };

    fn decode_with_tag_and_constraints(
        decoder: &mut Decoder<'_>,
        tag: Tag,
        _constraints: &Constraints,
    ) -> Result<AuthenticatedData, DecodeError> {
        let parts = match decoder.read_sequence::<Parts>(tag) {
            Ok(parts) => parts,
            Err(error) => return Err(error),
        };
        let Required(version, rest) = parts;
        let Optional(originator_info, rest) = rest;
        let Required(recipient_infos, rest) = rest;
        let Required(mac_algorithm, rest) = rest;
        let Optional(digest_algorithm, rest) = rest;
        let Required(encap_content_info, rest) = rest;
        let Optional(auth_attrs, rest) = rest;
        let Required(mac, rest) = rest;
        let Optional(unauth_attrs, End) = rest;
        Ok(AuthenticatedData {
            version,
            originator_info,
            recipient_infos,
            mac_algorithm,
            digest_algorithm,
            encap_content_info,
            auth_attrs,
            mac,
            unauth_attrs,
        })
    }
}

impl Encode for AuthenticatedData {
    fn encode_with_tag_and_constraints(
        &self,
        encoder: &mut Encoder,
        tag: Tag,
        _constraints: &Constraints,
        _identifier: Identifier,
    ) -> Result<(), EncodeError> {
        let rest = PutOptional(&self.unauth_attrs, End);
        let rest = Put(&self.mac, rest);
        let rest = PutOptional(&self.auth_attrs, rest);
        let rest = Put(&self.encap_content_info, rest);
        let rest = PutOptional(&self.digest_algorithm, rest);
        let rest = Put(&self.mac_algorithm, rest);
        let rest = Put(&self.recipient_infos, rest);
        let rest = PutOptional(&self.originator_info, rest);
        encoder.write_sequence(tag, Put(&self.version, rest))
    }

    fn is_present(&self) -> bool {
        true
    }
}
