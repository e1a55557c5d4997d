// Written by `soqavise generate` from the ASN.1 of Certificates, Revocation, Requests,
// CertificateExtensions: change that, and write it again.
//! `TBSCertList ::= SEQUENCE`
use crate::{AlgorithmIdentifier, Extensions, Name, RevokedCertificate, Time, Version};
use rasn::prelude::*;

/// `TBSCertList ::= SEQUENCE`
#[derive(Debug, PartialEq, Eq, Drop)]
pub struct TbsCertList {
    /// `version Version OPTIONAL`
    pub version: Option<Version>,
    /// `signature AlgorithmIdentifier`
    pub signature: AlgorithmIdentifier,
    /// `issuer Name`
    pub issuer: Name,
    /// `thisUpdate Time`
    pub this_update: Time,
    /// `nextUpdate Time OPTIONAL`
    pub next_update: Option<Time>,
    /// `revokedCertificates SEQUENCE OF RevokedCertificate OPTIONAL`
    pub revoked_certificates: Option<Vec<RevokedCertificate>>,
    /// `crlExtensions [0] EXPLICIT Extensions OPTIONAL`
    pub crl_extensions: Option<Explicit<ContextTag<0>, Extensions>>,
}

/// The components, as they are read.
type Parts = Optional<Version, Parts1>;

type Parts1 = Required<AlgorithmIdentifier, Parts2>;

type Parts2 = Required<Name, Parts3>;

type Parts3 = Required<Time, Parts4>;

type Parts4 = OptionalChoice<Time, Parts5>;

type Parts5 = Optional<Vec<RevokedCertificate>, Parts6>;

type Parts6 = Optional<Explicit<ContextTag<0>, Extensions>, End>;

impl AsnType for TbsCertList {
    ghost use Rattle.std.specs.Prelude.{refl};
    ghost use Rattle.rasn_types.specs.Tags.{in_universal};
    ghost use Rattle.rasn_types.specs.Shapes.{seq};
    ghost use Rattle.rasn_types.specs.Trees.{unconstrained};

    ghost TAG = { in_universal 16 };

    const TAG: Tag = Tag::SEQUENCE;

    ghost CONSTRAINTS = { unconstrained };

    const CONSTRAINTS: Constraints = Constraints::NONE;

    ghost shape = { seq (in_universal 16) ⟦<Parts as DecodeParts>⟧.parts };

    ghost tree = { λ a. ⟦<Parts as DecodeParts>⟧.tree (record { 0 = a.version; 1 = record { 0 = a.signature; 1 = record { 0 = a.issuer; 1 = record { 0 = a.this_update; 1 = record { 0 = a.next_update; 1 = record { 0 = a.revoked_certificates; 1 = record { 0 = a.crl_extensions; 1 = record {} } } } } } } }) };

    ghost own = { refl };
}

impl LawfulEq for TbsCertList {
    ghost use Rattle.rasn_types.specs.Deciding.{deciding};
    ghost use Rattle.rasn_pkix.specs.contracts.algorithm_identifier.AlgorithmIdentifierLawfulEq.TheImpl.Laws.{decides-law as algorithm_identifier_law};
    ghost use Rattle.rasn_pkix.specs.contracts.extensions.ExtensionsLawfulEq.TheImpl.Laws.{decides-law as extensions_law};
    ghost use Rattle.rasn_pkix.specs.contracts.extensions.ExtensionsPresent.TheImpl.Laws.{present-law as extensions_present};
    ghost use Rattle.rasn_pkix.specs.contracts.name.NameLawfulEq.TheImpl.Laws.{decides-law as name_law};
    ghost use Rattle.rasn_pkix.specs.contracts.revoked_certificate.RevokedCertificateLawfulEq.TheImpl.Laws.{decides-law as revoked_certificate_law};
    ghost use Rattle.rasn_pkix.specs.contracts.time.TimeLawfulEq.TheImpl.Laws.{decides-law as time_law};
    ghost use Rattle.rasn_pkix.specs.contracts.time.TimePresent.TheImpl.Laws.{present-law as time_present};

    ghost decides = { Prim.search (algorithm_identifier_law, extensions_law, extensions_present, name_law, revoked_certificate_law, time_law, time_present, deciding) depth 64 };
}

impl Present for TbsCertList {
    ghost use Rattle.rasn_types.specs.Equality.{parts_not_absent};

    ghost present = { λ _. parts_not_absent };
}

impl Decode for TbsCertList {
    ghost use Rattle.std.specs.Prelude.{IfOk};
    ghost use Rattle.rasn_de.specs.Beyond.{BeyondInside};
    ghost use Rattle.rasn_de.specs.Constructed.{sequence_header};

    ghost beyond = { λ tag old result _. IfOk result (λ a. BeyondInside ⟦<Parts as DecodeParts>⟧.beyond (sequence_header tag) old (record { 0 = a.version; 1 = record { 0 = a.signature; 1 = record { 0 = a.issuer; 1 = record { 0 = a.this_update; 1 = record { 0 = a.next_update; 1 = record { 0 = a.revoked_certificates; 1 = record { 0 = a.crl_extensions; 1 = record {} } } } } } } })) };

    ghost use Rattle.rasn_de.specs.PartTypes.{DecodesSequenceParts};
    ghost use Rattle.rasn_de.specs.ValueErrors.{errors_of};

    ghost errors = { λ tag _. errors_of (DecodesSequenceParts ⟦<Parts as DecodeParts>⟧.parts ⟦<Parts as DecodeParts>⟧.tree ⟦<Parts as DecodeParts>⟧.errors tag) };

    fn decode_with_tag_and_constraints(
        decoder: &mut Decoder<'_>,
        tag: Tag,
        _constraints: &Constraints,
    ) -> Result<TbsCertList, DecodeError> {
        let parts = match decoder.read_sequence::<Parts>(tag) {
            Ok(parts) => parts,
            Err(error) => return Err(error),
        };
        let Optional(version, rest) = parts;
        let Required(signature, rest) = rest;
        let Required(issuer, rest) = rest;
        let Required(this_update, rest) = rest;
        let OptionalChoice(next_update, rest) = rest;
        let Optional(revoked_certificates, rest) = rest;
        let Optional(crl_extensions, End) = rest;
        Ok(TbsCertList {
            version,
            signature,
            issuer,
            this_update,
            next_update,
            revoked_certificates,
            crl_extensions,
        })
    }
}

impl Encode for TbsCertList {
    fn encode_with_tag_and_constraints(
        &self,
        encoder: &mut Encoder,
        tag: Tag,
        _constraints: &Constraints,
        _identifier: Identifier,
    ) -> Result<(), EncodeError> {
        let rest = PutOptional(&self.crl_extensions, End);
        let rest = PutOptional(&self.revoked_certificates, rest);
        let rest = PutOptionalChoice(&self.next_update, rest);
        let rest = Put(&self.this_update, rest);
        let rest = Put(&self.issuer, rest);
        let rest = Put(&self.signature, rest);
        encoder.write_sequence(tag, PutOptional(&self.version, rest))
    }

    fn is_present(&self) -> bool {
        true
    }
}
