// Written by `soqavise generate` from the ASN.1 of Certificates, Revocation, Requests,
// CertificateExtensions: change that, and write it again.
//! `TBSCertificate ::= SEQUENCE`
use crate::{
    AlgorithmIdentifier, CertificateSerialNumber, Extensions, Name, SubjectPublicKeyInfo, Validity,
    Version,
};
use rasn::prelude::*;
use std::alloc::{AllocError, Global};

/// `TBSCertificate ::= SEQUENCE`
#[derive(Debug, PartialEq, Eq, Drop)]
pub struct TbsCertificate {
    /// `version [0] EXPLICIT Version DEFAULT v1`
    pub version: Version,
    /// `serialNumber CertificateSerialNumber`
    pub serial_number: CertificateSerialNumber,
    /// `signature AlgorithmIdentifier`
    pub signature: AlgorithmIdentifier,
    /// `issuer Name`
    pub issuer: Name,
    /// `validity Validity`
    pub validity: Validity,
    /// `subject Name`
    pub subject: Name,
    /// `subjectPublicKeyInfo SubjectPublicKeyInfo`
    pub subject_public_key_info: SubjectPublicKeyInfo,
    /// `issuerUniqueID [1] IMPLICIT BIT STRING OPTIONAL`
    pub issuer_unique_id: Option<Implicit<ContextTag<1>, BitString>>,
    /// `subjectUniqueID [2] IMPLICIT BIT STRING OPTIONAL`
    pub subject_unique_id: Option<Implicit<ContextTag<2>, BitString>>,
    /// `extensions [3] EXPLICIT Extensions OPTIONAL`
    pub extensions: Option<Explicit<ContextTag<3>, Extensions>>,
}

/// The components, as they are read.
type Parts = DefaultedExplicit<VersionDefault, Parts1>;

type Parts1 = Required<CertificateSerialNumber, Parts2>;

type Parts2 = Required<AlgorithmIdentifier, Parts3>;

type Parts3 = Required<Name, Parts4>;

type Parts4 = Required<Validity, Parts5>;

type Parts5 = Required<Name, Parts6>;

type Parts6 = Required<SubjectPublicKeyInfo, Parts7>;

type Parts7 = Optional<Implicit<ContextTag<1>, BitString>, Parts8>;

type Parts8 = Optional<Implicit<ContextTag<2>, BitString>, Parts9>;

type Parts9 = Optional<Explicit<ContextTag<3>, Extensions>, End>;

impl AsnType for TbsCertificate {
    ghost use Rattle.std.specs.Prelude.{refl};
    ghost use Rattle.rasn_types.specs.Tags.{in_universal};
    ghost use Rattle.rasn_types.specs.Shapes.{seq};
    ghost use Rattle.rasn_types.specs.Trees.{unconstrained};

    ghost TAG = { in_universal 16 };

    const TAG: Tag = Tag::SEQUENCE;

    ghost CONSTRAINTS = { unconstrained };

    const CONSTRAINTS: Constraints = Constraints::NONE;

    ghost shape = { seq (in_universal 16) ⟦<Parts as DecodeParts>⟧.parts };

    ghost tree = { λ a. ⟦<Parts as DecodeParts>⟧.tree (record { 0 = a.version; 1 = record { 0 = a.serial_number; 1 = record { 0 = a.signature; 1 = record { 0 = a.issuer; 1 = record { 0 = a.validity; 1 = record { 0 = a.subject; 1 = record { 0 = a.subject_public_key_info; 1 = record { 0 = a.issuer_unique_id; 1 = record { 0 = a.subject_unique_id; 1 = record { 0 = a.extensions; 1 = record {} } } } } } } } } } }) };

    ghost own = { refl };
}

impl LawfulEq for TbsCertificate {
    ghost use Rattle.rasn_types.specs.Deciding.{deciding};
    ghost use Rattle.rasn_pkix.specs.contracts.algorithm_identifier.AlgorithmIdentifierLawfulEq.TheImpl.Laws.{decides-law as algorithm_identifier_law};
    ghost use Rattle.rasn_pkix.specs.contracts.extensions.ExtensionsLawfulEq.TheImpl.Laws.{decides-law as extensions_law};
    ghost use Rattle.rasn_pkix.specs.contracts.extensions.ExtensionsPresent.TheImpl.Laws.{present-law as extensions_present};
    ghost use Rattle.rasn_pkix.specs.contracts.name.NameLawfulEq.TheImpl.Laws.{decides-law as name_law};
    ghost use Rattle.rasn_pkix.specs.contracts.subject_public_key_info.SubjectPublicKeyInfoLawfulEq.TheImpl.Laws.{decides-law as subject_public_key_info_law};
    ghost use Rattle.rasn_pkix.specs.contracts.validity.ValidityLawfulEq.TheImpl.Laws.{decides-law as validity_law};

    ghost decides = { Prim.search (algorithm_identifier_law, extensions_law, extensions_present, name_law, subject_public_key_info_law, validity_law, deciding) depth 64 };
}

impl Present for TbsCertificate {
    ghost use Rattle.rasn_types.specs.Equality.{parts_not_absent};

    ghost present = { λ _. parts_not_absent };
}

impl Decode for TbsCertificate {
    ghost use Rattle.std.specs.Prelude.{IfOk};
    ghost use Rattle.rasn_de.specs.Beyond.{BeyondInside};
    ghost use Rattle.rasn_de.specs.Constructed.{sequence_header};

    ghost beyond = { λ tag old result _. IfOk result (λ a. BeyondInside ⟦<Parts as DecodeParts>⟧.beyond (sequence_header tag) old (record { 0 = a.version; 1 = record { 0 = a.serial_number; 1 = record { 0 = a.signature; 1 = record { 0 = a.issuer; 1 = record { 0 = a.validity; 1 = record { 0 = a.subject; 1 = record { 0 = a.subject_public_key_info; 1 = record { 0 = a.issuer_unique_id; 1 = record { 0 = a.subject_unique_id; 1 = record { 0 = a.extensions; 1 = record {} } } } } } } } } } })) };

    ghost use Rattle.rasn_de.specs.PartTypes.{DecodesSequenceParts};
    ghost use Rattle.rasn_de.specs.ValueErrors.{errors_of};

    ghost errors = { λ tag _. errors_of (DecodesSequenceParts ⟦<Parts as DecodeParts>⟧.parts ⟦<Parts as DecodeParts>⟧.tree ⟦<Parts as DecodeParts>⟧.errors tag) };

    fn decode_with_tag_and_constraints(
        decoder: &mut Decoder<'_>,
        tag: Tag,
        _constraints: &Constraints,
    ) -> Result<TbsCertificate, DecodeError> {
        let parts = match decoder.read_sequence::<Parts>(tag) {
            Ok(parts) => parts,
            Err(error) => return Err(error),
        };
        let DefaultedExplicit(version, rest) = parts;
        let Required(serial_number, rest) = rest;
        let Required(signature, rest) = rest;
        let Required(issuer, rest) = rest;
        let Required(validity, rest) = rest;
        let Required(subject, rest) = rest;
        let Required(subject_public_key_info, rest) = rest;
        let Optional(issuer_unique_id, rest) = rest;
        let Optional(subject_unique_id, rest) = rest;
        let Optional(extensions, End) = rest;
        Ok(TbsCertificate {
            version,
            serial_number,
            signature,
            issuer,
            validity,
            subject,
            subject_public_key_info,
            issuer_unique_id,
            subject_unique_id,
            extensions,
        })
    }
}

impl Encode for TbsCertificate {
    fn encode_with_tag_and_constraints(
        &self,
        encoder: &mut Encoder,
        tag: Tag,
        _constraints: &Constraints,
        _identifier: Identifier,
    ) -> Result<(), EncodeError> {
        let rest = PutOptional(&self.extensions, End);
        let rest = PutOptional(&self.subject_unique_id, rest);
        let rest = PutOptional(&self.issuer_unique_id, rest);
        let rest = Put(&self.subject_public_key_info, rest);
        let rest = Put(&self.subject, rest);
        let rest = Put(&self.validity, rest);
        let rest = Put(&self.issuer, rest);
        let rest = Put(&self.signature, rest);
        let rest = Put(&self.serial_number, rest);
        encoder.write_sequence(
            tag,
            PutDefaultExplicit::<VersionDefault, _>(&self.version, rest),
        )
    }

    fn is_present(&self) -> bool {
        true
    }
}

/// The default of `version`.
#[derive(Drop)]
pub struct VersionDefault;

impl DefaultValue for VersionDefault {
    ghost use Rattle.std.specs.Prelude.{pos};
    ghost use Rattle.rasn_types.specs.Shapes.{number};

    type Value = Version;

    ghost default_tree = { number (pos 0) };

    fn default_value(alloc: Global) -> Result<Version, AllocError> {
        Ok(Integer::from_i128(alloc, 0)?)
    }
}

impl ExplicitDefault for VersionDefault {
    type Prefix = ContextTag<0>;
}
