// Written by `soqavise generate` from the ASN.1 of Certificates, Revocation, Requests,
// CertificateExtensions: change that, and write it again.
//! `CertificationRequest ::= SEQUENCE`
use crate::{AlgorithmIdentifier, CertificationRequestInfo};
use rasn::prelude::*;

/// `CertificationRequest ::= SEQUENCE`
#[derive(Debug, PartialEq, Eq, Drop)]
pub struct CertificationRequest {
    /// `certificationRequestInfo CertificationRequestInfo`
    pub certification_request_info: CertificationRequestInfo,
    /// `signatureAlgorithm AlgorithmIdentifier`
    pub signature_algorithm: AlgorithmIdentifier,
    /// `signature BIT STRING`
    pub signature: BitString,
}

/// The components, as they are read.
type Parts = Required<CertificationRequestInfo, Parts1>;

type Parts1 = Required<AlgorithmIdentifier, Parts2>;

type Parts2 = Required<BitString, End>;

impl AsnType for CertificationRequest {
    ghost use Rattle.std.specs.Prelude.{refl};
    ghost use Rattle.rasn_types.specs.Tags.{in_universal};
    ghost use Rattle.rasn_types.specs.Shapes.{seq};
    ghost use Rattle.rasn_types.specs.Trees.{unconstrained};

    ghost TAG = { in_universal 16 };

    const TAG: Tag = Tag::SEQUENCE;

    ghost CONSTRAINTS = { unconstrained };

    const CONSTRAINTS: Constraints = Constraints::NONE;

    ghost shape = { seq (in_universal 16) ⟦<Parts as DecodeParts>⟧.parts };

    ghost tree = { λ a. ⟦<Parts as DecodeParts>⟧.tree (record { 0 = a.certification_request_info; 1 = record { 0 = a.signature_algorithm; 1 = record { 0 = a.signature; 1 = record {} } } }) };

    ghost own = { refl };
}

impl LawfulEq for CertificationRequest {
    ghost use Rattle.rasn_types.specs.Deciding.{deciding};
    ghost use Rattle.rasn_pkix.specs.contracts.algorithm_identifier.AlgorithmIdentifierLawfulEq.TheImpl.Laws.{decides-law as algorithm_identifier_law};
    ghost use Rattle.rasn_pkix.specs.contracts.certification_request_info.CertificationRequestInfoLawfulEq.TheImpl.Laws.{decides-law as certification_request_info_law};

    ghost decides = { Prim.search (algorithm_identifier_law, certification_request_info_law, deciding) depth 64 };
}

impl Present for CertificationRequest {
    ghost use Rattle.rasn_types.specs.Equality.{parts_not_absent};

    ghost present = { λ _. parts_not_absent };
}

impl Decode for CertificationRequest {
    ghost use Rattle.rasn_de.specs.PartTypes.{DecodesSequenceParts};
    ghost use Rattle.rasn_de.specs.ValueErrors.{errors_of};

    ghost errors = { λ tag _. errors_of (DecodesSequenceParts ⟦<Parts as DecodeParts>⟧.parts ⟦<Parts as DecodeParts>⟧.tree ⟦<Parts as DecodeParts>⟧.errors tag) };

    fn decode_with_tag_and_constraints(
        decoder: &mut Decoder<'_>,
        tag: Tag,
        _constraints: &Constraints,
    ) -> Result<CertificationRequest, DecodeError> {
        let parts = match decoder.read_sequence::<Parts>(tag) {
            Ok(parts) => parts,
            Err(error) => return Err(error),
        };
        let Required(certification_request_info, rest) = parts;
        let Required(signature_algorithm, rest) = rest;
        let Required(signature, End) = rest;
        Ok(CertificationRequest {
            certification_request_info,
            signature_algorithm,
            signature,
        })
    }
}

impl Encode for CertificationRequest {
    fn encode_with_tag_and_constraints(
        &self,
        encoder: &mut Encoder,
        tag: Tag,
        _constraints: &Constraints,
        _identifier: Identifier,
    ) -> Result<(), EncodeError> {
        let rest = Put(&self.signature, End);
        let rest = Put(&self.signature_algorithm, rest);
        encoder.write_sequence(tag, Put(&self.certification_request_info, rest))
    }

    fn is_present(&self) -> bool {
        true
    }
}

impl WholeMessage for CertificationRequest {
    ghost use Rattle.std.specs.Prelude.{refl};
    ghost use Rattle.rasn_types.specs.declared.types.codec.Codec.TheVariants.{Der};

    ghost RULES = { Der };

    const RULES: Codec = Codec::Der;

    ghost whole = { refl };
}
