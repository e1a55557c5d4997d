// Written by `soqavise generate` from the ASN.1 of Certificates, Revocation, Requests,
// CertificateExtensions: change that, and write it again.
//! `CertificateList ::= SEQUENCE`
use crate::{AlgorithmIdentifier, TbsCertList};
use rasn::prelude::*;

/// `CertificateList ::= SEQUENCE`
#[derive(Debug, PartialEq, Eq, Drop)]
pub struct CertificateList {
    /// `tbsCertList TBSCertList`
    pub tbs_cert_list: TbsCertList,
    /// `signatureAlgorithm AlgorithmIdentifier`
    pub signature_algorithm: AlgorithmIdentifier,
    /// `signatureValue BIT STRING`
    pub signature_value: BitString,
}

/// The components, as they are read.
type Parts = Required<TbsCertList, Parts1>;

type Parts1 = Required<AlgorithmIdentifier, Parts2>;

type Parts2 = Required<BitString, End>;

impl AsnType for CertificateList {
    ghost use Rattle.std.specs.Prelude.{refl};
    ghost use Rattle.rasn_types.specs.Tags.{in_universal};
    ghost use Rattle.rasn_types.specs.Shapes.{seq};
    ghost use Rattle.rasn_types.specs.Trees.{unconstrained};

    ghost TAG = { in_universal 16 };

    const TAG: Tag = Tag::SEQUENCE;

    ghost CONSTRAINTS = { unconstrained };

    const CONSTRAINTS: Constraints = Constraints::NONE;

    ghost shape = { seq (in_universal 16) ⟦<Parts as DecodeParts>⟧.parts };

    ghost tree = { λ a. ⟦<Parts as DecodeParts>⟧.tree (record { 0 = a.tbs_cert_list; 1 = record { 0 = a.signature_algorithm; 1 = record { 0 = a.signature_value; 1 = record {} } } }) };

    ghost own = { refl };
}

impl LawfulEq for CertificateList {
    ghost use Rattle.rasn_types.specs.Deciding.{deciding};
    ghost use Rattle.rasn_pkix.specs.contracts.algorithm_identifier.AlgorithmIdentifierLawfulEq.TheImpl.Laws.{decides-law as algorithm_identifier_law};
    ghost use Rattle.rasn_pkix.specs.contracts.tbs_cert_list.TbsCertListLawfulEq.TheImpl.Laws.{decides-law as tbs_cert_list_law};

    ghost decides = { Prim.search (algorithm_identifier_law, tbs_cert_list_law, deciding) depth 64 };
}

impl Present for CertificateList {
    ghost use Rattle.rasn_types.specs.Equality.{parts_not_absent};

    ghost present = { λ _. parts_not_absent };
}

impl Decode for CertificateList {
    ghost use Rattle.std.specs.Prelude.{IfOk};
    ghost use Rattle.rasn_de.specs.Beyond.{BeyondInside};
    ghost use Rattle.rasn_de.specs.Constructed.{sequence_header};

    ghost beyond = { λ tag old result _. IfOk result (λ a. BeyondInside ⟦<Parts as DecodeParts>⟧.beyond (sequence_header tag) old (record { 0 = a.tbs_cert_list; 1 = record { 0 = a.signature_algorithm; 1 = record { 0 = a.signature_value; 1 = record {} } } })) };

    ghost use Rattle.rasn_de.specs.PartTypes.{DecodesSequenceParts};
    ghost use Rattle.rasn_de.specs.ValueErrors.{errors_of};

    ghost errors = { λ tag _. errors_of (DecodesSequenceParts ⟦<Parts as DecodeParts>⟧.parts ⟦<Parts as DecodeParts>⟧.tree ⟦<Parts as DecodeParts>⟧.errors tag) };

    fn decode_with_tag_and_constraints(
        decoder: &mut Decoder<'_>,
        tag: Tag,
        _constraints: &Constraints,
    ) -> Result<CertificateList, DecodeError> {
        let parts = match decoder.read_sequence::<Parts>(tag) {
            Ok(parts) => parts,
            Err(error) => return Err(error),
        };
        let Required(tbs_cert_list, rest) = parts;
        let Required(signature_algorithm, rest) = rest;
        let Required(signature_value, End) = rest;
        Ok(CertificateList {
            tbs_cert_list,
            signature_algorithm,
            signature_value,
        })
    }
}

impl Encode for CertificateList {
    fn encode_with_tag_and_constraints(
        &self,
        encoder: &mut Encoder,
        tag: Tag,
        _constraints: &Constraints,
        _identifier: Identifier,
    ) -> Result<(), EncodeError> {
        let rest = Put(&self.signature_value, End);
        let rest = Put(&self.signature_algorithm, rest);
        encoder.write_sequence(tag, Put(&self.tbs_cert_list, rest))
    }

    fn is_present(&self) -> bool {
        true
    }
}

impl WholeMessage for CertificateList {
    ghost use Rattle.std.specs.Prelude.{refl};
    ghost use Rattle.rasn_types.specs.declared.types.codec.Codec.TheVariants.{Der};

    ghost RULES = { Der };

    const RULES: Codec = Codec::Der;

    ghost whole = { refl };
}
