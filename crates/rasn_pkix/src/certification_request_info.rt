// Written by `soqavise generate` from the ASN.1 of Certificates, Revocation, Requests,
// CertificateExtensions: change that, and write it again.
//! `CertificationRequestInfo ::= SEQUENCE`
use crate::{Attribute, Name, SubjectPublicKeyInfo};
use rasn::prelude::*;

/// `CertificationRequestInfo ::= SEQUENCE`
#[derive(Debug, PartialEq, Eq, Drop)]
pub struct CertificationRequestInfo {
    /// `version INTEGER { v1(0) }`
    pub version: Integer,
    /// `subject Name`
    pub subject: Name,
    /// `subjectPKInfo SubjectPublicKeyInfo`
    pub subject_pk_info: SubjectPublicKeyInfo,
    /// `attributes [0] IMPLICIT SET OF Attribute`
    pub attributes: Implicit<ContextTag<0>, SetOf<Attribute>>,
}

/// The components, as they are read.
type Parts = Required<Integer, Parts1>;

type Parts1 = Required<Name, Parts2>;

type Parts2 = Required<SubjectPublicKeyInfo, Parts3>;

type Parts3 = Required<Implicit<ContextTag<0>, SetOf<Attribute>>, End>;

impl AsnType for CertificationRequestInfo {
    ghost use Rattle.std.specs.Prelude.{refl};
    ghost use Rattle.rasn_types.specs.Tags.{in_universal};
    ghost use Rattle.rasn_types.specs.Shapes.{seq};
    ghost use Rattle.rasn_types.specs.Trees.{unconstrained};

    ghost TAG = { in_universal 16 };

    const TAG: Tag = Tag::SEQUENCE;

    ghost CONSTRAINTS = { unconstrained };

    const CONSTRAINTS: Constraints = Constraints::NONE;

    ghost shape = { seq (in_universal 16) ⟦<Parts as DecodeParts>⟧.parts };

    ghost tree = { λ a. ⟦<Parts as DecodeParts>⟧.tree (record { 0 = a.version; 1 = record { 0 = a.subject; 1 = record { 0 = a.subject_pk_info; 1 = record { 0 = a.attributes; 1 = record {} } } } }) };

    ghost own = { refl };
}

impl LawfulEq for CertificationRequestInfo {
    ghost use Rattle.rasn_types.specs.Deciding.{deciding};
    ghost use Rattle.rasn_pkix.specs.contracts.attribute.AttributeLawfulEq.TheImpl.Laws.{decides-law as attribute_law};
    ghost use Rattle.rasn_pkix.specs.contracts.attribute.AttributeEq.TheImpl.Laws.{laws-law as attribute_equiv};
    ghost use Rattle.rasn_pkix.specs.contracts.name.NameLawfulEq.TheImpl.Laws.{decides-law as name_law};
    ghost use Rattle.rasn_pkix.specs.contracts.subject_public_key_info.SubjectPublicKeyInfoLawfulEq.TheImpl.Laws.{decides-law as subject_public_key_info_law};

    ghost decides = { Prim.search (attribute_law, attribute_equiv, name_law, subject_public_key_info_law, deciding) depth 64 };
}

impl Present for CertificationRequestInfo {
    ghost use Rattle.rasn_types.specs.Equality.{parts_not_absent};

    ghost present = { λ _. parts_not_absent };
}

impl Decode for CertificationRequestInfo {
    ghost use Rattle.rasn_de.specs.PartTypes.{DecodesSequenceParts};
    ghost use Rattle.rasn_de.specs.ValueErrors.{errors_of};

    ghost errors = { λ tag _. errors_of (DecodesSequenceParts ⟦<Parts as DecodeParts>⟧.parts ⟦<Parts as DecodeParts>⟧.tree ⟦<Parts as DecodeParts>⟧.errors tag) };

    fn decode_with_tag_and_constraints(
        decoder: &mut Decoder<'_>,
        tag: Tag,
        _constraints: &Constraints,
    ) -> Result<CertificationRequestInfo, DecodeError> {
        let parts = match decoder.read_sequence::<Parts>(tag) {
            Ok(parts) => parts,
            Err(error) => return Err(error),
        };
        let Required(version, rest) = parts;
        let Required(subject, rest) = rest;
        let Required(subject_pk_info, rest) = rest;
        let Required(attributes, End) = rest;
        Ok(CertificationRequestInfo {
            version,
            subject,
            subject_pk_info,
            attributes,
        })
    }
}

impl Encode for CertificationRequestInfo {
    fn encode_with_tag_and_constraints(
        &self,
        encoder: &mut Encoder,
        tag: Tag,
        _constraints: &Constraints,
        _identifier: Identifier,
    ) -> Result<(), EncodeError> {
        let rest = Put(&self.attributes, End);
        let rest = Put(&self.subject_pk_info, rest);
        let rest = Put(&self.subject, rest);
        encoder.write_sequence(tag, Put(&self.version, rest))
    }

    fn is_present(&self) -> bool {
        true
    }
}
