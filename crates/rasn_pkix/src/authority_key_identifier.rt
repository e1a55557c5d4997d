// Written by `soqavise generate` from the ASN.1 of Certificates, Revocation, Requests,
// CertificateExtensions: change that, and write it again.
//! `AuthorityKeyIdentifier ::= SEQUENCE`
use crate::GeneralNames;
use rasn::prelude::*;

/// `AuthorityKeyIdentifier ::= SEQUENCE`
#[derive(Debug, PartialEq, Eq, Drop)]
pub struct AuthorityKeyIdentifier {
    /// `keyIdentifier [0] IMPLICIT OCTET STRING OPTIONAL`
    pub key_identifier: Option<Implicit<ContextTag<0>, OctetString>>,
    /// `authorityCertIssuer [1] IMPLICIT GeneralNames OPTIONAL`
    pub authority_cert_issuer: Option<Implicit<ContextTag<1>, GeneralNames>>,
    /// `authorityCertSerialNumber [2] IMPLICIT INTEGER OPTIONAL`
    pub authority_cert_serial_number: Option<Implicit<ContextTag<2>, Integer>>,
}

/// The components, as they are read.
type Parts = Optional<Implicit<ContextTag<0>, OctetString>, Parts1>;

type Parts1 = Optional<Implicit<ContextTag<1>, GeneralNames>, Parts2>;

type Parts2 = Optional<Implicit<ContextTag<2>, Integer>, End>;

impl AsnType for AuthorityKeyIdentifier {
    ghost use Rattle.std.specs.Prelude.{refl};
    ghost use Rattle.rasn_types.specs.Tags.{in_universal};
    ghost use Rattle.rasn_types.specs.Shapes.{seq};
    ghost use Rattle.rasn_types.specs.Trees.{unconstrained};

    ghost TAG = { in_universal 16 };

    const TAG: Tag = Tag::SEQUENCE;

    ghost CONSTRAINTS = { unconstrained };

    const CONSTRAINTS: Constraints = Constraints::NONE;

    ghost shape = { seq (in_universal 16) ⟦<Parts as DecodeParts>⟧.parts };

    ghost tree = { λ a. ⟦<Parts as DecodeParts>⟧.tree (record { 0 = a.key_identifier; 1 = record { 0 = a.authority_cert_issuer; 1 = record { 0 = a.authority_cert_serial_number; 1 = record {} } } }) };

    ghost own = { refl };
}

impl LawfulEq for AuthorityKeyIdentifier {
    ghost use Rattle.rasn_types.specs.Deciding.{deciding};
    ghost use Rattle.rasn_pkix.specs.contracts.general_names.GeneralNamesLawfulEq.TheImpl.Laws.{decides-law as general_names_law};
    ghost use Rattle.rasn_pkix.specs.contracts.general_names.GeneralNamesPresent.TheImpl.Laws.{present-law as general_names_present};

    ghost decides = { Prim.search (general_names_law, general_names_present, deciding) depth 64 };
}

impl Present for AuthorityKeyIdentifier {
    ghost use Rattle.rasn_types.specs.Equality.{parts_not_absent};

    ghost present = { λ _. parts_not_absent };
}

impl Decode for AuthorityKeyIdentifier {
    ghost use Rattle.rasn_de.specs.PartTypes.{DecodesSequenceParts};
    ghost use Rattle.rasn_de.specs.ValueErrors.{errors_of};

    ghost errors = { λ tag _. errors_of (DecodesSequenceParts ⟦<Parts as DecodeParts>⟧.parts ⟦<Parts as DecodeParts>⟧.tree ⟦<Parts as DecodeParts>⟧.errors tag) };

    fn decode_with_tag_and_constraints(
        decoder: &mut Decoder<'_>,
        tag: Tag,
        _constraints: &Constraints,
    ) -> Result<AuthorityKeyIdentifier, DecodeError> {
        let parts = match decoder.read_sequence::<Parts>(tag) {
            Ok(parts) => parts,
            Err(error) => return Err(error),
        };
        let Optional(key_identifier, rest) = parts;
        let Optional(authority_cert_issuer, rest) = rest;
        let Optional(authority_cert_serial_number, End) = rest;
        Ok(AuthorityKeyIdentifier {
            key_identifier,
            authority_cert_issuer,
            authority_cert_serial_number,
        })
    }
}

impl Encode for AuthorityKeyIdentifier {
    fn encode_with_tag_and_constraints(
        &self,
        encoder: &mut Encoder,
        tag: Tag,
        _constraints: &Constraints,
        _identifier: Identifier,
    ) -> Result<(), EncodeError> {
        let rest = PutOptional(&self.authority_cert_serial_number, End);
        let rest = PutOptional(&self.authority_cert_issuer, rest);
        encoder.write_sequence(tag, PutOptional(&self.key_identifier, rest))
    }

    fn is_present(&self) -> bool {
        true
    }
}

impl WholeMessage for AuthorityKeyIdentifier {
    ghost use Rattle.std.specs.Prelude.{refl};
    ghost use Rattle.rasn_types.specs.declared.types.codec.Codec.TheVariants.{Der};

    ghost RULES = { Der };

    const RULES: Codec = Codec::Der;

    ghost whole = { refl };
}
