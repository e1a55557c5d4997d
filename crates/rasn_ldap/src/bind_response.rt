// Written by `soqavise generate` from the ASN.1 of LDAP: change that, and write it again.
//! `BindResponse ::= [APPLICATION 1] IMPLICIT SEQUENCE`
use crate::{LdapString, Referral, ResultCode};
use rasn::prelude::*;

/// `BindResponse ::= [APPLICATION 1] IMPLICIT SEQUENCE`
#[derive(Debug, PartialEq, Eq, Drop)]
pub struct BindResponse {
    /// `resultCode ResultCode`
    pub result_code: ResultCode,
    /// `matchedDN LDAPString`
    pub matched_dn: LdapString,
    /// `diagnosticMessage LDAPString`
    pub diagnostic_message: LdapString,
    /// `referral [3] IMPLICIT Referral OPTIONAL`
    pub referral: Option<Implicit<ContextTag<3>, Referral>>,
    /// `serverSaslCreds [7] IMPLICIT OCTET STRING OPTIONAL`
    pub server_sasl_creds: Option<Implicit<ContextTag<7>, OctetString>>,
    /// `...`
    pub unknown: Unknown,
}

/// The components, as they are read.
type Parts = Required<ResultCode, Parts1>;

type Parts1 = Required<LdapString, Parts2>;

type Parts2 = Required<LdapString, Parts3>;

type Parts3 = Optional<Implicit<ContextTag<3>, Referral>, Parts4>;

type Parts4 = Optional<Implicit<ContextTag<7>, OctetString>, Parts5>;

type Parts5 = Required<Unknown, End>;

impl AsnType for BindResponse {
    ghost use Rattle.std.specs.Prelude.{refl};
    ghost use Rattle.rasn_types.specs.declared.types.tag.Class.TheVariants.{Application};
    ghost use Rattle.rasn_types.specs.Shapes.{seq};
    ghost use Rattle.rasn_types.specs.Trees.{unconstrained};

    ghost TAG = { record { class = Application; value = 1 } };

    const TAG: Tag = Tag {
        class: Class::Application,
        value: 1,
    };

    ghost CONSTRAINTS = { unconstrained };

    const CONSTRAINTS: Constraints = Constraints::NONE;

    ghost shape = { seq (record { class = Application; value = 1 }) ⟦<Parts as DecodeParts>⟧.parts };

    ghost tree = { λ a. ⟦<Parts as DecodeParts>⟧.tree (record { 0 = a.result_code; 1 = record { 0 = a.matched_dn; 1 = record { 0 = a.diagnostic_message; 1 = record { 0 = a.referral; 1 = record { 0 = a.server_sasl_creds; 1 = record { 0 = a.unknown; 1 = record {} } } } } } }) };

    ghost own = { refl };
}

impl LawfulEq for BindResponse {
    ghost use Rattle.rasn_types.specs.Deciding.{deciding};
    ghost use Rattle.rasn_ldap.specs.contracts.referral.ReferralLawfulEq.TheImpl.Laws.{decides-law as referral_law};
    ghost use Rattle.rasn_ldap.specs.contracts.referral.ReferralPresent.TheImpl.Laws.{present-law as referral_present};

    ghost decides = { Prim.search (referral_law, referral_present, deciding) depth 64 };
}

impl Present for BindResponse {
    ghost use Rattle.rasn_types.specs.Equality.{parts_not_absent};

    ghost present = { λ _. parts_not_absent };
}

impl Decode for BindResponse {
    ghost use Rattle.rasn_de.specs.PartTypes.{DecodesSequenceParts};
    ghost use Rattle.rasn_de.specs.ValueErrors.{errors_of};

    ghost errors = { λ tag _. errors_of (DecodesSequenceParts ⟦<Parts as DecodeParts>⟧.parts ⟦<Parts as DecodeParts>⟧.tree ⟦<Parts as DecodeParts>⟧.errors tag) };

    fn decode_with_tag_and_constraints(
        decoder: &mut Decoder<'_>,
        tag: Tag,
        _constraints: &Constraints,
    ) -> Result<BindResponse, DecodeError> {
        let parts = match decoder.read_sequence::<Parts>(tag) {
            Ok(parts) => parts,
            Err(error) => return Err(error),
        };
        let Required(result_code, rest) = parts;
        let Required(matched_dn, rest) = rest;
        let Required(diagnostic_message, rest) = rest;
        let Optional(referral, rest) = rest;
        let Optional(server_sasl_creds, rest) = rest;
        let Required(unknown, End) = rest;
        Ok(BindResponse {
            result_code,
            matched_dn,
            diagnostic_message,
            referral,
            server_sasl_creds,
            unknown,
        })
    }
}

impl Encode for BindResponse {
    fn encode_with_tag_and_constraints(
        &self,
        encoder: &mut Encoder,
        tag: Tag,
        _constraints: &Constraints,
        _identifier: Identifier,
    ) -> Result<(), EncodeError> {
        let rest = Put(&self.unknown, End);
        let rest = PutOptional(&self.server_sasl_creds, rest);
        let rest = PutOptional(&self.referral, rest);
        let rest = Put(&self.diagnostic_message, rest);
        let rest = Put(&self.matched_dn, rest);
        encoder.write_sequence(tag, Put(&self.result_code, rest))
    }

    fn is_present(&self) -> bool {
        true
    }
}
