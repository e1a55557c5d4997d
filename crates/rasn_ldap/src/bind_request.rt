// Written by `soqavise generate` from the ASN.1 of LDAP: change that, and write it again.
//! `BindRequest ::= [APPLICATION 0] IMPLICIT SEQUENCE`
use crate::{AuthenticationChoice, BindRequestVersion, LdapString};
use rasn::prelude::*;

/// `BindRequest ::= [APPLICATION 0] IMPLICIT SEQUENCE`
#[derive(Debug, PartialEq, Eq, Drop)]
pub struct BindRequest {
    /// `version BindRequest-version`
    pub version: BindRequestVersion,
    /// `name LDAPString`
    pub name: LdapString,
    /// `authentication AuthenticationChoice`
    pub authentication: AuthenticationChoice,
    /// `...`
    pub unknown: Unknown,
}

/// The components, as they are read.
type Parts = Required<BindRequestVersion, Parts1>;

type Parts1 = Required<LdapString, Parts2>;

type Parts2 = Required<AuthenticationChoice, Parts3>;

type Parts3 = Required<Unknown, End>;

impl AsnType for BindRequest {
    ghost use Rattle.std.specs.Prelude.{refl};
    ghost use Rattle.rasn_types.specs.declared.types.tag.Class.TheVariants.{Application};
    ghost use Rattle.rasn_types.specs.Shapes.{seq};
    ghost use Rattle.rasn_types.specs.Trees.{unconstrained};

    ghost TAG = { record { class = Application; value = 0 } };

    const TAG: Tag = Tag {
        class: Class::Application,
        value: 0,
    };

    ghost CONSTRAINTS = { unconstrained };

    const CONSTRAINTS: Constraints = Constraints::NONE;

    ghost shape = { seq (record { class = Application; value = 0 }) ⟦<Parts as DecodeParts>⟧.parts };

    ghost tree = { λ a. ⟦<Parts as DecodeParts>⟧.tree (record { 0 = a.version; 1 = record { 0 = a.name; 1 = record { 0 = a.authentication; 1 = record { 0 = a.unknown; 1 = record {} } } } }) };

    ghost own = { refl };
}

impl LawfulEq for BindRequest {
    ghost use Rattle.rasn_types.specs.Deciding.{deciding};
    ghost use Rattle.rasn_ldap.specs.contracts.authentication_choice.AuthenticationChoiceLawfulEq.TheImpl.Laws.{decides-law as authentication_choice_law};
    ghost use Rattle.rasn_ldap.specs.contracts.bind_request_version.BindRequestVersionLawfulEq.TheImpl.Laws.{decides-law as bind_request_version_law};

    ghost decides = { Prim.search (authentication_choice_law, bind_request_version_law, deciding) depth 64 };
}

impl Present for BindRequest {
    ghost use Rattle.rasn_types.specs.Equality.{parts_not_absent};

    ghost present = { λ _. parts_not_absent };
}

impl Decode for BindRequest {
    ghost use Rattle.rasn_de.specs.PartTypes.{DecodesSequenceParts};
    ghost use Rattle.rasn_de.specs.ValueErrors.{errors_of};

    ghost errors = { λ tag _. errors_of (DecodesSequenceParts ⟦<Parts as DecodeParts>⟧.parts ⟦<Parts as DecodeParts>⟧.tree ⟦<Parts as DecodeParts>⟧.errors tag) };

    fn decode_with_tag_and_constraints(
        decoder: &mut Decoder<'_>,
        tag: Tag,
        _constraints: &Constraints,
    ) -> Result<BindRequest, DecodeError> {
        let parts = match decoder.read_sequence::<Parts>(tag) {
            Ok(parts) => parts,
            Err(error) => return Err(error),
        };
        let Required(version, rest) = parts;
        let Required(name, rest) = rest;
        let Required(authentication, rest) = rest;
        let Required(unknown, End) = rest;
        Ok(BindRequest {
            version,
            name,
            authentication,
            unknown,
        })
    }
}

impl Encode for BindRequest {
    fn encode_with_tag_and_constraints(
        &self,
        encoder: &mut Encoder,
        tag: Tag,
        _constraints: &Constraints,
        _identifier: Identifier,
    ) -> Result<(), EncodeError> {
        let rest = Put(&self.unknown, End);
        let rest = Put(&self.authentication, rest);
        let rest = Put(&self.name, rest);
        encoder.write_sequence(tag, Put(&self.version, rest))
    }

    fn is_present(&self) -> bool {
        true
    }
}
