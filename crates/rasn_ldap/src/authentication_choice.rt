// Written by `soqavise generate` from the ASN.1 of LDAP: change that, and write it again.
//! `AuthenticationChoice ::= CHOICE`
use crate::SaslCredentials;
use rasn::parts::OneOf::{Other, This};
use rasn::prelude::*;

/// `AuthenticationChoice ::= CHOICE`
#[derive(Debug, PartialEq, Eq, Drop)]
pub enum AuthenticationChoice {
    /// `simple [0] IMPLICIT OCTET STRING`
    Simple(Implicit<ContextTag<0>, OctetString>),
    /// `sasl [3] IMPLICIT SaslCredentials`
    Sasl(Implicit<ContextTag<3>, SaslCredentials>),
    /// `...`
    Unknown(Any),
}

/// The alternatives, as they are read.
type Alternatives = OneOf<Implicit<ContextTag<0>, OctetString>, Alternatives1>;

type Alternatives1 = OneOf<Implicit<ContextTag<3>, SaslCredentials>, Alternatives2>;

type Alternatives2 = Any;

impl AsnType for AuthenticationChoice {
    ghost use Rattle.std.specs.Prelude.{refl};
    ghost use Rattle.rasn_types.specs.Shapes.{open_choice, chosen};
    ghost use Rattle.rasn_types.specs.Tags.{eoc};
    ghost use Rattle.rasn_types.specs.Trees.{unconstrained};
    ghost use Rattle.rasn_ldap.specs.declared.authentication_choice.AuthenticationChoice.TheVariants.{Simple, Sasl, Unknown};

    ghost TAG = { eoc };

    const TAG: Tag = Tag::EOC;

    ghost CONSTRAINTS = { unconstrained };

    const CONSTRAINTS: Constraints = Constraints::NONE;

    ghost shape = { open_choice ⟦<Alternatives as DecodeAlternatives>⟧.parts };

    ghost tree = { elim [ Simple x ↦ chosen 0 (⟦<Implicit<ContextTag<0>, OctetString> as AsnType>⟧.tree x) | Sasl x ↦ chosen 1 (⟦<Implicit<ContextTag<3>, SaslCredentials> as AsnType>⟧.tree x) | Unknown x ↦ chosen 2 (⟦<Any as AsnType>⟧.tree x) ] };

    ghost own = { refl };
}

impl LawfulEq for AuthenticationChoice {
    ghost use Rattle.rasn_types.specs.Deciding.{deciding};
    ghost use Rattle.rasn_types.specs.Equality.{choice_decided, alternative};
    ghost use Rattle.rasn_ldap.specs.contracts.authentication_choice.AuthenticationChoice.{enum as own_enum};
    ghost use Rattle.rasn_ldap.specs.contracts.sasl_credentials.SaslCredentialsLawfulEq.TheImpl.Laws.{decides-law as sasl_credentials_law};

    ghost decides = { choice_decided own_enum _ _ (alternative (λ x. x.0) (Prim.search (sasl_credentials_law, deciding) depth 64), (alternative (λ x. x.0) (Prim.search (sasl_credentials_law, deciding) depth 64), (alternative (λ x. x.0) (Prim.search (sasl_credentials_law, deciding) depth 64), tt))) };
}

impl Present for AuthenticationChoice {
    ghost use Rattle.rasn_types.specs.Equality.{chosen_not_absent};
    ghost use Rattle.rasn_ldap.specs.declared.authentication_choice.AuthenticationChoice.TheVariants.{Simple, Sasl, Unknown};

    ghost present = { elim [ Simple x ↦ chosen_not_absent | Sasl x ↦ chosen_not_absent | Unknown x ↦ chosen_not_absent ] };
}

impl Decode for AuthenticationChoice {
    ghost use Rattle.std.specs.Prelude.{codes};
    ghost use Rattle.rasn_de.specs.AlternativeTypes.{DecodesAlternativeBy};
    ghost use Rattle.rasn_de.specs.ValueErrors.{errors_of, IsErrorByTag};

    ghost errors = { λ _ _ old e new. errors_of (DecodesAlternativeBy ⟦<Alternatives as DecodeAlternatives>⟧.extensible ⟦<Alternatives as DecodeAlternatives>⟧.parts ⟦<Alternatives as DecodeAlternatives>⟧.inner (codes "AuthenticationChoice")) old e new × IsErrorByTag ⟦<Alternatives as DecodeAlternatives>⟧.errors old e new };

    fn decode_with_tag_and_constraints(
        decoder: &mut Decoder<'_>,
        _tag: Tag,
        _constraints: &Constraints,
    ) -> Result<AuthenticationChoice, DecodeError> {
        match decoder.read_choice::<Alternatives>("AuthenticationChoice") {
            Ok(This(value)) => Ok(AuthenticationChoice::Simple(value)),
            Ok(Other(This(value))) => Ok(AuthenticationChoice::Sasl(value)),
            Ok(Other(Other(value))) => Ok(AuthenticationChoice::Unknown(value)),
            Err(error) => Err(error),
        }
    }
}

/// The alternatives, as they are written.
type Written<'a> = OneOf<&'a Implicit<ContextTag<0>, OctetString>, Written1<'a>>;

type Written1<'a> = OneOf<&'a Implicit<ContextTag<3>, SaslCredentials>, Written2<'a>>;

type Written2<'a> = &'a Any;

impl Encode for AuthenticationChoice {
    fn encode_with_tag_and_constraints(
        &self,
        encoder: &mut Encoder,
        _tag: Tag,
        _constraints: &Constraints,
        _identifier: Identifier,
    ) -> Result<(), EncodeError> {
        match self {
            AuthenticationChoice::Simple(value) => encoder.write_choice::<Written<'_>>(This(value)),
            AuthenticationChoice::Sasl(value) => encoder.write_choice::<Written<'_>>(Other(This(
                value,
            ))),
            AuthenticationChoice::Unknown(value) => encoder.write_choice::<Written<'_>>(Other(Other(
                value,
            ))),
        }
    }

    fn is_present(&self) -> bool {
        true
    }
}
