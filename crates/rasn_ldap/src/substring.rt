// Written by `soqavise generate` from the ASN.1 of LDAP: change that, and write it again.
//! `Substring ::= CHOICE`
use rasn::parts::OneOf::{Other, This};
use rasn::prelude::*;

/// `Substring ::= CHOICE`
#[derive(Debug, PartialEq, Eq, Drop)]
pub enum Substring {
    /// `initial [0] IMPLICIT OCTET STRING`
    Initial(Implicit<ContextTag<0>, OctetString>),
    /// `any [1] IMPLICIT OCTET STRING`
    Any(Implicit<ContextTag<1>, OctetString>),
    /// `final [2] IMPLICIT OCTET STRING`
    FinalValue(Implicit<ContextTag<2>, OctetString>),
    /// `...`
    Unknown(Any),
}

/// The alternatives, as they are read.
type Alternatives = OneOf<Implicit<ContextTag<0>, OctetString>, Alternatives1>;

type Alternatives1 = OneOf<Implicit<ContextTag<1>, OctetString>, Alternatives2>;

type Alternatives2 = OneOf<Implicit<ContextTag<2>, OctetString>, Alternatives3>;

type Alternatives3 = Any;

impl AsnType for Substring {
    ghost use Rattle.std.specs.Prelude.{refl};
    ghost use Rattle.rasn_types.specs.Shapes.{open_choice, chosen};
    ghost use Rattle.rasn_types.specs.Tags.{eoc};
    ghost use Rattle.rasn_types.specs.Trees.{unconstrained};
    ghost use Rattle.rasn_ldap.specs.declared.substring.Substring.TheVariants.{Initial, Any, FinalValue, Unknown};

    ghost TAG = { eoc };

    const TAG: Tag = Tag::EOC;

    ghost CONSTRAINTS = { unconstrained };

    const CONSTRAINTS: Constraints = Constraints::NONE;

    ghost shape = { open_choice ⟦<Alternatives as DecodeAlternatives>⟧.parts };

    ghost tree = { elim [ Initial x ↦ chosen 0 (⟦<Implicit<ContextTag<0>, OctetString> as AsnType>⟧.tree x) | Any x ↦ chosen 1 (⟦<Implicit<ContextTag<1>, OctetString> as AsnType>⟧.tree x) | FinalValue x ↦ chosen 2 (⟦<Implicit<ContextTag<2>, OctetString> as AsnType>⟧.tree x) | Unknown x ↦ chosen 3 (⟦<Any as AsnType>⟧.tree x) ] };

    ghost own = { refl };
}

impl LawfulEq for Substring {
    ghost use Rattle.rasn_types.specs.Deciding.{deciding};
    ghost use Rattle.rasn_types.specs.Equality.{choice_decided, alternative};
    ghost use Rattle.rasn_ldap.specs.contracts.substring.Substring.{enum as own_enum};

    ghost decides = { choice_decided own_enum _ _ (alternative (λ x. x.0) (Prim.search deciding depth 64), (alternative (λ x. x.0) (Prim.search deciding depth 64), (alternative (λ x. x.0) (Prim.search deciding depth 64), (alternative (λ x. x.0) (Prim.search deciding depth 64), tt)))) };
}

impl Present for Substring {
    ghost use Rattle.rasn_types.specs.Equality.{chosen_not_absent};
    ghost use Rattle.rasn_ldap.specs.declared.substring.Substring.TheVariants.{Initial, Any, FinalValue, Unknown};

    ghost present = { elim [ Initial x ↦ chosen_not_absent | Any x ↦ chosen_not_absent | FinalValue x ↦ chosen_not_absent | Unknown x ↦ chosen_not_absent ] };
}

impl Decode for Substring {
    ghost use Rattle.std.specs.Prelude.{codes};
    ghost use Rattle.rasn_de.specs.AlternativeTypes.{DecodesAlternativeBy};
    ghost use Rattle.rasn_de.specs.ValueErrors.{errors_of, IsErrorByTag};

    ghost errors = { λ _ _ old e new. errors_of (DecodesAlternativeBy ⟦<Alternatives as DecodeAlternatives>⟧.extensible ⟦<Alternatives as DecodeAlternatives>⟧.parts ⟦<Alternatives as DecodeAlternatives>⟧.inner (codes "Substring")) old e new × IsErrorByTag ⟦<Alternatives as DecodeAlternatives>⟧.errors old e new };

    fn decode_with_tag_and_constraints(
        decoder: &mut Decoder<'_>,
        _tag: Tag,
        _constraints: &Constraints,
    ) -> Result<Substring, DecodeError> {
        match decoder.read_choice::<Alternatives>("Substring") {
            Ok(This(value)) => Ok(Substring::Initial(value)),
            Ok(Other(This(value))) => Ok(Substring::Any(value)),
            Ok(Other(Other(This(value)))) => Ok(Substring::FinalValue(value)),
            Ok(Other(Other(Other(value)))) => Ok(Substring::Unknown(value)),
            Err(error) => Err(error),
        }
    }
}

/// The alternatives, as they are written.
type Written<'a> = OneOf<&'a Implicit<ContextTag<0>, OctetString>, Written1<'a>>;

type Written1<'a> = OneOf<&'a Implicit<ContextTag<1>, OctetString>, Written2<'a>>;

type Written2<'a> = OneOf<&'a Implicit<ContextTag<2>, OctetString>, Written3<'a>>;

type Written3<'a> = &'a Any;

impl Encode for Substring {
    fn encode_with_tag_and_constraints(
        &self,
        encoder: &mut Encoder,
        _tag: Tag,
        _constraints: &Constraints,
        _identifier: Identifier,
    ) -> Result<(), EncodeError> {
        match self {
            Substring::Initial(value) => encoder.write_choice::<Written<'_>>(This(value)),
            Substring::Any(value) => encoder.write_choice::<Written<'_>>(Other(This(value))),
            Substring::FinalValue(value) => encoder.write_choice::<Written<'_>>(Other(Other(This(
                value,
            )))),
            Substring::Unknown(value) => encoder.write_choice::<Written<'_>>(Other(Other(Other(
                value,
            )))),
        }
    }

    fn is_present(&self) -> bool {
        true
    }
}
