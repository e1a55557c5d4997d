// Written by `soqavise generate` from the ASN.1 of Certificates, Revocation, Requests,
// CertificateExtensions: change that, and write it again.
//! `Time ::= CHOICE`
use rasn::parts::OneOf::{Other, This};
use rasn::prelude::*;

/// `Time ::= CHOICE`
#[derive(Debug, PartialEq, Eq, Drop)]
pub enum Time {
    /// `utcTime UTCTime`
    UtcTime(UtcTime),
    /// `generalTime GeneralizedTime`
    GeneralTime(GeneralizedTime),
}

/// The alternatives, as they are read.
type Alternatives = OneOf<UtcTime, Alternatives1>;

type Alternatives1 = Last<GeneralizedTime>;

impl AsnType for Time {
    ghost use Rattle.std.specs.Prelude.{refl};
    ghost use Rattle.rasn_types.specs.Shapes.{choice, chosen};
    ghost use Rattle.rasn_types.specs.Tags.{eoc};
    ghost use Rattle.rasn_types.specs.Trees.{unconstrained};
    ghost use Rattle.rasn_pkix.specs.declared.time.Time.TheVariants.{UtcTime, GeneralTime};

    ghost TAG = { eoc };

    const TAG: Tag = Tag::EOC;

    ghost CONSTRAINTS = { unconstrained };

    const CONSTRAINTS: Constraints = Constraints::NONE;

    ghost shape = { choice ⟦<Alternatives as DecodeAlternatives>⟧.parts };

    ghost tree = { elim [ UtcTime x ↦ chosen 0 (⟦<UtcTime as AsnType>⟧.tree x) | GeneralTime x ↦ chosen 1 (⟦<GeneralizedTime as AsnType>⟧.tree x) ] };

    ghost own = { refl };
}

impl LawfulEq for Time {
    ghost use Rattle.rasn_types.specs.Deciding.{deciding};
    ghost use Rattle.rasn_types.specs.Equality.{choice_decided, alternative};
    ghost use Rattle.rasn_pkix.specs.contracts.time.Time.{enum as own_enum};

    ghost decides = { choice_decided own_enum _ _ (alternative (λ x. x.0) (Prim.search deciding depth 64), (alternative (λ x. x.0) (Prim.search deciding depth 64), tt)) };
}

impl Present for Time {
    ghost use Rattle.rasn_types.specs.Equality.{chosen_not_absent};
    ghost use Rattle.rasn_pkix.specs.declared.time.Time.TheVariants.{UtcTime, GeneralTime};

    ghost present = { elim [ UtcTime x ↦ chosen_not_absent | GeneralTime x ↦ chosen_not_absent ] };
}

impl FirstTags for Time {
    fn is_first_tag(tag: Tag) -> bool {
        <Alternatives as DecodeAlternatives>::has_tag(tag)
    }
}

impl Decode for Time {
    ghost use Rattle.std.specs.Prelude.{codes};
    ghost use Rattle.rasn_de.specs.AlternativeTypes.{DecodesAlternativeBy};
    ghost use Rattle.rasn_de.specs.ValueErrors.{errors_of, IsErrorByTag};
    ghost use Rattle.std.specs.Prelude.{IfOk};
    ghost use Rattle.rasn_de.specs.Beyond.{got};
    ghost use Rattle.rasn_pkix.specs.declared.time.Time.TheVariants.{UtcTime, GeneralTime};

    ghost beyond = { λ _ old result new. IfOk result (elim [ UtcTime x ↦ Unit {0} | GeneralTime x ↦ got (⟦<GeneralizedTime as Decode>⟧.beyond ⟦<GeneralizedTime as AsnType>⟧.TAG) old x new ]) };

    ghost errors = { λ _ _ old e new. errors_of (DecodesAlternativeBy ⟦<Alternatives as DecodeAlternatives>⟧.extensible ⟦<Alternatives as DecodeAlternatives>⟧.parts ⟦<Alternatives as DecodeAlternatives>⟧.inner (codes "Time")) old e new × IsErrorByTag ⟦<Alternatives as DecodeAlternatives>⟧.errors old e new };

    fn decode_with_tag_and_constraints(
        decoder: &mut Decoder<'_>,
        _tag: Tag,
        _constraints: &Constraints,
    ) -> Result<Time, DecodeError> {
        match decoder.read_choice::<Alternatives>("Time") {
            Ok(This(value)) => Ok(Time::UtcTime(value)),
            Ok(Other(Last(value))) => Ok(Time::GeneralTime(value)),
            Err(error) => Err(error),
        }
    }
}

/// The alternatives, as they are written.
type Written<'a> = OneOf<&'a UtcTime, Written1<'a>>;

type Written1<'a> = Last<&'a GeneralizedTime>;

impl Encode for Time {
    fn encode_with_tag_and_constraints(
        &self,
        encoder: &mut Encoder,
        _tag: Tag,
        _constraints: &Constraints,
        _identifier: Identifier,
    ) -> Result<(), EncodeError> {
        match self {
            Time::UtcTime(value) => encoder.write_choice::<Written<'_>>(This(value)),
            Time::GeneralTime(value) => encoder.write_choice::<Written<'_>>(Other(Last(value))),
        }
    }

    fn is_present(&self) -> bool {
        true
    }
}
