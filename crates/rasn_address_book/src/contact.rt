// Written by `soqavise generate` from the ASN.1 of AddressBook: change that, and write it again.
//! `Contact ::= CHOICE`
use crate::Team;
use rasn::parts::OneOf::{Other, This};
use rasn::prelude::*;

/// `Contact ::= CHOICE`
#[derive(Debug, PartialEq, Eq, Drop)]
pub enum Contact {
    /// `email IA5String`
    Email(Ia5String),
    /// `phone NumericString`
    Phone(NumericString),
    /// `team [1] IMPLICIT Team`
    Team(Implicit<ContextTag<1>, Team>),
}

/// The alternatives, as they are read.
type Alternatives = OneOf<Ia5String, Alternatives1>;

type Alternatives1 = OneOf<NumericString, Alternatives2>;

type Alternatives2 = Last<Implicit<ContextTag<1>, Team>>;

impl AsnType for Contact {
    ghost use Rattle.std.specs.Prelude.{refl};
    ghost use Rattle.rasn_types.specs.Shapes.{choice, chosen};
    ghost use Rattle.rasn_types.specs.Tags.{eoc};
    ghost use Rattle.rasn_types.specs.Trees.{unconstrained};
    ghost use Rattle.rasn_address_book.specs.declared.contact.Contact.TheVariants.{Email, Phone, Team};

    ghost TAG = { eoc };

    const TAG: Tag = Tag::EOC;

    ghost CONSTRAINTS = { unconstrained };

    const CONSTRAINTS: Constraints = Constraints::NONE;

    ghost shape = { choice ⟦<Alternatives as DecodeAlternatives>⟧.parts };

    ghost tree = { elim [ Email x ↦ chosen 0 (⟦<Ia5String as AsnType>⟧.tree x) | Phone x ↦ chosen 1 (⟦<NumericString as AsnType>⟧.tree x) | Team x ↦ chosen 2 (⟦<Implicit<ContextTag<1>, Team> as AsnType>⟧.tree x) ] };

    ghost own = { refl };
}

impl LawfulEq for Contact {
    ghost use Rattle.rasn_types.specs.Deciding.{deciding};
    ghost use Rattle.rasn_types.specs.Equality.{choice_decided, alternative};
    ghost use Rattle.rasn_address_book.specs.contracts.contact.Contact.{enum as own_enum};
    ghost use Rattle.rasn_address_book.specs.contracts.team.TeamLawfulEq.TheImpl.Laws.{decides-law as team_law};

    ghost decides = { choice_decided own_enum _ _ (alternative (λ x. x.0) (Prim.search (team_law, deciding) depth 64), (alternative (λ x. x.0) (Prim.search (team_law, deciding) depth 64), (alternative (λ x. x.0) (Prim.search (team_law, deciding) depth 64), tt))) };
}

impl Present for Contact {
    ghost use Rattle.rasn_types.specs.Equality.{chosen_not_absent};
    ghost use Rattle.rasn_address_book.specs.declared.contact.Contact.TheVariants.{Email, Phone, Team};

    ghost present = { elim [ Email x ↦ chosen_not_absent | Phone x ↦ chosen_not_absent | Team x ↦ chosen_not_absent ] };
}

impl FirstTags for Contact {
    fn is_first_tag(tag: Tag) -> bool {
        <Alternatives as DecodeAlternatives>::has_tag(tag)
    }
}

impl Decode for Contact {
    ghost use Rattle.std.specs.Prelude.{codes};
    ghost use Rattle.rasn_de.specs.AlternativeTypes.{DecodesAlternativeBy};
    ghost use Rattle.rasn_de.specs.ValueErrors.{errors_of, IsErrorByTag};

    ghost errors = { λ _ _ old e new. errors_of (DecodesAlternativeBy ⟦<Alternatives as DecodeAlternatives>⟧.extensible ⟦<Alternatives as DecodeAlternatives>⟧.parts ⟦<Alternatives as DecodeAlternatives>⟧.inner (codes "Contact")) old e new × IsErrorByTag ⟦<Alternatives as DecodeAlternatives>⟧.errors old e new };

    fn decode_with_tag_and_constraints(
        decoder: &mut Decoder<'_>,
        _tag: Tag,
        _constraints: &Constraints,
    ) -> Result<Contact, DecodeError> {
        match decoder.read_choice::<Alternatives>("Contact") {
            Ok(This(value)) => Ok(Contact::Email(value)),
            Ok(Other(This(value))) => Ok(Contact::Phone(value)),
            Ok(Other(Other(Last(value)))) => Ok(Contact::Team(value)),
            Err(error) => Err(error),
        }
    }
}

/// The alternatives, as they are written.
type Written<'a> = OneOf<&'a Ia5String, Written1<'a>>;

type Written1<'a> = OneOf<&'a NumericString, Written2<'a>>;

type Written2<'a> = Last<&'a Implicit<ContextTag<1>, Team>>;

impl Encode for Contact {
    fn encode_with_tag_and_constraints(
        &self,
        encoder: &mut Encoder,
        _tag: Tag,
        _constraints: &Constraints,
        _identifier: Identifier,
    ) -> Result<(), EncodeError> {
        match self {
            Contact::Email(value) => encoder.write_choice::<Written<'_>>(This(value)),
            Contact::Phone(value) => encoder.write_choice::<Written<'_>>(Other(This(value))),
            Contact::Team(value) => encoder.write_choice::<Written<'_>>(Other(Other(Last(value)))),
        }
    }

    fn is_present(&self) -> bool {
        true
    }
}
