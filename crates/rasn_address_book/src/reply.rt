// Written by `soqavise generate` from the ASN.1 of AddressBook: change that, and write it again.
//! `Reply ::= CHOICE`
use crate::Percent;
use rasn::parts::OneOf::{Other, This};
use rasn::prelude::*;

/// `Reply ::= CHOICE`
#[derive(Debug, PartialEq, Eq, Drop)]
pub enum Reply {
    /// `accepted BOOLEAN`
    Accepted(bool),
    /// `guests [0] IMPLICIT Percent`
    Guests(Implicit<ContextTag<0>, Percent>),
    /// `...`
    Unknown(Any),
}

/// The alternatives, as they are read.
type Alternatives = OneOf<bool, Alternatives1>;

type Alternatives1 = OneOf<Implicit<ContextTag<0>, Percent>, Alternatives2>;

type Alternatives2 = Any;

impl AsnType for Reply {
    ghost use Rattle.std.specs.Prelude.{refl};
    ghost use Rattle.rasn_types.specs.Shapes.{open_choice, chosen};
    ghost use Rattle.rasn_types.specs.Tags.{eoc};
    ghost use Rattle.rasn_types.specs.Trees.{unconstrained};
    ghost use Rattle.rasn_address_book.specs.declared.reply.Reply.TheVariants.{Accepted, Guests, Unknown};

    ghost TAG = { eoc };

    const TAG: Tag = Tag::EOC;

    ghost CONSTRAINTS = { unconstrained };

    const CONSTRAINTS: Constraints = Constraints::NONE;

    ghost shape = { open_choice ⟦<Alternatives as DecodeAlternatives>⟧.parts };

    ghost tree = { elim [ Accepted x ↦ chosen 0 (⟦<bool as AsnType>⟧.tree x) | Guests x ↦ chosen 1 (⟦<Implicit<ContextTag<0>, Percent> as AsnType>⟧.tree x) | Unknown x ↦ chosen 2 (⟦<Any as AsnType>⟧.tree x) ] };

    ghost own = { refl };
}

impl LawfulEq for Reply {
    ghost use Rattle.rasn_types.specs.Deciding.{deciding};
    ghost use Rattle.rasn_types.specs.Equality.{choice_decided, alternative};
    ghost use Rattle.rasn_address_book.specs.contracts.reply.Reply.{enum as own_enum};
    ghost use Rattle.rasn_address_book.specs.contracts.percent.PercentLawfulEq.TheImpl.Laws.{decides-law as percent_law};

    ghost decides = { choice_decided own_enum _ _ (alternative (λ x. x.0) (Prim.search (percent_law, deciding) depth 64), (alternative (λ x. x.0) (Prim.search (percent_law, deciding) depth 64), (alternative (λ x. x.0) (Prim.search (percent_law, deciding) depth 64), tt))) };
}

impl Present for Reply {
    ghost use Rattle.rasn_types.specs.Equality.{chosen_not_absent};
    ghost use Rattle.rasn_address_book.specs.declared.reply.Reply.TheVariants.{Accepted, Guests, Unknown};

    ghost present = { elim [ Accepted x ↦ chosen_not_absent | Guests x ↦ chosen_not_absent | Unknown x ↦ chosen_not_absent ] };
}

impl Decode for Reply {
    ghost use Rattle.std.specs.Prelude.{codes};
    ghost use Rattle.rasn_de.specs.AlternativeTypes.{DecodesAlternativeBy};
    ghost use Rattle.rasn_de.specs.ValueErrors.{errors_of, IsErrorByTag};

    ghost errors = { λ _ _ old e new. errors_of (DecodesAlternativeBy ⟦<Alternatives as DecodeAlternatives>⟧.extensible ⟦<Alternatives as DecodeAlternatives>⟧.parts ⟦<Alternatives as DecodeAlternatives>⟧.inner (codes "Reply")) old e new × IsErrorByTag ⟦<Alternatives as DecodeAlternatives>⟧.errors old e new };

    fn decode_with_tag_and_constraints(
        decoder: &mut Decoder<'_>,
        _tag: Tag,
        _constraints: &Constraints,
    ) -> Result<Reply, DecodeError> {
        match decoder.read_choice::<Alternatives>("Reply") {
            Ok(This(value)) => Ok(Reply::Accepted(value)),
            Ok(Other(This(value))) => Ok(Reply::Guests(value)),
            Ok(Other(Other(value))) => Ok(Reply::Unknown(value)),
            Err(error) => Err(error),
        }
    }
}

/// The alternatives, as they are written.
type Written<'a> = OneOf<&'a bool, Written1<'a>>;

type Written1<'a> = OneOf<&'a Implicit<ContextTag<0>, Percent>, Written2<'a>>;

type Written2<'a> = &'a Any;

impl Encode for Reply {
    fn encode_with_tag_and_constraints(
        &self,
        encoder: &mut Encoder,
        _tag: Tag,
        _constraints: &Constraints,
        _identifier: Identifier,
    ) -> Result<(), EncodeError> {
        match self {
            Reply::Accepted(value) => encoder.write_choice::<Written<'_>>(This(value)),
            Reply::Guests(value) => encoder.write_choice::<Written<'_>>(Other(This(value))),
            Reply::Unknown(value) => encoder.write_choice::<Written<'_>>(Other(Other(value))),
        }
    }

    fn is_present(&self) -> bool {
        true
    }
}
