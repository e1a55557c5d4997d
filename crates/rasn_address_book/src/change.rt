// Written by `soqavise generate` from the ASN.1 of AddressBook: change that, and write it again.
//! `Change ::= CHOICE`
use crate::{Contact, Relation, Roles};
use rasn::parts::OneOf::{Other, This};
use rasn::prelude::*;

/// `Change ::= CHOICE`
#[derive(Debug, PartialEq, Eq, Drop)]
pub enum Change {
    /// `renumber [0] IMPLICIT INTEGER`
    Renumber(Implicit<ContextTag<0>, Integer>),
    /// `list [1] IMPLICIT BOOLEAN`
    List(Implicit<ContextTag<1>, bool>),
    /// `remove [2] IMPLICIT NULL`
    Remove(Implicit<ContextTag<2>, ()>),
    /// `rename [3] IMPLICIT UTF8String`
    Rename(Implicit<ContextTag<3>, Utf8String>),
    /// `reach [4] EXPLICIT Contact`
    Reach(Explicit<ContextTag<4>, Contact>),
    /// `relate [5] IMPLICIT Relation`
    Relate(Implicit<ContextTag<5>, Relation>),
    /// `promote [6] IMPLICIT OBJECT IDENTIFIER`
    Promote(Implicit<ContextTag<6>, ObjectIdentifier>),
    /// `attend [7] IMPLICIT SEQUENCE OF BOOLEAN`
    Attend(Implicit<ContextTag<7>, Vec<bool>>),
    /// `mark [8] IMPLICIT BIT STRING`
    Mark(Implicit<ContextTag<8>, BitString>),
    /// `annotate [9] IMPLICIT OCTET STRING`
    Annotate(Implicit<ContextTag<9>, OctetString>),
    /// `roles Roles`
    Roles(Roles),
}

/// The alternatives, as they are read.
type Alternatives = OneOf<Implicit<ContextTag<0>, Integer>, Alternatives1>;

type Alternatives1 = OneOf<Implicit<ContextTag<1>, bool>, Alternatives2>;

type Alternatives2 = OneOf<Implicit<ContextTag<2>, ()>, Alternatives3>;

type Alternatives3 = OneOf<Implicit<ContextTag<3>, Utf8String>, Alternatives4>;

type Alternatives4 = OneOf<Explicit<ContextTag<4>, Contact>, Alternatives5>;

type Alternatives5 = OneOf<Implicit<ContextTag<5>, Relation>, Alternatives6>;

type Alternatives6 = OneOf<Implicit<ContextTag<6>, ObjectIdentifier>, Alternatives7>;

type Alternatives7 = OneOf<Implicit<ContextTag<7>, Vec<bool>>, Alternatives8>;

type Alternatives8 = OneOf<Implicit<ContextTag<8>, BitString>, Alternatives9>;

type Alternatives9 = OneOf<Implicit<ContextTag<9>, OctetString>, Alternatives10>;

type Alternatives10 = Last<Roles>;

impl AsnType for Change {
    ghost use Rattle.std.specs.Prelude.{refl};
    ghost use Rattle.rasn_types.specs.Shapes.{choice, chosen};
    ghost use Rattle.rasn_types.specs.Tags.{eoc};
    ghost use Rattle.rasn_types.specs.Trees.{unconstrained};
    ghost use Rattle.rasn_address_book.specs.declared.change.Change.TheVariants.{Renumber, List, Remove, Rename, Reach, Relate, Promote, Attend, Mark, Annotate, Roles};

    ghost TAG = { eoc };

    const TAG: Tag = Tag::EOC;

    ghost CONSTRAINTS = { unconstrained };

    const CONSTRAINTS: Constraints = Constraints::NONE;

    ghost shape = { choice ⟦<Alternatives as DecodeAlternatives>⟧.parts };

    ghost tree = { elim [ Renumber x ↦ chosen 0 (⟦<Implicit<ContextTag<0>, Integer> as AsnType>⟧.tree x) | List x ↦ chosen 1 (⟦<Implicit<ContextTag<1>, bool> as AsnType>⟧.tree x) | Remove x ↦ chosen 2 (⟦<Implicit<ContextTag<2>, ()> as AsnType>⟧.tree x) | Rename x ↦ chosen 3 (⟦<Implicit<ContextTag<3>, Utf8String> as AsnType>⟧.tree x) | Reach x ↦ chosen 4 (⟦<Explicit<ContextTag<4>, Contact> as AsnType>⟧.tree x) | Relate x ↦ chosen 5 (⟦<Implicit<ContextTag<5>, Relation> as AsnType>⟧.tree x) | Promote x ↦ chosen 6 (⟦<Implicit<ContextTag<6>, ObjectIdentifier> as AsnType>⟧.tree x) | Attend x ↦ chosen 7 (⟦<Implicit<ContextTag<7>, Vec<bool>> as AsnType>⟧.tree x) | Mark x ↦ chosen 8 (⟦<Implicit<ContextTag<8>, BitString> as AsnType>⟧.tree x) | Annotate x ↦ chosen 9 (⟦<Implicit<ContextTag<9>, OctetString> as AsnType>⟧.tree x) | Roles x ↦ chosen 10 (⟦<Roles as AsnType>⟧.tree x) ] };

    ghost own = { refl };
}

impl LawfulEq for Change {
    ghost use Rattle.rasn_types.specs.Deciding.{deciding};
    ghost use Rattle.rasn_types.specs.Equality.{choice_decided, alternative};
    ghost use Rattle.rasn_address_book.specs.contracts.change.Change.{enum as own_enum};
    ghost use Rattle.rasn_address_book.specs.contracts.contact.ContactLawfulEq.TheImpl.Laws.{decides-law as contact_law};
    ghost use Rattle.rasn_address_book.specs.contracts.relation.RelationLawfulEq.TheImpl.Laws.{decides-law as relation_law};
    ghost use Rattle.rasn_address_book.specs.contracts.roles.RolesLawfulEq.TheImpl.Laws.{decides-law as roles_law};

    ghost decides = { choice_decided own_enum _ _ (alternative (λ x. x.0) (Prim.search (contact_law, relation_law, roles_law, deciding) depth 64), (alternative (λ x. x.0) (Prim.search (contact_law, relation_law, roles_law, deciding) depth 64), (alternative (λ x. x.0) (Prim.search (contact_law, relation_law, roles_law, deciding) depth 64), (alternative (λ x. x.0) (Prim.search (contact_law, relation_law, roles_law, deciding) depth 64), (alternative (λ x. x.0) (Prim.search (contact_law, relation_law, roles_law, deciding) depth 64), (alternative (λ x. x.0) (Prim.search (contact_law, relation_law, roles_law, deciding) depth 64), (alternative (λ x. x.0) (Prim.search (contact_law, relation_law, roles_law, deciding) depth 64), (alternative (λ x. x.0) (Prim.search (contact_law, relation_law, roles_law, deciding) depth 64), (alternative (λ x. x.0) (Prim.search (contact_law, relation_law, roles_law, deciding) depth 64), (alternative (λ x. x.0) (Prim.search (contact_law, relation_law, roles_law, deciding) depth 64), (alternative (λ x. x.0) (Prim.search (contact_law, relation_law, roles_law, deciding) depth 64), tt))))))))))) };
}

impl Present for Change {
    ghost use Rattle.rasn_types.specs.Equality.{chosen_not_absent};
    ghost use Rattle.rasn_address_book.specs.declared.change.Change.TheVariants.{Renumber, List, Remove, Rename, Reach, Relate, Promote, Attend, Mark, Annotate, Roles};

    ghost present = { elim [ Renumber x ↦ chosen_not_absent | List x ↦ chosen_not_absent | Remove x ↦ chosen_not_absent | Rename x ↦ chosen_not_absent | Reach x ↦ chosen_not_absent | Relate x ↦ chosen_not_absent | Promote x ↦ chosen_not_absent | Attend x ↦ chosen_not_absent | Mark x ↦ chosen_not_absent | Annotate x ↦ chosen_not_absent | Roles x ↦ chosen_not_absent ] };
}

impl FirstTags for Change {
    fn is_first_tag(tag: Tag) -> bool {
        <Alternatives as DecodeAlternatives>::has_tag(tag)
    }
}

impl Decode for Change {
    ghost use Rattle.std.specs.Prelude.{codes};
    ghost use Rattle.rasn_de.specs.AlternativeTypes.{DecodesAlternativeBy};
    ghost use Rattle.rasn_de.specs.ValueErrors.{errors_of, IsErrorByTag};

    ghost errors = { λ _ _ old e new. errors_of (DecodesAlternativeBy ⟦<Alternatives as DecodeAlternatives>⟧.extensible ⟦<Alternatives as DecodeAlternatives>⟧.parts ⟦<Alternatives as DecodeAlternatives>⟧.inner (codes "Change")) old e new × IsErrorByTag ⟦<Alternatives as DecodeAlternatives>⟧.errors old e new };

    fn decode_with_tag_and_constraints(
        decoder: &mut Decoder<'_>,
        _tag: Tag,
        _constraints: &Constraints,
    ) -> Result<Change, DecodeError> {
        match decoder.read_choice::<Alternatives>("Change") {
            Ok(This(value)) => Ok(Change::Renumber(value)),
            Ok(Other(This(value))) => Ok(Change::List(value)),
            Ok(Other(Other(This(value)))) => Ok(Change::Remove(value)),
            Ok(Other(Other(Other(This(value))))) => Ok(Change::Rename(value)),
            Ok(Other(Other(Other(Other(This(value)))))) => Ok(Change::Reach(value)),
            Ok(Other(Other(Other(Other(Other(This(value))))))) => Ok(Change::Relate(value)),
            Ok(Other(Other(Other(Other(Other(Other(This(value)))))))) => Ok(Change::Promote(value)),
            Ok(Other(Other(Other(Other(Other(Other(Other(This(value))))))))) => Ok(Change::Attend(
                value,
            )),
            Ok(Other(Other(Other(Other(Other(Other(Other(Other(This(value)))))))))) => Ok(
                Change::Mark(value),
            ),
            Ok(Other(Other(Other(Other(Other(Other(Other(Other(Other(This(value))))))))))) => Ok(
                Change::Annotate(value),
            ),
            Ok(Other(Other(Other(Other(Other(Other(Other(Other(Other(Other(Last(value)))))))))))) =>
                Ok(Change::Roles(value)),
            Err(error) => Err(error),
        }
    }
}

/// The alternatives, as they are written.
type Written<'a> = OneOf<&'a Implicit<ContextTag<0>, Integer>, Written1<'a>>;

type Written1<'a> = OneOf<&'a Implicit<ContextTag<1>, bool>, Written2<'a>>;

type Written2<'a> = OneOf<&'a Implicit<ContextTag<2>, ()>, Written3<'a>>;

type Written3<'a> = OneOf<&'a Implicit<ContextTag<3>, Utf8String>, Written4<'a>>;

type Written4<'a> = OneOf<&'a Explicit<ContextTag<4>, Contact>, Written5<'a>>;

type Written5<'a> = OneOf<&'a Implicit<ContextTag<5>, Relation>, Written6<'a>>;

type Written6<'a> = OneOf<&'a Implicit<ContextTag<6>, ObjectIdentifier>, Written7<'a>>;

type Written7<'a> = OneOf<&'a Implicit<ContextTag<7>, Vec<bool>>, Written8<'a>>;

type Written8<'a> = OneOf<&'a Implicit<ContextTag<8>, BitString>, Written9<'a>>;

type Written9<'a> = OneOf<&'a Implicit<ContextTag<9>, OctetString>, Written10<'a>>;

type Written10<'a> = Last<&'a Roles>;

impl Encode for Change {
    fn encode_with_tag_and_constraints(
        &self,
        encoder: &mut Encoder,
        _tag: Tag,
        _constraints: &Constraints,
        _identifier: Identifier,
    ) -> Result<(), EncodeError> {
        match self {
            Change::Renumber(value) => encoder.write_choice::<Written<'_>>(This(value)),
            Change::List(value) => encoder.write_choice::<Written<'_>>(Other(This(value))),
            Change::Remove(value) => encoder.write_choice::<Written<'_>>(Other(Other(This(value)))),
            Change::Rename(value) => encoder.write_choice::<Written<'_>>(Other(Other(Other(This(
                value,
            ))))),
            Change::Reach(value) => encoder.write_choice::<Written<'_>>(Other(Other(Other(Other(
                This(value),
            ))))),
            Change::Relate(value) => encoder.write_choice::<Written<'_>>(Other(Other(Other(Other(
                Other(This(value)),
            ))))),
            Change::Promote(value) => encoder.write_choice::<Written<'_>>(Other(Other(Other(Other(
                Other(Other(This(value))),
            ))))),
            Change::Attend(value) => encoder.write_choice::<Written<'_>>(Other(Other(Other(Other(
                Other(Other(Other(This(value)))),
            ))))),
            Change::Mark(value) => encoder.write_choice::<Written<'_>>(Other(Other(Other(Other(
                Other(Other(Other(Other(This(value))))),
            ))))),
            Change::Annotate(value) => encoder.write_choice::<Written<'_>>(Other(Other(Other(Other(
                Other(Other(Other(Other(Other(This(value)))))),
            ))))),
            Change::Roles(value) => encoder.write_choice::<Written<'_>>(Other(Other(Other(Other(
                Other(Other(Other(Other(Other(Other(Last(value))))))),
            ))))),
        }
    }

    fn is_present(&self) -> bool {
        true
    }
}
