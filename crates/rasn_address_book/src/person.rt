// Written by `soqavise generate` from the ASN.1 of AddressBook: change that, and write it again.
//! `Person ::= SEQUENCE`
use crate::{Contact, Percent, PersonHome, PersonId, Relation, Team};
use rasn::prelude::*;
use std::alloc::{AllocError, Global};

/// `Person ::= SEQUENCE`
#[derive(Debug, PartialEq, Eq, Drop)]
pub struct Person {
    /// `id PersonId`
    pub id: PersonId,
    /// `name UTF8String`
    pub name: Utf8String,
    /// `listed BOOLEAN DEFAULT TRUE`
    pub listed: bool,
    /// `floor [2] IMPLICIT INTEGER DEFAULT -1`
    pub floor: Implicit<ContextTag<2>, Integer>,
    /// `room INTEGER (0..65535)`
    pub room: u16,
    /// `email IA5String OPTIONAL`
    pub email: Option<Ia5String>,
    /// `role OBJECT IDENTIFIER`
    pub role: ObjectIdentifier,
    /// `contact Contact`
    pub contact: Contact,
    /// `relation [0] IMPLICIT Relation DEFAULT colleague`
    pub relation: Implicit<ContextTag<0>, Relation>,
    /// `visits [1] EXPLICIT INTEGER DEFAULT 1`
    pub visits: Integer,
    /// `attendance [3] IMPLICIT SEQUENCE OF Percent`
    pub attendance: Implicit<ContextTag<3>, Vec<Percent>>,
    /// `home Person-home`
    pub home: PersonHome,
    /// `team [5] IMPLICIT Team OPTIONAL`
    pub team: Option<Implicit<ContextTag<5>, Team>>,
    /// `photo [6] EXPLICIT ANY`
    pub photo: Explicit<ContextTag<6>, Any>,
    /// `...`
    pub unknown: Unknown,
}

/// The components, as they are read.
type Parts = Required<PersonId, Parts1>;

type Parts1 = Required<Utf8String, Parts2>;

type Parts2 = Defaulted<ListedDefault, Parts3>;

type Parts3 = Defaulted<FloorDefault, Parts4>;

type Parts4 = Required<u16, Parts5>;

type Parts5 = Optional<Ia5String, Parts6>;

type Parts6 = Required<ObjectIdentifier, Parts7>;

type Parts7 = Required<Contact, Parts8>;

type Parts8 = Defaulted<RelationDefault, Parts9>;

type Parts9 = DefaultedExplicit<VisitsDefault, Parts10>;

type Parts10 = Required<Implicit<ContextTag<3>, Vec<Percent>>, Parts11>;

type Parts11 = Required<PersonHome, Parts12>;

type Parts12 = Optional<Implicit<ContextTag<5>, Team>, Parts13>;

type Parts13 = Required<Explicit<ContextTag<6>, Any>, Parts14>;

type Parts14 = Required<Unknown, End>;

impl AsnType for Person {
    ghost use Rattle.std.specs.Prelude.{refl};
    ghost use Rattle.rasn_types.specs.Tags.{in_universal};
    ghost use Rattle.rasn_types.specs.Shapes.{seq};
    ghost use Rattle.rasn_types.specs.Trees.{unconstrained};

    ghost TAG = { in_universal 16 };

    const TAG: Tag = Tag::SEQUENCE;

    ghost CONSTRAINTS = { unconstrained };

    const CONSTRAINTS: Constraints = Constraints::NONE;

    ghost shape = { seq (in_universal 16) ⟦<Parts as DecodeParts>⟧.parts };

    ghost tree = { λ a. ⟦<Parts as DecodeParts>⟧.tree (record { 0 = a.id; 1 = record { 0 = a.name; 1 = record { 0 = a.listed; 1 = record { 0 = a.floor; 1 = record { 0 = a.room; 1 = record { 0 = a.email; 1 = record { 0 = a.role; 1 = record { 0 = a.contact; 1 = record { 0 = a.relation; 1 = record { 0 = a.visits; 1 = record { 0 = a.attendance; 1 = record { 0 = a.home; 1 = record { 0 = a.team; 1 = record { 0 = a.photo; 1 = record { 0 = a.unknown; 1 = record {} } } } } } } } } } } } } } } }) };

    ghost own = { refl };
}

impl LawfulEq for Person {
    ghost use Rattle.rasn_types.specs.Deciding.{deciding};
    ghost use Rattle.rasn_address_book.specs.contracts.contact.ContactLawfulEq.TheImpl.Laws.{decides-law as contact_law};
    ghost use Rattle.rasn_address_book.specs.contracts.percent.PercentLawfulEq.TheImpl.Laws.{decides-law as percent_law};
    ghost use Rattle.rasn_address_book.specs.contracts.person_home.PersonHomeLawfulEq.TheImpl.Laws.{decides-law as person_home_law};
    ghost use Rattle.rasn_address_book.specs.contracts.relation.RelationLawfulEq.TheImpl.Laws.{decides-law as relation_law};
    ghost use Rattle.rasn_address_book.specs.contracts.team.TeamLawfulEq.TheImpl.Laws.{decides-law as team_law};
    ghost use Rattle.rasn_address_book.specs.contracts.team.TeamPresent.TheImpl.Laws.{present-law as team_present};

    ghost decides = { Prim.search (contact_law, percent_law, person_home_law, relation_law, team_law, team_present, deciding) depth 64 };
}

impl Present for Person {
    ghost use Rattle.rasn_types.specs.Equality.{parts_not_absent};

    ghost present = { λ _. parts_not_absent };
}

impl Decode for Person {
    ghost use Rattle.rasn_de.specs.PartTypes.{DecodesSequenceParts};
    ghost use Rattle.rasn_de.specs.ValueErrors.{errors_of};

    ghost errors = { λ tag _. errors_of (DecodesSequenceParts ⟦<Parts as DecodeParts>⟧.parts ⟦<Parts as DecodeParts>⟧.tree ⟦<Parts as DecodeParts>⟧.errors tag) };

    fn decode_with_tag_and_constraints(
        decoder: &mut Decoder<'_>,
        tag: Tag,
        _constraints: &Constraints,
    ) -> Result<Person, DecodeError> {
        let parts = match decoder.read_sequence::<Parts>(tag) {
            Ok(parts) => parts,
            Err(error) => return Err(error),
        };
        let Required(id, rest) = parts;
        let Required(name, rest) = rest;
        let Defaulted(listed, rest) = rest;
        let Defaulted(floor, rest) = rest;
        let Required(room, rest) = rest;
        let Optional(email, rest) = rest;
        let Required(role, rest) = rest;
        let Required(contact, rest) = rest;
        let Defaulted(relation, rest) = rest;
        let DefaultedExplicit(visits, rest) = rest;
        let Required(attendance, rest) = rest;
        let Required(home, rest) = rest;
        let Optional(team, rest) = rest;
        let Required(photo, rest) = rest;
        let Required(unknown, End) = rest;
        Ok(Person {
            id,
            name,
            listed,
            floor,
            room,
            email,
            role,
            contact,
            relation,
            visits,
            attendance,
            home,
            team,
            photo,
            unknown,
        })
    }
}

impl Encode for Person {
    fn encode_with_tag_and_constraints(
        &self,
        encoder: &mut Encoder,
        tag: Tag,
        _constraints: &Constraints,
        _identifier: Identifier,
    ) -> Result<(), EncodeError> {
        let rest = Put(&self.unknown, End);
        let rest = Put(&self.photo, rest);
        let rest = PutOptional(&self.team, rest);
        let rest = Put(&self.home, rest);
        let rest = Put(&self.attendance, rest);
        let rest = PutDefaultExplicit::<VisitsDefault, _>(&self.visits, rest);
        let rest = PutDefault::<RelationDefault, _>(&self.relation, rest);
        let rest = Put(&self.contact, rest);
        let rest = Put(&self.role, rest);
        let rest = PutOptional(&self.email, rest);
        let rest = Put(&self.room, rest);
        let rest = PutDefault::<FloorDefault, _>(&self.floor, rest);
        let rest = PutDefault::<ListedDefault, _>(&self.listed, rest);
        let rest = Put(&self.name, rest);
        encoder.write_sequence(tag, Put(&self.id, rest))
    }

    fn is_present(&self) -> bool {
        true
    }
}

/// The default of `listed`.
#[derive(Drop)]
pub struct ListedDefault;

impl DefaultValue for ListedDefault {
    ghost use Rattle.std.specs.Prelude.{pos};
    ghost use Rattle.rasn_types.specs.Shapes.{number};

    type Value = bool;

    ghost default_tree = { number (pos 1) };

    fn default_value(_alloc: Global) -> Result<bool, AllocError> {
        Ok(true)
    }
}

/// The default of `floor`.
#[derive(Drop)]
pub struct FloorDefault;

impl DefaultValue for FloorDefault {
    ghost use Rattle.std.specs.Prelude.{neg_ℤ, pos};
    ghost use Rattle.rasn_types.specs.Shapes.{number};

    type Value = Implicit<ContextTag<2>, Integer>;

    ghost default_tree = { number (neg_ℤ (pos 1)) };

    fn default_value(alloc: Global) -> Result<Implicit<ContextTag<2>, Integer>, AllocError> {
        Ok(Implicit::new(Integer::from_i128(alloc, -1)?))
    }
}

/// The default of `relation`.
#[derive(Drop)]
pub struct RelationDefault;

impl DefaultValue for RelationDefault {
    ghost use Rattle.std.specs.Prelude.{pos};
    ghost use Rattle.rasn_types.specs.Shapes.{number};

    type Value = Implicit<ContextTag<0>, Relation>;

    ghost default_tree = { number (pos 5) };

    fn default_value(_alloc: Global) -> Result<Implicit<ContextTag<0>, Relation>, AllocError> {
        Ok(Implicit::new(Relation::Colleague))
    }
}

/// The default of `visits`.
#[derive(Drop)]
pub struct VisitsDefault;

impl DefaultValue for VisitsDefault {
    ghost use Rattle.std.specs.Prelude.{pos};
    ghost use Rattle.rasn_types.specs.Shapes.{number};

    type Value = Integer;

    ghost default_tree = { number (pos 1) };

    fn default_value(alloc: Global) -> Result<Integer, AllocError> {
        Ok(Integer::from_i128(alloc, 1)?)
    }
}

impl ExplicitDefault for VisitsDefault {
    type Prefix = ContextTag<1>;
}
