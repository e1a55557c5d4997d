// Written by `soqavise generate` from the ASN.1 of AddressBook: change that, and write it again.
//! `Team ::= [APPLICATION 7] IMPLICIT SET`
use crate::{Availability, Title};
use rasn::prelude::*;
use std::alloc::{AllocError, Global};

/// `Team ::= [APPLICATION 7] IMPLICIT SET`
#[derive(Debug, PartialEq, Eq, Drop)]
pub struct Team {
    /// `availability Availability OPTIONAL`
    pub availability: Option<Availability>,
    /// `title [0] IMPLICIT Title`
    pub title: Implicit<ContextTag<0>, Title>,
    /// `open BOOLEAN DEFAULT FALSE`
    pub open_value: bool,
}

/// The components, as they are read.
type Parts = Optional<Availability, Parts1>;

type Parts1 = Required<Implicit<ContextTag<0>, Title>, Parts2>;

type Parts2 = Defaulted<OpenValueDefault, End>;

impl AsnType for Team {
    ghost use Rattle.std.specs.Prelude.{false, refl};
    ghost use Rattle.rasn_types.specs.declared.types.tag.Class.TheVariants.{Application};
    ghost use Rattle.rasn_types.specs.Shapes.{sorted_set};
    ghost use Rattle.rasn_types.specs.Trees.{unconstrained};

    ghost TAG = { record { class = Application; value = 7 } };

    const TAG: Tag = Tag {
        class: Class::Application,
        value: 7,
    };

    ghost CONSTRAINTS = { unconstrained };

    const CONSTRAINTS: Constraints = Constraints::NONE;

    ghost shape = { sorted_set false (record { class = Application; value = 7 }) ⟦<Parts as DecodeSetParts>⟧.parts };

    ghost tree = { λ a. ⟦<Parts as DecodeSetParts>⟧.tree (record { 0 = a.availability; 1 = record { 0 = a.title; 1 = record { 0 = a.open_value; 1 = record {} } } }) };

    ghost own = { refl };
}

impl LawfulEq for Team {
    ghost use Rattle.rasn_types.specs.Deciding.{deciding};
    ghost use Rattle.rasn_address_book.specs.contracts.title.TitleLawfulEq.TheImpl.Laws.{decides-law as title_law};

    ghost decides = { Prim.search (title_law, deciding) depth 64 };
}

impl Present for Team {
    ghost use Rattle.rasn_types.specs.Equality.{parts_not_absent};

    ghost present = { λ _. parts_not_absent };
}

impl Decode for Team {
    ghost use Rattle.std.specs.Prelude.{[], ◌∷◌, codes};
    ghost use Rattle.rasn_de.specs.SetPartTypes.{DecodesNamedParts};
    ghost use Rattle.rasn_de.specs.ValueErrors.{errors_of};

    ghost errors = { λ tag _. errors_of (DecodesNamedParts ⟦<Parts as DecodeSetParts>⟧.extensible ⟦<Parts as DecodeSetParts>⟧.parts ⟦<Parts as DecodeSetParts>⟧.tree (codes "Team") (codes "availability" ∷ codes "title" ∷ codes "open" ∷ []) ⟦<Parts as DecodeSetParts>⟧.errors tag) };

    fn decode_with_tag_and_constraints(
        decoder: &mut Decoder<'_>,
        tag: Tag,
        _constraints: &Constraints,
    ) -> Result<Team, DecodeError> {
        let parts = match decoder.read_set::<Parts>(
            tag,
            "Team",
            &["availability", "title", "open"],
        ) {
            Ok(parts) => parts,
            Err(error) => return Err(error),
        };
        let Optional(availability, rest) = parts;
        let Required(title, rest) = rest;
        let Defaulted(open_value, End) = rest;
        Ok(Team {
            availability,
            title,
            open_value,
        })
    }
}

impl Encode for Team {
    fn encode_with_tag_and_constraints(
        &self,
        encoder: &mut Encoder,
        tag: Tag,
        _constraints: &Constraints,
        _identifier: Identifier,
    ) -> Result<(), EncodeError> {
        let rest = PutDefault::<OpenValueDefault, _>(&self.open_value, End);
        let rest = Put(&self.title, rest);
        encoder.write_sorted_set(tag, PutOptional(&self.availability, rest))
    }

    fn is_present(&self) -> bool {
        true
    }
}

/// The default of `open`.
#[derive(Drop)]
pub struct OpenValueDefault;

impl DefaultValue for OpenValueDefault {
    ghost use Rattle.std.specs.Prelude.{pos};
    ghost use Rattle.rasn_types.specs.Shapes.{number};

    type Value = bool;

    ghost default_tree = { number (pos 0) };

    fn default_value(_alloc: Global) -> Result<bool, AllocError> {
        Ok(false)
    }
}
