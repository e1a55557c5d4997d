// Written by `soqavise generate` from the ASN.1 of AddressBook: change that, and write it again.
//! `Relation ::= ENUMERATED { friend(0), colleague(5), family(-1) }`
use rasn::prelude::*;

/// `Relation ::= ENUMERATED { friend(0), colleague(5), family(-1) }`
#[derive(Clone, Copy, Debug, PartialEq, Eq, Drop)]
pub enum Relation {
    /// `friend (0)`
    Friend,
    /// `colleague (5)`
    Colleague,
    /// `family (-1)`
    Family,
}

impl Enumerated for Relation {
    ghost use Rattle.std.specs.Prelude.{neg_ℤ, pos, refl, [], ◌∷◌};
    ghost use Rattle.rasn_types.specs.OwnEnumerated.{all_listed, all_distinct};
    ghost use Rattle.rasn_address_book.specs.contracts.relation.Relation.{enum as own_enum};
    ghost use Rattle.rasn_address_book.specs.declared.relation.Relation.TheVariants.{Friend, Colleague, Family};

    ghost known = { pos 0 ∷ pos 5 ∷ neg_ℤ (pos 1) ∷ [] };

    ghost number = { elim [ Friend ↦ pos 0 | Colleague ↦ pos 5 | Family ↦ neg_ℤ (pos 1) ] };

    ghost listed = { all_listed own_enum (elim [ Friend ↦ pos 0 | Colleague ↦ pos 5 | Family ↦ neg_ℤ (pos 1) ]) (pos 0 ∷ pos 5 ∷ neg_ℤ (pos 1) ∷ []) refl };

    ghost distinct = { all_distinct own_enum _ refl };

    ghost fits = { refl };

    fn discriminant(&self) -> isize {
        match self {
            Relation::Friend => 0,
            Relation::Colleague => 5,
            Relation::Family => -1,
        }
    }

    fn from_discriminant(discriminant: isize) -> Option<Relation> {
        match discriminant {
            0 => Some(Relation::Friend),
            5 => Some(Relation::Colleague),
            -1 => Some(Relation::Family),
            _ => None,
        }
    }
}

impl AsnType for Relation {
    ghost use Rattle.std.specs.Prelude.{refl};
    ghost use Rattle.rasn_types.specs.Tags.{in_universal};
    ghost use Rattle.rasn_types.specs.Shapes.{leaf, enumerated, number};
    ghost use Rattle.rasn_types.specs.Trees.{unconstrained};

    ghost TAG = { in_universal 10 };

    const TAG: Tag = Tag::ENUMERATED;

    ghost CONSTRAINTS = { unconstrained };

    const CONSTRAINTS: Constraints = Constraints::NONE;

    ghost shape = { leaf (enumerated ⟦<Relation as Enumerated>⟧.known) (in_universal 10) unconstrained };

    ghost tree = { λ a. number (⟦<Relation as Enumerated>⟧.number a) };

    ghost own = { refl };
}

impl LawfulEq for Relation {
    ghost use Rattle.std.specs.Prelude.{refl};
    ghost use Rattle.rasn_types.specs.OwnEnumerated.{all_decided};
    ghost use Rattle.rasn_address_book.specs.contracts.relation.Relation.{enum as own_enum};

    ghost decides = { all_decided own_enum ⟦<Relation as Enumerated>⟧.number refl };
}

impl Present for Relation {
    ghost use Rattle.rasn_types.specs.Equality.{number_not_absent};

    ghost present = { λ a. number_not_absent (⟦<Relation as Enumerated>⟧.number a) };
}

impl Decode for Relation {
    ghost use Rattle.rasn_de.specs.Leaves.{FailsAs};
    ghost use Rattle.rasn_de.specs.Enumerated.{EnumeratedAt};

    ghost errors = { λ tag _ old. FailsAs (EnumeratedAt ⟦<Relation as Enumerated>⟧.known old.rule tag old.rest) old };

    #[tactic(auto, unfolding(rasn_types::specs::Grammar::Reads))]
    fn decode_with_tag_and_constraints(
        decoder: &mut Decoder<'_>,
        tag: Tag,
        _constraints: &Constraints,
    ) -> Result<Relation, DecodeError> {
        decoder.decode_enumerated(tag)
    }
}

impl Encode for Relation {
    fn encode_with_tag_and_constraints(
        &self,
        encoder: &mut Encoder,
        tag: Tag,
        _constraints: &Constraints,
        identifier: Identifier,
    ) -> Result<(), EncodeError> {
        encoder.encode_enumerated(tag, self, identifier)
    }

    fn is_present(&self) -> bool {
        true
    }
}
