// Written by `soqavise generate` from the ASN.1 of AddressBook: change that, and write it again.
//! `Availability ::= ENUMERATED { free(0), busy(1), ... }`
use rasn::prelude::*;

/// `Availability ::= ENUMERATED { free(0), busy(1), ... }`
pub type Availability = Extensible<AvailabilityName>;

/// The names of the numbers.
#[derive(Clone, Copy, Debug, PartialEq, Eq, Drop)]
pub enum AvailabilityName {
    /// `free (0)`
    Free,
    /// `busy (1)`
    Busy,
}

impl Enumerated for AvailabilityName {
    ghost use Rattle.std.specs.Prelude.{pos, refl, [], ◌∷◌};
    ghost use Rattle.rasn_types.specs.OwnEnumerated.{all_listed, all_distinct};
    ghost use Rattle.rasn_address_book.specs.contracts.availability.AvailabilityName.{enum as own_enum};
    ghost use Rattle.rasn_address_book.specs.declared.availability.AvailabilityName.TheVariants.{Free, Busy};

    ghost known = { pos 0 ∷ pos 1 ∷ [] };

    ghost number = { elim [ Free ↦ pos 0 | Busy ↦ pos 1 ] };

    ghost listed = { all_listed own_enum (elim [ Free ↦ pos 0 | Busy ↦ pos 1 ]) (pos 0 ∷ pos 1 ∷ []) refl };

    ghost distinct = { all_distinct own_enum _ refl };

    ghost fits = { refl };

    fn discriminant(&self) -> isize {
        match self {
            AvailabilityName::Free => 0,
            AvailabilityName::Busy => 1,
        }
    }

    fn from_discriminant(discriminant: isize) -> Option<AvailabilityName> {
        match discriminant {
            0 => Some(AvailabilityName::Free),
            1 => Some(AvailabilityName::Busy),
            _ => None,
        }
    }
}
