// Written by `soqavise generate` from the ASN.1 of LDAP: change that, and write it again.
//! `Change-operation ::= ENUMERATED { add(0), delete(1), replace(2), ... }`
use rasn::prelude::*;

/// `Change-operation ::= ENUMERATED { add(0), delete(1), replace(2), ... }`
pub type ChangeOperation = Extensible<ChangeOperationName>;

/// The names of the numbers.
#[derive(Clone, Copy, Debug, PartialEq, Eq, Drop)]
pub enum ChangeOperationName {
    /// `add (0)`
    Add,
    /// `delete (1)`
    Delete,
    /// `replace (2)`
    Replace,
}

impl Enumerated for ChangeOperationName {
    ghost use Rattle.std.specs.Prelude.{pos, refl, [], ◌∷◌};
    ghost use Rattle.rasn_types.specs.OwnEnumerated.{all_listed, all_distinct};
    ghost use Rattle.rasn_ldap.specs.contracts.change_operation.ChangeOperationName.{enum as own_enum};
    ghost use Rattle.rasn_ldap.specs.declared.change_operation.ChangeOperationName.TheVariants.{Add, Delete, Replace};

    ghost known = { pos 0 ∷ pos 1 ∷ pos 2 ∷ [] };

    ghost number = { elim [ Add ↦ pos 0 | Delete ↦ pos 1 | Replace ↦ pos 2 ] };

    ghost listed = { all_listed own_enum (elim [ Add ↦ pos 0 | Delete ↦ pos 1 | Replace ↦ pos 2 ]) (pos 0 ∷ pos 1 ∷ pos 2 ∷ []) refl };

    ghost distinct = { all_distinct own_enum _ refl };

    ghost fits = { refl };

    fn discriminant(&self) -> isize {
        match self {
            ChangeOperationName::Add => 0,
            ChangeOperationName::Delete => 1,
            ChangeOperationName::Replace => 2,
        }
    }

    fn from_discriminant(discriminant: isize) -> Option<ChangeOperationName> {
        match discriminant {
            0 => Some(ChangeOperationName::Add),
            1 => Some(ChangeOperationName::Delete),
            2 => Some(ChangeOperationName::Replace),
            _ => None,
        }
    }
}
