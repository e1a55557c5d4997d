// Written by `soqavise generate` from the ASN.1 of LDAP: change that, and write it again.
//! `SearchRequest-derefAliases ::= ENUMERATED { neverDerefAliases(0), derefInSearching(1),
//! derefFindingBaseObj(2), derefAlways(3), ... }`
use rasn::prelude::*;

/// `SearchRequest-derefAliases ::= ENUMERATED { neverDerefAliases(0), derefInSearching(1),
/// derefFindingBaseObj(2), derefAlways(3), ... }`
pub type SearchRequestDerefAliases = Extensible<SearchRequestDerefAliasesName>;

/// The names of the numbers.
#[derive(Clone, Copy, Debug, PartialEq, Eq, Drop)]
pub enum SearchRequestDerefAliasesName {
    /// `neverDerefAliases (0)`
    NeverDerefAliases,
    /// `derefInSearching (1)`
    DerefInSearching,
    /// `derefFindingBaseObj (2)`
    DerefFindingBaseObj,
    /// `derefAlways (3)`
    DerefAlways,
}

impl Enumerated for SearchRequestDerefAliasesName {
    ghost use Rattle.std.specs.Prelude.{pos, refl, [], ◌∷◌};
    ghost use Rattle.rasn_types.specs.OwnEnumerated.{all_listed, all_distinct};
    ghost use Rattle.rasn_ldap.specs.contracts.search_request_deref_aliases.SearchRequestDerefAliasesName.{enum as own_enum};
    ghost use Rattle.rasn_ldap.specs.declared.search_request_deref_aliases.SearchRequestDerefAliasesName.TheVariants.{NeverDerefAliases, DerefInSearching, DerefFindingBaseObj, DerefAlways};

    ghost known = { pos 0 ∷ pos 1 ∷ pos 2 ∷ pos 3 ∷ [] };

    ghost number = { elim [ NeverDerefAliases ↦ pos 0 | DerefInSearching ↦ pos 1 | DerefFindingBaseObj ↦ pos 2 | DerefAlways ↦ pos 3 ] };

    ghost listed = { all_listed own_enum (elim [ NeverDerefAliases ↦ pos 0 | DerefInSearching ↦ pos 1 | DerefFindingBaseObj ↦ pos 2 | DerefAlways ↦ pos 3 ]) (pos 0 ∷ pos 1 ∷ pos 2 ∷ pos 3 ∷ []) refl };

    ghost distinct = { all_distinct own_enum _ refl };

    ghost fits = { refl };

    fn discriminant(&self) -> isize {
        match self {
            SearchRequestDerefAliasesName::NeverDerefAliases => 0,
            SearchRequestDerefAliasesName::DerefInSearching => 1,
            SearchRequestDerefAliasesName::DerefFindingBaseObj => 2,
            SearchRequestDerefAliasesName::DerefAlways => 3,
        }
    }

    fn from_discriminant(discriminant: isize) -> Option<SearchRequestDerefAliasesName> {
        match discriminant {
            0 => Some(SearchRequestDerefAliasesName::NeverDerefAliases),
            1 => Some(SearchRequestDerefAliasesName::DerefInSearching),
            2 => Some(SearchRequestDerefAliasesName::DerefFindingBaseObj),
            3 => Some(SearchRequestDerefAliasesName::DerefAlways),
            _ => None,
        }
    }
}
