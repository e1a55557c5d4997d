// Written by `soqavise generate` from the ASN.1 of LDAP: change that, and write it again.
//! `SearchRequest-scope ::= ENUMERATED { baseObject(0), singleLevel(1), wholeSubtree(2), ... }`
use rasn::prelude::*;

/// `SearchRequest-scope ::= ENUMERATED { baseObject(0), singleLevel(1), wholeSubtree(2), ... }`
pub type SearchRequestScope = Extensible<SearchRequestScopeName>;

/// The names of the numbers.
#[derive(Clone, Copy, Debug, PartialEq, Eq, Drop)]
pub enum SearchRequestScopeName {
    /// `baseObject (0)`
    BaseObject,
    /// `singleLevel (1)`
    SingleLevel,
    /// `wholeSubtree (2)`
    WholeSubtree,
}

impl Enumerated for SearchRequestScopeName {
    ghost use Rattle.std.specs.Prelude.{pos, refl, [], ◌∷◌};
    ghost use Rattle.rasn_types.specs.OwnEnumerated.{all_listed, all_distinct};
    ghost use Rattle.rasn_ldap.specs.contracts.search_request_scope.SearchRequestScopeName.{enum as own_enum};
    ghost use Rattle.rasn_ldap.specs.declared.search_request_scope.SearchRequestScopeName.TheVariants.{BaseObject, SingleLevel, WholeSubtree};

    ghost known = { pos 0 ∷ pos 1 ∷ pos 2 ∷ [] };

    ghost number = { elim [ BaseObject ↦ pos 0 | SingleLevel ↦ pos 1 | WholeSubtree ↦ pos 2 ] };

    ghost listed = { all_listed own_enum (elim [ BaseObject ↦ pos 0 | SingleLevel ↦ pos 1 | WholeSubtree ↦ pos 2 ]) (pos 0 ∷ pos 1 ∷ pos 2 ∷ []) refl };

    ghost distinct = { all_distinct own_enum _ refl };

    ghost fits = { refl };

    fn discriminant(&self) -> isize {
        match self {
            SearchRequestScopeName::BaseObject => 0,
            SearchRequestScopeName::SingleLevel => 1,
            SearchRequestScopeName::WholeSubtree => 2,
        }
    }

    fn from_discriminant(discriminant: isize) -> Option<SearchRequestScopeName> {
        match discriminant {
            0 => Some(SearchRequestScopeName::BaseObject),
            1 => Some(SearchRequestScopeName::SingleLevel),
            2 => Some(SearchRequestScopeName::WholeSubtree),
            _ => None,
        }
    }
}
