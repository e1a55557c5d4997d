// Written by `soqavise generate` from the ASN.1 of LDAP: change that, and write it again.
//! `SearchRequest ::= [APPLICATION 3] IMPLICIT SEQUENCE`
use crate::{
    AttributeSelection, Filter, LdapString, MaxInt, SearchRequestDerefAliases, SearchRequestScope,
};
use rasn::prelude::*;

/// `SearchRequest ::= [APPLICATION 3] IMPLICIT SEQUENCE`
#[derive(Debug, PartialEq, Eq, Drop)]
pub struct SearchRequest {
    /// `baseObject LDAPString`
    pub base_object: LdapString,
    /// `scope SearchRequest-scope`
    pub scope: SearchRequestScope,
    /// `derefAliases SearchRequest-derefAliases`
    pub deref_aliases: SearchRequestDerefAliases,
    /// `sizeLimit MaxInt`
    pub size_limit: MaxInt,
    /// `timeLimit MaxInt`
    pub time_limit: MaxInt,
    /// `typesOnly BOOLEAN`
    pub types_only: bool,
    /// `filter Filter`
    pub filter: Filter,
    /// `attributes AttributeSelection`
    pub attributes: AttributeSelection,
    /// `...`
    pub unknown: Unknown,
}

/// The components, as they are read.
type Parts = Required<LdapString, Parts1>;

type Parts1 = Required<SearchRequestScope, Parts2>;

type Parts2 = Required<SearchRequestDerefAliases, Parts3>;

type Parts3 = Required<MaxInt, Parts4>;

type Parts4 = Required<MaxInt, Parts5>;

type Parts5 = Required<bool, Parts6>;

type Parts6 = Required<Filter, Parts7>;

type Parts7 = Required<AttributeSelection, Parts8>;

type Parts8 = Required<Unknown, End>;

impl AsnType for SearchRequest {
    ghost use Rattle.std.specs.Prelude.{refl};
    ghost use Rattle.rasn_types.specs.declared.types.tag.Class.TheVariants.{Application};
    ghost use Rattle.rasn_types.specs.Shapes.{seq};
    ghost use Rattle.rasn_types.specs.Trees.{unconstrained};

    ghost TAG = { record { class = Application; value = 3 } };

    const TAG: Tag = Tag {
        class: Class::Application,
        value: 3,
    };

    ghost CONSTRAINTS = { unconstrained };

    const CONSTRAINTS: Constraints = Constraints::NONE;

    ghost shape = { seq (record { class = Application; value = 3 }) ⟦<Parts as DecodeParts>⟧.parts };

    ghost tree = { λ a. ⟦<Parts as DecodeParts>⟧.tree (record { 0 = a.base_object; 1 = record { 0 = a.scope; 1 = record { 0 = a.deref_aliases; 1 = record { 0 = a.size_limit; 1 = record { 0 = a.time_limit; 1 = record { 0 = a.types_only; 1 = record { 0 = a.filter; 1 = record { 0 = a.attributes; 1 = record { 0 = a.unknown; 1 = record {} } } } } } } } } }) };

    ghost own = { refl };
}

impl LawfulEq for SearchRequest {
    ghost use Rattle.rasn_types.specs.Deciding.{deciding};
    ghost use Rattle.rasn_ldap.specs.contracts.max_int.MaxIntLawfulEq.TheImpl.Laws.{decides-law as max_int_law};

    ghost decides = { Prim.search (max_int_law, deciding) depth 64 };
}

impl Present for SearchRequest {
    ghost use Rattle.rasn_types.specs.Equality.{parts_not_absent};

    ghost present = { λ _. parts_not_absent };
}

impl Decode for SearchRequest {
    ghost use Rattle.rasn_de.specs.PartTypes.{DecodesSequenceParts};
    ghost use Rattle.rasn_de.specs.ValueErrors.{errors_of};

    ghost errors = { λ tag _. errors_of (DecodesSequenceParts ⟦<Parts as DecodeParts>⟧.parts ⟦<Parts as DecodeParts>⟧.tree ⟦<Parts as DecodeParts>⟧.errors tag) };

    fn decode_with_tag_and_constraints(
        decoder: &mut Decoder<'_>,
        tag: Tag,
        _constraints: &Constraints,
    ) -> Result<SearchRequest, DecodeError> {
        let parts = match decoder.read_sequence::<Parts>(tag) {
            Ok(parts) => parts,
            Err(error) => return Err(error),
        };
        let Required(base_object, rest) = parts;
        let Required(scope, rest) = rest;
        let Required(deref_aliases, rest) = rest;
        let Required(size_limit, rest) = rest;
        let Required(time_limit, rest) = rest;
        let Required(types_only, rest) = rest;
        let Required(filter, rest) = rest;
        let Required(attributes, rest) = rest;
        let Required(unknown, End) = rest;
        Ok(SearchRequest {
            base_object,
            scope,
            deref_aliases,
            size_limit,
            time_limit,
            types_only,
            filter,
            attributes,
            unknown,
        })
    }
}

impl Encode for SearchRequest {
    fn encode_with_tag_and_constraints(
        &self,
        encoder: &mut Encoder,
        tag: Tag,
        _constraints: &Constraints,
        _identifier: Identifier,
    ) -> Result<(), EncodeError> {
        let rest = Put(&self.unknown, End);
        let rest = Put(&self.attributes, rest);
        let rest = Put(&self.filter, rest);
        let rest = Put(&self.types_only, rest);
        let rest = Put(&self.time_limit, rest);
        let rest = Put(&self.size_limit, rest);
        let rest = Put(&self.deref_aliases, rest);
        let rest = Put(&self.scope, rest);
        encoder.write_sequence(tag, Put(&self.base_object, rest))
    }

    fn is_present(&self) -> bool {
        true
    }
}
