// Written by `soqavise generate` from the ASN.1 of LDAP: change that, and write it again.
//! `SubstringFilter ::= SEQUENCE`
use crate::{LdapString, SubstringFilterSubstrings};
use rasn::prelude::*;

/// `SubstringFilter ::= SEQUENCE`
#[derive(Debug, PartialEq, Eq, Drop)]
pub struct SubstringFilter {
    /// `type LDAPString`
    pub type_value: LdapString,
    /// `substrings SubstringFilter-substrings`
    pub substrings: SubstringFilterSubstrings,
    /// `...`
    pub unknown: Unknown,
}

/// The components, as they are read.
type Parts = Required<LdapString, Parts1>;

type Parts1 = Required<SubstringFilterSubstrings, Parts2>;

type Parts2 = Required<Unknown, End>;

impl AsnType for SubstringFilter {
    ghost use Rattle.std.specs.Prelude.{refl};
    ghost use Rattle.rasn_types.specs.Tags.{in_universal};
    ghost use Rattle.rasn_types.specs.Shapes.{seq};
    ghost use Rattle.rasn_types.specs.Trees.{unconstrained};

    ghost TAG = { in_universal 16 };

    const TAG: Tag = Tag::SEQUENCE;

    ghost CONSTRAINTS = { unconstrained };

    const CONSTRAINTS: Constraints = Constraints::NONE;

    ghost shape = { seq (in_universal 16) ⟦<Parts as DecodeParts>⟧.parts };

    ghost tree = { λ a. ⟦<Parts as DecodeParts>⟧.tree (record { 0 = a.type_value; 1 = record { 0 = a.substrings; 1 = record { 0 = a.unknown; 1 = record {} } } }) };

    ghost own = { refl };
}

impl LawfulEq for SubstringFilter {
    ghost use Rattle.rasn_types.specs.Deciding.{deciding};
    ghost use Rattle.rasn_ldap.specs.contracts.substring_filter_substrings.SubstringFilterSubstringsLawfulEq.TheImpl.Laws.{decides-law as substring_filter_substrings_law};

    ghost decides = { Prim.search (substring_filter_substrings_law, deciding) depth 64 };
}

impl Present for SubstringFilter {
    ghost use Rattle.rasn_types.specs.Equality.{parts_not_absent};

    ghost present = { λ _. parts_not_absent };
}

impl Decode for SubstringFilter {
    ghost use Rattle.rasn_de.specs.PartTypes.{DecodesSequenceParts};
    ghost use Rattle.rasn_de.specs.ValueErrors.{errors_of};

    ghost errors = { λ tag _. errors_of (DecodesSequenceParts ⟦<Parts as DecodeParts>⟧.parts ⟦<Parts as DecodeParts>⟧.tree ⟦<Parts as DecodeParts>⟧.errors tag) };

    fn decode_with_tag_and_constraints(
        decoder: &mut Decoder<'_>,
        tag: Tag,
        _constraints: &Constraints,
    ) -> Result<SubstringFilter, DecodeError> {
        let parts = match decoder.read_sequence::<Parts>(tag) {
            Ok(parts) => parts,
            Err(error) => return Err(error),
        };
        let Required(type_value, rest) = parts;
        let Required(substrings, rest) = rest;
        let Required(unknown, End) = rest;
        Ok(SubstringFilter {
            type_value,
            substrings,
            unknown,
        })
    }
}

impl Encode for SubstringFilter {
    fn encode_with_tag_and_constraints(
        &self,
        encoder: &mut Encoder,
        tag: Tag,
        _constraints: &Constraints,
        _identifier: Identifier,
    ) -> Result<(), EncodeError> {
        let rest = Put(&self.unknown, End);
        let rest = Put(&self.substrings, rest);
        encoder.write_sequence(tag, Put(&self.type_value, rest))
    }

    fn is_present(&self) -> bool {
        true
    }
}
