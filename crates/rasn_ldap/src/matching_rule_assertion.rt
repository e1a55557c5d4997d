// Written by `soqavise generate` from the ASN.1 of LDAP: change that, and write it again.
//! `MatchingRuleAssertion ::= SEQUENCE`
use rasn::prelude::*;
use std::alloc::{AllocError, Global};

/// `MatchingRuleAssertion ::= SEQUENCE`
#[derive(Debug, PartialEq, Eq, Drop)]
pub struct MatchingRuleAssertion {
    /// `matchingRule [1] IMPLICIT UTF8String OPTIONAL`
    pub matching_rule: Option<Implicit<ContextTag<1>, Utf8String>>,
    /// `type [2] IMPLICIT UTF8String OPTIONAL`
    pub type_value: Option<Implicit<ContextTag<2>, Utf8String>>,
    /// `matchValue [3] IMPLICIT OCTET STRING`
    pub match_value: Implicit<ContextTag<3>, OctetString>,
    /// `dnAttributes [4] IMPLICIT BOOLEAN DEFAULT FALSE`
    pub dn_attributes: Implicit<ContextTag<4>, bool>,
    /// `...`
    pub unknown: Unknown,
}

/// The components, as they are read.
type Parts = Optional<Implicit<ContextTag<1>, Utf8String>, Parts1>;

type Parts1 = Optional<Implicit<ContextTag<2>, Utf8String>, Parts2>;

type Parts2 = Required<Implicit<ContextTag<3>, OctetString>, Parts3>;

type Parts3 = Defaulted<DnAttributesDefault, Parts4>;

type Parts4 = Required<Unknown, End>;

impl AsnType for MatchingRuleAssertion {
    ghost use Rattle.std.specs.Prelude.{refl};
    ghost use Rattle.rasn_types.specs.Tags.{in_universal};
    ghost use Rattle.rasn_types.specs.Shapes.{seq};
    ghost use Rattle.rasn_types.specs.Trees.{unconstrained};

    ghost TAG = { in_universal 16 };

    const TAG: Tag = Tag::SEQUENCE;

    ghost CONSTRAINTS = { unconstrained };

    const CONSTRAINTS: Constraints = Constraints::NONE;

    ghost shape = { seq (in_universal 16) ⟦<Parts as DecodeParts>⟧.parts };

    ghost tree = { λ a. ⟦<Parts as DecodeParts>⟧.tree (record { 0 = a.matching_rule; 1 = record { 0 = a.type_value; 1 = record { 0 = a.match_value; 1 = record { 0 = a.dn_attributes; 1 = record { 0 = a.unknown; 1 = record {} } } } } }) };

    ghost own = { refl };
}

impl LawfulEq for MatchingRuleAssertion {
    ghost use Rattle.rasn_types.specs.Deciding.{deciding};

    ghost decides = { Prim.search deciding depth 64 };
}

impl Present for MatchingRuleAssertion {
    ghost use Rattle.rasn_types.specs.Equality.{parts_not_absent};

    ghost present = { λ _. parts_not_absent };
}

impl Decode for MatchingRuleAssertion {
    ghost use Rattle.rasn_de.specs.PartTypes.{DecodesSequenceParts};
    ghost use Rattle.rasn_de.specs.ValueErrors.{errors_of};

    ghost errors = { λ tag _. errors_of (DecodesSequenceParts ⟦<Parts as DecodeParts>⟧.parts ⟦<Parts as DecodeParts>⟧.tree ⟦<Parts as DecodeParts>⟧.errors tag) };

    fn decode_with_tag_and_constraints(
        decoder: &mut Decoder<'_>,
        tag: Tag,
        _constraints: &Constraints,
    ) -> Result<MatchingRuleAssertion, DecodeError> {
        let parts = match decoder.read_sequence::<Parts>(tag) {
            Ok(parts) => parts,
            Err(error) => return Err(error),
        };
        let Optional(matching_rule, rest) = parts;
        let Optional(type_value, rest) = rest;
        let Required(match_value, rest) = rest;
        let Defaulted(dn_attributes, rest) = rest;
        let Required(unknown, End) = rest;
        Ok(MatchingRuleAssertion {
            matching_rule,
            type_value,
            match_value,
            dn_attributes,
            unknown,
        })
    }
}

impl Encode for MatchingRuleAssertion {
    fn encode_with_tag_and_constraints(
        &self,
        encoder: &mut Encoder,
        tag: Tag,
        _constraints: &Constraints,
        _identifier: Identifier,
    ) -> Result<(), EncodeError> {
        let rest = Put(&self.unknown, End);
        let rest = PutDefault::<DnAttributesDefault, _>(&self.dn_attributes, rest);
        let rest = Put(&self.match_value, rest);
        let rest = PutOptional(&self.type_value, rest);
        encoder.write_sequence(tag, PutOptional(&self.matching_rule, rest))
    }

    fn is_present(&self) -> bool {
        true
    }
}

/// The default of `dnAttributes`.
#[derive(Drop)]
pub struct DnAttributesDefault;

impl DefaultValue for DnAttributesDefault {
    ghost use Rattle.std.specs.Prelude.{pos};
    ghost use Rattle.rasn_types.specs.Shapes.{number};

    type Value = Implicit<ContextTag<4>, bool>;

    ghost default_tree = { number (pos 0) };

    fn default_value(_alloc: Global) -> Result<Implicit<ContextTag<4>, bool>, AllocError> {
        Ok(Implicit::new(false))
    }
}
