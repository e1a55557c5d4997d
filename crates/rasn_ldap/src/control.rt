// Written by `soqavise generate` from the ASN.1 of LDAP: change that, and write it again.
//! `Control ::= SEQUENCE`
use crate::LdapString;
use rasn::prelude::*;
use std::alloc::{AllocError, Global};

/// `Control ::= SEQUENCE`
#[derive(Debug, PartialEq, Eq, Drop)]
pub struct Control {
    /// `controlType LDAPString`
    pub control_type: LdapString,
    /// `criticality BOOLEAN DEFAULT FALSE`
    pub criticality: bool,
    /// `controlValue OCTET STRING OPTIONAL`
    pub control_value: Option<OctetString>,
    /// `...`
    pub unknown: Unknown,
}

/// The components, as they are read.
type Parts = Required<LdapString, Parts1>;

type Parts1 = Defaulted<CriticalityDefault, Parts2>;

type Parts2 = Optional<OctetString, Parts3>;

type Parts3 = Required<Unknown, End>;

impl AsnType for Control {
    ghost use Rattle.std.specs.Prelude.{refl};
    ghost use Rattle.rasn_types.specs.Tags.{in_universal};
    ghost use Rattle.rasn_types.specs.Shapes.{seq};
    ghost use Rattle.rasn_types.specs.Trees.{unconstrained};

    ghost TAG = { in_universal 16 };

    const TAG: Tag = Tag::SEQUENCE;

    ghost CONSTRAINTS = { unconstrained };

    const CONSTRAINTS: Constraints = Constraints::NONE;

    ghost shape = { seq (in_universal 16) ⟦<Parts as DecodeParts>⟧.parts };

    ghost tree = { λ a. ⟦<Parts as DecodeParts>⟧.tree (record { 0 = a.control_type; 1 = record { 0 = a.criticality; 1 = record { 0 = a.control_value; 1 = record { 0 = a.unknown; 1 = record {} } } } }) };

    ghost own = { refl };
}

impl LawfulEq for Control {
    ghost use Rattle.rasn_types.specs.Deciding.{deciding};

    ghost decides = { Prim.search deciding depth 64 };
}

impl Present for Control {
    ghost use Rattle.rasn_types.specs.Equality.{parts_not_absent};

    ghost present = { λ _. parts_not_absent };
}

impl Decode for Control {
    ghost use Rattle.rasn_de.specs.PartTypes.{DecodesSequenceParts};
    ghost use Rattle.rasn_de.specs.ValueErrors.{errors_of};

    ghost errors = { λ tag _. errors_of (DecodesSequenceParts ⟦<Parts as DecodeParts>⟧.parts ⟦<Parts as DecodeParts>⟧.tree ⟦<Parts as DecodeParts>⟧.errors tag) };

    fn decode_with_tag_and_constraints(
        decoder: &mut Decoder<'_>,
        tag: Tag,
        _constraints: &Constraints,
    ) -> Result<Control, DecodeError> {
        let parts = match decoder.read_sequence::<Parts>(tag) {
            Ok(parts) => parts,
            Err(error) => return Err(error),
        };
        let Required(control_type, rest) = parts;
        let Defaulted(criticality, rest) = rest;
        let Optional(control_value, rest) = rest;
        let Required(unknown, End) = rest;
        Ok(Control {
            control_type,
            criticality,
            control_value,
            unknown,
        })
    }
}

impl Encode for Control {
    fn encode_with_tag_and_constraints(
        &self,
        encoder: &mut Encoder,
        tag: Tag,
        _constraints: &Constraints,
        _identifier: Identifier,
    ) -> Result<(), EncodeError> {
        let rest = Put(&self.unknown, End);
        let rest = PutOptional(&self.control_value, rest);
        let rest = PutDefault::<CriticalityDefault, _>(&self.criticality, rest);
        encoder.write_sequence(tag, Put(&self.control_type, rest))
    }

    fn is_present(&self) -> bool {
        true
    }
}

/// The default of `criticality`.
#[derive(Drop)]
pub struct CriticalityDefault;

impl DefaultValue for CriticalityDefault {
    ghost use Rattle.std.specs.Prelude.{pos};
    ghost use Rattle.rasn_types.specs.Shapes.{number};

    type Value = bool;

    ghost default_tree = { number (pos 0) };

    fn default_value(_alloc: Global) -> Result<bool, AllocError> {
        Ok(false)
    }
}
