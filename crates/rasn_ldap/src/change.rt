// Written by `soqavise generate` from the ASN.1 of LDAP: change that, and write it again.
//! `Change ::= SEQUENCE`
use crate::{ChangeOperation, PartialAttribute};
use rasn::prelude::*;

/// `Change ::= SEQUENCE`
#[derive(Debug, PartialEq, Eq, Drop)]
pub struct Change {
    /// `operation Change-operation`
    pub operation: ChangeOperation,
    /// `modification PartialAttribute`
    pub modification: PartialAttribute,
    /// `...`
    pub unknown: Unknown,
}

/// The components, as they are read.
type Parts = Required<ChangeOperation, Parts1>;

type Parts1 = Required<PartialAttribute, Parts2>;

type Parts2 = Required<Unknown, End>;

impl AsnType for Change {
    ghost use Rattle.std.specs.Prelude.{refl};
    ghost use Rattle.rasn_types.specs.Tags.{in_universal};
    ghost use Rattle.rasn_types.specs.Shapes.{seq};
    ghost use Rattle.rasn_types.specs.Trees.{unconstrained};

    ghost TAG = { in_universal 16 };

    const TAG: Tag = Tag::SEQUENCE;

    ghost CONSTRAINTS = { unconstrained };

    const CONSTRAINTS: Constraints = Constraints::NONE;

    ghost shape = { seq (in_universal 16) ⟦<Parts as DecodeParts>⟧.parts };

    ghost tree = { λ a. ⟦<Parts as DecodeParts>⟧.tree (record { 0 = a.operation; 1 = record { 0 = a.modification; 1 = record { 0 = a.unknown; 1 = record {} } } }) };

    ghost own = { refl };
}

impl LawfulEq for Change {
    ghost use Rattle.rasn_types.specs.Deciding.{deciding};
    ghost use Rattle.rasn_ldap.specs.contracts.partial_attribute.PartialAttributeLawfulEq.TheImpl.Laws.{decides-law as partial_attribute_law};

    ghost decides = { Prim.search (partial_attribute_law, deciding) depth 64 };
}

impl Present for Change {
    ghost use Rattle.rasn_types.specs.Equality.{parts_not_absent};

    ghost present = { λ _. parts_not_absent };
}

impl Decode for Change {
    ghost use Rattle.rasn_de.specs.PartTypes.{DecodesSequenceParts};
    ghost use Rattle.rasn_de.specs.ValueErrors.{errors_of};

    ghost errors = { λ tag _. errors_of (DecodesSequenceParts ⟦<Parts as DecodeParts>⟧.parts ⟦<Parts as DecodeParts>⟧.tree ⟦<Parts as DecodeParts>⟧.errors tag) };

    fn decode_with_tag_and_constraints(
        decoder: &mut Decoder<'_>,
        tag: Tag,
        _constraints: &Constraints,
    ) -> Result<Change, DecodeError> {
        let parts = match decoder.read_sequence::<Parts>(tag) {
            Ok(parts) => parts,
            Err(error) => return Err(error),
        };
        let Required(operation, rest) = parts;
        let Required(modification, rest) = rest;
        let Required(unknown, End) = rest;
        Ok(Change {
            operation,
            modification,
            unknown,
        })
    }
}

impl Encode for Change {
    fn encode_with_tag_and_constraints(
        &self,
        encoder: &mut Encoder,
        tag: Tag,
        _constraints: &Constraints,
        _identifier: Identifier,
    ) -> Result<(), EncodeError> {
        let rest = Put(&self.unknown, End);
        let rest = Put(&self.modification, rest);
        encoder.write_sequence(tag, Put(&self.operation, rest))
    }

    fn is_present(&self) -> bool {
        true
    }
}
