// Written by `soqavise generate` from the ASN.1 of LDAP: change that, and write it again.
//! `AddRequest ::= [APPLICATION 8] IMPLICIT SEQUENCE`
use crate::{AttributeList, LdapString};
use rasn::prelude::*;

/// `AddRequest ::= [APPLICATION 8] IMPLICIT SEQUENCE`
#[derive(Debug, PartialEq, Eq, Drop)]
pub struct AddRequest {
    /// `entry LDAPString`
    pub entry: LdapString,
    /// `attributes AttributeList`
    pub attributes: AttributeList,
    /// `...`
    pub unknown: Unknown,
}

/// The components, as they are read.
type Parts = Required<LdapString, Parts1>;

type Parts1 = Required<AttributeList, Parts2>;

type Parts2 = Required<Unknown, End>;

impl AsnType for AddRequest {
    ghost use Rattle.std.specs.Prelude.{refl};
    ghost use Rattle.rasn_types.specs.declared.types.tag.Class.TheVariants.{Application};
    ghost use Rattle.rasn_types.specs.Shapes.{seq};
    ghost use Rattle.rasn_types.specs.Trees.{unconstrained};

    ghost TAG = { record { class = Application; value = 8 } };

    const TAG: Tag = Tag {
        class: Class::Application,
        value: 8,
    };

    ghost CONSTRAINTS = { unconstrained };

    const CONSTRAINTS: Constraints = Constraints::NONE;

    ghost shape = { seq (record { class = Application; value = 8 }) ⟦<Parts as DecodeParts>⟧.parts };

    ghost tree = { λ a. ⟦<Parts as DecodeParts>⟧.tree (record { 0 = a.entry; 1 = record { 0 = a.attributes; 1 = record { 0 = a.unknown; 1 = record {} } } }) };

    ghost own = { refl };
}

impl LawfulEq for AddRequest {
    ghost use Rattle.rasn_types.specs.Deciding.{deciding};
    ghost use Rattle.rasn_ldap.specs.contracts.attribute.AttributeLawfulEq.TheImpl.Laws.{decides-law as attribute_law};

    ghost decides = { Prim.search (attribute_law, deciding) depth 64 };
}

impl Present for AddRequest {
    ghost use Rattle.rasn_types.specs.Equality.{parts_not_absent};

    ghost present = { λ _. parts_not_absent };
}

impl Decode for AddRequest {
    ghost use Rattle.rasn_de.specs.PartTypes.{DecodesSequenceParts};
    ghost use Rattle.rasn_de.specs.ValueErrors.{errors_of};

    ghost errors = { λ tag _. errors_of (DecodesSequenceParts ⟦<Parts as DecodeParts>⟧.parts ⟦<Parts as DecodeParts>⟧.tree ⟦<Parts as DecodeParts>⟧.errors tag) };

    fn decode_with_tag_and_constraints(
        decoder: &mut Decoder<'_>,
        tag: Tag,
        _constraints: &Constraints,
    ) -> Result<AddRequest, DecodeError> {
        let parts = match decoder.read_sequence::<Parts>(tag) {
            Ok(parts) => parts,
            Err(error) => return Err(error),
        };
        let Required(entry, rest) = parts;
        let Required(attributes, rest) = rest;
        let Required(unknown, End) = rest;
        Ok(AddRequest {
            entry,
            attributes,
            unknown,
        })
    }
}

impl Encode for AddRequest {
    fn encode_with_tag_and_constraints(
        &self,
        encoder: &mut Encoder,
        tag: Tag,
        _constraints: &Constraints,
        _identifier: Identifier,
    ) -> Result<(), EncodeError> {
        let rest = Put(&self.unknown, End);
        let rest = Put(&self.attributes, rest);
        encoder.write_sequence(tag, Put(&self.entry, rest))
    }

    fn is_present(&self) -> bool {
        true
    }
}
