// Written by `soqavise generate` from the ASN.1 of LDAP: change that, and write it again.
//! `ModifyRequest ::= [APPLICATION 6] IMPLICIT SEQUENCE`
use crate::{Change, LdapString};
use rasn::prelude::*;

/// `ModifyRequest ::= [APPLICATION 6] IMPLICIT SEQUENCE`
#[derive(Debug, PartialEq, Eq, Drop)]
pub struct ModifyRequest {
    /// `object LDAPString`
    pub object: LdapString,
    /// `changes SEQUENCE OF Change`
    pub changes: Vec<Change>,
    /// `...`
    pub unknown: Unknown,
}

/// The components, as they are read.
type Parts = Required<LdapString, Parts1>;

type Parts1 = Required<Vec<Change>, Parts2>;

type Parts2 = Required<Unknown, End>;

impl AsnType for ModifyRequest {
    ghost use Rattle.std.specs.Prelude.{refl};
    ghost use Rattle.rasn_types.specs.declared.types.tag.Class.TheVariants.{Application};
    ghost use Rattle.rasn_types.specs.Shapes.{seq};
    ghost use Rattle.rasn_types.specs.Trees.{unconstrained};

    ghost TAG = { record { class = Application; value = 6 } };

    const TAG: Tag = Tag {
        class: Class::Application,
        value: 6,
    };

    ghost CONSTRAINTS = { unconstrained };

    const CONSTRAINTS: Constraints = Constraints::NONE;

    ghost shape = { seq (record { class = Application; value = 6 }) ⟦<Parts as DecodeParts>⟧.parts };

    ghost tree = { λ a. ⟦<Parts as DecodeParts>⟧.tree (record { 0 = a.object; 1 = record { 0 = a.changes; 1 = record { 0 = a.unknown; 1 = record {} } } }) };

    ghost own = { refl };
}

impl LawfulEq for ModifyRequest {
    ghost use Rattle.rasn_types.specs.Deciding.{deciding};
    ghost use Rattle.rasn_ldap.specs.contracts.change.ChangeLawfulEq.TheImpl.Laws.{decides-law as change_law};

    ghost decides = { Prim.search (change_law, deciding) depth 64 };
}

impl Present for ModifyRequest {
    ghost use Rattle.rasn_types.specs.Equality.{parts_not_absent};

    ghost present = { λ _. parts_not_absent };
}

impl Decode for ModifyRequest {
    ghost use Rattle.rasn_de.specs.PartTypes.{DecodesSequenceParts};
    ghost use Rattle.rasn_de.specs.ValueErrors.{errors_of};

    ghost errors = { λ tag _. errors_of (DecodesSequenceParts ⟦<Parts as DecodeParts>⟧.parts ⟦<Parts as DecodeParts>⟧.tree ⟦<Parts as DecodeParts>⟧.errors tag) };

    fn decode_with_tag_and_constraints(
        decoder: &mut Decoder<'_>,
        tag: Tag,
        _constraints: &Constraints,
    ) -> Result<ModifyRequest, DecodeError> {
        let parts = match decoder.read_sequence::<Parts>(tag) {
            Ok(parts) => parts,
            Err(error) => return Err(error),
        };
        let Required(object, rest) = parts;
        let Required(changes, rest) = rest;
        let Required(unknown, End) = rest;
        Ok(ModifyRequest {
            object,
            changes,
            unknown,
        })
    }
}

impl Encode for ModifyRequest {
    fn encode_with_tag_and_constraints(
        &self,
        encoder: &mut Encoder,
        tag: Tag,
        _constraints: &Constraints,
        _identifier: Identifier,
    ) -> Result<(), EncodeError> {
        let rest = Put(&self.unknown, End);
        let rest = Put(&self.changes, rest);
        encoder.write_sequence(tag, Put(&self.object, rest))
    }

    fn is_present(&self) -> bool {
        true
    }
}
