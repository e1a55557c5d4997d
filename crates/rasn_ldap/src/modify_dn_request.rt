// Written by `soqavise generate` from the ASN.1 of LDAP: change that, and write it again.
//! `ModifyDNRequest ::= [APPLICATION 12] IMPLICIT SEQUENCE`
use crate::LdapString;
use rasn::prelude::*;

/// `ModifyDNRequest ::= [APPLICATION 12] IMPLICIT SEQUENCE`
#[derive(Debug, PartialEq, Eq, Drop)]
pub struct ModifyDnRequest {
    /// `entry LDAPString`
    pub entry: LdapString,
    /// `newrdn LDAPString`
    pub newrdn: LdapString,
    /// `deleteoldrdn BOOLEAN`
    pub deleteoldrdn: bool,
    /// `newSuperior [0] IMPLICIT UTF8String OPTIONAL`
    pub new_superior: Option<Implicit<ContextTag<0>, Utf8String>>,
    /// `...`
    pub unknown: Unknown,
}

/// The components, as they are read.
type Parts = Required<LdapString, Parts1>;

type Parts1 = Required<LdapString, Parts2>;

type Parts2 = Required<bool, Parts3>;

type Parts3 = Optional<Implicit<ContextTag<0>, Utf8String>, Parts4>;

type Parts4 = Required<Unknown, End>;

impl AsnType for ModifyDnRequest {
    ghost use Rattle.std.specs.Prelude.{refl};
    ghost use Rattle.rasn_types.specs.declared.types.tag.Class.TheVariants.{Application};
    ghost use Rattle.rasn_types.specs.Shapes.{seq};
    ghost use Rattle.rasn_types.specs.Trees.{unconstrained};

    ghost TAG = { record { class = Application; value = 12 } };

    const TAG: Tag = Tag {
        class: Class::Application,
        value: 12,
    };

    ghost CONSTRAINTS = { unconstrained };

    const CONSTRAINTS: Constraints = Constraints::NONE;

    ghost shape = { seq (record { class = Application; value = 12 }) ⟦<Parts as DecodeParts>⟧.parts };

    ghost tree = { λ a. ⟦<Parts as DecodeParts>⟧.tree (record { 0 = a.entry; 1 = record { 0 = a.newrdn; 1 = record { 0 = a.deleteoldrdn; 1 = record { 0 = a.new_superior; 1 = record { 0 = a.unknown; 1 = record {} } } } } }) };

    ghost own = { refl };
}

impl LawfulEq for ModifyDnRequest {
    ghost use Rattle.rasn_types.specs.Deciding.{deciding};

    ghost decides = { Prim.search deciding depth 64 };
}

impl Present for ModifyDnRequest {
    ghost use Rattle.rasn_types.specs.Equality.{parts_not_absent};

    ghost present = { λ _. parts_not_absent };
}

impl Decode for ModifyDnRequest {
    ghost use Rattle.rasn_de.specs.PartTypes.{DecodesSequenceParts};
    ghost use Rattle.rasn_de.specs.ValueErrors.{errors_of};

    ghost errors = { λ tag _. errors_of (DecodesSequenceParts ⟦<Parts as DecodeParts>⟧.parts ⟦<Parts as DecodeParts>⟧.tree ⟦<Parts as DecodeParts>⟧.errors tag) };

    fn decode_with_tag_and_constraints(
        decoder: &mut Decoder<'_>,
        tag: Tag,
        _constraints: &Constraints,
    ) -> Result<ModifyDnRequest, DecodeError> {
        let parts = match decoder.read_sequence::<Parts>(tag) {
            Ok(parts) => parts,
            Err(error) => return Err(error),
        };
        let Required(entry, rest) = parts;
        let Required(newrdn, rest) = rest;
        let Required(deleteoldrdn, rest) = rest;
        let Optional(new_superior, rest) = rest;
        let Required(unknown, End) = rest;
        Ok(ModifyDnRequest {
            entry,
            newrdn,
            deleteoldrdn,
            new_superior,
            unknown,
        })
    }
}

impl Encode for ModifyDnRequest {
    fn encode_with_tag_and_constraints(
        &self,
        encoder: &mut Encoder,
        tag: Tag,
        _constraints: &Constraints,
        _identifier: Identifier,
    ) -> Result<(), EncodeError> {
        let rest = Put(&self.unknown, End);
        let rest = PutOptional(&self.new_superior, rest);
        let rest = Put(&self.deleteoldrdn, rest);
        let rest = Put(&self.newrdn, rest);
        encoder.write_sequence(tag, Put(&self.entry, rest))
    }

    fn is_present(&self) -> bool {
        true
    }
}
