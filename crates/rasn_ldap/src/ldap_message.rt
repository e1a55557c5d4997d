// Written by `soqavise generate` from the ASN.1 of LDAP: change that, and write it again.
//! `LDAPMessage ::= SEQUENCE`
use crate::{Control, MaxInt, ProtocolOp};
use rasn::prelude::*;

/// `LDAPMessage ::= SEQUENCE`
#[derive(Debug, PartialEq, Eq, Drop)]
pub struct LdapMessage {
    /// `messageID MaxInt`
    pub message_id: MaxInt,
    /// `protocolOp ProtocolOp`
    pub protocol_op: ProtocolOp,
    /// `controls [0] IMPLICIT SEQUENCE OF Control OPTIONAL`
    pub controls: Option<Implicit<ContextTag<0>, Vec<Control>>>,
    /// `...`
    pub unknown: Unknown,
}

/// The components, as they are read.
type Parts = Required<MaxInt, Parts1>;

type Parts1 = Required<ProtocolOp, Parts2>;

type Parts2 = Optional<Implicit<ContextTag<0>, Vec<Control>>, Parts3>;

type Parts3 = Required<Unknown, End>;

impl AsnType for LdapMessage {
    ghost use Rattle.std.specs.Prelude.{refl};
    ghost use Rattle.rasn_types.specs.Tags.{in_universal};
    ghost use Rattle.rasn_types.specs.Shapes.{seq};
    ghost use Rattle.rasn_types.specs.Trees.{unconstrained};

    ghost TAG = { in_universal 16 };

    const TAG: Tag = Tag::SEQUENCE;

    ghost CONSTRAINTS = { unconstrained };

    const CONSTRAINTS: Constraints = Constraints::NONE;

    ghost shape = { seq (in_universal 16) ⟦<Parts as DecodeParts>⟧.parts };

    ghost tree = { λ a. ⟦<Parts as DecodeParts>⟧.tree (record { 0 = a.message_id; 1 = record { 0 = a.protocol_op; 1 = record { 0 = a.controls; 1 = record { 0 = a.unknown; 1 = record {} } } } }) };

    ghost own = { refl };
}

impl LawfulEq for LdapMessage {
    ghost use Rattle.rasn_types.specs.Deciding.{deciding};
    ghost use Rattle.rasn_ldap.specs.contracts.control.ControlLawfulEq.TheImpl.Laws.{decides-law as control_law};
    ghost use Rattle.rasn_ldap.specs.contracts.max_int.MaxIntLawfulEq.TheImpl.Laws.{decides-law as max_int_law};
    ghost use Rattle.rasn_ldap.specs.contracts.protocol_op.ProtocolOpLawfulEq.TheImpl.Laws.{decides-law as protocol_op_law};

    ghost decides = { Prim.search (control_law, max_int_law, protocol_op_law, deciding) depth 64 };
}

impl Present for LdapMessage {
    ghost use Rattle.rasn_types.specs.Equality.{parts_not_absent};

    ghost present = { λ _. parts_not_absent };
}

impl Decode for LdapMessage {
    ghost use Rattle.rasn_de.specs.PartTypes.{DecodesSequenceParts};
    ghost use Rattle.rasn_de.specs.ValueErrors.{errors_of};

    ghost errors = { λ tag _. errors_of (DecodesSequenceParts ⟦<Parts as DecodeParts>⟧.parts ⟦<Parts as DecodeParts>⟧.tree ⟦<Parts as DecodeParts>⟧.errors tag) };

    fn decode_with_tag_and_constraints(
        decoder: &mut Decoder<'_>,
        tag: Tag,
        _constraints: &Constraints,
    ) -> Result<LdapMessage, DecodeError> {
        let parts = match decoder.read_sequence::<Parts>(tag) {
            Ok(parts) => parts,
            Err(error) => return Err(error),
        };
        let Required(message_id, rest) = parts;
        let Required(protocol_op, rest) = rest;
        let Optional(controls, rest) = rest;
        let Required(unknown, End) = rest;
        Ok(LdapMessage {
            message_id,
            protocol_op,
            controls,
            unknown,
        })
    }
}

impl Encode for LdapMessage {
    fn encode_with_tag_and_constraints(
        &self,
        encoder: &mut Encoder,
        tag: Tag,
        _constraints: &Constraints,
        _identifier: Identifier,
    ) -> Result<(), EncodeError> {
        let rest = Put(&self.unknown, End);
        let rest = PutOptional(&self.controls, rest);
        let rest = Put(&self.protocol_op, rest);
        encoder.write_sequence(tag, Put(&self.message_id, rest))
    }

    fn is_present(&self) -> bool {
        true
    }
}

impl WholeMessage for LdapMessage {
    ghost use Rattle.std.specs.Prelude.{refl};
    ghost use Rattle.rasn_types.specs.declared.types.codec.Codec.TheVariants.{Ber};

    ghost RULES = { Ber };

    const RULES: Codec = Codec::Ber;

    ghost whole = { refl };
}
