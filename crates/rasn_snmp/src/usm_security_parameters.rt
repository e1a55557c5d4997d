// Written by `soqavise generate` from the ASN.1 of SNMP: change that, and write it again.
//! `UsmSecurityParameters ::= SEQUENCE`
use crate::{Unsigned31, UsmSecurityParametersMsgUserName};
use rasn::prelude::*;

/// `UsmSecurityParameters ::= SEQUENCE`
#[derive(Debug, PartialEq, Eq, Drop)]
pub struct UsmSecurityParameters {
    /// `msgAuthoritativeEngineID OCTET STRING`
    pub msg_authoritative_engine_id: OctetString,
    /// `msgAuthoritativeEngineBoots Unsigned31`
    pub msg_authoritative_engine_boots: Unsigned31,
    /// `msgAuthoritativeEngineTime Unsigned31`
    pub msg_authoritative_engine_time: Unsigned31,
    /// `msgUserName UsmSecurityParameters-msgUserName`
    pub msg_user_name: UsmSecurityParametersMsgUserName,
    /// `msgAuthenticationParameters OCTET STRING`
    pub msg_authentication_parameters: OctetString,
    /// `msgPrivacyParameters OCTET STRING`
    pub msg_privacy_parameters: OctetString,
}

/// The components, as they are read.
type Parts = Required<OctetString, Parts1>;

type Parts1 = Required<Unsigned31, Parts2>;

type Parts2 = Required<Unsigned31, Parts3>;

type Parts3 = Required<UsmSecurityParametersMsgUserName, Parts4>;

type Parts4 = Required<OctetString, Parts5>;

type Parts5 = Required<OctetString, End>;

impl AsnType for UsmSecurityParameters {
    ghost use Rattle.std.specs.Prelude.{refl};
    ghost use Rattle.rasn_types.specs.Tags.{in_universal};
    ghost use Rattle.rasn_types.specs.Shapes.{seq};
    ghost use Rattle.rasn_types.specs.Trees.{unconstrained};

    ghost TAG = { in_universal 16 };

    const TAG: Tag = Tag::SEQUENCE;

    ghost CONSTRAINTS = { unconstrained };

    const CONSTRAINTS: Constraints = Constraints::NONE;

    ghost shape = { seq (in_universal 16) ⟦<Parts as DecodeParts>⟧.parts };

    ghost tree = { λ a. ⟦<Parts as DecodeParts>⟧.tree (record { 0 = a.msg_authoritative_engine_id; 1 = record { 0 = a.msg_authoritative_engine_boots; 1 = record { 0 = a.msg_authoritative_engine_time; 1 = record { 0 = a.msg_user_name; 1 = record { 0 = a.msg_authentication_parameters; 1 = record { 0 = a.msg_privacy_parameters; 1 = record {} } } } } } }) };

    ghost own = { refl };
}

impl LawfulEq for UsmSecurityParameters {
    ghost use Rattle.rasn_types.specs.Deciding.{deciding};
    ghost use Rattle.rasn_snmp.specs.contracts.unsigned31.Unsigned31LawfulEq.TheImpl.Laws.{decides-law as unsigned31_law};
    ghost use Rattle.rasn_snmp.specs.contracts.usm_security_parameters_msg_user_name.UsmSecurityParametersMsgUserNameLawfulEq.TheImpl.Laws.{decides-law as usm_security_parameters_msg_user_name_law};

    ghost decides = { Prim.search (unsigned31_law, usm_security_parameters_msg_user_name_law, deciding) depth 64 };
}

impl Present for UsmSecurityParameters {
    ghost use Rattle.rasn_types.specs.Equality.{parts_not_absent};

    ghost present = { λ _. parts_not_absent };
}

impl Decode for UsmSecurityParameters {
    ghost use Rattle.rasn_de.specs.PartTypes.{DecodesSequenceParts};
    ghost use Rattle.rasn_de.specs.ValueErrors.{errors_of};

    ghost errors = { λ tag _. errors_of (DecodesSequenceParts ⟦<Parts as DecodeParts>⟧.parts ⟦<Parts as DecodeParts>⟧.tree ⟦<Parts as DecodeParts>⟧.errors tag) };

    fn decode_with_tag_and_constraints(
        decoder: &mut Decoder<'_>,
        tag: Tag,
        _constraints: &Constraints,
    ) -> Result<UsmSecurityParameters, DecodeError> {
        let parts = match decoder.read_sequence::<Parts>(tag) {
            Ok(parts) => parts,
            Err(error) => return Err(error),
        };
        let Required(msg_authoritative_engine_id, rest) = parts;
        let Required(msg_authoritative_engine_boots, rest) = rest;
        let Required(msg_authoritative_engine_time, rest) = rest;
        let Required(msg_user_name, rest) = rest;
        let Required(msg_authentication_parameters, rest) = rest;
        let Required(msg_privacy_parameters, End) = rest;
        Ok(UsmSecurityParameters {
            msg_authoritative_engine_id,
            msg_authoritative_engine_boots,
            msg_authoritative_engine_time,
            msg_user_name,
            msg_authentication_parameters,
            msg_privacy_parameters,
        })
    }
}

impl Encode for UsmSecurityParameters {
    fn encode_with_tag_and_constraints(
        &self,
        encoder: &mut Encoder,
        tag: Tag,
        _constraints: &Constraints,
        _identifier: Identifier,
    ) -> Result<(), EncodeError> {
        let rest = Put(&self.msg_privacy_parameters, End);
        let rest = Put(&self.msg_authentication_parameters, rest);
        let rest = Put(&self.msg_user_name, rest);
        let rest = Put(&self.msg_authoritative_engine_time, rest);
        let rest = Put(&self.msg_authoritative_engine_boots, rest);
        encoder.write_sequence(tag, Put(&self.msg_authoritative_engine_id, rest))
    }

    fn is_present(&self) -> bool {
        true
    }
}
