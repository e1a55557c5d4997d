// Written by `soqavise generate` from the ASN.1 of SNMP: change that, and write it again.
//! `SNMPv3Message ::= SEQUENCE`
use crate::{HeaderData, ScopedPduData, SnmpV3MessageMsgVersion};
use rasn::prelude::*;

/// `SNMPv3Message ::= SEQUENCE`
#[derive(Debug, PartialEq, Eq, Drop)]
pub struct SnmpV3Message {
    /// `msgVersion SNMPv3Message-msgVersion`
    pub msg_version: SnmpV3MessageMsgVersion,
    /// `msgGlobalData HeaderData`
    pub msg_global_data: HeaderData,
    /// `msgSecurityParameters OCTET STRING`
    pub msg_security_parameters: OctetString,
    /// `msgData ScopedPduData`
    pub msg_data: ScopedPduData,
}

/// The components, as they are read.
type Parts = Required<SnmpV3MessageMsgVersion, Parts1>;

type Parts1 = Required<HeaderData, Parts2>;

type Parts2 = Required<OctetString, Parts3>;

type Parts3 = Required<ScopedPduData, End>;

impl AsnType for SnmpV3Message {
    ghost use Rattle.std.specs.Prelude.{refl};
    ghost use Rattle.rasn_types.specs.Tags.{in_universal};
    ghost use Rattle.rasn_types.specs.Shapes.{seq};
    ghost use Rattle.rasn_types.specs.Trees.{unconstrained};

    ghost TAG = { in_universal 16 };

    const TAG: Tag = Tag::SEQUENCE;

    ghost CONSTRAINTS = { unconstrained };

    const CONSTRAINTS: Constraints = Constraints::NONE;

    ghost shape = { seq (in_universal 16) ⟦<Parts as DecodeParts>⟧.parts };

    ghost tree = { λ a. ⟦<Parts as DecodeParts>⟧.tree (record { 0 = a.msg_version; 1 = record { 0 = a.msg_global_data; 1 = record { 0 = a.msg_security_parameters; 1 = record { 0 = a.msg_data; 1 = record {} } } } }) };

    ghost own = { refl };
}

impl LawfulEq for SnmpV3Message {
    ghost use Rattle.rasn_types.specs.Deciding.{deciding};
    ghost use Rattle.rasn_snmp.specs.contracts.header_data.HeaderDataLawfulEq.TheImpl.Laws.{decides-law as header_data_law};
    ghost use Rattle.rasn_snmp.specs.contracts.scoped_pdu_data.ScopedPduDataLawfulEq.TheImpl.Laws.{decides-law as scoped_pdu_data_law};
    ghost use Rattle.rasn_snmp.specs.contracts.snmp_v3_message_msg_version.SnmpV3MessageMsgVersionLawfulEq.TheImpl.Laws.{decides-law as snmp_v3_message_msg_version_law};

    ghost decides = { Prim.search (header_data_law, scoped_pdu_data_law, snmp_v3_message_msg_version_law, deciding) depth 64 };
}

impl Present for SnmpV3Message {
    ghost use Rattle.rasn_types.specs.Equality.{parts_not_absent};

    ghost present = { λ _. parts_not_absent };
}

impl Decode for SnmpV3Message {
    ghost use Rattle.rasn_de.specs.PartTypes.{DecodesSequenceParts};
    ghost use Rattle.rasn_de.specs.ValueErrors.{errors_of};

    ghost errors = { λ tag _. errors_of (DecodesSequenceParts ⟦<Parts as DecodeParts>⟧.parts ⟦<Parts as DecodeParts>⟧.tree ⟦<Parts as DecodeParts>⟧.errors tag) };

    fn decode_with_tag_and_constraints(
        decoder: &mut Decoder<'_>,
        tag: Tag,
        _constraints: &Constraints,
    ) -> Result<SnmpV3Message, DecodeError> {
        let parts = match decoder.read_sequence::<Parts>(tag) {
            Ok(parts) => parts,
            Err(error) => return Err(error),
        };
        let Required(msg_version, rest) = parts;
        let Required(msg_global_data, rest) = rest;
        let Required(msg_security_parameters, rest) = rest;
        let Required(msg_data, End) = rest;
        Ok(SnmpV3Message {
            msg_version,
            msg_global_data,
            msg_security_parameters,
            msg_data,
        })
    }
}

impl Encode for SnmpV3Message {
    fn encode_with_tag_and_constraints(
        &self,
        encoder: &mut Encoder,
        tag: Tag,
        _constraints: &Constraints,
        _identifier: Identifier,
    ) -> Result<(), EncodeError> {
        let rest = Put(&self.msg_data, End);
        let rest = Put(&self.msg_security_parameters, rest);
        let rest = Put(&self.msg_global_data, rest);
        encoder.write_sequence(tag, Put(&self.msg_version, rest))
    }

    fn is_present(&self) -> bool {
        true
    }
}

impl WholeMessage for SnmpV3Message {
    ghost use Rattle.std.specs.Prelude.{refl};
    ghost use Rattle.rasn_types.specs.declared.types.codec.Codec.TheVariants.{Ber};

    ghost RULES = { Ber };

    const RULES: Codec = Codec::Ber;

    ghost whole = { refl };
}
