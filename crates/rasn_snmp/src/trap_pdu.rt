// Written by `soqavise generate` from the ASN.1 of SNMP: change that, and write it again.
//! `Trap-PDU ::= SEQUENCE`
use crate::{NetworkAddress, TimeTicks, VarBindList};
use rasn::prelude::*;

/// `Trap-PDU ::= SEQUENCE`
#[derive(Debug, PartialEq, Eq, Drop)]
pub struct TrapPdu {
    /// `enterprise OBJECT IDENTIFIER`
    pub enterprise: ObjectIdentifier,
    /// `agent-addr NetworkAddress`
    pub agent_addr: NetworkAddress,
    /// `generic-trap INTEGER { coldStart(0), warmStart(1), linkDown(2), linkUp(3),
    /// authenticationFailure(4), egpNeighborLoss(5), enterpriseSpecific(6) }`
    pub generic_trap: Integer,
    /// `specific-trap INTEGER`
    pub specific_trap: Integer,
    /// `time-stamp TimeTicks`
    pub time_stamp: TimeTicks,
    /// `variable-bindings VarBindList`
    pub variable_bindings: VarBindList,
}

/// The components, as they are read.
type Parts = Required<ObjectIdentifier, Parts1>;

type Parts1 = Required<NetworkAddress, Parts2>;

type Parts2 = Required<Integer, Parts3>;

type Parts3 = Required<Integer, Parts4>;

type Parts4 = Required<TimeTicks, Parts5>;

type Parts5 = Required<VarBindList, End>;

impl AsnType for TrapPdu {
    ghost use Rattle.std.specs.Prelude.{refl};
    ghost use Rattle.rasn_types.specs.Tags.{in_universal};
    ghost use Rattle.rasn_types.specs.Shapes.{seq};
    ghost use Rattle.rasn_types.specs.Trees.{unconstrained};

    ghost TAG = { in_universal 16 };

    const TAG: Tag = Tag::SEQUENCE;

    ghost CONSTRAINTS = { unconstrained };

    const CONSTRAINTS: Constraints = Constraints::NONE;

    ghost shape = { seq (in_universal 16) ⟦<Parts as DecodeParts>⟧.parts };

    ghost tree = { λ a. ⟦<Parts as DecodeParts>⟧.tree (record { 0 = a.enterprise; 1 = record { 0 = a.agent_addr; 1 = record { 0 = a.generic_trap; 1 = record { 0 = a.specific_trap; 1 = record { 0 = a.time_stamp; 1 = record { 0 = a.variable_bindings; 1 = record {} } } } } } }) };

    ghost own = { refl };
}

impl LawfulEq for TrapPdu {
    ghost use Rattle.rasn_types.specs.Deciding.{deciding};
    ghost use Rattle.rasn_snmp.specs.contracts.network_address.NetworkAddressLawfulEq.TheImpl.Laws.{decides-law as network_address_law};
    ghost use Rattle.rasn_snmp.specs.contracts.var_bind_list.VarBindListLawfulEq.TheImpl.Laws.{decides-law as var_bind_list_law};

    ghost decides = { Prim.search (network_address_law, var_bind_list_law, deciding) depth 64 };
}

impl Present for TrapPdu {
    ghost use Rattle.rasn_types.specs.Equality.{parts_not_absent};

    ghost present = { λ _. parts_not_absent };
}

impl Decode for TrapPdu {
    ghost use Rattle.rasn_de.specs.PartTypes.{DecodesSequenceParts};
    ghost use Rattle.rasn_de.specs.ValueErrors.{errors_of};

    ghost errors = { λ tag _. errors_of (DecodesSequenceParts ⟦<Parts as DecodeParts>⟧.parts ⟦<Parts as DecodeParts>⟧.tree ⟦<Parts as DecodeParts>⟧.errors tag) };

    fn decode_with_tag_and_constraints(
        decoder: &mut Decoder<'_>,
        tag: Tag,
        _constraints: &Constraints,
    ) -> Result<TrapPdu, DecodeError> {
        let parts = match decoder.read_sequence::<Parts>(tag) {
            Ok(parts) => parts,
            Err(error) => return Err(error),
        };
        let Required(enterprise, rest) = parts;
        let Required(agent_addr, rest) = rest;
        let Required(generic_trap, rest) = rest;
        let Required(specific_trap, rest) = rest;
        let Required(time_stamp, rest) = rest;
        let Required(variable_bindings, End) = rest;
        Ok(TrapPdu {
            enterprise,
            agent_addr,
            generic_trap,
            specific_trap,
            time_stamp,
            variable_bindings,
        })
    }
}

impl Encode for TrapPdu {
    fn encode_with_tag_and_constraints(
        &self,
        encoder: &mut Encoder,
        tag: Tag,
        _constraints: &Constraints,
        _identifier: Identifier,
    ) -> Result<(), EncodeError> {
        let rest = Put(&self.variable_bindings, End);
        let rest = Put(&self.time_stamp, rest);
        let rest = Put(&self.specific_trap, rest);
        let rest = Put(&self.generic_trap, rest);
        let rest = Put(&self.agent_addr, rest);
        encoder.write_sequence(tag, Put(&self.enterprise, rest))
    }

    fn is_present(&self) -> bool {
        true
    }
}
