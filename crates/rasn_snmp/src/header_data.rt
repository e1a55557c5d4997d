// Written by `soqavise generate` from the ASN.1 of SNMP: change that, and write it again.
//! `HeaderData ::= SEQUENCE`
use crate::{HeaderDataMsgFlags, HeaderDataMsgMaxSize, HeaderDataMsgSecurityModel, Unsigned31};
use rasn::prelude::*;

/// `HeaderData ::= SEQUENCE`
#[derive(Debug, PartialEq, Eq, Drop)]
pub struct HeaderData {
    /// `msgID Unsigned31`
    pub msg_id: Unsigned31,
    /// `msgMaxSize HeaderData-msgMaxSize`
    pub msg_max_size: HeaderDataMsgMaxSize,
    /// `msgFlags HeaderData-msgFlags`
    pub msg_flags: HeaderDataMsgFlags,
    /// `msgSecurityModel HeaderData-msgSecurityModel`
    pub msg_security_model: HeaderDataMsgSecurityModel,
}

/// The components, as they are read.
type Parts = Required<Unsigned31, Parts1>;

type Parts1 = Required<HeaderDataMsgMaxSize, Parts2>;

type Parts2 = Required<HeaderDataMsgFlags, Parts3>;

type Parts3 = Required<HeaderDataMsgSecurityModel, End>;

impl AsnType for HeaderData {
    ghost use Rattle.std.specs.Prelude.{refl};
    ghost use Rattle.rasn_types.specs.Tags.{in_universal};
    ghost use Rattle.rasn_types.specs.Shapes.{seq};
    ghost use Rattle.rasn_types.specs.Trees.{unconstrained};

    ghost TAG = { in_universal 16 };

    const TAG: Tag = Tag::SEQUENCE;

    ghost CONSTRAINTS = { unconstrained };

    const CONSTRAINTS: Constraints = Constraints::NONE;

    ghost shape = { seq (in_universal 16) ⟦<Parts as DecodeParts>⟧.parts };

    ghost tree = { λ a. ⟦<Parts as DecodeParts>⟧.tree (record { 0 = a.msg_id; 1 = record { 0 = a.msg_max_size; 1 = record { 0 = a.msg_flags; 1 = record { 0 = a.msg_security_model; 1 = record {} } } } }) };

    ghost own = { refl };
}

impl LawfulEq for HeaderData {
    ghost use Rattle.rasn_types.specs.Deciding.{deciding};
    ghost use Rattle.rasn_snmp.specs.contracts.header_data_msg_flags.HeaderDataMsgFlagsLawfulEq.TheImpl.Laws.{decides-law as header_data_msg_flags_law};
    ghost use Rattle.rasn_snmp.specs.contracts.header_data_msg_max_size.HeaderDataMsgMaxSizeLawfulEq.TheImpl.Laws.{decides-law as header_data_msg_max_size_law};
    ghost use Rattle.rasn_snmp.specs.contracts.header_data_msg_security_model.HeaderDataMsgSecurityModelLawfulEq.TheImpl.Laws.{decides-law as header_data_msg_security_model_law};
    ghost use Rattle.rasn_snmp.specs.contracts.unsigned31.Unsigned31LawfulEq.TheImpl.Laws.{decides-law as unsigned31_law};

    ghost decides = { Prim.search (header_data_msg_flags_law, header_data_msg_max_size_law, header_data_msg_security_model_law, unsigned31_law, deciding) depth 64 };
}

impl Present for HeaderData {
    ghost use Rattle.rasn_types.specs.Equality.{parts_not_absent};

    ghost present = { λ _. parts_not_absent };
}

impl Decode for HeaderData {
    ghost use Rattle.rasn_de.specs.PartTypes.{DecodesSequenceParts};
    ghost use Rattle.rasn_de.specs.ValueErrors.{errors_of};

    ghost errors = { λ tag _. errors_of (DecodesSequenceParts ⟦<Parts as DecodeParts>⟧.parts ⟦<Parts as DecodeParts>⟧.tree ⟦<Parts as DecodeParts>⟧.errors tag) };

    fn decode_with_tag_and_constraints(
        decoder: &mut Decoder<'_>,
        tag: Tag,
        _constraints: &Constraints,
    ) -> Result<HeaderData, DecodeError> {
        let parts = match decoder.read_sequence::<Parts>(tag) {
            Ok(parts) => parts,
            Err(error) => return Err(error),
        };
        let Required(msg_id, rest) = parts;
        let Required(msg_max_size, rest) = rest;
        let Required(msg_flags, rest) = rest;
        let Required(msg_security_model, End) = rest;
        Ok(HeaderData {
            msg_id,
            msg_max_size,
            msg_flags,
            msg_security_model,
        })
    }
}

impl Encode for HeaderData {
    fn encode_with_tag_and_constraints(
        &self,
        encoder: &mut Encoder,
        tag: Tag,
        _constraints: &Constraints,
        _identifier: Identifier,
    ) -> Result<(), EncodeError> {
        let rest = Put(&self.msg_security_model, End);
        let rest = Put(&self.msg_flags, rest);
        let rest = Put(&self.msg_max_size, rest);
        encoder.write_sequence(tag, Put(&self.msg_id, rest))
    }

    fn is_present(&self) -> bool {
        true
    }
}
