// Written by `soqavise generate` from the ASN.1 of SNMP: change that, and write it again.
//! `UsmSecurityParameters-msgUserName ::= OCTET STRING (SIZE (0..32))`
use rasn::prelude::*;

/// `UsmSecurityParameters-msgUserName ::= OCTET STRING (SIZE (0..32))`
#[derive(Debug, PartialEq, Eq, Drop)]
pub struct UsmSecurityParametersMsgUserName {
    /// The value.
    pub value: OctetString,
}

impl AsnType for UsmSecurityParametersMsgUserName {
    ghost use Rattle.std.specs.Prelude.{None, Some, false, refl};
    ghost use Rattle.rasn_types.specs.declared.types.constraints.Bounded.TheVariants.{Range};
    ghost use Rattle.rasn_types.specs.Tags.{in_universal};
    ghost use Rattle.rasn_types.specs.Shapes.{tagged_as};

    ghost TAG = { in_universal 4 };

    const TAG: Tag = Tag::OCTET_STRING;

    ghost CONSTRAINTS = { record { value = None; size = Some (record { constraint = Range (Some 0) (Some 32); extensible = false }) } };

    const CONSTRAINTS: Constraints = Constraints {
        value: None,
        size: Some(Bound {
            constraint: Bounded::Range {
                start: Some(0),
                end: Some(32),
            },
            extensible: false,
        }),
    };

    ghost shape = { tagged_as (in_universal 4) (record { value = None; size = Some (record { constraint = Range (Some 0) (Some 32); extensible = false }) }) ⟦<OctetString as AsnType>⟧.shape };

    ghost tree = { λ a. ⟦<OctetString as AsnType>⟧.tree a.value };

    ghost own = { refl };
}

impl LawfulEq for UsmSecurityParametersMsgUserName {
    ghost use Rattle.rasn_types.specs.Deciding.{deciding};

    ghost decides = { Prim.search deciding depth 64 };
}

impl Present for UsmSecurityParametersMsgUserName {
    ghost use Rattle.rasn_types.specs.Deciding.{deciding};

    ghost present = { Prim.search deciding depth 64 };
}

impl Decode for UsmSecurityParametersMsgUserName {
    ghost errors = { ⟦<OctetString as Decode>⟧.errors };

    fn decode_with_tag_and_constraints(
        decoder: &mut Decoder<'_>,
        tag: Tag,
        constraints: &Constraints,
    ) -> Result<UsmSecurityParametersMsgUserName, DecodeError> {
        let value = <OctetString as Decode>::decode_with_tag_and_constraints(
            decoder,
            tag,
            constraints,
        )?;
        Ok(UsmSecurityParametersMsgUserName { value })
    }
}

impl Encode for UsmSecurityParametersMsgUserName {
    fn encode_with_tag_and_constraints(
        &self,
        encoder: &mut Encoder,
        tag: Tag,
        constraints: &Constraints,
        identifier: Identifier,
    ) -> Result<(), EncodeError> {
        self.value
            .encode_with_tag_and_constraints(encoder, tag, constraints, identifier)
    }

    fn is_present(&self) -> bool {
        true
    }
}
