// Written by `soqavise generate` from the ASN.1 of SNMP: change that, and write it again.
//! `IpAddress ::= [APPLICATION 0] IMPLICIT OCTET STRING (SIZE (4..4))`
use rasn::prelude::*;

/// `IpAddress ::= [APPLICATION 0] IMPLICIT OCTET STRING (SIZE (4..4))`
#[derive(Debug, PartialEq, Eq, Drop)]
pub struct IpAddress {
    /// The value.
    pub value: OctetString,
}

impl AsnType for IpAddress {
    ghost use Rattle.std.specs.Prelude.{None, Some, false, refl};
    ghost use Rattle.rasn_types.specs.declared.types.constraints.Bounded.TheVariants.{Range};
    ghost use Rattle.rasn_types.specs.declared.types.tag.Class.TheVariants.{Application};
    ghost use Rattle.rasn_types.specs.Shapes.{tagged_as};

    ghost TAG = { record { class = Application; value = 0 } };

    const TAG: Tag = Tag {
        class: Class::Application,
        value: 0,
    };

    ghost CONSTRAINTS = { record { value = None; size = Some (record { constraint = Range (Some 4) (Some 4); extensible = false }) } };

    const CONSTRAINTS: Constraints = Constraints {
        value: None,
        size: Some(Bound {
            constraint: Bounded::Range {
                start: Some(4),
                end: Some(4),
            },
            extensible: false,
        }),
    };

    ghost shape = { tagged_as (record { class = Application; value = 0 }) (record { value = None; size = Some (record { constraint = Range (Some 4) (Some 4); extensible = false }) }) ⟦<OctetString as AsnType>⟧.shape };

    ghost tree = { λ a. ⟦<OctetString as AsnType>⟧.tree a.value };

    ghost own = { refl };
}

impl LawfulEq for IpAddress {
    ghost use Rattle.rasn_types.specs.Deciding.{deciding};

    ghost decides = { Prim.search deciding depth 64 };
}

impl Present for IpAddress {
    ghost use Rattle.rasn_types.specs.Deciding.{deciding};

    ghost present = { Prim.search deciding depth 64 };
}

impl Decode for IpAddress {
    ghost errors = { ⟦<OctetString as Decode>⟧.errors };

    fn decode_with_tag_and_constraints(
        decoder: &mut Decoder<'_>,
        tag: Tag,
        constraints: &Constraints,
    ) -> Result<IpAddress, DecodeError> {
        let value = <OctetString as Decode>::decode_with_tag_and_constraints(
            decoder,
            tag,
            constraints,
        )?;
        Ok(IpAddress { value })
    }
}

impl Encode for IpAddress {
    fn encode_with_tag_and_constraints(
        &self,
        encoder: &mut Encoder,
        tag: Tag,
        constraints: &Constraints,
        identifier: Identifier,
    ) -> Result<(), EncodeError> {
        self.value
            .encode_with_tag_and_constraints(encoder, tag, constraints, identifier)
    }

    fn is_present(&self) -> bool {
        true
    }
}
