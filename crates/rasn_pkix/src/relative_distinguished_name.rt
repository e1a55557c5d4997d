// Written by `soqavise generate` from the ASN.1 of Certificates, Revocation, Requests,
// CertificateExtensions: change that, and write it again.
//! `RelativeDistinguishedName ::= SET (SIZE (1..MAX)) OF AttributeTypeAndValue`
use crate::AttributeTypeAndValue;
use rasn::prelude::*;

/// `RelativeDistinguishedName ::= SET (SIZE (1..MAX)) OF AttributeTypeAndValue`
#[derive(Debug, PartialEq, Eq, Drop)]
pub struct RelativeDistinguishedName {
    /// The value.
    pub value: SetOf<AttributeTypeAndValue>,
}

impl AsnType for RelativeDistinguishedName {
    ghost use Rattle.std.specs.Prelude.{None, Some, false, refl};
    ghost use Rattle.rasn_types.specs.declared.types.constraints.Bounded.TheVariants.{Range};
    ghost use Rattle.rasn_types.specs.Tags.{in_universal};
    ghost use Rattle.rasn_types.specs.Shapes.{tagged_as};

    ghost TAG = { in_universal 17 };

    const TAG: Tag = Tag::SET;

    ghost CONSTRAINTS = { record { value = None; size = Some (record { constraint = Range (Some 1) None; extensible = false }) } };

    const CONSTRAINTS: Constraints = Constraints {
        value: None,
        size: Some(Bound {
            constraint: Bounded::Range {
                start: Some(1),
                end: None,
            },
            extensible: false,
        }),
    };

    ghost shape = { tagged_as (in_universal 17) (record { value = None; size = Some (record { constraint = Range (Some 1) None; extensible = false }) }) ⟦<SetOf<AttributeTypeAndValue> as AsnType>⟧.shape };

    ghost tree = { λ a. ⟦<SetOf<AttributeTypeAndValue> as AsnType>⟧.tree a.value };

    ghost own = { refl };
}

impl LawfulEq for RelativeDistinguishedName {
    ghost use Rattle.rasn_types.specs.Deciding.{deciding};
    ghost use Rattle.rasn_pkix.specs.contracts.attribute_type_and_value.AttributeTypeAndValueLawfulEq.TheImpl.Laws.{decides-law as attribute_type_and_value_law};
    ghost use Rattle.rasn_pkix.specs.contracts.attribute_type_and_value.AttributeTypeAndValueEq.TheImpl.Laws.{laws-law as attribute_type_and_value_equiv};

    ghost decides = { Prim.search (attribute_type_and_value_law, attribute_type_and_value_equiv, deciding) depth 64 };
}

impl Present for RelativeDistinguishedName {
    ghost use Rattle.rasn_types.specs.Deciding.{deciding};
    ghost use Rattle.rasn_pkix.specs.contracts.attribute_type_and_value.AttributeTypeAndValueLawfulEq.TheImpl.Laws.{decides-law as attribute_type_and_value_law};
    ghost use Rattle.rasn_pkix.specs.contracts.attribute_type_and_value.AttributeTypeAndValueEq.TheImpl.Laws.{laws-law as attribute_type_and_value_equiv};

    ghost present = { Prim.search (attribute_type_and_value_law, attribute_type_and_value_equiv, deciding) depth 64 };
}

impl Decode for RelativeDistinguishedName {
    ghost errors = { ⟦<SetOf<AttributeTypeAndValue> as Decode>⟧.errors };

    fn decode_with_tag_and_constraints(
        decoder: &mut Decoder<'_>,
        tag: Tag,
        constraints: &Constraints,
    ) -> Result<RelativeDistinguishedName, DecodeError> {
        let value = <SetOf<AttributeTypeAndValue> as Decode>::decode_with_tag_and_constraints(
            decoder,
            tag,
            constraints,
        )?;
        Ok(RelativeDistinguishedName { value })
    }
}

impl Encode for RelativeDistinguishedName {
    fn encode_with_tag_and_constraints(
        &self,
        encoder: &mut Encoder,
        tag: Tag,
        constraints: &Constraints,
        identifier: Identifier,
    ) -> Result<(), EncodeError> {
        self.value
            .encode_with_tag_and_constraints(encoder, tag, constraints, identifier)
    }

    fn is_present(&self) -> bool {
        self.value.is_present()
    }
}
