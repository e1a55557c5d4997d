// Written by `soqavise generate` from the ASN.1 of CmsMessages, CMS: change that, and write it
// again.
//! `SignerInfo-unsignedAttrs ::= [1] IMPLICIT SET (SIZE (1..MAX)) OF Attribute`
use crate::Attribute;
use rasn::prelude::*;

/// `SignerInfo-unsignedAttrs ::= [1] IMPLICIT SET (SIZE (1..MAX)) OF Attribute`
#[derive(Debug, PartialEq, Eq, Drop)]
pub struct SignerInfoUnsignedAttrs {
    /// The value.
    pub value: SetOf<Attribute>,
}

impl AsnType for SignerInfoUnsignedAttrs {
    ghost use Rattle.std.specs.Prelude.{None, Some, false, refl};
    ghost use Rattle.rasn_types.specs.declared.types.constraints.Bounded.TheVariants.{Range};
    ghost use Rattle.rasn_types.specs.declared.types.tag.Class.TheVariants.{Context};
    ghost use Rattle.rasn_types.specs.Shapes.{tagged_as};

    ghost TAG = { record { class = Context; value = 1 } };

    const TAG: Tag = Tag {
        class: Class::Context,
        value: 1,
    };

    ghost CONSTRAINTS = { record { value = None; size = Some (record { constraint = Range (Some 1) None; extensible = false }) } };

    const CONSTRAINTS: Constraints = Constraints {
        value: None,
        size: Some(Bound {
            constraint: Bounded::Range {
                start: Some(1),
                end: None,
            },
            extensible: false,
        }),
    };

    ghost shape = { tagged_as (record { class = Context; value = 1 }) (record { value = None; size = Some (record { constraint = Range (Some 1) None; extensible = false }) }) ⟦<SetOf<Attribute> as AsnType>⟧.shape };

    ghost tree = { λ a. ⟦<SetOf<Attribute> as AsnType>⟧.tree a.value };

    ghost own = { refl };
}

impl LawfulEq for SignerInfoUnsignedAttrs {
    ghost use Rattle.rasn_types.specs.Deciding.{deciding};
    ghost use Rattle.rasn_cms.specs.contracts.attribute.AttributeLawfulEq.TheImpl.Laws.{decides-law as attribute_law};
    ghost use Rattle.rasn_cms.specs.contracts.attribute.AttributeEq.TheImpl.Laws.{laws-law as attribute_equiv};

    ghost decides = { Prim.search (attribute_law, attribute_equiv, deciding) depth 64 };
}

impl Present for SignerInfoUnsignedAttrs {
    ghost use Rattle.rasn_types.specs.Deciding.{deciding};
    ghost use Rattle.rasn_cms.specs.contracts.attribute.AttributeLawfulEq.TheImpl.Laws.{decides-law as attribute_law};
    ghost use Rattle.rasn_cms.specs.contracts.attribute.AttributeEq.TheImpl.Laws.{laws-law as attribute_equiv};

    ghost present = { Prim.search (attribute_law, attribute_equiv, deciding) depth 64 };
}

impl Decode for SignerInfoUnsignedAttrs {
    ghost errors = { ⟦<SetOf<Attribute> as Decode>⟧.errors };

    fn decode_with_tag_and_constraints(
        decoder: &mut Decoder<'_>,
        tag: Tag,
        constraints: &Constraints,
    ) -> Result<SignerInfoUnsignedAttrs, DecodeError> {
        let value = <SetOf<Attribute> as Decode>::decode_with_tag_and_constraints(
            decoder,
            tag,
            constraints,
        )?;
        Ok(SignerInfoUnsignedAttrs { value })
    }
}

impl Encode for SignerInfoUnsignedAttrs {
    fn encode_with_tag_and_constraints(
        &self,
        encoder: &mut Encoder,
        tag: Tag,
        constraints: &Constraints,
        identifier: Identifier,
    ) -> Result<(), EncodeError> {
        self.value
            .encode_with_tag_and_constraints(encoder, tag, constraints, identifier)
    }

    fn is_present(&self) -> bool {
        self.value.is_present()
    }
}
