// Written by `soqavise generate` from the ASN.1 of Certificates, Revocation, Requests,
// CertificateExtensions: change that, and write it again.
//! `ExtKeyUsageSyntax ::= SEQUENCE (SIZE (1..MAX)) OF KeyPurposeId`
use crate::KeyPurposeId;
use rasn::prelude::*;

/// `ExtKeyUsageSyntax ::= SEQUENCE (SIZE (1..MAX)) OF KeyPurposeId`
#[derive(Debug, PartialEq, Eq, Drop)]
pub struct ExtKeyUsageSyntax {
    /// The value.
    pub value: Vec<KeyPurposeId>,
}

impl AsnType for ExtKeyUsageSyntax {
    ghost use Rattle.std.specs.Prelude.{None, Some, false, refl};
    ghost use Rattle.rasn_types.specs.declared.types.constraints.Bounded.TheVariants.{Range};
    ghost use Rattle.rasn_types.specs.Tags.{in_universal};
    ghost use Rattle.rasn_types.specs.Shapes.{tagged_as};

    ghost TAG = { in_universal 16 };

    const TAG: Tag = Tag::SEQUENCE;

    ghost CONSTRAINTS = { record { value = None; size = Some (record { constraint = Range (Some 1) None; extensible = false }) } };

    const CONSTRAINTS: Constraints = Constraints {
        value: None,
        size: Some(Bound {
            constraint: Bounded::Range {
                start: Some(1),
                end: None,
            },
            extensible: false,
        }),
    };

    ghost shape = { tagged_as (in_universal 16) (record { value = None; size = Some (record { constraint = Range (Some 1) None; extensible = false }) }) ⟦<Vec<KeyPurposeId> as AsnType>⟧.shape };

    ghost tree = { λ a. ⟦<Vec<KeyPurposeId> as AsnType>⟧.tree a.value };

    ghost own = { refl };
}

impl LawfulEq for ExtKeyUsageSyntax {
    ghost use Rattle.rasn_types.specs.Deciding.{deciding};

    ghost decides = { Prim.search deciding depth 64 };
}

impl Present for ExtKeyUsageSyntax {
    ghost use Rattle.rasn_types.specs.Deciding.{deciding};

    ghost present = { Prim.search deciding depth 64 };
}

impl Decode for ExtKeyUsageSyntax {
    ghost errors = { ⟦<Vec<KeyPurposeId> as Decode>⟧.errors };

    fn decode_with_tag_and_constraints(
        decoder: &mut Decoder<'_>,
        tag: Tag,
        constraints: &Constraints,
    ) -> Result<ExtKeyUsageSyntax, DecodeError> {
        let value = <Vec<KeyPurposeId> as Decode>::decode_with_tag_and_constraints(
            decoder,
            tag,
            constraints,
        )?;
        Ok(ExtKeyUsageSyntax { value })
    }
}

impl Encode for ExtKeyUsageSyntax {
    fn encode_with_tag_and_constraints(
        &self,
        encoder: &mut Encoder,
        tag: Tag,
        constraints: &Constraints,
        identifier: Identifier,
    ) -> Result<(), EncodeError> {
        self.value
            .encode_with_tag_and_constraints(encoder, tag, constraints, identifier)
    }

    fn is_present(&self) -> bool {
        self.value.is_present()
    }
}
