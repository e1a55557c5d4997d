// Written by `soqavise generate` from the ASN.1 of Certificates, Revocation, Requests,
// CertificateExtensions: change that, and write it again.
//! `Extensions ::= SEQUENCE (SIZE (1..MAX)) OF Extension`
use crate::Extension;
use rasn::prelude::*;

/// `Extensions ::= SEQUENCE (SIZE (1..MAX)) OF Extension`
#[derive(Debug, PartialEq, Eq, Drop)]
pub struct Extensions {
    /// The value.
    pub value: Vec<Extension>,
}

impl AsnType for Extensions {
    ghost use Rattle.std.specs.Prelude.{None, Some, false, refl};
    ghost use Rattle.rasn_types.specs.declared.types.constraints.Bounded.TheVariants.{Range};
    ghost use Rattle.rasn_types.specs.Tags.{in_universal};
    ghost use Rattle.rasn_types.specs.Shapes.{tagged_as};

    ghost TAG = { in_universal 16 };

    const TAG: Tag = Tag::SEQUENCE;

    ghost CONSTRAINTS = { record { value = None; size = Some (record { constraint = Range (Some 1) None; extensible = false }) } };

    const CONSTRAINTS: Constraints = Constraints {
        value: None,
        size: Some(Bound {
            constraint: Bounded::Range {
                start: Some(1),
                end: None,
            },
            extensible: false,
        }),
    };

    ghost shape = { tagged_as (in_universal 16) (record { value = None; size = Some (record { constraint = Range (Some 1) None; extensible = false }) }) ⟦<Vec<Extension> as AsnType>⟧.shape };

    ghost tree = { λ a. ⟦<Vec<Extension> as AsnType>⟧.tree a.value };

    ghost own = { refl };
}

impl LawfulEq for Extensions {
    ghost use Rattle.rasn_types.specs.Deciding.{deciding};
    ghost use Rattle.rasn_pkix.specs.contracts.extension.ExtensionLawfulEq.TheImpl.Laws.{decides-law as extension_law};

    ghost decides = { Prim.search (extension_law, deciding) depth 64 };
}

impl Present for Extensions {
    ghost use Rattle.rasn_types.specs.Deciding.{deciding};
    ghost use Rattle.rasn_pkix.specs.contracts.extension.ExtensionLawfulEq.TheImpl.Laws.{decides-law as extension_law};

    ghost present = { Prim.search (extension_law, deciding) depth 64 };
}

impl Decode for Extensions {
    ghost errors = { ⟦<Vec<Extension> as Decode>⟧.errors };

    fn decode_with_tag_and_constraints(
        decoder: &mut Decoder<'_>,
        tag: Tag,
        constraints: &Constraints,
    ) -> Result<Extensions, DecodeError> {
        let value = <Vec<Extension> as Decode>::decode_with_tag_and_constraints(
            decoder,
            tag,
            constraints,
        )?;
        Ok(Extensions { value })
    }
}

impl Encode for Extensions {
    fn encode_with_tag_and_constraints(
        &self,
        encoder: &mut Encoder,
        tag: Tag,
        constraints: &Constraints,
        identifier: Identifier,
    ) -> Result<(), EncodeError> {
        self.value
            .encode_with_tag_and_constraints(encoder, tag, constraints, identifier)
    }

    fn is_present(&self) -> bool {
        self.value.is_present()
    }
}
