// Written by `soqavise generate` from the ASN.1 of Certificates, Revocation, Requests,
// CertificateExtensions: change that, and write it again.
//! `DirectoryString-bmpString ::= BMPString (SIZE (1..MAX))`
use rasn::prelude::*;

/// `DirectoryString-bmpString ::= BMPString (SIZE (1..MAX))`
#[derive(Debug, PartialEq, Eq, Drop)]
pub struct DirectoryStringBmpString {
    /// The value.
    pub value: BmpString,
}

impl AsnType for DirectoryStringBmpString {
    ghost use Rattle.std.specs.Prelude.{None, Some, false, refl};
    ghost use Rattle.rasn_types.specs.declared.types.constraints.Bounded.TheVariants.{Range};
    ghost use Rattle.rasn_types.specs.Tags.{in_universal};
    ghost use Rattle.rasn_types.specs.Shapes.{tagged_as};

    ghost TAG = { in_universal 30 };

    const TAG: Tag = Tag::BMP_STRING;

    ghost CONSTRAINTS = { record { value = None; size = Some (record { constraint = Range (Some 1) None; extensible = false }) } };

    const CONSTRAINTS: Constraints = Constraints {
        value: None,
        size: Some(Bound {
            constraint: Bounded::Range {
                start: Some(1),
                end: None,
            },
            extensible: false,
        }),
    };

    ghost shape = { tagged_as (in_universal 30) (record { value = None; size = Some (record { constraint = Range (Some 1) None; extensible = false }) }) ⟦<BmpString as AsnType>⟧.shape };

    ghost tree = { λ a. ⟦<BmpString as AsnType>⟧.tree a.value };

    ghost own = { refl };
}

impl LawfulEq for DirectoryStringBmpString {
    ghost use Rattle.rasn_types.specs.Deciding.{deciding};

    ghost decides = { Prim.search deciding depth 64 };
}

impl Present for DirectoryStringBmpString {
    ghost use Rattle.rasn_types.specs.Deciding.{deciding};

    ghost present = { Prim.search deciding depth 64 };
}

impl Decode for DirectoryStringBmpString {
    ghost errors = { ⟦<BmpString as Decode>⟧.errors };

    fn decode_with_tag_and_constraints(
        decoder: &mut Decoder<'_>,
        tag: Tag,
        constraints: &Constraints,
    ) -> Result<DirectoryStringBmpString, DecodeError> {
        let value = <BmpString as Decode>::decode_with_tag_and_constraints(
            decoder,
            tag,
            constraints,
        )?;
        Ok(DirectoryStringBmpString { value })
    }
}

impl Encode for DirectoryStringBmpString {
    fn encode_with_tag_and_constraints(
        &self,
        encoder: &mut Encoder,
        tag: Tag,
        constraints: &Constraints,
        identifier: Identifier,
    ) -> Result<(), EncodeError> {
        self.value
            .encode_with_tag_and_constraints(encoder, tag, constraints, identifier)
    }

    fn is_present(&self) -> bool {
        true
    }
}
