// Written by `soqavise generate` from the ASN.1 of Certificates, Revocation, Requests,
// CertificateExtensions: change that, and write it again.
//! `DirectoryString-printableString ::= PrintableString (SIZE (1..MAX))`
use rasn::prelude::*;

/// `DirectoryString-printableString ::= PrintableString (SIZE (1..MAX))`
#[derive(Debug, PartialEq, Eq, Drop)]
pub struct DirectoryStringPrintableString {
    /// The value.
    pub value: PrintableString,
}

impl AsnType for DirectoryStringPrintableString {
    ghost use Rattle.std.specs.Prelude.{None, Some, false, refl};
    ghost use Rattle.rasn_types.specs.declared.types.constraints.Bounded.TheVariants.{Range};
    ghost use Rattle.rasn_types.specs.Tags.{in_universal};
    ghost use Rattle.rasn_types.specs.Shapes.{tagged_as};

    ghost TAG = { in_universal 19 };

    const TAG: Tag = Tag::PRINTABLE_STRING;

    ghost CONSTRAINTS = { record { value = None; size = Some (record { constraint = Range (Some 1) None; extensible = false }) } };

    const CONSTRAINTS: Constraints = Constraints {
        value: None,
        size: Some(Bound {
            constraint: Bounded::Range {
                start: Some(1),
                end: None,
            },
            extensible: false,
        }),
    };

    ghost shape = { tagged_as (in_universal 19) (record { value = None; size = Some (record { constraint = Range (Some 1) None; extensible = false }) }) ⟦<PrintableString as AsnType>⟧.shape };

    ghost tree = { λ a. ⟦<PrintableString as AsnType>⟧.tree a.value };

    ghost own = { refl };
}

impl LawfulEq for DirectoryStringPrintableString {
    ghost use Rattle.rasn_types.specs.Deciding.{deciding};

    ghost decides = { Prim.search deciding depth 64 };
}

impl Present for DirectoryStringPrintableString {
    ghost use Rattle.rasn_types.specs.Deciding.{deciding};

    ghost present = { Prim.search deciding depth 64 };
}

impl Decode for DirectoryStringPrintableString {
    ghost errors = { ⟦<PrintableString as Decode>⟧.errors };

    fn decode_with_tag_and_constraints(
        decoder: &mut Decoder<'_>,
        tag: Tag,
        constraints: &Constraints,
    ) -> Result<DirectoryStringPrintableString, DecodeError> {
        let value = <PrintableString as Decode>::decode_with_tag_and_constraints(
            decoder,
            tag,
            constraints,
        )?;
        Ok(DirectoryStringPrintableString { value })
    }
}

impl Encode for DirectoryStringPrintableString {
    fn encode_with_tag_and_constraints(
        &self,
        encoder: &mut Encoder,
        tag: Tag,
        constraints: &Constraints,
        identifier: Identifier,
    ) -> Result<(), EncodeError> {
        self.value
            .encode_with_tag_and_constraints(encoder, tag, constraints, identifier)
    }

    fn is_present(&self) -> bool {
        true
    }
}
