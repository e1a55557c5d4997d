// Written by `soqavise generate` from the ASN.1 of Certificates, Revocation, Requests,
// CertificateExtensions: change that, and write it again.
//! `DirectoryString-teletexString ::= TeletexString (SIZE (1..MAX))`
use rasn::prelude::*;

/// `DirectoryString-teletexString ::= TeletexString (SIZE (1..MAX))`
#[derive(Debug, PartialEq, Eq, Drop)]
pub struct DirectoryStringTeletexString {
    /// The value.
    pub value: TeletexString,
}

impl AsnType for DirectoryStringTeletexString {
    ghost use Rattle.std.specs.Prelude.{None, Some, false, refl};
    ghost use Rattle.rasn_types.specs.declared.types.constraints.Bounded.TheVariants.{Range};
    ghost use Rattle.rasn_types.specs.Tags.{in_universal};
    ghost use Rattle.rasn_types.specs.Shapes.{tagged_as};

    ghost TAG = { in_universal 20 };

    const TAG: Tag = Tag::TELETEX_STRING;

    ghost CONSTRAINTS = { record { value = None; size = Some (record { constraint = Range (Some 1) None; extensible = false }) } };

    const CONSTRAINTS: Constraints = Constraints {
        value: None,
        size: Some(Bound {
            constraint: Bounded::Range {
                start: Some(1),
                end: None,
            },
            extensible: false,
        }),
    };

    ghost shape = { tagged_as (in_universal 20) (record { value = None; size = Some (record { constraint = Range (Some 1) None; extensible = false }) }) ⟦<TeletexString as AsnType>⟧.shape };

    ghost tree = { λ a. ⟦<TeletexString as AsnType>⟧.tree a.value };

    ghost own = { refl };
}

impl LawfulEq for DirectoryStringTeletexString {
    ghost use Rattle.rasn_types.specs.Deciding.{deciding};

    ghost decides = { Prim.search deciding depth 64 };
}

impl Present for DirectoryStringTeletexString {
    ghost use Rattle.rasn_types.specs.Deciding.{deciding};

    ghost present = { Prim.search deciding depth 64 };
}

impl Decode for DirectoryStringTeletexString {
    ghost errors = { ⟦<TeletexString as Decode>⟧.errors };

    fn decode_with_tag_and_constraints(
        decoder: &mut Decoder<'_>,
        tag: Tag,
        constraints: &Constraints,
    ) -> Result<DirectoryStringTeletexString, DecodeError> {
        let value = <TeletexString as Decode>::decode_with_tag_and_constraints(
            decoder,
            tag,
            constraints,
        )?;
        Ok(DirectoryStringTeletexString { value })
    }
}

impl Encode for DirectoryStringTeletexString {
    fn encode_with_tag_and_constraints(
        &self,
        encoder: &mut Encoder,
        tag: Tag,
        constraints: &Constraints,
        identifier: Identifier,
    ) -> Result<(), EncodeError> {
        self.value
            .encode_with_tag_and_constraints(encoder, tag, constraints, identifier)
    }

    fn is_present(&self) -> bool {
        true
    }
}
