// Written by `soqavise generate` from the ASN.1 of Certificates, Revocation, Requests,
// CertificateExtensions: change that, and write it again.
//! `ORAddress ::= SEQUENCE`
use rasn::prelude::*;

/// `ORAddress ::= SEQUENCE`
///
/// Its values are the octets of encodings, since the option `--open` names it.
#[derive(Debug, PartialEq, Eq, Drop)]
pub struct OrAddress {
    /// The value.
    pub value: Vec<Any>,
}

impl AsnType for OrAddress {
    ghost use Rattle.std.specs.Prelude.{None, refl};
    ghost use Rattle.rasn_types.specs.Tags.{in_universal};
    ghost use Rattle.rasn_types.specs.Shapes.{tagged_as};

    ghost TAG = { in_universal 16 };

    const TAG: Tag = Tag::SEQUENCE;

    ghost CONSTRAINTS = { record { value = None; size = None } };

    const CONSTRAINTS: Constraints = Constraints::NONE;

    ghost shape = { tagged_as (in_universal 16) (record { value = None; size = None }) ⟦<Vec<Any> as AsnType>⟧.shape };

    ghost tree = { λ a. ⟦<Vec<Any> as AsnType>⟧.tree a.value };

    ghost own = { refl };
}

impl LawfulEq for OrAddress {
    ghost use Rattle.rasn_types.specs.Deciding.{deciding};

    ghost decides = { Prim.search deciding depth 64 };
}

impl Present for OrAddress {
    ghost use Rattle.rasn_types.specs.Deciding.{deciding};

    ghost present = { Prim.search deciding depth 64 };
}

impl Decode for OrAddress {
    ghost errors = { ⟦<Vec<Any> as Decode>⟧.errors };

    fn decode_with_tag_and_constraints(
        decoder: &mut Decoder<'_>,
        tag: Tag,
        constraints: &Constraints,
    ) -> Result<OrAddress, DecodeError> {
        let value = <Vec<Any> as Decode>::decode_with_tag_and_constraints(
            decoder,
            tag,
            constraints,
        )?;
        Ok(OrAddress { value })
    }
}

impl Encode for OrAddress {
    fn encode_with_tag_and_constraints(
        &self,
        encoder: &mut Encoder,
        tag: Tag,
        constraints: &Constraints,
        identifier: Identifier,
    ) -> Result<(), EncodeError> {
        self.value
            .encode_with_tag_and_constraints(encoder, tag, constraints, identifier)
    }

    fn is_present(&self) -> bool {
        self.value.is_present()
    }
}
