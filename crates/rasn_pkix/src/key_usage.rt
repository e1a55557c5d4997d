// Written by `soqavise generate` from the ASN.1 of Certificates, Revocation, Requests,
// CertificateExtensions: change that, and write it again.
//! `KeyUsage ::= BIT STRING { digitalSignature(0), nonRepudiation(1), keyEncipherment(2),
//! dataEncipherment(3), keyAgreement(4), keyCertSign(5), cRLSign(6), encipherOnly(7),
//! decipherOnly(8) }`
use rasn::prelude::*;

/// `KeyUsage ::= BIT STRING { digitalSignature(0), nonRepudiation(1), keyEncipherment(2),
/// dataEncipherment(3), keyAgreement(4), keyCertSign(5), cRLSign(6), encipherOnly(7),
/// decipherOnly(8) }`
#[derive(Debug, PartialEq, Eq, Drop)]
pub struct KeyUsage {
    /// The value.
    pub value: NamedBits,
}

impl AsnType for KeyUsage {
    ghost use Rattle.std.specs.Prelude.{None, refl};
    ghost use Rattle.rasn_types.specs.Tags.{in_universal};
    ghost use Rattle.rasn_types.specs.Shapes.{tagged_as};

    ghost TAG = { in_universal 3 };

    const TAG: Tag = Tag::BIT_STRING;

    ghost CONSTRAINTS = { record { value = None; size = None } };

    const CONSTRAINTS: Constraints = Constraints::NONE;

    ghost shape = { tagged_as (in_universal 3) (record { value = None; size = None }) ⟦<NamedBits as AsnType>⟧.shape };

    ghost tree = { λ a. ⟦<NamedBits as AsnType>⟧.tree a.value };

    ghost own = { refl };
}

impl LawfulEq for KeyUsage {
    ghost use Rattle.rasn_types.specs.Deciding.{deciding};
    ghost use Rattle.rasn_types.specs.NamedBits.{named_bits_decided, named_bits_not_absent};

    ghost decides = { Prim.search (named_bits_decided, named_bits_not_absent, deciding) depth 64 };
}

impl Present for KeyUsage {
    ghost use Rattle.rasn_types.specs.Deciding.{deciding};
    ghost use Rattle.rasn_types.specs.NamedBits.{named_bits_decided, named_bits_not_absent};

    ghost present = { Prim.search (named_bits_decided, named_bits_not_absent, deciding) depth 64 };
}

impl Decode for KeyUsage {
    ghost errors = { ⟦<NamedBits as Decode>⟧.errors };

    fn decode_with_tag_and_constraints(
        decoder: &mut Decoder<'_>,
        tag: Tag,
        constraints: &Constraints,
    ) -> Result<KeyUsage, DecodeError> {
        let value = <NamedBits as Decode>::decode_with_tag_and_constraints(
            decoder,
            tag,
            constraints,
        )?;
        Ok(KeyUsage { value })
    }
}

impl Encode for KeyUsage {
    fn encode_with_tag_and_constraints(
        &self,
        encoder: &mut Encoder,
        tag: Tag,
        constraints: &Constraints,
        identifier: Identifier,
    ) -> Result<(), EncodeError> {
        self.value
            .encode_with_tag_and_constraints(encoder, tag, constraints, identifier)
    }

    fn is_present(&self) -> bool {
        true
    }
}

impl WholeMessage for KeyUsage {
    ghost use Rattle.std.specs.Prelude.{refl};
    ghost use Rattle.rasn_types.specs.declared.types.codec.Codec.TheVariants.{Der};

    ghost RULES = { Der };

    const RULES: Codec = Codec::Der;

    ghost whole = { refl };
}
