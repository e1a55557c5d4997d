// Written by `soqavise generate` from the ASN.1 of Certificates, Revocation, Requests,
// CertificateExtensions: change that, and write it again.
//! `AnotherName ::= SEQUENCE`
use rasn::prelude::*;

/// `AnotherName ::= SEQUENCE`
#[derive(Debug, PartialEq, Eq, Drop)]
pub struct AnotherName {
    /// `type-id OBJECT IDENTIFIER`
    pub type_id: ObjectIdentifier,
    /// `value [0] EXPLICIT ANY`
    pub value: Explicit<ContextTag<0>, Any>,
}

/// The components, as they are read.
type Parts = Required<ObjectIdentifier, Parts1>;

type Parts1 = Required<Explicit<ContextTag<0>, Any>, End>;

impl AsnType for AnotherName {
    ghost use Rattle.std.specs.Prelude.{refl};
    ghost use Rattle.rasn_types.specs.Tags.{in_universal};
    ghost use Rattle.rasn_types.specs.Shapes.{seq};
    ghost use Rattle.rasn_types.specs.Trees.{unconstrained};

    ghost TAG = { in_universal 16 };

    const TAG: Tag = Tag::SEQUENCE;

    ghost CONSTRAINTS = { unconstrained };

    const CONSTRAINTS: Constraints = Constraints::NONE;

    ghost shape = { seq (in_universal 16) ⟦<Parts as DecodeParts>⟧.parts };

    ghost tree = { λ a. ⟦<Parts as DecodeParts>⟧.tree (record { 0 = a.type_id; 1 = record { 0 = a.value; 1 = record {} } }) };

    ghost own = { refl };
}

impl LawfulEq for AnotherName {
    ghost use Rattle.rasn_types.specs.Deciding.{deciding};

    ghost decides = { Prim.search deciding depth 64 };
}

impl Present for AnotherName {
    ghost use Rattle.rasn_types.specs.Equality.{parts_not_absent};

    ghost present = { λ _. parts_not_absent };
}

impl Decode for AnotherName {
    ghost use Rattle.rasn_de.specs.PartTypes.{DecodesSequenceParts};
    ghost use Rattle.rasn_de.specs.ValueErrors.{errors_of};

    ghost errors = { λ tag _. errors_of (DecodesSequenceParts ⟦<Parts as DecodeParts>⟧.parts ⟦<Parts as DecodeParts>⟧.tree ⟦<Parts as DecodeParts>⟧.errors tag) };

    fn decode_with_tag_and_constraints(
        decoder: &mut Decoder<'_>,
        tag: Tag,
        _constraints: &Constraints,
    ) -> Result<AnotherName, DecodeError> {
        let parts = match decoder.read_sequence::<Parts>(tag) {
            Ok(parts) => parts,
            Err(error) => return Err(error),
        };
        let Required(type_id, rest) = parts;
        let Required(value, End) = rest;
        Ok(AnotherName { type_id, value })
    }
}

impl Encode for AnotherName {
    fn encode_with_tag_and_constraints(
        &self,
        encoder: &mut Encoder,
        tag: Tag,
        _constraints: &Constraints,
        _identifier: Identifier,
    ) -> Result<(), EncodeError> {
        let rest = Put(&self.value, End);
        encoder.write_sequence(tag, Put(&self.type_id, rest))
    }

    fn is_present(&self) -> bool {
        true
    }
}
