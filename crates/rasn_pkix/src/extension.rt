// Written by `soqavise generate` from the ASN.1 of Certificates, Revocation, Requests,
// CertificateExtensions: change that, and write it again.
//! `Extension ::= SEQUENCE`
use rasn::prelude::*;
use std::alloc::{AllocError, Global};

/// `Extension ::= SEQUENCE`
#[derive(Debug, PartialEq, Eq, Drop)]
pub struct Extension {
    /// `extnID OBJECT IDENTIFIER`
    pub extn_id: ObjectIdentifier,
    /// `critical BOOLEAN DEFAULT FALSE`
    pub critical: bool,
    /// `extnValue OCTET STRING`
    pub extn_value: OctetString,
}

/// The components, as they are read.
type Parts = Required<ObjectIdentifier, Parts1>;

type Parts1 = Defaulted<CriticalDefault, Parts2>;

type Parts2 = Required<OctetString, End>;

impl AsnType for Extension {
    ghost use Rattle.std.specs.Prelude.{refl};
    ghost use Rattle.rasn_types.specs.Tags.{in_universal};
    ghost use Rattle.rasn_types.specs.Shapes.{seq};
    ghost use Rattle.rasn_types.specs.Trees.{unconstrained};

    ghost TAG = { in_universal 16 };

    const TAG: Tag = Tag::SEQUENCE;

    ghost CONSTRAINTS = { unconstrained };

    const CONSTRAINTS: Constraints = Constraints::NONE;

    ghost shape = { seq (in_universal 16) ⟦<Parts as DecodeParts>⟧.parts };

    ghost tree = { λ a. ⟦<Parts as DecodeParts>⟧.tree (record { 0 = a.extn_id; 1 = record { 0 = a.critical; 1 = record { 0 = a.extn_value; 1 = record {} } } }) };

    ghost own = { refl };
}

impl LawfulEq for Extension {
    ghost use Rattle.rasn_types.specs.Deciding.{deciding};

    ghost decides = { Prim.search deciding depth 64 };
}

impl Present for Extension {
    ghost use Rattle.rasn_types.specs.Equality.{parts_not_absent};

    ghost present = { λ _. parts_not_absent };
}

impl Decode for Extension {
    ghost use Rattle.rasn_de.specs.PartTypes.{DecodesSequenceParts};
    ghost use Rattle.rasn_de.specs.ValueErrors.{errors_of};

    ghost errors = { λ tag _. errors_of (DecodesSequenceParts ⟦<Parts as DecodeParts>⟧.parts ⟦<Parts as DecodeParts>⟧.tree ⟦<Parts as DecodeParts>⟧.errors tag) };

    fn decode_with_tag_and_constraints(
        decoder: &mut Decoder<'_>,
        tag: Tag,
        _constraints: &Constraints,
    ) -> Result<Extension, DecodeError> {
        let parts = match decoder.read_sequence::<Parts>(tag) {
            Ok(parts) => parts,
            Err(error) => return Err(error),
        };
        let Required(extn_id, rest) = parts;
        let Defaulted(critical, rest) = rest;
        let Required(extn_value, End) = rest;
        Ok(Extension {
            extn_id,
            critical,
            extn_value,
        })
    }
}

impl Encode for Extension {
    fn encode_with_tag_and_constraints(
        &self,
        encoder: &mut Encoder,
        tag: Tag,
        _constraints: &Constraints,
        _identifier: Identifier,
    ) -> Result<(), EncodeError> {
        let rest = Put(&self.extn_value, End);
        let rest = PutDefault::<CriticalDefault, _>(&self.critical, rest);
        encoder.write_sequence(tag, Put(&self.extn_id, rest))
    }

    fn is_present(&self) -> bool {
        true
    }
}

/// The default of `critical`.
#[derive(Drop)]
pub struct CriticalDefault;

impl DefaultValue for CriticalDefault {
    ghost use Rattle.std.specs.Prelude.{pos};
    ghost use Rattle.rasn_types.specs.Shapes.{number};

    type Value = bool;

    ghost default_tree = { number (pos 0) };

    fn default_value(_alloc: Global) -> Result<bool, AllocError> {
        Ok(false)
    }
}
