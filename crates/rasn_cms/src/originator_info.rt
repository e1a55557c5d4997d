// Written by `soqavise generate` from the ASN.1 of CmsMessages, CMS: change that, and write it
// again.
//! `OriginatorInfo ::= SEQUENCE`
use crate::{CertificateChoices, RevocationInfoChoice};
use rasn::prelude::*;

/// `OriginatorInfo ::= SEQUENCE`
#[derive(Debug, PartialEq, Eq, Drop)]
pub struct OriginatorInfo {
    /// `certs [0] IMPLICIT SET OF CertificateChoices OPTIONAL`
    pub certs: Option<Implicit<ContextTag<0>, SetOf<CertificateChoices>>>,
    /// `crls [1] IMPLICIT SET OF RevocationInfoChoice OPTIONAL`
    pub crls: Option<Implicit<ContextTag<1>, SetOf<RevocationInfoChoice>>>,
}

/// The components, as they are read.
type Parts = Optional<Implicit<ContextTag<0>, SetOf<CertificateChoices>>, Parts1>;

type Parts1 = Optional<Implicit<ContextTag<1>, SetOf<RevocationInfoChoice>>, End>;

impl AsnType for OriginatorInfo {
    ghost use Rattle.std.specs.Prelude.{refl};
    ghost use Rattle.rasn_types.specs.Tags.{in_universal};
    ghost use Rattle.rasn_types.specs.Shapes.{seq};
    ghost use Rattle.rasn_types.specs.Trees.{unconstrained};

    ghost TAG = { in_universal 16 };

    const TAG: Tag = Tag::SEQUENCE;

    ghost CONSTRAINTS = { unconstrained };

    const CONSTRAINTS: Constraints = Constraints::NONE;

    ghost shape = { seq (in_universal 16) ⟦<Parts as DecodeParts>⟧.parts };

    ghost tree = { λ a. ⟦<Parts as DecodeParts>⟧.tree (record { 0 = a.certs; 1 = record { 0 = a.crls; 1 = record {} } }) };

    ghost own = { refl };
}

impl LawfulEq for OriginatorInfo {
    ghost use Rattle.rasn_types.specs.Deciding.{deciding};

    ghost decides = { Prim.search deciding depth 64 };
}

impl Present for OriginatorInfo {
    ghost use Rattle.rasn_types.specs.Equality.{parts_not_absent};

    ghost present = { λ _. parts_not_absent };
}

impl Decode for OriginatorInfo {
    ghost use Rattle.rasn_de.specs.PartTypes.{DecodesSequenceParts};
    ghost use Rattle.rasn_de.specs.ValueErrors.{errors_of};

    ghost errors = { λ tag _. errors_of (DecodesSequenceParts ⟦<Parts as DecodeParts>⟧.parts ⟦<Parts as DecodeParts>⟧.tree ⟦<Parts as DecodeParts>⟧.errors tag) };

    fn decode_with_tag_and_constraints(
        decoder: &mut Decoder<'_>,
        tag: Tag,
        _constraints: &Constraints,
    ) -> Result<OriginatorInfo, DecodeError> {
        let parts = match decoder.read_sequence::<Parts>(tag) {
            Ok(parts) => parts,
            Err(error) => return Err(error),
        };
        let Optional(certs, rest) = parts;
        let Optional(crls, End) = rest;
        Ok(OriginatorInfo { certs, crls })
    }
}

impl Encode for OriginatorInfo {
    fn encode_with_tag_and_constraints(
        &self,
        encoder: &mut Encoder,
        tag: Tag,
        _constraints: &Constraints,
        _identifier: Identifier,
    ) -> Result<(), EncodeError> {
        let rest = PutOptional(&self.crls, End);
        encoder.write_sequence(tag, PutOptional(&self.certs, rest))
    }

    fn is_present(&self) -> bool {
        true
    }
}
