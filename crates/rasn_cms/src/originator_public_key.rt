// Written by `soqavise generate` from the ASN.1 of CmsMessages, CMS: change that, and write it
// again.
//! `OriginatorPublicKey ::= SEQUENCE`
use rasn::prelude::*;
use rasn_pkix::AlgorithmIdentifier;

/// `OriginatorPublicKey ::= SEQUENCE`
#[derive(Debug, PartialEq, Eq, Drop)]
pub struct OriginatorPublicKey {
    /// `algorithm AlgorithmIdentifier`
    pub algorithm: AlgorithmIdentifier,
    /// `publicKey BIT STRING`
    pub public_key: BitString,
}

/// The components, as they are read.
type Parts = Required<AlgorithmIdentifier, Parts1>;

type Parts1 = Required<BitString, End>;

impl AsnType for OriginatorPublicKey {
    ghost use Rattle.std.specs.Prelude.{refl};
    ghost use Rattle.rasn_types.specs.Tags.{in_universal};
    ghost use Rattle.rasn_types.specs.Shapes.{seq};
    ghost use Rattle.rasn_types.specs.Trees.{unconstrained};

    ghost TAG = { in_universal 16 };

    const TAG: Tag = Tag::SEQUENCE;

    ghost CONSTRAINTS = { unconstrained };

    const CONSTRAINTS: Constraints = Constraints::NONE;

    ghost shape = { seq (in_universal 16) ⟦<Parts as DecodeParts>⟧.parts };

    ghost tree = { λ a. ⟦<Parts as DecodeParts>⟧.tree (record { 0 = a.algorithm; 1 = record { 0 = a.public_key; 1 = record {} } }) };

    ghost own = { refl };
}

impl LawfulEq for OriginatorPublicKey {
    ghost use Rattle.rasn_types.specs.Deciding.{deciding};
    ghost use Rattle.rasn_pkix.specs.contracts.algorithm_identifier.AlgorithmIdentifierLawfulEq.TheImpl.Laws.{decides-law as algorithm_identifier_law};

    ghost decides = { Prim.search (algorithm_identifier_law, deciding) depth 64 };
}

impl Present for OriginatorPublicKey {
    ghost use Rattle.rasn_types.specs.Equality.{parts_not_absent};

    ghost present = { λ _. parts_not_absent };
}

impl Decode for OriginatorPublicKey {
    ghost use Rattle.rasn_de.specs.PartTypes.{DecodesSequenceParts};
    ghost use Rattle.rasn_de.specs.ValueErrors.{errors_of};

    ghost errors = { λ tag _. errors_of (DecodesSequenceParts ⟦<Parts as DecodeParts>⟧.parts ⟦<Parts as DecodeParts>⟧.tree ⟦<Parts as DecodeParts>⟧.errors tag) };

    fn decode_with_tag_and_constraints(
        decoder: &mut Decoder<'_>,
        tag: Tag,
        _constraints: &Constraints,
    ) -> Result<OriginatorPublicKey, DecodeError> {
        let parts = match decoder.read_sequence::<Parts>(tag) {
            Ok(parts) => parts,
            Err(error) => return Err(error),
        };
        let Required(algorithm, rest) = parts;
        let Required(public_key, End) = rest;
        Ok(OriginatorPublicKey {
            algorithm,
            public_key,
        })
    }
}

impl Encode for OriginatorPublicKey {
    fn encode_with_tag_and_constraints(
        &self,
        encoder: &mut Encoder,
        tag: Tag,
        _constraints: &Constraints,
        _identifier: Identifier,
    ) -> Result<(), EncodeError> {
        let rest = Put(&self.public_key, End);
        encoder.write_sequence(tag, Put(&self.algorithm, rest))
    }

    fn is_present(&self) -> bool {
        true
    }
}
