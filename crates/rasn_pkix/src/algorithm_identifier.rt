// Written by `soqavise generate` from the ASN.1 of Certificates, Revocation, Requests,
// CertificateExtensions: change that, and write it again.
//! `AlgorithmIdentifier ::= SEQUENCE`
use rasn::prelude::*;

/// `AlgorithmIdentifier ::= SEQUENCE`
#[derive(Debug, PartialEq, Eq, Drop)]
pub struct AlgorithmIdentifier {
    /// `algorithm OBJECT IDENTIFIER`
    pub algorithm: ObjectIdentifier,
    /// `parameters ANY OPTIONAL`
    pub parameters: Option<Any>,
}

/// The components, as they are read.
type Parts = Required<ObjectIdentifier, Parts1>;

type Parts1 = Optional<Any, End>;

impl AsnType for AlgorithmIdentifier {
    ghost use Rattle.std.specs.Prelude.{refl};
    ghost use Rattle.rasn_types.specs.Tags.{in_universal};
    ghost use Rattle.rasn_types.specs.Shapes.{seq};
    ghost use Rattle.rasn_types.specs.Trees.{unconstrained};

    ghost TAG = { in_universal 16 };

    const TAG: Tag = Tag::SEQUENCE;

    ghost CONSTRAINTS = { unconstrained };

    const CONSTRAINTS: Constraints = Constraints::NONE;

    ghost shape = { seq (in_universal 16) ⟦<Parts as DecodeParts>⟧.parts };

    ghost tree = { λ a. ⟦<Parts as DecodeParts>⟧.tree (record { 0 = a.algorithm; 1 = record { 0 = a.parameters; 1 = record {} } }) };

    ghost own = { refl };
}

impl LawfulEq for AlgorithmIdentifier {
    ghost use Rattle.rasn_types.specs.Deciding.{deciding};

    ghost decides = { Prim.search deciding depth 64 };
}

impl Present for AlgorithmIdentifier {
    ghost use Rattle.rasn_types.specs.Equality.{parts_not_absent};

    ghost present = { λ _. parts_not_absent };
}

impl Decode for AlgorithmIdentifier {
    ghost use Rattle.rasn_de.specs.PartTypes.{DecodesSequenceParts};
    ghost use Rattle.rasn_de.specs.ValueErrors.{errors_of};

    ghost errors = { λ tag _. errors_of (DecodesSequenceParts ⟦<Parts as DecodeParts>⟧.parts ⟦<Parts as DecodeParts>⟧.tree ⟦<Parts as DecodeParts>⟧.errors tag) };

    fn decode_with_tag_and_constraints(
        decoder: &mut Decoder<'_>,
        tag: Tag,
        _constraints: &Constraints,
    ) -> Result<AlgorithmIdentifier, DecodeError> {
        let parts = match decoder.read_sequence::<Parts>(tag) {
            Ok(parts) => parts,
            Err(error) => return Err(error),
        };
        let Required(algorithm, rest) = parts;
        let Optional(parameters, End) = rest;
        Ok(AlgorithmIdentifier {
            algorithm,
            parameters,
        })
    }
}

impl Encode for AlgorithmIdentifier {
    fn encode_with_tag_and_constraints(
        &self,
        encoder: &mut Encoder,
        tag: Tag,
        _constraints: &Constraints,
        _identifier: Identifier,
    ) -> Result<(), EncodeError> {
        let rest = PutOptional(&self.parameters, End);
        encoder.write_sequence(tag, Put(&self.algorithm, rest))
    }

    fn is_present(&self) -> bool {
        true
    }
}
