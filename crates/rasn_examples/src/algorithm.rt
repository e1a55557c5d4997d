//! `AlgorithmIdentifier ::= SEQUENCE { algorithm OBJECT IDENTIFIER,
//! parameters ANY DEFINED BY algorithm OPTIONAL }` (RFC 5280, 4.1.1.2).
use rasn::error::{DecodeError, EncodeError};
use rasn::parts::{DecodeParts, End, Optional, Put, PutOptional, Required};
use rasn::types::{
    Any, AsnType, Constraints, Identifier, LawfulEq, ObjectIdentifier, Present, Tag,
};
use rasn::{Decode, Decoder, Encode, Encoder};

/// SEQUENCE { algorithm OBJECT IDENTIFIER, parameters ANY OPTIONAL }. The parameters are the single
/// value that remains after the algorithm, of any type.
#[derive(Debug, PartialEq, Eq, Drop)]
pub struct AlgorithmIdentifier {
    /// The algorithm.
    pub algorithm: ObjectIdentifier,
    /// The parameters of the algorithm, as an open type.
    pub parameters: Option<Any>,
}

impl AsnType for AlgorithmIdentifier {
    ghost use Rattle.std.specs.Prelude.{refl};
    ghost use Rattle.rasn_types.specs.Tags.{in_universal};
    ghost use Rattle.rasn_types.specs.Trees.{unconstrained};
    ghost use Rattle.rasn_examples.specs.Algorithm.{algorithm_shape, algorithm_tree};

    ghost TAG = { in_universal 16 };

    const TAG: Tag = Tag::SEQUENCE;

    ghost CONSTRAINTS = { unconstrained };

    const CONSTRAINTS: Constraints = Constraints::NONE;

    ghost shape = { algorithm_shape };

    ghost tree = { algorithm_tree };

    ghost own = { refl };
}

impl LawfulEq for AlgorithmIdentifier {
    ghost use Rattle.rasn_types.specs.Deciding.{deciding};

    ghost decides = { Prim.search deciding depth 64 };
}

impl Present for AlgorithmIdentifier {
    ghost use Rattle.rasn_types.specs.Equality.{parts_not_absent};

    ghost present = { λ _. parts_not_absent };
}

/// The components, as they are read.
type Parts = Required<ObjectIdentifier, Optional<Any, End>>;

impl Decode for AlgorithmIdentifier {
    ghost use Rattle.rasn_de.specs.PartTypes.{DecodesSequenceParts};
    ghost use Rattle.rasn_de.specs.ValueErrors.{errors_of};

    ghost errors = { λ tag _. errors_of (DecodesSequenceParts ⟦<Parts as DecodeParts>⟧.parts ⟦<Parts as DecodeParts>⟧.tree ⟦<Parts as DecodeParts>⟧.errors tag) };

    fn decode_with_tag_and_constraints(
        decoder: &mut Decoder<'_>,
        tag: Tag,
        _constraints: &Constraints,
    ) -> Result<AlgorithmIdentifier, DecodeError> {
        let parts = match decoder.read_sequence::<Parts>(tag) {
            Ok(parts) => parts,
            Err(error) => return Err(error),
        };
        let Required(algorithm, Optional(parameters, End)) = parts;
        Ok(AlgorithmIdentifier {
            algorithm,
            parameters,
        })
    }
}

impl Encode for AlgorithmIdentifier {
    fn encode_with_tag_and_constraints(
        &self,
        encoder: &mut Encoder,
        tag: Tag,
        _constraints: &Constraints,
        _identifier: Identifier,
    ) -> Result<(), EncodeError> {
        encoder.write_sequence(
            tag,
            Put(&self.algorithm, PutOptional(&self.parameters, End)),
        )
    }

    fn is_present(&self) -> bool {
        true
    }
}
