//! A SEQUENCE of eight components, with every presence (X.680 25), for tests.

use rasn::error::{DecodeError, EncodeError};
use rasn::parts::{DefaultValue, Defaulted, End, Optional, Put, PutDefault, PutOptional, Required};
use rasn::types::{
    Any, AsnType, Constraints, ContextTag, Explicit, Identifier, Implicit, ObjectIdentifier,
    OctetString, Tag,
};
use rasn::{Decode, Decoder, Encode, Encoder};
use rasn_bench::{AlgorithmIdentifier, Seven};
use std::alloc::{AllocError, Global};

/// SEQUENCE { version [0] EXPLICIT INTEGER (0..255) DEFAULT 0, serial OCTET STRING, algorithm
/// AlgorithmIdentifier, truth BOOLEAN, name OBJECT IDENTIFIER OPTIONAL, mark [0] IMPLICIT INTEGER
/// (0..255) OPTIONAL, level INTEGER (0..255) DEFAULT 7, more ANY OPTIONAL }
#[derive(Debug, Drop)]
pub struct Eight {
    pub version: Explicit<ContextTag<0>, u8>,
    pub serial: OctetString,
    pub algorithm: AlgorithmIdentifier,
    pub truth: bool,
    pub name: Option<ObjectIdentifier>,
    pub mark: Option<Implicit<ContextTag<0>, u8>>,
    pub level: u8,
    pub more: Option<Any>,
}

impl AsnType for Eight {
    ghost use Rattle.std.specs.Prelude.{refl, ◌∷◌, [], pos, None};
    ghost use Rattle.rasn_types.specs.declared.types.tag.Class.TheVariants.{Context};
    ghost use Rattle.rasn_types.specs.Shapes.{seq, part, required, optional, default, leaf, any, prefix, boolean, integer, octet_string, object_identifier, number, numbers, items};
    ghost use Rattle.rasn_types.specs.Shapes.Parts.{none};
    ghost use Rattle.rasn_types.specs.Tags.{in_universal};
    ghost use Rattle.rasn_types.specs.Trees.{unconstrained, unsigned_range, option_tree, bool_tree};
    ghost use Rattle.rasn_examples.specs.Algorithm.{algorithm_shape, algorithm_tree};

    ghost TAG = { in_universal 16 };

    const TAG: Tag = Tag::SEQUENCE;

    ghost CONSTRAINTS = { unconstrained };

    const CONSTRAINTS: Constraints = Constraints::NONE;

    ghost shape = { seq (in_universal 16)
        (part (default (number (pos 0))) (prefix (record { class = Context; value = 0 }) (leaf (integer (unsigned_range 8)) (in_universal 2) unconstrained))
        (part required (leaf octet_string (in_universal 4) unconstrained)
        (part required algorithm_shape
        (part required (leaf boolean (in_universal 1) unconstrained)
        (part optional (leaf object_identifier (in_universal 6) unconstrained)
        (part optional (leaf (integer (unsigned_range 8)) (record { class = Context; value = 0 }) unconstrained)
        (part (default (number (pos 7))) (leaf (integer (unsigned_range 8)) (in_universal 2) unconstrained)
        (part optional (any None) none)))))))) };

    ghost tree = { λ e. items (number (pos e.version) ∷ numbers e.serial ∷ algorithm_tree e.algorithm ∷ bool_tree e.truth ∷ option_tree numbers e.name
        ∷ option_tree (λ m. number (pos m)) e.mark ∷ number (pos e.level) ∷ option_tree numbers e.more ∷ []) };

    ghost own = { refl };
}

/// The default version.
#[derive(Drop)]
pub struct FirstVersion;

impl DefaultValue for FirstVersion {
    ghost use Rattle.std.specs.Prelude.{pos};
    ghost use Rattle.rasn_types.specs.Shapes.{number};

    type Value = Explicit<ContextTag<0>, u8>;

    ghost default_tree = { number (pos 0) };

    fn default_value(_alloc: Global) -> Result<Explicit<ContextTag<0>, u8>, AllocError> {
        Ok(Explicit::new(0))
    }
}

impl Decode for Eight {
    fn decode_with_tag_and_constraints(
        decoder: &mut Decoder<'_>,
        tag: Tag,
        _constraints: &Constraints,
    ) -> Result<Eight, DecodeError> {
        let Defaulted::<FirstVersion, _>(version, Required(serial, Required(algorithm, rest))) =
            decoder.read_sequence(tag)?;
        let Required(truth, Optional(name, Optional(mark, rest))) = rest;
        let Defaulted::<Seven, _>(level, Optional(more, End)) = rest;
        Ok(Eight {
            version,
            serial,
            algorithm,
            truth,
            name,
            mark,
            level,
            more,
        })
    }
}

impl Encode for Eight {
    fn encode_with_tag_and_constraints(
        &self,
        encoder: &mut Encoder,
        tag: Tag,
        _constraints: &Constraints,
        _identifier: Identifier,
    ) -> Result<(), EncodeError> {
        let level = PutDefault::<Seven, _>(&self.level, PutOptional(&self.more, End));
        let name = PutOptional(&self.name, PutOptional(&self.mark, level));
        let algorithm = Put(&self.algorithm, Put(&self.truth, name));
        encoder.write_sequence(
            tag,
            PutDefault::<FirstVersion, _>(&self.version, Put(&self.serial, algorithm)),
        )
    }

    fn is_present(&self) -> bool {
        true
    }
}
