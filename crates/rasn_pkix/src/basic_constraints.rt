// Written by `soqavise generate` from the ASN.1 of Certificates, Revocation, Requests,
// CertificateExtensions: change that, and write it again.
//! `BasicConstraints ::= SEQUENCE`
use crate::BasicConstraintsPathLenConstraint;
use rasn::prelude::*;
use std::alloc::{AllocError, Global};

/// `BasicConstraints ::= SEQUENCE`
#[derive(Debug, PartialEq, Eq, Drop)]
pub struct BasicConstraints {
    /// `cA BOOLEAN DEFAULT FALSE`
    pub ca: bool,
    /// `pathLenConstraint BasicConstraints-pathLenConstraint OPTIONAL`
    pub path_len_constraint: Option<BasicConstraintsPathLenConstraint>,
}

/// The components, as they are read.
type Parts = Defaulted<CaDefault, Parts1>;

type Parts1 = Optional<BasicConstraintsPathLenConstraint, End>;

impl AsnType for BasicConstraints {
    ghost use Rattle.std.specs.Prelude.{refl};
    ghost use Rattle.rasn_types.specs.Tags.{in_universal};
    ghost use Rattle.rasn_types.specs.Shapes.{seq};
    ghost use Rattle.rasn_types.specs.Trees.{unconstrained};

    ghost TAG = { in_universal 16 };

    const TAG: Tag = Tag::SEQUENCE;

    ghost CONSTRAINTS = { unconstrained };

    const CONSTRAINTS: Constraints = Constraints::NONE;

    ghost shape = { seq (in_universal 16) ⟦<Parts as DecodeParts>⟧.parts };

    ghost tree = { λ a. ⟦<Parts as DecodeParts>⟧.tree (record { 0 = a.ca; 1 = record { 0 = a.path_len_constraint; 1 = record {} } }) };

    ghost own = { refl };
}

impl LawfulEq for BasicConstraints {
    ghost use Rattle.rasn_types.specs.Deciding.{deciding};
    ghost use Rattle.rasn_pkix.specs.contracts.basic_constraints_path_len_constraint.BasicConstraintsPathLenConstraintLawfulEq.TheImpl.Laws.{decides-law as basic_constraints_path_len_constraint_law};
    ghost use Rattle.rasn_pkix.specs.contracts.basic_constraints_path_len_constraint.BasicConstraintsPathLenConstraintPresent.TheImpl.Laws.{present-law as basic_constraints_path_len_constraint_present};

    ghost decides = { Prim.search (basic_constraints_path_len_constraint_law, basic_constraints_path_len_constraint_present, deciding) depth 64 };
}

impl Present for BasicConstraints {
    ghost use Rattle.rasn_types.specs.Equality.{parts_not_absent};

    ghost present = { λ _. parts_not_absent };
}

impl Decode for BasicConstraints {
    ghost use Rattle.rasn_de.specs.PartTypes.{DecodesSequenceParts};
    ghost use Rattle.rasn_de.specs.ValueErrors.{errors_of};

    ghost errors = { λ tag _. errors_of (DecodesSequenceParts ⟦<Parts as DecodeParts>⟧.parts ⟦<Parts as DecodeParts>⟧.tree ⟦<Parts as DecodeParts>⟧.errors tag) };

    fn decode_with_tag_and_constraints(
        decoder: &mut Decoder<'_>,
        tag: Tag,
        _constraints: &Constraints,
    ) -> Result<BasicConstraints, DecodeError> {
        let parts = match decoder.read_sequence::<Parts>(tag) {
            Ok(parts) => parts,
            Err(error) => return Err(error),
        };
        let Defaulted(ca, rest) = parts;
        let Optional(path_len_constraint, End) = rest;
        Ok(BasicConstraints {
            ca,
            path_len_constraint,
        })
    }
}

impl Encode for BasicConstraints {
    fn encode_with_tag_and_constraints(
        &self,
        encoder: &mut Encoder,
        tag: Tag,
        _constraints: &Constraints,
        _identifier: Identifier,
    ) -> Result<(), EncodeError> {
        let rest = PutOptional(&self.path_len_constraint, End);
        encoder.write_sequence(tag, PutDefault::<CaDefault, _>(&self.ca, rest))
    }

    fn is_present(&self) -> bool {
        true
    }
}

/// The default of `cA`.
#[derive(Drop)]
pub struct CaDefault;

impl DefaultValue for CaDefault {
    ghost use Rattle.std.specs.Prelude.{pos};
    ghost use Rattle.rasn_types.specs.Shapes.{number};

    type Value = bool;

    ghost default_tree = { number (pos 0) };

    fn default_value(_alloc: Global) -> Result<bool, AllocError> {
        Ok(false)
    }
}

impl WholeMessage for BasicConstraints {
    ghost use Rattle.std.specs.Prelude.{refl};
    ghost use Rattle.rasn_types.specs.declared.types.codec.Codec.TheVariants.{Der};

    ghost RULES = { Der };

    const RULES: Codec = Codec::Der;

    ghost whole = { refl };
}
