// Written by `soqavise generate` from the ASN.1 of Certificates, Revocation, Requests,
// CertificateExtensions: change that, and write it again.
//! `BasicConstraints-pathLenConstraint ::= INTEGER (0..MAX)`
use rasn::prelude::*;

/// `BasicConstraints-pathLenConstraint ::= INTEGER (0..MAX)`
#[derive(Debug, PartialEq, Eq, Drop)]
pub struct BasicConstraintsPathLenConstraint {
    /// The value.
    pub value: Integer,
}

impl AsnType for BasicConstraintsPathLenConstraint {
    ghost use Rattle.std.specs.Prelude.{None, Some, false, pos, refl};
    ghost use Rattle.rasn_types.specs.declared.types.constraints.Bounded.TheVariants.{Range};
    ghost use Rattle.rasn_types.specs.Tags.{in_universal};
    ghost use Rattle.rasn_types.specs.Shapes.{tagged_as};

    ghost TAG = { in_universal 2 };

    const TAG: Tag = Tag::INTEGER;

    ghost CONSTRAINTS = { record { value = Some (record { constraint = Range (Some (pos 0)) None; extensible = false }); size = None } };

    const CONSTRAINTS: Constraints = Constraints {
        value: Some(Bound {
            constraint: Bounded::Range {
                start: Some(0),
                end: None,
            },
            extensible: false,
        }),
        size: None,
    };

    ghost shape = { tagged_as (in_universal 2) (record { value = Some (record { constraint = Range (Some (pos 0)) None; extensible = false }); size = None }) ⟦<Integer as AsnType>⟧.shape };

    ghost tree = { λ a. ⟦<Integer as AsnType>⟧.tree a.value };

    ghost own = { refl };
}

impl LawfulEq for BasicConstraintsPathLenConstraint {
    ghost use Rattle.rasn_types.specs.Deciding.{deciding};

    ghost decides = { Prim.search deciding depth 64 };
}

impl Present for BasicConstraintsPathLenConstraint {
    ghost use Rattle.rasn_types.specs.Deciding.{deciding};

    ghost present = { Prim.search deciding depth 64 };
}

impl Decode for BasicConstraintsPathLenConstraint {
    ghost errors = { ⟦<Integer as Decode>⟧.errors };

    fn decode_with_tag_and_constraints(
        decoder: &mut Decoder<'_>,
        tag: Tag,
        constraints: &Constraints,
    ) -> Result<BasicConstraintsPathLenConstraint, DecodeError> {
        let value = <Integer as Decode>::decode_with_tag_and_constraints(
            decoder,
            tag,
            constraints,
        )?;
        Ok(BasicConstraintsPathLenConstraint { value })
    }
}

impl Encode for BasicConstraintsPathLenConstraint {
    fn encode_with_tag_and_constraints(
        &self,
        encoder: &mut Encoder,
        tag: Tag,
        constraints: &Constraints,
        identifier: Identifier,
    ) -> Result<(), EncodeError> {
        self.value
            .encode_with_tag_and_constraints(encoder, tag, constraints, identifier)
    }

    fn is_present(&self) -> bool {
        true
    }
}
