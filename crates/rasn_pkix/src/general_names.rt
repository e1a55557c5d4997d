// Written by `soqavise generate` from the ASN.1 of Certificates, Revocation, Requests,
// CertificateExtensions: change that, and write it again.
//! `GeneralNames ::= SEQUENCE (SIZE (1..MAX)) OF GeneralName`
use crate::GeneralName;
use rasn::prelude::*;

/// `GeneralNames ::= SEQUENCE (SIZE (1..MAX)) OF GeneralName`
#[derive(Debug, PartialEq, Eq, Drop)]
pub struct GeneralNames {
    /// The value.
    pub value: Vec<GeneralName>,
}

impl AsnType for GeneralNames {
    ghost use Rattle.std.specs.Prelude.{None, Some, false, refl};
    ghost use Rattle.rasn_types.specs.declared.types.constraints.Bounded.TheVariants.{Range};
    ghost use Rattle.rasn_types.specs.Tags.{in_universal};
    ghost use Rattle.rasn_types.specs.Shapes.{tagged_as};

    ghost TAG = { in_universal 16 };

    const TAG: Tag = Tag::SEQUENCE;

    ghost CONSTRAINTS = { record { value = None; size = Some (record { constraint = Range (Some 1) None; extensible = false }) } };

    const CONSTRAINTS: Constraints = Constraints {
        value: None,
        size: Some(Bound {
            constraint: Bounded::Range {
                start: Some(1),
                end: None,
            },
            extensible: false,
        }),
    };

    ghost shape = { tagged_as (in_universal 16) (record { value = None; size = Some (record { constraint = Range (Some 1) None; extensible = false }) }) ⟦<Vec<GeneralName> as AsnType>⟧.shape };

    ghost tree = { λ a. ⟦<Vec<GeneralName> as AsnType>⟧.tree a.value };

    ghost own = { refl };
}

impl LawfulEq for GeneralNames {
    ghost use Rattle.rasn_types.specs.Deciding.{deciding};
    ghost use Rattle.rasn_pkix.specs.contracts.general_name.GeneralNameLawfulEq.TheImpl.Laws.{decides-law as general_name_law};

    ghost decides = { Prim.search (general_name_law, deciding) depth 64 };
}

impl Present for GeneralNames {
    ghost use Rattle.rasn_types.specs.Deciding.{deciding};
    ghost use Rattle.rasn_pkix.specs.contracts.general_name.GeneralNameLawfulEq.TheImpl.Laws.{decides-law as general_name_law};

    ghost present = { Prim.search (general_name_law, deciding) depth 64 };
}

impl Decode for GeneralNames {
    ghost errors = { ⟦<Vec<GeneralName> as Decode>⟧.errors };

    fn decode_with_tag_and_constraints(
        decoder: &mut Decoder<'_>,
        tag: Tag,
        constraints: &Constraints,
    ) -> Result<GeneralNames, DecodeError> {
        let value = <Vec<GeneralName> as Decode>::decode_with_tag_and_constraints(
            decoder,
            tag,
            constraints,
        )?;
        Ok(GeneralNames { value })
    }
}

impl Encode for GeneralNames {
    fn encode_with_tag_and_constraints(
        &self,
        encoder: &mut Encoder,
        tag: Tag,
        constraints: &Constraints,
        identifier: Identifier,
    ) -> Result<(), EncodeError> {
        self.value
            .encode_with_tag_and_constraints(encoder, tag, constraints, identifier)
    }

    fn is_present(&self) -> bool {
        self.value.is_present()
    }
}

impl WholeMessage for GeneralNames {
    ghost use Rattle.std.specs.Prelude.{refl};
    ghost use Rattle.rasn_types.specs.declared.types.codec.Codec.TheVariants.{Der};

    ghost RULES = { Der };

    const RULES: Codec = Codec::Der;

    ghost whole = { refl };
}
