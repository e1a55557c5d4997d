// Written by `soqavise generate` from the ASN.1 of LDAP: change that, and write it again.
//! `SubstringFilter-substrings ::= SEQUENCE (SIZE (1..MAX)) OF Substring`
use crate::Substring;
use rasn::prelude::*;

/// `SubstringFilter-substrings ::= SEQUENCE (SIZE (1..MAX)) OF Substring`
#[derive(Debug, PartialEq, Eq, Drop)]
pub struct SubstringFilterSubstrings {
    /// The value.
    pub value: Vec<Substring>,
}

impl AsnType for SubstringFilterSubstrings {
    ghost use Rattle.std.specs.Prelude.{None, Some, false, refl};
    ghost use Rattle.rasn_types.specs.declared.types.constraints.Bounded.TheVariants.{Range};
    ghost use Rattle.rasn_types.specs.Tags.{in_universal};
    ghost use Rattle.rasn_types.specs.Shapes.{tagged_as};

    ghost TAG = { in_universal 16 };

    const TAG: Tag = Tag::SEQUENCE;

    ghost CONSTRAINTS = { record { value = None; size = Some (record { constraint = Range (Some 1) None; extensible = false }) } };

    const CONSTRAINTS: Constraints = Constraints {
        value: None,
        size: Some(Bound {
            constraint: Bounded::Range {
                start: Some(1),
                end: None,
            },
            extensible: false,
        }),
    };

    ghost shape = { tagged_as (in_universal 16) (record { value = None; size = Some (record { constraint = Range (Some 1) None; extensible = false }) }) ⟦<Vec<Substring> as AsnType>⟧.shape };

    ghost tree = { λ a. ⟦<Vec<Substring> as AsnType>⟧.tree a.value };

    ghost own = { refl };
}

impl LawfulEq for SubstringFilterSubstrings {
    ghost use Rattle.rasn_types.specs.Deciding.{deciding};
    ghost use Rattle.rasn_ldap.specs.contracts.substring.SubstringLawfulEq.TheImpl.Laws.{decides-law as substring_law};

    ghost decides = { Prim.search (substring_law, deciding) depth 64 };
}

impl Present for SubstringFilterSubstrings {
    ghost use Rattle.rasn_types.specs.Deciding.{deciding};
    ghost use Rattle.rasn_ldap.specs.contracts.substring.SubstringLawfulEq.TheImpl.Laws.{decides-law as substring_law};

    ghost present = { Prim.search (substring_law, deciding) depth 64 };
}

impl Decode for SubstringFilterSubstrings {
    ghost errors = { ⟦<Vec<Substring> as Decode>⟧.errors };

    fn decode_with_tag_and_constraints(
        decoder: &mut Decoder<'_>,
        tag: Tag,
        constraints: &Constraints,
    ) -> Result<SubstringFilterSubstrings, DecodeError> {
        let value = <Vec<Substring> as Decode>::decode_with_tag_and_constraints(
            decoder,
            tag,
            constraints,
        )?;
        Ok(SubstringFilterSubstrings { value })
    }
}

impl Encode for SubstringFilterSubstrings {
    fn encode_with_tag_and_constraints(
        &self,
        encoder: &mut Encoder,
        tag: Tag,
        constraints: &Constraints,
        identifier: Identifier,
    ) -> Result<(), EncodeError> {
        self.value
            .encode_with_tag_and_constraints(encoder, tag, constraints, identifier)
    }

    fn is_present(&self) -> bool {
        self.value.is_present()
    }
}
