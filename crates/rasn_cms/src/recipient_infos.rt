// Written by `soqavise generate` from the ASN.1 of CmsMessages, CMS: change that, and write it
// again.
//! `RecipientInfos ::= SET (SIZE (1..MAX)) OF RecipientInfo`
use crate::RecipientInfo;
use rasn::prelude::*;

/// `RecipientInfos ::= SET (SIZE (1..MAX)) OF RecipientInfo`
#[derive(Debug, PartialEq, Eq, Drop)]
pub struct RecipientInfos {
    /// The value.
    pub value: SetOf<RecipientInfo>,
}

impl AsnType for RecipientInfos {
    ghost use Rattle.std.specs.Prelude.{None, Some, false, refl};
    ghost use Rattle.rasn_types.specs.declared.types.constraints.Bounded.TheVariants.{Range};
    ghost use Rattle.rasn_types.specs.Tags.{in_universal};
    ghost use Rattle.rasn_types.specs.Shapes.{tagged_as};

    ghost TAG = { in_universal 17 };

    const TAG: Tag = Tag::SET;

    ghost CONSTRAINTS = { record { value = None; size = Some (record { constraint = Range (Some 1) None; extensible = false }) } };

    const CONSTRAINTS: Constraints = Constraints {
        value: None,
        size: Some(Bound {
            constraint: Bounded::Range {
                start: Some(1),
                end: None,
            },
            extensible: false,
        }),
    };

    ghost shape = { tagged_as (in_universal 17) (record { value = None; size = Some (record { constraint = Range (Some 1) None; extensible = false }) }) ⟦<SetOf<RecipientInfo> as AsnType>⟧.shape };

    ghost tree = { λ a. ⟦<SetOf<RecipientInfo> as AsnType>⟧.tree a.value };

    ghost own = { refl };
}

impl LawfulEq for RecipientInfos {
    ghost use Rattle.rasn_types.specs.Deciding.{deciding};
    ghost use Rattle.rasn_cms.specs.contracts.recipient_info.RecipientInfoLawfulEq.TheImpl.Laws.{decides-law as recipient_info_law};
    ghost use Rattle.rasn_cms.specs.contracts.recipient_info.RecipientInfoEq.TheImpl.Laws.{laws-law as recipient_info_equiv};

    ghost decides = { Prim.search (recipient_info_law, recipient_info_equiv, deciding) depth 64 };
}

impl Present for RecipientInfos {
    ghost use Rattle.rasn_types.specs.Deciding.{deciding};
    ghost use Rattle.rasn_cms.specs.contracts.recipient_info.RecipientInfoLawfulEq.TheImpl.Laws.{decides-law as recipient_info_law};
    ghost use Rattle.rasn_cms.specs.contracts.recipient_info.RecipientInfoEq.TheImpl.Laws.{laws-law as recipient_info_equiv};

    ghost present = { Prim.search (recipient_info_law, recipient_info_equiv, deciding) depth 64 };
}

impl Decode for RecipientInfos {
    ghost use Rattle.std.specs.Prelude.{IfOk};
    ghost use Rattle.rasn_de.specs.Beyond.{got};

    ghost beyond = { λ tag old result new. IfOk result (λ a. got (⟦<SetOf<RecipientInfo> as Decode>⟧.beyond tag) old a.value new) };

    ghost errors = { ⟦<SetOf<RecipientInfo> as Decode>⟧.errors };

    fn decode_with_tag_and_constraints(
        decoder: &mut Decoder<'_>,
        tag: Tag,
        constraints: &Constraints,
    ) -> Result<RecipientInfos, DecodeError> {
        let value = <SetOf<RecipientInfo> as Decode>::decode_with_tag_and_constraints(
            decoder,
            tag,
            constraints,
        )?;
        Ok(RecipientInfos { value })
    }
}

impl Encode for RecipientInfos {
    fn encode_with_tag_and_constraints(
        &self,
        encoder: &mut Encoder,
        tag: Tag,
        constraints: &Constraints,
        identifier: Identifier,
    ) -> Result<(), EncodeError> {
        self.value
            .encode_with_tag_and_constraints(encoder, tag, constraints, identifier)
    }

    fn is_present(&self) -> bool {
        self.value.is_present()
    }
}
