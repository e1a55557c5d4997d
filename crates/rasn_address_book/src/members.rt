// Written by `soqavise generate` from the ASN.1 of AddressBook: change that, and write it again.
//! `Members ::= SET (SIZE (1..MAX)) OF Contact`
use crate::Contact;
use rasn::prelude::*;

/// `Members ::= SET (SIZE (1..MAX)) OF Contact`
#[derive(Debug, PartialEq, Eq, Drop)]
pub struct Members {
    /// The value.
    pub value: SetOf<Contact>,
}

impl AsnType for Members {
    ghost use Rattle.std.specs.Prelude.{None, Some, false, refl};
    ghost use Rattle.rasn_types.specs.declared.types.constraints.Bounded.TheVariants.{Range};
    ghost use Rattle.rasn_types.specs.Tags.{in_universal};
    ghost use Rattle.rasn_types.specs.Shapes.{tagged_as};

    ghost TAG = { in_universal 17 };

    const TAG: Tag = Tag::SET;

    ghost CONSTRAINTS = { record { value = None; size = Some (record { constraint = Range (Some 1) None; extensible = false }) } };

    const CONSTRAINTS: Constraints = Constraints {
        value: None,
        size: Some(Bound {
            constraint: Bounded::Range {
                start: Some(1),
                end: None,
            },
            extensible: false,
        }),
    };

    ghost shape = { tagged_as (in_universal 17) (record { value = None; size = Some (record { constraint = Range (Some 1) None; extensible = false }) }) ⟦<SetOf<Contact> as AsnType>⟧.shape };

    ghost tree = { λ a. ⟦<SetOf<Contact> as AsnType>⟧.tree a.value };

    ghost own = { refl };
}

impl LawfulEq for Members {
    ghost use Rattle.rasn_types.specs.Deciding.{deciding};
    ghost use Rattle.rasn_address_book.specs.contracts.contact.ContactLawfulEq.TheImpl.Laws.{decides-law as contact_law};
    ghost use Rattle.rasn_address_book.specs.contracts.contact.ContactEq.TheImpl.Laws.{laws-law as contact_equiv};

    ghost decides = { Prim.search (contact_law, contact_equiv, deciding) depth 64 };
}

impl Present for Members {
    ghost use Rattle.rasn_types.specs.Deciding.{deciding};
    ghost use Rattle.rasn_address_book.specs.contracts.contact.ContactLawfulEq.TheImpl.Laws.{decides-law as contact_law};
    ghost use Rattle.rasn_address_book.specs.contracts.contact.ContactEq.TheImpl.Laws.{laws-law as contact_equiv};

    ghost present = { Prim.search (contact_law, contact_equiv, deciding) depth 64 };
}

impl Decode for Members {
    ghost errors = { ⟦<SetOf<Contact> as Decode>⟧.errors };

    fn decode_with_tag_and_constraints(
        decoder: &mut Decoder<'_>,
        tag: Tag,
        constraints: &Constraints,
    ) -> Result<Members, DecodeError> {
        let value = <SetOf<Contact> as Decode>::decode_with_tag_and_constraints(
            decoder,
            tag,
            constraints,
        )?;
        Ok(Members { value })
    }
}

impl Encode for Members {
    fn encode_with_tag_and_constraints(
        &self,
        encoder: &mut Encoder,
        tag: Tag,
        constraints: &Constraints,
        identifier: Identifier,
    ) -> Result<(), EncodeError> {
        self.value
            .encode_with_tag_and_constraints(encoder, tag, constraints, identifier)
    }

    fn is_present(&self) -> bool {
        self.value.is_present()
    }
}
