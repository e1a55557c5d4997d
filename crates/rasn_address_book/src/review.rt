// Written by `soqavise generate` from the ASN.1 of AddressBook: change that, and write it again.
//! `Review ::= SET`
use crate::Contact;
use rasn::prelude::*;

/// `Review ::= SET`
#[derive(Debug, PartialEq, Eq, Drop)]
pub struct Review {
    /// `reviewer [0] EXPLICIT Contact`
    pub reviewer: Explicit<ContextTag<0>, Contact>,
    /// `passed BOOLEAN`
    pub passed: bool,
    /// `...`
    pub unknown: Unknown,
}

/// The components, as they are read.
type Parts = Required<Explicit<ContextTag<0>, Contact>, Parts1>;

type Parts1 = Required<bool, Unknown>;

impl AsnType for Review {
    ghost use Rattle.std.specs.Prelude.{refl, true};
    ghost use Rattle.rasn_types.specs.Tags.{in_universal};
    ghost use Rattle.rasn_types.specs.Shapes.{sorted_set};
    ghost use Rattle.rasn_types.specs.Trees.{unconstrained};

    ghost TAG = { in_universal 17 };

    const TAG: Tag = Tag::SET;

    ghost CONSTRAINTS = { unconstrained };

    const CONSTRAINTS: Constraints = Constraints::NONE;

    ghost shape = { sorted_set true (in_universal 17) ⟦<Parts as DecodeSetParts>⟧.parts };

    ghost tree = { λ a. ⟦<Parts as DecodeSetParts>⟧.tree (record { 0 = a.reviewer; 1 = record { 0 = a.passed; 1 = a.unknown } }) };

    ghost own = { refl };
}

impl LawfulEq for Review {
    ghost use Rattle.rasn_types.specs.Deciding.{deciding};
    ghost use Rattle.rasn_address_book.specs.contracts.contact.ContactLawfulEq.TheImpl.Laws.{decides-law as contact_law};

    ghost decides = { Prim.search (contact_law, deciding) depth 64 };
}

impl Present for Review {
    ghost use Rattle.rasn_types.specs.Equality.{parts_not_absent};

    ghost present = { λ _. parts_not_absent };
}

impl Decode for Review {
    ghost use Rattle.std.specs.Prelude.{[], ◌∷◌, codes};
    ghost use Rattle.rasn_de.specs.SetPartTypes.{DecodesNamedParts};
    ghost use Rattle.rasn_de.specs.ValueErrors.{errors_of};

    ghost errors = { λ tag _. errors_of (DecodesNamedParts ⟦<Parts as DecodeSetParts>⟧.extensible ⟦<Parts as DecodeSetParts>⟧.parts ⟦<Parts as DecodeSetParts>⟧.tree (codes "Review") (codes "reviewer" ∷ codes "passed" ∷ []) ⟦<Parts as DecodeSetParts>⟧.errors tag) };

    fn decode_with_tag_and_constraints(
        decoder: &mut Decoder<'_>,
        tag: Tag,
        _constraints: &Constraints,
    ) -> Result<Review, DecodeError> {
        let parts = match decoder.read_set::<Parts>(tag, "Review", &["reviewer", "passed"]) {
            Ok(parts) => parts,
            Err(error) => return Err(error),
        };
        let Required(reviewer, rest) = parts;
        let Required(passed, unknown) = rest;
        Ok(Review {
            reviewer,
            passed,
            unknown,
        })
    }
}

impl Encode for Review {
    fn encode_with_tag_and_constraints(
        &self,
        encoder: &mut Encoder,
        tag: Tag,
        _constraints: &Constraints,
        _identifier: Identifier,
    ) -> Result<(), EncodeError> {
        let rest = Put(&self.passed, &self.unknown);
        encoder.write_sorted_set(tag, Put(&self.reviewer, rest))
    }

    fn is_present(&self) -> bool {
        true
    }
}
