// Written by `soqavise generate` from the ASN.1 of AddressBook: change that, and write it again.
//! `Department ::= SEQUENCE`
use crate::{Contact, OpenSequence};
use rasn::prelude::*;

/// `Department ::= SEQUENCE`
#[derive(Debug, PartialEq, Eq, Drop)]
pub struct Department {
    /// `budget INTEGER`
    pub budget: Integer,
    /// `parent [0] IMPLICIT Department OPTIONAL`
    /// leads back to this type, which is an open type here.
    pub parent: Option<Implicit<ContextTag<0>, Any>>,
    /// `parts SEQUENCE OF Department`
    /// leads back to this type, which is an open type here.
    pub parts: Vec<OpenSequence>,
    /// `contact Contact OPTIONAL`
    pub contact: Option<Contact>,
    /// `closed [2] EXPLICIT BOOLEAN OPTIONAL`
    pub closed: Option<Explicit<ContextTag<2>, bool>>,
}

/// The components, as they are read.
type Parts = Required<Integer, Parts1>;

type Parts1 = Optional<Implicit<ContextTag<0>, Any>, Parts2>;

type Parts2 = Required<Vec<OpenSequence>, Parts3>;

type Parts3 = OptionalChoice<Contact, Parts4>;

type Parts4 = Optional<Explicit<ContextTag<2>, bool>, End>;

impl AsnType for Department {
    ghost use Rattle.std.specs.Prelude.{refl};
    ghost use Rattle.rasn_types.specs.Tags.{in_universal};
    ghost use Rattle.rasn_types.specs.Shapes.{seq};
    ghost use Rattle.rasn_types.specs.Trees.{unconstrained};

    ghost TAG = { in_universal 16 };

    const TAG: Tag = Tag::SEQUENCE;

    ghost CONSTRAINTS = { unconstrained };

    const CONSTRAINTS: Constraints = Constraints::NONE;

    ghost shape = { seq (in_universal 16) ⟦<Parts as DecodeParts>⟧.parts };

    ghost tree = { λ a. ⟦<Parts as DecodeParts>⟧.tree (record { 0 = a.budget; 1 = record { 0 = a.parent; 1 = record { 0 = a.parts; 1 = record { 0 = a.contact; 1 = record { 0 = a.closed; 1 = record {} } } } } }) };

    ghost own = { refl };
}

impl LawfulEq for Department {
    ghost use Rattle.rasn_types.specs.Deciding.{deciding};
    ghost use Rattle.rasn_address_book.specs.contracts.contact.ContactLawfulEq.TheImpl.Laws.{decides-law as contact_law};
    ghost use Rattle.rasn_address_book.specs.contracts.contact.ContactPresent.TheImpl.Laws.{present-law as contact_present};
    ghost use Rattle.rasn_address_book.specs.contracts.open_sequence.OpenSequenceLawfulEq.TheImpl.Laws.{decides-law as open_sequence_law};
    ghost use Rattle.rasn_address_book.specs.contracts.open_sequence.OpenSequencePresent.TheImpl.Laws.{present-law as open_sequence_present};

    ghost decides = { Prim.search (contact_law, contact_present, open_sequence_law, open_sequence_present, deciding) depth 64 };
}

impl Present for Department {
    ghost use Rattle.rasn_types.specs.Equality.{parts_not_absent};

    ghost present = { λ _. parts_not_absent };
}

impl Decode for Department {
    ghost use Rattle.rasn_de.specs.PartTypes.{DecodesSequenceParts};
    ghost use Rattle.rasn_de.specs.ValueErrors.{errors_of};

    ghost errors = { λ tag _. errors_of (DecodesSequenceParts ⟦<Parts as DecodeParts>⟧.parts ⟦<Parts as DecodeParts>⟧.tree ⟦<Parts as DecodeParts>⟧.errors tag) };

    fn decode_with_tag_and_constraints(
        decoder: &mut Decoder<'_>,
        tag: Tag,
        _constraints: &Constraints,
    ) -> Result<Department, DecodeError> {
        let parts = match decoder.read_sequence::<Parts>(tag) {
            Ok(parts) => parts,
            Err(error) => return Err(error),
        };
        let Required(budget, rest) = parts;
        let Optional(parent, rest) = rest;
        let Required(parts, rest) = rest;
        let OptionalChoice(contact, rest) = rest;
        let Optional(closed, End) = rest;
        Ok(Department {
            budget,
            parent,
            parts,
            contact,
            closed,
        })
    }
}

impl Encode for Department {
    fn encode_with_tag_and_constraints(
        &self,
        encoder: &mut Encoder,
        tag: Tag,
        _constraints: &Constraints,
        _identifier: Identifier,
    ) -> Result<(), EncodeError> {
        let rest = PutOptional(&self.closed, End);
        let rest = PutOptionalChoice(&self.contact, rest);
        let rest = Put(&self.parts, rest);
        let rest = PutOptional(&self.parent, rest);
        encoder.write_sequence(tag, Put(&self.budget, rest))
    }

    fn is_present(&self) -> bool {
        true
    }
}
