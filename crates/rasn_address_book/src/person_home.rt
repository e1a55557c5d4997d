// Written by `soqavise generate` from the ASN.1 of AddressBook: change that, and write it again.
//! `Person-home ::= [4] IMPLICIT SEQUENCE`
use rasn::prelude::*;

/// `Person-home ::= [4] IMPLICIT SEQUENCE`
#[derive(Debug, PartialEq, Eq, Drop)]
pub struct PersonHome {
    /// `street UTF8String`
    pub street: Utf8String,
    /// `former NULL OPTIONAL`
    pub former: Option<()>,
}

/// The components, as they are read.
type Parts = Required<Utf8String, Parts1>;

type Parts1 = Optional<(), End>;

impl AsnType for PersonHome {
    ghost use Rattle.std.specs.Prelude.{refl};
    ghost use Rattle.rasn_types.specs.declared.types.tag.Class.TheVariants.{Context};
    ghost use Rattle.rasn_types.specs.Shapes.{seq};
    ghost use Rattle.rasn_types.specs.Trees.{unconstrained};

    ghost TAG = { record { class = Context; value = 4 } };

    const TAG: Tag = Tag {
        class: Class::Context,
        value: 4,
    };

    ghost CONSTRAINTS = { unconstrained };

    const CONSTRAINTS: Constraints = Constraints::NONE;

    ghost shape = { seq (record { class = Context; value = 4 }) ⟦<Parts as DecodeParts>⟧.parts };

    ghost tree = { λ a. ⟦<Parts as DecodeParts>⟧.tree (record { 0 = a.street; 1 = record { 0 = a.former; 1 = record {} } }) };

    ghost own = { refl };
}

impl LawfulEq for PersonHome {
    ghost use Rattle.rasn_types.specs.Deciding.{deciding};

    ghost decides = { Prim.search deciding depth 64 };
}

impl Present for PersonHome {
    ghost use Rattle.rasn_types.specs.Equality.{parts_not_absent};

    ghost present = { λ _. parts_not_absent };
}

impl Decode for PersonHome {
    ghost use Rattle.rasn_de.specs.PartTypes.{DecodesSequenceParts};
    ghost use Rattle.rasn_de.specs.ValueErrors.{errors_of};

    ghost errors = { λ tag _. errors_of (DecodesSequenceParts ⟦<Parts as DecodeParts>⟧.parts ⟦<Parts as DecodeParts>⟧.tree ⟦<Parts as DecodeParts>⟧.errors tag) };

    fn decode_with_tag_and_constraints(
        decoder: &mut Decoder<'_>,
        tag: Tag,
        _constraints: &Constraints,
    ) -> Result<PersonHome, DecodeError> {
        let parts = match decoder.read_sequence::<Parts>(tag) {
            Ok(parts) => parts,
            Err(error) => return Err(error),
        };
        let Required(street, rest) = parts;
        let Optional(former, End) = rest;
        Ok(PersonHome { street, former })
    }
}

impl Encode for PersonHome {
    fn encode_with_tag_and_constraints(
        &self,
        encoder: &mut Encoder,
        tag: Tag,
        _constraints: &Constraints,
        _identifier: Identifier,
    ) -> Result<(), EncodeError> {
        let rest = PutOptional(&self.former, End);
        encoder.write_sequence(tag, Put(&self.street, rest))
    }

    fn is_present(&self) -> bool {
        true
    }
}
