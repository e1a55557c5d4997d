//! How to reach somebody.
use rasn::prelude::*;

/// CHOICE { email IA5String, phone NumericString }
#[derive(Debug, PartialEq, Eq, Drop)]
pub enum Contact {
    Email(Ia5String),
    Phone(NumericString),
}

/// The alternatives in their order.
type Alternatives = OneOf<Ia5String, Last<NumericString>>;

impl AsnType for Contact {
    ghost use Rattle.std.specs.Prelude.{refl};
    ghost use Rattle.rasn_types.specs.Tags.{eoc};
    ghost use Rattle.rasn_types.specs.Shapes.{choice, chosen};
    ghost use Rattle.rasn_types.specs.Trees.{unconstrained};
    ghost use Rattle.rasn_tutorial.specs.declared.contact.Contact.TheVariants.{Email, Phone};

    ghost TAG = { eoc };

    const TAG: Tag = Tag::EOC;

    ghost CONSTRAINTS = { unconstrained };

    const CONSTRAINTS: Constraints = Constraints::NONE;

    ghost shape = { choice ⟦<Alternatives as DecodeAlternatives>⟧.parts };

    ghost tree = { elim [ Email x ↦ chosen 0 (⟦<Ia5String as AsnType>⟧.tree x) | Phone x ↦ chosen 1 (⟦<NumericString as AsnType>⟧.tree x) ] };

    ghost own = { refl };
}

impl LawfulEq for Contact {
    ghost use Rattle.rasn_types.specs.Deciding.{deciding};
    ghost use Rattle.rasn_types.specs.Equality.{choice_decided, alternative};
    ghost use Rattle.rasn_tutorial.specs.contracts.contact.Contact.{enum as contact_enum};

    ghost decides = { choice_decided contact_enum _ _ (alternative (λ x. x.0) (Prim.search deciding depth 64), (alternative (λ x. x.0) (Prim.search deciding depth 64), tt)) };
}

impl Present for Contact {
    ghost use Rattle.rasn_types.specs.Equality.{chosen_not_absent};
    ghost use Rattle.rasn_tutorial.specs.declared.contact.Contact.TheVariants.{Email, Phone};

    ghost present = { elim [ Email x ↦ chosen_not_absent | Phone x ↦ chosen_not_absent ] };
}

impl Decode for Contact {
    ghost use Rattle.std.specs.Prelude.{codes};
    ghost use Rattle.rasn_de.specs.AlternativeTypes.{DecodesAlternativeBy};
    ghost use Rattle.rasn_de.specs.ValueErrors.{errors_of, IsErrorByTag};

    ghost errors = { λ _ _ old e new. errors_of (DecodesAlternativeBy ⟦<Alternatives as DecodeAlternatives>⟧.extensible ⟦<Alternatives as DecodeAlternatives>⟧.parts ⟦<Alternatives as DecodeAlternatives>⟧.inner (codes "Contact")) old e new × IsErrorByTag ⟦<Alternatives as DecodeAlternatives>⟧.errors old e new };

    fn decode_with_tag_and_constraints(
        decoder: &mut Decoder<'_>,
        _tag: Tag,
        _constraints: &Constraints,
    ) -> Result<Contact, DecodeError> {
        match decoder.read_choice::<Alternatives>("Contact") {
            Ok(OneOf::This(address)) => Ok(Contact::Email(address)),
            Ok(OneOf::Other(Last(number))) => Ok(Contact::Phone(number)),
            Err(error) => Err(error),
        }
    }
}

/// The alternatives, as they are written.
type Written<'a> = OneOf<&'a Ia5String, Last<&'a NumericString>>;

impl Encode for Contact {
    fn encode_with_tag_and_constraints(
        &self,
        encoder: &mut Encoder,
        _tag: Tag,
        _constraints: &Constraints,
        _identifier: Identifier,
    ) -> Result<(), EncodeError> {
        match self {
            Contact::Email(address) => encoder.write_choice::<Written<'_>>(OneOf::This(address)),
            Contact::Phone(number) => {
                encoder.write_choice::<Written<'_>>(OneOf::Other(Last(number)))
            }
        }
    }

    fn is_present(&self) -> bool {
        true
    }
}
