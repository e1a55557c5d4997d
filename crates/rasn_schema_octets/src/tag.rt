//! Tags as octets.
ghost use Rattle.std.specs.Prelude.{◌≡◌};

use rasn::error::{DecodeError, EncodeError};
use rasn::parts::OneOf::{Other, This};
use rasn::parts::{DecodeAlternatives, Last, OneOf};
use rasn::types::{AsnType, Class, Constraints, ContextTag, Identifier, Implicit, Tag};
use rasn::{Decode, Decoder, Encode, Encoder};

/// A tag: CHOICE { universal \[0\] INTEGER, application \[1\] INTEGER, context \[2\] INTEGER,
/// private \[3\] INTEGER }, of 32 bits.
#[derive(Clone, Copy, Drop)]
pub struct TagForm {
    /// The tag.
    pub tag: Tag,
}

impl AsnType for TagForm {
    ghost use Rattle.std.specs.Prelude.{refl};
    ghost use Rattle.rasn_types.specs.Tags.{eoc};
    ghost use Rattle.rasn_types.specs.Trees.{unconstrained};
    ghost use Rattle.rasn_schema_octets.specs.Shapes.{tag_shape};
    ghost use Rattle.rasn_schema_octets.specs.Trees.{tag_tree};

    ghost TAG = { eoc };

    const TAG: Tag = Tag::EOC;

    ghost CONSTRAINTS = { unconstrained };

    const CONSTRAINTS: Constraints = Constraints::NONE;

    ghost shape = { tag_shape };

    ghost tree = { λ f. tag_tree f.tag };

    ghost own = { refl };
}

/// The alternatives, as they are read.
type Alternatives = OneOf<
    Implicit<ContextTag<0>, u32>,
    OneOf<
        Implicit<ContextTag<1>, u32>,
        OneOf<Implicit<ContextTag<2>, u32>, Last<Implicit<ContextTag<3>, u32>>>,
    >,
>;

fn form(class: Class, value: u32) -> TagForm
    ensures { result.tag ≡ record { class = class; value = value } }
{
    TagForm {
        tag: Tag { class, value },
    }
}

impl Decode for TagForm {
    ghost use Rattle.std.specs.Prelude.{codes};
    ghost use Rattle.rasn_de.specs.AlternativeTypes.{DecodesAlternativeBy};
    ghost use Rattle.rasn_de.specs.ValueErrors.{errors_of, IsErrorByTag};

    ghost errors = { λ _ _ old e new. errors_of (DecodesAlternativeBy ⟦<Alternatives as DecodeAlternatives>⟧.extensible ⟦<Alternatives as DecodeAlternatives>⟧.parts ⟦<Alternatives as DecodeAlternatives>⟧.inner (codes "Tag")) old e new × IsErrorByTag ⟦<Alternatives as DecodeAlternatives>⟧.errors old e new };

    fn decode_with_tag_and_constraints(
        decoder: &mut Decoder<'_>,
        _tag: Tag,
        _constraints: &Constraints,
    ) -> Result<TagForm, DecodeError> {
        match decoder.read_choice::<Alternatives>("Tag") {
            Ok(This(value)) => Ok(form(Class::Universal, *value)),
            Ok(Other(This(value))) => Ok(form(Class::Application, *value)),
            Ok(Other(Other(This(value)))) => Ok(form(Class::Context, *value)),
            Ok(Other(Other(Other(Last(value))))) => Ok(form(Class::Private, *value)),
            Err(error) => Err(error),
        }
    }
}

/// The alternatives, as they are written.
type Written<'a> = OneOf<
    &'a Implicit<ContextTag<0>, u32>,
    OneOf<
        &'a Implicit<ContextTag<1>, u32>,
        OneOf<&'a Implicit<ContextTag<2>, u32>, Last<&'a Implicit<ContextTag<3>, u32>>>,
    >,
>;

impl Encode for TagForm {
    fn encode_with_tag_and_constraints(
        &self,
        encoder: &mut Encoder,
        _tag: Tag,
        _constraints: &Constraints,
        _identifier: Identifier,
    ) -> Result<(), EncodeError> {
        let value = self.tag.value;
        match self.tag.class {
            Class::Universal => encoder.write_choice::<Written<'_>>(This(&Implicit::new(value))),
            Class::Application => {
                encoder.write_choice::<Written<'_>>(Other(This(&Implicit::new(value))))
            }
            Class::Context => {
                encoder.write_choice::<Written<'_>>(Other(Other(This(&Implicit::new(value)))))
            }
            Class::Private => encoder.write_choice::<Written<'_>>(Other(Other(Other(Last(
                &Implicit::new(value),
            ))))),
        }
    }

    fn is_present(&self) -> bool {
        true
    }
}
