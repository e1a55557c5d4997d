//! Types as octets.
use crate::component::ComponentForm;
use crate::constraints::ConstraintsForm;
use crate::kind::KindForm;
use crate::name::{NameForm, NumberForm};
use crate::tag::TagForm;
use rasn::error::{DecodeError, EncodeError};
use rasn::parts::OneOf::{Other, This};
use rasn::parts::{DecodeAlternatives, DecodeParts, End, Last, OneOf, Put, Required};
use rasn::types::{
    AsnType, Constraints, ContextTag, Explicit, Identifier, Implicit, Tag, Utf8String,
};
use rasn::{Decode, Decoder, Encode, Encoder};

/// A type whose values hold no other values.
#[derive(Drop)]
pub struct LeafForm {
    /// What a value is.
    pub kind: KindForm,
    /// Its tag.
    pub tag: TagForm,
    /// Its constraints.
    pub constraints: ConstraintsForm,
    /// The names of its numbers or bits.
    pub names: Vec<NumberForm>,
}

impl AsnType for LeafForm {
    ghost use Rattle.std.specs.Prelude.{refl};
    ghost use Rattle.rasn_types.specs.Tags.{in_universal};
    ghost use Rattle.rasn_types.specs.Trees.{unconstrained};
    ghost use Rattle.rasn_types.specs.Shapes.{seq};
    ghost use Rattle.rasn_schema_octets.specs.Shapes.{leaf_parts};
    ghost use Rattle.rasn_schema_octets.specs.Forms.{leaf_form_tree};

    ghost TAG = { in_universal 16 };

    const TAG: Tag = Tag::SEQUENCE;

    ghost CONSTRAINTS = { unconstrained };

    const CONSTRAINTS: Constraints = Constraints::NONE;

    ghost shape = { seq (in_universal 16) leaf_parts };

    ghost tree = { leaf_form_tree };

    ghost own = { refl };
}

/// The components of `LeafForm`, as they are read.
type LeafParts = Required<
    KindForm,
    Required<TagForm, Required<ConstraintsForm, Required<Vec<NumberForm>, End>>>,
>;

impl Decode for LeafForm {
    ghost use Rattle.rasn_de.specs.PartTypes.{DecodesSequenceParts};
    ghost use Rattle.rasn_de.specs.ValueErrors.{errors_of};

    ghost errors = { λ tag _. errors_of (DecodesSequenceParts ⟦<LeafParts as DecodeParts>⟧.parts ⟦<LeafParts as DecodeParts>⟧.tree ⟦<LeafParts as DecodeParts>⟧.errors tag) };

    fn decode_with_tag_and_constraints(
        decoder: &mut Decoder<'_>,
        tag: Tag,
        _constraints: &Constraints,
    ) -> Result<LeafForm, DecodeError> {
        let parts = match decoder.read_sequence::<LeafParts>(tag) {
            Ok(parts) => parts,
            Err(error) => return Err(error),
        };
        let Required(kind, Required(tag, Required(constraints, Required(names, End)))) = parts;
        Ok(LeafForm {
            kind,
            tag,
            constraints,
            names,
        })
    }
}

impl Encode for LeafForm {
    fn encode_with_tag_and_constraints(
        &self,
        encoder: &mut Encoder,
        tag: Tag,
        _constraints: &Constraints,
        _identifier: Identifier,
    ) -> Result<(), EncodeError> {
        encoder.write_sequence(
            tag,
            Put(
                &self.kind,
                Put(&self.tag, Put(&self.constraints, Put(&self.names, End))),
            ),
        )
    }

    fn is_present(&self) -> bool {
        true
    }
}

/// An ENUMERATED.
#[derive(Drop)]
pub struct EnumeratedForm {
    /// Its tag.
    pub tag: TagForm,
    /// Its numbers.
    pub numbers: Vec<NumberForm>,
}

impl AsnType for EnumeratedForm {
    ghost use Rattle.std.specs.Prelude.{refl};
    ghost use Rattle.rasn_types.specs.Tags.{in_universal};
    ghost use Rattle.rasn_types.specs.Trees.{unconstrained};
    ghost use Rattle.rasn_types.specs.Shapes.{seq};
    ghost use Rattle.rasn_schema_octets.specs.Shapes.{enumerated_parts};
    ghost use Rattle.rasn_schema_octets.specs.Forms.{enumerated_form_tree};

    ghost TAG = { in_universal 16 };

    const TAG: Tag = Tag::SEQUENCE;

    ghost CONSTRAINTS = { unconstrained };

    const CONSTRAINTS: Constraints = Constraints::NONE;

    ghost shape = { seq (in_universal 16) enumerated_parts };

    ghost tree = { enumerated_form_tree };

    ghost own = { refl };
}

/// The components of `EnumeratedForm`, as they are read.
type EnumeratedParts = Required<TagForm, Required<Vec<NumberForm>, End>>;

impl Decode for EnumeratedForm {
    ghost use Rattle.rasn_de.specs.PartTypes.{DecodesSequenceParts};
    ghost use Rattle.rasn_de.specs.ValueErrors.{errors_of};

    ghost errors = { λ tag _. errors_of (DecodesSequenceParts ⟦<EnumeratedParts as DecodeParts>⟧.parts ⟦<EnumeratedParts as DecodeParts>⟧.tree ⟦<EnumeratedParts as DecodeParts>⟧.errors tag) };

    fn decode_with_tag_and_constraints(
        decoder: &mut Decoder<'_>,
        tag: Tag,
        _constraints: &Constraints,
    ) -> Result<EnumeratedForm, DecodeError> {
        let parts = match decoder.read_sequence::<EnumeratedParts>(tag) {
            Ok(parts) => parts,
            Err(error) => return Err(error),
        };
        let Required(tag, Required(numbers, End)) = parts;
        Ok(EnumeratedForm { tag, numbers })
    }
}

impl Encode for EnumeratedForm {
    fn encode_with_tag_and_constraints(
        &self,
        encoder: &mut Encoder,
        tag: Tag,
        _constraints: &Constraints,
        _identifier: Identifier,
    ) -> Result<(), EncodeError> {
        encoder.write_sequence(tag, Put(&self.tag, Put(&self.numbers, End)))
    }

    fn is_present(&self) -> bool {
        true
    }
}

/// A type with an explicit tag.
#[derive(Drop)]
pub struct TaggedForm {
    /// The tag.
    pub tag: TagForm,
    /// The number of the type inside.
    pub inner: usize,
}

impl AsnType for TaggedForm {
    ghost use Rattle.std.specs.Prelude.{refl};
    ghost use Rattle.rasn_types.specs.Tags.{in_universal};
    ghost use Rattle.rasn_types.specs.Trees.{unconstrained};
    ghost use Rattle.rasn_types.specs.Shapes.{seq};
    ghost use Rattle.rasn_schema_octets.specs.Shapes.{tagged_parts};
    ghost use Rattle.rasn_schema_octets.specs.Forms.{tagged_form_tree};

    ghost TAG = { in_universal 16 };

    const TAG: Tag = Tag::SEQUENCE;

    ghost CONSTRAINTS = { unconstrained };

    const CONSTRAINTS: Constraints = Constraints::NONE;

    ghost shape = { seq (in_universal 16) tagged_parts };

    ghost tree = { tagged_form_tree };

    ghost own = { refl };
}

/// The components of `TaggedForm`, as they are read.
type TaggedParts = Required<TagForm, Required<usize, End>>;

impl Decode for TaggedForm {
    ghost use Rattle.rasn_de.specs.PartTypes.{DecodesSequenceParts};
    ghost use Rattle.rasn_de.specs.ValueErrors.{errors_of};

    ghost errors = { λ tag _. errors_of (DecodesSequenceParts ⟦<TaggedParts as DecodeParts>⟧.parts ⟦<TaggedParts as DecodeParts>⟧.tree ⟦<TaggedParts as DecodeParts>⟧.errors tag) };

    fn decode_with_tag_and_constraints(
        decoder: &mut Decoder<'_>,
        tag: Tag,
        _constraints: &Constraints,
    ) -> Result<TaggedForm, DecodeError> {
        let parts = match decoder.read_sequence::<TaggedParts>(tag) {
            Ok(parts) => parts,
            Err(error) => return Err(error),
        };
        let Required(tag, Required(inner, End)) = parts;
        Ok(TaggedForm { tag, inner })
    }
}

impl Encode for TaggedForm {
    fn encode_with_tag_and_constraints(
        &self,
        encoder: &mut Encoder,
        tag: Tag,
        _constraints: &Constraints,
        _identifier: Identifier,
    ) -> Result<(), EncodeError> {
        encoder.write_sequence(tag, Put(&self.tag, Put(&self.inner, End)))
    }

    fn is_present(&self) -> bool {
        true
    }
}

/// A CHOICE.
#[derive(Drop)]
pub struct ChoiceForm {
    /// Its name in errors.
    pub name: Utf8String,
    /// Its alternatives.
    pub alternatives: Vec<NameForm>,
}

impl AsnType for ChoiceForm {
    ghost use Rattle.std.specs.Prelude.{refl};
    ghost use Rattle.rasn_types.specs.Tags.{in_universal};
    ghost use Rattle.rasn_types.specs.Trees.{unconstrained};
    ghost use Rattle.rasn_types.specs.Shapes.{seq};
    ghost use Rattle.rasn_schema_octets.specs.Shapes.{choice_parts};
    ghost use Rattle.rasn_schema_octets.specs.Forms.{choice_form_tree};

    ghost TAG = { in_universal 16 };

    const TAG: Tag = Tag::SEQUENCE;

    ghost CONSTRAINTS = { unconstrained };

    const CONSTRAINTS: Constraints = Constraints::NONE;

    ghost shape = { seq (in_universal 16) choice_parts };

    ghost tree = { choice_form_tree };

    ghost own = { refl };
}

/// The components of `ChoiceForm`, as they are read.
type ChoiceParts = Required<Utf8String, Required<Vec<NameForm>, End>>;

impl Decode for ChoiceForm {
    ghost use Rattle.rasn_de.specs.PartTypes.{DecodesSequenceParts};
    ghost use Rattle.rasn_de.specs.ValueErrors.{errors_of};

    ghost errors = { λ tag _. errors_of (DecodesSequenceParts ⟦<ChoiceParts as DecodeParts>⟧.parts ⟦<ChoiceParts as DecodeParts>⟧.tree ⟦<ChoiceParts as DecodeParts>⟧.errors tag) };

    fn decode_with_tag_and_constraints(
        decoder: &mut Decoder<'_>,
        tag: Tag,
        _constraints: &Constraints,
    ) -> Result<ChoiceForm, DecodeError> {
        let parts = match decoder.read_sequence::<ChoiceParts>(tag) {
            Ok(parts) => parts,
            Err(error) => return Err(error),
        };
        let Required(name, Required(alternatives, End)) = parts;
        Ok(ChoiceForm { name, alternatives })
    }
}

impl Encode for ChoiceForm {
    fn encode_with_tag_and_constraints(
        &self,
        encoder: &mut Encoder,
        tag: Tag,
        _constraints: &Constraints,
        _identifier: Identifier,
    ) -> Result<(), EncodeError> {
        encoder.write_sequence(tag, Put(&self.name, Put(&self.alternatives, End)))
    }

    fn is_present(&self) -> bool {
        true
    }
}

/// A SEQUENCE.
#[derive(Drop)]
pub struct SequenceForm {
    /// Its tag.
    pub tag: TagForm,
    /// Its components.
    pub components: Vec<ComponentForm>,
}

impl AsnType for SequenceForm {
    ghost use Rattle.std.specs.Prelude.{refl};
    ghost use Rattle.rasn_types.specs.Tags.{in_universal};
    ghost use Rattle.rasn_types.specs.Trees.{unconstrained};
    ghost use Rattle.rasn_types.specs.Shapes.{seq};
    ghost use Rattle.rasn_schema_octets.specs.Shapes.{sequence_parts};
    ghost use Rattle.rasn_schema_octets.specs.Forms.{sequence_form_tree};

    ghost TAG = { in_universal 16 };

    const TAG: Tag = Tag::SEQUENCE;

    ghost CONSTRAINTS = { unconstrained };

    const CONSTRAINTS: Constraints = Constraints::NONE;

    ghost shape = { seq (in_universal 16) sequence_parts };

    ghost tree = { sequence_form_tree };

    ghost own = { refl };
}

/// The components of `SequenceForm`, as they are read.
type SequenceParts = Required<TagForm, Required<Vec<ComponentForm>, End>>;

impl Decode for SequenceForm {
    ghost use Rattle.rasn_de.specs.PartTypes.{DecodesSequenceParts};
    ghost use Rattle.rasn_de.specs.ValueErrors.{errors_of};

    ghost errors = { λ tag _. errors_of (DecodesSequenceParts ⟦<SequenceParts as DecodeParts>⟧.parts ⟦<SequenceParts as DecodeParts>⟧.tree ⟦<SequenceParts as DecodeParts>⟧.errors tag) };

    fn decode_with_tag_and_constraints(
        decoder: &mut Decoder<'_>,
        tag: Tag,
        _constraints: &Constraints,
    ) -> Result<SequenceForm, DecodeError> {
        let parts = match decoder.read_sequence::<SequenceParts>(tag) {
            Ok(parts) => parts,
            Err(error) => return Err(error),
        };
        let Required(tag, Required(components, End)) = parts;
        Ok(SequenceForm { tag, components })
    }
}

impl Encode for SequenceForm {
    fn encode_with_tag_and_constraints(
        &self,
        encoder: &mut Encoder,
        tag: Tag,
        _constraints: &Constraints,
        _identifier: Identifier,
    ) -> Result<(), EncodeError> {
        encoder.write_sequence(tag, Put(&self.tag, Put(&self.components, End)))
    }

    fn is_present(&self) -> bool {
        true
    }
}

/// A SET.
#[derive(Drop)]
pub struct SetForm {
    /// Its name in errors.
    pub name: Utf8String,
    /// Its tag.
    pub tag: TagForm,
    /// Its components.
    pub components: Vec<ComponentForm>,
}

impl AsnType for SetForm {
    ghost use Rattle.std.specs.Prelude.{refl};
    ghost use Rattle.rasn_types.specs.Tags.{in_universal};
    ghost use Rattle.rasn_types.specs.Trees.{unconstrained};
    ghost use Rattle.rasn_types.specs.Shapes.{seq};
    ghost use Rattle.rasn_schema_octets.specs.Shapes.{set_parts};
    ghost use Rattle.rasn_schema_octets.specs.Forms.{set_form_tree};

    ghost TAG = { in_universal 16 };

    const TAG: Tag = Tag::SEQUENCE;

    ghost CONSTRAINTS = { unconstrained };

    const CONSTRAINTS: Constraints = Constraints::NONE;

    ghost shape = { seq (in_universal 16) set_parts };

    ghost tree = { set_form_tree };

    ghost own = { refl };
}

/// The components of `SetForm`, as they are read.
type SetParts = Required<Utf8String, Required<TagForm, Required<Vec<ComponentForm>, End>>>;

impl Decode for SetForm {
    ghost use Rattle.rasn_de.specs.PartTypes.{DecodesSequenceParts};
    ghost use Rattle.rasn_de.specs.ValueErrors.{errors_of};

    ghost errors = { λ tag _. errors_of (DecodesSequenceParts ⟦<SetParts as DecodeParts>⟧.parts ⟦<SetParts as DecodeParts>⟧.tree ⟦<SetParts as DecodeParts>⟧.errors tag) };

    fn decode_with_tag_and_constraints(
        decoder: &mut Decoder<'_>,
        tag: Tag,
        _constraints: &Constraints,
    ) -> Result<SetForm, DecodeError> {
        let parts = match decoder.read_sequence::<SetParts>(tag) {
            Ok(parts) => parts,
            Err(error) => return Err(error),
        };
        let Required(name, Required(tag, Required(components, End))) = parts;
        Ok(SetForm {
            name,
            tag,
            components,
        })
    }
}

impl Encode for SetForm {
    fn encode_with_tag_and_constraints(
        &self,
        encoder: &mut Encoder,
        tag: Tag,
        _constraints: &Constraints,
        _identifier: Identifier,
    ) -> Result<(), EncodeError> {
        encoder.write_sequence(
            tag,
            Put(&self.name, Put(&self.tag, Put(&self.components, End))),
        )
    }

    fn is_present(&self) -> bool {
        true
    }
}

/// A SEQUENCE OF or a SET OF.
#[derive(Drop)]
pub struct ElementsForm {
    /// Its tag.
    pub tag: TagForm,
    /// The number of the type of its elements.
    pub element: usize,
    /// The bound of its size.
    pub constraints: ConstraintsForm,
}

impl AsnType for ElementsForm {
    ghost use Rattle.std.specs.Prelude.{refl};
    ghost use Rattle.rasn_types.specs.Tags.{in_universal};
    ghost use Rattle.rasn_types.specs.Trees.{unconstrained};
    ghost use Rattle.rasn_types.specs.Shapes.{seq};
    ghost use Rattle.rasn_schema_octets.specs.Shapes.{elements_parts};
    ghost use Rattle.rasn_schema_octets.specs.Forms.{elements_form_tree};

    ghost TAG = { in_universal 16 };

    const TAG: Tag = Tag::SEQUENCE;

    ghost CONSTRAINTS = { unconstrained };

    const CONSTRAINTS: Constraints = Constraints::NONE;

    ghost shape = { seq (in_universal 16) elements_parts };

    ghost tree = { elements_form_tree };

    ghost own = { refl };
}

/// The components of `ElementsForm`, as they are read.
type ElementsParts = Required<TagForm, Required<usize, Required<ConstraintsForm, End>>>;

impl Decode for ElementsForm {
    ghost use Rattle.rasn_de.specs.PartTypes.{DecodesSequenceParts};
    ghost use Rattle.rasn_de.specs.ValueErrors.{errors_of};

    ghost errors = { λ tag _. errors_of (DecodesSequenceParts ⟦<ElementsParts as DecodeParts>⟧.parts ⟦<ElementsParts as DecodeParts>⟧.tree ⟦<ElementsParts as DecodeParts>⟧.errors tag) };

    fn decode_with_tag_and_constraints(
        decoder: &mut Decoder<'_>,
        tag: Tag,
        _constraints: &Constraints,
    ) -> Result<ElementsForm, DecodeError> {
        let parts = match decoder.read_sequence::<ElementsParts>(tag) {
            Ok(parts) => parts,
            Err(error) => return Err(error),
        };
        let Required(tag, Required(element, Required(constraints, End))) = parts;
        Ok(ElementsForm {
            tag,
            element,
            constraints,
        })
    }
}

impl Encode for ElementsForm {
    fn encode_with_tag_and_constraints(
        &self,
        encoder: &mut Encoder,
        tag: Tag,
        _constraints: &Constraints,
        _identifier: Identifier,
    ) -> Result<(), EncodeError> {
        encoder.write_sequence(
            tag,
            Put(&self.tag, Put(&self.element, Put(&self.constraints, End))),
        )
    }

    fn is_present(&self) -> bool {
        true
    }
}

/// A type.
#[derive(Drop)]
pub enum TypeForm {
    /// A type whose values hold no other values.
    Leaf(Implicit<ContextTag<0>, LeafForm>),
    /// An ENUMERATED.
    Enumerated(Implicit<ContextTag<1>, EnumeratedForm>),
    /// An open type: its tag, or universal 0.
    Any(Explicit<ContextTag<2>, TagForm>),
    /// A type with an explicit tag.
    Tagged(Implicit<ContextTag<3>, TaggedForm>),
    /// A CHOICE.
    Choice(Implicit<ContextTag<4>, ChoiceForm>),
    /// A SEQUENCE.
    Sequence(Implicit<ContextTag<5>, SequenceForm>),
    /// A SET.
    Set(Implicit<ContextTag<6>, SetForm>),
    /// A SEQUENCE OF.
    SequenceOf(Implicit<ContextTag<7>, ElementsForm>),
    /// A SET OF.
    SetOf(Implicit<ContextTag<8>, ElementsForm>),
    /// Unknown values at the end of an extensible SEQUENCE.
    Unknown(Implicit<ContextTag<9>, ()>),
}

impl AsnType for TypeForm {
    ghost use Rattle.std.specs.Prelude.{refl};
    ghost use Rattle.rasn_types.specs.Tags.{eoc};
    ghost use Rattle.rasn_types.specs.Trees.{unconstrained};
    ghost use Rattle.rasn_schema_octets.specs.Shapes.{type_shape};
    ghost use Rattle.rasn_schema_octets.specs.Forms.{type_form_tree};

    ghost TAG = { eoc };

    const TAG: Tag = Tag::EOC;

    ghost CONSTRAINTS = { unconstrained };

    const CONSTRAINTS: Constraints = Constraints::NONE;

    ghost shape = { type_shape };

    ghost tree = { type_form_tree };

    ghost own = { refl };
}

/// The last alternatives of `TypeForm`, as they are read.
type TypeFormLastAlternatives = OneOf<
    Implicit<ContextTag<5>, SequenceForm>,
    OneOf<
        Implicit<ContextTag<6>, SetForm>,
        OneOf<
            Implicit<ContextTag<7>, ElementsForm>,
            OneOf<Implicit<ContextTag<8>, ElementsForm>, Last<Implicit<ContextTag<9>, ()>>>,
        >,
    >,
>;

/// All alternatives of `TypeForm`, as they are read.
type TypeFormAlternatives = OneOf<
    Implicit<ContextTag<0>, LeafForm>,
    OneOf<
        Implicit<ContextTag<1>, EnumeratedForm>,
        OneOf<
            Explicit<ContextTag<2>, TagForm>,
            OneOf<
                Implicit<ContextTag<3>, TaggedForm>,
                OneOf<Implicit<ContextTag<4>, ChoiceForm>, TypeFormLastAlternatives>,
            >,
        >,
    >,
>;

impl Decode for TypeForm {
    ghost use Rattle.std.specs.Prelude.{codes};
    ghost use Rattle.rasn_de.specs.AlternativeTypes.{DecodesAlternativeBy};
    ghost use Rattle.rasn_de.specs.ValueErrors.{errors_of, IsErrorByTag};

    ghost errors = { λ _ _ old e new. errors_of (DecodesAlternativeBy ⟦<TypeFormAlternatives as DecodeAlternatives>⟧.extensible ⟦<TypeFormAlternatives as DecodeAlternatives>⟧.parts ⟦<TypeFormAlternatives as DecodeAlternatives>⟧.inner (codes "Type")) old e new × IsErrorByTag ⟦<TypeFormAlternatives as DecodeAlternatives>⟧.errors old e new };

    fn decode_with_tag_and_constraints(
        decoder: &mut Decoder<'_>,
        _tag: Tag,
        _constraints: &Constraints,
    ) -> Result<TypeForm, DecodeError> {
        match decoder.read_choice::<TypeFormAlternatives>("Type") {
            Ok(This(part)) => Ok(TypeForm::Leaf(part)),
            Ok(Other(This(part))) => Ok(TypeForm::Enumerated(part)),
            Ok(Other(Other(This(part)))) => Ok(TypeForm::Any(part)),
            Ok(Other(Other(Other(This(part))))) => Ok(TypeForm::Tagged(part)),
            Ok(Other(Other(Other(Other(This(part)))))) => Ok(TypeForm::Choice(part)),
            Ok(Other(Other(Other(Other(Other(This(part))))))) => Ok(TypeForm::Sequence(part)),
            Ok(Other(Other(Other(Other(Other(Other(This(part)))))))) => Ok(TypeForm::Set(part)),
            Ok(Other(Other(Other(Other(Other(Other(Other(This(part))))))))) => Ok(
                TypeForm::SequenceOf(part),
            ),
            Ok(Other(Other(Other(Other(Other(Other(Other(Other(This(part)))))))))) => Ok(
                TypeForm::SetOf(part),
            ),
            Ok(Other(Other(Other(Other(Other(Other(Other(Other(Other(Last(part))))))))))) => Ok(
                TypeForm::Unknown(part),
            ),
            Err(error) => Err(error),
        }
    }
}

/// The last alternatives of `TypeForm`, as they are written.
type TypeFormLastWritten<'a> = OneOf<
    &'a Implicit<ContextTag<5>, SequenceForm>,
    OneOf<
        &'a Implicit<ContextTag<6>, SetForm>,
        OneOf<
            &'a Implicit<ContextTag<7>, ElementsForm>,
            OneOf<&'a Implicit<ContextTag<8>, ElementsForm>, Last<&'a Implicit<ContextTag<9>, ()>>>,
        >,
    >,
>;

/// All alternatives of `TypeForm`, as they are written.
type TypeFormWritten<'a> = OneOf<
    &'a Implicit<ContextTag<0>, LeafForm>,
    OneOf<
        &'a Implicit<ContextTag<1>, EnumeratedForm>,
        OneOf<
            &'a Explicit<ContextTag<2>, TagForm>,
            OneOf<
                &'a Implicit<ContextTag<3>, TaggedForm>,
                OneOf<&'a Implicit<ContextTag<4>, ChoiceForm>, TypeFormLastWritten<'a>>,
            >,
        >,
    >,
>;

impl Encode for TypeForm {
    fn encode_with_tag_and_constraints(
        &self,
        encoder: &mut Encoder,
        _tag: Tag,
        _constraints: &Constraints,
        _identifier: Identifier,
    ) -> Result<(), EncodeError> {
        match self {
            TypeForm::Leaf(part) => encoder.write_choice::<TypeFormWritten<'_>>(This(part)),
            TypeForm::Enumerated(part) => encoder.write_choice::<TypeFormWritten<'_>>(Other(This(
                part,
            ))),
            TypeForm::Any(part) => encoder.write_choice::<TypeFormWritten<'_>>(Other(Other(This(
                part,
            )))),
            TypeForm::Tagged(part) => encoder.write_choice::<TypeFormWritten<'_>>(Other(Other(Other(
                This(part),
            )))),
            TypeForm::Choice(part) => encoder.write_choice::<TypeFormWritten<'_>>(Other(Other(Other(
                Other(This(part)),
            )))),
            TypeForm::Sequence(part) => encoder.write_choice::<TypeFormWritten<'_>>(Other(Other(
                Other(Other(Other(This(part)))),
            ))),
            TypeForm::Set(part) => encoder.write_choice::<TypeFormWritten<'_>>(Other(Other(Other(
                Other(Other(Other(This(part)))),
            )))),
            TypeForm::SequenceOf(part) => encoder.write_choice::<TypeFormWritten<'_>>(Other(Other(
                Other(Other(Other(Other(Other(This(part)))))),
            ))),
            TypeForm::SetOf(part) => encoder.write_choice::<TypeFormWritten<'_>>(Other(Other(Other(
                Other(Other(Other(Other(Other(This(part)))))),
            )))),
            TypeForm::Unknown(part) => encoder.write_choice::<TypeFormWritten<'_>>(Other(Other(
                Other(Other(Other(Other(Other(Other(Other(Last(part)))))))),
            ))),
        }
    }

    fn is_present(&self) -> bool {
        true
    }
}
