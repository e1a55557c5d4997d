//! Components as octets.
use crate::node::NodeForm;
use rasn::error::{DecodeError, EncodeError};
use rasn::parts::OneOf::{Other, This};
use rasn::parts::{DecodeAlternatives, DecodeParts, End, Last, OneOf, Put, Required};
use rasn::types::{AsnType, Constraints, ContextTag, Identifier, Implicit, Tag, Utf8String};
use rasn::{Decode, Decoder, Encode, Encoder};

/// Whether a component may be absent.
#[derive(Drop)]
pub enum PresenceForm {
    /// It is always present.
    Required(Implicit<ContextTag<0>, ()>),
    /// OPTIONAL.
    Optional(Implicit<ContextTag<1>, ()>),
    /// An extension addition that is always present.
    Addition(Implicit<ContextTag<2>, ()>),
    /// DEFAULT: the nodes of the value.
    Default(Implicit<ContextTag<3>, Vec<NodeForm>>),
}

impl AsnType for PresenceForm {
    ghost use Rattle.std.specs.Prelude.{refl};
    ghost use Rattle.rasn_types.specs.Tags.{eoc};
    ghost use Rattle.rasn_types.specs.Trees.{unconstrained};
    ghost use Rattle.rasn_schema_octets.specs.Shapes.{presence_shape};
    ghost use Rattle.rasn_schema_octets.specs.Forms.{presence_form_tree};

    ghost TAG = { eoc };

    const TAG: Tag = Tag::EOC;

    ghost CONSTRAINTS = { unconstrained };

    const CONSTRAINTS: Constraints = Constraints::NONE;

    ghost shape = { presence_shape };

    ghost tree = { presence_form_tree };

    ghost own = { refl };
}

/// The alternatives of `PresenceForm`, as they are read.
type PresenceFormAlternatives = OneOf<
    Implicit<ContextTag<0>, ()>,
    OneOf<
        Implicit<ContextTag<1>, ()>,
        OneOf<Implicit<ContextTag<2>, ()>, Last<Implicit<ContextTag<3>, Vec<NodeForm>>>>,
    >,
>;

impl Decode for PresenceForm {
    ghost use Rattle.std.specs.Prelude.{codes};
    ghost use Rattle.rasn_de.specs.AlternativeTypes.{DecodesAlternativeBy};
    ghost use Rattle.rasn_de.specs.ValueErrors.{errors_of, IsErrorByTag};

    ghost errors = { λ _ _ old e new. errors_of (DecodesAlternativeBy ⟦<PresenceFormAlternatives as DecodeAlternatives>⟧.extensible ⟦<PresenceFormAlternatives as DecodeAlternatives>⟧.parts ⟦<PresenceFormAlternatives as DecodeAlternatives>⟧.inner (codes "Presence")) old e new × IsErrorByTag ⟦<PresenceFormAlternatives as DecodeAlternatives>⟧.errors old e new };

    fn decode_with_tag_and_constraints(
        decoder: &mut Decoder<'_>,
        _tag: Tag,
        _constraints: &Constraints,
    ) -> Result<PresenceForm, DecodeError> {
        match decoder.read_choice::<PresenceFormAlternatives>("Presence") {
            Ok(This(part)) => Ok(PresenceForm::Required(part)),
            Ok(Other(This(part))) => Ok(PresenceForm::Optional(part)),
            Ok(Other(Other(This(part)))) => Ok(PresenceForm::Addition(part)),
            Ok(Other(Other(Other(Last(part))))) => Ok(PresenceForm::Default(part)),
            Err(error) => Err(error),
        }
    }
}

/// The alternatives of `PresenceForm`, as they are written.
type PresenceFormWritten<'a> = OneOf<
    &'a Implicit<ContextTag<0>, ()>,
    OneOf<
        &'a Implicit<ContextTag<1>, ()>,
        OneOf<&'a Implicit<ContextTag<2>, ()>, Last<&'a Implicit<ContextTag<3>, Vec<NodeForm>>>>,
    >,
>;

impl Encode for PresenceForm {
    fn encode_with_tag_and_constraints(
        &self,
        encoder: &mut Encoder,
        _tag: Tag,
        _constraints: &Constraints,
        _identifier: Identifier,
    ) -> Result<(), EncodeError> {
        match self {
            PresenceForm::Required(part) => encoder.write_choice::<PresenceFormWritten<'_>>(This(
                part,
            )),
            PresenceForm::Optional(part) => encoder.write_choice::<PresenceFormWritten<'_>>(Other(
                This(part),
            )),
            PresenceForm::Addition(part) => encoder.write_choice::<PresenceFormWritten<'_>>(Other(
                Other(This(part)),
            )),
            PresenceForm::Default(part) => encoder.write_choice::<PresenceFormWritten<'_>>(Other(
                Other(Other(Last(part))),
            )),
        }
    }

    fn is_present(&self) -> bool {
        true
    }
}

/// A component: SEQUENCE { name UTF8String, type INTEGER, presence PresenceForm }.
#[derive(Drop)]
pub struct ComponentForm {
    /// Its name.
    pub name: Utf8String,
    /// The number of its type.
    pub type_id: usize,
    /// Whether it may be absent.
    pub presence: PresenceForm,
}

impl AsnType for ComponentForm {
    ghost use Rattle.std.specs.Prelude.{refl};
    ghost use Rattle.rasn_types.specs.Tags.{in_universal};
    ghost use Rattle.rasn_types.specs.Trees.{unconstrained};
    ghost use Rattle.rasn_schema_octets.specs.Shapes.{component_shape};
    ghost use Rattle.rasn_schema_octets.specs.Forms.{component_form_tree};

    ghost TAG = { in_universal 16 };

    const TAG: Tag = Tag::SEQUENCE;

    ghost CONSTRAINTS = { unconstrained };

    const CONSTRAINTS: Constraints = Constraints::NONE;

    ghost shape = { component_shape };

    ghost tree = { component_form_tree };

    ghost own = { refl };
}

/// The components of `ComponentForm`, as they are read.
type ComponentParts = Required<Utf8String, Required<usize, Required<PresenceForm, End>>>;

impl Decode for ComponentForm {
    ghost use Rattle.rasn_de.specs.PartTypes.{DecodesSequenceParts};
    ghost use Rattle.rasn_de.specs.ValueErrors.{errors_of};

    ghost errors = { λ tag _. errors_of (DecodesSequenceParts ⟦<ComponentParts as DecodeParts>⟧.parts ⟦<ComponentParts as DecodeParts>⟧.tree ⟦<ComponentParts as DecodeParts>⟧.errors tag) };

    fn decode_with_tag_and_constraints(
        decoder: &mut Decoder<'_>,
        tag: Tag,
        _constraints: &Constraints,
    ) -> Result<ComponentForm, DecodeError> {
        let parts = match decoder.read_sequence::<ComponentParts>(tag) {
            Ok(parts) => parts,
            Err(error) => return Err(error),
        };
        let Required(name, Required(type_id, Required(presence, End))) = parts;
        Ok(ComponentForm {
            name,
            type_id,
            presence,
        })
    }
}

impl Encode for ComponentForm {
    fn encode_with_tag_and_constraints(
        &self,
        encoder: &mut Encoder,
        tag: Tag,
        _constraints: &Constraints,
        _identifier: Identifier,
    ) -> Result<(), EncodeError> {
        let presence = Put(&self.presence, End);
        encoder.write_sequence(tag, Put(&self.name, Put(&self.type_id, presence)))
    }

    fn is_present(&self) -> bool {
        true
    }
}
