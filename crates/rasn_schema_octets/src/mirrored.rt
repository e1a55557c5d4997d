//! Parts of a schema, and the types as which they are read and written.
ghost use Rattle.std.specs.Prelude.{◌≡◌, IfOk};
ghost use Rattle.std.specs.String.{string_bytes};
ghost use Rattle.rasn_types.specs.Shapes.{chosen};
ghost use Rattle.rasn_schema_octets.specs.Trees.{type_tree, elements_tree, leaf_tree};
ghost use Rattle.rasn_schema_octets.specs.Forms.{leaf_form_tree, enumerated_form_tree, choice_form_tree, sequence_form_tree, set_form_tree, elements_form_tree};
ghost use Rattle.rasn_schema_octets.specs.Mirrors.{Makes, Forms};
ghost use Rattle.rasn_schema_octets.specs.Shallow.{IsShallowType};

use crate::component::{ComponentForm, PresenceForm};
use crate::constraints::ConstraintsForm;
use crate::fault::Stop;
use crate::kind::KindForm;
use crate::list::{forms_of, parts_of};
use crate::name::{NameForm, NumberForm};
use crate::tag::TagForm;
use crate::types::{
    ChoiceForm, ElementsForm, EnumeratedForm, LeafForm, SequenceForm, SetForm, TaggedForm, TypeForm,
};
use crate::value::value_of;
use crate::value_nodes::value_nodes;
use rasn::types::{AsnType, Constraints, Explicit, Implicit, Tag};
use rasn_schema::{
    Alternative, Component, LeafKind, NamedNumber, Presence, Type, TypeId, TypeName,
};
use std::alloc::{AllocError, Global};

/// A part of a schema, which is read and written as an `F`.
pub(crate) trait Mirrored<F: AsnType>: Sized + Drop {
    ghost use Rattle.rasn_types.specs.Shapes.{Tree};
    ghost use Rattle.rasn_schema_octets.specs.Mirrors.{Makes, Forms};
    ghost use Rattle.rasn_schema_octets.specs.Stops.{IsMemory};

    ghost says: { Self → Tree };

    ghost is_shallow: { Self → Type 0 };

    /// Returns the part that was read.
    ///
    /// # Errors
    /// If memory runs out, or a default isn't one value or is nested too deep.
    fn from_form(alloc: Global, form: F) -> Result<Self, Stop>
        ensures { Makes says is_shallow (F.tree form) result };

    /// Returns what is written of the part.
    ///
    /// # Errors
    /// If memory runs out, or a default is nested too deep.
    fn form(&self, alloc: Global) -> Result<F, Stop>
        ensures { Forms F.tree (says self.now) (is_shallow self.now) result };

    /// Returns the error with the index of the part in its list.
    fn placed(stop: Stop, index: usize) -> Stop
        ensures { IsMemory stop → IsMemory result };
}

fn copied(alloc: Global, name: &String) -> Result<String, AllocError>
    ensures { IfOk result (λ copy. string_bytes copy ≡ string_bytes name.now) }
{
    String::from_str(alloc, name.as_str())
}

impl Mirrored<NumberForm> for NamedNumber {
    ghost use Rattle.rasn_schema_octets.specs.Trees.{number_tree};

    ghost says = { number_tree };

    ghost is_shallow = { λ n. Unit {0} };

    fn from_form(_alloc: Global, form: NumberForm) -> Result<NamedNumber, Stop> {
        let NumberForm { name, number } = form;
        Ok(NamedNumber { name, number })
    }

    fn form(&self, alloc: Global) -> Result<NumberForm, Stop> {
        Ok(NumberForm {
            name: copied(alloc, &self.name)?,
            number: self.number,
        })
    }

    fn placed(stop: Stop, _index: usize) -> Stop {
        stop
    }
}

impl Mirrored<NameForm> for Alternative {
    ghost use Rattle.rasn_schema_octets.specs.Trees.{alternative_tree};

    ghost says = { alternative_tree };

    ghost is_shallow = { λ a. Unit {0} };

    fn from_form(_alloc: Global, form: NameForm) -> Result<Alternative, Stop> {
        let NameForm { name, type_id } = form;
        Ok(Alternative {
            name,
            type_id: TypeId(type_id),
        })
    }

    fn form(&self, alloc: Global) -> Result<NameForm, Stop> {
        Ok(NameForm {
            name: copied(alloc, &self.name)?,
            type_id: self.type_id.0,
        })
    }

    fn placed(stop: Stop, _index: usize) -> Stop {
        stop
    }
}

impl Mirrored<NameForm> for TypeName {
    ghost use Rattle.rasn_schema_octets.specs.Trees.{type_name_tree};

    ghost says = { type_name_tree };

    ghost is_shallow = { λ n. Unit {0} };

    fn from_form(_alloc: Global, form: NameForm) -> Result<TypeName, Stop> {
        let NameForm { name, type_id } = form;
        Ok(TypeName {
            name,
            type_id: TypeId(type_id),
        })
    }

    fn form(&self, alloc: Global) -> Result<NameForm, Stop> {
        Ok(NameForm {
            name: copied(alloc, &self.name)?,
            type_id: self.type_id.0,
        })
    }

    fn placed(stop: Stop, _index: usize) -> Stop {
        stop
    }
}

impl Mirrored<PresenceForm> for Presence {
    ghost use Rattle.rasn_schema_octets.specs.Trees.{presence_tree};
    ghost use Rattle.rasn_schema_octets.specs.Shallow.{IsShallowPresence};

    ghost says = { presence_tree };

    ghost is_shallow = { IsShallowPresence };

    fn from_form(alloc: Global, form: PresenceForm) -> Result<Presence, Stop> {
        match form {
            PresenceForm::Required(_) => Ok(Presence::Required),
            PresenceForm::Optional(_) => Ok(Presence::Optional),
            PresenceForm::Addition(_) => Ok(Presence::Addition),
            PresenceForm::Default(nodes) => Ok(Presence::Default(value_of(alloc, &nodes)?)),
        }
    }

    fn form(&self, alloc: Global) -> Result<PresenceForm, Stop> {
        match self {
            Presence::Required => Ok(PresenceForm::Required(Implicit::new(()))),
            Presence::Optional => Ok(PresenceForm::Optional(Implicit::new(()))),
            Presence::Addition => Ok(PresenceForm::Addition(Implicit::new(()))),
            Presence::Default(value) => {
                Ok(PresenceForm::Default(Implicit::new(value_nodes(alloc, value)?)))
            }
        }
    }

    fn placed(stop: Stop, _index: usize) -> Stop {
        stop
    }
}

impl Mirrored<ComponentForm> for Component {
    ghost use Rattle.rasn_schema_octets.specs.Trees.{component_tree};
    ghost use Rattle.rasn_schema_octets.specs.Shallow.{IsShallowPresence};

    ghost says = { component_tree };

    ghost is_shallow = { λ c. IsShallowPresence c.presence };

    fn from_form(alloc: Global, form: ComponentForm) -> Result<Component, Stop> {
        let ComponentForm {
            name,
            type_id,
            presence,
        } = form;
        Ok(Component {
            name,
            presence: Presence::from_form(alloc, presence)?,
            type_id: TypeId(type_id),
        })
    }

    fn form(&self, alloc: Global) -> Result<ComponentForm, Stop> {
        Ok(ComponentForm {
            name: copied(alloc, &self.name)?,
            type_id: self.type_id.0,
            presence: self.presence.form(alloc)?,
        })
    }

    fn placed(stop: Stop, index: usize) -> Stop {
        match stop {
            Stop::OutOfMemory => Stop::OutOfMemory,
            Stop::Default { id, .. } => Stop::Default { id, index },
        }
    }
}

fn leaf(alloc: Global, form: LeafForm) -> Result<Type, Stop>
    ensures { Makes type_tree IsShallowType (chosen 0 (leaf_form_tree form)) result }
{
    let LeafForm {
        kind,
        tag,
        constraints,
        names,
    } = form;
    Ok(Type::Leaf {
        kind: kind.kind,
        tag: tag.tag,
        constraints: constraints.constraints,
        names: parts_of(alloc, names)?,
    })
}

fn enumerated(alloc: Global, form: EnumeratedForm) -> Result<Type, Stop>
    ensures { Makes type_tree IsShallowType (chosen 1 (enumerated_form_tree form)) result }
{
    let EnumeratedForm { tag, numbers } = form;
    Ok(Type::Enumerated {
        tag: tag.tag,
        numbers: parts_of(alloc, numbers)?,
    })
}

fn choice(alloc: Global, form: ChoiceForm) -> Result<Type, Stop>
    ensures { Makes type_tree IsShallowType (chosen 4 (choice_form_tree form)) result }
{
    let ChoiceForm { name, alternatives } = form;
    Ok(Type::Choice {
        name,
        alternatives: parts_of(alloc, alternatives)?,
    })
}

fn sequence(alloc: Global, form: SequenceForm) -> Result<Type, Stop>
    ensures { Makes type_tree IsShallowType (chosen 5 (sequence_form_tree form)) result }
{
    let SequenceForm { tag, components } = form;
    Ok(Type::Sequence {
        tag: tag.tag,
        components: parts_of(alloc, components)?,
    })
}

fn set(alloc: Global, form: SetForm) -> Result<Type, Stop>
    ensures { Makes type_tree IsShallowType (chosen 6 (set_form_tree form)) result }
{
    let SetForm {
        name,
        tag,
        components,
    } = form;
    Ok(Type::Set {
        name,
        tag: tag.tag,
        components: parts_of(alloc, components)?,
    })
}

fn sequence_of(form: ElementsForm) -> Type
    ensures says { type_tree result ≡ chosen 7 (elements_form_tree form) }
    ensures shallow { IsShallowType result }
{
    Type::SequenceOf {
        tag: form.tag.tag,
        element: TypeId(form.element),
        constraints: form.constraints.constraints,
    }
}

fn set_of(form: ElementsForm) -> Type
    ensures says { type_tree result ≡ chosen 8 (elements_form_tree form) }
    ensures shallow { IsShallowType result }
{
    Type::SetOf {
        tag: form.tag.tag,
        element: TypeId(form.element),
        constraints: form.constraints.constraints,
    }
}

fn leaf_form(
    alloc: Global,
    kind: LeafKind,
    tag: Tag,
    constraints: Constraints,
    names: &Vec<NamedNumber>,
) -> Result<LeafForm, Stop>
    ensures { Forms leaf_form_tree (leaf_tree kind tag constraints names.now.items) (Unit {0}) result }
{
    Ok(LeafForm {
        kind: KindForm { kind },
        tag: TagForm { tag },
        constraints: ConstraintsForm { constraints },
        names: forms_of(alloc, names)?,
    })
}

fn elements_form(tag: Tag, element: TypeId, constraints: Constraints) -> ElementsForm
    ensures { elements_form_tree result ≡ elements_tree tag element constraints }
{
    ElementsForm {
        tag: TagForm { tag },
        element: element.0,
        constraints: ConstraintsForm { constraints },
    }
}

impl Mirrored<TypeForm> for Type {
    ghost use Rattle.rasn_schema_octets.specs.Trees.{type_tree};
    ghost use Rattle.rasn_schema_octets.specs.Shallow.{IsShallowType};

    ghost says = { type_tree };

    ghost is_shallow = { IsShallowType };

    fn from_form(alloc: Global, form: TypeForm) -> Result<Type, Stop> {
        match form {
            TypeForm::Leaf(form) => leaf(alloc, form.into_inner()),
            TypeForm::Enumerated(form) => enumerated(alloc, form.into_inner()),
            TypeForm::Any(form) => Ok(Type::Any {
                tag: form.into_inner().tag,
            }),
            TypeForm::Tagged(form) => {
                let TaggedForm { tag, inner } = form.into_inner();
                Ok(Type::Tagged {
                    tag: tag.tag,
                    inner: TypeId(inner),
                })
            }
            TypeForm::Choice(form) => choice(alloc, form.into_inner()),
            TypeForm::Sequence(form) => sequence(alloc, form.into_inner()),
            TypeForm::Set(form) => set(alloc, form.into_inner()),
            TypeForm::SequenceOf(form) => Ok(sequence_of(form.into_inner())),
            TypeForm::SetOf(form) => Ok(set_of(form.into_inner())),
            TypeForm::Unknown(_) => Ok(Type::Unknown),
        }
    }

    fn form(&self, alloc: Global) -> Result<TypeForm, Stop> {
        match self {
            Type::Leaf {
                kind,
                tag,
                constraints,
                names,
            } => {
                let form = leaf_form(alloc, *kind, *tag, *constraints, names)?;
                Ok(TypeForm::Leaf(Implicit::new(form)))
            }
            Type::Enumerated { tag, numbers } => {
                Ok(TypeForm::Enumerated(Implicit::new(EnumeratedForm {
                    tag: TagForm { tag: *tag },
                    numbers: forms_of(alloc, numbers)?,
                })))
            }
            Type::Any { tag } => Ok(TypeForm::Any(Explicit::new(TagForm { tag: *tag }))),
            Type::Tagged { tag, inner } => Ok(TypeForm::Tagged(Implicit::new(TaggedForm {
                tag: TagForm { tag: *tag },
                inner: inner.0,
            }))),
            Type::Choice { name, alternatives } => {
                Ok(TypeForm::Choice(Implicit::new(ChoiceForm {
                    name: copied(alloc, name)?,
                    alternatives: forms_of(alloc, alternatives)?,
                })))
            }
            Type::Sequence { tag, components } => {
                Ok(TypeForm::Sequence(Implicit::new(SequenceForm {
                    tag: TagForm { tag: *tag },
                    components: forms_of(alloc, components)?,
                })))
            }
            Type::Set {
                name,
                tag,
                components,
            } => Ok(TypeForm::Set(Implicit::new(SetForm {
                name: copied(alloc, name)?,
                tag: TagForm { tag: *tag },
                components: forms_of(alloc, components)?,
            }))),
            Type::SequenceOf {
                tag,
                element,
                constraints,
            } => Ok(TypeForm::SequenceOf(Implicit::new(elements_form(
                *tag,
                *element,
                *constraints,
            )))),
            Type::SetOf {
                tag,
                element,
                constraints,
            } => Ok(TypeForm::SetOf(Implicit::new(elements_form(*tag, *element, *constraints)))),
            Type::Unknown => Ok(TypeForm::Unknown(Implicit::new(()))),
        }
    }

    fn placed(stop: Stop, index: usize) -> Stop {
        match stop {
            Stop::OutOfMemory => Stop::OutOfMemory,
            Stop::Default {
                index: component,
                ..
            } => Stop::Default {
                id: TypeId(index),
                index: component,
            },
        }
    }
}
