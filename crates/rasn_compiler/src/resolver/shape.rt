//! Types whose references were followed.
use crate::fault::Halt;
use crate::modules::Modules;
use crate::position::Position;
use crate::resolver::components::Components;
use crate::resolver::enumerated::Enumeration;
use crate::resolver::leaf::{Plain, plain_type, universal};
use crate::resolver::node::{Asked, Place, Shape, Unfolded, Use};
use crate::resolver::scope::Scope;
use crate::steps::Steps;
use crate::tree::{Base, Builtin, Component, ListOf, NamedNumber, Type as Written};
use crate::types::Within;
use rasn_schema::{LeafKind, Type, TypeId};
use rasn_types::types::{Constraints, Tag};
use std::alloc::{AllocError, Global};

/// The modules in which types are resolved.
#[derive(Drop)]
pub(crate) struct Resolver<'modules, 'text> {
    pub(crate) alloc: Global,
    pub(crate) modules: &'modules Modules<'text>,
    /// How many constraints were found that a schema doesn't check.
    pub(crate) unchecked: usize,
    /// What parameters are given.
    pub(crate) scopes: Vec<Scope<'text>>,
    /// The steps that are left.
    pub(crate) steps: Steps,
}

impl<'modules, 'text> Resolver<'modules, 'text> {
    /// Counts constraints that a schema doesn't check.
    pub(crate) fn count_unchecked(&mut self, count: usize) {
        self.unchecked = self.unchecked.saturating_add(count);
    }

    /// Takes so many steps for what is at a place.
    ///
    /// # Errors
    /// If so many aren't left.
    pub(crate) fn step(
        &mut self,
        count: usize,
        place: Place,
        position: Position,
    ) -> Result<(), Halt<'text>> {
        if self.steps.take(count) {
            Ok(())
        } else {
            Err(self.out_of_steps(place, position))
        }
    }

    /// Resolves a type.
    pub(crate) fn shape(&mut self, asked: Asked<'text>) -> Result<Shape<'text>, Halt<'text>> {
        let unfolded = self.unfold(asked.of)?;
        let written = self.modules.type_at(unfolded.place.module, unfolded.index)?;
        match prefix(&unfolded, asked.of.peeled, is_untagged(written)) {
            Some(tag) => Ok(self.tagged(tag, asked.of)),
            None => self.inner(&unfolded, written, asked.name),
        }
    }

    /// Returns a type within an explicit tag (X.680 31.2.7).
    fn tagged(&self, tag: Tag, of: Use) -> Shape<'text> {
        let within = Use {
            peeled: of.peeled.saturating_add(1),
            is_closed: false,
            ..of
        };
        Shape {
            ty: Type::Tagged {
                tag,
                inner: TypeId(0),
            },
            parts: Vec::new(self.alloc),
            is_extensible: false,
            inner: Some(within),
        }
    }

    /// Resolves a type within its explicit tags.
    fn inner(
        &mut self,
        unfolded: &Unfolded<'text>,
        written: &Written<'text>,
        name: &'text str,
    ) -> Result<Shape<'text>, Halt<'text>> {
        match &written.base {
            Base::Sequence(list) => {
                self.made_of(unfolded, name, list.as_slice(), Within::Sequence)
            }
            Base::Set(list) => self.made_of(unfolded, name, list.as_slice(), Within::Set),
            Base::Choice(list) => self.made_of(unfolded, name, list.as_slice(), Within::Choice),
            Base::SequenceOf(list) => self.list_of(unfolded, *list, false),
            Base::SetOf(list) => self.list_of(unfolded, *list, true),
            other => {
                let ty = self.leaf(unfolded, other, written.position)?;
                Ok(Shape::alone(self.alloc, ty))
            }
        }
    }

    /// Resolves a type that has components or alternatives.
    fn made_of(
        &mut self,
        unfolded: &Unfolded<'text>,
        name: &str,
        list: &[Component<'text>],
        within: Within,
    ) -> Result<Shape<'text>, Halt<'text>> {
        self.count_unchecked(unfolded.constraints.len());
        let position = self
            .modules
            .type_at(unfolded.place.module, unfolded.index)?
            .position;
        self.step(name.len(), unfolded.place, position)?;
        let Components {
            parts,
            is_extensible,
        } = self.components(unfolded.place, list, within)?;
        Ok(Shape {
            ty: type_within(self.alloc, unfolded, name, within)?,
            parts,
            is_extensible,
            inner: None,
        })
    }

    /// Resolves SEQUENCE OF or SET OF, with the bounds of its size (X.680 26, 28).
    fn list_of(
        &mut self,
        unfolded: &Unfolded<'text>,
        list: ListOf<'text>,
        is_set: bool,
    ) -> Result<Shape<'text>, Halt<'text>> {
        let constraints = self.size_bounds(unfolded, list.size)?;
        let element = TypeId(0);
        let ty = if is_set {
            Type::SetOf {
                tag: own_tag(unfolded, 17),
                element,
                constraints,
            }
        } else {
            Type::SequenceOf {
                tag: own_tag(unfolded, 16),
                element,
                constraints,
            }
        };
        Ok(Shape {
            ty,
            parts: Vec::new(self.alloc),
            is_extensible: false,
            inner: Some(Use::of(unfolded.place, list.element.0)),
        })
    }

    /// Resolves a type that is made of no others.
    fn leaf(
        &mut self,
        unfolded: &Unfolded<'text>,
        base: &Base<'text>,
        position: Position,
    ) -> Result<Type, Halt<'text>> {
        match base {
            Base::Builtin(builtin) => self.builtin(unfolded, *builtin),
            Base::Integer(names) => self.integer(unfolded, names.as_slice(), position),
            Base::BitString(names) => self.bit_string(unfolded, names.as_slice(), position),
            Base::Enumerated(names) => self.enumerated(unfolded, names.as_slice(), position),
            other if is_open(other) => {
                self.count_unchecked(unfolded.constraints.len());
                Ok(Type::Any { tag: Tag::EOC })
            }
            _ => Err(self.unsupported(unfolded.place, position, "such a type")),
        }
    }

    /// Resolves an INTEGER (X.680 19).
    fn integer(
        &mut self,
        unfolded: &Unfolded<'text>,
        names: &[NamedNumber<'text>],
        position: Position,
    ) -> Result<Type, Halt<'text>> {
        let constraints = self.value_bounds(unfolded, names)?;
        Ok(Type::Leaf {
            kind: LeafKind::Integer,
            tag: own_tag(unfolded, 2),
            constraints,
            names: self.numbered(unfolded.place, names, position)?,
        })
    }

    /// Resolves a BIT STRING, whose bits may have names (X.680 22).
    fn bit_string(
        &mut self,
        unfolded: &Unfolded<'text>,
        names: &[NamedNumber<'text>],
        position: Position,
    ) -> Result<Type, Halt<'text>> {
        let kind = if names.is_empty() {
            LeafKind::BitString
        } else {
            LeafKind::NamedBits
        };
        Ok(Type::Leaf {
            kind,
            tag: own_tag(unfolded, 3),
            constraints: self.size_bounds(unfolded, None)?,
            names: self.numbered(unfolded.place, names, position)?,
        })
    }

    /// Resolves an ENUMERATED (X.680 20). One with a marker has any number of 64 bits, since a
    /// newer version may name others.
    fn enumerated(
        &mut self,
        unfolded: &Unfolded<'text>,
        names: &[NamedNumber<'text>],
        position: Position,
    ) -> Result<Type, Halt<'text>> {
        self.count_unchecked(unfolded.constraints.len());
        let tag = own_tag(unfolded, 10);
        let Enumeration {
            numbers,
            is_extensible,
        } = self.enumeration(unfolded.place, names, position)?;
        if !is_extensible {
            return Ok(Type::Enumerated { tag, numbers });
        }
        Ok(Type::Leaf {
            kind: LeafKind::Signed64,
            tag,
            constraints: Constraints::NONE,
            names: numbers,
        })
    }

    /// Resolves a type that reserved words name.
    fn builtin(
        &mut self,
        unfolded: &Unfolded<'text>,
        builtin: Builtin,
    ) -> Result<Type, Halt<'text>> {
        match plain_type(builtin) {
            Plain::Leaf(kind) => self.plain_leaf(unfolded, kind, kind.names().number),
            Plain::Octets(number) => self.plain_leaf(unfolded, LeafKind::AnyOctets, number),
            Plain::Unparsed(kind, number) => {
                self.count_unchecked(1);
                self.plain_leaf(unfolded, kind, number)
            }
            Plain::Unseen(number) => {
                self.count_unchecked(1);
                Ok(Type::Any {
                    tag: own_tag(unfolded, number),
                })
            }
            Plain::Open => {
                self.count_unchecked(unfolded.constraints.len());
                Ok(Type::Any { tag: Tag::EOC })
            }
        }
    }

    /// Resolves a type whose values hold no others, without names. Its universal tag has this
    /// number.
    fn plain_leaf(
        &mut self,
        unfolded: &Unfolded<'text>,
        kind: LeafKind,
        number: u32,
    ) -> Result<Type, Halt<'text>> {
        Ok(Type::Leaf {
            kind,
            tag: own_tag(unfolded, number),
            constraints: self.size_bounds(unfolded, None)?,
            names: Vec::new(self.alloc),
        })
    }
}

/// Returns the explicit tag around what is left of a type once so many are taken off. A CHOICE or
/// an open type can't have an implicit one (X.680 31.2.7).
pub(crate) fn prefix(unfolded: &Unfolded<'_>, peeled: usize, is_untagged: bool) -> Option<Tag> {
    let explicit = unfolded.tags.explicit.len();
    if peeled == explicit && is_untagged {
        return unfolded.tags.implicit;
    }
    unfolded.tags.explicit.get(peeled).copied()
}

/// Returns whether a type has no tag of its own.
pub(crate) fn is_untagged(written: &Written<'_>) -> bool {
    match &written.base {
        Base::Choice(_) => true,
        base => is_open(base),
    }
}

/// Returns whether a type is an open one: ANY, ANY DEFINED BY, or what a class's field is if that
/// has no type (X.681 14.2).
pub(crate) fn is_open(base: &Base<'_>) -> bool {
    matches!(
        base,
        Base::AnyDefinedBy(_) | Base::ClassField { .. } | Base::Builtin(Builtin::Any)
    )
}

/// Returns the tag of a type: the implicit one, or its universal one.
pub(crate) fn own_tag(unfolded: &Unfolded<'_>, number: u32) -> Tag {
    match unfolded.tags.implicit {
        Some(tag) => tag,
        None => universal(number),
    }
}

/// Returns a type without its components or alternatives.
fn type_within(
    alloc: Global,
    unfolded: &Unfolded<'_>,
    name: &str,
    within: Within,
) -> Result<Type, AllocError> {
    Ok(match within {
        Within::Sequence => Type::Sequence {
            tag: own_tag(unfolded, 16),
            components: Vec::new(alloc),
        },
        Within::Set => Type::Set {
            name: String::from_str(alloc, name)?,
            tag: own_tag(unfolded, 17),
            components: Vec::new(alloc),
        },
        Within::Choice => Type::Choice {
            name: String::from_str(alloc, name)?,
            alternatives: Vec::new(alloc),
        },
    })
}
