//! References and tags that are followed (X.680 16.3, 31.2).
use crate::fault::Halt;
use crate::modules::Modules;
use crate::resolver::lookup::{MAX_NAMES, TOO_MANY_NAMES};
use crate::resolver::mark::Mark;
use crate::resolver::node::{Asked, Place, Tags, Unfolded, Use};
use crate::resolver::reference::{Next, steps_of, written_name};
use crate::resolver::shape::{Resolver, prefix};
use crate::tags::{MAX_TAGS, TOO_MANY_TAGS};
use crate::tree::{Base, Tag as WrittenTag, TagClass, Tagging, Type, Unread};
use rasn_types::types::{Class, Tag};
use std::alloc::{AllocError, Global};

impl Tags {
    fn new(alloc: Global) -> Tags {
        Tags {
            explicit: Vec::new(alloc),
            implicit: None,
            is_automatic: false,
        }
    }

    /// Adds an automatic tag (X.680 25.7, 29.2).
    fn add_automatic(&mut self, number: Option<u32>) -> Result<(), AllocError> {
        if let Some(number) = number {
            self.add(context(number), false)?;
            self.is_automatic = true;
        }
        Ok(())
    }

    /// Makes the tag that would replace the next one a tag of its own.
    fn close(&mut self) -> Result<(), AllocError> {
        if let Some(tag) = self.implicit {
            self.explicit.push(tag)?;
            self.implicit = None;
        }
        Ok(())
    }

    /// Adds a tag within those that are known: an implicit one before it replaces it (X.680
    /// 31.2.7).
    fn add(&mut self, tag: Tag, is_explicit: bool) -> Result<(), AllocError> {
        let outer = self.implicit.unwrap_or(tag);
        if is_explicit {
            self.explicit.push(outer)?;
            self.implicit = None;
        } else {
            self.implicit = Some(outer);
        }
        Ok(())
    }
}

impl<'text> Unfolded<'text> {
    /// Returns a type of which no reference was followed.
    fn new(alloc: Global, start: Use) -> Result<Unfolded<'text>, AllocError> {
        let mut tags = Tags::new(alloc);
        tags.add_automatic(start.automatic)?;
        Ok(Unfolded {
            same: start,
            same_name: None,
            name: None,
            tags,
            constraints: Vec::new(alloc),
            place: start.place,
            index: start.index,
        })
    }

    /// Adds the constraints of a type on the way, of which the last one is the outermost.
    fn add_constraints(&mut self, constraints: &[Unread<'text>]) -> Result<(), AllocError> {
        for constraint in constraints.iter().rev() {
            self.constraints.push((self.place, *constraint))?;
        }
        Ok(())
    }

    /// Follows a reference. The target is the same type if no tag or constraint was added.
    fn go_to(&mut self, alloc: Global, next: Next<'text>) -> Result<(), AllocError> {
        self.place = next.place;
        self.index = next.index;
        self.name = next.name.or(self.name);
        if let Some(members) = next.members {
            self.constraints.push((next.place, members))?;
        }
        if self.constraints.is_empty()
            && self.tags.implicit.is_none()
            && self.tags.explicit.len() == self.same.peeled
        {
            self.same = Use {
                automatic: next.automatic,
                ..Use::of(next.place, next.index)
            };
            self.same_name = if next.place.scope == 0 {
                next.name
            } else {
                None
            };
            self.tags = Tags::new(alloc);
        }
        self.tags.add_automatic(next.automatic)
    }
}

impl<'modules, 'text> Resolver<'modules, 'text> {
    /// Returns the type that a use means, and what it is called.
    pub(crate) fn asked(&mut self, of: Use, name: &'text str) -> Result<Asked<'text>, Halt<'text>> {
        let unfolded = self.unfold(of)?;
        let is_closed = of.is_closed && self.is_extensible_choice(&unfolded)?;
        Ok(Asked {
            of: Use {
                is_closed,
                ..unfolded.same
            },
            name: unfolded.same_name.or(unfolded.name).unwrap_or(name),
            is_named: unfolded.same_name.is_some(),
        })
    }

    /// Returns whether a type is a CHOICE that no tag is around and to which a newer version may add
    /// alternatives (X.680 29).
    fn is_extensible_choice(&mut self, unfolded: &Unfolded<'text>) -> Result<bool, Halt<'text>> {
        let place = unfolded.place;
        let modules = self.modules;
        let Base::Choice(list) = &modules.type_at(place.module, unfolded.index)?.base else {
            return Ok(false);
        };
        if prefix(unfolded, unfolded.same.peeled, true).is_some() {
            return Ok(false);
        }
        self.is_growing(place, list.as_slice())
    }

    /// Follows the references of a type to one that is none.
    pub(crate) fn unfold(&mut self, start: Use) -> Result<Unfolded<'text>, Halt<'text>> {
        let mut found = Unfolded::new(self.alloc, start)?;
        let position = self
            .modules
            .type_at(start.place.module, start.index)?
            .position;
        let mut mark = Mark::new(start.place, start.index);
        for _ in 0..MAX_NAMES {
            let written = self.modules.type_at(found.place.module, found.index)?;
            if !self.follow(&mut found)? {
                return Ok(found);
            }
            if mark.is_again(found.place, found.index) {
                return Err(self.endless(start.place, position, written_name(&written.base)));
            }
        }
        Err(self.beyond(start.place, position, TOO_MANY_NAMES))
    }

    /// Follows a reference, and returns whether there was one.
    fn follow(&mut self, found: &mut Unfolded<'text>) -> Result<bool, Halt<'text>> {
        let ty = self.modules.type_at(found.place.module, found.index)?;
        self.step(steps_of(ty), found.place, ty.position)?;
        self.add_tags(found.place, ty, &mut found.tags)?;
        found.add_constraints(ty.constraints.as_slice())?;
        match self.next(found.place, ty)? {
            Some(next) => {
                found.go_to(self.alloc, next)?;
                Ok(true)
            }
            None => Ok(false),
        }
    }

    /// Adds the tags that are before a type. One that is right before a parameter's name is
    /// explicit (X.680 31.2.7).
    fn add_tags(
        &mut self,
        place: Place,
        ty: &Type<'text>,
        tags: &mut Tags,
    ) -> Result<(), Halt<'text>> {
        for written in &ty.tags {
            let tag = self.tag(place, *written)?;
            let is_explicit = match written.tagging {
                Some(tagging) => tagging == Tagging::Explicit,
                None => self.modules.tagging(place.module) == Tagging::Explicit,
            };
            tags.add(tag, is_explicit)?;
            if tags.explicit.len() > MAX_TAGS {
                return Err(self.beyond(place, written.position, TOO_MANY_TAGS));
            }
        }
        let is_tagged = !ty.tags.is_empty() || tags.is_automatic;
        tags.is_automatic = false;
        if is_tagged && self.bound_type(place, &ty.base).is_some() {
            tags.close()?;
        }
        Ok(())
    }

    /// Returns a tag as it is written (X.680 31.2.1).
    fn tag(&mut self, place: Place, written: WrittenTag<'text>) -> Result<Tag, Halt<'text>> {
        let number = self.number(place, written.number, &[], place, written.position)?;
        let class = match written.class {
            TagClass::Universal => Class::Universal,
            TagClass::Application => Class::Application,
            TagClass::Context => Class::Context,
            TagClass::Private => Class::Private,
        };
        match u32::try_from(number) {
            Ok(value) => Ok(Tag { class, value }),
            Err(_) => {
                let what = "a tag's number outside 0..4294967295";
                Err(self.unsupported(place, written.position, what))
            }
        }
    }
}

impl Modules<'_> {
    /// Returns what a tag without IMPLICIT or EXPLICIT is in a module.
    pub(crate) fn tagging(&self, module: usize) -> Tagging {
        match self.module_at(module) {
            Some(found) => found.tagging,
            None => Tagging::Explicit,
        }
    }

    /// Returns whether a module has EXTENSIBILITY IMPLIED in its head (X.680 13.4).
    pub(crate) fn is_extensible(&self, module: usize) -> bool {
        match self.module_at(module) {
            Some(found) => found.is_extensible,
            None => false,
        }
    }
}

/// Returns a tag of the context-specific class.
fn context(number: u32) -> Tag {
    Tag {
        class: Class::Context,
        value: number,
    }
}
