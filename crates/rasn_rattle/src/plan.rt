//! The names of types, and of their files.
ghost use Rattle.std.specs.Prelude.{◌≡◌, true};
ghost use Rattle.std.specs.String.{string_bytes};
ghost use Rattle.rasn_rattle.specs.Words.{is_name, is_word};

use crate::kinds::{has_file, is_extensible};
use crate::members::{Member, inner_of, members_of};
use crate::options::Options;
use crate::twins::is_same_but_tag;
use crate::words::{camel, snake};
use rasn_schema::{Schema, Type, TypeId, type_at};
use rasn_types::types::{Class, Tag};
use std::alloc::{AllocError, Global};
use std::collections::{BTreeMap, BTreeSet};

/// The names of a type that has a file of its own.
#[derive(Drop)]
pub(crate) struct Naming {
    /// Its name in the notation.
    pub(crate) notation: String,
    /// The name of its struct, enum or alias.
    pub(crate) rust: String,
    /// The name of its file.
    pub(crate) file: String,
    ghost name: { is_name (string_bytes rust) ≡ true },
    ghost word: { is_word (string_bytes file) ≡ true },
}

/// A schema whose types have names.
#[derive(Drop)]
pub(crate) struct Plan<'schema> {
    pub(crate) alloc: Global,
    pub(crate) schema: &'schema Schema,
    /// How the crate is written.
    pub(crate) options: &'schema Options,
    /// The types that have a file, by their numbers.
    pub(crate) names: BTreeMap<usize, Naming>,
    /// The types that are another one under another tag, which has a file.
    pub(crate) twins: BTreeMap<usize, usize>,
    /// The types with a name that are another one under another tag, as `[0] IMPLICIT Account`.
    pub(crate) retagged: BTreeMap<usize, usize>,
    /// The types as a module.
    pub(crate) module: String,
    /// The lines of each type in the module, by its name.
    pub(crate) lines: BTreeMap<String, String>,
    /// The types that files are written for.
    pub(crate) reached: BTreeSet<usize>,
    /// The types whose values hold a GeneralizedTime.
    pub(crate) timed: BTreeSet<usize>,
    /// The types that other crates have, with the names of these.
    pub(crate) foreign: BTreeMap<usize, String>,
    /// What has no type.
    none: &'schema Type,
    /// The names that are taken, in small letters.
    used: BTreeSet<String>,
}

impl<'schema> Plan<'schema> {
    /// Names each type of the schema that a file is written for.
    pub(crate) fn new(
        options: &'schema Options,
        schema: &'schema Schema,
        none: &'schema Type,
    ) -> Result<Plan<'schema>, AllocError> {
        let alloc = options.alloc;
        let mut plan = Plan {
            alloc,
            schema,
            options,
            names: BTreeMap::new(alloc),
            twins: BTreeMap::new(alloc),
            retagged: BTreeMap::new(alloc),
            module: String::new(alloc),
            lines: BTreeMap::new(alloc),
            reached: BTreeSet::new(alloc),
            timed: BTreeSet::new(alloc),
            foreign: BTreeMap::new(alloc),
            none,
            used: BTreeSet::new(alloc),
        };
        plan.reserve_also()?;
        plan.add_known()?;
        plan.add_twins()?;
        plan.add_parts()?;
        plan.add_others()?;
        Ok(plan)
    }

    /// Returns the type with this number.
    pub(crate) fn type_of(&self, id: usize) -> &'schema Type {
        type_at(self.schema.types(), TypeId(id)).unwrap_or(self.none)
    }

    /// Returns the names of the Rattle type and of the file of a type.
    pub(crate) fn names_of(&self, id: usize) -> (&str, &str) {
        match self.names.get(&id) {
            Some(naming) => (naming.rust.as_str(), naming.file.as_str()),
            None => ("Any", "any"),
        }
    }

    /// Returns the name of the crate that has a type, if it is another one.
    pub(crate) fn foreign_crate(&self, id: usize) -> Option<&str> {
        match self.foreign.get(&id) {
            Some(name) => Some(name.as_str()),
            None => None,
        }
    }

    /// Returns whether a type is written as an open type because an option says so.
    pub(crate) fn is_opened(&self, id: usize) -> bool {
        match self.names.get(&id) {
            Some(naming) => self.options.is_opened(naming.notation.as_str()),
            None => false,
        }
    }

    /// Returns the type that this one is under another tag, or itself.
    pub(crate) fn twin_or_self(&self, id: usize) -> usize {
        self.twins.get(&id).copied().unwrap_or(id)
    }

    /// Takes the names of the files that aren't those of types.
    fn reserve_also(&mut self) -> Result<(), AllocError> {
        self.used.insert(String::from_str(self.alloc, "schema")?)?;
        for name in &self.options.also {
            let small = self.small(name.as_str())?;
            self.used.insert(small)?;
        }
        Ok(())
    }

    /// Adds the names that the schema has for its types.
    fn add_known(&mut self) -> Result<(), AllocError> {
        if let Some(known) = &self.schema.names {
            for named in known {
                self.add(named.type_id.0, named.name.as_str())?;
            }
        }
        Ok(())
    }

    /// Finds the types that are named ones under other tags.
    fn add_twins(&mut self) -> Result<(), AllocError> {
        for (id, ty) in self.schema.types().iter().enumerate() {
            if has_file(ty) && !self.is_opened(id) {
                if let Some(twin) = self.twin_of(ty) {
                    self.add_twin(id, twin)?;
                }
            }
        }
        Ok(())
    }

    /// Adds that a type is another one, which has a name, under another tag. One with a name of its
    /// own is that only if the other one has a universal tag.
    fn add_twin(&mut self, id: usize, twin: usize) -> Result<(), AllocError> {
        if !self.names.contains_key(&id) {
            self.twins.insert(id, twin)?;
            return Ok(());
        }
        let is_own = self.type_of(id).tag().class == Class::Universal;
        if !is_own && self.type_of(twin).tag().class == Class::Universal {
            self.retagged.insert(id, twin)?;
        }
        Ok(())
    }

    /// Returns the type with a name that differs from this one in its tag alone, if there is one:
    /// the only one with a universal tag, or else the only one with another tag.
    fn twin_of(&self, ty: &Type) -> Option<usize> {
        self.only_twin(ty, true).or(self.only_twin(ty, false))
    }

    /// Returns the only type with a name that differs from this one in its tag alone, among those
    /// with a universal tag or those with another. A CHOICE loses its name under an explicit tag. A
    /// universal tag can't be put in place of another one, and a type with such a tag is taken for
    /// one that is wanted.
    fn only_twin(&self, ty: &Type, is_universal: bool) -> Option<usize> {
        let mut only: Option<usize> = None;
        for (id, other) in self.schema.types().iter().enumerate() {
            let is_near = ty.tag() == Tag::EOC
                || ty.tag().class != Class::Universal
                || ty.tag() == other.tag() && self.is_wanted(id);
            if is_near
                && self.names.contains_key(&id)
                && is_universal == (other.tag().class == Class::Universal)
                && is_same_but_tag(ty, other)
            {
                if only.is_some() {
                    return None;
                }
                only = Some(id);
            }
        }
        only
    }

    /// Names the parts of types that have a name, from the highest number on.
    fn add_parts(&mut self) -> Result<(), AllocError> {
        let count = self.schema.types().len();
        for id in (0..count).rev() {
            if !self.retagged.contains_key(&id) {
                self.add_parts_of(id)?;
            }
        }
        Ok(())
    }

    /// Names what a type is made of, after the type and the part.
    fn add_parts_of(&mut self, id: usize) -> Result<(), AllocError> {
        let members = members_of(self.alloc, self.type_of(id))?;
        for member in &members {
            self.add_part(id, member)?;
        }
        Ok(())
    }

    /// Names the type of a part, or the first within it that a file is written for.
    fn add_part(&mut self, of: usize, part: &Member<'_>) -> Result<(), AllocError> {
        let mut id = part.type_id.0;
        for _ in 0..self.schema.types().len() {
            if self.names.contains_key(&id) || self.twins.contains_key(&id) {
                return Ok(());
            }
            let ty = self.type_of(id);
            if has_file(ty) {
                return self.add_named_after(of, part.name, id);
            }
            match inner_of(ty) {
                Some(inner) => id = inner.0,
                None => return Ok(()),
            }
        }
        Ok(())
    }

    /// Names a type after the type and the part that it is of.
    fn add_named_after(&mut self, of: usize, part: &str, id: usize) -> Result<(), AllocError> {
        let name = match self.names.get(&of) {
            Some(naming) => format!(in self.alloc; "{}-{part}", naming.notation.as_str())?,
            None => return Ok(()),
        };
        self.add(id, name.as_str())
    }

    /// Names what is left.
    fn add_others(&mut self) -> Result<(), AllocError> {
        for (id, ty) in self.schema.types().iter().enumerate() {
            if has_file(ty) && !self.twins.contains_key(&id) {
                let name = format!(in self.alloc; "Type-{id}")?;
                self.add(id, name.as_str())?;
            }
        }
        Ok(())
    }

    /// Adds a name for the type with this number, if it has none, with a number if it is taken.
    fn add(&mut self, id: usize, name: &str) -> Result<(), AllocError> {
        if self.names.contains_key(&id) {
            return Ok(());
        }
        let mut notation = String::from_str(self.alloc, name)?;
        for suffix in 2..self.names.len().saturating_add(3) {
            let small = self.small(notation.as_str())?;
            if !self.used.contains(small.as_str()) {
                break;
            }
            notation = format!(in self.alloc; "{name}-{suffix}")?;
        }
        let small = self.small(notation.as_str())?;
        if is_extensible(self.type_of(id)) {
            self.used.insert(format!(in self.alloc; "{small}name")?)?;
        }
        self.used.insert(small)?;
        let naming = Naming {
            rust: camel(self.alloc, notation.as_str())?,
            file: snake(self.alloc, notation.as_str())?,
            notation,
        };
        self.names.insert(id, naming)?;
        Ok(())
    }

    /// Returns the name of the Rattle type for a notation's name in small letters, since names that
    /// differ in capitals alone can't be in one crate.
    fn small(&self, notation: &str) -> Result<String, AllocError> {
        let rust = camel(self.alloc, notation)?;
        rust.as_str().to_ascii_lowercase(self.alloc)
    }
}
