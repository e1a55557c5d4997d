//! What names mean (X.680 13.12 to 13.16).
ghost use Rattle.std.specs.Prelude.{IfOk, IsTrue};
ghost use Rattle.rasn_compiler.specs.Sources.{HasModule};

use crate::fault::{Fault, Halt, Problem};
use crate::given::is_given;
use crate::modules::{Modules, Source};
use crate::position::Position;
use crate::resolver::mark::Mark;
use crate::resolver::node::Place;
use crate::tree::{Assigned, Assignment, Base, Import, Meaning, Module, Type};

/// What a name of a module is.
#[derive(Clone, Copy)]
enum Found<'modules, 'text> {
    Assigned(&'modules Assignment<'text>),
    Imported(&'modules Import<'text>),
}

/// How many names may lead to one another.
pub(crate) const MAX_NAMES: usize = 256;

/// What names have that more lead to.
pub(crate) const TOO_MANY_NAMES: &str = "256 names that lead to one another";

impl<'text> Modules<'text> {
    /// Returns a fault in a module.
    pub(crate) fn fault(
        &self,
        module: usize,
        position: Position,
        problem: Problem<'text>,
    ) -> Halt<'text> {
        let source = match self.module_at(module) {
            Some(found) => found.source,
            None => "",
        };
        let fault = Fault {
            source,
            position,
            problem,
        };
        Halt::of(self.alloc, fault)
    }

    /// Returns the source of a part of a module's text.
    pub(crate) fn source_of(&self, module: usize, text: &'text str) -> Source<'text> {
        let name = match self.module_at(module) {
            Some(found) => found.source,
            None => "",
        };
        Source { name, text }
    }

    /// Returns a type of a module.
    pub(crate) fn type_at(&self, module: usize, index: usize) -> Result<&Type<'text>, Halt<'text>> {
        if let Some(found) = self.module_at(module) {
            if let Some(ty) = found.types.get(index) {
                return Ok(ty);
            }
        }
        Err(self.fault(module, Position::START, Problem::Expected("a type")))
    }

    /// Returns what a name means in a module, with the module that it is in. `outside` is the
    /// module that is written before the name.
    pub(crate) fn meaning(
        &self,
        module: usize,
        outside: Option<&'text str>,
        name: &'text str,
        position: Position,
    ) -> Result<(usize, Assignment<'text>), Halt<'text>> {
        let mut at = match outside {
            Some(outside) => self.loaded(module, outside, module, position)?,
            None => module,
        };
        let mut mark = Mark::new(Place::of(at), 0);
        for _ in 0..MAX_NAMES {
            match self.found_in(at, name) {
                Some(Found::Assigned(assignment)) => return Ok((at, *assignment)),
                Some(Found::Imported(import)) => {
                    at = self.loaded(at, import.module, module, position)?;
                }
                None if is_given(name) && outside.is_none() && at != self.modules.len() => {
                    at = self.modules.len();
                }
                None => return Err(self.fault(module, position, Problem::Undefined(name))),
            }
            if mark.is_again(Place::of(at), 0) {
                return Err(self.fault(module, position, Problem::Endless(name)));
            }
        }
        Err(self.fault(module, position, Problem::Beyond(TOO_MANY_NAMES)))
    }

    /// Returns what a name is in a module.
    fn found_in(&self, module: usize, name: &str) -> Option<Found<'_, 'text>> {
        let found = self.module_at(module)?;
        match found.meanings.get(name)? {
            Meaning::Assigned(index) => Some(Found::Assigned(found.assignments.get(*index)?)),
            Meaning::Imported(index) => Some(Found::Imported(found.imports.get(*index)?)),
        }
    }

    /// Returns the index of the module to which a module refers by this name. Built-in modules refer
    /// to built-in ones alone. A fault is at a position in `module`.
    fn loaded(
        &self,
        from: usize,
        name: &'text str,
        module: usize,
        position: Position,
    ) -> Result<usize, Halt<'text>> {
        let found = if self.is_built_in(from) {
            self.built_in_index_of(name)
        } else {
            self.index_of(name)
        };
        match found {
            Some(index) => Ok(index),
            None => Err(self.fault(module, position, Problem::NotLoaded(name))),
        }
    }

    /// Returns a type of a module, and its name.
    pub(crate) fn type_named(
        &self,
        module: &str,
        name: &str,
    ) -> Result<(usize, &'text str, Position), Halt<'text>>
        ensures { IfOk result (λ found. HasModule self.now.modules.items «module».now) }
    {
        let problem = Problem::Expected("the name of a module");
        let Some(index) = self.index_of(module) else {
            return Err(self.fault(usize::MAX, Position::START, problem));
        };
        let Some(found) = self.modules.get(index) else {
            return Err(self.fault(index, Position::START, problem));
        };
        match known_name(found, name) {
            Some(known) => Ok((index, known, found.position)),
            None => {
                let problem = Problem::Expected("a type of the name that was asked for");
                Err(self.fault(index, found.position, problem))
            }
        }
    }
}

impl<'text> Modules<'text> {
    /// Returns whether a name of a module is that of a class, also by way of other names (X.681
    /// 9.2). A module that wasn't read has none.
    pub fn is_class(&self, module: &str, name: &str) -> bool
        ensures { IsTrue result → HasModule self.now.modules.items «module».now }
    {
        match self.type_named(module, name) {
            Ok((index, known, position)) => self.is_class_at(index, None, known, position),
            Err(_) => false,
        }
    }

    /// Returns whether a name, as it is used in the module with this index, is that of a class.
    /// `outside` is the module that is written before it.
    pub(crate) fn is_class_at(
        &self,
        index: usize,
        outside: Option<&'text str>,
        name: &'text str,
        position: Position,
    ) -> bool {
        let mut at = index;
        let mut outside = outside;
        let mut name = name;
        for _ in 0..MAX_NAMES {
            let Ok((found, assignment)) = self.meaning(at, outside, name, position) else {
                return false;
            };
            match self.name_of(found, assignment.assigned) {
                Some((module, next)) => {
                    at = found;
                    outside = module;
                    name = next;
                }
                None => return matches!(assignment.assigned, Assigned::Class { .. }),
            }
        }
        false
    }

    /// Returns the name that an assignment is another one for.
    fn name_of(
        &self,
        module: usize,
        assigned: Assigned<'text>,
    ) -> Option<(Option<&'text str>, &'text str)> {
        let Assigned::Type(of) = assigned else {
            return None;
        };
        let Base::Reference { module, name, .. } = &self.module_at(module)?.types.get(of.0)?.base
        else {
            return None;
        };
        Some((*module, *name))
    }
}

/// Returns the name as it is in the text of a module, if it means something there.
fn known_name<'text>(module: &Module<'text>, name: &str) -> Option<&'text str> {
    match module.meanings.get(name)? {
        Meaning::Assigned(index) => Some(module.assignments.get(*index)?.name),
        Meaning::Imported(index) => symbol_named(module.imports.get(*index)?, name),
    }
}

/// Returns the symbol of this name, as it is in the text.
fn symbol_named<'text>(import: &Import<'text>, name: &str) -> Option<&'text str> {
    for symbol in &import.symbols {
        if symbol.name == name {
            return Some(symbol.name);
        }
    }
    None
}
