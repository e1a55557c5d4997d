//! Modules (X.680 13).
ghost use Rattle.std.specs.Prelude.{◌≡◌, ◌<◌, length, IfOk, OnOk};

use crate::fault::{Fault, Halt, Problem};
use crate::parser::Parser;
use crate::position::Position;
use crate::token::Kind;
use crate::tree::{Assignment, Import, Meaning, Module, Symbol, Tagging, Unread};
use std::alloc::{AllocError, Global};
use std::collections::{BTreeMap, BTreeSet};
use std::mem;

/// What is before a module's imports (X.680 13.1).
#[derive(Clone, Copy)]
struct Head<'text> {
    name: &'text str,
    position: Position,
    identifier: Option<Unread<'text>>,
    tagging: Tagging,
    is_extensible: bool,
}

/// The assignments of a module that were read, and their names.
#[derive(Drop)]
struct Assignments<'text> {
    list: Vec<Assignment<'text>>,
    names: BTreeSet<&'text str>,
}

impl<'tokens, 'text> Parser<'tokens, 'text> {
    /// Reads a module of the text with this name. The faults of its assignments are added.
    pub(crate) fn module(
        &mut self,
        source: &'text str,
        faults: &mut Vec<Fault<'text>>,
    ) -> Result<Module<'text>, Halt<'text>>
        ensures { IfOk result (λ m. m.source.now ≡ source.now) }
    {
        let head = self.head()?;
        let exports = self.exports(faults)?;
        let imports = self.imports()?;
        let assignments = self.assignments(faults)?;
        Ok(self.made(source, &head, exports, imports, assignments)?)
    }

    /// Returns a module of what was read.
    fn made(
        &mut self,
        source: &'text str,
        head: &Head<'text>,
        exports: Option<Vec<Symbol<'text>>>,
        imports: Vec<Import<'text>>,
        assignments: Vec<Assignment<'text>>,
    ) -> Result<Module<'text>, AllocError>
        ensures { IfOk result (λ m. m.source.now ≡ source.now) }
    {
        let meanings = meanings(self.alloc, &imports, &assignments)?;
        Ok(Module {
            source,
            name: head.name,
            position: head.position,
            identifier: head.identifier,
            tagging: head.tagging,
            is_extensible: head.is_extensible,
            exports,
            imports,
            types: mem::replace(&mut self.types, Vec::new(self.alloc)),
            assignments,
            meanings,
        })
    }

    /// Reads a module's name and what follows it, up to BEGIN.
    fn head(&mut self) -> Result<Head<'text>, Halt<'text>> {
        let position = self.position();
        let name = self.expect_kind(Kind::Upper, "a module's name")?;
        let identifier = self.braces()?;
        // The identifier as an IRI.
        if self.peek() == Kind::Text {
            self.skip(1);
        }
        let (tagging, is_extensible) = self.defaults()?;
        Ok(Head {
            name,
            position,
            identifier,
            tagging,
            is_extensible,
        })
    }

    /// Reads DEFINITIONS and what follows it, up to BEGIN.
    fn defaults(&mut self) -> Result<(Tagging, bool), Halt<'text>> {
        self.expect("DEFINITIONS")?;
        let tagging = self.tagging()?;
        let is_extensible = self.extensibility()?;
        self.expect("::=")?;
        self.expect("BEGIN")?;
        Ok((tagging, is_extensible))
    }

    /// Reads the module's default of tags (X.680 13.2).
    fn tagging(&mut self) -> Result<Tagging, Halt<'text>> {
        let tagging = if self.eat("EXPLICIT") {
            Tagging::Explicit
        } else if self.eat("IMPLICIT") {
            Tagging::Implicit
        } else if self.eat("AUTOMATIC") {
            Tagging::Automatic
        } else {
            return Ok(Tagging::Explicit);
        };
        self.expect("TAGS")?;
        Ok(tagging)
    }

    /// Reads EXTENSIBILITY IMPLIED (X.680 13.4).
    fn extensibility(&mut self) -> Result<bool, Halt<'text>> {
        if !self.eat("EXTENSIBILITY") {
            return Ok(false);
        }
        self.expect("IMPLIED")?;
        Ok(true)
    }

    /// Reads assignments up to END.
    fn assignments(
        &mut self,
        faults: &mut Vec<Fault<'text>>,
    ) -> Result<Vec<Assignment<'text>>, Halt<'text>> {
        let mut found = Assignments {
            list: Vec::new(self.alloc),
            names: BTreeSet::new(self.alloc),
        };
        for _ in 0..self.rest.len() {
            if self.eat("END") {
                return Ok(found.list);
            }
            if self.rest.is_empty() {
                break;
            }
            self.next_assignment(&mut found, faults)?;
        }
        faults.push(Fault {
            source: self.source.name,
            position: self.end,
            problem: Problem::Broken("END is missing (X.680 13.1)"),
        })?;
        Ok(found.list)
    }

    /// Reads an assignment, or its fault, and goes on after it. At least one item is taken.
    fn next_assignment(
        &mut self,
        found: &mut Assignments<'text>,
        faults: &mut Vec<Fault<'text>>,
    ) -> Result<(), AllocError>
        requires { 0 < length self.old.rest.now }
        ensures { OnOk result (length self.new.rest.now < length self.old.rest.now) }
    {
        let start = self.rest;
        match self.assignment() {
            Ok(assignment) => self.add(assignment, found, faults)?,
            Err(Halt::OutOfMemory) => return Err(AllocError),
            Err(Halt::Fault(fault)) => {
                faults.push(*fault)?;
                if self.rest.len() == start.len() {
                    self.skip(1);
                }
                self.skip_to_assignment();
            }
        }
        self.make_progress(start);
        Ok(())
    }

    /// Adds an assignment, or the fault of one to a name that has another (X.680 16).
    fn add(
        &self,
        assignment: Assignment<'text>,
        found: &mut Assignments<'text>,
        faults: &mut Vec<Fault<'text>>,
    ) -> Result<(), AllocError> {
        if found.names.insert(assignment.name)? {
            found.list.push(assignment)?;
        } else {
            faults.push(Fault {
                source: self.source.name,
                position: assignment.position,
                problem: Problem::Broken("two assignments to the same name (X.680 16)"),
            })?;
        }
        Ok(())
    }
}

/// Returns what each name of a module means. An assignment counts before one of the same name that
/// is imported.
fn meanings(
    alloc: Global,
    imports: &[Import<'_>],
    assignments: &[Assignment<'_>],
) -> Result<BTreeMap<String, Meaning>, AllocError> {
    let mut meanings = BTreeMap::new(alloc);
    for (index, assignment) in assignments.iter().enumerate() {
        add_meaning(
            alloc,
            &mut meanings,
            assignment.name,
            Meaning::Assigned(index),
        )?;
    }
    for (index, import) in imports.iter().enumerate() {
        for symbol in &import.symbols {
            add_meaning(alloc, &mut meanings, symbol.name, Meaning::Imported(index))?;
        }
    }
    Ok(meanings)
}

/// Adds what a name means, unless something else is known of it.
fn add_meaning(
    alloc: Global,
    meanings: &mut BTreeMap<String, Meaning>,
    name: &str,
    meaning: Meaning,
) -> Result<(), AllocError> {
    if !meanings.contains_key(name) {
        meanings.insert(String::from_str(alloc, name)?, meaning)?;
    }
    Ok(())
}
