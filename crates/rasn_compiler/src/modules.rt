//! Texts of modules.
ghost use Rattle.std.specs.Prelude.{◌≡◌, [], ◌∷◌, ◌++◌, IfOk, OnOk, IfSome, Some, slice_get};
ghost use Rattle.rasn_compiler.specs.declared.tree.Module.{Module};
ghost use Rattle.rasn_types.specs.Truth.{IsWhether};
ghost use Rattle.rasn_compiler.specs.Sources.{HasName, AreOf};

use crate::fault::{Fault, Halt};
use crate::given::given;
use crate::lexer::tokens;
use crate::parser::Parser;
use crate::position::Position;
use crate::tree::Module;
use std::alloc::{AllocError, Global};
use std::collections::BTreeMap;

/// A text, with the name that faults have for it, as that of its file.
#[derive(Clone, Copy)]
pub struct Source<'text> {
    pub name: &'text str,
    pub text: &'text str,
}

/// Modules that were read, and the faults of what couldn't be read.
#[derive(Drop)]
pub struct Modules<'text> {
    pub(crate) alloc: Global,
    pub modules: Vec<Module<'text>>,
    /// One for each assignment at most, in the order of the texts.
    pub faults: Vec<Fault<'text>>,
    /// The index of the first module of each name, of those that aren't built in.
    names: BTreeMap<String, usize>,
    /// The index of the first built-in module of each name.
    built_in: BTreeMap<String, usize>,
    /// The number of modules that aren't built in: the first ones.
    own: usize,
    /// What every module may use.
    given: Option<Module<'text>>,
}

impl<'text> Modules<'text> {
    /// Reads all modules of these texts (X.680 13). Each has the name of its text. An assignment or
    /// a module that can't be read is left out, and its fault is in `faults`.
    ///
    /// # Errors
    /// `AllocError` if memory runs out.
    ///
    /// # Examples
    /// ```
    /// let source = Source {
    ///     name: "names.asn1",
    ///     text: "Names DEFINITIONS ::= BEGIN \
    ///         Person ::= SEQUENCE { name IA5String, ok BOOLEAN } END",
    /// };
    /// let modules = Modules::parse(alloc, &[source])?;
    /// // `modules` has the module Names, and `modules.faults` is empty
    /// ```
    pub fn parse(alloc: Global, sources: &[Source<'text>]) -> Result<Modules<'text>, AllocError>
        ensures { IfOk result (λ read. AreOf sources.now read.modules.items) }
    {
        Modules::parse_with_built_in(alloc, sources, sources.len())
    }

    /// Reads all modules of these texts, as [`Modules::parse`] does. Those after the first ones, as
    /// many as `own`, are built in: they refer to built-in modules alone, whatever the others are
    /// called, and others refer to a built-in one if none of them has its name.
    ///
    /// # Errors
    /// `AllocError` if memory runs out.
    pub fn parse_with_built_in(
        alloc: Global,
        sources: &[Source<'text>],
        own: usize,
    ) -> Result<Modules<'text>, AllocError>
        ensures { IfOk result (λ read. AreOf sources.now read.modules.items) }
    {
        let mut read = Modules {
            alloc,
            modules: Vec::new(alloc),
            faults: Vec::new(alloc),
            names: BTreeMap::new(alloc),
            built_in: BTreeMap::new(alloc),
            own: 0,
            given: given(alloc)?,
        };
        for (index, source) in sources.iter().enumerate() {
            read.read(alloc, *source, index >= own)?;
        }
        Ok(read)
    }

    /// Adds the modules of a text.
    fn read(
        &mut self,
        alloc: Global,
        source: Source<'text>,
        are_built_in: bool,
    ) -> Result<(), AllocError>
        ensures { (all : _) → HasName all source.entry.name.now → AreOf all self.old.modules.items → OnOk result (AreOf all self.new.modules.items) }
    {
        let tokens = tokens(alloc, source.text, Position::START)?;
        let mut parser = Parser {
            alloc,
            source,
            rest: tokens.as_slice(),
            end: Position::START.after(source.text),
            types: Vec::new(alloc),
        };
        for _ in 0..tokens.len() {
            if parser.rest.is_empty() {
                break;
            }
            self.read_module(alloc, source.name, &mut parser, are_built_in)?;
        }
        Ok(())
    }

    /// Adds the next module of the text with this name, or its fault.
    fn read_module(
        &mut self,
        alloc: Global,
        source: &'text str,
        parser: &mut Parser<'_, 'text>,
        is_built_in: bool,
    ) -> Result<(), AllocError>
        ensures { (all : _) → HasName all source.now → AreOf all self.old.modules.items → OnOk result (AreOf all self.new.modules.items) }
    {
        match parser.module(source, &mut self.faults) {
            Ok(added) => {
                self.add(alloc, added, is_built_in)?;
                Ok(())
            }
            Err(Halt::OutOfMemory) => Err(AllocError),
            Err(Halt::Fault(fault)) => {
                self.faults.push(*fault)?;
                parser.skip(1);
                parser.skip_to_module();
                Ok(())
            }
        }
    }

    /// Adds a module.
    fn add(
        &mut self,
        alloc: Global,
        added: Module<'text>,
        is_built_in: bool,
    ) -> Result<(), AllocError>
        ensures { OnOk result (self.new.modules.items ≡ self.old.modules.items ++ added.entry ∷ []) }
    {
        let index = self.modules.len();
        if is_built_in {
            add_name(alloc, &mut self.built_in, added.name, index)?;
        } else {
            add_name(alloc, &mut self.names, added.name, index)?;
            self.own = index.saturating_add(1);
        }
        self.modules.push(added)?;
        Ok(())
    }

    /// Returns whether the module with this index is built in.
    pub(crate) fn is_built_in(&self, index: usize) -> bool {
        index >= self.own
    }

    /// Returns a module by its index. What every module may use has the index after the last.
    pub(crate) fn module_at(&self, index: usize) -> Option<&Module<'text>> {
        if index == self.modules.len() {
            self.given.as_ref()
        } else {
            self.modules.get(index)
        }
    }

    /// Returns the name of a module.
    pub(crate) fn name_of_module(&self, index: usize) -> &'text str {
        match self.modules.get(index) {
            Some(module) => module.name,
            None => "",
        }
    }

    /// Returns the index of the first module with this name, of a built-in one if no other has it.
    pub(crate) fn index_of(&self, name: &str) -> Option<usize>
        ensures { IfSome result (λ k. (m : Module) × (Some m ≡ slice_get self.now.modules.items k) × (m.name.now ≡ name.now)) }
    {
        match self.named(&self.names, name) {
            Some(index) => Some(index),
            None => self.named(&self.built_in, name),
        }
    }

    /// Returns the index of the first built-in module with this name.
    pub(crate) fn built_in_index_of(&self, name: &str) -> Option<usize>
        ensures { IfSome result (λ k. (m : Module) × (Some m ≡ slice_get self.now.modules.items k) × (m.name.now ≡ name.now)) }
    {
        self.named(&self.built_in, name)
    }

    /// Returns the index that these names have for the module with this name.
    fn named(&self, names: &BTreeMap<String, usize>, name: &str) -> Option<usize>
        ensures { IfSome result (λ k. (m : Module) × (Some m ≡ slice_get self.now.modules.items k) × (m.name.now ≡ name.now)) }
    {
        let index = *names.get(name)?;
        let module = self.modules.get(index)?;
        if has_name(module, name) {
            Some(index)
        } else {
            None
        }
    }
}

/// Adds the index of a module with this name, unless one is known.
fn add_name(
    alloc: Global,
    names: &mut BTreeMap<String, usize>,
    name: &str,
    index: usize,
) -> Result<(), AllocError> {
    if !names.contains_key(name) {
        names.insert(String::from_str(alloc, name)?, index)?;
    }
    Ok(())
}

/// Returns whether this is the module's name.
fn has_name(found: &Module<'_>, name: &str) -> bool
    ensures { IsWhether result (found.now.name.now ≡ name.now) }
{
    found.name == name
}
