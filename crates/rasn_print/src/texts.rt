//! Which of the texts of this repository's modules are read.

use crate::standards::{COUNT, MODULES, REACHED, standard};
use rasn_compiler::{Modules, Source};
use std::alloc::{AllocError, Global};

/// For each text of this repository, whether it is read.
#[derive(Clone, Copy)]
pub(crate) struct Texts([bool; COUNT]);

impl Texts {
    /// All texts.
    pub(crate) const ALL: Texts = Texts([true; COUNT]);

    /// No text.
    pub(crate) const NONE: Texts = Texts([false; COUNT]);

    /// Adds the text with this number.
    fn add(&mut self, number: usize) {
        if let Some(is_read) = self.0.get_mut(number) {
            *is_read = true;
        }
    }

    /// Adds the text with this number and those that its modules refer to.
    fn add_reached(&mut self, number: usize) {
        for number in REACHED.get(number).copied().unwrap_or(&[]) {
            self.add(*number);
        }
    }

    /// Adds the text of a module alone.
    pub(crate) fn add_alone(&mut self, module: &str) {
        for (name, number) in MODULES {
            if *name == module {
                self.add(*number);
            }
        }
    }

    /// Adds the text of a module and those that it refers to.
    pub(crate) fn add_module(&mut self, module: &str) {
        for (name, number) in MODULES {
            if *name == module {
                self.add_reached(*number);
            }
        }
    }

    /// Adds the texts that assign a type to this name, perhaps with that of a module before it, and
    /// those that they refer to. Each assignment begins a line (`.ci/standards` sees to that).
    pub(crate) fn add_assigned(&mut self, alloc: Global, name: &str) -> Result<(), AllocError> {
        let (_, name) = name.split_once('.').unwrap_or(("", name));
        let assignment = format!(in alloc; "\n{name} ::= ")?;
        for number in 0..COUNT {
            if let Some((_, text)) = standard(number) {
                if text.contains(assignment.as_str()) {
                    self.add_reached(number);
                }
            }
        }
        Ok(())
    }

    /// Returns the modules of these texts and then of those that are read.
    pub(crate) fn modules<'text>(
        &self,
        alloc: Global,
        own: &[Source<'text>],
    ) -> Result<Modules<'text>, AllocError> {
        let mut sources = Vec::from_slice(alloc, own)?;
        for (number, is_read) in self.0.iter().enumerate() {
            if let (true, Some((name, text))) = (*is_read, standard(number)) {
                sources.push(Source { name, text })?;
            }
        }
        Modules::parse_with_built_in(alloc, sources.as_slice(), own.len())
    }
}
