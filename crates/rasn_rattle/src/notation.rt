//! The notation of types and parts (X.680), for documentation.
use crate::laws::Laws;
use crate::layout::{comment, import};
use crate::plan::Plan;
use crate::tags::{add_tag, notation_of_tag};
use crate::template::Values;
use rasn_schema::TypeId;
use rasn_types::types::Tag;
use std::alloc::AllocError;

impl<'schema> Plan<'schema> {
    /// Returns the notation of a type, in a line or its beginning, or its name if the module
    /// doesn't have it, as EXTERNAL (X.680 37.5).
    pub(crate) fn notation_of(&self, id: usize) -> Result<String, AllocError> {
        if let (Some(twin), Some(naming)) = (self.retagged.get(&id), self.names.get(&id)) {
            let shown = self.shown_twin(self.type_of(id).tag(), *twin)?;
            return format!(in self.alloc; "`{} ::= {shown}`", naming.notation.as_str());
        }
        let line = self.lines_of(id).lines().next().unwrap_or("");
        if line.is_empty() {
            let (name, _file) = self.names_of(id);
            return format!(in self.alloc; "`{name}`");
        }
        let line = line.strip_suffix(" {").unwrap_or(line);
        format!(in self.alloc; "`{line}`")
    }

    /// Returns the values of the names that are in the templates of all types: those of the type
    /// and its file, its notation and its tag.
    pub(crate) fn values_of(&self, id: usize) -> Result<Values, AllocError> {
        let (name, file) = self.names_of(id);
        let notation = self.notation_of(id)?;
        let mut values = Values::new(self.alloc);
        values.add_str("Name", name);
        values.add_str("file", file);
        values.add_str("crate", self.options.crate_name.as_str());
        values.add("head", comment(self.alloc, "//!", notation.as_str()));
        values.add("doc", comment(self.alloc, "///", notation.as_str()));
        add_tag(&mut values, self.type_of(id).tag());
        Ok(values)
    }

    /// Returns the lines of a type in the module.
    fn lines_of(&self, id: usize) -> &str {
        let Some(naming) = self.names.get(&id) else {
            return "";
        };
        match self.lines.get(naming.notation.as_str()) {
            Some(lines) => lines.as_str(),
            None => "",
        }
    }

    /// Finds the lines of each type in the module.
    pub(crate) fn find_lines(&mut self) -> Result<(), AllocError> {
        let mut name = String::new(self.alloc);
        let mut lines = String::new(self.alloc);
        for line in self.module.as_str().lines() {
            if let Some((next, _type)) = line.split_once(" ::= ") {
                self.lines.insert(name, lines)?;
                name = String::from_str(self.alloc, next)?;
                lines = String::new(self.alloc);
            }
            writeln!(lines, "{line}")?;
        }
        self.lines.insert(name, lines)?;
        Ok(())
    }

    /// Returns the notation of a part, as a comment of its field.
    pub(crate) fn part_notation(
        &self,
        id: usize,
        name: &str,
        part_id: TypeId,
    ) -> Result<String, AllocError> {
        let line = self.part_line(id, name);
        let shown = self.part_shown(name, line, part_id.0)?;
        let text = format!(in self.alloc; "`{shown}`")?;
        comment(self.alloc, "    ///", text.as_str())
    }

    /// Returns the line of a part in the module.
    fn part_line<'text>(&'text self, id: usize, name: &'text str) -> &'text str {
        for line in self.lines_of(id).lines().skip(1) {
            let Some(part) = line.strip_prefix("    ") else {
                break;
            };
            let part = part.strip_suffix(" }").unwrap_or(part);
            let part = part.strip_suffix(',').unwrap_or(part);
            if let Some(after) = part.strip_prefix(name) {
                if after.is_empty() || after.starts_with(' ') {
                    return part;
                }
            }
        }
        name
    }

    /// Returns the line of a part, with the name of its type if it is another one under a tag.
    fn part_shown(&self, name: &str, line: &str, part_id: usize) -> Result<String, AllocError> {
        if !self.twins.contains_key(&part_id) {
            return String::from_str(self.alloc, line);
        }
        let shown = self.shown_unnamed(part_id, name)?;
        if line.ends_with(" OPTIONAL") {
            return format!(in self.alloc; "{name} {shown} OPTIONAL");
        }
        match line.rsplit_once(" DEFAULT ") {
            Some((_before, value)) => format!(in self.alloc; "{name} {shown} DEFAULT {value}"),
            None => format!(in self.alloc; "{name} {shown}"),
        }
    }

    /// Returns the comment of a part that leads back to the type that it is a part of.
    pub(crate) fn leads_back(&self, id: usize, part: TypeId) -> Result<&'static str, AllocError> {
        Ok(if self.leads_to(part.0, id)? {
            "    /// leads back to this type, which is an open type here.\n"
        } else {
            ""
        })
    }

    /// Puts notations in place of the names that types without one have in the module, from the
    /// last type on.
    pub(crate) fn show_unnamed(&mut self) -> Result<(), AllocError> {
        let count = self.schema.types().len();
        for id in (0..count).rev() {
            let name = format!(in self.alloc; "Type-{id}")?;
            if !self.names.contains_key(&id) && self.lines.contains_key(name.as_str()) {
                let shown = self.shown_unnamed(id, name.as_str())?;
                let module = self.module.as_str();
                self.module = module.replace(self.alloc, name.as_str(), shown.as_str())?;
            }
        }
        Ok(())
    }

    /// Returns the notation of a type without a name, or nothing if it isn't in the module.
    fn shown_unnamed(&self, id: usize, name: &str) -> Result<String, AllocError> {
        if let Some(twin) = self.twins.get(&id) {
            return self.shown_twin(self.type_of(id).tag(), *twin);
        }
        for line in self.module.as_str().lines() {
            if let Some(after) = line.strip_prefix(name) {
                if let Some(shown) = after.strip_prefix(" ::= ") {
                    return String::from_str(self.alloc, shown);
                }
            }
        }
        Ok(String::new(self.alloc))
    }

    /// Returns the notation of a type that has a name under another tag.
    fn shown_twin(&self, tag: Tag, twin: usize) -> Result<String, AllocError> {
        let name = match self.names.get(&twin) {
            Some(naming) => naming.notation.as_str(),
            None => "",
        };
        if tag == Tag::EOC {
            return String::from_str(self.alloc, name);
        }
        let tag = notation_of_tag(self.alloc, tag)?;
        format!(in self.alloc; "{tag} IMPLICIT {name}")
    }

    /// Returns the lines that import what a file uses.
    pub(crate) fn imports_of(
        &self,
        laws: &Laws,
        has_defaults: bool,
        is_choice: bool,
    ) -> Result<String, AllocError> {
        let mut text = String::new(self.alloc);
        if !laws.types.is_empty() {
            text.push_str(import(self.alloc, "crate", laws.types.as_str())?.as_str())?;
        }
        if is_choice {
            text.push_str("use rasn::parts::OneOf::{Other, This};\n")?;
        }
        text.push_str("use rasn::prelude::*;\n")?;
        for (crate_name, types) in laws.foreign.iter() {
            text.push_str(import(self.alloc, crate_name, types)?.as_str())?;
        }
        if has_defaults {
            text.push_str("use std::alloc::{AllocError, Global};\n")?;
        }
        Ok(text)
    }
}
