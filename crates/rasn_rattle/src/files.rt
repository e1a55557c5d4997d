//! The files of a crate.
ghost use Rattle.std.specs.Prelude.{◌≡◌, true, codes, IfOk};
ghost use Rattle.std.specs.String.{string_bytes};
ghost use Rattle.rasn_rattle.specs.Files.{EndsWithLib};
ghost use Rattle.rasn_rattle.specs.Words.{is_word};

use crate::held_types::Held;
use crate::kinds::{is_alias, is_extensible};
use crate::layout::comment;
use crate::options::Options;
use crate::output::File;
use crate::plan::{Naming, Plan};
use crate::tags::tag_type;
use crate::template::push_times;
use rasn_compiler::notation_of;
use rasn_schema::{Schema, Type, TypeId, TypeName};
use rasn_types::types::Tag;
use std::alloc::{AllocError, Global};
use std::collections::BTreeMap;

/// The type of a list of any components.
pub(crate) const OPEN_LIST: &str = "Vec<Any>";

/// Returns the files of a crate: a file for each wanted type among these, and for what it is made of,
/// and at last `lib`, which lists the others.
/// A type that can't be written is an open type, and a comment in its file says why.
///
/// # Errors
/// `AllocError` if memory runs out.
pub fn crate_files(options: &Options, held: Held) -> Result<Vec<File>, AllocError>
    ensures { IfOk result (λ files. EndsWithLib files.items) }
{
    let alloc = options.alloc;
    let Held {
        schema,
        wanted,
        foreign,
        modules,
    } = held;
    let names = notation_names(options, &schema)?;
    let schema = schema.with_names(names);
    let module = format!(in alloc; "{}", notation_of(alloc, &schema)?)?;
    let none = Type::Unknown;
    let mut plan = Plan::new(options, &schema, &none)?;
    plan.module = module;
    plan.foreign = plan.foreign_by(foreign.as_slice())?;
    plan.reached = plan.reached_by(wanted.as_slice())?;
    plan.find_timed()?;
    plan.find_lines()?;
    plan.show_unnamed()?;
    plan.find_lines()?;
    plan.files(modules.as_str())
}

/// Returns names for all types that a file is written for.
fn notation_names(options: &Options, schema: &Schema) -> Result<Vec<TypeName>, AllocError> {
    let none = Type::Unknown;
    let alloc = options.alloc;
    let plan = Plan::new(options, schema, &none)?;
    let mut names = Vec::new(alloc);
    for (id, naming) in plan.names.iter() {
        names.push(TypeName {
            name: String::from_str(alloc, naming.notation.as_str())?,
            type_id: TypeId(*id),
        })?;
    }
    Ok(names)
}

/// Files, and what the file that lists them has of each.
#[derive(Drop)]
struct Files {
    /// The first lines of each file, which say that it is written, and from which modules.
    head: String,
    files: Vec<File>,
    /// The lines that name the files, in the order of their names.
    mods: BTreeMap<String, String>,
    /// The lines that name what other crates may use of them, in the order of the formatter, in
    /// which `_` precedes letters and digits.
    uses: BTreeMap<String, String>,
}

impl Files {
    /// Adds a file, of which other crates may use what is shown.
    fn push(&mut self, alloc: Global, file: File, shown: &str) -> Result<(), AllocError> {
        let name = file.name.as_str();
        let line = format!(in alloc; "mod {name};\n")?;
        self.mods.insert(String::from_str(alloc, name)?, line)?;
        let line = format!(in alloc; "pub use {name}::{shown};\n")?;
        self.uses.insert(name.replace(alloc, "_", "!")?, line)?;
        let mut file = file;
        file.text = self.headed(alloc, file.text.as_str())?;
        self.files.push(file)?;
        Ok(())
    }

    /// Returns the text of a file after what each file begins with.
    fn headed(&self, alloc: Global, text: &str) -> Result<String, AllocError> {
        let head = self.head.as_str();
        format!(in alloc; "{head}{text}")
    }

    /// Adds that the crate has files that are written by hand.
    fn push_also(&mut self, alloc: Global, options: &Options) -> Result<(), AllocError> {
        for name in &options.also {
            let line = format!(in alloc; "pub mod {};\n", name.as_str())?;
            self.mods
                .insert(String::from_str(alloc, name.as_str())?, line)?;
        }
        Ok(())
    }

    /// Returns whether the text of a file has a word in it.
    fn have(&self, word: &str) -> bool {
        self.files
            .iter()
            .any(|file| file.text.as_str().contains(word))
    }

    /// Returns the text of the file that lists the others.
    fn lib_text(&self, alloc: Global, modules: &str) -> Result<String, AllocError> {
        let about = format!(in alloc; "Types of the ASN.1 of {modules}.")?;
        let about = comment(alloc, "//!", about.as_str())?;
        let head = format!(in alloc; "{about}#![tactic(auto)]\n\n")?;
        let mut text = self.headed(alloc, head.as_str())?;
        push_values(&mut text, &self.mods)?;
        text.push('\n')?;
        push_values(&mut text, &self.uses)?;
        Ok(text)
    }
}

/// Returns what each file begins with that is written from these modules.
fn head_of(alloc: Global, modules: &str) -> Result<String, AllocError> {
    let origin = format!(in alloc;
        "Written by `soqavise generate` from the ASN.1 of {modules}: change that, and write it again."
    )?;
    comment(alloc, "//", origin.as_str())
}

/// Adds the values of a map.
fn push_values(text: &mut String, lines: &BTreeMap<String, String>) -> Result<(), AllocError> {
    for (_key, line) in lines.iter() {
        text.push_str(line.as_str())?;
    }
    Ok(())
}

impl Plan<'_> {
    /// Returns the files, which are written from these modules.
    fn files(&self, modules: &str) -> Result<Vec<File>, AllocError>
        ensures { IfOk result (λ files. EndsWithLib files.items) }
    {
        let mut written = self.type_files(modules)?;
        written.push_also(self.alloc, self.options)?;
        self.push_open(&mut written, "OpenSequence", "open_sequence", Tag::SEQUENCE)?;
        self.push_open(&mut written, "OpenSet", "open_set", Tag::SET)?;
        let schema = File {
            name: String::from_str(self.alloc, "schema")?,
            text: self.static_text()?,
            answers: Vec::new(self.alloc),
            reason: None,
        };
        written.push(self.alloc, schema, "TYPES")?;
        let lib = self.lib_file(&written, modules)?;
        let Files { mut files, .. } = written;
        files.push(lib)?;
        Ok(files)
    }

    /// Returns the file that lists the others.
    fn lib_file(&self, written: &Files, modules: &str) -> Result<File, AllocError>
        ensures { IfOk result (λ file. string_bytes file.name ≡ codes "lib") }
    {
        Ok(File {
            name: String::from_str(self.alloc, "lib")?,
            text: written.lib_text(self.alloc, modules)?,
            answers: Vec::new(self.alloc),
            reason: None,
        })
    }

    /// Returns the files of types.
    fn type_files(&self, modules: &str) -> Result<Files, AllocError> {
        let mut written = Files {
            head: head_of(self.alloc, modules)?,
            files: Vec::new(self.alloc),
            mods: BTreeMap::new(self.alloc),
            uses: BTreeMap::new(self.alloc),
        };
        for (id, naming) in self.names.iter() {
            if self.reached.contains(id) && !self.foreign.contains_key(id) {
                let file = self.file_of(*id, naming)?;
                let shown = self.shown_of(*id, naming.rust.as_str())?;
                written.push(self.alloc, file, shown.as_str())?;
            }
        }
        Ok(written)
    }

    /// Returns the file of a type.
    fn file_of(&self, id: usize, naming: &Naming) -> Result<File, AllocError> {
        let text = self.with_message(id, self.text_of(id)?)?;
        let name = String::from_str(self.alloc, naming.file.as_str())?;
        let answers = self.answers_of(id, naming)?;
        let reason = self.reason_to_tell(id)?;
        Ok(File {
            name,
            text,
            answers,
            reason,
        })
    }

    /// Returns why a type is written as an open type, if it is and no option names it.
    fn reason_to_tell(&self, id: usize) -> Result<Option<&'static str>, AllocError> {
        if self.is_opened(id) {
            return Ok(None);
        }
        self.reason_against(id)
    }

    /// Returns what other crates may use of the file of a type with this name.
    fn shown_of(&self, id: usize, name: &str) -> Result<String, AllocError> {
        if is_extensible(self.type_of(id)) {
            return format!(in self.alloc; "{{{name}, {name}Name}}");
        }
        String::from_str(self.alloc, name)
    }

    /// Returns the text of the file of a type.
    fn text_of(&self, id: usize) -> Result<String, AllocError> {
        if let Some(reason) = self.reason_against(id)? {
            return self.open_text(id, reason);
        }
        if let Some(twin) = self.retagged.get(&id) {
            return self.retagged_text(id, *twin);
        }
        let ty = self.type_of(id);
        match ty {
            Type::Sequence { .. } | Type::Set { .. } => self.struct_text(id),
            Type::Choice { .. } => self.choice_text(id),
            Type::Enumerated { numbers, .. } => self.enumerated_text(id, numbers),
            Type::Leaf { names, .. } if is_extensible(ty) => self.extensible_text(id, names),
            _ if is_alias(ty) => self.alias_text(id, ty),
            _ => self.constrained_text(id),
        }
    }

    /// Returns the text of the file of another name of a type.
    fn alias_text(&self, id: usize, ty: &Type) -> Result<String, AllocError> {
        let laws = self.laws_of(id)?;
        let imports = self.imports_of(&laws, false, false)?;
        let mut text = String::new(self.alloc);
        let (opened, inner) = self.push_unnamed(&mut text, ty)?;
        if let Some(inner) = inner {
            text.push_str(self.expression(id, TypeId(inner))?.as_str())?;
        }
        push_times(&mut text, ">", opened)?;
        let values = self.values_of(id)?;
        let (head, doc) = (values.value_of("head"), values.value_of("doc"));
        let (name, _file) = self.names_of(id);
        format!(in self.alloc; "{head}{imports}\n{doc}pub type {name} = {text};\n")
    }

    /// Returns the text of the file of a type that is another one under another tag.
    fn retagged_text(&self, id: usize, twin: usize) -> Result<String, AllocError> {
        let tag = tag_type(self.alloc, self.type_of(id).tag())?;
        let (inner, _file) = self.names_of(twin);
        let imports = match self.foreign_crate(twin) {
            Some(from) => format!(in self.alloc; "use rasn::prelude::*;\nuse {from}::{inner};\n")?,
            None => format!(in self.alloc; "use crate::{inner};\nuse rasn::prelude::*;\n")?,
        };
        let values = self.values_of(id)?;
        let (head, doc) = (values.value_of("head"), values.value_of("doc"));
        let (name, _file) = self.names_of(id);
        format!(in self.alloc;
            "{head}{imports}\n{doc}pub type {name} = Implicit<{tag}, {inner}>;\n"
        )
    }

    /// Returns the text of the file of a type that is written as an open type, and why.
    fn open_text(&self, id: usize, reason: &str) -> Result<String, AllocError> {
        let tag = self.type_of(id).tag();
        let (name, _file) = self.names_of(id);
        if tag != Tag::EOC {
            let notation = self.notation_of(id)?;
            let inner = self.open_word_of(id);
            return self.octets_text(name, inner, tag, notation.as_str(), reason);
        }
        let values = self.values_of(id)?;
        let (head, doc) = (values.value_of("head"), values.value_of("doc"));
        let mut text = format!(in self.alloc; "{head}use rasn::prelude::*;\n\n{doc}///\n")?;
        write!(
            text,
            "/// It is an open type, since {reason}.\npub type {name} = Any;\n"
        )?;
        Ok(text)
    }

    /// Returns the type of the values of a type that is written as an open type: of a SEQUENCE that
    /// an option names any components, and else any octets.
    pub(crate) fn open_word_of(&self, id: usize) -> &'static str {
        match self.type_of(id) {
            Type::Sequence { .. } if self.is_opened(id) => OPEN_LIST,
            _ => "Any",
        }
    }

    /// Adds a file of an open type if a text names it.
    fn push_open(
        &self,
        written: &mut Files,
        word: &str,
        name: &str,
        tag: Tag,
    ) -> Result<(), AllocError>
        requires { is_word name.now ≡ true }
    {
        if !written.have(word) {
            return Ok(());
        }
        let notation = "Any value with this tag.";
        let reason = "a type holds its own values";
        let file = File {
            name: String::from_str(self.alloc, name)?,
            text: self.octets_text(word, "Any", tag, notation, reason)?,
            answers: Vec::new(self.alloc),
            reason: None,
        };
        written.push(self.alloc, file, word)
    }
}
