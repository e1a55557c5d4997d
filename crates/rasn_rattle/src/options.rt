//! How a crate is written.
use rasn_compiler::{Assigned, Modules};
use rasn_types::types::Codec;
use std::alloc::{AllocError, Global};

/// How a crate is written: its name, which types are written and how, and what its files have
/// besides.
#[derive(Drop)]
pub struct Options {
    pub(crate) alloc: Global,
    /// The name of the crate.
    pub(crate) crate_name: String,
    /// The types of whole messages, with the rules by which they are read.
    messages: Vec<(String, Codec)>,
    /// The files that are written by hand.
    pub(crate) also: Vec<String>,
    /// The types that files are wanted for, if not for all.
    types: Vec<String>,
    /// The types that are written as open types.
    opened: Vec<String>,
    /// The modules whose types another crate has, with the name of that.
    from: Vec<(String, String)>,
}

impl Options {
    /// Returns the options of a crate of this name that has all types and nothing else.
    ///
    /// # Errors
    /// `AllocError` if memory runs out.
    pub fn new(alloc: Global, crate_name: &str) -> Result<Options, AllocError> {
        Ok(Options {
            alloc,
            crate_name: String::from_str(alloc, crate_name)?,
            messages: Vec::new(alloc),
            also: Vec::new(alloc),
            types: Vec::new(alloc),
            opened: Vec::new(alloc),
            from: Vec::new(alloc),
        })
    }

    /// Sets an option of the subcommand: `message` that a type is one of whole messages,
    /// with its rules, as `Certificate=der`; `also` that the crate has a file by hand; `type` that
    /// a type is wanted; `open` that a type is written as an open type. Returns whether there is
    /// such an option, and it may have this value.
    ///
    /// # Errors
    /// `AllocError` if memory runs out.
    pub fn add(&mut self, option: &str, value: &str) -> Result<bool, AllocError> {
        match option {
            "message" => self.add_message(value),
            "also" => self.add_also(value),
            "type" => push_name(&mut self.types, value),
            "open" => push_name(&mut self.opened, value),
            _ => Ok(false),
        }
    }

    /// Returns the allocator.
    pub fn alloc(&self) -> Global {
        self.alloc
    }

    /// Returns the crate's line of crates.txt: its name, and the crates that it uses.
    ///
    /// # Errors
    /// `AllocError` if memory runs out.
    pub fn crates_line(&self) -> Result<String, AllocError> {
        let mut line = format!(in self.alloc; "{}:", self.crate_name.as_str())?;
        let mut last = "";
        for (_module, crate_name) in &self.from {
            if crate_name.as_str() != last {
                write!(line, " {}", crate_name.as_str())?;
            }
            last = crate_name.as_str();
        }
        line.push_str(" rasn rasn_schema rasn_types rasn_de rasn_enc")?;
        Ok(line)
    }

    /// Adds a type of whole messages, with the rules by which they are read.
    fn add_message(&mut self, value: &str) -> Result<bool, AllocError> {
        let Some((name, rules)) = value.split_once("=") else {
            return Ok(false);
        };
        let codec = match rules {
            "ber" => Codec::Ber,
            "cer" => Codec::Cer,
            "der" => Codec::Der,
            _ => return Ok(false),
        };
        let name = String::from_str(self.alloc, name)?;
        self.messages.push((name, codec))?;
        Ok(true)
    }

    /// Adds a file that is written by hand.
    fn add_also(&mut self, name: &str) -> Result<bool, AllocError> {
        if !is_crate_name(name) {
            return Ok(false);
        }
        push_name(&mut self.also, name)
    }

    /// Adds that a crate has the types of these modules.
    ///
    /// # Errors
    /// `AllocError` if memory runs out.
    pub fn add_from(&mut self, crate_name: &str, read: &Modules<'_>) -> Result<(), AllocError> {
        for module in &read.modules {
            let name = String::from_str(self.alloc, module.name)?;
            let crate_name = String::from_str(self.alloc, crate_name)?;
            self.from.push((name, crate_name))?;
        }
        Ok(())
    }

    /// Returns the name of another crate that has the types of a module, if one does.
    pub(crate) fn crate_of(&self, module: &str) -> Option<&str> {
        for (name, crate_name) in &self.from {
            if name.as_str() == module {
                return Some(crate_name.as_str());
            }
        }
        None
    }

    /// Returns the rules by which the whole messages of a type are read, if it is a type of those.
    pub(crate) fn rules_of(&self, ty: &str) -> Option<Codec> {
        for (name, codec) in &self.messages {
            if name.as_str() == ty {
                return Some(*codec);
            }
        }
        None
    }

    /// Returns whether a file is wanted for a type of the modules.
    pub(crate) fn is_wanted(&self, ty: &str) -> bool {
        self.types.is_empty() || have(&self.types, ty) || self.rules_of(ty).is_some()
    }

    /// Returns whether a type is written as an open type.
    pub(crate) fn is_opened(&self, ty: &str) -> bool {
        have(&self.opened, ty)
    }

    /// Returns the first type that an option names, but none of these modules has.
    pub fn unknown_in(&self, read: &Modules<'_>) -> Option<&str> {
        for (name, _codec) in &self.messages {
            if !is_type_of(read, name.as_str()) {
                return Some(name.as_str());
            }
        }
        first_unknown(&self.types, read).or(first_unknown(&self.opened, read))
    }
}

/// Adds a name to others.
fn push_name(names: &mut Vec<String>, name: &str) -> Result<bool, AllocError> {
    let alloc = *names.allocator();
    names.push(String::from_str(alloc, name)?)?;
    Ok(true)
}

/// Returns whether a name is among others.
fn have(names: &[String], name: &str) -> bool {
    names.iter().any(|known| known.as_str() == name)
}

/// Returns the first of the names that no type of the modules has.
fn first_unknown<'a>(names: &'a [String], read: &Modules<'_>) -> Option<&'a str> {
    for name in names {
        if !is_type_of(read, name.as_str()) {
            return Some(name.as_str());
        }
    }
    None
}

/// Returns whether one of the modules has a type of this name.
fn is_type_of(read: &Modules<'_>, name: &str) -> bool {
    for module in &read.modules {
        for assignment in &module.assignments {
            if assignment.name == name && matches!(assignment.assigned, Assigned::Type(_)) {
                return true;
            }
        }
    }
    false
}

/// Returns whether a crate, or a file of one, may have the name: small letters, digits and `_`, of
/// which a letter comes first.
pub fn is_crate_name(name: &str) -> bool {
    name.starts_with(|letter: char| letter.is_ascii_lowercase())
        && name.chars().all(|letter| letter.is_ascii_lowercase()
            || letter.is_ascii_digit()
            || letter == '_')
}
