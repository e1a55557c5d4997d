//! Why a text isn't a module, or a type of it has no schema.
use crate::hint::{Hint, hint_for, hint_of_name};
use crate::position::Position;
use std::alloc::{AllocError, AllocFailed, Global};
use std::fmt;

/// What is wrong.
#[derive(Clone, Copy, Debug, PartialEq, Eq)]
pub enum Problem<'text> {
    /// Something else has to be here.
    Expected(&'static str),
    /// Something else has to be here than the item that is found, or than the end of the text.
    Unexpected {
        expected: &'static str,
        /// The item, or nothing where the text ends.
        found: &'text str,
    },
    /// There is more of something than is allowed. This says of what, and how many there may be.
    Beyond(&'static str),
    /// Finding out what the type is takes more [`Steps`](crate::Steps) than are left.
    OutOfSteps,
    /// No module has this name, or none that is imported.
    Undefined(&'text str),
    /// This module is imported, and isn't among the texts.
    NotLoaded(&'text str),
    /// This name is one of those that lead to one another without end.
    Endless(&'text str),
    /// A rule of X.680 is broken.
    Broken(&'static str),
    /// This name, or this word, breaks a rule, which spoils no type.
    Doubtful(&'text str, &'static str),
    /// These two may begin with the same tag.
    Clash(&'text str, &'text str),
    /// A schema can't carry this yet.
    Unsupported(&'static str),
}

impl fmt::Display for Problem<'_> {
    fn fmt<W: fmt::Write>(&self, f: &mut fmt::Formatter<W>) -> fmt::Result {
        match self {
            Problem::Expected(what) => write_about(f, "expected ", what, ""),
            Problem::Unexpected { expected, found } => {
                let item = Item(found);
                write!(f, "expected {expected}, found {item}")?;
                write_hint(f, hint_for(expected, found))
            }
            Problem::Beyond(what) => write_about(f, "more than ", what, ""),
            Problem::OutOfSteps => f.write_str("the type takes more steps than are left"),
            Problem::Undefined(name) => {
                write_about(f, "", name, " isn't defined")?;
                write_hint(f, hint_of_name(name))
            }
            Problem::NotLoaded(name) => {
                write_about(
                    f,
                    "module ",
                    name,
                    " isn't loaded (its text has to be given too)",
                )
            }
            Problem::Endless(name) => write_about(f, "", name, " refers to itself without end"),
            Problem::Broken(rule) => f.write_str(rule),
            Problem::Doubtful(name, rule) => write!(f, "warning: {name} {rule}"),
            Problem::Clash(one, other) => {
                write!(f, "{one} and {other} may begin with the same tag")
            }
            Problem::Unsupported(what) => write_about(f, "", what, " isn't supported yet"),
        }
    }
}

/// Writes what a problem is about between other words.
fn write_about<W: fmt::Write>(
    f: &mut fmt::Formatter<W>,
    before: &str,
    about: &str,
    after: &str,
) -> fmt::Result {
    f.write_str(before)?;
    f.write_str(about)?;
    f.write_str(after)
}

/// Writes what was probably meant, if it is known.
fn write_hint<W: fmt::Write>(f: &mut fmt::Formatter<W>, hint: Option<Hint<'_>>) -> fmt::Result {
    match hint {
        Some(hint) => write!(f, " ({hint})"),
        None => Ok(()),
    }
}

/// An item of a text, shown in words.
#[derive(Clone, Copy)]
struct Item<'text>(&'text str);

impl fmt::Display for Item<'_> {
    fn fmt<W: fmt::Write>(&self, f: &mut fmt::Formatter<W>) -> fmt::Result {
        let Some(first) = self.0.chars().next() else {
            return f.write_str("the end of the text");
        };
        match first {
            '"' => f.write_str("a string"),
            '\'' => f.write_str("digits between apostrophes"),
            '/' if self.0.len() > 1 => f.write_str("a comment without an end"),
            'A'..='Z' | 'a'..='z' => write_about(f, "the word `", self.0, "`"),
            '0'..='9' => write_about(f, "the number `", self.0, "`"),
            '!'..='~' => write_about(f, "`", self.0, "`"),
            other => {
                let code = other as u32;
                write!(f, "the character U+{code:04X}")
            }
        }
    }
}

/// A fault of a text, shown as `FILE:LINE:COLUMN: what is wrong`.
#[derive(Clone, Copy, Debug, PartialEq, Eq)]
pub struct Fault<'text> {
    /// The name of the text.
    pub source: &'text str,
    /// Where the fault is.
    pub position: Position,
    /// What is wrong.
    pub problem: Problem<'text>,
}

impl fmt::Display for Fault<'_> {
    fn fmt<W: fmt::Write>(&self, f: &mut fmt::Formatter<W>) -> fmt::Result {
        let source = self.source;
        let position = self.position;
        let problem = self.problem;
        write!(f, "{source}:{position}: {problem}")
    }
}

/// Why something couldn't be read, or has no schema.
#[derive(Clone, Copy, Debug, PartialEq, Eq)]
pub enum Stop<'text> {
    /// A fault of a text.
    Fault(Fault<'text>),
    /// Memory ran out.
    OutOfMemory,
}

impl fmt::Display for Stop<'_> {
    fn fmt<W: fmt::Write>(&self, f: &mut fmt::Formatter<W>) -> fmt::Result {
        match self {
            Stop::Fault(fault) => write!(f, "{fault}"),
            Stop::OutOfMemory => f.write_str("out of memory"),
        }
    }
}

/// Why reading or resolving ends early: a [`Stop`] whose fault is on the heap, which keeps the
/// results of calls small.
#[derive(Drop)]
pub(crate) enum Halt<'text> {
    Fault(Box<Fault<'text>>),
    OutOfMemory,
}

impl<'text> Halt<'text> {
    /// Returns a fault as the reason.
    pub(crate) fn of(alloc: Global, fault: Fault<'text>) -> Halt<'text> {
        match Box::new(alloc, fault) {
            Ok(fault) => Halt::Fault(fault),
            Err(_) => Halt::OutOfMemory,
        }
    }
}

impl<'text> From<Halt<'text>> for Stop<'text> {
    fn from(halt: Halt<'text>) -> Stop<'text> {
        match halt {
            Halt::Fault(fault) => Stop::Fault(*fault),
            Halt::OutOfMemory => Stop::OutOfMemory,
        }
    }
}

impl<'text> From<AllocError> for Halt<'text> {
    fn from(_error: AllocError) -> Halt<'text> {
        Halt::OutOfMemory
    }
}

impl<'text, T: Drop> From<AllocFailed<T>> for Halt<'text> {
    fn from(_error: AllocFailed<T>) -> Halt<'text> {
        Halt::OutOfMemory
    }
}
