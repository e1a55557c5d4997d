//! ASN.1 modules (X.680), read as text at run time.
#![tactic(auto)]

mod assignment;
mod class;
mod component;
mod fault;
mod given;
mod hint;
mod identifiers;
mod imports;
mod lexer;
mod library;
mod module;
mod modules;
mod names;
mod notation;
mod parser;
mod position;
mod recovery;
mod resolver;
mod steps;
mod tags;
mod token;
mod tree;
mod types;
mod value;
mod warnings;
mod words;

pub use fault::{Fault, Problem, Stop};
pub use identifiers::NamedIdentifier;
pub use library::{Library, Root, TypeRef, Unresolved};
pub use modules::{Modules, Source};
pub use notation::{Notation, notation_of};
pub use position::Position;
pub use resolver::Resolved;
pub use steps::Steps;
pub use tree::{
    Actual, Assigned, Assignment, Base, Builtin, Class, Component, Field, Given, Import, ListOf,
    Module, NamedNumber, Presence, Symbol, Tag, TagClass, Tagging, Type, TypeIndex, Unread, Value,
};
