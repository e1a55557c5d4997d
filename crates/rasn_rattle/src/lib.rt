//! Typed Rattle for ASN.1 modules: for each type of a module the text of a file with its struct or
//! enum, and with the impls by which it is read and written, which are proved as they are.
#![tactic(auto)]

mod alternatives;
mod answers;
mod beyond;
mod bounds;
mod calls;
mod choice;
mod constrained;
mod defaults;
mod enumerated;
mod expression;
mod files;
mod held_types;
mod integers;
mod kinds;
mod laws;
mod layout;
mod members;
mod message;
mod notation;
mod options;
mod output;
mod parts;
mod plan;
mod reach;
mod reasons;
mod sequence;
mod static_types;
mod tags;
mod template;
mod twins;
mod words;

pub use files::crate_files;
pub use held_types::{Held, types_held};
pub use options::{Options, is_crate_name};
pub use output::{Answers, File};
