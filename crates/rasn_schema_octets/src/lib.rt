//! Schemas as octets: a form of our own, in DER, that is checked whenever it is read.
//!
//! [`write`] returns the octets of a schema with its names, and [`read`] the schema of octets,
//! which may be damaged. What is read is a lawful schema with these octets.
#![tactic(auto)]

mod component;
mod constraints;
mod entry;
mod fault;
mod form;
mod kind;
mod laws;
mod list;
mod locate;
mod mirrored;
mod name;
mod node;
mod tag;
mod types;
mod value;
mod value_nodes;

pub use entry::{Compiled, VERSION, read, write};
pub use fault::{Part, ReadFault, WriteFault};
pub use laws::{has_lawful_shape, refused_rightly, worked_octets};
