//! Checks of octets against the distinguished encoding rules (X.690 10, 11): by the type of a
//! schema, with each departure, or where no type is known.
#![tactic(auto)]

mod by_schema;
mod departure;
pub mod der;
mod first;
mod header;
mod judge;
pub mod laws;
mod leaf;
mod local_times;
mod open;
mod place;
mod trail;
mod untyped;

pub use by_schema::{LintError, OpenTypes, lint};
pub use departure::{Aspect, Departure, NamedDeparture, NamedPlace};
pub use first::check;
pub use local_times::local_time;
