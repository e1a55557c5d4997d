//! Values of a schema as JSON, by the JSON Encoding Rules (X.697), and back.
//!
//! What JSON says of a value needs its type alone: no encoding is involved. [`json`] and [`encode`]
//! read and write octets too, by the reader and the writer of `rasn_dynamic`.
#![tactic(auto)]

mod arcs;
mod bits;
mod characters;
mod decimal;
mod digits;
mod entry;
mod error;
mod found;
mod kept;
pub mod laws;
mod layout;
mod members;
mod number;
mod read_leaf;
mod reader;
mod reals;
mod syntax;
mod times;
mod tokens;
mod write_leaf;
mod writer;

pub use decimal::MAX_NUMBER_OCTETS;
pub use entry::{EncodeJsonError, ToJsonError, encode, from_json, json, to_json};
pub use error::{JsonError, JsonErrorKind, JsonStep};
pub use layout::Layout;
pub use syntax::MAX_NESTING;
