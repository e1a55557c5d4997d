//! Texts of the public-key infrastructure: blocks of PEM (RFC 7468), and distinguished names
//! (RFC 4514); and texts as they are printed.
#![tactic(auto)]

mod escapes;
mod laws;
mod name;
mod pem;
mod short_names;
mod shown;

pub use escapes::push_escaped;
pub use laws::worked_names;
pub use name::name_text;
pub use pem::{Block, PemError, blocks, is_space, line_start};
pub use short_names::short_name;
pub use shown::{Escaping, is_hidden, visible};
