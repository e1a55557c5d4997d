//! The work of the program `soqavise`: values of any type as indented text with the names of a
//! schema, octets of BER without a type, where octets aren't a message, and the forms in which
//! messages are handed over: octets, PEM and hexadecimal digits.
#![tactic(auto)]

mod catalog;
mod command_line;
mod dump;
mod exact;
mod example;
mod fault;
mod fingerprint;
mod guess;
mod identifier_names;
mod identifiers;
mod input;
mod known;
pub mod laws;
mod leaf;
mod listing;
mod messages;
mod name;
mod offsets;
mod page;
mod page_text;
mod pasted;
mod pem_fault;
mod printer;
mod query;
mod reading;
mod reason;
mod refusal_text;
mod session;
mod similar;
mod standards;
mod texts;
mod types;
mod unused;
mod values;
mod work;

pub use catalog::{Catalog, modules_of, warnings_of};
pub use command_line::{Call, ColorChoice, InputForm, Work, call_of, command};
pub use fault::CallFault;
pub use known::Known;
pub use listing::print_types;
pub use offsets::offsets_text;
pub use printer::value_text;
pub use reading::{check, show};
pub use reason::Reason;
pub use session::Session;
pub use types::MessageType;
pub use work::{Answer, Context, Input, answer_to};
