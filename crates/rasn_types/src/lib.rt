//! The values, the schema and the errors of the codec, and the definitions of its grammar.
#![tactic(auto)]

pub mod ber;
pub mod error;
mod hexadecimal;
pub mod types;
