//! An account of a system.
#![tactic(auto)]

mod account;
mod contact;
#[cfg(test)]
mod tests;

pub use account::{Account, Active};
pub use contact::Contact;
