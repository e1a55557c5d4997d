//! The library that writes values as octets.
#![tactic(auto)]

pub mod ber;
pub mod enc;
