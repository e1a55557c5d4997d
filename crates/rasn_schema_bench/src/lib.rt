//! Types of messages as tables, from which schemas are made.
#![tactic(auto)]

mod certificate;
mod filter;

pub use certificate::{CERTIFICATE, CERTIFICATE_TYPES};
pub use filter::{FILTER, FILTER_TYPES};
