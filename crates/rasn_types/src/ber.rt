//! Rules, identifiers, collected bits and times, which the decoder and the encoder share.

mod identifier;
pub mod rules;
pub mod time;

pub use crate::types::bits::CollectedBits;
pub use identifier::{Identifier, is_always_constructed};
