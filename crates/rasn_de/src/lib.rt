//! Decoding of values by the basic, canonical and distinguished encoding rules (X.690).
#![tactic(auto)]

pub mod ber;
pub mod de;
