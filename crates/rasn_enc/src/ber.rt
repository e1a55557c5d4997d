//! Writing by the basic, canonical and distinguished encoding rules (X.690).

pub mod enc;
