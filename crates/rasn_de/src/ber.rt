//! The basic encoding rules and the rules derived from them.

pub mod de;
mod rules;
