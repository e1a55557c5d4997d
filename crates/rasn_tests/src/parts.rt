//! Components that are OPTIONAL or DEFAULT (X.690 8.9.3), CHOICE (8.13), SEQUENCE OF (8.10), tags
//! (8.14) and extension additions; ENUMERATED (8.4), whose types are user-defined.

mod choice;
mod enumerated;
mod sequence_of;
mod writes;
