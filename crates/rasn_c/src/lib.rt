//! Functions for C: they skip one whole encoding, check that octets are the one DER encoding of a
//! value, normalise octets to DER, or report why octets aren't read. Each returns what the call in
//! Rust that it is named after returns; `include/soqavise.h` declares them for C.
//!
//! A slice is a pointer that isn't null, and a length. Memory that a call writes must not overlap
//! any other slice or result of the call.
#![tactic(auto)]

mod blocks;
mod buffers;
mod canonical;
mod checking;
mod compiling;
mod converting;
mod days;
mod encoding;
mod error_kinds;
mod errors;
mod extensions;
mod extent;
mod finding;
mod leaves;
mod listing;
mod names;
mod normal;
mod reading;
mod reasons;
mod rules;
mod schemas;
mod seconds;
mod skipping;
mod status;
mod strings;
mod time;
mod types;
mod whole;
