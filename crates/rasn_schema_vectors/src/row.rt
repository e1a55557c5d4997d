//! Rows: what is done, with which type, by which rules, and with which octets.

use rasn_bench::{Request, ValueType};
use rasn_types::types::Codec;
use std::alloc::{AllocError, Global};

/// What a row does with its octets.
#[derive(Clone, Copy)]
pub enum Verb {
    /// Reads a value, and shows it with the names of its type.
    Read,
    /// Reads a value, and shows it without names.
    Bare,
    /// The same for debugging.
    Debug,
    /// Reads a value, and writes it by the same rules, as a value of the other type if there is
    /// one.
    Write,
    /// Returns the DER octets of a value.
    Normal,
    /// Tells whether the octets are the one encoding that DER has of a value.
    Canonical,
}

impl Verb {
    /// Returns the verb of this name.
    fn of_name(name: &str) -> Option<Verb> {
        match name {
            "read" => Some(Verb::Read),
            "bare" => Some(Verb::Bare),
            "debug" => Some(Verb::Debug),
            "write" => Some(Verb::Write),
            "normal" => Some(Verb::Normal),
            "canonical" => Some(Verb::Canonical),
            _ => None,
        }
    }
}

/// A row.
#[derive(Drop)]
pub struct Row<'line> {
    pub verb: Verb,
    /// The name of the type.
    pub name: &'line str,
    pub rule: Codec,
    pub octets: Vec<u8>,
    /// The name of the type as whose value it is written.
    pub other: &'line str,
}

impl<'line> Row<'line> {
    /// Returns the row of a line `VERB TYPE RULE OCTETS`, or `VERB TYPE RULE OCTETS OTHER`.
    pub fn of_line(alloc: Global, line: &'line str) -> Result<Option<Row<'line>>, AllocError> {
        let Some((verb, name, rule, rest)) = words_of(line) else {
            return Ok(None);
        };
        let (digits, other) = match rest.split_once(' ') {
            Some((digits, other)) => (digits, other),
            None => (rest, name),
        };
        let octets = octets_of(alloc, digits)?;
        Ok(octets.map(|octets| Row {
            verb,
            name,
            rule,
            octets,
            other,
        }))
    }
}

/// Returns the first three words of a line, and the others.
fn words_of(line: &str) -> Option<(Verb, &str, Codec, &str)> {
    let (verb, rest) = line.split_once(' ')?;
    let (name, rest) = rest.split_once(' ')?;
    let (rule, rest) = rest.split_once(' ')?;
    Some((Verb::of_name(verb)?, name, rule_of(rule)?, rest))
}

/// Returns the rules of this name.
fn rule_of(name: &str) -> Option<Codec> {
    match name {
        "ber" => Some(Codec::Ber),
        "cer" => Some(Codec::Cer),
        "der" => Some(Codec::Der),
        _ => None,
    }
}

/// Returns the octets that digits spell, `-` for none.
fn octets_of(alloc: Global, digits: &str) -> Result<Option<Vec<u8>>, AllocError> {
    let request = Request {
        rule: Codec::Ber,
        value_type: ValueType::Any,
        digits,
    };
    request.octets(alloc)
}
