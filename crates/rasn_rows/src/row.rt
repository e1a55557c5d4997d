//! Rows: a verb, a type, the rules to read by, and octets or a text.

use crate::octets::octets_of;
use rasn::types::Codec;
use std::alloc::{AllocError, Global};

/// The operation of a row on its octets.
#[derive(Clone, Copy)]
pub enum Verb {
    /// Reads a value with a decoder, and reports how many octets are consumed.
    Read,
    /// Reads a value with the entry point of the rules.
    Whole,
    /// Reads the value that the octets begin with, and reports the octets that follow it.
    Begin,
    /// Reads a value with the entry point that takes the rules.
    All,
    /// Works like `Begin`, with the entry point that takes the rules.
    Front,
    /// Shows the text of an error.
    Tell,
    /// Reports for each prefix how many octets are missing.
    Cut,
    /// Counts the prefixes that are refused as truncated.
    Open,
    /// Reads a value, and writes it under these rules.
    Write(Codec),
    /// Returns the DER octets of a value.
    Normal,
    /// Tells whether the octets are those that DER writes of a value.
    Canonical,
    /// Reads a value out of an open type that has the octets.
    Inside,
    /// Reads a value, and shows the octets of an open type that holds it.
    Held,
    /// Reads a value, and shows its text.
    Show,
    /// Reads a value, and shows a copy of it.
    Copy,
    /// Reads values to the end of the octets, and compares each with those after it.
    Order,
    /// Reads two values, and compares them.
    Same,
    /// Checks a value.
    Check,
    /// Parses a text.
    Parse,
    /// Reads a time, and shows its text in the canonical form.
    Text,
    /// Reads the message that the octets begin with, by the rules of its standard.
    Message,
    /// Reads a message, and tells whether the same octets are written.
    Back,
    /// Reads a message, and tells whether DER reads the same from what is written.
    Again,
}

/// The verbs, by their names.
const VERBS: &[(&str, Verb)] = &[
    ("read", Verb::Read),
    ("whole", Verb::Whole),
    ("begin", Verb::Begin),
    ("all", Verb::All),
    ("front", Verb::Front),
    ("tell", Verb::Tell),
    ("cut", Verb::Cut),
    ("open", Verb::Open),
    ("write-ber", Verb::Write(Codec::Ber)),
    ("write-cer", Verb::Write(Codec::Cer)),
    ("write-der", Verb::Write(Codec::Der)),
    ("normal", Verb::Normal),
    ("canonical", Verb::Canonical),
    ("inside", Verb::Inside),
    ("held", Verb::Held),
    ("show", Verb::Show),
    ("copy", Verb::Copy),
    ("order", Verb::Order),
    ("same", Verb::Same),
    ("check", Verb::Check),
    ("parse", Verb::Parse),
    ("text", Verb::Text),
    ("message", Verb::Message),
    ("back", Verb::Back),
    ("again", Verb::Again),
];

impl Verb {
    /// Returns the verb of this name.
    fn of_name(name: &str) -> Option<Verb> {
        for (known, verb) in VERBS {
            if *known == name {
                return Some(*verb);
            }
        }
        None
    }
}

/// A row.
#[derive(Drop)]
pub struct Row<'line> {
    pub verb: Verb,
    /// The name of the type.
    pub name: &'line str,
    pub rules: Codec,
    /// The text to parse, which is empty for the other verbs.
    pub text: &'line str,
    pub octets: Vec<u8>,
}

impl<'line> Row<'line> {
    /// Returns the row of a line `VERB TYPE RULES OCTETS`. A text to parse is in place of the
    /// octets; `-` is no octets, and the empty text.
    pub fn of_line(alloc: Global, line: &'line str) -> Result<Option<Row<'line>>, AllocError> {
        let Some((verb, name, rules, last)) = words_of(line) else {
            return Ok(None);
        };
        let (text, digits) = match verb {
            Verb::Parse if last == "-" => ("", "-"),
            Verb::Parse => (last, "-"),
            _ => ("", last),
        };
        let octets = octets_of(alloc, digits)?;
        Ok(octets.map(|octets| Row {
            verb,
            name,
            rules,
            text,
            octets,
        }))
    }
}

/// Returns the words of a line.
fn words_of(line: &str) -> Option<(Verb, &str, Codec, &str)> {
    let (verb, rest) = line.split_once(' ')?;
    let (name, rest) = rest.split_once(' ')?;
    let (rules, digits) = rest.split_once(' ')?;
    Some((Verb::of_name(verb)?, name, rules_of(rules)?, digits))
}

/// Returns the rules of this name.
fn rules_of(name: &str) -> Option<Codec> {
    match name {
        "ber" => Some(Codec::Ber),
        "cer" => Some(Codec::Cer),
        "der" => Some(Codec::Der),
        _ => None,
    }
}
