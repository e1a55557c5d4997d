//! Departures of messages from DER: a type of the table, and octets in hexadecimal.

use crate::table::{NAMES, TYPES};
use rasn_lint::{Departure, OpenTypes, check, lint};
use rasn_schema::constants::{StaticType, types_of};
use rasn_schema::{Schema, TypeId};
use rasn_schema_bench::{CERTIFICATE, CERTIFICATE_TYPES};
use std::alloc::{AllocError, Global};
use std::io::{self, Write};

/// A type: a table, and its number there.
type Named = (&'static [StaticType], TypeId);

/// What is asked of a message.
#[derive(Clone, Copy)]
enum Question {
    /// Every departure by its type.
    Typed,
    /// Every departure, also inside open types.
    Open,
    /// The first departure, also inside open types.
    First,
}

/// Prints the departures of octets that a row asks for.
pub fn print_departures<W: Write>(
    alloc: Global,
    verb: &str,
    text: &str,
    output: &mut W,
) -> io::Result<()> {
    match asked_of(verb, text) {
        Some((named, question, digits)) => print_answer(alloc, named, question, digits, output),
        None => writeln!(output, "  is no row"),
    }
}

/// Returns what a verb and the text after it ask: the type, the departures, and digits.
fn asked_of<'text>(verb: &str, text: &'text str) -> Option<(Named, Question, &'text str)> {
    let (name, digits) = text.split_once(' ')?;
    Some((type_named(name)?, question_named(verb)?, digits))
}

/// Returns the type with this name.
fn type_named(name: &str) -> Option<Named> {
    if name == "Certificate" {
        return Some((CERTIFICATE_TYPES, CERTIFICATE));
    }
    for (known, id) in NAMES {
        if *known == name {
            return Some((TYPES, TypeId(*id)));
        }
    }
    None
}

/// Returns what a word asks.
fn question_named(word: &str) -> Option<Question> {
    match word {
        "typed" => Some(Question::Typed),
        "open" => Some(Question::Open),
        "first" => Some(Question::First),
        _ => None,
    }
}

/// Returns the digits of a text, without the spaces between them.
fn joined(alloc: Global, text: &str) -> Result<String, AllocError> {
    let mut digits = String::new(alloc);
    for word in text.split(' ') {
        digits.push_str(word)?;
    }
    Ok(digits)
}

/// Prints what is asked of the octets.
fn print_answer<W: Write>(
    alloc: Global,
    named: Named,
    question: Question,
    digits: &str,
    output: &mut W,
) -> io::Result<()> {
    let (table, id) = named;
    let digits = joined(alloc, digits)?;
    match Schema::new(types_of(alloc, table)?) {
        Ok(schema) => print_by(alloc, (&schema, id), question, digits.as_bytes(), output),
        Err(error) => writeln!(output, "  has no schema: {error}"),
    }
}

/// Prints what is asked of the octets that digits denote, by a schema.
fn print_by<W: Write>(
    alloc: Global,
    named: (&Schema, TypeId),
    question: Question,
    digits: &[u8],
    output: &mut W,
) -> io::Result<()> {
    match hex::decode(alloc, digits) {
        Ok(octets) => print_octets(alloc, named, question, &octets, output),
        Err(_) => writeln!(output, "  has no octets"),
    }
}

/// Prints what is asked of the octets.
fn print_octets<W: Write>(
    alloc: Global,
    (schema, id): (&Schema, TypeId),
    question: Question,
    octets: &[u8],
    output: &mut W,
) -> io::Result<()> {
    match question {
        Question::Typed => print_all(alloc, schema, id, octets, OpenTypes::Unexamined, output),
        Question::Open => print_all(alloc, schema, id, octets, OpenTypes::Examined, output),
        Question::First => print_first(alloc, schema, id, octets, output),
    }
}

/// Prints each departure of octets.
fn print_all<W: Write>(
    alloc: Global,
    schema: &Schema,
    id: TypeId,
    octets: &[u8],
    opens: OpenTypes,
    output: &mut W,
) -> io::Result<()> {
    match lint(alloc, schema, id, octets, opens) {
        Ok(list) => print_list(schema, id, list.as_slice(), output),
        Err(error) => writeln!(output, "  ! {error}"),
    }
}

/// Prints the first departure of octets.
fn print_first<W: Write>(
    alloc: Global,
    schema: &Schema,
    id: TypeId,
    octets: &[u8],
    output: &mut W,
) -> io::Result<()> {
    match check(alloc, schema, id, octets, OpenTypes::Examined) {
        Ok(()) => writeln!(output, "  none"),
        Err(departure) => writeln!(output, "  {}", departure.with_names(schema, id)),
    }
}

/// Prints each departure, and their number.
fn print_list<'a, W: Write>(
    schema: &'a Schema,
    id: TypeId,
    list: &'a [Departure],
    output: &mut W,
) -> io::Result<()> {
    for departure in list {
        writeln!(output, "  {}", departure.with_names(schema, id))?;
    }
    writeln!(output, "  {} in all", list.len())
}
