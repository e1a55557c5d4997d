//! Rows: what is asked, and of what.

use crate::departures::print_departures;
use crate::library::print_library;
use crate::messages::answer_of;
use crate::modules::print_modules;
use crate::types::print_file;
use rasn_compiler::Modules;
use std::io::{self, BufRead, BufReader, BufWriter, Write};

/// Prints the faults of the modules, and the lines of standard input, each row with its result.
pub fn print_rows(rt: &HostRuntime, read: &Modules<'_>) -> io::Result<()> {
    let alloc = rt.alloc();
    let input = BufReader::new(alloc, rt.stdin())?;
    let mut output = BufWriter::new(alloc, rt.stdout())?;
    for fault in &read.faults {
        writeln!(output, "fault\t{fault}")?;
    }
    for line in input.lines(alloc) {
        let line = line?;
        print_row(rt, read, &line, &mut output)?;
    }
    output.flush()
}

/// Prints a line: a row with its result, and an empty line or a comment, which begins with `#`, as
/// it is. The result of a row that asks for a list is in the lines after it.
fn print_row<W: Write>(
    rt: &HostRuntime,
    read: &Modules<'_>,
    line: &str,
    output: &mut W,
) -> io::Result<()> {
    let alloc = rt.alloc();
    if line.is_empty() || line.starts_with('#') {
        return writeln!(output, "{line}");
    }
    let (verb, rest) = line.split_once(' ').unwrap_or((line, ""));
    match verb {
        "modules" => {
            writeln!(output, "{line}")?;
            print_modules(alloc, read, output)
        }
        "library" => {
            writeln!(output, "{line}")?;
            print_library(rt, read, rest, output)
        }
        "types" | "warnings" | "identifiers" => {
            writeln!(output, "{line}")?;
            print_file(rt, verb, rest, output)
        }
        "typed" | "open" | "first" => {
            writeln!(output, "{line}")?;
            print_departures(alloc, verb, rest, output)
        }
        _ => {
            let answer = answer_of(alloc, read, verb, rest)?;
            writeln!(output, "{line} {answer}")
        }
    }
}
