//! Reads and writes the values of the rows of standard input, and prints each row with its result.
#![tactic(auto)]

mod address_book;
mod calls;
mod cut;
mod entry;
mod kinds;
mod lists;
mod messages;
mod octets;
mod reading;
mod row;
mod sorted;
mod texts;
mod types;
mod values;
mod writing;

use crate::kinds::answer_to;
use crate::row::Row;
use std::alloc::{AllocError, Global};
use std::io::{self, BufRead, BufReader, BufWriter, Write};
use std::process::ExitCode;

fn main(rt: HostRuntime) -> ExitCode {
    match print_all(&rt) {
        Ok(()) => ExitCode::SUCCESS,
        Err(_) => {
            let _ = eprintln!(rt; "cannot read or write");
            ExitCode::FAILURE
        }
    }
}

/// Prints the lines of standard input, each row with its result.
fn print_all(rt: &HostRuntime) -> io::Result<()> {
    let alloc = rt.alloc();
    let input = BufReader::new(alloc, rt.stdin())?;
    let mut output = BufWriter::new(alloc, rt.stdout())?;
    for line in input.lines(alloc) {
        let line = line?;
        print(alloc, &line, &mut output)?;
    }
    output.flush()
}

/// Prints a line: a row with its result, and an empty line or a comment, which begins with `#`, as
/// it is.
fn print<W: Write>(alloc: Global, line: &str, output: &mut W) -> io::Result<()> {
    if line.is_empty() || line.starts_with('#') {
        return writeln!(output, "{line}");
    }
    let answer = answer_of(alloc, line)?;
    writeln!(output, "{line} {answer}")
}

/// Returns the result of a row.
fn answer_of(alloc: Global, line: &str) -> Result<String, AllocError> {
    match Row::of_line(alloc, line)? {
        Some(row) => answer_to(alloc, &row),
        None => String::from_str(alloc, "is no row"),
    }
}
