//! Readers and writers that fail, and the arguments of the program.

use crate::reading::assert_facts;
use rasn_bench::{RunFault, file_of, run};
use std::alloc::{AllocError, Global};
use std::io::{self, BufRead, BufReader, Error, ErrorKind, Read, Write};

/// A reader that returns some octets and then fails.
#[derive(Drop)]
struct Failing<'octets> {
    before: &'octets [u8],
    kind: ErrorKind,
}

impl Read for Failing<'_> {
    fn read(&mut self, buffer: &mut [u8]) -> io::Result<usize> {
        if self.before.is_empty() {
            return Err(Error::from(self.kind));
        }
        self.before.read(buffer)
    }
}

/// A writer that accepts no octets.
#[derive(Drop)]
struct Full;

impl Write for Full {
    fn write(&mut self, _buffer: &[u8]) -> io::Result<usize> {
        Err(Error::from(ErrorKind::StorageFull))
    }

    fn flush(&mut self) -> io::Result<()> {
        Ok(())
    }
}

/// Returns whether the program stops with this fault after the result of a well-formed line.
fn stops<R: BufRead>(alloc: Global, input: &mut R, fault: RunFault) -> bool {
    let mut output = Vec::new(alloc);
    run(alloc, input, &mut output) == Err(fault)
        && output.as_slice() == b"BOOLEAN 0 010100\n".as_slice()
}

/// Returns whether the program stops with this fault if the reader fails after a well-formed line.
fn is_stopped(alloc: Global, kind: ErrorKind, fault: RunFault) -> bool {
    let before = b"ber bool 010100\nber";
    match BufReader::new(alloc, Failing { before, kind }) {
        Ok(mut input) => stops(alloc, &mut input, fault),
        Err(_) => false,
    }
}

#[test]
fn failing_readers_are_faults(rt: HostRuntime) {
    let alloc = rt.alloc();
    assert_facts(
        &rt,
        &[
            is_stopped(alloc, ErrorKind::BrokenPipe, RunFault::Read),
            is_stopped(alloc, ErrorKind::OutOfMemory, RunFault::Memory),
        ],
    );
}

#[test]
fn other_octets_than_utf8_are_faults(rt: HostRuntime) {
    let mut input = b"ber bool 010100\nber bool \xFF\n".as_slice();
    assert!(rt; stops(rt.alloc(), &mut input, RunFault::Read));
}

#[test]
fn failing_writers_are_faults(rt: HostRuntime) {
    let mut input = b"ber bool 010100\n".as_slice();
    assert!(rt; run(rt.alloc(), &mut input, &mut Full) == Err(RunFault::Write));
}

/// Returns the words as arguments of the program.
fn arguments(alloc: Global, words: &[&str]) -> Result<Vec<String>, AllocError> {
    let mut arguments = Vec::new(alloc);
    for word in words {
        arguments.push(String::from_str(alloc, word)?)?;
    }
    Ok(arguments)
}

/// Returns whether the arguments name this file, and ask to normalise exactly if `normalises`.
fn are_read(alloc: Global, words: &[&str], normalises: bool, file: Option<&str>) -> bool {
    match arguments(alloc, words) {
        Ok(arguments) => file_of(&arguments) == Ok((normalises, file)),
        Err(_) => false,
    }
}

/// Returns whether the arguments are refused with the text of the usage.
fn are_refused(alloc: Global, words: &[&str]) -> bool {
    let Ok(arguments) = arguments(alloc, words) else {
        return false;
    };
    match file_of(&arguments) {
        Ok(_) => false,
        Err(usage) => match format!(in alloc; "{usage}") {
            Ok(text) => text.as_str() == "usage: rasn-vectors [--normalise] [file]",
            Err(_) => false,
        },
    }
}

#[test]
fn an_option_and_a_file_are_named(rt: HostRuntime) {
    let alloc = rt.alloc();
    assert_facts(
        &rt,
        &[
            are_read(alloc, &[], false, None),
            are_read(alloc, &["lines"], false, Some("lines")),
            are_read(alloc, &["--normalise"], true, None),
            are_read(alloc, &["--normalise", "lines"], true, Some("lines")),
            are_read(alloc, &["--normalize"], false, Some("--normalize")),
        ],
    );
}

#[test]
fn other_arguments_are_refused(rt: HostRuntime) {
    let alloc = rt.alloc();
    assert_facts(
        &rt,
        &[
            are_refused(alloc, &["a", "b"]),
            are_refused(alloc, &["lines", "--normalise"]),
            are_refused(alloc, &["--normalise", "a", "b"]),
        ],
    );
}
