//! Shows, checks and converts messages of any type of ASN.1.
#![tactic(auto)]

mod generate;
mod module_files;
mod words;

use clap::Command;
use generate::{generate_command, run_generate};
use module_files::{module_files, read_text};
use rasn_compiler::{Modules, Source};
use rasn_print::{
    Call, CallFault, Catalog, ColorChoice, Session, Work, call_of, command, modules_of,
    print_types, warnings_of,
};
use std::alloc::{AllocError, Global};
use std::fs::File;
use std::io::{BufReader, BufWriter, ErrorKind, IsTerminal, Read, Write};
use std::process::ExitCode;
use std::{env, fmt, io};
use words::{is_marked, name_shown, words_of, words_shown};

/// The exit status of a program that refuses a message.
const REFUSED: u8 = 1;

/// The exit status of a program that is called wrongly, or can't read or write.
const USAGE: u8 = 2;

/// Why a file isn't opened whose name isn't UTF-8.
const NO_NAME: &str = "the name isn't UTF-8";

/// Why a folder has no modules.
const NO_MODULES: &str = "no file in it has a name that ends in .asn1 or .asn";

/// What is said of the name that a command had until 0.31.
const RENAMED: &str = "the command is called `generate`: what it writes is Rattle";

/// The name of standard input among files.
const STDIN: &str = "-";

/// What erases a line of a terminal (ECMA-48 8.3.41).
const ERASED: &str = "\x1b[2K";

fn main(rt: HostRuntime) -> ExitCode {
    match run(&rt) {
        Ok(status) => ExitCode::from(status),
        Err(CallFault::Closed) => ExitCode::from(USAGE),
        Err(CallFault::Call(text)) => failed(&rt, text.as_str()),
        Err(CallFault::Write) => failed(&rt, "soqavise: cannot write\n"),
        Err(CallFault::Memory) => failed(&rt, "soqavise: out of memory\n"),
    }
}

/// Prints why the program stops.
fn failed(rt: &HostRuntime, text: &str) -> ExitCode {
    let _ = eprint!(rt; "{text}");
    ExitCode::from(USAGE)
}

/// Runs the program for its arguments. Returns its exit status.
fn run(rt: &HostRuntime) -> Result<u8, CallFault> {
    let alloc = rt.alloc();
    let words = words_of(rt)?;
    if let [_, word, ..] = words.as_slice() {
        if word.as_str() == "rust" {
            return Err(CallFault::of_call(alloc, &RENAMED));
        }
    }
    let matches = match whole_command(alloc)?.try_get_matches_from(words.as_slice()) {
        Ok(matches) => matches,
        Err(error) => return refuse_words(rt, words.as_slice(), error),
    };
    if let Some(("generate", inner)) = matches.subcommand() {
        return run_generate(rt, inner);
    }
    match call_of(alloc, &matches)? {
        Some(call) => run_call(rt, &call),
        None => Ok(USAGE),
    }
}

/// Returns the program's command with all subcommands.
fn whole_command<'a>(alloc: Global) -> Result<Command<'a>, AllocError> {
    let generate = generate_command(alloc)?;
    command(alloc)?.subcommand(generate)
}

/// Prints why these words are no call, or the help that they ask for: what is said of the same words
/// with escapes, since it has words in it. Returns the exit status.
fn refuse_words(rt: &HostRuntime, words: &[String], error: clap::Error) -> Result<u8, CallFault> {
    let shown = words_shown(rt.alloc(), words)?;
    let error = match whole_command(rt.alloc())?.try_get_matches_from(shown.as_slice()) {
        Ok(_) => error,
        Err(error) => error,
    };
    error.print(rt).map_err(CallFault::of_write)?;
    Ok(if error.exit_code() == 0 { 0 } else { USAGE })
}

/// Returns the texts of modules as sources.
fn sources_of<'a>(
    alloc: Global,
    texts: &'a [(String, String)],
) -> Result<Vec<Source<'a>>, AllocError> {
    let mut sources = Vec::new(alloc);
    for (name, text) in texts {
        sources.push(Source {
            name: name.as_str(),
            text: text.as_str(),
        })?;
    }
    Ok(sources)
}

/// Runs a call of the program.
fn run_call(rt: &HostRuntime, call: &Call) -> Result<u8, CallFault> {
    let alloc = rt.alloc();
    let mut texts = Vec::new(alloc);
    for name in &call.modules {
        let status = push_texts(rt, name.as_str(), &mut texts)?;
        if status != 0 {
            return Ok(status);
        }
    }
    if texts.is_empty() && call.work != Work::Types {
        return run_work(rt, call, Catalog::new(alloc, None));
    }
    let sources = sources_of(alloc, texts.as_slice())?;
    let (read, faults) = modules_of(alloc, sources.as_slice())?;
    run_modules(rt, call, &read, faults.as_str())
}

/// Runs a call with these modules, whose faults are printed.
fn run_modules(
    rt: &HostRuntime,
    call: &Call,
    read: &Modules<'_>,
    faults: &str,
) -> Result<u8, CallFault> {
    eprint!(rt; "{faults}").map_err(CallFault::of_write)?;
    if call.work == Work::Types {
        let warnings = warnings_of(rt.alloc(), read)?;
        eprint!(rt; "{warnings}").map_err(CallFault::of_write)?;
        let are_whole = run_types(rt, call, read)? && faults.is_empty();
        return Ok(if are_whole { 0 } else { REFUSED });
    }
    run_work(rt, call, Catalog::new(rt.alloc(), Some(read)))
}

/// Appends the text of a file of modules, or of those in a folder, with their names. Returns the exit
/// status.
fn push_texts(
    rt: &HostRuntime,
    name: &str,
    texts: &mut Vec<(String, String)>,
) -> Result<u8, CallFault> {
    if is_marked(name) {
        return unreadable_as(rt, name, &NO_NAME);
    }
    let files = match module_files(rt, name) {
        Ok(files) if files.is_empty() => return unreadable_as(rt, name, &NO_MODULES),
        Ok(files) => files,
        Err(error) => return unreadable(rt, name, &error),
    };
    for file in files {
        match read_text(rt, file.as_str()) {
            Ok(text) => texts.push((file, text))?,
            Err(error) => return unreadable(rt, file.as_str(), &error),
        }
    }
    Ok(0)
}

/// Prints the types of the modules, or one of them. Returns whether each has a schema.
fn run_types(rt: &HostRuntime, call: &Call, read: &Modules<'_>) -> Result<bool, CallFault> {
    let mut output = BufWriter::new(rt.alloc(), rt.stdout()).map_err(CallFault::of_write)?;
    let are_whole = print_types(rt.alloc(), read, call, &mut output)?;
    output.flush().map_err(CallFault::of_write)?;
    Ok(are_whole)
}

/// Returns whether names are in bold: unless it is asked for, on a terminal where `NO_COLOR` isn't
/// set.
fn is_colored(rt: &HostRuntime, color: ColorChoice) -> bool {
    match color {
        ColorChoice::Auto => rt.stdout().is_terminal() && env::var(rt, "NO_COLOR").is_err(),
        ColorChoice::Always => true,
        ColorChoice::Never => false,
    }
}

/// Runs the work of a call on each file, or on standard input without one. Returns the exit status.
fn run_work(rt: &HostRuntime, call: &Call, catalog: Catalog<'_, '_>) -> Result<u8, CallFault> {
    let alloc = rt.alloc();
    let mut catalog = catalog;
    catalog.resolve_named(alloc, call)?;
    let mut session = Session {
        alloc,
        call,
        catalog,
        is_colored: is_colored(rt, call.color),
        output: BufWriter::new(alloc, rt.stdout()).map_err(CallFault::of_write)?,
        refusals: rt.stderr(),
        is_refused: false,
    };
    let status = run_files(rt, &mut session)?;
    session.flush()?;
    Ok(if status == 0 && session.is_refused {
        REFUSED
    } else {
        status
    })
}

/// Works on each file, or on standard input without one. Returns the exit status.
fn run_files<W: Write + Drop, E: Write + Drop>(
    rt: &HostRuntime,
    session: &mut Session<'_, '_, '_, W, E>,
) -> Result<u8, CallFault> {
    let call = session.call;
    let files = call.files.as_slice();
    let has_progress = has_progress(rt, call.work, files.len());
    let mut status = 0;
    session.begin()?;
    if call.work == Work::Example {
        session.example()?;
    } else if files.is_empty() {
        status = file_source(rt, STDIN, session)?;
    }
    for (index, name) in files.iter().enumerate() {
        if has_progress {
            print_progress(rt, index, files.len())?;
        }
        let answer = file_source(rt, name.as_str(), session)?;
        if answer != 0 {
            status = answer;
        }
    }
    if has_progress {
        eprint!(rt; "{ERASED}").map_err(CallFault::of_write)?;
    }
    Ok(status)
}

/// Works on the file with this name. Returns the exit status.
fn file_source<W: Write + Drop, E: Write + Drop>(
    rt: &HostRuntime,
    name: &str,
    session: &mut Session<'_, '_, '_, W, E>,
) -> Result<u8, CallFault> {
    if name == STDIN {
        return source(rt, "standard input", rt.stdin(), session);
    }
    if is_marked(name) {
        return unreadable_as(rt, name, &NO_NAME);
    }
    match File::open(rt, name) {
        Ok(file) => source(rt, name, file, session),
        Err(error) => unreadable(rt, name, &error),
    }
}

/// Returns whether a line says how many files are done: of several, on a terminal on which nothing
/// else is printed but refusals.
fn has_progress(rt: &HostRuntime, work: Work, count: usize) -> bool {
    let is_quiet = work == Work::Check || !rt.stdout().is_terminal();
    count > 1 && is_quiet && rt.stderr().is_terminal()
}

/// Prints how many files are done, on a line over which the next output is printed.
fn print_progress(rt: &HostRuntime, done: usize, count: usize) -> Result<(), CallFault> {
    eprint!(rt; "{ERASED}{done} of {count}\r").map_err(CallFault::of_write)
}

/// Reads all input, and processes its messages.
fn source<R: Read + Drop, W: Write + Drop, E: Write + Drop>(
    rt: &HostRuntime,
    name: &str,
    reader: R,
    session: &mut Session<'_, '_, '_, W, E>,
) -> Result<u8, CallFault> {
    let alloc = rt.alloc();
    if session.call.has_lines {
        let reader = BufReader::new(alloc, reader).map_err(CallFault::of_write)?;
        session.lines(name, reader)?;
        return Ok(0);
    }
    let mut reader = reader;
    let mut octets = Vec::new(alloc);
    match reader.read_to_end(&mut octets) {
        Ok(_) => {
            session.input(name, &octets)?;
            Ok(0)
        }
        Err(error) => unreadable(rt, name, &error),
    }
}

/// Prints that a file can't be read.
fn unreadable(rt: &HostRuntime, name: &str, error: &io::Error) -> Result<u8, CallFault> {
    if error.kind() == ErrorKind::OutOfMemory {
        return Err(CallFault::Memory);
    }
    unreadable_as(rt, name, error)
}

/// Prints that a file can't be read for this reason, without the number that the system has for it.
fn unreadable_as<T: fmt::Display>(
    rt: &HostRuntime,
    name: &str,
    reason: &T,
) -> Result<u8, CallFault> {
    let name = name_shown(rt.alloc(), name)?;
    let reason = reason.to_string(rt.alloc())?;
    let (reason, _) = reason
        .as_str()
        .split_once(" (os error ")
        .unwrap_or((reason.as_str(), ""));
    eprintln!(rt; "{name}: cannot read: {reason}").map_err(CallFault::of_write)?;
    Ok(USAGE)
}
