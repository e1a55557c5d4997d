//! Rows of calls of `soqavise`, each with what it prints: the words of the call, and the octets of
//! its input in hexadecimal as the last word, or its text in quotation marks.
#![tactic(auto)]

use clap::ArgMatches;
use rasn_compiler::{Modules, Source};
use rasn_print::{
    Call, CallFault, Catalog, ColorChoice, Session, Work, call_of, command, modules_of, print_types,
};
use std::alloc::{AllocError, Global};
use std::io::{BufRead, BufReader, BufWriter, Write};
use std::process::ExitCode;
use std::str;

fn main(rt: HostRuntime) -> ExitCode {
    match run_rows(&rt) {
        Ok(()) => ExitCode::SUCCESS,
        Err(_) => ExitCode::FAILURE,
    }
}

/// A module that isn't built in, as if all calls had `--module points.asn1`: its type Point is used
/// by Shape, and Shape by itself alone. Its values are identifiers, except `count` and the last.
const POINTS: Source<'static> = Source {
    name: "points.asn1",
    text: "Points DEFINITIONS AUTOMATIC TAGS ::= BEGIN \
        Shape ::= [PRIVATE 1] SEQUENCE { points SEQUENCE OF Point, next Shape OPTIONAL } \
        Point ::= [PRIVATE 2] SEQUENCE { x INTEGER, y INTEGER } \
        points OBJECT IDENTIFIER ::= { iso 3 dod(6) internet(1) 4 1 99999 } \
        Kind ::= OBJECT IDENTIFIER \
        point-colour Kind ::= { points 1 } \
        label OBJECT IDENTIFIER ::= { joint-iso-itu-t ds(5) 4 41 } \
        label-again OBJECT IDENTIFIER ::= label \
        count INTEGER ::= 3 \
        wrong OBJECT IDENTIFIER ::= { 1 99 } \
        END",
};

/// A module that names others as their standards do: RFC 5280's first module, and RFC 4120's, which
/// has no type of the name that is wanted of it.
const HOLDERS: Source<'static> = Source {
    name: "holders.asn1",
    text: "Holders DEFINITIONS EXPLICIT TAGS ::= BEGIN \
        IMPORTS Name FROM PKIX1Explicit88 Coupon FROM KerberosV5Spec2; \
        Holder ::= [PRIVATE 3] SEQUENCE { name Name } \
        Lost ::= [PRIVATE 4] SEQUENCE { coupon Coupon } \
        END",
};

/// Prints each row, and what its call prints.
fn run_rows(rt: &HostRuntime) -> Result<(), CallFault> {
    let alloc = rt.alloc();
    let (read, _) = modules_of(alloc, &[POINTS, HOLDERS])?;
    let input = BufReader::new(alloc, rt.stdin()).map_err(CallFault::of_write)?;
    let mut output = BufWriter::new(alloc, rt.stdout()).map_err(CallFault::of_write)?;
    for line in input.lines(alloc) {
        let line = line.map_err(CallFault::of_write)?;
        writeln!(output, "{line}").map_err(CallFault::of_write)?;
        if !line.is_empty() && !line.starts_with('#') {
            let answer = answer_of(alloc, &read, &line)?;
            writeln!(output, "{answer}").map_err(CallFault::of_write)?;
        }
    }
    output.flush().map_err(CallFault::of_write)
}

/// Returns what the call of a line prints, and its exit status if that isn't 0.
fn answer_of(alloc: Global, read: &Modules<'_>, line: &str) -> Result<String, CallFault> {
    let (call, input) = match line.split_once('"') {
        Some((call, text)) => (call.trim_ascii_end(), unquoted(alloc, text)?),
        None => match line.rsplit_once(' ') {
            Some((call, digits)) => (call, String::from_str(alloc, digits)?),
            None => return Ok(String::from_str(alloc, "is no row")?),
        },
    };
    let mut words = Vec::new(alloc);
    words.push("soqavise")?;
    for word in call.split(' ') {
        words.push(word)?;
    }
    match answer_to_words(alloc, read, words.as_slice(), input.as_bytes()) {
        Err(CallFault::Call(text)) => Ok(format!(in alloc; "{text}status 2\n")?),
        answered => answered,
    }
}

/// Returns what the call of these words prints for an input.
fn answer_to_words(
    alloc: Global,
    read: &Modules<'_>,
    words: &[&str],
    input: &[u8],
) -> Result<String, CallFault> {
    match command(alloc)?.try_get_matches_from(words) {
        Ok(matches) => answer_to_matches(alloc, read, &matches, input),
        Err(error) => {
            let status = if error.exit_code() == 0 {
                ""
            } else {
                "status 2\n"
            };
            Ok(format!(in alloc; "{error}{status}")?)
        }
    }
}

/// Returns what the call that a command line asks for prints for an input.
fn answer_to_matches(
    alloc: Global,
    read: &Modules<'_>,
    matches: &ArgMatches<'_>,
    input: &[u8],
) -> Result<String, CallFault> {
    match call_of(alloc, matches)? {
        Some(call) => answer_to_call(alloc, read, &call, input),
        None => Ok(String::from_str(alloc, "is no call")?),
    }
}

/// Returns what a call prints for an input.
fn answer_to_call(
    alloc: Global,
    read: &Modules<'_>,
    call: &Call,
    input: &[u8],
) -> Result<String, CallFault> {
    if call.work == Work::Types {
        return types_of(alloc, read, call);
    }
    let mut catalog = Catalog::new(alloc, Some(read));
    catalog.resolve_named(alloc, call)?;
    run(alloc, call, catalog, input)
}

/// Returns what a call prints that asks for types.
fn types_of(alloc: Global, read: &Modules<'_>, call: &Call) -> Result<String, CallFault> {
    let mut output = Vec::new(alloc);
    let are_whole = print_types(alloc, read, call, &mut output)?;
    let status = if are_whole { "" } else { "status 1\n" };
    Ok(format!(in alloc; "{}{status}", text_of(&output))?)
}

/// Returns octets as text.
fn text_of(octets: &[u8]) -> &str {
    str::from_utf8(octets).unwrap_or("other octets")
}

/// Returns a text in which `\n` is a line feed, `\e` an escape character and `\m` a byte order mark,
/// up to the quotation mark after it.
fn unquoted(alloc: Global, text: &str) -> Result<String, AllocError> {
    let mut plain = String::new(alloc);
    for line in text.trim_ascii_end().trim_end_matches('"').split("\\n") {
        let line = line.replace(alloc, "\\e", "\x1b")?;
        let line = line.as_str().replace(alloc, "\\m", "\u{FEFF}")?;
        plain.push_str(line.as_str())?;
        plain.push('\n')?;
    }
    Ok(plain)
}

/// Returns what a call prints for an input, by a catalog of its types.
fn run(
    alloc: Global,
    call: &Call,
    catalog: Catalog<'_, '_>,
    input: &[u8],
) -> Result<String, CallFault> {
    let mut session = Session {
        alloc,
        call,
        catalog,
        is_colored: call.color == ColorChoice::Always,
        output: Vec::new(alloc),
        refusals: Vec::new(alloc),
        is_refused: false,
    };
    run_input(&mut session, input)?;
    let Session {
        output,
        refusals,
        is_refused,
        ..
    } = session;
    let (shown, refused) = (text_of(&output), text_of(&refusals));
    let status = if is_refused { "status 1\n" } else { "" };
    Ok(format!(in alloc; "{shown}{refused}{status}")?)
}

/// Works on an input.
fn run_input(
    session: &mut Session<'_, '_, '_, Vec<u8>, Vec<u8>>,
    input: &[u8],
) -> Result<(), CallFault> {
    session.begin()?;
    if session.call.work == Work::Example {
        return session.example();
    }
    if !session.call.has_lines {
        return session.input("input", input);
    }
    match BufReader::new(session.alloc, input) {
        Ok(reader) => session.lines("input", reader),
        Err(error) => Err(CallFault::of_write(error)),
    }
}
