//! Prints the SHA-256 digests of the files of crates that are written from modules, as `sha256sum`
//! does. Standard input has a line `===` for each crate, with the words by which `soqavise generate`
//! writes it, and then the texts of the modules' files, each after a line with the file's name. For
//! a line `+++` the texts of the files are printed.
#![tactic(auto)]

use rasn_compiler::{Modules, Source};
use rasn_rattle::{Held, Options, crate_files, types_held};
use sha2::{Digest, Sha256};
use std::alloc::{AllocError, Global};
use std::io;

fn main(rt: HostRuntime) -> io::Result<()> {
    let text = io::read_to_string(rt.alloc(), rt.stdin())?;
    for line in text.as_str().lines() {
        if let Some((mark, words)) = line.split_once(" ") {
            if let Some(shown) = shown_by(mark) {
                let asked = asked_by(rt.alloc(), text.as_str(), words)?;
                print_crate(&rt, &asked, shown)?;
            }
        }
    }
    Ok(())
}

/// The form in which the files of a crate are printed.
#[derive(Clone, Copy)]
enum Shown {
    Digest,
    Text,
}

/// Returns what a line with this mark asks for; `None` if it asks for no crate.
fn shown_by(mark: &str) -> Option<Shown> {
    match mark {
        "===" => Some(Shown::Digest),
        "+++" => Some(Shown::Text),
        _ => None,
    }
}

/// A crate that is written.
#[derive(Drop)]
struct Asked<'text> {
    options: Options,
    name: &'text str,
    /// The texts that the types are of.
    own: Vec<Source<'text>>,
    /// All texts, those first.
    sources: Vec<Source<'text>>,
}

/// Returns what these words ask for, of the texts in standard input.
fn asked_by<'text>(
    alloc: Global,
    text: &'text str,
    words: &'text str,
) -> Result<Asked<'text>, AllocError> {
    let (name, words) = words.split_once(" ").unwrap_or((words, ""));
    let mut options = Options::new(alloc, name)?;
    let mut own = Vec::new(alloc);
    let mut option: Option<&'text str> = None;
    for word in words.split(' ') {
        match (word.strip_prefix("--"), option) {
            (Some(name), _) => option = Some(name),
            (None, None) => own.push(source(text, word))?,
            (None, Some(name)) => {
                add(alloc, &mut options, text, name, word)?;
                option = None;
            }
        }
    }
    let sources = with_others(alloc, text, own.as_slice())?;
    Ok(Asked {
        options,
        name,
        own,
        sources,
    })
}

/// Returns these texts of standard input, and then the others in it.
fn with_others<'text>(
    alloc: Global,
    text: &'text str,
    own: &[Source<'text>],
) -> Result<Vec<Source<'text>>, AllocError> {
    let mut sources = Vec::from_slice(alloc, own)?;
    for block in text.split("\n--- ").skip(1) {
        let (name, text) = block.split_once("\n").unwrap_or((block, ""));
        if !own.iter().any(|known| known.name == name) {
            sources.push(Source { name, text })?;
        }
    }
    Ok(sources)
}

/// Returns the text of the file with this name.
fn source<'text>(text: &'text str, name: &'text str) -> Source<'text> {
    for block in text.split("\n--- ").skip(1) {
        if let Some((known, text)) = block.split_once("\n") {
            if known == name {
                return Source { name, text };
            }
        }
    }
    Source { name, text: "" }
}

/// Adds what an option says.
fn add(
    alloc: Global,
    options: &mut Options,
    text: &str,
    option: &str,
    value: &str,
) -> Result<(), AllocError> {
    if option == "from" {
        let (crate_name, file) = value.split_once("=").unwrap_or((value, ""));
        let read = Modules::parse(alloc, &[source(text, file)])?;
        return options.add_from(crate_name, &read);
    }
    options.add(option, value)?;
    Ok(())
}

/// Prints the files of a crate, or what is wrong about its modules.
fn print_crate(rt: &HostRuntime, asked: &Asked<'_>, shown: Shown) -> io::Result<()> {
    let alloc = rt.alloc();
    let wanted = Modules::parse(alloc, asked.own.as_slice())?.modules.len();
    let read = Modules::parse(alloc, asked.sources.as_slice())?;
    for fault in &read.faults {
        println!(rt; "{fault}")?;
    }
    if let Some(ty) = asked.options.unknown_in(&read) {
        println!(rt; "no type {ty} is known")?;
    }
    match types_held(&asked.options, &read, wanted)? {
        Ok(held) => print_files(rt, asked, held, shown),
        Err(found) => println!(rt; "{}", found.fault),
    }
}

/// Prints the files of a crate, each with its answers.
fn print_files(rt: &HostRuntime, asked: &Asked<'_>, held: Held, shown: Shown) -> io::Result<()> {
    let (alloc, name) = (rt.alloc(), asked.name);
    for file in &crate_files(&asked.options, held)? {
        let module = file.name.as_str();
        let path = format!(in alloc; "crates/{name}/src/{module}.rt")?;
        print_file(rt, path.as_str(), file.text.as_str(), shown)?;
        for answers in &file.answers {
            let (owner, function) = (answers.owner.as_str(), answers.function);
            let path = format!(in alloc;
                "crates/{name}/proofs/{module}/{owner}/{function}/Answers.antt"
            )?;
            print_file(rt, path.as_str(), answers.text.as_str(), shown)?;
        }
    }
    Ok(())
}

/// Prints the digest of a file and its path, or its path and its text.
fn print_file(rt: &HostRuntime, path: &str, text: &str, shown: Shown) -> io::Result<()> {
    match shown {
        Shown::Digest => {
            for octet in Sha256::digest(text.as_bytes()) {
                print!(rt; "{octet:02x}")?;
            }
            println!(rt; "  {path}")
        }
        Shown::Text => print!(rt; "=== {path}\n{text}"),
    }
}
