//! Reads files of modules, and rows of standard input: `rasn-schema-rows FILE..`. Prints each fault
//! of the files, and then each row with its result.
#![tactic(auto)]

mod departures;
mod json;
mod library;
mod messages;
mod modules;
mod octets;
mod rows;
mod same;
mod schema_octets;
mod show;
mod table;
mod types;

use crate::rows::print_rows;
use rasn_compiler::{Modules, Source};
use std::{env, fs, io};

fn main(rt: HostRuntime) -> io::Result<()> {
    let files = read_files(&rt)?;
    print_all(&rt, &files)
}

/// Reads the files of the arguments: the name and the text of each.
fn read_files(rt: &HostRuntime) -> io::Result<Vec<(String, String)>> {
    let mut files = Vec::new(rt.alloc());
    for name in env::args(rt)?.skip(1) {
        let text = fs::read_to_string(rt, name.as_str())?;
        files.push((name, text))?;
    }
    Ok(files)
}

/// Prints the faults of the modules of these files, and the rows with their results.
fn print_all(rt: &HostRuntime, files: &[(String, String)]) -> io::Result<()> {
    let mut sources = Vec::new(rt.alloc());
    for (name, text) in files {
        let (name, text) = (name.as_str(), text.as_str());
        sources.push(Source { name, text })?;
    }
    let read = Modules::parse(rt.alloc(), sources.as_slice())?;
    print_rows(rt, &read)
}
