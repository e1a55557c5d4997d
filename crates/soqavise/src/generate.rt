//! The subcommand `generate`, which writes a crate of typed Rattle for the types of modules.

use crate::module_files::read_text;
use crate::words::{is_marked, name_shown};
use crate::{NO_NAME, REFUSED, USAGE, sources_of, unreadable, unreadable_as};
use clap::{Arg, ArgAction, ArgMatches, Command};
use rasn_compiler::{Modules, Source};
use rasn_print::{CallFault, modules_of};
use rasn_rattle::{File, Options, crate_files, is_crate_name, types_held};
use rasn_text::{Escaping, visible};
use std::alloc::{AllocError, Global};
use std::{fs, io};

/// The help of the options that may be repeated.
const MESSAGE: &str = "Says that TYPE is a whole message, which is read by RULES: ber, cer or der; \
    may be repeated";

const ALSO: &str = "Names a file NAME.rt of the crate that is written by hand, as a public module; \
    may be repeated";

const TYPE: &str = "Writes TYPE and what it is made of, instead of all types of the modules; \
    may be repeated";

const OPEN: &str = "Writes TYPE as an open type, whose values are octets; may be repeated";

const FROM: &str = "Takes the types of the modules in FILE from CRATE, which has been written of \
    them; may be repeated";

/// How a crate is written if a type has no schema.
const WITHOUT: &str = "soqavise: `soqavise types --module FILE` prints which types have a fault, \
    and --type TYPE writes a crate without them\n";

/// Returns the subcommand: its arguments and help.
pub(crate) fn generate_command<'a>(alloc: Global) -> Result<Command<'a>, AllocError> {
    let files = Arg::new(alloc, "file")
        .value_name("FILE")
        .num_args(1..)
        .required(true)
        .help("The files of the modules");
    let out = Arg::new(alloc, "out")
        .long("out")
        .value_name("FOLDER")
        .required(true)
        .help("The folder of the crate, which has its name; files of these types are overwritten");
    Command::new(alloc, "generate")
        .about(
            "Writes the types of modules as a crate of Rattle, and prints its line of crates.txt",
        )
        .after_help(
            "Example: soqavise generate My.asn1 --out crates/mine --message Certificate=der",
        )
        .arg(files)?
        .arg(out)?
        .arg(repeated(alloc, "message", "TYPE=RULES", MESSAGE))?
        .arg(repeated(alloc, "also", "NAME", ALSO))?
        .arg(repeated(alloc, "type", "TYPE", TYPE))?
        .arg(repeated(alloc, "open", "TYPE", OPEN))?
        .arg(repeated(alloc, "from", "CRATE=FILE", FROM))
}

/// Returns an option that may be repeated.
fn repeated<'a>(alloc: Global, name: &'a str, value: &'a str, help: &'a str) -> Arg<'a> {
    Arg::new(alloc, name)
        .long(name)
        .value_name(value)
        .action(ArgAction::Append)
        .help(help)
}

/// Runs the subcommand. Returns its exit status.
pub(crate) fn run_generate(rt: &HostRuntime, matches: &ArgMatches<'_>) -> Result<u8, CallFault> {
    let folder = matches.get_str("out").unwrap_or("");
    let name = crate_name(folder);
    if !is_crate_name(name) {
        return wrong(
            rt,
            folder,
            "the crate's name is not of small letters, digits and _, of which a letter comes first",
        );
    }
    let mut options = Options::new(rt.alloc(), name)?;
    for option in ["message", "also", "type", "open"] {
        let values = matches.get_strs(option).unwrap_or(&[]);
        if let Some(value) = add_values(&mut options, option, values)? {
            return wrong(rt, value, form_of(option));
        }
    }
    run_options(rt, matches, options, folder)
}

/// Adds the values of an option. Returns the first one that it can't have.
fn add_values<'a>(
    options: &mut Options,
    option: &str,
    values: &'a [&'a str],
) -> Result<Option<&'a str>, AllocError> {
    for value in values {
        if !options.add(option, value)? {
            return Ok(Some(value));
        }
    }
    Ok(None)
}

/// Returns what is wrong about a value that an option can't have.
fn form_of(option: &str) -> &'static str {
    match option {
        "message" => "not TYPE=ber, TYPE=cer or TYPE=der, as --message has it",
        "also" => "not a name of small letters, digits and _, of which a letter comes first",
        _ => "not a value of this option",
    }
}

/// Prints what is wrong about a word of the command line. Returns the exit status.
fn wrong(rt: &HostRuntime, word: &str, reason: &str) -> Result<u8, CallFault> {
    let word = name_shown(rt.alloc(), word)?;
    eprintln!(rt; "{word}: {reason}").map_err(CallFault::of_write)?;
    Ok(USAGE)
}

/// Reads the files that the command line names, and writes the crate of the modules in them.
fn run_options(
    rt: &HostRuntime,
    matches: &ArgMatches<'_>,
    options: Options,
    folder: &str,
) -> Result<u8, CallFault> {
    let mut texts = Vec::new(rt.alloc());
    for file in matches.get_strs("file").unwrap_or(&[]) {
        if is_marked(file) {
            return unreadable_as(rt, file, &NO_NAME);
        }
        match read_text(rt, *file) {
            Ok(text) => texts.push((String::from_str(rt.alloc(), *file)?, text))?,
            Err(error) => return unreadable(rt, file, &error),
        }
    }
    let values = matches.get_strs("from").unwrap_or(&[]);
    run_files(rt, texts, values, options, folder)
}

/// Reads the files of modules whose types other crates have, as the values of `--from` say, and
/// writes the crate of the modules of these texts.
fn run_files(
    rt: &HostRuntime,
    texts: Vec<(String, String)>,
    values: &[&str],
    options: Options,
    folder: &str,
) -> Result<u8, CallFault> {
    let mut texts = texts;
    let mut options = options;
    let wanted = texts.len();
    for value in values {
        let Some((crate_name, file)) = value.split_once("=") else {
            return wrong(rt, value, "not CRATE=FILE, as --from has it");
        };
        match read_text(rt, file) {
            Ok(text) => {
                add_from(&mut options, crate_name, file, text.as_str())?;
                texts.push((String::from_str(rt.alloc(), file)?, text))?;
            }
            Err(error) => return unreadable(rt, file, &error),
        }
    }
    run_texts(rt, texts, wanted, &options, folder)
}

/// Adds that a crate has the types of the modules of a text.
fn add_from(
    options: &mut Options,
    crate_name: &str,
    name: &str,
    text: &str,
) -> Result<(), AllocError> {
    let read = Modules::parse(options.alloc(), &[Source { name, text }])?;
    options.add_from(crate_name, &read)
}

/// Returns the last part of the path of a folder.
fn crate_name(folder: &str) -> &str {
    let folder = folder.trim_end_matches('/');
    match folder.rsplit_once("/") {
        Some((_before, name)) => name,
        None => folder,
    }
}

/// Writes the crate of the modules of these texts, the first ones, as many as `wanted`, unless they
/// have a fault, which is printed.
fn run_texts(
    rt: &HostRuntime,
    texts: Vec<(String, String)>,
    wanted: usize,
    options: &Options,
    folder: &str,
) -> Result<u8, CallFault> {
    let alloc = options.alloc();
    let sources = sources_of(alloc, texts.as_slice())?;
    let own = sources.as_slice().get(..wanted).unwrap_or(&[]);
    let own = Modules::parse(alloc, own)?;
    let (read, faults) = modules_of(alloc, sources.as_slice())?;
    if !faults.is_empty() {
        return refused(rt, faults.as_str());
    }
    if let Some(name) = options.unknown_in(&read) {
        let text = format!(in alloc;
            "no type {name} is known; `soqavise types` prints those that are known"
        )?;
        return Err(CallFault::of_call(alloc, &text));
    }
    match types_held(options, &read, own.modules.len())? {
        Ok(held) => {
            let files = crate_files(options, held)?;
            write_files(rt, folder, options, files.as_slice())
        }
        Err(found) => {
            let fault = visible(
                alloc,
                Escaping::Line,
                found.fault.to_string(alloc)?.as_str(),
            )?;
            refused(rt, format!(in alloc; "{fault}\n{WITHOUT}")?.as_str())
        }
    }
}

/// Prints the faults of modules.
fn refused(rt: &HostRuntime, faults: &str) -> Result<u8, CallFault> {
    eprint!(rt; "{faults}").map_err(CallFault::of_write)?;
    Ok(REFUSED)
}

/// Writes the files of a crate into its folder, and prints its line of crates.txt, and which types
/// are open types that no option names.
fn write_files(
    rt: &HostRuntime,
    folder: &str,
    options: &Options,
    files: &[File],
) -> Result<u8, CallFault> {
    for file in files {
        let status = write_file(rt, folder, file)?;
        if status != 0 {
            return Ok(status);
        }
        if let Some(reason) = file.reason {
            let (folder, name) = (name_shown(rt.alloc(), folder)?, file.name.as_str());
            eprintln!(rt; "{folder}/src/{name}.rt: an open type, since {reason}").map_err(
                CallFault::of_write,
            )?;
        }
    }
    let line = visible(rt.alloc(), Escaping::Line, options.crates_line()?.as_str())?;
    println!(rt; "{line}").map_err(CallFault::of_write)?;
    Ok(0)
}

/// Writes a file of a crate and its answers. Returns the exit status.
fn write_file(rt: &HostRuntime, folder: &str, file: &File) -> Result<u8, CallFault> {
    let alloc = rt.alloc();
    let name = file.name.as_str();
    for answers in &file.answers {
        let (owner, function) = (answers.owner.as_str(), answers.function);
        let folder = format!(in alloc; "{folder}/proofs/{name}/{owner}/{function}")?;
        let status = write_text(rt, folder.as_str(), "Answers.antt", answers.text.as_str())?;
        if status != 0 {
            return Ok(status);
        }
    }
    let folder = format!(in alloc; "{folder}/src")?;
    let name = format!(in alloc; "{name}.rt")?;
    write_text(rt, folder.as_str(), name.as_str(), file.text.as_str())
}

/// Writes a text into a folder, which is made if it isn't there. Returns the exit status.
fn write_text(rt: &HostRuntime, folder: &str, name: &str, text: &str) -> Result<u8, CallFault> {
    if let Err(error) = fs::create_dir_all(rt, folder) {
        return unwritable(rt, folder, &error);
    }
    let path = format!(in rt.alloc(); "{folder}/{name}")?;
    match fs::write(rt, path.as_str(), text) {
        Ok(()) => Ok(0),
        Err(error) => unwritable(rt, path.as_str(), &error),
    }
}

/// Prints that a file can't be written.
fn unwritable(rt: &HostRuntime, name: &str, error: &io::Error) -> Result<u8, CallFault> {
    let name = name_shown(rt.alloc(), name)?;
    eprintln!(rt; "{name}: cannot write: {error}").map_err(CallFault::of_write)?;
    Ok(USAGE)
}
