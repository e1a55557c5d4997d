//! The command line.
ghost use Rattle.std.specs.Prelude.{◌≡◌, Some, IfOk, IfSome};
ghost use Rattle.clap.specs.Matches.{subcommand_name_of};
ghost use Rattle.rasn_print.specs.Calls.{word_of};

use clap::builder::ValueParser;
use clap::{Arg, ArgAction, ArgMatches, Command};
use rasn_json::Layout;
use rasn_lint::OpenTypes;
use rasn_types::types::Codec;
use std::alloc::{AllocError, Global};

/// What is done with messages.
#[derive(Clone, Copy, Debug, PartialEq, Eq)]
pub enum Work {
    Show,
    Check,
    Lint,
    Json,
    Encode,
    /// Prints JSON that `Encode` encodes.
    Example,
    Normalise,
    Types,
    Dump,
    /// Prints the values of parts, a line for each.
    Get,
    /// Prints the values of parts, a line for each message.
    Table,
}

/// The form in which messages are handed over.
#[derive(Clone, Copy, Debug, PartialEq, Eq)]
pub enum InputForm {
    /// Octets as they are.
    Der,
    Pem,
    /// Hexadecimal digits, with what may be between them, or a dump.
    Hex,
    Base64,
}

/// When the output is in colour.
#[derive(Clone, Copy, Debug, PartialEq, Eq)]
pub enum ColorChoice {
    /// If it is a terminal.
    Auto,
    Always,
    Never,
}

/// What the command line asks for.
#[derive(Drop)]
pub struct Call {
    pub work: Work,
    /// The files of messages; none for standard input.
    pub files: Vec<String>,
    /// The paths to the parts that are asked for.
    pub paths: Vec<String>,
    /// The files of modules.
    pub modules: Vec<String>,
    /// The type, perhaps with its module before it.
    pub type_name: Option<String>,
    pub rule: Option<Codec>,
    pub input: Option<InputForm>,
    /// Whether open types are looked into.
    pub open_types: OpenTypes,
    /// Says whether `normalise` counts a local time as one of UTC.
    pub is_local_utc: bool,
    /// Whether `show` prints where each part begins.
    pub has_offsets: bool,
    /// Whether `show` prints all of long octets.
    pub is_full: bool,
    /// Whether each line is a message.
    pub has_lines: bool,
    /// Prints JSON in place of a line that is refused, which says why.
    pub has_json_errors: bool,
    /// Reads messages that follow one another, with nothing between them.
    pub is_stream: bool,
    /// Whether what is shown, or the values of parts, are JSON.
    pub has_json: bool,
    /// Whether whole numbers of JSON that a double can't hold are strings.
    pub has_exact_numbers: bool,
    /// Whether `show` prints a page of HTML.
    pub has_html: bool,
    /// Whether the columns of a table have commas between them, and not tabs.
    pub is_csv: bool,
    pub color: ColorChoice,
}

impl Call {
    /// Returns whether what is printed for messages is messages, or values of them.
    pub(crate) fn prints_data(&self) -> bool {
        match self.work {
            Work::Json | Work::Encode | Work::Example | Work::Normalise | Work::Get | Work::Table =>
                true,
            Work::Show => self.has_json,
            Work::Check | Work::Lint | Work::Types | Work::Dump => false,
        }
    }

    /// Returns whether each of several messages has its name before it.
    pub(crate) fn has_headings(&self) -> bool {
        self.work == Work::Show && !self.has_json && !self.has_html
    }

    /// Returns how JSON is laid out: in one line if a line holds a message.
    pub(crate) fn layout(&self) -> Layout {
        if self.has_lines {
            Layout::Compact
        } else {
            Layout::Indented
        }
    }
}

/// The help of `--rules` of all commands that read messages.
const READ: &str =
    "The encoding rules by which messages are read (without it, BER for types of CMS, \
    LDAP, PKCS12 and SNMP, DER for others)";

/// The help of `--rules` of `encode`.
const WRITTEN: &str = "The encoding rules by which messages are written (without it, BER for types \
    of CMS, LDAP, PKCS12 and SNMP, DER for others)";

/// The help of `--type` of all commands that read messages.
const MESSAGES: &str =
    "The type of the messages (without it, that of the label of PEM, or the first \
    that reads a message)";

/// What the exit status of the program says.
const STATUSES: &str = "Exit status:\n  \
    0: no message is refused\n  \
    1: a message is refused or departs from DER, or a module of `types` or `generate` has a fault\n  \
    2: the call is wrong, a type isn't known or has a fault, or a file can't be read or written";

/// Returns the program's command: its subcommands, options and help.
///
/// # Errors
/// `AllocError` if memory runs out.
pub fn command<'a>(alloc: Global) -> Result<Command<'a>, AllocError> {
    Command::new(alloc, "soqavise")
        .bin_name("soqavise")?
        .version("0.33.0")
        .about("Shows, checks and converts messages of ASN.1 in BER, CER and DER")
        .after_help(STATUSES)
        .subcommand_required(true)
        .subcommand(show_command(alloc)?)?
        .subcommand(check_command(alloc)?)?
        .subcommand(lint_command(alloc)?)?
        .subcommand(json_command(alloc)?)?
        .subcommand(encode_command(alloc)?)?
        .subcommand(normalise_command(alloc)?)?
        .subcommand(types_command(alloc)?)?
        .subcommand(dump_command(alloc)?)?
        .subcommand(get_command(alloc)?)?
        .subcommand(table_command(alloc)?)
}

fn show_command<'a>(alloc: Global) -> Result<Command<'a>, AllocError> {
    messages(alloc, "show", "Prints messages as text with names")?
        .after_help("Example: soqavise show cert.pem")
        .arg(rules(alloc, READ))?
        .arg(color(alloc))?
        .arg(flag(
            alloc,
            "offsets",
            "Prints where each part begins, and its lengths",
        ))?
        .arg(flag(alloc, "full", "Prints all of octets that are cut otherwise"))?
        .arg(flag(
            alloc,
            "json",
            "Prints the same as JSON, with all octets; `json` prints that of X.697",
        )
        .conflicts_with("offsets")?)?
        .arg(
            flag(
                alloc,
                "html",
                "Prints a page of HTML: parts, where departures from DER are marked, beside octets",
            )
            .conflicts_with("json")?
            .conflicts_with("lines")?
            .conflicts_with("offsets")?,
        )
}

fn check_command<'a>(alloc: Global) -> Result<Command<'a>, AllocError> {
    messages(
        alloc,
        "check",
        "Prints nothing, or where a message is refused and why",
    )?
    .after_help("Example: soqavise check --type Certificate *.der")
    .arg(rules(alloc, READ))?
    .arg(outer(alloc))
}

fn lint_command<'a>(alloc: Global) -> Result<Command<'a>, AllocError> {
    messages(
        alloc,
        "lint",
        "Prints everything of messages of BER that departs from DER",
    )?
    .after_help("Example: soqavise lint --type Certificate message.ber")
    .arg(outer(alloc))
}

fn json_command<'a>(alloc: Global) -> Result<Command<'a>, AllocError> {
    messages(alloc, "json", "Prints messages as JSON (X.697)")?
        .after_help("Example: soqavise json cert.pem")
        .arg(rules(alloc, READ))?
        .arg(numbers(alloc))
}

fn encode_command<'a>(alloc: Global) -> Result<Command<'a>, AllocError> {
    Command::new(alloc, "encode")
        .about("Writes the messages whose JSON is read")
        .after_help("Example: soqavise encode --type Certificate cert.json")
        .arg(modules(alloc))?
        .arg(type_name(alloc, "The type of the messages").required_unless_present("example")?)?
        .arg(
            Arg::new(alloc, "example")
                .long("example")
                .value_name("[MODULE.]TYPE")
                .conflicts_with("type")?
                .conflicts_with("lines")?
                .conflicts_with("file")?
                .help("Prints JSON of this type to begin with, and reads nothing"),
        )?
        .arg(rules(alloc, WRITTEN))?
        .arg(lines(
            alloc,
            "Reads the JSON of a message from each line, and writes hexadecimal digits",
        ))?
        .arg(errors(alloc)?)?
        .arg(files(alloc))
}

fn normalise_command<'a>(alloc: Global) -> Result<Command<'a>, AllocError> {
    messages(alloc, "normalise", "Writes messages of BER or CER as DER")?
        .after_help("Example: soqavise normalise --type LDAPMessage message.ber")
        .arg(rules(alloc, READ))?
        .arg(
            Arg::new(alloc, "local")
                .long("local")
                .value_name("ZONE")
                .value_parser(ValueParser::from(["utc"].as_slice()))
                .help("What a time without a zone counts as (without it, the message is refused)"),
        )
}

fn types_command<'a>(alloc: Global) -> Result<Command<'a>, AllocError> {
    Command::new(alloc, "types")
        .about(
            "Lists the types of --module, or else those that are built in, or prints one of them",
        )
        .after_help("Example: soqavise types --module My.asn1")
        .arg(modules(alloc))?
        .arg(
            Arg::new(alloc, "type").value_name("[MODULE.]TYPE").help(
                "Prints what this type is, with the types that it is made of",
            ),
        )
}

fn dump_command<'a>(alloc: Global) -> Result<Command<'a>, AllocError> {
    Command::new(alloc, "dump")
        .about("Prints headers, lengths and values of any BER, without a type")
        .after_help("Example: soqavise dump message.ber")
        .arg(modules(alloc))?
        .arg(input(alloc))?
        .arg(files(alloc))
}

fn get_command<'a>(alloc: Global) -> Result<Command<'a>, AllocError> {
    of_parts(alloc, "get", "Prints the values of parts, a line for each")?
        .after_help("Example: soqavise get subject,validity.notAfter cert.pem")
        .arg(rules(alloc, READ))?
        .arg(flag(alloc, "json", "Prints values as JSON (X.697)"))
}

fn table_command<'a>(alloc: Global) -> Result<Command<'a>, AllocError> {
    of_parts(
        alloc,
        "table",
        "Prints a line for each message, with the values of these parts",
    )?
    .after_help("Example: soqavise table subject,validity.notAfter *.pem")
    .arg(rules(alloc, READ))?
    .arg(flag(
        alloc,
        "csv",
        "Prints commas between the columns, and not tabs",
    ))
}

/// Returns a command on parts of messages.
fn of_parts<'a>(alloc: Global, name: &'a str, about: &'a str) -> Result<Command<'a>, AllocError> {
    with_messages(
        alloc,
        Command::new(alloc, name).about(about).arg(
            Arg::new(alloc, "path")
                .value_name("PATH[,PATH]..")
                .required(true)
                .help("Names and indices, as subject or extensions[0].extnValue"),
        )?,
    )
}

/// Returns a command on messages.
fn messages<'a>(alloc: Global, name: &'a str, about: &'a str) -> Result<Command<'a>, AllocError> {
    with_messages(alloc, Command::new(alloc, name).about(about))
}

/// Returns a command with the options of those on messages.
fn with_messages<'a>(alloc: Global, command: Command<'a>) -> Result<Command<'a>, AllocError> {
    command
        .arg(modules(alloc))?
        .arg(type_name(alloc, MESSAGES))?
        .arg(
            lines(
                alloc,
                "Reads a message from each line, in hexadecimal or base64",
            )
            .conflicts_with("input")?
            .conflicts_with("stream")?,
        )?
        .arg(errors(alloc)?)?
        .arg(flag(
            alloc,
            "stream",
            "Reads several messages in a row, with nothing between them",
        ))?
        .arg(input(alloc))?
        .arg(files(alloc))
}

fn type_name<'a>(alloc: Global, help: &'a str) -> Arg<'a> {
    Arg::new(alloc, "type")
        .short('t')
        .long("type")
        .value_name("[MODULE.]TYPE")
        .help(help)
}

fn modules<'a>(alloc: Global) -> Arg<'a> {
    Arg::new(alloc, "module")
        .short('m')
        .long("module")
        .value_name("FILE")
        .action(ArgAction::Append)
        .help("Reads modules of ASN.1 from this file or folder, too; may be repeated")
}

fn rules<'a>(alloc: Global, help: &'a str) -> Arg<'a> {
    Arg::new(alloc, "rules")
        .short('r')
        .long("rules")
        .value_name("RULES")
        .value_parser(ValueParser::from(["ber", "cer", "der"].as_slice()))
        .ignore_case(true)
        .help(help)
}

fn input<'a>(alloc: Global) -> Arg<'a> {
    Arg::new(alloc, "input")
        .short('i')
        .long("input")
        .value_name("FORM")
        .value_parser(ValueParser::from(["der", "pem", "hex", "base64"].as_slice()))
        .help("The form of the input (without it, it is found out)")
}

fn errors<'a>(alloc: Global) -> Result<Arg<'a>, AllocError> {
    Arg::new(alloc, "errors")
        .long("errors")
        .value_name("FORM")
        .value_parser(ValueParser::from(["text", "json"].as_slice()))
        .help("The form in which --lines prints why a line is refused (without it, text)")
        .requires_arg("lines")
}

fn numbers<'a>(alloc: Global) -> Arg<'a> {
    Arg::new(alloc, "numbers")
        .long("numbers")
        .value_name("FORM")
        .value_parser(ValueParser::from(["json", "text"].as_slice()))
        .help(
            "The form of whole numbers that a double can't hold: as text strings of digits (without it, json)",
        )
}

fn color<'a>(alloc: Global) -> Arg<'a> {
    Arg::new(alloc, "color")
        .long("color")
        .value_name("WHEN")
        .value_parser(ValueParser::from(["auto", "always", "never"].as_slice()))
        .help("When names are in bold (without it, on a terminal where NO_COLOR isn't set)")
}

fn files<'a>(alloc: Global) -> Arg<'a> {
    Arg::new(alloc, "file")
        .value_name("FILE")
        .num_args(0..)
        .help("The files of messages; standard input without one, or for -")
}

fn outer<'a>(alloc: Global) -> Arg<'a> {
    flag(alloc, "outer", "Leaves out what is inside open types")
}

fn lines<'a>(alloc: Global, help: &'a str) -> Arg<'a> {
    flag(alloc, "lines", help).short('l')
}

fn flag<'a>(alloc: Global, name: &'a str, help: &'a str) -> Arg<'a> {
    Arg::new(alloc, name)
        .long(name)
        .action(ArgAction::SetTrue)
        .help(help)
}

/// Returns what the command line asks for, or `None` if it has no subcommand of `command`.
///
/// # Errors
/// `AllocError` if memory runs out.
pub fn call_of(alloc: Global, matches: &ArgMatches<'_>) -> Result<Option<Call>, AllocError>
    ensures { IfOk result (λ found. IfSome found (λ call. subcommand_name_of matches.now ≡ Some (word_of call.work))) }
{
    let Some((name, inner)) = matches.subcommand() else {
        return Ok(None);
    };
    let Some(work) = work_of(name, inner.get_str("example").is_some()) else {
        return Ok(None);
    };
    Ok(Some(Call {
        work,
        files: owned(alloc, inner.get_strs("file").unwrap_or(&[]))?,
        paths: paths_of(alloc, inner.get_str("path"))?,
        modules: owned(alloc, inner.get_strs("module").unwrap_or(&[]))?,
        type_name: match inner.get_str("type").or(inner.get_str("example")) {
            Some(name) => Some(String::from_str(alloc, name)?),
            None => None,
        },
        rule: rule_of(inner.get_str("rules")),
        input: form_of(inner.get_str("input")),
        open_types: open_types_of(inner.get_flag("outer")),
        is_local_utc: inner.get_str("local") == Some("utc"),
        has_offsets: inner.get_flag("offsets"),
        is_full: inner.get_flag("full"),
        has_lines: inner.get_flag("lines"),
        has_json_errors: inner.get_str("errors") == Some("json"),
        is_stream: inner.get_flag("stream"),
        has_json: inner.get_flag("json"),
        has_exact_numbers: inner.get_str("numbers") == Some("text"),
        has_html: inner.get_flag("html"),
        is_csv: inner.get_flag("csv"),
        color: color_of(inner.get_str("color")),
    }))
}

/// Returns copies of these words.
fn owned(alloc: Global, words: &[&str]) -> Result<Vec<String>, AllocError> {
    let mut copies = Vec::new(alloc);
    for word in words {
        copies.push(String::from_str(alloc, word)?)?;
    }
    Ok(copies)
}

/// Returns copies of the paths between commas.
fn paths_of(alloc: Global, paths: Option<&str>) -> Result<Vec<String>, AllocError> {
    let mut copies = Vec::new(alloc);
    if let Some(paths) = paths {
        for path in paths.split(',') {
            copies.push(String::from_str(alloc, path)?)?;
        }
    }
    Ok(copies)
}

/// Returns the work that a subcommand asks for, which may ask for an example.
fn work_of(name: &str, is_example: bool) -> Option<Work>
    ensures { IfSome result (λ work. name.now ≡ word_of work) }
{
    match name {
        "encode" if is_example => Some(Work::Example),
        "show" => Some(Work::Show),
        "check" => Some(Work::Check),
        "lint" => Some(Work::Lint),
        "json" => Some(Work::Json),
        "encode" => Some(Work::Encode),
        "normalise" => Some(Work::Normalise),
        "types" => Some(Work::Types),
        "dump" => Some(Work::Dump),
        "get" => Some(Work::Get),
        "table" => Some(Work::Table),
        _ => None,
    }
}

/// Returns the rules of this name, in capitals or small letters.
fn rule_of(name: Option<&str>) -> Option<Codec> {
    let name = name?;
    for (word, rule) in [
        ("ber", Codec::Ber),
        ("cer", Codec::Cer),
        ("der", Codec::Der),
    ] {
        if name.eq_ignore_ascii_case(word) {
            return Some(rule);
        }
    }
    None
}

fn form_of(name: Option<&str>) -> Option<InputForm> {
    match name? {
        "der" => Some(InputForm::Der),
        "pem" => Some(InputForm::Pem),
        "hex" => Some(InputForm::Hex),
        "base64" => Some(InputForm::Base64),
        _ => None,
    }
}

fn open_types_of(is_outer: bool) -> OpenTypes {
    if is_outer {
        OpenTypes::Unexamined
    } else {
        OpenTypes::Examined
    }
}

fn color_of(name: Option<&str>) -> ColorChoice {
    match name {
        Some("always") => ColorChoice::Always,
        Some("never") => ColorChoice::Never,
        _ => ColorChoice::Auto,
    }
}
