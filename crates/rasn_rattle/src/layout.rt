//! Text as the formatter lays it out: lines of at most 100 columns.
use crate::template::push_separator;
use std::alloc::{AllocError, Global};

/// The columns of a line.
pub(crate) const COLUMNS: usize = 100;

/// The most columns that a list in one line has between its brackets.
const LIST_COLUMNS: usize = 60;

/// Returns the number of letters of a text.
pub(crate) fn columns(text: &str) -> usize {
    text.chars().count()
}

/// Returns whether a line has no more than the columns of one.
pub(crate) fn is_short(line: &str) -> bool {
    columns(line) <= COLUMNS
}

/// Returns a text as lines of a comment, each of which begins with the prefix.
pub(crate) fn comment(alloc: Global, prefix: &str, text: &str) -> Result<String, AllocError> {
    let mut lines = String::from_str(alloc, prefix)?;
    let start = columns(prefix);
    let mut width = start;
    for word in text.split(' ') {
        let added = columns(word).saturating_add(1);
        if width.saturating_add(added) > COLUMNS && width > start {
            write!(lines, "\n{prefix}")?;
            width = start;
        }
        write!(lines, " {word}")?;
        width = width.saturating_add(added);
    }
    lines.push('\n')?;
    Ok(lines)
}

/// Returns the line that imports types of a crate, which have commas between them, or lines if it
/// is long.
pub(crate) fn import(alloc: Global, from: &str, types: &str) -> Result<String, AllocError> {
    let line = if types.contains(", ") {
        format!(in alloc; "use {from}::{{{types}}};\n")?
    } else {
        format!(in alloc; "use {from}::{types};\n")?
    };
    if columns(line.as_str()) < COLUMNS {
        return Ok(line);
    }
    let mut lines = format!(in alloc; "use {from}::{{\n   ")?;
    let mut width: usize = 3;
    for name in types.split(", ") {
        let added = columns(name).saturating_add(2);
        if width.saturating_add(added) > COLUMNS {
            lines.push_str("\n   ")?;
            width = 3;
        }
        write!(lines, " {name},")?;
        width = width.saturating_add(added);
    }
    lines.push_str("\n};\n")?;
    Ok(lines)
}

/// Adds the line that names a type with parameters, or lines if it is long.
pub(crate) fn push_alias(
    text: &mut String,
    name: &str,
    of: &str,
    parameters: &[&str],
) -> Result<(), AllocError> {
    let alloc = *text.allocator();
    let mut short = String::new(alloc);
    let mut long = String::new(alloc);
    for parameter in parameters {
        push_separator(&mut short, ", ")?;
        short.push_str(*parameter)?;
        writeln!(long, "    {parameter},")?;
    }
    let line = format!(in alloc; "type {name} = {of}<{short}>;")?;
    if is_short(line.as_str()) {
        return writeln!(text, "{line}");
    }
    writeln!(text, "type {name} = {of}<\n{long}>;")
}

/// Values with commas between them, in a line and in lines of their own.
#[derive(Drop)]
pub(crate) struct List {
    alloc: Global,
    line: String,
    lines: String,
    count: usize,
}

impl List {
    /// Returns a list without values.
    pub(crate) fn new(alloc: Global) -> List {
        List {
            alloc,
            line: String::new(alloc),
            lines: String::new(alloc),
            count: 0,
        }
    }

    /// Adds a value.
    pub(crate) fn push(&mut self, value: &str) -> Result<(), AllocError> {
        push_separator(&mut self.line, ", ")?;
        self.line.push_str(value)?;
        let value = value.replace(self.alloc, "\n", "\n    ")?;
        writeln!(self.lines, "    {value},")?;
        self.count = self.count.saturating_add(1);
        Ok(())
    }

    /// Adds a tuple of values.
    pub(crate) fn push_tuple(&mut self, values: &[&str]) -> Result<(), AllocError> {
        let tuple = listed(self.alloc, "(", values, ")")?;
        self.push(tuple.as_str())
    }

    /// Returns the list between brackets: in one line if it is short or has one value.
    pub(crate) fn between(&self, open: &str, close: &str) -> Result<String, AllocError> {
        let line = self.line.as_str();
        if self.count == 1 || (columns(line) <= LIST_COLUMNS && !line.contains('\n')) {
            return format!(in self.alloc; "{open}{line}{close}");
        }
        let lines = self.lines.as_str();
        format!(in self.alloc; "{open}\n{lines}{close}")
    }
}

/// Returns a list of these values between brackets.
pub(crate) fn listed(
    alloc: Global,
    open: &str,
    values: &[&str],
    close: &str,
) -> Result<String, AllocError> {
    let mut list = List::new(alloc);
    for value in values {
        list.push(*value)?;
    }
    list.between(open, close)
}
