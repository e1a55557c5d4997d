//! Calls within one another, as `Other(Other(This(value)))`, laid out as the formatter does.
use crate::layout::{COLUMNS, columns, is_short};
use crate::template::push_times;
use std::alloc::{AllocError, Global};

/// Returns calls within one another around a value, each of which is given with its bracket.
pub(crate) fn called(alloc: Global, words: &[&str]) -> Result<String, AllocError> {
    let mut text = String::new(alloc);
    for word in words {
        text.push_str(*word)?;
    }
    text.push_str("value")?;
    push_times(&mut text, ")", words.len())?;
    Ok(text)
}

/// Adds the arm that reads an alternative: the place of the value, and the variant of it.
pub(crate) fn push_read_arm(
    text: &mut String,
    place: &str,
    variant: &str,
) -> Result<(), AllocError> {
    let alloc = *text.allocator();
    let line = format!(in alloc; "            {place} => Ok({variant}(value)),")?;
    if is_short(line.as_str()) {
        return writeln!(text, "{line}");
    }
    let line = format!(in alloc; "            {place} => Ok({variant}(")?;
    if is_short(line.as_str()) {
        return write!(text, "{line}\n                value,\n            )),\n");
    }
    let line = format!(in alloc; "            {place} => Ok(")?;
    if is_short(line.as_str()) {
        return write!(
            text,
            "{line}\n                {variant}(value),\n            ),\n"
        );
    }
    let line = format!(in alloc; "            {place} =>")?;
    if is_short(line.as_str()) {
        return write!(text, "{line}\n                Ok({variant}(value)),\n");
    }
    let pattern = pattern(alloc, place)?;
    writeln!(text, "{pattern} => Ok({variant}(value)),")
}

/// Returns a long pattern of an arm, a line for each of its outermost calls.
fn pattern(alloc: Global, place: &str) -> Result<String, AllocError> {
    let mut begin = String::new(alloc);
    let mut end = String::new(alloc);
    let mut indent = spaces(alloc, 12)?;
    let mut inner = String::from_str(alloc, place)?;
    for _ in 0..place.len() {
        if columns(indent.as_str()).saturating_add(columns(inner.as_str())) < COLUMNS {
            break;
        }
        let Some((call, within)) = inner.as_str().split_once("(") else {
            break;
        };
        writeln!(begin, "{indent}{call}(")?;
        end = format!(in alloc; ",\n{indent}){end}")?;
        indent.push_str("    ")?;
        let within = String::from_str(alloc, within.strip_suffix(')').unwrap_or(within))?;
        inner = within;
    }
    format!(in alloc; "{begin}{indent}{inner}{end}")
}

/// Adds the arm that writes an alternative: a pattern, and the calls around the value.
pub(crate) fn push_write_arm(
    text: &mut String,
    pattern: &str,
    words: &[&str],
) -> Result<(), AllocError> {
    let alloc = *text.allocator();
    let head = format!(in alloc; "            {pattern} => encoder.write_choice::<Written<'_>>(")?;
    let mut nested = Nested {
        alloc,
        text: String::new(alloc),
        line: head,
        indent: 12,
        opened: Vec::new(alloc),
    };
    if !is_short(nested.line.as_str()) {
        nested.text = format!(in alloc;
            "            {pattern} => encoder.write_choice::<\n                Written<'_>,\n"
        )?;
        nested.line = String::from_str(alloc, "            >(")?;
    }
    nested.write(words)?;
    text.push_str(nested.text.as_str())
}

/// Calls within one another on several lines.
#[derive(Drop)]
struct Nested {
    alloc: Global,
    /// What is written.
    text: String,
    /// The line that isn't written yet.
    line: String,
    /// How far the line is indented.
    indent: usize,
    /// How many calls each of the lines before opens.
    opened: Vec<usize>,
}

impl Nested {
    /// Writes the calls, on as many lines as they need.
    fn write(&mut self, words: &[&str]) -> Result<(), AllocError> {
        let mut done: usize = 0;
        for _ in 0..=words.len() {
            let rest = words.get(done..).unwrap_or(&[]);
            let line = self.in_a_line(rest)?;
            if is_short(line.as_str()) || rest.is_empty() {
                writeln!(self.text, "{line}")?;
                break;
            }
            done = done.saturating_add(self.write_line(rest)?);
        }
        self.close()
    }

    /// Returns the line with all calls in it.
    fn in_a_line(&self, words: &[&str]) -> Result<String, AllocError> {
        let calls = called(self.alloc, words)?;
        let end = if self.opened.is_empty() { ")," } else { "," };
        format!(in self.alloc; "{}{calls}{end}", self.line.as_str())
    }

    /// Writes a line with as many calls as it has place for. Returns how many they are.
    fn write_line(&mut self, words: &[&str]) -> Result<usize, AllocError> {
        let mut count: usize = 0;
        for word in words {
            if columns(self.line.as_str()).saturating_add(columns(*word)) > COLUMNS {
                break;
            }
            self.line.push_str(*word)?;
            count = count.saturating_add(1);
        }
        writeln!(self.text, "{}", self.line.as_str())?;
        self.opened.push(count)?;
        self.indent = self.indent.saturating_add(4);
        self.line = spaces(self.alloc, self.indent)?;
        Ok(count)
    }

    /// Closes the calls of the lines before.
    fn close(&mut self) -> Result<(), AllocError> {
        for _ in 0..self.opened.len() {
            if let Some(count) = self.opened.pop() {
                self.close_line(count)?;
            }
        }
        Ok(())
    }

    /// Closes the calls of a line.
    fn close_line(&mut self, count: usize) -> Result<(), AllocError> {
        self.indent = self.indent.saturating_sub(4);
        push_times(&mut self.text, " ", self.indent)?;
        push_times(&mut self.text, ")", count)?;
        self.text.push_str(if self.opened.is_empty() {
            "),\n"
        } else {
            ",\n"
        })
    }
}

/// Returns so many spaces.
fn spaces(alloc: Global, count: usize) -> Result<String, AllocError> {
    let mut text = String::new(alloc);
    push_times(&mut text, " ", count)?;
    Ok(text)
}
