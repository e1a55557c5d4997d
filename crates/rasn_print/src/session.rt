//! Goes over the messages of inputs.
ghost use Rattle.std.specs.Prelude.{◌≡◌, ◌<◌, true, length};

use crate::catalog::{Catalog, candidates_for};
use crate::command_line::{Call, Work};
use crate::dump::{Entries, Entry, entry_line, fault_text, first_encoding};
use crate::fault::CallFault;
use crate::input::{Form, form_of, form_of_line, is_plain_text, without_mark};
use crate::known::Candidates;
use crate::messages::{TRUST, TRUSTED};
use crate::page::{page_block, page_data, page_head};
use crate::pasted::unindented;
use crate::pem_fault::block_fault;
use crate::printer::large::Lines;
use crate::printer::write_large;
use crate::query::{cell_text, row_text};
use crate::reason::Reason;
use crate::values::first_value;
use crate::work::{
    Answer, Context, Input, Shown, answer_of_first, answer_to, is_of_first, printed,
};
use json::Scratch;
use rasn_text::{Block, Escaping, visible};
use std::alloc::{AllocError, Global};
use std::io::{self, BufRead, BufReader, ErrorKind, Read, Write};
use std::{fmt, slice, str};

/// What is added to why text is refused.
const NO_FORM: &str = "; the input is text, but neither PEM, hexadecimal digits nor base64";

/// Processes messages, and prints the results.
#[derive(Drop)]
pub struct Session<'call, 'read, 'text, W: Write + Drop, E: Write + Drop> {
    pub alloc: Global,
    pub call: &'call Call,
    pub catalog: Catalog<'read, 'text>,
    /// Whether names are in bold.
    pub is_colored: bool,
    pub output: W,
    pub refusals: E,
    /// Whether a message was refused.
    pub is_refused: bool,
}

impl<W: Write + Drop, E: Write + Drop> Session<'_, '_, '_, W, E> {
    /// Writes octets.
    fn write(&mut self, octets: &[u8]) -> Result<(), CallFault>
        ensures { self.new.is_refused ≡ self.old.is_refused }
    {
        self.output.write_all(octets).map_err(CallFault::of_write)
    }

    /// Writes why a message of the input with this name is refused.
    fn refuse<T: fmt::Display>(&mut self, name: &str, reason: &T) -> Result<(), CallFault>
        ensures { self.new.is_refused ≡ true }
    {
        self.is_refused = true;
        let line = line_of(self.alloc, name, reason)?;
        self.refusals
            .write_all(line.as_bytes())
            .map_err(CallFault::of_write)
    }

    /// Flushes the output.
    ///
    /// # Errors
    /// `Write` if it can't be written, `Closed` if its reader has gone, `Memory` if memory runs
    /// out.
    pub fn flush(&mut self) -> Result<(), CallFault>
        ensures { self.new.is_refused ≡ self.old.is_refused }
    {
        self.output.flush().map_err(CallFault::of_write)
    }

    /// Works on the messages of an input. A message that is refused sets `is_refused` and is no
    /// error.
    ///
    /// # Errors
    /// As `flush`.
    pub fn input(&mut self, name: &str, octets: &[u8]) -> Result<(), CallFault> {
        let alloc = self.alloc;
        let plain = unindented(alloc, without_mark(octets))?;
        let text = match &plain {
            Some(text) => text.as_slice(),
            None => without_mark(octets),
        };
        let is_headed = self.call.has_headings() && self.call.files.len() > 1;
        match form_of(alloc, self.call, text)? {
            Form::Pem(blocks) => self.pem(name, text, blocks.as_slice(), is_headed),
            Form::Text(octets) if self.call.is_stream => self.octets(name, &octets, true),
            Form::Text(octets) => self.message(name, &Input::text(&octets), is_headed),
            Form::Wrong(reason) => self.refuse(name, &reason),
            Form::Octets if self.call.work == Work::Encode => self.values(name, text),
            Form::Octets if self.call.is_stream => self.octets(name, octets, false),
            Form::Octets => self.message(name, &Input::of(octets), is_headed),
        }
    }

    /// Works on each of the JSON values that follow one another in a text. Those after the first are
    /// named by the line in which they begin.
    fn values(&mut self, name: &str, octets: &[u8]) -> Result<(), CallFault> {
        let alloc = self.alloc;
        let text = str::from_utf8(octets).unwrap_or("");
        if text.is_empty() {
            return self.message(name, &Input::of(octets), false);
        }
        let mut scratch = Scratch::new(alloc);
        let (mut start, mut line) = (0usize, 1usize);
        // Each value has an octet of its own.
        for _ in octets {
            let (before, rest) = text.split_at_checked(start).unwrap_or((text, ""));
            if rest.is_empty() {
                break;
            }
            let value = first_value(rest, &mut scratch)?;
            if value.len() == rest.len() {
                // The last value needs none of it.
                scratch = Scratch::new(alloc);
            }
            let input = Input {
                before,
                ..Input::of(value.as_bytes())
            };
            let named = format!(in alloc; "{name}, line {line}")?;
            let name = if start == 0 { name } else { named.as_str() };
            self.message(name, &input, false)?;
            start = start.saturating_add(value.len());
            line = line.saturating_add(value.matches('\n').count());
        }
        Ok(())
    }

    /// Works on each of the messages that octets are in a row, and on what follows the last whole
    /// encoding.
    fn octets(&mut self, name: &str, octets: &[u8], is_text: bool) -> Result<(), CallFault> {
        let alloc = self.alloc;
        let is_headed = self.call.has_headings();
        let mut rest = octets;
        // Each encoding has an octet of its own.
        for _ in octets {
            if rest.is_empty() {
                break;
            }
            let offset = octets.len().saturating_sub(rest.len());
            let name = format!(in alloc; "{name}, byte {offset}")?;
            let (first, after) = first_encoding(alloc, rest);
            let input = Input {
                is_text,
                ..Input::of(first)
            };
            self.message(name.as_str(), &input, is_headed)?;
            rest = after;
        }
        Ok(())
    }

    /// Works on the blocks of PEM of a text, each of which has a name before it if that is wanted, or
    /// if several are shown.
    fn pem(
        &mut self,
        name: &str,
        text: &[u8],
        blocks: &[Block<'_>],
        is_headed: bool,
    ) -> Result<(), CallFault> {
        let alloc = self.alloc;
        let is_headed = is_headed || (self.call.has_headings() && blocks.len() > 1);
        if blocks.is_empty() {
            return self.refuse(name, &"no line -----BEGIN LABEL-----");
        }
        for block in blocks {
            let label = str::from_utf8(block.label).unwrap_or("?");
            let line = block.line;
            let name = format!(in alloc; "{name}: {label} in line {line}")?;
            match &block.contents {
                Ok(octets) => {
                    let (first, trust) = self.parted(label, octets);
                    self.message(name.as_str(), &Input::labelled(first, label), is_headed)?;
                    if !trust.is_empty() {
                        let name = format!(in alloc; "{name}, byte {}", first.len())?;
                        self.message(name.as_str(), &Input::labelled(trust, TRUST), is_headed)?;
                    }
                }
                Err(error) => {
                    let reason = block_fault(alloc, text, line, error)?;
                    self.refuse(name.as_str(), &reason)?;
                }
            }
        }
        Ok(())
    }

    /// Returns the octets of a block of PEM with this label, and what openssl writes after a
    /// certificate that it trusts, unless the call names a type or all octets are dumped.
    fn parted<'octets>(
        &self,
        label: &str,
        octets: &'octets [u8],
    ) -> (&'octets [u8], &'octets [u8]) {
        let call = self.call;
        if label != TRUSTED || call.type_name.is_some() || call.work == Work::Dump {
            return (octets, &[]);
        }
        first_encoding(self.alloc, octets)
    }

    /// Works on a message, and writes its name before it if that is wanted.
    fn message(&mut self, name: &str, input: &Input<'_>, is_headed: bool) -> Result<(), CallFault> {
        if self.call.work == Work::Dump {
            return self.dump(name, input.octets);
        }
        match self.answer(input)? {
            Answer::Done(data) if self.call.has_html => {
                let block = page_block(self.alloc, name, &data)?;
                self.write(&block)
            }
            Answer::Done(octets) => {
                if self.call.work == Work::Table {
                    self.write_cell(name)?;
                }
                self.write_name(name, is_headed)?;
                self.write(&octets)
            }
            Answer::Large(shown) => {
                self.write_name(name, is_headed)?;
                self.write_large(&shown, input.octets)
            }
            Answer::Departures(reasons) => self.write_departures(name, reasons.as_slice()),
            Answer::Refused(reason) => {
                let mut text = reason.to_line(self.alloc)?;
                let is_octets = input.label.is_none() && !input.is_text;
                if is_octets && self.call.work != Work::Encode && is_plain_text(input.octets) {
                    text.push_str(NO_FORM)?;
                }
                if self.call.has_html {
                    let reasons = slice::from_ref(&reason);
                    let data = page_data(self.alloc, input.octets, "", None, reasons)?;
                    let block = page_block(self.alloc, name, &data)?;
                    self.write(&block)?;
                }
                self.refuse(name, &text)
            }
        }
    }

    /// Writes the name of a message, if that is wanted.
    fn write_name(&mut self, name: &str, is_headed: bool) -> Result<(), CallFault> {
        if !is_headed {
            return Ok(());
        }
        let heading = visible(self.alloc, Escaping::Line, name)?;
        writeln!(self.output, "{heading}").map_err(CallFault::of_write)
    }

    /// Writes the lines of a large message, which is of this type.
    fn write_large(&mut self, shown: &Shown, octets: &[u8]) -> Result<(), CallFault> {
        let alloc = self.alloc;
        let index = self.catalog.resolve(alloc, self.call, shown.candidates)?;
        let mut lines = Lines {
            output: &mut self.output,
            text: String::new(alloc),
            is_colored: self.is_colored,
        };
        let known = self.catalog.known(index);
        write_large(&mut lines, alloc, known, shown, octets)
    }

    /// Returns what messages are worked on with that may be of the types with this index.
    fn context(&self, index: usize) -> Context<'_>
        requires { index < length self.now.catalog.known.items }
    {
        Context {
            alloc: self.alloc,
            call: self.call,
            known: self.catalog.known(index),
            is_colored: self.is_colored,
        }
    }

    /// Returns what is printed for a message. While the types that are tried aren't resolved, the
    /// first of them is tried alone.
    fn answer(&mut self, input: &Input<'_>) -> Result<Answer, CallFault>
        ensures { self.new.is_refused ≡ self.old.is_refused }
    {
        let (alloc, call) = (self.alloc, self.call);
        let candidates = candidates_for(call, input.label);
        if self.catalog.may_try_first(candidates) {
            let first = self.catalog.resolve(alloc, call, Candidates::First)?;
            if is_of_first(&self.context(first), input)? {
                let shown = if call.work == Work::Show {
                    self.catalog.resolve(alloc, call, Candidates::Labelled(0))?
                } else {
                    first
                };
                return Ok(answer_of_first(&self.context(shown), input)?);
            }
        }
        let index = self.catalog.resolve(alloc, call, candidates)?;
        Ok(answer_to(&self.context(index), input)?)
    }

    /// Writes the first line of a table, if one is asked for, that is the names of its columns, which
    /// are the paths to the parts; or the beginning of a page.
    ///
    /// # Errors
    /// As `flush`.
    pub fn begin(&mut self) -> Result<(), CallFault> {
        let call = self.call;
        if call.has_html {
            let head = page_head(self.alloc)?;
            return self.write(head.as_bytes());
        }
        if call.work != Work::Table {
            return Ok(());
        }
        self.write_cell("message")?;
        let mut cells = Vec::new(self.alloc);
        for path in &call.paths {
            cells.push(visible(self.alloc, Escaping::Line, path.as_str())?)?;
        }
        let row = row_text(self.alloc, call, cells.as_slice())?;
        self.write(row.as_bytes())
    }

    /// Writes the first cell of a row of a table.
    fn write_cell(&mut self, text: &str) -> Result<(), CallFault> {
        let text = visible(self.alloc, Escaping::Line, text)?;
        let cell = cell_text(self.alloc, self.call, text.as_str())?;
        self.write(cell.as_bytes())
    }

    /// Writes a line for each departure of a message from DER, and how many there are.
    fn write_departures(&mut self, name: &str, reasons: &[Reason]) -> Result<(), CallFault>
        ensures { self.new.is_refused ≡ true }
    {
        let written = self.write_reasons(name, reasons);
        self.is_refused = true;
        written
    }

    /// Writes a line for each of these reasons, and how many there are.
    fn write_reasons(&mut self, name: &str, reasons: &[Reason]) -> Result<(), CallFault> {
        let alloc = self.alloc;
        for reason in reasons {
            let line = line_of(alloc, name, &reason.to_line(alloc)?)?;
            self.write(line.as_bytes())?;
        }
        let count = match reasons {
            [_] => String::from_str(alloc, "1 departure from DER")?,
            _ => format!(in alloc; "{} departures from DER", reasons.len())?,
        };
        let line = line_of(alloc, name, &count)?;
        self.write(line.as_bytes())
    }

    /// Prints a value of the type that the call names as JSON that `encode` encodes.
    ///
    /// # Errors
    /// As `flush`.
    pub fn example(&mut self) -> Result<(), CallFault> {
        self.message("example", &Input::of(&[]), false)
    }

    /// Prints the encodings of octets, each as soon as it is read.
    fn dump(&mut self, name: &str, octets: &[u8]) -> Result<(), CallFault> {
        let mut entries = Entries::opened(self.alloc, octets);
        // Each encoding has an octet of its own.
        for _ in octets {
            match entries.next_opened() {
                Ok(Some(entry)) => self.write_entry(&entry)?,
                Ok(None) => return Ok(()),
                Err(error) => {
                    let fault = fault_text(self.alloc, &entries, &error)?;
                    return self.refuse(name, &fault);
                }
            }
        }
        Ok(())
    }

    /// Writes the line of an encoding.
    fn write_entry(&mut self, entry: &Entry<'_>) -> Result<(), CallFault> {
        let alloc = self.alloc;
        let index = self.catalog.resolve(alloc, self.call, Candidates::Nothing)?;
        let line = entry_line(alloc, self.catalog.known(index), entry)?;
        self.write(printed(alloc, Escaping::Lines, line)?.as_bytes())
    }

    /// Works on each line of an input, and prints a line for it; if that is data, why a line is
    /// refused is printed elsewhere. The output is flushed before more of the input is read, so that
    /// it has the results of all lines that are there. A line that is refused, and an input that
    /// can't be read, or from a block of PEM on, set `is_refused` and are no errors.
    ///
    /// # Errors
    /// As `flush`.
    pub fn lines<R: Read + Drop>(
        &mut self,
        name: &str,
        reader: BufReader<R>,
    ) -> Result<(), CallFault> {
        let mut reader = reader;
        let mut line = Vec::new(self.alloc);
        for index in 0..usize::MAX {
            if reader.buffer().is_empty() {
                self.flush()?;
            }
            line.clear();
            match reader.read_until(b'\n', &mut line) {
                Ok(0) => break,
                Ok(_) => {}
                Err(error) => return self.unreadable(name, &error),
            }
            let text = line.strip_suffix(b"\n").unwrap_or(line.as_slice());
            if without_mark(text).starts_with(b"-----BEGIN ") {
                return self.refuse(name, &"PEM, which is read without --lines");
            }
            self.line(name, index, text)?;
        }
        Ok(())
    }

    /// Writes why the input with this name can't be read.
    fn unreadable(&mut self, name: &str, error: &io::Error) -> Result<(), CallFault> {
        if error.kind() == ErrorKind::OutOfMemory {
            return Err(CallFault::Memory);
        }
        let reason = format!(in self.alloc; "cannot read: {error}")?;
        self.refuse(name, &reason)
    }

    /// Works on the line with this index: prints its answer, `ok` if that is empty, or why it is
    /// refused.
    fn line(&mut self, name: &str, index: usize, line: &[u8]) -> Result<(), CallFault> {
        let (alloc, number) = (self.alloc, index.saturating_add(1));
        let line = without_mark(line);
        match form_of_line(alloc, self.call.work, line)? {
            Form::Octets | Form::Pem(_) => self.line_message(name, number, line),
            Form::Text(octets) => self.line_message(name, number, &octets),
            Form::Wrong(reason) => {
                let reason = Reason::of(alloc, &reason)?;
                self.refuse_line(name, number, slice::from_ref(&reason))
            }
        }
    }

    /// Works on the message of the line with this number: the octets that the line denotes, or its
    /// JSON.
    fn line_message(&mut self, name: &str, number: usize, octets: &[u8]) -> Result<(), CallFault> {
        match self.answer(&Input::text(octets))? {
            Answer::Done(text) if text.is_empty() => self.write(b"ok\n"),
            Answer::Done(text) => {
                if self.call.work == Work::Table {
                    let number = number.to_string(self.alloc)?;
                    self.write_cell(number.as_str())?;
                }
                self.write(&text)
            }
            Answer::Large(shown) => self.write_large(&shown, octets),
            Answer::Departures(reasons) => self.refuse_line(name, number, reasons.as_slice()),
            Answer::Refused(reason) => self.refuse_line(name, number, slice::from_ref(&reason)),
        }
    }

    /// Writes for which reasons the line with this number is refused: as objects of JSON if that is
    /// asked for, or else in a line.
    fn refuse_line(
        &mut self,
        name: &str,
        number: usize,
        reasons: &[Reason],
    ) -> Result<(), CallFault>
        ensures { self.new.is_refused ≡ true }
    {
        let alloc = self.alloc;
        let has_json = self.call.has_json_errors;
        self.is_refused = true;
        let mut lines = Vec::new(alloc);
        for reason in reasons {
            lines.push(if has_json {
                reason.to_json(alloc, number)?
            } else {
                reason.to_line(alloc)?
            })?;
        }
        if has_json {
            let text = lines.as_slice().join(alloc, "\n")?;
            return writeln!(self.output, "{text}").map_err(CallFault::of_write);
        }
        let text = lines.as_slice().join(alloc, "; ")?;
        if self.call.prints_data() {
            let name = format!(in alloc; "{name}, line {number}")?;
            return self.refuse(name.as_str(), &text);
        }
        let text = visible(alloc, Escaping::Line, text.as_str())?;
        writeln!(self.output, "{text}").map_err(CallFault::of_write)
    }
}

/// Returns the line that says something of the message with this name.
fn line_of<T: fmt::Display>(alloc: Global, name: &str, reason: &T) -> Result<String, AllocError> {
    let line = format!(in alloc; "{name}: {reason}")?;
    let mut line = visible(alloc, Escaping::Line, line.as_str())?;
    line.push('\n')?;
    Ok(line)
}
