//! Octets of BER whose type isn't known: headers, lengths and values of universal types.

use crate::identifiers::universal_name;
use crate::known::Known;
use crate::leaf::{leaf_text, octets_text};
use crate::refusal_text::text_of;
use rasn_de::ber::de::{ConstructedHeader, Decoder, DecoderOptions};
use rasn_schema::Value;
use rasn_types::error::{DecodeError, DecodeErrorKind};
use rasn_types::types::{Class, Codec, Tag};
use std::alloc::{AllocError, Global};

/// An encoding.
#[derive(Debug, Drop)]
pub(crate) struct Entry<'input> {
    /// How many encodings it is in.
    pub depth: usize,
    /// Where it begins, in octets from the start of the input.
    pub offset: usize,
    /// The number of its identifier and length octets.
    pub header_len: usize,
    /// Its tag.
    pub tag: Tag,
    /// Whether it is constructed (X.690 8.1.2.5).
    pub is_constructed: bool,
    /// Whether its length is indefinite (X.690 8.1.3.6).
    pub is_indefinite: bool,
    /// Whether it is a string that is opened: the next encoding is the one that it holds.
    pub is_opened: bool,
    /// All of its octets; if its length is indefinite, those up to the end of what holds it.
    pub octets: &'input [u8],
}

/// How many strings in one another are opened: for each its contents are gone over once.
const OPENED: usize = 8;

/// After so many levels their number is in place of the spaces that a line begins with.
const INDENTED: usize = 64;

/// Tells what ends where octets are missing.
#[derive(Clone, Copy)]
pub(crate) enum End {
    /// The input.
    Input,
    /// An encoding of definite length around them, of which nothing is left there.
    Here,
    /// The same, of which too few octets are left.
    Around,
    /// The contents of the encoding that is there, all of which are.
    Contents,
}

/// An encoding that hasn't ended.
#[derive(Clone, Copy)]
struct Around {
    /// The last place where it may end.
    end: usize,
    /// Whether its length is indefinite.
    is_indefinite: bool,
    /// Whether it is a string that is opened.
    is_opened: bool,
}

/// The encodings of octets, outer before inner, up to the first whose header can't be read.
#[derive(Drop)]
pub(crate) struct Entries<'input> {
    alloc: Global,
    octets: &'input [u8],
    /// The encodings that haven't ended.
    around: Vec<Around>,
    /// Says where the next encoding begins, or where those end that haven't ended yet.
    pub(crate) at: usize,
    /// How many more strings in one another are opened.
    strings: usize,
}

impl<'input> Entries<'input> {
    /// Returns the encodings of octets.
    pub(crate) fn new(alloc: Global, octets: &'input [u8]) -> Entries<'input> {
        Entries {
            alloc,
            octets,
            around: Vec::new(alloc),
            at: 0,
            strings: 0,
        }
    }

    /// Returns the encodings of octets, with those that primitive OCTET and BIT STRINGs hold, of which
    /// eight in one another are opened.
    pub(crate) fn opened(alloc: Global, octets: &'input [u8]) -> Entries<'input> {
        Entries {
            strings: OPENED,
            ..Entries::new(alloc, octets)
        }
    }

    /// Returns the innermost encoding that hasn't ended; without one, all octets are in it.
    fn innermost(&self) -> Around {
        self.around.last().copied().unwrap_or(Around {
            end: self.octets.len(),
            is_indefinite: false,
            is_opened: false,
        })
    }

    /// Returns what is left of the innermost encoding.
    pub(crate) fn rest(&self) -> &'input [u8] {
        self.octets
            .get(self.at..self.innermost().end)
            .unwrap_or(&[])
    }

    /// Leaves the innermost encoding if it ends here. Returns whether it did.
    fn leave(&mut self) -> bool {
        let innermost = self.innermost();
        if self.around.is_empty() || !is_ended(self.rest(), innermost.is_indefinite) {
            return false;
        }
        let end_len = if innermost.is_indefinite { 2 } else { 0 };
        self.at = self.at.saturating_add(end_len);
        if innermost.is_opened {
            self.strings = self.strings.saturating_add(1);
        }
        self.around.pop().is_some()
    }

    /// Returns the next encoding; `None` if no octets are left.
    ///
    /// # Errors
    /// If its header can't be read, or memory runs out.
    pub(crate) fn next(&mut self) -> Result<Option<Entry<'input>>, DecodeError> {
        for _ in 0..self.around.len() {
            if !self.leave() {
                break;
            }
        }
        if self.around.is_empty() && self.rest().is_empty() {
            return Ok(None);
        }
        let entry = entry_of(self.alloc, self.rest(), self.around.len(), self.at)?;
        if entry.is_constructed {
            self.enter(&entry, 0)?;
        } else {
            self.at = self.at.saturating_add(entry.octets.len());
        }
        Ok(Some(entry))
    }

    /// Returns the next encoding, as `next` does. If it is a string that is opened, the one that it
    /// holds comes next.
    ///
    /// # Errors
    /// As `next`.
    pub(crate) fn next_opened(&mut self) -> Result<Option<Entry<'input>>, DecodeError> {
        let Some(mut entry) = self.next()? else {
            return Ok(None);
        };
        if entry.is_constructed || self.strings == 0 {
            return Ok(Some(entry));
        }
        if let Some(before) = before_held(self.alloc, &entry)? {
            entry.is_opened = true;
            self.strings = self.strings.saturating_sub(1);
            self.enter(&entry, before)?;
        }
        Ok(Some(entry))
    }

    /// Goes into an encoding, of whose contents so many octets are before the next encoding. It ends
    /// with its octets unless its length is indefinite.
    fn enter(&mut self, entry: &Entry<'_>, before: usize) -> Result<(), DecodeError> {
        let around = Around {
            end: if entry.is_indefinite {
                self.innermost().end
            } else {
                entry.offset.saturating_add(entry.octets.len())
            },
            is_indefinite: entry.is_indefinite,
            is_opened: entry.is_opened,
        };
        let inner = entry.offset.saturating_add(entry.header_len);
        self.at = inner.saturating_add(before);
        match self.around.push(around) {
            Ok(()) => Ok(()),
            Err(_) => Err(out_of_memory()),
        }
    }

    /// Goes on to the encoding that begins so many octets after the start, and isn't before the next
    /// one. Returns what ends there: the encoding is in so many others.
    pub(crate) fn end_at(&mut self, offset: usize, levels: usize) -> Result<End, AllocError> {
        // Each encoding is entered and left, and has two octets of its own.
        for _ in self.octets {
            if self.at >= offset {
                break;
            }
            if self.leave() {
                continue;
            }
            match self.next() {
                Ok(Some(_)) => {}
                Ok(None) => break,
                Err(error) if error.is_out_of_memory() => return Err(AllocError),
                Err(_) => break,
            }
        }
        self.around.truncate(levels);
        Ok(self.end())
    }

    /// Returns what ends where an encoding begins that has too few octets.
    fn end(&self) -> End {
        let is_whole = match entry_of(self.alloc, self.rest(), 0, 0) {
            Ok(entry) => !entry.is_indefinite,
            Err(_) => false,
        };
        if is_whole {
            End::Contents
        } else if self.around.iter().all(|it| it.is_indefinite) {
            End::Input
        } else if self.rest().is_empty() {
            End::Here
        } else {
            End::Around
        }
    }
}

/// Returns the error that memory ran out.
fn out_of_memory() -> DecodeError {
    DecodeError {
        kind: DecodeErrorKind::OutOfMemory,
        codec: Codec::Ber,
    }
}

/// Returns where the first encoding begins that is in so many others, if there is one before the
/// first whose header can't be read.
pub(crate) fn deeper_at(
    alloc: Global,
    octets: &[u8],
    levels: usize,
) -> Result<Option<usize>, AllocError> {
    // Each header has two octets.
    if octets.len() / 2 <= levels {
        return Ok(None);
    }
    let mut entries = Entries::new(alloc, octets);
    for _ in octets {
        match entries.next() {
            Ok(Some(entry)) if entry.depth >= levels => return Ok(Some(entry.offset)),
            Ok(Some(_)) => {}
            Ok(None) => return Ok(None),
            Err(error) if error.is_out_of_memory() => return Err(AllocError),
            Err(_) => return Ok(None),
        }
    }
    Ok(None)
}

/// Returns whether an encoding ends where these octets begin: with end-of-contents octets if its
/// length is indefinite (X.690 8.1.5), otherwise where no octets remain.
pub(crate) fn is_ended(rest: &[u8], is_indefinite: bool) -> bool {
    if is_indefinite {
        rest.starts_with(&[0, 0])
    } else {
        rest.is_empty()
    }
}

/// Returns the whole encoding with which octets begin, if there is one.
pub(crate) fn whole_encoding(alloc: Global, octets: &[u8]) -> Option<&[u8]> {
    let mut decoder = Decoder::new(alloc, octets, DecoderOptions::of(Codec::Ber));
    decoder.skip_value().ok()?;
    octets.get(..octets.len().saturating_sub(decoder.remaining().len()))
}

/// Returns the whole encoding with which octets begin, or all of them without one, and what follows
/// it.
pub(crate) fn first_encoding(alloc: Global, octets: &[u8]) -> (&[u8], &[u8]) {
    match whole_encoding(alloc, octets) {
        Some(first) => (first, octets.get(first.len()..).unwrap_or(&[])),
        None => (octets, &[]),
    }
}

/// Returns how many octets of the contents of a primitive encoding are before an encoding of a
/// universal type that fills the rest of them, if it is an OCTET STRING or a BIT STRING that holds one.
fn before_held(alloc: Global, entry: &Entry<'_>) -> Result<Option<usize>, DecodeError> {
    let contents = entry.octets.get(entry.header_len..).unwrap_or(&[]);
    let (before, held) = match contents.split_first() {
        Some((0, held)) if entry.tag == Tag::BIT_STRING => (1, held),
        Some(_) if entry.tag == Tag::OCTET_STRING => (0, contents),
        Some(_) | None => return Ok(None),
    };
    Ok(if is_encoding(alloc, held)? {
        Some(before)
    } else {
        None
    })
}

/// Returns whether octets are one encoding, of a universal type, in which each header can be read.
fn is_encoding(alloc: Global, octets: &[u8]) -> Result<bool, DecodeError> {
    let first = match entry_of(alloc, octets, 0, 0) {
        Ok(first) => first,
        Err(error) if error.is_out_of_memory() => return Err(error),
        Err(_) => return Ok(false),
    };
    if first.tag.class != Class::Universal || universal_name(first.tag.value).is_none() {
        return Ok(false);
    }
    if first.is_indefinite || first.octets.len() != octets.len() {
        return Ok(false);
    }
    are_entries(alloc, octets)
}

/// Returns whether the header of each encoding of octets can be read.
pub(crate) fn are_entries(alloc: Global, octets: &[u8]) -> Result<bool, DecodeError> {
    let mut entries = Entries::new(alloc, octets);
    // Each encoding has an octet of its own.
    for _ in octets {
        match entries.next() {
            Ok(Some(_)) => {}
            Ok(None) => return Ok(true),
            Err(error) if error.is_out_of_memory() => return Err(error),
            Err(_) => return Ok(false),
        }
    }
    Ok(true)
}

/// Returns why the next of these encodings can't be read, and where it is.
pub(crate) fn fault_text(
    alloc: Global,
    entries: &Entries<'_>,
    error: &DecodeError,
) -> Result<String, AllocError> {
    if error.is_out_of_memory() {
        return Err(AllocError);
    }
    let at = entries.at;
    let text = text_of(alloc, error, entries.rest(), entries.end())?;
    format!(in alloc; "byte {at}: {text}")
}

/// Returns the encoding with which the octets begin, which is in so many others.
pub(crate) fn entry_of(
    alloc: Global,
    octets: &[u8],
    depth: usize,
    offset: usize,
) -> Result<Entry<'_>, DecodeError> {
    let mut decoder = Decoder::new(alloc, octets, DecoderOptions::of(Codec::Ber));
    let tag = decoder.peek_tag()?;
    let (inner, _) = decoder.open(ConstructedHeader::prefix(tag))?;
    let is_indefinite = inner.may_be_closed();
    let rest = decoder.remaining().len();
    let end = octets
        .len()
        .saturating_sub(if is_indefinite { 0 } else { rest });
    Ok(Entry {
        depth,
        offset,
        header_len: end.saturating_sub(inner.remaining().len()),
        tag,
        is_constructed: matches!(octets, [first, ..] if (*first / 0x20) % 2 == 1),
        is_indefinite,
        is_opened: false,
        octets: octets.get(..end).unwrap_or(octets),
    })
}

/// Returns the line of an encoding: where it begins, how many octets its header and its contents
/// have, its tag, and the value if it is one of a universal type that holds no others.
pub(crate) fn entry_line(
    alloc: Global,
    known: &Known<'_>,
    entry: &Entry<'_>,
) -> Result<String, AllocError> {
    let (offset, header_len, len) = (entry.offset, entry.header_len, entry.octets.len());
    let mut text = String::new(alloc);
    push_place(
        &mut text,
        offset,
        header_len,
        len,
        entry.is_indefinite,
        entry.depth,
    )?;
    push_entry(&mut text, alloc, known, entry)?;
    text.push('\n')?;
    Ok(text)
}

/// Appends where an encoding begins, how many octets its header and contents have, and spaces.
pub(crate) fn push_place(
    text: &mut String,
    offset: usize,
    header_len: usize,
    len: usize,
    is_indefinite: bool,
    depth: usize,
) -> Result<(), AllocError> {
    write!(text, "{offset:>6} {header_len:>2}+")?;
    if is_indefinite {
        text.push_str("indef ")?;
    } else {
        let contents = len.saturating_sub(header_len);
        write!(text, "{contents:<5} ")?;
    }
    push_indent(text, depth)
}

/// Appends two spaces for each level, or the number of levels if these are more than 64.
pub(crate) fn push_indent(text: &mut String, depth: usize) -> Result<(), AllocError> {
    if depth > INDENTED {
        return write!(text, "({depth}) ");
    }
    for _ in 0..depth {
        text.push_str("  ")?;
    }
    Ok(())
}

/// Appends the tag of an encoding, and its value if it is primitive: `INTEGER 5`.
pub(crate) fn push_entry(
    text: &mut String,
    alloc: Global,
    known: &Known<'_>,
    entry: &Entry<'_>,
) -> Result<(), AllocError> {
    text.push_str(tag_text(alloc, entry.tag)?.as_str())?;
    if entry.is_opened {
        return text.push_str(", an encoding");
    }
    if entry.is_constructed || entry.tag == Tag::NULL {
        return Ok(());
    }
    text.push(' ')?;
    text.push_str(primitive_text(alloc, known, entry)?.as_str())
}

/// Returns the value of a primitive encoding: by its universal type, or as text or hexadecimal.
pub(crate) fn primitive_text(
    alloc: Global,
    known: &Known<'_>,
    entry: &Entry<'_>,
) -> Result<String, AllocError> {
    if let Some(Value::Chosen(_, value)) = &known.universal_value(alloc, entry.octets)? {
        return leaf_text(alloc, known, None, value, known.is_cut);
    }
    let contents = entry.octets.get(entry.header_len..).unwrap_or(&[]);
    octets_text(alloc, contents, known.is_cut)
}

/// Returns a tag as text: the name of a universal type, or as it is written in a module.
pub(crate) fn tag_text(alloc: Global, tag: Tag) -> Result<String, AllocError> {
    let number = tag.value;
    let class = match tag.class {
        Class::Universal => match universal_name(number) {
            Some(name) => return String::from_str(alloc, name),
            None => "UNIVERSAL ",
        },
        Class::Application => "APPLICATION ",
        Class::Context => "",
        Class::Private => "PRIVATE ",
    };
    format!(in alloc; "[{class}{number}]")
}
