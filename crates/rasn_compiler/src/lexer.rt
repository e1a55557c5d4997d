//! The lexical items of a text (X.680 12).
ghost use Rattle.std.specs.Prelude.{◌<◌, length};
ghost use Rattle.std.specs.Iterator.{at_most};

use crate::position::Position;
use crate::token::{Kind, Token};
use crate::words::{MARKER, is_reserved};
use std::alloc::{AllocError, Global};

/// Returns the items of a text that begins at this position, without white space and comments.
///
/// # Errors
/// Returns an error if memory runs out.
pub(crate) fn tokens<'text>(
    alloc: Global,
    text: &'text str,
    start: Position,
) -> Result<Vec<Token<'text>>, AllocError> {
    let mut tokens = Vec::new(alloc);
    let mut offset = 0usize;
    let mut position = start;
    for (kind, text) in Items(text) {
        if kind != Kind::Blank {
            tokens.push(Token {
                kind,
                text,
                offset,
                position,
            })?;
        }
        offset = offset.saturating_add(text.len());
        position = position.after(text);
    }
    Ok(tokens)
}

/// The items of a text, white space and comments among them.
#[derive(Drop)]
struct Items<'text>(&'text str);

impl<'text> Iterator for Items<'text> {
    type Item = (Kind, &'text str);

    ghost remaining = { λ s. at_most (length s.0.now) };

    fn next(&mut self) -> Option<(Kind, &'text str)> {
        let first = self.0.chars().next()?;
        let (kind, octets) = scan(self.0, first);
        let (item, rest) = cut(self.0, octets);
        self.0 = rest;
        Some((kind, item))
    }
}

/// Returns so many octets of a text, at least one, and what follows them. Within a character the
/// text is left whole.
fn cut(text: &str, octets: usize) -> (&str, &str)
    requires { 0 < length text.now }
    ensures { length result.1.now < length text.now }
{
    text.split_at_checked(octets.max(1)).unwrap_or((text, ""))
}

/// Returns the kind of the item that a text begins with, and its octets. The first character is
/// given.
fn scan(text: &str, first: char) -> (Kind, usize) {
    match first {
        'A'..='Z' | 'a'..='z' => word(text, first),
        '0'..='9' => number(text),
        '&' => field(text),
        '"' => string(text),
        '\'' => digits(text),
        '-' if text.starts_with("--") => (Kind::Blank, line_comment_length(text)),
        '/' if text.starts_with("/*") => block_comment(text),
        ':' if text.starts_with("::=") => (Kind::Fixed, 3),
        '.' if text.starts_with(MARKER) => (Kind::Fixed, MARKER.len()),
        '.' if text.starts_with("..") => (Kind::Fixed, 2),
        blank if is_blank(blank) => (Kind::Blank, blank_length(text)),
        other => (mark(other), other.len_utf8()),
    }
}

/// Returns whether a character is white space (X.680 12.1.6), or the mark that a text may begin
/// with.
fn is_blank(character: char) -> bool {
    character.is_whitespace() || character == '\u{feff}'
}

/// Returns the octets of the white space that a text begins with.
fn blank_length(text: &str) -> usize {
    text.find(|character: char| !is_blank(character))
        .unwrap_or(text.len())
}

/// Returns the kind of a single character. `[[` and `]]` are read as two of one, since `]]` can
/// also end two tags.
fn mark(character: char) -> Kind {
    match character {
        '.' | ',' | ';' | ':' | '|' | '^' | '@' | '!' | '<' | '>' | '-' => Kind::Fixed,
        '{' | '}' | '(' | ')' | '[' | ']' => Kind::Fixed,
        _ => Kind::Unknown,
    }
}

/// Reads a word, of which the first letter is given. One with a low line is no name (X.680 12.2,
/// 12.3).
fn word(text: &str, first: char) -> (Kind, usize) {
    let octets = word_length(text);
    let word = text.get(..octets).unwrap_or("");
    let kind = if has_low_line(word) {
        Kind::Unknown
    } else if !first.is_ascii_uppercase() {
        Kind::Lower
    } else if is_reserved(word) {
        Kind::Fixed
    } else {
        Kind::Upper
    };
    (kind, octets)
}

fn has_low_line(word: &str) -> bool {
    word.bytes().any(|octet| octet == b'_')
}

/// Returns whether a text is a name that a type may have (X.680 12.2).
pub(crate) fn is_type_name(text: &str) -> bool {
    match text.chars().next() {
        Some(first) => word_length(text) == text.len() && word(text, first).0 == Kind::Upper,
        None => false,
    }
}

/// Reads a field's name, with its `&` (X.681 7).
fn field(text: &str) -> (Kind, usize) {
    let name = text.strip_prefix('&').unwrap_or("");
    let octets = word_length(name);
    let kind = if has_low_line(name.get(..octets).unwrap_or("")) {
        Kind::Unknown
    } else {
        Kind::Field
    };
    (kind, octets.saturating_add(1))
}

/// Returns the octets of a word: letters, digits, low lines, and hyphens that are neither doubled
/// nor last (X.680 12.2, 12.3).
fn word_length(text: &str) -> usize {
    let mut length = 0usize;
    let mut after_hyphen = false;
    for (at, octet) in text.bytes().enumerate() {
        if octet.is_ascii_alphanumeric() || octet == b'_' {
            length = at.saturating_add(1);
            after_hyphen = false;
        } else if octet == b'-' && !after_hyphen {
            after_hyphen = true;
        } else {
            break;
        }
    }
    length
}

/// Reads a number. Only the number 0 begins with 0 (X.680 12.8).
fn number(text: &str) -> (Kind, usize) {
    let octets = number_length(text);
    match text.as_bytes() {
        [b'0', b'0'..=b'9', ..] => (Kind::Unknown, octets),
        _ => (Kind::Number, octets),
    }
}

/// Returns the octets of a number, with a fraction after a single dot (X.680 12.8, 12.9).
fn number_length(text: &str) -> usize {
    let whole = digits_length(text);
    let after = text.get(whole..).unwrap_or("");
    let fraction = after.strip_prefix('.').map_or(0, digits_length);
    if fraction == 0 {
        whole
    } else {
        whole.saturating_add(fraction).saturating_add(1)
    }
}

/// Returns the number of digits that a text begins with.
fn digits_length(text: &str) -> usize {
    text.bytes()
        .position(|octet| !octet.is_ascii_digit())
        .unwrap_or(text.len())
}

/// Reads a string, in which two quotation marks mean one (X.680 12.14).
fn string(text: &str) -> (Kind, usize) {
    let mut is_open = false;
    for (at, octet) in text.bytes().enumerate() {
        if octet == b'"' {
            is_open = !is_open;
        } else if !is_open {
            return (Kind::Text, at);
        }
    }
    if is_open {
        (Kind::Unfinished, text.len())
    } else {
        (Kind::Text, text.len())
    }
}

/// Reads digits between apostrophes, with the letter after them (X.680 12.10, 12.12).
fn digits(text: &str) -> (Kind, usize) {
    let inner = text.get(1..).unwrap_or("");
    let Some(count) = inner.bytes().position(|octet| octet == b'\'') else {
        return (Kind::Unfinished, text.len());
    };
    let closed = count.saturating_add(2);
    let whole = inner.get(..count).unwrap_or("");
    match text.as_bytes().get(closed) {
        Some(b'B') if whole.bytes().all(|octet| is_bit(octet)) => {
            (Kind::Digits, closed.saturating_add(1))
        }
        Some(b'H') if whole.bytes().all(|octet| is_hexadecimal(octet)) => {
            (Kind::Digits, closed.saturating_add(1))
        }
        _ => (Kind::Unknown, closed),
    }
}

/// Returns whether an octet may be in a string of bits (X.680 12.10).
fn is_bit(octet: u8) -> bool {
    matches!(octet, b'0' | b'1') || octet.is_ascii_whitespace()
}

/// Returns whether an octet may be in a string of hexadecimal digits (X.680 12.12).
fn is_hexadecimal(octet: u8) -> bool {
    matches!(octet, b'0'..=b'9' | b'A'..=b'F') || octet.is_ascii_whitespace()
}

/// Returns the octets of a comment that two hyphens or the line's end ends (X.680 12.6.3).
fn line_comment_length(text: &str) -> usize {
    let mut after_hyphen = false;
    for (at, octet) in text.bytes().enumerate().skip(2) {
        match octet {
            b'\n' | b'\r' | 0x0b | 0x0c => return at,
            b'-' if after_hyphen => return at.saturating_add(1),
            other => after_hyphen = other == b'-',
        }
    }
    text.len()
}

/// Reads a comment between `/*` and `*/`, which nest (X.680 12.6.4).
fn block_comment(text: &str) -> (Kind, usize) {
    let mut depth = 0usize;
    let mut last = b' ';
    for (at, octet) in text.bytes().enumerate() {
        if last == b'/' && octet == b'*' {
            depth = depth.saturating_add(1);
            last = b' ';
        } else if last == b'*' && octet == b'/' {
            depth = depth.saturating_sub(1);
            if depth == 0 {
                return (Kind::Blank, at.saturating_add(1));
            }
            last = b' ';
        } else {
            last = octet;
        }
    }
    (Kind::Unfinished, text.len())
}
