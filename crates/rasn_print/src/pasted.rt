//! Octets as text: hexadecimal digits with what people have between them, dumps with offsets, and
//! base64.

use base64::DecodeAllocError;
use base64::engine::general_purpose::STANDARD;
use std::alloc::{AllocError, Global};

/// The number of octets after which a line of a dump may have two blanks in place of one.
const HALF: usize = 8;

/// What a text denotes in hexadecimal digits.
#[derive(Drop)]
pub(crate) enum Digits {
    /// These octets.
    Octets(Vec<u8>),
    /// Nothing: it is digits and white space, and a digit is left over.
    Odd,
    /// Nothing: there is something else.
    Other,
}

/// Returns the octets that a text denotes in hexadecimal digits, if it is one of
///
/// - a dump, as `xxd`, `hexdump -C`, `od -t x1`, tcpdump and Wireshark print it;
/// - digits with white space anywhere;
/// - octets of one or two digits, also after `0x` or `\x`, or several of two, between which are white
///   space, colons, commas, semicolons and quotation marks; if there are braces, what is in them.
pub(crate) fn from_digits(alloc: Global, text: &[u8]) -> Result<Digits, AllocError> {
    if let Some(octets) = from_dump(alloc, text)? {
        return Ok(Digits::Octets(octets));
    }
    match from_hexadecimal(alloc, text)? {
        Digits::Other => match from_list(alloc, text)? {
            Some(octets) => Ok(Digits::Octets(octets)),
            None => Ok(Digits::Other),
        },
        found => Ok(found),
    }
}

/// Returns the octets of digits between which white space may be.
fn from_hexadecimal(alloc: Global, text: &[u8]) -> Result<Digits, AllocError> {
    let mut octets = Vec::new(alloc);
    let mut first = None;
    for octet in text {
        match (value_of(*octet), first) {
            (Some(digit), None) => first = Some(digit),
            (Some(digit), Some(high)) => {
                octets.push(high.wrapping_shl(4) | digit)?;
                first = None;
            }
            (None, _) if octet.is_ascii_whitespace() => {}
            (None, _) => return Ok(Digits::Other),
        }
    }
    Ok(match first {
        Some(_) => Digits::Odd,
        None => Digits::Octets(octets),
    })
}

/// Returns the octets of a list.
fn from_list(alloc: Global, text: &[u8]) -> Result<Option<Vec<u8>>, AllocError> {
    let mut octets = Vec::new(alloc);
    for word in in_braces(text).split(|octet| is_between(*octet)) {
        if !word.is_empty() && !add_digits(without_prefix(word), &mut octets)? {
            return Ok(None);
        }
    }
    Ok(Some(octets))
}

/// Returns what is after the last opening brace and before a closing one, or the whole text.
fn in_braces(text: &[u8]) -> &[u8] {
    let inner = text.rsplit(|octet| *octet == b'{').next().unwrap_or(text);
    inner.split(|octet| *octet == b'}').next().unwrap_or(inner)
}

/// Returns whether an octet may be between those of a list.
fn is_between(octet: u8) -> bool {
    octet.is_ascii_whitespace() || matches!(octet, b':' | b',' | b';' | b'"' | b'\\')
}

/// Returns digits without `0x` or `x` before them.
fn without_prefix(word: &[u8]) -> &[u8] {
    let word = word
        .strip_prefix(b"0")
        .filter(|rest| begins_with_x(rest))
        .unwrap_or(word);
    if begins_with_x(word) {
        word.get(1..).unwrap_or(&[])
    } else {
        word
    }
}

/// Returns whether a word begins with an x.
fn begins_with_x(word: &[u8]) -> bool {
    matches!(word.first(), Some(b'x' | b'X'))
}

/// Adds the octets of a word: of one digit, or of an even number. Returns whether it is such; nothing
/// is added otherwise.
fn add_digits(word: &[u8], octets: &mut Vec<u8>) -> Result<bool, AllocError> {
    if word.is_empty() || (word.len() > 1 && word.len() % 2 == 1) {
        return Ok(false);
    }
    let before = octets.len();
    for pair in word.chunks(2) {
        let mut value = 0u8;
        for digit in pair {
            match value_of(*digit) {
                Some(digit) => value = value.wrapping_shl(4) | digit,
                None => {
                    octets.truncate(before);
                    return Ok(false);
                }
            }
        }
        octets.push(value)?;
    }
    Ok(true)
}

/// Returns the value of a hexadecimal digit.
fn value_of(digit: u8) -> Option<u8> {
    match digit {
        b'0'..=b'9' => Some(digit.wrapping_sub(b'0')),
        b'a'..=b'f' => Some(digit.wrapping_sub(b'a').wrapping_add(10)),
        b'A'..=b'F' => Some(digit.wrapping_sub(b'A').wrapping_add(10)),
        _ => None,
    }
}

/// A line of a dump.
#[derive(Clone, Copy)]
struct DumpLine<'text> {
    /// How many octets are before those of the line.
    offset: usize,
    /// Whether octets may be in groups, which is so where a colon follows the offset.
    may_be_grouped: bool,
    /// What follows the offset.
    rest: &'text [u8],
}

/// Returns the octets of a dump, each line of which begins with an offset.
fn from_dump(alloc: Global, text: &[u8]) -> Result<Option<Vec<u8>>, AllocError> {
    let Some(lines) = dump_lines(alloc, text)? else {
        return Ok(None);
    };
    let mut octets = Vec::new(alloc);
    for (index, line) in lines.iter().enumerate() {
        let count = match lines.get(index.saturating_add(1)) {
            Some(next) => Some(next.offset.wrapping_sub(line.offset)),
            None => None,
        };
        if line.offset != octets.len() || !add_line(line, count, &mut octets)? {
            return Ok(None);
        }
    }
    Ok(Some(octets).filter(|octets| !octets.is_empty()))
}

/// Returns the lines of a dump.
fn dump_lines<'text>(
    alloc: Global,
    text: &'text [u8],
) -> Result<Option<Vec<DumpLine<'text>>>, AllocError> {
    let mut lines = Vec::new(alloc);
    for line in text.split(|octet| *octet == b'\n') {
        let line = line.trim_ascii();
        if line.is_empty() {
            continue;
        }
        match dump_line(line) {
            Some(line) => lines.push(line)?,
            None => return Ok(None),
        }
    }
    Ok(Some(lines))
}

/// Returns a line that begins with an offset of at least four digits: octal ones if there are
/// seven, as `od` prints them, otherwise hexadecimal ones.
fn dump_line(line: &[u8]) -> Option<DumpLine<'_>> {
    let end = line
        .iter()
        .position(|octet| octet.is_ascii_whitespace())
        .unwrap_or(line.len());
    let (word, rest) = line.split_at_checked(end)?;
    let (word, may_be_grouped) = match word.strip_suffix(b":") {
        Some(word) => (word, true),
        None => (word, false),
    };
    let digits = without_prefix(word);
    if digits.len() < 4 || digits.len() > 16 {
        return None;
    }
    let radix = if digits.len() == 7 { 8 } else { 16 };
    Some(DumpLine {
        offset: number_of(digits, radix)?,
        may_be_grouped,
        rest,
    })
}

/// Returns the number of these digits.
fn number_of(digits: &[u8], radix: u8) -> Option<usize> {
    let mut number = 0usize;
    for digit in digits {
        let value = value_of(*digit)?;
        if value >= radix {
            return None;
        }
        number = number
            .saturating_mul(usize::from(radix))
            .saturating_add(usize::from(value));
    }
    Some(number)
}

/// Adds the octets of a line: so many if that is known, which is so unless it is the last, else
/// those before a gap, of which one of two blanks after eight octets is none. Returns whether so
/// many are there.
fn add_line(
    line: &DumpLine<'_>,
    count: Option<usize>,
    octets: &mut Vec<u8>,
) -> Result<bool, AllocError> {
    let start = octets.len();
    let mut blanks = 0usize;
    for word in line.rest.split(|octet| octet.is_ascii_whitespace()) {
        let taken = octets.len().saturating_sub(start);
        if count == Some(taken) {
            break;
        }
        if word.is_empty() {
            blanks = blanks.saturating_add(1);
            continue;
        }
        let is_gap = taken > 0 && blanks > 0 && !(taken == HALF && blanks == 1);
        if count.is_none() && is_gap || !add_group(word, line.may_be_grouped, octets)? {
            break;
        }
        blanks = 0;
    }
    let taken = octets.len().saturating_sub(start);
    Ok(count.unwrap_or(taken) == taken)
}

/// Adds the octets of a group: of two digits, or more if there may be. Returns whether it is one.
fn add_group(word: &[u8], may_be_grouped: bool, octets: &mut Vec<u8>) -> Result<bool, AllocError> {
    if word.len() != 2 && !(may_be_grouped && word.len() % 2 == 0) {
        return Ok(false);
    }
    add_digits(word, octets)
}

/// Returns the octets that a text denotes in base64 or base64url (RFC 4648 4, 5), which may be
/// without padding and in lines of any length; `None` if there is something else.
pub(crate) fn from_base64(alloc: Global, text: &[u8]) -> Result<Option<Vec<u8>>, AllocError> {
    let mut symbols = Vec::new(alloc);
    for line in without_padding(text.trim_ascii()).split(|octet| *octet == b'\n') {
        add_symbols(line.trim_ascii(), &mut symbols)?;
    }
    for _ in 0..3 {
        if symbols.len() % 4 == 0 {
            break;
        }
        symbols.push(b'=')?;
    }
    match STANDARD.decode(alloc, &symbols) {
        Ok(octets) => Ok(Some(octets)),
        Err(DecodeAllocError::OutOfMemory) => Err(AllocError),
        Err(_) => Ok(None),
    }
}

/// Returns symbols without the padding after them.
fn without_padding(text: &[u8]) -> &[u8] {
    let once = text.strip_suffix(b"=").unwrap_or(text);
    once.strip_suffix(b"=").unwrap_or(once)
}

/// Adds the symbols of a line, those of base64url as those of base64 that mean the same.
fn add_symbols(line: &[u8], symbols: &mut Vec<u8>) -> Result<(), AllocError> {
    for octet in line {
        symbols.push(match *octet {
            b'-' => b'+',
            b'_' => b'/',
            other => other,
        })?;
    }
    Ok(())
}

/// Returns a text in which a line -----BEGIN LABEL----- is indented without the white space that
/// its lines begin with; `None` if there is no such line.
pub(crate) fn unindented(alloc: Global, text: &[u8]) -> Result<Option<Vec<u8>>, AllocError> {
    if !text
        .split(|octet| *octet == b'\n')
        .any(|line| is_indented_block(line))
    {
        return Ok(None);
    }
    let mut plain = Vec::new(alloc);
    for line in text.split(|octet| *octet == b'\n') {
        plain.extend_from_slice(line.trim_ascii_start())?;
        plain.push(b'\n')?;
    }
    Ok(Some(plain))
}

/// Returns whether a line begins a block of PEM after white space.
fn is_indented_block(line: &[u8]) -> bool {
    matches!(line.first(), Some(b' ' | b'\t'))
        && line.trim_ascii_start().starts_with(b"-----BEGIN ")
}
