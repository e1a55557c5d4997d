//! The words of the command line.

use rasn_text::{Escaping, visible};
use std::alloc::{AllocError, Global};
use std::env::{Env, FillError};
use std::str;

/// The last character of a word that isn't UTF-8. An argument of a program has no such character.
const MARK: char = '\0';

/// Returns the arguments of the program. In one that isn't UTF-8 each octet that isn't is written as
/// `\xFF`, and a mark follows.
///
/// # Errors
/// `AllocError` if memory runs out.
pub(crate) fn words_of(rt: &HostRuntime) -> Result<Vec<String>, AllocError> {
    let alloc = rt.alloc();
    let mut words = Vec::new(alloc);
    for index in 0..usize::MAX {
        match argument(rt, index)? {
            Some(octets) => words.push(word_of(alloc, octets)?)?,
            None => break,
        }
    }
    Ok(words)
}

/// Returns the octets of the argument with this index, if there is one.
fn argument(rt: &HostRuntime, index: usize) -> Result<Option<Vec<u8>>, AllocError> {
    let mut octets = Vec::new(rt.alloc());
    let mut room = 256usize;
    for _ in 0..usize::MAX {
        octets.resize(room, 0)?;
        match rt.arg(index, octets.as_mut_slice()) {
            Ok(len) => {
                octets.truncate(len);
                return Ok(Some(octets));
            }
            Err(FillError::NotPresent) => return Ok(None),
            Err(FillError::TooLong) => room = room.saturating_mul(2),
        }
    }
    Ok(None)
}

/// Returns the word that octets are.
fn word_of(alloc: Global, octets: Vec<u8>) -> Result<String, AllocError> {
    if let Ok(word) = str::from_utf8(&octets) {
        return String::from_str(alloc, word);
    }
    let mut word = String::new(alloc);
    let mut rest = octets.as_slice();
    for _ in 0..=octets.len() {
        let len = match str::from_utf8(rest) {
            Ok(text) => {
                word.push_str(text)?;
                break;
            }
            Err(error) => error.valid_up_to(),
        };
        let (text, other) = rest.split_at(len.min(rest.len()));
        word.push_str(str::from_utf8(text).unwrap_or(""))?;
        let [octet, after @ ..] = other else {
            break;
        };
        write!(word, "\\x{octet:02X}")?;
        rest = after;
    }
    word.push(MARK)?;
    Ok(word)
}

/// Returns whether a word isn't UTF-8.
pub(crate) fn is_marked(word: &str) -> bool {
    word.ends_with(MARK)
}

/// Returns a word as it is printed.
///
/// # Errors
/// `AllocError` if memory runs out.
pub(crate) fn name_shown(alloc: Global, word: &str) -> Result<String, AllocError> {
    visible(alloc, Escaping::Line, word.trim_end_matches(MARK))
}

/// Returns words as they are printed.
///
/// # Errors
/// `AllocError` if memory runs out.
pub(crate) fn words_shown(alloc: Global, words: &[String]) -> Result<Vec<String>, AllocError> {
    let mut shown = Vec::new(alloc);
    for word in words {
        shown.push(name_shown(alloc, word)?)?;
    }
    Ok(shown)
}
