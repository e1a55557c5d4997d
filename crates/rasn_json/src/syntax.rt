//! JSON as text (RFC 8259).
ghost use Rattle.std.specs.Prelude.{◌≡◌, [], Some, IfOk};
ghost use Rattle.json.specs.Json.{value};
ghost use Rattle.json.specs.Lex.{tokens};
ghost use Rattle.json.specs.Value.{value_view};

use crate::error::{JsonError, JsonErrorKind};
use json::{Error, Reader, Scratch, Token, Value as Json};
use std::alloc::Global;

/// How deep arrays and objects of a text may be nested. Values are nested at most 128 deep where
/// they are read from octets; a CHOICE and an element of a list are each a level more here.
pub const MAX_NESTING: usize = 512;

/// Returns the JSON value that a text is.
pub fn parse<'text>(
    alloc: Global,
    text: &'text str,
    scratch: &'text mut Scratch,
) -> Result<Json<'text>, JsonError>
    ensures { IfOk result (λ j. value 512 (tokens text.now) ≡ Some (value_view j, [])) }
{
    let Ok(mut reader) = Reader::new(text, scratch) else {
        return Err(JsonError::memory(alloc));
    };
    match Json::read(alloc, &mut reader, MAX_NESTING) {
        Ok(json) => {
            let end = reader.offset();
            if reader.next().is_none() {
                return Ok(json);
            }
            Err(syntax_error(alloc, text, end))
        }
        Err(Error::OutOfMemory) => Err(JsonError::memory(alloc)),
        Err(_) => Err(syntax_error(alloc, text, reader.offset())),
    }
}

/// Returns the error of a text that isn't JSON at this octet, or is nested too deep.
fn syntax_error(alloc: Global, text: &str, offset: usize) -> JsonError {
    let mut scratch = Scratch::new(alloc);
    if let Some(deep) = first_too_deep(text, &mut scratch) {
        let (line, column) = place_of(text.as_bytes(), deep);
        return JsonError::new(alloc, JsonErrorKind::TextTooDeep { line, column });
    }
    let (line, column) = place_of(text.as_bytes(), offset);
    JsonError::new(alloc, JsonErrorKind::Syntax { line, column })
}

/// Returns the line and the column of an octet.
fn place_of(text: &[u8], offset: usize) -> (usize, usize) {
    let mut line = 1usize;
    let mut column = 1usize;
    for octet in &text[..offset.min(text.len())] {
        if *octet == b'\n' {
            line = line.saturating_add(1);
            column = 1;
        } else {
            column = column.saturating_add(1);
        }
    }
    (line, column)
}

/// Returns the place of the last opening bracket before an octet.
fn last_bracket(text: &[u8], offset: usize) -> usize {
    let mut last = 0;
    for (place, octet) in text[..offset.min(text.len())].iter().enumerate() {
        if *octet == b'[' || *octet == b'{' {
            last = place;
        }
    }
    last
}

/// Returns the octet where the first array or object begins that is nested deeper than is admitted,
/// if there is one.
fn first_too_deep(text: &str, scratch: &mut Scratch) -> Option<usize> {
    let Ok(mut reader) = Reader::new(text, scratch) else {
        return None;
    };
    let mut depth = 0usize;
    for _ in 0..text.len() {
        match reader.next() {
            Some(Token::BeginArray | Token::BeginObject) => depth = depth.saturating_add(1),
            Some(Token::EndArray | Token::EndObject) => depth = depth.saturating_sub(1),
            Some(_) => {}
            None => return None,
        }
        if depth > MAX_NESTING {
            return Some(last_bracket(text.as_bytes(), reader.offset()));
        }
    }
    None
}
