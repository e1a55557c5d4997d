//! JSON values that follow one another in a text.

use json::{Reader, Scratch};
use rasn_json::{JsonError, JsonErrorKind, MAX_NESTING};
use std::alloc::AllocError;

/// Returns the JSON value with which a text begins, with the white space around it, or all of the
/// text if it begins with none that `encode` reads.
///
/// # Errors
/// `AllocError` if memory runs out.
pub(crate) fn first_value<'text>(
    text: &'text str,
    scratch: &mut Scratch,
) -> Result<&'text str, AllocError> {
    let mut reader = Reader::new(text, scratch)?;
    if reader.skip_value(MAX_NESTING).is_err() {
        return Ok(text);
    }
    let rest = text.get(reader.offset()..).unwrap_or("").trim_start();
    Ok(
        text.get(..text.len().saturating_sub(rest.len()))
            .unwrap_or(text),
    )
}

/// Returns an error of JSON with its place in a text in which this is before the JSON.
pub(crate) fn error_after(before: &str, error: JsonError) -> JsonError {
    let mut error = error;
    if let JsonErrorKind::Syntax { line, column } = &mut error.kind {
        (*line, *column) = place_after(before, *line, *column);
    }
    if let JsonErrorKind::TextTooDeep { line, column } = &mut error.kind {
        (*line, *column) = place_after(before, *line, *column);
    }
    error
}

/// Returns a line and a column of what follows a text as those of both together.
fn place_after(before: &str, line: usize, column: usize) -> (usize, usize) {
    let lines = before.matches('\n').count();
    if line > 1 {
        return (line.saturating_add(lines), column);
    }
    let last = match before.rsplit_once('\n') {
        Some((_, last)) => last,
        None => before,
    };
    (
        line.saturating_add(lines),
        column.saturating_add(last.len()),
    )
}
