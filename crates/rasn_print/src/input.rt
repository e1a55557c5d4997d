//! The form of an input.

use crate::command_line::{Call, InputForm, Work};
use crate::pasted::{Digits, from_base64, from_digits};
use rasn_text::{Block, blocks};
use std::alloc::{AllocError, Global};

/// The byte order mark of UTF-8, with which some programs begin a text (Unicode 16.0, 23.8).
const MARK: &[u8] = b"\xEF\xBB\xBF";

/// What an input is.
#[derive(Drop)]
pub(crate) enum Form<'text> {
    /// Octets, or JSON, as they are.
    Octets,
    /// Blocks of PEM.
    Pem(Vec<Block<'text>>),
    /// Text that denotes these octets.
    Text(Vec<u8>),
    /// Not of the form that the call says, for this reason.
    Wrong(&'static str),
}

/// Returns a text without the byte order mark that it may begin with.
pub(crate) fn without_mark(text: &[u8]) -> &[u8] {
    text.strip_prefix(MARK).unwrap_or(text)
}

/// Returns what an input is, of which a mark and the blanks before PEM are left out: what the call
/// says, JSON for `encode`, or else what is found out.
pub(crate) fn form_of<'text>(
    alloc: Global,
    call: &Call,
    text: &'text [u8],
) -> Result<Form<'text>, AllocError> {
    if call.work == Work::Encode {
        return Ok(Form::Octets);
    }
    match call.input {
        Some(InputForm::Der) => Ok(Form::Octets),
        Some(InputForm::Pem) => Ok(Form::Pem(blocks(alloc, text)?)),
        Some(InputForm::Hex) => match from_digits(alloc, text)? {
            Digits::Octets(octets) => Ok(Form::Text(octets)),
            Digits::Odd => Ok(Form::Wrong(ODD)),
            Digits::Other => Ok(Form::Wrong("not hexadecimal digits")),
        },
        Some(InputForm::Base64) => match from_base64(alloc, text)? {
            Some(octets) => Ok(Form::Text(octets)),
            None => Ok(Form::Wrong("not base64")),
        },
        None => found_form(alloc, text),
    }
}

/// Returns the form of an input: PEM if there is a block of it. If all octets are graphic characters
/// of ASCII and white space, hexadecimal digits or else base64 if it is such. Octets otherwise.
fn found_form<'text>(alloc: Global, text: &'text [u8]) -> Result<Form<'text>, AllocError> {
    let list = blocks(alloc, text)?;
    if !list.is_empty() {
        return Ok(Form::Pem(list));
    }
    if is_plain_text(text) {
        return form_of_text(alloc, text, Form::Octets);
    }
    Ok(Form::Octets)
}

/// Returns whether octets are some graphic characters of ASCII and white space.
pub(crate) fn is_plain_text(octets: &[u8]) -> bool {
    !octets.is_empty()
        && octets.iter().all(|octet| octet.is_ascii_graphic() || octet.is_ascii_whitespace())
}

/// What is wrong with digits of which one is left over.
const ODD: &str = "an odd number of hexadecimal digits";

/// Returns the octets that a text denotes in hexadecimal digits or else in base64, or `otherwise` if
/// it is neither.
fn form_of_text<'text>(
    alloc: Global,
    text: &[u8],
    otherwise: Form<'text>,
) -> Result<Form<'text>, AllocError> {
    match from_digits(alloc, text)? {
        Digits::Octets(octets) => return Ok(Form::Text(octets)),
        Digits::Odd => return Ok(Form::Wrong(ODD)),
        Digits::Other => {}
    }
    match from_base64(alloc, text)? {
        Some(octets) => Ok(Form::Text(octets)),
        None => Ok(otherwise),
    }
}

/// Returns what a line is: JSON for `encode`, or else hexadecimal digits or base64.
pub(crate) fn form_of_line(
    alloc: Global,
    work: Work,
    line: &[u8],
) -> Result<Form<'static>, AllocError> {
    if work == Work::Encode {
        return Ok(Form::Octets);
    }
    let otherwise = Form::Wrong("neither hexadecimal nor base64");
    form_of_text(alloc, line, otherwise)
}
