//! Why a message is refused, and where.
ghost use Rattle.std.specs.Prelude.{◌≡◌, ◌++◌, IfOk, OnOk, string_bytes};
ghost use Rattle.rasn_print.specs.Reasons.{IsOfNoPlace, guess_text, path_text, byte_text, advice_text, line_of};

use json::Writer;
use rasn_dynamic::Refusal;
use rasn_text::{Escaping, visible};
use std::alloc::{AllocError, Global};
use std::fmt;

/// How the type of a message that is none of the known ones is found out.
pub(crate) const ADVICE: &str = "--type TYPE reads other types, which `soqavise types` prints; \
    dump shows any BER";

/// Why a message is refused, or departs from DER.
#[derive(Drop)]
pub struct Reason {
    /// The type that the message seems to be of, if nothing names its type.
    pub guess: Option<String>,
    /// The names and indices on the way to the part that is refused.
    pub path: String,
    /// The byte at which the part begins.
    pub byte: Option<usize>,
    /// What is wrong.
    pub text: String,
}

impl Reason {
    /// Returns the reason of something that is in no place.
    ///
    /// # Errors
    /// `AllocError` if memory runs out.
    pub(crate) fn of<T: fmt::Display>(alloc: Global, text: &T) -> Result<Reason, AllocError>
        ensures { IfOk result IsOfNoPlace }
    {
        Ok(Reason {
            guess: None,
            path: String::new(alloc),
            byte: None,
            text: text.to_string(alloc)?,
        })
    }

    /// Returns the reason in a line, without its end.
    ///
    /// # Errors
    /// `AllocError` if memory runs out.
    pub(crate) fn to_line(&self, alloc: Global) -> Result<String, AllocError>
        ensures { IfOk result (λ line. string_bytes line ≡ line_of self.now) }
    {
        let mut line = String::new(alloc);
        push_guess(&mut line, &self.guess)?;
        push_path(&mut line, self.path.as_str())?;
        push_byte(&mut line, self.byte)?;
        line.push_str(self.text.as_str())?;
        push_advice(&mut line, &self.guess)?;
        Ok(line)
    }

    /// Returns the reason as an object of JSON in a line, with the number of the line that is
    /// refused: `{"line":2,"path":"ok","byte":7,"error":"DER: .."}`, and the type that it seems to be
    /// of as `"type"`. What isn't known is null.
    ///
    /// # Errors
    /// `AllocError` if memory runs out.
    pub(crate) fn to_json(&self, alloc: Global, number: usize) -> Result<String, AllocError> {
        let mut out = Writer::new(Vec::new(alloc));
        out.begin_object()?;
        out.key("line")?;
        out.u64(number as u64)?;
        if let Some(name) = &self.guess {
            out.key("type")?;
            out.string(name.as_str())?;
        }
        out.key("path")?;
        out.string(self.path.as_str())?;
        out.key("byte")?;
        match self.byte {
            Some(byte) => out.u64(byte as u64)?,
            None => out.null()?,
        }
        out.key("error")?;
        out.string(self.text.as_str())?;
        out.end_object()?;
        match String::from_utf8(out.into_inner()) {
            Ok(text) => visible(alloc, Escaping::Json, text.as_str()),
            Err(_) => Ok(String::new(alloc)),
        }
    }
}

/// Appends the type that a message seems to be of.
fn push_guess(line: &mut String, guess: &Option<String>) -> Result<(), AllocError>
    ensures { OnOk result (string_bytes line.new ≡ string_bytes line.old ++ guess_text guess.now) }
{
    match guess {
        Some(name) => write!(line, "looks like {name}: "),
        None => Ok(()),
    }
}

/// Appends the names on the way to a part.
fn push_path(line: &mut String, path: &str) -> Result<(), AllocError>
    ensures { OnOk result (string_bytes line.new ≡ string_bytes line.old ++ path_text path.now) }
{
    if path.is_empty() {
        return Ok(());
    }
    write!(line, "{path}, ")
}

/// Appends where a part begins.
fn push_byte(line: &mut String, byte: Option<usize>) -> Result<(), AllocError>
    ensures { OnOk result (string_bytes line.new ≡ string_bytes line.old ++ byte_text byte) }
{
    match byte {
        Some(byte) => write!(line, "byte {byte}: "),
        None => Ok(()),
    }
}

/// Appends how the type of a message is named, if it was guessed.
fn push_advice(line: &mut String, guess: &Option<String>) -> Result<(), AllocError>
    ensures { OnOk result (string_bytes line.new ≡ string_bytes line.old ++ advice_text guess.now) }
{
    match guess {
        Some(_) => write!(line, "; {ADVICE}"),
        None => Ok(()),
    }
}

/// Returns the names on the way to what is refused: those before the offset and the error in what
/// shows a refusal.
pub(crate) fn path_of<T: fmt::Display>(
    alloc: Global,
    shown: &T,
    refusal: &Refusal,
) -> Result<String, AllocError> {
    let (shown, place) = (shown.to_string(alloc)?, refusal.to_string(alloc)?);
    let before = shown.as_str().strip_suffix(place.as_str()).unwrap_or("");
    String::from_str(alloc, before.strip_suffix(", ").unwrap_or(before))
}
