//! The results that the program prints for lines.
ghost use Rattle.std.specs.Prelude.{IfOk, IsTrue, ◌↔◌, ◌≢◌};
ghost use Rattle.rasn_bench.specs.Answers.{IsAnswerTo, IsRefusal, IsWrittenAnswer};
ghost use Rattle.rasn_types.specs.Errors.{IsOutOfMemory};
ghost use Rattle.rasn_bench.specs.declared.answer.Answer.TheVariants.{Malformed};

use crate::line::Request;
use crate::names::{decode_error_name, encode_error_name};
use crate::typed_answer::{TypedAnswer, answer_to};
use rasn::de::Decode;
use rasn::der;
use rasn::enc::Encode;
use rasn::error::{DecodeError, EncodeError};
use rasn::types::{Codec, LawfulEq};
use std::alloc::{AllocError, Global};
use std::fmt;

/// The result for a line.
#[derive(Debug, Drop)]
pub enum Answer {
    /// A value was read, `rest` octets follow it, and `octets` are its DER octets.
    Read {
        kind: &'static str,
        rest: usize,
        octets: Vec<u8>,
    },
    /// A value was read, `rest` octets follow it, and it can't be written for the cause `name`.
    NotWritten {
        kind: &'static str,
        rest: usize,
        name: &'static str,
    },
    /// No value was read, for the cause `name`.
    Refused {
        name: &'static str,
    },
    /// The line isn't well-formed.
    Malformed,
}

impl Answer {
    /// Returns the result for a line without its line feed.
    ///
    /// # Errors
    /// If an allocation fails for the octets of the line.
    pub fn to_line(alloc: Global, line: &str) -> Result<Answer, AllocError>
        ensures { IfOk result (IsAnswerTo line.now) }
    {
        match Request::asked(alloc, line)? {
            Some((request, octets)) => Ok(answer_to(alloc, request, &octets)),
            None => Ok(Answer::Malformed),
        }
    }

    /// Returns the result if a value is refused with this error.
    pub fn refused(error: &DecodeError) -> Answer
        ensures { IsRefusal (IsOutOfMemory error.now.kind) result }
    {
        Answer::Refused {
            name: decode_error_name(&error.kind),
        }
    }

    /// Returns the result if a value was read, `rest` octets follow it, and encoding it under DER
    /// returned `written`.
    pub fn read(word: &'static str, rest: usize, written: Result<Vec<u8>, EncodeError>) -> Answer
        ensures { IsWrittenAnswer word.now rest written result }
    {
        match written {
            Ok(octets) => Answer::Read {
                kind: word,
                rest,
                octets,
            },
            Err(error) => Answer::NotWritten {
                kind: word,
                rest,
                name: encode_error_name(&error.kind),
            },
        }
    }

    /// Returns whether the line was well-formed.
    pub fn is_well_formed(&self) -> bool
        ensures { IsTrue result ↔ (self.now ≢ Malformed) }
    {
        !matches!(self, Answer::Malformed)
    }
}

impl TypedAnswer for Answer {
    ghost use Rattle.rasn_bench.specs.Answers.{IsAnswer};

    ghost IsOfType = { IsAnswer };

    /// Reads a value of the type under these rules, and encodes it under DER.
    fn of_type<T: Decode + Encode + LawfulEq>(
        alloc: Global,
        rule: Codec,
        word: &'static str,
        octets: &[u8],
    ) -> Answer {
        match rasn::decode_with_remainder::<T>(alloc, rule, octets) {
            Err(error) => Answer::refused(&error),
            Ok((value, rest)) => Answer::read(word, rest.len(), der::encode(alloc, &value)),
        }
    }
}

impl fmt::Display for Answer {
    fn fmt<W: fmt::Write>(&self, f: &mut fmt::Formatter<W>) -> fmt::Result {
        match self {
            Answer::Malformed => f.write_str("malformed"),
            Answer::Refused { name } => write!(f, "refused {name}"),
            Answer::NotWritten { kind, rest, name } => write!(f, "{kind} {rest} refused {name}"),
            Answer::Read { kind, rest, octets } => {
                write!(f, "{kind} {rest} ")?;
                write_octets(octets, f)
            }
        }
    }
}

/// Writes octets as hexadecimal digits, and the empty list as `-`.
pub(crate) fn write_octets<W: fmt::Write>(octets: &[u8], f: &mut fmt::Formatter<W>) -> fmt::Result {
    if octets.is_empty() {
        return f.write_str("-");
    }
    for octet in octets {
        write!(f, "{octet:02X}")?;
    }
    Ok(())
}
