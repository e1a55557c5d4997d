//! What is wrong with JSON, or with a value that has none.
ghost use Rattle.std.specs.Prelude.{◌≡◌, Ok, IfErr, IsErr, MatchResult};
ghost use Rattle.rasn_types.specs.Truth.{IsWhether};
ghost use Rattle.rasn_json.specs.Refusals.{IsMemory};

use rasn_schema::TypeId;
use rasn_types::types::Bounded;
use std::alloc::{AllocError, Global};
use std::error::Error as StdError;
use std::fmt;
use thiserror::Error;

/// A step on the way to a part.
#[derive(Debug, Drop)]
pub enum JsonStep {
    /// To the member with this name.
    Member(String),
    /// To the element with this index, counted from 0.
    Element(usize),
}

/// What is wrong with JSON, or with a value that has none.
#[derive(Debug, Drop, Error)]
pub enum JsonErrorKind {
    /// The text isn't JSON (RFC 8259). Columns are counted in octets, and both from 1.
    #[error("line {line}, column {column}: not JSON (RFC 8259)")]
    Syntax {
        line: usize,
        column: usize,
    },
    /// Arrays and objects of the text are nested more than [`MAX_NESTING`](crate::MAX_NESTING) deep:
    /// where the first that is deeper begins.
    #[error("line {line}, column {column}: nested more than 512 deep")]
    TextTooDeep {
        line: usize,
        column: usize,
    },
    /// Arrays and objects of a value are nested more than [`MAX_NESTING`](crate::MAX_NESTING) deep,
    /// or explicit tags between those of a text more than a decoder admits.
    #[error("nested more than 512 deep")]
    TooDeep,
    /// The JSON value is of another form than values of the type.
    #[error("expected {expected}, found {found}")]
    OtherForm {
        expected: &'static str,
        found: &'static str,
    },
    /// The type has no component with this name.
    #[error("unknown member {name:?}")]
    UnknownMember {
        name: String,
    },
    /// The member of a component that isn't optional is missing.
    #[error("member {name:?} is missing")]
    MissingMember {
        name: String,
    },
    /// Two members have this name.
    #[error("two members are called {name:?}")]
    RepeatedMember {
        name: String,
    },
    /// The CHOICE has no alternative with this name.
    #[error("unknown alternative {name:?}")]
    UnknownAlternative {
        name: String,
    },
    /// The object of a CHOICE hasn't one member.
    #[error("expected one member, the alternative, found {members}")]
    NotOneMember {
        members: usize,
    },
    /// The ENUMERATED names no number so.
    #[error("unknown name {name:?} of an ENUMERATED")]
    UnknownName {
        name: String,
    },
    /// The number has a fraction or an exponent.
    #[error("expected a whole number, without a point and an exponent")]
    NotWhole,
    /// The number has more octets than [`MAX_NUMBER_OCTETS`](crate::MAX_NUMBER_OCTETS).
    #[error("the number has more than 16384 octets")]
    LongNumber,
    /// The number isn't admitted.
    #[error("the number isn't in {expected}")]
    NumberOutOfRange {
        expected: Bounded<i128>,
    },
    /// The string isn't pairs of hexadecimal digits.
    #[error("expected pairs of hexadecimal digits")]
    NotHexadecimal,
    /// The size isn't admitted: of octets, bits, characters or elements.
    #[error("size {size}, expected {expected}")]
    WrongSize {
        size: usize,
        expected: Bounded<usize>,
    },
    /// These octets don't hold this number of bits: each octet but the last holds eight.
    #[error("{length} bits aren't {octets} octets")]
    WrongLength {
        length: usize,
        octets: usize,
    },
    /// A bit of the last octet that isn't used is 1.
    #[error("an unused bit is 1")]
    UnusedBit,
    /// A character isn't in the alphabet of the type. Characters are counted from 0.
    #[error("character {position} isn't in the alphabet of the type")]
    ForeignCharacter {
        position: usize,
    },
    /// The string isn't the arcs of an OBJECT IDENTIFIER.
    #[error("expected the arcs of an OBJECT IDENTIFIER, with points between")]
    NotArcs,
    /// The string isn't a time of the type.
    #[error("expected a time as the type writes it")]
    NotTime,
    /// The JSON value is none of a REAL: a number, an object of one with base 10, or a string.
    #[error("expected a number, an object with base10Value, or -0, INF, -INF or NaN")]
    NotReal,
    /// The value isn't one of the type.
    #[error("the value doesn't fit its type")]
    Unfit,
    /// The value is one of the type, and has no JSON: an unpaired surrogate in a BMPString, arcs
    /// without a subidentifier, a time that its text can't say.
    #[error("the value has no JSON")]
    NoJson,
    /// The schema has no type with this number.
    #[error("the schema has no type {id}")]
    NoType {
        id: TypeId,
    },
    /// Memory runs out.
    #[error("out of memory")]
    OutOfMemory,
}

/// What is wrong, and where: shown as `tbsCertificate.extensions[1].critical: ..`.
#[derive(Debug, Drop)]
pub struct JsonError {
    /// What is wrong.
    pub kind: JsonErrorKind,
    /// The way to the part, the innermost step first.
    pub steps: Vec<JsonStep>,
}

impl JsonError {
    ghost use Rattle.std.specs.Prelude.{◌≡◌};
    ghost use Rattle.rasn_json.specs.Refusals.{IsMemory, IsOfElement, IsOfItself, IsOfMember, IsOfPart, OrMemory};

    /// Returns an error of the value itself.
    pub(crate) fn new(alloc: Global, kind: JsonErrorKind) -> JsonError
        ensures { IsOfItself kind result }
    {
        JsonError {
            kind,
            steps: Vec::new(alloc),
        }
    }

    /// Returns the error that memory ran out.
    pub(crate) fn memory(alloc: Global) -> JsonError
        ensures { IsMemory result }
    {
        JsonError::new(alloc, JsonErrorKind::OutOfMemory)
    }

    /// Returns whether memory ran out.
    pub fn is_out_of_memory(&self) -> bool
        ensures { IsWhether result (IsMemory self.now) }
    {
        matches!(&self.kind, JsonErrorKind::OutOfMemory)
    }

    /// Returns the error of a value of which the one with the error is the member with this name.
    pub(crate) fn in_member(self, alloc: Global, name: &str) -> JsonError
        ensures { OrMemory (IsOfMember name.now (λ e. e ≡ self)) result }
    {
        match String::from_str(alloc, name) {
            Ok(name) => self.inside(alloc, JsonStep::Member(name)),
            Err(_) => JsonError::memory(alloc),
        }
    }

    /// Returns the error of a value of which the one with the error is the element with this index.
    pub(crate) fn in_element(self, alloc: Global, index: usize) -> JsonError
        ensures { OrMemory (IsOfElement index (λ e. e ≡ self)) result }
    {
        self.inside(alloc, JsonStep::Element(index))
    }

    /// Returns the error of a value of which the one with the error is the part after this step.
    fn inside(self, alloc: Global, step: JsonStep) -> JsonError
        ensures { OrMemory (IsOfPart (λ s. s ≡ step) (λ e. e ≡ self)) result }
    {
        let mut error = self;
        match error.steps.push(step) {
            Ok(()) => error,
            Err(_) => JsonError::memory(alloc),
        }
    }
}

/// The names and indices on the way, and what is wrong.
impl fmt::Display for JsonError {
    fn fmt<W: fmt::Write>(&self, f: &mut fmt::Formatter<W>) -> fmt::Result {
        write_steps(f, self.steps.as_slice())?;
        let kind = &self.kind;
        write!(f, "{kind}")
    }
}

impl StdError for JsonError {}

/// Writes the steps from the last to the first, and a colon.
fn write_steps<W: fmt::Write>(f: &mut fmt::Formatter<W>, steps: &[JsonStep]) -> fmt::Result {
    if steps.is_empty() {
        return Ok(());
    }
    let mut is_first = true;
    for step in steps.iter().rev() {
        match step {
            JsonStep::Member(name) => {
                f.write_str(if is_first { "" } else { "." })?;
                f.write_str(name.as_str())?;
            }
            JsonStep::Element(index) => write!(f, "[{index}]")?,
        }
        is_first = false;
    }
    f.write_str(": ")
}

/// Returns a result whose error is that memory ran out.
pub(crate) fn or_memory<T>(alloc: Global, outcome: Result<T, AllocError>) -> Result<T, JsonError>
    ensures ok { MatchResult outcome (λ v. result ≡ Ok v) (λ _. IsErr result) }
    ensures err { IfErr result IsMemory }
{
    match outcome {
        Ok(value) => Ok(value),
        Err(_) => Err(JsonError::memory(alloc)),
    }
}
