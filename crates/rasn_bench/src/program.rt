//! The work of the program: it prints a result for each line.
ghost use Rattle.std.specs.Prelude.{IfOk};

use crate::answer::Answer;
use crate::normal_answer::NormalAnswer;
use std::alloc::{AllocError, Global};
use std::fmt;
use std::io::{BufRead, ErrorKind, Write};
use thiserror::Error;

/// The reason why the program stops.
#[derive(Clone, Copy, Debug, PartialEq, Eq, Drop, Error)]
pub enum RunFault {
    /// The input can't be read, or isn't UTF-8.
    #[error("cannot read")]
    Read,
    /// The output can't be written.
    #[error("cannot write")]
    Write,
    /// An allocation of the program itself fails.
    #[error("out of memory")]
    Memory,
}

impl RunFault {
    /// Returns the fault of a failed read.
    pub fn of_read(kind: ErrorKind) -> RunFault {
        match kind {
            ErrorKind::OutOfMemory => RunFault::Memory,
            _ => RunFault::Read,
        }
    }
}

/// A result for a line.
pub trait LineAnswer: fmt::Display + Drop {
    /// Returns whether the line was well-formed.
    fn has_good_form(&self) -> bool;
}

impl LineAnswer for Answer {
    fn has_good_form(&self) -> bool {
        self.is_well_formed()
    }
}

impl LineAnswer for NormalAnswer {
    fn has_good_form(&self) -> bool {
        self.is_well_formed()
    }
}

/// A source of results for lines.
pub trait Answers {
    ghost use Rattle.std.specs.Prelude.{List, ℕ};
    ghost use Rattle.rasn_bench.specs.declared.normal_answer.NormalAnswer.{NormalAnswer};

    /// The type of the results.
    type Answer: LineAnswer;

    ghost IsAnswer: { Self → List ℕ → Self.Answer → Type 0 };

    ghost IsNormalAnswer: { Self → List ℕ → NormalAnswer → Type 0 };

    /// Returns the result for a line without its line feed.
    ///
    /// # Errors
    /// If an allocation fails.
    fn answer(&self, alloc: Global, line: &str) -> Result<Self::Answer, AllocError>
        ensures { IfOk result (IsAnswer self.now line.now) };

    /// Returns the result for a line without its line feed: the DER octets of its value alone.
    ///
    /// # Errors
    /// If an allocation fails.
    fn normal_answer(&self, alloc: Global, line: &str) -> Result<NormalAnswer, AllocError>
        ensures { IfOk result (IsNormalAnswer self.now line.now) };
}

/// The results for the types of `ValueType`.
#[derive(Clone, Copy, Debug, PartialEq, Eq, Drop)]
pub struct WorkedTypes;

impl Answers for WorkedTypes {
    ghost use Rattle.rasn_bench.specs.Answers.{IsAnswerTo};
    ghost use Rattle.rasn_bench.specs.NormalAnswers.{IsNormalAnswerTo};

    type Answer = Answer;

    ghost IsAnswer = { λ _ line answer. IsAnswerTo line answer };

    ghost IsNormalAnswer = { λ _ line answer. IsNormalAnswerTo line answer };

    fn answer(&self, alloc: Global, line: &str) -> Result<Answer, AllocError> {
        Answer::to_line(alloc, line)
    }

    fn normal_answer(&self, alloc: Global, line: &str) -> Result<NormalAnswer, AllocError> {
        NormalAnswer::to_line(alloc, line)
    }
}

/// Writes a line to the output for each line of the input, skipping empty ones. Returns whether all
/// lines were well-formed. A line ends with a line feed, and the last one may end with the input.
/// One line is held in memory at a time.
///
/// # Errors
/// `Read` if the input can't be read or isn't UTF-8, `Write` if the output can't be written,
/// `Memory` if an allocation of the program itself fails.
pub fn run<R: BufRead, W: Write>(
    alloc: Global,
    input: &mut R,
    output: &mut W,
) -> Result<bool, RunFault> {
    run_by(alloc, &WorkedTypes, false, input, output)
}

/// Works like `run`, but writes only the DER octets of each line's value.
///
/// # Errors
/// Those of `run`.
pub fn run_normalise<R: BufRead, W: Write>(
    alloc: Global,
    input: &mut R,
    output: &mut W,
) -> Result<bool, RunFault> {
    run_by(alloc, &WorkedTypes, true, input, output)
}

/// Works like `run`, or like `run_normalise` if `normalises`, with results from `answers`.
///
/// # Errors
/// Those of `run`.
pub fn run_by<A: Answers, R: BufRead, W: Write>(
    alloc: Global,
    answers: &A,
    normalises: bool,
    input: &mut R,
    output: &mut W,
) -> Result<bool, RunFault> {
    let mut line = Vec::new(alloc);
    let mut well_formed = true;
    for _ in 0..u64::MAX {
        line.clear();
        match input.read_until(b'\n', &mut line) {
            Ok(0) => break,
            Ok(_) => {}
            Err(error) => return Err(RunFault::of_read(error.kind())),
        }
        let text = without_line_feed(&line);
        let Ok(text) = str::from_utf8(text) else {
            return Err(RunFault::Read);
        };
        if !text.is_empty() {
            well_formed &= answer_line(alloc, answers, normalises, text, output)?;
        }
    }
    match output.flush() {
        Ok(()) => Ok(well_formed),
        Err(_) => Err(RunFault::Write),
    }
}

/// Returns a line without the line feed that ends it.
fn without_line_feed(line: &[u8]) -> &[u8] {
    match line {
        [text @ .., b'\n'] => text,
        _ => line,
    }
}

/// Writes the result for a line, and returns whether the line was well-formed.
fn answer_line<A: Answers, W: Write>(
    alloc: Global,
    answers: &A,
    normalises: bool,
    line: &str,
    output: &mut W,
) -> Result<bool, RunFault> {
    if normalises {
        match answers.normal_answer(alloc, line) {
            Ok(answer) => write_answer(output, &answer),
            Err(_) => Err(RunFault::Memory),
        }
    } else {
        match answers.answer(alloc, line) {
            Ok(answer) => write_answer(output, &answer),
            Err(_) => Err(RunFault::Memory),
        }
    }
}

/// Writes a result as a line, and returns whether the line that it belongs to was well-formed.
fn write_answer<A: LineAnswer, W: Write>(output: &mut W, answer: &A) -> Result<bool, RunFault> {
    match writeln!(output, "{answer}") {
        Ok(()) => Ok(answer.has_good_form()),
        Err(_) => Err(RunFault::Write),
    }
}
