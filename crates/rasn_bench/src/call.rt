//! A call of the program: its arguments, its input and its output.

use crate::arguments::{Usage, file_of};
use crate::program::{Answers, RunFault, run_by};
use std::alloc::Global;
use std::env;
use std::fs::File;
use std::io::{self, BufReader, BufWriter, Read};
use std::rt::{Env, Files};
use thiserror::Error;

/// The error that the program reports before it ends.
#[derive(Clone, Copy, Debug, PartialEq, Eq, Drop, Error)]
pub enum CallFault {
    #[error(transparent)]
    Usage(Usage),
    #[error(transparent)]
    Run(RunFault),
}

/// Prints a result for each line of the file that the program's arguments name, or of standard
/// input. Returns whether all lines were well-formed.
///
/// # Errors
/// `Usage` if the arguments are wrong; `Run` with the fault of `run_by`, also if the file can't be
/// opened.
pub fn answer_call<R: Env + Files + Input + Print + AllocGlobal, A: Answers>(
    rt: &R,
    answers: &A,
) -> Result<bool, CallFault> {
    let mut arguments = Vec::new(rt.alloc());
    let all = env::args(rt).map_err(|error| CallFault::Run(RunFault::of_read(error.kind())))?;
    for argument in all.skip(1) {
        arguments
            .push(argument)
            .map_err(|_| CallFault::Run(RunFault::Memory))?;
    }
    let (normalises, file) = file_of(&arguments).map_err(CallFault::Usage)?;
    let answered = match file {
        None => answer_all(rt, answers, normalises, rt.reader()),
        Some(name) => match File::open(rt, name) {
            Ok(file) => answer_all(rt, answers, normalises, file),
            Err(error) => Err(RunFault::of_read(error.kind())),
        },
    };
    answered.map_err(CallFault::Run)
}

/// Prints a result for each line of the reader: if `normalises`, the DER octets alone.
fn answer_all<P: Print + AllocGlobal, A: Answers, R: Read + Drop>(
    rt: &P,
    answers: &A,
    normalises: bool,
    reader: R,
) -> Result<bool, RunFault> {
    let alloc = rt.alloc();
    let mut input = BufReader::new(alloc, reader).map_err(|_| RunFault::Memory)?;
    let mut output = BufWriter::new(alloc, io::writer(rt)).map_err(|_| RunFault::Memory)?;
    run_by(alloc, answers, normalises, &mut input, &mut output)
}
