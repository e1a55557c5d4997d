//! Answers lines as `rasn-vectors` does, each type given as a schema, and rows of values that are
//! read and written by a schema.
#![tactic(auto)]

mod answers;
mod line_schema;
mod line_types;
mod row;
mod row_answer;
mod row_types;

use crate::line_schema::{LineSchema, LineSchemaError};
use rasn_bench::{CallFault, answer_call};
use std::process::ExitCode;
use thiserror::Error;

/// What the program says if it can't go on.
#[derive(Debug, Drop, Error)]
enum Fault {
    #[error(transparent)]
    Schema(LineSchemaError),
    #[error(transparent)]
    Call(CallFault),
}

fn main(rt: HostRuntime) -> ExitCode {
    match answer(&rt) {
        Ok(true) => ExitCode::SUCCESS,
        Ok(false) => ExitCode::FAILURE,
        Err(fault) => {
            let _ = eprintln!(rt; "{fault}");
            ExitCode::FAILURE
        }
    }
}

/// Prints the results of the lines that the arguments name, and returns whether none was malformed.
fn answer(rt: &HostRuntime) -> Result<bool, Fault> {
    let schema = LineSchema::new(rt.alloc()).map_err(Fault::Schema)?;
    answer_call(rt, &schema).map_err(Fault::Call)
}
