//! Prints the results of lines `rule type hex` from a file or, if none is named, from standard
//! input. With `--normalise` a result is the DER octets alone.
#![tactic(auto)]

use rasn_bench::{WorkedTypes, answer_call};
use std::process::ExitCode;

fn main(rt: HostRuntime) -> ExitCode {
    match answer_call(&rt, &WorkedTypes) {
        Ok(true) => ExitCode::SUCCESS,
        Ok(false) => ExitCode::FAILURE,
        Err(fault) => {
            let _ = eprintln!(rt; "{fault}");
            ExitCode::FAILURE
        }
    }
}
