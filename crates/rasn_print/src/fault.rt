//! Why the program stops.

use rasn_text::{Escaping, visible};
use std::alloc::{AllocError, AllocFailed, Global};
use std::fmt;
use std::io::{self, ErrorKind};

/// The reason why the program stops.
#[derive(Debug, Drop)]
pub enum CallFault {
    /// The call is wrong, or a file of it can't be read: what is printed then.
    Call(String),
    /// The output can't be written.
    Write,
    /// The reader of the output has gone.
    Closed,
    /// An allocation fails.
    Memory,
}

impl From<AllocError> for CallFault {
    fn from(_: AllocError) -> CallFault {
        CallFault::Memory
    }
}

impl<T: Drop> From<AllocFailed<T>> for CallFault {
    fn from(_: AllocFailed<T>) -> CallFault {
        CallFault::Memory
    }
}

impl CallFault {
    /// Returns the fault of a wrong call.
    pub fn of_call<T: fmt::Display>(alloc: Global, text: &T) -> CallFault {
        match call_line(alloc, text) {
            Ok(text) => CallFault::Call(text),
            Err(_) => CallFault::Memory,
        }
    }

    /// Returns the fault of a failed write.
    pub fn of_write(error: io::Error) -> CallFault {
        match error.kind() {
            ErrorKind::OutOfMemory => CallFault::Memory,
            ErrorKind::BrokenPipe => CallFault::Closed,
            _ => CallFault::Write,
        }
    }
}

/// Returns the line that says what is wrong about a call.
fn call_line<T: fmt::Display>(alloc: Global, text: &T) -> Result<String, AllocError> {
    let shown = visible(alloc, Escaping::Line, text.to_string(alloc)?.as_str())?;
    format!(in alloc; "soqavise: {shown}\n")
}
