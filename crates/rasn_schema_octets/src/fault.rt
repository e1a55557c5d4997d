//! Why octets aren't those of a schema, and why a schema isn't written.

use rasn::error::{DecodeError, EncodeError};
use rasn_schema::{SchemaError, TypeId};
use std::alloc::{AllocError, AllocFailed};
use std::error::Error;
use std::fmt;

/// Why parts of a schema aren't read or written.
#[derive(Clone, Copy, Debug, PartialEq, Eq, Drop)]
pub(crate) enum Stop {
    /// Memory ran out.
    OutOfMemory,
    /// The default of a component isn't one value, or is nested too deep.
    Default { id: TypeId, index: usize },
}

impl From<AllocError> for Stop {
    ghost use Rattle.std.specs.Prelude.{◌≡◌};
    ghost use Rattle.rasn_schema_octets.specs.declared.fault.Stop.TheVariants.{OutOfMemory};

    ghost from_gives = { λ e s. s ≡ OutOfMemory };

    fn from(_error: AllocError) -> Stop {
        Stop::OutOfMemory
    }
}

impl<T: Drop> From<AllocFailed<T>> for Stop {
    ghost use Rattle.std.specs.Prelude.{◌≡◌};
    ghost use Rattle.rasn_schema_octets.specs.declared.fault.Stop.TheVariants.{OutOfMemory};

    ghost from_gives = { λ e s. s ≡ OutOfMemory };

    fn from(_error: AllocFailed<T>) -> Stop {
        Stop::OutOfMemory
    }
}

/// A part of the octets of a schema.
#[derive(Clone, Copy, Debug, PartialEq, Eq, Drop)]
pub enum Part {
    /// All octets.
    Whole,
    /// The version of the form.
    Version,
    /// The number of the type that was asked for.
    Root,
    /// The number of constraints that aren't checked.
    Unchecked,
    /// The names of types.
    Names,
    /// The list of types.
    Types,
    /// A type.
    Type(TypeId),
    /// What follows the schema, or its types.
    End,
}

impl fmt::Display for Part {
    fn fmt<W: fmt::Write>(&self, f: &mut fmt::Formatter<W>) -> fmt::Result {
        match *self {
            Part::Whole => f.write_str("the schema"),
            Part::Version => f.write_str("version"),
            Part::Root => f.write_str("root"),
            Part::Unchecked => f.write_str("unchecked"),
            Part::Names => f.write_str("names"),
            Part::Types => f.write_str("types"),
            Part::Type(id) => write!(f, "types[{id}]"),
            Part::End => f.write_str("the end"),
        }
    }
}

/// Why octets aren't those of a schema.
#[derive(Debug, Drop)]
pub enum ReadFault {
    /// Memory ran out.
    OutOfMemory,
    /// They aren't in DER what the form asks for: the first part that can't be read, where it
    /// begins, and why.
    Octets {
        part: Part,
        offset: usize,
        error: DecodeError,
    },
    /// They are of another version of the form.
    Version {
        version: u32,
    },
    /// The number that was asked for isn't that of a type.
    NoRoot {
        root: TypeId,
        types: usize,
    },
    /// The default of a component isn't one value, or is nested too deep.
    Default {
        id: TypeId,
        index: usize,
    },
    /// The types aren't a schema.
    Rule(SchemaError),
}

impl From<Stop> for ReadFault {
    ghost use Rattle.rasn_schema_octets.specs.Stops.{IsReadStop};

    ghost from_gives = { IsReadStop };

    fn from(stop: Stop) -> ReadFault {
        match stop {
            Stop::OutOfMemory => ReadFault::OutOfMemory,
            Stop::Default { id, index } => ReadFault::Default { id, index },
        }
    }
}

impl fmt::Display for ReadFault {
    fn fmt<W: fmt::Write>(&self, f: &mut fmt::Formatter<W>) -> fmt::Result {
        match self {
            ReadFault::OutOfMemory => f.write_str("memory ran out"),
            ReadFault::Octets {
                part,
                offset,
                error,
            } => write!(f, "{part}, byte {offset}: {error}"),
            ReadFault::Version { version } => write!(f, "version {version} isn't known"),
            ReadFault::NoRoot { root, types } => {
                write!(f, "type {root} is asked for, of {types} types")
            }
            ReadFault::Default { id, index } => write!(
                f,
                "type {id}: the default of component {index} isn't one value, or is nested too deep"
            ),
            ReadFault::Rule(error) => fmt::Display::fmt(error, f),
        }
    }
}

impl Error for ReadFault {}

/// Why a schema isn't written.
#[derive(Debug, Drop)]
pub enum WriteFault {
    /// Memory ran out.
    OutOfMemory,
    /// The number isn't that of a type.
    NoRoot { root: TypeId, types: usize },
    /// The default of a component is nested too deep.
    DeepDefault { id: TypeId, index: usize },
    /// A default has no octets in DER.
    Encode(EncodeError),
}

impl From<Stop> for WriteFault {
    ghost use Rattle.rasn_schema_octets.specs.Stops.{IsWriteStop};

    ghost from_gives = { IsWriteStop };

    fn from(stop: Stop) -> WriteFault {
        match stop {
            Stop::OutOfMemory => WriteFault::OutOfMemory,
            Stop::Default { id, index } => WriteFault::DeepDefault { id, index },
        }
    }
}

impl fmt::Display for WriteFault {
    fn fmt<W: fmt::Write>(&self, f: &mut fmt::Formatter<W>) -> fmt::Result {
        match self {
            WriteFault::OutOfMemory => f.write_str("memory ran out"),
            WriteFault::NoRoot { root, types } => {
                write!(f, "type {root} is asked for, of {types} types")
            }
            WriteFault::DeepDefault { id, index } => {
                write!(
                    f,
                    "type {id}: the default of component {index} is nested too deep"
                )
            }
            WriteFault::Encode(error) => fmt::Display::fmt(error, f),
        }
    }
}

impl Error for WriteFault {}
