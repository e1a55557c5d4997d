//! Errors of writing.
ghost use Rattle.rasn_types.specs.Errors.{IsEncodeOutOfMemory};
ghost use Rattle.rasn_types.specs.Truth.{IsWhether};

use crate::types::{Bounded, Codec, Integer};

/// The reason why a value isn't written, and the rules by which it was to be written.
#[derive(Debug, PartialEq, Eq, Drop)]
pub struct EncodeError {
    /// What is wrong.
    pub kind: EncodeErrorKind,
    /// The rules by which the value was to be written.
    pub codec: Codec,
}

// Every layer returns this type, so its size is kept small.
const _: () = prove!(size_of::<Result<(), EncodeError>>() == 72);

impl EncodeError {
    /// Returns whether the cause is a failed allocation.
    pub fn is_out_of_memory(&self) -> bool
        ensures { IsWhether result (IsEncodeOutOfMemory self.now.kind) }
    {
        matches!(&self.kind, EncodeErrorKind::OutOfMemory)
    }
}

/// The reason why a value isn't written.
#[derive(Debug, PartialEq, Eq, Drop)]
pub enum EncodeErrorKind {
    /// The size violates its constraint. It is in octets, characters, units, bits or elements,
    /// depending on the type.
    SizeConstraintNotSatisfied {
        size: usize,
        expected: Bounded<usize>,
    },
    /// The number violates its constraint. The bound is boxed to keep all errors small.
    ValueConstraintNotSatisfied {
        value: Integer,
        expected: Box<Bounded<i128>>,
    },
    /// REAL isn't supported.
    RealNotSupported,
    /// An allocation failed.
    OutOfMemory,
    /// A cause that only these rules have.
    CodecSpecific {
        inner: CodecEncodeError,
    },
}

/// A cause that only some rules have.
#[derive(Debug, PartialEq, Eq, Drop)]
pub enum CodecEncodeError {
    Ber(BerEncodeErrorKind),
}

/// Causes defined by X.690 8 to 11.
#[derive(Debug, PartialEq, Eq, Drop)]
pub enum BerEncodeErrorKind {
    /// The arcs aren't those of an object identifier that can be encoded (X.690 8.19.4).
    InvalidObjectIdentifier { oid: Vec<u32> },
    /// An untagged open type is a component of a SET.
    AnyInSet,
    /// The tags of the components of a SET, or the encodings of the elements of a SET OF, aren't in
    /// ascending order (X.690 9.3, 10.3, 11.6).
    SetOutOfOrder,
}
