//! Errors that implementations of `Decode` and `DecodeChoice` construct.
ghost use Rattle.rasn_de.specs.NamedErrors.{IsNamedError, IsNoValidChoice, IsMissingField, IsDuplicateField};

use rasn_types::error::{DecodeError, DecodeErrorKind};
use rasn_types::types::Codec;
use std::alloc::{AllocError, Global};

/// Constructors of the errors that an implementation of `Decode` or `DecodeChoice` returns itself.
/// Each copies the name that it reports; if that allocation fails, the error is `OutOfMemory`.
pub trait Error: Drop {
    /// Returns the error that no alternative of the CHOICE called `name` has the next tag.
    fn no_valid_choice(alloc: Global, name: &str, codec: Codec) -> Self;

    /// Returns the error that the required component called `name` is missing.
    fn missing_field(alloc: Global, name: &str, codec: Codec) -> Self;

    /// Returns the error that the component called `name` occurs twice.
    fn duplicate_field(alloc: Global, name: &str, codec: Codec) -> Self;
}

impl Error for DecodeError {
    fn no_valid_choice(alloc: Global, name: &str, codec: Codec) -> DecodeError
        ensures { IsNamedError (IsNoValidChoice name.now) codec result }
    {
        let kind = match String::from_str(alloc, name) {
            Ok(name) => DecodeErrorKind::NoValidChoice { name },
            Err(AllocError) => DecodeErrorKind::OutOfMemory,
        };
        DecodeError { kind, codec }
    }

    fn missing_field(alloc: Global, name: &str, codec: Codec) -> DecodeError
        ensures { IsNamedError (IsMissingField name.now) codec result }
    {
        let kind = match String::from_str(alloc, name) {
            Ok(name) => DecodeErrorKind::MissingField { name },
            Err(AllocError) => DecodeErrorKind::OutOfMemory,
        };
        DecodeError { kind, codec }
    }

    fn duplicate_field(alloc: Global, name: &str, codec: Codec) -> DecodeError
        ensures { IsNamedError (IsDuplicateField name.now) codec result }
    {
        let kind = match String::from_str(alloc, name) {
            Ok(name) => DecodeErrorKind::DuplicateField { name },
            Err(AllocError) => DecodeErrorKind::OutOfMemory,
        };
        DecodeError { kind, codec }
    }
}
