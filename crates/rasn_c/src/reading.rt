//! The reading of octets as one value.

use crate::types::TypedAnswer;
use rasn::de::Decode;
use rasn::enc::Encode;
use rasn::error::DecodeError;
use rasn::types::{Codec, LawfulEq};
use std::alloc::Global;

/// The result of reading octets as one value of a type.
#[derive(Debug, Drop)]
pub enum Reading {
    /// All of the octets are one value.
    Alone,
    /// They aren't, for this error. The offset is that of the octets after the value, or 0 if no
    /// value is read.
    Refused { offset: usize, error: DecodeError },
}

impl TypedAnswer for Reading {
    ghost use Rattle.rasn_c.specs.Errors.{IsReading};

    ghost IsOfType = { IsReading };

    /// Reads a value, and checks whether octets follow it.
    fn of_type<T: Decode + Encode + LawfulEq>(
        alloc: Global,
        rule: Codec,
        octets: &[u8],
    ) -> Reading {
        let (_value, rest) = match rasn::decode_with_remainder::<T>(alloc, rule, octets) {
            Ok(read) => read,
            Err(error) => return Reading::Refused { offset: 0, error },
        };
        match rasn::refuse_remainder(rule, rest) {
            Ok(()) => Reading::Alone,
            Err(error) => Reading::Refused {
                offset: octets.len() - rest.len(),
                error,
            },
        }
    }
}
