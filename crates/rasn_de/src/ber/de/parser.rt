//! Values as they are framed: identifier, length and contents octets (X.690 8.1).

use rasn_types::error::DerDecodeErrorKind;
use rasn_types::types::{Bounded, Tag};

pub mod alphabet_scan;
pub mod bit_count;
pub mod bit_string;
pub mod closing;
pub mod headers;
pub mod named_count;
pub mod object_identifier;
pub mod octet_count;
pub mod segments;
pub mod short_text;
pub mod skipping;
pub mod text_scan;

/// The reasons for which input is refused, except those that own memory.
#[derive(Clone, Copy, Debug)]
pub enum ParseError {
    Incomplete {
        needed: usize,
    },
    UnexpectedExtraData {
        length: usize,
    },
    UnexpectedEmptyInput,
    ExceedsMaxParseDepth,
    OutOfMemory,
    LengthExceedsPlatformWidth,
    InvalidBool {
        value: u8,
    },
    MismatchedLength {
        expected: usize,
        actual: usize,
    },
    IntegerOverflow {
        max_width: u32,
    },
    InvalidBitString {
        bits: u8,
    },
    TrailingZeroBits,
    SizeConstraintNotSatisfied {
        size: usize,
        expected: Bounded<usize>,
    },
    PermittedAlphabetError {
        octet: u8,
        position: usize,
    },
    StringConversionFailed {
        tag: Tag,
    },
    UnsupportedTagNumber,
    UnexpectedEndOfContents,
    MissingEndOfContents,
    IndefiniteLengthNotAllowed,
    ReservedLengthOctet,
    MismatchedTag {
        expected: Tag,
        actual: Tag,
    },
    InvalidConstructedIdentifier,
    Der(DerDecodeErrorKind),
    DiscriminantValueNotFound {
        discriminant: isize,
    },
    UnsupportedObjectIdentifierArc,
}

/// The contents of a value: octets, unless the length is indefinite.
#[derive(Clone, Copy, Debug)]
pub enum Contents<'input> {
    Definite(&'input [u8]),
    Indefinite,
}

/// The header of a value, with its contents.
#[derive(Clone, Copy, Debug)]
pub struct Value<'input> {
    pub tag: Tag,
    pub is_constructed: bool,
    pub contents: Contents<'input>,
}
