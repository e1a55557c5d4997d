//! Errors of reading.
ghost use Rattle.std.specs.Prelude.{◌≡◌, if◌then◌else◌, nat_eq};
ghost use Rattle.rasn_types.specs.Errors.{needed_of, IsOutOfMemory};
ghost use Rattle.rasn_types.specs.Truth.{IsWhether};

use crate::types::{Bounded, Codec, Integer, Tag};

/// The number of octets that are missing.
#[derive(Clone, Copy, Debug, PartialEq, Eq)]
pub enum Needed {
    /// The number isn't known.
    Unknown,
    /// This number of octets.
    Size(usize),
}

impl Needed {
    /// Returns the number of missing octets, or `Unknown` if it is 0.
    pub fn new(octets: usize) -> Needed
        ensures { result ≡ needed_of octets }
    {
        if octets == 0 {
            Needed::Unknown
        } else {
            Needed::Size(octets)
        }
    }
}

/// The reason why a value isn't read, and the rules by which it was read.
#[derive(Debug, PartialEq, Eq, Drop)]
pub struct DecodeError {
    /// The rules by which the value was read.
    pub codec: Codec,
    /// What is wrong.
    pub kind: DecodeErrorKind,
}

// Every layer returns this type, so its size is kept small.
const _: () = prove!(size_of::<Result<(), DecodeError>>() == 80);

impl DecodeError {
    /// Returns whether the cause is a failed allocation.
    pub fn is_out_of_memory(&self) -> bool
        ensures { IsWhether result (IsOutOfMemory self.now.kind) }
    {
        matches!(&self.kind, DecodeErrorKind::OutOfMemory)
    }
}

/// The reason why a value isn't read. Lengths, counts and positions are in octets unless said
/// otherwise.
#[derive(Debug, PartialEq, Eq, Drop)]
pub enum DecodeErrorKind {
    /// The input ends within an encoding (X.690 8.1).
    Incomplete {
        needed: Needed,
    },
    /// Octets remain where a value or the input has to end.
    UnexpectedExtraData {
        length: usize,
    },
    /// There are no octets where at least one is needed.
    UnexpectedEmptyInput,
    /// Values are nested too deeply.
    ExceedsMaxParseDepth,
    /// REAL isn't supported.
    RealNotSupported,
    /// An allocation failed.
    OutOfMemory,
    /// A length, or a number of bits, is 2^64 or more.
    LengthExceedsPlatformWidth,
    /// A BOOLEAN is neither `00` nor `FF` under canonical rules (X.690 11.1).
    InvalidBool {
        value: u8,
    },
    /// The contents of a type of fixed length have another length.
    MismatchedLength {
        expected: usize,
        actual: usize,
    },
    /// The number needs more than `max_width` bits, or is negative and the type is unsigned.
    IntegerOverflow {
        max_width: u32,
    },
    /// The enumeration has no such number.
    DiscriminantValueNotFound {
        discriminant: isize,
    },
    /// The number of unused bits of a BIT STRING is above 7, or above 0 with no octet after it
    /// (X.690 8.6.2).
    InvalidBitString {
        bits: u8,
    },
    /// Named bits end in a 0 bit under canonical rules (X.690 11.2.2).
    TrailingZeroBits,
    /// The size violates its constraint. It is in octets, characters, units, bits or elements,
    /// depending on the type.
    SizeConstraintNotSatisfied {
        size: Option<usize>,
        expected: Bounded<usize>,
    },
    /// The number violates its constraint. The bound is boxed to keep all errors small.
    ValueConstraintNotSatisfied {
        value: Integer,
        expected: Box<Bounded<i128>>,
    },
    /// An octet isn't in the alphabet of its type: the first such octet, and its position counted
    /// from 0.
    PermittedAlphabetError {
        octet: u8,
        position: usize,
    },
    /// The octets aren't valid in the string type with this tag.
    StringConversionFailed {
        tag: Tag,
    },
    /// No alternative of the CHOICE has the tag.
    NoValidChoice {
        name: String,
    },
    /// A required component is missing.
    MissingField {
        name: String,
    },
    /// A component occurs twice.
    DuplicateField {
        name: String,
    },
    /// A cause that only these rules have.
    CodecSpecific {
        inner: CodecDecodeError,
    },
}

/// A cause that only some rules have.
#[derive(Debug, PartialEq, Eq, Drop)]
pub enum CodecDecodeError {
    Ber(BerDecodeErrorKind),
    Der(DerDecodeErrorKind),
}

/// Causes defined by X.690 8, under all three rules.
#[derive(Debug, PartialEq, Eq, Drop)]
pub enum BerDecodeErrorKind {
    /// A tag number is 2^32 or more (X.690 8.1.2.4).
    UnsupportedTagNumber,
    /// An arc is 2^32 or more (X.690 8.19).
    UnsupportedObjectIdentifierArc,
    /// End-of-contents octets are present where a value is needed (X.690 8.1.5).
    UnexpectedEndOfContents,
    /// A value is present where end-of-contents octets are needed (X.690 8.1.5).
    MissingEndOfContents,
    /// The indefinite form isn't allowed here (X.690 8.1.3.2, 10.1).
    IndefiniteLengthNotAllowed,
    /// The first length octet is `FF` (X.690 8.1.3.5).
    ReservedLengthOctet,
    /// The tag isn't the expected one.
    MismatchedTag { expected: Tag, actual: Tag },
    /// A SEQUENCE, a SET or a list lacks the constructed bit (X.690 8.9.1).
    InvalidConstructedIdentifier,
    /// The arcs aren't those of an object identifier.
    InvalidObjectIdentifier,
    /// The text isn't one of the time type.
    InvalidDate { octets: Vec<u8> },
}

/// Causes defined by X.690 10 and 11, under DER: the encoding isn't the one that DER writes.
#[derive(Clone, Copy, Debug, PartialEq, Eq)]
pub enum DerDecodeErrorKind {
    /// A string is encoded in segments (X.690 10.2).
    ConstructedEncodingNotAllowed,
    /// A tag number has more octets than it needs (X.690 8.1.2.4.2).
    NonMinimalTagNumber,
    /// The constructed bit isn't the one that the type is written with (X.690 8.1.2.5).
    ConstructedBitMismatch,
    /// A length has more octets than it needs (X.690 10.1).
    NonMinimalLength,
    /// The first nine bits of a number are equal (X.690 8.3.2).
    NonMinimalInteger,
    /// A subidentifier of an object identifier has more octets than it needs (X.690 8.19.2).
    NonMinimalArc,
    /// An unused bit of a BIT STRING is set (X.690 11.2.1).
    NonzeroUnusedBits,
    /// A part that equals its default is present (X.690 11.5).
    DefaultValuePresent,
    /// The tags of the components of a SET aren't in ascending order (X.690 10.3).
    SetComponentsOutOfOrder,
    /// The encodings of the elements of a SET OF aren't in ascending order (X.690 11.6).
    SetOfOutOfOrder,
}
