//! The texts of errors, composed by small functions: they are proved faster than one function for
//! all kinds.
ghost use Rattle.std.specs.Prelude.{◌++◌, Some, codes, decimal};
ghost use Rattle.std.specs.Fmt.{DisplaysOnOk, WritesOnOk, ◌++?◌};
ghost use Rattle.rasn_types.specs.Text.{two_digits, shown_bounds, shown_rules};
ghost use Rattle.rasn_types.specs.ErrorText.{shown_octets, shown_needed, shown_size, shown_outside};

use crate::error::{
    BerDecodeErrorKind, BerEncodeErrorKind, CodecDecodeError, CodecEncodeError, DecodeError,
    DecodeErrorKind, DerDecodeErrorKind, EncodeError, EncodeErrorKind, Needed,
};
use crate::hexadecimal::Hexadecimal;
use crate::types::{Bounded, Codec};
use std::error::Error;
use std::fmt;

impl fmt::Display for Codec {
    ghost use Rattle.rasn_types.specs.Text.{shown_rules};

    ghost output = { λ rules. Some (shown_rules rules) };

    fn fmt<W: fmt::Write>(&self, f: &mut fmt::Formatter<W>) -> fmt::Result {
        f.write_str(match self {
            Codec::Ber => "BER",
            Codec::Cer => "CER",
            Codec::Der => "DER",
        })
    }
}

/// Writes the rules, and what is wrong.
impl fmt::Display for DecodeError {
    ghost use Rattle.rasn_types.specs.ErrorText.{shown_decode_error};

    ghost output = { shown_decode_error };

    fn fmt<W: fmt::Write>(&self, f: &mut fmt::Formatter<W>) -> fmt::Result {
        write_under(f, self.codec, &self.kind)
    }
}

impl Error for DecodeError {}

/// Writes the rules, and what is wrong.
impl fmt::Display for EncodeError {
    ghost use Rattle.rasn_types.specs.ErrorText.{shown_encode_error};

    ghost output = { shown_encode_error };

    fn fmt<W: fmt::Write>(&self, f: &mut fmt::Formatter<W>) -> fmt::Result {
        write_under(f, self.codec, &self.kind)
    }
}

impl Error for EncodeError {}

impl fmt::Display for DecodeErrorKind {
    ghost use Rattle.rasn_types.specs.ErrorText.{shown_decode_kind};

    ghost output = { shown_decode_kind };

    fn fmt<W: fmt::Write>(&self, f: &mut fmt::Formatter<W>) -> fmt::Result {
        use DecodeErrorKind as Kind;
        match self {
            Kind::Incomplete { needed } => write_needed(f, *needed),
            Kind::UnexpectedExtraData { length } => write_octets(f, *length, "trailing"),
            Kind::UnexpectedEmptyInput => f.write_str("empty contents"),
            Kind::ExceedsMaxParseDepth => f.write_str("nested too deeply"),
            Kind::RealNotSupported => f.write_str("REAL is not supported"),
            Kind::OutOfMemory => f.write_str("out of memory"),
            Kind::LengthExceedsPlatformWidth => f.write_str("length exceeds 64 bits"),
            Kind::InvalidBool { value } => write_boolean(f, *value),
            Kind::MismatchedLength { expected, actual } => {
                instead(f, "length ", actual, expected)
            }
            Kind::IntegerOverflow { max_width } => {
                around(
                    f,
                    "number is out of range for a type of ",
                    max_width,
                    " bits",
                )
            }
            Kind::DiscriminantValueNotFound { discriminant } => {
                after(f, "no enumeration item has the number ", discriminant)
            }
            Kind::InvalidBitString { bits } => after(f, "invalid number of unused bits: ", bits),
            Kind::TrailingZeroBits => f.write_str("named bits end in a 0 bit"),
            Kind::SizeConstraintNotSatisfied { size, expected } => write_size(f, *size, expected),
            Kind::ValueConstraintNotSatisfied { value, expected } => {
                outside(f, "number ", value, expected)
            }
            Kind::PermittedAlphabetError { octet, position } => write_place(f, *octet, *position),
            Kind::StringConversionFailed { tag } => after(f, "invalid string of type ", tag),
            Kind::NoValidChoice { name } => around(f, "no alternative of `", name, "` has the tag"),
            Kind::MissingField { name } => around(f, "missing component `", name, "`"),
            Kind::DuplicateField { name } => around(f, "duplicate component `", name, "`"),
            Kind::CodecSpecific { inner } => fmt::Display::fmt(inner, f),
        }
    }
}

impl Error for DecodeErrorKind {}

impl fmt::Display for CodecDecodeError {
    ghost use Rattle.rasn_types.specs.ErrorText.{shown_codec_decode};

    ghost output = { λ cause. Some (shown_codec_decode cause) };

    fn fmt<W: fmt::Write>(&self, f: &mut fmt::Formatter<W>) -> fmt::Result {
        match self {
            CodecDecodeError::Ber(cause) => fmt::Display::fmt(cause, f),
            CodecDecodeError::Der(cause) => fmt::Display::fmt(cause, f),
        }
    }
}

impl Error for CodecDecodeError {}

impl fmt::Display for BerDecodeErrorKind {
    ghost use Rattle.rasn_types.specs.ErrorText.{shown_ber_decode};

    ghost output = { λ cause. Some (shown_ber_decode cause) };

    fn fmt<W: fmt::Write>(&self, f: &mut fmt::Formatter<W>) -> fmt::Result {
        use BerDecodeErrorKind as Kind;
        f.write_str(match self {
            Kind::MismatchedTag { expected, actual } => {
                return instead(f, "unexpected tag ", actual, expected);
            }
            Kind::InvalidDate { octets } => {
                let shown = Hexadecimal(octets);
                return after(f, "invalid time, octets ", &shown);
            }
            Kind::UnsupportedTagNumber => "tag number exceeds 32 bits",
            Kind::UnsupportedObjectIdentifierArc => "OBJECT IDENTIFIER arc exceeds 32 bits",
            Kind::UnexpectedEndOfContents => "unexpected end-of-contents octets",
            Kind::MissingEndOfContents => "missing end-of-contents octets",
            Kind::IndefiniteLengthNotAllowed => "indefinite length is not allowed",
            Kind::ReservedLengthOctet => "reserved length octet FF",
            Kind::InvalidConstructedIdentifier => "primitive encoding, expected constructed",
            Kind::InvalidObjectIdentifier => "invalid OBJECT IDENTIFIER",
        })
    }
}

impl Error for BerDecodeErrorKind {}

impl fmt::Display for DerDecodeErrorKind {
    ghost use Rattle.rasn_types.specs.ErrorText.{shown_der_decode};

    ghost output = { λ cause. Some (shown_der_decode cause) };

    fn fmt<W: fmt::Write>(&self, f: &mut fmt::Formatter<W>) -> fmt::Result {
        use DerDecodeErrorKind as Kind;
        f.write_str(match self {
            Kind::ConstructedEncodingNotAllowed => {
                "constructed encoding of a string is not allowed"
            }
            Kind::NonMinimalTagNumber => "tag number is not in the fewest octets",
            Kind::ConstructedBitMismatch => "constructed bit does not match the type",
            Kind::NonMinimalLength => "length is not in the fewest octets",
            Kind::NonMinimalInteger => "number is not in the fewest octets",
            Kind::NonMinimalArc => "OBJECT IDENTIFIER arc is not in the fewest octets",
            Kind::NonzeroUnusedBits => "unused bits of a BIT STRING are not zero",
            Kind::DefaultValuePresent => "component with its DEFAULT value is encoded",
            Kind::SetComponentsOutOfOrder => {
                "components of a SET are not in ascending order of tags"
            }
            Kind::SetOfOutOfOrder => "elements of a SET OF are not in ascending order",
        })
    }
}

impl Error for DerDecodeErrorKind {}

impl fmt::Display for EncodeErrorKind {
    ghost use Rattle.rasn_types.specs.ErrorText.{shown_encode_kind};

    ghost output = { shown_encode_kind };

    fn fmt<W: fmt::Write>(&self, f: &mut fmt::Formatter<W>) -> fmt::Result {
        use EncodeErrorKind as Kind;
        match self {
            Kind::SizeConstraintNotSatisfied { size, expected } => {
                outside(f, "size ", size, expected)
            }
            Kind::ValueConstraintNotSatisfied { value, expected } => {
                outside(f, "number ", value, expected)
            }
            Kind::RealNotSupported => f.write_str("REAL is not supported"),
            Kind::OutOfMemory => f.write_str("out of memory"),
            Kind::CodecSpecific { inner } => fmt::Display::fmt(inner, f),
        }
    }
}

impl Error for EncodeErrorKind {}

impl fmt::Display for CodecEncodeError {
    ghost use Rattle.rasn_types.specs.ErrorText.{shown_codec_encode};

    ghost output = { shown_codec_encode };

    fn fmt<W: fmt::Write>(&self, f: &mut fmt::Formatter<W>) -> fmt::Result {
        match self {
            CodecEncodeError::Ber(cause) => fmt::Display::fmt(cause, f),
        }
    }
}

impl Error for CodecEncodeError {}

impl fmt::Display for BerEncodeErrorKind {
    ghost use Rattle.rasn_types.specs.ErrorText.{shown_ber_encode};

    ghost output = { shown_ber_encode };

    fn fmt<W: fmt::Write>(&self, f: &mut fmt::Formatter<W>) -> fmt::Result {
        match self {
            BerEncodeErrorKind::InvalidObjectIdentifier { oid } => {
                write!(f, "invalid OBJECT IDENTIFIER: {oid:?}")
            }
            BerEncodeErrorKind::AnyInSet => f.write_str("untagged open type in a SET"),
            BerEncodeErrorKind::SetOutOfOrder => f.write_str(
                "components of a SET or elements of a SET OF are not in ascending order",
            ),
        }
    }
}

impl Error for BerEncodeErrorKind {}

// Writes the rules, and what is wrong.
fn write_under<W: fmt::Write, K: fmt::Display>(
    f: &mut fmt::Formatter<W>,
    codec: Codec,
    kind: &K,
) -> fmt::Result
    ensures { DisplaysOnOk W.write_str_gives f.old result (Some (shown_rules codec) ++? Some (codes ": ") ++? K.output kind.now) f.new }
{
    write!(f, "{codec}: {kind}")
}

// Writes a value after a text.
fn after<W: fmt::Write, T: fmt::Display>(
    f: &mut fmt::Formatter<W>,
    front: &str,
    value: &T,
) -> fmt::Result
    ensures { DisplaysOnOk W.write_str_gives f.old result (Some front.now ++? T.output value.now) f.new }
{
    write!(f, "{front}{value}")
}

// Writes a value between two texts.
fn around<W: fmt::Write, T: fmt::Display>(
    f: &mut fmt::Formatter<W>,
    front: &str,
    value: &T,
    back: &str,
) -> fmt::Result
    ensures { DisplaysOnOk W.write_str_gives f.old result (Some front.now ++? T.output value.now ++? Some back.now) f.new }
{
    write!(f, "{front}{value}{back}")
}

// Writes what was found and what was expected.
fn instead<W: fmt::Write, T: fmt::Display>(
    f: &mut fmt::Formatter<W>,
    front: &str,
    actual: &T,
    expected: &T,
) -> fmt::Result
    ensures { DisplaysOnOk W.write_str_gives f.old result
        (Some front.now ++? T.output actual.now ++? Some (codes ", expected ") ++? T.output expected.now) f.new }
{
    write!(f, "{front}{actual}, expected {expected}")
}

// Writes what violates its constraint.
fn outside<W: fmt::Write, V: fmt::Display, T: fmt::Display>(
    f: &mut fmt::Formatter<W>,
    front: &str,
    value: &V,
    expected: &Bounded<T>,
) -> fmt::Result
    ensures { DisplaysOnOk W.write_str_gives f.old result
        (shown_outside front.now (V.output value.now) (shown_bounds T.output expected.now)) f.new }
{
    write!(f, "{front}{value} violates the constraint {expected}")
}

// Writes a number of octets of this kind.
fn write_octets<W: fmt::Write>(f: &mut fmt::Formatter<W>, octets: usize, kind: &str) -> fmt::Result
    ensures { WritesOnOk W.write_str_gives f.old result (shown_octets octets kind.now) f.new }
{
    if octets == 1 {
        write!(f, "1 {kind} octet")
    } else {
        write!(f, "{octets} {kind} octets")
    }
}

fn write_needed<W: fmt::Write>(f: &mut fmt::Formatter<W>, needed: Needed) -> fmt::Result
    ensures { WritesOnOk W.write_str_gives f.old result (shown_needed needed) f.new }
{
    match needed {
        Needed::Unknown => f.write_str("unexpected end of input"),
        Needed::Size(octets) => {
            f.write_str("unexpected end of input, need ")?;
            write_octets(f, octets, "more")
        }
    }
}

fn write_boolean<W: fmt::Write>(f: &mut fmt::Formatter<W>, octet: u8) -> fmt::Result
    ensures { WritesOnOk W.write_str_gives f.old result
        (codes "BOOLEAN octet " ++ (two_digits octet ++ codes " is neither 00 nor FF")) f.new }
{
    let octets = [octet];
    let shown = Hexadecimal(&octets);
    around(f, "BOOLEAN octet ", &shown, " is neither 00 nor FF")
}

fn write_size<W: fmt::Write>(
    f: &mut fmt::Formatter<W>,
    size: Option<usize>,
    expected: &Bounded<usize>,
) -> fmt::Result
    ensures { DisplaysOnOk W.write_str_gives f.old result (shown_size size expected.now) f.new }
{
    match size {
        Some(size) => outside(f, "size ", &size, expected),
        None => after(f, "size violates the constraint ", expected),
    }
}

fn write_place<W: fmt::Write>(f: &mut fmt::Formatter<W>, octet: u8, position: usize) -> fmt::Result
    ensures { WritesOnOk W.write_str_gives f.old result (codes "octet " ++ (two_digits octet
        ++ (codes " at position " ++ (decimal position ++ codes " is not in the permitted alphabet")))) f.new }
{
    let octets = [octet];
    let shown = Hexadecimal(&octets);
    write!(
        f,
        "octet {shown} at position {position} is not in the permitted alphabet"
    )
}
