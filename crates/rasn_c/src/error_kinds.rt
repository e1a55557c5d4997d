//! The numbers of the kinds of errors in C.
ghost use Rattle.std.specs.Prelude.{◌≡◌};
ghost use Rattle.rasn_c.specs.ErrorKinds.{kind_number, ber_kind_number, der_kind_number};

use rasn::error::{BerDecodeErrorKind, CodecDecodeError, DecodeErrorKind, DerDecodeErrorKind};

/// Returns the number of the innermost kind of a decoding error: a `soq_kind` of the header.
pub(crate) fn kind_number(kind: &DecodeErrorKind) -> u32
    ensures { result ≡ kind_number kind.now }
{
    match kind {
        DecodeErrorKind::Incomplete { .. } => 1,
        DecodeErrorKind::UnexpectedExtraData { .. } => 2,
        DecodeErrorKind::UnexpectedEmptyInput => 3,
        DecodeErrorKind::ExceedsMaxParseDepth => 4,
        DecodeErrorKind::RealNotSupported => 5,
        DecodeErrorKind::OutOfMemory => 6,
        DecodeErrorKind::LengthExceedsPlatformWidth => 7,
        DecodeErrorKind::InvalidBool { .. } => 8,
        DecodeErrorKind::MismatchedLength { .. } => 9,
        DecodeErrorKind::IntegerOverflow { .. } => 10,
        DecodeErrorKind::DiscriminantValueNotFound { .. } => 11,
        DecodeErrorKind::InvalidBitString { .. } => 12,
        DecodeErrorKind::SizeConstraintNotSatisfied { .. } => 13,
        DecodeErrorKind::ValueConstraintNotSatisfied { .. } => 14,
        DecodeErrorKind::PermittedAlphabetError { .. } => 15,
        DecodeErrorKind::StringConversionFailed { .. } => 16,
        DecodeErrorKind::NoValidChoice { .. } => 17,
        DecodeErrorKind::MissingField { .. } => 18,
        DecodeErrorKind::DuplicateField { .. } => 19,
        DecodeErrorKind::TrailingZeroBits => 20,
        DecodeErrorKind::CodecSpecific { inner } => match inner {
            CodecDecodeError::Ber(kind) => ber_kind_number(kind),
            CodecDecodeError::Der(kind) => der_kind_number(*kind),
        },
    }
}

fn ber_kind_number(kind: &BerDecodeErrorKind) -> u32
    ensures { result ≡ ber_kind_number kind.now }
{
    match kind {
        BerDecodeErrorKind::UnsupportedTagNumber => 32,
        BerDecodeErrorKind::UnsupportedObjectIdentifierArc => 33,
        BerDecodeErrorKind::UnexpectedEndOfContents => 34,
        BerDecodeErrorKind::MissingEndOfContents => 35,
        BerDecodeErrorKind::IndefiniteLengthNotAllowed => 36,
        BerDecodeErrorKind::ReservedLengthOctet => 37,
        BerDecodeErrorKind::MismatchedTag { .. } => 38,
        BerDecodeErrorKind::InvalidConstructedIdentifier => 39,
        BerDecodeErrorKind::InvalidObjectIdentifier => 40,
        BerDecodeErrorKind::InvalidDate { .. } => 41,
    }
}

fn der_kind_number(kind: DerDecodeErrorKind) -> u32
    ensures { result ≡ der_kind_number kind }
{
    match kind {
        DerDecodeErrorKind::ConstructedEncodingNotAllowed => 64,
        DerDecodeErrorKind::NonMinimalTagNumber => 65,
        DerDecodeErrorKind::ConstructedBitMismatch => 66,
        DerDecodeErrorKind::NonMinimalLength => 67,
        DerDecodeErrorKind::NonMinimalInteger => 68,
        DerDecodeErrorKind::NonMinimalArc => 69,
        DerDecodeErrorKind::NonzeroUnusedBits => 70,
        DerDecodeErrorKind::DefaultValuePresent => 71,
        DerDecodeErrorKind::SetComponentsOutOfOrder => 72,
        DerDecodeErrorKind::SetOfOutOfOrder => 73,
    }
}
