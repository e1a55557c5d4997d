//! The names of error kinds, as the program prints them.
ghost use Rattle.std.specs.Prelude.{◌≡◌, codes};
ghost use Rattle.rasn_types.specs.Errors.{IsOutOfMemory, IsEncodeOutOfMemory};

use rasn::error::{
    BerDecodeErrorKind, BerEncodeErrorKind, CodecDecodeError, CodecEncodeError, DecodeErrorKind,
    DerDecodeErrorKind, EncodeErrorKind,
};

/// Returns the name of the innermost kind of a decoding error.
pub(crate) fn decode_error_name(kind: &DecodeErrorKind) -> &'static str
    ensures { IsOutOfMemory kind.now → result.now ≡ codes "OutOfMemory" }
{
    match kind {
        DecodeErrorKind::Incomplete { .. } => "Incomplete",
        DecodeErrorKind::UnexpectedExtraData { .. } => "UnexpectedExtraData",
        DecodeErrorKind::UnexpectedEmptyInput => "UnexpectedEmptyInput",
        DecodeErrorKind::ExceedsMaxParseDepth => "ExceedsMaxParseDepth",
        DecodeErrorKind::RealNotSupported => "RealNotSupported",
        DecodeErrorKind::OutOfMemory => "OutOfMemory",
        DecodeErrorKind::LengthExceedsPlatformWidth => "LengthExceedsPlatformWidth",
        DecodeErrorKind::InvalidBool { .. } => "InvalidBool",
        DecodeErrorKind::MismatchedLength { .. } => "MismatchedLength",
        DecodeErrorKind::IntegerOverflow { .. } => "IntegerOverflow",
        DecodeErrorKind::DiscriminantValueNotFound { .. } => "DiscriminantValueNotFound",
        DecodeErrorKind::InvalidBitString { .. } => "InvalidBitString",
        DecodeErrorKind::TrailingZeroBits => "TrailingZeroBits",
        DecodeErrorKind::SizeConstraintNotSatisfied { .. } => "SizeConstraintNotSatisfied",
        DecodeErrorKind::ValueConstraintNotSatisfied { .. } => "ValueConstraintNotSatisfied",
        DecodeErrorKind::PermittedAlphabetError { .. } => "PermittedAlphabetError",
        DecodeErrorKind::StringConversionFailed { .. } => "StringConversionFailed",
        DecodeErrorKind::NoValidChoice { .. } => "NoValidChoice",
        DecodeErrorKind::MissingField { .. } => "MissingField",
        DecodeErrorKind::DuplicateField { .. } => "DuplicateField",
        DecodeErrorKind::CodecSpecific { inner } => codec_decode_error_name(inner),
    }
}

fn codec_decode_error_name(inner: &CodecDecodeError) -> &'static str {
    match inner {
        CodecDecodeError::Ber(kind) => ber_decode_error_name(kind),
        CodecDecodeError::Der(kind) => der_decode_error_name(*kind),
    }
}

fn der_decode_error_name(kind: DerDecodeErrorKind) -> &'static str {
    match kind {
        DerDecodeErrorKind::ConstructedEncodingNotAllowed => "ConstructedEncodingNotAllowed",
        DerDecodeErrorKind::NonMinimalTagNumber => "NonMinimalTagNumber",
        DerDecodeErrorKind::ConstructedBitMismatch => "ConstructedBitMismatch",
        DerDecodeErrorKind::NonMinimalLength => "NonMinimalLength",
        DerDecodeErrorKind::NonMinimalInteger => "NonMinimalInteger",
        DerDecodeErrorKind::NonMinimalArc => "NonMinimalArc",
        DerDecodeErrorKind::NonzeroUnusedBits => "NonzeroUnusedBits",
        DerDecodeErrorKind::DefaultValuePresent => "DefaultValuePresent",
        DerDecodeErrorKind::SetComponentsOutOfOrder => "SetComponentsOutOfOrder",
        DerDecodeErrorKind::SetOfOutOfOrder => "SetOfOutOfOrder",
    }
}

fn ber_decode_error_name(kind: &BerDecodeErrorKind) -> &'static str {
    match kind {
        BerDecodeErrorKind::UnsupportedTagNumber => "UnsupportedTagNumber",
        BerDecodeErrorKind::UnsupportedObjectIdentifierArc => "UnsupportedObjectIdentifierArc",
        BerDecodeErrorKind::UnexpectedEndOfContents => "UnexpectedEndOfContents",
        BerDecodeErrorKind::MissingEndOfContents => "MissingEndOfContents",
        BerDecodeErrorKind::IndefiniteLengthNotAllowed => "IndefiniteLengthNotAllowed",
        BerDecodeErrorKind::ReservedLengthOctet => "ReservedLengthOctet",
        BerDecodeErrorKind::MismatchedTag { .. } => "MismatchedTag",
        BerDecodeErrorKind::InvalidConstructedIdentifier => "InvalidConstructedIdentifier",
        BerDecodeErrorKind::InvalidObjectIdentifier => "InvalidObjectIdentifier",
        BerDecodeErrorKind::InvalidDate { .. } => "InvalidDate",
    }
}

/// Returns the name of the innermost kind of an encoding error.
pub(crate) fn encode_error_name(kind: &EncodeErrorKind) -> &'static str
    ensures { IsEncodeOutOfMemory kind.now → result.now ≡ codes "OutOfMemory" }
{
    match kind {
        EncodeErrorKind::SizeConstraintNotSatisfied { .. } => "SizeConstraintNotSatisfied",
        EncodeErrorKind::ValueConstraintNotSatisfied { .. } => "ValueConstraintNotSatisfied",
        EncodeErrorKind::RealNotSupported => "RealNotSupported",
        EncodeErrorKind::OutOfMemory => "OutOfMemory",
        EncodeErrorKind::CodecSpecific { inner } => match inner {
            CodecEncodeError::Ber(kind) => ber_encode_error_name(kind),
        },
    }
}

fn ber_encode_error_name(kind: &BerEncodeErrorKind) -> &'static str {
    match kind {
        BerEncodeErrorKind::InvalidObjectIdentifier { .. } => "InvalidObjectIdentifier",
        BerEncodeErrorKind::AnyInSet => "AnyInSet",
        BerEncodeErrorKind::SetOutOfOrder => "SetOutOfOrder",
    }
}
