//! Why octets are refused, in words for a terminal: tags have the names of their types, and times
//! are characters.

use crate::dump::{End, entry_of, tag_text};
use rasn_de::ber::de::{Decoder, DecoderOptions};
use rasn_types::error::{
    BerDecodeErrorKind, CodecDecodeError, DecodeError, DecodeErrorKind, Needed,
};
use rasn_types::types::Codec;
use std::alloc::{AllocError, Global};
use std::str;

/// A cause in words, if it has other words than the error itself.
type Cause = Result<Option<String>, AllocError>;

/// Returns the text of an error, with its cause in words for a terminal. The octets begin where the
/// value does that is refused; where it has too few, this is what ends.
pub(crate) fn text_of(
    alloc: Global,
    error: &DecodeError,
    octets: &[u8],
    end: End,
) -> Result<String, AllocError> {
    match cause_text(alloc, &error.kind, octets, end)? {
        Some(cause) => {
            let codec = error.codec;
            format!(in alloc; "{codec}: {cause}")
        }
        None => error.to_string(alloc),
    }
}

/// Returns the cause of an error in words, if it has others than the error. The octets begin where
/// the value does that is refused; where it has too few, this is what ends.
fn cause_text(alloc: Global, kind: &DecodeErrorKind, octets: &[u8], end: End) -> Cause {
    match kind {
        DecodeErrorKind::Incomplete { needed } => needed_text(alloc, *needed, end),
        DecodeErrorKind::UnexpectedExtraData { length } => extra_text(alloc, *length, octets),
        DecodeErrorKind::StringConversionFailed { tag } => {
            let name = tag_text(alloc, *tag)?;
            Ok(Some(format!(in alloc; "invalid string of type {name}")?))
        }
        DecodeErrorKind::NoValidChoice { name } => choice_text(alloc, name.as_str(), octets),
        DecodeErrorKind::CodecSpecific { inner } => match inner {
            CodecDecodeError::Ber(cause) => ber_text(alloc, cause),
            CodecDecodeError::Der(_) => Ok(None),
        },
        DecodeErrorKind::InvalidBool { .. }
        | DecodeErrorKind::InvalidBitString { .. }
        | DecodeErrorKind::TrailingZeroBits
        | DecodeErrorKind::UnexpectedEmptyInput
        | DecodeErrorKind::ExceedsMaxParseDepth
        | DecodeErrorKind::RealNotSupported
        | DecodeErrorKind::OutOfMemory
        | DecodeErrorKind::LengthExceedsPlatformWidth
        | DecodeErrorKind::MismatchedLength { .. }
        | DecodeErrorKind::IntegerOverflow { .. }
        | DecodeErrorKind::DiscriminantValueNotFound { .. }
        | DecodeErrorKind::SizeConstraintNotSatisfied { .. }
        | DecodeErrorKind::ValueConstraintNotSatisfied { .. }
        | DecodeErrorKind::PermittedAlphabetError { .. }
        | DecodeErrorKind::MissingField { .. }
        | DecodeErrorKind::DuplicateField { .. } => Ok(None),
    }
}

/// Returns how many octets are missing, and what ends before them.
fn needed_text(alloc: Global, needed: Needed, end: End) -> Cause {
    let before = match end {
        End::Input => "cut short",
        End::Here => return Ok(Some(String::from_str(alloc, "missing: what holds it ends here")?)),
        End::Around => "longer than what holds it",
        End::Contents => "the contents end too early",
    };
    Ok(Some(match needed {
        Needed::Unknown => String::from_str(alloc, before)?,
        Needed::Size(1) => format!(in alloc; "{before}: 1 more octet is needed")?,
        Needed::Size(count) => format!(in alloc; "{before}: {count} more octets are needed")?,
    }))
}

/// Returns how many octets of a value are none of its parts, and with which tag they begin. Octets
/// after the whole message, which are then all of these, have the words of the error.
fn extra_text(alloc: Global, length: usize, octets: &[u8]) -> Cause {
    if length >= octets.len() {
        return Ok(None);
    }
    let remain = if length == 1 {
        "octet remains"
    } else {
        "octets remain"
    };
    let from = extra_from(alloc, octets, length);
    let begin = match tag_with(alloc, octets.get(from..).unwrap_or(&[]))? {
        Some(tag) if length > 1 => format!(in alloc; ", beginning with {tag}")?,
        _ => String::new(alloc),
    };
    Ok(Some(format!(in alloc; "{length} {remain} after the last part that fits{begin}")?))
}

/// Returns where the octets begin that remain of the value with which these begin, of which there
/// are so many: its length is definite.
pub(crate) fn extra_from(alloc: Global, octets: &[u8], length: usize) -> usize {
    match entry_of(alloc, octets, 0, 0) {
        Ok(entry) if !entry.is_indefinite => entry.octets.len().saturating_sub(length),
        _ => 0,
    }
}

/// Returns the tag with which octets begin.
fn tag_with(alloc: Global, octets: &[u8]) -> Cause {
    let mut decoder = Decoder::new(alloc, octets, DecoderOptions::of(Codec::Ber));
    match decoder.peek_tag() {
        Ok(tag) => Ok(Some(tag_text(alloc, tag)?)),
        Err(_) => Ok(None),
    }
}

/// Returns which tag no alternative of a CHOICE has: the one with which these octets begin.
fn choice_text(alloc: Global, name: &str, octets: &[u8]) -> Cause {
    match tag_with(alloc, octets)? {
        Some(tag) => Ok(Some(format!(in alloc; "no alternative of `{name}` has the tag {tag}")?)),
        None => Ok(None),
    }
}

/// Returns a cause of X.690 8 in words.
fn ber_text(alloc: Global, cause: &BerDecodeErrorKind) -> Cause {
    match cause {
        BerDecodeErrorKind::MismatchedTag { expected, actual } => {
            let (expected, actual) = (tag_text(alloc, *expected)?, tag_text(alloc, *actual)?);
            Ok(Some(format!(in alloc; "unexpected tag {actual}, expected {expected}")?))
        }
        BerDecodeErrorKind::InvalidDate { octets } => time_text(alloc, octets.as_slice()),
        BerDecodeErrorKind::IndefiniteLengthNotAllowed
        | BerDecodeErrorKind::UnsupportedTagNumber
        | BerDecodeErrorKind::UnsupportedObjectIdentifierArc
        | BerDecodeErrorKind::UnexpectedEndOfContents
        | BerDecodeErrorKind::MissingEndOfContents
        | BerDecodeErrorKind::ReservedLengthOctet
        | BerDecodeErrorKind::InvalidConstructedIdentifier
        | BerDecodeErrorKind::InvalidObjectIdentifier => Ok(None),
    }
}

/// Returns that the characters of these octets are no time, if all of them are graphic.
fn time_text(alloc: Global, octets: &[u8]) -> Cause {
    if !octets.iter().all(|octet| octet.is_ascii_graphic()) {
        return Ok(None);
    }
    match str::from_utf8(octets) {
        Ok(text) => Ok(Some(format!(in alloc; "invalid time \"{text}\"")?)),
        Err(_) => Ok(None),
    }
}
