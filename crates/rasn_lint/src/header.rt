//! Identifier and length octets (X.690 8.1.2, 8.1.3).
ghost use Rattle.std.specs.Prelude.{◌≡◌, ◌∷◌, take, IfOk};
ghost use Rattle.rasn_types.specs.Truth.{IsWhether};
ghost use Rattle.rasn_types.specs.declared.error.decode.DerDecodeErrorKind.TheVariants.{ConstructedBitMismatch};
ghost use Rattle.rasn_lint.specs.Header.{has_own_header, IsTagFault, after_number, after_identifier, IsOfLength, IsLengthFaultAfter, IsLengthFault, is_constructed, is_string, IsBitFault, IsLeafFormFault, IsFormFault};

use crate::der::encoding::decoder_of;
use crate::leaf::{Segments, segments_in};
use crate::place::der_error;
use rasn_de::ber::de::ConstructedHeader;
use rasn_schema::{LeafKind, Type};
use rasn_types::ber::is_always_constructed;
use rasn_types::error::{
    BerDecodeErrorKind, CodecDecodeError, DecodeError, DecodeErrorKind, DerDecodeErrorKind,
};
use rasn_types::types::Tag;
use std::alloc::{AllocError, Global};

/// The identifier octet of a SEQUENCE.
const SEQUENCE: u8 = 0x30;

/// Returns whether a value of the type has a header of its own, which DER reads by its rules: one
/// of a CHOICE has that of its alternative, and in an open type and unknown values headers may have
/// any form.
pub fn has_own_header(ty: &Type) -> bool
    ensures { result ≡ has_own_header ty.now }
{
    match ty {
        Type::Choice { .. } => false,
        Type::Any { tag } => *tag != Tag::EOC,
        Type::Unknown => false,
        _ => true,
    }
}

/// Returns the error of a tag number that has more octets than it needs (X.690 8.1.2.4).
pub fn tag_fault(alloc: Global, octets: &[u8]) -> Option<DecodeError>
    ensures { IsTagFault octets.now result }
{
    match decoder_of(alloc, octets).peek_tag() {
        Ok(_) => None,
        Err(error) => Some(error),
    }
}

/// Returns what follows a number in base 128, whose last octet is below 128.
#[tactic(auto, unfolding(crate::specs::Header::after_number))]
fn after_number(octets: &[u8]) -> &[u8]
    ensures { result.now ≡ after_number octets.now }
{
    let mut rest = octets;
    while let [octet, after @ ..] = rest {
        rest = after;
        if *octet < 128 {
            return rest;
        }
    }
    rest
}

/// Returns what follows the identifier octets (X.690 8.1.2).
fn after_identifier(octets: &[u8]) -> &[u8]
    ensures { result.now ≡ after_identifier octets.now }
{
    match octets {
        [] => octets,
        [first, rest @ ..] => if *first % 32 == 31 {
            after_number(rest)
        } else {
            rest
        },
    }
}

/// Returns whether an error is one of the form of a length (X.690 10.1).
fn is_of_length(error: &DecodeError) -> bool
    ensures { IsWhether result (IsOfLength error.now) }
{
    matches!(
        &error.kind,
        DecodeErrorKind::CodecSpecific {
            inner: CodecDecodeError::Der(DerDecodeErrorKind::NonMinimalLength)
                | CodecDecodeError::Ber(BerDecodeErrorKind::IndefiniteLengthNotAllowed),
        }
    )
}

/// Returns the error of the length that follows an identifier with this tag, if DER reads it in
/// another form (X.690 10.1).
fn length_fault_after(alloc: Global, tag: Tag, octets: &[u8]) -> Option<DecodeError>
    ensures { IsLengthFaultAfter tag octets.now result }
{
    let mut decoder = decoder_of(alloc, octets);
    match decoder.open(ConstructedHeader::sequence(tag)) {
        Ok(_) => None,
        Err(error) => if is_of_length(&error) {
            Some(error)
        } else {
            None
        },
    }
}

/// Returns the octets that may be those of a length.
fn length_octets(octets: &[u8]) -> &[u8]
    ensures { result.now ≡ take 127 octets.now }
{
    if octets.len() <= 127 {
        octets
    } else {
        &octets[..127]
    }
}

/// Returns the length octets, with the identifier of a SEQUENCE in place of their own.
fn with_short_identifier(alloc: Global, octets: &[u8]) -> Result<Vec<u8>, AllocError>
    ensures { IfOk result (λ copy. copy.items ≡ 48 ∷ take 127 (after_identifier octets.now)) }
{
    let mut copy = Vec::new(alloc);
    copy.push(SEQUENCE)?;
    copy.extend_from_slice(length_octets(after_identifier(octets)))?;
    Ok(copy)
}

/// Returns the error of a length that has another form than under DER (X.690 10.1), whatever form
/// the tag number has.
pub fn length_fault(alloc: Global, octets: &[u8]) -> Result<Option<DecodeError>, AllocError>
    ensures { IfOk result (IsLengthFault octets.now) }
{
    let Ok(tag) = decoder_of(alloc, octets).peek_tag() else {
        let copy = with_short_identifier(alloc, octets)?;
        return Ok(length_fault_after(alloc, Tag::SEQUENCE, &copy));
    };
    Ok(length_fault_after(alloc, tag, octets))
}

/// Returns whether an encoding has the constructed bit (X.690 8.1.2.5).
pub fn is_constructed(octets: &[u8]) -> bool
    ensures { result ≡ is_constructed octets.now }
{
    match octets {
        [first, ..] => *first % 64 >= 32,
        [] => false,
    }
}

/// Returns whether a value is a string, which BER may encode in segments (X.690 8.6.4, 8.7.3,
/// 8.23).
pub fn is_string(kind: LeafKind) -> bool
    ensures { result ≡ is_string kind }
{
    !matches!(segments_in(kind), Segments::Whole)
}

/// Returns the error of a constructed bit that isn't the wanted one.
fn bit_fault(kind: DerDecodeErrorKind, wanted: bool, bit: bool) -> Option<DecodeError>
    ensures { IsBitFault kind wanted bit result }
{
    if bit == wanted {
        None
    } else {
        Some(der_error(kind))
    }
}

/// Returns the error of the constructed bit of a value that holds no others.
fn leaf_form_fault(is_string: bool, tag: Tag, bit: bool) -> Option<DecodeError>
    ensures { IsLeafFormFault is_string tag bit result }
{
    if is_string {
        bit_fault(
            DerDecodeErrorKind::ConstructedEncodingNotAllowed,
            false,
            bit,
        )
    } else {
        bit_fault(
            DerDecodeErrorKind::ConstructedBitMismatch,
            is_always_constructed(tag),
            bit,
        )
    }
}

/// Returns the error of a constructed bit that isn't the one that the type is written with
/// (X.690 8.1.2.5), as of a string in segments (X.690 10.2).
pub fn form_fault(ty: &Type, bit: bool) -> Option<DecodeError>
    ensures { IsFormFault ty.now bit result }
{
    let mismatch = DerDecodeErrorKind::ConstructedBitMismatch;
    match ty {
        Type::Leaf { kind, tag, .. } => leaf_form_fault(is_string(*kind), *tag, bit),
        Type::Enumerated { tag, .. } => bit_fault(mismatch, is_always_constructed(*tag), bit),
        Type::Any { .. } => bit_fault(mismatch, true, bit),
        Type::Tagged { .. } => bit_fault(mismatch, true, bit),
        _ => None,
    }
}
