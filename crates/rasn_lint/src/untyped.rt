//! What departs of an encoding whose type isn't known, unless its tag is universal.
ghost use Rattle.std.specs.Prelude.{◌≡◌, ◌≢◌, [], true, false, IfOk, MatchOption};
ghost use Rattle.rasn.specs.Headline.{IsExtraData};
ghost use Rattle.rasn_types.specs.declared.types.codec.Codec.TheVariants.{Der};
ghost use Rattle.rasn_lint.specs.Contents.{AllowsContents};
ghost use Rattle.rasn_types.specs.declared.error.decode.DerDecodeErrorKind.TheVariants.{SetOfOutOfOrder};
ghost use Rattle.rasn_lint.specs.Place.{der_error};
ghost use Rattle.rasn_lint.specs.Refusals.{IsFaultOf, IsUnreadable, constructed_kind, no_primitive, form_error, last_of, is_low, arcs_error, IsReadError, IsContentsError};
ghost use Rattle.rasn_lint.specs.Universal.{rule_of};
ghost use Rattle.rasn_lint.specs.Untyped.{HasNoForm, HasWrongContents, IsUnordered, AreUntypedFaults};
ghost use Rattle.rasn_lint.specs.WellFormed.{AllowsEncoding, AreEncodings};

use crate::der::contents::allows_contents;
use crate::der::encoding::decoder_of;
use crate::der::order::is_in_order;
use crate::der::universal::{ContentsRule, rule_of};
use crate::header::{is_constructed, length_fault, tag_fault};
use crate::judge::Faults;
use crate::leaf::write_octets;
use crate::place::der_error;
use rasn_types::error::{
    BerDecodeErrorKind, CodecDecodeError, DecodeError, DecodeErrorKind, DerDecodeErrorKind, Needed,
};
use rasn_types::types::{Codec, Constraints, Tag};
use std::alloc::{AllocError, Global};

/// Returns the error of an encoding that BER doesn't read.
pub fn unreadable(alloc: Global, octets: &[u8]) -> DecodeError
    ensures { IsUnreadable octets.now result }
{
    match decoder_of(alloc, octets).skip_value() {
        Ok(_) => der_error(DerDecodeErrorKind::ConstructedBitMismatch),
        Err(error) => error,
    }
}

/// Returns the error of an encoding that follows the one of the open type.
pub fn extra(octets: &[u8]) -> DecodeError
    ensures { octets.now ≢ [] → IsExtraData Der octets.now result }
{
    DecodeError {
        kind: DecodeErrorKind::UnexpectedExtraData {
            length: octets.len(),
        },
        codec: Codec::Der,
    }
}

/// Returns the error of a value that isn't constructed although it has to be.
fn primitive_fault(bit: bool) -> Option<DecodeError>
    ensures { MatchOption result (bit ≡ true) (λ e. (bit ≡ false) × (e ≡ no_primitive)) }
{
    if bit {
        return None;
    }
    Some(DecodeError {
        kind: DecodeErrorKind::CodecSpecific {
            inner: CodecDecodeError::Ber(BerDecodeErrorKind::InvalidConstructedIdentifier),
        },
        codec: Codec::Der,
    })
}

/// Returns the error kind of a constructed encoding whose universal type is primitive.
fn constructed_kind(rule: ContentsRule) -> DerDecodeErrorKind
    ensures { result ≡ constructed_kind rule }
{
    match rule {
        ContentsRule::Boolean
        | ContentsRule::Integer
        | ContentsRule::Null
        | ContentsRule::Subidentifiers => DerDecodeErrorKind::ConstructedBitMismatch,
        _ => DerDecodeErrorKind::ConstructedEncodingNotAllowed,
    }
}

/// Returns the error of an encoding that is primitive or constructed although its universal type
/// isn't.
#[tactic(auto, using(crate::proofs::ByRule::any_form, crate::proofs::ByRule::values_constructed, crate::proofs::ByRule::set_constructed, crate::proofs::ByRule::never_constructed, crate::proofs::ByRule::may_be_primitive))]
fn form_fault(rule: ContentsRule, bit: bool) -> Option<DecodeError>
    ensures { MatchOption result (HasNoForm rule bit → ⊥) (λ e. HasNoForm rule bit × (e ≡ form_error rule bit)) }
{
    match rule {
        ContentsRule::Unknown => None,
        ContentsRule::Values => primitive_fault(bit),
        ContentsRule::Set => primitive_fault(bit),
        _ => if bit {
            Some(der_error(constructed_kind(rule)))
        } else {
            None
        },
    }
}

/// Returns the last of the octets.
fn last_of(octets: &[u8]) -> Option<u8>
    ensures { result ≡ last_of octets.now }
{
    octets.get(octets.len().saturating_sub(1)).copied()
}

/// Returns whether the octet is one that ends a subidentifier (X.690 8.19.2).
fn is_low(octet: Option<u8>) -> bool
    ensures { result ≡ is_low octet }
{
    match octet {
        Some(octet) => octet < 0x80,
        None => false,
    }
}

/// Returns the error of octets that aren't subidentifiers.
fn arcs_error(contents: &[u8]) -> DecodeError
    ensures { result ≡ arcs_error contents.now }
{
    if is_low(last_of(contents)) {
        der_error(DerDecodeErrorKind::NonMinimalArc)
    } else {
        DecodeError {
            kind: DecodeErrorKind::Incomplete {
                needed: Needed::Size(1),
            },
            codec: Codec::Der,
        }
    }
}

/// Returns the error of a call.
fn fault_of<T: Drop>(answer: Result<T, DecodeError>) -> Result<Option<DecodeError>, AllocError>
    ensures { IfOk result (IsFaultOf answer) }
{
    match answer {
        Ok(_) => Ok(None),
        Err(error) => if error.is_out_of_memory() {
            Err(AllocError)
        } else {
            Ok(Some(error))
        },
    }
}

/// Returns the error that the reader of DER has for contents octets of a universal type that may be
/// primitive.
fn read_fault(
    alloc: Global,
    rule: ContentsRule,
    tag: Tag,
    contents: &[u8],
) -> Result<Option<DecodeError>, AllocError>
    requires { HasNoForm rule false → ⊥ }
    ensures { IfOk result (λ f. MatchOption f (AllowsContents rule contents.now) (IsReadError rule tag contents.now)) }
{
    let Ok(octets) = write_octets(alloc, tag, contents) else {
        return Err(AllocError);
    };
    let none = &Constraints::NONE;
    let mut decoder = decoder_of(alloc, &octets);
    match rule {
        ContentsRule::Boolean => fault_of(decoder.decode_bool(tag)),
        ContentsRule::Integer => fault_of(decoder.check_integer(tag, none)),
        ContentsRule::BitString => fault_of(decoder.decode_bits(tag, none)),
        ContentsRule::Null => fault_of(decoder.decode_null(tag)),
        ContentsRule::Subidentifiers => Ok(Some(arcs_error(contents))),
        ContentsRule::Utf8 => fault_of(decoder.decode_utf8_text(tag, none)),
        ContentsRule::Characters(alphabet) => {
            fault_of(decoder.decode_restricted_string(alphabet, tag, none))
        }
        ContentsRule::Units => fault_of(decoder.decode_bmp_string(tag, none)),
        ContentsRule::UtcTime => fault_of(decoder.decode_utc_time(tag)),
        ContentsRule::GeneralizedTime => fault_of(decoder.decode_generalized_time(tag)),
        ContentsRule::Date => fault_of(decoder.decode_date(tag)),
        _ => Ok(None),
    }
}

/// Returns the error of encodings in a SET that aren't in order.
fn order_fault(alloc: Global, rule: ContentsRule, contents: &[u8]) -> Option<DecodeError>
    ensures { MatchOption result (AreEncodings contents.now → IsUnordered rule contents.now → ⊥) (λ e. IsUnordered rule contents.now × (e ≡ der_error SetOfOutOfOrder)) }
{
    match rule {
        ContentsRule::Set => if is_in_order(alloc, contents) {
            None
        } else {
            Some(der_error(DerDecodeErrorKind::SetOfOutOfOrder))
        },
        _ => None,
    }
}

/// Returns the error of contents octets that DER doesn't allow for a universal type, unless no
/// encoding of it is primitive.
#[tactic(auto, using(crate::proofs::ByRule::no_values, crate::proofs::ByRule::no_set))]
fn primitive_contents_fault(
    alloc: Global,
    rule: ContentsRule,
    tag: Tag,
    contents: &[u8],
) -> Result<Option<DecodeError>, AllocError>
    requires { AllowsContents rule contents.now → ⊥ }
    ensures { IfOk result (λ f. MatchOption f (HasNoForm rule false) (IsReadError rule tag contents.now)) }
{
    match rule {
        ContentsRule::Values | ContentsRule::Set => Ok(None),
        _ => read_fault(alloc, rule, tag, contents),
    }
}

/// Returns the error of contents that DER doesn't allow for a universal tag.
#[tactic(auto, using(crate::proofs::ByRule::unordered, crate::proofs::ByRule::allowed, crate::proofs::ByRule::refused_plain))]
fn contents_fault(
    alloc: Global,
    tag: Tag,
    bit: bool,
    contents: &[u8],
) -> Result<Option<DecodeError>, AllocError>
    ensures { IfOk result (λ f. MatchOption f (HasWrongContents tag bit contents.now → ⊥) (λ e. AllowsEncoding false tag bit contents.now × IsContentsError (rule_of tag) tag bit contents.now e)) }
{
    let rule = rule_of(tag);
    if bit {
        let fault = order_fault(alloc, rule, contents);
        return Ok(fault);
    }
    if allows_contents(rule, contents) {
        return Ok(None);
    }
    primitive_contents_fault(alloc, rule, tag, contents)
}

/// Returns the errors of an encoding with this tag and these contents.
pub fn faults_of(
    alloc: Global,
    tag: Tag,
    contents: &[u8],
    encoding: &[u8],
) -> Result<Faults, AllocError>
    ensures { IfOk result (AreUntypedFaults tag contents.now encoding.now) }
{
    let bit = is_constructed(encoding);
    let length = length_fault(alloc, encoding)?;
    let contents = contents_fault(alloc, tag, bit, contents)?;
    Ok(Faults {
        order: None,
        default: None,
        tag: tag_fault(alloc, encoding),
        form: form_fault(rule_of(tag), bit),
        length,
        contents,
    })
}
