//! A part of a message.
ghost use Rattle.std.specs.Prelude.{◌≡◌, ◌≢◌, ◌+◌, ◌%◌, ◌≤◌, ◌<◌, true, false, length, IfSome, IfOk};
ghost use Rattle.rasn_dynamic.specs.Parts.{BeginsWithLength, IsHeader, IsPartHeader, end_len, AreContents};

use crate::trace::octets_after;
use rasn_de::ber::de::{ConstructedHeader, Decoder, DecoderOptions};
use rasn_schema::TypeId;
use rasn_types::error::DecodeError;
use rasn_types::types::Codec;
use std::alloc::Global;

/// A part of a message: a value that is in it, or the message itself.
#[derive(Debug, Drop)]
pub struct Part<'input> {
    /// The number of its type.
    pub id: TypeId,
    /// Where it begins, in octets from the start of the message: at its identifier octets.
    pub offset: usize,
    /// The number of its identifier and length octets (X.690 8.1.2, 8.1.3). Of unknown values it is
    /// that of the first, or 0 if there are none.
    pub header_len: usize,
    /// Whether its length is indefinite: then end-of-contents octets end it (X.690 8.1.3.6).
    pub is_indefinite: bool,
    /// All of its octets: the header, the contents, and end-of-contents octets if they end it.
    pub octets: &'input [u8],
}

/// How many end-of-contents octets there are (X.690 8.1.5).
fn end_len(is_indefinite: bool) -> usize
    ensures { result ≡ end_len is_indefinite }
{
    if is_indefinite { 2 } else { 0 }
}

impl<'input> Part<'input> {
    /// Returns its contents octets (X.690 8.1.4): what follows the header, without end-of-contents
    /// octets.
    pub fn contents(&self) -> &'input [u8]
        ensures { self.now.header_len + end_len self.now.is_indefinite ≤ length self.now.octets.now → AreContents self.now result.now }
    {
        let Some((_, after)) = self.octets.split_at_checked(self.header_len) else {
            return &[];
        };
        let len = after.len().saturating_sub(end_len(self.is_indefinite));
        match after.split_at_checked(len) {
            Some((contents, _)) => contents,
            None => &[],
        }
    }
}

/// Returns whether an octet is the whole identifier of a value (X.690 8.1.2.3).
fn is_identifier(octet: u8) -> bool
    ensures { result ≡ true → (octet % 32 < 31) × (octet < 64 → octet % 32 ≢ 0) }
{
    if octet % 32 == 31 {
        return false;
    }
    octet >= 64 || octet % 32 != 0
}

/// Returns the number of identifier and length octets, if there are so many octets of contents.
fn if_long_enough(header_len: usize, len: usize, after: &[u8]) -> Option<usize>
    ensures { IfSome result (λ n. (n ≡ header_len) × (len ≤ length after.now)) }
{
    if len <= after.len() {
        return Some(header_len);
    }
    None
}

/// Returns the number of identifier and length octets of a value whose identifier is the octet
/// before these, if it has up to three length octets (X.690 8.1.3).
fn header_before(octets: &[u8]) -> Option<usize>
    ensures { IfSome result (BeginsWithLength octets.now) }
{
    let [first, after @ ..] = octets else {
        return None;
    };
    if *first < 128 {
        return if_long_enough(2, *first as usize, after);
    }
    if *first == 129 {
        let [len, contents @ ..] = after else {
            return None;
        };
        return if_long_enough(3, *len as usize, contents);
    }
    if *first == 130 {
        let [high, low, contents @ ..] = after else {
            return None;
        };
        return if_long_enough(4, *high as usize * 256 + *low as usize, contents);
    }
    None
}

/// Returns the number of identifier and length octets of a part with these octets, if it has one
/// identifier octet and up to three length octets.
fn short_header(octets: &[u8]) -> Option<usize>
    ensures { IfSome result (λ n. IsHeader octets.now n false) }
{
    let [first, after @ ..] = octets else {
        return None;
    };
    if is_identifier(*first) {
        return header_before(after);
    }
    None
}

/// Returns the number of identifier and length octets of a part with these octets, and whether its
/// length is indefinite.
///
/// # Errors
/// As [`header_of`].
pub fn part_header(alloc: Global, octets: &[u8]) -> Result<(usize, bool), DecodeError>
    ensures { IfOk result (λ h. IsPartHeader octets.now h.0 h.1) }
{
    if octets.is_empty() {
        return Ok((0, false));
    }
    if let Some(len) = short_header(octets) {
        return Ok((len, false));
    }
    header_of(alloc, octets)
}

/// Returns the number of identifier and length octets of the encoding with which the octets begin,
/// and whether its length is indefinite.
///
/// # Errors
/// The framing error of BER, if no encoding begins there.
fn header_of(alloc: Global, octets: &[u8]) -> Result<(usize, bool), DecodeError>
    ensures { IfOk result (λ h. IsHeader octets.now h.0 h.1) }
{
    let mut decoder = Decoder::new(alloc, octets, DecoderOptions::of(Codec::Ber));
    let tag = decoder.peek_tag()?;
    let (inner, _) = decoder.open(ConstructedHeader::prefix(tag))?;
    let end = octets.len() - octets_after(&decoder, &inner);
    Ok((end - inner.remaining().len(), inner.may_be_closed()))
}
