//! Headers of constructed values, and deferred headers, whose octets are inserted after the
//! contents are written.
ghost use Rattle.std.specs.Prelude.{ℕ, List, ◌≡◌, ◌<◌, ◌≤◌, ◌+◌, ◌++◌, ◌∷◌, [], true, length, take, drop, vec_len, vec_capacity, IfOk, OnOk, OnErr};
ghost use Rattle.rasn_enc.specs.Headers.{id_octets, length_octets};
ghost use Rattle.rasn_enc.specs.Buffer.DeferredHeaders.{header_octets, head_of, rest_octets, Defers, back};

use crate::ber::enc::writer::header_rest::HeaderRest;
use crate::ber::enc::writer::headers::{
    INDEFINITE_LENGTH, identifier_len, length_len, write_identifier, write_length,
};
use rasn_types::ber::rules::EncodingRules;
use rasn_types::types::{Codec, Tag};
use std::alloc::AllocError;

/// The number of octets that an open value reserves for its header. No header has fewer.
pub const ROOM: usize = 2;

/// The header of a constructed value.
#[derive(Clone, Copy, Drop)]
pub enum HeaderForm {
    /// An identifier, and the length of the contents.
    Definite(Tag, usize),
    /// An identifier, with end-of-contents octets after the contents.
    Indefinite(Tag),
}

/// The octets of a header for which there was no room, and the place in the gathered octets where
/// they are inserted.
#[derive(Clone, Copy, Drop)]
pub struct DeferredHeader {
    pub at: usize,
    pub rest: HeaderRest,
}

// There may be many deferred headers, so they are small.
const _: () = prove!(size_of::<DeferredHeader>() == 24);

/// Returns the header of a constructed value.
#[inline(always)]
pub fn header_for(rule: Codec, tag: Tag, count: usize) -> HeaderForm
    ensures { result ≡ head_of rule tag count }
{
    if EncodingRules::of_codec(rule).is_cer() {
        HeaderForm::Indefinite(tag)
    } else {
        HeaderForm::Definite(tag, count)
    }
}

/// Returns the number of octets of a header.
#[inline(always)]
pub fn header_len(head: HeaderForm) -> usize
    ensures count { result ≡ length (header_octets head) }
    ensures some { 2 ≤ result }
    ensures small { result < 16 }
{
    match head {
        HeaderForm::Definite(tag, count) => identifier_len(tag) + length_len(count),
        HeaderForm::Indefinite(tag) => identifier_len(tag) + 1,
    }
}

/// Writes a header.
#[inline(always)]
fn write_header(octets: &mut Vec<u8>, head: HeaderForm)
    requires { vec_len octets.old + length (header_octets head) ≤ vec_capacity octets.old }
    ensures { octets.new.items ≡ octets.old.items ++ header_octets head }
{
    match head {
        HeaderForm::Definite(tag, count) => {
            write_identifier(octets, tag, true);
            write_length(octets, count);
        }
        HeaderForm::Indefinite(tag) => {
            write_identifier(octets, tag, true);
            octets.push_reserved(INDEFINITE_LENGTH);
        }
    }
}

/// Writes the first two octets of a header into the room at `at`, and returns its other octets. The
/// header is first written at the end of the vector, and then removed from there.
#[inline(always)]
pub fn fill_room(
    octets: &mut Vec<u8>,
    at: usize,
    head: HeaderForm,
) -> Result<HeaderRest, AllocError>
    requires { at + 2 ≤ vec_len octets.old }
    ensures rest { IfOk result (λ rest. rest_octets rest ≡ drop 2 (header_octets head)) }
    ensures ok { OnOk result (octets.new.items ≡ take at octets.old.items ++ (take 2 (header_octets head) ++ drop (at + 2) octets.old.items)) }
    ensures err { OnErr result (octets.new.items ≡ octets.old.items) }
{
    let end = octets.len();
    octets.reserve(header_len(head))?;
    write_header(octets, head);
    let rest = HeaderRest::from_slice(&octets[end + ROOM..]);
    let (first, second) = (octets[end], octets[end + 1]);
    octets.truncate(end);
    octets[at] = first;
    octets[at + 1] = second;
    Ok(rest)
}

/// Inserts a deferred header at `index` if the header has octets for which there was no room.
#[inline(always)]
pub fn defer_rest(
    headers: &mut Vec<DeferredHeader>,
    index: usize,
    at: usize,
    rest: HeaderRest,
) -> Result<(), AllocError>
    requires { index ≤ vec_len headers.old }
    ensures ok { OnOk result ((ds : List DeferredHeader) × Defers at (rest_octets rest) ds × (headers.new.items ≡ take index headers.old.items ++ (ds ++ drop index headers.old.items))) }
    ensures err { OnErr result (headers.new.items ≡ headers.old.items) }
{
    if rest.len() == 0 {
        return Ok(());
    }
    match headers.insert(index, DeferredHeader { at, rest }) {
        Ok(()) => Ok(()),
        Err(_) => Err(AllocError),
    }
}

/// Appends end-of-contents octets if the rule has them.
#[inline(always)]
pub fn append_end_of_contents(octets: &mut Vec<u8>, rule: Codec) -> Result<(), AllocError>
    ensures ok { OnOk result (octets.new.items ≡ octets.old.items ++ back rule) }
    ensures err { OnErr result (octets.new.items ≡ octets.old.items) }
{
    if !EncodingRules::of_codec(rule).is_cer() {
        return Ok(());
    }
    octets.extend_from_slice(&[0, 0])
}
