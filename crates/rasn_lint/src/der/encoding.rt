//! The encoding at the start of octets, as DER writes it (X.690 8.1, 10.1).
ghost use Rattle.std.specs.Prelude.{◌≡◌, ◌++◌, MatchOption, true, false};
ghost use Rattle.rasn_de.specs.State.{IsEnd};
ghost use Rattle.rasn_types.specs.Framing.{Frame, definite, NextTag};
ghost use Rattle.rasn_types.specs.Tags.{der_form};
ghost use Rattle.rasn_lint.specs.Encoding.{start, HasNoFrame, HasNoFrameOf, IsFrameOf, IsFirstEncoding};

use rasn_de::ber::de::{Decoder, DecoderOptions};
use rasn_types::types::{Constraints, Tag};
use std::alloc::Global;
use std::borrow::CowSlice;

/// One encoding.
#[derive(Clone, Copy)]
pub struct Encoding<'input> {
    /// All its octets.
    pub octets: &'input [u8],
    /// Its tag.
    pub tag: Tag,
    /// Whether it is constructed.
    pub is_constructed: bool,
    /// Its contents octets.
    pub contents: &'input [u8],
    /// What follows it.
    pub rest: &'input [u8],
}

/// Returns the octets of `start` before `rest`.
#[tactic(auto, using(rasn_de::proofs::Constructed::Ascending::cut_before))]
pub fn octets_before<'input>(start: &'input [u8], rest: &[u8]) -> &'input [u8]
    requires { IsEnd start.now rest.now }
    ensures { start.now ≡ result.now ++ rest.now }
{
    &start[..start.len() - rest.len()]
}

/// Returns the encoding with these parts at the start of the octets.
fn encoding_of<'input>(
    octets: &'input [u8],
    tag: Tag,
    is_constructed: bool,
    contents: &'input [u8],
    rest: &'input [u8],
) -> Encoding<'input>
    requires { Frame der_form octets.now tag is_constructed rest.now (definite contents.now) }
    ensures { IsFirstEncoding octets.now result }
{
    Encoding {
        octets: octets_before(octets, rest),
        tag,
        is_constructed,
        contents,
        rest,
    }
}

/// Returns a decoder of the octets by DER.
pub fn decoder_of(alloc: Global, octets: &[u8]) -> Decoder<'_>
    ensures { result ≡ start octets.now }
{
    Decoder::new(alloc, octets, DecoderOptions::der())
}

/// Returns the contents octets of the constructed encoding with this tag, and what follows it.
#[tactic(auto, using(crate::proofs::Frames::constructed_found, crate::proofs::Frames::no_constructed))]
fn read_constructed(alloc: Global, octets: &[u8], tag: Tag) -> Option<(&[u8], &[u8])>
    requires { NextTag der_form octets.now tag }
    ensures { MatchOption result (HasNoFrameOf octets.now tag true) (IsFrameOf octets.now tag true) }
{
    let mut decoder = decoder_of(alloc, octets);
    let Ok(contents) = decoder.decode_open(tag) else {
        return None;
    };
    Some((contents, decoder.remaining()))
}

/// Returns the contents octets of the primitive encoding with this tag, and what follows it.
#[tactic(auto, using(crate::proofs::Frames::primitive_found, crate::proofs::Frames::no_primitive, crate::proofs::Frames::never_owned))]
fn read_primitive(alloc: Global, octets: &[u8], tag: Tag) -> Option<(&[u8], &[u8])>
    requires { HasNoFrameOf octets.now tag true }
    ensures { MatchOption result (HasNoFrameOf octets.now tag false) (IsFrameOf octets.now tag false) }
{
    let mut decoder = decoder_of(alloc, octets);
    match decoder.decode_octet_string(tag, &Constraints::NONE) {
        Ok(CowSlice::Borrowed(contents)) => Some((contents, decoder.remaining())),
        Ok(CowSlice::Owned(_)) => None,
        Err(_) => None,
    }
}

/// Returns the tag of the encoding at the start of the octets.
#[tactic(auto, using(crate::proofs::Frames::no_tag, crate::proofs::Frames::tag_found))]
fn read_tag(alloc: Global, octets: &[u8]) -> Option<Tag>
    ensures { MatchOption result (HasNoFrame octets.now) (NextTag der_form octets.now) }
{
    let Ok(tag) = decoder_of(alloc, octets).peek_tag() else {
        return None;
    };
    Some(tag)
}

/// Returns the encoding at the start of the octets, or `None` if they don't begin with one whose
/// header is as DER writes it. What is inside the contents isn't examined.
#[tactic(auto, using(crate::proofs::Frames::no_frame))]
pub fn read_encoding<'input>(alloc: Global, octets: &'input [u8]) -> Option<Encoding<'input>>
    ensures { MatchOption result (HasNoFrame octets.now) (IsFirstEncoding octets.now) }
{
    let tag = read_tag(alloc, octets)?;
    if let Some((contents, rest)) = read_constructed(alloc, octets, tag) {
        return Some(encoding_of(octets, tag, true, contents, rest));
    }
    match read_primitive(alloc, octets, tag) {
        Some((contents, rest)) => Some(encoding_of(octets, tag, false, contents, rest)),
        None => None,
    }
}
