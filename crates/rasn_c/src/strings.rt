//! Strings as UTF-8, and the bits of a BIT STRING.
ghost use Rattle.std.specs.Prelude.{◌≡◌, ◌++◌, ◌∷◌, [], List, ℕ, MatchResult};
ghost use Rattle.rasn_c.specs.Status.{IsNumberOf};
ghost use Rattle.rasn_c.specs.Strings.{AnswersCharacters, AnswersBits, IsString, IsNoString};

use crate::buffers::fill;
use crate::leaves::leaf_of;
use crate::rules::rule_numbered;
use crate::status::Status;
use rasn::types::{
    BitString, Codec, Ia5String, NumericString, PrintableString, Utf8String, VisibleString,
};
use std::alloc::Global;

/// Writes the characters of the string that all of the octets are to the buffer, in UTF-8, and a
/// zero. Its type is given by the number of its universal tag (X.680 8.4); its tag may be any.
#[unsafe(no_mangle)]
pub extern "C" fn soq_proved_utf8(
    alloc: Global,
    kind: u32,
    rule: u32,
    octets: &[u8],
    buffer: &mut [u8],
    needed: &mut usize,
) -> u32
    ensures { IsNumberOf (AnswersCharacters kind rule octets.now buffer.old buffer.new needed.new) result }
{
    put_characters(alloc, kind, rule, octets, buffer, needed).number()
}

fn put_characters(
    alloc: Global,
    kind: u32,
    rule: u32,
    octets: &[u8],
    buffer: &mut [u8],
    needed: &mut usize,
) -> Status
    ensures { AnswersCharacters kind rule octets.now buffer.old buffer.new needed.new result }
{
    *needed = 0;
    let Some(rule) = rule_numbered(rule) else {
        return Status::UnknownRule;
    };
    match characters_of(alloc, kind, rule, octets) {
        Ok(text) => fill(&text, buffer, needed),
        Err(status) => status,
    }
}

/// Returns the characters of the string of this kind that all of the octets are, and a zero.
fn characters_of(alloc: Global, kind: u32, rule: Codec, octets: &[u8]) -> Result<Vec<u8>, Status>
    ensures { MatchResult result (λ v. (text : List ℕ) × (v.items ≡ text ++ 0 ∷ []) × IsString kind rule octets.now text) (IsNoString kind rule octets.now) }
{
    let mut text = string_of(alloc, kind, rule, octets)?;
    match text.push(0) {
        Ok(()) => Ok(text),
        Err(_) => Err(Status::OutOfMemory),
    }
}

/// Returns the characters of the string of this kind that all of the octets are.
fn string_of(alloc: Global, kind: u32, rule: Codec, octets: &[u8]) -> Result<Vec<u8>, Status>
    ensures { MatchResult result (λ v. IsString kind rule octets.now v.items) (IsNoString kind rule octets.now) }
{
    match kind {
        12 => match leaf_of::<Utf8String>(alloc, rule, octets) {
            Ok(text) => Ok(text.into_bytes()),
            Err(status) => Err(status),
        },
        18 => match leaf_of::<NumericString>(alloc, rule, octets) {
            Ok(text) => Ok(text.into_vec()),
            Err(status) => Err(status),
        },
        19 => match leaf_of::<PrintableString>(alloc, rule, octets) {
            Ok(text) => Ok(text.into_vec()),
            Err(status) => Err(status),
        },
        22 => match leaf_of::<Ia5String>(alloc, rule, octets) {
            Ok(text) => Ok(text.into_vec()),
            Err(status) => Err(status),
        },
        26 => match leaf_of::<VisibleString>(alloc, rule, octets) {
            Ok(text) => Ok(text.into_vec()),
            Err(status) => Err(status),
        },
        _ => Err(Status::UnknownType),
    }
}

/// Writes the bits of the BIT STRING that all of the octets are to the buffer, the first bit of
/// each octet first, and their number. Its tag may be any.
#[unsafe(no_mangle)]
pub extern "C" fn soq_proved_bits(
    alloc: Global,
    rule: u32,
    octets: &[u8],
    buffer: &mut [u8],
    needed: &mut usize,
    bits: &mut usize,
) -> u32
    ensures { IsNumberOf (AnswersBits rule octets.now buffer.old buffer.new needed.new bits.new) result }
{
    put_bits(alloc, rule, octets, buffer, needed, bits).number()
}

fn put_bits(
    alloc: Global,
    rule: u32,
    octets: &[u8],
    buffer: &mut [u8],
    needed: &mut usize,
    bits: &mut usize,
) -> Status
    ensures { AnswersBits rule octets.now buffer.old buffer.new needed.new bits.new result }
{
    *needed = 0;
    *bits = 0;
    let Some(rule) = rule_numbered(rule) else {
        return Status::UnknownRule;
    };
    match leaf_of::<BitString>(alloc, rule, octets) {
        Ok(found) => {
            *bits = found.len();
            fill(found.as_octets(), buffer, needed)
        }
        Err(status) => status,
    }
}
