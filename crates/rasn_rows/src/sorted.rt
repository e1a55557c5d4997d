//! A SET whose components are put in the order of their tags (X.690 9.3, 10.3), whatever the order
//! in which they are listed: SET { level CHOICE { number INTEGER (0..255), off NULL }, name OCTET
//! STRING }, and the same with a level that is optional.

use crate::reading::decoder_of;
use crate::row::{Row, Verb};
use crate::types::Level;
use crate::writing::written;
use rasn::ber::enc::{Encoder, EncoderOptions};
use rasn::de::Decode;
use rasn::error::EncodeError;
use rasn::parts::{End, Put, PutChoice, PutOptionalChoice};
use rasn::types::{Codec, OctetString, Tag};
use std::alloc::{AllocError, Global};

/// Writes a SET of a level and a name.
fn write_both(
    alloc: Global,
    rules: Codec,
    level: &Level,
    name: &OctetString,
) -> Result<Vec<u8>, EncodeError> {
    let mut encoder = Encoder::new(alloc, EncoderOptions::of(rules))?;
    encoder.write_sorted_set(Tag::SET, PutChoice(level, Put(name, End)))?;
    encoder.output()
}

/// Writes a SET of a level, if there is one, and a name.
fn write_named(
    alloc: Global,
    rules: Codec,
    level: &Option<Level>,
    name: &OctetString,
) -> Result<Vec<u8>, EncodeError> {
    let mut encoder = Encoder::new(alloc, EncoderOptions::of(rules))?;
    encoder.write_sorted_set(Tag::SET, PutOptionalChoice(level, Put(name, End)))?;
    encoder.output()
}

/// Reads a level, if there is one, and a name.
fn parts(alloc: Global, row: &Row<'_>) -> Option<(Option<Level>, OctetString)> {
    let mut decoder = decoder_of(alloc, row);
    let level = decoder.decode_optional_choice::<Level>().ok()?;
    let name = OctetString::decode(&mut decoder).ok()?;
    Some((level, name))
}

/// Returns the octets of the SET of the level, if there is one, and of the name that are read.
pub fn sorted(alloc: Global, row: &Row<'_>) -> Result<Option<String>, AllocError> {
    let Verb::Write(rules) = row.verb else {
        return Ok(None);
    };
    let Some((level, name)) = parts(alloc, row) else {
        return Ok(None);
    };
    let answer = match &level {
        Some(level) if row.name == "sorted" => write_both(alloc, rules, level, &name),
        _ => write_named(alloc, rules, &level, &name),
    };
    written(alloc, &answer).map(Some)
}
