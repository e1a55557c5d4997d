//! Strings whose characters are octets, and BMPStrings (X.697, character strings).
ghost use Rattle.std.specs.Prelude.{◌≡◌, ◌/◌, ◌%◌, ◌∷◌, ◌++◌, [], ℕ, List, IfOk, MatchOption, OnOk, string_bytes, encode_utf8_all};
ghost use Rattle.rasn_json.specs.Texts.{UnitsText};

use crate::error::{JsonError, JsonErrorKind};
use rasn_types::types::BmpString;
use std::alloc::{AllocError, Global};

/// Returns the text whose characters have the numbers of these octets.
pub fn text_of(alloc: Global, octets: &[u8]) -> Result<String, AllocError>
    ensures { IfOk result (λ s. string_bytes s ≡ encode_utf8_all octets.now) }
{
    let mut text = String::new(alloc);
    for octet in octets {
        text.push(char::from(*octet))?;
    }
    Ok(text)
}

/// Returns the numbers of characters, or an error if one isn't an octet.
pub fn octets_of(alloc: Global, text: &str) -> Result<Vec<u8>, JsonError>
    ensures { IfOk result (λ octets. text.now ≡ encode_utf8_all octets.items) }
{
    let mut octets = Vec::new(alloc);
    for character in text.chars() {
        let Ok(octet) = u8::try_from(u32::from(character)) else {
            return Err(foreign(alloc, octets.len()));
        };
        match octets.push(octet) {
            Ok(()) => {}
            Err(_) => return Err(JsonError::memory(alloc)),
        }
    }
    Ok(octets)
}

/// Returns the error that a character isn't in the alphabet.
pub fn foreign(alloc: Global, position: usize) -> JsonError {
    JsonError::new(alloc, JsonErrorKind::ForeignCharacter { position })
}

/// Returns the text of a BMPString, whose units may be pairs of surrogates, or `None` if one is
/// unpaired.
pub fn text_of_units(alloc: Global, units: &BmpString) -> Result<Option<String>, AllocError>
    ensures { IfOk result (λ o. MatchOption o ((s : List ℕ) → UnitsText s units.now → ⊥) (λ s. UnitsText (string_bytes s) units.now)) }
{
    let mut text = String::new(alloc);
    for character in char::decode_utf16(units.units()) {
        match character {
            Ok(character) => text.push(character)?,
            Err(_) => return Ok(None),
        }
    }
    Ok(Some(text))
}

/// Returns the BMPString of a text, with a pair of surrogates for each character above FFFF.
pub fn units_of(alloc: Global, text: &str) -> Result<BmpString, AllocError>
    ensures { IfOk result (UnitsText text.now) }
{
    let mut octets = Vec::new(alloc);
    for unit in text.encode_utf16() {
        push_unit(&mut octets, unit)?;
    }
    Ok(BmpString::from_paired(octets))
}

/// Appends the octets of a unit.
fn push_unit(octets: &mut Vec<u8>, unit: u16) -> Result<(), AllocError>
    ensures { OnOk result (octets.new.items ≡ octets.old.items ++ (unit / 256) ∷ (unit % 256) ∷ []) }
{
    octets.push((unit / 256) as u8)?;
    octets.push((unit % 256) as u8)?;
    Ok(())
}
