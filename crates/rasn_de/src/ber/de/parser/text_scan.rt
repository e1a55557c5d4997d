//! What a check of a UTF8String keeps of its octets.
ghost use Rattle.std.specs.Prelude.{◌≡◌, ◌∷◌, [], length, chars};
ghost use Rattle.rasn_de.specs.Segments.{octets};
ghost use Rattle.rasn_de.specs.ParserViews.{SeesMore};
ghost use Rattle.rasn_de.specs.TextScan.{ScansText, SettlesText, TakesText, ChecksScannedText};

use crate::ber::de::check_size;
use crate::ber::de::parser::ParseError;
use crate::ber::de::parser::segments::Segmented;
use rasn_types::types::{Codec, Constraints, Tag};
use std::str;

/// The octets after the last whole character, which may begin one that is cut by a segment.
#[derive(Clone, Copy)]
pub enum Held {
    Nothing,
    One(u8),
    Two(u8, u8),
    Three(u8, u8, u8),
    /// Four or more octets, at whose start there is no character.
    Unfit,
}

/// The number of whole characters that a string has so far, and the octets after them.
#[derive(Drop)]
pub struct TextScan {
    pub count: usize,
    pub held: Held,
}

/// Returns the number of characters.
fn characters(text: &str) -> usize
    ensures { result ≡ length (chars text.now) }
{
    text.chars().count()
}

impl TextScan {
    /// Counts the characters of octets that are UTF-8, after which nothing is held. Otherwise holds
    /// `next`.
    fn settle(&mut self, octets: &[u8], next: Held)
        ensures { SettlesText octets.now next self.old.count self.new.count self.new.held }
    {
        match str::from_utf8(octets) {
            Ok(text) => {
                self.count = self.count.saturating_add(characters(text));
                self.held = Held::Nothing;
            }
            Err(_) => self.held = next,
        }
    }

    /// Takes a further octet.
    fn push(&mut self, octet: u8)
        ensures { SeesMore (octet ∷ []) (ScansText self.old.count self.old.held) (ScansText self.new.count self.new.held) }
    {
        match self.held {
            Held::Nothing => self.settle(&[octet], Held::One(octet)),
            Held::One(a) => self.settle(&[a, octet], Held::Two(a, octet)),
            Held::Two(a, b) => self.settle(&[a, b, octet], Held::Three(a, b, octet)),
            Held::Three(a, b, c) => self.settle(&[a, b, c, octet], Held::Unfit),
            Held::Unfit => {}
        }
    }

    /// Takes further octets, one by one.
    fn push_all(&mut self, octets: &[u8])
        ensures { SeesMore octets.now (ScansText self.old.count self.old.held) (ScansText self.new.count self.new.held) }
    {
        for octet in octets {
            self.push(*octet);
        }
    }

    /// Takes further octets if they are whole characters, and nothing is held. Returns whether it
    /// does.
    fn take_text(&mut self, octets: &[u8]) -> bool
        ensures { TakesText octets.now self.old.count self.old.held self.new.count self.new.held result }
    {
        let Held::Nothing = self.held else {
            return false;
        };
        match str::from_utf8(octets) {
            Ok(text) => {
                self.count = self.count.saturating_add(characters(text));
                true
            }
            Err(_) => false,
        }
    }

    /// Checks that the octets are UTF-8, and then that the number of characters is within its
    /// bound.
    pub fn check(&self, constraints: &Constraints) -> Result<(), ParseError>
        ensures { ChecksScannedText constraints.now self.now.count self.now.held result }
    {
        match self.held {
            Held::Nothing => check_size(constraints, self.count),
            _ => Err(ParseError::StringConversionFailed {
                tag: Tag::UTF8_STRING,
            }),
        }
    }
}

impl Segmented for TextScan {
    type Item = u8;

    ghost has_seen = { λ s. ScansText s.count s.held };

    ghost segment = { λ rules. octets };

    ghost allocates = { ⊥ };

    fn append_segment(&mut self, _rules: Codec, octets: &[u8]) -> Result<(), ParseError> {
        if !self.take_text(octets) {
            self.push_all(octets);
        }
        Ok(())
    }
}
