//! The octets of a short string in segments.
ghost use Rattle.std.specs.Prelude.{◌≡◌, ◌∷◌, [], ◌<◌, take, MatchOption};
ghost use Rattle.rasn_de.specs.Segments.{octets};
ghost use Rattle.rasn_de.specs.ParserViews.{SeesMore};
ghost use Rattle.rasn_de.specs.ShortText.{HoldsShort};

use crate::ber::de::parser::ParseError;
use crate::ber::de::parser::segments::Segmented;
use rasn_types::types::Codec;

/// The number of octets that are kept.
const ROOM: usize = 32;

/// The octets that a string has so far, if they are at most 32.
#[derive(Drop)]
pub struct ShortText {
    octets: [u8; ROOM],
    len: usize,
}

impl ShortText {
    /// Returns no octets.
    pub fn new() -> ShortText
        ensures { HoldsShort result.octets result.len [] }
    {
        ShortText {
            octets: [0; ROOM],
            len: 0,
        }
    }

    /// Returns the octets, or `None` if they are more than 32.
    pub fn as_slice(&self) -> Option<&[u8]>
        ensures { MatchOption result (32 < self.now.len) (λ s. (s.now ≡ take self.now.len self.now.octets) × (self.now.len < 33)) }
    {
        if self.len <= ROOM {
            Some(&self.octets[..self.len])
        } else {
            None
        }
    }

    /// Takes a further octet.
    fn push(&mut self, octet: u8)
        ensures { SeesMore (octet ∷ []) (HoldsShort self.old.octets self.old.len) (HoldsShort self.new.octets self.new.len) }
    {
        if self.len < ROOM {
            self.octets[self.len] = octet;
            self.len += 1;
        } else {
            self.len = ROOM + 1;
        }
    }
}

impl Segmented for ShortText {
    type Item = u8;

    ghost has_seen = { λ t. HoldsShort t.octets t.len };

    ghost segment = { λ rules. octets };

    ghost allocates = { ⊥ };

    fn append_segment(&mut self, _rules: Codec, octets: &[u8]) -> Result<(), ParseError> {
        for octet in octets {
            self.push(*octet);
        }
        Ok(())
    }
}
