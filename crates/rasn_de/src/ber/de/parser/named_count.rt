//! What a check of named bits keeps of a string.
ghost use Rattle.std.specs.Prelude.{◌≡◌, ◌≤◌, ◌<◌, ◌⊎◌, ◌^◌, MatchOption};
ghost use Rattle.rasn_de.specs.BitString.{segment_bits};
ghost use Rattle.rasn_de.specs.Checks.{CountsNamed};

use crate::ber::de::cow_bits::bits_of;
use crate::ber::de::parser::ParseError;
use crate::ber::de::parser::bit_string::counted;
use crate::ber::de::parser::segments::Segmented;
use rasn_types::types::Codec;

/// The number of bits that a string has so far, and of those up to the last that is 1.
#[derive(Drop)]
pub struct NamedCount {
    pub len: u128,
    pub size: u128,
}

impl NamedCount {
    /// Returns the number of bits up to the last that is 1, and of all bits, or `None` if one of
    /// them is 2^64 or more.
    pub fn sizes(&self) -> Option<(usize, usize)>
        ensures { MatchOption result ((2 ^ 64 ≤ self.now.len) ⊎ (2 ^ 64 ≤ self.now.size)) (λ p. (p.0 ≡ self.now.size) × (p.1 ≡ self.now.len) × (p.1 < 2 ^ 64)) }
    {
        let Ok(len) = usize::try_from(self.len) else {
            return None;
        };
        match usize::try_from(self.size) {
            Ok(size) => Some((size, len)),
            Err(_) => None,
        }
    }
}

impl Segmented for NamedCount {
    type Item = bool;

    ghost has_seen = { λ c. CountsNamed c.len c.size };

    ghost segment = { segment_bits };

    ghost allocates = { ⊥ };

    fn append_segment(&mut self, rules: Codec, octets: &[u8]) -> Result<(), ParseError> {
        let (unused, octets) = counted(rules, octets)?;
        let start = self.len;
        let count = octets.len() as u128 * 8 - unused as u128;
        self.len = start.saturating_add(count);
        if let Some(bits) = bits_of(octets, unused) {
            let size = bits.significant_len();
            if size != 0 {
                self.size = start.saturating_add(size as u128);
            }
        }
        Ok(())
    }
}
