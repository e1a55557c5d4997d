//! The number of bits of a string, of which none are kept.
ghost use Rattle.std.specs.Prelude.{◌≡◌, ◌≤◌, ◌<◌, ◌^◌, MatchOption};
ghost use Rattle.rasn_de.specs.BitString.{segment_bits};
ghost use Rattle.rasn_de.specs.Checks.{Counts};

use crate::ber::de::parser::ParseError;
use crate::ber::de::parser::bit_string::counted;
use crate::ber::de::parser::segments::Segmented;
use rasn_types::types::Codec;

/// The number of bits that a string has so far.
#[derive(Drop)]
pub struct BitCount {
    pub len: u128,
}

impl BitCount {
    /// Returns the number of bits, or `None` if it is 2^64 or more.
    pub fn size(&self) -> Option<usize>
        ensures { MatchOption result (2 ^ 64 ≤ self.now.len) (λ n. (n ≡ self.now.len) × (n < 2 ^ 64)) }
    {
        match usize::try_from(self.len) {
            Ok(len) => Some(len),
            Err(_) => None,
        }
    }
}

impl Segmented for BitCount {
    type Item = bool;

    ghost has_seen = { λ c. Counts (2 ^ 128) c.len };

    ghost segment = { segment_bits };

    ghost allocates = { ⊥ };

    #[inline(always)]
    fn append_segment(&mut self, rules: Codec, octets: &[u8]) -> Result<(), ParseError> {
        let (unused, octets) = counted(rules, octets)?;
        let count = octets.len() as u128 * 8 - unused as u128;
        self.len = self.len.saturating_add(count);
        Ok(())
    }
}
