//! The number of octets of a string, of which none are kept.
ghost use Rattle.std.specs.Prelude.{◌^◌};
ghost use Rattle.rasn_de.specs.Segments.{octets};
ghost use Rattle.rasn_de.specs.Checks.{Counts};

use crate::ber::de::parser::ParseError;
use crate::ber::de::parser::segments::Segmented;
use rasn_types::types::Codec;

/// The number of octets that a string has so far.
#[derive(Drop)]
pub struct OctetCount {
    pub len: usize,
}

impl Segmented for OctetCount {
    type Item = u8;

    ghost has_seen = { λ c. Counts (2 ^ 64) c.len };

    ghost segment = { λ rules. octets };

    ghost allocates = { ⊥ };

    #[inline(always)]
    fn append_segment(&mut self, _rules: Codec, octets: &[u8]) -> Result<(), ParseError> {
        self.len = self.len.saturating_add(octets.len());
        Ok(())
    }
}
