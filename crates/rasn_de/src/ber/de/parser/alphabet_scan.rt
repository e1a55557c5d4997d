//! What a check of a string's alphabet keeps of its octets.
ghost use Rattle.rasn_de.specs.Segments.{octets};
ghost use Rattle.rasn_de.specs.Checks.{ScansAlphabet, ChecksScanned};

use crate::ber::de::check_size;
use crate::ber::de::parser::ParseError;
use crate::ber::de::parser::segments::Segmented;
use rasn_types::types::{Codec, Constraints, StringType};
use std::marker::PhantomData;

/// The number of octets that a string has so far, and the first of them that isn't in the alphabet,
/// with its position.
#[derive(Drop)]
pub struct AlphabetScan<S: StringType> {
    pub len: usize,
    pub foreign: Option<(usize, u8)>,
    pub of: PhantomData<S>,
}

impl<S: StringType> AlphabetScan<S> {
    /// Checks that the number of octets is within its bound, and then that all octets are in the
    /// alphabet.
    #[inline(always)]
    pub fn check(&self, constraints: &Constraints) -> Result<(), ParseError>
        ensures { ChecksScanned S.ALPHABET constraints.now.size self.now.len self.now.foreign result }
    {
        check_size(constraints, self.len)?;
        match self.foreign {
            None => Ok(()),
            Some((position, octet)) => Err(ParseError::PermittedAlphabetError { octet, position }),
        }
    }
}

impl<S: StringType> Segmented for AlphabetScan<S> {
    type Item = u8;

    ghost has_seen = { λ s. ScansAlphabet S.ALPHABET s.len s.foreign };

    ghost segment = { λ rules. octets };

    ghost allocates = { ⊥ };

    #[inline(always)]
    fn append_segment(&mut self, _rules: Codec, octets: &[u8]) -> Result<(), ParseError> {
        let start = self.len;
        self.len = start.saturating_add(octets.len());
        if self.foreign.is_some() {
            return Ok(());
        }
        match S::ALPHABET.first_foreign(octets) {
            None => Ok(()),
            Some(position) => {
                self.foreign = Some((start.saturating_add(position), octets[position]));
                Ok(())
            }
        }
    }
}
