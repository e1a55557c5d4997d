//! BIT STRING whose bits are borrowed (X.690 8.6).
ghost use Rattle.std.specs.Prelude.{◌≡◌, ◌≤◌, ◌<◌, ◌*◌, ◌^◌, length, IfErr, MatchOption};
ghost use Rattle.rasn_types.specs.BitString.{but_last};
ghost use Rattle.rasn_types.specs.CowBits.{cow_bits_tree};
ghost use Rattle.rasn_types.specs.Framing.{AreOctets};
ghost use Rattle.rasn_types.specs.Shapes.{leaf, bit_string};
ghost use Rattle.rasn_de.specs.BitString.{DecodesPrimitiveBits, DecodesCowBits};
ghost use Rattle.rasn_de.specs.Decodes.{Decodes};

use crate::ber::de::parser::ParseError;
use crate::ber::de::parser::bit_string::counted;
use crate::ber::de::parser::headers::{Expected, Spelling, read_value};
use crate::ber::de::parser::segments::segment_of;
use crate::ber::de::{Decoder, check_size};
use rasn_types::error::DecodeError;
use rasn_types::types::{BitStr, Constraints, CowBits, Tag};

/// The bits of octets except the last `unused` ones. `None` where there are 2^64 or more.
pub(super) fn bits_of(octets: &[u8], unused: usize) -> Option<BitStr<'_>>
    requires few { unused < 8 }
    requires held { unused ≤ 8 * length octets.now }
    ensures { MatchOption result (2 ^ 64 ≤ length (but_last unused octets.now)) (λ bits. bits ≡ but_last unused octets.now) }
{
    let count = octets.len() as u128 * 8 - unused as u128;
    match usize::try_from(count) {
        Ok(len) => BitStr::new(octets, 0, len),
        Err(_) => None,
    }
}

impl<'input> Decoder<'input> {
    /// The bits of the next value, borrowed, if it is primitive. A constructed one isn't consumed.
    fn primitive_bits(&mut self, tag: Tag) -> Result<Option<BitStr<'input>>, DecodeError>
        ensures exact { DecodesPrimitiveBits tag self.old result self.new }
        ensures octets { AreOctets self.old.rest }
    {
        let (value, rest) = match read_value(
            Spelling::of_rule(self.rules),
            Expected::Tagged(tag),
            self.rest,
        ) {
            Ok(found) => found,
            Err(fault) => return Err(self.error(fault)),
        };
        let Some(segment) = segment_of(value) else {
            return Ok(None);
        };
        let (unused, octets) = match counted(self.rules, segment) {
            Ok(parts) => parts,
            Err(fault) => return Err(self.error(fault)),
        };
        self.advance(rest);
        match bits_of(octets, unused) {
            Some(bits) => Ok(Some(bits)),
            None => Err(self.error(ParseError::LengthExceedsPlatformWidth)),
        }
    }

    /// Reads a BIT STRING as [`decode_bit_string`](Decoder::decode_bit_string) does, but borrows
    /// the bits of a primitive encoding from the input.
    ///
    /// # Errors
    /// Those of `decode_bit_string`; `OutOfMemory` only while segments are collected.
    pub fn decode_bits(
        &mut self,
        tag: Tag,
        constraints: &Constraints,
    ) -> Result<CowBits<'input>, DecodeError>
        ensures reads { Decodes (leaf bit_string tag constraints.now) cow_bits_tree self.old result self.new }
        ensures exact { DecodesCowBits tag constraints.now self.old result self.new }
        ensures rules { IfErr result (λ e. e.codec ≡ self.old.rule) }
    {
        let Some(bits) = self.primitive_bits(tag)? else {
            return Ok(CowBits::Owned(self.decode_bit_string(tag, constraints)?));
        };
        match check_size(constraints, bits.len()) {
            Ok(()) => Ok(CowBits::Borrowed(bits)),
            Err(fault) => Err(self.error(fault)),
        }
    }
}
