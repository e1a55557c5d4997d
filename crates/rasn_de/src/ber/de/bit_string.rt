//! BIT STRING (X.690 8.6).
ghost use Rattle.std.specs.Prelude.{◌≡◌, IfErr};
ghost use Rattle.rasn_types.specs.Framing.{AreOctets};
ghost use Rattle.rasn_types.specs.Shapes.{leaf, bit_string};
ghost use Rattle.rasn_de.specs.BitString.{bits_tree, DecodesBits, DecodesBitString};
ghost use Rattle.rasn_types.specs.Errors.{IsOutOfMemory};
ghost use Rattle.rasn_de.specs.Checks.{Checks, ChecksBy};
ghost use Rattle.rasn_de.specs.Decodes.{Decodes};

use crate::ber::de::parser::ParseError;
use crate::ber::de::parser::bit_count::BitCount;
use crate::ber::de::parser::bit_string::counted;
use crate::ber::de::parser::headers::{Expected, Spelling, read_value};
use crate::ber::de::parser::segments::{segment_of, string_contents};
use crate::ber::de::{Decoder, check_size};
use crate::de::Decode;
use rasn_types::ber::CollectedBits;
use rasn_types::error::DecodeError;
use rasn_types::types::{BitString, Constraints, Tag};

impl<'input> Decoder<'input> {
    /// Reads the bits of the next value as a string, collected from its segments. An error consumes
    /// nothing, except that `OutOfMemory` for the bits of a primitive value consumes the value.
    fn bits(&mut self, tag: Tag) -> Result<CollectedBits, DecodeError>
        ensures exact { DecodesBits tag self.old result self.new }
        ensures octets { AreOctets self.old.rest }
    {
        let (value, rest) = match read_value(
            Spelling::of_rule(self.rules),
            Expected::Tagged(tag),
            self.rest,
        ) {
            Ok(found) => found,
            Err(fault) => return Err(self.error(fault)),
        };
        let mut bits = CollectedBits::new(self.alloc);
        let Some(segment) = segment_of(value) else {
            let inner = Tag::BIT_STRING;
            return match string_contents(self.rules, inner, self.depth, value, rest, &mut bits) {
                Ok(rest) => {
                    self.advance(rest);
                    Ok(bits)
                }
                Err(fault) => Err(self.error(fault)),
            };
        };
        let (unused, octets) = match counted(self.rules, segment) {
            Ok(parts) => parts,
            Err(fault) => return Err(self.error(fault)),
        };
        self.advance(rest);
        match bits.append(octets, unused) {
            Ok(()) => Ok(bits),
            Err(_) => Err(self.error(ParseError::OutOfMemory)),
        }
    }

    /// Reads a BIT STRING whose size in bits meets the constraint (X.690 8.6). Bits that a segment
    /// counts as unused aren't part of the string, whether they are set or not; under DER none may
    /// be set (X.690 11.2.1).
    ///
    /// # Errors
    /// With nothing consumed: framing errors, `UnexpectedEmptyInput` and `InvalidBitString` for a
    /// segment (X.690 8.6.2), under DER `NonzeroUnusedBits`, and `OutOfMemory` while segments are
    /// collected. With the value consumed: `OutOfMemory` for a primitive encoding,
    /// `LengthExceedsPlatformWidth` for 2^64 bits or more, then `SizeConstraintNotSatisfied`.
    pub fn decode_bit_string(
        &mut self,
        tag: Tag,
        constraints: &Constraints,
    ) -> Result<BitString, DecodeError>
        ensures reads { Decodes (leaf bit_string tag constraints.now) bits_tree self.old result self.new }
        ensures exact { DecodesBitString tag constraints.now self.old result self.new }
        ensures rules { IfErr result (λ e. e.codec ≡ self.old.rule) }
    {
        let gathered = self.bits(tag)?;
        let Some(bits) = gathered.into_string() else {
            return Err(self.error(ParseError::LengthExceedsPlatformWidth));
        };
        match check_size(constraints, bits.len()) {
            Ok(()) => Ok(bits),
            Err(fault) => Err(self.error(fault)),
        }
    }

    /// Checks and consumes a BIT STRING whose size in bits meets the constraint, without building a
    /// value. Nothing is allocated.
    ///
    /// # Errors
    /// As `decode_bit_string`, except `OutOfMemory`.
    #[inline(always)]
    pub fn check_bit_string(
        &mut self,
        tag: Tag,
        constraints: &Constraints,
    ) -> Result<(), DecodeError>
        ensures reads { Checks (leaf bit_string tag constraints.now) self.old result self.new }
        ensures exact { ChecksBy (DecodesBitString tag constraints.now) self.old result self.new }
        ensures memory { IfErr result (λ e. IsOutOfMemory e.kind → ⊥) }
        ensures rules { IfErr result (λ e. e.codec ≡ self.old.rule) }
    {
        let mut count = BitCount { len: 0 };
        self.see_segments(Tag::BIT_STRING, tag, &mut count)?;
        let Some(size) = count.size() else {
            return Err(self.error(ParseError::LengthExceedsPlatformWidth));
        };
        match check_size(constraints, size) {
            Ok(()) => Ok(()),
            Err(fault) => Err(self.error(fault)),
        }
    }
}

impl Decode for BitString {
    ghost use Rattle.rasn_de.specs.BitString.{DecodesBitString};
    ghost use Rattle.rasn_de.specs.ValueErrors.{errors_of};

    ghost errors = { λ tag c. errors_of (DecodesBitString tag c) };

    #[tactic(auto, unfolding(rasn_types::specs::Grammar::Reads))]
    fn decode_with_tag_and_constraints(
        decoder: &mut Decoder<'_>,
        tag: Tag,
        constraints: &Constraints,
    ) -> Result<BitString, DecodeError> {
        decoder.decode_bit_string(tag, constraints)
    }
}
