//! BIT STRING whose bits have names (X.680 22.7).
ghost use Rattle.std.specs.Prelude.{◌≡◌, IfOk, IfErr};
ghost use Rattle.rasn_types.specs.BitString.{significant};
ghost use Rattle.rasn_types.specs.CowBits.{cow_bits, cow_bits_tree};
ghost use Rattle.rasn_types.specs.Shapes.{leaf, named_bits};
ghost use Rattle.rasn_types.specs.NamedBits.{named_bits_tree};
ghost use Rattle.rasn_de.specs.NamedBits.{AreNamedBits, DecodesNamedBits, DecodesSignificantBits};
ghost use Rattle.rasn_types.specs.Errors.{IsOutOfMemory};
ghost use Rattle.rasn_de.specs.Checks.{Checks, ChecksBy, ChecksNamedBits};
ghost use Rattle.rasn_de.specs.Decodes.{Decodes};

use crate::ber::de::Decoder;
use crate::ber::de::parser::ParseError;
use crate::ber::de::parser::named_count::NamedCount;
use crate::ber::rules::is_ber;
use crate::de::Decode;
use rasn_types::error::DecodeError;
use rasn_types::types::{BitStr, Codec, Constraints, CowBits, NamedBits, Tag};

/// Checks that bits that were read may be named bits.
fn check_named(rules: Codec, constraints: &Constraints, bits: &BitStr<'_>) -> Result<(), ParseError>
    ensures { AreNamedBits rules constraints.now bits.now result }
{
    check_named_size(rules, constraints, bits.significant_len(), bits.len())
}

/// Checks that `len` bits, of which those up to the last that is 1 are `size`, may be named bits.
fn check_named_size(
    rules: Codec,
    constraints: &Constraints,
    size: usize,
    len: usize,
) -> Result<(), ParseError>
    ensures { ChecksNamedBits rules constraints.now size len result }
{
    let is_basic = is_ber(rules);
    if size != len && !is_basic {
        return Err(ParseError::TrailingZeroBits);
    }
    if constraints.admits_padded_size(size) {
        return Ok(());
    }
    let expected = constraints.size_bounds();
    Err(ParseError::SizeConstraintNotSatisfied { size, expected })
}

impl<'input> Decoder<'input> {
    /// Reads a BIT STRING whose bits have names. Trailing 0 bits don't count: the size has to be
    /// met by the bits up to the last that is 1, with any number of 0 bits after them. CER and DER
    /// have no trailing 0 bits (X.690 11.2.2).
    ///
    /// # Errors
    /// Those of [`decode_bit_string`](Decoder::decode_bit_string) without a constraint. With the
    /// value consumed: `TrailingZeroBits` under CER and DER, then `SizeConstraintNotSatisfied`.
    pub fn decode_named_bits(
        &mut self,
        tag: Tag,
        constraints: &Constraints,
    ) -> Result<NamedBits, DecodeError>
        ensures reads { Decodes (leaf named_bits tag constraints.now) named_bits_tree self.old result self.new }
        ensures exact { DecodesNamedBits tag constraints.now self.old result self.new }
        ensures rules { IfErr result (λ e. e.codec ≡ self.old.rule) }
    {
        let rules = self.codec();
        let bits = self.decode_bit_string(tag, &Constraints::NONE)?;
        match check_named(rules, constraints, &bits.as_bitstr()) {
            Ok(()) => Ok(NamedBits::new(bits)),
            Err(fault) => Err(self.error(fault)),
        }
    }

    /// Reads a BIT STRING whose bits have names, as
    /// [`decode_named_bits`](Decoder::decode_named_bits) does: its bits up to the last that is 1.
    /// They are borrowed exactly where the encoding is primitive.
    ///
    /// # Errors
    /// Those of `decode_named_bits`; `OutOfMemory` only while segments are collected.
    pub fn decode_significant_bits(
        &mut self,
        tag: Tag,
        constraints: &Constraints,
    ) -> Result<CowBits<'input>, DecodeError>
        ensures reads { Decodes (leaf named_bits tag constraints.now) cow_bits_tree self.old result self.new }
        ensures significant { IfOk result (λ b. significant (cow_bits b) ≡ cow_bits b) }
        ensures exact { DecodesSignificantBits tag constraints.now self.old result self.new }
        ensures rules { IfErr result (λ e. e.codec ≡ self.old.rule) }
    {
        let rules = self.codec();
        let bits = self.decode_bits(tag, &Constraints::NONE)?;
        match check_named(rules, constraints, &bits.as_bitstr()) {
            Ok(()) => Ok(bits.into_significant()),
            Err(fault) => Err(self.error(fault)),
        }
    }

    /// Checks and consumes a BIT STRING whose bits have names, as
    /// [`decode_named_bits`](Decoder::decode_named_bits) does, without building a value. Nothing is
    /// allocated.
    ///
    /// # Errors
    /// As `decode_named_bits`, except `OutOfMemory`.
    pub fn check_named_bits(
        &mut self,
        tag: Tag,
        constraints: &Constraints,
    ) -> Result<(), DecodeError>
        ensures reads { Checks (leaf named_bits tag constraints.now) self.old result self.new }
        ensures exact { ChecksBy (DecodesNamedBits tag constraints.now) self.old result self.new }
        ensures memory { IfErr result (λ e. IsOutOfMemory e.kind → ⊥) }
        ensures rules { IfErr result (λ e. e.codec ≡ self.old.rule) }
    {
        let rules = self.codec();
        let mut count = NamedCount { len: 0, size: 0 };
        self.see_segments(Tag::BIT_STRING, tag, &mut count)?;
        let Some((size, len)) = count.sizes() else {
            return Err(self.error(ParseError::LengthExceedsPlatformWidth));
        };
        match check_named_size(rules, constraints, size, len) {
            Ok(()) => Ok(()),
            Err(fault) => Err(self.error(fault)),
        }
    }
}

impl Decode for NamedBits {
    ghost use Rattle.rasn_de.specs.NamedBits.{DecodesNamedBits};
    ghost use Rattle.rasn_de.specs.ValueErrors.{errors_of};

    ghost errors = { λ tag c. errors_of (DecodesNamedBits tag c) };

    #[tactic(auto, unfolding(rasn_types::specs::Grammar::Reads))]
    fn decode_with_tag_and_constraints(
        decoder: &mut Decoder<'_>,
        tag: Tag,
        constraints: &Constraints,
    ) -> Result<NamedBits, DecodeError> {
        decoder.decode_named_bits(tag, constraints)
    }
}
