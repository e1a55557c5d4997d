//! OCTET STRING of a fixed size (X.690 8.7).
ghost use Rattle.std.specs.Prelude.{◌≡◌, IfErr};
ghost use Rattle.rasn_types.specs.Shapes.{leaf, numbers, fixed};
ghost use Rattle.rasn_de.specs.Decodes.{Decodes};
ghost use Rattle.rasn_types.specs.Errors.{IsOutOfMemory};
ghost use Rattle.rasn_de.specs.CharacterString.{ByLength, DecodesString};
ghost use Rattle.rasn_de.specs.Checks.{Checks, ChecksText, ChecksLength};

use crate::ber::de::parser::ParseError;
use crate::ber::de::parser::octet_count::OctetCount;
use crate::ber::de::{Decoder, check_size};
use crate::de::Decode;
use rasn_types::error::DecodeError;
use rasn_types::types::{Bounded, Constraints, FixedOctetString, Tag};

/// Checks that a string of `size` octets has `len`, and then that its size is within its bound.
fn check_length(len: usize, constraints: &Constraints, size: usize) -> Result<(), ParseError>
    ensures { ChecksLength len constraints.now.size size result }
{
    if size != len {
        let expected = Bounded::Single(len);
        return Err(ParseError::SizeConstraintNotSatisfied { size, expected });
    }
    check_size(constraints, size)
}

impl<'input> Decoder<'input> {
    /// Reads an OCTET STRING of `N` octets, which must also meet the size constraint (X.690 8.7).
    ///
    /// # Errors
    /// As `decode_octet_string`. A number of octets other than `N` is reported before the size
    /// constraint.
    pub(crate) fn decode_fixed_octet_string<const N: usize>(
        &mut self,
        tag: Tag,
        constraints: &Constraints,
    ) -> Result<FixedOctetString<N>, DecodeError>
        ensures reads { Decodes (leaf (fixed N) tag constraints.now) numbers self.old result self.new }
        ensures exact { DecodesString (λ s. s) (ByLength N constraints.now.size) tag self.old result self.new }
        ensures rules { IfErr result (λ e. e.codec ≡ self.old.rule) }
    {
        let octets = self.octets(tag)?;
        let Ok(array) = <[u8; N]>::try_from(octets.as_slice()) else {
            let expected = Bounded::Single(N);
            return Err(self.error(ParseError::SizeConstraintNotSatisfied {
                size: octets.len(),
                expected,
            }));
        };
        match check_size(constraints, N) {
            Ok(()) => Ok(FixedOctetString::new(array)),
            Err(fault) => Err(self.error(fault)),
        }
    }

    /// Reads an OCTET STRING of `len` octets, which must also meet the size constraint, and makes
    /// nothing of it. Nothing is allocated.
    ///
    /// # Errors
    /// As `decode_octet_string`, except `OutOfMemory`. A number of octets other than `len` is
    /// reported before the size constraint.
    pub fn check_fixed_octet_string(
        &mut self,
        len: usize,
        tag: Tag,
        constraints: &Constraints,
    ) -> Result<(), DecodeError>
        ensures reads { Checks (leaf (fixed len) tag constraints.now) self.old result self.new }
        ensures exact { ChecksText (ByLength len constraints.now.size) tag self.old result self.new }
        ensures memory { IfErr result (λ e. IsOutOfMemory e.kind → ⊥) }
        ensures rules { IfErr result (λ e. e.codec ≡ self.old.rule) }
    {
        let mut count = OctetCount { len: 0 };
        self.see_segments(Tag::OCTET_STRING, tag, &mut count)?;
        match check_length(len, constraints, count.len) {
            Ok(()) => Ok(()),
            Err(fault) => Err(self.error(fault)),
        }
    }
}

impl<const N: usize> Decode for FixedOctetString<N> {
    ghost use Rattle.std.specs.Prelude.{ℕ, List};
    ghost use Rattle.rasn_de.specs.CharacterString.{ByLength, DecodesString};
    ghost use Rattle.rasn_de.specs.ValueErrors.{errors_of};

    ghost errors = { λ tag c. errors_of (DecodesString (λ (l : List ℕ). l) (ByLength N c.size) tag) };

    fn decode_with_tag_and_constraints(
        decoder: &mut Decoder<'_>,
        tag: Tag,
        constraints: &Constraints,
    ) -> Result<FixedOctetString<N>, DecodeError>
        ensures reads { Decodes (leaf (fixed N) tag constraints.now) numbers decoder.old result decoder.new }
        ensures exact { DecodesString (λ s. s) (ByLength N constraints.now.size) tag decoder.old result decoder.new }
        ensures errors { IfErr result (λ e. errors_of (DecodesString (λ (l : List ℕ). l) (ByLength N constraints.now.size) tag) decoder.old e decoder.new) }
        ensures rules { IfErr result (λ e. e.codec ≡ decoder.old.rule) }
    {
        decoder.decode_fixed_octet_string(tag, constraints)
    }
}
