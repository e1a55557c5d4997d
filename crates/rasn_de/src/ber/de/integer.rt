//! INTEGER (X.690 8.3).
ghost use Rattle.std.specs.Prelude.{◌≡◌, IfErr, ℤ};
ghost use Rattle.rasn_types.specs.Shapes.{leaf, integer, number, every};
ghost use Rattle.rasn_types.specs.Contents.{signed};
ghost use Rattle.rasn_de.specs.Causes.{HasCause, out_of_bound};
ghost use Rattle.rasn_de.specs.Decodes.{Decodes};
ghost use Rattle.rasn_de.specs.Checks.{Checks, ChecksBy};
ghost use Rattle.rasn_de.specs.Leaves.{DecodesNumber, AllocMayFail, ChecksIntegerContents};

use crate::ber::de::Decoder;
use crate::ber::de::parser::ParseError;
use crate::ber::rules::is_der;
use crate::de::Decode;
use rasn_types::error::{DecodeError, DecodeErrorKind, DerDecodeErrorKind};
use rasn_types::types::{Bounded, Codec, Constraints, Integer, IntegerType, Tag};

/// Checks that octets encode a number: there is at least one octet, and under DER the first nine
/// bits aren't equal (X.690 8.3.1, 8.3.2).
fn check_number(rules: Codec, octets: &[u8]) -> Result<(), ParseError>
    ensures { ChecksIntegerContents rules octets.now result }
{
    match octets {
        [] => Err(ParseError::UnexpectedEmptyInput),
        [0, 0..=0x7F, ..] | [0xFF, 0x80..=0xFF, ..] if is_der(rules) => {
            Err(ParseError::Der(DerDecodeErrorKind::NonMinimalInteger))
        }
        _ => Ok(()),
    }
}

impl<'input> Decoder<'input> {
    /// Reads an INTEGER of the type `I` that is within its bound (X.690 8.3).
    ///
    /// # Errors
    /// A framing error. With the value consumed: `UnexpectedEmptyInput`, under DER
    /// `NonMinimalInteger`, `OutOfMemory` for a number that is stored on the heap, as an `Integer`
    /// of more than 23 octets is, `IntegerOverflow`, then `ValueConstraintNotSatisfied`, or
    /// `OutOfMemory` if an allocation for that error fails.
    #[inline(always)]
    pub fn decode_integer<I: IntegerType>(
        &mut self,
        tag: Tag,
        constraints: &Constraints,
    ) -> Result<I, DecodeError>
        ensures reads { Decodes (leaf (integer I.range) tag constraints.now) (λ v. number (I.number v)) self.old result self.new }
        ensures exact { DecodesNumber I.number I.takes_memory I.WIDTH I.range tag constraints.now self.old result self.new }
        ensures memory { AllocMayFail I.takes_memory I.WIDTH I.range tag constraints.now self.old result self.new }
        ensures rules { IfErr result (λ e. e.codec ≡ self.old.rule) }
    {
        let rules = self.codec();
        let contents = self.contents(tag)?;
        if let Err(fault) = check_number(rules, contents) {
            return Err(self.error(fault));
        }
        match I::from_octets(self.alloc(), contents) {
            Ok(Some(value)) => {
                if constraints.admits_number(contents) {
                    Ok(value)
                } else {
                    Err(self.out_of_bound(contents, constraints.value_bounds()))
                }
            }
            Ok(None) => Err(self.error(ParseError::IntegerOverflow {
                max_width: I::WIDTH,
            })),
            Err(_) => Err(self.error(ParseError::OutOfMemory)),
        }
    }

    /// Checks and consumes an INTEGER that is within its bound, without building a value. Nothing is
    /// allocated, except for an error.
    ///
    /// # Errors
    /// As `decode_integer` for an `Integer`, except `OutOfMemory` for the number.
    pub fn check_integer(&mut self, tag: Tag, constraints: &Constraints) -> Result<(), DecodeError>
        ensures reads { Checks (leaf (integer every) tag constraints.now) self.old result self.new }
        ensures exact { ChecksBy (DecodesNumber (λ (z : ℤ). z) (λ z. ⊥) 0 every tag constraints.now) self.old result self.new }
        ensures memory { AllocMayFail (λ z. ⊥) 0 every tag constraints.now self.old result self.new }
        ensures rules { IfErr result (λ e. e.codec ≡ self.old.rule) }
    {
        let rules = self.codec();
        let octets = self.contents(tag)?;
        if let Err(fault) = check_number(rules, octets) {
            return Err(self.error(fault));
        }
        if constraints.admits_number(octets) {
            return Ok(());
        }
        Err(self.out_of_bound(octets, constraints.value_bounds()))
    }

    /// Returns the error for a number out of its bound, which contains both. If an allocation for
    /// them fails, the error is `OutOfMemory`.
    #[cold]
    #[inline(never)]
    fn out_of_bound(&self, octets: &[u8], expected: Bounded<i128>) -> DecodeError
        ensures { HasCause (out_of_bound (signed octets.now) expected) result.kind × (result.codec ≡ self.now.rule) }
    {
        let Ok(Some(value)) = Integer::from_octets(self.alloc(), octets) else {
            return self.error(ParseError::OutOfMemory);
        };
        match Box::new(self.alloc(), expected) {
            Ok(expected) => DecodeError {
                kind: DecodeErrorKind::ValueConstraintNotSatisfied { value, expected },
                codec: self.codec(),
            },
            Err(_) => self.error(ParseError::OutOfMemory),
        }
    }
}

impl Decode for i8 {
    ghost use Rattle.rasn_types.specs.Trees.{signed_range};
    ghost use Rattle.rasn_de.specs.ValueErrors.{integer_errors};

    ghost errors = { integer_errors (λ z. ⊥) 8 (signed_range 8) };

    #[inline(always)]
    fn decode_with_tag_and_constraints(
        decoder: &mut Decoder<'_>,
        tag: Tag,
        constraints: &Constraints,
    ) -> Result<i8, DecodeError> {
        decoder.decode_integer::<i8>(tag, constraints)
    }
}

impl Decode for i16 {
    ghost use Rattle.rasn_types.specs.Trees.{signed_range};
    ghost use Rattle.rasn_de.specs.ValueErrors.{integer_errors};

    ghost errors = { integer_errors (λ z. ⊥) 16 (signed_range 16) };

    #[inline(always)]
    fn decode_with_tag_and_constraints(
        decoder: &mut Decoder<'_>,
        tag: Tag,
        constraints: &Constraints,
    ) -> Result<i16, DecodeError> {
        decoder.decode_integer::<i16>(tag, constraints)
    }
}

impl Decode for i32 {
    ghost use Rattle.rasn_types.specs.Trees.{signed_range};
    ghost use Rattle.rasn_de.specs.ValueErrors.{integer_errors};

    ghost errors = { integer_errors (λ z. ⊥) 32 (signed_range 32) };

    #[inline(always)]
    fn decode_with_tag_and_constraints(
        decoder: &mut Decoder<'_>,
        tag: Tag,
        constraints: &Constraints,
    ) -> Result<i32, DecodeError> {
        decoder.decode_integer::<i32>(tag, constraints)
    }
}

impl Decode for i64 {
    ghost use Rattle.rasn_types.specs.Trees.{signed_range};
    ghost use Rattle.rasn_de.specs.ValueErrors.{integer_errors};

    ghost errors = { integer_errors (λ z. ⊥) 64 (signed_range 64) };

    #[inline(always)]
    fn decode_with_tag_and_constraints(
        decoder: &mut Decoder<'_>,
        tag: Tag,
        constraints: &Constraints,
    ) -> Result<i64, DecodeError> {
        decoder.decode_integer::<i64>(tag, constraints)
    }
}

impl Decode for i128 {
    ghost use Rattle.rasn_types.specs.Trees.{signed_range};
    ghost use Rattle.rasn_de.specs.ValueErrors.{integer_errors};

    ghost errors = { integer_errors (λ z. ⊥) 128 (signed_range 128) };

    #[inline(always)]
    fn decode_with_tag_and_constraints(
        decoder: &mut Decoder<'_>,
        tag: Tag,
        constraints: &Constraints,
    ) -> Result<i128, DecodeError> {
        decoder.decode_integer::<i128>(tag, constraints)
    }
}

impl Decode for isize {
    ghost use Rattle.rasn_types.specs.Trees.{signed_range};
    ghost use Rattle.rasn_de.specs.ValueErrors.{integer_errors};

    ghost errors = { integer_errors (λ z. ⊥) 64 (signed_range 64) };

    #[inline(always)]
    fn decode_with_tag_and_constraints(
        decoder: &mut Decoder<'_>,
        tag: Tag,
        constraints: &Constraints,
    ) -> Result<isize, DecodeError> {
        decoder.decode_integer::<isize>(tag, constraints)
    }
}

impl Decode for u8 {
    ghost use Rattle.rasn_types.specs.Trees.{unsigned_range};
    ghost use Rattle.rasn_de.specs.ValueErrors.{integer_errors};

    ghost errors = { integer_errors (λ z. ⊥) 8 (unsigned_range 8) };

    #[inline(always)]
    fn decode_with_tag_and_constraints(
        decoder: &mut Decoder<'_>,
        tag: Tag,
        constraints: &Constraints,
    ) -> Result<u8, DecodeError> {
        decoder.decode_integer::<u8>(tag, constraints)
    }
}

impl Decode for u16 {
    ghost use Rattle.rasn_types.specs.Trees.{unsigned_range};
    ghost use Rattle.rasn_de.specs.ValueErrors.{integer_errors};

    ghost errors = { integer_errors (λ z. ⊥) 16 (unsigned_range 16) };

    #[inline(always)]
    fn decode_with_tag_and_constraints(
        decoder: &mut Decoder<'_>,
        tag: Tag,
        constraints: &Constraints,
    ) -> Result<u16, DecodeError> {
        decoder.decode_integer::<u16>(tag, constraints)
    }
}

impl Decode for u32 {
    ghost use Rattle.rasn_types.specs.Trees.{unsigned_range};
    ghost use Rattle.rasn_de.specs.ValueErrors.{integer_errors};

    ghost errors = { integer_errors (λ z. ⊥) 32 (unsigned_range 32) };

    #[inline(always)]
    fn decode_with_tag_and_constraints(
        decoder: &mut Decoder<'_>,
        tag: Tag,
        constraints: &Constraints,
    ) -> Result<u32, DecodeError> {
        decoder.decode_integer::<u32>(tag, constraints)
    }
}

impl Decode for u64 {
    ghost use Rattle.rasn_types.specs.Trees.{unsigned_range};
    ghost use Rattle.rasn_de.specs.ValueErrors.{integer_errors};

    ghost errors = { integer_errors (λ z. ⊥) 64 (unsigned_range 64) };

    #[inline(always)]
    fn decode_with_tag_and_constraints(
        decoder: &mut Decoder<'_>,
        tag: Tag,
        constraints: &Constraints,
    ) -> Result<u64, DecodeError> {
        decoder.decode_integer::<u64>(tag, constraints)
    }
}

impl Decode for u128 {
    ghost use Rattle.rasn_types.specs.Trees.{unsigned_range};
    ghost use Rattle.rasn_de.specs.ValueErrors.{integer_errors};

    ghost errors = { integer_errors (λ z. ⊥) 128 (unsigned_range 128) };

    #[inline(always)]
    fn decode_with_tag_and_constraints(
        decoder: &mut Decoder<'_>,
        tag: Tag,
        constraints: &Constraints,
    ) -> Result<u128, DecodeError> {
        decoder.decode_integer::<u128>(tag, constraints)
    }
}

impl Decode for usize {
    ghost use Rattle.rasn_types.specs.Trees.{unsigned_range};
    ghost use Rattle.rasn_de.specs.ValueErrors.{integer_errors};

    ghost errors = { integer_errors (λ z. ⊥) 64 (unsigned_range 64) };

    #[inline(always)]
    fn decode_with_tag_and_constraints(
        decoder: &mut Decoder<'_>,
        tag: Tag,
        constraints: &Constraints,
    ) -> Result<usize, DecodeError> {
        decoder.decode_integer::<usize>(tag, constraints)
    }
}

impl Decode for Integer {
    ghost use Rattle.rasn_types.specs.Shapes.{every};
    ghost use Rattle.rasn_types.specs.Inline.{IsLong};
    ghost use Rattle.rasn_de.specs.ValueErrors.{integer_errors};

    ghost errors = { integer_errors IsLong 0 every };

    #[inline(always)]
    fn decode_with_tag_and_constraints(
        decoder: &mut Decoder<'_>,
        tag: Tag,
        constraints: &Constraints,
    ) -> Result<Integer, DecodeError> {
        decoder.decode_integer::<Integer>(tag, constraints)
    }
}
