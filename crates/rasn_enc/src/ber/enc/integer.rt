//! Writing INTEGER (X.690 8.3).
#![tactic(auto, using(crate::proofs::Leaves::Primitive::integer_refused))]

ghost use Rattle.std.specs.Prelude.{◌≡◌, ◌<◌, ◌≤ℤ◌, length, IfErr, OnOk, OnErr};
ghost use Rattle.rasn_types.specs.Truth.{IsWhether};
ghost use Rattle.rasn_types.specs.Contents.{signed};
ghost use Rattle.rasn_types.specs.Shapes.{Admits};
ghost use Rattle.rasn_enc.specs.Errors.{FailsAtInteger};
ghost use Rattle.rasn_enc.specs.Integer.{AppendsInteger};

use crate::ber::enc::{Encoder, out_of_memory};
use crate::enc::Encode;
use rasn_types::error::{EncodeError, EncodeErrorKind};
use rasn_types::types::{
    Codec, Constraints, Identifier, Integer, IntegerType, LONGEST_NUMBER, Tag,
};
use std::alloc::Global;

impl Encoder {
    /// Writes an INTEGER in the fewest octets (X.690 8.3).
    ///
    /// # Errors
    /// `ValueConstraintNotSatisfied` with a copy of the number if the number is out of bounds;
    /// `OutOfMemory` if an allocation fails, including that of the copy.
    #[inline(always)]
    pub fn encode_integer<I: IntegerType>(
        &mut self,
        tag: Tag,
        constraints: &Constraints,
        value: &I,
        _identifier: Identifier,
    ) -> Result<(), EncodeError>
        ensures ok { OnOk result (AppendsInteger I.range tag constraints.now (I.number value.now) self.old self.new) }
        ensures err { OnErr result (self.new ≡ self.old) }
        ensures fails { IfErr result (FailsAtInteger constraints.now (I.number value.now) self.old.rule) }
        ensures rules { IfErr result (λ e. e.codec ≡ self.old.rule) }
    {
        let mut room = [0; LONGEST_NUMBER];
        let contents = value.octets(&mut room);
        if !admits(constraints, contents) {
            return Err(refused_number(self.alloc(), self.codec(), constraints, contents));
        }
        self.leaf(tag, &contents)
    }
}

/// Returns whether a number is within its bounds.
#[inline(always)]
fn admits(constraints: &Constraints, octets: &[u8]) -> bool
    requires { 0 < length octets.now }
    ensures { IsWhether result (Admits ◌≤ℤ◌ constraints.now.value (signed octets.now)) }
{
    constraints.value.is_none() || meets_bound(constraints, octets)
}

/// Returns whether a number is within its bounds. It isn't inlined, so that the octets of a number
/// without bounds are written by inlined code.
#[inline(never)]
fn meets_bound(constraints: &Constraints, octets: &[u8]) -> bool
    requires { 0 < length octets.now }
    ensures { IsWhether result (Admits ◌≤ℤ◌ constraints.now.value (signed octets.now)) }
{
    constraints.admits_number(octets)
}

/// Returns the error for a number that is out of bounds, with a copy of the number, or
/// `OutOfMemory` if the copy can't be allocated.
fn refused_number(
    alloc: Global,
    rule: Codec,
    constraints: &Constraints,
    contents: &[u8],
) -> EncodeError
    requires some { 0 < length contents.now }
    requires refused { Admits ◌≤ℤ◌ constraints.now.value (signed contents.now) → ⊥ }
    ensures { FailsAtInteger constraints.now (signed contents.now) rule result }
{
    let Ok(Some(value)) = Integer::from_octets(alloc, contents) else {
        return out_of_memory(rule);
    };
    match Box::new(alloc, constraints.value_bounds()) {
        Ok(expected) => EncodeError {
            kind: EncodeErrorKind::ValueConstraintNotSatisfied { value, expected },
            codec: rule,
        },
        Err(_) => out_of_memory(rule),
    }
}

impl Encode for i8 {
    ghost use Rattle.rasn_enc.specs.Errors.{FailsAtInteger};

    ghost errors = { λ tag c v rule e. FailsAtInteger c v rule e };

    #[inline(always)]
    fn encode_with_tag_and_constraints(
        &self,
        encoder: &mut Encoder,
        tag: Tag,
        constraints: &Constraints,
        identifier: Identifier,
    ) -> Result<(), EncodeError> {
        encoder.encode_integer::<i8>(tag, constraints, self, identifier)
    }

    fn is_present(&self) -> bool {
        true
    }
}

impl Encode for i16 {
    ghost use Rattle.rasn_enc.specs.Errors.{FailsAtInteger};

    ghost errors = { λ tag c v rule e. FailsAtInteger c v rule e };

    #[inline(always)]
    fn encode_with_tag_and_constraints(
        &self,
        encoder: &mut Encoder,
        tag: Tag,
        constraints: &Constraints,
        identifier: Identifier,
    ) -> Result<(), EncodeError> {
        encoder.encode_integer::<i16>(tag, constraints, self, identifier)
    }

    fn is_present(&self) -> bool {
        true
    }
}

impl Encode for i32 {
    ghost use Rattle.rasn_enc.specs.Errors.{FailsAtInteger};

    ghost errors = { λ tag c v rule e. FailsAtInteger c v rule e };

    #[inline(always)]
    fn encode_with_tag_and_constraints(
        &self,
        encoder: &mut Encoder,
        tag: Tag,
        constraints: &Constraints,
        identifier: Identifier,
    ) -> Result<(), EncodeError> {
        encoder.encode_integer::<i32>(tag, constraints, self, identifier)
    }

    fn is_present(&self) -> bool {
        true
    }
}

impl Encode for i64 {
    ghost use Rattle.rasn_enc.specs.Errors.{FailsAtInteger};

    ghost errors = { λ tag c v rule e. FailsAtInteger c v rule e };

    #[inline(always)]
    fn encode_with_tag_and_constraints(
        &self,
        encoder: &mut Encoder,
        tag: Tag,
        constraints: &Constraints,
        identifier: Identifier,
    ) -> Result<(), EncodeError> {
        encoder.encode_integer::<i64>(tag, constraints, self, identifier)
    }

    fn is_present(&self) -> bool {
        true
    }
}

impl Encode for i128 {
    ghost use Rattle.rasn_enc.specs.Errors.{FailsAtInteger};

    ghost errors = { λ tag c v rule e. FailsAtInteger c v rule e };

    #[inline(always)]
    fn encode_with_tag_and_constraints(
        &self,
        encoder: &mut Encoder,
        tag: Tag,
        constraints: &Constraints,
        identifier: Identifier,
    ) -> Result<(), EncodeError> {
        encoder.encode_integer::<i128>(tag, constraints, self, identifier)
    }

    fn is_present(&self) -> bool {
        true
    }
}

impl Encode for isize {
    ghost use Rattle.rasn_enc.specs.Errors.{FailsAtInteger};

    ghost errors = { λ tag c v rule e. FailsAtInteger c v rule e };

    #[inline(always)]
    fn encode_with_tag_and_constraints(
        &self,
        encoder: &mut Encoder,
        tag: Tag,
        constraints: &Constraints,
        identifier: Identifier,
    ) -> Result<(), EncodeError> {
        encoder.encode_integer::<isize>(tag, constraints, self, identifier)
    }

    fn is_present(&self) -> bool {
        true
    }
}

impl Encode for u8 {
    ghost use Rattle.std.specs.Prelude.{pos};
    ghost use Rattle.rasn_enc.specs.Errors.{FailsAtInteger};

    ghost errors = { λ tag c v rule e. FailsAtInteger c (pos v) rule e };

    #[inline(always)]
    fn encode_with_tag_and_constraints(
        &self,
        encoder: &mut Encoder,
        tag: Tag,
        constraints: &Constraints,
        identifier: Identifier,
    ) -> Result<(), EncodeError> {
        encoder.encode_integer::<u8>(tag, constraints, self, identifier)
    }

    fn is_present(&self) -> bool {
        true
    }
}

impl Encode for u16 {
    ghost use Rattle.std.specs.Prelude.{pos};
    ghost use Rattle.rasn_enc.specs.Errors.{FailsAtInteger};

    ghost errors = { λ tag c v rule e. FailsAtInteger c (pos v) rule e };

    #[inline(always)]
    fn encode_with_tag_and_constraints(
        &self,
        encoder: &mut Encoder,
        tag: Tag,
        constraints: &Constraints,
        identifier: Identifier,
    ) -> Result<(), EncodeError> {
        encoder.encode_integer::<u16>(tag, constraints, self, identifier)
    }

    fn is_present(&self) -> bool {
        true
    }
}

impl Encode for u32 {
    ghost use Rattle.std.specs.Prelude.{pos};
    ghost use Rattle.rasn_enc.specs.Errors.{FailsAtInteger};

    ghost errors = { λ tag c v rule e. FailsAtInteger c (pos v) rule e };

    #[inline(always)]
    fn encode_with_tag_and_constraints(
        &self,
        encoder: &mut Encoder,
        tag: Tag,
        constraints: &Constraints,
        identifier: Identifier,
    ) -> Result<(), EncodeError> {
        encoder.encode_integer::<u32>(tag, constraints, self, identifier)
    }

    fn is_present(&self) -> bool {
        true
    }
}

impl Encode for u64 {
    ghost use Rattle.std.specs.Prelude.{pos};
    ghost use Rattle.rasn_enc.specs.Errors.{FailsAtInteger};

    ghost errors = { λ tag c v rule e. FailsAtInteger c (pos v) rule e };

    #[inline(always)]
    fn encode_with_tag_and_constraints(
        &self,
        encoder: &mut Encoder,
        tag: Tag,
        constraints: &Constraints,
        identifier: Identifier,
    ) -> Result<(), EncodeError> {
        encoder.encode_integer::<u64>(tag, constraints, self, identifier)
    }

    fn is_present(&self) -> bool {
        true
    }
}

impl Encode for u128 {
    ghost use Rattle.std.specs.Prelude.{pos};
    ghost use Rattle.rasn_enc.specs.Errors.{FailsAtInteger};

    ghost errors = { λ tag c v rule e. FailsAtInteger c (pos v) rule e };

    #[inline(always)]
    fn encode_with_tag_and_constraints(
        &self,
        encoder: &mut Encoder,
        tag: Tag,
        constraints: &Constraints,
        identifier: Identifier,
    ) -> Result<(), EncodeError> {
        encoder.encode_integer::<u128>(tag, constraints, self, identifier)
    }

    fn is_present(&self) -> bool {
        true
    }
}

impl Encode for usize {
    ghost use Rattle.std.specs.Prelude.{pos};
    ghost use Rattle.rasn_enc.specs.Errors.{FailsAtInteger};

    ghost errors = { λ tag c v rule e. FailsAtInteger c (pos v) rule e };

    #[inline(always)]
    fn encode_with_tag_and_constraints(
        &self,
        encoder: &mut Encoder,
        tag: Tag,
        constraints: &Constraints,
        identifier: Identifier,
    ) -> Result<(), EncodeError> {
        encoder.encode_integer::<usize>(tag, constraints, self, identifier)
    }

    fn is_present(&self) -> bool {
        true
    }
}

impl Encode for Integer {
    ghost use Rattle.rasn_enc.specs.Errors.{FailsAtInteger};

    ghost errors = { λ tag c v rule e. FailsAtInteger c v rule e };

    #[inline(always)]
    fn encode_with_tag_and_constraints(
        &self,
        encoder: &mut Encoder,
        tag: Tag,
        constraints: &Constraints,
        identifier: Identifier,
    ) -> Result<(), EncodeError> {
        encoder.encode_integer::<Integer>(tag, constraints, self, identifier)
    }

    fn is_present(&self) -> bool {
        true
    }
}
