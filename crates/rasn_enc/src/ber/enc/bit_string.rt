//! Writing BIT STRING (X.690 8.6).
ghost use Rattle.std.specs.Prelude.{◌≡◌, ◌<◌, length, IfErr, OnOk, OnErr};
ghost use Rattle.rasn_types.specs.Bytes.{WrittenBits};
ghost use Rattle.rasn_types.specs.Tags.{in_universal};
ghost use Rattle.rasn_types.specs.Shapes.{leaf, bit_string, bits};
ghost use Rattle.rasn_enc.specs.View.{LeavesOthers};
ghost use Rattle.rasn_enc.specs.Primitive.{Appends, IsAllocError};
ghost use Rattle.rasn_enc.specs.Encoding.{AppendsEncoding};
ghost use Rattle.rasn_enc.specs.Errors.{FailsAtString};
ghost use Rattle.rasn_enc.specs.Segments.{IsSegment, AppendsSegments, AppendsSegmented};

use crate::ber::enc::Encoder;
use crate::ber::enc::writer::contents::Contents;
use crate::enc::Encode;
use rasn_types::ber::rules::MAX_SEGMENT_LENGTH;
use rasn_types::error::EncodeError;
use rasn_types::types::{BitStr, BitString, Constraints, Identifier, Tag};
use std::alloc::AllocError;

/// The number of bits in a segment under the canonical rules: those of its contents octets, except
/// the count of unused bits (X.690 8.6.2, 9.2).
const SEGMENT_BITS: usize = 8 * (MAX_SEGMENT_LENGTH - 1);

/// The contents octets of bits in one piece: the count of unused bits, then the bits (X.690 8.6.2).
impl Contents for BitStr<'_> {
    ghost IsWritten = { λ value contents. WrittenBits value contents };

    fn count(&self) -> usize {
        1 + self.len().div_ceil(8)
    }

    fn append(&self, octets: &mut Vec<u8>) -> Result<(), AllocError> {
        octets.push(self.unused())?;
        self.append_to(octets)
    }
}

impl Encoder {
    /// Writes a BIT STRING (X.690 8.6). Unused bits are zero. The canonical rules write more than
    /// 1000 contents octets in segments (9.2).
    ///
    /// # Errors
    /// `SizeConstraintNotSatisfied` if the number of bits is out of bounds, otherwise only
    /// `OutOfMemory`.
    pub fn encode_bit_string(
        &mut self,
        tag: Tag,
        constraints: &Constraints,
        value: &BitStr<'_>,
        _identifier: Identifier,
    ) -> Result<(), EncodeError>
        ensures ok { OnOk result (AppendsEncoding (leaf bit_string tag constraints.now) (bits value.now) self.old self.new) }
        ensures err { OnErr result (self.new ≡ self.old) }
        ensures fails { IfErr result (FailsAtString constraints.now (length value.now) self.old.rule) }
        ensures rules { IfErr result (λ e. e.codec ≡ self.old.rule) }
    {
        self.check_size(constraints, value.len())?;
        if self.is_cut(value.len(), SEGMENT_BITS) {
            return self.append_bit_segments(tag, value);
        }
        self.append_bits(tag, value)
    }

    /// Appends bits to the last list, in one piece.
    fn append_bits(&mut self, tag: Tag, value: &BitStr<'_>) -> Result<(), EncodeError>
        ensures ok { OnOk result (Appends (IsSegment WrittenBits tag value.now) tag self.old self.new) }
        ensures err { OnErr result (self.new ≡ self.old) }
        ensures memory_alone { IfErr result (IsAllocError self.old.rule) }
    {
        self.leaf(tag, value)
    }

    /// Writes bits in segments, as one constructed value.
    fn append_bit_segments(&mut self, tag: Tag, value: &BitStr<'_>) -> Result<(), EncodeError>
        requires { SEGMENT_BITS < length value.now }
        ensures ok { OnOk result (AppendsSegmented WrittenBits SEGMENT_BITS (in_universal 3) tag value.now self.old self.new) }
        ensures err { OnErr result (self.new ≡ self.old) }
        ensures memory_alone { IfErr result (IsAllocError self.old.rule) }
    {
        self.open(false)?;
        let outcome = self.write_bit_segments(value);
        self.close(tag, outcome)
    }

    fn write_bit_segments(&mut self, value: &BitStr<'_>) -> Result<(), EncodeError>
        requires { 0 < length value.now }
        ensures keeps { LeavesOthers self.old self.new }
        ensures ok { OnOk result (AppendsSegments WrittenBits SEGMENT_BITS (in_universal 3) value.now self.old self.new) }
        ensures memory_alone { IfErr result (IsAllocError self.old.rule) }
    {
        let (_, mut rest) = value.split_at(0);
        while rest.len() > SEGMENT_BITS {
            let (segment, tail) = rest.split_at(SEGMENT_BITS);
            self.append_bits(Tag::BIT_STRING, &segment)?;
            rest = tail;
        }
        self.append_bits(Tag::BIT_STRING, &rest)
    }
}

impl Encode for BitString {
    ghost use Rattle.std.specs.Prelude.{length};
    ghost use Rattle.rasn_enc.specs.Errors.{FailsAtString};

    ghost errors = { λ tag c v rule e. FailsAtString c (length v) rule e };

    fn encode_with_tag_and_constraints(
        &self,
        encoder: &mut Encoder,
        tag: Tag,
        constraints: &Constraints,
        identifier: Identifier,
    ) -> Result<(), EncodeError> {
        encoder.encode_bit_string(tag, constraints, &self.as_bitstr(), identifier)
    }

    fn is_present(&self) -> bool {
        true
    }
}
