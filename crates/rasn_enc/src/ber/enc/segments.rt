//! Writing strings of octets in one piece or in segments (X.690 8.7, 8.23, 9.2).
ghost use Rattle.std.specs.Prelude.{◌≡◌, ◌<◌, length, IfErr, OnOk, OnErr};
ghost use Rattle.rasn_types.specs.Bytes.{IsCer, WritesOctets};
ghost use Rattle.rasn_types.specs.Tags.{in_universal};
ghost use Rattle.rasn_types.specs.Truth.{IsWhether};
ghost use Rattle.rasn_enc.specs.View.{LeavesOthers};
ghost use Rattle.rasn_enc.specs.Primitive.{IsAllocError};
ghost use Rattle.rasn_enc.specs.Errors.{FailsAtString};
ghost use Rattle.rasn_enc.specs.Segments.{AppendsSegments, AppendsSegmented};
ghost use Rattle.rasn_enc.specs.CharacterString.{AppendsText};

use crate::ber::enc::Encoder;
use rasn_types::ber::rules::{EncodingRules, MAX_SEGMENT_LENGTH};
use rasn_types::error::EncodeError;
use rasn_types::types::{Constraints, Tag};

/// The number of contents octets in a segment under the canonical rules (X.690 9.2).
const SEGMENT: usize = MAX_SEGMENT_LENGTH;

impl Encoder {
    /// Writes the octets of a string of `size` characters, if that size is within bounds.
    #[inline(always)]
    pub(super) fn string(
        &mut self,
        tag: Tag,
        constraints: &Constraints,
        octets: &[u8],
        size: usize,
    ) -> Result<(), EncodeError>
        ensures ok { OnOk result (AppendsText tag constraints.now octets.now size self.old self.new) }
        ensures err { OnErr result (self.new ≡ self.old) }
        ensures fails { IfErr result (FailsAtString constraints.now size self.old.rule) }
    {
        self.check_size(constraints, size)?;
        if self.is_cut(octets.len(), SEGMENT) {
            return self.append_segments(tag, octets);
        }
        let contents = octets;
        self.leaf(tag, &contents)
    }

    /// Returns whether a string of `count` units is written in segments: under the canonical rules,
    /// if it has more than the `most` units that one segment holds (X.690 9.2).
    pub(super) fn is_cut(&self, count: usize, most: usize) -> bool
        ensures { IsWhether result (IsCer self.now.rule × (most < count)) }
    {
        EncodingRules::of_codec(self.codec()).is_cer() && count > most
    }

    /// Writes octets in segments, as one constructed value.
    fn append_segments(&mut self, tag: Tag, value: &[u8]) -> Result<(), EncodeError>
        requires { SEGMENT < length value.now }
        ensures ok { OnOk result (AppendsSegmented WritesOctets SEGMENT (in_universal 4) tag value.now self.old self.new) }
        ensures err { OnErr result (self.new ≡ self.old) }
        ensures memory_alone { IfErr result (IsAllocError self.old.rule) }
    {
        self.enclose(tag, false, |encoder: &mut Encoder| {
            encoder.write_segments(value)
        })
    }

    fn write_segments(&mut self, value: &[u8]) -> Result<(), EncodeError>
        requires { 0 < length value.now }
        ensures keeps { LeavesOthers self.old self.new }
        ensures ok { OnOk result (AppendsSegments WritesOctets SEGMENT (in_universal 4) value.now self.old self.new) }
        ensures memory_alone { IfErr result (IsAllocError self.old.rule) }
    {
        let mut rest = value;
        while rest.len() > SEGMENT {
            let (segment, tail) = rest.split_at(SEGMENT);
            self.leaf(Tag::OCTET_STRING, &segment)?;
            rest = tail;
        }
        self.leaf(Tag::OCTET_STRING, &rest)
    }
}
