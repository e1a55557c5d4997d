//! OCTET STRING (X.690 8.7).
ghost use Rattle.std.specs.Prelude.{◌≡◌, [], IfOk, IfErr, IsOk};
ghost use Rattle.std.specs.Cow.{cow_slice_items, IsOwnedSlice};
ghost use Rattle.rasn_types.specs.Errors.{IsOutOfMemory};
ghost use Rattle.rasn_types.specs.Framing.{AreOctets};
ghost use Rattle.rasn_types.specs.Shapes.{leaf, octet_string};
ghost use Rattle.rasn_de.specs.Decodes.{Decodes};
ghost use Rattle.rasn_de.specs.OctetString.{DecodesOctets, IsPrimitive, cow_tree};
ghost use Rattle.rasn_de.specs.CharacterString.{BySize, DecodesOctetString};
ghost use Rattle.rasn_de.specs.Checks.{Checks, ChecksText};

use crate::ber::de::parser::headers::{Expected, Spelling, read_value};
use crate::ber::de::parser::octet_count::OctetCount;
use crate::ber::de::parser::segments::{segment_of, string_contents};
use crate::ber::de::{Decoder, check_size};
use crate::de::Decode;
use rasn_types::error::{DecodeError, DecodeErrorKind};
use rasn_types::types::{Constraints, OctetString, Tag};
use std::alloc::{AllocError, Global};
use std::borrow::CowSlice;

/// Returns the octets as a vector. Borrowed octets are copied at once, whereas `into_owned` copies
/// them one by one. No octets take no memory.
pub(crate) fn owned(alloc: Global, octets: CowSlice<'_, u8>) -> Result<Vec<u8>, AllocError>
    ensures items { IfOk result (λ v. v.items ≡ cow_slice_items octets.entry) }
    ensures succeeds { IsOwnedSlice octets.entry → IsOk result }
    ensures empty { cow_slice_items octets.entry ≡ [] → IsOk result }
{
    match octets {
        CowSlice::Borrowed([]) => Ok(Vec::new(alloc)),
        CowSlice::Borrowed(octets) => Vec::from_slice(alloc, octets),
        CowSlice::Owned(octets) => Ok(octets),
    }
}

impl<'input> Decoder<'input> {
    /// Reads the octets of the next value as a string. They are borrowed from a primitive value,
    /// and collected from segments otherwise. An error consumes nothing.
    #[inline(always)]
    pub(super) fn octets(&mut self, tag: Tag) -> Result<CowSlice<'input, u8>, DecodeError>
        ensures exact { DecodesOctets tag self.old result self.new }
        ensures octets { AreOctets self.old.rest }
    {
        let (value, rest) = match read_value(
            Spelling::of_rule(self.rules),
            Expected::Tagged(tag),
            self.rest,
        ) {
            Ok(found) => found,
            Err(fault) => return Err(self.error(fault)),
        };
        if let Some(segment) = segment_of(value) {
            self.advance(rest);
            return Ok(CowSlice::Borrowed(segment));
        }
        let mut gathered = Vec::new(self.alloc);
        let inner = Tag::OCTET_STRING;
        match string_contents(self.rules, inner, self.depth, value, rest, &mut gathered) {
            Ok(rest) => {
                self.advance(rest);
                Ok(CowSlice::Owned(gathered))
            }
            Err(fault) => Err(self.error(fault)),
        }
    }

    /// Reads an OCTET STRING whose size in octets meets the constraint (X.690 8.7). The octets are
    /// borrowed exactly if the encoding is primitive.
    ///
    /// # Errors
    /// With nothing consumed: framing errors, errors of a segment (X.690 8.7.3), and `OutOfMemory`
    /// while segments are collected. With the value consumed: `SizeConstraintNotSatisfied`.
    #[inline(always)]
    pub fn decode_octet_string(
        &mut self,
        tag: Tag,
        constraints: &Constraints,
    ) -> Result<CowSlice<'input, u8>, DecodeError>
        ensures reads { Decodes (leaf octet_string tag constraints.now) cow_tree self.old result self.new }
        ensures exact { DecodesOctetString tag constraints.now self.old result self.new }
        ensures memory { IsPrimitive self.old.rule tag self.old.rest → IfErr result (λ e. IsOutOfMemory e.kind → ⊥) }
        ensures rules { IfErr result (λ e. e.codec ≡ self.old.rule) }
    {
        let octets = self.octets(tag)?;
        match check_size(constraints, octets.len()) {
            Ok(()) => Ok(octets),
            Err(fault) => Err(self.error(fault)),
        }
    }

    /// Checks and consumes an OCTET STRING whose size in octets meets the constraint, without
    /// building a value. Nothing is allocated.
    ///
    /// # Errors
    /// As `decode_octet_string`, except `OutOfMemory`.
    #[inline(always)]
    pub fn check_octet_string(
        &mut self,
        tag: Tag,
        constraints: &Constraints,
    ) -> Result<(), DecodeError>
        ensures reads { Checks (leaf octet_string tag constraints.now) self.old result self.new }
        ensures exact { ChecksText (BySize constraints.now.size) tag self.old result self.new }
        ensures memory { IfErr result (λ e. IsOutOfMemory e.kind → ⊥) }
        ensures rules { IfErr result (λ e. e.codec ≡ self.old.rule) }
    {
        let mut count = OctetCount { len: 0 };
        self.see_segments(Tag::OCTET_STRING, tag, &mut count)?;
        match check_size(constraints, count.len) {
            Ok(()) => Ok(()),
            Err(fault) => Err(self.error(fault)),
        }
    }
}

impl Decode for OctetString {
    ghost use Rattle.std.specs.Prelude.{ℕ, List};
    ghost use Rattle.rasn_de.specs.CharacterString.{BySize, DecodesString};
    ghost use Rattle.rasn_de.specs.ValueErrors.{errors_of};

    ghost errors = { λ tag c. errors_of (DecodesString (λ (l : List ℕ). l) (BySize c.size) tag) };

    #[tactic(auto, unfolding(rasn_types::specs::Grammar::Reads))]
    #[inline(always)]
    fn decode_with_tag_and_constraints(
        decoder: &mut Decoder<'_>,
        tag: Tag,
        constraints: &Constraints,
    ) -> Result<OctetString, DecodeError> {
        let octets = decoder.decode_octet_string(tag, constraints)?;
        match owned(decoder.alloc(), octets) {
            Ok(octets) => Ok(OctetString::from_vec(octets)),
            Err(_) => Err(DecodeError {
                kind: DecodeErrorKind::OutOfMemory,
                codec: decoder.codec(),
            }),
        }
    }
}
