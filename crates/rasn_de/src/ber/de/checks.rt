//! Strings of which nothing is made (X.690 8.6.4, 8.7.3, 8.23).
ghost use Rattle.std.specs.Prelude.{◌<◌, ◌^◌, length, IfErr};
ghost use Rattle.rasn_types.specs.Errors.{IsOutOfMemory};
ghost use Rattle.rasn_types.specs.Framing.{AreOctets};
ghost use Rattle.rasn_de.specs.Checks.{SeesString, DecodesPrimitiveOctets};

use crate::ber::de::Decoder;
use crate::ber::de::parser::headers::{Expected, Spelling, read_value};
use crate::ber::de::parser::segments::{Segmented, segment_of, string_contents};
use rasn_types::error::DecodeError;
use rasn_types::types::Tag;

impl<'input> Decoder<'input> {
    /// Reads the next value as a string, and gives its segments, which have the tag `inner`, to
    /// `seen`. An error consumes nothing.
    #[inline(always)]
    pub(super) fn see_segments<T: Segmented>(
        &mut self,
        inner: Tag,
        tag: Tag,
        seen: &mut T,
    ) -> Result<(), DecodeError>
        ensures exact { SeesString T.segment inner tag (T.has_seen seen.old) (T.has_seen seen.new) self.old result self.new }
        ensures memory { IfErr result (λ e. IsOutOfMemory e.kind → T.allocates) }
        ensures octets { AreOctets self.old.rest }
        ensures bounded { length self.old.rest < 2 ^ 64 }
    {
        let (value, rest) = match read_value(
            Spelling::of_rule(self.rules),
            Expected::Tagged(tag),
            self.rest,
        ) {
            Ok(found) => found,
            Err(fault) => return Err(self.error(fault)),
        };
        if let Some(segment) = segment_of(value) {
            return match seen.append_segment(self.rules, segment) {
                Ok(()) => {
                    self.advance(rest);
                    Ok(())
                }
                Err(fault) => Err(self.error(fault)),
            };
        }
        match string_contents(self.rules, inner, self.depth, value, rest, seen) {
            Ok(rest) => {
                self.advance(rest);
                Ok(())
            }
            Err(fault) => Err(self.error(fault)),
        }
    }

    /// Reads the octets of the next value as a string, if it is primitive. A constructed one isn't
    /// consumed. An error consumes nothing.
    #[inline(always)]
    pub(super) fn primitive_octets(&mut self, tag: Tag) -> Result<Option<&'input [u8]>, DecodeError>
        ensures exact { DecodesPrimitiveOctets tag self.old result self.new }
        ensures octets { AreOctets self.old.rest }
    {
        let (value, rest) = match read_value(
            Spelling::of_rule(self.rules),
            Expected::Tagged(tag),
            self.rest,
        ) {
            Ok(found) => found,
            Err(fault) => return Err(self.error(fault)),
        };
        let Some(segment) = segment_of(value) else {
            return Ok(None);
        };
        self.advance(rest);
        Ok(Some(segment))
    }
}
