//! Open types, and values that are skipped.
ghost use Rattle.std.specs.Prelude.{◌+◌, ◌*◌, ◌≤◌, length, IfOk, IfErr, ◌≡◌};
ghost use Rattle.rasn_types.specs.Errors.{IsOutOfMemory};
ghost use Rattle.rasn_types.specs.Shapes.{any, looked_for, numbers};
ghost use Rattle.rasn_de.specs.Decodes.{Decodes};
ghost use Rattle.rasn_de.specs.Any.{DecodesOpenType, BorrowsOpenType, SkipsValue};

use crate::ber::de::Decoder;
use crate::ber::de::octet_string::owned;
use crate::ber::de::parser::ParseError;
use crate::ber::de::parser::skipping::{read_open, skip_encoding};
use crate::de::Decode;
use rasn_types::error::DecodeError;
use rasn_types::types::{Any, Constraints, Tag};
use std::borrow::CowSlice;

impl<'input> Decoder<'input> {
    /// Reads a value of an open type as its octets (X.681 14). With a tag, they are the contents of
    /// one value of this tag, in either form of length and without end-of-contents octets. With
    /// `Tag::EOC`, they are one complete encoding, including end-of-contents octets. The octets may
    /// be nested to any depth, and their identifiers and lengths may be encoded as under BER,
    /// except that DER never allows the indefinite form. What is inside a definite length isn't
    /// examined.
    ///
    /// # Errors
    /// Nothing is consumed by an error: a framing error of the value or, inside an indefinite
    /// length, of the encodings there; or `OutOfMemory` for the copy of the octets.
    pub fn decode_any(&mut self, tag: Tag) -> Result<Any, DecodeError>
        ensures reads { Decodes (any (looked_for tag)) numbers self.old result self.new }
        ensures exact { DecodesOpenType tag self.old result self.new }
        ensures rules { IfErr result (λ e. e.codec ≡ self.old.rule) }
    {
        match read_open(self.rules, tag, self.rest) {
            Ok((octets, rest)) => match owned(self.alloc, CowSlice::Borrowed(octets)) {
                Ok(octets) => {
                    self.advance(rest);
                    Ok(Any::new(octets))
                }
                Err(_) => Err(self.error(ParseError::OutOfMemory)),
            },
            Err(fault) => Err(self.error(fault)),
        }
    }

    /// Reads a value of an open type as `decode_any` does, but borrows its octets from the input.
    ///
    /// # Errors
    /// As `decode_any`, except `OutOfMemory`, since nothing is allocated.
    #[inline(always)]
    pub fn decode_open(&mut self, tag: Tag) -> Result<&'input [u8], DecodeError>
        ensures reads { Decodes (any (looked_for tag)) (λ o. numbers o.now) self.old result self.new }
        ensures exact { BorrowsOpenType tag self.old result self.new }
        ensures memory { IfErr result (λ e. IsOutOfMemory e.kind → ⊥) }
        ensures rules { IfErr result (λ e. e.codec ≡ self.old.rule) }
    {
        match read_open(self.rules, tag, self.rest) {
            Ok((octets, rest)) => {
                self.advance(rest);
                Ok(octets)
            }
            Err(fault) => Err(self.error(fault)),
        }
    }

    /// Skips one complete encoding, nested to any depth (X.690 8.1.1.1), in constant memory.
    /// Returns the number of steps, which is at most half the number of octets skipped. A value of
    /// definite length takes no steps. Within a value of indefinite length, there is one step for
    /// each header, with its contents if their length is definite, and one for each pair of
    /// end-of-contents octets, including the value's own.
    ///
    /// # Errors
    /// Nothing is consumed by an error: a framing error of the value or, inside an indefinite
    /// length, of the encodings there.
    pub fn skip_value(&mut self) -> Result<usize, DecodeError>
        ensures exact { SkipsValue self.old result self.new }
        ensures half { IfOk result (λ turns. 2 * turns + length self.new.rest ≤ length self.old.rest) }
        ensures memory { IfErr result (λ e. IsOutOfMemory e.kind → ⊥) }
    {
        match skip_encoding(self.rules, self.rest) {
            Ok((turns, rest)) => {
                self.advance(rest);
                Ok(turns)
            }
            Err(fault) => Err(self.error(fault)),
        }
    }
}

impl Decode for Any {
    ghost use Rattle.rasn_de.specs.Any.{DecodesOpenType};
    ghost use Rattle.rasn_de.specs.ValueErrors.{errors_of};

    ghost errors = { λ tag c. errors_of (DecodesOpenType tag) };

    #[tactic(auto, unfolding(rasn_types::specs::Grammar::Reads))]
    fn decode_with_tag_and_constraints(
        decoder: &mut Decoder<'_>,
        tag: Tag,
        _constraints: &Constraints,
    ) -> Result<Any, DecodeError> {
        decoder.decode_any(tag)
    }
}
