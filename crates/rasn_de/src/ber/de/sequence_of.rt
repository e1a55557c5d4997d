//! SEQUENCE OF (X.690 8.10).
ghost use Rattle.std.specs.Prelude.{◌≡◌, IfOk, IfErr, OnOk};
ghost use Rattle.rasn_de.specs.ValueErrors.{DecodesOr};
ghost use Rattle.rasn_de.specs.Beyond.{Held, BeyondElement, BeyondElements, BeyondInside};
ghost use Rattle.rasn_de.specs.Constructed.{list_header};
ghost use Rattle.rasn_de.specs.SequenceOf.{DecodesElement, DecodesElements, DecodesSequenceOfBy, DecodesSequenceOf};

use crate::ber::de::constructed::ConstructedHeader;
use crate::ber::de::parser::ParseError;
use crate::ber::de::{Decoder, check_size};
use crate::de::Decode;
use rasn_types::error::DecodeError;
use rasn_types::types::{Constraints, Tag};

impl<'input> Decoder<'input> {
    /// Reads one more element, which must consume octets, and appends it to the others.
    #[inline(always)]
    pub(super) fn push_element<D: Decode>(&mut self, values: &mut Vec<D>) -> Result<(), DecodeError>
        ensures exact { DecodesElement (DecodesOr D.shape D.tree (D.errors D.TAG D.CONSTRAINTS)) self.old values.old.items result self.new values.new.items }
        ensures beyond { OnOk result (BeyondElement (Held D.shape D.tree (D.beyond D.TAG)) self.old values.old.items values.new.items self.new) }
        ensures rules { IfErr result (λ e. e.codec ≡ self.old.rule) }
    {
        let left = self.rest.len();
        let value = D::decode(self)?;
        if self.rest.len() == left {
            return Err(self.error(ParseError::UnexpectedExtraData { length: left }));
        }
        match values.push(value) {
            Ok(()) => Ok(()),
            Err(_) => Err(self.error(ParseError::OutOfMemory)),
        }
    }

    /// Reads elements up to the end of the contents.
    #[inline(always)]
    fn elements<D: Decode>(&mut self) -> Result<Vec<D>, DecodeError>
        ensures exact { DecodesElements (DecodesOr D.shape D.tree (D.errors D.TAG D.CONSTRAINTS)) (λ v. v.items) self.old result self.new }
        ensures beyond { IfOk result (λ v. BeyondElements (Held D.shape D.tree (D.beyond D.TAG)) self.old v.items self.new) }
        ensures rules { IfErr result (λ e. e.codec ≡ self.old.rule) }
    {
        let mut values = Vec::new(self.alloc);
        while !self.has_ended() {
            self.push_element(&mut values)?;
        }
        Ok(values)
    }

    /// Reads a SEQUENCE OF whose number of elements meets the size constraint (X.690 8.10). It
    /// takes two levels of depth.
    ///
    /// # Errors
    /// - `ExceedsMaxParseDepth`, which is checked before the header, and framing errors: nothing is
    ///   consumed.
    /// - `InvalidConstructedIdentifier` and `SizeConstraintNotSatisfied`: the value is consumed.
    /// - The error of an element, `UnexpectedExtraData` for an element that consumes nothing, and
    ///   `OutOfMemory`: the header and the contents are consumed, or only the header if the length
    ///   is indefinite.
    /// - Missing end-of-contents octets (`Incomplete`): what was read inside is consumed too.
    #[inline(always)]
    pub fn decode_sequence_of<D: Decode>(
        &mut self,
        tag: Tag,
        constraints: &Constraints,
    ) -> Result<Vec<D>, DecodeError>
        ensures exact { DecodesSequenceOfBy (DecodesOr D.shape D.tree (D.errors D.TAG D.CONSTRAINTS)) tag constraints.now self.old result self.new }
        ensures reads { DecodesSequenceOf D.shape D.tree tag constraints.now self.old result self.new }
        ensures beyond { IfOk result (λ v. BeyondInside (BeyondElements (Held D.shape D.tree (D.beyond D.TAG))) (list_header tag) self.old v.items) }
        ensures rules { IfErr result (λ e. e.codec ≡ self.old.rule) }
    {
        let values = self.inside(
            ConstructedHeader::list(tag),
            |inner| -> Result<Vec<D>, DecodeError>
                ensures exact { DecodesElements (DecodesOr D.shape D.tree (D.errors D.TAG D.CONSTRAINTS)) (λ v. v.items) inner.old result inner.new }
                ensures rules { IfErr result (λ e. e.codec ≡ inner.old.rule) }
                ensures beyond { IfOk result (λ v. BeyondElements (Held D.shape D.tree (D.beyond D.TAG)) inner.old v.items inner.new) }
            { inner.elements() },
        )?;
        match check_size(constraints, values.len()) {
            Ok(()) => Ok(values),
            Err(fault) => Err(self.error(fault)),
        }
    }
}

impl<T: Decode> Decode for Vec<T> {
    ghost use Rattle.std.specs.Prelude.{IfOk};
    ghost use Rattle.rasn_de.specs.Beyond.{Held, BeyondElements, BeyondInside};
    ghost use Rattle.rasn_de.specs.Constructed.{list_header};
    ghost use Rattle.rasn_de.specs.SequenceOf.{DecodesSequenceOfBy};
    ghost use Rattle.rasn_de.specs.ValueErrors.{errors_of, DecodesOr};

    ghost beyond = { λ tag old result new. IfOk result (λ v. BeyondInside (BeyondElements (Held T.shape T.tree (T.beyond T.TAG))) (list_header tag) old v.items) };

    ghost errors = { λ tag c. errors_of (DecodesSequenceOfBy (DecodesOr T.shape T.tree (T.errors T.TAG T.CONSTRAINTS)) tag c) };

    #[inline(always)]
    fn decode_with_tag_and_constraints(
        decoder: &mut Decoder<'_>,
        tag: Tag,
        constraints: &Constraints,
    ) -> Result<Vec<T>, DecodeError> {
        decoder.decode_sequence_of::<T>(tag, constraints)
    }
}
