//! SET OF (X.690 8.12).
ghost use Rattle.std.specs.Prelude.{◌≡◌, ◌++◌, IfOk, IfErr};
ghost use Rattle.rasn_types.specs.Order.{IsLess};
ghost use Rattle.rasn_de.specs.ValueErrors.{DecodesOr};
ghost use Rattle.rasn_de.specs.Beyond.{Held, BeyondElements, BeyondInside};
ghost use Rattle.rasn_de.specs.Constructed.{list_header};
ghost use Rattle.rasn_de.specs.SequenceOf.{DecodesElementsInOrder, DecodesSetOfBy, DecodesSetOf};
ghost use Rattle.rasn_de.specs.State.{IsEnd};
ghost use Rattle.rasn_types.specs.Truth.{IsWhether};

use crate::ber::de::constructed::ConstructedHeader;
use crate::ber::de::parser::ParseError;
use crate::ber::de::{Decoder, check_size};
use crate::de::Decode;
use rasn_types::error::{DecodeError, DerDecodeErrorKind};
use rasn_types::types::{Constraints, SetOf, Tag};

/// Returns whether `octets` are less than `others`. Octets are less than any longer ones that begin
/// with them (X.690 11.6).
#[tactic(auto, using(crate::proofs::Constructed::Ascending::less_told))]
fn is_less(octets: &[u8], others: &[u8]) -> bool
    ensures { IsWhether result (IsLess octets.now others.now) }
{
    octets < others
}

/// Returns the octets of `start` before `rest`.
#[tactic(auto, using(crate::proofs::Constructed::Ascending::cut_before))]
fn octets_before<'input>(start: &'input [u8], rest: &[u8]) -> &'input [u8]
    requires { IsEnd start.now rest.now }
    ensures { start.now ≡ result.now ++ rest.now }
{
    &start[..start.len() - rest.len()]
}

impl<'input> Decoder<'input> {
    /// Reads elements up to the end of the contents. Under DER their octets must be in ascending
    /// order (X.690 11.6).
    fn elements_in_order<D: Decode>(&mut self) -> Result<SetOf<D>, DecodeError>
        ensures exact { DecodesElementsInOrder (DecodesOr D.shape D.tree (D.errors D.TAG D.CONSTRAINTS)) (λ v. v) self.old result self.new }
        ensures beyond { IfOk result (λ v. BeyondElements (Held D.shape D.tree (D.beyond D.TAG)) self.old v self.new) }
        ensures rules { IfErr result (λ e. e.codec ≡ self.old.rule) }
    {
        let mut values = Vec::new(self.alloc);
        let mut last: &[u8] = &[];
        while !self.has_ended() {
            let start = self.rest;
            self.push_element(&mut values)?;
            let octets = octets_before(start, self.rest);
            if self.is_strict() && is_less(octets, last) {
                return Err(self.error(ParseError::Der(DerDecodeErrorKind::SetOfOutOfOrder)));
            }
            last = octets;
        }
        Ok(SetOf::from_vec(values))
    }

    /// Reads a SET OF whose number of elements meets the size constraint (X.690 8.12). Under DER
    /// the octets of an element must not be less than those of the one before it (X.690 11.6). It
    /// takes two levels of depth.
    ///
    /// # Errors
    /// As `decode_sequence_of`. Under DER also `SetOfOutOfOrder`, which is reported after the
    /// element whose octets are less and before the next one is read, and consumes the header and
    /// the contents.
    pub fn decode_set_of<D: Decode + Eq>(
        &mut self,
        tag: Tag,
        constraints: &Constraints,
    ) -> Result<SetOf<D>, DecodeError>
        ensures exact { DecodesSetOfBy (DecodesOr D.shape D.tree (D.errors D.TAG D.CONSTRAINTS)) tag constraints.now self.old result self.new }
        ensures reads { DecodesSetOf D.shape D.tree tag constraints.now self.old result self.new }
        ensures beyond { IfOk result (λ v. BeyondInside (BeyondElements (Held D.shape D.tree (D.beyond D.TAG))) (list_header tag) self.old v) }
        ensures rules { IfErr result (λ e. e.codec ≡ self.old.rule) }
    {
        let values = self.inside(
            ConstructedHeader::list(tag),
            |inner| -> Result<SetOf<D>, DecodeError>
                ensures exact { DecodesElementsInOrder (DecodesOr D.shape D.tree (D.errors D.TAG D.CONSTRAINTS)) (λ v. v) inner.old result inner.new }
                ensures rules { IfErr result (λ e. e.codec ≡ inner.old.rule) }
                ensures beyond { IfOk result (λ v. BeyondElements (Held D.shape D.tree (D.beyond D.TAG)) inner.old v inner.new) }
            { inner.elements_in_order() },
        )?;
        match check_size(constraints, values.len()) {
            Ok(()) => Ok(values),
            Err(fault) => Err(self.error(fault)),
        }
    }
}

impl<T: Decode + Eq> Decode for SetOf<T> {
    ghost use Rattle.std.specs.Prelude.{IfOk};
    ghost use Rattle.rasn_de.specs.Beyond.{Held, BeyondElements, BeyondInside};
    ghost use Rattle.rasn_de.specs.Constructed.{list_header};
    ghost use Rattle.rasn_de.specs.SequenceOf.{DecodesSetOfBy};
    ghost use Rattle.rasn_de.specs.ValueErrors.{errors_of, DecodesOr};

    ghost beyond = { λ tag old result new. IfOk result (λ v. BeyondInside (BeyondElements (Held T.shape T.tree (T.beyond T.TAG))) (list_header tag) old v) };

    ghost errors = { λ tag c. errors_of (DecodesSetOfBy (DecodesOr T.shape T.tree (T.errors T.TAG T.CONSTRAINTS)) tag c) };

    fn decode_with_tag_and_constraints(
        decoder: &mut Decoder<'_>,
        tag: Tag,
        constraints: &Constraints,
    ) -> Result<SetOf<T>, DecodeError> {
        decoder.decode_set_of::<T>(tag, constraints)
    }
}
