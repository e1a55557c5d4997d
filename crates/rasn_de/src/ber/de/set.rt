//! SET (X.690 8.11).
ghost use Rattle.std.specs.Prelude.{Vec, ◌≡◌, IfOk, IfErr};
ghost use Rattle.std.specs.Global.{Global};
ghost use Rattle.rasn_de.specs.ValueErrors.{DecodesOr};
ghost use Rattle.rasn_de.specs.Beyond.{Held, BeyondElements, BeyondInside, BeyondMade};
ghost use Rattle.rasn_de.specs.Constructed.{sequence_header};
ghost use Rattle.rasn_de.specs.Set.{IsBelowLast, PeeksInOrder, DecodesComponents, DecodesSetContents, DecodesSetBy, DecodesSet, MakesByRules};
ghost use Rattle.rasn_types.specs.Truth.{IsWhether};

use crate::ber::de::Decoder;
use crate::ber::de::constructed::ConstructedHeader;
use crate::ber::de::parser::ParseError;
use crate::de::Decode;
use rasn_types::error::{DecodeError, DerDecodeErrorKind};
use rasn_types::types::{Constructed, Tag};

/// Returns whether a tag is less than the last one, if there is one (X.680 8.6).
fn is_below_last(tag: Tag, last: Option<Tag>) -> bool
    ensures { IsWhether result (IsBelowLast tag last) }
{
    match last {
        Some(last) => tag < last,
        None => false,
    }
}

impl<'input> Decoder<'input> {
    /// Returns, under DER, the next tag, which must not be less than the last one (X.690 10.3).
    /// Under the other rules nothing is examined, and `None` is returned.
    ///
    /// # Errors
    /// Only under DER: the errors of `peek_tag`; then `SetComponentsOutOfOrder`.
    pub fn peek_tag_in_order(&self, last: Option<Tag>) -> Result<Option<Tag>, DecodeError>
        ensures { PeeksInOrder last self.now result }
    {
        if !self.is_strict() {
            return Ok(None);
        }
        let tag = self.peek_tag()?;
        if is_below_last(tag, last) {
            return Err(self.error(ParseError::Der(DerDecodeErrorKind::SetComponentsOutOfOrder)));
        }
        Ok(Some(tag))
    }

    /// Reads components up to the end of the contents. Under DER their tags must be in ascending
    /// order (X.690 10.3).
    fn components<FIELDS: Decode>(&mut self) -> Result<Vec<FIELDS>, DecodeError>
        ensures exact { DecodesComponents (DecodesOr FIELDS.shape FIELDS.tree (FIELDS.errors FIELDS.TAG FIELDS.CONSTRAINTS)) (λ v. v.items) self.old result self.new }
        ensures beyond { IfOk result (λ v. BeyondElements (Held FIELDS.shape FIELDS.tree (FIELDS.beyond FIELDS.TAG)) self.old v.items self.new) }
        ensures rules { IfErr result (λ e. e.codec ≡ self.old.rule) }
    {
        let mut values = Vec::new(self.alloc);
        let mut last = None;
        while !self.has_ended() {
            last = self.peek_tag_in_order(last)?;
            self.push_element(&mut values)?;
        }
        Ok(values)
    }

    /// Reads a SET (X.690 8.11). Its components are read in any order, each as one `FIELDS`, up to
    /// the end of the contents, and `f` makes the value from them. Under DER the tag of a component
    /// must not be less than that of the one before it (X.690 10.3). The first closure isn't
    /// called.
    ///
    /// # Errors
    /// - `ExceedsMaxParseDepth`, which is checked before the header, and framing errors: nothing is
    ///   consumed.
    /// - `InvalidConstructedIdentifier`: the value is consumed.
    /// - The error of a component, `UnexpectedExtraData` for a component that consumes nothing,
    ///   under DER framing errors of the next identifier and `SetComponentsOutOfOrder`, both before
    ///   the component is read, `OutOfMemory`, and the error of `f`: the header and the contents
    ///   are consumed, or only the header if the length is indefinite.
    /// - Missing end-of-contents octets (`Incomplete`): what was read inside is consumed too.
    pub fn decode_set<
        const RL: usize,
        const EL: usize,
        FIELDS: Decode,
        SET: Constructed<RL, EL>,
        D: Fn(&mut Decoder<'_>, usize, Tag) -> Result<FIELDS, DecodeError>,
        F: FnOnce(Vec<FIELDS>) -> Result<SET, DecodeError>,
    >(&mut self, tag: Tag, _decode: D, f: F) -> Result<SET, DecodeError>
        requires callable { F.IsAlwaysCallable f }
        ensures exact { DecodesSetBy (DecodesOr FIELDS.shape FIELDS.tree (FIELDS.errors FIELDS.TAG FIELDS.CONSTRAINTS)) (F.post f) tag self.old result self.new }
        ensures reads { DecodesSet FIELDS.shape FIELDS.tree (F.post f) SET.parts SET.tree tag self.old result self.new }
        ensures beyond { IfOk result (λ v. BeyondInside (BeyondMade (Held FIELDS.shape FIELDS.tree (FIELDS.beyond FIELDS.TAG)) (F.post f)) (sequence_header tag) self.old v) }
        ensures rules { MakesByRules self.old.rule (F.post f) → IfErr result (λ e. e.codec ≡ self.old.rule) }
    {
        self.inside(
            ConstructedHeader::sequence(tag),
            |inner| -> Result<SET, DecodeError>
                requires { F.IsAlwaysCallable f }
                ensures exact { DecodesSetContents (DecodesComponents (DecodesOr FIELDS.shape FIELDS.tree (FIELDS.errors FIELDS.TAG FIELDS.CONSTRAINTS)) (λ (v : Vec FIELDS Global). v.items)) (F.post f) inner.old result inner.new }
                ensures rules { MakesByRules inner.old.rule (F.post f) → IfErr result (λ e. e.codec ≡ inner.old.rule) }
                ensures beyond { IfOk result (λ v. BeyondMade (Held FIELDS.shape FIELDS.tree (FIELDS.beyond FIELDS.TAG)) (F.post f) inner.old v inner.new) }
            {
                let fields = inner.components::<FIELDS>()?;
                f(fields)
            },
        )
    }
}
