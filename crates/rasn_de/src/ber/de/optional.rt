//! Values that may be left out (X.680 25.5 to 25.8).
ghost use Rattle.std.specs.Prelude.{◌≡◌, IfOk, IfErr};
ghost use Rattle.rasn_types.specs.Shapes.{prefix, IsFirst, any_of};
ghost use Rattle.rasn_de.specs.Decodes.{Decodes};
ghost use Rattle.rasn_de.specs.Optional.{NextIs, NextTagIs, DecodesIfSought, DecodesIfPresent, DecodesIfPresentAs, DecodesOption, DecodesOptionAs, DecodesOptionalChoice};
ghost use Rattle.rasn_de.specs.Prefix.{DecodesPrefixBy};
ghost use Rattle.rasn_de.specs.ValueErrors.{DecodesOr};
ghost use Rattle.rasn_de.specs.Beyond.{got, BeyondOptional, BeyondPrefix};

use crate::ber::de::Decoder;
use crate::ber::de::parser::headers::short_tag;
use crate::de::Decode;
use rasn_types::error::DecodeError;
use rasn_types::types::{Constraints, FirstTags, Tag};

impl<'input> Decoder<'input> {
    /// Returns whether the next value has this tag; if the tag is `Tag::EOC`, whether a value
    /// follows.
    ///
    /// # Errors
    /// The errors of `peek_tag`, unless the contents end or the tag is `Tag::EOC`.
    #[inline(always)]
    pub fn next_tag_is(&self, tag: Tag) -> Result<bool, DecodeError>
        ensures { NextTagIs tag self.now result }
    {
        if self.has_ended() {
            return Ok(false);
        }
        if tag == Tag::EOC {
            return Ok(true);
        }
        match short_tag(self.rest) {
            Some(found) => Ok(found == tag),
            None => Ok(self.peek_tag()? == tag),
        }
    }

    /// Returns whether a value follows that begins with one of the first tags of the type.
    ///
    /// # Errors
    /// The errors of `peek_tag`, unless the contents end.
    pub fn next_is<D: FirstTags>(&self) -> Result<bool, DecodeError>
        ensures { NextIs (any_of (IsFirst D.shape)) self.now result }
    {
        Ok(!self.has_ended() && D::is_first_tag(self.peek_tag()?))
    }

    /// Reads a value, or returns `None` if the contents end or a tag other than the type's own
    /// follows. If the type has no tag of its own, `None` is returned only at the end of the
    /// contents.
    ///
    /// # Errors
    /// An error in the next identifier, which consumes nothing, or the error of the value.
    pub fn decode_optional<D: Decode>(&mut self) -> Result<Option<D>, DecodeError>
        ensures exact { DecodesIfPresent (DecodesOr D.shape D.tree (D.errors D.TAG D.CONSTRAINTS)) D.TAG self.old result self.new }
        ensures reads { DecodesOption D.TAG D.shape D.tree self.old result self.new }
        ensures beyond { IfOk result (λ v. BeyondOptional (got (D.beyond D.TAG)) self.old v self.new) }
        ensures rules { IfErr result (λ e. e.codec ≡ self.old.rule) }
    {
        self.decode_optional_with_tag_and_constraints(D::TAG, &D::CONSTRAINTS)
    }

    /// Reads a value with this tag, or returns `None` if the contents end or another tag follows.
    /// If the tag is `Tag::EOC`, `None` is returned only at the end of the contents.
    ///
    /// # Errors
    /// As `decode_optional`.
    pub fn decode_optional_with_tag<D: Decode>(
        &mut self,
        tag: Tag,
    ) -> Result<Option<D>, DecodeError>
        ensures exact { DecodesIfPresentAs tag D.CONSTRAINTS D.shape D.tree (D.errors tag D.CONSTRAINTS) self.old result self.new }
        ensures reads { DecodesOptionAs tag D.CONSTRAINTS D.shape D.tree self.old result self.new }
        ensures beyond { IfOk result (λ v. BeyondOptional (got (D.beyond tag)) self.old v self.new) }
        ensures rules { IfErr result (λ e. e.codec ≡ self.old.rule) }
    {
        self.decode_optional_with_tag_and_constraints(tag, &D::CONSTRAINTS)
    }

    /// Reads a value with these constraints, or returns `None` if the contents end or a tag other
    /// than the type's own follows.
    ///
    /// # Errors
    /// As `decode_optional`.
    pub fn decode_optional_with_constraints<D: Decode>(
        &mut self,
        constraints: &Constraints,
    ) -> Result<Option<D>, DecodeError>
        ensures exact { DecodesIfPresentAs D.TAG constraints.now D.shape D.tree (D.errors D.TAG constraints.now) self.old result self.new }
        ensures reads { DecodesOptionAs D.TAG constraints.now D.shape D.tree self.old result self.new }
        ensures beyond { IfOk result (λ v. BeyondOptional (got (D.beyond D.TAG)) self.old v self.new) }
        ensures rules { IfErr result (λ e. e.codec ≡ self.old.rule) }
    {
        self.decode_optional_with_tag_and_constraints(D::TAG, constraints)
    }

    /// Reads a value with this tag and these constraints, or returns `None` if the contents end or
    /// another tag follows. If the tag is `Tag::EOC`, `None` is returned only at the end of the
    /// contents.
    ///
    /// # Errors
    /// As `decode_optional`.
    pub fn decode_optional_with_tag_and_constraints<D: Decode>(
        &mut self,
        tag: Tag,
        constraints: &Constraints,
    ) -> Result<Option<D>, DecodeError>
        ensures exact { DecodesIfPresentAs tag constraints.now D.shape D.tree (D.errors tag constraints.now) self.old result self.new }
        ensures reads { DecodesOptionAs tag constraints.now D.shape D.tree self.old result self.new }
        ensures beyond { IfOk result (λ v. BeyondOptional (got (D.beyond tag)) self.old v self.new) }
        ensures rules { IfErr result (λ e. e.codec ≡ self.old.rule) }
    {
        if !self.next_tag_is(tag)? {
            return Ok(None);
        }
        let value = D::decode_with_tag_and_constraints(self, tag, constraints)?;
        Ok(Some(value))
    }

    /// Reads a value under an explicit tag, or returns `None` if the contents end or another tag
    /// follows.
    ///
    /// # Errors
    /// An error in the next identifier, which consumes nothing, or, if the explicit tag follows,
    /// the errors of `decode_explicit_prefix`.
    pub fn decode_optional_with_explicit_prefix<D: Decode>(
        &mut self,
        tag: Tag,
    ) -> Result<Option<D>, DecodeError>
        ensures exact { DecodesIfPresent (DecodesPrefixBy D.shape D.tree (D.errors D.TAG D.CONSTRAINTS) tag) tag self.old result self.new }
        ensures reads { DecodesOption tag (prefix tag D.shape) D.tree self.old result self.new }
        ensures beyond { IfOk result (λ v. BeyondOptional (BeyondPrefix (got (D.beyond D.TAG)) tag) self.old v self.new) }
        ensures rules { IfErr result (λ e. e.codec ≡ self.old.rule) }
    {
        if !self.next_tag_is(tag)? {
            return Ok(None);
        }
        let value = self.decode_explicit_prefix::<D>(tag)?;
        Ok(Some(value))
    }

    /// Reads a value of a CHOICE, or returns `None` if the contents end or a tag follows that is
    /// none of the first tags of the type (X.680 25.6, 29.3).
    ///
    /// # Errors
    /// An error in the next identifier, which consumes nothing, or the error of the value.
    pub fn decode_optional_choice<D: Decode + FirstTags>(
        &mut self,
    ) -> Result<Option<D>, DecodeError>
        ensures exact { DecodesIfSought (DecodesOr D.shape D.tree (D.errors D.TAG D.CONSTRAINTS)) (any_of (IsFirst D.shape)) self.old result self.new }
        ensures reads { DecodesOptionalChoice D.shape D.tree self.old result self.new }
        ensures beyond { IfOk result (λ v. BeyondOptional (got (D.beyond D.TAG)) self.old v self.new) }
        ensures rules { IfErr result (λ e. e.codec ≡ self.old.rule) }
    {
        if !self.next_is::<D>()? {
            return Ok(None);
        }
        let value = D::decode(self)?;
        Ok(Some(value))
    }
}

impl<T: Decode> Decode for Option<T> {
    ghost use Rattle.rasn_de.specs.Beyond.{got, BeyondOptional};
    ghost use Rattle.std.specs.Prelude.{IfOk};
    ghost use Rattle.rasn_de.specs.Optional.{DecodesIfPresentAs};
    ghost use Rattle.rasn_de.specs.ValueErrors.{errors_of};

    ghost beyond = { λ tag old result new. IfOk result (λ v. BeyondOptional (got (T.beyond tag)) old v new) };

    ghost errors = { λ tag c. errors_of (DecodesIfPresentAs tag c T.shape T.tree (T.errors tag c)) };

    fn decode_with_tag_and_constraints(
        decoder: &mut Decoder<'_>,
        tag: Tag,
        constraints: &Constraints,
    ) -> Result<Option<T>, DecodeError> {
        decoder.decode_optional_with_tag_and_constraints(tag, constraints)
    }
}
