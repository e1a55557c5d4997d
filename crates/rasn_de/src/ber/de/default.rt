//! Values that have a default if they are left out (X.680 25.8).
ghost use Rattle.std.specs.Prelude.{◌≡◌, IfOk, IfErr};
ghost use Rattle.rasn_types.specs.Shapes.{prefix, IsFirst, any_of};
ghost use Rattle.rasn_de.specs.Decodes.{Decodes};
ghost use Rattle.rasn_de.specs.Optional.{MakesValue, ReturnsUnlessDefault, DecodesSoughtOrDefault, DecodesOrDefault, DecodesOrDefaultAs, DecodesDefault, DecodesDefaultAs, DecodesDefaultChoice};
ghost use Rattle.rasn_de.specs.Beyond.{got, BeyondDefault, BeyondPrefix};
ghost use Rattle.rasn_de.specs.Prefix.{DecodesPrefixBy};
ghost use Rattle.rasn_de.specs.ValueErrors.{DecodesOr};

use crate::ber::de::Decoder;
use crate::ber::de::parser::ParseError;
use crate::de::Decode;
use rasn_types::error::{DecodeError, DerDecodeErrorKind};
use rasn_types::types::{Constraints, FirstTags, LawfulEq, Tag};
use std::alloc::AllocError;

impl<'input> Decoder<'input> {
    /// Reads a value, or returns its default if the contents end or a tag other than the type's own
    /// follows. If the type has no tag of its own, the default is returned only at the end of the
    /// contents.
    ///
    /// # Errors
    /// An error in the next identifier, which consumes nothing; the error of the value; or
    /// `OutOfMemory` if an allocation for the default fails. Under DER the default is also made if
    /// a value is present, and a value that equals it is refused with `DefaultValuePresent`
    /// (X.690 11.5). This error, and `OutOfMemory` for the default at this point, consume the
    /// value.
    pub fn decode_default<D: Decode + LawfulEq, F: FnOnce() -> Result<D, AllocError>>(
        &mut self,
        default: F,
    ) -> Result<D, DecodeError>
        requires { F.IsAlwaysCallable default }
        ensures exact { DecodesOrDefault (DecodesOr D.shape D.tree (D.errors D.TAG D.CONSTRAINTS)) D.tree (F.post default) D.TAG self.old result self.new }
        ensures reads { DecodesDefault D.TAG D.shape D.tree (F.post default) self.old result self.new }
        ensures beyond { IfOk result (λ v. BeyondDefault (got (D.beyond D.TAG)) self.old v self.new) }
        ensures rules { IfErr result (λ e. e.codec ≡ self.old.rule) }
    {
        self.decode_default_with_tag_and_constraints(D::TAG, default, &D::CONSTRAINTS)
    }

    /// Reads a value with this tag, or returns its default if the contents end or another tag
    /// follows.
    ///
    /// # Errors
    /// As `decode_default`.
    pub fn decode_default_with_tag<D: Decode + LawfulEq, F: FnOnce() -> Result<D, AllocError>>(
        &mut self,
        tag: Tag,
        default: F,
    ) -> Result<D, DecodeError>
        requires { F.IsAlwaysCallable default }
        ensures exact { DecodesOrDefaultAs tag D.CONSTRAINTS D.shape D.tree (D.errors tag D.CONSTRAINTS) (F.post default) self.old result self.new }
        ensures reads { DecodesDefaultAs tag D.CONSTRAINTS D.shape D.tree (F.post default) self.old result self.new }
        ensures beyond { IfOk result (λ v. BeyondDefault (got (D.beyond tag)) self.old v self.new) }
        ensures rules { IfErr result (λ e. e.codec ≡ self.old.rule) }
    {
        self.decode_default_with_tag_and_constraints(tag, default, &D::CONSTRAINTS)
    }

    /// Reads a value with these constraints, or returns its default if the contents end or a tag
    /// other than the type's own follows.
    ///
    /// # Errors
    /// As `decode_default`.
    pub fn decode_default_with_constraints<
        D: Decode + LawfulEq,
        F: FnOnce() -> Result<D, AllocError>,
    >(&mut self, default: F, constraints: &Constraints) -> Result<D, DecodeError>
        requires { F.IsAlwaysCallable default }
        ensures exact { DecodesOrDefaultAs D.TAG constraints.now D.shape D.tree (D.errors D.TAG constraints.now) (F.post default) self.old result self.new }
        ensures reads { DecodesDefaultAs D.TAG constraints.now D.shape D.tree (F.post default) self.old result self.new }
        ensures beyond { IfOk result (λ v. BeyondDefault (got (D.beyond D.TAG)) self.old v self.new) }
        ensures rules { IfErr result (λ e. e.codec ≡ self.old.rule) }
    {
        self.decode_default_with_tag_and_constraints(D::TAG, default, constraints)
    }

    /// Reads a value with this tag and these constraints, or returns its default if the contents
    /// end or another tag follows.
    ///
    /// # Errors
    /// As `decode_default`.
    pub fn decode_default_with_tag_and_constraints<
        D: Decode + LawfulEq,
        F: FnOnce() -> Result<D, AllocError>,
    >(&mut self, tag: Tag, default: F, constraints: &Constraints) -> Result<D, DecodeError>
        requires { F.IsAlwaysCallable default }
        ensures exact { DecodesOrDefaultAs tag constraints.now D.shape D.tree (D.errors tag constraints.now) (F.post default) self.old result self.new }
        ensures reads { DecodesDefaultAs tag constraints.now D.shape D.tree (F.post default) self.old result self.new }
        ensures beyond { IfOk result (λ v. BeyondDefault (got (D.beyond tag)) self.old v self.new) }
        ensures rules { IfErr result (λ e. e.codec ≡ self.old.rule) }
    {
        if !self.next_tag_is(tag)? {
            return self.default_value(default);
        }
        let value = D::decode_with_tag_and_constraints(self, tag, constraints)?;
        self.unless_default(value, default)
    }

    /// Reads a value under an explicit tag (X.690 8.14.2), or returns its default if the contents
    /// end or another tag follows.
    ///
    /// # Errors
    /// As `decode_default`, and those of `decode_explicit_prefix`.
    pub fn decode_default_with_explicit_prefix<
        D: Decode + LawfulEq,
        F: FnOnce() -> Result<D, AllocError>,
    >(&mut self, tag: Tag, default: F) -> Result<D, DecodeError>
        requires { F.IsAlwaysCallable default }
        ensures exact { DecodesOrDefault (DecodesPrefixBy D.shape D.tree (D.errors D.TAG D.CONSTRAINTS) tag) D.tree (F.post default) tag self.old result self.new }
        ensures shaped { DecodesOrDefault (Decodes (prefix tag D.shape) D.tree) D.tree (F.post default) tag self.old result self.new }
        ensures reads { DecodesDefault tag (prefix tag D.shape) D.tree (F.post default) self.old result self.new }
        ensures beyond { IfOk result (λ v. BeyondDefault (BeyondPrefix (got (D.beyond D.TAG)) tag) self.old v self.new) }
        ensures rules { IfErr result (λ e. e.codec ≡ self.old.rule) }
    {
        if !self.next_tag_is(tag)? {
            return self.default_value(default);
        }
        let value = self.decode_explicit_prefix::<D>(tag)?;
        self.unless_default(value, default)
    }

    /// Reads a value of a CHOICE, or returns its default if the contents end or a tag follows that
    /// is none of the first tags of the type (X.680 25.6, 29.3).
    ///
    /// # Errors
    /// As `decode_default`.
    pub fn decode_default_choice<
        D: Decode + FirstTags + LawfulEq,
        F: FnOnce() -> Result<D, AllocError>,
    >(&mut self, default: F) -> Result<D, DecodeError>
        requires { F.IsAlwaysCallable default }
        ensures exact { DecodesSoughtOrDefault (DecodesOr D.shape D.tree (D.errors D.TAG D.CONSTRAINTS)) D.tree (F.post default) (any_of (IsFirst D.shape)) self.old result self.new }
        ensures reads { DecodesDefaultChoice D.shape D.tree (F.post default) self.old result self.new }
        ensures beyond { IfOk result (λ v. BeyondDefault (got (D.beyond D.TAG)) self.old v self.new) }
        ensures rules { IfErr result (λ e. e.codec ≡ self.old.rule) }
    {
        if !self.next_is::<D>()? {
            return self.default_value(default);
        }
        let value = D::decode(self)?;
        self.unless_default(value, default)
    }

    /// Returns a value that was read, except under DER if it equals its default (X.690 11.5). The
    /// default is made only under DER.
    #[inline(always)]
    fn unless_default<D: Decode + LawfulEq, F: FnOnce() -> Result<D, AllocError>>(
        &self,
        value: D,
        default: F,
    ) -> Result<D, DecodeError>
        requires { F.IsAlwaysCallable default }
        ensures { ReturnsUnlessDefault D.tree (F.post default) self.now value result }
    {
        if !self.is_strict() {
            drop(default);
            return Ok(value);
        }
        let without = self.default_value(default)?;
        if value.means_same(&without) {
            return Err(self.error(ParseError::Der(DerDecodeErrorKind::DefaultValuePresent)));
        }
        Ok(value)
    }

    /// Returns the value that the closure makes, or `OutOfMemory` if it fails.
    pub(super) fn default_value<D: Drop, F: FnOnce() -> Result<D, AllocError>>(
        &self,
        make: F,
    ) -> Result<D, DecodeError>
        requires { F.IsAlwaysCallable make }
        ensures { MakesValue (F.post make) self.now result }
    {
        match make() {
            Ok(value) => Ok(value),
            Err(AllocError) => Err(self.error(ParseError::OutOfMemory)),
        }
    }
}
