//! Extension additions (X.680 25.4).
ghost use Rattle.std.specs.Prelude.{◌≡◌, IfOk, IfErr};
ghost use Rattle.rasn_types.specs.Shapes.{prefix};
ghost use Rattle.rasn_types.specs.Trees.{option_tree};
ghost use Rattle.rasn_de.specs.Decodes.{Decodes};
ghost use Rattle.rasn_de.specs.Optional.{DecodesAlways, DecodesIfPresent, DecodesIfPresentAs, DecodesOption, DecodesOptionAs};
ghost use Rattle.rasn_de.specs.Beyond.{got, BeyondOptional, BeyondPrefix};
ghost use Rattle.rasn_de.specs.Prefix.{DecodesPrefixBy};
ghost use Rattle.rasn_de.specs.ValueErrors.{DecodesOr};

use crate::ber::de::Decoder;
use crate::de::Decode;
use rasn_types::error::DecodeError;
use rasn_types::types::{Constraints, Constructed, Tag};

impl<'input> Decoder<'input> {
    /// Reads an extension addition with this tag, or returns `None` if the contents end or another
    /// tag follows. The constraints are ignored.
    ///
    /// # Errors
    /// As `decode_optional`.
    pub fn decode_extension_addition_with_tag_and_constraints<D: Decode>(
        &mut self,
        tag: Tag,
        _constraints: &Constraints,
    ) -> Result<Option<D>, DecodeError>
        ensures exact { DecodesIfPresentAs tag D.CONSTRAINTS D.shape D.tree (D.errors tag D.CONSTRAINTS) self.old result self.new }
        ensures reads { DecodesOptionAs tag D.CONSTRAINTS D.shape D.tree self.old result self.new }
        ensures beyond { IfOk result (λ v. BeyondOptional (got (D.beyond tag)) self.old v self.new) }
        ensures rules { IfErr result (λ e. e.codec ≡ self.old.rule) }
    {
        self.decode_optional_with_tag(tag)
    }

    /// Reads an extension addition under this explicit tag, which must be present: `None` is never
    /// returned. The constraints are ignored.
    ///
    /// # Errors
    /// As `decode_explicit_prefix`.
    pub fn decode_extension_addition_with_explicit_tag_and_constraints<D: Decode>(
        &mut self,
        tag: Tag,
        _constraints: &Constraints,
    ) -> Result<Option<D>, DecodeError>
        ensures exact { DecodesAlways (DecodesPrefixBy D.shape D.tree (D.errors D.TAG D.CONSTRAINTS) tag) self.old result self.new }
        ensures reads { Decodes (prefix tag D.shape) (option_tree D.tree) self.old result self.new }
        ensures beyond { IfOk result (λ v. BeyondOptional (BeyondPrefix (got (D.beyond D.TAG)) tag) self.old v self.new) }
        ensures rules { IfErr result (λ e. e.codec ≡ self.old.rule) }
    {
        let value = self.decode_explicit_prefix::<D>(tag)?;
        Ok(Some(value))
    }

    /// Reads an extension addition group as a SEQUENCE of its own, as the crate `rasn` has it, or
    /// returns `None` if the contents end or another tag follows.
    ///
    /// By X.680 25 the components of a group `[[ ]]` are components of the SEQUENCE itself, and the
    /// brackets have no octets. To read these, read each component as an optional one.
    ///
    /// # Errors
    /// As `decode_optional`.
    pub fn decode_extension_addition_group<
        const RC: usize,
        const EC: usize,
        D: Decode + Constructed<RC, EC>,
    >(&mut self) -> Result<Option<D>, DecodeError>
        ensures exact { DecodesIfPresent (DecodesOr D.shape D.tree (D.errors D.TAG D.CONSTRAINTS)) D.TAG self.old result self.new }
        ensures reads { DecodesOption D.TAG D.shape D.tree self.old result self.new }
        ensures beyond { IfOk result (λ v. BeyondOptional (got (D.beyond D.TAG)) self.old v self.new) }
        ensures rules { IfErr result (λ e. e.codec ≡ self.old.rule) }
    {
        self.decode_optional::<D>()
    }
}
