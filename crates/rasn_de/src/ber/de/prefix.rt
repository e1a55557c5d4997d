//! Explicit tags (X.690 8.14.2).
ghost use Rattle.std.specs.Prelude.{◌≡◌, IfOk, IfErr};
ghost use Rattle.rasn_types.specs.Shapes.{prefix};
ghost use Rattle.rasn_de.specs.Decodes.{Decodes};
ghost use Rattle.rasn_de.specs.Beyond.{got, BeyondPrefix};
ghost use Rattle.rasn_de.specs.Prefix.{DecodesPrefixBy};
ghost use Rattle.rasn_de.specs.ValueErrors.{DecodesOr};

use crate::ber::de::Decoder;
use crate::ber::de::constructed::ConstructedHeader;
use crate::de::Decode;
use rasn_types::error::DecodeError;
use rasn_types::types::{AsnType, Constraints, Explicit, Implicit, Tag};

impl<'input> Decoder<'input> {
    /// Reads a value under an explicit tag (X.690 8.14.2; X.680 31.2.7): it is all of the contents
    /// of a value of this tag. The constructed bit of the outer value must be set under DER, and
    /// isn't checked under the other rules.
    ///
    /// # Errors
    /// - `ExceedsMaxParseDepth`, which is checked before the header, and framing errors: nothing is
    ///   consumed.
    /// - The error of the value, and `UnexpectedExtraData` if definite contents remain: the header
    ///   and the contents are consumed, or only the header if the length is indefinite.
    /// - Missing end-of-contents octets (`Incomplete`, `MissingEndOfContents`): what was read
    ///   inside is consumed too.
    pub fn decode_explicit_prefix<D: Decode>(&mut self, tag: Tag) -> Result<D, DecodeError>
        ensures exact { DecodesPrefixBy D.shape D.tree (D.errors D.TAG D.CONSTRAINTS) tag self.old result self.new }
        ensures reads { Decodes (prefix tag D.shape) D.tree self.old result self.new }
        ensures beyond { IfOk result (λ v. BeyondPrefix (got (D.beyond D.TAG)) tag self.old v self.new) }
        ensures rules { IfErr result (λ e. e.codec ≡ self.old.rule) }
    {
        self.inside(
            ConstructedHeader::prefix(tag),
            |inner| -> Result<D, DecodeError>
                ensures exact { DecodesOr D.shape D.tree (D.errors D.TAG D.CONSTRAINTS) inner.old result inner.new }
                ensures rules { IfErr result (λ e. e.codec ≡ inner.old.rule) }
                ensures beyond { D.beyond D.TAG inner.old result inner.new }
            { D::decode(inner) },
        )
    }
}

impl<G: AsnType, T: Decode> Decode for Implicit<G, T> {
    ghost use Rattle.std.specs.Prelude.{IfOk, Ok};

    ghost beyond = { λ tag old result new. IfOk result (λ v. T.beyond tag old (Ok v) new) };

    ghost errors = { T.errors };

    fn decode_with_tag_and_constraints(
        decoder: &mut Decoder<'_>,
        tag: Tag,
        constraints: &Constraints,
    ) -> Result<Implicit<G, T>, DecodeError> {
        let value = T::decode_with_tag_and_constraints(decoder, tag, constraints)?;
        Ok(Implicit::new(value))
    }
}

impl<G: AsnType, T: Decode> Decode for Explicit<G, T> {
    ghost use Rattle.std.specs.Prelude.{IfOk};
    ghost use Rattle.rasn_de.specs.Beyond.{got, BeyondPrefix};
    ghost use Rattle.rasn_de.specs.Prefix.{DecodesPrefixBy};
    ghost use Rattle.rasn_de.specs.ValueErrors.{errors_of};

    ghost beyond = { λ tag old result new. IfOk result (λ v. BeyondPrefix (got (T.beyond T.TAG)) tag old v new) };

    ghost errors = { λ tag c. errors_of (DecodesPrefixBy T.shape T.tree (T.errors T.TAG T.CONSTRAINTS) tag) };

    fn decode_with_tag_and_constraints(
        decoder: &mut Decoder<'_>,
        tag: Tag,
        _constraints: &Constraints,
    ) -> Result<Explicit<G, T>, DecodeError> {
        let value = decoder.decode_explicit_prefix::<T>(tag)?;
        Ok(Explicit::new(value))
    }
}
