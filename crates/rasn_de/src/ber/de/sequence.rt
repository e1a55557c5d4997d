//! SEQUENCE (X.690 8.9).
ghost use Rattle.rasn_de.specs.State.{EachCall};
ghost use Rattle.rasn_de.specs.Steps.{NamesRules};
ghost use Rattle.std.specs.Prelude.{◌≡◌, IfSome, IfErr};
ghost use Rattle.std.specs.Fn.{FnOnceReturnsAtMut};
ghost use Rattle.rasn_de.specs.Constructed.{LeavesAnEnd};
ghost use Rattle.rasn_de.specs.Sequence.{is_read_by_initializer, MakesInitial, DecodesContents, DecodesSequenceBy, DecodesSequence};

use crate::ber::de::Decoder;
use crate::ber::de::constructed::ConstructedHeader;
use crate::ber::de::parser::ParseError;
use rasn_types::error::DecodeError;
use rasn_types::types::{Constructed, Tag};
use std::alloc::AllocError;

impl<'input> Decoder<'input> {
    /// Returns the value that the initializer makes.
    fn initializer_value<D: Drop, DF: FnOnce() -> Result<D, AllocError>>(
        &self,
        default: Option<DF>,
    ) -> Result<D, DecodeError>
        requires { IfSome default (λ g. DF.IsAlwaysCallable g) }
        ensures { MakesInitial DF.post default self.now result }
    {
        match default {
            Some(initial) => self.default_value(initial),
            None => Err(self.error(ParseError::UnexpectedEmptyInput)),
        }
    }

    /// Reads a SEQUENCE (X.690 8.9). Calls `f` once on the contents of a value of the tag, all of
    /// which it must read. The initializer is called in place of `f` if the type has neither root
    /// fields nor an extension marker, or if the contents are empty and no root field is required.
    /// What `f` leaves must be a suffix of the input that it is given. `f` may replace the decoder
    /// that it is given: the value is closed by the rules of this one.
    ///
    /// # Errors
    /// - `ExceedsMaxParseDepth`, which is checked before the header, and framing errors: nothing is
    ///   consumed.
    /// - `InvalidConstructedIdentifier`: the value is consumed.
    /// - The error of `f` or of the initializer, `UnexpectedEmptyInput` if an initializer is needed
    ///   and none is given, and `UnexpectedExtraData` if definite contents remain: the header and
    ///   the contents are consumed, or only the header if the length is indefinite.
    /// - Missing end-of-contents octets (`Incomplete`, `MissingEndOfContents`): what was read
    ///   inside is consumed too.
    #[inline(always)]
    pub fn decode_sequence<
        const RC: usize,
        const EC: usize,
        D: Constructed<RC, EC>,
        DF: FnOnce() -> Result<D, AllocError>,
        F: FnOnce(&mut Decoder<'_>) -> Result<D, DecodeError>,
    >(&mut self, tag: Tag, default: Option<DF>, f: F) -> Result<D, DecodeError>
        requires callable { F.IsAlwaysCallable f }
        requires makes { IfSome default (λ g. DF.IsAlwaysCallable g) }
        requires leaves { LeavesAnEnd F.FnOnce f }
        ensures exact { DecodesSequenceBy RC D.IS_EXTENSIBLE D.HAS_REQUIRED_FIELDS DF.post default F.FnOnce f tag self.old result self.new }
        ensures reads { DecodesSequence F.FnOnce f DF.post default D.parts D.tree tag self.old result self.new }
        ensures rules { EachCall (FnOnceReturnsAtMut F.FnOnce f) NamesRules → IfErr result (λ e. e.codec ≡ self.old.rule) }
    {
        self.inside(
            ConstructedHeader::sequence(tag),
            |inner| -> Result<D, DecodeError>
                requires callable { F.IsAlwaysCallable f }
                requires makes { IfSome default (λ g. DF.IsAlwaysCallable g) }
                ensures { DecodesContents (is_read_by_initializer RC D.IS_EXTENSIBLE D.HAS_REQUIRED_FIELDS) (MakesInitial DF.post default) (FnOnceReturnsAtMut F.FnOnce f) inner.old result inner.new }
            {
                if reads_initially(
                    RC,
                    D::IS_EXTENSIBLE,
                    D::HAS_REQUIRED_FIELDS,
                    inner.remaining(),
                ) {
                    return inner.initializer_value(default);
                }
                drop(default);
                f(inner)
            },
        )
    }
}

/// Returns whether a type of `root` root fields is read from these contents by an initializer.
fn reads_initially(root: usize, is_extensible: bool, needs_field: bool, input: &[u8]) -> bool
    ensures { result ≡ is_read_by_initializer root is_extensible needs_field input.now }
{
    (root == 0 && !is_extensible) || (!needs_field && input.is_empty())
}
