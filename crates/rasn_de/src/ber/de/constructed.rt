//! Values that contain others: how they are opened and closed (X.690 8.1).
ghost use Rattle.std.specs.Prelude.{◌≡◌, ◌≢◌};
ghost use Rattle.std.specs.Fn.{FnOnceReturnsAtMut};
ghost use Rattle.rasn_types.specs.Framing.{indefinite, AreOctets, Ended};
ghost use Rattle.rasn_de.specs.Constructed.{sequence_header, list_header, prefix_header, expected_header, ConsumesOpening, ConsumesEnd, is_indefinite_extent, LeavesAnEnd, DecodesInside};
ghost use Rattle.rasn_de.specs.State.{IsEnd};
ghost use Rattle.rasn_de.specs.ParserViews.{extent};
ghost use Rattle.rasn_types.specs.Truth.{IsWhether};

use crate::ber::de::Decoder;
use crate::ber::de::parser::closing::{contents_or_rest, finish, has_ended};
use crate::ber::de::parser::headers::{Expected, Spelling, read_value};
use crate::ber::de::parser::{Contents, ParseError};
use rasn_types::error::DecodeError;
use rasn_types::types::{Codec, Tag};

/// The requirements on the header of a value that contains others: its tag, whether it must be
/// constructed under every rule, and the number of levels of depth that the value takes.
#[derive(Clone, Copy)]
pub struct ConstructedHeader {
    pub(crate) tag: Tag,
    pub(crate) must_be_constructed: bool,
    pub(crate) levels: usize,
}

impl ConstructedHeader {
    /// Returns the header of a SEQUENCE or SET.
    pub fn sequence(tag: Tag) -> ConstructedHeader
        ensures { result ≡ sequence_header tag }
    {
        ConstructedHeader {
            tag,
            must_be_constructed: true,
            levels: 1,
        }
    }

    /// Returns the header of a SEQUENCE OF or SET OF, which takes two levels of depth.
    pub fn list(tag: Tag) -> ConstructedHeader
        ensures { result ≡ list_header tag }
    {
        ConstructedHeader {
            tag,
            must_be_constructed: true,
            levels: 2,
        }
    }

    /// Returns the header of an explicit tag, whose constructed bit is checked only under DER.
    pub fn prefix(tag: Tag) -> ConstructedHeader
        ensures { result ≡ prefix_header tag }
    {
        ConstructedHeader {
            tag,
            must_be_constructed: false,
            levels: 1,
        }
    }

    /// Returns the identifier that must begin the value. If the value needn't be constructed under
    /// every rule, the constructed bit that it is written with is required under DER.
    fn expected(self, rules: Codec) -> Expected
        ensures { result ≡ expected_header self rules }
    {
        if self.must_be_constructed {
            Expected::Tagged(self.tag)
        } else {
            Expected::as_written(rules, self.tag, true)
        }
    }
}

fn is_indefinite(contents: Contents<'_>) -> bool
    ensures { result ≡ is_indefinite_extent (extent contents.entry) }
{
    match contents {
        Contents::Definite(_) => false,
        Contents::Indefinite => true,
    }
}

impl<'input> Decoder<'input> {
    /// Opens a value that contains others. Returns a decoder inside the value, and the contents. If
    /// the length is definite, the header and the contents are consumed, and the inner decoder
    /// reads the contents. If it is indefinite, only the header is consumed, and the inner decoder
    /// reads what follows it.
    ///
    /// # Errors
    /// - `ExceedsMaxParseDepth`, which is checked before the header, and framing errors: nothing is
    ///   consumed.
    /// - `InvalidConstructedIdentifier` if the encoding must be constructed and isn't: the value is
    ///   consumed.
    #[inline(always)]
    pub fn open(
        &mut self,
        header: ConstructedHeader,
    ) -> Result<(Decoder<'input>, Contents<'input>), DecodeError>
        ensures exact { ConsumesOpening header self.old result self.new }
        ensures octets { self.old.depth ≢ 0 → AreOctets self.old.rest }
    {
        if self.depth == 0 {
            return Err(self.error(ParseError::ExceedsMaxParseDepth));
        }
        let expected = header.expected(self.rules);
        let (value, rest) = match read_value(Spelling::of_rule(self.rules), expected, self.rest) {
            Ok(found) => found,
            Err(fault) => return Err(self.error(fault)),
        };
        self.advance(rest);
        if header.must_be_constructed && !value.is_constructed {
            return Err(self.error(ParseError::InvalidConstructedIdentifier));
        }
        let input = contents_or_rest(value.contents, self.rest);
        let inner = Decoder {
            whole: input,
            rest: input,
            rules: self.rules,
            depth: self.depth.saturating_sub(header.levels),
            closing: is_indefinite(value.contents),
            alloc: self.alloc,
        };
        Ok((inner, value.contents))
    }

    /// Closes a value inside which `left` remains. Definite contents must be read entirely; if the
    /// length is indefinite, end-of-contents octets must follow, and are consumed.
    ///
    /// # Errors
    /// - If the length is definite: `UnexpectedExtraData` with the number of octets of `left`, if
    ///   there are any. Nothing more is consumed.
    /// - If it is indefinite: `Incomplete` if `left` is empty or one octet 00, and
    ///   `MissingEndOfContents` if it begins otherwise. The decoder goes on at `left`.
    #[inline(always)]
    pub fn close(
        &mut self,
        contents: Contents<'input>,
        left: &'input [u8],
    ) -> Result<(), DecodeError>
        requires { extent contents ≡ indefinite → IsEnd self.old.rest left.now }
        ensures { ConsumesEnd (extent contents.entry) left.now self.old result self.new }
    {
        match finish(contents, self.rest, left) {
            Ok(rest) => {
                self.advance(rest);
                Ok(())
            }
            Err(fault) => {
                if let Contents::Indefinite = contents {
                    self.advance(left);
                }
                Err(self.error(fault))
            }
        }
    }

    /// Returns whether end-of-contents octets may end the contents.
    pub fn may_be_closed(&self) -> bool
        ensures { result ≡ self.now.closing }
    {
        self.closing
    }

    /// Returns whether the contents end: no input remains, or end-of-contents octets follow and may
    /// end the contents.
    pub fn has_ended(&self) -> bool
        ensures { IsWhether result (Ended self.now.closing self.now.rest) }
    {
        has_ended(self.closing, self.rest)
    }

    /// Opens a value that contains others, calls `f` on the decoder inside it, and closes the
    /// value. `f` must read all of the contents.
    #[inline(always)]
    pub(super) fn inside<D: Drop, F: FnOnce(&mut Decoder<'_>) -> Result<D, DecodeError>>(
        &mut self,
        header: ConstructedHeader,
        f: F,
    ) -> Result<D, DecodeError>
        requires callable { F.IsAlwaysCallable f }
        requires leaves { LeavesAnEnd F.FnOnce f }
        ensures exact { DecodesInside (FnOnceReturnsAtMut F.FnOnce f) header self.old result self.new }
        ensures octets { self.old.depth ≢ 0 → AreOctets self.old.rest }
    {
        let (mut inner, contents) = self.open(header)?;
        let value = f(&mut inner)?;
        self.close(contents, inner.remaining())?;
        Ok(value)
    }
}
