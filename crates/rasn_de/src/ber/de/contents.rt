//! The contents of primitive encodings (X.690 8.1.4).
ghost use Rattle.std.specs.Prelude.{◌≡◌};
ghost use Rattle.rasn_types.specs.Shapes.{leaf};
ghost use Rattle.rasn_de.specs.Leaves.{definite_at, DecodesLeaf};
ghost use Rattle.rasn_de.specs.Headers.{as_written};
ghost use Rattle.rasn_de.specs.Steps.{Consumes};
ghost use Rattle.rasn_types.specs.Framing.{AreOctets};
ghost use Rattle.rasn_types.specs.Tags.{tag_bit};

use crate::ber::de::Decoder;
use crate::ber::de::parser::headers::{Expected, Spelling, read_value, short_value};
use crate::ber::de::parser::{Contents, ParseError, Value};
use rasn_types::error::DecodeError;
use rasn_types::types::Tag;

impl<'input> Decoder<'input> {
    /// Consumes the header of the next value, which must have the constructed bit that its tag is
    /// written with under DER, and its contents if the length is definite. An error consumes
    /// nothing. Most values are primitive and short, and are looked for first.
    #[inline(always)]
    fn leaf(&mut self, tag: Tag) -> Result<Value<'input>, DecodeError>
        ensures exact { Consumes (as_written self.old.rule tag (tag_bit tag)) self.old result self.new }
        ensures octets { AreOctets self.old.rest }
    {
        match short_value(tag, self.rest) {
            Some((value, rest)) => {
                self.advance(rest);
                Ok(value)
            }
            None => self.any_leaf(tag),
        }
    }

    /// Consumes such a header, however many octets it has, and such contents.
    #[inline(never)]
    fn any_leaf(&mut self, tag: Tag) -> Result<Value<'input>, DecodeError>
        ensures exact { Consumes (as_written self.old.rule tag (tag_bit tag)) self.old result self.new }
        ensures octets { AreOctets self.old.rest }
    {
        let expected = Expected::leaf(self.rules, tag);
        match read_value(Spelling::of_rule(self.rules), expected, self.rest) {
            Ok((value, rest)) => {
                self.advance(rest);
                Ok(value)
            }
            Err(fault) => Err(self.error(fault)),
        }
    }

    /// Reads the contents octets of the next value, which must have a definite length and, under
    /// DER, the constructed bit that values with its tag are written with (X.690 8.1.4).
    ///
    /// # Errors
    /// Framing errors, with nothing consumed; but an indefinite length that the rules allow consumes
    /// the header.
    #[inline(always)]
    pub fn contents(&mut self, tag: Tag) -> Result<&'input [u8], DecodeError>
        ensures exact { DecodesLeaf (λ c. c.now) (λ r. definite_at self.old.rule tag self.old.rest ≡ r) self.old result self.new }
        ensures octets { AreOctets self.old.rest }
    {
        let value = self.leaf(tag)?;
        match value.contents {
            Contents::Definite(contents) => Ok(contents),
            Contents::Indefinite => Err(self.error(ParseError::IndefiniteLengthNotAllowed)),
        }
    }
}
