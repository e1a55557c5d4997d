//! Values that the type of an extensible SEQUENCE doesn't name (X.680 25).
ghost use Rattle.std.specs.Prelude.{◌≡◌, IfErr};
ghost use Rattle.rasn_types.specs.Tags.{eoc};
ghost use Rattle.rasn_types.specs.Shapes.{numbers, unknown};
ghost use Rattle.rasn_types.specs.Trees.{list_tree};
ghost use Rattle.rasn_de.specs.Any.{DecodesOpenType};
ghost use Rattle.rasn_de.specs.Decodes.{Decodes};
ghost use Rattle.rasn_de.specs.SequenceOf.{DecodesElement};
ghost use Rattle.rasn_de.specs.Unknown.{DecodesUnknown};

use crate::ber::de::Decoder;
use crate::ber::de::parser::ParseError;
use crate::de::Decode;
use rasn_types::error::DecodeError;
use rasn_types::types::{Any, Constraints, Tag, Unknown};

impl<'input> Decoder<'input> {
    /// Reads all values up to the end of the contents, each as one complete encoding, whose octets
    /// are kept (X.680 25). They are read as `decode_any` reads values without a tag of their own.
    ///
    /// # Errors
    /// The error of the first value that can't be read, as `decode_any` has it: the values before
    /// it are consumed. Otherwise only `OutOfMemory`.
    pub fn decode_unknown(&mut self) -> Result<Unknown, DecodeError>
        ensures exact { DecodesUnknown self.old result self.new }
        ensures reads { Decodes unknown (λ u. list_tree numbers u.values.items) self.old result self.new }
        ensures rules { IfErr result (λ e. e.codec ≡ self.old.rule) }
    {
        let mut values = Vec::new(self.alloc);
        while !self.has_ended() {
            self.push_unknown(&mut values)?;
        }
        Ok(Unknown { values })
    }

    /// Reads one more value, and appends it to the others.
    fn push_unknown(&mut self, values: &mut Vec<Any>) -> Result<(), DecodeError>
        ensures exact { DecodesElement (DecodesOpenType eoc) self.old values.old.items result self.new values.new.items }
        ensures rules { IfErr result (λ e. e.codec ≡ self.old.rule) }
    {
        let value = self.decode_any(Tag::EOC)?;
        match values.push(value) {
            Ok(()) => Ok(()),
            Err(_) => Err(self.error(ParseError::OutOfMemory)),
        }
    }
}

impl Decode for Unknown {
    ghost use Rattle.rasn_de.specs.Unknown.{DecodesUnknown};
    ghost use Rattle.rasn_de.specs.ValueErrors.{errors_of};

    ghost errors = { λ tag c. errors_of DecodesUnknown };

    fn decode_with_tag_and_constraints(
        decoder: &mut Decoder<'_>,
        _tag: Tag,
        _constraints: &Constraints,
    ) -> Result<Unknown, DecodeError> {
        decoder.decode_unknown()
    }
}
