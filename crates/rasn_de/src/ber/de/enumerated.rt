//! ENUMERATED (X.690 8.4).
ghost use Rattle.std.specs.Prelude.{Err, IfErr, ◌≡◌};
ghost use Rattle.rasn_types.specs.Errors.{IsOutOfMemory};
ghost use Rattle.rasn_types.specs.Shapes.{leaf, enumerated, number};
ghost use Rattle.rasn_types.specs.Trees.{unconstrained};
ghost use Rattle.rasn_de.specs.Decodes.{Decodes};
ghost use Rattle.rasn_de.specs.Leaves.{DecodesLeaf};
ghost use Rattle.rasn_de.specs.Enumerated.{EnumeratedAt};

use crate::ber::de::Decoder;
use crate::ber::de::parser::ParseError;
use rasn_types::error::DecodeError;
use rasn_types::types::{Constraints, Enumerated, Tag};

impl<'input> Decoder<'input> {
    /// Reads an ENUMERATED of the type `E` (X.690 8.4).
    ///
    /// # Errors
    /// A framing error. With the value consumed: `UnexpectedEmptyInput`, under DER
    /// `NonMinimalInteger`, `IntegerOverflow` if the number needs more than 64 bits, then
    /// `DiscriminantValueNotFound` if the type doesn't name the number.
    pub fn decode_enumerated<E: Enumerated>(&mut self, tag: Tag) -> Result<E, DecodeError>
        ensures reads { Decodes (leaf (enumerated E.known) tag unconstrained) (λ v. number (E.number v)) self.old result self.new }
        ensures exact { DecodesLeaf E.number (EnumeratedAt E.known self.old.rule tag self.old.rest) self.old result self.new }
        ensures memory { IfErr result (λ e. IsOutOfMemory e.kind → ⊥) }
        ensures rules { IfErr result (λ e. e.codec ≡ self.old.rule) }
    {
        let discriminant = self.decode_integer::<isize>(tag, &Constraints::NONE)?;
        match E::from_discriminant(discriminant) {
            Some(value) => Ok(value),
            None => Err(self.error(ParseError::DiscriminantValueNotFound { discriminant })),
        }
    }
}
