//! ENUMERATED with an extension marker (X.690 8.4, X.680 20.1).
use crate::ber::de::Decoder;
use crate::de::Decode;
use rasn_types::error::DecodeError;
use rasn_types::types::{Constraints, Enumerated, Extensible, Tag};

impl<E: Enumerated> Decode for Extensible<E> {
    ghost use Rattle.rasn_types.specs.Trees.{signed_range};
    ghost use Rattle.rasn_de.specs.ValueErrors.{integer_errors};

    ghost errors = { integer_errors (λ z. ⊥) 64 (signed_range 64) };

    /// Reads a number of an ENUMERATED, whether `E` names it or not.
    ///
    /// # Errors
    /// Those of `decode_integer` for a number of 64 bits.
    fn decode_with_tag_and_constraints(
        decoder: &mut Decoder<'_>,
        tag: Tag,
        constraints: &Constraints,
    ) -> Result<Extensible<E>, DecodeError> {
        let number = decoder.decode_integer::<isize>(tag, constraints)?;
        Ok(Extensible::from_number(number))
    }
}
