//! Writing ENUMERATED with an extension marker (X.690 8.4, X.680 20.1).
use crate::ber::enc::Encoder;
use crate::enc::Encode;
use rasn_types::error::EncodeError;
use rasn_types::types::{Constraints, Enumerated, Extensible, Identifier, Tag};

impl<E: Enumerated> Encode for Extensible<E> {
    ghost use Rattle.rasn_enc.specs.Errors.{FailsAtInteger};

    ghost errors = { λ tag c v rule e. FailsAtInteger c v rule e };

    /// Writes the number in the fewest octets.
    ///
    /// # Errors
    /// Those of `encode_integer`.
    fn encode_with_tag_and_constraints(
        &self,
        encoder: &mut Encoder,
        tag: Tag,
        constraints: &Constraints,
        identifier: Identifier,
    ) -> Result<(), EncodeError> {
        encoder.encode_integer(tag, constraints, &self.number(), identifier)
    }

    fn is_present(&self) -> bool {
        true
    }
}
