//! NULL (X.690 8.8).
ghost use Rattle.std.specs.Prelude.{Err, IfErr, pos, ◌≡◌};
ghost use Rattle.rasn_types.specs.Errors.{IsOutOfMemory};
ghost use Rattle.rasn_types.specs.Shapes.{leaf, null, number};
ghost use Rattle.rasn_types.specs.Trees.{unconstrained};
ghost use Rattle.rasn_de.specs.Decodes.{Decodes};
ghost use Rattle.rasn_de.specs.Leaves.{DecodesLeaf};
ghost use Rattle.rasn_de.specs.Enumerated.{NullAt};

use crate::ber::de::Decoder;
use crate::ber::de::parser::ParseError;
use crate::de::Decode;
use rasn_types::error::DecodeError;
use rasn_types::types::{Constraints, Tag};

impl<'input> Decoder<'input> {
    /// Reads a NULL (X.690 8.8).
    ///
    /// # Errors
    /// A framing error. With the value consumed: `MismatchedLength` if the contents aren't empty.
    pub fn decode_null(&mut self, tag: Tag) -> Result<(), DecodeError>
        ensures reads { Decodes (leaf null tag unconstrained) (λ _. number (pos 0)) self.old result self.new }
        ensures exact { DecodesLeaf (λ u. u) (NullAt self.old.rule tag self.old.rest) self.old result self.new }
        ensures memory { IfErr result (λ e. IsOutOfMemory e.kind → ⊥) }
        ensures rules { IfErr result (λ e. e.codec ≡ self.old.rule) }
    {
        let contents = self.contents(tag)?;
        if contents.is_empty() {
            Ok(())
        } else {
            let actual = contents.len();
            Err(self.error(ParseError::MismatchedLength {
                expected: 0,
                actual,
            }))
        }
    }
}

impl Decode for () {
    ghost use Rattle.rasn_de.specs.Leaves.{FailsAs};
    ghost use Rattle.rasn_de.specs.Enumerated.{NullAt};

    ghost errors = { λ tag c old. FailsAs (NullAt old.rule tag old.rest) old };

    #[tactic(auto, unfolding(rasn_types::specs::Grammar::Reads))]
    fn decode_with_tag_and_constraints(
        decoder: &mut Decoder<'_>,
        tag: Tag,
        _constraints: &Constraints,
    ) -> Result<(), DecodeError> {
        decoder.decode_null(tag)
    }
}
