//! BOOLEAN (X.690 8.2, 11.1).
ghost use Rattle.std.specs.Prelude.{IfErr, ◌≡◌};
ghost use Rattle.rasn_types.specs.Shapes.{leaf, boolean};
ghost use Rattle.rasn_types.specs.Trees.{bool_tree, unconstrained};
ghost use Rattle.rasn_de.specs.Decodes.{Decodes};
ghost use Rattle.rasn_de.specs.Leaves.{bool_in, BoolAt, DecodesLeaf};
ghost use Rattle.rasn_types.specs.Errors.{IsOutOfMemory};
ghost use Rattle.rasn_de.specs.ParserViews.{ParsesAs};

use crate::ber::de::Decoder;
use crate::ber::de::parser::ParseError;
use crate::ber::rules::is_ber;
use crate::de::Decode;
use rasn_types::error::DecodeError;
use rasn_types::types::{Codec, Constraints, Tag};

/// Reads the contents of a BOOLEAN.
fn read_bool(rules: Codec, contents: &[u8]) -> Result<bool, ParseError>
    ensures { ParsesAs (λ b. b) result (bool_in rules contents.now) }
{
    match contents {
        [0] => Ok(false),
        [0xFF] => Ok(true),
        [_] if is_ber(rules) => Ok(true),
        [value] => Err(ParseError::InvalidBool { value: *value }),
        _ => Err(ParseError::MismatchedLength {
            expected: 1,
            actual: contents.len(),
        }),
    }
}

impl<'input> Decoder<'input> {
    /// Reads a BOOLEAN (X.690 8.2, 11.1).
    ///
    /// # Errors
    /// A framing error. With the value consumed: `MismatchedLength` if the contents aren't one
    /// octet, and under CER and DER `InvalidBool` for an octet other than `00` and `FF`.
    #[inline(always)]
    pub fn decode_bool(&mut self, tag: Tag) -> Result<bool, DecodeError>
        ensures reads { Decodes (leaf boolean tag unconstrained) bool_tree self.old result self.new }
        ensures exact { DecodesLeaf (λ b. b) (BoolAt self.old.rule tag self.old.rest) self.old result self.new }
        ensures memory { IfErr result (λ e. IsOutOfMemory e.kind → ⊥) }
        ensures rules { IfErr result (λ e. e.codec ≡ self.old.rule) }
    {
        let rules = self.codec();
        let contents = self.contents(tag)?;
        match read_bool(rules, contents) {
            Ok(value) => Ok(value),
            Err(fault) => Err(self.error(fault)),
        }
    }
}

impl Decode for bool {
    ghost use Rattle.rasn_de.specs.Leaves.{BoolAt, FailsAs};

    ghost errors = { λ tag c old. FailsAs (BoolAt old.rule tag old.rest) old };

    #[tactic(auto, unfolding(rasn_types::specs::Grammar::Reads))]
    #[inline(always)]
    fn decode_with_tag_and_constraints(
        decoder: &mut Decoder<'_>,
        tag: Tag,
        _constraints: &Constraints,
    ) -> Result<bool, DecodeError> {
        decoder.decode_bool(tag)
    }
}
