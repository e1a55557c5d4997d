//! Writing ENUMERATED (X.690 8.4).
ghost use Rattle.std.specs.Prelude.{◌≡◌, IfErr, OnErr};
ghost use Rattle.rasn_types.specs.Shapes.{enumerated, number as number_tree};
ghost use Rattle.rasn_enc.specs.Primitive.{IsAllocError};
ghost use Rattle.rasn_enc.specs.Encoding.{AppendsLeaf};

use crate::ber::enc::Encoder;
use rasn_types::error::EncodeError;
use rasn_types::types::{Constraints, Enumerated, Identifier, Tag};

impl Encoder {
    /// Writes an ENUMERATED (X.690 8.4) in the fewest octets.
    ///
    /// # Errors
    /// Only `OutOfMemory`.
    pub fn encode_enumerated<E: Enumerated>(
        &mut self,
        tag: Tag,
        value: &E,
        identifier: Identifier,
    ) -> Result<(), EncodeError>
        ensures ok { AppendsLeaf (enumerated E.known) tag (number_tree (E.number value.now)) result self.old self.new }
        ensures err { OnErr result (self.new ≡ self.old) }
        ensures memory_alone { IfErr result (IsAllocError self.old.rule) }
        ensures rules { IfErr result (λ e. e.codec ≡ self.old.rule) }
    {
        self.encode_integer(tag, &Constraints::NONE, &value.discriminant(), identifier)
    }
}
