//! Writing NULL (X.690 8.8).
ghost use Rattle.std.specs.Prelude.{◌≡◌, IfErr, OnErr, pos};
ghost use Rattle.rasn_types.specs.Shapes.{null, number as number_tree};
ghost use Rattle.rasn_enc.specs.Primitive.{IsAllocError};
ghost use Rattle.rasn_enc.specs.Encoding.{AppendsLeaf};

use crate::ber::enc::Encoder;
use crate::enc::Encode;
use rasn_types::error::EncodeError;
use rasn_types::types::{Constraints, Identifier, Tag};

impl Encoder {
    /// Writes a NULL (X.690 8.8).
    ///
    /// # Errors
    /// Only `OutOfMemory`.
    pub fn encode_null(&mut self, tag: Tag, _identifier: Identifier) -> Result<(), EncodeError>
        ensures ok { AppendsLeaf null tag (number_tree (pos 0)) result self.old self.new }
        ensures err { OnErr result (self.new ≡ self.old) }
        ensures memory_alone { IfErr result (IsAllocError self.old.rule) }
        ensures rules { IfErr result (λ e. e.codec ≡ self.old.rule) }
    {
        let contents: &[u8] = &[];
        self.leaf(tag, &contents)
    }
}

impl Encode for () {
    ghost use Rattle.rasn_enc.specs.Primitive.{IsAllocError};

    ghost errors = { λ tag c v rule e. IsAllocError rule e };

    fn encode_with_tag_and_constraints(
        &self,
        encoder: &mut Encoder,
        tag: Tag,
        _constraints: &Constraints,
        identifier: Identifier,
    ) -> Result<(), EncodeError> {
        encoder.encode_null(tag, identifier)
    }

    fn is_present(&self) -> bool {
        true
    }
}
