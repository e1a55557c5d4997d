//! Writing a BOOLEAN (X.690 8.2, 11.1).
ghost use Rattle.std.specs.Prelude.{◌≡◌, IfErr, OnErr};
ghost use Rattle.rasn_types.specs.Shapes.{boolean};
ghost use Rattle.rasn_types.specs.Trees.{bool_tree};
ghost use Rattle.rasn_enc.specs.Primitive.{IsAllocError};
ghost use Rattle.rasn_enc.specs.Encoding.{AppendsLeaf};

use crate::ber::enc::Encoder;
use crate::enc::Encode;
use rasn_types::error::EncodeError;
use rasn_types::types::{Constraints, Identifier, Tag};

impl Encoder {
    /// Writes a BOOLEAN (X.690 8.2, 11.1).
    ///
    /// # Errors
    /// Only `OutOfMemory`.
    #[inline(always)]
    pub fn encode_bool(
        &mut self,
        tag: Tag,
        value: bool,
        _identifier: Identifier,
    ) -> Result<(), EncodeError>
        ensures ok { AppendsLeaf boolean tag (bool_tree value) result self.old self.new }
        ensures err { OnErr result (self.new ≡ self.old) }
        ensures memory_alone { IfErr result (IsAllocError self.old.rule) }
        ensures rules { IfErr result (λ e. e.codec ≡ self.old.rule) }
    {
        let octet = if value { 0xff } else { 0x00 };
        self.leaf(tag, &[octet].as_slice())
    }
}

impl Encode for bool {
    ghost use Rattle.rasn_enc.specs.Primitive.{IsAllocError};

    ghost errors = { λ tag c v rule e. IsAllocError rule e };

    #[inline(always)]
    fn encode_with_tag_and_constraints(
        &self,
        encoder: &mut Encoder,
        tag: Tag,
        _constraints: &Constraints,
        identifier: Identifier,
    ) -> Result<(), EncodeError> {
        encoder.encode_bool(tag, *self, identifier)
    }

    fn is_present(&self) -> bool {
        true
    }
}
