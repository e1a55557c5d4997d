//! Writing a primitive value of given contents octets (X.690 8.1.4).
ghost use Rattle.std.specs.Prelude.{◌≡◌, IfErr, OnErr, OnOk};
ghost use Rattle.rasn_enc.specs.Primitive.{AppendsPrimitive, IsAllocError};

use crate::ber::enc::Encoder;
use rasn_types::error::EncodeError;
use rasn_types::types::Tag;

impl Encoder {
    /// Writes a primitive value with these contents octets (X.690 8.1.4). What they mean is up to
    /// the caller.
    ///
    /// # Errors
    /// Only `OutOfMemory`.
    pub fn encode_contents(&mut self, tag: Tag, contents: &[u8]) -> Result<(), EncodeError>
        ensures ok { OnOk result (AppendsPrimitive (λ l. l ≡ contents.now) tag self.old self.new) }
        ensures err { OnErr result (self.new ≡ self.old) }
        ensures memory_alone { IfErr result (IsAllocError self.old.rule) }
        ensures rules { IfErr result (λ e. e.codec ≡ self.old.rule) }
    {
        self.leaf(tag, &contents)
    }
}
