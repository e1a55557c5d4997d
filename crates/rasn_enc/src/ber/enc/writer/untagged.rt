//! Octets without a header.
ghost use Rattle.std.specs.Prelude.{◌≡◌, None, [], IfErr, OnOk, OnErr};
ghost use Rattle.rasn_types.specs.Truth.{IsUnless};
ghost use Rattle.rasn_enc.specs.View.{appended};
ghost use Rattle.rasn_enc.specs.Primitive.{IsAllocError};

use crate::ber::enc::writer::gathering::gather_octets;
use crate::ber::enc::{Encoder, out_of_memory};
use rasn_types::error::EncodeError;

impl Encoder {
    /// Returns whether the last list keeps the outermost tags of its values.
    pub(crate) fn keeps_tags(&self) -> bool
        ensures { IsUnless result (self.now.last.tags ≡ None) }
    {
        self.list.tags.is_some()
    }

    /// Appends octets to the last list, without a header and without a tag.
    pub(crate) fn append_encoded(&mut self, octets: &[u8]) -> Result<(), EncodeError>
        ensures ok { OnOk result (self.new ≡ appended self.old octets.now []) }
        ensures err { OnErr result (self.new ≡ self.old) }
        ensures memory_alone { IfErr result (IsAllocError self.old.rule) }
    {
        match gather_octets(&mut self.gathered, self.list.measured, octets) {
            Ok(total) => {
                self.list.measured = total;
                Ok(())
            }
            Err(_) => Err(out_of_memory(self.rule)),
        }
    }
}
