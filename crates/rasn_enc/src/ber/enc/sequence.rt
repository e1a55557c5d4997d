//! Writing SEQUENCE (X.690 8.9).
ghost use Rattle.std.specs.Prelude.{◌≡◌, ◌⊎◌, IfErr, OnOk, OnErr, false};
ghost use Rattle.std.specs.Fn.{FnOnceTakesAtMut};
ghost use Rattle.rasn_enc.specs.View.{opened};
ghost use Rattle.rasn_enc.specs.Primitive.{IsAllocError};
ghost use Rattle.rasn_enc.specs.Closures.{KeepsOtherLists, MayFail, AppendsEnclosed};

use crate::ber::enc::Encoder;
use rasn_types::error::EncodeError;
use rasn_types::types::{Constructed, Identifier, Tag};

impl Encoder {
    /// Writes a SEQUENCE (X.690 8.9), whose components `parts` writes one after the other.
    ///
    /// # Errors
    /// The error of `parts`, otherwise only `OutOfMemory`. On error, nothing is written.
    pub fn encode_sequence<
        const RC: usize,
        const EC: usize,
        C: Constructed<RC, EC>,
        F: FnOnce(&mut Encoder) -> Result<(), EncodeError>,
    >(&mut self, tag: Tag, parts: F, _identifier: Identifier) -> Result<(), EncodeError>
        requires callable { FnOnceTakesAtMut F.FnOnce parts (opened self.old false) }
        requires keeps { KeepsOtherLists F.FnOnce parts (opened self.old false) }
        ensures ok { OnOk result (AppendsEnclosed F.FnOnce parts false tag self.old self.new) }
        ensures err { OnErr result (self.new ≡ self.old) }
        ensures refused { IfErr result (λ e. IsAllocError self.old.rule e ⊎ MayFail F.FnOnce parts (opened self.old false) e) }
    {
        self.enclose(tag, false, parts)
    }
}
