//! Writing SET (X.690 8.11).
ghost use Rattle.std.specs.Prelude.{◌≡◌, IfErr, OnOk, OnErr, true};
ghost use Rattle.std.specs.Fn.{FnOnceTakesAtMut};
ghost use Rattle.rasn_enc.specs.View.{opened};
ghost use Rattle.rasn_enc.specs.Closures.{KeepsOtherLists, AppendsEnclosedInOrder, FailsAtEnclosed};

use crate::ber::enc::Encoder;
use rasn_types::error::EncodeError;
use rasn_types::types::{Constructed, Identifier, Tag};

impl Encoder {
    /// Writes a SET (X.690 8.11), whose components `components` writes one after the other. Under
    /// all rules they are written in the order of the calls, and their outermost tags must be in
    /// ascending order (X.690 9.3, 10.3; X.680 8.6).
    ///
    /// # Errors
    /// The error of `components`; `SetOutOfOrder` if `components` succeeds and a tag is below the
    /// one before it; otherwise only `OutOfMemory`. On error, nothing is written.
    pub fn encode_set<
        const RC: usize,
        const EC: usize,
        C: Constructed<RC, EC>,
        F: FnOnce(&mut Encoder) -> Result<(), EncodeError>,
    >(&mut self, tag: Tag, components: F, _identifier: Identifier) -> Result<(), EncodeError>
        requires callable { FnOnceTakesAtMut F.FnOnce components (opened self.old true) }
        requires keeps { KeepsOtherLists F.FnOnce components (opened self.old true) }
        ensures ok { OnOk result (AppendsEnclosedInOrder F.FnOnce components tag self.old self.new) }
        ensures err { OnErr result (self.new ≡ self.old) }
        ensures refused { IfErr result (FailsAtEnclosed F.FnOnce components self.old) }
    {
        self.enclose_in_order(tag, components)
    }
}
