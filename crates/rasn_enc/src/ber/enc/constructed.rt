//! Constructed values, whose contents are what closures write (X.690 8.1).
ghost use Rattle.std.specs.Prelude.{◌≡◌, ◌⊎◌, true, Ok, Err, IfErr, OnOk, OnErr};
ghost use Rattle.std.specs.Fn.{FnOnceTakesAtMut, FnOnceReturnsAtMut};
ghost use Rattle.rasn_enc.specs.View.{opened, AreTagsInOrder};
ghost use Rattle.rasn_enc.specs.Closures.{KeepsOtherLists, OnlyAppends, MayFail, AppendsEnclosed, AppendsEnclosedInOrder, FailsInside, FailsAtEnclosed, FailsAtTags, MaySucceed};

use crate::ber::enc::{Encoder, out_of_order};
use rasn_types::error::EncodeError;
use rasn_types::types::Tag;

impl Encoder {
    /// Writes a constructed value, whose contents are what `contents` writes. If `contents` fails,
    /// nothing is written.
    #[inline(always)]
    pub(super) fn enclose<F: FnOnce(&mut Encoder) -> Result<(), EncodeError>>(
        &mut self,
        tag: Tag,
        keeps_tags: bool,
        contents: F,
    ) -> Result<(), EncodeError>
        requires callable { FnOnceTakesAtMut F.FnOnce contents (opened self.old keeps_tags) }
        requires keeps { KeepsOtherLists F.FnOnce contents (opened self.old keeps_tags) }
        ensures ok { OnOk result (AppendsEnclosed F.FnOnce contents keeps_tags tag self.old self.new) }
        ensures err { OnErr result (self.new ≡ self.old) }
        ensures refused { IfErr result (FailsInside F.FnOnce contents keeps_tags self.old) }
    {
        self.open(keeps_tags)?;
        let outcome = run(self, contents);
        self.close(tag, outcome)
    }

    /// Writes a constructed value as `enclose` does, but fails if its outermost tags aren't in
    /// ascending order.
    pub(super) fn enclose_in_order<F: FnOnce(&mut Encoder) -> Result<(), EncodeError>>(
        &mut self,
        tag: Tag,
        contents: F,
    ) -> Result<(), EncodeError>
        requires callable { FnOnceTakesAtMut F.FnOnce contents (opened self.old true) }
        requires keeps { KeepsOtherLists F.FnOnce contents (opened self.old true) }
        ensures ok { OnOk result (AppendsEnclosedInOrder F.FnOnce contents tag self.old self.new) }
        ensures err { OnErr result (self.new ≡ self.old) }
        ensures refused { IfErr result (FailsAtEnclosed F.FnOnce contents self.old) }
    {
        self.open(true)?;
        let outcome = run(self, contents);
        let ordered = self.in_order(outcome);
        self.close(tag, ordered)
    }

    /// Returns the outcome, or an error if it is `Ok` and the tags that the last list keeps aren't
    /// in ascending order.
    fn in_order(&self, outcome: Result<(), EncodeError>) -> Result<(), EncodeError>
        ensures ok { OnOk result ((outcome ≡ Ok tt) × AreTagsInOrder self.now) }
        ensures refused { IfErr result (λ e. (outcome ≡ Err e) ⊎ ((outcome ≡ Ok tt) × FailsAtTags self.now e)) }
    {
        match outcome {
            Ok(()) if self.kept_tags_out_of_order() => Err(out_of_order(self.codec())),
            outcome => outcome,
        }
    }

    /// Writes what `values` writes, or nothing if `values` fails.
    pub(super) fn attempt<T, F: FnOnce(&mut Encoder) -> Result<T, EncodeError>>(
        &mut self,
        values: F,
    ) -> Result<T, EncodeError>
        requires callable { FnOnceTakesAtMut F.FnOnce values self.old }
        requires keeps { OnlyAppends F.FnOnce values self.old }
        ensures ok { OnOk result (FnOnceReturnsAtMut F.FnOnce values self.old result self.new) }
        ensures err { OnErr result (self.new ≡ self.old) }
        ensures refused { IfErr result (MayFail F.FnOnce values self.old) }
    {
        let end = self.end();
        match run(self, values) {
            Ok(value) => Ok(value),
            Err(error) => {
                self.cut_back(end);
                Err(error)
            }
        }
    }
}

/// Calls a closure that writes.
fn run<T, F: FnOnce(&mut Encoder) -> Result<T, EncodeError>>(
    encoder: &mut Encoder,
    writes: F,
) -> Result<T, EncodeError>
    requires { FnOnceTakesAtMut F.FnOnce writes encoder.old }
    ensures { FnOnceReturnsAtMut F.FnOnce writes encoder.old result encoder.new }
{
    writes(encoder)
}
