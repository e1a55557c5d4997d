//! Writing CHOICE (X.690 8.13).
ghost use Rattle.std.specs.Prelude.{◌≡◌, IfErr, OnOk, OnErr};
ghost use Rattle.std.specs.Fn.{FnOnceTakesAtMut};
ghost use Rattle.rasn_enc.specs.Closures.{OnlyAppends, MayFail, MaySucceed};

use crate::ber::enc::Encoder;
use rasn_types::error::EncodeError;
use rasn_types::types::{AsnType, Constraints, Identifier, Tag};

impl Encoder {
    /// Writes a CHOICE (X.690 8.13): `alternative` writes the chosen value and returns its tag. The
    /// returned tag and the other arguments are ignored.
    ///
    /// # Errors
    /// The error of `alternative`. On error, nothing is written.
    pub fn encode_choice<E: AsnType, F: FnOnce(&mut Encoder) -> Result<Tag, EncodeError>>(
        &mut self,
        _constraints: &Constraints,
        _tag: Tag,
        alternative: F,
        _identifier: Identifier,
    ) -> Result<(), EncodeError>
        requires callable { FnOnceTakesAtMut F.FnOnce alternative self.old }
        requires keeps { OnlyAppends F.FnOnce alternative self.old }
        ensures ok { OnOk result (MaySucceed F.FnOnce alternative self.old self.new) }
        ensures err { OnErr result (self.new ≡ self.old) }
        ensures refused { IfErr result (MayFail F.FnOnce alternative self.old) }
    {
        let _ = self.attempt(alternative)?;
        Ok(())
    }
}
