//! REAL (X.690 8.5), which isn't supported.
ghost use Rattle.std.specs.Prelude.{◌≡◌, Err};
ghost use Rattle.rasn_types.specs.declared.error.encode.EncodeErrorKind.TheVariants.{RealNotSupported};

use crate::ber::enc::Encoder;
use rasn_types::error::{EncodeError, EncodeErrorKind};
use rasn_types::types::{Constraints, Identifier, RealType, Tag};

impl Encoder {
    /// Returns an error: REAL (X.690 8.5) isn't supported. Nothing is written.
    ///
    /// # Errors
    /// Always `RealNotSupported`.
    pub fn encode_real<R: RealType>(
        &mut self,
        _tag: Tag,
        _constraints: &Constraints,
        _value: &R,
        _identifier: Identifier,
    ) -> Result<(), EncodeError>
        ensures fails { result ≡ Err (record { kind = RealNotSupported; codec = self.old.rule }) }
        ensures same { self.new ≡ self.old }
    {
        Err(EncodeError {
            kind: EncodeErrorKind::RealNotSupported,
            codec: self.codec(),
        })
    }
}
