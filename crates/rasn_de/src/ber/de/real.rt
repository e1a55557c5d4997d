//! REAL (X.690 8.5), which isn't supported.
ghost use Rattle.std.specs.Prelude.{◌≡◌, Err};
ghost use Rattle.rasn_types.specs.declared.error.decode.DecodeErrorKind.TheVariants.{RealNotSupported};

use crate::ber::de::Decoder;
use rasn_types::error::{DecodeError, DecodeErrorKind};
use rasn_types::types::{Constraints, RealType, Tag};

impl<'input> Decoder<'input> {
    /// Returns an error, since REAL (X.690 8.5) isn't supported.
    ///
    /// # Errors
    /// `RealNotSupported`, always. Nothing is consumed.
    pub fn decode_real<R: RealType>(
        &mut self,
        _tag: Tag,
        _constraints: &Constraints,
    ) -> Result<R, DecodeError>
        ensures fails { result ≡ Err (record { kind = RealNotSupported; codec = self.old.rule }) }
        ensures same { self.new ≡ self.old }
    {
        Err(DecodeError {
            kind: DecodeErrorKind::RealNotSupported,
            codec: self.codec(),
        })
    }
}
