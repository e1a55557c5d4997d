//! Writing OCTET STRING of a fixed size (X.690 8.7).
ghost use Rattle.std.specs.Prelude.{◌≡◌, IfErr, OnOk, OnErr};
ghost use Rattle.rasn_types.specs.Shapes.{leaf, fixed, numbers};
ghost use Rattle.rasn_enc.specs.Encoding.{AppendsEncoding, EncodeFails};
ghost use Rattle.rasn_enc.specs.Errors.{FailsAtString};

use crate::ber::enc::Encoder;
use crate::enc::Encode;
use rasn_types::error::EncodeError;
use rasn_types::types::{Constraints, FixedOctetString, Identifier, Tag};

impl<const N: usize> Encode for FixedOctetString<N> {
    ghost use Rattle.rasn_enc.specs.Errors.{FailsAtString};

    ghost errors = { λ tag c v rule e. FailsAtString c N rule e };

    /// Writes an OCTET STRING of `N` octets (X.690 8.7).
    ///
    /// # Errors
    /// `SizeConstraintNotSatisfied` if `N` is out of bounds, otherwise only `OutOfMemory`.
    fn encode_with_tag_and_constraints(
        &self,
        encoder: &mut Encoder,
        tag: Tag,
        constraints: &Constraints,
        identifier: Identifier,
    ) -> Result<(), EncodeError>
        ensures ok { OnOk result (AppendsEncoding (leaf (fixed N) tag constraints.now) (numbers self.now) encoder.old encoder.new) }
        ensures err { OnErr result (encoder.new ≡ encoder.old) }
        ensures refused { IfErr result (EncodeFails (leaf (fixed N) tag constraints.now) (numbers self.now) encoder.old) }
        ensures errors { IfErr result (FailsAtString constraints.now N encoder.old.rule) }
        ensures rules { IfErr result (λ e. e.codec ≡ encoder.old.rule) }
    {
        encoder.encode_octet_string(tag, constraints, self.as_octets(), identifier)
    }

    fn is_present(&self) -> bool {
        true
    }
}
