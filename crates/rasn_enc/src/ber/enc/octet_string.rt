//! Writing OCTET STRING (X.690 8.7).
ghost use Rattle.std.specs.Prelude.{◌≡◌, length, IfErr, OnOk, OnErr};
ghost use Rattle.rasn_types.specs.Shapes.{leaf, numbers, octet_string};
ghost use Rattle.rasn_enc.specs.Errors.{FailsAtString};
ghost use Rattle.rasn_enc.specs.Encoding.{AppendsEncoding};

use crate::ber::enc::Encoder;
use crate::enc::Encode;
use rasn_types::error::EncodeError;
use rasn_types::types::{Constraints, Identifier, OctetString, Tag};

impl Encoder {
    /// Writes an OCTET STRING (X.690 8.7). The canonical rules write more than 1000 octets in
    /// segments (9.2).
    ///
    /// # Errors
    /// `SizeConstraintNotSatisfied` if the number of octets is out of bounds, otherwise only
    /// `OutOfMemory`.
    #[inline(always)]
    pub fn encode_octet_string(
        &mut self,
        tag: Tag,
        constraints: &Constraints,
        value: &[u8],
        _identifier: Identifier,
    ) -> Result<(), EncodeError>
        ensures ok { OnOk result (AppendsEncoding (leaf octet_string tag constraints.now) (numbers value.now) self.old self.new) }
        ensures err { OnErr result (self.new ≡ self.old) }
        ensures fails { IfErr result (FailsAtString constraints.now (length value.now) self.old.rule) }
        ensures rules { IfErr result (λ e. e.codec ≡ self.old.rule) }
    {
        self.string(tag, constraints, value, value.len())
    }
}

impl Encode for OctetString {
    ghost use Rattle.std.specs.Prelude.{length};
    ghost use Rattle.rasn_enc.specs.Errors.{FailsAtString};

    ghost errors = { λ tag c v rule e. FailsAtString c (length v) rule e };

    #[inline(always)]
    fn encode_with_tag_and_constraints(
        &self,
        encoder: &mut Encoder,
        tag: Tag,
        constraints: &Constraints,
        identifier: Identifier,
    ) -> Result<(), EncodeError> {
        encoder.encode_octet_string(tag, constraints, self.as_octets(), identifier)
    }

    fn is_present(&self) -> bool {
        true
    }
}
