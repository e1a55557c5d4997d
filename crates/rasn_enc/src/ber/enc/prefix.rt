//! Writing values under explicit tags (X.690 8.14.2).
ghost use Rattle.std.specs.Prelude.{◌≡◌, IfErr, IsOk, OnOk, OnErr};
ghost use Rattle.rasn_types.specs.Shapes.{prefix, optional, absent};
ghost use Rattle.rasn_enc.specs.ValueErrors.{IsAllocErrorOr};
ghost use Rattle.rasn_enc.specs.Encoding.{AppendsEncoding, AppendsPart, EncodeFails, EncodePartFails};

use crate::ber::enc::Encoder;
use crate::enc::Encode;
use rasn_types::error::EncodeError;
use rasn_types::types::{AsnType, Constraints, Explicit, Identifier, Implicit, Tag};

impl Encoder {
    /// Writes a value under this explicit tag, which precedes its own (X.690 8.14.2; X.680 31.2.7),
    /// or nothing if the value isn't present.
    ///
    /// # Errors
    /// The error of the value, otherwise only `OutOfMemory`; none if the value isn't present. On
    /// error, nothing is written.
    pub fn encode_explicit_prefix<V: Encode>(
        &mut self,
        tag: Tag,
        value: &V,
        _identifier: Identifier,
    ) -> Result<(), EncodeError>
        ensures ok { OnOk result (AppendsPart optional (prefix tag V.shape) (V.tree value.now) self.old self.new) }
        ensures err { OnErr result (self.new ≡ self.old) }
        ensures accepts { V.tree value.now ≡ absent → IsOk result }
        ensures refused { IfErr result (EncodePartFails optional (prefix tag V.shape) (V.tree value.now) self.old) }
        ensures errors { IfErr result (IsAllocErrorOr self.old.rule (V.errors V.TAG V.CONSTRAINTS value.now self.old.rule)) }
        ensures rules { IfErr result (λ e. e.codec ≡ self.old.rule) }
    {
        if value.is_present() {
            self.append_prefixed(tag, value)
        } else {
            Ok(())
        }
    }

    /// Writes a value under an explicit tag, which is written even if the value isn't present.
    pub(crate) fn append_prefixed<V: Encode>(
        &mut self,
        tag: Tag,
        value: &V,
    ) -> Result<(), EncodeError>
        ensures ok { OnOk result (AppendsEncoding (prefix tag V.shape) (V.tree value.now) self.old self.new) }
        ensures err { OnErr result (self.new ≡ self.old) }
        ensures refused { IfErr result (EncodeFails (prefix tag V.shape) (V.tree value.now) self.old) }
        ensures errors { IfErr result (IsAllocErrorOr self.old.rule (V.errors V.TAG V.CONSTRAINTS value.now self.old.rule)) }
        ensures rules { IfErr result (λ e. e.codec ≡ self.old.rule) }
    {
        self.enclose(tag, false, |encoder: &mut Encoder| {
            value.encode(encoder)
        })
    }
}

impl<G: AsnType, T: Encode> Encode for Implicit<G, T> {
    ghost errors = { T.errors };

    fn encode_with_tag_and_constraints(
        &self,
        encoder: &mut Encoder,
        tag: Tag,
        constraints: &Constraints,
        identifier: Identifier,
    ) -> Result<(), EncodeError> {
        let value: &T = self;
        value.encode_with_tag_and_constraints(encoder, tag, constraints, identifier)
    }

    fn is_present(&self) -> bool {
        let value: &T = self;
        value.is_present()
    }
}

/// The explicit tag is written even if the value is absent, so that the value is read back.
impl<G: AsnType, T: Encode> Encode for Explicit<G, T> {
    ghost use Rattle.rasn_enc.specs.ValueErrors.{IsAllocErrorOr};

    ghost errors = { λ tag c v rule e. IsAllocErrorOr rule (T.errors T.TAG T.CONSTRAINTS v rule) e };

    fn encode_with_tag_and_constraints(
        &self,
        encoder: &mut Encoder,
        tag: Tag,
        _constraints: &Constraints,
        _identifier: Identifier,
    ) -> Result<(), EncodeError> {
        let value: &T = self;
        encoder.append_prefixed(tag, value)
    }

    fn is_present(&self) -> bool {
        let value: &T = self;
        value.is_present()
    }
}
