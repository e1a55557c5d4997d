//! The trait of values that can be written.
ghost use Rattle.std.specs.Prelude.{◌≡◌, IfErr, OnOk, OnErr};
ghost use Rattle.rasn_types.specs.Shapes.{tagged_as, absent};
ghost use Rattle.rasn_types.specs.Truth.{IsUnless};
ghost use Rattle.rasn_enc.specs.Encoding.{AppendsEncoding, EncodeFails};

use crate::ber::enc::Encoder;
use rasn_types::error::EncodeError;
use rasn_types::types::{AsnType, Constraints, Identifier, Tag};

/// A value that can be written. The methods that take no tag or no constraints use those of the
/// type. The name of a field is ignored.
pub trait Encode: AsnType {
    ghost use Rattle.rasn_types.specs.declared.types.tag.Tag.{Tag};
    ghost use Rattle.rasn_types.specs.declared.types.constraints.Constraints.{Constraints};
    ghost use Rattle.rasn_types.specs.declared.types.codec.Codec.{Codec};
    ghost use Rattle.rasn_types.specs.declared.error.encode.EncodeError.{EncodeError};

    /// What a contract says of an error besides `refused`: which error a value has under a tag,
    /// constraints and rules. By default it says nothing.
    ghost errors: { Tag → Constraints → Self → Codec → EncodeError → Type 0 } = { λ _ _ _ _ _. Unit {0} };

    /// Writes the value under this tag and these constraints.
    ///
    /// # Errors
    /// On error, nothing is written. Any error except `OutOfMemory` means that the value has no
    /// octets under the encoder's rules, or that octets without a tag would be written directly in
    /// a SET.
    fn encode_with_tag_and_constraints(
        &self,
        encoder: &mut Encoder,
        tag: Tag,
        constraints: &Constraints,
        identifier: Identifier,
    ) -> Result<(), EncodeError>
        ensures ok { OnOk result (AppendsEncoding (tagged_as tag constraints.now Self.shape) (Self.tree self.now) encoder.old encoder.new) }
        ensures err { OnErr result (encoder.new ≡ encoder.old) }
        ensures refused { IfErr result (EncodeFails (tagged_as tag constraints.now Self.shape) (Self.tree self.now) encoder.old) }
        ensures errors { IfErr result (Self.errors tag constraints.now self.now encoder.old.rule) }
        ensures rules { IfErr result (λ e. e.codec ≡ encoder.old.rule) };

    /// Writes the value.
    ///
    /// # Errors
    /// Those of `encode_with_tag_and_constraints`.
    #[inline(always)]
    final fn encode(&self, encoder: &mut Encoder) -> Result<(), EncodeError>
        ensures ok { OnOk result (AppendsEncoding Self.shape (Self.tree self.now) encoder.old encoder.new) }
        ensures err { OnErr result (encoder.new ≡ encoder.old) }
        ensures refused { IfErr result (EncodeFails Self.shape (Self.tree self.now) encoder.old) }
        ensures errors { IfErr result (Self.errors Self.TAG Self.CONSTRAINTS self.now encoder.old.rule) }
        ensures rules { IfErr result (λ e. e.codec ≡ encoder.old.rule) }
    {
        self.encode_with_tag_and_constraints(
            encoder,
            Self::TAG,
            &Self::CONSTRAINTS,
            Identifier::EMPTY,
        )
    }

    /// Writes the value under this tag.
    ///
    /// # Errors
    /// Those of `encode_with_tag_and_constraints`.
    final fn encode_with_tag(
        &self,
        encoder: &mut Encoder,
        tag: Tag,
        identifier: Identifier,
    ) -> Result<(), EncodeError>
        ensures ok { OnOk result (AppendsEncoding (tagged_as tag Self.CONSTRAINTS Self.shape) (Self.tree self.now) encoder.old encoder.new) }
        ensures err { OnErr result (encoder.new ≡ encoder.old) }
        ensures refused { IfErr result (EncodeFails (tagged_as tag Self.CONSTRAINTS Self.shape) (Self.tree self.now) encoder.old) }
        ensures errors { IfErr result (Self.errors tag Self.CONSTRAINTS self.now encoder.old.rule) }
        ensures rules { IfErr result (λ e. e.codec ≡ encoder.old.rule) }
    {
        self.encode_with_tag_and_constraints(encoder, tag, &Self::CONSTRAINTS, identifier)
    }

    /// Writes the value under these constraints.
    ///
    /// # Errors
    /// Those of `encode_with_tag_and_constraints`.
    final fn encode_with_constraints(
        &self,
        encoder: &mut Encoder,
        constraints: &Constraints,
        identifier: Identifier,
    ) -> Result<(), EncodeError>
        ensures ok { OnOk result (AppendsEncoding (tagged_as Self.TAG constraints.now Self.shape) (Self.tree self.now) encoder.old encoder.new) }
        ensures err { OnErr result (encoder.new ≡ encoder.old) }
        ensures refused { IfErr result (EncodeFails (tagged_as Self.TAG constraints.now Self.shape) (Self.tree self.now) encoder.old) }
        ensures errors { IfErr result (Self.errors Self.TAG constraints.now self.now encoder.old.rule) }
        ensures rules { IfErr result (λ e. e.codec ≡ encoder.old.rule) }
    {
        self.encode_with_tag_and_constraints(encoder, Self::TAG, constraints, identifier)
    }

    /// Returns whether there is a value: `false` only for an optional value that is absent.
    fn is_present(&self) -> bool
        ensures { IsUnless result (Self.tree self.now ≡ absent) };
}
