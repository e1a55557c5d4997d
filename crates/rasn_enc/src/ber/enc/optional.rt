//! Writing values that may be left out (X.680 25.5 to 25.8).
ghost use Rattle.std.specs.Prelude.{◌≡◌, Ok, IfErr, OnOk, OnErr};
ghost use Rattle.rasn_types.specs.Shapes.{tagged_as};
ghost use Rattle.rasn_enc.specs.Encoding.{AppendsEncoding, EncodeFails};

use crate::ber::enc::Encoder;
use crate::enc::Encode;
use rasn_types::error::EncodeError;
use rasn_types::types::{Constraints, Identifier, Tag};

impl Encoder {
    /// Writes an optional value that is present.
    ///
    /// # Errors
    /// The error of the value. On error, nothing is written.
    pub fn encode_some<E: Encode>(
        &mut self,
        value: &E,
        _identifier: Identifier,
    ) -> Result<(), EncodeError>
        ensures ok { OnOk result (AppendsEncoding E.shape (E.tree value.now) self.old self.new) }
        ensures err { OnErr result (self.new ≡ self.old) }
        ensures refused { IfErr result (EncodeFails E.shape (E.tree value.now) self.old) }
        ensures errors { IfErr result (E.errors E.TAG E.CONSTRAINTS value.now self.old.rule) }
        ensures rules { IfErr result (λ e. e.codec ≡ self.old.rule) }
    {
        value.encode(self)
    }

    /// Writes an optional value that is present, under this tag.
    ///
    /// # Errors
    /// The error of the value. On error, nothing is written.
    pub fn encode_some_with_tag<E: Encode>(
        &mut self,
        tag: Tag,
        value: &E,
        identifier: Identifier,
    ) -> Result<(), EncodeError>
        ensures ok { OnOk result (AppendsEncoding (tagged_as tag E.CONSTRAINTS E.shape) (E.tree value.now) self.old self.new) }
        ensures err { OnErr result (self.new ≡ self.old) }
        ensures refused { IfErr result (EncodeFails (tagged_as tag E.CONSTRAINTS E.shape) (E.tree value.now) self.old) }
        ensures errors { IfErr result (E.errors tag E.CONSTRAINTS value.now self.old.rule) }
        ensures rules { IfErr result (λ e. e.codec ≡ self.old.rule) }
    {
        value.encode_with_tag(self, tag, identifier)
    }

    /// Writes an optional value that is present, under this tag and these constraints.
    ///
    /// # Errors
    /// The error of the value. On error, nothing is written.
    pub fn encode_some_with_tag_and_constraints<E: Encode>(
        &mut self,
        tag: Tag,
        constraints: &Constraints,
        value: &E,
        identifier: Identifier,
    ) -> Result<(), EncodeError>
        ensures ok { OnOk result (AppendsEncoding (tagged_as tag constraints.now E.shape) (E.tree value.now) self.old self.new) }
        ensures err { OnErr result (self.new ≡ self.old) }
        ensures refused { IfErr result (EncodeFails (tagged_as tag constraints.now E.shape) (E.tree value.now) self.old) }
        ensures errors { IfErr result (E.errors tag constraints.now value.now self.old.rule) }
        ensures rules { IfErr result (λ e. e.codec ≡ self.old.rule) }
    {
        value.encode_with_tag_and_constraints(self, tag, constraints, identifier)
    }

    /// Writes nothing: an optional value is left out.
    ///
    /// # Errors
    /// None.
    pub fn encode_none<E: Encode>(&mut self, identifier: Identifier) -> Result<(), EncodeError>
        ensures accepts { result ≡ Ok tt }
        ensures same { self.new ≡ self.old }
    {
        self.encode_none_with_tag(E::TAG, identifier)
    }

    /// Writes nothing: an optional value of this tag is left out.
    ///
    /// # Errors
    /// None.
    pub fn encode_none_with_tag(
        &mut self,
        _tag: Tag,
        _identifier: Identifier,
    ) -> Result<(), EncodeError>
        ensures accepts { result ≡ Ok tt }
        ensures same { self.new ≡ self.old }
    {
        Ok(())
    }
}

impl<T: Encode> Encode for Option<T> {
    ghost use Rattle.rasn_enc.specs.ValueErrors.{IsErrorOfOption};

    ghost errors = { λ tag c o rule e. IsErrorOfOption (λ v. T.errors tag c v rule) o e };

    fn encode_with_tag_and_constraints(
        &self,
        encoder: &mut Encoder,
        tag: Tag,
        constraints: &Constraints,
        identifier: Identifier,
    ) -> Result<(), EncodeError> {
        match self {
            Some(value) if value.is_present() => {
                value.encode_with_tag_and_constraints(encoder, tag, constraints, identifier)
            }
            _ => Ok(()),
        }
    }

    fn is_present(&self) -> bool {
        match self {
            Some(value) => value.is_present(),
            None => false,
        }
    }
}
