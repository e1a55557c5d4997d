//! The options of the encoder.
ghost use Rattle.std.specs.Prelude.{◌≡◌};

use rasn_types::types::Codec;
use std::marker::Model;

/// The options with which an encoder is made: the encoding rules. To contracts they are these
/// rules.
#[derive(Clone, Copy, Debug)]
pub struct EncoderOptions {
    rule: Codec,
}

impl Model for EncoderOptions {
    ghost use Rattle.rasn_types.specs.declared.types.codec.Codec.{Codec};

    ghost Value = { Codec };

    ghost view = { λ options. options.rule };

    ghost inverse = { λ rule. record { rule = rule } };
}

impl EncoderOptions {
    /// Returns the options for these encoding rules.
    pub const fn of(codec: Codec) -> EncoderOptions
        ensures { result ≡ codec }
    {
        EncoderOptions { rule: codec }
    }

    /// Returns the options for the basic encoding rules (X.690 8).
    pub const fn ber() -> EncoderOptions
        ensures { result ≡ Codec.Ber }
    {
        EncoderOptions { rule: Codec::Ber }
    }

    /// Returns the options for the canonical encoding rules (X.690 9 and 11).
    pub const fn cer() -> EncoderOptions
        ensures { result ≡ Codec.Cer }
    {
        EncoderOptions { rule: Codec::Cer }
    }

    /// Returns the options for the distinguished encoding rules (X.690 10 and 11).
    pub const fn der() -> EncoderOptions
        ensures { result ≡ Codec.Der }
    {
        EncoderOptions { rule: Codec::Der }
    }

    /// Returns the encoding rules.
    pub fn current_codec(&self) -> Codec
        ensures { result ≡ self.now }
    {
        self.rule
    }
}
