//! The rules that a decoder reads by.
ghost use Rattle.std.specs.Prelude.{◌≡◌};
ghost use Rattle.rasn_types.specs.declared.types.codec.Codec.TheVariants.{Ber, Cer, Der};

use rasn_types::types::Codec;
use std::marker::Model;

/// The options of a decoder, which are the rules that it reads by. In contracts the options are
/// these rules.
#[derive(Clone, Copy, Debug)]
pub struct DecoderOptions {
    rules: Codec,
}

impl Model for DecoderOptions {
    ghost use Rattle.rasn_types.specs.declared.types.codec.Codec.{Codec};

    ghost Value = { Codec };

    ghost view = { λ options. options.rules };

    ghost inverse = { λ rules. record { rules = rules } };
}

impl DecoderOptions {
    /// Returns the options for these rules.
    pub const fn of(codec: Codec) -> DecoderOptions
        ensures { result ≡ codec }
    {
        DecoderOptions { rules: codec }
    }

    /// Returns the options for the basic encoding rules (X.690 8).
    pub const fn ber() -> DecoderOptions
        ensures { result ≡ Ber }
    {
        DecoderOptions { rules: Codec::Ber }
    }

    /// Returns the options for the canonical encoding rules (X.690 9, 11).
    pub const fn cer() -> DecoderOptions
        ensures { result ≡ Cer }
    {
        DecoderOptions { rules: Codec::Cer }
    }

    /// Returns the options for the distinguished encoding rules (X.690 10, 11).
    pub const fn der() -> DecoderOptions
        ensures { result ≡ Der }
    {
        DecoderOptions { rules: Codec::Der }
    }

    /// Returns the rules.
    pub fn current_codec(&self) -> Codec
        ensures { result ≡ self.now }
    {
        self.rules
    }
}
