//! What each set of encoding rules allows (X.690 9, 10, 11), for the decoder and the encoder.
ghost use Rattle.std.specs.Prelude.{◌≡◌, ◌^◌, ◌-◌};
ghost use Rattle.rasn_types.specs.Truth.{IsWhether};
ghost use Rattle.rasn_types.specs.Tags.{form, IsStrict};
ghost use Rattle.rasn_types.specs.Framing.{HasIndefinite};
ghost use Rattle.rasn_types.specs.Bytes.{IsCer};
ghost use Rattle.rasn_types.specs.Rules.{codec_of};
ghost use Rattle.rasn_types.specs.declared.types.codec.Codec.TheVariants.{Ber};

use crate::types::Codec;

/// The highest number of contents octets in one segment of a string under the canonical rules
/// (X.690 9.2).
pub const MAX_SEGMENT_LENGTH: usize = 1000;

/// A set of encoding rules, with methods that say what the rules allow.
#[derive(Clone, Copy, Debug, PartialEq, Eq, PartialOrd, Ord)]
pub enum EncodingRules {
    /// Basic encoding rules (X.690 8).
    Ber,
    /// Canonical encoding rules (X.690 9, 11).
    Cer,
    /// Distinguished encoding rules (X.690 10, 11).
    Der,
}

impl EncodingRules {
    /// Returns the rules with this name.
    #[inline]
    pub fn of_codec(codec: Codec) -> EncodingRules
        ensures { codec_of result ≡ codec }
    {
        match codec {
            Codec::Ber => EncodingRules::Ber,
            Codec::Cer => EncodingRules::Cer,
            Codec::Der => EncodingRules::Der,
        }
    }

    /// Returns the name of the rules.
    #[inline]
    pub fn codec(self) -> Codec
        ensures { result ≡ codec_of self }
    {
        match self {
            EncodingRules::Ber => Codec::Ber,
            EncodingRules::Cer => Codec::Cer,
            EncodingRules::Der => Codec::Der,
        }
    }

    /// Returns whether these are the basic rules, under which a value may have several encodings.
    #[inline]
    pub fn is_ber(self) -> bool
        ensures { IsWhether result (codec_of self ≡ Ber) }
    {
        matches!(self, EncodingRules::Ber)
    }

    /// Returns whether these are the canonical rules, under which constructed values are written in
    /// the indefinite form and long strings in segments (X.690 9.1, 9.2).
    #[inline]
    pub fn is_cer(self) -> bool
        ensures { IsWhether result (IsCer (codec_of self)) }
    {
        matches!(self, EncodingRules::Cer)
    }

    /// Returns whether these are the distinguished rules, under which each value has one encoding
    /// and no other is read (X.690 10, 11).
    #[inline]
    pub fn is_der(self) -> bool
        ensures { IsWhether result (IsStrict (codec_of self)) }
    {
        matches!(self, EncodingRules::Der)
    }

    /// Returns whether strings may be constructed of segments (X.690 8.6.4, 8.7.3, 10.2).
    #[inline]
    pub fn allows_constructed_strings(self) -> bool
        ensures { IsWhether result (IsStrict (codec_of self) → ⊥) }
    {
        matches!(self, EncodingRules::Ber | EncodingRules::Cer)
    }

    /// Returns whether lengths may have the indefinite form (X.690 8.1.3.6, 10.1), so that
    /// end-of-contents octets may follow values.
    #[inline]
    pub fn allows_indefinite(self) -> bool
        ensures { IsWhether result (HasIndefinite (form (codec_of self))) }
    {
        matches!(self, EncodingRules::Ber | EncodingRules::Cer)
    }

    /// Returns the highest number of contents octets that are written in one segment of a string:
    /// 1000 under the canonical rules (X.690 9.2), otherwise `usize::MAX`.
    #[inline]
    pub fn max_string_length(self) -> usize
        ensures canonical { IsCer (codec_of self) → result ≡ 1000 }
        ensures others { (IsCer (codec_of self) → ⊥) → result ≡ 2 ^ 64 - 1 }
    {
        match self {
            EncodingRules::Cer => MAX_SEGMENT_LENGTH,
            EncodingRules::Ber | EncodingRules::Der => usize::MAX,
        }
    }
}
