//! Times (X.680 38.4.1, 46, 47; X.690 11.7, 11.8).
ghost use Rattle.std.specs.Prelude.{◌≡◌, IfErr};
ghost use Rattle.std.specs.String.{string_bytes};
ghost use Rattle.rasn_types.specs.declared.types.constraints.Constraints.{Constraints};
ghost use Rattle.rasn_types.specs.Framing.{AreOctets};
ghost use Rattle.rasn_types.specs.Options.{IsSomeRelated};
ghost use Rattle.rasn_types.specs.Shapes.{leaf, utc_time, generalized_time, date, instant, on_day};
ghost use Rattle.rasn_types.specs.Time.{GeneralUtc, CanonicalUtc, GeneralGeneralized, StrictGeneralized, DateText};
ghost use Rattle.rasn_types.specs.Grammar.{UtcText, GeneralizedText};
ghost use Rattle.rasn_de.specs.Decodes.{Decodes};
ghost use Rattle.rasn_de.specs.Checks.{Checks, ChecksBy};
ghost use Rattle.rasn_de.specs.ShortText.{BeginsShortTime, TakesTime, IsTimeExactlyIf, is_constructed_next};
ghost use Rattle.rasn_de.specs.Time.{AtAnyOffset, IsInvalidDate, IsInvalidText, IsInvalidString, ParsesTime, ParsesCopiedTime, DecodesTime};

use crate::ber::de::Decoder;
use crate::ber::de::octet_string::owned;
use crate::ber::de::parser::headers::{Expected, Spelling, read_value};
use crate::ber::de::parser::segments::string_contents;
use crate::ber::de::parser::short_text::ShortText;
use crate::de::Decode;
use rasn_types::ber::time::{
    parse_canonical_generalized_time, parse_canonical_utc_time, parse_date, parse_generalized_time,
    parse_strict_generalized_time, parse_utc_time,
};
use rasn_types::error::{BerDecodeErrorKind, CodecDecodeError, DecodeError, DecodeErrorKind};
use rasn_types::types::{Codec, Constraints, Date, GeneralizedTime, Tag, UtcTime};
use std::alloc::Global;
use std::borrow::CowSlice;

/// Parses a UTCTime: in any form under BER, in the canonical form under CER and DER.
fn read_utc_time(rules: Codec, text: &[u8]) -> Option<UtcTime>
    ensures { IsSomeRelated result (AtAnyOffset (UtcText rules) text.now) }
{
    match rules {
        Codec::Ber => parse_utc_time(text),
        Codec::Cer | Codec::Der => parse_canonical_utc_time(text),
    }
}

/// Parses a GeneralizedTime: in any form under BER, in the canonical form under CER, in the
/// shortest canonical form under DER.
fn read_generalized_time(rules: Codec, text: &[u8]) -> Option<GeneralizedTime>
    ensures { IsSomeRelated result (GeneralizedText rules text.now) }
{
    match rules {
        Codec::Ber => parse_generalized_time(text),
        Codec::Cer => parse_canonical_generalized_time(text),
        Codec::Der => parse_strict_generalized_time(text),
    }
}

/// Returns whether the input begins with an identifier that has the constructed bit (X.690
/// 8.1.2.5).
#[tactic(auto, using(crate::proofs::Headers::Results::octets_all))]
fn begins_constructed(input: &[u8]) -> bool
    ensures bit { result ≡ is_constructed_next input.now }
    ensures octets { AreOctets input.now }
{
    match input {
        [first, ..] => *first % 64 >= 32,
        [] => false,
    }
}

/// Returns whether a text of at most 32 octets is a time or a date.
fn is_time<T: TimeText>(rules: Codec, text: &ShortText) -> bool
    ensures { IsTimeExactlyIf result (T.means rules) text.now.octets text.now.len }
{
    let Some(octets) = text.as_slice() else {
        return false;
    };
    match T::parse(rules, octets) {
        Some(_) => true,
        None => false,
    }
}

/// Returns the error for a text that isn't a valid time or date.
fn invalid_date(octets: Vec<u8>, codec: Codec) -> DecodeError
    ensures { IsInvalidDate octets.items codec result }
{
    let inner = CodecDecodeError::Ber(BerDecodeErrorKind::InvalidDate { octets });
    DecodeError {
        kind: DecodeErrorKind::CodecSpecific { inner },
        codec,
    }
}

/// Returns the error for a text that isn't a valid time or date and has to be copied. If the
/// allocation for the copy fails, the error is `OutOfMemory`.
fn invalid_text(alloc: Global, text: &[u8], codec: Codec) -> DecodeError
    ensures { IsInvalidText text.now codec result }
{
    match owned(alloc, CowSlice::Borrowed(text)) {
        Ok(octets) => invalid_date(octets, codec),
        Err(_) => DecodeError {
            kind: DecodeErrorKind::OutOfMemory,
            codec,
        },
    }
}

/// A time or a date that has a text.
trait TimeText: Drop {
    ghost use Rattle.std.specs.Prelude.{List, ℕ};
    ghost use Rattle.rasn_types.specs.declared.types.codec.Codec.{Codec};
    ghost use Rattle.rasn_types.specs.Options.{IsSomeRelated};
    ghost use Rattle.rasn_de.specs.Time.{DecodesTime};

    ghost means: { Codec → List ℕ → Self → Type 0 };

    /// Parses a text that the rules allow.
    fn parse(rules: Codec, text: &[u8]) -> Option<Self>
        ensures { IsSomeRelated result (means rules text.now) };

    /// Reads a string whose text the rules allow.
    fn read(input: &mut Decoder<'_>, tag: Tag) -> Result<Self, DecodeError>
        ensures exact { DecodesTime (means input.old.rule) tag input.old result input.new }
        ensures rules { IfErr result (λ e. e.codec ≡ input.old.rule) };
}

impl TimeText for UtcTime {
    ghost means = { λ rules. AtAnyOffset (UtcText rules) };

    fn parse(rules: Codec, text: &[u8]) -> Option<UtcTime> {
        read_utc_time(rules, text)
    }

    #[inline(always)]
    fn read(input: &mut Decoder<'_>, tag: Tag) -> Result<UtcTime, DecodeError> {
        input.decode_utc_time(tag)
    }
}

impl TimeText for GeneralizedTime {
    ghost means = { GeneralizedText };

    fn parse(rules: Codec, text: &[u8]) -> Option<GeneralizedTime> {
        read_generalized_time(rules, text)
    }

    #[inline(always)]
    fn read(input: &mut Decoder<'_>, tag: Tag) -> Result<GeneralizedTime, DecodeError> {
        input.decode_generalized_time(tag)
    }
}

impl TimeText for Date {
    ghost means = { λ rules. DateText };

    fn parse(_rules: Codec, text: &[u8]) -> Option<Date> {
        parse_date(text)
    }

    #[inline(always)]
    fn read(input: &mut Decoder<'_>, tag: Tag) -> Result<Date, DecodeError> {
        input.decode_date(tag)
    }
}

impl<'input> Decoder<'input> {
    /// Consumes a string in segments if its text has at most 32 octets and is a time or a date.
    /// Returns whether it does; otherwise nothing is consumed.
    fn take_time<T: TimeText>(&mut self, tag: Tag) -> bool
        ensures exact { TakesTime T.means tag self.old result self.new }
        ensures octets { AreOctets self.old.rest }
    {
        if !begins_constructed(self.rest) {
            return false;
        }
        let Ok((value, rest)) = read_value(
            Spelling::of_rule(self.rules),
            Expected::Tagged(tag),
            self.rest,
        ) else {
            return false;
        };
        let mut text = ShortText::new();
        let inner = Tag::OCTET_STRING;
        match string_contents(self.rules, inner, self.depth, value, rest, &mut text) {
            Ok(rest) => if is_time::<T>(self.rules, &text) {
                self.advance(rest);
                true
            } else {
                false
            },
            Err(_) => false,
        }
    }

    /// Reads a time or a date, and returns no value.
    #[inline(always)]
    fn check_time<T: TimeText>(&mut self, tag: Tag) -> Result<(), DecodeError>
        ensures exact { ChecksBy (DecodesTime (T.means self.old.rule) tag) self.old result self.new }
        ensures memory { IfErr result (λ e. BeginsShortTime (T.means self.old.rule) tag self.old → ⊥) }
        ensures rules { IfErr result (λ e. e.codec ≡ self.old.rule) }
        ensures octets { AreOctets self.old.rest }
    {
        if self.take_time::<T>(tag) {
            return Ok(());
        }
        match T::read(self, tag) {
            Ok(_) => Ok(()),
            Err(error) => Err(error),
        }
    }

    /// Returns the error for a string that isn't a valid time or date. Only borrowed octets are
    /// copied for it.
    fn invalid_date(&self, text: CowSlice<'_, u8>) -> DecodeError
        ensures { IsInvalidString text.entry self.now.rule result }
    {
        match text {
            CowSlice::Borrowed(octets) => invalid_text(self.alloc(), octets, self.codec()),
            CowSlice::Owned(octets) => invalid_date(octets, self.codec()),
        }
    }

    /// Reads a UTCTime (X.680 47): in any form under BER, in the canonical form under CER and DER
    /// (X.690 11.8). A year YY from 70 on is 19YY, any other is 20YY.
    ///
    /// # Errors
    /// With nothing consumed: framing errors, errors of a segment, and `OutOfMemory` while segments
    /// are collected. With the value consumed: `InvalidDate` with the whole text, or `OutOfMemory`
    /// if the allocation for a copy of the text fails.
    pub fn decode_utc_time(&mut self, tag: Tag) -> Result<UtcTime, DecodeError>
        ensures reads { (c : Constraints) → Decodes (leaf utc_time tag c) (λ m. instant m) self.old result self.new }
        ensures exact { DecodesTime (AtAnyOffset (UtcText self.old.rule)) tag self.old result self.new }
        ensures rules { IfErr result (λ e. e.codec ≡ self.old.rule) }
    {
        let rules = self.codec();
        let text = self.octets(tag)?;
        match read_utc_time(rules, &text) {
            Some(time) => Ok(time),
            None => Err(self.invalid_date(text)),
        }
    }

    /// Reads a GeneralizedTime (X.680 46): in any form under BER, in the canonical form under CER
    /// and DER (X.690 11.7). Under DER, a fraction must have at most nine digits, the last of which
    /// isn't 0. A text without a zone is in UTC.
    ///
    /// # Errors
    /// As `decode_utc_time`.
    pub fn decode_generalized_time(&mut self, tag: Tag) -> Result<GeneralizedTime, DecodeError>
        ensures reads { (c : Constraints) → Decodes (leaf generalized_time tag c) (λ s. instant s.moment) self.old result self.new }
        ensures exact { DecodesTime (GeneralizedText self.old.rule) tag self.old result self.new }
        ensures rules { IfErr result (λ e. e.codec ≡ self.old.rule) }
    {
        let rules = self.codec();
        let text = self.octets(tag)?;
        match read_generalized_time(rules, &text) {
            Some(time) => Ok(time),
            None => Err(self.invalid_date(text)),
        }
    }

    /// Reads a DATE (X.680 38.4.1): eight digits, which are a year from 0 to 9999, a month and a
    /// day.
    ///
    /// # Errors
    /// As `decode_utc_time`.
    pub fn decode_date(&mut self, tag: Tag) -> Result<Date, DecodeError>
        ensures reads { (c : Constraints) → Decodes (leaf date tag c) (λ d. on_day d) self.old result self.new }
        ensures exact { DecodesTime DateText tag self.old result self.new }
        ensures rules { IfErr result (λ e. e.codec ≡ self.old.rule) }
    {
        let text = self.octets(tag)?;
        match parse_date(&text) {
            Some(day) => Ok(day),
            None => Err(self.invalid_date(text)),
        }
    }

    /// Reads a UTCTime as `decode_utc_time` does, and returns no value. Memory is taken
    /// only for an error, and for a text of more than 32 octets in segments.
    ///
    /// # Errors
    /// As `decode_utc_time`.
    pub fn check_utc_time(&mut self, tag: Tag) -> Result<(), DecodeError>
        ensures reads { (c : Constraints) → Checks (leaf utc_time tag c) self.old result self.new }
        ensures exact { ChecksBy (DecodesTime (AtAnyOffset (UtcText self.old.rule)) tag) self.old result self.new }
        ensures memory { IfErr result (λ e. BeginsShortTime (AtAnyOffset (UtcText self.old.rule)) tag self.old → ⊥) }
        ensures rules { IfErr result (λ e. e.codec ≡ self.old.rule) }
    {
        self.check_time::<UtcTime>(tag)
    }

    /// Reads a GeneralizedTime as `decode_generalized_time` does, and returns no value. Memory is
    /// taken only for an error, and for a text of more than 32 octets in segments.
    ///
    /// # Errors
    /// As `decode_generalized_time`.
    pub fn check_generalized_time(&mut self, tag: Tag) -> Result<(), DecodeError>
        ensures reads { (c : Constraints) → Checks (leaf generalized_time tag c) self.old result self.new }
        ensures exact { ChecksBy (DecodesTime (GeneralizedText self.old.rule) tag) self.old result self.new }
        ensures memory { IfErr result (λ e. BeginsShortTime (GeneralizedText self.old.rule) tag self.old → ⊥) }
        ensures rules { IfErr result (λ e. e.codec ≡ self.old.rule) }
    {
        self.check_time::<GeneralizedTime>(tag)
    }

    /// Reads a DATE as `decode_date` does, and returns no value. Memory is taken
    /// only for an error, and for a text of more than 32 octets in segments.
    ///
    /// # Errors
    /// As `decode_date`.
    pub fn check_date(&mut self, tag: Tag) -> Result<(), DecodeError>
        ensures reads { (c : Constraints) → Checks (leaf date tag c) self.old result self.new }
        ensures exact { ChecksBy (DecodesTime DateText tag) self.old result self.new }
        ensures memory { IfErr result (λ e. BeginsShortTime DateText tag self.old → ⊥) }
        ensures rules { IfErr result (λ e. e.codec ≡ self.old.rule) }
    {
        self.check_time::<Date>(tag)
    }

    /// Parses a GeneralizedTime in any form (X.680 46).
    ///
    /// # Errors
    /// `InvalidDate` with the whole text. The error names BER as its rules.
    pub fn parse_any_generalized_time_string(text: String) -> Result<GeneralizedTime, DecodeError>
        ensures { ParsesTime GeneralGeneralized (string_bytes text) result }
    {
        match parse_generalized_time(text.as_bytes()) {
            Some(time) => Ok(time),
            None => Err(invalid_date(text.into_bytes(), Codec::Ber)),
        }
    }

    /// Parses a GeneralizedTime in the canonical form (X.690 11.7) as DER reads it: a fraction has
    /// at most nine digits, the last of which isn't 0.
    ///
    /// # Errors
    /// `InvalidDate` with the whole text. The error names BER as its rules.
    pub fn parse_canonical_generalized_time_string(
        text: String,
    ) -> Result<GeneralizedTime, DecodeError>
        ensures { ParsesTime StrictGeneralized (string_bytes text) result }
    {
        match parse_strict_generalized_time(text.as_bytes()) {
            Some(time) => Ok(time),
            None => Err(invalid_date(text.into_bytes(), Codec::Ber)),
        }
    }

    /// Parses a UTCTime in any form (X.680 47).
    ///
    /// # Errors
    /// `InvalidDate` with the whole text. The error names BER as its rules.
    pub fn parse_any_utc_time_string(text: String) -> Result<UtcTime, DecodeError>
        ensures { ParsesTime (AtAnyOffset GeneralUtc) (string_bytes text) result }
    {
        match parse_utc_time(text.as_bytes()) {
            Some(time) => Ok(time),
            None => Err(invalid_date(text.into_bytes(), Codec::Ber)),
        }
    }

    /// Parses a UTCTime in the canonical form (X.690 11.8).
    ///
    /// # Errors
    /// `InvalidDate` with the whole text, or `OutOfMemory` if the allocation for its copy fails.
    /// The error names BER as its rules.
    pub fn parse_canonical_utc_time_string(
        alloc: Global,
        text: &str,
    ) -> Result<UtcTime, DecodeError>
        ensures { ParsesCopiedTime (AtAnyOffset CanonicalUtc) text.now result }
    {
        match parse_canonical_utc_time(text.as_bytes()) {
            Some(time) => Ok(time),
            None => Err(invalid_text(alloc, text.as_bytes(), Codec::Ber)),
        }
    }

    /// Parses the text of a DATE (X.680 38.4.1).
    ///
    /// # Errors
    /// As `parse_canonical_utc_time_string`.
    pub fn parse_date_string(alloc: Global, text: &str) -> Result<Date, DecodeError>
        ensures { ParsesCopiedTime DateText text.now result }
    {
        match parse_date(text.as_bytes()) {
            Some(day) => Ok(day),
            None => Err(invalid_text(alloc, text.as_bytes(), Codec::Ber)),
        }
    }
}

impl Decode for UtcTime {
    ghost use Rattle.rasn_types.specs.Grammar.{UtcText};
    ghost use Rattle.rasn_de.specs.Time.{AtAnyOffset, DecodesTime};
    ghost use Rattle.rasn_de.specs.ValueErrors.{errors_of};

    ghost errors = { λ tag c old. errors_of (DecodesTime (AtAnyOffset (UtcText old.rule)) tag) old };

    fn decode_with_tag_and_constraints(
        decoder: &mut Decoder<'_>,
        tag: Tag,
        _constraints: &Constraints,
    ) -> Result<UtcTime, DecodeError> {
        decoder.decode_utc_time(tag)
    }
}

/// Besides its instant, a GeneralizedTime has the offset of its text.
impl Decode for GeneralizedTime {
    ghost use Rattle.rasn_types.specs.Grammar.{GeneralizedText};
    ghost use Rattle.rasn_de.specs.Time.{DecodesTime};
    ghost use Rattle.rasn_de.specs.ValueErrors.{errors_of};

    ghost beyond = { λ tag old. DecodesTime (GeneralizedText old.rule) tag old };

    ghost errors = { λ tag c old. errors_of (DecodesTime (GeneralizedText old.rule) tag) old };

    fn decode_with_tag_and_constraints(
        decoder: &mut Decoder<'_>,
        tag: Tag,
        _constraints: &Constraints,
    ) -> Result<GeneralizedTime, DecodeError>
        ensures reads { Decodes (leaf generalized_time tag _constraints.now) (λ s. instant s.moment) decoder.old result decoder.new }
        ensures rules { IfErr result (λ e. e.codec ≡ decoder.old.rule) }
        ensures exact { DecodesTime (GeneralizedText decoder.old.rule) tag decoder.old result decoder.new }
    {
        decoder.decode_generalized_time(tag)
    }
}

impl Decode for Date {
    ghost use Rattle.rasn_types.specs.Time.{DateText};
    ghost use Rattle.rasn_de.specs.Time.{DecodesTime};
    ghost use Rattle.rasn_de.specs.ValueErrors.{errors_of};

    ghost errors = { λ tag c. errors_of (DecodesTime DateText tag) };

    fn decode_with_tag_and_constraints(
        decoder: &mut Decoder<'_>,
        tag: Tag,
        _constraints: &Constraints,
    ) -> Result<Date, DecodeError> {
        decoder.decode_date(tag)
    }
}
