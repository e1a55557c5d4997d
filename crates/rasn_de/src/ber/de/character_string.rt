//! Character strings (X.690 8.23).
ghost use Rattle.std.specs.Prelude.{chars, ◌≡◌, ℕ, List, [], IfOk, IfErr, IsOk};
ghost use Rattle.std.specs.Cow.{cow_str_bytes, IsOwnedStr};
ghost use Rattle.std.specs.String.{string_bytes};
ghost use Rattle.rasn_types.specs.declared.types.strings.alphabet.Alphabet.TheVariants.{Numeric, Printable, Visible, Ia5, Every};
ghost use Rattle.rasn_types.specs.CharacterString.{string_kind, units_of};
ghost use Rattle.rasn_types.specs.Shapes.{leaf, numbers, numeric, printable, visible, ia5, any_octets, bmp, utf8};
ghost use Rattle.rasn_de.specs.Decodes.{Decodes};
ghost use Rattle.rasn_types.specs.Errors.{IsOutOfMemory};
ghost use Rattle.rasn_de.specs.Checks.{Checks, ChecksText, ChecksUnits};
ghost use Rattle.rasn_de.specs.OctetString.{cow_tree};
ghost use Rattle.rasn_de.specs.CharacterString.{DecodesBorrowed, ByAlphabet, ByUnits, ByUtf8, DecodesString, DecodesRestricted, DecodesText, ChecksString, ParsesUtf8};

use crate::ber::de::octet_string::owned;
use crate::ber::de::parser::ParseError;
use crate::ber::de::parser::alphabet_scan::AlphabetScan;
use crate::ber::de::parser::octet_count::OctetCount;
use crate::ber::de::parser::text_scan::{Held, TextScan};
use crate::ber::de::{Decoder, check_size};
use crate::de::Decode;
use rasn_types::error::DecodeError;
use rasn_types::types::{
    Alphabet, BmpString, Constraints, GeneralString, GeneralType, GraphicString, GraphicType,
    Ia5String, Ia5Type, NumericString, NumericType, PrintableString, PrintableType,
    RestrictedString, StringType, Tag, TeletexString, TeletexType, VisibleString, VisibleType,
};
use std::alloc::{AllocError, Global};
use std::borrow::{CowSlice, CowStr};
use std::marker::PhantomData;

/// Checks that the number of octets is within its bound, and then that all octets are in the
/// alphabet.
#[inline(always)]
fn check_alphabet(
    alphabet: Alphabet,
    constraints: &Constraints,
    octets: &[u8],
) -> Result<(), ParseError>
    ensures { ChecksString (ByAlphabet alphabet constraints.now.size) octets.now octets.now result }
{
    check_size(constraints, octets.len())?;
    match alphabet.first_foreign(octets) {
        None => Ok(()),
        Some(position) => Err(ParseError::PermittedAlphabetError {
            octet: octets[position],
            position,
        }),
    }
}

/// Checks that so many octets form 16-bit units, and then that the number of units is within its
/// bound.
fn check_units(constraints: &Constraints, len: usize) -> Result<(), ParseError>
    ensures { ChecksUnits constraints.now.size len result }
{
    if len % 2 != 0 {
        return Err(ParseError::StringConversionFailed {
            tag: Tag::BMP_STRING,
        });
    }
    check_size(constraints, len / 2)
}

/// Checks that the number of characters is within its bound. The characters are counted only if
/// there is a bound.
#[inline(always)]
fn check_characters(constraints: &Constraints, text: &str) -> Result<(), ParseError>
    ensures { ChecksString (ByUtf8 constraints.now.size) text.now (chars text.now) result }
{
    match constraints.size {
        None => Ok(()),
        Some(_) => check_size(constraints, text.chars().count()),
    }
}

/// Checks that octets are UTF-8, and then that the number of characters is within its bound.
#[inline(always)]
fn check_utf8(constraints: &Constraints, octets: &[u8]) -> Result<(), ParseError>
    ensures { ChecksString (ByUtf8 constraints.now.size) octets.now (chars octets.now) result }
{
    match str::from_utf8(octets) {
        Ok(text) => check_characters(constraints, text),
        Err(_) => Err(ParseError::StringConversionFailed {
            tag: Tag::UTF8_STRING,
        }),
    }
}

/// Returns octets as text, which is borrowed if they are.
#[inline(always)]
fn text_of(octets: CowSlice<'_, u8>) -> Result<CowStr<'_>, ParseError>
    ensures { ParsesUtf8 octets.entry result }
{
    let fault = ParseError::StringConversionFailed {
        tag: Tag::UTF8_STRING,
    };
    match octets {
        CowSlice::Borrowed(octets) => match str::from_utf8(octets) {
            Ok(text) => Ok(CowStr::Borrowed(text)),
            Err(_) => Err(fault),
        },
        CowSlice::Owned(octets) => match String::from_utf8(octets) {
            Ok(text) => Ok(CowStr::Owned(text)),
            Err(_) => Err(fault),
        },
    }
}

/// Text that is owned. No characters take no memory.
#[inline(always)]
fn owned_text(alloc: Global, text: CowStr<'_>) -> Result<String, AllocError>
    ensures ok { IfOk result (λ s. string_bytes s ≡ cow_str_bytes text.entry) }
    ensures succeeds { IsOwnedStr text.entry → IsOk result }
    ensures empty { chars (cow_str_bytes text.entry) ≡ [] → IsOk result }
{
    if text.as_str().is_empty() {
        return Ok(String::new(alloc));
    }
    text.into_owned(alloc)
}

impl<'input> Decoder<'input> {
    /// Reads a VisibleString of octets `20` to `7E`, whose size in octets meets the constraint
    /// (X.680 41).
    ///
    /// # Errors
    /// With nothing consumed: framing errors, errors of a segment, and `OutOfMemory` while segments
    /// are collected. With the value consumed: `SizeConstraintNotSatisfied`,
    /// `PermittedAlphabetError`, then `OutOfMemory` for the copy of a primitive string.
    pub fn decode_visible_string(
        &mut self,
        tag: Tag,
        constraints: &Constraints,
    ) -> Result<VisibleString, DecodeError>
        ensures reads { Decodes (leaf visible tag constraints.now) numbers self.old result self.new }
        ensures exact { DecodesString (λ s. s) (ByAlphabet Visible constraints.now.size) tag self.old result self.new }
        ensures rules { IfErr result (λ e. e.codec ≡ self.old.rule) }
    {
        self.restricted::<VisibleType>(tag, constraints)
    }

    /// Reads an IA5String of octets `00` to `7F`, whose size in octets meets the constraint
    /// (X.680 41).
    ///
    /// # Errors
    /// With nothing consumed: framing errors, errors of a segment, and `OutOfMemory` while segments
    /// are collected. With the value consumed: `SizeConstraintNotSatisfied`,
    /// `PermittedAlphabetError`, then `OutOfMemory` for the copy of a primitive string.
    pub fn decode_ia5_string(
        &mut self,
        tag: Tag,
        constraints: &Constraints,
    ) -> Result<Ia5String, DecodeError>
        ensures reads { Decodes (leaf ia5 tag constraints.now) numbers self.old result self.new }
        ensures exact { DecodesString (λ s. s) (ByAlphabet Ia5 constraints.now.size) tag self.old result self.new }
        ensures rules { IfErr result (λ e. e.codec ≡ self.old.rule) }
    {
        self.restricted::<Ia5Type>(tag, constraints)
    }

    /// Reads a PrintableString of letters, digits, space and `' ( ) + , - . / : = ?`, whose size in
    /// octets meets the constraint (X.680 41).
    ///
    /// # Errors
    /// With nothing consumed: framing errors, errors of a segment, and `OutOfMemory` while segments
    /// are collected. With the value consumed: `SizeConstraintNotSatisfied`,
    /// `PermittedAlphabetError`, then `OutOfMemory` for the copy of a primitive string.
    pub fn decode_printable_string(
        &mut self,
        tag: Tag,
        constraints: &Constraints,
    ) -> Result<PrintableString, DecodeError>
        ensures reads { Decodes (leaf printable tag constraints.now) numbers self.old result self.new }
        ensures exact { DecodesString (λ s. s) (ByAlphabet Printable constraints.now.size) tag self.old result self.new }
        ensures rules { IfErr result (λ e. e.codec ≡ self.old.rule) }
    {
        self.restricted::<PrintableType>(tag, constraints)
    }

    /// Reads a NumericString of digits and space, whose size in octets meets the constraint
    /// (X.680 41).
    ///
    /// # Errors
    /// With nothing consumed: framing errors, errors of a segment, and `OutOfMemory` while segments
    /// are collected. With the value consumed: `SizeConstraintNotSatisfied`,
    /// `PermittedAlphabetError`, then `OutOfMemory` for the copy of a primitive string.
    pub fn decode_numeric_string(
        &mut self,
        tag: Tag,
        constraints: &Constraints,
    ) -> Result<NumericString, DecodeError>
        ensures reads { Decodes (leaf numeric tag constraints.now) numbers self.old result self.new }
        ensures exact { DecodesString (λ s. s) (ByAlphabet Numeric constraints.now.size) tag self.old result self.new }
        ensures rules { IfErr result (λ e. e.codec ≡ self.old.rule) }
    {
        self.restricted::<NumericType>(tag, constraints)
    }

    /// Reads a TeletexString of any octets, whose size in octets meets the constraint (X.680 41).
    ///
    /// # Errors
    /// With nothing consumed: framing errors, errors of a segment, and `OutOfMemory` while segments
    /// are collected. With the value consumed: `SizeConstraintNotSatisfied`, then `OutOfMemory` for
    /// the copy of a primitive string.
    pub fn decode_teletex_string(
        &mut self,
        tag: Tag,
        constraints: &Constraints,
    ) -> Result<TeletexString, DecodeError>
        ensures reads { Decodes (leaf any_octets tag constraints.now) numbers self.old result self.new }
        ensures exact { DecodesString (λ s. s) (ByAlphabet Every constraints.now.size) tag self.old result self.new }
        ensures rules { IfErr result (λ e. e.codec ≡ self.old.rule) }
    {
        self.restricted::<TeletexType>(tag, constraints)
    }

    /// Reads a GeneralString of any octets, whose size in octets meets the constraint (X.680 41).
    ///
    /// # Errors
    /// With nothing consumed: framing errors, errors of a segment, and `OutOfMemory` while segments
    /// are collected. With the value consumed: `SizeConstraintNotSatisfied`, then `OutOfMemory` for
    /// the copy of a primitive string.
    pub fn decode_general_string(
        &mut self,
        tag: Tag,
        constraints: &Constraints,
    ) -> Result<GeneralString, DecodeError>
        ensures reads { Decodes (leaf any_octets tag constraints.now) numbers self.old result self.new }
        ensures exact { DecodesString (λ s. s) (ByAlphabet Every constraints.now.size) tag self.old result self.new }
        ensures rules { IfErr result (λ e. e.codec ≡ self.old.rule) }
    {
        self.restricted::<GeneralType>(tag, constraints)
    }

    /// Reads a GraphicString of any octets, whose size in octets meets the constraint (X.680 41).
    ///
    /// # Errors
    /// With nothing consumed: framing errors, errors of a segment, and `OutOfMemory` while segments
    /// are collected. With the value consumed: `SizeConstraintNotSatisfied`, then `OutOfMemory` for
    /// the copy of a primitive string.
    pub fn decode_graphic_string(
        &mut self,
        tag: Tag,
        constraints: &Constraints,
    ) -> Result<GraphicString, DecodeError>
        ensures reads { Decodes (leaf any_octets tag constraints.now) numbers self.old result self.new }
        ensures exact { DecodesString (λ s. s) (ByAlphabet Every constraints.now.size) tag self.old result self.new }
        ensures rules { IfErr result (λ e. e.codec ≡ self.old.rule) }
    {
        self.restricted::<GraphicType>(tag, constraints)
    }

    /// Reads a BMPString of 16-bit units, the number of which meets the size constraint
    /// (X.690 8.23.8).
    ///
    /// # Errors
    /// With nothing consumed: framing errors, errors of a segment, and `OutOfMemory` while segments
    /// are collected. With the value consumed: `StringConversionFailed` for an odd number of
    /// octets, `SizeConstraintNotSatisfied`, then `OutOfMemory` for the copy of a primitive string.
    pub fn decode_bmp_string(
        &mut self,
        tag: Tag,
        constraints: &Constraints,
    ) -> Result<BmpString, DecodeError>
        ensures reads { Decodes (leaf bmp tag constraints.now) (λ s. numbers (units_of s)) self.old result self.new }
        ensures exact { DecodesString units_of (ByUnits constraints.now.size) tag self.old result self.new }
        ensures rules { IfErr result (λ e. e.codec ≡ self.old.rule) }
    {
        let octets = self.octets(tag)?;
        if let Err(fault) = check_units(constraints, octets.len()) {
            return Err(self.error(fault));
        }
        match owned(self.alloc(), octets) {
            Ok(octets) => Ok(BmpString::from_paired(octets)),
            Err(_) => Err(self.error(ParseError::OutOfMemory)),
        }
    }

    /// Checks and consumes a BMPString without building a value. Nothing is allocated.
    ///
    /// # Errors
    /// As `decode_bmp_string`, except `OutOfMemory`.
    pub fn check_bmp_string(
        &mut self,
        tag: Tag,
        constraints: &Constraints,
    ) -> Result<(), DecodeError>
        ensures reads { Checks (leaf bmp tag constraints.now) self.old result self.new }
        ensures exact { ChecksText (ByUnits constraints.now.size) tag self.old result self.new }
        ensures memory { IfErr result (λ e. IsOutOfMemory e.kind → ⊥) }
        ensures rules { IfErr result (λ e. e.codec ≡ self.old.rule) }
    {
        let mut count = OctetCount { len: 0 };
        self.see_segments(Tag::OCTET_STRING, tag, &mut count)?;
        match check_units(constraints, count.len) {
            Ok(()) => Ok(()),
            Err(fault) => Err(self.error(fault)),
        }
    }

    /// Reads a UTF8String whose size in characters meets the constraint (X.690 8.23.10).
    ///
    /// # Errors
    /// With nothing consumed: framing errors, errors of a segment, and `OutOfMemory` while segments
    /// are collected. With the value consumed: `StringConversionFailed` if the octets of all
    /// segments together aren't UTF-8, `SizeConstraintNotSatisfied`, then `OutOfMemory` for the
    /// copy of a primitive string.
    #[inline(always)]
    pub fn decode_utf8_string(
        &mut self,
        tag: Tag,
        constraints: &Constraints,
    ) -> Result<String, DecodeError>
        ensures reads { Decodes (leaf utf8 tag constraints.now) (λ s. numbers (chars (string_bytes s))) self.old result self.new }
        ensures exact { DecodesString (λ s. chars (string_bytes s)) (ByUtf8 constraints.now.size) tag self.old result self.new }
        ensures rules { IfErr result (λ e. e.codec ≡ self.old.rule) }
    {
        let text = self.decode_utf8_text(tag, constraints)?;
        match owned_text(self.alloc(), text) {
            Ok(text) => Ok(text),
            Err(_) => Err(self.error(ParseError::OutOfMemory)),
        }
    }

    /// Reads a UTF8String as `decode_utf8_string` does, but borrows the characters of a primitive
    /// one from the input.
    ///
    /// # Errors
    /// As `decode_utf8_string`, except `OutOfMemory` for a copy.
    #[inline(always)]
    pub fn decode_utf8_text(
        &mut self,
        tag: Tag,
        constraints: &Constraints,
    ) -> Result<CowStr<'input>, DecodeError>
        ensures reads { Decodes (leaf utf8 tag constraints.now) (λ s. numbers (chars (cow_str_bytes s))) self.old result self.new }
        ensures exact { DecodesText tag constraints.now self.old result self.new }
        ensures rules { IfErr result (λ e. e.codec ≡ self.old.rule) }
    {
        let octets = self.octets(tag)?;
        let text = match text_of(octets) {
            Ok(text) => text,
            Err(fault) => return Err(self.error(fault)),
        };
        match check_characters(constraints, text.as_str()) {
            Ok(()) => Ok(text),
            Err(fault) => Err(self.error(fault)),
        }
    }

    /// Checks and consumes a UTF8String as `decode_utf8_string` does, without building a value.
    /// Nothing is allocated.
    ///
    /// # Errors
    /// As `decode_utf8_string`, except `OutOfMemory`.
    pub fn check_utf8_string(
        &mut self,
        tag: Tag,
        constraints: &Constraints,
    ) -> Result<(), DecodeError>
        ensures reads { Checks (leaf utf8 tag constraints.now) self.old result self.new }
        ensures exact { ChecksText (ByUtf8 constraints.now.size) tag self.old result self.new }
        ensures memory { IfErr result (λ e. IsOutOfMemory e.kind → ⊥) }
        ensures rules { IfErr result (λ e. e.codec ≡ self.old.rule) }
    {
        let Some(octets) = self.primitive_octets(tag)? else {
            return self.check_utf8_segments(tag, constraints);
        };
        match check_utf8(constraints, octets) {
            Ok(()) => Ok(()),
            Err(fault) => Err(self.error(fault)),
        }
    }

    /// Checks a UTF8String segment by segment.
    fn check_utf8_segments(
        &mut self,
        tag: Tag,
        constraints: &Constraints,
    ) -> Result<(), DecodeError>
        ensures reads { Checks (leaf utf8 tag constraints.now) self.old result self.new }
        ensures exact { ChecksText (ByUtf8 constraints.now.size) tag self.old result self.new }
        ensures memory { IfErr result (λ e. IsOutOfMemory e.kind → ⊥) }
        ensures rules { IfErr result (λ e. e.codec ≡ self.old.rule) }
    {
        let mut scan = TextScan {
            count: 0,
            held: Held::Nothing,
        };
        self.see_segments(Tag::OCTET_STRING, tag, &mut scan)?;
        match scan.check(constraints) {
            Ok(()) => Ok(()),
            Err(fault) => Err(self.error(fault)),
        }
    }

    /// Reads a string whose octets are characters of one alphabet, and whose size in octets meets
    /// the constraint (X.680 41). The octets of a primitive one are borrowed from the input.
    ///
    /// # Errors
    /// With nothing consumed: framing errors, errors of a segment, and `OutOfMemory` while segments
    /// are collected. With the value consumed: `SizeConstraintNotSatisfied`, then
    /// `PermittedAlphabetError`.
    #[inline(always)]
    pub fn decode_restricted_string(
        &mut self,
        alphabet: Alphabet,
        tag: Tag,
        constraints: &Constraints,
    ) -> Result<CowSlice<'input, u8>, DecodeError>
        ensures reads { Decodes (leaf (string_kind alphabet) tag constraints.now) cow_tree self.old result self.new }
        ensures exact { DecodesRestricted alphabet tag constraints.now self.old result self.new }
        ensures rules { IfErr result (λ e. e.codec ≡ self.old.rule) }
    {
        let octets = self.octets(tag)?;
        match check_alphabet(alphabet, constraints, octets.as_slice()) {
            Ok(()) => Ok(octets),
            Err(fault) => Err(self.error(fault)),
        }
    }

    /// Checks and consumes a string as `decode_restricted_string` does, without building a value.
    /// Nothing is allocated.
    ///
    /// # Errors
    /// As `decode_restricted_string`, except `OutOfMemory`.
    pub fn check_restricted_string(
        &mut self,
        alphabet: Alphabet,
        tag: Tag,
        constraints: &Constraints,
    ) -> Result<(), DecodeError>
        ensures reads { Checks (leaf (string_kind alphabet) tag constraints.now) self.old result self.new }
        ensures exact { ChecksText (ByAlphabet alphabet constraints.now.size) tag self.old result self.new }
        ensures memory { IfErr result (λ e. IsOutOfMemory e.kind → ⊥) }
        ensures rules { IfErr result (λ e. e.codec ≡ self.old.rule) }
    {
        match alphabet {
            Alphabet::Numeric => self.check_restricted::<NumericType>(tag, constraints),
            Alphabet::Printable => self.check_restricted::<PrintableType>(tag, constraints),
            Alphabet::Visible => self.check_restricted::<VisibleType>(tag, constraints),
            Alphabet::Ia5 => self.check_restricted::<Ia5Type>(tag, constraints),
            Alphabet::Every => self.check_restricted::<GeneralType>(tag, constraints),
        }
    }

    /// Reads a string of a type whose octets are characters of one alphabet, and makes nothing of
    /// it.
    #[inline(always)]
    fn check_restricted<S: StringType>(
        &mut self,
        tag: Tag,
        constraints: &Constraints,
    ) -> Result<(), DecodeError>
        ensures reads { Checks (leaf (string_kind S.ALPHABET) tag constraints.now) self.old result self.new }
        ensures exact { ChecksText (ByAlphabet S.ALPHABET constraints.now.size) tag self.old result self.new }
        ensures memory { IfErr result (λ e. IsOutOfMemory e.kind → ⊥) }
        ensures rules { IfErr result (λ e. e.codec ≡ self.old.rule) }
    {
        let mut scan = AlphabetScan::<S> {
            len: 0,
            foreign: None,
            of: PhantomData,
        };
        self.see_segments(Tag::OCTET_STRING, tag, &mut scan)?;
        match scan.check(constraints) {
            Ok(()) => Ok(()),
            Err(fault) => Err(self.error(fault)),
        }
    }

    /// Reads a string as `decode_restricted_string` does, but copies borrowed octets.
    #[inline(always)]
    pub(crate) fn restricted<S: StringType>(
        &mut self,
        tag: Tag,
        constraints: &Constraints,
    ) -> Result<RestrictedString<S>, DecodeError>
        ensures reads { Decodes (leaf (string_kind S.ALPHABET) tag constraints.now) numbers self.old result self.new }
        ensures exact { DecodesString (λ s. s) (ByAlphabet S.ALPHABET constraints.now.size) tag self.old result self.new }
        ensures rules { IfErr result (λ e. e.codec ≡ self.old.rule) }
    {
        let octets = self.decode_restricted_string(S::ALPHABET, tag, constraints)?;
        match owned(self.alloc(), octets) {
            Ok(octets) => Ok(RestrictedString::from_admitted(octets)),
            Err(_) => Err(self.error(ParseError::OutOfMemory)),
        }
    }
}

impl<S: StringType> Decode for RestrictedString<S> {
    ghost use Rattle.std.specs.Prelude.{ℕ, List};
    ghost use Rattle.rasn_de.specs.CharacterString.{ByAlphabet, DecodesString};
    ghost use Rattle.rasn_de.specs.ValueErrors.{errors_of};

    ghost errors = { λ tag c. errors_of (DecodesString (λ (l : List ℕ). l) (ByAlphabet S.ALPHABET c.size) tag) };

    #[inline(always)]
    fn decode_with_tag_and_constraints(
        decoder: &mut Decoder<'_>,
        tag: Tag,
        constraints: &Constraints,
    ) -> Result<RestrictedString<S>, DecodeError> {
        decoder.restricted(tag, constraints)
    }
}

impl Decode for BmpString {
    ghost use Rattle.std.specs.Prelude.{ℕ, List};
    ghost use Rattle.rasn_de.specs.CharacterString.{ByUnits, DecodesString};
    ghost use Rattle.rasn_de.specs.ValueErrors.{errors_of};

    ghost errors = { λ tag c. errors_of (DecodesString (λ (l : List ℕ). l) (ByUnits c.size) tag) };

    fn decode_with_tag_and_constraints(
        decoder: &mut Decoder<'_>,
        tag: Tag,
        constraints: &Constraints,
    ) -> Result<BmpString, DecodeError> {
        decoder.decode_bmp_string(tag, constraints)
    }
}

impl Decode for String {
    ghost use Rattle.std.specs.Prelude.{ℕ, List};
    ghost use Rattle.rasn_de.specs.CharacterString.{ByUtf8, DecodesString};
    ghost use Rattle.rasn_de.specs.ValueErrors.{errors_of};

    ghost errors = { λ tag c. errors_of (DecodesString (λ (l : List ℕ). l) (ByUtf8 c.size) tag) };

    #[inline(always)]
    fn decode_with_tag_and_constraints(
        decoder: &mut Decoder<'_>,
        tag: Tag,
        constraints: &Constraints,
    ) -> Result<String, DecodeError> {
        decoder.decode_utf8_string(tag, constraints)
    }
}
