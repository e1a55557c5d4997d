//! Headers: identifier and length octets, how they may be encoded (X.690 8.1, 10.1), and which tag
//! and constructed bit they must have.
ghost use Rattle.std.specs.Prelude.{◌≡◌, true, Ok, IfSome};
ghost use Rattle.rasn_types.specs.declared.types.codec.Codec.{Codec};
ghost use Rattle.rasn_types.specs.Framing.{AreOctets, NextTag};
ghost use Rattle.rasn_types.specs.Tags.{form, loose, is_eoc, tag_bit};
ghost use Rattle.rasn_de.specs.Headers.{spelled, tagged_at, expected_at, header_at, as_written, IsPrimitiveIdentifier, number128_at, number256_at, first_octets, is_padded, is_longer, tag_number_at, identifier_by, begins_with_zero, has_spare, length_at, header_by, long_at, contents_at, class_of};
ghost use Rattle.rasn_de.specs.ParserViews.{ParsesAs, pair, both, identified, header};

use crate::ber::de::parser::{Contents, ParseError, Value};
use crate::ber::rules::{allows_indefinite, is_der};
use rasn_types::ber::{Identifier, is_always_constructed};
use rasn_types::error::DerDecodeErrorKind;
use rasn_types::types::{Class, Codec, Tag};

/// The ways in which headers may be encoded.
#[derive(Clone, Copy, Debug)]
pub struct Spelling {
    /// Whether superfluous octets are refused.
    pub shortest: bool,
    /// Whether lengths may have the indefinite form.
    pub indefinite: bool,
}

impl Spelling {
    /// Returns how headers may be encoded under these rules.
    pub fn of_rule(rule: Codec) -> Spelling
        ensures { result ≡ spelled (form rule) }
    {
        Spelling {
            shortest: is_der(rule),
            indefinite: allows_indefinite(rule),
        }
    }

    /// Returns how headers may be encoded in an open type under these rules: in any number of
    /// octets, and under DER only in the definite form.
    pub fn loose(rule: Codec) -> Spelling
        ensures { result ≡ spelled (loose rule) }
    {
        Spelling {
            shortest: false,
            indefinite: allows_indefinite(rule),
        }
    }
}

/// The identifier that must follow.
#[derive(Clone, Copy, Debug)]
pub enum Expected {
    /// Any identifier.
    AnyTag,
    /// An identifier with this tag.
    Tagged(Tag),
    /// This identifier, including its constructed bit.
    Exactly(Identifier),
}

impl Expected {
    /// Returns the requirement that an identifier has this tag and, under DER, the constructed bit
    /// that the type is written with.
    pub fn as_written(rule: Codec, tag: Tag, bit: bool) -> Expected
        ensures { result ≡ as_written rule tag bit }
    {
        if is_der(rule) {
            Expected::Exactly(Identifier::from_tag(tag, bit))
        } else {
            Expected::Tagged(tag)
        }
    }

    /// Returns the requirement that an identifier has this tag and, under DER, the constructed bit
    /// that a value which contains no others is written with.
    pub fn leaf(rule: Codec, tag: Tag) -> Expected
        ensures { result ≡ as_written rule tag (tag_bit tag) }
    {
        Expected::as_written(rule, tag, is_always_constructed(tag))
    }

    /// Checks an identifier: first its tag, then its constructed bit.
    pub fn check(self, identifier: Identifier) -> Result<(), ParseError>
        ensures { ParsesAs (λ _. record {}) result (expected_at self identifier.tag identifier.bit) }
    {
        match self {
            Expected::AnyTag => Ok(()),
            Expected::Tagged(wanted) => check_tag(wanted, identifier.tag),
            Expected::Exactly(wanted) => {
                check_tag(wanted.tag, identifier.tag)?;
                if identifier.is_constructed() == wanted.is_constructed() {
                    Ok(())
                } else {
                    Err(ParseError::Der(DerDecodeErrorKind::ConstructedBitMismatch))
                }
            }
        }
    }
}

/// Checks that a tag is the expected one.
fn check_tag(wanted: Tag, tag: Tag) -> Result<(), ParseError>
    ensures { ParsesAs (λ _. record {}) result (tagged_at wanted tag) }
{
    if tag == wanted {
        Ok(())
    } else {
        Err(ParseError::MismatchedTag {
            expected: wanted,
            actual: tag,
        })
    }
}

/// Reads a number below 2^32 in base 128, whose last octet is below 128, and returns it and what
/// follows. A number of 2^32 or more is the fault `wide`.
#[tactic(auto, unfolding(crate::specs::Headers::number128_at))]
pub fn read_number128(wide: ParseError, input: &[u8]) -> Result<(u32, &[u8]), ParseError>
    ensures { ParsesAs pair result (number128_at wide 0 input.now) }
{
    let mut number: u32 = 0;
    let mut rest = input;
    while let [octet, after @ ..] = rest {
        if number >= 0x200_0000 {
            return Err(wide);
        }
        if *octet < 128 {
            return Ok((number * 128 + u32::from(*octet), after));
        }
        number = number * 128 + u32::from(*octet % 128);
        rest = after;
    }
    Err(ParseError::Incomplete { needed: 1 })
}

/// Returns the class that the first two bits of an identifier name.
fn class_at(n: u8) -> Class
    ensures { result ≡ class_of n }
{
    match n {
        0 => Class::Universal,
        1 => Class::Application,
        2 => Class::Context,
        _ => Class::Private,
    }
}

/// Returns whether the first seven bits of a number in base 128 are zero, so that its first octet
/// is superfluous (X.690 8.1.2.4.2, 8.19.2).
pub fn is_padded(input: &[u8]) -> bool
    ensures { result ≡ is_padded input.now }
{
    match input {
        [0x80, ..] => true,
        _ => false,
    }
}

/// Reads the tag number of an identifier from its first octet and those that follow (X.690 8.1.2.2,
/// 8.1.2.4), and returns it and what follows them.
#[tactic(auto, unfolding(crate::specs::Headers::tag_number_at))]
fn read_tag_number(first: u8, input: &[u8]) -> Result<(u32, &[u8]), ParseError>
    ensures { ParsesAs pair result (tag_number_at first input.now) }
{
    if first % 32 != 31 {
        return Ok((u32::from(first % 32), input));
    }
    read_number128(ParseError::UnsupportedTagNumber, input)
}

/// Returns whether the tag number in the octets after the first could be encoded in fewer octets.
fn is_longer(first: u8, input: &[u8], number: u32) -> bool
    ensures { result ≡ is_longer first input.now number }
{
    first % 32 == 31 && (is_padded(input) || number < 31)
}

/// Returns whether this is the tag of end-of-contents octets, which no value has (X.690 8.1.5).
fn is_end_of_contents(tag: Tag) -> bool
    ensures { result ≡ is_eoc tag }
{
    match tag.class {
        Class::Universal => tag.value == 0,
        _ => false,
    }
}

/// Reads the identifier at the start of the input, and returns it and what follows. If `shortest`
/// is set, the identifier must have no superfluous octets.
#[tactic(auto, using(crate::proofs::Headers::Results::octets_all), unfolding(crate::specs::Headers::identifier_by))]
#[inline(always)]
pub fn read_identifier(shortest: bool, input: &[u8]) -> Result<(Identifier, &[u8]), ParseError>
    ensures exact { ParsesAs identified result (identifier_by shortest input.now) }
    ensures octets { AreOctets input.now }
{
    match input {
        [] => Err(ParseError::Incomplete { needed: 1 }),
        [first, more @ ..] => {
            let (number, rest) = read_tag_number(*first, more)?;
            let tag = Tag {
                class: class_at(*first / 64),
                value: number,
            };
            if is_end_of_contents(tag) {
                return Err(ParseError::UnexpectedEndOfContents);
            }
            if shortest && is_longer(*first, more, number) {
                return Err(ParseError::Der(DerDecodeErrorKind::NonMinimalTagNumber));
            }
            Ok((Identifier::from_tag(tag, *first % 64 >= 32), rest))
        }
    }
}

/// Returns the length that these octets encode, if it is below 2^64.
#[tactic(auto, unfolding(crate::specs::Headers::number256_at))]
fn read_number256(octets: &[u8]) -> Result<usize, ParseError>
    ensures { ParsesAs (λ n. n) result (number256_at 0 octets.now) }
{
    let mut number: usize = 0;
    let mut rest = octets;
    while let [octet, after @ ..] = rest {
        if number >= 0x100_0000_0000_0000 {
            return Err(ParseError::LengthExceedsPlatformWidth);
        }
        number = number * 256 + usize::from(*octet);
        rest = after;
    }
    Ok(number)
}

/// Returns the first `count` octets, and what follows them.
fn take_octets(count: usize, input: &[u8]) -> Result<(&[u8], &[u8]), ParseError>
    ensures { ParsesAs both result (first_octets count input.now) }
{
    if input.len() < count {
        return Err(ParseError::Incomplete {
            needed: count - input.len(),
        });
    }
    Ok(input.split_at(count))
}

/// Returns whether the first octet is zero.
fn begins_with_zero(octets: &[u8]) -> bool
    ensures { result ≡ begins_with_zero octets.now }
{
    match octets {
        [0, ..] => true,
        _ => false,
    }
}

/// Returns whether `length`, which these octets encode, could be encoded in fewer octets.
fn has_spare(octets: &[u8], length: usize) -> bool
    ensures { result ≡ has_spare octets.now length }
{
    begins_with_zero(octets) || length < 128
}

/// Reads a length of `count` octets (X.690 8.1.3.5), and returns it and what follows.
#[tactic(auto, unfolding(crate::specs::Headers::long_at))]
#[inline(always)]
fn read_long(
    shortest: bool,
    count: usize,
    input: &[u8],
) -> Result<(Option<usize>, &[u8]), ParseError>
    ensures { ParsesAs pair result (long_at shortest count input.now) }
{
    let (octets, rest) = take_octets(count, input)?;
    let length = read_number256(octets)?;
    if shortest && has_spare(octets, length) {
        return Err(ParseError::Der(DerDecodeErrorKind::NonMinimalLength));
    }
    Ok((Some(length), rest))
}

/// Reads a length, which is `None` in the indefinite form. Only a constructed encoding may have
/// that form.
#[tactic(auto, unfolding(crate::specs::Headers::length_at))]
#[inline(always)]
fn read_length(
    spelling: Spelling,
    is_constructed: bool,
    input: &[u8],
) -> Result<(Option<usize>, &[u8]), ParseError>
    ensures { ParsesAs pair result (length_at spelling is_constructed input.now) }
{
    match input {
        [] => Err(ParseError::Incomplete { needed: 1 }),
        [first, rest @ ..] => match *first {
            0..=0x7F => Ok((Some(usize::from(*first)), rest)),
            0x80 if is_constructed && spelling.indefinite => Ok((None, rest)),
            0x80 => Err(ParseError::IndefiniteLengthNotAllowed),
            0xFF => Err(ParseError::ReservedLengthOctet),
            _ => read_long(spelling.shortest, usize::from(*first - 128), rest),
        },
    }
}

/// Returns the value whose header precedes the input, and what follows it. If `length` is `None`,
/// the length is indefinite, and the contents are still to be read.
fn read_contents(
    identifier: Identifier,
    length: Option<usize>,
    input: &[u8],
) -> Result<(Value<'_>, &[u8]), ParseError>
    ensures { ParsesAs header result (contents_at identifier.tag identifier.bit length input.now) }
{
    match length {
        None => Ok((
            Value {
                tag: identifier.tag,
                is_constructed: identifier.is_constructed(),
                contents: Contents::Indefinite,
            },
            input,
        )),
        Some(n) => {
            let (contents, rest) = take_octets(n, input)?;
            Ok((
                Value {
                    tag: identifier.tag,
                    is_constructed: identifier.is_constructed(),
                    contents: Contents::Definite(contents),
                },
                rest,
            ))
        }
    }
}

/// Returns the tag of the identifier with which the input begins, if that has one octet
/// (X.690 8.1.2.2). Under all rules, it is the next tag.
#[tactic(auto, using(crate::proofs::Headers::Results::octets_all, crate::proofs::Headers::Short::short_tag))]
#[inline(always)]
pub fn short_tag(input: &[u8]) -> Option<Tag>
    ensures next { IfSome result (λ tag. (rule : Codec) → NextTag (form rule) input.now tag) }
{
    let [first, ..] = input else {
        return None;
    };
    let tag = Tag {
        class: class_at(*first / 64),
        value: u32::from(*first % 32),
    };
    if tag.value == 31 || is_end_of_contents(tag) {
        return None;
    }
    Some(tag)
}

/// Returns whether an octet is the whole identifier of a primitive value with this tag, which may
/// be written as such (X.690 8.1.2.2, 8.1.2.3).
#[inline(always)]
fn is_primitive_identifier(tag: Tag, octet: u8) -> bool
    ensures { result ≡ true → IsPrimitiveIdentifier tag octet }
{
    let found = Tag {
        class: class_at(octet / 64),
        value: u32::from(octet % 64),
    };
    found == tag && tag.value < 31 && !is_end_of_contents(tag) && !is_always_constructed(tag)
}

/// Returns the value at the start of the input and what follows it, if the value is primitive and
/// has this tag, and its identifier and its length have one octet each (X.690 8.1.2.2, 8.1.3.4).
/// Under all rules, such a value is read.
#[tactic(auto, using(crate::proofs::Headers::Results::octets_all))]
#[inline(always)]
pub fn short_value(tag: Tag, input: &[u8]) -> Option<(Value<'_>, &[u8])>
    ensures exact { IfSome result (λ found. (rule : Codec) → header_at (form rule) (as_written rule tag (tag_bit tag)) input.now ≡ Ok (header found)) }
    ensures octets { AreOctets input.now }
{
    let [first, length, after @ ..] = input else {
        return None;
    };
    if *length > 127 || !is_primitive_identifier(tag, *first) {
        return None;
    }
    let (contents, rest) = after.split_at_checked(usize::from(*length))?;
    let value = Value {
        tag,
        is_constructed: false,
        contents: Contents::Definite(contents),
    };
    Some((value, rest))
}

/// Reads the header of the value at the start of the input, and its contents if the length is
/// definite. Returns them and what follows.
#[tactic(auto, unfolding(crate::specs::Headers::header_by))]
#[inline(always)]
pub fn read_value(
    spelling: Spelling,
    expected: Expected,
    input: &[u8],
) -> Result<(Value<'_>, &[u8]), ParseError>
    ensures exact { ParsesAs header result (header_by spelling expected input.now) }
    ensures octets { AreOctets input.now }
{
    let (identifier, rest) = match read_identifier(spelling.shortest, input) {
        Ok(found) => found,
        Err(fault) => return Err(fault),
    };
    expected.check(identifier)?;
    let (length, rest) = read_length(spelling, identifier.is_constructed(), rest)?;
    read_contents(identifier, length, rest)
}
