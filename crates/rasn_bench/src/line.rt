//! The input lines of the program: `rule type hex`.
ghost use Rattle.std.specs.Prelude.{◌≡◌, ◌<◌, MatchOption, IfOk, IfSome, List, length, ℕ};
ghost use Rattle.rasn_types.specs.declared.types.codec.Codec.{Codec};
ghost use Rattle.rasn_bench.specs.Lines.{type_word, IsAsked, name_of, rule_name, IsRequest, Spells, octets_of_digits, pairs_at, pair_at, digit_at, BeginsWithPair, BeginsWithoutPair};
ghost use Rattle.rasn_bench.specs.declared.line.ValueType.{ValueType};

use rasn::types::Codec;
use std::alloc::{AllocError, Global};

/// A type that a line may name.
#[derive(Clone, Copy, Debug, PartialEq, Eq)]
pub enum ValueType {
    /// `bool`: BOOLEAN.
    Bool,
    /// `i32`: INTEGER (-2147483648..2147483647).
    I32,
    /// `u32`: INTEGER (0..4294967295).
    U32,
    /// `octets`: OCTET STRING.
    Octets,
    /// `pair`: SEQUENCE { INTEGER, BOOLEAN }.
    Pair,
    /// `integer`: INTEGER of any length.
    Integer,
    /// `utctime`: UTCTime.
    UtcTime,
    /// `gentime`: GeneralizedTime.
    GeneralizedTime,
    /// `date`: DATE.
    Date,
    /// `null`: NULL.
    Null,
    /// `oid`: OBJECT IDENTIFIER.
    ObjectIdentifier,
    /// `bits`: BIT STRING.
    Bits,
    /// `colour`: ENUMERATED { red (0), green (1), blue (2) }.
    Colour,
    /// `utf8`: UTF8String.
    Utf8,
    /// `ia5`: IA5String.
    Ia5,
    /// `printable`: PrintableString.
    Printable,
    /// `foo`: SEQUENCE { IA5String, BOOLEAN } (X.690 8.9.3).
    NamedFlag,
    /// `optbool`: a BOOLEAN that may be absent.
    OptionalBool,
    /// `validity`: Validity of a certificate (RFC 5280 4.1.2.5).
    Validity,
    /// `any`: an open type.
    Any,
    /// `algid`: AlgorithmIdentifier (RFC 5280 4.1.1.2).
    AlgorithmIdentifier,
    /// `rdn`: RelativeDistinguishedName (RFC 5280 4.1.2.4).
    RelativeDistinguishedName,
    /// `set3`: SET { \[0\], \[1\], \[2\] INTEGER (0..255) }, with implicit tags.
    Set3,
    /// `bag`: SET OF OCTET STRING.
    Bag,
}

impl ValueType {
    /// Returns the type of this name.
    pub fn of_name(name: &str) -> Option<ValueType>
        ensures { MatchOption result ((kind : ValueType) → name.now ≡ name_of kind → ⊥) (λ kind. name.now ≡ name_of kind) }
    {
        match name {
            "bool" => Some(ValueType::Bool),
            "i32" => Some(ValueType::I32),
            "u32" => Some(ValueType::U32),
            "octets" => Some(ValueType::Octets),
            "pair" => Some(ValueType::Pair),
            "integer" => Some(ValueType::Integer),
            "utctime" => Some(ValueType::UtcTime),
            "gentime" => Some(ValueType::GeneralizedTime),
            "date" => Some(ValueType::Date),
            "null" => Some(ValueType::Null),
            "oid" => Some(ValueType::ObjectIdentifier),
            "bits" => Some(ValueType::Bits),
            "colour" => Some(ValueType::Colour),
            "utf8" => Some(ValueType::Utf8),
            "ia5" => Some(ValueType::Ia5),
            "printable" => Some(ValueType::Printable),
            "foo" => Some(ValueType::NamedFlag),
            "optbool" => Some(ValueType::OptionalBool),
            "validity" => Some(ValueType::Validity),
            "any" => Some(ValueType::Any),
            "algid" => Some(ValueType::AlgorithmIdentifier),
            "rdn" => Some(ValueType::RelativeDistinguishedName),
            "set3" => Some(ValueType::Set3),
            "bag" => Some(ValueType::Bag),
            _ => None,
        }
    }

    /// Returns the word that the program prints for a value of the type.
    pub fn word(self) -> &'static str
        ensures { result.now ≡ type_word self }
    {
        match self {
            ValueType::Bool => "BOOLEAN",
            ValueType::I32 | ValueType::U32 | ValueType::Integer => "INTEGER",
            ValueType::Octets => "OCTET-STRING",
            ValueType::UtcTime | ValueType::GeneralizedTime | ValueType::Date => "TIME",
            ValueType::Null => "NULL",
            ValueType::ObjectIdentifier => "OID",
            ValueType::Bits => "BIT-STRING",
            ValueType::Colour => "ENUMERATED",
            ValueType::Utf8 | ValueType::Ia5 | ValueType::Printable => "STRING",
            ValueType::OptionalBool => "OPTIONAL",
            ValueType::Any => "ANY",
            ValueType::Pair
            | ValueType::NamedFlag
            | ValueType::Validity
            | ValueType::AlgorithmIdentifier => "SEQUENCE",
            ValueType::RelativeDistinguishedName | ValueType::Set3 | ValueType::Bag => "SET",
        }
    }
}

/// Returns the rules of this name.
fn rule_of_name(name: &str) -> Option<Codec>
    ensures { MatchOption result ((rule : Codec) → name.now ≡ rule_name rule → ⊥) (λ rule. name.now ≡ rule_name rule) }
{
    match name {
        "ber" => Some(Codec::Ber),
        "cer" => Some(Codec::Cer),
        "der" => Some(Codec::Der),
        _ => None,
    }
}

/// A well-formed line: the rules to read by, the type to read, and the octets as digits.
#[derive(Clone, Copy, Debug)]
pub struct Request<'line> {
    pub rule: Codec,
    pub value_type: ValueType,
    pub digits: &'line str,
}

impl<'line> Request<'line> {
    /// Returns the request of a line of three words, separated by single spaces; `None` if a word
    /// is missing or the rule or the type is unknown.
    pub fn of_line(line: &'line str) -> Option<Request<'line>>
        ensures { MatchOption result
            ((rule : Codec) (kind : ValueType) (digits : List ℕ) → IsRequest line.now rule kind digits → ⊥)
            (λ request. IsRequest line.now request.rule request.value_type request.digits.now) }
    {
        let (rule, rest) = line.split_once(' ')?;
        let (name, digits) = rest.split_once(' ')?;
        let rule = rule_of_name(rule)?;
        let value_type = ValueType::of_name(name)?;
        Some(Request {
            rule,
            value_type,
            digits,
        })
    }

    /// Returns the request of a line and the octets that its digits spell; `None` if the line isn't
    /// well-formed.
    ///
    /// # Errors
    /// If an allocation fails.
    pub fn asked(
        alloc: Global,
        line: &'line str,
    ) -> Result<Option<(Request<'line>, Vec<u8>)>, AllocError>
        ensures { IfOk result (IsAsked line.now) }
    {
        let Some(request) = Request::of_line(line) else {
            return Ok(None);
        };
        match request.octets(alloc)? {
            Some(octets) => Ok(Some((request, octets))),
            None => Ok(None),
        }
    }

    /// Returns the octets that the digits spell, none for `-`; `None` if they aren't valid
    /// hexadecimal.
    ///
    /// # Errors
    /// If an allocation fails.
    pub fn octets(&self, alloc: Global) -> Result<Option<Vec<u8>>, AllocError>
        ensures { IfOk result (Spells octets_of_digits self.now.digits.now) }
    {
        match self.digits.as_bytes() {
            [] => Ok(None),
            [only] => Ok(if *only == b'-' {
                Some(Vec::new(alloc))
            } else {
                None
            }),
            digits => octets_of_digits(alloc, digits),
        }
    }
}

/// Returns the octets that the digits spell, two digits for each; `None` if they aren't valid
/// hexadecimal.
#[tactic(auto, unfolding(crate::specs::Lines::pairs_at))]
fn octets_of_digits(alloc: Global, digits: &[u8]) -> Result<Option<Vec<u8>>, AllocError>
    ensures { IfOk result (Spells pairs_at digits.now) }
{
    let mut octets = Vec::with_capacity(alloc, digits.len() / 2)?;
    let mut rest = digits;
    while !rest.is_empty() {
        let Some((octet, after)) = first_octet(rest) else {
            return Ok(None);
        };
        octets.push(octet)?;
        rest = after;
    }
    Ok(Some(octets))
}

/// Returns the octet that the first two digits spell, and the digits after them.
#[tactic(auto, unfolding(crate::specs::Lines::pairs_at))]
fn first_octet(digits: &[u8]) -> Option<(u8, &[u8])>
    ensures read { MatchOption result (BeginsWithoutPair digits.now) (λ p. BeginsWithPair digits.now p.0 p.1.now) }
    ensures fewer { IfSome result (λ p. length p.1.now < length digits.now) }
{
    let (high, after) = digits.split_first()?;
    let (low, after) = after.split_first()?;
    Some((octet_of(*high, *low)?, after))
}

fn octet_of(high: u8, low: u8) -> Option<u8>
    ensures { result ≡ pair_at high low }
{
    Some(16 * digit_of(high)? + digit_of(low)?)
}

/// Returns the value of a hexadecimal digit, in upper or lower case.
fn digit_of(octet: u8) -> Option<u8>
    ensures worth { result ≡ digit_at octet }
    ensures below { IfSome result (λ n. n < 16) }
{
    match octet {
        b'0'..=b'9' => Some(octet - b'0'),
        b'A'..=b'F' => Some(octet - b'A' + 10),
        b'a'..=b'f' => Some(octet - b'a' + 10),
        _ => None,
    }
}
