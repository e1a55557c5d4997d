//! The types that a row may name. Each function handles some, and calls the next for the others.

use crate::calls::{call, check, written_real};
use crate::cut::{cut, open};
use crate::entry::{all, begin, canonical, decoded, front, held, inside, normal, whole};
use crate::lists::SixtyFour;
use crate::messages::of_message;
use crate::reading::{counted, decoder_of, read, read_within, refused, tell_within};
use crate::row::{Row, Verb};
use crate::sorted::sorted;
use crate::texts::{parse, text};
use crate::types::{
    Amended, Counted, Eight, Graded, Lamp, Levelled, Padding, Profile, Renewed, Reply,
};
use crate::values::{copied, number, ordered, same, value_text};
use crate::writing::{write, write_value, write_within, written};
use rasn::de::Decode;
use rasn::enc::Encode;
use rasn::types::{
    Any, BitString, BmpString, Bound, Bounded, Constraints, ContextTag, Date, Enumerated, Explicit,
    Extensible, FixedOctetString, GeneralString, GeneralizedTime, GraphicString, Ia5String,
    Implicit, Integer, LawfulEq, NamedBits, NumericString, ObjectIdentifier, OctetString,
    PrintableString, SetOf, TeletexString, UtcTime, Utf8String, VisibleString,
};
use rasn_bench::{
    AlgorithmIdentifier, AttributeTypeAndValue, Both, Colour, Event, Grouped, NamedFlag, Pair,
    Reason, RelativeDistinguishedName, Set3, Setting, Time, Validity,
};
use std::alloc::{AllocError, Global};
use std::fmt::Debug;

/// Returns the result of a row whose type is read and written.
pub fn both<T: Decode + Encode + Debug>(
    alloc: Global,
    row: &Row<'_>,
) -> Result<String, AllocError> {
    match row.verb {
        Verb::Write(rules) => write::<T>(alloc, row, rules),
        _ => one::<T>(alloc, row),
    }
}

/// Returns the result of a row whose type is read only.
fn one<T: Decode + Debug>(alloc: Global, row: &Row<'_>) -> Result<String, AllocError> {
    match row.verb {
        Verb::Read => read::<T>(alloc, row),
        Verb::Whole => whole::<T>(alloc, row),
        Verb::Begin => begin::<T>(alloc, row),
        Verb::All => all::<T>(alloc, row),
        Verb::Front => front::<T>(alloc, row),
        Verb::Tell => tell_within::<T>(alloc, row, &T::CONSTRAINTS),
        Verb::Cut => cut::<T>(alloc, row, &T::CONSTRAINTS),
        Verb::Open => open::<T>(alloc, row),
        Verb::Inside => inside::<T>(alloc, row),
        _ => unknown(alloc),
    }
}

/// Returns the result of a row whose type has constraints.
fn bound<T: Decode + Encode + Debug>(
    alloc: Global,
    row: &Row<'_>,
    constraints: &Constraints,
) -> Result<String, AllocError> {
    match row.verb {
        Verb::Read => read_within::<T>(alloc, row, constraints),
        Verb::Tell => tell_within::<T>(alloc, row, constraints),
        Verb::Cut => cut::<T>(alloc, row, constraints),
        Verb::Write(rules) => write_within::<T>(alloc, row, rules, constraints),
        _ => unknown(alloc),
    }
}

/// Returns the name of the number that is read, and the number that the name has.
pub fn named<E: Enumerated + Debug>(alloc: Global, row: &Row<'_>) -> Result<String, AllocError> {
    match decoded::<Extensible<E>>(alloc, row.rules, &row.octets) {
        Ok(value) => match value.named() {
            Some(name) => format!(in alloc; "= {name:?}, {}", name.discriminant()),
            None => String::from_str(alloc, "= no name"),
        },
        Err(error) => refused(alloc, error.codec, &error.kind),
    }
}

/// Returns that a row is of no known type, or has a verb that the type hasn't.
pub fn unknown(alloc: Global) -> Result<String, AllocError> {
    String::from_str(
        alloc,
        "is of no type that is known, or has a verb that the type hasn't",
    )
}

/// Returns the text, if there is one, and otherwise that the row is of no known type.
fn or_unknown(alloc: Global, text: Option<String>) -> Result<String, AllocError> {
    match text {
        Some(text) => Ok(text),
        None => unknown(alloc),
    }
}

/// Returns the result of a row.
pub fn answer_to(alloc: Global, row: &Row<'_>) -> Result<String, AllocError> {
    match row.verb {
        Verb::Normal | Verb::Canonical | Verb::Held => of_lawful(alloc, row),
        Verb::Show => of_shown(alloc, row),
        Verb::Copy => of_copied(alloc, row),
        Verb::Order => of_ordered(alloc, row),
        Verb::Same => of_same(alloc, row),
        Verb::Check => or_unknown(alloc, check(alloc, row)?),
        Verb::Parse => or_unknown(alloc, parse(alloc, row)?),
        Verb::Text => or_unknown(alloc, text(alloc, row)?),
        _ => of_number(alloc, row),
    }
}

/// Returns the DER octets of a value, or what an open type holds.
fn lawful<T: Decode + Encode + LawfulEq>(
    alloc: Global,
    row: &Row<'_>,
) -> Result<String, AllocError> {
    match row.verb {
        Verb::Normal => normal::<T>(alloc, row),
        Verb::Canonical => canonical::<T>(alloc, row),
        Verb::Held => held::<T>(alloc, row),
        _ => unknown(alloc),
    }
}

/// Returns the result of a row of a lawful type.
fn of_lawful(alloc: Global, row: &Row<'_>) -> Result<String, AllocError> {
    match row.name {
        "bool" => lawful::<bool>(alloc, row),
        "i64" => lawful::<i64>(alloc, row),
        "null" => lawful::<()>(alloc, row),
        "utctime" => lawful::<UtcTime>(alloc, row),
        "foo" => lawful::<NamedFlag>(alloc, row),
        "setof(octets)" => lawful::<SetOf<OctetString>>(alloc, row),
        _ => unknown(alloc),
    }
}

/// Returns the text of a value.
fn of_shown(alloc: Global, row: &Row<'_>) -> Result<String, AllocError> {
    match row.name {
        "integer" => value_text::<Integer>(alloc, row),
        "oid" => value_text::<ObjectIdentifier>(alloc, row),
        "bits" => value_text::<BitString>(alloc, row),
        "octets" => value_text::<OctetString>(alloc, row),
        "any" => value_text::<Any>(alloc, row),
        "visible" => value_text::<VisibleString>(alloc, row),
        "utctime" => value_text::<UtcTime>(alloc, row),
        "gentime" => value_text::<GeneralizedTime>(alloc, row),
        "date" => value_text::<Date>(alloc, row),
        _ => unknown(alloc),
    }
}

/// Returns a copy of a value.
fn of_copied(alloc: Global, row: &Row<'_>) -> Result<String, AllocError> {
    match row.name {
        "u8" => copied::<u8>(alloc, row),
        "integer" => copied::<Integer>(alloc, row),
        "oid" => copied::<ObjectIdentifier>(alloc, row),
        "bits" => copied::<BitString>(alloc, row),
        "octet1" => copied::<FixedOctetString<1>>(alloc, row),
        "utf8" => copied::<Utf8String>(alloc, row),
        "ia5" => copied::<Ia5String>(alloc, row),
        "bmp" => copied::<BmpString>(alloc, row),
        "any" => copied::<Any>(alloc, row),
        "implicit0(option(octets))" => {
            copied::<Implicit<ContextTag<0>, Option<OctetString>>>(alloc, row)
        }
        "explicit0(setof(list(i64)))" => {
            copied::<Explicit<ContextTag<0>, SetOf<Vec<i64>>>>(alloc, row)
        }
        _ => unknown(alloc),
    }
}

/// Returns how values compare.
fn of_ordered(alloc: Global, row: &Row<'_>) -> Result<String, AllocError> {
    match row.name {
        "integer" => ordered::<Integer>(alloc, row),
        "oid" => ordered::<ObjectIdentifier>(alloc, row),
        "octets" => ordered::<OctetString>(alloc, row),
        "any" => ordered::<Any>(alloc, row),
        "printable" => ordered::<PrintableString>(alloc, row),
        "bmp" => ordered::<BmpString>(alloc, row),
        "gentime" => ordered::<GeneralizedTime>(alloc, row),
        _ => unknown(alloc),
    }
}

/// Returns whether two values are equal.
fn of_same(alloc: Global, row: &Row<'_>) -> Result<String, AllocError> {
    match row.name {
        "bits" => same::<BitString>(alloc, row),
        "any" => same::<Any>(alloc, row),
        "bmp" => same::<BmpString>(alloc, row),
        "gentime" => same::<GeneralizedTime>(alloc, row),
        "setof(u8)" => same::<SetOf<u8>>(alloc, row),
        "setof(octets)" => same::<SetOf<OctetString>>(alloc, row),
        _ => unknown(alloc),
    }
}

/// Returns the result of a row of a number.
fn of_number(alloc: Global, row: &Row<'_>) -> Result<String, AllocError> {
    match row.name {
        "i8" => both::<i8>(alloc, row),
        "i16" => both::<i16>(alloc, row),
        "i32" => both::<i32>(alloc, row),
        "i64" => both::<i64>(alloc, row),
        "i128" => both::<i128>(alloc, row),
        "u8" => both::<u8>(alloc, row),
        "u32" => both::<u32>(alloc, row),
        "u64" => both::<u64>(alloc, row),
        "u128" => both::<u128>(alloc, row),
        "usize" => both::<usize>(alloc, row),
        "integer" => both::<Integer>(alloc, row),
        "number" => number(alloc, row),
        _ => of_leaf(alloc, row),
    }
}

/// Returns the result of a row of another type without parts.
fn of_leaf(alloc: Global, row: &Row<'_>) -> Result<String, AllocError> {
    match row.name {
        "bool" => both::<bool>(alloc, row),
        "null" => both::<()>(alloc, row),
        "oid" => both::<ObjectIdentifier>(alloc, row),
        _ => of_string(alloc, row),
    }
}

/// Returns the result of a row of a string.
fn of_string(alloc: Global, row: &Row<'_>) -> Result<String, AllocError> {
    match row.name {
        "bits" => both::<BitString>(alloc, row),
        "namedbits" => both::<NamedBits>(alloc, row),
        "octets" => both::<OctetString>(alloc, row),
        "octet1" => both::<FixedOctetString<1>>(alloc, row),
        "utf8" => both::<Utf8String>(alloc, row),
        "bmp" => both::<BmpString>(alloc, row),
        "any" => both::<Any>(alloc, row),
        "implicit1(any)" => both::<Implicit<ContextTag<1>, Any>>(alloc, row),
        _ => of_characters(alloc, row),
    }
}

/// Returns the result of a row of a character string of one alphabet.
fn of_characters(alloc: Global, row: &Row<'_>) -> Result<String, AllocError> {
    match row.name {
        "numeric" => both::<NumericString>(alloc, row),
        "printable" => both::<PrintableString>(alloc, row),
        "teletex" => both::<TeletexString>(alloc, row),
        "ia5" => both::<Ia5String>(alloc, row),
        "graphic" => both::<GraphicString>(alloc, row),
        "visible" => both::<VisibleString>(alloc, row),
        "general" => both::<GeneralString>(alloc, row),
        _ => of_time(alloc, row),
    }
}

/// Returns the result of a row of a time, a period or an ENUMERATED.
fn of_time(alloc: Global, row: &Row<'_>) -> Result<String, AllocError> {
    match row.name {
        "utctime" => both::<UtcTime>(alloc, row),
        "gentime" => both::<GeneralizedTime>(alloc, row),
        "date" => both::<Date>(alloc, row),
        "time" => both::<Time>(alloc, row),
        "validity" => both::<Validity>(alloc, row),
        "colour" => both::<Colour>(alloc, row),
        "reason" => both::<Reason>(alloc, row),
        "extensible(colour)" => both::<Extensible<Colour>>(alloc, row),
        _ => of_list(alloc, row),
    }
}

/// Returns the result of a row of an OPTIONAL, tagged or repeated type.
fn of_list(alloc: Global, row: &Row<'_>) -> Result<String, AllocError> {
    match row.name {
        "option(bool)" => both::<Option<bool>>(alloc, row),
        "option(i32)" => both::<Option<i32>>(alloc, row),
        "implicit0(null)" => both::<Implicit<ContextTag<0>, ()>>(alloc, row),
        "implicit0(u8)" => both::<Implicit<ContextTag<0>, u8>>(alloc, row),
        "explicit0(u8)" => both::<Explicit<ContextTag<0>, u8>>(alloc, row),
        "list(u8)" => both::<Vec<u8>>(alloc, row),
        "list(bool)" => both::<Vec<bool>>(alloc, row),
        "list(list(bool))" => both::<Vec<Vec<bool>>>(alloc, row),
        "list(option(bool))" => both::<Vec<Option<bool>>>(alloc, row),
        "list(list(option(bool)))" => both::<Vec<Vec<Option<bool>>>>(alloc, row),
        _ => of_bag(alloc, row),
    }
}

/// Returns the result of a row of a SET OF, or of nested lists.
fn of_bag(alloc: Global, row: &Row<'_>) -> Result<String, AllocError> {
    match row.name {
        "setof(octets)" => both::<SetOf<OctetString>>(alloc, row),
        "setof(list(u8))" => both::<SetOf<Vec<u8>>>(alloc, row),
        "setof(option(bool))" => both::<SetOf<Option<bool>>>(alloc, row),
        "list(list(octets))" => both::<Vec<Vec<OctetString>>>(alloc, row),
        "lists64" => one::<SixtyFour>(alloc, row),
        "list(lists64)" => one::<Vec<SixtyFour>>(alloc, row),
        "both(bool,lists64)" => one::<Both<bool, SixtyFour>>(alloc, row),
        "both(bool,list(lists64))" => one::<Both<bool, Vec<SixtyFour>>>(alloc, row),
        _ => of_components(alloc, row),
    }
}

/// Returns the result of a row of a SEQUENCE or SET.
fn of_components(alloc: Global, row: &Row<'_>) -> Result<String, AllocError> {
    match row.name {
        "pair" => both::<Pair>(alloc, row),
        "foo" => both::<NamedFlag>(alloc, row),
        "both(bool,bool)" => both::<Both<bool, bool>>(alloc, row),
        "both(bool,both(bool,u8))" => both::<Both<bool, Both<bool, u8>>>(alloc, row),
        "both(bool,both(bool,bool))" => both::<Both<bool, Both<bool, bool>>>(alloc, row),
        "grouped" => both::<Grouped>(alloc, row),
        "setting" => both::<Setting>(alloc, row),
        "set3" => both::<Set3>(alloc, row),
        "event" => both::<Event>(alloc, row),
        _ => of_names(alloc, row),
    }
}

/// Returns the result of a row of a SEQUENCE with an open type or with defaults.
fn of_names(alloc: Global, row: &Row<'_>) -> Result<String, AllocError> {
    match row.name {
        "algid" => both::<AlgorithmIdentifier>(alloc, row),
        "attribute" => both::<AttributeTypeAndValue>(alloc, row),
        "rdn" => both::<RelativeDistinguishedName>(alloc, row),
        "eight" => both::<Eight>(alloc, row),
        "profile" => both::<Profile>(alloc, row),
        "padding" => both::<Padding>(alloc, row),
        "counted" => both::<Counted>(alloc, row),
        "graded" => both::<Graded>(alloc, row),
        "lamp" => both::<Lamp>(alloc, row),
        "levelled" => both::<Levelled>(alloc, row),
        "renewed" => both::<Renewed>(alloc, row),
        "amended" => both::<Amended>(alloc, row),
        "reply" => both::<Reply>(alloc, row),
        _ => of_bounds(alloc, row),
    }
}

/// Returns the constraint that a value has this size.
pub const fn sized(size: usize) -> Constraints {
    let constraint = Bounded::Single(size);
    Constraints {
        value: None,
        size: Some(Bound {
            constraint,
            extensible: false,
        }),
    }
}

/// Returns the constraint that a number is in this range.
pub const fn within(start: i128, end: i128) -> Constraints {
    let constraint = Bounded::Range {
        start: Some(start),
        end: Some(end),
    };
    Constraints {
        value: Some(Bound {
            constraint,
            extensible: false,
        }),
        size: None,
    }
}

/// Returns the result of a row whose type has constraints.
fn of_bounds(alloc: Global, row: &Row<'_>) -> Result<String, AllocError> {
    match row.name {
        "size1(ia5)" => bound::<Ia5String>(alloc, row, &sized(1)),
        "size1(bmp)" => bound::<BmpString>(alloc, row, &sized(1)),
        "size1(setof(octets))" => bound::<SetOf<OctetString>>(alloc, row, &sized(1)),
        "size2(list(u8))" => bound::<Vec<u8>>(alloc, row, &sized(2)),
        "size2(octets)" => bound::<OctetString>(alloc, row, &sized(2)),
        "size2(utf8)" => bound::<Utf8String>(alloc, row, &sized(2)),
        "size4(bits)" => bound::<BitString>(alloc, row, &sized(4)),
        "size4(namedbits)" => bound::<NamedBits>(alloc, row, &sized(4)),
        "size5(octet1)" => bound::<FixedOctetString<1>>(alloc, row, &sized(5)),
        "integer(-5..255)" => bound::<Integer>(alloc, row, &within(-5, 255)),
        "u8(0..100)" => bound::<u8>(alloc, row, &within(0, 100)),
        _ => of_value(alloc, row),
    }
}

/// Returns the result of a row of a value of any type: its tag, or the number of steps that
/// skipping it takes.
fn of_value(alloc: Global, row: &Row<'_>) -> Result<String, AllocError> {
    match row.name {
        "tag" => peek(alloc, row),
        "skip" => skip(alloc, row),
        "unmarked" => write_unmarked(alloc, row),
        "real" => write_real(alloc, row),
        "sorted" | "sorted(option)" => or_unknown(alloc, sorted(alloc, row)?),
        _ => of_call(alloc, row),
    }
}

/// Returns the result of a row of a call of a decoder, or of a message.
fn of_call(alloc: Global, row: &Row<'_>) -> Result<String, AllocError> {
    match call(alloc, row)? {
        Some(text) => Ok(text),
        None => of_message(alloc, row),
    }
}

/// Returns the tag that the octets begin with. Nothing is consumed.
fn peek(alloc: Global, row: &Row<'_>) -> Result<String, AllocError> {
    let decoder = decoder_of(alloc, row);
    counted(alloc, &decoder.peek_tag(), decoder.decoded_len())
}

/// Returns the number of steps that skipping a value takes.
fn skip(alloc: Global, row: &Row<'_>) -> Result<String, AllocError> {
    let mut decoder = decoder_of(alloc, row);
    let answer = decoder.skip_value();
    counted(alloc, &answer, decoder.decoded_len())
}

/// Returns the octets of a value that is written without being read: its extension addition is
/// absent.
fn write_unmarked(alloc: Global, row: &Row<'_>) -> Result<String, AllocError> {
    let unmarked = Graded {
        passed: true,
        mark: None,
    };
    match row.verb {
        Verb::Write(rules) => write_value(alloc, rules, &unmarked),
        _ => unknown(alloc),
    }
}

/// Returns the refusal of a REAL, which isn't supported.
fn write_real(alloc: Global, row: &Row<'_>) -> Result<String, AllocError> {
    match row.verb {
        Verb::Write(rules) => written(alloc, &written_real(alloc, rules)),
        _ => unknown(alloc),
    }
}
