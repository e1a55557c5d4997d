//! The types that a line may name, as types of a schema.
ghost use Rattle.std.specs.Prelude.{◌≡◌};
ghost use Rattle.rasn_schema_vectors.specs.LineShapes.{type_number};

use rasn_bench::ValueType;
use rasn_schema::TypeId;
use rasn_schema::constants::prelude::*;

/// The types of lines, and those that they are made of. Comments say their numbers.
pub const LINE_TYPES: &[StaticType] = &[
    // 0 to 9
    Leaf(Boolean, Tag::BOOL, NONE, &[]),
    Leaf(Signed32, Tag::INTEGER, NONE, &[]),
    Leaf(Unsigned32, Tag::INTEGER, NONE, &[]),
    Leaf(OctetString, Tag::OCTET_STRING, NONE, &[]),
    Leaf(Integer, Tag::INTEGER, NONE, &[]),
    Leaf(UtcTime, Tag::UTC_TIME, NONE, &[]),
    Leaf(GeneralizedTime, Tag::GENERALIZED_TIME, NONE, &[]),
    Leaf(Date, Tag::DATE, NONE, &[]),
    Leaf(Null, Tag::NULL, NONE, &[]),
    Leaf(ObjectIdentifier, Tag::OBJECT_IDENTIFIER, NONE, &[]),
    // 10 to 19
    Leaf(BitString, Tag::BIT_STRING, NONE, &[]),
    Enumerated(Tag::ENUMERATED, COLOURS),
    Leaf(Utf8, Tag::UTF8_STRING, NONE, &[]),
    Leaf(Ia5, Tag::IA5_STRING, NONE, &[]),
    Leaf(Printable, Tag::PRINTABLE_STRING, NONE, &[]),
    Any(Tag::EOC),
    Sequence(Tag::SEQUENCE, PAIR),
    Sequence(Tag::SEQUENCE, FOO),
    Choice("Time", TIME),
    Sequence(Tag::SEQUENCE, VALIDITY),
    // 20 to 27
    Sequence(Tag::SEQUENCE, ALGORITHM),
    Sequence(Tag::SEQUENCE, ATTRIBUTE),
    SetOf(Tag::SET, 21, NONE),
    Leaf(Integer, tag!(Context, 0), value!(0..=255), &[]),
    Leaf(Integer, tag!(Context, 1), value!(0..=255), &[]),
    Leaf(Integer, tag!(Context, 2), value!(0..=255), &[]),
    Set("Set3", Tag::SET, SET_3),
    SetOf(Tag::SET, 3, NONE),
];

const COLOURS: &[StaticNumber] = &[("red", 0), ("green", 1), ("blue", 2)];

const PAIR: &[StaticComponent] = &[("number", Required, 1), ("truth", Required, 0)];

const FOO: &[StaticComponent] = &[("name", Required, 13), ("truth", Required, 0)];

const TIME: &[StaticAlternative] = &[("utcTime", 5), ("generalTime", 6)];

const VALIDITY: &[StaticComponent] = &[("notBefore", Required, 18), ("notAfter", Required, 18)];

const ALGORITHM: &[StaticComponent] = &[("algorithm", Required, 9), ("parameters", Optional, 15)];

const ATTRIBUTE: &[StaticComponent] = &[("type", Required, 9), ("value", Required, 15)];

const SET_3: &[StaticComponent] = &[
    ("zero", Required, 23),
    ("one", Required, 24),
    ("two", Required, 25),
];

/// Returns the number of the type that a line names. That of `optbool` is the type which may be
/// absent.
pub fn type_id(value_type: ValueType) -> TypeId
    ensures { result.0 ≡ type_number value_type }
{
    TypeId(match value_type {
        ValueType::Bool | ValueType::OptionalBool => 0,
        ValueType::I32 => 1,
        ValueType::U32 => 2,
        ValueType::Octets => 3,
        ValueType::Integer => 4,
        ValueType::UtcTime => 5,
        ValueType::GeneralizedTime => 6,
        ValueType::Date => 7,
        ValueType::Null => 8,
        ValueType::ObjectIdentifier => 9,
        ValueType::Bits => 10,
        ValueType::Colour => 11,
        ValueType::Utf8 => 12,
        ValueType::Ia5 => 13,
        ValueType::Printable => 14,
        ValueType::Any => 15,
        ValueType::Pair => 16,
        ValueType::NamedFlag => 17,
        ValueType::Validity => 19,
        ValueType::AlgorithmIdentifier => 20,
        ValueType::RelativeDistinguishedName => 22,
        ValueType::Set3 => 26,
        ValueType::Bag => 27,
    })
}
