//! The types of the rows.

use rasn_schema::LeafKind;
use rasn_schema::constants::prelude::*;

const ATTRIBUTE: &[StaticComponent] = &[("type", Required, 2), ("value", Required, 9)];

const EXTENSIBLE: &[StaticComponent] = &[("flag", Required, 0), ("...", Required, 22)];

const EXTENSIBLE_SET: &[StaticComponent] = &[
    ("flag", Required, 0),
    ("second", Required, 14),
    ("...", Required, 22),
];

const WITH_DEFAULT: &[StaticComponent] = &[
    ("number", Required, 1),
    ("flag", Default(Truth(false)), 0),
];

const TAGGED: &[StaticComponent] = &[("first", Required, 13), ("second", Required, 14)];

const SEVEN: &[StaticComponent] = &[
    ("flag", Required, 0),
    ("number", Required, 1),
    ("id", Required, 2),
    ("bits", Required, 3),
    ("text", Required, 6),
    ("time", Required, 8),
    ("set", Required, 11),
];

/// The types, each of which names others by their numbers.
pub const TYPES: &[StaticType] = &[
    Leaf(Boolean, Tag::BOOL, NONE, &[]),
    Leaf(Integer, Tag::INTEGER, NONE, &[]),
    Leaf(ObjectIdentifier, Tag::OBJECT_IDENTIFIER, NONE, &[]),
    Leaf(BitString, Tag::BIT_STRING, NONE, &[]),
    Leaf(NamedBits, Tag::BIT_STRING, NONE, &[]),
    Leaf(OctetString, Tag::OCTET_STRING, NONE, &[]),
    Leaf(Utf8, Tag::UTF8_STRING, NONE, &[]),
    Leaf(UtcTime, Tag::UTC_TIME, NONE, &[]),
    Leaf(GeneralizedTime, Tag::GENERALIZED_TIME, NONE, &[]),
    Any(Tag::EOC),
    Sequence(Tag::SEQUENCE, ATTRIBUTE),
    SetOf(Tag::SET, 1, NONE),
    Sequence(Tag::SEQUENCE, WITH_DEFAULT),
    Leaf(Boolean, tag!(Context, 0), NONE, &[]),
    Leaf(Integer, tag!(Context, 1), NONE, &[]),
    Set("Pair", Tag::SET, TAGGED),
    Sequence(Tag::SEQUENCE, SEVEN),
    Leaf(Boolean, tag!(Context, 31), NONE, &[]),
    Tagged(tag!(Context, 2), 1),
    Choice("Choice", &[("number", 1), ("tagged", 18)]),
    SequenceOf(Tag::SEQUENCE, 10, NONE),
    Any(tag!(Context, 3)),
    Unknown,
    Sequence(Tag::SEQUENCE, EXTENSIBLE),
    Choice("Reply", &[("flag", 0), ("...", 9)]),
    Set("ExtensibleSet", Tag::SET, EXTENSIBLE_SET),
    Leaf(LeafKind::Real, tag!(Universal, 9), NONE, &[]),
];

/// The names of the types that rows have.
pub const NAMES: &[(&str, usize)] = &[
    ("Boolean", 0),
    ("Integer", 1),
    ("Oid", 2),
    ("Bits", 3),
    ("NamedBits", 4),
    ("Octets", 5),
    ("Text", 6),
    ("UtcTime", 7),
    ("Time", 8),
    ("Open", 9),
    ("Attribute", 10),
    ("SetOf", 11),
    ("Default", 12),
    ("Set", 15),
    ("Seven", 16),
    ("HighTag", 17),
    ("Tagged", 18),
    ("Choice", 19),
    ("Attributes", 20),
    ("OpenTagged", 21),
    ("Extensible", 23),
    ("Reply", 24),
    ("ExtensibleSet", 25),
    ("Real", 26),
];
