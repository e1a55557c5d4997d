//! Filter (RFC 4511 4.5.1) as types of a schema.

use rasn_schema::TypeId;
use rasn_schema::constants::prelude::*;

/// Filter and the types that it is made of, itself among them.
pub const FILTER_TYPES: &[StaticType] = &[
    // 0 to 9
    SetOf(tag!(Context, 0), 19, size!(1..)),
    SetOf(tag!(Context, 1), 19, size!(1..)),
    Tagged(tag!(Context, 2), 19),
    Sequence(tag!(Context, 3), ATTRIBUTE_VALUE_ASSERTION),
    Sequence(tag!(Context, 4), SUBSTRING_FILTER),
    Sequence(tag!(Context, 5), ATTRIBUTE_VALUE_ASSERTION),
    Sequence(tag!(Context, 6), ATTRIBUTE_VALUE_ASSERTION),
    Leaf(Utf8, tag!(Context, 7), NONE, &[]),
    Sequence(tag!(Context, 8), ATTRIBUTE_VALUE_ASSERTION),
    Sequence(tag!(Context, 9), MATCHING_RULE_ASSERTION),
    // 10 to 20: AssertionValue is an OCTET STRING
    Leaf(OctetString, Tag::OCTET_STRING, NONE, &[]),
    Leaf(OctetString, tag!(Context, 0), NONE, &[]),
    Leaf(OctetString, tag!(Context, 1), NONE, &[]),
    Leaf(OctetString, tag!(Context, 2), NONE, &[]),
    Any(Tag::EOC),
    Choice("substring", SUBSTRING),
    SequenceOf(Tag::SEQUENCE, 15, size!(1..)),
    Leaf(OctetString, tag!(Context, 3), NONE, &[]),
    Leaf(Boolean, tag!(Context, 4), NONE, &[]),
    Choice("Filter", FILTER_ALTERNATIVES),
    Unknown,
    // 21 to 23: AttributeDescription and MatchingRuleId are UTF-8 (4.1.2)
    Leaf(Utf8, Tag::OCTET_STRING, NONE, &[]),
    Leaf(Utf8, tag!(Context, 1), NONE, &[]),
    Leaf(Utf8, tag!(Context, 2), NONE, &[]),
];

/// The number of Filter.
pub const FILTER: TypeId = TypeId(19);

const FILTER_ALTERNATIVES: &[StaticAlternative] = &[
    ("and", 0),
    ("or", 1),
    ("not", 2),
    ("equalityMatch", 3),
    ("substrings", 4),
    ("greaterOrEqual", 5),
    ("lessOrEqual", 6),
    ("present", 7),
    ("approxMatch", 8),
    ("extensibleMatch", 9),
    OTHER,
];

/// What a newer version of a SEQUENCE has at its end (RFC 4511 4).
const UNKNOWN: StaticComponent = ("...", Required, 20);

/// What a newer version of a CHOICE has (RFC 4511 4).
const OTHER: StaticAlternative = ("...", 14);

const ATTRIBUTE_VALUE_ASSERTION: &[StaticComponent] = &[
    ("attributeDesc", Required, 21),
    ("assertionValue", Required, 10),
    UNKNOWN,
];

const SUBSTRING_FILTER: &[StaticComponent] = &[
    ("type", Required, 21),
    ("substrings", Required, 16),
    UNKNOWN,
];

const SUBSTRING: &[StaticAlternative] = &[("initial", 11), ("any", 12), ("final", 13), OTHER];

const MATCHING_RULE_ASSERTION: &[StaticComponent] = &[
    ("matchingRule", Optional, 22),
    ("type", Optional, 23),
    ("matchValue", Required, 17),
    ("dnAttributes", Default(Truth(false)), 18),
    UNKNOWN,
];
