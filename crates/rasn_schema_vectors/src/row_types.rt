//! The types that rows name beside those of lines, and types that may be no schema.

use rasn_schema::constants::prelude::*;

/// The types that rows name beside those of lines, and those that they are made of. Comments say
/// their numbers.
pub const ROW_TYPES: &[StaticType] = &[
    // 0 to 9
    Leaf(Boolean, Tag::BOOL, NONE, &[]),
    Leaf(Ia5, Tag::IA5_STRING, NONE, &[]),
    Sequence(Tag::SEQUENCE, NAMED_FLAG),
    SequenceOf(Tag::SEQUENCE, 2, NONE),
    Tagged(tag!(Context, 0), 3),
    Choice("NamedFlags", &[("flag", 0), ("flags", 4)]),
    Leaf(AnyOctets, Tag::IA5_STRING, NONE, &[]),
    Sequence(Tag::SEQUENCE, OTHER_NAME),
    SequenceOf(Tag::SEQUENCE, 7, NONE),
    Tagged(tag!(Context, 0), 8),
    // 10 to 19
    Choice("OtherNames", &[("flag", 0), ("flags", 9)]),
    Leaf(Integer, Tag::INTEGER, NONE, &[("other", 7)]),
    Leaf(Null, Tag::NULL, NONE, &[]),
    Choice("Either", &[("flag", 0), ("none", 12)]),
    Leaf(BitString, Tag::BIT_STRING, NONE, &[]),
    Leaf(OctetString, Tag::OCTET_STRING, NONE, &[]),
    Leaf(Utf8, Tag::UTF8_STRING, NONE, &[]),
    Leaf(ObjectIdentifier, Tag::OBJECT_IDENTIFIER, NONE, &[]),
    SetOf(Tag::SET, 0, NONE),
    Sequence(Tag::SEQUENCE, EACH_KIND),
    // 20 to 29
    Leaf(Signed64, Tag::INTEGER, NONE, &[]),
    Choice("Answer", &[("flag", 0), ("number", 20)]),
    Set("Set2", Tag::SET, FLAG_AND_NUMBER),
    Sequence(Tag::SEQUENCE, FLAG_AND_NUMBER),
    Leaf(Signed32, tag!(Context, 0), NONE, &[]),
    Leaf(Unsigned32, tag!(Context, 1), NONE, &[]),
    Sequence(Tag::SEQUENCE, BOUNDS),
    Leaf(NamedBits, Tag::BIT_STRING, NONE, USAGES),
    Leaf(
        Signed64,
        Tag::ENUMERATED,
        NONE,
        &[("add", 0), ("delete", 1)],
    ),
    Unknown,
    // 30 to 36
    Sequence(Tag::SEQUENCE, EXTENSIBLE),
    SequenceOf(Tag::SEQUENCE, 0, NONE),
    Sequence(Tag::SEQUENCE, WITH_FLAGS),
    Any(Tag::EOC),
    Choice("Reply", &[("accepted", 0), ("count", 24), ("...", 33)]),
    Set("OpenSet", Tag::SET, EXTENSIBLE),
    Set("Mixed", Tag::SET, MIXED),
];

const MIXED: &[StaticComponent] = &[("either", Required, 13), ("number", Required, 20)];

const EXTENSIBLE: &[StaticComponent] = &[
    ("flag", Required, 0),
    ("number", Optional, 24),
    ("...", Required, 29),
];

const WITH_FLAGS: &[StaticComponent] = &[
    ("flag", Required, 0),
    ("number", Optional, 24),
    ("flags", Required, 31),
];

const USAGES: &[StaticNumber] = &[("digitalSignature", 0), ("keyCertSign", 5), ("cRLSign", 6)];

const BOUNDS: &[StaticComponent] = &[
    ("low", Default(Number(-2147483648)), 24),
    ("high", Default(Number(4294967295)), 25),
];

const NAMED_FLAG: &[StaticComponent] = &[("name", Required, 1), ("ok", Required, 0)];

const OTHER_NAME: &[StaticComponent] = &[("name", Required, 6), ("ok", Required, 0)];

const FLAG_AND_NUMBER: &[StaticComponent] = &[("flag", Required, 0), ("number", Required, 20)];

const EACH_KIND: &[StaticComponent] = &[
    ("kind", Required, 11),
    ("flag", Required, 0),
    ("nothing", Required, 12),
    ("bits", Required, 14),
    ("octets", Required, 15),
    ("text", Required, 16),
    ("arcs", Required, 17),
    ("again", Optional, 17),
    ("either", Required, 13),
    ("set", Required, 18),
];

const FLAG: StaticType = Leaf(Boolean, Tag::BOOL, NONE, &[]);

/// Types of which rows ask whether they are a schema, with their names.
pub const TRIED_TYPES: &[(&str, &[StaticType])] = &[
    ("reserved-tag", &[SetOf(Tag::EOC, 0, NONE)]),
    ("constructed-tag", &[Leaf(Utf8, Tag::SET, NONE, &[])]),
    ("late-inner", &[Tagged(tag!(Context, 0), 0)]),
    ("no-alternatives", &[Choice("C", &[])]),
    ("late-alternative", &[Choice("C", &[("a", 1)]), FLAG]),
    (
        "untagged-alternative",
        &[FLAG, Any(Tag::EOC), Choice("C", &[("a", 1), ("b", 0)])],
    ),
    (
        "open-type-alone",
        &[Any(Tag::EOC), Choice("C", &[("a", 0)])],
    ),
    (
        "extensible-alternative",
        &[
            FLAG,
            Any(Tag::EOC),
            Choice("C", &[("a", 0), ("b", 1)]),
            Choice("D", &[("a", 2)]),
        ],
    ),
    (
        "extensible-in-set",
        &[
            FLAG,
            Any(Tag::EOC),
            Choice("C", &[("a", 0), ("b", 1)]),
            Set("S", Tag::SET, EXTENSIBLE_PART),
        ],
    ),
    (
        "extensible-after-optional",
        &[
            NUMBER,
            Any(Tag::EOC),
            FLAG,
            Choice("C", &[("a", 2), ("b", 1)]),
            Sequence(Tag::SEQUENCE, AFTER_OPTIONAL),
        ],
    ),
    (
        "alternatives-clash",
        &[FLAG, Choice("C", &[("a", 0), ("b", 0)])],
    ),
    (
        "reserved-tag-of-enumerated",
        &[Enumerated(Tag::EOC, &[("a", 0)])],
    ),
    ("no-numbers", &[Enumerated(Tag::ENUMERATED, &[])]),
    (
        "numbers-clash",
        &[Enumerated(Tag::ENUMERATED, &[("a", 1), ("b", 0), ("c", 2), ("d", 1)])],
    ),
    (
        "components-clash",
        &[FLAG, Sequence(Tag::SEQUENCE, TWO_FLAGS)],
    ),
    (
        "untagged-component",
        &[FLAG, Any(Tag::EOC), Sequence(Tag::SEQUENCE, AMBIGUOUS)],
    ),
    ("addition-in-set", &[FLAG, Set("Both", Tag::SET, ADDITION)]),
    (
        "untagged-in-set",
        &[FLAG, Any(Tag::EOC), Set("Both", Tag::SET, OPEN)],
    ),
    ("set-clash", &[FLAG, Set("Both", Tag::SET, TWICE)]),
    (
        "set-in-any-order",
        &[
            FLAG,
            Leaf(Integer, Tag::INTEGER, NONE, &[]),
            Set("Both", Tag::SET, FALLING),
        ],
    ),
    (
        "set-around-a-tag",
        &[
            FLAG,
            Leaf(Boolean, tag!(Context, 0), NONE, &[]),
            Leaf(Boolean, tag!(Context, 1), NONE, &[]),
            Choice("C", &[("a", 0), ("b", 2)]),
            Set("Both", Tag::SET, AROUND),
        ],
    ),
    (
        "default-of-another-type",
        &[NUMBER, Sequence(Tag::SEQUENCE, FALSE)],
    ),
    (
        "default-too-low",
        &[NUMBER, Sequence(Tag::SEQUENCE, TOO_LOW)],
    ),
    (
        "default-too-high",
        &[NUMBER, Set("One", Tag::SET, TOO_HIGH)],
    ),
    (
        "unknown-not-last",
        &[FLAG, Unknown, Sequence(Tag::SEQUENCE, NOT_LAST)],
    ),
    (
        "unknown-optional",
        &[FLAG, Unknown, Sequence(Tag::SEQUENCE, MAY_BE_ABSENT)],
    ),
    (
        "unknown-in-set",
        &[FLAG, Unknown, Set("Both", Tag::SET, OPEN)],
    ),
    (
        "unknown-at-the-end-of-set",
        &[FLAG, Unknown, Set("Both", Tag::SET, ENDS_UNKNOWN)],
    ),
    (
        "unknown-first-in-set",
        &[FLAG, Unknown, Set("Both", Tag::SET, NOT_LAST)],
    ),
    (
        "unknown-optional-in-set",
        &[FLAG, Unknown, Set("Both", Tag::SET, MAY_BE_ABSENT)],
    ),
    ("unknown-alternative", &[Unknown, Choice("C", &[("a", 0)])]),
    (
        "unknown-elements",
        &[Unknown, SequenceOf(Tag::SEQUENCE, 0, NONE)],
    ),
    ("unknown-tagged", &[Unknown, Tagged(tag!(Context, 0), 0)]),
];

const EXTENSIBLE_PART: &[StaticComponent] = &[("part", Required, 2)];

const AFTER_OPTIONAL: &[StaticComponent] = &[("part", Optional, 0), ("part", Required, 3)];

const NOT_LAST: &[StaticComponent] = &[("part", Required, 1), ("part", Required, 0)];

const ENDS_UNKNOWN: &[StaticComponent] = &[("part", Required, 0), ("part", Required, 1)];

const AROUND: &[StaticComponent] = &[("part", Required, 1), ("part", Required, 3)];

const MAY_BE_ABSENT: &[StaticComponent] = &[("part", Required, 0), ("part", Optional, 1)];

const NUMBER: StaticType = Leaf(Signed32, Tag::INTEGER, NONE, &[]);

const FALSE: &[StaticComponent] = &[("part", Default(Truth(false)), 0)];

const TOO_LOW: &[StaticComponent] = &[("part", Default(Number(-2147483649)), 0)];

const TOO_HIGH: &[StaticComponent] = &[("part", Default(Number(2147483648)), 0)];

const TWO_FLAGS: &[StaticComponent] = &[("part", Optional, 0), ("part", Required, 0)];

const AMBIGUOUS: &[StaticComponent] = &[("part", Optional, 1), ("part", Required, 0)];

const ADDITION: &[StaticComponent] = &[("part", Addition, 0)];

const OPEN: &[StaticComponent] = &[("part", Required, 1)];

const TWICE: &[StaticComponent] = &[("part", Required, 0), ("part", Required, 0)];

const FALLING: &[StaticComponent] = &[("part", Required, 1), ("part", Required, 0)];
