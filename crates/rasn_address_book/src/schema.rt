// Written by `soqavise generate` from the ASN.1 of AddressBook: change that, and write it again.
//! The types as data, for what reads and writes by a schema.
use rasn_schema::constants::prelude::*;

/// The types, which refer to one another by their numbers. A CHOICE has the alternatives of those
/// that are alternatives of it, and what this crate has as open types is open.
pub const TYPES: &[StaticType] = &[
    Any(Tag::EOC),
    Leaf(Boolean, Tag::BOOL, NONE, &[]),
    Any(Tag::EOC),
    Leaf(Null, Tag::NULL, NONE, &[]),
    Leaf(Utf8, Tag::UTF8_STRING, NONE, &[]),
    Leaf(Integer, Tag::INTEGER, NONE, &[]),
    Leaf(Boolean, Tag::BOOL, NONE, &[]),
    Tagged(tag!(Context, 0), 47),
    Leaf(Integer, tag!(Context, 0), value!(1..=100), &[]),
    Leaf(Boolean, Tag::BOOL, NONE, &[]),
    Leaf(OctetString, tag!(Context, 9), NONE, &[]),
    Leaf(BitString, tag!(Context, 8), NONE, &[]),
    SequenceOf(tag!(Context, 7), 1, NONE),
    Leaf(ObjectIdentifier, tag!(Context, 6), NONE, &[]),
    Enumerated(
        tag!(Context, 5),
        &[("friend", 0), ("colleague", 5), ("family", -1)],
    ),
    Tagged(tag!(Context, 4), 47),
    Leaf(Utf8, tag!(Context, 3), NONE, &[]),
    Leaf(Null, tag!(Context, 2), NONE, &[]),
    Leaf(Boolean, tag!(Context, 1), NONE, &[]),
    Leaf(Integer, tag!(Context, 0), NONE, &[]),
    Leaf(ObjectIdentifier, Tag::OBJECT_IDENTIFIER, NONE, &[]),
    Leaf(Boolean, Tag::BOOL, NONE, &[]),
    Leaf(Utf8, tag!(Context, 0), size!(1..=64), &[]),
    Set(
        "Team",
        tag!(Context, 1),
        &[
            ("availability", Optional, 46),
            ("title", Required, 22),
            ("open", Default(Truth(false)), 21),
        ],
    ),
    Leaf(Numeric, Tag::NUMERIC_STRING, NONE, &[]),
    Leaf(Ia5, Tag::IA5_STRING, NONE, &[]),
    Tagged(tag!(Context, 6), 2),
    Set(
        "Team",
        tag!(Context, 5),
        &[
            ("availability", Optional, 46),
            ("title", Required, 22),
            ("open", Default(Truth(false)), 21),
        ],
    ),
    Sequence(
        tag!(Context, 4),
        &[("street", Required, 4), ("former", Optional, 3)],
    ),
    SequenceOf(tag!(Context, 3), 43, NONE),
    Tagged(tag!(Context, 1), 5),
    Enumerated(
        tag!(Context, 0),
        &[("friend", 0), ("colleague", 5), ("family", -1)],
    ),
    Leaf(ObjectIdentifier, Tag::OBJECT_IDENTIFIER, NONE, &[]),
    Leaf(Ia5, Tag::IA5_STRING, NONE, &[]),
    Leaf(Integer, Tag::INTEGER, value!(0..=65535), &[]),
    Leaf(Integer, tag!(Context, 2), NONE, &[]),
    Leaf(Boolean, Tag::BOOL, NONE, &[]),
    Leaf(Utf8, Tag::UTF8_STRING, NONE, &[]),
    Set(
        "Review",
        Tag::SET,
        &[
            ("reviewer", Required, 7),
            ("passed", Required, 6),
            ("...", Required, 50),
        ],
    ),
    Choice("Reply", &[("accepted", 9), ("guests", 8), ("...", 0)]),
    Leaf(
        NamedBits,
        Tag::BIT_STRING,
        NONE,
        &[("read", 0), ("write", 3)],
    ),
    Leaf(Integer, Tag::INTEGER, NONE, &[]),
    Leaf(Integer, Tag::INTEGER, value!(-450..), &[]),
    Leaf(Integer, Tag::INTEGER, value!(1..=100), &[]),
    SequenceOf(Tag::SEQUENCE, 20, size!(1..)),
    SetOf(Tag::SET, 47, size!(1..)),
    Leaf(Signed64, Tag::ENUMERATED, NONE, &[("free", 0), ("busy", 1)]),
    Choice("Contact", &[("email", 25), ("phone", 24), ("team", 23)]),
    Sequence(
        Tag::SEQUENCE,
        &[
            ("id", Required, 41),
            ("name", Required, 37),
            ("listed", Default(Truth(true)), 36),
            ("floor", Default(Number(-1)), 35),
            ("room", Required, 34),
            ("email", Optional, 33),
            ("role", Required, 32),
            ("contact", Required, 47),
            ("relation", Default(Number(5)), 31),
            ("visits", Default(Number(1)), 30),
            ("attendance", Required, 29),
            ("home", Required, 28),
            ("team", Optional, 27),
            ("photo", Required, 26),
            ("...", Required, 50),
        ],
    ),
    Choice(
        "Change",
        &[
            ("renumber", 19),
            ("list", 18),
            ("remove", 17),
            ("rename", 16),
            ("reach", 15),
            ("relate", 14),
            ("promote", 13),
            ("attend", 12),
            ("mark", 11),
            ("annotate", 10),
            ("roles", 44),
        ],
    ),
    Unknown,
];

impl HasSchema for crate::Review {
    ghost ID = { 38 };

    const ID: usize = 38;

    fn types() -> &'static [StaticType] {
        TYPES
    }
}

impl HasSchema for crate::Reply {
    ghost ID = { 39 };

    const ID: usize = 39;

    fn types() -> &'static [StaticType] {
        TYPES
    }
}

impl HasSchema for crate::Rights {
    ghost ID = { 40 };

    const ID: usize = 40;

    fn types() -> &'static [StaticType] {
        TYPES
    }
}

impl HasSchema for crate::Elevation {
    ghost ID = { 42 };

    const ID: usize = 42;

    fn types() -> &'static [StaticType] {
        TYPES
    }
}

impl HasSchema for crate::Members {
    ghost ID = { 45 };

    const ID: usize = 45;

    fn types() -> &'static [StaticType] {
        TYPES
    }
}

impl HasSchema for crate::Person {
    ghost ID = { 48 };

    const ID: usize = 48;

    fn types() -> &'static [StaticType] {
        TYPES
    }
}

impl HasSchema for crate::Change {
    ghost ID = { 49 };

    const ID: usize = 49;

    fn types() -> &'static [StaticType] {
        TYPES
    }
}
