//! Identifiers as values: a tag and the bit of a constructed encoding (X.690 8.1.2).

use crate::reading::assert_facts;
use rasn_types::ber::Identifier;
use rasn_types::types::{Class, Tag};

#[test]
fn holds_a_tag_and_a_bit(rt: HostRuntime) {
    let sequence = Identifier::from_tag(Tag::SEQUENCE, true);
    assert_facts(
        &rt,
        &[
            sequence.is_constructed(),
            Identifier::new(Class::Universal, false, 16).is_primitive(),
            sequence.tag(17).tag == Tag::SET,
            sequence.tag(17).is_constructed(),
            (*sequence).value == 16,
        ],
    );
}

// The tag is compared first, and primitive is less than constructed.
#[test]
fn is_ordered_by_its_tag_first(rt: HostRuntime) {
    let primitive = Identifier::new(Class::Context, false, 1);
    let constructed = Identifier::new(Class::Context, true, 1);
    assert_facts(
        &rt,
        &[
            primitive < constructed,
            constructed < Identifier::new(Class::Context, false, 2),
            constructed < Identifier::new(Class::Private, false, 0),
            primitive != constructed,
        ],
    );
}

/// The tags that have names, and their numbers (X.680, table 1).
const TAGS: &[(Tag, u32)] = &[
    (Tag::EOC, 0),
    (Tag::BOOL, 1),
    (Tag::INTEGER, 2),
    (Tag::BIT_STRING, 3),
    (Tag::OCTET_STRING, 4),
    (Tag::NULL, 5),
    (Tag::OBJECT_IDENTIFIER, 6),
    (Tag::EXTERNAL, 8),
    (Tag::ENUMERATED, 10),
    (Tag::UTF8_STRING, 12),
    (Tag::SEQUENCE, 16),
    (Tag::SET, 17),
    (Tag::NUMERIC_STRING, 18),
    (Tag::PRINTABLE_STRING, 19),
    (Tag::TELETEX_STRING, 20),
    (Tag::IA5_STRING, 22),
    (Tag::UTC_TIME, 23),
    (Tag::GENERALIZED_TIME, 24),
    (Tag::GRAPHIC_STRING, 25),
    (Tag::VISIBLE_STRING, 26),
    (Tag::GENERAL_STRING, 27),
    (Tag::BMP_STRING, 30),
    (Tag::DATE, 31),
];

#[test]
fn tags_have_the_numbers_of_their_types(rt: HostRuntime) {
    for (tag, number) in TAGS {
        assert!(rt; *tag == Tag::new(Class::Universal, *number), "{number}");
    }
}
