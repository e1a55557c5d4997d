//! Headers: identifier (X.690 8.1.2) and length octets (8.1.3).

use crate::writing::{assert_output, assert_written, new_encoder};
use rasn_types::types::{Class, Codec, Identifier, Tag};

/// The class and number of a tag, and the octets of TRUE under the tag.
type TagRow = (Class, u32, &'static [u8]);

// Tags of each class, and their identifiers (X.690 8.1.2).
const TAGS: &[TagRow] = &[
    (Class::Context, 30, &[0x9E, 0x01, 0xFF]),
    (Class::Application, 31, &[0x5F, 0x1F, 0x01, 0xFF]),
    (Class::Private, 511, &[0xDF, 0x83, 0x7F, 0x01, 0xFF]),
    (
        Class::Universal,
        4294967295,
        &[0x1F, 0x8F, 0xFF, 0xFF, 0xFF, 0x7F, 0x01, 0xFF],
    ),
];

#[test]
fn tags_of_any_number(rt: HostRuntime) {
    for (class, value, octets) in TAGS {
        let mut encoder = new_encoder(&rt, rt.alloc(), Codec::Der);
        assert!(rt; encoder.codec() == Codec::Der);
        let tag = Tag::new(*class, *value);
        assert_written(&rt, encoder.encode_bool(tag, true, Identifier::EMPTY));
        assert_output(&rt, encoder.output(), octets);
    }
}
