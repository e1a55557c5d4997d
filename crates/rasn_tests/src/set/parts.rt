//! A SET whose parts are a type: components in any order, each at most once (X.690 8.11, 10.3,
//! 11.5).

use crate::types::Signal;
use crate::whole::{Answer, Rewritten, assert_decodes, assert_rewrites};
use rasn::types::Codec;

const OUT_OF_ORDER: &str = "CodecSpecific { inner: Der(SetComponentsOutOfOrder) }";

const DEFAULT_PRESENT: &str = "CodecSpecific { inner: Der(DefaultValuePresent) }";

/// TRUE, a level of 8 and a mark of 5.
const ALL: &[u8] = &[
    0x31, 0x09, 0x01, 0x01, 0xFF, 0x02, 0x01, 0x08, 0x80, 0x01, 0x05,
];

/// The same components in descending order of their tags.
const FALLING: &[u8] = &[
    0x31, 0x09, 0x80, 0x01, 0x05, 0x02, 0x01, 0x08, 0x01, 0x01, 0xFF,
];

/// A mark of 5 alone.
const MARK: &[u8] = &[0x31, 0x03, 0x80, 0x01, 0x05];

const MARK_INDEFINITE: &[u8] = &[0x31, 0x80, 0x80, 0x01, 0x05, 0x00, 0x00];

/// The default level of 7, and the mark.
const SEVEN: &[u8] = &[0x31, 0x06, 0x02, 0x01, 0x07, 0x80, 0x01, 0x05];

#[test]
fn components_come_in_any_order(rt: HostRuntime) {
    const ROWS: &[Rewritten<'static>] = &[
        (ALL, Codec::Der, Codec::Der, ALL),
        (FALLING, Codec::Ber, Codec::Der, ALL),
        (FALLING, Codec::Cer, Codec::Der, ALL),
        (MARK, Codec::Der, Codec::Der, MARK),
        (MARK_INDEFINITE, Codec::Ber, Codec::Der, MARK),
        (SEVEN, Codec::Ber, Codec::Der, MARK),
    ];
    assert_rewrites::<Signal>(&rt, rt.alloc(), ROWS);
}

// No component may be present twice, a required one must be present, and no other may (X.680 27).
// DER requires the order of the tags (X.690 10.3), and omits a default (11.5).
#[test]
fn other_components_and_other_forms_are_refused(rt: HostRuntime) {
    const MARK_TWICE: &[u8] = &[0x31, 0x06, 0x80, 0x01, 0x05, 0x80, 0x01, 0x06];
    const TRUTH_TWICE: &[u8] = &[
        0x31, 0x09, 0x01, 0x01, 0xFF, 0x01, 0x01, 0x00, 0x80, 0x01, 0x05,
    ];
    const LEVEL_TWICE: &[u8] = &[
        0x31, 0x09, 0x02, 0x01, 0x08, 0x02, 0x01, 0x08, 0x80, 0x01, 0x05,
    ];
    const EMPTY: &[u8] = &[0x31, 0x00];
    const UNKNOWN: &[u8] = &[0x31, 0x06, 0x80, 0x01, 0x05, 0x81, 0x01, 0x05];
    const ROWS: &[Answer<'static>] = &[
        (FALLING, Codec::Der, OUT_OF_ORDER),
        (SEVEN, Codec::Der, DEFAULT_PRESENT),
        (MARK_TWICE, Codec::Ber, "DuplicateField { name: \"mark\" }"),
        (
            TRUTH_TWICE,
            Codec::Der,
            "DuplicateField { name: \"truth\" }",
        ),
        (
            LEVEL_TWICE,
            Codec::Cer,
            "DuplicateField { name: \"level\" }",
        ),
        (EMPTY, Codec::Der, "MissingField { name: \"mark\" }"),
        (UNKNOWN, Codec::Der, "NoValidChoice { name: \"Signal\" }"),
    ];
    assert_decodes::<Signal>(&rt, rt.alloc(), ROWS);
}
