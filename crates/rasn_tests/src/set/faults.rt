//! SETs with several faults: `read_set` and `decode_set` report the same one (X.690 8.11, 10.3,
//! 11.5).

use crate::reading::{Row, assert_reads, decoder_of, held};
use crate::types::{Signal, decode_signal};
use rasn::de::Decode;
use rasn::types::Codec;
use std::alloc::{AllocError, Global};
use std::process::Abort;

const RULES: [Codec; 3] = [Codec::Ber, Codec::Cer, Codec::Der];

const OUT_OF_ORDER: &str = "CodecSpecific { inner: Der(SetComponentsOutOfOrder) }";

const DEFAULT_PRESENT: &str = "CodecSpecific { inner: Der(DefaultValuePresent) }";

const TOO_GREAT: &str = "IntegerOverflow { max_width: 8 }";

const NO_CHOICE: &str = "NoValidChoice { name: \"Signal\" }";

const TRUTH_TWICE: &str = "DuplicateField { name: \"truth\" }";

const MARK_TWICE: &str = "DuplicateField { name: \"mark\" }";

const FIRST_FAULTS: &[Row] = &[
    // A part that is present twice is reported after each component is read, and so after the
    // refusal of a later component.
    (
        &[
            0x31, 0x09, 0x80, 0x01, 0x05, 0x80, 0x01, 0x05, 0x81, 0x01, 0x05,
        ],
        Codec::Ber,
        NO_CHOICE,
        11,
    ),
    (
        &[
            0x31, 0x0A, 0x80, 0x01, 0x05, 0x80, 0x01, 0x05, 0x02, 0x02, 0x01, 0x00,
        ],
        Codec::Cer,
        TOO_GREAT,
        12,
    ),
    (
        &[
            0x31, 0x09, 0x02, 0x01, 0x08, 0x02, 0x01, 0x08, 0x01, 0x01, 0xFF,
        ],
        Codec::Der,
        OUT_OF_ORDER,
        11,
    ),
    (
        &[
            0x31, 0x09, 0x01, 0x01, 0xFF, 0x01, 0x01, 0xFF, 0x02, 0x01, 0x07,
        ],
        Codec::Der,
        DEFAULT_PRESENT,
        11,
    ),
    // It is reported before a missing part and before missing end-of-contents octets.
    (
        &[0x31, 0x06, 0x01, 0x01, 0xFF, 0x01, 0x01, 0xFF],
        Codec::Ber,
        TRUTH_TWICE,
        8,
    ),
    (
        &[0x31, 0x80, 0x80, 0x01, 0x05, 0x80, 0x01, 0x05],
        Codec::Ber,
        MARK_TWICE,
        2,
    ),
    // Of two parts that are present twice, the one whose second component is earlier is reported.
    (
        &[
            0x31, 0x0C, 0x80, 0x01, 0x05, 0x01, 0x01, 0xFF, 0x01, 0x01, 0xFF, 0x80, 0x01, 0x05,
        ],
        Codec::Ber,
        TRUTH_TWICE,
        14,
    ),
    (
        &[
            0x31, 0x0C, 0x01, 0x01, 0xFF, 0x80, 0x01, 0x05, 0x80, 0x01, 0x05, 0x01, 0x01, 0xFF,
        ],
        Codec::Cer,
        MARK_TWICE,
        14,
    ),
];

// Components are read to the end of the contents before a duplicate or missing part is refused.
#[test]
fn reports_the_first_of_two_faults(rt: HostRuntime) {
    assert_reads::<Signal>(&rt, rt.alloc(), FIRST_FAULTS);
}

const COMPONENTS: [&[u8]; 16] = [
    // No component; or the truth, a level of 8, a mark of 5.
    &[],
    &[0x01, 0x01, 0xFF],
    &[0x02, 0x01, 0x08],
    &[0x80, 0x01, 0x05],
    // Each of them twice.
    &[0x01, 0x01, 0xFF, 0x01, 0x01, 0x00],
    &[0x02, 0x01, 0x08, 0x02, 0x01, 0x09],
    &[0x80, 0x01, 0x05, 0x80, 0x01, 0x06],
    // The truth after the mark, which DER refuses (X.690 10.3), and the default of 7 (11.5).
    &[0x80, 0x01, 0x05, 0x01, 0x01, 0xFF],
    &[0x02, 0x01, 0x07],
    // A BOOLEAN of two octets (8.2.1), a level of 256, a constructed mark.
    &[0x01, 0x02, 0xFF, 0xFF],
    &[0x02, 0x02, 0x01, 0x00],
    &[0xA0, 0x03, 0x02, 0x01, 0x05],
    // A tag that no part has, and end-of-contents octets.
    &[0x81, 0x01, 0x05],
    &[0x00, 0x00],
    // A mark whose tag isn't in the shortest form (8.1.2.4), and a length beyond the end of the
    // input.
    &[0x9F, 0x00, 0x01, 0x05],
    &[0x80, 0x1F, 0x05],
];

/// The form of a SET's encoding: its length is that of the contents, one more, or indefinite, with
/// or without end-of-contents octets.
#[derive(Clone, Copy)]
enum Form {
    Definite,
    TooLong,
    Indefinite,
    NotEnded,
}

const FORMS: [Form; 4] = [
    Form::Definite,
    Form::TooLong,
    Form::Indefinite,
    Form::NotEnded,
];

/// Returns the length octet of contents of fewer than 127 octets, and the octets that follow them.
fn frame(form: Form, len: usize) -> (u8, &'static [u8]) {
    let short = u8::try_from(len).unwrap_or(0);
    match form {
        Form::Definite => (short, &[0x05, 0x00]),
        Form::TooLong => (short.saturating_add(1), &[]),
        Form::Indefinite => (0x80, &[0x00, 0x00, 0x05, 0x00]),
        Form::NotEnded => (0x80, &[]),
    }
}

/// Returns a SET of these components.
fn encoding(alloc: Global, form: Form, components: &[&[u8]]) -> Result<Vec<u8>, AllocError> {
    let contents = components.concat(alloc)?;
    let (length, after) = frame(form, contents.len());
    let mut octets = Vec::new(alloc);
    octets.push(0x31)?;
    octets.push(length)?;
    octets.extend_from_slice(&contents)?;
    octets.extend_from_slice(after)?;
    Ok(octets)
}

/// Asserts that `Signal::decode` and `decode_signal` return the same result for the SET, and
/// consume the same number of octets.
fn assert_alike(rt: &impl Abort, alloc: Global, rules: Codec, octets: &[u8]) {
    let mut by_parts = decoder_of(alloc, octets, rules);
    let mut by_components = decoder_of(alloc, octets, rules);
    let parts = Signal::decode(&mut by_parts);
    let components = decode_signal(&mut by_components);
    assert!(rt; parts == components, "{rules:?} {octets:?}");
    assert!(rt;
        by_parts.decoded_len() == by_components.decoded_len(),
        "{rules:?} {octets:?}"
    );
}

/// Asserts the same of a SET of these components, in each form and under each rule.
fn assert_each_alike(rt: &impl Abort, alloc: Global, components: &[&[u8]]) {
    for form in FORMS {
        let octets = held(rt, encoding(alloc, form, components));
        for rules in RULES {
            assert_alike(rt, alloc, rules, &octets);
        }
    }
}

// Each pair of these components, alone or before a mark, which is a required part.
#[test]
fn refuses_alike_by_parts_and_by_components(rt: HostRuntime) {
    const MARK: &[u8] = &[0x80, 0x01, 0x05];
    let alloc = rt.alloc();
    for first in COMPONENTS {
        for second in COMPONENTS {
            assert_each_alike(&rt, alloc, &[first, second]);
            assert_each_alike(&rt, alloc, &[first, second, MARK]);
        }
    }
}
