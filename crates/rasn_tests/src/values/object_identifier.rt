//! OBJECT IDENTIFIER (X.690 8.19) and its arcs (X.660 7.6).

use crate::reading::assert_facts;
use crate::writing::{
    assert_output, assert_refuses, assert_written, identifier_of, made, new_encoder,
};
use rasn_enc::ber::enc::object_identifier_as_bytes;
use rasn_types::types::{Codec, Identifier, ObjectIdentifier, Tag};
use std::alloc::{AllocError, Global};

/// Returns whether these arcs aren't an object identifier.
fn is_none(alloc: Global, arcs: &[u32]) -> bool {
    identifier_of(alloc, arcs).is_ok_and(|identifier| identifier.is_none())
}

/// Returns the object identifier of a copy of these arcs.
fn copied(alloc: Global, arcs: &[u32]) -> Result<Option<ObjectIdentifier>, AllocError> {
    ObjectIdentifier::from_arcs(alloc, arcs)
}

const RSA_ARCS: &[u32] = &[1, 2, 840, 113549];

// An object identifier has at least two arcs, and a first arc of at most 2 (X.660 7.6).
#[test]
fn keeps_arcs(rt: HostRuntime) {
    let alloc = rt.alloc();
    let one = made(&rt, identifier_of(alloc, RSA_ARCS));
    let other = made(&rt, copied(alloc, RSA_ARCS));
    assert_facts(
        &rt,
        &[
            is_none(alloc, &[2]),
            is_none(alloc, &[3, 1]),
            copied(alloc, &[]).is_ok_and(|identifier| identifier.is_none()),
            one.arcs() == RSA_ARCS,
            one == other,
        ],
    );
}

/// The arcs {2 999 1} and {2 4294967215}.
const ARCS: &[&[u32]] = &[&[2, 999, 1], &[2, 4294967215]];

// An octet holds seven bits of an arc (X.690 8.19).
#[test]
fn writes_object_identifiers(rt: HostRuntime) {
    let mut encoder = new_encoder(&rt, rt.alloc(), Codec::Der);
    for arcs in ARCS {
        let tag = Tag::OBJECT_IDENTIFIER;
        let answer = encoder.encode_object_identifier(tag, arcs, Identifier::EMPTY);
        assert_written(&rt, answer);
    }
    const TWO_IDENTIFIERS: &[u8] = &[
        0x06, 0x03, 0x88, 0x37, 0x01, 0x06, 0x05, 0x8F, 0xFF, 0xFF, 0xFF, 0x7F,
    ];
    assert_output(&rt, encoder.output(), TWO_IDENTIFIERS);
}

/// Arcs, the result of appending their octets to 2A, and the octets then.
const APPENDED: &[(&[u32], &str, &[u8])] = &[
    (&[1, 2, 1], "written", &[0x2A, 0x2A, 0x01]),
    (
        &[2, 4294967216],
        "CodecSpecific { inner: Ber(InvalidObjectIdentifier { oid: [2, 4294967216] }) }",
        &[0x2A],
    ),
    (
        &[1, 45],
        "CodecSpecific { inner: Ber(InvalidObjectIdentifier { oid: [1, 45] }) }",
        &[0x2A],
    ),
    (
        &[3, 1],
        "CodecSpecific { inner: Ber(InvalidObjectIdentifier { oid: [3, 1] }) }",
        &[0x2A],
    ),
    (
        &[1],
        "CodecSpecific { inner: Ber(InvalidObjectIdentifier { oid: [1] }) }",
        &[0x2A],
    ),
];

// Arcs without an encoding are refused under BER, and the vector is unchanged (X.690 8.19.4).
#[test]
fn appends_the_octets_of_arcs(rt: HostRuntime) {
    let alloc = rt.alloc();
    for (arcs, text, octets) in APPENDED {
        let mut found = Vec::new(alloc);
        assert!(rt; found.push(0x2A).is_ok(), "no memory");
        let answer = object_identifier_as_bytes(alloc, arcs, &mut found);
        assert_refuses(&rt, alloc, Codec::Ber, answer, text);
        assert!(rt; found.as_slice() == *octets, "{arcs:?}");
    }
}
