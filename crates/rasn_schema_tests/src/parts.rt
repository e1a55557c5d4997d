//! Parts of messages, by their paths.

use crate::faults::TYPES;
use crate::types::made;
use rasn_dynamic::{
    ListedParts, MessageParts, Part, Step, component_at, find_part, open_parts_of, parts_of,
    path_named,
};
use rasn_schema::{Schema, TypeId};
use rasn_types::types::Codec;
use std::alloc::Global;
use std::process::Abort;

/// Where a part is: the offset, the type, the length of its header and of all of it.
type Found = (usize, usize, usize, usize);

/// A type, octets of it, a path, and the part there.
type Row = (
    usize,
    &'static [u8],
    &'static [usize],
    Option<(Found, bool)>,
);

fn is_found(found: &Option<Part<'_>>, expected: &Option<(Found, bool)>) -> bool {
    match (found, expected) {
        (Some(part), Some(((offset, id, header_len, len), is_indefinite))) => {
            part.offset == *offset
                && part.id == TypeId(*id)
                && part.header_len == *header_len
                && part.octets.len() == *len
                && part.is_indefinite == *is_indefinite
        }
        (None, None) => true,
        _ => false,
    }
}

/// Returns whether the part is found.
fn finds(alloc: Global, schema: &Schema, row: &Row) -> bool {
    let (id, octets, path, expected) = row;
    match find_part(alloc, Codec::Ber, schema, TypeId(*id), *octets, *path) {
        Ok(found) => is_found(&found, expected),
        Err(_) => false,
    }
}

const LIST: &[u8] = &[0x30, 13, 0x30, 6, 1, 1, 0xFF, 2, 1, 7, 0x30, 3, 1, 1, 0];

const OPEN_LIST: &[u8] = &[
    0x30, 0x80, 0x30, 0x80, 1, 1, 0xFF, 2, 1, 9, 0, 0, 0x30, 6, 1, 1, 0, 2, 1, 1, 0, 0,
];

/// Two values that the type doesn't name, after the one that it does.
const EXTENDED: &[u8] = &[0x30, 8, 1, 1, 0xFF, 5, 0, 2, 1, 5];

/// A SET whose components are in another order than in the type, around values that it doesn't name
/// (X.690 8.11, X.680 27).
const MIXED: &[u8] = &[0x31, 11, 5, 0, 2, 1, 7, 0x80, 1, 0x55, 1, 1, 0xFF];

// X.690 8.1.2, 8.1.3, 8.9 to 8.11, 8.13: offsets are counted in the octets by hand.
#[test]
fn parts_are_found(rt: HostRuntime) {
    const ROWS: &[Row] = &[
        (3, OPEN_LIST, &[], Some(((0, 3, 2, 22), true))),
        (3, OPEN_LIST, &[0], Some(((2, 2, 2, 10), true))),
        (3, OPEN_LIST, &[0, 1], Some(((7, 1, 2, 3), false))),
        (3, OPEN_LIST, &[1], Some(((12, 2, 2, 8), false))),
        (3, OPEN_LIST, &[1, 1], Some(((17, 1, 2, 3), false))),
        (3, OPEN_LIST, &[2], None),
        (3, OPEN_LIST, &[1, 2], None),
        (3, LIST, &[0, 1], Some(((7, 1, 2, 3), false))),
        (5, &[1, 1, 0], &[0], Some(((0, 0, 2, 3), false))),
        (5, &[1, 1, 0], &[1], None),
        (
            5,
            &[0xA0, 4, 0x30, 0, 5, 0],
            &[2, 0],
            Some(((2, 3, 2, 2), false)),
        ),
        (7, EXTENDED, &[1], Some(((5, 6, 2, 5), false))),
        (7, &[0x30, 3, 1, 1, 0xFF], &[1], Some(((5, 6, 0, 0), false))),
        (8, MIXED, &[0], Some(((10, 0, 2, 3), false))),
        (8, MIXED, &[1], Some(((4, 1, 2, 3), false))),
        (8, MIXED, &[2], None),
        (8, MIXED, &[3], None),
    ];
    let schema = made(&rt, rt.alloc(), TYPES);
    for row in ROWS {
        assert!(rt; finds(rt.alloc(), &schema, row));
    }
}

/// Returns whether the contents of the part at a path are these.
fn has_contents(
    alloc: Global,
    schema: &Schema,
    octets: &[u8],
    path: &[usize],
    expected: &[u8],
) -> bool {
    match find_part(alloc, Codec::Ber, schema, TypeId(3), octets, path) {
        Ok(Some(part)) => part.contents() == expected,
        _ => false,
    }
}

// X.690 8.1.3.6, 8.1.4, 8.1.5: neither the header nor end-of-contents octets are contents.
#[test]
fn contents_are_between_header_and_end(rt: HostRuntime) {
    const ROWS: &[(&[u8], &[usize], &[u8])] = &[
        (OPEN_LIST, &[0], &[1, 1, 0xFF, 2, 1, 9]),
        (OPEN_LIST, &[1], &[1, 1, 0, 2, 1, 1]),
        (LIST, &[0, 1], &[7]),
    ];
    let schema = made(&rt, rt.alloc(), TYPES);
    for (octets, path, expected) in ROWS {
        assert!(rt; has_contents(rt.alloc(), &schema, octets, path, expected));
    }
}

/// Returns whether the part that is found at this path is this one.
fn is_at_path(
    alloc: Global,
    schema: &Schema,
    id: TypeId,
    octets: &[u8],
    path: &[usize],
    part: &Part<'_>,
) -> bool {
    match find_part(alloc, Codec::Ber, schema, id, octets, path) {
        Ok(Some(found)) => {
            found.offset == part.offset
                && found.id == part.id
                && found.header_len == part.header_len
                && found.is_indefinite == part.is_indefinite
                && found.octets == part.octets
        }
        _ => false,
    }
}

/// Returns how many parts a message has, if each is the one that is found at its path.
fn parts_found(alloc: Global, schema: &Schema, id: usize, octets: &[u8]) -> Option<usize> {
    let mut parts = parts_of(alloc, Codec::Ber, schema, TypeId(id), octets).ok()?;
    for count in 0..octets.len() {
        match parts.next(alloc) {
            Ok(Some(part)) => {
                if !is_at_path(alloc, schema, TypeId(id), octets, &parts.path, &part) {
                    return None;
                }
            }
            Ok(None) => return Some(count),
            Err(_) => return None,
        }
    }
    None
}

// The parts are counted in the octets by hand.
#[test]
fn parts_are_gone_over(rt: HostRuntime) {
    const ROWS: &[(usize, &[u8], usize)] = &[
        (3, OPEN_LIST, 7),
        (5, &[1, 1, 0], 2),
        (5, &[0xA0, 2, 0x30, 0], 3),
        (7, EXTENDED, 3),
        (5, &[0x30, 8, 0x30, 6, 1, 1, 0, 2, 1, 1], 5),
        (14, TAGGED, 4),
        (14, CHOSEN_PAIR, 7),
    ];
    let schema = made(&rt, rt.alloc(), TYPES);
    for (id, octets, count) in ROWS {
        assert!(rt; parts_found(rt.alloc(), &schema, *id, octets) == Some(*count));
    }
}

/// A part of a message: its path, offset, type and length.
type Listed = (&'static [usize], usize, usize, usize);

/// Returns whether a path is the one that is expected.
fn is_path(path: &[usize], expected: &[usize]) -> bool {
    path == expected
}

/// Returns whether the next part of a message is this one.
fn is_next(alloc: Global, parts: &mut MessageParts<'_>, expected: &Listed) -> bool {
    let (path, offset, id, len) = expected;
    match parts.next(alloc) {
        Ok(Some(part)) => {
            is_path(&parts.path, path)
                && part.offset == *offset
                && part.id == TypeId(*id)
                && part.octets.len() == *len
        }
        _ => false,
    }
}

/// Asserts that the parts of a message are these.
fn assert_listed(rt: &impl Abort, alloc: Global, id: usize, octets: &[u8], expected: &[Listed]) {
    let schema = made(rt, alloc, TYPES);
    match parts_of(alloc, Codec::Ber, &schema, TypeId(id), octets) {
        Ok(mut parts) => {
            for part in expected {
                assert!(rt; is_next(alloc, &mut parts, part));
            }
            assert!(rt; matches!(parts.next(alloc), Ok(None)));
        }
        Err(_) => assert!(rt; false, "{octets:?}"),
    }
}

// X.680 27: what a SET doesn't name is listed where it is, with the index of the extension marker.
#[test]
fn unknown_components_are_parts(rt: HostRuntime) {
    const EXPECTED: &[Listed] = &[
        (&[], 0, 8, 13),
        (&[2], 2, 6, 2),
        (&[1], 4, 1, 3),
        (&[2], 7, 6, 3),
        (&[0], 10, 0, 3),
    ];
    const NAMED: &[Listed] = &[(&[], 0, 8, 8), (&[1], 2, 1, 3), (&[0], 5, 0, 3)];
    assert_listed(&rt, rt.alloc(), 8, MIXED, EXPECTED);
    assert_listed(&rt, rt.alloc(), 8, &[0x31, 6, 2, 1, 7, 1, 1, 0xFF], NAMED);
}

const TAGGED: &[u8] = &[0xA0, 3, 2, 1, 7];

const CHOSEN_PAIR: &[u8] = &[0x30, 6, 1, 1, 0xFF, 2, 1, 7];

/// Of an open or unknown value: how many octets there are from its start on, its type, its length.
type Open = (usize, usize, usize);

fn is_open_list(parts: &ListedParts<'_>, expected: &[Open], rest: &[u8]) -> bool {
    for (part, (left, id, len)) in parts.list.iter().zip(expected) {
        if part.left != *left || part.id != TypeId(*id) || part.octets.len() != *len {
            return false;
        }
    }
    parts.list.len() == expected.len() && parts.rest == rest
}

fn assert_open(
    rt: &impl Abort,
    alloc: Global,
    schema: &Schema,
    id: usize,
    octets: &[u8],
    expected: &[Open],
    rest: &[u8],
) {
    match open_parts_of(alloc, Codec::Ber, schema, TypeId(id), octets) {
        Ok(parts) => assert!(rt; is_open_list(&parts, expected, rest)),
        Err(_) => assert!(rt; false, "{octets:?}"),
    }
}

// The octets are counted by hand.
#[test]
fn open_values_are_listed_alone(rt: HostRuntime) {
    let schema = made(&rt, rt.alloc(), TYPES);
    assert_open(
        &rt,
        rt.alloc(),
        &schema,
        8,
        MIXED,
        &[(11, 6, 2), (6, 6, 3)],
        &[],
    );
    assert_open(&rt, rt.alloc(), &schema, 7, EXTENDED, &[(5, 6, 5)], &[]);
    assert_open(&rt, rt.alloc(), &schema, 3, OPEN_LIST, &[], &[]);
    assert_open(&rt, rt.alloc(), &schema, 0, &[1, 1, 0, 5, 0], &[], &[5, 0]);
}

// X.690 8.13: each of CHOICEs in one another is a part, with all of the octets.
#[test]
fn choices_in_one_another_are_parts(rt: HostRuntime) {
    const IN_TAGGED: &[Listed] = &[
        (&[], 0, 14, 5),
        (&[1], 0, 13, 5),
        (&[1, 0], 0, 10, 5),
        (&[1, 0, 0], 2, 1, 3),
    ];
    const IN_PAIR: &[Listed] = &[
        (&[], 0, 14, 8),
        (&[1], 0, 13, 8),
        (&[1, 1], 0, 12, 8),
        (&[1, 1, 1], 0, 11, 8),
        (&[1, 1, 1, 1], 0, 2, 8),
        (&[1, 1, 1, 1, 0], 2, 0, 3),
        (&[1, 1, 1, 1, 1], 5, 1, 3),
    ];
    assert_listed(&rt, rt.alloc(), 14, TAGGED, IN_TAGGED);
    assert_listed(&rt, rt.alloc(), 14, CHOSEN_PAIR, IN_PAIR);
}

// The contents of an unknown component aren't parts, whatever its length form is.
#[test]
fn nothing_is_in_unknown_components(rt: HostRuntime) {
    const NESTED: &[u8] = &[
        0x31, 0x80, 0xA0, 0x80, 5, 0, 0, 0, 1, 1, 0xFF, 2, 1, 7, 0x30, 2, 5, 0, 0, 0,
    ];
    const EXPECTED: &[Listed] = &[
        (&[], 0, 8, 20),
        (&[2], 2, 6, 6),
        (&[0], 8, 0, 3),
        (&[1], 11, 1, 3),
        (&[2], 14, 6, 4),
    ];
    assert_listed(&rt, rt.alloc(), 8, NESTED, EXPECTED);
}

/// A type, names that lead into it, and the path that they lead along, if any.
type Named = (usize, &'static [Step<'static>], Option<&'static [usize]>);

/// Returns whether the names lead along the path, or nowhere.
fn leads(alloc: Global, schema: &Schema, row: &Named) -> bool {
    let (id, steps, expected) = row;
    match path_named(alloc, schema, TypeId(*id), steps) {
        Ok(Some(path)) => expected.is_some_and(|expected| path.as_slice() == expected),
        Ok(None) => expected.is_none(),
        Err(_) => false,
    }
}

#[test]
fn names_lead_along_paths(rt: HostRuntime) {
    const ROWS: &[Named] = &[
        (
            5,
            &[Step::Name("list"), Step::Index(4), Step::Name("number")],
            Some(&[1, 4, 1]),
        ),
        (5, &[Step::Name("tagged"), Step::Index(0)], Some(&[2, 0, 0])),
        (5, &[Step::Name("flags")], None),
        (2, &[Step::Index(0)], None),
        (2, &[], Some(&[])),
    ];
    let schema = made(&rt, rt.alloc(), TYPES);
    for row in ROWS {
        assert!(rt; leads(rt.alloc(), &schema, row));
    }
}

/// Returns whether a path leads to the component with this name, or to none.
fn leads_to(schema: &Schema, id: usize, path: &[usize], name: Option<&str>) -> bool {
    match component_at(schema, TypeId(id), path) {
        Some(component) => name.is_some_and(|name| component.name.as_str() == name),
        None => name.is_none(),
    }
}

#[test]
fn paths_lead_to_components(rt: HostRuntime) {
    const ROWS: &[(usize, &[usize], Option<&str>)] = &[
        (2, &[0], Some("flag")),
        (5, &[2, 0, 4, 1], Some("number")),
        (5, &[2, 0, 4], None),
        (2, &[2], None),
        (2, &[], None),
    ];
    let schema = made(&rt, rt.alloc(), TYPES);
    for (id, path, name) in ROWS {
        assert!(rt; leads_to(&schema, *id, path, *name));
    }
}
