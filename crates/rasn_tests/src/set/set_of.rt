//! Encoding of SET OF with its elements in the order of their octets (X.690 11.6).

use crate::set::order::{assert_always_out_of_order, assert_in_order, assert_out_of_order};
use crate::whole::encoded;
use crate::writing::{
    INVALID_0_40, assert_output, assert_refuses, assert_writes_pieces, identifiers_of, made,
    new_encoder, repeated,
};
use rasn_enc::enc::Encode;
use rasn_types::types::{Codec, OctetString, SetOf};
use std::alloc::{AllocError, Global};

/// Returns a SET OF OCTET STRING with these elements, in this order.
pub(super) fn strings(
    alloc: Global,
    elements: &[&[u8]],
) -> Result<Option<SetOf<OctetString>>, AllocError> {
    let mut strings = SetOf::new(alloc);
    for octets in elements {
        strings.insert(OctetString::from_vec(Vec::from_slice(alloc, octets)?))?;
    }
    Ok(Some(strings))
}

/// Returns a SET OF OCTET STRING with two strings, each of one octet repeated.
fn long_strings(
    alloc: Global,
    first: (u8, usize),
    second: (u8, usize),
) -> Result<Option<SetOf<OctetString>>, AllocError> {
    let mut strings = SetOf::new(alloc);
    for (octet, count) in [first, second] {
        if let Some(string) = repeated(alloc, octet, count)? {
            strings.insert(string)?;
        }
    }
    Ok(Some(strings))
}

// Headers are compared too, so 127 octets FF are before 128 octets 00.
#[test]
fn lengths_are_compared(rt: HostRuntime) {
    let alloc = rt.alloc();
    let pieces = [
        ([0x31, 0x82, 0x01, 0x04, 0x04, 0x7F].as_slice(), 0xFF, 127),
        (&[0x04, 0x81, 0x80], 0x00, 128),
    ];
    for rules in [Codec::Ber, Codec::Der] {
        let rising = long_strings(alloc, (0xFF, 127), (0x00, 128));
        assert_writes_pieces(&rt, alloc, rules, rising, &pieces);
    }
    let falling = made(&rt, long_strings(alloc, (0x00, 128), (0xFF, 127)));
    assert_always_out_of_order(&rt, alloc, &falling);
}

/// Returns a SET OF SEQUENCE OF INTEGER with these elements, in this order.
pub fn lists(alloc: Global, elements: &[&[u8]]) -> Result<Option<SetOf<Vec<u8>>>, AllocError> {
    let mut lists = SetOf::new(alloc);
    for numbers in elements {
        lists.insert(Vec::from_slice(alloc, numbers)?)?;
    }
    Ok(Some(lists))
}

// The length octet of a SEQUENCE of two numbers is greater under BER and DER; CER writes no such
// octet.
#[test]
fn each_rule_orders_by_its_octets(rt: HostRuntime) {
    let alloc = rt.alloc();
    let longer_last = made(&rt, lists(alloc, &[&[2], &[1, 1]]));
    const SHORTER_THEN_LONGER: &[u8] = &[
        0x31, 0x0D, 0x30, 0x03, 0x02, 0x01, 0x02, 0x30, 0x06, 0x02, 0x01, 0x01, 0x02, 0x01, 0x01,
    ];
    assert_in_order(&rt, alloc, &longer_last, SHORTER_THEN_LONGER);
    assert_out_of_order(&rt, alloc, Codec::Cer, &longer_last);
}

#[test]
fn lengths_that_are_not_told_are_not_compared(rt: HostRuntime) {
    let alloc = rt.alloc();
    let longer_first = made(&rt, lists(alloc, &[&[1, 1], &[2]]));
    const LONGER_THEN_SHORTER_IN_CER: &[u8] = &[
        0x31, 0x80, 0x30, 0x80, 0x02, 0x01, 0x01, 0x02, 0x01, 0x01, 0x00, 0x00, 0x30, 0x80, 0x02,
        0x01, 0x02, 0x00, 0x00, 0x00, 0x00,
    ];
    assert_output(
        &rt,
        encoded(alloc, Codec::Cer, &longer_first),
        LONGER_THEN_SHORTER_IN_CER,
    );
    assert_out_of_order(&rt, alloc, Codec::Ber, &longer_first);
    assert_out_of_order(&rt, alloc, Codec::Der, &longer_first);
}

// The object identifier 0.40 has no encoding (X.690 8.19.4). A SET OF with it is refused for this
// reason, not for its order.
#[test]
fn a_refused_element_takes_the_set_along(rt: HostRuntime) {
    const ALONE: &[&[u32]] = &[&[0, 40]];
    const LAST: &[&[u32]] = &[&[1, 2], &[0, 40]];
    let alloc = rt.alloc();
    for arcs in [ALONE, LAST] {
        let identifiers = SetOf::from_vec(made(&rt, identifiers_of(alloc, arcs)));
        for rules in [Codec::Ber, Codec::Cer, Codec::Der] {
            let mut encoder = new_encoder(&rt, alloc, rules);
            let answer = identifiers.encode(&mut encoder);
            assert_refuses(&rt, alloc, rules, answer, INVALID_0_40);
            assert_output(&rt, encoder.output(), &[]);
        }
    }
}
