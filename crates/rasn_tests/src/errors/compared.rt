//! Comparisons of views of bits and of errors.

use crate::reading::{assert_facts, decoder_of, is_incomplete, refusal};
use crate::writing::made;
use rasn_de::de::Decode;
use rasn_types::types::{Any, BitStr, Codec, Constraints};
use std::process::Abort;

fn view<'a>(rt: &impl Abort, octets: &'a [u8], start: usize, len: usize) -> BitStr<'a> {
    made(rt, Ok(BitStr::new(octets, start, len)))
}

// The bits 1,0,1 at two different places in octets are equal; they differ from 1,0,0 and from 1,0.
#[test]
fn compares_views_of_bits(rt: HostRuntime) {
    let front = view(&rt, &[0xA0], 0, 3);
    assert_facts(
        &rt,
        &[
            front == view(&rt, &[0x01, 0x40], 7, 3),
            front != view(&rt, &[0x80], 0, 3),
            front != view(&rt, &[0xA0], 0, 2),
        ],
    );
}

// Errors are equal exactly if their kinds, fields and rules are.
#[test]
fn compares_errors(rt: HostRuntime) {
    let mut decoder = decoder_of(rt.alloc(), &[0x01], Codec::Ber);
    let refused = refusal(&rt, bool::decode(&mut decoder));
    assert_facts(
        &rt,
        &[
            is_incomplete(&refused, 1, Codec::Ber),
            !is_incomplete(&refused, 2, Codec::Ber),
            !is_incomplete(&refused, 1, Codec::Der),
        ],
    );
}

// Octets are compared, of an open type without octets too.
#[test]
fn has_defaults(rt: HostRuntime) {
    let alloc = rt.alloc();
    assert!(rt; Constraints::default() == Constraints::NONE);
    assert!(rt; Any::new(Vec::new(alloc)) == Any::new(Vec::new(alloc)));
}
