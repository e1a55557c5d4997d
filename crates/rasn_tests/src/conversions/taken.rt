//! The contents of values that are moved out and borrowed.

use crate::reading::{assert_facts, held};
use crate::writing::made;
use rasn::prelude::*;
use std::alloc::Global;
use std::process::Abort;

/// Returns a vector of these octets.
fn vec_of(rt: &impl Abort, alloc: Global, octets: &[u8]) -> Vec<u8> {
    held(rt, Vec::from_slice(alloc, octets))
}

/// Returns 0A3B5F291CD, the example of a BIT STRING (X.690 8.6.4.2).
fn worked_bits(rt: &impl Abort, alloc: Global) -> BitString {
    let octets = vec_of(rt, alloc, &[0x0A, 0x3B, 0x5F, 0x29, 0x1C, 0xDF]);
    made(rt, Ok(BitString::new(octets, 44)))
}

/// Returns { joint-iso-itu-t(2) 999 3 }, the example of an OBJECT IDENTIFIER (X.690 8.19.5).
fn worked_arcs(rt: &impl Abort, alloc: Global) -> ObjectIdentifier {
    made(
        rt,
        Ok(ObjectIdentifier::new(held(rt, Vec::from_slice(alloc, &[2u32, 999, 3])))),
    )
}

#[test]
fn takes_values_out_of_tags(rt: HostRuntime) {
    let implicit: Implicit<bool, u8> = Implicit::new(7);
    let explicit: Explicit<bool, u8> = Explicit::new(9);
    assert!(rt; implicit.into_inner() == 7 && explicit.into_inner() == 9);
}

/// Asserts that the vector has these items.
fn assert_items<T: PartialEq + Drop>(rt: &impl Abort, found: Vec<T>, items: &[T]) {
    assert!(rt; found.as_slice() == items);
}

#[test]
fn takes_octets_out(rt: HostRuntime) {
    let alloc = rt.alloc();
    let string = OctetString::from_vec(vec_of(&rt, alloc, &[0x01, 0x23]));
    assert_items(&rt, string.into_vec(), &[0x01, 0x23]);
    let any = Any::new(vec_of(&rt, alloc, &[0x05, 0x00]));
    assert_items(&rt, any.into_vec(), &[0x05, 0x00]);
    assert_items(&rt, worked_arcs(&rt, alloc).into_vec(), &[2, 999, 3]);
    let jones = made(&rt, VisibleString::from_octets(alloc, b"Jones"));
    assert_items(&rt, jones.into_vec(), b"Jones");
    let units = made(&rt, BmpString::from_octets(alloc, &[0x00, 0x4A]));
    assert_items(&rt, units.into_vec(), &[0x00, 0x4A]);
}

/// Returns the number of bits that are set.
fn count_ones(bits: &BitString) -> u32 {
    let mut ones = 0u32;
    for bit in bits.iter() {
        if bit {
            ones = ones.wrapping_add(1);
        }
    }
    ones
}

// The unused bits of the last octet are zeros (X.690 11.2.1).
#[test]
fn lends_bits(rt: HostRuntime) {
    const OCTETS: &[u8] = &[0x0A, 0x3B, 0x5F, 0x29, 0x1C, 0xD0];
    let alloc = rt.alloc();
    let bits = worked_bits(&rt, alloc);
    let none = made(&rt, Ok(BitString::new(Vec::new(alloc), 0)));
    assert_facts(
        &rt,
        &[
            !bits.is_empty(),
            bits.as_octets() == OCTETS,
            count_ones(&bits) == 22,
            none.is_empty(),
            none.as_bitstr().is_empty(),
            none.as_bitstr().iter().next().is_none(),
        ],
    );
    assert!(rt; bits.into_vec().as_slice() == OCTETS);
}

// VisibleString "Jones" (X.690 8.23.3), and the Unicode characters U+015C and U+20AC as units.
#[test]
fn lends_text(rt: HostRuntime) {
    let alloc = rt.alloc();
    let jones = made(&rt, VisibleString::from_octets(alloc, b"Jones"));
    let string = made(
        &rt,
        BmpString::from_octets(alloc, &[0x01, 0x5C, 0x20, 0xAC]),
    );
    let mut units = string.units();
    assert_facts(
        &rt,
        &[
            jones.as_str() == "Jones",
            units.next() == Some(0x015C),
            units.next() == Some(0x20AC),
            units.next().is_none(),
        ],
    );
}

#[test]
fn goes_over_a_set(rt: HostRuntime) {
    let mut set = SetOf::new(rt.alloc());
    held(&rt, set.insert(3u8));
    held(&rt, set.insert(5));
    let mut seen = 0u8;
    for element in &set {
        seen = seen.wrapping_mul(10).wrapping_add(*element);
    }
    assert!(rt; seen == 35);
}
