//! The octets of integers in two's complement (X.690 8.3).

use rasn_types::types::{IntegerType, LONGEST_NUMBER};
use std::alloc::Global;
use std::process::Abort;

fn is_read<T: IntegerType + PartialEq>(alloc: Global, octets: &[u8], number: &Option<T>) -> bool {
    if octets.is_empty() {
        return false;
    }
    match T::from_octets(alloc, octets) {
        Ok(found) => found == *number,
        Err(_) => false,
    }
}

fn is_written<T: IntegerType>(number: &T, octets: &[u8]) -> bool {
    let mut room = [0; LONGEST_NUMBER];
    number.octets(&mut room) == octets
}

/// Asserts that the number has these octets, and is read from them.
fn assert_takes<T: IntegerType + PartialEq>(
    rt: &impl Abort,
    alloc: Global,
    number: T,
    octets: &[u8],
) {
    assert!(rt; is_written(&number, octets), "{octets:?}");
    assert!(rt; is_read(alloc, octets, &Some(number)), "{octets:?}");
}

const U128_MAX: &[u8] = &[
    0x00, 0xFF, 0xFF, 0xFF, 0xFF, 0xFF, 0xFF, 0xFF, 0xFF, 0xFF, 0xFF, 0xFF, 0xFF, 0xFF, 0xFF, 0xFF,
    0xFF,
];

#[test]
fn writes_fewest_octets(rt: HostRuntime) {
    let alloc = rt.alloc();
    assert_takes(&rt, alloc, -33024i64, &[0xFF, 0x7F, 0x00]);
    assert_takes(&rt, alloc, 860116326u32, &[0x33, 0x44, 0x55, 0x66]);
    assert_takes(&rt, alloc, 128u8, &[0x00, 0x80]);
    assert_takes(&rt, alloc, -128i8, &[0x80]);
    assert_takes(&rt, alloc, 0usize, &[0x00]);
    assert_takes(&rt, alloc, u128::MAX, U128_MAX);
}
