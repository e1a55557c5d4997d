//! BIT STRING as a value: bits in octets (X.690 8.6.2), and bits joined from segments (8.6.4).

use crate::reading::assert_facts;
use crate::writing::made;
use rasn_types::ber::CollectedBits;
use rasn_types::types::{BitStr, BitString};
use std::alloc::{AllocError, Global};

/// Returns whether the bits are appended to another octet as these octets.
fn are_packed(alloc: Global, bits: &BitStr<'_>, octets: &[u8]) -> bool {
    let mut found = Vec::new(alloc);
    found.push(7).is_ok()
        && bits.append_to(&mut found).is_ok()
        && found.strip_prefix(&[7]) == Some(octets)
}

// The bits 1,1,0,1,0,1,0,1,1,0,1 take two octets, whatever bits follow them. Without the first bit
// there are ten.
#[test]
fn packs_bits(rt: HostRuntime) {
    let alloc = rt.alloc();
    const SIXTEEN_BITS: &[u8] = &[0xD5, 0xBF];
    let bits = made(&rt, Ok(BitStr::new(SIXTEEN_BITS, 0, 11)));
    assert!(rt; bits.len() == 11);
    let (front, back) = bits.split_at(1);
    assert_facts(
        &rt,
        &[
            BitStr::new(SIXTEEN_BITS, 5, 12).is_none(),
            bits.get(3) == Some(true),
            bits.get(9) == Some(false),
            bits.get(11).is_none(),
            are_packed(alloc, &bits, &[0xD5, 0xA0]),
            front.len() == 1,
            back.unused() == 6,
            are_packed(alloc, &back, &[0xAB, 0x40]),
        ],
    );
}

/// Returns the first `len` bits of the octets; `None` if there are fewer.
fn first_bits(alloc: Global, octets: &[u8], len: usize) -> Result<Option<BitString>, AllocError> {
    let octets = Vec::from_slice(alloc, octets)?;
    Ok(BitString::new(octets, len))
}

// Bit strings are equal exactly if their bits are.
#[test]
fn compares_bits(rt: HostRuntime) {
    let alloc = rt.alloc();
    let one = made(&rt, first_bits(alloc, &[0xD5, 0xBF, 0x01], 11));
    let other = made(&rt, first_bits(alloc, &[0xD5, 0xA0], 11));
    assert_facts(
        &rt,
        &[
            one == other,
            one.len() == 11,
            one.get(10) == Some(true),
            one.as_bitstr().len() == 11,
            first_bits(alloc, &[0xD5], 9).is_ok_and(|none| none.is_none()),
        ],
    );
}

/// Returns three, four and nine bits, joined.
fn gathered(alloc: Global) -> Result<Option<BitString>, AllocError> {
    let mut bits = CollectedBits::new(alloc);
    bits.append(&[0xE0], 5)?;
    bits.append(&[0xAF], 4)?;
    bits.append(&[0x80, 0x80], 7)?;
    Ok(bits.into_string())
}

// Three and four bits are seven, and nine more fill two octets.
#[test]
fn gathers_bits(rt: HostRuntime) {
    let alloc = rt.alloc();
    let bits = made(&rt, gathered(alloc));
    let is_packed = are_packed(alloc, &bits.as_bitstr(), &[0xF5, 0x01]);
    assert_facts(&rt, &[bits.len() == 16, is_packed]);
}
