//! Open types and skipped values of any depth (X.690 8.1.5, 8.15).

use crate::any::deep;
use crate::reading::{assert_answer, decoder_of, held};
use rasn::de::Decode;
use rasn::types::{Any, Codec};

// No memory is needed for a level, so values may be nested to any depth.
#[test]
fn keeps_a_million_levels(rt: HostRuntime) {
    let alloc = rt.alloc();
    let octets = held(&rt, deep(alloc));
    let mut decoder = decoder_of(alloc, &octets, Codec::Ber);
    assert!(rt; Any::decode(&mut decoder).is_ok_and(|any| any.as_bytes() == octets.as_slice()));
    assert!(rt; decoder.decoded_len() == 4_000_000);
}

#[test]
fn passes_a_million_levels(rt: HostRuntime) {
    let alloc = rt.alloc();
    let octets = held(&rt, deep(alloc));
    let mut decoder = decoder_of(alloc, &octets, Codec::Ber);
    assert_answer(&rt, alloc, Codec::Ber, decoder.skip_value(), "1999999");
    assert!(rt; decoder.decoded_len() == 4_000_000);
}
