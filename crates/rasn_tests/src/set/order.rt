//! Functions that the tests of SET and SET OF share: values in order, which are written, and values
//! out of order, which are refused (X.690 9.3, 10.3, 11.6).

use crate::whole::encoded;
use crate::writing::{assert_output, assert_refuses, assert_written, new_encoder};
use rasn_enc::enc::Encode;
use rasn_types::types::Codec;
use std::alloc::Global;
use std::process::Abort;

/// The error kind of elements or components that are not in ascending order.
pub const OUT_OF_ORDER: &str = "CodecSpecific { inner: Ber(SetOutOfOrder) }";

/// Asserts that BER and DER, which both write definite lengths, write the value as these octets.
pub fn assert_in_order<T: Encode>(rt: &impl Abort, alloc: Global, value: &T, octets: &[u8]) {
    assert_output(rt, encoded(alloc, Codec::Ber, value), octets);
    assert_output(rt, encoded(alloc, Codec::Der, value), octets);
}

/// Asserts that the value is refused for its order under these rules, and that the octets written
/// before it remain.
pub fn assert_out_of_order<T: Encode>(rt: &impl Abort, alloc: Global, rules: Codec, value: &T) {
    let mut encoder = new_encoder(rt, alloc, rules);
    assert_written(rt, true.encode(&mut encoder));
    assert_refuses(rt, alloc, rules, value.encode(&mut encoder), OUT_OF_ORDER);
    assert_output(rt, encoder.output(), &[0x01, 0x01, 0xFF]);
}

/// Asserts that the value is refused for its order under each of the rules, and that the octets
/// written before it remain.
pub fn assert_always_out_of_order<T: Encode>(rt: &impl Abort, alloc: Global, value: &T) {
    for rules in &[Codec::Ber, Codec::Cer, Codec::Der] {
        assert_out_of_order(rt, alloc, *rules, value);
    }
}
