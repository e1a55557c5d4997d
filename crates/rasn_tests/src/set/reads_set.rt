//! Decoding of SET (X.690 8.11): in any order under BER and CER, in the order of its tags under DER
//! (10.3).

use crate::reading::{assert_answer, decoder_of};
use rasn::ber::de::Decoder;
use rasn::de::Decode;
use rasn::error::DecodeError;
use rasn::types::{Codec, Tag};
use rasn_bench::Set3;

/// Reads a SET of OPTIONAL BOOLEANs, and counts them.
fn count_booleans(decoder: &mut Decoder<'_>) -> Result<Set3, DecodeError> {
    decoder.decode_set::<3, 0, Option<bool>, Set3, _, _>(
        Tag::SET,
        |inner: &mut Decoder<'_>, _index: usize, _tag: Tag| -> Result<Option<bool>, DecodeError> {
            Option::<bool>::decode(inner)
        },
        |booleans: Vec<Option<bool>>| -> Result<Set3, DecodeError> {
            let two = if booleans.len() == 2 { 2 } else { 0 };
            Ok(Set3 {
                zero: 0,
                one: 1,
                two,
            })
        },
    )
}

// A component that consumes nothing is refused with the number of remaining octets.
#[test]
fn refuses_components_of_nothing(rt: HostRuntime) {
    let alloc = rt.alloc();
    for (octets, rules, text, consumed) in [
        (
            [0x31, 0x03, 0x02, 0x01, 0x05].as_slice(),
            Codec::Ber,
            "UnexpectedExtraData { length: 3 }",
            5,
        ),
        (
            [0x31, 0x03, 0x02, 0x01, 0x05].as_slice(),
            Codec::Der,
            "UnexpectedExtraData { length: 3 }",
            5,
        ),
        (
            [0x31, 0x80, 0x01, 0x01, 0xFF, 0x02, 0x01, 0x05, 0x00, 0x00].as_slice(),
            Codec::Ber,
            "UnexpectedExtraData { length: 5 }",
            2,
        ),
        (
            [0x31, 0x06, 0x01, 0x01, 0xFF, 0x01, 0x01, 0x00].as_slice(),
            Codec::Der,
            "Set3 { zero: 0, one: 1, two: 2 }",
            8,
        ),
    ] {
        let mut decoder = decoder_of(alloc, octets, rules);
        let answer = count_booleans(&mut decoder);
        assert_answer(&rt, alloc, rules, answer, text);
        assert!(rt; decoder.decoded_len() == consumed, "{octets:?}");
    }
}
