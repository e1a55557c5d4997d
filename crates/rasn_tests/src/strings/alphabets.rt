//! Character strings as values, and their alphabets (X.680 41).

use rasn_types::types::{Alphabet, FixedOctetString};

/// An alphabet, octets, and the index of the first octet that isn't in it.
const ALPHABETS: &[(Alphabet, &[u8], Option<usize>)] = &[
    (Alphabet::Numeric, b"1 2a", Some(3)),
    (Alphabet::Printable, b"A?*b", Some(2)),
    (Alphabet::Visible, b"~ a\x7F", Some(3)),
    (Alphabet::Ia5, b"A\x80\x81b", Some(1)),
    (Alphabet::Every, b"\xC8\x00\xFFa", None),
];

#[test]
fn alphabets_are_those_of_the_standard(rt: HostRuntime) {
    for (alphabet, octets, foreign) in ALPHABETS {
        assert!(rt; alphabet.first_foreign(octets) == *foreign);
    }
}

#[test]
fn holds_its_octets(rt: HostRuntime) {
    let octets = FixedOctetString::<3>::new([0xA1, 0xB2, 0xC3]);
    assert!(rt; octets.as_octets() == [0xA1, 0xB2, 0xC3].as_slice());
}
