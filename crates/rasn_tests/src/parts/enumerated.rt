//! ENUMERATED (X.690 8.4): its names, and their numbers.

use crate::reading::{assert_facts, value};
use rasn::types::{Enumerated, LawfulEq};
use rasn::{ber, der};
use rasn_bench::{Colour, Reason};

// CRLReason of RFC 5280, 5.3.1, gives certificateHold the number 6.
#[test]
fn names_have_numbers(rt: HostRuntime) {
    let alloc = rt.alloc();
    let colour = value(&rt, ber::decode::<Colour>(alloc, &[0x0A, 0x02, 0x00, 0x02]));
    let hold = value(&rt, der::decode::<Reason>(alloc, &[0x0A, 0x01, 0x06]));
    assert_facts(
        &rt,
        &[
            colour == Colour::Blue,
            colour.discriminant() == 2,
            hold == Reason::CertificateHold,
            hold.means_same(&Reason::CertificateHold),
            !hold.means_same(&Reason::RemoveFromCrl),
            hold.discriminant() == 6,
        ],
    );
}
