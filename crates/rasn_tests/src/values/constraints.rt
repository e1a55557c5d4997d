//! Constraints of size and value (X.680 51).

use crate::reading::assert_facts;
use rasn_types::types::{Bound, Bounded, Constraints};

/// The number -2^128 in two's complement.
const MINUS_2_128: &[u8] = &[0xFF, 0, 0, 0, 0, 0, 0, 0, 0, 0, 0, 0, 0, 0, 0, 0, 0];

/// Returns whether -2^128 is within these bounds.
fn is_inside(start: Option<i128>, end: Option<i128>) -> bool {
    let constraint = Bounded::Range { start, end };
    let value = Some(Bound {
        constraint,
        extensible: false,
    });
    Constraints { value, size: None }.admits_number(MINUS_2_128)
}

// The number -2^128 is below each lower bound, and within a range without a lower bound.
#[test]
fn far_numbers_are_inside_open_ends(rt: HostRuntime) {
    assert_facts(
        &rt,
        &[
            is_inside(None, Some(5)),
            !is_inside(Some(i128::MIN), None),
            is_inside(None, None),
        ],
    );
}

#[test]
fn no_constraints_admit_all(rt: HostRuntime) {
    assert_facts(
        &rt,
        &[
            Constraints::NONE.admits_size(7),
            Constraints::NONE.size_bounds() == Bounded::None,
            Constraints::NONE.value_bounds() == Bounded::None,
        ],
    );
}
