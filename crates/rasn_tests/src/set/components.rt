//! Encoding of a SET with its components in the order of their tags (X.690 9.3, 10.3).

use crate::set::order::{assert_always_out_of_order, assert_in_order};
use crate::types::Three;
use rasn_types::types::{ContextTag, Explicit, Implicit};

/// \[N\] INTEGER (0..255)
type At<const N: u32> = Implicit<ContextTag<N>, u8>;

// The tags [2], [1], [0] and the tags [0], [2], [1] are out of order.
#[test]
fn refuses_sets_that_fall(rt: HostRuntime) {
    let alloc = rt.alloc();
    let falling: Three<At<2>, At<1>, At<0>> = Three {
        first: Implicit::new(1),
        second: Implicit::new(2),
        third: Implicit::new(3),
    };
    assert_always_out_of_order(&rt, alloc, &falling);
    let late: Three<At<0>, At<2>, At<1>> = Three {
        first: Implicit::new(1),
        second: Implicit::new(2),
        third: Implicit::new(3),
    };
    assert_always_out_of_order(&rt, alloc, &late);
}

// Only the tags are compared, so the constructed bit of [2] doesn't put it after [3] (X.680 8.6).
#[test]
fn constructed_components_go_by_their_tags(rt: HostRuntime) {
    let alloc = rt.alloc();
    let rising: Three<At<0>, Explicit<ContextTag<2>, u8>, At<3>> = Three {
        first: Implicit::new(1),
        second: Explicit::new(2),
        third: Implicit::new(3),
    };
    const RISING_TAGS: &[u8] = &[
        0x31, 0x0B, 0x80, 0x01, 0x01, 0xA2, 0x03, 0x02, 0x01, 0x02, 0x83, 0x01, 0x03,
    ];
    assert_in_order(&rt, alloc, &rising, RISING_TAGS);
    let falling: Three<At<0>, At<3>, Explicit<ContextTag<2>, u8>> = Three {
        first: Implicit::new(1),
        second: Implicit::new(2),
        third: Explicit::new(3),
    };
    assert_always_out_of_order(&rt, alloc, &falling);
}
