//! SET OF as a value: its elements keep the order of their insertion.

use crate::reading::assert_facts;
use crate::writing::made;
use rasn_types::types::SetOf;
use std::alloc::{AllocError, Global};

/// Returns a SET OF these numbers.
fn set_of(alloc: Global, numbers: &[u8]) -> Result<Option<SetOf<u8>>, AllocError> {
    let numbers = Vec::from_slice(alloc, numbers)?;
    Ok(Some(SetOf::from_vec(numbers)))
}

// A new number is inserted as the last element.
#[test]
fn keeps_the_order_of_elements(rt: HostRuntime) {
    let alloc = rt.alloc();
    let mut set_of = made(&rt, set_of(alloc, &[3, 1, 3]));
    assert_facts(
        &rt,
        &[
            set_of.len() == 3,
            set_of.insert(2).is_ok(),
            set_of.as_slice() == [3, 1, 3, 2].as_slice(),
            set_of.iter().eq([3, 1, 3, 2].iter()),
            !set_of.is_empty(),
            set_of.into_vec().as_slice() == [3, 1, 3, 2].as_slice(),
        ],
    );
}

#[test]
fn begins_without_elements(rt: HostRuntime) {
    let empty: SetOf<u8> = SetOf::new(rt.alloc());
    let next = empty.iter().next();
    assert_facts(&rt, &[empty.is_empty(), empty.len() == 0, next.is_none()]);
}
