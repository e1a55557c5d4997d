//! Values as text, copied and compared.

use crate::entry::decoded;
use crate::reading::{decoder_of, failed, shown};
use crate::row::Row;
use rasn::de::Decode;
use rasn::types::{Integer, TryClone};
use std::alloc::{AllocError, Global};
use std::cmp::Ordering;
use std::fmt::Display;

/// Returns the text of the value that is read.
pub fn value_text<T: Decode + Display>(alloc: Global, row: &Row<'_>) -> Result<String, AllocError> {
    match decoded::<T>(alloc, row.rules, &row.octets) {
        Ok(value) => shown(alloc, &value),
        Err(error) => failed(alloc, &error),
    }
}

/// Returns whether a copy of the value that is read equals the value.
pub fn copied<T: Decode + TryClone + PartialEq>(
    alloc: Global,
    row: &Row<'_>,
) -> Result<String, AllocError> {
    match decoded::<T>(alloc, row.rules, &row.octets) {
        Ok(value) => {
            let is_equal = value.try_clone(alloc)? == value;
            shown(alloc, &is_equal)
        }
        Err(error) => failed(alloc, &error),
    }
}

/// Returns the values that follow one another in the octets, up to the first that isn't read.
fn values_of<T: Decode>(alloc: Global, row: &Row<'_>) -> Result<Vec<T>, AllocError> {
    let mut decoder = decoder_of(alloc, row);
    let mut values = Vec::new(alloc);
    for _ in 0..row.octets.len() {
        match T::decode(&mut decoder) {
            Ok(value) => values.push(value)?,
            Err(_) => break,
        }
    }
    Ok(values)
}

/// Returns whether all comparisons say that the first value is less.
fn is_less<T: Ord>(one: &T, other: &T) -> bool {
    one < other
        && other > one
        && one != other
        && !(other < one)
        && !(one > other)
        && one.cmp(other) == Ordering::Less
}

/// Returns whether all comparisons say that the values are equal.
fn is_equal<T: Ord>(one: &T, other: &T) -> bool {
    one == other && one <= other && one >= other && one.cmp(other) == Ordering::Equal
}

/// Returns how a value compares with all of the others.
fn order_before<T: Ord>(one: &T, others: &[T]) -> &'static str {
    let (mut less, mut equal) = (true, true);
    for other in others {
        less &= is_less(one, other);
        equal &= is_equal(one, other);
    }
    if less {
        "less"
    } else if equal {
        "equal"
    } else {
        "neither"
    }
}

/// Returns how each value compares with all of those after it.
pub fn ordered<T: Decode + Ord>(alloc: Global, row: &Row<'_>) -> Result<String, AllocError> {
    let values = values_of::<T>(alloc, row)?;
    let mut text = String::from_str(alloc, "=")?;
    for place in 0..values.len() {
        let (_, rest) = values.split_at(place);
        if let [one, others @ ..] = rest {
            if !others.is_empty() {
                text.push_str(" ")?;
                text.push_str(order_before(one, others))?;
            }
        }
    }
    Ok(text)
}

/// Returns whether the two values that follow one another are equal.
pub fn same<T: Decode + PartialEq>(alloc: Global, row: &Row<'_>) -> Result<String, AllocError> {
    let values = values_of::<T>(alloc, row)?;
    match values.as_slice() {
        [one, other] => {
            let (forth, back) = (one == other, other == one);
            format!(in alloc; "= {forth}, {back}")
        }
        _ => String::from_str(alloc, "! no two values"),
    }
}

/// Returns whether the number is that of its values in 128 bits.
fn is_made_again(alloc: Global, number: &Integer) -> Result<bool, AllocError> {
    if let Some(signed) = number.to_i128() {
        if Integer::from_i128(alloc, signed)? != *number {
            return Ok(false);
        }
    }
    if let Some(unsigned) = number.to_u128() {
        return Ok(Integer::from_u128(alloc, unsigned)? == *number);
    }
    Ok(true)
}

/// Returns whether a number is negative, and its values in 128 bits.
fn number_text(alloc: Global, number: &Integer) -> Result<String, AllocError> {
    if !is_made_again(alloc, number)? {
        return String::from_str(alloc, "! not the number of its values");
    }
    let (signed, unsigned) = (number.to_i128(), number.to_u128());
    format!(in alloc; "= {} {signed:?} {unsigned:?}", number.is_negative())
}

/// Returns the text of the number that is read.
pub fn number(alloc: Global, row: &Row<'_>) -> Result<String, AllocError> {
    match decoded::<Integer>(alloc, row.rules, &row.octets) {
        Ok(number) => number_text(alloc, &number),
        Err(error) => failed(alloc, &error),
    }
}
