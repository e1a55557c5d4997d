//! Whether two values mean the same.
ghost use Rattle.std.specs.Prelude.{◌≡◌, ℕ, count_by};
ghost use Rattle.std.specs.Bool.{Decides};
ghost use Rattle.rasn_types.specs.Shapes.{number, bits, numbers, instant, on_day, set_elements, absent};
ghost use Rattle.rasn_types.specs.CowBits.{cow_bits};
ghost use Rattle.rasn_types.specs.Equality.{DecidesSame};
ghost use Rattle.rasn_types.specs.Trees.{list_tree};
ghost use Rattle.rasn_schema.specs.declared.value.Value.{Chosen};
ghost use Rattle.rasn_schema.specs.Trees.{tree_of};
ghost use Rattle.rasn_schema.specs.Equal.{value_eq};
ghost use Rattle.rasn_schema.specs.Numbers.{numbers_left};

use crate::numbers::{Numbers, are_same_numbers, numbers_of};
use crate::value::Value;
use rasn_types::types::{CowBits, Date, GeneralizedTime, Integer, LawfulEq};

/// Returns whether the number is this one.
fn is_small(integer: &Integer, small: i128) -> bool
    ensures { Decides result (small ≡ integer.now) }
{
    match integer.to_i128() {
        Some(number) => number == small,
        None => false,
    }
}

/// Returns whether the value is this number.
fn is_number(small: i128, other: &Value<'_>) -> bool
    ensures { DecidesSame result (number small) (tree_of other.now) }
{
    match other {
        Value::Boolean(truth) => small == i128::from(*truth),
        Value::Null => small == 0,
        Value::Integer(integer) => is_small(integer, small),
        _ => false,
    }
}

/// Returns whether the value is this number.
fn is_integer(integer: &Integer, other: &Value<'_>) -> bool
    ensures { DecidesSame result (number integer.now) (tree_of other.now) }
{
    match other {
        Value::Boolean(truth) => is_small(integer, i128::from(*truth)),
        Value::Null => is_small(integer, 0),
        Value::Integer(other) => integer.means_same(other),
        _ => false,
    }
}

/// Returns whether the value is these bits.
fn is_bits(own: &CowBits<'_>, other: &Value<'_>) -> bool
    ensures { DecidesSame result (bits (cow_bits own.now)) (tree_of other.now) }
{
    match other {
        Value::Bits(other) => own.as_bitstr() == other.as_bitstr(),
        _ => false,
    }
}

/// Returns whether the value means these numbers.
fn is_numbers(these: Numbers<'_>, other: &Value<'_>) -> bool
    ensures { DecidesSame result (numbers (numbers_left these.entry)) (tree_of other.now) }
{
    match numbers_of(other) {
        Some(others) => are_same_numbers(these, others),
        None => false,
    }
}

/// Returns whether the value means these octets.
fn is_octets(octets: &[u8], other: &Value<'_>) -> bool
    ensures { DecidesSame result (numbers octets.now) (tree_of other.now) }
{
    match other {
        Value::Octets(other) => octets == other.as_slice(),
        _ => is_numbers(Numbers::Octets(octets), other),
    }
}

/// Returns whether the value is this instant.
fn is_instant(time: &GeneralizedTime, other: &Value<'_>) -> bool
    ensures { DecidesSame result (instant time.now.moment) (tree_of other.now) }
{
    match other {
        Value::Instant(other) => time.means_same(other),
        _ => false,
    }
}

/// Returns whether the value is this day.
fn is_day(date: &Date, other: &Value<'_>) -> bool
    ensures { DecidesSame result (on_day date.now) (tree_of other.now) }
{
    match other {
        Value::Day(other) => date.means_same(other),
        _ => false,
    }
}

/// Returns whether the value is that of an absent component.
fn is_absent(other: &Value<'_>) -> bool
    ensures { DecidesSame result absent (tree_of other.now) }
{
    match other {
        Value::Absent => true,
        _ => false,
    }
}

/// Returns whether two values mean the same. CHOICEs directly in one another take no stack.
#[cycle(same)]
pub fn is_same(value: &Value<'_>, other: &Value<'_>) -> bool
    ensures { DecidesSame result (tree_of value.now) (tree_of other.now) }
{
    let mut own = value;
    let mut its = other;
    while let Value::Chosen(index, inner) = own {
        let Value::Chosen(place, chosen) = its else {
            return false;
        };
        if *index != *place {
            return false;
        }
        own = inner;
        its = chosen;
    }
    is_innermost_same(own, its)
}

/// Returns whether a value that isn't a CHOICE's means the same as another one.
#[cycle(same)]
fn is_innermost_same(value: &Value<'_>, other: &Value<'_>) -> bool
    requires { (index : ℕ) (inner : _) → value.now ≡ Chosen index inner → ⊥ }
    ensures { DecidesSame result (tree_of value.now) (tree_of other.now) }
{
    match value {
        Value::Boolean(truth) => is_number(i128::from(*truth), other),
        Value::Null => is_number(0, other),
        Value::Integer(integer) => is_integer(integer, other),
        Value::Bits(bits) => is_bits(bits, other),
        Value::Octets(octets) => is_octets(octets.as_slice(), other),
        Value::Text(text) => is_numbers(Numbers::Characters(text.as_str()), other),
        Value::Units(units) => is_numbers(Numbers::Units(units.units()), other),
        Value::Arcs(arcs) => is_numbers(Numbers::Arcs(arcs.arcs()), other),
        Value::Instant(time) => is_instant(time, other),
        Value::Day(date) => is_day(date, other),
        Value::Items(values) => is_items(values.as_slice(), other),
        Value::Elements(values) => is_elements(values.as_slice(), other),
        Value::Chosen(_, _) => unreachable!(),
        Value::Absent => is_absent(other),
    }
}

/// Returns whether the value is a list of these.
#[cycle(same)]
fn is_items(values: &[Value<'_>], other: &Value<'_>) -> bool
    ensures { DecidesSame result (list_tree tree_of values.now) (tree_of other.now) }
{
    match other {
        Value::Items(others) => are_same(values, others.as_slice()),
        _ => false,
    }
}

/// Returns whether the value is a set of these.
#[cycle(same)]
fn is_elements(values: &[Value<'_>], other: &Value<'_>) -> bool
    ensures { DecidesSame result (set_elements (list_tree tree_of values.now)) (tree_of other.now) }
{
    match other {
        Value::Elements(others) => hold_same(values, others.as_slice()),
        _ => false,
    }
}

/// Returns whether lists have the same values, in the same order.
#[cycle(same)]
fn are_same(values: &[Value<'_>], others: &[Value<'_>]) -> bool
    ensures { DecidesSame result (list_tree tree_of values.now) (list_tree tree_of others.now) }
{
    if values.len() != others.len() {
        return false;
    }
    for (index, value) in values.iter().enumerate() {
        if !is_same(value, &others[index]) {
            return false;
        }
    }
    true
}

/// Returns whether lists have the same values, in any order: each is in both as often. The time
/// grows with the square of their length only where the order isn't the same.
#[cycle(same)]
fn hold_same(values: &[Value<'_>], others: &[Value<'_>]) -> bool
    ensures { DecidesSame result (set_elements (list_tree tree_of values.now)) (set_elements (list_tree tree_of others.now)) }
{
    if are_same(values, others) {
        return true;
    }
    if values.len() != others.len() {
        return false;
    }
    for value in values {
        if count(value, values) != count(value, others) {
            return false;
        }
    }
    true
}

/// Returns how many of these are the same as the value.
#[cycle(same)]
fn count(value: &Value<'_>, these: &[Value<'_>]) -> usize
    ensures { result ≡ count_by (value_eq value.now) these.now }
{
    let mut count = 0;
    for other in these {
        if is_same(value, other) {
            count += 1;
        }
    }
    count
}
