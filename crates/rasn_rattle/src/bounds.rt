//! Constraints as text.
use crate::defaults::number_term;
use rasn_types::types::{Bound, Bounded, Constraints};
use std::alloc::{AllocError, Global};
use std::fmt;

/// A bound as contracts have it, and as a constant.
type Texts = (String, String);

/// Returns constraints as contracts have them, and as a constant.
pub(crate) fn bounds_of(alloc: Global, constraints: &Constraints) -> Result<Texts, AllocError> {
    let (value, value_constant) = value_bound(alloc, constraints.value)?;
    let (size, size_constant) = size_bound(alloc, constraints.size)?;
    let term = format!(in alloc; "record {{ value = {value}; size = {size} }}")?;
    if *constraints == Constraints::NONE {
        return Ok((term, String::from_str(alloc, "Constraints::NONE")?));
    }
    let constant = format!(in alloc;
        "Constraints {{\n        value: {value_constant},\n        size: {size_constant},\n    }}"
    )?;
    Ok((term, constant))
}

/// Returns constraints as a constant with types has them. A type has one on its numbers or one on
/// its sizes (X.680 51.4, 51.5).
pub(crate) fn static_bounds(
    alloc: Global,
    constraints: &Constraints,
) -> Result<String, AllocError> {
    if let Some(bound) = constraints.value {
        let range = range_text(alloc, &bound)?;
        return format!(in alloc; "value!({range})");
    }
    if let Some(bound) = constraints.size {
        let range = range_text(alloc, &bound)?;
        return format!(in alloc; "size!({range})");
    }
    String::from_str(alloc, "NONE")
}

/// Returns a range, as `1..=5` or `1..`.
fn range_text<T: fmt::Display>(alloc: Global, bound: &Bound<T>) -> Result<String, AllocError> {
    let (start, end) = match &bound.constraint {
        Bounded::None => (None, None),
        Bounded::Single(only) => (Some(only), Some(only)),
        Bounded::Range { start, end } => (start.as_ref(), end.as_ref()),
    };
    let mut text = String::new(alloc);
    if let Some(start) = start {
        write!(text, "{start}")?;
    }
    text.push_str("..")?;
    if let Some(end) = end {
        write!(text, "={end}")?;
    }
    if bound.extensible {
        text.push_str(", extensible")?;
    }
    Ok(text)
}

/// Returns a bound of numbers.
fn value_bound(alloc: Global, bound: Option<Bound<i128>>) -> Result<Texts, AllocError> {
    let Some(bound) = bound else {
        return none(alloc);
    };
    let (start, end) = match bound.constraint {
        Bounded::None => (None, None),
        Bounded::Single(only) => (Some(only), Some(only)),
        Bounded::Range { start, end } => (start, end),
    };
    let low = number_end(alloc, start)?;
    let high = number_end(alloc, end)?;
    range(alloc, &low, &high, bound.extensible)
}

/// Returns a bound of sizes.
fn size_bound(alloc: Global, bound: Option<Bound<usize>>) -> Result<Texts, AllocError> {
    let Some(bound) = bound else {
        return none(alloc);
    };
    let (start, end) = match bound.constraint {
        Bounded::None => (None, None),
        Bounded::Single(only) => (Some(only), Some(only)),
        Bounded::Range { start, end } => (start, end),
    };
    let low = size_end(alloc, start)?;
    let high = size_end(alloc, end)?;
    range(alloc, &low, &high, bound.extensible)
}

/// Returns no bound.
fn none(alloc: Global) -> Result<Texts, AllocError> {
    let term = String::from_str(alloc, "None")?;
    Ok((term, String::from_str(alloc, "None")?))
}

/// Returns a range with these ends.
fn range(
    alloc: Global,
    low: &Texts,
    high: &Texts,
    is_extensible: bool,
) -> Result<Texts, AllocError> {
    let (start, start_constant) = (low.0.as_str(), low.1.as_str());
    let (end, end_constant) = (high.0.as_str(), high.1.as_str());
    let term = format!(in alloc;
        "Some (record {{ constraint = Range {start} {end}; extensible = {is_extensible} }})"
    )?;
    let mut constant = String::from_str(alloc, "Some(Bound {\n            constraint: ")?;
    write!(
        constant,
        "Bounded::Range {{\n                start: {start_constant},\n"
    )?;
    write!(
        constant,
        "                end: {end_constant},\n            }},\n"
    )?;
    write!(
        constant,
        "            extensible: {is_extensible},\n        }})"
    )?;
    Ok((term, constant))
}

/// Returns an end of a range of numbers.
fn number_end(alloc: Global, end: Option<i128>) -> Result<Texts, AllocError> {
    let Some(number) = end else {
        return none(alloc);
    };
    let term = number_term(alloc, number)?;
    let term = format!(in alloc; "(Some ({term}))")?;
    Ok((term, format!(in alloc; "Some({number})")?))
}

/// Returns an end of a range of sizes.
fn size_end(alloc: Global, end: Option<usize>) -> Result<Texts, AllocError> {
    let Some(size) = end else {
        return none(alloc);
    };
    let term = format!(in alloc; "(Some {size})")?;
    Ok((term, format!(in alloc; "Some({size})")?))
}
