//! Paths to parts as text: `extensions[1].extnValue`.
ghost use Rattle.std.specs.Prelude.{◌≡◌, ◌≤◌, ℕ, List, Bool, IfOk, MatchOption, length, take, drop};
ghost use Rattle.std.specs.List.{AllByRecursion};
ghost use Rattle.rasn_dynamic.specs.PathText.{AreStepsOf, IsFirstStep, IsFirstName, IsFirstIndex, IsNameOctet, EndsName};
ghost use Rattle.rasn_dynamic.specs.declared.steps.Step.{Step};

use crate::steps::Step;
use std::alloc::{AllocError, Global};

/// Returns the steps of which this is the text: names with points between them, and indices in
/// brackets. Returns `None` if it is the text of none.
///
/// # Errors
/// `AllocError` if memory runs out.
///
/// # Examples
/// ```
/// let steps = rasn_dynamic::steps_of(alloc, "extensions[1].extnValue")?;
/// // `steps` is Some([Name("extensions"), Index(1), Name("extnValue")])
/// ```
pub fn steps_of<'text>(
    alloc: Global,
    text: &'text str,
) -> Result<Option<Vec<Step<'text>>>, AllocError>
    ensures { IfOk result (λ found. MatchOption found ((steps : List Step) → AreStepsOf text.now steps → ⊥) (λ steps. AreStepsOf text.now steps.items)) }
{
    let mut steps = Vec::new(alloc);
    let mut rest = text;
    while !rest.is_empty() {
        let Some((step, after)) = first_step(rest, steps.is_empty()) else {
            return Ok(None);
        };
        steps.push(step)?;
        rest = after;
    }
    Ok(Some(steps))
}

/// Returns the step that a text begins with, and the rest of the text.
fn first_step(text: &str, is_first: bool) -> Option<(Step<'_>, &str)>
    ensures { MatchOption result ((step : Step) (rest : List ℕ) → IsFirstStep is_first text.now step rest → ⊥) (λ r. IsFirstStep is_first text.now r.0 r.1.now) }
{
    if let Some(text) = text.strip_prefix('[') {
        let (index, rest) = first_index(text)?;
        return Some((Step::Index(index), rest));
    }
    if is_first {
        let (name, rest) = first_name(text)?;
        return Some((Step::Name(name), rest));
    }
    let (name, rest) = first_name(text.strip_prefix('.')?)?;
    Some((Step::Name(name), rest))
}

/// Returns the index that ends at the first closing bracket, and the rest of the text.
fn first_index(text: &str) -> Option<(usize, &str)>
    ensures { MatchOption result ((index : ℕ) (rest : List ℕ) → IsFirstIndex text.now index rest → ⊥) (λ r. IsFirstIndex text.now r.0 r.1.now) }
{
    let (digits, rest) = text.split_once(']')?;
    if digits.starts_with('+') {
        return None;
    }
    if digits.starts_with('0') && digits.len() > 1 {
        return None;
    }
    let Ok(index) = digits.parse::<usize>() else {
        return None;
    };
    Some((index, rest))
}

/// Returns the name that ends at the first point or opening bracket, and the rest of the text.
fn first_name(text: &str) -> Option<(&str, &str)>
    ensures { MatchOption result ((name : List ℕ) (rest : List ℕ) → IsFirstName text.now name rest → ⊥) (λ r. IsFirstName text.now r.0.now r.1.now) }
{
    let end = name_length(text);
    if end == 0 {
        return None;
    }
    Some(text.split_at(end))
}

/// Returns how many octets precede the first point or opening bracket.
fn name_length(text: &str) -> usize
    ensures bound { result ≤ length text.now }
    ensures name { AllByRecursion IsNameOctet (take result text.now) }
    ensures end { EndsName (drop result text.now) }
{
    let octets = text.as_bytes();
    for end in 0..octets.len() {
        if matches!(octets[end], b'.' | b'[') {
            return end;
        }
    }
    octets.len()
}
