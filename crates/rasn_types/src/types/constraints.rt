//! Constraints on values and on sizes (X.680 51).
ghost use Rattle.std.specs.Prelude.{◌≡◌, ◌^◌, ◌<◌, ◌≤◌, ◌≤ℤ◌, ◌<ℤ◌, ◌+◌, length, ℕ, ℤ, pos, neg_ℤ};
ghost use Rattle.std.specs.Fmt.{DisplaysOnOk};
ghost use Rattle.rasn_types.specs.Text.{shown_end};
ghost use Rattle.rasn_types.specs.Truth.{IsWhether};
ghost use Rattle.rasn_types.specs.Contents.{signed};
ghost use Rattle.rasn_types.specs.Shapes.{Admits, AdmitsPadded, IsIn, IsWithin, constraint_of};
ghost use Rattle.rasn_types.specs.Trees.{signed_range};

use crate::types::twos_complement::signed_i128;
use std::fmt;

/// A range of numbers. Both ends are included; an end that is `None` is open.
#[derive(Clone, Copy, Debug, PartialEq, Eq, Hash, Drop)]
pub enum Bounded<T> {
    None,
    Single(T),
    Range { start: Option<T>, end: Option<T> },
}

/// Writes the range as in ASN.1, with `MIN` and `MAX` for open ends (X.680 51.4).
impl<T: fmt::Display> fmt::Display for Bounded<T> {
    ghost use Rattle.rasn_types.specs.Text.{shown_bounds};

    ghost output = { shown_bounds T.output };

    fn fmt<W: fmt::Write>(&self, f: &mut fmt::Formatter<W>) -> fmt::Result {
        match self {
            Bounded::None => f.write_str("MIN..MAX"),
            Bounded::Single(only) => write!(f, "{only}"),
            Bounded::Range { start, end } => {
                write_end(f, start, "MIN")?;
                f.write_str("..")?;
                write_end(f, end, "MAX")
            }
        }
    }
}

// Writes an end of a range, or `open_end` if the end is open.
fn write_end<W: fmt::Write, T: fmt::Display>(
    f: &mut fmt::Formatter<W>,
    end: &Option<T>,
    open_end: &str,
) -> fmt::Result
    ensures { DisplaysOnOk W.write_str_gives f.old result (shown_end T.output open_end.now end.now) f.new }
{
    match end {
        Some(end) => write!(f, "{end}"),
        None => f.write_str(open_end),
    }
}

/// A constraint. An extensible constraint isn't checked.
#[derive(Clone, Copy, Debug, PartialEq, Eq, Hash, Drop)]
pub struct Bound<T> {
    /// The admitted values.
    pub constraint: Bounded<T>,
    /// Whether the constraint has an extension marker (`...`). Every value is admitted then.
    pub extensible: bool,
}

/// The constraints of a type or of a call: on the value of a whole number, and on a size.
#[derive(Clone, Copy, Debug, Default, PartialEq, Eq, Hash)]
pub struct Constraints {
    /// The constraint on the number, if any.
    pub value: Option<Bound<i128>>,
    /// The constraint on the size, if any, in octets, bits, characters or elements.
    pub size: Option<Bound<usize>>,
}

impl Constraints {
    /// No constraint.
    pub const NONE: Constraints = Constraints {
        value: None,
        size: None,
    };

    /// Returns whether a size meets its constraint. Every size does if there is no constraint or it
    /// is extensible.
    pub fn admits_size(&self, size: usize) -> bool
        ensures { IsWhether result (Admits ◌≤◌ self.now.size size) }
    {
        match self.size {
            None => true,
            Some(bound) => bound.extensible || is_size_within(bound.constraint, size),
        }
    }

    /// Returns whether a size, or one that is larger, meets its constraint. It is the constraint of
    /// named bits, which may have any number of trailing 0 bits (X.680 22.7, X.690 11.2.2).
    pub fn admits_padded_size(&self, size: usize) -> bool
        ensures { IsWhether result (AdmitsPadded self.now.size size) }
    {
        match self.size {
            None => true,
            Some(bound) => bound.extensible || is_padded_size_within(bound.constraint, size),
        }
    }

    /// Returns whether the whole number that octets represent in two's complement (X.690 8.3) meets
    /// its constraint. Every number does if there is no constraint or it is extensible.
    #[inline(always)]
    pub fn admits_number(&self, octets: &[u8]) -> bool
        requires { 0 < length octets.now }
        ensures { IsWhether result (Admits ◌≤ℤ◌ self.now.value (signed octets.now)) }
    {
        match self.value {
            None => true,
            Some(bound) => bound.extensible || is_number_within(bound.constraint, octets),
        }
    }

    /// Returns the range of sizes, for errors that report it.
    pub fn size_bounds(&self) -> Bounded<usize>
        ensures { result ≡ constraint_of self.now.size }
    {
        self.size.map_or(Bounded::None, |bound| bound.constraint)
    }

    /// Returns the range of numbers, for errors that report it.
    pub fn value_bounds(&self) -> Bounded<i128>
        ensures { result ≡ constraint_of self.now.value }
    {
        self.value.map_or(Bounded::None, |bound| bound.constraint)
    }
}

fn is_size_within(bounded: Bounded<usize>, size: usize) -> bool
    ensures { IsWhether result (IsWithin ◌≤◌ bounded size) }
{
    match bounded {
        Bounded::None => true,
        Bounded::Single(only) => size == only,
        Bounded::Range { start, end } => {
            start.is_none_or(|low| low <= size) && end.is_none_or(|high| size <= high)
        }
    }
}

fn is_padded_size_within(bounded: Bounded<usize>, size: usize) -> bool
    ensures { IsWhether result ((more : ℕ) × IsWithin ◌≤◌ bounded (size + more)) }
{
    match bounded {
        Bounded::None => true,
        Bounded::Single(only) => size <= only,
        Bounded::Range { start, end } => match end {
            None => true,
            Some(high) => size <= high && start.unwrap_or(0) <= high,
        },
    }
}

fn is_number_within(bounded: Bounded<i128>, octets: &[u8]) -> bool
    requires { 0 < length octets.now }
    ensures { IsWhether result (IsWithin ◌≤ℤ◌ bounded (signed octets.now)) }
{
    match bounded {
        Bounded::None => true,
        _ => match signed_i128(octets) {
            Some(number) => is_within(bounded, number),
            None => is_far_within(bounded, octets),
        },
    }
}

fn is_within(bounded: Bounded<i128>, number: i128) -> bool
    ensures { IsWhether result (IsWithin ◌≤ℤ◌ bounded number) }
{
    match bounded {
        Bounded::None => true,
        Bounded::Single(only) => number == only,
        Bounded::Range { start, end } => {
            start.is_none_or(|low| low <= number) && end.is_none_or(|high| number <= high)
        }
    }
}

// Returns whether a number that doesn't fit in 128 bits is within the bounds. It is only if the end
// on its side is open.
fn is_far_within(bounded: Bounded<i128>, octets: &[u8]) -> bool
    requires some { 0 < length octets.now }
    requires far { IsIn (signed_range 128) (signed octets.now) → ⊥ }
    ensures { IsWhether result (IsWithin ◌≤ℤ◌ bounded (signed octets.now)) }
{
    if octets[0] < 128 {
        is_open_above(bounded)
    } else {
        is_open_below(bounded)
    }
}

fn is_open_above(bounded: Bounded<i128>) -> bool
    ensures { (z : ℤ) → pos (2 ^ 127) ≤ℤ z → IsWhether result (IsWithin ◌≤ℤ◌ bounded z) }
{
    match bounded {
        Bounded::None => true,
        Bounded::Single(_) | Bounded::Range { end: Some(_), .. } => false,
        Bounded::Range { end: None, .. } => true,
    }
}

fn is_open_below(bounded: Bounded<i128>) -> bool
    ensures { (z : ℤ) → z <ℤ neg_ℤ (pos (2 ^ 127)) → IsWhether result (IsWithin ◌≤ℤ◌ bounded z) }
{
    match bounded {
        Bounded::None => true,
        Bounded::Single(_) | Bounded::Range { start: Some(_), .. } => false,
        Bounded::Range { start: None, .. } => true,
    }
}
