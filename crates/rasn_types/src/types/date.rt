//! DATE: days of the calendar.
ghost use Rattle.std.specs.Prelude.{◌≡◌, ◌<ℤ◌, pos, negsuc};
ghost use Rattle.rasn_types.specs.Calendar.{Day, IsDay, DayBefore, is_leap, days_of_month, next_day, previous_day};
ghost use Rattle.rasn_types.specs.Options.{IsSomeExactlyIf};
ghost use Rattle.rasn_types.specs.Truth.{IsWhether};

use crate::types::{AsnType, Constraints, Tag};
use std::marker::Model;

/// A day of the proleptic Gregorian calendar, which has a year 0. Years are from -99999 to 99999
/// (X.680 38.4.1).
#[derive(Clone, Copy, Debug, PartialEq, Eq, PartialOrd, Ord)]
pub struct Date {
    // Of 64 bits, so that a value that holds a day is moved by whole words.
    year: i64,
    month: u8,
    day: u8,
}

impl Model for Date {
    ghost use Rattle.rasn_types.specs.Calendar.{Day, IsDay};

    ghost Value = { Day };

    ghost view = { λ a. record { year = a.year; month = a.month; day = a.day } };

    ghost invariant = { λ a. IsDay (record { year = a.year; month = a.month; day = a.day }) };

    ghost inverse = { λ d. record { year = d.year; month = d.month; day = d.day } };
}

fn is_leap_year(year: i32) -> bool
    ensures { result ≡ is_leap year }
{
    let year = year.unsigned_abs();
    year % 4 == 0 && (year % 100 != 0 || year % 400 == 0)
}

fn month_length(year: i32, month: u8) -> u8
    ensures { result ≡ days_of_month year month }
{
    if month == 2 {
        if is_leap_year(year) { 29 } else { 28 }
    } else if month == 4 || month == 6 || month == 9 || month == 11 {
        30
    } else {
        31
    }
}

impl Date {
    /// Returns the day, or `None` if there is no such day.
    pub fn new(year: i32, month: u8, day: u8) -> Option<Date>
        ensures { let d : Day = record { year = year; month = month; day = day } in IsSomeExactlyIf result (IsDay d) d }
    {
        if -99999 <= year
            && year <= 99999
            && 1 <= month
            && month <= 12
            && 1 <= day
            && day <= month_length(year, month)
        {
            Some(Date {
                year: i64::from(year),
                month,
                day,
            })
        } else {
            None
        }
    }

    /// Returns the year.
    pub fn year(&self) -> i32
        ensures is { result ≡ self.now.year }
        ensures exists { IsDay self.now }
    {
        self.year as i32
    }

    /// Returns the month, from 1.
    pub fn month(&self) -> u8
        ensures { result ≡ self.now.month }
    {
        self.month
    }

    /// Returns the day of the month, from 1.
    pub fn day(&self) -> u8
        ensures { result ≡ self.now.day }
    {
        self.day
    }

    /// Returns the day after this one.
    #[tactic(auto, unfolding(crate::specs::Calendar::next_day))]
    pub(crate) fn following(self) -> Date
        requires { self.year <ℤ pos 99999 }
        ensures { result ≡ next_day self }
    {
        let Date { year, month, day } = self;
        if day < month_length(self.year(), month) {
            Date {
                year,
                month,
                day: day + 1,
            }
        } else if month < 12 {
            Date {
                year,
                month: month + 1,
                day: 1,
            }
        } else {
            Date {
                year: year + 1,
                month: 1,
                day: 1,
            }
        }
    }

    /// Returns the day before this one.
    #[tactic(auto, unfolding(crate::specs::Calendar::previous_day))]
    pub(crate) fn preceding(self) -> Date
        requires { negsuc 99998 <ℤ self.year }
        ensures { result ≡ previous_day self }
    {
        let Date { year, month, day } = self;
        if 1 < day {
            Date {
                year,
                month,
                day: day - 1,
            }
        } else if 1 < month {
            Date {
                year,
                month: month - 1,
                day: month_length(self.year(), month - 1),
            }
        } else {
            Date {
                year: year - 1,
                month: 12,
                day: 31,
            }
        }
    }

    /// Returns whether the two days are the same, as `==` does.
    pub fn is_same(&self, other: &Date) -> bool
        ensures { IsWhether result (self.now ≡ other.now) }
    {
        self == other
    }

    /// Returns whether this day is before the other, as `<` does.
    pub fn is_before(&self, other: &Date) -> bool
        ensures { IsWhether result (DayBefore self.now other.now) }
    {
        self < other
    }
}

impl AsnType for Date {
    ghost use Rattle.std.specs.Prelude.{refl};
    ghost use Rattle.rasn_types.specs.Shapes.{leaf, date, on_day};
    ghost use Rattle.rasn_types.specs.Tags.{in_universal};
    ghost use Rattle.rasn_types.specs.Trees.{unconstrained};

    ghost TAG = { in_universal 31 };

    const TAG: Tag = Tag::DATE;

    ghost CONSTRAINTS = { unconstrained };

    const CONSTRAINTS: Constraints = Constraints {
        value: None,
        size: None,
    };

    ghost shape = { leaf date (in_universal 31) unconstrained };

    ghost tree = { λ d. on_day d };

    ghost own = { refl };
}
