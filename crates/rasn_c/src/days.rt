//! Days, counted from the start of the year -100000.
ghost use Rattle.std.specs.Prelude.{◌≡◌, ◌<◌};
ghost use Rattle.rasn_types.specs.Calendar.{IsDay, is_leap};
ghost use Rattle.rasn_c.specs.Days.{AreCounted, day_number, year_of_era, leap_years_before, common_days_before, leap_day};

use rasn::types::Date;

/// States that the days are counted one by one, and where 1970 begins.
pub(crate) fn are_counted()
    ensures { AreCounted }
{}

/// Returns how many days precede a day, from the start of the year -100000 on.
pub(crate) fn day_number(date: &Date) -> u64
    ensures is { result ≡ day_number date.now }
    ensures few { result < 74000000 }
{
    let year = year_of_era(date);
    let days = common_days_before(date.month()) + leap_day(date);
    365 * year + leap_years_before(year) + days + u64::from(date.day()) - 1
}

/// Returns the years from the year -100000 to that of a day.
fn year_of_era(date: &Date) -> u64
    ensures is { result ≡ year_of_era date.now.year }
    ensures few { result < 200000 }
    ensures exists { IsDay date.now }
{
    let year = date.year() + 100_000;
    u64::from(year.unsigned_abs())
}

/// Returns how many leap years there are before a year, from 0 on.
fn leap_years_before(year: u64) -> u64
    requires { year < 200000 }
    ensures { result ≡ leap_years_before year }
{
    (year + 3) / 4 - (year + 99) / 100 + (year + 399) / 400
}

/// Returns the day that a leap year has more, if the day's month follows it.
fn leap_day(date: &Date) -> u64
    ensures { result ≡ leap_day (is_leap date.now.year) date.now.month }
{
    if is_leap(date) && date.month() > 2 {
        1
    } else {
        0
    }
}

fn is_leap(date: &Date) -> bool
    ensures { result ≡ is_leap date.now.year }
{
    let year = date.year().unsigned_abs();
    year % 4 == 0 && (year % 100 != 0 || year % 400 == 0)
}

/// Returns how many days of a common year precede a month.
fn common_days_before(month: u8) -> u64
    ensures is { result ≡ common_days_before month }
    ensures few { result < 335 }
{
    match month {
        1 => 0,
        2 => 31,
        3 => 59,
        4 => 90,
        5 => 120,
        6 => 151,
        7 => 181,
        8 => 212,
        9 => 243,
        10 => 273,
        11 => 304,
        _ => 334,
    }
}
