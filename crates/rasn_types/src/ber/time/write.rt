//! Writers of times in their canonical forms (X.690 11.7, 11.8).
ghost use Rattle.std.specs.Prelude.{ℕ, List, ◌≡◌, ◌<◌, ◌≤ℤ◌, ◌++◌, IfOk, OnErr, map, ◌+◌, pos, negsuc, unsigned_abs};
ghost use Rattle.std.specs.Int.{int_rem_euclid};
ghost use Rattle.rasn_types.specs.Calendar.{IsDay, IsMoment};
ghost use Rattle.rasn_types.specs.TimeSpelling.{two, four};
ghost use Rattle.rasn_types.specs.Time.{written_date, written_year, long_year, written_utc, written_generalized, clock_written, written_second, within_second, written_fraction, digits_of};

use crate::types::{Date, GeneralizedTime, UtcTime};
use std::alloc::AllocError;

/// Appends a number as two digits.
fn push_two(out: &mut Vec<u8>, number: u8) -> Result<(), AllocError>
    requires { number < 100 }
    ensures ok { IfOk result (λ _. out.new.items ≡ out.old.items ++ two number) }
    ensures err { OnErr result ((l : List ℕ) × (out.new.items ≡ out.old.items ++ l)) }
{
    out.push(b'0' + number / 10)?;
    out.push(b'0' + number % 10)?;
    Ok(())
}

fn push_four(out: &mut Vec<u8>, number: u16) -> Result<(), AllocError>
    requires { number < 10000 }
    ensures ok { IfOk result (λ _. out.new.items ≡ out.old.items ++ four number) }
    ensures err { OnErr result ((l : List ℕ) × (out.new.items ≡ out.old.items ++ l)) }
{
    push_two(out, (number / 100) as u8)?;
    push_two(out, (number % 100) as u8)
}

/// Appends a year that isn't negative, with at least four digits.
fn push_long(out: &mut Vec<u8>, number: u32) -> Result<(), AllocError>
    requires { number < 100000 }
    ensures ok { IfOk result (λ _. out.new.items ≡ out.old.items ++ long_year number) }
    ensures err { OnErr result ((l : List ℕ) × (out.new.items ≡ out.old.items ++ l)) }
{
    if number < 10000 {
        push_four(out, number as u16)
    } else {
        out.push(b'0' + (number / 10000) as u8)?;
        push_four(out, (number % 10000) as u16)
    }
}

fn push_year(out: &mut Vec<u8>, year: i32) -> Result<(), AllocError>
    requires from { negsuc 99998 ≤ℤ year }
    requires to { year ≤ℤ pos 99999 }
    ensures ok { IfOk result (λ _. out.new.items ≡ out.old.items ++ written_year year) }
    ensures err { OnErr result ((l : List ℕ) × (out.new.items ≡ out.old.items ++ l)) }
{
    if 0 <= year && year <= 9999 {
        push_four(out, year as u16)
    } else {
        out.push(if year < 0 { b'-' } else { b'+' })?;
        push_long(out, year.unsigned_abs())
    }
}

/// Appends the text of a day. A year outside 0 to 9999 is written with its sign.
///
/// # Errors
/// If an allocation fails. Part of the text may have been appended.
#[tactic(auto, unfolding(crate::specs::Time::written_date))]
pub fn write_date(out: &mut Vec<u8>, value: &Date) -> Result<(), AllocError>
    ensures ok { IfOk result (λ _. out.new.items ≡ out.old.items ++ written_date value.now) }
    ensures err { OnErr result ((l : List ℕ) × (out.new.items ≡ out.old.items ++ l)) }
    ensures exists { IsDay value.now }
{
    push_year(out, value.year())?;
    push_two(out, value.month())?;
    push_two(out, value.day())
}

/// Appends the digits of a number of billionths, without trailing zeros.
fn push_digits(out: &mut Vec<u8>, billionths: u32) -> Result<(), AllocError>
    requires { billionths < 1000000000 }
    ensures ok { IfOk result (λ _. out.new.items ≡ out.old.items ++ map (λ d. 48 + d) (digits_of 9 billionths)) }
    ensures err { OnErr result ((l : List ℕ) × (out.new.items ≡ out.old.items ++ l)) }
{
    let mut place = 9u32;
    let mut left = billionths;
    while place > 0 && left > 0 {
        place -= 1;
        let weight = 10u32.pow(place);
        out.push(b'0' + (left / weight) as u8)?;
        left %= weight;
    }
    Ok(())
}

fn push_fraction(out: &mut Vec<u8>, billionths: u32) -> Result<(), AllocError>
    requires { billionths < 1000000000 }
    ensures ok { IfOk result (λ _. out.new.items ≡ out.old.items ++ written_fraction billionths) }
    ensures err { OnErr result ((l : List ℕ) × (out.new.items ≡ out.old.items ++ l)) }
{
    if billionths == 0 {
        return Ok(());
    }
    out.push(b'.')?;
    push_digits(out, billionths)
}

pub(super) fn shown_second(value: &UtcTime) -> u8
    requires { IsMoment value.now }
    ensures { result ≡ written_second value.now }
{
    if value.nanosecond() < 1_000_000_000 {
        value.second()
    } else {
        value.second() + 1
    }
}

pub(super) fn shown_fraction(value: &UtcTime) -> u32
    requires { IsMoment value.now }
    ensures is { result ≡ within_second value.now }
    ensures below { result < 1000000000 }
{
    if value.nanosecond() < 1_000_000_000 {
        value.nanosecond()
    } else {
        value.nanosecond() - 1_000_000_000
    }
}

fn push_clock(out: &mut Vec<u8>, value: &UtcTime) -> Result<(), AllocError>
    requires { IsMoment value.now }
    ensures ok { IfOk result (λ _. out.new.items ≡ out.old.items ++ clock_written value.now) }
    ensures err { OnErr result ((l : List ℕ) × (out.new.items ≡ out.old.items ++ l)) }
{
    push_two(out, value.hour())?;
    push_two(out, value.minute())?;
    push_two(out, shown_second(value))
}

/// Appends an instant as a GeneralizedTime in the canonical form (X.690 11.7).
///
/// # Errors
/// If an allocation fails. Part of the text may have been appended.
#[tactic(auto, unfolding(crate::specs::Time::written_generalized))]
pub fn write_generalized_time(out: &mut Vec<u8>, value: &GeneralizedTime) -> Result<(), AllocError>
    ensures ok { IfOk result (λ _. out.new.items ≡ out.old.items ++ written_generalized value.now.moment) }
    ensures err { OnErr result ((l : List ℕ) × (out.new.items ≡ out.old.items ++ l)) }
    ensures exists { IsMoment value.now.moment }
{
    let value = value.utc();
    let date = value.date();
    write_date(out, &date)?;
    push_clock(out, &value)?;
    push_fraction(out, shown_fraction(&value))?;
    out.push(b'Z')?;
    Ok(())
}

fn year_in_century(date: &Date) -> u8
    ensures is { result ≡ unsigned_abs (int_rem_euclid date.now.year (pos 100)) }
    ensures below { result < 100 }
{
    date.year().rem_euclid(100) as u8
}

/// Appends an instant as a UTCTime in the canonical form (X.690 11.8): without the century of its
/// year, and without a fraction.
///
/// # Errors
/// If an allocation fails. Part of the text may have been appended.
#[tactic(auto, unfolding(crate::specs::Time::written_utc))]
pub fn write_utc_time(out: &mut Vec<u8>, value: &UtcTime) -> Result<(), AllocError>
    ensures ok { IfOk result (λ _. out.new.items ≡ out.old.items ++ written_utc value.now) }
    ensures err { OnErr result ((l : List ℕ) × (out.new.items ≡ out.old.items ++ l)) }
    ensures exists { IsMoment value.now }
{
    let date = value.date();
    push_two(out, year_in_century(&date))?;
    push_two(out, date.month())?;
    push_two(out, date.day())?;
    push_clock(out, value)?;
    out.push(b'Z')?;
    Ok(())
}
