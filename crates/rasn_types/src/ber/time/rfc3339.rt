//! Days and instants as text (RFC 3339 5.6).
ghost use Rattle.std.specs.Prelude.{◌≤ℤ◌, ◌+◌, ◌<◌, ◌++◌, ◌∷◌, [], map, pos, negsuc, Some};
ghost use Rattle.std.specs.Fmt.{WritesOnOk};
ghost use Rattle.rasn_types.specs.Calendar.{IsMoment};
ghost use Rattle.rasn_types.specs.TimeSpelling.{two, four};
ghost use Rattle.rasn_types.specs.Time.{long_year, written_year, written_fraction, digits_of};
ghost use Rattle.rasn_types.specs.Text.{shown_day, shown_clock, shown_moment};

use crate::ber::time::write::{shown_fraction, shown_second};
use crate::types::{Date, GeneralizedTime, UtcTime};
use std::fmt;

/// Writes the day as in RFC 3339: `1985-11-14`. A year outside 0 to 9999, which RFC 3339 has no
/// text for, is written with its sign.
impl fmt::Display for Date {
    ghost output = { λ d. Some (shown_day d) };

    #[tactic(auto, unfolding(crate::specs::Text::shown_day))]
    fn fmt<W: fmt::Write>(&self, f: &mut fmt::Formatter<W>) -> fmt::Result {
        write_year(f, self.year())?;
        f.write_str("-")?;
        write_two(f, self.month())?;
        f.write_str("-")?;
        write_two(f, self.day())
    }
}

/// Writes the instant in UTC as in RFC 3339, with a fraction without trailing zeros:
/// `1985-04-12T23:20:50.52Z`.
impl fmt::Display for UtcTime {
    ghost output = { λ m. Some (shown_moment m) };

    #[tactic(auto, unfolding(crate::specs::Text::shown_moment))]
    fn fmt<W: fmt::Write>(&self, f: &mut fmt::Formatter<W>) -> fmt::Result {
        let date = self.date();
        write!(f, "{date}T")?;
        write_clock(f, self)?;
        f.write_str("Z")
    }
}

/// Writes the instant in UTC as in RFC 3339.
impl fmt::Display for GeneralizedTime {
    ghost output = { λ t. Some (shown_moment t.moment) };

    fn fmt<W: fmt::Write>(&self, f: &mut fmt::Formatter<W>) -> fmt::Result {
        let utc = self.utc();
        write!(f, "{utc}")
    }
}

fn write_digit<W: fmt::Write>(f: &mut fmt::Formatter<W>, number: u8) -> fmt::Result
    requires { number < 10 }
    ensures { WritesOnOk W.write_str_gives f.old result ((48 + number) ∷ []) f.new }
{
    f.write_char(char::from(b'0' + number))
}

fn write_two<W: fmt::Write>(f: &mut fmt::Formatter<W>, number: u8) -> fmt::Result
    requires { number < 100 }
    ensures { WritesOnOk W.write_str_gives f.old result (two number) f.new }
{
    write_digit(f, number / 10)?;
    write_digit(f, number % 10)
}

fn write_four<W: fmt::Write>(f: &mut fmt::Formatter<W>, number: u16) -> fmt::Result
    requires { number < 10000 }
    ensures { WritesOnOk W.write_str_gives f.old result (four number) f.new }
{
    write_two(f, (number / 100) as u8)?;
    write_two(f, (number % 100) as u8)
}

// Writes a year that isn't negative, with at least four digits.
fn write_long<W: fmt::Write>(f: &mut fmt::Formatter<W>, number: u32) -> fmt::Result
    requires { number < 100000 }
    ensures { WritesOnOk W.write_str_gives f.old result (long_year number) f.new }
{
    if number < 10000 {
        write_four(f, number as u16)
    } else {
        write_digit(f, (number / 10000) as u8)?;
        write_four(f, (number % 10000) as u16)
    }
}

fn write_year<W: fmt::Write>(f: &mut fmt::Formatter<W>, year: i32) -> fmt::Result
    requires from { negsuc 99998 ≤ℤ year }
    requires to { year ≤ℤ pos 99999 }
    ensures { WritesOnOk W.write_str_gives f.old result (written_year year) f.new }
{
    if 0 <= year && year <= 9999 {
        write_four(f, year as u16)
    } else {
        f.write_str(if year < 0 { "-" } else { "+" })?;
        write_long(f, year.unsigned_abs())
    }
}

#[tactic(auto, unfolding(crate::specs::Text::shown_clock))]
fn write_clock<W: fmt::Write>(f: &mut fmt::Formatter<W>, value: &UtcTime) -> fmt::Result
    requires { IsMoment value.now }
    ensures { WritesOnOk W.write_str_gives f.old result (shown_clock value.now) f.new }
{
    write_two(f, value.hour())?;
    f.write_str(":")?;
    write_two(f, value.minute())?;
    f.write_str(":")?;
    write_two(f, shown_second(value))?;
    write_fraction(f, shown_fraction(value))
}

fn write_fraction<W: fmt::Write>(f: &mut fmt::Formatter<W>, billionths: u32) -> fmt::Result
    requires { billionths < 1000000000 }
    ensures { WritesOnOk W.write_str_gives f.old result (written_fraction billionths) f.new }
{
    if billionths == 0 {
        return Ok(());
    }
    f.write_str(".")?;
    write_digits(f, billionths)
}

// Writes the digits of a number of billionths, without trailing zeros.
fn write_digits<W: fmt::Write>(f: &mut fmt::Formatter<W>, billionths: u32) -> fmt::Result
    requires { billionths < 1000000000 }
    ensures { WritesOnOk W.write_str_gives f.old result (map (λ d. 48 + d) (digits_of 9 billionths)) f.new }
{
    let mut place = 9u32;
    let mut left = billionths;
    while place > 0 && left > 0 {
        place -= 1;
        let weight = 10u32.pow(place);
        write_digit(f, (left / weight) as u8)?;
        left %= weight;
    }
    Ok(())
}
