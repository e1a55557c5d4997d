//! Parsers of times.
ghost use Rattle.std.specs.Prelude.{◌≡◌, ◌<◌, ◌<ℤ◌, ◌≤ℤ◌, pos, negsuc};
ghost use Rattle.rasn_types.specs.Calendar.{Day, IsDay, IsMoment, Stamp};
ghost use Rattle.rasn_types.specs.Options.{IsSomeExactlyIf, IsSomeRelated};
ghost use Rattle.rasn_types.specs.TimeSpelling.{IsZone, billionths, minute_of, second_of, nanosecond_of, in_utc, offset_of};
ghost use Rattle.rasn_types.specs.Time.{shown, stamp_of, century, GeneralUtc, CanonicalUtc, GeneralGeneralized, CanonicalGeneralized, StrictGeneralized, IsShortFraction, DateText};
ghost use Rattle.rasn_types.specs.Truth.{IsWhether};

use crate::ber::time::text::{Clock, Fields, Zone, date_parts, long_parts, short_parts};
use crate::types::{Date, GeneralizedTime, UtcTime};

#[inline(always)]
fn minute(clock: Clock, billionths: u32) -> u8
    requires { billionths < 1000000000 }
    ensures { result ≡ minute_of clock billionths }
{
    match clock {
        Clock::Hours => (3600 * u64::from(billionths) / 60_000_000_000) as u8,
        Clock::Minutes(minute) => minute,
        Clock::Seconds(minute, _) => minute,
    }
}

#[inline(always)]
fn second(clock: Clock, billionths: u32) -> u8
    requires { billionths < 1000000000 }
    ensures { result ≡ second_of clock billionths }
{
    match clock {
        Clock::Hours => (3600 * u64::from(billionths) / 1_000_000_000 % 60) as u8,
        Clock::Minutes(_) => (60 * u64::from(billionths) / 1_000_000_000) as u8,
        Clock::Seconds(_, second) => { if second == 60 { 59 } else { second } }
    }
}

#[inline(always)]
fn nanosecond(clock: Clock, billionths: u32) -> u32
    requires { billionths < 1000000000 }
    ensures { result ≡ nanosecond_of clock billionths }
{
    match clock {
        Clock::Hours => (3600 * u64::from(billionths) % 1_000_000_000) as u32,
        Clock::Minutes(_) => (60 * u64::from(billionths) % 1_000_000_000) as u32,
        Clock::Seconds(_, second) => {
            if second == 60 {
                1_000_000_000 + billionths
            } else {
                billionths
            }
        }
    }
}

fn billionths_of(fraction: Option<(u8, u32)>) -> u32
    ensures { result ≡ billionths fraction }
{
    match fraction {
        Some((_, billionths)) => billionths,
        None => 0,
    }
}

/// Returns the instant, in UTC, at which a clock in this zone shows `local`.
fn in_zone(local: UtcTime, zone: Zone) -> UtcTime
    requires zone { IsZone zone }
    requires from { negsuc 99998 <ℤ local.day.year }
    requires to { local.day.year <ℤ pos 99999 }
    ensures { result ≡ in_utc zone local }
{
    match zone {
        Zone::Unnamed | Zone::Utc => local,
        Zone::East(hours, minutes) => local.earlier(60 * u16::from(hours) + u16::from(minutes)),
        Zone::West(hours, minutes) => local.later(60 * u16::from(hours) + u16::from(minutes)),
    }
}

fn offset(zone: Zone) -> i16
    requires { IsZone zone }
    ensures is { result ≡ offset_of zone }
    ensures from { negsuc 1438 ≤ℤ result }
    ensures to { result ≤ℤ pos 1439 }
{
    match zone {
        Zone::Unnamed | Zone::Utc => 0,
        Zone::East(hours, minutes) => 60 * i16::from(hours) + i16::from(minutes),
        Zone::West(hours, minutes) => -(60 * i16::from(hours) + i16::from(minutes)),
    }
}

/// Returns a day of a year that isn't negative, or `None` if the day doesn't exist.
#[inline(always)]
fn day_of(year: u16, month: u8, day: u8) -> Option<Date>
    ensures { let d : Day = record { year = pos year; month = month; day = day } in IsSomeExactlyIf result (IsDay d) d }
{
    Date::new(i32::from(year), month, day)
}

/// Returns the instant of a text's fields, or `None` if the day or the time of day doesn't exist.
#[inline(always)]
fn stamp(year: u16, fields: &Fields) -> Option<GeneralizedTime>
    requires year { year < 10000 }
    requires zone { IsZone fields.now.zone }
    requires below { billionths fields.now.fraction < 1000000000 }
    ensures { IsSomeExactlyIf result (IsMoment (shown (pos year) fields.now)) (stamp_of (pos year) fields.now) }
{
    let date = day_of(year, fields.month, fields.day)?;
    let billionths = billionths_of(fields.fraction);
    let minute = minute(fields.clock, billionths);
    let second = second(fields.clock, billionths);
    let nanosecond = nanosecond(fields.clock, billionths);
    let local = UtcTime::new(date, fields.hour, minute, second, nanosecond)?;
    GeneralizedTime::new(in_zone(local, fields.zone), offset(fields.zone))
}

/// Parses a GeneralizedTime in any form (X.680 46), as BER reads it. Returns `None` if the text
/// doesn't have such a form, or if its day or its time of day doesn't exist.
pub fn parse_generalized_time(text: &[u8]) -> Option<GeneralizedTime>
    ensures { IsSomeRelated result (GeneralGeneralized text.now) }
{
    let (year, fields) = long_parts(text)?;
    stamp(year, &fields)
}

/// Parses a GeneralizedTime in the canonical form (X.690 11.7), as CER reads it: with seconds, a
/// point before a fraction, and `Z`.
pub fn parse_canonical_generalized_time(text: &[u8]) -> Option<GeneralizedTime>
    ensures { IsSomeRelated result (CanonicalGeneralized text.now) }
{
    let (year, parts) = long_parts(text)?;
    if !parts.is_canonical() {
        return None;
    }
    stamp(year, &parts)
}

/// Returns whether a canonical text is the shortest one: it has no fraction, or a fraction of at
/// most nine digits, the last of which isn't 0.
fn is_shortest(text: &[u8]) -> bool
    ensures { (t : Stamp) → (c : CanonicalGeneralized text.now t) → IsWhether result (IsShortFraction c.rest.fraction) }
{
    match text {
        [.., last, _] => text.len() == 15 || (text.len() <= 25 && *last != b'0'),
        _ => false,
    }
}

/// Parses a GeneralizedTime in the canonical form, as DER reads it: a fraction has at most nine
/// digits, the last of which isn't 0 (X.690 11.7).
pub fn parse_strict_generalized_time(text: &[u8]) -> Option<GeneralizedTime>
    ensures { IsSomeRelated result (StrictGeneralized text.now) }
{
    let time = parse_canonical_generalized_time(text)?;
    if is_shortest(text) { Some(time) } else { None }
}

fn full_year(year: u8) -> u16
    requires { year < 100 }
    ensures is { result ≡ century year }
    ensures below { result < 10000 }
{
    if year < 70 {
        2000 + u16::from(year)
    } else {
        1900 + u16::from(year)
    }
}

/// Parses a UTCTime in any form, and keeps the offset of its text.
fn utc_stamp(text: &[u8]) -> Option<GeneralizedTime>
    ensures { IsSomeRelated result (GeneralUtc text.now) }
{
    let (year, fields) = short_parts(text)?;
    if !fields.is_short() {
        return None;
    }
    stamp(full_year(year), &fields)
}

/// Parses a UTCTime in the canonical form.
#[inline(always)]
fn canonical_utc_stamp(text: &[u8]) -> Option<GeneralizedTime>
    ensures { IsSomeRelated result (CanonicalUtc text.now) }
{
    let (year, fields) = short_parts(text)?;
    if !fields.is_short() {
        return None;
    }
    if !fields.is_canonical() {
        return None;
    }
    stamp(full_year(year), &fields)
}

/// Parses a UTCTime in any form (X.680 47), as BER reads it. Returns `None` if the text doesn't
/// have such a form, or if its day or its time of day doesn't exist.
pub fn parse_utc_time(text: &[u8]) -> Option<UtcTime>
    ensures { IsSomeRelated result (λ m. (offset : _) × GeneralUtc text.now (record { moment = m; offset = offset })) }
{
    let stamp = utc_stamp(text)?;
    Some(stamp.utc())
}

/// Parses a UTCTime in the canonical form (X.690 11.8), as CER and DER read it: with seconds and
/// `Z`.
pub fn parse_canonical_utc_time(text: &[u8]) -> Option<UtcTime>
    ensures { IsSomeRelated result (λ m. (offset : _) × CanonicalUtc text.now (record { moment = m; offset = offset })) }
{
    let stamp = canonical_utc_stamp(text)?;
    Some(stamp.utc())
}

/// Parses a DATE of eight digits. Returns `None` if the text isn't eight digits, or if the day
/// doesn't exist.
pub fn parse_date(text: &[u8]) -> Option<Date>
    ensures { IsSomeRelated result (DateText text.now) }
{
    let (year, month, day) = date_parts(text)?;
    day_of(year, month, day)
}
