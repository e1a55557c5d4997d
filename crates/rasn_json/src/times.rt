//! Days and instants (X.697, useful types and time types).
ghost use Rattle.std.specs.Prelude.{◌≡◌, ℕ, List, IfOk, IfSome, MatchOption, string_bytes};
ghost use Rattle.rasn_types.specs.Truth.{IsWhether};
ghost use Rattle.rasn_json.specs.Texts.{DayText, InstantText, IsCarriedInstant, WrittenInstant, written_instant};
ghost use Rattle.rasn_types.specs.Calendar.{IsMoment};

use rasn_schema::LeafKind;
use rasn_types::ber::time::{
    parse_date, parse_generalized_time, parse_utc_time, write_generalized_time, write_utc_time,
};
use rasn_types::types::{Date, GeneralizedTime, UtcTime};
use std::alloc::{AllocError, Global};

/// Returns the instant that the text of a GeneralizedTime is, or that of a UTCTime.
pub fn instant_of(kind: LeafKind, text: &str) -> Option<GeneralizedTime>
    ensures { IfSome result (λ t. InstantText kind text.now t.moment) }
{
    if kind != LeafKind::UtcTime {
        return parse_generalized_time(text.as_bytes());
    }
    let utc = parse_utc_time(text.as_bytes())?;
    GeneralizedTime::new(utc, 0)
}

/// Returns whether an instant has a text by DER: a UTCTime has two digits of the year and no
/// fraction, a GeneralizedTime four digits of the year.
fn is_carried(kind: LeafKind, time: &UtcTime) -> bool
    ensures { IsWhether result (IsCarriedInstant kind time.now) }
{
    let year = time.date().year();
    if kind == LeafKind::UtcTime {
        let is_whole = time.nanosecond() == 0 || time.nanosecond() == 1_000_000_000;
        return 1970 <= year && year <= 2069 && is_whole;
    }
    0 <= year && year < 10000
}

/// Returns the octets of an instant's text.
fn octets_of_instant(
    alloc: Global,
    kind: LeafKind,
    time: &GeneralizedTime,
) -> Result<Vec<u8>, AllocError>
    ensures exists { IfOk result (λ _. IsMoment time.now.moment) }
    ensures written { IfOk result (λ octets. octets.items ≡ written_instant kind time.now.moment) }
{
    let mut octets = Vec::new(alloc);
    if kind == LeafKind::UtcTime {
        write_utc_time(&mut octets, &time.utc())?;
        return Ok(octets);
    }
    write_generalized_time(&mut octets, time)?;
    Ok(octets)
}

/// Returns the text of an instant, as DER has it, or `None` if there is none of it.
pub fn text_of_instant(
    alloc: Global,
    kind: LeafKind,
    time: &GeneralizedTime,
) -> Result<Option<String>, AllocError>
    ensures { IfOk result (λ o. MatchOption o ((s : List ℕ) → WrittenInstant kind s time.now.moment → ⊥) (λ s. WrittenInstant kind (string_bytes s) time.now.moment)) }
{
    if !is_carried(kind, &time.utc()) {
        return Ok(None);
    }
    match String::from_utf8(octets_of_instant(alloc, kind, time)?) {
        Ok(text) => Ok(Some(text)),
        Err(_) => Ok(None),
    }
}

/// Returns the day of a text such as `1985-11-14`.
pub fn day_of(text: &str) -> Option<Date>
    ensures { IfSome result (DayText text.now) }
{
    let octets = text.as_bytes();
    if octets.len() != 10 || octets[4] != b'-' || octets[7] != b'-' {
        return None;
    }
    parse_date(&[
        octets[0], octets[1], octets[2], octets[3], octets[5], octets[6], octets[8], octets[9],
    ])
}

/// Returns the text of a day, or `None` if its year hasn't four digits.
pub fn text_of_day(alloc: Global, day: &Date) -> Result<Option<String>, AllocError>
    ensures { IfOk result (λ o. MatchOption o ((s : List ℕ) → DayText s day.now → ⊥) (λ s. DayText (string_bytes s) day.now)) }
{
    let year = day.year();
    if year < 0 || year >= 10000 {
        return Ok(None);
    }
    let text = format!(in alloc; "{day}")?;
    Ok(Some(text))
}
