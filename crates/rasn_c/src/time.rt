//! The instant of a UTCTime or a GeneralizedTime.
ghost use Rattle.std.specs.Prelude.{MatchResult};
ghost use Rattle.rasn_c.specs.Status.{IsNumberOf};
ghost use Rattle.rasn_c.specs.Leaves.{AnswersTime, IsInstant, IsNoInstant, IsTime};

use crate::leaves::leaf_of;
use crate::rules::rule_numbered;
use crate::status::Status;
use rasn::types::{Codec, GeneralizedTime, UtcTime};
use std::alloc::Global;

/// The numbers of the two types: a `soq_type` of the header.
const UTC_TIME: u32 = 9;

const GENERALIZED_TIME: u32 = 10;

/// An instant, by its fields in UTC: `soq_time` of the header.
#[repr(C)]
#[derive(Clone, Copy, Debug, PartialEq, Eq)]
pub struct Time {
    /// The year. That of a UTCTime is from 1970 to 2069.
    pub year: i32,
    /// The month, from 1 to 12.
    pub month: u32,
    /// The day of the month, from 1 to 31.
    pub day: u32,
    /// The hour, from 0 to 23.
    pub hour: u32,
    /// The minute, from 0 to 59.
    pub minute: u32,
    /// The second, from 0 to 59.
    pub second: u32,
    /// The nanoseconds. From 1,000,000,000 on they are in a leap second after the second 59.
    pub nanosecond: u32,
}

/// Returns the instant of the UTCTime or the GeneralizedTime that all of the octets are, under the
/// rules of this number. Its tag may be any.
#[unsafe(no_mangle)]
pub extern "C" fn soq_proved_time(
    alloc: Global,
    type_number: u32,
    rule: u32,
    octets: &[u8],
    time: &mut Time,
) -> u32
    ensures { IsNumberOf (AnswersTime type_number rule octets.now time.new) result }
{
    put_time(alloc, type_number, rule, octets, time).number()
}

fn put_time(alloc: Global, type_number: u32, rule: u32, octets: &[u8], time: &mut Time) -> Status
    ensures { AnswersTime type_number rule octets.now time.new result }
{
    *time = Time {
        year: 0,
        month: 0,
        day: 0,
        hour: 0,
        minute: 0,
        second: 0,
        nanosecond: 0,
    };
    let Some(rule) = rule_numbered(rule) else {
        return Status::UnknownRule;
    };
    match instant_of(alloc, type_number, rule, octets) {
        Ok(instant) => {
            *time = fields_of(&instant);
            Status::Ok
        }
        Err(status) => status,
    }
}

/// Returns the instant that all of the octets are, or the status of a refusal.
pub(crate) fn instant_of(
    alloc: Global,
    type_number: u32,
    rule: Codec,
    octets: &[u8],
) -> Result<UtcTime, Status>
    ensures { MatchResult result (IsInstant type_number rule octets.now) (IsNoInstant type_number rule octets.now) }
{
    match type_number {
        UTC_TIME => leaf_of::<UtcTime>(alloc, rule, octets),
        GENERALIZED_TIME => match leaf_of::<GeneralizedTime>(alloc, rule, octets) {
            Ok(time) => Ok(time.utc()),
            Err(status) => Err(status),
        },
        _ => Err(Status::UnknownType),
    }
}

fn fields_of(instant: &UtcTime) -> Time
    ensures { IsTime instant.now result }
{
    let date = instant.date();
    Time {
        year: date.year(),
        month: u32::from(date.month()),
        day: u32::from(date.day()),
        hour: u32::from(instant.hour()),
        minute: u32::from(instant.minute()),
        second: u32::from(instant.second()),
        nanosecond: instant.nanosecond(),
    }
}
