//! Instants as seconds since 1970.
ghost use Rattle.std.specs.Prelude.{◌≡◌};
ghost use Rattle.rasn_c.specs.Status.{IsNumberOf};
ghost use Rattle.rasn_c.specs.Seconds.{AnswersSeconds, seconds_of};

use crate::days::day_number;
use crate::rules::rule_numbered;
use crate::status::Status;
use crate::time::instant_of;
use rasn::types::UtcTime;
use std::alloc::Global;

/// An instant: `soq_seconds` of the header.
#[repr(C)]
#[derive(Clone, Copy, Debug, PartialEq, Eq)]
pub struct Seconds {
    /// The seconds since the start of 1970 in UTC, without leap seconds.
    pub seconds: i64,
    /// The nanoseconds. From 1,000,000,000 on they are in a leap second after the second.
    pub nanosecond: u32,
}

/// The seconds from the start of the year -100000 to that of 1970.
const BEFORE_1970: i64 = 3_217_862_419_200;

/// Returns the instant of the UTCTime or the GeneralizedTime that all of the octets are, as seconds
/// since 1970. Its tag may be any.
#[unsafe(no_mangle)]
pub extern "C" fn soq_proved_seconds(
    alloc: Global,
    type_number: u32,
    rule: u32,
    octets: &[u8],
    seconds: &mut Seconds,
) -> u32
    ensures { IsNumberOf (AnswersSeconds type_number rule octets.now seconds.new) result }
{
    put_seconds(alloc, type_number, rule, octets, seconds).number()
}

fn put_seconds(
    alloc: Global,
    type_number: u32,
    rule: u32,
    octets: &[u8],
    seconds: &mut Seconds,
) -> Status
    ensures { AnswersSeconds type_number rule octets.now seconds.new result }
{
    *seconds = Seconds {
        seconds: 0,
        nanosecond: 0,
    };
    let Some(rule) = rule_numbered(rule) else {
        return Status::UnknownRule;
    };
    match instant_of(alloc, type_number, rule, octets) {
        Ok(instant) => {
            *seconds = Seconds {
                seconds: seconds_of(&instant),
                nanosecond: instant.nanosecond(),
            };
            Status::Ok
        }
        Err(status) => status,
    }
}

/// Returns the seconds from the start of 1970 to an instant.
fn seconds_of(instant: &UtcTime) -> i64
    ensures { result ≡ seconds_of instant.now }
{
    let hours = 24 * day_number(&instant.date()) + u64::from(instant.hour());
    let minutes = 60 * hours + u64::from(instant.minute());
    let seconds = 60 * minutes + u64::from(instant.second());
    seconds as i64 - BEFORE_1970
}
