//! Times as values (X.690 11.7, 11.8).

use crate::reading::{assert_facts, value};
use crate::whole::{decoded, encoded};
use crate::writing::{assert_output, made};
use rasn::types::{Codec, Date, GeneralizedTime, UtcTime};
use rasn_enc::ber::enc::Encoder;
use rasn_types::ber::time::parse_generalized_time;

// A leap second is second 59 with more than a second of nanoseconds, and a year of two digits below
// 70 is in the twenty-first century.
#[test]
fn seconds_and_centuries(rt: HostRuntime) {
    const LEAP: &[u8] = b"\x18\x1120161231235960.5Z";
    const EVE: &[u8] = b"\x17\x11691231235900-0100";
    let alloc = rt.alloc();
    let leap = value(&rt, decoded::<GeneralizedTime>(alloc, Codec::Ber, LEAP)).utc();
    let eve = value(&rt, decoded::<UtcTime>(alloc, Codec::Ber, EVE));
    assert_facts(
        &rt,
        &[
            leap.second() == 59,
            leap.nanosecond() == 1_500_000_000,
            eve.date().year() == 2070,
            eve.hour() == 0,
            eve.minute() == 59,
        ],
    );
}

// A year of five digits is written, with its sign.
#[test]
fn far_days(rt: HostRuntime) {
    const OCTETS: &[u8] = b"\x1F\x1F\x0A+100000101";
    let alloc = rt.alloc();
    let far = made(&rt, Ok(Date::new(10000, 1, 1)));
    assert_output(&rt, encoded(alloc, Codec::Cer, &far), OCTETS);
    assert_output(&rt, encoded(alloc, Codec::Der, &far), OCTETS);
    let before = made(&rt, Ok(Date::new(-5, 1, 1)));
    let text = Encoder::naivedate_to_date_bytes(alloc, &before);
    assert_output(&rt, text, b"-00050101");
}

// Times are compared as instants. Only second 59 has a leap second, offsets are less than a day,
// and 1900 was no leap year.
#[test]
fn times_have_instants(rt: HostRuntime) {
    let west = made(&rt, Ok(parse_generalized_time(b"20230122130000-0500")));
    let utc = made(&rt, Ok(parse_generalized_time(b"20230122180000Z")));
    let later = made(&rt, Ok(parse_generalized_time(b"20230122180000.1Z")));
    assert_facts(
        &rt,
        &[
            west.offset_minutes() == -300,
            west.is_same(&utc),
            !later.utc().is_before(&utc.utc()),
            UtcTime::new(utc.utc().date(), 18, 0, 0, 1_000_000_000).is_none(),
            GeneralizedTime::new(utc.utc(), 1440).is_none(),
            Date::new(1900, 2, 29).is_none(),
            Date::new(100000, 1, 1).is_none(),
        ],
    );
}
