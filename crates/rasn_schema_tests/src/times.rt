//! Times that are read by a schema keep the offset of their text (X.680 46).

use crate::types::{schema_of, value};
use rasn_schema::constants::prelude::*;
use rasn_schema::{TypeId, Value};
use std::alloc::Global;

/// GeneralizedTime, UTCTime and lists of them.
const TIMES: &[StaticType] = &[
    Leaf(GeneralizedTime, Tag::GENERALIZED_TIME, NONE, &[]),
    Leaf(UtcTime, Tag::UTC_TIME, NONE, &[]),
    SequenceOf(Tag::SEQUENCE, 0, NONE),
    SequenceOf(Tag::SEQUENCE, 1, NONE),
];

/// Returns whether the octets are a list of times with these offsets in minutes, if they are read.
fn has_offsets(alloc: Global, id: TypeId, octets: &[u8], offsets: &[i16]) -> Option<bool> {
    let schema = schema_of(alloc, TIMES)?;
    let read = value(alloc, &schema, id, octets)?;
    let Value::Items(times) = &read else {
        return None;
    };
    if times.len() != offsets.len() {
        return Some(false);
    }
    for (index, time) in times.iter().enumerate() {
        let Value::Instant(instant) = time else {
            return None;
        };
        if instant.offset_minutes() != offsets[index] {
            return Some(false);
        }
    }
    Some(true)
}

// The texts of X.680 46.3 b and c: coordinated universal time, and a local time where it is five
// hours earlier.
#[test]
fn offset_is_that_of_the_text(rt: HostRuntime) {
    const OCTETS: &[u8] = b"\x30\x2A\x18\x1119851106210627.3Z\x18\x1519851106210627.3-0500";
    let kept = has_offsets(rt.alloc(), TypeId(2), OCTETS, &[0, -300]);
    assert!(rt; kept == Some(true));
}

// A UTCTime with an offset (X.680 47.3) is the instant alone.
#[test]
fn utc_time_has_no_offset(rt: HostRuntime) {
    let octets: &[u8] = b"\x30\x11\x17\x0F8201020700-0500";
    let kept = has_offsets(rt.alloc(), TypeId(3), octets, &[0]);
    assert!(rt; kept == Some(true));
}
