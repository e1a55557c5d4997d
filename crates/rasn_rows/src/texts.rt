//! Texts of times (X.680 46, 47; X.690 11.7, 11.8) and of object identifiers, parsed and written.

use crate::entry::decoded;
use crate::messages::{snmp_number, unbind};
use crate::reading::{failed, shown};
use crate::row::Row;
use rasn::ber::de::Decoder;
use rasn::ber::enc::Encoder;
use rasn::de::Decode;
use rasn::error::{DecodeError, EncodeError};
use rasn::types::{Date, GeneralizedTime, ObjectIdentifier, UtcTime};
use rasn_types::ber::time::{
    parse_canonical_generalized_time, parse_canonical_utc_time, parse_date, parse_generalized_time,
    parse_strict_generalized_time, parse_utc_time, write_date, write_generalized_time,
    write_utc_time,
};
use std::alloc::{AllocError, Global};
use std::fmt::Display;

/// Returns the text of a value, if there is one.
fn found<T: Display + Drop>(alloc: Global, value: Option<T>) -> Result<String, AllocError> {
    match value {
        Some(value) => shown(alloc, &value),
        None => String::from_str(alloc, "= none"),
    }
}

/// Returns the text of a value or of an error.
fn answered<T: Display + Drop>(
    alloc: Global,
    answer: Result<T, DecodeError>,
) -> Result<String, AllocError> {
    match answer {
        Ok(value) => shown(alloc, &value),
        Err(error) => failed(alloc, &error),
    }
}

/// Returns the value that a text has by a function on its octets; `None` if there is no such
/// function.
pub fn parse(alloc: Global, row: &Row<'_>) -> Result<Option<String>, AllocError> {
    let octets = row.text.as_bytes();
    match row.name {
        "gentime" => found(alloc, parse_generalized_time(octets)).map(Some),
        "strict(gentime)" => found(alloc, parse_strict_generalized_time(octets)).map(Some),
        "canonical(gentime)" => found(alloc, parse_canonical_generalized_time(octets)).map(Some),
        "utctime" => found(alloc, parse_utc_time(octets)).map(Some),
        "canonical(utctime)" => found(alloc, parse_canonical_utc_time(octets)).map(Some),
        "date" => found(alloc, parse_date(octets)).map(Some),
        "oid" => found(alloc, ObjectIdentifier::parse(alloc, row.text)?).map(Some),
        _ => parse_string(alloc, row),
    }
}

/// Returns the value that a text has by a decoder's function; `None` if there is no such function.
fn parse_string(alloc: Global, row: &Row<'_>) -> Result<Option<String>, AllocError> {
    let text = String::from_str(alloc, row.text)?;
    match row.name {
        "any_generalized_time_string" => {
            answered(alloc, Decoder::parse_any_generalized_time_string(text)).map(Some)
        }
        "canonical_generalized_time_string" => {
            answered(
                alloc,
                Decoder::parse_canonical_generalized_time_string(text),
            )
            .map(Some)
        }
        "any_utc_time_string" => {
            answered(alloc, Decoder::parse_any_utc_time_string(text)).map(Some)
        }
        "canonical_utc_time_string" => {
            answered(
                alloc,
                Decoder::parse_canonical_utc_time_string(alloc, &text),
            )
            .map(Some)
        }
        "date_string" => answered(alloc, Decoder::parse_date_string(alloc, &text)).map(Some),
        "snmp-number" => snmp_number(alloc, row.text),
        "ldap-unbind" => unbind(alloc, row.text),
        _ => Ok(None),
    }
}

/// Returns a text that two functions write.
fn agreed(
    alloc: Global,
    octets: &[u8],
    answer: &Result<Vec<u8>, EncodeError>,
) -> Result<String, AllocError> {
    match answer {
        Ok(text) if text.as_slice() == octets => {
            let text = str::from_utf8(octets).unwrap_or("no text");
            shown(alloc, &text)
        }
        Ok(_) => String::from_str(alloc, "! two texts"),
        Err(error) => failed(alloc, error),
    }
}

/// A time that has a text in the canonical form.
trait Timed: Decode {
    /// Returns the text, which two functions write.
    fn text(&self, alloc: Global) -> Result<String, AllocError>;
}

impl Timed for UtcTime {
    fn text(&self, alloc: Global) -> Result<String, AllocError> {
        let mut octets = Vec::new(alloc);
        write_utc_time(&mut octets, self)?;
        let answer = Encoder::datetime_to_canonical_utc_time_bytes(alloc, self);
        agreed(alloc, &octets, &answer)
    }
}

impl Timed for GeneralizedTime {
    fn text(&self, alloc: Global) -> Result<String, AllocError> {
        let mut octets = Vec::new(alloc);
        write_generalized_time(&mut octets, self)?;
        let answer = Encoder::datetime_to_canonical_generalized_time_bytes(alloc, self);
        agreed(alloc, &octets, &answer)
    }
}

impl Timed for Date {
    fn text(&self, alloc: Global) -> Result<String, AllocError> {
        let mut octets = Vec::new(alloc);
        write_date(&mut octets, self)?;
        let answer = Encoder::naivedate_to_date_bytes(alloc, self);
        agreed(alloc, &octets, &answer)
    }
}

/// Returns the text of the time that is read, or of the error.
fn read_text<T: Timed>(alloc: Global, row: &Row<'_>) -> Result<Option<String>, AllocError> {
    match decoded::<T>(alloc, row.rules, &row.octets) {
        Ok(time) => time.text(alloc).map(Some),
        Err(error) => failed(alloc, &error).map(Some),
    }
}

/// Returns the text of the time that is read, in its canonical form; `None` if the type is no time.
pub fn text(alloc: Global, row: &Row<'_>) -> Result<Option<String>, AllocError> {
    match row.name {
        "utctime" => read_text::<UtcTime>(alloc, row),
        "gentime" => read_text::<GeneralizedTime>(alloc, row),
        "date" => read_text::<Date>(alloc, row),
        _ => Ok(None),
    }
}
