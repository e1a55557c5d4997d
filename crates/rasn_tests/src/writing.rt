//! Functions that the tests of writing share: assertions on octets and on the text of results, and
//! long strings as pieces.

use crate::reading::{assert_text, held, kind_text};
use rasn_enc::ber::enc::{Encoder, EncoderOptions};
use rasn_enc::enc::Encode;
use rasn_types::error::EncodeError;
use rasn_types::types::{Bound, Bounded, Codec, Constraints, ObjectIdentifier, OctetString};
use std::alloc::{AllocError, Global};
use std::process::Abort;

/// A value, the rules to write it by, and its octets.
pub type Written<T> = (T, Codec, &'static [u8]);

/// Octets, followed by one octet repeated. A long string is a few of these pieces.
pub type Piece<'octets> = (&'octets [u8], u8, usize);

/// The constraint 0..100.
pub const PERCENTAGE: Constraints = Constraints {
    value: Some(Bound {
        constraint: Bounded::Range {
            start: Some(0),
            end: Some(100),
        },
        extensible: false,
    }),
    size: None,
};

/// The text of the error kind for 200, which isn't in 0..100.
pub const NO_PERCENTAGE: &str =
    "ValueConstraintNotSatisfied { value: Integer { octets: [0, 200] }, expected: Range { start: Some(0), end: Some(100) } }";

/// Returns the octets of a value.
fn octets_of<T: Encode>(alloc: Global, rules: Codec, value: &T) -> Result<Vec<u8>, EncodeError> {
    let mut encoder = Encoder::new(alloc, EncoderOptions::of(rules))?;
    value.encode(&mut encoder)?;
    encoder.output()
}

/// Asserts that a call succeeds, and returns its value.
pub fn assert_written<T>(rt: &impl Abort, answer: Result<T, EncodeError>) -> T {
    match answer {
        Ok(value) => value,
        Err(error) => panic!(rt; "{:?}", error.kind),
    }
}

/// Asserts that a call writes these octets.
pub fn assert_output(rt: &impl Abort, answer: Result<Vec<u8>, EncodeError>, octets: &[u8]) {
    assert_eq!(rt; assert_written(rt, answer).as_slice(), octets);
}

/// Asserts that each row's value is written as the row's octets.
pub fn assert_writes<T: Encode>(rt: &impl Abort, alloc: Global, rows: &[Written<T>]) {
    for (value, rules, octets) in rows {
        assert_output(rt, octets_of(alloc, *rules, value), octets);
    }
}

/// Returns the value. Panics if there is none or an allocation failed.
pub fn made<T>(rt: &impl Abort, value: Result<Option<T>, AllocError>) -> T {
    match value {
        Ok(Some(value)) => value,
        Ok(None) => panic!(rt; "no value"),
        Err(_) => panic!(rt; "no memory"),
    }
}

/// Asserts that a call writes the octets of these pieces.
pub fn assert_output_pieces(
    rt: &impl Abort,
    alloc: Global,
    answer: Result<Vec<u8>, EncodeError>,
    pieces: &[Piece<'_>],
) {
    assert_output(rt, answer, &held(rt, of_pieces(alloc, pieces)));
}

/// Asserts that a value is made, and is written as the octets of these pieces.
pub fn assert_writes_pieces<T: Encode>(
    rt: &impl Abort,
    alloc: Global,
    rules: Codec,
    value: Result<Option<T>, AllocError>,
    pieces: &[Piece<'_>],
) {
    let value = made(rt, value);
    assert_output_pieces(rt, alloc, octets_of(alloc, rules, &value), pieces);
}

/// Returns the octets of some pieces.
pub fn of_pieces(alloc: Global, pieces: &[Piece<'_>]) -> Result<Vec<u8>, AllocError> {
    let mut octets = Vec::new(alloc);
    for (before, octet, count) in pieces {
        octets.extend_from_slice(before)?;
        octets.extend_from_slice(&vec![in alloc; *octet; *count]?)?;
    }
    Ok(octets)
}

/// Returns an OCTET STRING of `count` equal octets.
pub fn repeated(alloc: Global, octet: u8, count: usize) -> Result<Option<OctetString>, AllocError> {
    let octets = vec![in alloc; octet; count]?;
    Ok(Some(OctetString::from_vec(octets)))
}

/// Returns the object identifier of these arcs.
pub fn identifier_of(alloc: Global, arcs: &[u32]) -> Result<Option<ObjectIdentifier>, AllocError> {
    let arcs = Vec::from_slice(alloc, arcs)?;
    Ok(ObjectIdentifier::new(arcs))
}

/// Returns the object identifiers of these arcs; `None` if one of them isn't valid.
pub fn identifiers_of(
    alloc: Global,
    arcs: &[&[u32]],
) -> Result<Option<Vec<ObjectIdentifier>>, AllocError> {
    let mut identifiers = Vec::new(alloc);
    for arcs in arcs {
        match identifier_of(alloc, arcs)? {
            Some(identifier) => identifiers.push(identifier)?,
            None => return Ok(None),
        }
    }
    Ok(Some(identifiers))
}

/// The text of the error kind for the object identifier 0.40, which has no encoding (X.690 8.19.4).
pub const INVALID_0_40: &str =
    "CodecSpecific { inner: Ber(InvalidObjectIdentifier { oid: [0, 40] }) }";

/// Returns an encoder without output.
pub fn new_encoder(rt: &impl Abort, alloc: Global, rules: Codec) -> Encoder {
    match Encoder::new(alloc, EncoderOptions::of(rules)) {
        Ok(encoder) => encoder,
        Err(_) => panic!(rt; "no memory"),
    }
}

/// Returns an encoder of the components of a SET, without output.
pub fn new_set_encoder(rt: &impl Abort, alloc: Global, rules: Codec) -> Encoder {
    match Encoder::new_set(alloc, EncoderOptions::of(rules)) {
        Ok(encoder) => encoder,
        Err(_) => panic!(rt; "no memory"),
    }
}

/// Returns the text of a call's result: `written`, or the error's kind.
fn refusal_text(
    alloc: Global,
    rules: Codec,
    answer: &Result<(), EncodeError>,
) -> Result<String, AllocError> {
    match answer {
        Ok(()) => String::from_str(alloc, "written"),
        Err(error) => kind_text(alloc, rules, error.codec, &error.kind),
    }
}

/// Asserts that a call fails under these rules, with an error kind of this text.
pub fn assert_refuses(
    rt: &impl Abort,
    alloc: Global,
    rules: Codec,
    answer: Result<(), EncodeError>,
    text: &str,
) {
    assert_text(rt, refusal_text(alloc, rules, &answer), text);
}
