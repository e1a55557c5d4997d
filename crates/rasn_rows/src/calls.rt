//! The calls of a decoder, by their names.

use crate::kinds::{sized, within};
use crate::reading::{counted, decoder_of, told};
use crate::row::Row;
use crate::writing::only_output;
use rasn::ber::de::Decoder;
use rasn::ber::enc::{Encoder, EncoderOptions};
use rasn::error::{DecodeError, EncodeError};
use rasn::open_type::any_tag;
use rasn::refuse_remainder;
use rasn::types::{Alphabet, Any, Class, Codec, Constraints, Identifier, RealType, Tag};
use rasn_bench::Both;
use std::alloc::{AllocError, Global};
use std::fmt::Debug;

/// \[0\]
const TAG_0: Tag = Tag {
    class: Class::Context,
    value: 0,
};

/// \[UNIVERSAL 9\]
const REAL: Tag = Tag {
    class: Class::Universal,
    value: 9,
};

/// A type for REAL, which isn't supported.
#[derive(Debug, Drop)]
struct Ratio;

impl RealType for Ratio {}

/// Calls a decoder for INTEGER (0..255) OPTIONAL, by the name of the call. The tag is
/// \[0\].
fn optional(
    decoder: &mut Decoder<'_>,
    name: &str,
    constraints: &Constraints,
) -> Option<Result<Option<u8>, DecodeError>> {
    match name {
        "decode_optional" => Some(decoder.decode_optional()),
        "decode_optional_with_tag" => Some(decoder.decode_optional_with_tag(TAG_0)),
        "decode_optional_with_constraints" => {
            Some(decoder.decode_optional_with_constraints(constraints))
        }
        "decode_optional_with_tag_and_constraints" => {
            Some(decoder.decode_optional_with_tag_and_constraints(TAG_0, constraints))
        }
        "decode_optional_with_explicit_prefix" => {
            Some(decoder.decode_optional_with_explicit_prefix(TAG_0))
        }
        "decode_extension_addition_with_tag_and_constraints" => {
            Some(decoder.decode_extension_addition_with_tag_and_constraints(TAG_0, constraints))
        }
        "decode_extension_addition_with_explicit_tag_and_constraints" => Some(
            decoder.decode_extension_addition_with_explicit_tag_and_constraints(TAG_0, constraints),
        ),
        _ => None,
    }
}

/// Calls a decoder for INTEGER (0..255) DEFAULT 7, by the name of the call. The tag is \[0\].
fn defaulted(
    decoder: &mut Decoder<'_>,
    name: &str,
    constraints: &Constraints,
) -> Option<Result<u8, DecodeError>> {
    match name {
        "decode_default" => Some(decoder.decode_default(|| Ok(7))),
        "decode_default_without_memory" => Some(decoder.decode_default(|| Err(AllocError))),
        "decode_default_with_tag" => Some(decoder.decode_default_with_tag(TAG_0, || Ok(7))),
        "decode_default_with_constraints" => {
            Some(decoder.decode_default_with_constraints(|| Ok(7), constraints))
        }
        "decode_default_with_tag_and_constraints" => {
            Some(decoder.decode_default_with_tag_and_constraints(TAG_0, || Ok(7), constraints))
        }
        "decode_default_with_explicit_prefix" => {
            Some(decoder.decode_default_with_explicit_prefix(TAG_0, || Ok(7)))
        }
        "decode_explicit_prefix" => Some(decoder.decode_explicit_prefix(TAG_0)),
        _ => None,
    }
}

/// Checks a value, of which nothing is made, by the name of its type.
fn checked(
    decoder: &mut Decoder<'_>,
    name: &str,
    constraints: &Constraints,
) -> Option<Result<(), DecodeError>> {
    match name {
        "integer" => Some(decoder.check_integer(Tag::INTEGER, constraints)),
        "oid" => Some(decoder.check_object_identifier(Tag::OBJECT_IDENTIFIER)),
        "bits" => Some(decoder.check_bit_string(Tag::BIT_STRING, constraints)),
        "namedbits" => Some(decoder.check_named_bits(Tag::BIT_STRING, constraints)),
        "octets" => Some(decoder.check_octet_string(Tag::OCTET_STRING, constraints)),
        "octet3" => Some(decoder.check_fixed_octet_string(3, Tag::OCTET_STRING, constraints)),
        "octet4" => Some(decoder.check_fixed_octet_string(4, Tag::OCTET_STRING, constraints)),
        "utf8" => Some(decoder.check_utf8_string(Tag::UTF8_STRING, constraints)),
        "bmp" => Some(decoder.check_bmp_string(Tag::BMP_STRING, constraints)),
        "ia5" => {
            Some(decoder.check_restricted_string(Alphabet::Ia5, Tag::IA5_STRING, constraints))
        }
        _ => None,
    }
}

/// Returns the size and the type of a name `sizeN(TYPE)`.
fn sized_name(name: &str) -> Option<(usize, &str)> {
    let (size, name) = name.strip_prefix("size")?.split_once('(')?;
    Some((size.parse::<usize>().ok()?, name.strip_suffix(')')?))
}

/// Returns the result of checking a value; `None` if no type has this name.
pub fn check(alloc: Global, row: &Row<'_>) -> Result<Option<String>, AllocError> {
    let (constraints, name) = match sized_name(row.name) {
        Some((size, name)) => (sized(size), name),
        None => (Constraints::NONE, row.name),
    };
    let mut decoder = decoder_of(alloc, row);
    match checked(&mut decoder, name, &constraints) {
        Some(answer) => counted(alloc, &answer, decoder.decoded_len()).map(Some),
        None => Ok(None),
    }
}

/// Returns the text of a call's result, with the number of octets that the decoder has consumed.
fn after<T: Debug + Drop>(
    alloc: Global,
    answer: Result<T, DecodeError>,
    decoder: &Decoder<'_>,
) -> Option<Result<String, AllocError>> {
    Some(counted(alloc, &answer, decoder.decoded_len()))
}

/// Returns the result of a call for strings of an alphabet, by the name of the call; `None` if there
/// is no such call.
fn string_call(
    alloc: Global,
    decoder: &mut Decoder<'_>,
    name: &str,
) -> Option<Result<String, AllocError>> {
    let any = &Constraints::NONE;
    match name {
        "decode_numeric_string" => {
            let answer = decoder.decode_numeric_string(Tag::NUMERIC_STRING, any);
            after(alloc, answer, decoder)
        }
        "decode_printable_string" => {
            let answer = decoder.decode_printable_string(Tag::PRINTABLE_STRING, any);
            after(alloc, answer, decoder)
        }
        "decode_teletex_string" => {
            let answer = decoder.decode_teletex_string(Tag::TELETEX_STRING, any);
            after(alloc, answer, decoder)
        }
        "decode_ia5_string" => {
            let answer = decoder.decode_ia5_string(Tag::IA5_STRING, any);
            after(alloc, answer, decoder)
        }
        "decode_graphic_string" => {
            let answer = decoder.decode_graphic_string(Tag::GRAPHIC_STRING, any);
            after(alloc, answer, decoder)
        }
        "decode_visible_string" => {
            let answer = decoder.decode_visible_string(Tag::VISIBLE_STRING, any);
            after(alloc, answer, decoder)
        }
        "decode_general_string" => {
            let answer = decoder.decode_general_string(Tag::GENERAL_STRING, any);
            after(alloc, answer, decoder)
        }
        _ => value_call(alloc, decoder, name),
    }
}

/// Returns the result of a call for other values, by the name of the call; `None` if there is no
/// such call.
fn value_call(
    alloc: Global,
    decoder: &mut Decoder<'_>,
    name: &str,
) -> Option<Result<String, AllocError>> {
    let any = &Constraints::NONE;
    match name {
        "decode_utf8_string" => {
            let answer = decoder.decode_utf8_string(Tag::UTF8_STRING, any);
            after(alloc, answer, decoder)
        }
        "decode_bmp_string" => {
            let answer = decoder.decode_bmp_string(Tag::BMP_STRING, any);
            after(alloc, answer, decoder)
        }
        "decode_bit_string" => {
            let answer = decoder.decode_bit_string(Tag::BIT_STRING, any);
            after(alloc, answer, decoder)
        }
        "decode_null" => {
            let answer = decoder.decode_null(Tag::NULL);
            after(alloc, answer, decoder)
        }
        "decode_object_identifier" => {
            let answer = decoder.decode_object_identifier(Tag::OBJECT_IDENTIFIER);
            after(alloc, answer, decoder)
        }
        "decode_object_identifier_from_bytes" => {
            let contents = decoder.remaining();
            let answer = decoder.decode_object_identifier_from_bytes(contents);
            after(alloc, answer, decoder)
        }
        "decode_any" => {
            let answer = decoder.decode_any(TAG_0);
            after(alloc, answer, decoder)
        }
        "decode_real" => {
            let answer = decoder.decode_real::<Ratio>(REAL, any);
            after(alloc, answer, decoder)
        }
        "decode_sequence_of" => {
            let answer = decoder.decode_sequence_of::<u8>(TAG_0, &sized(2));
            after(alloc, answer, decoder)
        }
        "decode_extension_addition_group" => {
            let answer = decoder.decode_extension_addition_group::<2, 0, Both<i32, bool>>();
            after(alloc, answer, decoder)
        }
        _ => None,
    }
}

/// Returns the result of the call of this name; `None` if there is no such call.
pub fn call(alloc: Global, row: &Row<'_>) -> Result<Option<String>, AllocError> {
    let small = within(0, 10);
    let mut decoder = decoder_of(alloc, row);
    if let Some(answer) = optional(&mut decoder, row.name, &small) {
        return counted(alloc, &answer, decoder.decoded_len()).map(Some);
    }
    if let Some(answer) = defaulted(&mut decoder, row.name, &small) {
        return counted(alloc, &answer, decoder.decoded_len()).map(Some);
    }
    match string_call(alloc, &mut decoder, row.name) {
        Some(text) => text.map(Some),
        None => octets_call(alloc, row),
    }
}

/// Returns the result of the function on octets of this name; `None` if there is no such function.
fn octets_call(alloc: Global, row: &Row<'_>) -> Result<Option<String>, AllocError> {
    match row.name {
        "refuse_remainder" => {
            let answer = refuse_remainder(row.rules, &row.octets);
            told(alloc, &answer).map(Some)
        }
        "any_tag" => {
            let any = Any::new(Vec::from_slice(alloc, &row.octets)?);
            let answer = any_tag(alloc, row.rules, &any);
            told(alloc, &answer).map(Some)
        }
        _ => Ok(None),
    }
}

/// Returns the output of an encoder of these rules that is asked to write a REAL. If it refuses to,
/// the error is returned in place of an output that has no octets.
pub fn written_real(alloc: Global, rules: Codec) -> Result<Vec<u8>, EncodeError> {
    let mut encoder = Encoder::new(alloc, EncoderOptions::of(rules))?;
    let answer = encoder.encode_real(REAL, &Constraints::NONE, &Ratio, Identifier::EMPTY);
    only_output(encoder, answer)
}
