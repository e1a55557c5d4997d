//! Distinguished names as text (RFC 4514).
ghost use Rattle.std.specs.Prelude.{◌≡◌, ◌++◌, List, ℕ, OnOk, IfOk, MatchOption, [], string_bytes, encode_utf8, if◌then◌else◌};
ghost use Rattle.rasn_types.specs.Shapes.{Tree};
ghost use Rattle.rasn_text.specs.Names.{IsNameText, AreRelativesText, IsRelativeText, IsAttributeText, IsValueText, IsValue, IsNoValue};
ghost use Rattle.rasn_text.specs.Joined.{IsAppended};

use crate::escapes::{push_escaped, push_octets};
use crate::short_names::short_name;
use rasn::Decode;
use rasn::types::{Codec, Ia5String, PrintableString, Utf8String};
use rasn_pkix::{AttributeTypeAndValue, Name, RdnSequence, RelativeDistinguishedName};
use std::alloc::{AllocError, Global};

/// Returns the text of a distinguished name (RFC 4514, 2): `CN=example.org,O=Example,C=DE`, with
/// the last relative distinguished name first.
///
/// An attribute type that the table of RFC 4514, 3 has is written by its short name, and its value,
/// if it is a UTF8String, a PrintableString or an IA5String, as its characters, of which those that
/// aren't ASCII aren't escaped. Other types are written as their numbers with points between them,
/// and other values, as a TeletexString, as the hexadecimal digits of their octets after `#`.
///
/// # Errors
/// If an allocation fails.
///
/// # Examples
/// ```
/// let text = name_text(alloc, &certificate.tbs_certificate.subject)?;
/// // `text` is such as "CN=example.org,O=Example,C=DE"
/// ```
pub fn name_text(alloc: Global, name: &Name) -> Result<String, AllocError>
    ensures { IfOk result (λ text. IsNameText name.now (string_bytes text)) }
{
    match name {
        Name::RdnSequence(sequence) => relatives_text(alloc, sequence),
    }
}

/// Returns the text of relative distinguished names, of which the last one is written first.
fn relatives_text(alloc: Global, sequence: &RdnSequence) -> Result<String, AllocError>
    ensures { IfOk result (λ text. AreRelativesText sequence.now.items (string_bytes text)) }
{
    let mut text = String::new(alloc);
    let relatives = sequence.as_slice();
    let mut rest = relatives;
    while let Some((relative, earlier)) = rest.split_last() {
        push_mark(&mut text, ',', rest.len() == relatives.len())?;
        push_relative(&mut text, alloc, relative)?;
        rest = earlier;
    }
    Ok(text)
}

/// Appends a relative distinguished name (RFC 4514, 2.2).
fn push_relative(
    text: &mut String,
    alloc: Global,
    relative: &RelativeDistinguishedName,
) -> Result<(), AllocError>
    ensures { OnOk result (IsAppended (IsRelativeText relative.now.value) (string_bytes text.old) (string_bytes text.new)) }
{
    let attributes = relative.value.as_slice();
    for (place, attribute) in attributes.iter().enumerate() {
        push_mark(text, '+', place == 0)?;
        push_attribute(text, alloc, attribute)?;
    }
    Ok(())
}

/// Appends the character that is before each part but the first.
fn push_mark(text: &mut String, mark: char, is_first: bool) -> Result<(), AllocError>
    ensures { OnOk result (string_bytes text.new ≡ string_bytes text.old ++ (if is_first then [] else encode_utf8 mark)) }
{
    if is_first { Ok(()) } else { text.push(mark) }
}

/// Appends an attribute: its type, `=` and its value (RFC 4514, 2.3).
fn push_attribute(
    text: &mut String,
    alloc: Global,
    attribute: &AttributeTypeAndValue,
) -> Result<(), AllocError>
    ensures { OnOk result (IsAppended (IsAttributeText attribute.now) (string_bytes text.old) (string_bytes text.new)) }
{
    let kind = &attribute.type_value;
    let value = attribute.value.as_bytes();
    match short_name(kind.arcs()) {
        Some(name) => {
            text.push_str(name)?;
            text.push('=')?;
            push_value(text, alloc, value)
        }
        None => {
            write!(text, "{kind}=")?;
            push_octets(text, value)
        }
    }
}

/// Appends the value of an attribute with a short name (RFC 4514, 2.4).
fn push_value(text: &mut String, alloc: Global, octets: &[u8]) -> Result<(), AllocError>
    ensures { OnOk result (IsAppended (IsValueText octets.now) (string_bytes text.old) (string_bytes text.new)) }
{
    if let Some(value) = value_of::<Utf8String>(alloc, octets)? {
        return push_escaped(text, value.as_str());
    }
    if let Some(value) = value_of::<PrintableString>(alloc, octets)? {
        return push_escaped(text, value.as_str());
    }
    if let Some(value) = value_of::<Ia5String>(alloc, octets)? {
        return push_escaped(text, value.as_str());
    }
    push_octets(text, octets)
}

/// Returns the value of a type that all of the octets are in BER, or `None` if they are none.
fn value_of<T: Decode>(alloc: Global, octets: &[u8]) -> Result<Option<T>, AllocError>
    ensures { IfOk result (λ found. MatchOption found (IsNoValue T.shape octets.now) (λ v. IsValue T.shape octets.now (T.tree v))) }
{
    match rasn::decode::<T>(alloc, Codec::Ber, octets) {
        Ok(value) => Ok(Some(value)),
        Err(error) => {
            if error.is_out_of_memory() {
                Err(AllocError)
            } else {
                Ok(None)
            }
        }
    }
}
