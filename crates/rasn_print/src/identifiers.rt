//! The names of object identifiers and of universal types.

use crate::identifier_names;
use crate::known::Known;
use rasn_text::short_name;
use rasn_types::types::ObjectIdentifier;
use std::alloc::{AllocError, Global};
use std::cmp::Ordering;

/// The numbers of universal tags, and the names of their types (X.680 8.4).
const UNIVERSAL: &[(u32, &str)] = &[
    (1, "BOOLEAN"),
    (2, "INTEGER"),
    (3, "BIT STRING"),
    (4, "OCTET STRING"),
    (5, "NULL"),
    (6, "OBJECT IDENTIFIER"),
    (7, "ObjectDescriptor"),
    (8, "EXTERNAL"),
    (9, "REAL"),
    (10, "ENUMERATED"),
    (11, "EMBEDDED PDV"),
    (12, "UTF8String"),
    (13, "RELATIVE-OID"),
    (14, "TIME"),
    (16, "SEQUENCE"),
    (17, "SET"),
    (18, "NumericString"),
    (19, "PrintableString"),
    (20, "TeletexString"),
    (21, "VideotexString"),
    (22, "IA5String"),
    (23, "UTCTime"),
    (24, "GeneralizedTime"),
    (25, "GraphicString"),
    (26, "VisibleString"),
    (27, "GeneralString"),
    (28, "UniversalString"),
    (29, "CHARACTER STRING"),
    (30, "BMPString"),
    (31, "DATE"),
    (32, "TIME-OF-DAY"),
    (33, "DATE-TIME"),
    (34, "DURATION"),
];

/// Returns an object identifier as text: with its name, if it has one, before its arcs, as in
/// `sha256WithRSAEncryption (1.2.840.113549.1.1.11)`, and as an instance of an object of SNMP, as in
/// `sysUpTime.0 (1.3.6.1.2.1.1.3.0)`.
pub(crate) fn identifier_text(
    alloc: Global,
    known: &Known<'_>,
    identifier: &ObjectIdentifier,
) -> Result<String, AllocError> {
    if let Some(name) = known.identifier_name(identifier) {
        return format!(in alloc; "{name} ({identifier})");
    }
    let Some((object, instance)) = instance_of(identifier.arcs()) else {
        return identifier.to_string(alloc);
    };
    let mut text = String::from_str(alloc, object)?;
    for arc in instance {
        write!(text, ".{arc}")?;
    }
    write!(text, " ({identifier})")?;
    Ok(text)
}

/// Returns the short name of an attribute type (RFC 4514 3), or else its name.
pub(crate) fn attribute_name<'known>(
    known: &'known Known<'_>,
    kind: &ObjectIdentifier,
) -> Option<&'known str> {
    match short_name(kind.arcs()) {
        Some(name) => Some(name),
        None => known.identifier_name(kind),
    }
}

/// Returns the name that a module of this repository has for the identifier with these arcs.
pub(crate) fn built_in_name(arcs: &[u32]) -> Option<&'static str> {
    let mut lines = identifier_names::lines();
    // Each step leaves half of them at most.
    for _ in 0..usize::BITS {
        let (before, line, after) = middle_of(lines)?;
        let (known, name) = line.split_once(' ')?;
        match order_of(known, arcs) {
            Ordering::Less => lines = after,
            Ordering::Equal => return Some(name),
            Ordering::Greater => lines = before,
        }
    }
    None
}

/// Returns the line in the middle of these, and those before and after it.
fn middle_of(lines: &'static str) -> Option<(&'static str, &'static str, &'static str)> {
    let (left, _) = lines.split_at_checked(lines.len() / 2)?;
    let start = left.rfind('\n').map_or(0, |end| end.saturating_add(1));
    let (before, rest) = lines.split_at_checked(start)?;
    let (line, after) = rest.split_once('\n')?;
    Some((before, line, after))
}

/// Returns the order of the arcs in a text and of these.
fn order_of(text: &str, arcs: &[u32]) -> Ordering {
    let known = text.split('.').map(|arc| arc.parse::<u32>().unwrap_or(0));
    known.cmp(arcs.iter().copied())
}

/// Returns the name of the object of SNMP of which an instance has these arcs, and those of its arcs
/// that are the instance's (RFC 2578 7.7). Objects are below mib-2 and snmpModules.
fn instance_of(arcs: &[u32]) -> Option<(&'static str, &[u32])> {
    let [1, 3, 6, 1, 2 | 6, 1 | 3, _, instance @ ..] = arcs else {
        return None;
    };
    for count in 1..=instance.len() {
        let (object, instance) = arcs.split_at_checked(arcs.len().saturating_sub(count))?;
        if let Some(name) = built_in_name(object) {
            return Some((name, instance));
        }
    }
    None
}

/// Returns the name of the type with this universal tag.
pub(crate) fn universal_name(number: u32) -> Option<&'static str> {
    for (known, name) in UNIVERSAL {
        if *known == number {
            return Some(*name);
        }
    }
    None
}
