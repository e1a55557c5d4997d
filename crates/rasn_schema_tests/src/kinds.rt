//! Kinds of leaves.

use rasn_schema::LeafKind;

/// Kinds with the numbers of their universal tags (X.680 8.4, table 1) and their notation.
const KINDS: &[(LeafKind, u32, &str)] = &[
    (LeafKind::Boolean, 1, "BOOLEAN"),
    (LeafKind::Integer, 2, "INTEGER"),
    (LeafKind::Unsigned32, 2, "INTEGER"),
    (LeafKind::NamedBits, 3, "BIT STRING"),
    (LeafKind::FixedOctetString(4), 4, "OCTET STRING"),
    (LeafKind::Null, 5, "NULL"),
    (LeafKind::ObjectIdentifier, 6, "OBJECT IDENTIFIER"),
    (LeafKind::Utf8, 12, "UTF8String"),
    (LeafKind::Numeric, 18, "NumericString"),
    (LeafKind::Printable, 19, "PrintableString"),
    (LeafKind::Ia5, 22, "IA5String"),
    (LeafKind::UtcTime, 23, "UTCTime"),
    (LeafKind::GeneralizedTime, 24, "GeneralizedTime"),
    (LeafKind::Visible, 26, "VisibleString"),
    (LeafKind::AnyOctets, 27, "GeneralString"),
    (LeafKind::Bmp, 30, "BMPString"),
    (LeafKind::Date, 31, "DATE"),
    (LeafKind::Universal, 28, "UniversalString"),
    (LeafKind::RelativeOid, 13, "RELATIVE-OID"),
    (LeafKind::Real, 9, "REAL"),
    (LeafKind::Time, 14, "TIME"),
    (LeafKind::Duration, 34, "DURATION"),
    (LeafKind::TimeOfDay, 32, "TIME-OF-DAY"),
    (LeafKind::DateTime, 33, "DATE-TIME"),
];

fn are_named_so() -> bool {
    for (kind, number, notation) in KINDS {
        let names = kind.names();
        if names.number != *number || names.notation != *notation {
            return false;
        }
    }
    true
}

#[test]
fn kinds_have_their_universal_tags(rt: HostRuntime) {
    assert!(rt; are_named_so());
}
