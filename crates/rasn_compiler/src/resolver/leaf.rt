//! Types that reserved words name.
use crate::tree::Builtin;
use rasn_schema::LeafKind;
use rasn_types::types::{Class, Tag};

/// What a schema has for a type.
#[derive(Clone, Copy)]
pub(crate) enum Plain {
    Leaf(LeafKind),
    /// A string of any octets whose universal tag has this number.
    Octets(u32),
    /// A leaf of this kind whose universal tag has this number: only its characters are checked.
    Unparsed(LeafKind, u32),
    /// Any constructed value with the type's tag: its contents aren't looked into. The universal
    /// one has this number.
    Unseen(u32),
    /// Any value.
    Open,
}

/// Returns what a schema has for a type that reserved words name (X.680 table 1, table 8). Of the
/// times of X.680 38 except DATE, and of resource identifiers, only the characters are checked
/// (X.690 8.21, 8.22, 8.26).
pub(crate) fn plain_type(builtin: Builtin) -> Plain {
    match builtin {
        Builtin::Any => Plain::Open,
        Builtin::Boolean => Plain::Leaf(LeafKind::Boolean),
        Builtin::OctetString => Plain::Leaf(LeafKind::OctetString),
        Builtin::Null => Plain::Leaf(LeafKind::Null),
        Builtin::ObjectIdentifier => Plain::Leaf(LeafKind::ObjectIdentifier),
        Builtin::ObjectDescriptor => Plain::Octets(7),
        Builtin::External => Plain::Unseen(8),
        Builtin::Real => Plain::Leaf(LeafKind::Real),
        Builtin::EmbeddedPdv => Plain::Unseen(11),
        Builtin::Utf8String => Plain::Leaf(LeafKind::Utf8),
        Builtin::RelativeObjectIdentifier => Plain::Leaf(LeafKind::RelativeOid),
        Builtin::Time => Plain::Unparsed(LeafKind::Time, 14),
        Builtin::NumericString => Plain::Leaf(LeafKind::Numeric),
        Builtin::PrintableString => Plain::Leaf(LeafKind::Printable),
        Builtin::TeletexString => Plain::Octets(20),
        Builtin::VideotexString => Plain::Octets(21),
        Builtin::Ia5String => Plain::Leaf(LeafKind::Ia5),
        Builtin::UtcTime => Plain::Leaf(LeafKind::UtcTime),
        Builtin::GeneralizedTime => Plain::Leaf(LeafKind::GeneralizedTime),
        Builtin::GraphicString => Plain::Octets(25),
        Builtin::VisibleString => Plain::Leaf(LeafKind::Visible),
        Builtin::GeneralString => Plain::Octets(27),
        Builtin::UniversalString => Plain::Leaf(LeafKind::Universal),
        Builtin::CharacterString => Plain::Unseen(29),
        Builtin::BmpString => Plain::Leaf(LeafKind::Bmp),
        Builtin::Date => Plain::Leaf(LeafKind::Date),
        Builtin::TimeOfDay => Plain::Unparsed(LeafKind::TimeOfDay, 32),
        Builtin::DateTime => Plain::Unparsed(LeafKind::DateTime, 33),
        Builtin::Duration => Plain::Unparsed(LeafKind::Duration, 34),
        Builtin::ObjectIdentifierIri => Plain::Unparsed(LeafKind::Utf8, 35),
        Builtin::RelativeObjectIdentifierIri => Plain::Unparsed(LeafKind::Utf8, 36),
    }
}

/// Returns a universal tag.
pub(crate) fn universal(value: u32) -> Tag {
    Tag {
        class: Class::Universal,
        value,
    }
}
