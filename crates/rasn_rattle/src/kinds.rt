//! Which types have a file, and how it is written.
use crate::integers::integer_word;
use crate::tags::universal_type;
use rasn_schema::{LeafKind, Type};
use rasn_types::types::{Class, Constraints, Tag};

/// Returns whether a file is written for a type, even if it has no name.
pub(crate) fn has_file(ty: &Type) -> bool {
    match ty {
        Type::Leaf {
            kind,
            tag,
            constraints,
            names,
        } => {
            is_constrained(*kind, constraints)
                || is_extensible(ty)
                || (*kind == LeafKind::NamedBits && !names.is_empty())
                || is_other_string(*kind, *tag)
                || has_other_tag(*tag)
        }
        Type::SequenceOf { constraints, .. } | Type::SetOf { constraints, .. } => {
            *constraints != Constraints::NONE
        }
        Type::Any { tag } => *tag != Tag::EOC && tag.class == Class::Universal,
        Type::Tagged { .. } | Type::Unknown => false,
        _ => true,
    }
}

/// Returns whether a type is an ENUMERATED with an extension marker (X.680 20).
pub(crate) fn is_extensible(ty: &Type) -> bool {
    match ty {
        Type::Leaf {
            kind: LeafKind::Signed64,
            names,
            ..
        } => !names.is_empty(),
        _ => false,
    }
}

/// Returns whether a type that has a name is written as another name of a type.
pub(crate) fn is_alias(ty: &Type) -> bool {
    !has_file(ty) || is_extensible(ty)
}

/// Returns the kind of the type in Rattle of a kind of leaf: that of the octets, where there is none
/// that says what they mean.
pub(crate) fn typed_kind(kind: LeafKind) -> LeafKind {
    match kind {
        LeafKind::Universal => LeafKind::AnyOctets,
        LeafKind::RelativeOid | LeafKind::Real => LeafKind::OctetString,
        LeafKind::Time | LeafKind::Duration | LeafKind::TimeOfDay | LeafKind::DateTime => {
            LeafKind::Visible
        }
        LeafKind::Boolean
        | LeafKind::Null
        | LeafKind::ObjectIdentifier
        | LeafKind::BitString
        | LeafKind::NamedBits
        | LeafKind::OctetString
        | LeafKind::FixedOctetString(_)
        | LeafKind::Integer
        | LeafKind::Signed32
        | LeafKind::Signed64
        | LeafKind::Unsigned32
        | LeafKind::Unsigned64
        | LeafKind::Numeric
        | LeafKind::Printable
        | LeafKind::Visible
        | LeafKind::Ia5
        | LeafKind::AnyOctets
        | LeafKind::Bmp
        | LeafKind::Utf8
        | LeafKind::UtcTime
        | LeafKind::GeneralizedTime
        | LeafKind::Date => kind,
    }
}

/// Returns whether a leaf has a constraint that its type doesn't make.
fn is_constrained(kind: LeafKind, constraints: &Constraints) -> bool {
    let (_word, is_exact) = integer_word(constraints);
    *constraints != Constraints::NONE && !(kind == LeafKind::Integer && is_exact)
}

/// Returns whether a string of any octets has a universal tag for which there is no type.
fn is_other_string(kind: LeafKind, tag: Tag) -> bool {
    typed_kind(kind) == LeafKind::AnyOctets
        && tag.class == Class::Universal
        && !matches!(tag.value, 20 | 25 | 27)
}

/// Returns whether a tag is a universal one that no type has whose values hold no others.
fn has_other_tag(tag: Tag) -> bool {
    tag.class == Class::Universal && tag != Tag::EOC && universal_type(tag).is_none()
}
