//! Types, and the components of those that have some.
ghost use Rattle.std.specs.Prelude.{◌≡◌, ◌≢◌, ℕ, [], codes, slice_get, option_copied};
ghost use Rattle.rasn_types.specs.Truth.{IsWhether};
ghost use Rattle.rasn_schema.specs.Shapes.{shape_of_type, tag_of_type, tag_at, type_by, alternatives_by, is_open, ends_open};
ghost use Rattle.rasn_schema.specs.Schemas.{IsUnknown, components_in};
ghost use Rattle.rasn_schema.specs.Held.{is_unknown, is_unknown_found};
ghost use Rattle.rasn_schema.specs.KindNames.{names_of};

use crate::type_id::TypeId;
use crate::value::Value;
use rasn_types::types::{Constraints, Tag};

/// What a value that holds no other values is.
#[derive(Clone, Copy, Debug, PartialEq, Eq)]
pub enum LeafKind {
    /// A BOOLEAN (X.690 8.2).
    Boolean,
    /// A NULL (X.690 8.8).
    Null,
    /// An OBJECT IDENTIFIER (X.690 8.19).
    ObjectIdentifier,
    /// A BIT STRING (X.690 8.6).
    BitString,
    /// A BIT STRING whose bits have names: trailing 0 bits don't count (X.680 22.7).
    NamedBits,
    /// An OCTET STRING (X.690 8.7).
    OctetString,
    /// An OCTET STRING of so many octets.
    FixedOctetString(usize),
    /// An INTEGER (X.690 8.3).
    Integer,
    /// An INTEGER that an `i32` holds.
    Signed32,
    /// An INTEGER that an `i64` holds.
    Signed64,
    /// An INTEGER that a `u32` holds.
    Unsigned32,
    /// An INTEGER that a `u64` holds.
    Unsigned64,
    /// A NumericString.
    Numeric,
    /// A PrintableString.
    Printable,
    /// A VisibleString.
    Visible,
    /// An IA5String.
    Ia5,
    /// A string of any octets: a GeneralString, GraphicString, TeletexString or VideotexString.
    AnyOctets,
    /// A BMPString.
    Bmp,
    /// A UTF8String.
    Utf8,
    /// A UTCTime (X.690 11.8).
    UtcTime,
    /// A GeneralizedTime (X.690 11.7).
    GeneralizedTime,
    /// A DATE.
    Date,
    /// A UniversalString (X.690 8.23.7).
    Universal,
    /// A RELATIVE-OID (X.690 8.20).
    RelativeOid,
    /// A REAL (X.690 8.5, 11.3).
    Real,
    /// A TIME, the characters of which are checked alone (X.690 8.26).
    Time,
    /// A DURATION, the characters of which are checked alone.
    Duration,
    /// A TIME-OF-DAY: six digits.
    TimeOfDay,
    /// A DATE-TIME: fourteen digits.
    DateTime,
}

/// The number and the names that a kind of leaf has.
#[derive(Clone, Copy, Debug, PartialEq, Eq)]
pub struct KindNames {
    /// The number of its universal tag (X.680 8.4).
    pub number: u32,
    /// Its words in a module.
    pub notation: &'static str,
    /// The range of an INTEGER that a number of fixed width holds, as a module has it. Empty for
    /// any other kind.
    pub range: &'static str,
    /// Its type in Rattle.
    pub rattle: &'static str,
}

impl LeafKind {
    /// Returns the number of the universal tag of a kind, its notation and its type in Rattle. A
    /// string of any octets has those of a GeneralString. The kinds for which there is no type in
    /// Rattle have the one that holds their octets.
    pub fn names(self) -> KindNames
        ensures number { result.number ≡ (names_of self).number }
        ensures notation { result.notation.now ≡ (names_of self).notation }
        ensures range { result.range.now ≡ (names_of self).range }
        ensures rattle { result.rattle.now ≡ (names_of self).rattle }
    {
        match self {
            LeafKind::Boolean => row(1, "BOOLEAN", "bool"),
            LeafKind::Null => row(5, "NULL", "()"),
            LeafKind::ObjectIdentifier => row(6, "OBJECT IDENTIFIER", "ObjectIdentifier"),
            LeafKind::BitString => row(3, "BIT STRING", "BitString"),
            LeafKind::NamedBits => row(3, "BIT STRING", "NamedBits"),
            LeafKind::OctetString => row(4, "OCTET STRING", "OctetString"),
            LeafKind::FixedOctetString(_) => row(4, "OCTET STRING", "FixedOctetString"),
            LeafKind::Integer => integer("Integer", ""),
            LeafKind::Signed32 => integer("i32", "-2147483648..2147483647"),
            LeafKind::Signed64 => integer("i64", "-9223372036854775808..9223372036854775807"),
            LeafKind::Unsigned32 => integer("u32", "0..4294967295"),
            LeafKind::Unsigned64 => integer("u64", "0..18446744073709551615"),
            LeafKind::Numeric => row(18, "NumericString", "NumericString"),
            LeafKind::Printable => row(19, "PrintableString", "PrintableString"),
            LeafKind::Visible => row(26, "VisibleString", "VisibleString"),
            LeafKind::Ia5 => row(22, "IA5String", "Ia5String"),
            LeafKind::AnyOctets => row(27, "GeneralString", "GeneralString"),
            LeafKind::Bmp => row(30, "BMPString", "BmpString"),
            LeafKind::Utf8 => row(12, "UTF8String", "Utf8String"),
            LeafKind::UtcTime => row(23, "UTCTime", "UtcTime"),
            LeafKind::GeneralizedTime => row(24, "GeneralizedTime", "GeneralizedTime"),
            LeafKind::Date => row(31, "DATE", "Date"),
            LeafKind::Universal => row(28, "UniversalString", "GeneralString"),
            LeafKind::RelativeOid => row(13, "RELATIVE-OID", "OctetString"),
            LeafKind::Real => row(9, "REAL", "OctetString"),
            LeafKind::Time => row(14, "TIME", "VisibleString"),
            LeafKind::Duration => row(34, "DURATION", "VisibleString"),
            LeafKind::TimeOfDay => row(32, "TIME-OF-DAY", "VisibleString"),
            LeafKind::DateTime => row(33, "DATE-TIME", "VisibleString"),
        }
    }
}

/// Returns the number and the names of a kind that isn't an INTEGER.
fn row(number: u32, notation: &'static str, rattle: &'static str) -> KindNames
    ensures { (result.number ≡ number) × (result.notation.now ≡ notation.now) × (result.range.now ≡ []) × (result.rattle.now ≡ rattle.now) }
{
    KindNames {
        number,
        notation,
        range: "",
        rattle,
    }
}

/// Returns the number and the names of an INTEGER.
fn integer(rattle: &'static str, range: &'static str) -> KindNames
    ensures { (result.number ≡ 2) × (result.notation.now ≡ codes "INTEGER") × (result.range.now ≡ range.now) × (result.rattle.now ≡ rattle.now) }
{
    KindNames {
        number: 2,
        notation: "INTEGER",
        range,
        rattle,
    }
}

/// A type. Other types that it is made of are named by their numbers in the schema.
#[derive(Drop)]
pub enum Type {
    /// A type whose values hold no other values. The names are those of an INTEGER's numbers, of
    /// those of an ENUMERATED with an extension marker, which is a number of 64 bits with the tag
    /// of ENUMERATED, or of the bits of a BIT STRING (X.680 19.3, 20.1, 22.3).
    Leaf {
        kind: LeafKind,
        tag: Tag,
        constraints: Constraints,
        names: Vec<NamedNumber>,
    },
    /// An ENUMERATED with these numbers (X.680 20).
    Enumerated {
        tag: Tag,
        numbers: Vec<NamedNumber>,
    },
    /// An open type: any value with this tag or, if it is `Tag::EOC`, with any tag.
    Any {
        tag: Tag,
    },
    /// A type with an explicit tag (X.680 31.2).
    Tagged {
        tag: Tag,
        inner: TypeId,
    },
    /// A CHOICE (X.680 29), with the name that errors have for it. Each alternative has a lower
    /// number than the CHOICE. After others, the last alternative may be an open type without a
    /// tag, which is that of values with other tags, since the CHOICE is extensible.
    Choice {
        name: String,
        alternatives: Vec<Alternative>,
    },
    /// A SEQUENCE (X.680 25).
    Sequence {
        tag: Tag,
        components: Vec<Component>,
    },
    /// A SET (X.680 27), with the name that errors have for it. Its components may be listed in any
    /// order: values are written in the order of their tags (X.690 9.3, 10.3).
    Set {
        name: String,
        tag: Tag,
        components: Vec<Component>,
    },
    /// A SEQUENCE OF (X.680 26), with a bound of its size.
    SequenceOf {
        tag: Tag,
        element: TypeId,
        constraints: Constraints,
    },
    /// A SET OF (X.680 28), with a bound of its size.
    SetOf {
        tag: Tag,
        element: TypeId,
        constraints: Constraints,
    },
    /// Values that the type of an extensible SEQUENCE or SET doesn't name (X.680 25, 27): those of
    /// a SEQUENCE come after all others, those of a SET may be anywhere among them. Only the last
    /// component may be such, which is required. The value is a list of the octets of each.
    Unknown,
}

/// A number with a name: of an ENUMERATED or an INTEGER, or of a bit (X.680 19, 20, 22).
#[derive(Drop)]
pub struct NamedNumber {
    /// Its name, as it is written in a module.
    pub name: String,
    /// The number.
    pub number: isize,
}

/// An alternative of a CHOICE.
#[derive(Drop)]
pub struct Alternative {
    /// Its name, as it is written in a module.
    pub name: String,
    /// The number of its type.
    pub type_id: TypeId,
}

/// A component of a SEQUENCE or a SET.
#[derive(Drop)]
pub struct Component {
    /// Its name, as it is written in a module.
    pub name: String,
    /// Whether it may be absent.
    pub presence: Presence,
    /// The number of its type.
    pub type_id: TypeId,
}

/// Whether a component may be absent (X.680 25).
#[derive(Drop)]
pub enum Presence {
    /// It is always present.
    Required,
    /// OPTIONAL.
    Optional,
    /// An extension addition with an explicit tag, which is always present.
    Addition,
    /// DEFAULT: it has this value if it is absent.
    Default(Value<'static>),
}

impl Type {
    /// Returns the type's own tag, or `Tag::EOC` if it has none, such as a CHOICE.
    #[inline(always)]
    pub fn tag(&self) -> Tag
        ensures { result ≡ tag_of_type self.now }
    {
        match self {
            Type::Leaf { tag, .. } => *tag,
            Type::Enumerated { tag, .. } => *tag,
            Type::Any { tag } => *tag,
            Type::Tagged { tag, .. } => *tag,
            Type::Choice { .. } => Tag::EOC,
            Type::Sequence { tag, .. } => *tag,
            Type::Set { tag, .. } => *tag,
            Type::SequenceOf { tag, .. } => *tag,
            Type::SetOf { tag, .. } => *tag,
            Type::Unknown => Tag::EOC,
        }
    }
}

/// Returns the type with this number, if there is one.
#[inline(always)]
pub fn type_at(types: &[Type], id: TypeId) -> Option<&Type>
    ensures { option_copied result ≡ slice_get types.now id.0 }
{
    types.get(id.0)
}

/// Returns the own tag of the type with this number, or `Tag::EOC` if it has none.
#[inline(always)]
pub fn tag_at(types: &[Type], id: TypeId) -> Tag
    ensures { result ≡ tag_at types.now id.0 }
{
    match type_at(types, id) {
        Some(ty) => ty.tag(),
        None => Tag::EOC,
    }
}

/// Returns whether the type with this number is an open type without a tag.
pub fn is_open_at(types: &[Type], levels: usize, id: TypeId) -> bool
    ensures { result ≡ is_open (shape_of_type types.now levels id.0) }
{
    if levels == 0 {
        return false;
    }
    match type_at(types, id) {
        Some(ty) => is_open(ty),
        None => false,
    }
}

fn is_open(ty: &Type) -> bool
    ensures { (f : _) → result ≡ is_open (type_by f ty.now) }
{
    match ty {
        Type::Any { tag } => *tag == Tag::EOC,
        _ => false,
    }
}

/// Returns whether the last of the alternatives is an open type without a tag (X.680 29).
pub fn ends_open(types: &[Type], levels: usize, alternatives: &[Alternative]) -> bool
    ensures { result ≡ ends_open (alternatives_by (shape_of_type types.now levels) alternatives.now) }
{
    match alternatives.last() {
        Some(last) => is_open_at(types, levels, last.type_id),
        None => false,
    }
}

fn is_unknown(ty: &Type) -> bool
    ensures found { result ≡ is_unknown ty.now }
    ensures shape { (f : _) → IsWhether result (IsUnknown (type_by f ty.now)) }
{
    match ty {
        Type::Unknown => true,
        _ => false,
    }
}

/// Returns whether the type with this number is that of unknown values (X.680 25).
pub fn is_unknown_at(types: &[Type], id: TypeId) -> bool
    ensures found { result ≡ is_unknown_found (slice_get types.now id.0) }
    ensures shape { (levels : ℕ) → levels ≢ 0 → IsWhether result (IsUnknown (shape_of_type types.now levels id.0)) }
{
    match type_at(types, id) {
        Some(ty) => is_unknown(ty),
        None => false,
    }
}

/// Returns the components of a SEQUENCE or a SET. Any other type has none.
pub fn components_of(ty: &Type) -> &[Component]
    ensures { result.now ≡ components_in ty.now }
{
    match ty {
        Type::Sequence { components, .. } => components.as_slice(),
        Type::Set { components, .. } => components.as_slice(),
        _ => &[],
    }
}
