//! Types that a constant can hold.
use crate::LeafKind;
use rasn_types::types::{Constraints, Tag};

/// A type of a schema that is a constant, with the same variants as [`crate::Type`]. Other
/// types that it is made of are named by their numbers.
#[derive(Clone, Copy, Debug)]
pub enum StaticType {
    /// A type whose values hold no other values: its kind, its tag, its constraints, and the names
    /// of its numbers or bits.
    Leaf(LeafKind, Tag, Constraints, &'static [StaticNumber]),
    /// An ENUMERATED (X.680 20): its tag and its numbers.
    Enumerated(Tag, &'static [StaticNumber]),
    /// An open type: the tag of its values, or `Tag::EOC` if they may have any.
    Any(Tag),
    /// A type with an explicit tag (X.680 31.2): the tag and the inner type.
    Tagged(Tag, usize),
    /// A CHOICE (X.680 29): its name and its alternatives.
    Choice(&'static str, &'static [StaticAlternative]),
    /// A SEQUENCE (X.680 25): its tag and its components.
    Sequence(Tag, &'static [StaticComponent]),
    /// A SET (X.680 27): its name, its tag and its components.
    Set(&'static str, Tag, &'static [StaticComponent]),
    /// A SEQUENCE OF (X.680 26): its tag, the type of its elements, and its constraints.
    SequenceOf(Tag, usize, Constraints),
    /// A SET OF (X.680 28): its tag, the type of its elements, and its constraints.
    SetOf(Tag, usize, Constraints),
    /// Values that an extensible SEQUENCE or SET doesn't name (X.680 25, 27).
    Unknown,
}

/// A number with its name, as that is written in a module.
pub type StaticNumber = (&'static str, isize);

/// An alternative of a CHOICE: its name, as it is written in a module, and its type.
pub type StaticAlternative = (&'static str, usize);

/// A component of a SEQUENCE or a SET: its name, as it is written in a module, whether it may be
/// absent, and its type.
pub type StaticComponent = (&'static str, StaticPresence, usize);

/// Whether a component may be absent (X.680 25).
#[derive(Clone, Copy, Debug)]
pub enum StaticPresence {
    /// It is always present.
    Required,
    /// OPTIONAL.
    Optional,
    /// An extension addition with an explicit tag, which is always present.
    Addition,
    /// DEFAULT: it has this value if it is absent.
    Default(StaticValue),
}

/// A default that a constant can hold.
#[derive(Clone, Copy, Debug)]
pub enum StaticValue {
    /// A BOOLEAN.
    Truth(bool),
    /// The number of an INTEGER or an ENUMERATED.
    Number(i64),
    /// A list without elements.
    Empty,
}
