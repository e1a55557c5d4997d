//! The names that a constant with types uses.
pub use crate::LeafKind::{
    AnyOctets, BitString, Bmp, Boolean, Date, FixedOctetString, GeneralizedTime, Ia5, Integer,
    NamedBits, Null, Numeric, ObjectIdentifier, OctetString, Printable, Signed32, Signed64,
    Unsigned32, Unsigned64, UtcTime, Utf8, Visible,
};
pub use crate::constants::StaticPresence::{Addition, Default, Optional, Required};
pub use crate::constants::StaticType::{
    Any, Choice, Enumerated, Leaf, Sequence, SequenceOf, Set, SetOf, Tagged, Unknown,
};
pub use crate::constants::StaticValue::{Empty, Number, Truth};
pub use crate::constants::{
    HasSchema, StaticAlternative, StaticComponent, StaticNumber, StaticType,
};
pub use crate::{size, tag, value};
pub use rasn_types::types::{Bound, Bounded, Class, Constraints, Tag};

/// No constraint.
pub const NONE: Constraints = Constraints::NONE;
