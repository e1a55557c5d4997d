//! Values and schema: tags, constraints, and the types that the codec reads and writes.

mod any;
mod asn_type;
pub(crate) mod bits;
mod codec;
mod constraints;
mod constructed;
mod date;
mod enumerated;
mod extensible;
mod fields;
mod first_tags;
mod generalized_time;
mod identifier;
mod integer;
mod lawful_eq;
mod null;
mod object_identifier;
mod octet_string;
mod optional;
mod parts;
mod prefix;
mod real;
mod sequence_of;
mod set_of;
mod strings;
mod tag;
mod tag_types;
mod try_clone;
mod twos_complement;
mod unknown;
mod utc_time;

pub use crate::hexadecimal::Hexadecimal;
pub use any::Any;
pub use asn_type::AsnType;
pub use bits::{BitIter, BitStr, BitString, CowBits, NamedBits};
pub use codec::Codec;
pub use constraints::{Bound, Bounded, Constraints};
pub use constructed::Constructed;
pub use date::Date;
pub use enumerated::Enumerated;
pub use extensible::Extensible;
pub use fields::{Field, FieldPresence, Fields, HasPresence};
pub use first_tags::FirstTags;
pub use generalized_time::GeneralizedTime;
pub use identifier::Identifier;
pub use integer::{Integer, IntegerType, LONGEST_NUMBER};
pub use lawful_eq::{LawfulEq, Present};
pub use object_identifier::ObjectIdentifier;
pub use octet_string::OctetString;
pub use parts::{DefaultValue, End, ExplicitDefault, Last, OneOf};
pub use prefix::{Explicit, Implicit};
pub use real::RealType;
pub use set_of::SetOf;
pub use strings::{
    Alphabet, AsciiType, BmpString, FixedOctetString, GeneralString, GeneralType, GraphicString,
    GraphicType, Ia5String, Ia5Type, NumericString, NumericType, PrintableString, PrintableType,
    RestrictedString, StringType, TeletexString, TeletexType, Units, Utf8String, VisibleString,
    VisibleType,
};
pub use tag::{Class, Tag};
pub use tag_types::{ApplicationTag, ContextTag, PrivateTag};
pub use try_clone::TryClone;
pub use twos_complement::{i64_octets, repeats_sign, shortest, signed_i128};
pub use unknown::Unknown;
pub use utc_time::UtcTime;
