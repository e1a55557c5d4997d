//! The types of ASN.1 values, their tags and their constraints.

pub use rasn_de::de::DecodeChoice;
pub use rasn_types::types::{
    Alphabet, Any, ApplicationTag, AsciiType, AsnType, BitIter, BitStr, BitString, BmpString,
    Bound, Bounded, Class, Codec, Constraints, Constructed, ContextTag, Date, Enumerated, Explicit,
    Extensible, Field, FieldPresence, Fields, FirstTags, FixedOctetString, GeneralString,
    GeneralType, GeneralizedTime, GraphicString, GraphicType, HasPresence, Hexadecimal, Ia5String,
    Ia5Type, Identifier, Implicit, Integer, IntegerType, LONGEST_NUMBER, LawfulEq, NamedBits,
    NumericString, NumericType, ObjectIdentifier, OctetString, Present, PrintableString,
    PrintableType, PrivateTag, RealType, RestrictedString, SetOf, StringType, Tag, TeletexString,
    TeletexType, TryClone, Units, Unknown, UtcTime, Utf8String, VisibleString, VisibleType,
};
