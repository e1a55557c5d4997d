//! The items that your own types need: `use rasn::prelude::*;`.

pub use crate::WholeMessage;
pub use crate::parts::{
    Addition, DecodeAlternatives, DecodeParts, DecodeSetParts, DefaultValue, Defaulted,
    DefaultedChoice, DefaultedExplicit, EncodeAlternative, EncodeParts, EncodeSetParts, End,
    ExplicitDefault, Last, LeastTag, OneOf, Optional, OptionalChoice, Put, PutAddition, PutChoice,
    PutDefault, PutDefaultChoice, PutDefaultExplicit, PutOptional, PutOptionalChoice, Required,
};
pub use crate::types::{
    Alphabet, Any, ApplicationTag, AsnType, BitStr, BitString, BmpString, Bound, Bounded, Class,
    Codec, Constraints, Constructed, ContextTag, Date, Enumerated, Explicit, Extensible, Field,
    FieldPresence, Fields, FirstTags, FixedOctetString, GeneralString, GeneralizedTime,
    GraphicString, Ia5String, Identifier, Implicit, Integer, IntegerType, LawfulEq, NamedBits,
    NumericString, ObjectIdentifier, OctetString, Present, PrintableString, PrivateTag, SetOf, Tag,
    TeletexString, TryClone, Unknown, UtcTime, Utf8String, VisibleString,
};
pub use rasn_de::ber::de::Decoder;
pub use rasn_de::de::{Decode, DecodeChoice, Error};
pub use rasn_enc::ber::enc::Encoder;
pub use rasn_enc::enc::Encode;
pub use rasn_types::error::{DecodeError, EncodeError};
