//! The parts of a SEQUENCE or a SET and the alternatives of a CHOICE, as types, with which your own
//! types are read and written.
pub use rasn_de::ber::de::alternatives::DecodeAlternatives;
pub use rasn_de::ber::de::parts::{
    Addition, DecodeParts, Defaulted, DefaultedChoice, DefaultedExplicit, Optional, OptionalChoice,
    Required,
};
pub use rasn_de::ber::de::set_parts::DecodeSetParts;
pub use rasn_enc::ber::enc::alternatives::EncodeAlternative;
pub use rasn_enc::ber::enc::parts::{
    EncodeParts, Put, PutAddition, PutDefault, PutDefaultChoice, PutDefaultExplicit, PutOptional,
    PutOptionalChoice,
};
pub use rasn_enc::ber::enc::set_parts::{EncodeSetParts, LeastTag, PutChoice};
pub use rasn_types::types::{DefaultValue, End, ExplicitDefault, Last, OneOf};
