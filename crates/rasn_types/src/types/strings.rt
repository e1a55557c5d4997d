//! The restricted character string types (X.680 41), and OCTET STRING of a fixed size.
mod alphabet;
mod bmp;
mod fixed;
mod restricted;
mod utf8;

pub use alphabet::Alphabet;
pub use bmp::{BmpString, Units};
pub use fixed::FixedOctetString;
pub use restricted::{
    AsciiType, GeneralString, GeneralType, GraphicString, GraphicType, Ia5String, Ia5Type,
    NumericString, NumericType, PrintableString, PrintableType, RestrictedString, StringType,
    TeletexString, TeletexType, VisibleString, VisibleType,
};
pub use utf8::Utf8String;
