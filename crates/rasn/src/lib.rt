//! Basic, canonical and distinguished encoding rules of ASN.1 (ITU-T X.690): values, traits and
//! entry points in one crate.
#![tactic(auto)]

pub mod ber;
pub mod cer;
pub mod der;
mod entry;
pub mod laws;
mod message;
mod normal;
pub mod open_type;
pub mod parts;
pub mod prelude;
pub mod refusal_laws;
pub mod time_laws;
pub mod types;

pub use entry::{decode, decode_with_remainder, refuse_remainder};
pub use message::WholeMessage;
pub use normal::{NormaliseError, normalise, same_exactly_if_equal};
pub use rasn_de::ber::de::Decoder;
pub use rasn_de::de;
pub use rasn_de::de::Decode;
pub use rasn_enc::ber::enc::Encoder;
pub use rasn_enc::enc;
pub use rasn_enc::enc::Encode;
pub use rasn_types::error;
pub use rasn_types::types::{AsnType, Codec, Tag};
