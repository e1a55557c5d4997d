//! Example types, as users of the crate `rasn` write them, with their proofs and facts about them.
#![tactic(auto)]

mod algorithm;
mod attribute;
mod both;
mod colour;
mod event;
mod grouped;
mod lawful;
mod normal;
mod pair;
mod reason;
mod set3;
mod setting;
mod time;

pub use algorithm::AlgorithmIdentifier;
pub use attribute::AttributeTypeAndValue;
pub use both::Both;
pub use colour::Colour;
pub use event::Event;
pub use grouped::{Group, Grouped};
pub use lawful::{lawful_both, lawful_types};
pub use normal::worked_normals;
pub use pair::Pair;
use rasn::types::{Ia5String, SetOf};
pub use reason::Reason;
pub use set3::Set3;
pub use setting::{Setting, Seven};
pub use time::Time;

/// SEQUENCE { name IA5String, truth BOOLEAN }
pub type NamedFlag = Both<Ia5String, bool>;

/// SET OF AttributeTypeAndValue (RFC 5280, 4.1.2.4)
pub type RelativeDistinguishedName = SetOf<AttributeTypeAndValue>;

/// SEQUENCE { notBefore Time, notAfter Time } (RFC 5280, 4.1)
pub type Validity = Both<Time, Time>;
