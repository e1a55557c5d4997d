//! Schemas that are constants: the types of a crate as data, whose shapes are proved to be those of
//! its Rattle types.
//!
//! `soqavise generate` writes such a constant beside the types that it writes. [`types_of`] makes of it
//! the types of a [`crate::Schema`].
//!
//! ```
//! use rasn_schema::constants::prelude::*;
//!
//! /// Type 2 is `SEQUENCE { x [0] INTEGER (0..127), label UTF8String OPTIONAL }`.
//! const TYPES: &[StaticType] = &[
//!     Leaf(Integer, tag!(Context, 0), value!(0..=127), &[]),
//!     Leaf(Utf8, Tag::UTF8_STRING, NONE, &[]),
//!     Sequence(Tag::SEQUENCE, &[("x", Required, 0), ("label", Optional, 1)]),
//! ];
//! ```
mod has_schema;
mod macros;
mod made;
pub mod prelude;
mod types;

pub use has_schema::HasSchema;
pub use made::types_of;
pub use types::{
    StaticAlternative, StaticComponent, StaticNumber, StaticPresence, StaticType, StaticValue,
};
