//! ASN.1 types as data: types that are known only when the program runs, the rules that they have
//! to keep (X.680), and values of them.
//!
//! A [`Schema`] is a list of types that refer to one another by number, so that types may be
//! recursive. [`Schema::new`] checks each type once.
#![tactic(auto)]

mod begin;
pub mod constants;
mod copy;
mod defaults;
mod equal;
mod error;
mod facts;
mod first_tags;
mod fit;
mod fitting;
mod innermost;
mod named;
mod notation;
mod numbers;
mod octets;
mod real;
mod real_binary;
mod real_decimal;
mod relative;
mod rules;
mod schema;
mod time_text;
mod type_id;
mod types;
mod universal;
mod value;
mod view;
mod walk;

pub use begin::{alternative_for, begins, is_choice_at};
pub use defaults::unfit_default_at;
pub use error::SchemaError;
pub use facts::{worked_fitting, worked_held, worked_leaves, worked_rules};
pub use fit::{elements_of, is_left_out, items_of};
pub use fitting::{component_fits, fits, fits_at, is_listed, leaf_fits};
pub use innermost::{Innermost, innermost_at};
pub use named::{Named, TypeName, index_named, name_of_number};
pub use real::{Real, canonical_real, contents_of_f64, is_canonical_real};
pub use real_binary::contents_of_binary;
pub use real_decimal::contents_of_decimal;
pub use relative::RelativeOid;
pub use rules::broken_rule_at;
pub use schema::Schema;
pub use time_text::{TimeDigits, are_time_digits, is_time_text, time_digits};
pub use type_id::TypeId;
pub use types::{
    Alternative, Component, KindNames, LeafKind, NamedNumber, Presence, Type, components_of,
    is_unknown_at, tag_at, type_at,
};
pub use universal::{universal_octets, universal_text};
pub use value::Value;
pub use view::{View, part_name, part_type};
