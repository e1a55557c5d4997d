//! Times as text (X.680 46, 47; X.690 11.7, 11.8; RFC 3339).

mod parse;
mod rfc3339;
mod text;
mod write;

pub use parse::{
    parse_canonical_generalized_time, parse_canonical_utc_time, parse_date, parse_generalized_time,
    parse_strict_generalized_time, parse_utc_time,
};
pub use write::{write_date, write_generalized_time, write_utc_time};
