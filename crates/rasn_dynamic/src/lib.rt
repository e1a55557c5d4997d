//! Reads and writes values of a type that is known only when the program runs: a type of a
//! [`Schema`](rasn_schema::Schema).
//!
//! One reader and one writer serve every ASN.1 type. What they promise is what the reader and the
//! writer of a type written in Rattle do.
#![tactic(auto)]

mod components;
mod entry;
mod facts;
mod find;
mod kept;
mod leads_to;
mod locate;
mod made;
mod message;
mod nested;
mod order;
mod part;
mod path;
mod path_text;
mod place;
mod read_leaf;
mod reader;
mod refusal;
mod refuse;
mod set;
mod span;
mod steps;
mod trace;
mod types;
mod unfit;
mod walk;
mod write_leaf;
mod writer;

pub use entry::{
    WriteError, check, decode, decode_with_remainder, encode, encode_buf, is_canonical, normalise,
};
pub use facts::{parts_determined, worked_faults, worked_parts, worked_places, worked_times};
pub use find::find_part;
pub use leads_to::component_at;
pub use locate::{check_or_locate, decode_or_locate};
pub use message::{ListedParts, MessageParts, open_parts_of, parts_of};
pub use part::Part;
pub use path::ValuePath;
pub use path_text::steps_of;
pub use rasn::NormaliseError;
pub use rasn_schema::fits;
pub use refusal::{NamedRefusal, Refusal};
pub use span::Span;
pub use steps::{Step, path_named};
