//! BIT STRING (X.680 22).

mod bit_iter;
mod bit_str;
mod bit_string;
mod collected;
mod cow_bits;
mod named_bits;
pub(crate) mod packing;

pub use bit_iter::BitIter;
pub use bit_str::BitStr;
pub use bit_string::BitString;
pub use collected::CollectedBits;
pub use cow_bits::CowBits;
pub use named_bits::NamedBits;
