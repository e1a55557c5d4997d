//! Bits that are borrowed or owned.
ghost use Rattle.std.specs.Prelude.{◌≡◌};
ghost use Rattle.rasn_types.specs.CowBits.{cow_bits, significant_cow};

use crate::types::bits::{BitStr, BitString, NamedBits};

/// A list of bits that is borrowed or owned, as `CowSlice` is a list of items.
#[derive(Debug, Drop)]
pub enum CowBits<'a> {
    /// Borrowed bits, such as those of a primitive encoding.
    Borrowed(BitStr<'a>),
    /// Bits of its own.
    Owned(BitString),
}

impl<'a> CowBits<'a> {
    /// Returns a view of all its bits.
    pub fn as_bitstr(&self) -> BitStr<'_>
        ensures { result ≡ cow_bits self.now }
    {
        match self {
            CowBits::Borrowed(bits) => return bits.all(),
            CowBits::Owned(bits) => return bits.as_bitstr(),
        }
    }

    /// Returns the bits up to the last that is 1 (X.680 22.7), without a copy.
    pub fn into_significant(self) -> CowBits<'a>
        ensures { result ≡ significant_cow self.entry }
    {
        match self {
            CowBits::Borrowed(bits) => {
                let (front, _) = bits.split_at(bits.significant_len());
                return CowBits::Borrowed(front);
            }
            CowBits::Owned(bits) => {
                return CowBits::Owned(NamedBits::new(bits).into_bit_string());
            }
        }
    }
}
