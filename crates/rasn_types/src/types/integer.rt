//! INTEGER: whole numbers of a fixed width, and of any length.
ghost use Rattle.std.specs.Prelude.{◌≡◌, ◌<◌, length, IfOk, IfErr};
ghost use Rattle.rasn_types.specs.Contents.{signed};
ghost use Rattle.rasn_types.specs.Options.{IsSomeMeaningExactlyIf};
ghost use Rattle.rasn_types.specs.Shapes.{IsIn};
ghost use Rattle.rasn_types.specs.Trees.{IsShortestOf};

mod signed;
mod small_octets;
mod unbounded;
mod unsigned;

use std::alloc::{AllocError, Global};
pub use unbounded::Integer;

/// The highest number of octets of a whole number of a fixed width (X.690 8.3), which the highest
/// values of a `u128` take.
pub const LONGEST_NUMBER: usize = 17;

/// A type of whole numbers that is read from and written as an INTEGER (X.690 8.3).
pub trait IntegerType: Drop {
    ghost use Rattle.std.specs.Prelude.{ℕ, ℤ};
    ghost use Rattle.rasn_types.specs.Shapes.{Interval};

    ghost WIDTH: { ℕ };

    /// The width of the type in bits, or 0 if it is unbounded.
    const WIDTH: u32;

    /// The numbers that the type has.
    ghost range: { Interval };

    /// The number of a value.
    ghost number: { Self → ℤ };

    /// The numbers whose values need an allocation.
    ghost takes_memory: { ℤ → Type 0 };

    /// Returns the number that octets represent in two's complement, or `None` if the type doesn't
    /// have this number.
    ///
    /// # Errors
    /// If an allocation fails, for a number whose value needs one.
    fn from_octets(alloc: Global, octets: &[u8]) -> Result<Option<Self>, AllocError>
        requires { 0 < length octets.now }
        ensures ok { IfOk result (λ v. IsSomeMeaningExactlyIf number v (IsIn range (signed octets.now)) (signed octets.now)) }
        ensures memory { IfErr result (λ _. takes_memory (signed octets.now)) };

    /// Returns the number in two's complement, in the fewest octets. The octets are those of the
    /// value itself, or are written to `room`.
    fn octets<'a>(&'a self, room: &'a mut [u8; LONGEST_NUMBER]) -> &'a [u8]
        ensures exact { IsShortestOf (number self.now) result.now }
        ensures held { IsIn range (number self.now) };
}
