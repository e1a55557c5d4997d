//! ENUMERATED as a type.
ghost use Rattle.std.specs.Prelude.{◌≡◌, Contains, MatchOption};

/// A type of named numbers that is read from and written as an ENUMERATED (X.690 8.4, X.680 20).
pub trait Enumerated: Drop {
    ghost use Rattle.std.specs.Prelude.{◌≡◌, ℤ, List, Contains, true};
    ghost use Rattle.rasn_types.specs.Numbered.{fit_isize};

    /// The numbers that the type names.
    ghost known: { List ℤ };

    /// The number of a value.
    ghost number: { Self → ℤ };

    /// Returns the number of the value.
    fn discriminant(&self) -> isize
        ensures { result ≡ number self.now };

    /// Returns the value with this number, or `None` if the type doesn't name the number.
    fn from_discriminant(discriminant: isize) -> Option<Self>
        ensures { MatchOption result (Contains known discriminant → ⊥) (λ v. number v ≡ discriminant) };

    /// The proof that the type names the number of each value.
    ghost listed: { (v : Self) → Contains known (number v) };

    /// The proof that no two values have the same number, so that `from_discriminant` returns the
    /// value that `discriminant` was called on.
    ghost distinct: { (v : Self) → (w : Self) → number v ≡ number w → v ≡ w };

    /// The proof that the numbers fit in 64 bits.
    ghost fits: { fit_isize known ≡ true };
}
