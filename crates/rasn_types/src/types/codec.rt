//! The name of a set of encoding rules.

/// The encoding rules that a value is read or written by.
#[derive(Clone, Copy, Debug, PartialEq, Eq, PartialOrd, Ord, Hash)]
pub enum Codec {
    /// Basic encoding rules (X.690 8).
    Ber,
    /// Canonical encoding rules (X.690 9, 11).
    Cer,
    /// Distinguished encoding rules (X.690 10, 11).
    Der,
}
