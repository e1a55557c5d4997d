//! REAL, which this codec neither reads nor writes.

/// A type that represents a REAL. Its values are neither read nor written.
pub trait RealType: Drop {}
