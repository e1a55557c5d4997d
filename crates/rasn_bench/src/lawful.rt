//! A proof that the types of lines are lawful.
ghost use Rattle.rasn_bench.specs.LawfulLines.{AreLawfulInLines};

/// Proves that the shape of each type that a line may name is lawful, and that every value of it
/// that DER reads is carried. The function does nothing when it runs.
pub fn lawful_in_lines()
    ensures { AreLawfulInLines }
{}
