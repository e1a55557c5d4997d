//! Facts worked out by hand. The function does nothing when it runs.
ghost use Rattle.std.specs.Prelude.{◌∷◌, []};
ghost use Rattle.rasn_lint.specs.WellFormed.{IsWellFormed};

/// Proves that `01 01 FF` and a SEQUENCE of it are well formed, and that `01 01 01` and a SEQUENCE
/// of it aren't (X.690 11.1).
#[tactic(auto, using(crate::proofs::Worked::boolean, crate::proofs::Worked::sequence, crate::proofs::Worked::no_boolean, crate::proofs::Worked::no_sequence))]
pub fn worked_encodings()
    ensures boolean { IsWellFormed (1 ∷ 1 ∷ 255 ∷ []) }
    ensures sequence { IsWellFormed (48 ∷ 3 ∷ 1 ∷ 1 ∷ 255 ∷ []) }
    ensures no_boolean { IsWellFormed (1 ∷ 1 ∷ 1 ∷ []) → ⊥ }
    ensures no_sequence { IsWellFormed (48 ∷ 3 ∷ 1 ∷ 1 ∷ 1 ∷ []) → ⊥ }
{}
