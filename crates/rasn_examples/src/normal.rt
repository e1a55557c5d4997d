//! Worked facts about normal encodings.
ghost use Rattle.rasn_examples.specs.WorkedNormals.{WorkedNormals};

/// Proves that encodings have the DER that was worked out by hand. The function does nothing when
/// it runs.
pub fn worked_normals()
    ensures { WorkedNormals }
{}
