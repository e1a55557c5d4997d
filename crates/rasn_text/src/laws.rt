//! Facts of the definitions, worked out by hand.
ghost use Rattle.rasn_text.specs.WorkedNames.{WorkedNames};

/// Proves that the names of the examples of RFC 4514, 4 have their texts by the definitions, and
/// that some texts aren't those of values. The function does nothing when it runs.
pub fn worked_names()
    ensures { WorkedNames }
{}
