//! Facts about values, types and the rules of types that were worked out by hand.
ghost use Rattle.rasn_schema.specs.WorkedHeld.{WorkedHeld};
ghost use Rattle.rasn_schema.specs.WorkedFitting.{WorkedFitting};
ghost use Rattle.rasn_schema.specs.WorkedLeaves.{WorkedLeaves};
ghost use Rattle.rasn_schema.specs.WorkedRules.{WorkedRules};

/// Proves which values are parts, which have names and which are copies, what types are made of,
/// and what is none of these. The function does nothing when it runs.
pub fn worked_held()
    ensures { WorkedHeld }
{}

/// Proves which values are values of a type, and which aren't. The function does nothing when it
/// runs.
pub fn worked_fitting()
    ensures { WorkedFitting }
{}

/// Proves which contents octets are a REAL, a RELATIVE-OID, characters of a UniversalString or a
/// time, and which aren't; and that the octets of a RELATIVE-OID are those of the OBJECT IDENTIFIER
/// that holds its arcs. The function does nothing when it runs.
pub fn worked_leaves()
    ensures { WorkedLeaves }
{}

/// Proves which rules of X.680 a few types keep, and which they break. The function does nothing
/// when it runs.
pub fn worked_rules()
    ensures { WorkedRules }
{}
