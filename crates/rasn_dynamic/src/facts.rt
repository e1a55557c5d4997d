//! Facts about places, parts, faults and times.
ghost use Rattle.rasn_dynamic.specs.Worked.{WorkedPlaces};
ghost use Rattle.rasn_dynamic.specs.WorkedParts.{WorkedParts};
ghost use Rattle.rasn_dynamic.specs.WorkedFaults.{WorkedFaults};
ghost use Rattle.rasn_dynamic.specs.WorkedTimes.{WorkedTimes};
ghost use Rattle.rasn_dynamic.specs.SameParts.{PartsAreDetermined};

/// Proves what leads to a part of a few octets, and what doesn't. The function does nothing when it
/// runs.
pub fn worked_places()
    ensures { WorkedPlaces }
{}

/// Proves what lists of a few parts are, which are contents of a part, and to which component a
/// path leads; and what these aren't. The function does nothing when it runs.
pub fn worked_parts()
    ensures { WorkedParts }
{}

/// Proves where a few values can't be read, and where they aren't refused; and which outcome is
/// reported of a call that keeps its value or its error elsewhere. The function does nothing when
/// it runs.
pub fn worked_faults()
    ensures { WorkedFaults }
{}

/// Proves that the offset of a time is that of its text, and no other, also inside a SEQUENCE; and
/// that a UTCTime has none. The function does nothing when it runs.
pub fn worked_times()
    ensures { WorkedTimes }
{}

/// Proves that octets have one list of parts: what is read as a value of a type of a schema has no
/// other parts, in no other order, by whichever rules. The function does nothing when it runs.
pub fn parts_determined()
    ensures { PartsAreDetermined }
{}
