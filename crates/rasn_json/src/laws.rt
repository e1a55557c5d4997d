//! Facts about values that are written as JSON and read again. The functions do nothing when they
//! run.
ghost use Rattle.rasn_json.specs.Laws.{GivesTheOctets, MeansTheSame};
ghost use Rattle.rasn_json.specs.Worked.{WorkedJson};
ghost use Rattle.rasn_json.specs.WorkedParts.{WorkedNames, WorkedRefusals};

/// Proves that a text which is JSON of a value is read as no value that means another, if the names
/// of each type are distinct; and that the JSON of octets that DER reads is encoded by DER as these
/// octets.
pub fn read_back()
    ensures same { MeansTheSame }
    ensures octets { GivesTheOctets }
{}

/// Proves what is the JSON of a few values that hold no others, and what isn't.
pub fn worked_json()
    ensures { WorkedJson }
{}

/// Proves which names of members, numbers and alternatives are those of one part, of a few.
pub fn worked_names()
    ensures { WorkedNames }
{}

/// Proves of a few values why they aren't written as JSON, and which part the error names.
pub fn worked_refusals()
    ensures { WorkedRefusals }
{}
