//! Facts about what is said of messages. The functions do nothing when they run.
ghost use Rattle.rasn_print.specs.declared.types.MessageType.{MessageType};
ghost use Rattle.rasn_schema.specs.declared.view.View.{View};
ghost use Rattle.rasn_print.specs.Worked.{IsBoolean, WorkedVerdicts};
ghost use Rattle.rasn_print.specs.WorkedQueries.{IsBooleanView, WorkedQueries};

/// Proves what `check` says of the octets of TRUE by DER, with the length in one octet and in two.
pub fn worked_verdicts()
    ensures { (m : MessageType) → IsBoolean m → WorkedVerdicts m }
{}

/// Proves that the empty path leads to the value, of a BOOLEAN, and the path of an element nowhere.
pub fn worked_queries()
    ensures { (view : View) → IsBooleanView view → WorkedQueries view }
{}
