//! The laws of the texts of times, and of instants and days.
#![tactic(auto, using(crate::proofs::AllLaws::time_laws))]

ghost use Rattle.rasn.specs.TimeLaws.{OneMeaning, IncludedTexts, ReadBack, Distinct, Steps, Seconds};

/// Proves that a text has at most one meaning.
pub fn one_meaning()
    ensures { OneMeaning }
{}

/// Proves that a canonical text is also a general one, with the same meaning.
pub fn included()
    ensures { IncludedTexts }
{}

/// Proves that a text that is written is read back.
pub fn read_back()
    ensures { ReadBack }
{}

/// Proves that different carried values have different texts.
pub fn distinct()
    ensures { Distinct }
{}

/// Proves that the next and the previous day are inverse to each other, and so are adding and
/// subtracting an offset.
pub fn steps()
    ensures { Steps }
{}

/// Proves that days are numbered one after the other, that an instant n minutes later is 60 n
/// seconds later, and that instants are ordered as their numbers of seconds and nanoseconds.
pub fn seconds()
    ensures { Seconds }
{}
