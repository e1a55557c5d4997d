//! The laws of the grammar, for every rule. The contract of each function is a theorem about the
//! definitions; the functions do nothing when they run. *Carried*, *lawful* and the other terms are
//! those of docs/PROVED.md and docs/GLOSSARY.md.
#![tactic(auto, using(crate::proofs::AllLaws::laws))]

ghost use Rattle.rasn.specs.Laws.{OneLeaf, OneOpen, OnePrefix, OneChoice, OneOpenChoice, OneOption, OneSequence, OneSet, OneSortedSet, OneSequenceOf, OneSetOf, OneUnknown};
ghost use Rattle.rasn.specs.Worked.{Worked, WorkedStrict};
ghost use Rattle.rasn.specs.WorkedShapes.{DescribedParts, LawfulShapes, CarriedShapes};
ghost use Rattle.rasn.specs.WorkedDepths.{WorkedDepths};
ghost use Rattle.rasn.specs.WorkedHeaders.{WorkedHeaders};
ghost use Rattle.rasn.specs.WorkedRefusals.{WorkedRefusals};
ghost use Rattle.rasn.specs.WorkedClauses.{WorkedClauses};
ghost use Rattle.rasn.specs.WorkedValues.{WorkedValues, WorkedSets, WorkedOpens, WorkedUnknown, WorkedOpenChoice, WorkedSortedSets};
ghost use Rattle.rasn.specs.Laws.{OneReading, Included, ReadAgain, Canonical, WrittenOnce, StrictDer, OnlyCarried, AllCarried, StaysCarried, LawfulTested, ListedAlike, OneEncoding, EncodingSteps};

use rasn_de::de::Decode;
use rasn_types::types::AsnType;

/// Proves that an input is read as at most one value of a leaf type, with at most one rest.
pub fn one_leaf()
    ensures { OneLeaf }
{}

/// Proves that an open type, with or without a tag, is read in at most one way.
pub fn one_open()
    ensures { OneOpen }
{}

/// Proves that a value under an explicit tag is read in at most one way if the value inside it is.
pub fn one_prefix()
    ensures { OnePrefix }
{}

/// Proves that a CHOICE is read in at most one way if its alternatives are, and no two alternatives
/// begin with the same tag.
pub fn one_choice()
    ensures { OneChoice }
{}

/// Proves that a CHOICE with an extension marker is read in at most one way if its alternatives
/// are, and no two alternatives begin with the same tag.
pub fn one_open_choice()
    ensures { OneOpenChoice }
{}

/// Proves that an optional value is read in at most one way if the value itself is.
pub fn one_option()
    ensures { OneOption }
{}

/// Proves that a SEQUENCE is read in at most one way if its parts are.
pub fn one_sequence()
    ensures { OneSequence }
{}

/// Proves that a SET is read in at most one way if its parts are, and no two parts begin with the
/// same tag.
pub fn one_set()
    ensures { OneSet }
{}

/// Proves that a SET in the order of its tags, with an extension marker or without one, is read in
/// at most one way if its parts are, and no two parts begin with the same tag.
pub fn one_sorted_set()
    ensures { OneSortedSet }
{}

/// Proves that a SEQUENCE OF is read in at most one way if its elements are.
pub fn one_sequence_of()
    ensures { OneSequenceOf }
{}

/// Proves that a SET OF is read in at most one way if its elements are.
pub fn one_set_of()
    ensures { OneSetOf }
{}

/// Proves that unknown values, up to the end of the contents, are read in at most one way.
pub fn one_unknown()
    ensures { OneUnknown }
{}

/// Proves that an input is read as at most one value of a lawful shape, with at most one rest.
pub fn one_reading()
    ensures { OneReading }
{}

/// Proves that what CER or DER reads of a lawful shape, BER reads as the same value with the same
/// rest.
pub fn included()
    ensures { Included }
{}

/// Proves that what a rule writes of a carried value of a lawful shape is read back under that rule
/// as the same value, with no rest. If no value of the shape is absent, any octets may follow, and
/// they are the rest.
pub fn read_again()
    ensures { ReadAgain }
{}

/// Proves that carried values of one lawful shape are the same exactly if their DER octets are
/// equal.
pub fn canonical()
    ensures { Canonical }
{}

/// Proves that values that are the same are written as the same octets, whatever their shape.
pub fn written_once()
    ensures { WrittenOnce }
{}

/// Proves that a SET whose parts are listed in the order of their tags is read and written as one
/// that is put in this order.
pub fn listed_alike()
    ensures { ListedAlike }
{}

/// Proves that if DER reads a carried value of a lawful shape, the octets that are consumed are the
/// value's DER octets.
pub fn strict_der()
    ensures { StrictDer }
{}

/// Proves that a shape is lawful exactly if it passes the test `is_lawful`.
pub fn lawful_tested()
    ensures { LawfulTested }
{}

/// Proves that a value that DER reads is carried if it is within the limits of depth, open types,
/// times and additions, and its shape is lawful with defaults that are the same as themselves. The
/// octets that are consumed are the value's DER octets.
pub fn only_carried()
    ensures { OnlyCarried }
{}

/// Proves that a value that DER reads is carried if its shape is lawful and passes the test
/// `carries_all`. The octets that are consumed are the value's DER octets.
pub fn all_carried()
    ensures { AllCarried }
{}

/// Proves that what DER reads of the octets of a carried value of a lawful shape is carried too,
/// with the same octets.
pub fn stays_carried()
    ensures { StaysCarried }
{}

/// Proves that no complete encoding is the beginning of another one, and that the number of steps
/// that skipping an encoding takes is determined.
pub fn one_encoding()
    ensures { OneEncoding }
{}

/// Proves that skipping a complete encoding takes at most half as many steps as the encoding has
/// octets.
pub fn encoding_steps()
    ensures { EncodingSteps }
{}

/// Proves that octets worked out by hand are read and written as X.690 requires.
pub fn worked_octets()
    ensures { Worked }
{}

/// Proves that BER reads octets that DER would write in another way, and that DER doesn't read
/// them, except inside open types.
pub fn worked_strict()
    ensures { WorkedStrict }
{}

/// Proves of some shapes that they are lawful, and of others that they aren't.
pub fn lawful_shapes()
    ensures { LawfulShapes }
{}

/// Proves that some shapes pass the test `carries_all` and others don't, and that DER reads a value
/// of one of the others that isn't carried.
pub fn carried_shapes()
    ensures { CarriedShapes }
{}

/// Proves that a type's fields describe some parts, by their number and by whether one of them is
/// required, and don't describe others.
pub fn described_parts()
    ensures { DescribedParts }
{}

/// Proves of some identifier and length octets that they are the shortest, and of others, one octet
/// longer, that they aren't: BER reads the longer ones, and DER doesn't.
pub fn worked_headers()
    ensures { WorkedHeaders }
{}

/// Proves of octets that aren't a BOOLEAN which error reports it, and that no other does.
pub fn worked_refusals()
    ensures { WorkedRefusals (⟦<bool as Decode>⟧.errors ⟦<bool as AsnType>⟧.TAG ⟦<bool as AsnType>⟧.CONSTRAINTS) }
{}

/// Proves that values nested as deeply as a decoder allows are read, and that those one level
/// deeper aren't.
pub fn worked_depths()
    ensures { WorkedDepths }
{}

/// Proves of some values that they are carried, with given octets.
pub fn worked_values()
    ensures { WorkedValues }
{}

/// Proves that a SET and a SET OF are written in ascending order only.
pub fn worked_sets()
    ensures { WorkedSets }
{}

/// Proves examples of open types, extension additions and CER segments that are read, written and
/// carried, and examples of some that aren't.
pub fn worked_opens()
    ensures { WorkedOpens }
{}

/// Proves facts about unknown values at the end of a SEQUENCE that were worked out by hand.
pub fn worked_unknown()
    ensures { WorkedUnknown }
{}

/// Proves which alternatives of a CHOICE with an extension marker are unknown, and which are read,
/// written and carried.
pub fn worked_open_choice()
    ensures { WorkedOpenChoice }
{}

/// Proves where the components of a SET in the order of its tags are, those of a CHOICE and unknown
/// ones among them, and in which order DER reads them.
pub fn worked_sorted_sets()
    ensures { WorkedSortedSets }
{}

/// Proves examples and counterexamples of small clauses, such as those for offsets from UTC and for
/// octets that an alphabet doesn't admit.
pub fn worked_clauses()
    ensures { WorkedClauses }
{}
