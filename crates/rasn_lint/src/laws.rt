//! Facts about lists of departures. The functions do nothing when they run.
ghost use Rattle.rasn_lint.specs.Laws.{NormalIsClean, FormedIsClean, ClosedIsClean, FirstIsListed, ClosedFirstIsListed, CleanIsNormal};
ghost use Rattle.std.specs.Prelude.{◌≡◌, List, Vec};
ghost use Rattle.std.specs.Global.{Global};
ghost use Rattle.rasn_schema.specs.declared.types.NamedNumber.{NamedNumber};
ghost use Rattle.rasn_lint.specs.Worked.{WorkedDepartures};
ghost use Rattle.rasn_lint.specs.WorkedMessages.{WorkedMessages};
ghost use Rattle.rasn_lint.specs.WorkedReplies.{AreOfReply, WorkedReplies};
ghost use Rattle.rasn_lint.specs.WorkedSets.{AreOfSet, WorkedSets};
ghost use Rattle.rasn_lint.specs.WorkedTimes.{WorkedTimes};
ghost use Rattle.rasn_schema.specs.declared.types.«Type».{«Type»};
ghost use Rattle.rasn_dynamic.specs.declared.span.Span.{Span};

/// Proves what the list of a message says of the value written anew, as `rasn_dynamic::normalise`
/// does it: what is written has no departures if the open types of the message, or its own, are
/// well formed, so none where no type is open; and a message without departures is written as it
/// is.
pub fn written_anew()
    ensures clean { NormalIsClean }
    ensures formed { FormedIsClean }
    ensures closed { ClosedIsClean }
    ensures unchanged { CleanIsNormal }
{}

/// Proves that `check` finds a departure exactly if `lint` lists one.
pub fn first_listed()
    ensures listed { FirstIsListed }
    ensures closed { ClosedFirstIsListed }
{}

/// Proves what departs of a few octets, and what doesn't.
#[tactic(auto, using(crate::proofs::WorkedDepartures::departures))]
pub fn worked_departures()
    ensures { WorkedDepartures }
{}

/// Proves what DER doesn't read of a BOOLEAN that is `01 81 01 FF`, and that `01 01 FF` has no
/// departures.
pub fn worked_messages()
    ensures { (names : Vec NamedNumber Global) → WorkedMessages names }
{}

/// Proves what departs of an unknown alternative of an extensible CHOICE: its tag number in more
/// octets than it needs, and nothing else where open types aren't looked into.
pub fn worked_replies()
    ensures { (types : List «Type») → AreOfReply types → WorkedReplies types }
{}

/// Proves what departs of an unknown component of an extensible SET beside a BOOLEAN: its place, as
/// that of a named one, and, where open types are looked into, a NULL with contents.
pub fn worked_sets()
    ensures { (types : List «Type») → AreOfSet types → WorkedSets types }
{}

/// Proves that a GeneralizedTime without a zone is a local time, and that one with a zone isn't.
pub fn worked_times()
    ensures { (names : Vec NamedNumber Global) (e : Span) → e.id.0 ≡ 0 → WorkedTimes names e }
{}
