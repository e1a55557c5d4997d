//! GeneralizedTime: instants with an offset.
ghost use Rattle.std.specs.Prelude.{◌≡◌};
ghost use Rattle.rasn_types.specs.Calendar.{Before, IsOffset};
ghost use Rattle.rasn_types.specs.Options.{IsSomeExactlyIf};
ghost use Rattle.rasn_types.specs.Truth.{IsWhether};

use crate::types::{AsnType, Constraints, Tag, UtcTime};
use std::cmp::Ordering;
use std::marker::Model;

/// An instant with the offset of its text (X.680 46). Equality and order are those of the instant.
#[derive(Clone, Copy, Debug)]
pub struct GeneralizedTime {
    utc: UtcTime,
    offset_minutes: i16,
}

impl Model for GeneralizedTime {
    ghost use Rattle.rasn_types.specs.Calendar.{IsOffset, Stamp};

    ghost Value = { Stamp };

    ghost view = { λ a. record { moment = a.utc; offset = a.offset_minutes } };

    ghost invariant = { λ a. IsOffset a.offset_minutes };

    ghost inverse = { λ s. record { utc = s.moment; offset_minutes = s.offset } };
}

impl GeneralizedTime {
    /// Returns the instant with this offset in minutes, or `None` if the offset is a day or more.
    pub fn new(utc: UtcTime, offset_minutes: i16) -> Option<GeneralizedTime>
        ensures { IsSomeExactlyIf result (IsOffset offset_minutes) (record { moment = utc; offset = offset_minutes }) }
    {
        if -1440 < offset_minutes && offset_minutes < 1440 {
            Some(GeneralizedTime {
                utc,
                offset_minutes,
            })
        } else {
            None
        }
    }

    /// Returns the instant.
    pub fn utc(&self) -> UtcTime
        ensures { result ≡ self.now.moment }
    {
        self.utc
    }

    /// Returns the number of minutes by which the clock of the text is ahead of UTC.
    pub fn offset_minutes(&self) -> i16
        ensures { result ≡ self.now.offset }
    {
        self.offset_minutes
    }

    /// Returns whether the two instants are the same, as `==` does.
    pub fn is_same(&self, other: &GeneralizedTime) -> bool
        ensures { IsWhether result (self.now.moment ≡ other.now.moment) }
    {
        self == other
    }

    /// Returns whether this instant is before the other, as `<` does.
    pub fn is_before(&self, other: &GeneralizedTime) -> bool
        ensures { IsWhether result (Before self.now.moment other.now.moment) }
    {
        self < other
    }
}

impl PartialEq for GeneralizedTime {
    ghost use Rattle.std.specs.Cmp.{on_per};
    ghost use Rattle.std.specs.Ordering.{on};
    ghost use Rattle.rasn_types.specs.contracts.types.utc_time.UtcTimePartialEq.TheImpl.Laws.{laws-law as utc_laws};

    ghost eq = { on (λ t. t.moment) ⟦<UtcTime as PartialEq>⟧.eq };

    ghost laws = { on_per (λ t. t.moment) utc_laws };

    fn eq(&self, other: &GeneralizedTime) -> bool {
        self.utc == other.utc
    }
}

impl Eq for GeneralizedTime {
    ghost use Rattle.std.specs.Cmp.{on_equiv};
    ghost use Rattle.rasn_types.specs.contracts.types.utc_time.UtcTimeEq.TheImpl.Laws.{laws-law as utc_laws};

    ghost laws = { on_equiv (λ t. t.moment) utc_laws };
}

impl PartialOrd for GeneralizedTime {
    ghost use Rattle.std.specs.Cmp.{on_po};
    ghost use Rattle.std.specs.Ordering.{on};
    ghost use Rattle.rasn_types.specs.contracts.types.utc_time.UtcTimePartialOrd.TheImpl.Laws.{laws-law as utc_laws};

    ghost partial_cmp = { on (λ t. t.moment) ⟦<UtcTime as PartialOrd>⟧.partial_cmp };

    ghost laws = { on_po (λ t. t.moment) utc_laws };

    fn partial_cmp(&self, other: &GeneralizedTime) -> Option<Ordering> {
        self.utc.partial_cmp(&other.utc)
    }
}

impl Ord for GeneralizedTime {
    ghost use Rattle.std.specs.Cmp.{on_total};
    ghost use Rattle.std.specs.Ordering.{on};
    ghost use Rattle.rasn_types.specs.contracts.types.utc_time.UtcTimeOrd.TheImpl.Laws.{total-law, matches_partial_cmp-law, matches_eq-law};

    ghost cmp = { on (λ t. t.moment) ⟦<UtcTime as Ord>⟧.cmp };

    ghost total = { on_total (λ t. t.moment) total-law };

    ghost matches_partial_cmp = { λ x y. matches_partial_cmp-law x.moment y.moment };

    ghost matches_eq = { λ x y. matches_eq-law x.moment y.moment };

    fn cmp(&self, other: &GeneralizedTime) -> Ordering {
        self.utc.cmp(&other.utc)
    }
}

impl AsnType for GeneralizedTime {
    ghost use Rattle.std.specs.Prelude.{refl};
    ghost use Rattle.rasn_types.specs.Shapes.{leaf, generalized_time, instant};
    ghost use Rattle.rasn_types.specs.Tags.{in_universal};
    ghost use Rattle.rasn_types.specs.Trees.{unconstrained};

    ghost TAG = { in_universal 24 };

    const TAG: Tag = Tag::GENERALIZED_TIME;

    ghost CONSTRAINTS = { unconstrained };

    const CONSTRAINTS: Constraints = Constraints {
        value: None,
        size: None,
    };

    ghost shape = { leaf generalized_time (in_universal 24) unconstrained };

    ghost tree = { λ s. instant s.moment };

    ghost own = { refl };
}
