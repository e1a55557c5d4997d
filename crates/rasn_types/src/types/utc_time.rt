//! UTCTime: instants.
ghost use Rattle.std.specs.Prelude.{◌≡◌, ◌<◌, ◌<ℤ◌, pos, negsuc};
ghost use Rattle.rasn_types.specs.Calendar.{Moment, IsMoment, Before, later, earlier, at_minute};
ghost use Rattle.rasn_types.specs.Options.{IsSomeExactlyIf};
ghost use Rattle.rasn_types.specs.Truth.{IsWhether};

use crate::types::{AsnType, Constraints, Date, Tag};
use std::marker::Model;

/// An instant, by its fields in UTC (X.680 47). With 1000000000 nanoseconds or more it lies in a
/// leap second, which only second 59 has.
#[derive(Clone, Copy, Debug, PartialEq, Eq, PartialOrd, Ord)]
pub struct UtcTime {
    date: Date,
    hour: u8,
    minute: u8,
    second: u8,
    nanosecond: u32,
}

impl Model for UtcTime {
    ghost use Rattle.rasn_types.specs.Calendar.{Moment, IsMoment};

    ghost Value = { Moment };

    ghost view = { λ a. record { day = a.date; hour = a.hour; minute = a.minute; second = a.second; nanosecond = a.nanosecond } };

    ghost invariant = { λ a. IsMoment (record { day = a.date; hour = a.hour; minute = a.minute; second = a.second; nanosecond = a.nanosecond }) };

    ghost inverse = { λ m. record { date = m.day; hour = m.hour; minute = m.minute; second = m.second; nanosecond = m.nanosecond } };
}

impl UtcTime {
    /// Returns the instant, or `None` if there is no such instant.
    pub fn new(date: Date, hour: u8, minute: u8, second: u8, nanosecond: u32) -> Option<UtcTime>
        ensures { let m : Moment = record { day = date; hour = hour; minute = minute; second = second; nanosecond = nanosecond } in
            IsSomeExactlyIf result (IsMoment m) m }
    {
        if hour < 24
            && minute < 60
            && second < 60
            && nanosecond < 2_000_000_000
            && (nanosecond < 1_000_000_000 || second == 59)
        {
            let _year = date.year();
            Some(UtcTime {
                date,
                hour,
                minute,
                second,
                nanosecond,
            })
        } else {
            None
        }
    }

    /// Returns the day.
    pub fn date(&self) -> Date
        ensures is { result ≡ self.now.day }
        ensures exists { IsMoment self.now }
    {
        self.date
    }

    /// Returns the hour, from 0 to 23.
    pub fn hour(&self) -> u8
        ensures { result ≡ self.now.hour }
    {
        self.hour
    }

    /// Returns the minute, from 0 to 59.
    pub fn minute(&self) -> u8
        ensures { result ≡ self.now.minute }
    {
        self.minute
    }

    /// Returns the second, from 0 to 59.
    pub fn second(&self) -> u8
        ensures { result ≡ self.now.second }
    {
        self.second
    }

    /// Returns the nanosecond: 1000000000 or more in the leap second that follows second 59.
    pub fn nanosecond(&self) -> u32
        ensures { result ≡ self.now.nanosecond }
    {
        self.nanosecond
    }

    /// Returns the same second in another minute of a day, counted from 0.
    fn at_minute(self, date: Date, minute: u16) -> UtcTime
        requires { minute < 1440 }
        ensures { result ≡ at_minute date minute self }
    {
        let UtcTime {
            date: _,
            hour: _,
            minute: _,
            second,
            nanosecond,
        } = self;
        let _year = date.year();
        UtcTime {
            date,
            hour: (minute / 60) as u8,
            minute: (minute % 60) as u8,
            second,
            nanosecond,
        }
    }

    /// Returns the instant this number of minutes later, which is less than a day.
    #[tactic(auto, unfolding(crate::specs::Calendar::later))]
    pub(crate) fn later(self, minutes: u16) -> UtcTime
        requires below { minutes < 1440 }
        requires year { self.day.year <ℤ pos 99999 }
        ensures { result ≡ later minutes self }
    {
        let minute = 60 * u16::from(self.hour) + u16::from(self.minute) + minutes;
        if minute < 1440 {
            self.at_minute(self.date, minute)
        } else {
            self.at_minute(self.date.following(), minute - 1440)
        }
    }

    /// Returns the instant this number of minutes earlier, which is less than a day.
    #[tactic(auto, unfolding(crate::specs::Calendar::earlier))]
    pub(crate) fn earlier(self, minutes: u16) -> UtcTime
        requires below { minutes < 1440 }
        requires year { negsuc 99998 <ℤ self.day.year }
        ensures { result ≡ earlier minutes self }
    {
        let minute = 60 * u16::from(self.hour) + u16::from(self.minute);
        if minute < minutes {
            self.at_minute(self.date.preceding(), minute + 1440 - minutes)
        } else {
            self.at_minute(self.date, minute - minutes)
        }
    }

    /// Returns whether the two instants are the same, as `==` does.
    pub fn is_same(&self, other: &UtcTime) -> bool
        ensures { IsWhether result (self.now ≡ other.now) }
    {
        self == other
    }

    /// Returns whether this instant is before the other, as `<` does.
    pub fn is_before(&self, other: &UtcTime) -> bool
        ensures { IsWhether result (Before self.now other.now) }
    {
        self < other
    }
}

impl AsnType for UtcTime {
    ghost use Rattle.std.specs.Prelude.{refl};
    ghost use Rattle.rasn_types.specs.Shapes.{leaf, utc_time, instant};
    ghost use Rattle.rasn_types.specs.Tags.{in_universal};
    ghost use Rattle.rasn_types.specs.Trees.{unconstrained};

    ghost TAG = { in_universal 23 };

    const TAG: Tag = Tag::UTC_TIME;

    ghost CONSTRAINTS = { unconstrained };

    const CONSTRAINTS: Constraints = Constraints {
        value: None,
        size: None,
    };

    ghost shape = { leaf utc_time (in_universal 23) unconstrained };

    ghost tree = { λ m. instant m };

    ghost own = { refl };
}
