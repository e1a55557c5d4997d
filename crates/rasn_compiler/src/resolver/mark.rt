//! Names that lead back to where they were.
use crate::resolver::node::Place;

/// A type that names may lead back to. It is moved on after four names, after eight more, after
/// sixteen more and so on, so that names that go round are found out soon.
#[derive(Clone, Copy)]
pub(crate) struct Mark {
    place: Place,
    index: usize,
    /// How many names were followed since it was moved.
    names: usize,
    /// After how many it is moved on.
    until: usize,
}

impl Mark {
    /// Marks the type that names begin at.
    pub(crate) fn new(place: Place, index: usize) -> Mark {
        Mark {
            place,
            index,
            names: 0,
            until: 4,
        }
    }

    /// Returns whether a name leads back to the mark, as it leads to this type.
    pub(crate) fn is_again(&mut self, place: Place, index: usize) -> bool {
        if self.place == place && self.index == index {
            return true;
        }
        self.names = self.names.saturating_add(1);
        if self.names >= self.until {
            self.place = place;
            self.index = index;
            self.names = 0;
            self.until = self.until.saturating_mul(2);
        }
        false
    }
}
