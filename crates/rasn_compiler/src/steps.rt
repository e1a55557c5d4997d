//! How much work the schemas of types may take.
ghost use Rattle.std.specs.Prelude.{◌≡◌};

/// The steps that are left to find out what types are. Each component, name, tag and value that is
/// looked at takes one, and so does each octet of a constraint, a value or a list of parameters
/// whenever it is read, and each octet of a name whenever it is copied. A type takes 32 beside
/// these, and a name of a number 16.
#[derive(Clone, Copy, Debug, PartialEq, Eq)]
pub struct Steps {
    pub left: usize,
}

impl Steps {
    /// The steps that one type may take.
    pub const OF_A_TYPE: usize = 10_000_000;

    /// The steps that all types of a library may take for each type in the texts, beside those that
    /// one type may take.
    pub const OF_EACH: usize = 5_000;

    /// Returns so many steps.
    pub fn new(left: usize) -> Steps
        ensures { result.left ≡ left }
    {
        Steps { left }
    }

    /// Takes so many steps, or all that are left. Returns whether there were so many.
    pub(crate) fn take(&mut self, count: usize) -> bool {
        let is_enough = count <= self.left;
        self.left = self.left.saturating_sub(count);
        is_enough
    }
}
