//! Types of a schema, and how deep they are followed.
ghost use Rattle.std.specs.Prelude.{◌≡◌, ◌≢◌, ◌⊎◌, Some, None, slice_get, MatchOption};

use rasn_schema::{Type, TypeId, type_at};

/// The types of a schema, of which one is followed into those of its parts, and so on, so many
/// levels deep.
#[derive(Clone, Copy)]
pub struct Types<'types> {
    /// All types of the schema.
    pub list: &'types [Type],
    /// How deep they are followed.
    pub levels: usize,
}

impl<'types> Types<'types> {
    /// Returns the type with this number, unless types aren't followed any deeper.
    #[inline(always)]
    pub fn get(&self, id: TypeId) -> Option<&'types Type>
        ensures { MatchOption result ((self.now.levels ≡ 0) ⊎ (None ≡ slice_get self.now.list.now id.0)) (λ ty. (self.now.levels ≢ 0) × (Some ty.now ≡ slice_get self.now.list.now id.0)) }
    {
        if self.levels == 0 {
            return None;
        }
        type_at(self.list, id)
    }
}
