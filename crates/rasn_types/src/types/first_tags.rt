//! The tags that values of a type begin with.
use crate::types::{AsnType, Tag};

/// A type that tests the tags its values begin with. A CHOICE has no tag of its own (X.680 29), so
/// an optional or default part of its type that other parts follow is recognized by the tags of
/// its alternatives.
pub trait FirstTags: AsnType {
    ghost use Rattle.rasn_types.specs.Shapes.{IsFirst};
    ghost use Rattle.rasn_types.specs.Truth.{IsWhether};

    /// Returns whether a value of the type may begin with this tag.
    fn is_first_tag(tag: Tag) -> bool
        ensures { IsWhether result (IsFirst Self.shape tag) };
}
