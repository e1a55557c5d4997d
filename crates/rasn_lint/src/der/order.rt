//! The order of the components of a SET (X.690 10.3, 11.6).
ghost use Rattle.std.specs.Prelude.{◌≡◌, List, ℕ};
ghost use Rattle.rasn_types.specs.Contents.{joined_lists};
ghost use Rattle.rasn_types.specs.Order.{IsLess, AreAscending};
ghost use Rattle.rasn_types.specs.Tags.{IsTagBelow};
ghost use Rattle.rasn_types.specs.Truth.{IsWhether};
ghost use Rattle.rasn_lint.specs.Order.{IsInOrder, HasNoHigherTag};
ghost use Rattle.rasn_lint.specs.WellFormed.{AreWellFormed};

use crate::der::encoding::read_encoding;
use rasn_types::types::Tag;
use std::alloc::Global;

/// Returns whether `octets` are less than `others`. Octets are less than any longer ones that begin
/// with them (X.690 11.6).
#[tactic(auto, using(rasn_de::proofs::Constructed::Ascending::less_told))]
pub fn is_less(octets: &[u8], others: &[u8]) -> bool
    ensures { IsWhether result (IsLess octets.now others.now) }
{
    octets < others
}

/// Returns whether a tag is below another (X.680 8.6).
pub fn is_tag_below(tag: Tag, other: Tag) -> bool
    ensures { IsWhether result (IsTagBelow tag other) }
{
    tag < other
}

/// Returns whether the octets of the components of these contents ascend, as in a SET OF
/// (X.690 11.6).
fn octets_ascend(alloc: Global, contents: &[u8]) -> bool
    ensures { (parts : List (List ℕ)) → contents.now ≡ joined_lists parts → AreWellFormed parts → IsWhether result (AreAscending IsLess parts) }
{
    let mut last: &[u8] = &[];
    let mut rest = contents;
    while let Some(component) = read_encoding(alloc, rest) {
        if is_less(component.octets, last) {
            return false;
        }
        last = component.octets;
        rest = component.rest;
    }
    true
}

/// Returns whether the tags of the components of these contents rise, as in a SET (X.690 10.3).
fn tags_rise(alloc: Global, contents: &[u8]) -> bool
    ensures { (parts : List (List ℕ)) → contents.now ≡ joined_lists parts → AreWellFormed parts → IsWhether result (AreAscending HasNoHigherTag parts) }
{
    let mut last = Tag::EOC;
    let mut rest = contents;
    while let Some(component) = read_encoding(alloc, rest) {
        if !is_tag_below(last, component.tag) {
            return false;
        }
        last = component.tag;
        rest = component.rest;
    }
    true
}

/// Returns whether the components of these contents are in the order of a SET OF or of a SET.
pub fn is_in_order(alloc: Global, contents: &[u8]) -> bool
    ensures { (parts : List (List ℕ)) → contents.now ≡ joined_lists parts → AreWellFormed parts → IsWhether result (IsInOrder parts) }
{
    octets_ascend(alloc, contents) || tags_rise(alloc, contents)
}
