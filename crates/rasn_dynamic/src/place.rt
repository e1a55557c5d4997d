//! Where the components of a SET are written: in the order of their tags (X.690 9.3, 10.3).
ghost use Rattle.std.specs.Prelude.{MatchOption};
ghost use Rattle.rasn_types.specs.Truth.{IsWhether};
ghost use Rattle.rasn_types.specs.Tags.{IsTagBelow};
ghost use Rattle.rasn_types.specs.Bytes.{IsPlacedBy};
ghost use Rattle.rasn_types.specs.declared.types.tag.Tag.{Tag};
ghost use Rattle.rasn_types.specs.Shapes.{Shape, Parts, part, required, IsFirst, IsFirstOf, looked_for};
ghost use Rattle.rasn_schema.specs.Shapes.{shape_of_type, type_by, alternatives_by, nothing};
ghost use Rattle.rasn_dynamic.specs.Placed.{IsLeast};

use rasn_enc::ber::enc::leading_tag;
use rasn_schema::{Alternative, Type, TypeId, tag_at, type_at};
use rasn_types::ber::rules::EncodingRules;
use rasn_types::types::{Codec, Tag};

/// Returns whether a tag is below another (X.680 8.6).
fn is_below(tag: Tag, other: Tag) -> bool
    ensures { IsWhether result (IsTagBelow tag other) }
{
    tag < other
}

/// Returns the tag of a value of which only the tag `own` is known, if it has one.
fn least_of_nothing(own: Tag) -> Option<Tag>
    ensures { IsLeast (IsFirst (nothing (looked_for own))) result }
{
    if own == Tag::EOC {
        return None;
    }
    Some(own)
}

/// Returns the least tag with which a value of the type with this number may begin, if it may begin
/// with any. Types are followed `levels` deep.
#[cycle(least)]
fn least_tag(types: &[Type], levels: usize, id: TypeId) -> Option<Tag>
    ensures { IsLeast (IsFirst (shape_of_type types.now levels id.0)) result }
{
    if levels == 0 {
        return least_of_nothing(tag_at(types, id));
    }
    match type_at(types, id) {
        Some(ty) => least_of_type(types, levels - 1, ty),
        None => None,
    }
}

/// Returns the least tag with which a value of the type may begin, if it may begin with any.
#[cycle(least)]
fn least_of_type(types: &[Type], below: usize, ty: &Type) -> Option<Tag>
    ensures { IsLeast (IsFirst (type_by (shape_of_type types.now below) ty.now)) result }
{
    match ty {
        Type::Choice { alternatives, .. } => least_of_all(types, below, alternatives),
        Type::Unknown => None,
        _ => Some(ty.tag()),
    }
}

/// Returns the least tag with which a value of one of these types may begin, if it may begin with
/// any.
#[cycle(least)]
fn least_of_all(types: &[Type], below: usize, alternatives: &[Alternative]) -> Option<Tag>
    ensures { IsLeast (IsFirstOf (alternatives_by (shape_of_type types.now below) alternatives.now)) result }
{
    let mut least = None;
    let mut left = alternatives.len();
    while left > 0 {
        left -= 1;
        least = lesser(least_tag(types, below, alternatives[left].type_id), least);
    }
    least
}

/// Returns the less of two tags, where there are any.
fn lesser(one: Option<Tag>, other: Option<Tag>) -> Option<Tag>
    ensures { (s : Shape) (ps : Parts) → IsLeast (IsFirst s) one → IsLeast (IsFirstOf ps) other → IsLeast (IsFirstOf (part required s ps)) result }
{
    let Some(tag) = one else {
        return other;
    };
    let Some(next) = other else {
        return one;
    };
    if is_below(next, tag) {
        return Some(next);
    }
    Some(tag)
}

/// Returns the tag that decides where a component of a SET with these octets is written, if it has
/// a place: under CER the least with which a value of its type may begin (X.690 9.3), otherwise the
/// one that it begins with (10.3).
pub fn place_tag(
    types: &[Type],
    levels: usize,
    rule: Codec,
    id: TypeId,
    octets: &[u8],
) -> Option<Tag>
    ensures { let s = shape_of_type types.now levels id.0 in
        MatchOption result ((tag : Tag) → IsPlacedBy rule (IsFirst s) octets.now tag → ⊥) (λ tag. IsPlacedBy rule (IsFirst s) octets.now tag) }
{
    if EncodingRules::of_codec(rule).is_cer() {
        return least_tag(types, levels, id);
    }
    leading_tag(octets)
}
