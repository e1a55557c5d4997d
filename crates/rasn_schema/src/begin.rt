//! With which tags the values of a type may begin.
ghost use Rattle.std.specs.Prelude.{◌≡◌, MatchOption};
ghost use Rattle.rasn_types.specs.Shapes.{IsFirst, IsFirstOf, IsTagOf, looked_for};
ghost use Rattle.rasn_types.specs.Truth.{IsWhether};
ghost use Rattle.rasn_schema.specs.declared.types.Alternative.{Alternative};
ghost use Rattle.rasn_schema.specs.Shapes.{shape_of_type, type_by, alternatives_by, nothing, IsByFirstTags};
ghost use Rattle.rasn_schema.specs.FirstTags.{IsAlternativeFor};

use crate::type_id::TypeId;
use crate::types::{Alternative, Type, ends_open, tag_at, type_at};
use rasn_types::types::Tag;

/// Returns whether two tags are the same.
#[inline(always)]
fn is_tag(tag: Tag, own: Tag) -> bool
    ensures { IsWhether result (tag ≡ own) }
{
    tag == own
}

/// Returns whether a value of an open type with the tag `own` may begin with `tag`.
#[inline(always)]
fn any_begins(own: Tag, tag: Tag) -> bool
    ensures { IsWhether result (IsTagOf (looked_for own) tag) }
{
    own == Tag::EOC || is_tag(tag, own)
}

/// Returns whether a value of which only the tag `own` is known may begin with `tag`.
#[inline(always)]
fn nothing_begins(own: Tag, tag: Tag) -> bool
    ensures { IsWhether result (IsFirst (nothing (looked_for own)) tag) }
{
    own != Tag::EOC && is_tag(tag, own)
}

/// Returns whether a value of the type with this number may begin with the tag.
///
/// Types are followed `levels` deep. CHOICEs of a [`Schema`](crate::Schema) refer to lower
/// numbers, so `levels` above the number of types
/// changes nothing.
#[cycle(begins)]
pub fn begins(types: &[Type], levels: usize, id: TypeId, tag: Tag) -> bool
    ensures { IsWhether result (IsFirst (shape_of_type types.now levels id.0) tag) }
{
    if levels == 0 {
        return nothing_begins(tag_at(types, id), tag);
    }
    match type_at(types, id) {
        Some(ty) => type_begins(types, levels - 1, ty, tag),
        None => false,
    }
}

/// Returns whether a value of the type may begin with the tag.
#[cycle(begins)]
fn type_begins(types: &[Type], below: usize, ty: &Type, tag: Tag) -> bool
    ensures { IsWhether result (IsFirst (type_by (shape_of_type types.now below) ty.now) tag) }
{
    match ty {
        Type::Choice { alternatives, .. } => some_begins(types, below, alternatives, tag),
        Type::Any { tag: own } => any_begins(*own, tag),
        Type::Leaf { tag: own, .. } => is_tag(tag, *own),
        Type::Enumerated { tag: own, .. } => is_tag(tag, *own),
        Type::Tagged { tag: own, .. } => is_tag(tag, *own),
        Type::Sequence { tag: own, .. } => is_tag(tag, *own),
        Type::Set { tag: own, .. } => is_tag(tag, *own),
        Type::SequenceOf { tag: own, .. } => is_tag(tag, *own),
        Type::SetOf { tag: own, .. } => is_tag(tag, *own),
        Type::Unknown => false,
    }
}

/// Returns whether a value of one of the types may begin with the tag.
#[cycle(begins)]
fn some_begins(types: &[Type], levels: usize, alternatives: &[Alternative], tag: Tag) -> bool
    ensures { IsWhether result (IsFirstOf (alternatives_by (shape_of_type types.now levels) alternatives.now) tag) }
{
    for alternative in alternatives {
        if begins(types, levels, alternative.type_id, tag) {
            return true;
        }
    }
    false
}

/// Returns whether a value of which only the tag `own` is known is recognized by its first tags.
#[inline(always)]
fn nothing_is_choice(own: Tag) -> bool
    ensures { IsWhether result (IsByFirstTags (nothing (looked_for own))) }
{
    own == Tag::EOC
}

/// Returns whether a value of the type is recognized by its first tags.
fn type_is_choice(types: &[Type], below: usize, ty: &Type) -> bool
    ensures { IsWhether result (IsByFirstTags (type_by (shape_of_type types.now below) ty.now)) }
{
    match ty {
        Type::Choice { alternatives, .. } => !ends_open(types, below, alternatives),
        _ => false,
    }
}

/// Returns whether a component that may be absent, and whose type has this number, is recognized by
/// the tags with which its values may begin, as a CHOICE is that has no unknown values, and not by
/// its own tag.
pub fn is_choice_at(types: &[Type], levels: usize, id: TypeId) -> bool
    ensures { IsWhether result (IsByFirstTags (shape_of_type types.now levels id.0)) }
{
    if levels == 0 {
        return nothing_is_choice(tag_at(types, id));
    }
    match type_at(types, id) {
        Some(ty) => type_is_choice(types, levels - 1, ty),
        None => true,
    }
}

/// Returns the index of the first alternative that may begin with the tag, if there is one.
pub fn alternative_for(
    types: &[Type],
    levels: usize,
    alternatives: &[Alternative],
    tag: Tag,
) -> Option<usize>
    ensures { let f = shape_of_type types.now levels in
        MatchOption result (IsFirstOf (alternatives_by f alternatives.now) tag → ⊥) (λ k. (a : Alternative) × IsAlternativeFor f alternatives.now tag k a) }
{
    for (index, alternative) in alternatives.iter().enumerate() {
        if begins(types, levels, alternative.type_id, tag) {
            return Some(index);
        }
    }
    None
}
