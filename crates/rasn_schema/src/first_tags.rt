//! The tags with which the values of a type may begin, compared with those of another type.
ghost use Rattle.std.specs.Prelude.{◌-◌};
ghost use Rattle.rasn_types.specs.declared.types.tag.Tag.{Tag};
ghost use Rattle.rasn_types.specs.Shapes.{IsFirst, IsFirstOf, looked_for};
ghost use Rattle.rasn_types.specs.Truth.{IsWhether};
ghost use Rattle.rasn_schema.specs.Shapes.{shape_of_type, type_by, alternatives_by, nothing};
ghost use Rattle.rasn_schema.specs.FirstTags.{AreFirstTags, IsBelowSome, EachFirst, EachFirstOf};

use crate::begin::begins;
use crate::type_id::TypeId;
use crate::types::{Alternative, Type, tag_at, type_at};
use rasn_types::types::Tag;

/// The tags with which the values of a type may begin.
#[derive(Clone, Copy)]
pub enum FirstTags<'types> {
    /// None.
    Nothing,
    /// This tag alone.
    One(Tag),
    /// Every tag.
    Every,
    /// The tags of these types, which are followed one level less deep.
    Of(&'types [Alternative]),
}

/// Returns the tags with which the values of the type with this number may begin, if types are
/// followed `levels` deep.
#[inline(always)]
pub fn first_tags_at<'types>(types: &'types [Type], levels: usize, id: TypeId) -> FirstTags<'types>
    ensures tags { AreFirstTags (shape_of_type types.now (levels - 1)) (shape_of_type types.now levels id.0) result }
    ensures below { IsBelowSome levels result }
{
    if levels == 0 {
        return cut_first_tags(tag_at(types, id));
    }
    match type_at(types, id) {
        Some(ty) => type_first_tags(ty),
        None => FirstTags::Nothing,
    }
}

/// Returns the tags of values of which only the tag `own` is known.
#[inline(always)]
fn cut_first_tags<'types>(own: Tag) -> FirstTags<'types>
    ensures tags { (f : _) → AreFirstTags f (nothing (looked_for own)) result }
    ensures below { IsBelowSome 0 result }
{
    if own == Tag::EOC {
        FirstTags::Nothing
    } else {
        FirstTags::One(own)
    }
}

/// Returns the tags of an open type with the tag `own`.
#[inline(always)]
fn any_first_tags<'types>(own: Tag) -> FirstTags<'types>
    ensures tags { (f : _) → AreFirstTags f (Rattle.rasn_types.specs.Shapes.any (looked_for own)) result }
    ensures below { IsBelowSome 0 result }
{
    if own == Tag::EOC {
        FirstTags::Every
    } else {
        FirstTags::One(own)
    }
}

/// Returns the tags with which the values of a type may begin.
#[inline(always)]
fn type_first_tags(ty: &Type) -> FirstTags<'_>
    ensures { (f : _) → AreFirstTags f (type_by f ty.now) result }
{
    match ty {
        Type::Choice { alternatives, .. } => FirstTags::Of(alternatives.as_slice()),
        Type::Any { tag } => any_first_tags(*tag),
        Type::Leaf { tag, .. } => FirstTags::One(*tag),
        Type::Enumerated { tag, .. } => FirstTags::One(*tag),
        Type::Tagged { tag, .. } => FirstTags::One(*tag),
        Type::Sequence { tag, .. } => FirstTags::One(*tag),
        Type::Set { tag, .. } => FirstTags::One(*tag),
        Type::SequenceOf { tag, .. } => FirstTags::One(*tag),
        Type::SetOf { tag, .. } => FirstTags::One(*tag),
        Type::Unknown => FirstTags::Nothing,
    }
}

/// Returns whether the values of the type with this number may begin with some tag.
#[cycle(firsts)]
pub fn has_firsts(types: &[Type], levels: usize, id: TypeId) -> bool
    ensures { IsWhether result ((n : Tag) × IsFirst (shape_of_type types.now levels id.0) n) }
{
    match first_tags_at(types, levels, id) {
        FirstTags::Nothing => false,
        FirstTags::One(_) => true,
        FirstTags::Every => true,
        FirstTags::Of(alternatives) => some_have_firsts(types, levels - 1, alternatives),
    }
}

/// Returns whether the values of one of the types may begin with some tag.
#[cycle(firsts)]
fn some_have_firsts(types: &[Type], levels: usize, alternatives: &[Alternative]) -> bool
    ensures { IsWhether result ((n : Tag) × IsFirstOf (alternatives_by (shape_of_type types.now levels) alternatives.now) n) }
{
    for alternative in alternatives {
        if has_firsts(types, levels, alternative.type_id) {
            return true;
        }
    }
    false
}

/// Returns whether the values of two types never begin with the same tag. The other one is followed
/// `outer` levels deep.
#[cycle(distinct)]
pub fn is_distinct(types: &[Type], levels: usize, id: TypeId, outer: usize, other: TypeId) -> bool
    ensures { IsWhether result (EachFirst (shape_of_type types.now levels id.0) (λ n. IsFirst (shape_of_type types.now outer other.0) n → ⊥)) }
{
    match first_tags_at(types, levels, id) {
        FirstTags::Nothing => true,
        FirstTags::One(tag) => !begins(types, outer, other, tag),
        FirstTags::Every => !has_firsts(types, outer, other),
        FirstTags::Of(alternatives) => all_distinct(types, levels - 1, alternatives, outer, other),
    }
}

/// Returns whether none of the types begins with a tag with which the other one begins.
#[cycle(distinct)]
fn all_distinct(
    types: &[Type],
    levels: usize,
    alternatives: &[Alternative],
    outer: usize,
    other: TypeId,
) -> bool
    ensures { IsWhether result (EachFirstOf (alternatives_by (shape_of_type types.now levels) alternatives.now) (λ n. IsFirst (shape_of_type types.now outer other.0) n → ⊥)) }
{
    for alternative in alternatives {
        if !is_distinct(types, levels, alternative.type_id, outer, other) {
            return false;
        }
    }
    true
}
