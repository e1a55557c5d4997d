//! The rules that each type of a schema keeps: it is looked at once, however deep values are nested
//! (X.680 25.6, 27.3, 29.3).
ghost use Rattle.std.specs.Prelude.{◌≡◌, ◌≢◌, [], ◌<◌, ◌<ℤ◌, ℕ, suc, true, length, slice_get, Some, None, MatchOption};
ghost use Rattle.rasn_types.specs.Tags.{eoc};
ghost use Rattle.rasn_types.specs.Grammar.{family};
ghost use Rattle.rasn_types.specs.Shapes.{IsFirst, addition};
ghost use Rattle.rasn_schema.specs.declared.types.Component.{Component};
ghost use Rattle.rasn_schema.specs.declared.types.Alternative.{Alternative};
ghost use Rattle.rasn_schema.specs.declared.types.NamedNumber.{NamedNumber};
ghost use Rattle.rasn_types.specs.Lawful.{IsBitFree, HasTag};
ghost use Rattle.rasn_types.specs.Truth.{IsWhether};
ghost use Rattle.rasn_schema.specs.FirstTags.{IsAlwaysThere};
ghost use Rattle.rasn_schema.specs.Shapes.{shape_of_type, type_by, presence_of, kind_of, is_open};
ghost use Rattle.rasn_schema.specs.Schemas.{IsPrefix, IsUnknown, IsRequired, EndsUnknown, IsTaggedOrOpen, AreLowerAndTagged, AreDistinctAlternatives, AreDistinctNumbers, AreDistinct, AreToldInOrder, MayFollow, IsRecognizable, IsToldFrom, IsTaggedOrUnknown, AreTagged, AreDistinctComponents, IsWellFormed, IsWellFormedAt, AreOthersWellFormed, AreChoicesWellFormed, IsChoice, own_at, begin_at};
ghost use Rattle.rasn_schema.specs.Faults.{IsListFault, IsTaggedFault, IsLeafFault, IsNumbersFault, IsAlternativesFault, IsMisplaced, IsSequenceFault, IsSetFault, IsFaultOf, SomeFault};

use crate::begin::begins;
use crate::error::SchemaError;
use crate::first_tags::{FirstTags, first_tags_at, has_firsts, is_distinct};
use crate::type_id::TypeId;
use crate::types::{
    Alternative, Component, LeafKind, NamedNumber, Presence, Type, ends_open, is_open_at,
    is_unknown_at, tag_at, type_at,
};
use rasn_types::ber::is_always_constructed;
use rasn_types::types::Tag;

/// Returns whether a value of this kind may have the tag: a string or a time can't have that of a
/// type that is always constructed.
fn is_bit_free(kind: LeafKind, tag: Tag) -> bool
    ensures { IsWhether result (IsBitFree (family (kind_of kind)) tag) }
{
    match kind {
        LeafKind::Boolean | LeafKind::Null | LeafKind::ObjectIdentifier | LeafKind::Integer => true,
        LeafKind::Signed32 | LeafKind::Signed64 | LeafKind::Unsigned32 | LeafKind::Unsigned64 => {
            true
        }
        LeafKind::RelativeOid | LeafKind::Real | LeafKind::Time | LeafKind::Duration => true,
        LeafKind::TimeOfDay | LeafKind::DateTime => true,
        _ => !is_always_constructed(tag),
    }
}

/// Returns whether the tag is universal 0.
fn is_no_tag(tag: Tag) -> bool
    ensures { IsWhether result (tag ≡ eoc) }
{
    tag == Tag::EOC
}

/// Returns whether the type with this number isn't an open type without a tag, nor a CHOICE that
/// ends with one.
fn has_tag(types: &[Type], levels: usize, id: TypeId) -> bool
    ensures { IsWhether result (HasTag (shape_of_type types.now levels id.0)) }
{
    if levels == 0 {
        return true;
    }
    match type_at(types, id) {
        Some(ty) => type_has_tag(types, levels - 1, ty),
        None => true,
    }
}

fn type_has_tag(types: &[Type], below: usize, ty: &Type) -> bool
    ensures { IsWhether result (HasTag (type_by (shape_of_type types.now below) ty.now)) }
{
    match ty {
        Type::Any { tag } => *tag != Tag::EOC,
        Type::Choice { alternatives, .. } => !ends_open(types, below, alternatives),
        Type::Unknown => false,
        _ => true,
    }
}

/// Returns whether the type with this number has an explicit tag.
fn is_tagged(types: &[Type], levels: usize, id: TypeId) -> bool
    requires { levels ≢ 0 }
    ensures { IsWhether result (IsPrefix (shape_of_type types.now levels id.0)) }
{
    match type_at(types, id) {
        Some(ty) => type_is_tagged(ty),
        None => false,
    }
}

fn type_is_tagged(ty: &Type) -> bool
    ensures { (f : _) → IsWhether result (IsPrefix (type_by f ty.now)) }
{
    match ty {
        Type::Tagged { .. } => true,
        _ => false,
    }
}

fn is_required(component: &Component) -> bool
    ensures { IsWhether result (IsRequired component.now.presence) }
{
    match &component.presence {
        Presence::Required => true,
        Presence::Addition | Presence::Optional | Presence::Default(_) => false,
    }
}

/// Returns whether a component can't be absent.
fn is_always_there(component: &Component) -> bool
    ensures { IsWhether result (IsAlwaysThere (presence_of component.now.presence)) }
{
    match &component.presence {
        Presence::Required | Presence::Addition => true,
        Presence::Optional | Presence::Default(_) => false,
    }
}

fn is_addition(component: &Component) -> bool
    ensures { IsWhether result (presence_of component.now.presence ≡ addition) }
{
    match &component.presence {
        Presence::Addition => true,
        Presence::Required | Presence::Optional | Presence::Default(_) => false,
    }
}

/// Returns what is wrong with a SEQUENCE OF or a SET OF.
fn list_fault(
    types: &[Type],
    levels: usize,
    id: TypeId,
    tag: Tag,
    element: TypeId,
) -> Option<SchemaError>
    requires { levels ≢ 0 }
    ensures { let f = shape_of_type types.now levels in
        MatchOption result ((tag ≢ eoc) × (IsUnknown (f element.0) → ⊥)) (λ e. IsListFault f id.0 tag element.0 e) }
{
    if is_no_tag(tag) {
        return Some(SchemaError::ReservedTag { id });
    }
    if is_unknown_at(types, element) {
        return Some(SchemaError::MisplacedUnknown { id, index: 0 });
    }
    None
}

/// Returns what is wrong with a type that has an explicit tag.
fn tagged_fault(
    types: &[Type],
    levels: usize,
    id: TypeId,
    tag: Tag,
    inner: TypeId,
) -> Option<SchemaError>
    requires { levels ≢ 0 }
    ensures { let f = shape_of_type types.now levels in
        MatchOption result ((tag ≢ eoc) × (IsPrefix (f inner.0) → inner.0 < id.0) × (IsUnknown (f inner.0) → ⊥)) (λ e. IsTaggedFault f id.0 tag inner.0 e) }
{
    if is_no_tag(tag) {
        return Some(SchemaError::ReservedTag { id });
    }
    if inner >= id && is_tagged(types, levels, inner) {
        return Some(SchemaError::LateInner { id });
    }
    if is_unknown_at(types, inner) {
        return Some(SchemaError::MisplacedUnknown { id, index: 0 });
    }
    None
}

/// Returns what is wrong with the tag of a type whose values hold no other values.
fn leaf_fault(id: TypeId, kind: LeafKind, tag: Tag) -> Option<SchemaError>
    ensures { MatchOption result ((tag ≢ eoc) × IsBitFree (family (kind_of kind)) tag) (λ e. IsLeafFault id.0 kind tag e) }
{
    if is_no_tag(tag) {
        Some(SchemaError::ReservedTag { id })
    } else if is_bit_free(kind, tag) {
        None
    } else {
        Some(SchemaError::ConstructedTag { id })
    }
}

fn is_same_number(named: &NamedNumber, other: &NamedNumber) -> bool
    ensures { IsWhether result (named.now.number ≡ other.now.number) }
{
    named.number == other.number
}

fn is_below(named: &NamedNumber, other: &NamedNumber) -> bool
    ensures { IsWhether result (named.now.number <ℤ other.now.number) }
{
    named.number < other.number
}

/// Returns whether each number is above the one before it, as in most types. Then no two are the
/// same.
fn are_ascending(numbers: &[NamedNumber]) -> bool
    ensures { result ≡ true → AreDistinctNumbers numbers.now }
{
    for index in 1..numbers.len() {
        if !is_below(&numbers[index - 1], &numbers[index]) {
            return false;
        }
    }
    true
}

/// Returns the index of the first number after `index` that is the same.
fn same_number(numbers: &[NamedNumber], index: usize, named: &NamedNumber) -> Option<usize>
    requires { index < length numbers.now }
    ensures { MatchOption result
        ((j : ℕ) (n : NamedNumber) → index < j → Some n ≡ slice_get numbers.now j → named.now.number ≢ n.number)
        (λ j. (index < j) × ((n : NamedNumber) × (Some n ≡ slice_get numbers.now j) × (named.now.number ≡ n.number))) }
{
    for other in index + 1..numbers.len() {
        if is_same_number(named, &numbers[other]) {
            return Some(other);
        }
    }
    None
}

/// Returns what is wrong with an ENUMERATED: its tag, that it has no numbers (X.680 20.1), or the
/// first two numbers that are the same (X.680 20.3).
fn numbers_fault(id: TypeId, tag: Tag, numbers: &[NamedNumber]) -> Option<SchemaError>
    ensures { MatchOption result ((tag ≢ eoc) × (numbers.now ≢ []) × AreDistinctNumbers numbers.now) (λ e. IsNumbersFault id.0 tag numbers.now e) }
{
    if is_no_tag(tag) {
        return Some(SchemaError::ReservedTag { id });
    }
    if numbers.is_empty() {
        return Some(SchemaError::NoNumbers { id });
    }
    if are_ascending(numbers) {
        return None;
    }
    for (index, named) in numbers.iter().enumerate() {
        if let Some(other) = same_number(numbers, index, named) {
            return Some(SchemaError::NumbersClash { id, index, other });
        }
    }
    None
}

/// Returns whether an alternative is the last of several, and an open type without a tag (X.680
/// 29).
fn is_open_end(
    types: &[Type],
    levels: usize,
    alternatives: &[Alternative],
    index: usize,
    alternative: TypeId,
) -> bool
    requires { index < length alternatives.now }
    ensures { IsWhether result ((0 < index) × (suc index ≡ length alternatives.now) × (is_open (shape_of_type types.now levels alternative.0) ≡ true)) }
{
    if index == 0 || alternatives.len() - index != 1 {
        return false;
    }
    is_open_at(types, levels, alternative)
}

/// Returns whether an alternative has a tag, or is the last of several and an open type.
fn is_tagged_or_open(
    types: &[Type],
    levels: usize,
    alternatives: &[Alternative],
    index: usize,
    alternative: &Alternative,
) -> bool
    requires { index < length alternatives.now }
    ensures { IsWhether result (IsTaggedOrOpen (shape_of_type types.now levels) alternatives.now index alternative.now) }
{
    if has_tag(types, levels, alternative.type_id) {
        return true;
    }
    is_open_end(types, levels, alternatives, index, alternative.type_id)
}

/// Returns the first alternative whose number isn't below `id`, or which has no tag and isn't an
/// open type at the end.
fn late_or_untagged(
    types: &[Type],
    levels: usize,
    id: TypeId,
    alternatives: &[Alternative],
) -> Option<SchemaError>
    ensures { let f = shape_of_type types.now levels in
        MatchOption result (AreLowerAndTagged f id.0 alternatives.now) (λ e. IsAlternativesFault f id.0 alternatives.now e) }
{
    for (index, alternative) in alternatives.iter().enumerate() {
        if alternative.type_id.0 >= id.0 {
            return Some(SchemaError::LateAlternative { id, index });
        }
        if !is_tagged_or_open(types, levels, alternatives, index, alternative) {
            return Some(SchemaError::UntaggedAlternative { id, index });
        }
    }
    None
}

/// Returns the index of the first alternative after `index` that has a tag and may begin with this
/// one.
fn alternative_with(
    types: &[Type],
    levels: usize,
    alternatives: &[Alternative],
    index: usize,
    tag: Tag,
) -> Option<usize>
    requires { index < length alternatives.now }
    ensures { let f = shape_of_type types.now levels in
        MatchOption result
        ((j : ℕ) (a : Alternative) → index < j → Some a ≡ slice_get alternatives.now j → HasTag (f a.type_id.0) → IsFirst (f a.type_id.0) tag → ⊥)
        (λ j. (index < j) × ((a : Alternative) × (Some a ≡ slice_get alternatives.now j) × HasTag (f a.type_id.0) × IsFirst (f a.type_id.0) tag)) }
{
    for other in index + 1..alternatives.len() {
        let next = &alternatives[other];
        if begins(types, levels, next.type_id, tag) && has_tag(types, levels, next.type_id) {
            return Some(other);
        }
    }
    None
}

/// Returns the index of the first alternative after `index` that has a tag and may begin with one
/// of the tags with which `alternative` begins.
fn overlapping_alternative(
    types: &[Type],
    levels: usize,
    alternatives: &[Alternative],
    index: usize,
    alternative: TypeId,
) -> Option<usize>
    requires { index < length alternatives.now }
    ensures { let f = shape_of_type types.now levels in
        MatchOption result
        ((j : ℕ) (a : Alternative) → index < j → Some a ≡ slice_get alternatives.now j → HasTag (f a.type_id.0) → AreDistinct (f alternative.0) (f a.type_id.0))
        (λ j. (index < j) × ((a : Alternative) × (Some a ≡ slice_get alternatives.now j) × HasTag (f a.type_id.0) × (AreDistinct (f alternative.0) (f a.type_id.0) → ⊥))) }
{
    for other in index + 1..alternatives.len() {
        let next = &alternatives[other];
        if has_tag(types, levels, next.type_id)
            && !is_distinct(types, levels, alternative, levels, next.type_id)
        {
            return Some(other);
        }
    }
    None
}

/// Returns the index of the first alternative after `index` that has a tag and may begin with a tag
/// with which `alternative` begins.
fn same_alternative(
    types: &[Type],
    levels: usize,
    alternatives: &[Alternative],
    index: usize,
    alternative: TypeId,
) -> Option<usize>
    requires { index < length alternatives.now }
    ensures { let f = shape_of_type types.now levels in
        MatchOption result
        ((j : ℕ) (a : Alternative) → index < j → Some a ≡ slice_get alternatives.now j → HasTag (f a.type_id.0) → AreDistinct (f alternative.0) (f a.type_id.0))
        (λ j. (index < j) × ((a : Alternative) × (Some a ≡ slice_get alternatives.now j) × HasTag (f a.type_id.0) × (AreDistinct (f alternative.0) (f a.type_id.0) → ⊥))) }
{
    match first_tags_at(types, levels, alternative) {
        FirstTags::One(tag) => alternative_with(types, levels, alternatives, index, tag),
        _ => overlapping_alternative(types, levels, alternatives, index, alternative),
    }
}

/// Returns the first two alternatives with tags that may begin with the same tag (X.680 29.3).
fn alternatives_clash(
    types: &[Type],
    levels: usize,
    id: TypeId,
    alternatives: &[Alternative],
) -> Option<SchemaError>
    ensures { let f = shape_of_type types.now levels in
        MatchOption result (AreDistinctAlternatives f alternatives.now) (λ e. IsAlternativesFault f id.0 alternatives.now e) }
{
    for (index, alternative) in alternatives.iter().enumerate() {
        if let Some(other) = same_alternative(
            types,
            levels,
            alternatives,
            index,
            alternative.type_id,
        ) {
            return Some(SchemaError::AlternativesClash { id, index, other });
        }
    }
    None
}

/// Returns what is wrong with a CHOICE.
fn choice_fault(
    types: &[Type],
    levels: usize,
    id: TypeId,
    alternatives: &[Alternative],
) -> Option<SchemaError>
    ensures { let f = shape_of_type types.now levels in
        MatchOption result
        ((alternatives.now ≢ []) × AreLowerAndTagged f id.0 alternatives.now × AreDistinctAlternatives f alternatives.now)
        (λ e. IsAlternativesFault f id.0 alternatives.now e) }
{
    if alternatives.is_empty() {
        return Some(SchemaError::NoAlternatives { id });
    }
    if let Some(fault) = late_or_untagged(types, levels, id, alternatives) {
        return Some(fault);
    }
    alternatives_clash(types, levels, id, alternatives)
}

/// Returns the index of the first component after `index` that may follow if that one is absent,
/// and may begin with the tag (X.680 25.6).
fn same_component(
    types: &[Type],
    levels: usize,
    components: &[Component],
    index: usize,
    tag: Tag,
) -> Option<usize>
    requires { index < length components.now }
    ensures { let f = shape_of_type types.now levels in
        MatchOption result
        ((j : ℕ) (q : _) → MayFollow components.now index j → Some q ≡ slice_get components.now j → IsFirst (f q.type_id.0) tag → ⊥)
        (λ j. MayFollow components.now index j × ((q : Component) × (Some q ≡ slice_get components.now j) × IsFirst (f q.type_id.0) tag)) }
{
    for other in index + 1..components.len() {
        let component = &components[other];
        if begins(types, levels, component.type_id, tag) {
            return Some(other);
        }
        if is_always_there(component) {
            return None;
        }
    }
    None
}

/// Returns the index of the first component after `index` that may follow if that one is absent,
/// and may begin with a tag of the type (X.680 25.6).
fn overlapping_component(
    types: &[Type],
    levels: usize,
    components: &[Component],
    index: usize,
    ty: TypeId,
) -> Option<usize>
    requires { index < length components.now }
    ensures { let f = shape_of_type types.now levels in
        MatchOption result
        ((j : ℕ) (q : _) → MayFollow components.now index j → Some q ≡ slice_get components.now j → AreDistinct (f ty.0) (f q.type_id.0))
        (λ j. MayFollow components.now index j × ((q : Component) × (Some q ≡ slice_get components.now j) × (AreDistinct (f ty.0) (f q.type_id.0) → ⊥))) }
{
    for other in index + 1..components.len() {
        let component = &components[other];
        if !is_distinct(types, levels, ty, levels, component.type_id) {
            return Some(other);
        }
        if is_always_there(component) {
            return None;
        }
    }
    None
}

/// Returns whether the first tags of the type with this number tell that a value of it follows.
fn is_recognizable(types: &[Type], levels: usize, id: TypeId) -> bool
    ensures { IsWhether result (IsRecognizable (shape_of_type types.now levels id.0)) }
{
    if !has_tag(types, levels, id) {
        return false;
    }
    has_firsts(types, levels, id)
}

/// Returns what is wrong with a component of a SEQUENCE that may be absent and has no tag of its
/// own, as a CHOICE.
fn untagged_fault(
    types: &[Type],
    levels: usize,
    id: TypeId,
    components: &[Component],
    index: usize,
    component: &Component,
) -> Option<SchemaError>
    requires within { index < length components.now }
    requires untagged { own_at types.now component.now.type_id.0 ≡ None }
    requires absent { IsAlwaysThere (presence_of component.now.presence) → ⊥ }
    ensures { let f = shape_of_type types.now levels in
        MatchOption result
        ((j : ℕ) (q : _) → Some q ≡ slice_get components.now j → MayFollow components.now index j → IsToldFrom None (f component.now.type_id.0) (f q.type_id.0))
        (λ e. (tag : _) → Some component.now ≡ slice_get components.now index → IsSequenceFault (own_at types.now) f id.0 tag components.now e) }
{
    if index + 1 == components.len() {
        return None;
    }
    if !is_recognizable(types, levels, component.type_id) {
        return Some(SchemaError::UntaggedComponent { id, index });
    }
    match overlapping_component(types, levels, components, index, component.type_id) {
        Some(other) => Some(SchemaError::ComponentsClash { id, index, other }),
        None => None,
    }
}

/// Returns what is wrong with a component of a SEQUENCE, if it may be absent.
fn component_fault(
    types: &[Type],
    levels: usize,
    id: TypeId,
    components: &[Component],
    index: usize,
    component: &Component,
) -> Option<SchemaError>
    requires { index < length components.now }
    ensures { let f = shape_of_type types.now levels in
        MatchOption result
        ((j : ℕ) (q : _) → Some q ≡ slice_get components.now j → (IsAlwaysThere (presence_of component.now.presence) → ⊥) → MayFollow components.now index j
        → IsToldFrom (own_at types.now component.now.type_id.0) (f component.now.type_id.0) (f q.type_id.0))
        (λ e. (tag : _) → Some component.now ≡ slice_get components.now index → IsSequenceFault (own_at types.now) f id.0 tag components.now e) }
{
    if is_always_there(component) {
        return None;
    }
    let tag = tag_at(types, component.type_id);
    if is_no_tag(tag) {
        return untagged_fault(types, levels, id, components, index, component);
    }
    match same_component(types, levels, components, index, tag) {
        Some(other) => Some(SchemaError::ComponentsClash { id, index, other }),
        None => None,
    }
}

/// Returns the first component of a SEQUENCE that may be absent and isn't distinguished from what
/// may follow then (X.680 25.6).
fn components_clash(
    types: &[Type],
    levels: usize,
    id: TypeId,
    components: &[Component],
) -> Option<SchemaError>
    ensures { let f = shape_of_type types.now levels in
        MatchOption result (AreToldInOrder (own_at types.now) f components.now) (λ e. (tag : _) → IsSequenceFault (own_at types.now) f id.0 tag components.now e) }
{
    for (index, component) in components.iter().enumerate() {
        if let Some(fault) = component_fault(types, levels, id, components, index, component) {
            return Some(fault);
        }
    }
    None
}

/// Returns whether a component is the last one, and required.
fn may_be_unknown(components: &[Component], index: usize, component: &Component) -> bool
    requires { index < length components.now }
    ensures { IsWhether result ((suc index ≡ length components.now) × IsRequired component.now.presence) }
{
    if components.len() - index != 1 {
        return false;
    }
    is_required(component)
}

/// Returns whether a component isn't unknown values, or is the last one and required.
fn is_well_placed(
    types: &[Type],
    levels: usize,
    components: &[Component],
    index: usize,
    component: &Component,
) -> bool
    requires levels { levels ≢ 0 }
    requires within { index < length components.now }
    ensures { let f = shape_of_type types.now levels in
        IsWhether result (IsUnknown (f component.now.type_id.0) → (suc index ≡ length components.now) × IsRequired component.now.presence) }
{
    if !is_unknown_at(types, component.type_id) {
        return true;
    }
    may_be_unknown(components, index, component)
}

/// Returns the index of the first component that is unknown values, and isn't the last or may be
/// absent (X.680 25, 27).
fn misplaced_unknown(types: &[Type], levels: usize, components: &[Component]) -> Option<usize>
    requires { levels ≢ 0 }
    ensures { let f = shape_of_type types.now levels in
        MatchOption result (EndsUnknown f components.now) (λ i. IsMisplaced f components.now i) }
{
    for (index, component) in components.iter().enumerate() {
        if !is_well_placed(types, levels, components, index, component) {
            return Some(index);
        }
    }
    None
}

/// Returns what is wrong with a SEQUENCE.
fn sequence_fault(
    types: &[Type],
    levels: usize,
    id: TypeId,
    tag: Tag,
    components: &[Component],
) -> Option<SchemaError>
    requires { levels ≢ 0 }
    ensures { let f = shape_of_type types.now levels in
        MatchOption result ((tag ≢ eoc) × AreToldInOrder (own_at types.now) f components.now × EndsUnknown f components.now) (λ e. IsSequenceFault (own_at types.now) f id.0 tag components.now e) }
{
    if is_no_tag(tag) {
        return Some(SchemaError::ReservedTag { id });
    }
    if let Some(index) = misplaced_unknown(types, levels, components) {
        return Some(SchemaError::MisplacedUnknown { id, index });
    }
    components_clash(types, levels, id, components)
}

/// Returns whether a type has a tag, or is that of unknown values.
fn is_tagged_or_unknown(types: &[Type], levels: usize, id: TypeId) -> bool
    requires { levels ≢ 0 }
    ensures { IsWhether result (IsTaggedOrUnknown (shape_of_type types.now levels id.0)) }
{
    if is_unknown_at(types, id) {
        return true;
    }
    has_tag(types, levels, id)
}

/// Returns the first component of a SET that is an extension addition, or that has no tag and isn't
/// unknown values.
fn addition_or_untagged(
    types: &[Type],
    levels: usize,
    id: TypeId,
    components: &[Component],
) -> Option<SchemaError>
    requires { levels ≢ 0 }
    ensures { let f = shape_of_type types.now levels in
        MatchOption result (AreTagged f components.now) (λ e. (tag : _) → IsSetFault f id.0 tag components.now e) }
{
    for (index, component) in components.iter().enumerate() {
        if is_addition(component) {
            return Some(SchemaError::AdditionInSet { id, index });
        }
        if !is_tagged_or_unknown(types, levels, component.type_id) {
            return Some(SchemaError::UntaggedInSet { id, index });
        }
    }
    None
}

/// Returns the index of the first component after `index` that may begin with one of the tags with
/// which the type begins.
fn clashing_component(
    types: &[Type],
    levels: usize,
    components: &[Component],
    index: usize,
    ty: TypeId,
) -> Option<usize>
    requires { index < length components.now }
    ensures { let f = shape_of_type types.now levels in
        MatchOption result
        ((j : ℕ) (q : _) → index < j → Some q ≡ slice_get components.now j → AreDistinct (f ty.0) (f q.type_id.0))
        (λ j. (index < j) × ((q : Component) × (Some q ≡ slice_get components.now j) × (AreDistinct (f ty.0) (f q.type_id.0) → ⊥))) }
{
    for other in index + 1..components.len() {
        let next = &components[other];
        if !is_distinct(types, levels, ty, levels, next.type_id) {
            return Some(other);
        }
    }
    None
}

/// Returns the first two components of a SET that may begin with the same tag (X.680 27.3).
fn set_clash(
    types: &[Type],
    levels: usize,
    id: TypeId,
    components: &[Component],
) -> Option<SchemaError>
    ensures { let f = shape_of_type types.now levels in
        MatchOption result (AreDistinctComponents f components.now) (λ e. (tag : _) → IsSetFault f id.0 tag components.now e) }
{
    for (index, component) in components.iter().enumerate() {
        if let Some(other) = clashing_component(
            types,
            levels,
            components,
            index,
            component.type_id,
        ) {
            return Some(SchemaError::SetClash { id, index, other });
        }
    }
    None
}

/// Returns what is wrong with a SET.
fn set_fault(
    types: &[Type],
    levels: usize,
    id: TypeId,
    tag: Tag,
    components: &[Component],
) -> Option<SchemaError>
    requires { levels ≢ 0 }
    ensures { let f = shape_of_type types.now levels in
        MatchOption result
        ((tag ≢ eoc) × AreTagged f components.now × EndsUnknown f components.now × AreDistinctComponents f components.now)
        (λ e. IsSetFault f id.0 tag components.now e) }
{
    if is_no_tag(tag) {
        return Some(SchemaError::ReservedTag { id });
    }
    if let Some(fault) = addition_or_untagged(types, levels, id, components) {
        return Some(fault);
    }
    if let Some(index) = misplaced_unknown(types, levels, components) {
        return Some(SchemaError::MisplacedUnknown { id, index });
    }
    set_clash(types, levels, id, components)
}

/// Returns what is wrong with a type.
fn type_fault(types: &[Type], levels: usize, id: TypeId, ty: &Type) -> Option<SchemaError>
    requires { levels ≢ 0 }
    ensures { let f = shape_of_type types.now levels in
        MatchOption result (IsWellFormed (own_at types.now) f id.0 ty.now) (λ e. IsFaultOf (own_at types.now) f id.0 ty.now e) }
{
    match ty {
        Type::Leaf { kind, tag, .. } => leaf_fault(id, *kind, *tag),
        Type::Enumerated { tag, numbers } => numbers_fault(id, *tag, numbers),
        Type::Any { .. } => None,
        Type::Choice { alternatives, .. } => choice_fault(types, levels, id, alternatives),
        Type::Tagged { tag, inner } => tagged_fault(types, levels, id, *tag, *inner),
        Type::Sequence { tag, components } => sequence_fault(types, levels, id, *tag, components),
        Type::Set {
            tag,
            components,
            ..
        } => set_fault(types, levels, id, *tag, components),
        Type::SequenceOf { tag, element, .. } => list_fault(types, levels, id, *tag, *element),
        Type::SetOf { tag, element, .. } => list_fault(types, levels, id, *tag, *element),
        Type::Unknown => None,
    }
}

/// Returns what is wrong with the type with this number, so that of many types all can be found
/// that break a rule. Whether defaults are values of their types is [`unfit_default_at`].
///
/// [`unfit_default_at`]: crate::unfit_default_at
pub fn broken_rule_at(types: &[Type], id: TypeId) -> Option<SchemaError>
    ensures { MatchOption result (IsWellFormedAt types.now id.0) (λ e. SomeFault (own_at types.now) (begin_at types.now) types.now e) }
{
    match type_at(types, id) {
        Some(ty) => type_fault(types, types.len() + 1, id, ty),
        None => None,
    }
}

fn is_choice(ty: &Type) -> bool
    ensures { IsWhether result (IsChoice ty.now) }
{
    match ty {
        Type::Choice { .. } => true,
        _ => false,
    }
}

/// Returns what is wrong with the first CHOICE that breaks a rule. One that keeps them refers to
/// lower numbers alone, so that no CHOICE leads back to itself.
pub fn first_choice_fault(types: &[Type], levels: usize) -> Option<SchemaError>
    requires { levels ≢ 0 }
    ensures { let f = shape_of_type types.now levels in
        MatchOption result (AreChoicesWellFormed (own_at types.now) f types.now) (λ e. SomeFault (own_at types.now) f types.now e) }
{
    for (number, ty) in types.iter().enumerate() {
        if !is_choice(ty) {
            continue;
        }
        if let Some(fault) = type_fault(types, levels, TypeId(number), ty) {
            return Some(fault);
        }
    }
    None
}

/// Returns what is wrong with a type that isn't a CHOICE.
fn other_fault(types: &[Type], levels: usize, id: TypeId, ty: &Type) -> Option<SchemaError>
    requires { levels ≢ 0 }
    ensures { let f = shape_of_type types.now levels in
        MatchOption result ((IsChoice ty.now → ⊥) → IsWellFormed (own_at types.now) f id.0 ty.now) (λ e. IsFaultOf (own_at types.now) f id.0 ty.now e) }
{
    if is_choice(ty) {
        return None;
    }
    type_fault(types, levels, id, ty)
}

/// Returns what is wrong with the first type that breaks a rule and isn't a CHOICE.
pub fn first_other_fault(types: &[Type], levels: usize) -> Option<SchemaError>
    requires { levels ≢ 0 }
    ensures { let f = shape_of_type types.now levels in
        MatchOption result (AreOthersWellFormed (own_at types.now) f types.now) (λ e. SomeFault (own_at types.now) f types.now e) }
{
    for (number, ty) in types.iter().enumerate() {
        if let Some(fault) = other_fault(types, levels, TypeId(number), ty) {
            return Some(fault);
        }
    }
    None
}
