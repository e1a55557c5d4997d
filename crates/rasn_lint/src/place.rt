//! Whether a part may be where it is (X.690 10.3, 11.5, 11.6).
ghost use Rattle.std.specs.Prelude.{◌≡◌, IfOk, MatchOption, option_copied, slice_get, Ok, Some};
ghost use Rattle.rasn_types.specs.Tags.{form, IsTagBelow};
ghost use Rattle.rasn_types.specs.declared.types.codec.Codec.TheVariants.{Ber};
ghost use Rattle.rasn_types.specs.declared.types.tag.Tag.{Tag};
ghost use Rattle.rasn_types.specs.Truth.{IsWhether};
ghost use Rattle.rasn_de.specs.ParserViews.{peeked_tag};
ghost use Rattle.rasn_dynamic.specs.Faults.{start};
ghost use Rattle.rasn_lint.specs.Trail.{holder_in, before_in};
ghost use Rattle.rasn_lint.specs.Place.{der_error, order_of, default_in, default_at, default_of, order_if, default_if, type_of, HasLowerTag, IsOrderFault, IsDefaultFault};

use crate::der::order::{is_less, is_tag_below};
use crate::trail::{Step, before, holder_of};
use rasn_de::ber::de::{Decoder, DecoderOptions};
use rasn_dynamic::{Span, decode};
use rasn_schema::{Component, Presence, Schema, Type, TypeId, Value, type_at};
use rasn_types::error::{CodecDecodeError, DecodeError, DecodeErrorKind, DerDecodeErrorKind};
use rasn_types::types::{Codec, Tag};
use std::alloc::{AllocError, Global};

/// The order of what a value holds.
#[derive(Clone, Copy)]
pub enum Order {
    /// Any.
    Unordered,
    /// Tags ascend, as in a SET (X.690 10.3).
    ByTag,
    /// Octets ascend, as in a SET OF (X.690 11.6).
    ByOctets,
}

/// Returns the error of DER of this kind.
pub fn der_error(kind: DerDecodeErrorKind) -> DecodeError
    ensures { result ≡ der_error kind }
{
    DecodeError {
        kind: DecodeErrorKind::CodecSpecific {
            inner: CodecDecodeError::Der(kind),
        },
        codec: Codec::Der,
    }
}

/// Returns a decoder of the octets by BER.
pub fn reader_of(alloc: Global, octets: &[u8]) -> Decoder<'_>
    ensures { result ≡ start Ber octets.now }
{
    Decoder::new(alloc, octets, DecoderOptions::ber())
}

/// Returns the tag with which an encoding begins.
pub fn tag_of(alloc: Global, octets: &[u8]) -> Option<Tag>
    ensures { MatchOption result ((t : Tag) → peeked_tag (form Ber) octets.now ≡ Ok t → ⊥) (λ t. peeked_tag (form Ber) octets.now ≡ Ok t) }
{
    let Ok(tag) = reader_of(alloc, octets).peek_tag() else {
        return None;
    };
    Some(tag)
}

/// Returns whether octets begin with a tag below the one that others begin with (X.680 8.6).
fn has_lower_tag(alloc: Global, octets: &[u8], others: &[u8]) -> bool
    ensures { IsWhether result (HasLowerTag octets.now others.now) }
{
    let Some(tag) = tag_of(alloc, octets) else {
        return false;
    };
    let Some(other) = tag_of(alloc, others) else {
        return false;
    };
    is_tag_below(tag, other)
}

/// Returns the order of what a value of the type holds.
fn order_of(ty: &Type) -> Order
    ensures { result ≡ order_of ty.now }
{
    match ty {
        Type::Set { .. } => Order::ByTag,
        Type::SetOf { .. } => Order::ByOctets,
        _ => Order::Unordered,
    }
}

/// Returns the error of octets that are below those of the part before (X.690 10.3, 11.6).
fn order_fault_after(
    alloc: Global,
    order: Order,
    octets: &[u8],
    last: Option<Step<'_>>,
) -> Option<DecodeError>
    ensures { IsOrderFault order octets.now last.entry result }
{
    let last = last?;
    match order {
        Order::Unordered => None,
        Order::ByTag => if has_lower_tag(alloc, octets, last.octets) {
            Some(der_error(DerDecodeErrorKind::SetComponentsOutOfOrder))
        } else {
            None
        },
        Order::ByOctets => if is_less(octets, last.octets) {
            Some(der_error(DerDecodeErrorKind::SetOfOutOfOrder))
        } else {
            None
        },
    }
}

/// Returns the type of a part that holds another.
fn type_of<'schema>(types: &'schema [Type], holder: Option<Step<'_>>) -> Option<&'schema Type>
    ensures { option_copied result ≡ type_of types.now holder.entry }
{
    type_at(types, holder?.id)
}

/// Returns the error of an element of a SET OF whose octets are less than those of the element
/// before it (X.690 11.6), or of a component of a SET whose tag is below that of the one before it
/// (X.690 10.3).
pub fn order_fault(
    alloc: Global,
    types: &[Type],
    trail: &[Step<'_>],
    part: &Span<'_>,
) -> Option<DecodeError>
    ensures { IsOrderFault (order_if (type_of types.now (holder_in trail.now part.now))) part.now.octets.now (before_in trail.now part.now) result }
{
    let order = match type_of(types, holder_of(trail, part)) {
        Some(ty) => order_of(ty),
        None => Order::Unordered,
    };
    order_fault_after(alloc, order, part.octets, before(trail, part))
}

/// Returns the default of a component.
fn default_in(presence: &Presence) -> Option<&Value<'static>>
    ensures { option_copied result ≡ default_in presence.now }
{
    match presence {
        Presence::Default(value) => Some(value),
        _ => None,
    }
}

/// Returns the default of the component with this index.
fn default_at(components: &[Component], index: usize) -> Option<&Value<'static>>
    ensures { option_copied result ≡ default_at (slice_get components.now index) }
{
    match components.get(index) {
        Some(component) => default_in(&component.presence),
        None => None,
    }
}

/// Returns the default that a part has in a value of the type.
fn default_of(ty: &Type, index: usize) -> Option<&Value<'static>>
    ensures { option_copied result ≡ default_of ty.now index }
{
    match ty {
        Type::Sequence { components, .. } => default_at(components.as_slice(), index),
        Type::Set { components, .. } => default_at(components.as_slice(), index),
        _ => None,
    }
}

/// Returns the error of octets whose value is the same as the default (X.690 11.5).
fn default_fault_of(
    alloc: Global,
    schema: &Schema,
    id: TypeId,
    octets: &[u8],
    default: &Value<'_>,
) -> Result<Option<DecodeError>, AllocError>
    ensures { IfOk result (IsDefaultFault schema.now.types.items id.0 octets.now (Some default.now)) }
{
    match decode(alloc, Codec::Ber, schema, id, octets) {
        Ok(value) => if value.means_same(default) {
            Ok(Some(der_error(DerDecodeErrorKind::DefaultValuePresent)))
        } else {
            Ok(None)
        },
        Err(error) => if error.is_out_of_memory() {
            Err(AllocError)
        } else {
            Ok(None)
        },
    }
}

/// Returns the error of a component that is its default, which must not be written (X.690 11.5).
pub fn default_fault(
    alloc: Global,
    schema: &Schema,
    trail: &[Step<'_>],
    part: &Span<'_>,
) -> Result<Option<DecodeError>, AllocError>
    ensures { IfOk result (IsDefaultFault schema.now.types.items part.now.id.0 part.now.octets.now (default_if (type_of schema.now.types.items (holder_in trail.now part.now)) part.now.index)) }
{
    let Some(ty) = type_of(schema.types(), holder_of(trail, part)) else {
        return Ok(None);
    };
    match default_of(ty, part.index) {
        Some(default) => default_fault_of(alloc, schema, part.id, part.octets, default),
        None => Ok(None),
    }
}
