//! Which values are values of a type.
ghost use Rattle.std.specs.Prelude.{◌≡◌, ◌⊎◌, Contains};
ghost use Rattle.rasn_schema.specs.declared.types.LeafKind.TheVariants.{UtcTime, GeneralizedTime, Utf8, Universal, ObjectIdentifier, RelativeOid};
ghost use Rattle.rasn_types.specs.Shapes.{IsIn, between};
ghost use Rattle.rasn_types.specs.CharacterString.{AreAdmitted};
ghost use Rattle.rasn_types.specs.BitString.{significant};
ghost use Rattle.rasn_types.specs.CowBits.{cow_bits};
ghost use Rattle.rasn_types.specs.Truth.{IsWhether};
ghost use Rattle.rasn_schema.specs.Shapes.{numbers_of};
ghost use Rattle.rasn_schema.specs.Schemas.{IsChoice};
ghost use Rattle.rasn_schema.specs.Fitting.{IsNumber, NumberFits, OctetsFit, BitsFit, FitsLeaf, AreOctets, ComponentFits, ComponentsFit, AreItems, EachFits, FitsBy, Fits};

use crate::fit::{elements_of, is_left_out, items_of};
use crate::innermost::innermost_at;
use crate::real::is_canonical_real;
use crate::schema::Schema;
use crate::time_text::{are_time_digits, is_time_text};
use crate::type_id::TypeId;
use crate::types::{Component, LeafKind, NamedNumber, Type};
use crate::value::Value;
use rasn_types::types::{Alphabet, CowBits, Integer};

/// Returns whether the number is one of those from `low` to `high`.
fn is_between(number: &Integer, low: i128, high: i128) -> bool
    ensures { IsWhether result (IsIn (between low high) number.now) }
{
    match number.to_i128() {
        Some(number) => low <= number && number <= high,
        None => false,
    }
}

/// Returns whether the number is a value of this kind.
fn number_fits(kind: LeafKind, number: &Integer) -> bool
    ensures { IsWhether result (NumberFits kind number.now) }
{
    match kind {
        LeafKind::Integer => true,
        LeafKind::Signed32 => is_between(number, i32::MIN as i128, i32::MAX as i128),
        LeafKind::Signed64 => is_between(number, i64::MIN as i128, i64::MAX as i128),
        LeafKind::Unsigned32 => is_between(number, 0, u32::MAX as i128),
        LeafKind::Unsigned64 => is_between(number, 0, u64::MAX as i128),
        _ => false,
    }
}

/// Returns whether the octets are in the alphabet.
fn are_admitted(alphabet: Alphabet, octets: &[u8]) -> bool
    ensures { IsWhether result (AreAdmitted alphabet octets.now) }
{
    alphabet.first_foreign(octets).is_none()
}

/// Returns whether the octets are a value of this kind.
fn octets_fit(kind: LeafKind, octets: &[u8]) -> bool
    ensures { IsWhether result (OctetsFit kind octets.now) }
{
    match kind {
        LeafKind::OctetString => true,
        LeafKind::FixedOctetString(len) => octets.len() == len,
        LeafKind::Numeric => are_admitted(Alphabet::Numeric, octets),
        LeafKind::Printable => are_admitted(Alphabet::Printable, octets),
        LeafKind::Visible => are_admitted(Alphabet::Visible, octets),
        LeafKind::Ia5 => are_admitted(Alphabet::Ia5, octets),
        LeafKind::AnyOctets => true,
        LeafKind::Real => is_canonical_real(octets),
        LeafKind::Time | LeafKind::Duration => is_time_text(octets),
        LeafKind::TimeOfDay => are_time_digits(6, octets),
        LeafKind::DateTime => are_time_digits(14, octets),
        _ => false,
    }
}

/// Returns whether the bits have no trailing 0 bits.
fn are_significant(bits: &CowBits<'_>) -> bool
    ensures { IsWhether result (significant (cow_bits bits.now) ≡ cow_bits bits.now) }
{
    let bits = bits.as_bitstr();
    bits.significant_len() == bits.len()
}

/// Returns whether the bits are a value of this kind.
fn bits_fit(kind: LeafKind, bits: &CowBits<'_>) -> bool
    ensures { IsWhether result (BitsFit kind (cow_bits bits.now)) }
{
    match kind {
        LeafKind::BitString => true,
        LeafKind::NamedBits => are_significant(bits),
        _ => false,
    }
}

/// Returns whether the value, which holds no other values, is one of this kind.
#[inline(always)]
pub fn leaf_fits(kind: LeafKind, value: &Value<'_>) -> bool
    ensures { IsWhether result (FitsLeaf kind value.now) }
{
    match value {
        Value::Boolean(_) => matches!(kind, LeafKind::Boolean),
        Value::Null => matches!(kind, LeafKind::Null),
        Value::Integer(number) => number_fits(kind, number),
        Value::Bits(bits) => bits_fit(kind, bits),
        Value::Octets(octets) => octets_fit(kind, octets.as_slice()),
        Value::Text(_) => is_text(kind),
        Value::Units(_) => matches!(kind, LeafKind::Bmp),
        Value::Arcs(_) => has_arcs(kind),
        Value::Instant(_) => is_time(kind),
        Value::Day(_) => matches!(kind, LeafKind::Date),
        Value::Items(_) => false,
        Value::Elements(_) => false,
        Value::Chosen(_, _) => false,
        Value::Absent => false,
    }
}

/// Returns whether the kind is one of the two whose values are texts.
fn is_text(kind: LeafKind) -> bool
    ensures { IsWhether result ((kind ≡ Utf8) ⊎ (kind ≡ Universal)) }
{
    matches!(kind, LeafKind::Utf8 | LeafKind::Universal)
}

/// Returns whether the kind is one of the two whose values are arcs.
fn has_arcs(kind: LeafKind) -> bool
    ensures { IsWhether result ((kind ≡ ObjectIdentifier) ⊎ (kind ≡ RelativeOid)) }
{
    matches!(kind, LeafKind::ObjectIdentifier | LeafKind::RelativeOid)
}

/// Returns whether the kind is one of the two whose values are instants.
fn is_time(kind: LeafKind) -> bool
    ensures { IsWhether result ((kind ≡ UtcTime) ⊎ (kind ≡ GeneralizedTime)) }
{
    matches!(kind, LeafKind::UtcTime | LeafKind::GeneralizedTime)
}

/// Returns whether the name is that of the number.
fn is_named(named: &NamedNumber, number: &Integer) -> bool
    ensures { IsWhether result (named.now.number ≡ number.now) }
{
    let listed = named.number as i128;
    match number.to_i128() {
        Some(number) => number == listed,
        None => false,
    }
}

/// Returns whether the number is one of these.
pub fn is_listed(numbers: &[NamedNumber], number: &Integer) -> bool
    ensures { IsWhether result (Contains (numbers_of numbers.now) number.now) }
{
    for named in numbers {
        if is_named(named, number) {
            return true;
        }
    }
    false
}

/// Returns whether the value is a number of the ENUMERATED.
fn is_number(numbers: &[NamedNumber], value: &Value<'_>) -> bool
    ensures { IsWhether result (IsNumber (numbers_of numbers.now) value.now) }
{
    match value {
        Value::Integer(number) => is_listed(numbers, number),
        _ => false,
    }
}

/// Returns whether the value is that of an open type.
fn are_octets(value: &Value<'_>) -> bool
    ensures { IsWhether result (AreOctets value.now) }
{
    matches!(value, Value::Octets(_))
}

/// Returns whether each value is that of an open type.
fn each_has_octets(values: &[Value<'_>]) -> bool
    ensures { IsWhether result (EachFits AreOctets values.now) }
{
    let mut rest = values;
    while let [value, after @ ..] = rest {
        if !are_octets(value) {
            return false;
        }
        rest = after;
    }
    true
}

/// Returns whether the value is a list of unknown values.
fn are_unknown(value: &Value<'_>) -> bool
    ensures { IsWhether result (AreItems (EachFits AreOctets) value.now) }
{
    match items_of(value) {
        Some(values) => each_has_octets(values),
        None => false,
    }
}

/// Returns whether the value is one of the type with this number. Types are followed `levels` deep.
#[cycle(fits)]
pub fn fits_at(types: &[Type], levels: usize, id: TypeId, value: &Value<'_>) -> bool
    ensures { IsWhether result (Fits types.now levels id.0 value.now) }
{
    match innermost_at(types, levels, id, value) {
        Some(inner) => type_fits(types, inner.below, inner.ty, inner.value),
        None => false,
    }
}

/// Returns whether the value is one of the type.
#[cycle(fits)]
fn type_fits(types: &[Type], below: usize, ty: &Type, value: &Value<'_>) -> bool
    requires { IsChoice ty.now → ⊥ }
    ensures { IsWhether result (FitsBy (Fits types.now below) ty.now value.now) }
{
    match ty {
        Type::Leaf { kind, .. } => leaf_fits(*kind, value),
        Type::Enumerated { numbers, .. } => is_number(numbers, value),
        Type::Any { .. } => are_octets(value),
        Type::Tagged { inner, .. } => fits_at(types, below, *inner, value),
        Type::Choice { .. } => unreachable!(),
        Type::Sequence { components, .. } => are_components(types, below, components, value),
        Type::Set { components, .. } => are_components(types, below, components, value),
        Type::SequenceOf { element, .. } => match items_of(value) {
            Some(values) => each_fits(types, below, *element, values),
            None => false,
        },
        Type::SetOf { element, .. } => match elements_of(value) {
            Some(values) => each_fits(types, below, *element, values),
            None => false,
        },
        Type::Unknown => are_unknown(value),
    }
}

/// Returns whether the value is a list of the components' values.
#[cycle(fits)]
fn are_components(types: &[Type], below: usize, components: &[Component], value: &Value<'_>) -> bool
    ensures { IsWhether result (AreItems (ComponentsFit (Fits types.now below) components.now) value.now) }
{
    match items_of(value) {
        Some(values) => components_fit(types, below, components, values),
        None => false,
    }
}

/// Returns whether there is a fitting value for each component.
#[cycle(fits)]
fn components_fit(
    types: &[Type],
    below: usize,
    components: &[Component],
    values: &[Value<'_>],
) -> bool
    ensures { IsWhether result (ComponentsFit (Fits types.now below) components.now values.now) }
{
    let mut rest = components;
    let mut left = values;
    while let [component, after @ ..] = rest {
        let [value, others @ ..] = left else {
            return false;
        };
        if !component_fits(types, below, component, value) {
            return false;
        }
        rest = after;
        left = others;
    }
    left.is_empty()
}

/// Returns whether the component is absent or has its default's value, or the value is one of its
/// type.
#[cycle(fits)]
pub fn component_fits(
    types: &[Type],
    below: usize,
    component: &Component,
    value: &Value<'_>,
) -> bool
    ensures { IsWhether result (ComponentFits (Fits types.now below) component.now value.now) }
{
    is_left_out(component, value) || fits_at(types, below, component.type_id, value)
}

/// Returns whether each value is one of the type.
#[cycle(fits)]
fn each_fits(types: &[Type], below: usize, element: TypeId, values: &[Value<'_>]) -> bool
    ensures { IsWhether result (EachFits (Fits types.now below element.0) values.now) }
{
    let mut rest = values;
    while let [value, after @ ..] = rest {
        if !fits_at(types, below, element, value) {
            return false;
        }
        rest = after;
    }
    true
}

/// Returns whether the value is one of the type with this number, so that it can be written.
pub fn fits(schema: &Schema, id: TypeId, value: &Value<'_>) -> bool
    ensures { IsWhether result (Fits schema.now.types.items 18446744073709551615 id.0 value.now) }
{
    fits_at(schema.types(), usize::MAX, id, value)
}
