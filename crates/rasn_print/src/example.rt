//! A value of a type to begin with.
ghost use Rattle.std.specs.Prelude.{◌≡◌, replicate, IfOk, IfSome};
ghost use Rattle.rasn_types.specs.Shapes.{number, numbers};
ghost use Rattle.rasn_schema.specs.Trees.{tree_of};

use rasn_schema::{
    Alternative, Component, LeafKind, NamedNumber, Presence, RelativeOid, Schema, Type, TypeId,
    Value, type_at,
};
use rasn_types::ber::time::parse_generalized_time;
use rasn_types::types::{
    BitString, BmpString, Bound, Bounded, Class, Constraints, CowBits, Date, Integer,
    ObjectIdentifier, Tag,
};
use std::alloc::{AllocError, Global};
use std::borrow::{CowSlice, CowStr};

/// How many values are made at most, those of alternatives that are given up among them.
const MOST: usize = 20_000;

/// After how many of them parts that may be absent are.
const FULL: usize = 2_000;

/// How many values may be in one another.
const LEVELS: usize = 100;

/// How many octets a value has at most.
const LONGEST: usize = 65536;

/// Returns a small value of a type: numbers near 0, strings of a character, lists of an element and
/// the first alternatives, unless constraints or the type exclude them. Parts that may be absent
/// are present, unless they are in one of the same type and tag.
///
/// Returns `None` if it can't be made so.
///
/// # Errors
/// `AllocError` if memory runs out.
pub(crate) fn example_of(
    alloc: Global,
    schema: &Schema,
    id: TypeId,
) -> Result<Option<Value<'static>>, AllocError> {
    let mut maker = Maker {
        alloc,
        types: schema.types(),
        around: Vec::new(alloc),
        left: MOST,
    };
    made(&mut maker, LEVELS, id)
}

/// What is known while a value is made.
#[derive(Drop)]
struct Maker<'types> {
    alloc: Global,
    types: &'types [Type],
    /// The types of the values that it is in.
    around: Vec<TypeId>,
    /// How many more values there may be.
    left: usize,
}

/// A value, if there is one.
type Made = Result<Option<Value<'static>>, AllocError>;

/// Returns a value of the type with this number, unless it is in one of that type.
#[cycle(made)]
fn made(maker: &mut Maker<'_>, levels: usize, id: TypeId) -> Made {
    if levels == 0 || maker.left == 0 || maker.around.contains(&id) {
        return Ok(None);
    }
    let Some(ty) = type_at(maker.types, id) else {
        return Ok(None);
    };
    maker.left -= 1;
    maker.around.push(id)?;
    let value = made_by(maker, levels - 1, ty)?;
    maker.around.pop();
    Ok(value)
}

/// Returns a value of a type.
#[cycle(made)]
fn made_by(maker: &mut Maker<'_>, levels: usize, ty: &Type) -> Made {
    match ty {
        Type::Leaf {
            kind,
            constraints,
            names,
            ..
        } => leaf(maker.alloc, *kind, constraints, names.as_slice()),
        Type::Enumerated { numbers, .. } => match numbers.first() {
            Some(first) => number(maker.alloc, first.number as i128),
            None => Ok(None),
        },
        Type::Any { tag } => encoding(maker.alloc, *tag),
        Type::Tagged { inner, .. } => made(maker, levels, *inner),
        Type::Choice { alternatives, .. } => chosen(maker, levels, alternatives.as_slice()),
        Type::Sequence { components, .. } | Type::Set { components, .. } => {
            items(maker, levels, components.as_slice())
        }
        Type::SequenceOf {
            element,
            constraints,
            ..
        } => Ok(elements(maker, levels, *element, constraints)?.map(|values| Value::Items(values))),
        Type::SetOf {
            element,
            constraints,
            ..
        } => {
            let values = elements(maker, levels, *element, constraints)?;
            Ok(values.map(|values| Value::Elements(values)))
        }
        Type::Unknown => Ok(Some(Value::Items(Vec::new(maker.alloc)))),
    }
}

/// Returns the first alternative of which there is a value.
#[cycle(made)]
fn chosen(maker: &mut Maker<'_>, levels: usize, alternatives: &[Alternative]) -> Made {
    for (index, alternative) in alternatives.iter().enumerate() {
        if let Some(value) = made(maker, levels, alternative.type_id)? {
            return Ok(Some(Value::Chosen(index, Box::new(maker.alloc, value)?)));
        }
    }
    Ok(None)
}

/// Returns a value for each component.
#[cycle(made)]
fn items(maker: &mut Maker<'_>, levels: usize, components: &[Component]) -> Made {
    let mut values = Vec::new(maker.alloc);
    for component in components {
        let value = match &component.presence {
            Presence::Default(value) => Some(value.try_clone(maker.alloc)?),
            Presence::Required | Presence::Addition => { made(maker, levels, component.type_id)? }
            Presence::Optional if maker.left < MOST - FULL => Some(Value::Absent),
            Presence::Optional => match made(maker, levels, component.type_id)? {
                Some(value) => Some(value),
                None => Some(Value::Absent),
            },
        };
        match value {
            Some(value) => values.push(value)?,
            None => return Ok(None),
        }
    }
    Ok(Some(Value::Items(values)))
}

/// Returns one element, or as many as there have to be.
#[cycle(made)]
fn elements(
    maker: &mut Maker<'_>,
    levels: usize,
    element: TypeId,
    constraints: &Constraints,
) -> Result<Option<Vec<Value<'static>>>, AllocError> {
    let least = size(constraints, 0);
    let count = if maker.left < MOST - FULL {
        least
    } else {
        size(constraints, 1)
    };
    let mut values = Vec::new(maker.alloc);
    for index in 0..count {
        match made(maker, levels, element)? {
            Some(value) => values.push(value)?,
            None if index >= least => break,
            None => return Ok(None),
        }
    }
    Ok(Some(values))
}

/// Returns the number that meets a bound and is nearest to this one.
fn nearest<T: Ord + Copy>(bound: Option<Bound<T>>, wanted: T) -> T {
    let Some(bound) = bound else {
        return wanted;
    };
    match bound.constraint {
        Bounded::None => wanted,
        Bounded::Single(only) => only,
        Bounded::Range { start, end } => match (start, end) {
            (Some(start), _) if wanted < start => start,
            (_, Some(end)) if wanted > end => end,
            _ => wanted,
        },
    }
}

/// Returns the size that meets its constraint and is nearest to this one.
fn size(constraints: &Constraints, wanted: usize) -> usize {
    nearest(constraints.size, wanted)
}

/// Returns a value of a kind that holds no others.
fn leaf(alloc: Global, kind: LeafKind, constraints: &Constraints, names: &[NamedNumber]) -> Made {
    let text = size(constraints, 1);
    if text > LONGEST {
        return Ok(None);
    }
    match kind {
        LeafKind::Boolean => Ok(Some(Value::Boolean(false))),
        LeafKind::Null => Ok(Some(Value::Null)),
        LeafKind::Integer
        | LeafKind::Signed32
        | LeafKind::Signed64
        | LeafKind::Unsigned32
        | LeafKind::Unsigned64 => number(alloc, nearest(constraints.value, first_number(names))),
        LeafKind::ObjectIdentifier => {
            // The arc for examples (X.660 7.8).
            let arcs = ObjectIdentifier::from_arcs(alloc, &[2, 999])?;
            Ok(arcs.map(|arcs| Value::Arcs(arcs)))
        }
        LeafKind::BitString => bits(alloc, size(constraints, 8)),
        LeafKind::NamedBits => bits(alloc, 0),
        LeafKind::OctetString => octets(alloc, 0, text),
        LeafKind::FixedOctetString(len) => octets(alloc, 0, len.min(LONGEST)),
        LeafKind::Numeric => octets(alloc, b'0', text),
        LeafKind::Printable | LeafKind::Visible | LeafKind::Ia5 | LeafKind::AnyOctets => {
            octets(alloc, b'A', text)
        }
        LeafKind::Utf8 | LeafKind::Universal => characters(alloc, text),
        LeafKind::Bmp => units(alloc, text),
        LeafKind::UtcTime | LeafKind::GeneralizedTime => {
            let time = parse_generalized_time(b"20000101000000Z");
            Ok(time.map(|time| Value::Instant(time)))
        }
        LeafKind::Date => Ok(Date::new(2000, 1, 1).map(|day| Value::Day(day))),
        LeafKind::RelativeOid => {
            let arcs = RelativeOid::parse(alloc, "1.2")?;
            Ok(arcs.map(|arcs| Value::Arcs(arcs)))
        }
        LeafKind::Real => octets(alloc, 0, 0),
        LeafKind::Time => copied(alloc, b"2000-01-01"),
        LeafKind::Duration => copied(alloc, b"P1D"),
        LeafKind::TimeOfDay => octets(alloc, b'0', 6),
        LeafKind::DateTime => copied(alloc, b"20000101000000"),
    }
}

/// Returns the first of the numbers that have a name, or 0 without one.
fn first_number(names: &[NamedNumber]) -> i128 {
    match names.first() {
        Some(first) => first.number as i128,
        None => 0,
    }
}

/// Returns so many characters.
fn characters(alloc: Global, count: usize) -> Made {
    let mut text = String::new(alloc);
    for _ in 0..count {
        text.push('A')?;
    }
    Ok(Some(Value::Text(CowStr::Owned(text))))
}

/// Returns so many characters of two octets.
fn units(alloc: Global, count: usize) -> Made {
    let mut octets = Vec::new(alloc);
    for _ in 0..count {
        octets.extend_from_slice(&[0, b'A'])?;
    }
    let units = BmpString::from_octets(alloc, &octets)?;
    Ok(units.map(|units| Value::Units(units)))
}

/// Returns a number.
fn number(alloc: Global, value: i128) -> Made
    ensures { IfOk result (λ made. IfSome made (λ v. tree_of v ≡ number value)) }
{
    Ok(Some(Value::Integer(Integer::from_i128(alloc, value)?)))
}

/// Returns so many octets.
fn octets(alloc: Global, octet: u8, count: usize) -> Made
    ensures { IfOk result (λ made. IfSome made (λ v. tree_of v ≡ numbers (replicate count octet))) }
{
    let octets = vec![in alloc; octet; count]?;
    Ok(Some(Value::Octets(CowSlice::Owned(octets))))
}

/// Returns these octets.
fn copied(alloc: Global, octets: &[u8]) -> Made {
    let octets = Vec::from_slice(alloc, octets)?;
    Ok(Some(Value::Octets(CowSlice::Owned(octets))))
}

/// Returns so many bits.
fn bits(alloc: Global, count: usize) -> Made {
    let octets = vec![in alloc; 0u8; count.div_ceil(8)]?;
    Ok(BitString::new(octets, count).map(|bits| Value::Bits(CowBits::Owned(bits))))
}

/// Returns the encoding of NULL, also with a tag that has one octet in place of its own.
fn encoding(alloc: Global, tag: Tag) -> Made {
    if tag == Tag::EOC {
        return copied(alloc, &[5, 0]);
    }
    let class = match tag.class {
        Class::Universal => 0u8,
        Class::Application => 0x40,
        Class::Context => 0x80,
        Class::Private => 0xC0,
    };
    match u8::try_from(tag.value) {
        Ok(value) if value < 31 => copied(alloc, &[class | value, 0]),
        Ok(_) | Err(_) => Ok(None),
    }
}
