//! Where a part of a message is, and what it is.
ghost use Rattle.std.specs.Prelude.{◌≡◌, slice_get};
ghost use Rattle.rasn_c.specs.Extents.{IsExtentOf, BeginsWith, kind_found, type_kind_number, header_of, end_of};
ghost use Rattle.rasn_types.specs.Tags.{rank};

use crate::encoding::{class_number, constructed_bit, end_length};
use rasn::Decoder;
use rasn::ber::de::DecoderOptions;
use rasn::types::{Codec, Tag};
use rasn_dynamic::Part;
use rasn_schema::{Schema, Type, TypeId, is_unknown_at, type_at};
use std::alloc::Global;

/// A part of a message: `soq_part` of the header.
#[repr(C)]
#[derive(Clone, Copy, Debug, PartialEq, Eq)]
pub struct Extent {
    /// Where it begins, in octets from the start of the message.
    pub offset: usize,
    /// How many identifier and length octets it has.
    pub header: usize,
    /// How many contents octets follow them.
    pub contents: usize,
    /// How many octets it has in all.
    pub length: usize,
    /// The class of its tag: 0 is universal, 1 application, 2 context-specific, 3 private.
    pub class: u32,
    /// The number of its tag.
    pub number: u32,
    /// 1 if it is constructed, otherwise 0.
    pub constructed: u32,
    /// The number of the kind of its type: a `soq_part_kind` of the header.
    pub kind: u32,
}

/// There is no part.
pub(crate) const NO_EXTENT: Extent = Extent {
    offset: 0,
    header: 0,
    contents: 0,
    length: 0,
    class: 0,
    number: 0,
    constructed: 0,
    kind: 0,
};

/// Returns where a part is, and what it is. Unknown values have no header around them.
pub(crate) fn extent_of(alloc: Global, schema: &Schema, part: &Part<'_>) -> Extent
    ensures { IsExtentOf schema.now.types.items part.now result }
{
    let length = part.octets.len();
    let is_unknown = is_unknown_at(schema.types(), part.id);
    let header = header_of(is_unknown, part);
    let end = end_of(is_unknown, part);
    let tag = first_tag(alloc, part.octets);
    Extent {
        offset: part.offset,
        header,
        contents: length.saturating_sub(header).saturating_sub(end),
        length,
        class: class_number(tag.class),
        number: tag.value,
        constructed: constructed_bit(part.octets),
        kind: kind_at(schema, part.id),
    }
}

/// Returns how many identifier and length octets are around the contents of a part.
fn header_of(is_unknown: bool, part: &Part<'_>) -> usize
    ensures { result ≡ header_of is_unknown part.now }
{
    if is_unknown { 0 } else { part.header_len }
}

/// Returns how many end-of-contents octets follow the contents of a part.
fn end_of(is_unknown: bool, part: &Part<'_>) -> usize
    ensures { result ≡ end_of is_unknown part.now }
{
    if is_unknown {
        0
    } else {
        end_length(part.is_indefinite)
    }
}

/// Returns the tag that the octets begin with; `Tag::EOC` if there is none.
fn first_tag(alloc: Global, octets: &[u8]) -> Tag
    ensures { BeginsWith octets.now (rank result.class) result.value }
{
    let decoder = Decoder::new(alloc, octets, DecoderOptions::of(Codec::Ber));
    let Ok(tag) = decoder.peek_tag() else {
        return Tag::EOC;
    };
    tag
}

/// Returns the number of the kind of the type with this number.
fn kind_at(schema: &Schema, id: TypeId) -> u32
    ensures { result ≡ kind_found (slice_get schema.now.types.items id.0) }
{
    match type_at(schema.types(), id) {
        Some(ty) => type_kind(ty),
        None => 0,
    }
}

/// Returns the number of the kind of a type: that of its universal tag (X.680 8.4), with another
/// for a list, and for a type that has none.
fn type_kind(ty: &Type) -> u32
    ensures { result ≡ type_kind_number ty.now }
{
    match ty {
        Type::Leaf { kind, .. } => kind.names().number,
        Type::Enumerated { .. } => 10,
        Type::Sequence { .. } => 16,
        Type::Set { .. } => 17,
        Type::SequenceOf { .. } => 48,
        Type::SetOf { .. } => 49,
        Type::Choice { .. } => 64,
        Type::Tagged { .. } => 65,
        Type::Any { .. } => 66,
        Type::Unknown => 67,
    }
}
