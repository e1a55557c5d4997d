//! Contents octets of values that hold no other values (X.690 8, 11).
ghost use Rattle.std.specs.Prelude.{◌≡◌, IfOk, List, ℕ, MatchOption, Vec, Some, None, Ok};
ghost use Rattle.std.specs.Global.{Global};
ghost use Rattle.rasn_types.specs.Errors.{IsOutOfMemory};
ghost use Rattle.rasn_types.specs.declared.types.codec.Codec.TheVariants.{Der};
ghost use Rattle.rasn_types.specs.Bytes.{Bytes};
ghost use Rattle.rasn_types.specs.Shapes.{leaf, numbers, bits, Tree, octet_string, bit_string};
ghost use Rattle.rasn_types.specs.Trees.{unconstrained};
ghost use Rattle.rasn_lint.specs.Leaf.{segments_of, segments_in, Finds, IsMended, IsMendedFault, IsContentsFault};

use crate::header::is_constructed;
use crate::place::reader_of;
use rasn_dynamic::check;
use rasn_enc::ber::enc::{Encoder, EncoderOptions};
use rasn_schema::{LeafKind, Schema, Type, TypeId};
use rasn_types::error::{DecodeError, EncodeError};
use rasn_types::types::{BitStr, Codec, Constraints, Identifier, Tag};
use std::alloc::{AllocError, Global};

/// How the contents of a value are encoded.
#[derive(Clone, Copy)]
pub enum Segments {
    /// At once.
    Whole,
    /// In segments of octets (X.690 8.7.3, 8.23).
    OfOctets,
    /// In segments of bits (X.690 8.6.4).
    OfBits,
}

/// Returns the DER encoding of octets, with this tag.
pub fn write_octets(alloc: Global, tag: Tag, octets: &[u8]) -> Result<Vec<u8>, EncodeError>
    ensures { IfOk result (λ v. Bytes Der (leaf octet_string tag unconstrained) (numbers octets.now) v.items) }
{
    let mut encoder = Encoder::new(alloc, EncoderOptions::der())?;
    encoder.encode_octet_string(tag, &Constraints::NONE, octets, Identifier::EMPTY)?;
    encoder.output()
}

/// Returns the DER encoding of bits, with this tag.
fn write_bits(alloc: Global, tag: Tag, value: &BitStr<'_>) -> Result<Vec<u8>, EncodeError>
    ensures { IfOk result (λ v. Bytes Der (leaf bit_string tag unconstrained) (bits value.now) v.items) }
{
    let mut encoder = Encoder::new(alloc, EncoderOptions::der())?;
    encoder.encode_bit_string(tag, &Constraints::NONE, value, Identifier::EMPTY)?;
    encoder.output()
}

/// Returns how the contents of a constructed value are encoded.
pub fn segments_in(kind: LeafKind) -> Segments
    ensures { result ≡ segments_in kind }
{
    match kind {
        LeafKind::BitString | LeafKind::NamedBits => Segments::OfBits,
        LeafKind::OctetString
        | LeafKind::FixedOctetString(_)
        | LeafKind::Numeric
        | LeafKind::Printable
        | LeafKind::Visible
        | LeafKind::Ia5
        | LeafKind::AnyOctets
        | LeafKind::Bmp
        | LeafKind::Utf8
        | LeafKind::UtcTime
        | LeafKind::GeneralizedTime
        | LeafKind::Date
        | LeafKind::Universal => Segments::OfOctets,
        LeafKind::Boolean
        | LeafKind::Null
        | LeafKind::ObjectIdentifier
        | LeafKind::Integer
        | LeafKind::Signed32
        | LeafKind::Signed64
        | LeafKind::Unsigned32
        | LeafKind::Unsigned64
        | LeafKind::RelativeOid
        | LeafKind::Real
        | LeafKind::Time
        | LeafKind::Duration
        | LeafKind::TimeOfDay
        | LeafKind::DateTime => Segments::Whole,
    }
}

/// Returns how the contents of a value are encoded.
fn segments_of(kind: LeafKind, octets: &[u8]) -> Segments
    ensures { result ≡ segments_of kind octets.now }
{
    if is_constructed(octets) {
        segments_in(kind)
    } else {
        Segments::Whole
    }
}

/// Returns the octets that were written.
fn kept(written: Result<Vec<u8>, EncodeError>) -> Result<Option<Vec<u8>>, AllocError>
    ensures { IfOk result (λ found. (v : Vec ℕ Global) × (written ≡ Ok v) × (found ≡ Some v)) }
{
    match written {
        Ok(octets) => Ok(Some(octets)),
        Err(_) => Err(AllocError),
    }
}

/// Returns that there are no contents, or that memory ran out.
fn unread(error: &DecodeError) -> Result<Option<Vec<u8>>, AllocError>
    ensures { IfOk result (λ found. (found ≡ None) × (IsOutOfMemory error.now.kind → ⊥)) }
{
    if error.is_out_of_memory() {
        Err(AllocError)
    } else {
        Ok(None)
    }
}

/// Returns the contents of a value after a header of DER: those of segments one after the other.
fn mended(
    alloc: Global,
    segments: Segments,
    tag: Tag,
    octets: &[u8],
) -> Result<Option<Vec<u8>>, AllocError>
    ensures { IfOk result (λ found. MatchOption found ((t : Tree) (rest : List ℕ) → Finds segments tag octets.now t rest → ⊥) (λ v. IsMended segments tag octets.now v.items)) }
{
    let mut decoder = reader_of(alloc, octets);
    match segments {
        Segments::Whole => match decoder.decode_open(tag) {
            Ok(contents) => kept(write_octets(alloc, tag, contents)),
            Err(error) => unread(&error),
        },
        Segments::OfOctets => match decoder.decode_octet_string(tag, &Constraints::NONE) {
            Ok(contents) => kept(write_octets(alloc, tag, &contents)),
            Err(error) => unread(&error),
        },
        Segments::OfBits => match decoder.decode_bits(tag, &Constraints::NONE) {
            Ok(bits) => kept(write_bits(alloc, tag, &bits.as_bitstr())),
            Err(error) => unread(&error),
        },
    }
}

/// Returns the error with which DER refuses contents after a header of DER.
fn mended_fault(
    alloc: Global,
    schema: &Schema,
    id: TypeId,
    segments: Segments,
    tag: Tag,
    octets: &[u8],
) -> Result<Option<DecodeError>, AllocError>
    ensures { IfOk result (IsMendedFault schema.now.types.items id.0 segments tag octets.now) }
{
    let Some(octets) = mended(alloc, segments, tag, octets)? else {
        return Ok(None);
    };
    match check(alloc, Codec::Der, schema, id, &octets) {
        Ok(()) => Ok(None),
        Err(error) => if error.is_out_of_memory() {
            Err(AllocError)
        } else {
            Ok(Some(error))
        },
    }
}

/// Returns the error with which DER refuses the contents of a value that holds no others, after a
/// header of DER.
pub fn contents_fault(
    alloc: Global,
    schema: &Schema,
    id: TypeId,
    ty: &Type,
    octets: &[u8],
) -> Result<Option<DecodeError>, AllocError>
    ensures { IfOk result (IsContentsFault schema.now.types.items id.0 ty.now octets.now) }
{
    match ty {
        Type::Leaf { kind, tag, .. } => {
            let segments = segments_of(*kind, octets);
            mended_fault(alloc, schema, id, segments, *tag, octets)
        }
        Type::Enumerated { tag, .. } => {
            mended_fault(alloc, schema, id, Segments::Whole, *tag, octets)
        }
        _ => Ok(None),
    }
}
