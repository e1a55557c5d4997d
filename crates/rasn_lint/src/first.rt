//! The first departure of a message from DER.
ghost use Rattle.std.specs.Prelude.{◌≡◌, ◌++◌, [], List, IfOk, OnOk, slice_get};
ghost use Rattle.rasn_types.specs.Errors.{IsOutOfMemory};
ghost use Rattle.rasn_lint.specs.declared.by_schema.OpenTypes.TheVariants.{Examined};
ghost use Rattle.rasn_lint.specs.declared.departure.Departure.{Departure};
ghost use Rattle.rasn_lint.specs.Judged.{AreOpenDepartures};
ghost use Rattle.rasn_lint.specs.Lint.{IsFirstOr, IsFirstDeparture, IsCheckOf};

use crate::by_schema::{OpenTypes, departure_of, der_departure, remainder_refusal, rest_after};
use crate::departure::Departure;
use crate::judge::Way;
use crate::open::{Wanted, note_open};
use crate::trail::extend_path;
use rasn_dynamic::{Refusal, Span, open_parts_of, parts_of};
use rasn_schema::{Schema, TypeId, type_at};
use rasn_types::error::{DecodeError, DecodeErrorKind};
use rasn_types::types::Codec;
use std::alloc::{AllocError, Global};

/// Returns the first of the departures.
fn first_of(list: Vec<Departure>) -> Option<Departure>
    ensures { result ≡ slice_get list.items 0 }
{
    list.into_iter().next()
}

/// Appends the first departure inside a part, if it is a value of an open type that isn't well
/// formed. Others may follow it.
fn note_first(
    alloc: Global,
    list: &mut Vec<Departure>,
    schema: &Schema,
    way: Way<'_, '_>,
) -> Result<(), AllocError>
    ensures { OnOk result ((ds : List Departure) × (list.new.items ≡ list.old.items ++ ds)
        × AreOpenDepartures way.entry.len way.entry.path.now way.entry.part.now (slice_get schema.now.types.items way.entry.part.now.id.0) ds) }
{
    match type_at(schema.types(), way.part.id) {
        Some(ty) => note_open(alloc, list, Wanted::First, ty, way),
        None => Ok(()),
    }
}

/// Returns the first departure inside the open types of these parts of a message of so many octets.
fn first_inside(
    alloc: Global,
    schema: &Schema,
    len: usize,
    parts: &[Span<'_>],
) -> Result<Option<Departure>, AllocError>
    ensures { IfOk result (IsFirstOr schema.now.types.items len [] parts.now) }
{
    let mut list = Vec::new(alloc);
    let mut path = Vec::new(alloc);
    for part in parts {
        extend_path(&mut path, part)?;
        let way = Way {
            part,
            path: path.as_slice(),
            len,
        };
        note_first(alloc, &mut list, schema, way)?;
        if !list.is_empty() {
            return Ok(first_of(list));
        }
    }
    Ok(None)
}

/// Returns the first departure of a message whose open types are looked into, if there is one. All
/// parts of the message are listed.
fn first_listed(
    alloc: Global,
    schema: &Schema,
    id: TypeId,
    octets: &[u8],
) -> Result<Option<Departure>, AllocError>
    ensures { IfOk result (IsFirstDeparture Examined schema.now.types.items id.0 octets.now) }
{
    // DER has read the octets before, so memory alone can be missing.
    let Ok(parts) = parts_of(alloc, Codec::Der, schema, id, octets) else {
        return Err(AllocError);
    };
    let all = parts.list.as_slice();
    let rest = rest_after(all, octets);
    if let Some(refusal) = remainder_refusal(alloc, id, octets, rest) {
        return Ok(Some(departure_of(refusal)));
    }
    first_inside(alloc, schema, octets.len(), all)
}

/// Returns the same. Only values of open types and unknown values are listed, unless one of them
/// isn't well formed: then the others are listed too, since they lead to it.
fn first_examined(
    alloc: Global,
    schema: &Schema,
    id: TypeId,
    octets: &[u8],
) -> Result<Option<Departure>, AllocError>
    ensures { IfOk result (IsFirstDeparture Examined schema.now.types.items id.0 octets.now) }
{
    let parts = match open_parts_of(alloc, Codec::Der, schema, id, octets) {
        Ok(parts) => parts,
        Err(refusal) => return if refusal.error.is_out_of_memory() {
            Err(AllocError)
        } else {
            Ok(Some(departure_of(refusal)))
        },
    };
    if let Some(refusal) = remainder_refusal(alloc, id, octets, parts.rest) {
        return Ok(Some(departure_of(refusal)));
    }
    match first_inside(alloc, schema, octets.len(), parts.list.as_slice())? {
        Some(_) => first_listed(alloc, schema, id, octets),
        None => Ok(None),
    }
}

/// Returns the first departure of a message, if there is one.
fn first_departure(
    alloc: Global,
    schema: &Schema,
    id: TypeId,
    octets: &[u8],
    opens: OpenTypes,
) -> Result<Option<Departure>, AllocError>
    ensures { IfOk result (IsFirstDeparture opens schema.now.types.items id.0 octets.now) }
{
    match opens {
        OpenTypes::Unexamined => der_departure(alloc, schema, id, octets),
        OpenTypes::Examined => first_examined(alloc, schema, id, octets),
    }
}

/// Returns the departure that memory ran out.
pub fn out_of_memory(alloc: Global, id: TypeId) -> Departure
    ensures { IsOutOfMemory result.refusal.error.kind }
{
    departure_of(Refusal {
        error: DecodeError {
            kind: DecodeErrorKind::OutOfMemory,
            codec: Codec::Der,
        },
        offset: 0,
        id,
        steps: Vec::new(alloc),
        is_cut: false,
    })
}

/// Checks that all of the octets are one value of the type by DER and, if open types are looked
/// into, that the octets of each are well formed.
///
/// # Errors
/// The refusal of the reader of DER, with the place; or else the first departure inside an open
/// type, where the path goes on. `OutOfMemory` as the kind of the error.
///
/// # Examples
/// ```
/// if let Err(departure) = rasn_lint::check(alloc, &schema, id, octets, OpenTypes::Examined) {
///     println!(rt; "byte {}: {}", departure.offset, departure.error)?;
/// }
/// ```
pub fn check(
    alloc: Global,
    schema: &Schema,
    id: TypeId,
    octets: &[u8],
    opens: OpenTypes,
) -> Result<(), Departure>
    ensures { IsCheckOf opens schema.now.types.items id.0 octets.now result }
{
    match first_departure(alloc, schema, id, octets, opens) {
        Ok(None) => Ok(()),
        Ok(Some(departure)) => Err(departure),
        Err(_) => Err(out_of_memory(alloc, id)),
    }
}
