//! All parts of a message.
ghost use Rattle.std.specs.Prelude.{◌≡◌, ◌++◌, ◌∷◌, [], length, List, ℕ, IfOk, OnOk, MatchOption, MatchResult};
ghost use Rattle.rasn_schema.specs.declared.types.«Type».{«Type»};
ghost use Rattle.rasn_c.specs.Status.{IsNumberOf};
ghost use Rattle.rasn_c.specs.Extents.{IsExtentOf};
ghost use Rattle.rasn_c.specs.declared.listing.ListedPart.{ListedPart};
ghost use Rattle.rasn_c.specs.Listing.{AnswersParts, HasNameOn, IsListing, IsNamePlaced, IsNoListingBy, IsListedInto, IsPutListing, LeadsToType, AreRows, ended};

use crate::extent::{Extent, extent_of};
use crate::reasons::{CallStop, Reason, report, without_memory};
use crate::schemas::{Query, query_of};
use crate::status::Status;
use rasn_dynamic::{MessageParts, Part, parts_of};
use rasn_schema::{Schema, Type, TypeId, part_name, part_type, type_at};
use std::alloc::{AllocError, Global};

/// A part of a message among all of its parts: `soq_listed_part` of the header.
#[repr(C)]
#[derive(Clone, Copy, Debug, PartialEq, Eq)]
pub struct ListedPart {
    /// Where it is, and what it is.
    pub part: Extent,
    /// How many parts it is in.
    pub depth: usize,
    /// Its index in the part that it is in: of a component, an alternative or an element, counted
    /// from 0.
    pub index: usize,
    /// Where its name is among the names.
    pub name: usize,
    /// How many octets its name has; 0 if it has none, as an element and what an explicit tag
    /// holds.
    pub name_length: usize,
}

/// How many parts there are, and how many octets their names have: `soq_counts` of the header.
#[repr(C)]
#[derive(Clone, Copy, Debug, PartialEq, Eq)]
pub struct Counts {
    pub parts: usize,
    pub names: usize,
}

/// The parts of a message, and their names one after the other with a zero after each.
#[derive(Drop)]
struct Listing {
    parts: Vec<ListedPart>,
    names: Vec<u8>,
}

/// Lists the parts of the message at the front of the octets, each before those inside it.
#[unsafe(no_mangle)]
pub extern "C" fn soq_proved_parts(
    alloc: Global,
    schema: &[u8],
    rule: u32,
    octets: &[u8],
    parts: &mut [ListedPart],
    names: &mut [u8],
    counts: &mut Counts,
    reason: &mut Reason,
    text: &mut [u8],
) -> u32
    ensures { IsNumberOf (AnswersParts schema.now rule octets.now parts.old parts.new names.old names.new counts.new reason.new text.old text.new) result }
{
    let made = report(list(alloc, schema, rule, octets), reason, text);
    put_parts(made, parts, names, counts).number()
}

/// Writes the parts and their names, or nothing, and returns the status.
fn put_parts(
    made: Result<Listing, Status>,
    parts: &mut [ListedPart],
    names: &mut [u8],
    counts: &mut Counts,
) -> Status
    ensures { IsListedInto made parts.old parts.new names.old names.new counts.new result }
{
    match made {
        Ok(listing) => put_listing(&listing, parts, names, counts),
        Err(status) => {
            *counts = Counts { parts: 0, names: 0 };
            status
        }
    }
}

/// Writes the parts and the names if both fit, and nothing otherwise. Their numbers are written in
/// both cases.
fn put_listing(
    listing: &Listing,
    parts: &mut [ListedPart],
    names: &mut [u8],
    counts: &mut Counts,
) -> Status
    ensures { IsPutListing listing.now parts.old parts.new names.old names.new counts.new result }
{
    *counts = Counts {
        parts: listing.parts.len(),
        names: listing.names.len(),
    };
    if parts.len() < listing.parts.len() {
        return Status::BufferTooSmall;
    }
    if names.len() < listing.names.len() {
        return Status::BufferTooSmall;
    }
    parts[..listing.parts.len()].copy_from_slice(listing.parts.as_slice());
    names[..listing.names.len()].copy_from_slice(listing.names.as_slice());
    Status::Ok
}

fn list(alloc: Global, schema: &[u8], rule: u32, octets: &[u8]) -> Result<Listing, CallStop>
    ensures { MatchResult result (λ l. IsListing schema.now rule octets.now l.parts.items l.names.items) (λ stop. IsNoListingBy schema.now rule octets.now stop stop.status) }
{
    let asked = query_of(alloc, schema, rule)?;
    let Query { schema, root, rule } = asked;
    let mut parts = match parts_of(alloc, rule, &schema, root, octets) {
        Ok(parts) => parts,
        Err(refusal) => return Err(CallStop::of_refusal(alloc, &schema, root, &[], &refusal)),
    };
    match listing_of(alloc, &schema, root, &mut parts) {
        Ok(listing) => Ok(listing),
        Err(error) => Err(without_memory(alloc, error)),
    }
}

/// Returns the rows of the parts, none of which was gone over, and their names.
fn listing_of(
    alloc: Global,
    schema: &Schema,
    root: TypeId,
    parts: &mut MessageParts<'_>,
) -> Result<Listing, AllocError>
    requires next { parts.old.next ≡ 0 }
    requires path { parts.old.path.items ≡ [] }
    ensures { IfOk result (λ l. AreRows schema.now.types.items root.0 parts.old.input.now [] 0 parts.old.list.items l.parts.items l.names.items) }
{
    let mut listing = Listing {
        parts: Vec::new(alloc),
        names: Vec::new(alloc),
    };
    'walk: while parts.next < parts.list.len() {
        let span = &parts.list[parts.next];
        let (depth, index) = (span.depth, span.index);
        let Ok(Some(part)) = parts.next(alloc) else {
            return Err(AllocError);
        };
        let name = name_at(schema, root, parts.path.as_slice()).unwrap_or("");
        push_part(alloc, schema, name, depth, index, &part, &mut listing)?;
    }
    Ok(listing)
}

/// Appends the row of a part with this name, which is in so many others.
fn push_part(
    alloc: Global,
    schema: &Schema,
    name: &str,
    depth: usize,
    index: usize,
    part: &Part<'_>,
    listing: &mut Listing,
) -> Result<(), AllocError>
    ensures row { OnOk result ((r : ListedPart) × (listing.new.parts.items ≡ listing.old.parts.items ++ r ∷ []) × IsExtentOf schema.now.types.items part.now r.part × (r.depth ≡ depth) × (r.index ≡ index) × IsNamePlaced (length listing.old.names.items) name.now r) }
    ensures names { OnOk result (listing.new.names.items ≡ listing.old.names.items ++ ended name.now) }
{
    let row = ListedPart {
        part: extent_of(alloc, schema, part),
        depth,
        index,
        name: listing.names.len(),
        name_length: name.len(),
    };
    push_name(&mut listing.names, name)?;
    listing.parts.push(row)?;
    Ok(())
}

/// Appends a name, and a zero after it, unless it is empty.
fn push_name(names: &mut Vec<u8>, name: &str) -> Result<(), AllocError>
    ensures { OnOk result (names.new.items ≡ names.old.items ++ ended name.now) }
{
    if name.is_empty() {
        return Ok(());
    }
    names.extend_from_slice(name.as_bytes())?;
    names.push(0)?;
    Ok(())
}

/// Returns the name of the component or the alternative to which a path leads from the type with
/// this number, if it has one.
fn name_at<'schema>(schema: &'schema Schema, id: TypeId, path: &[usize]) -> Option<&'schema str>
    ensures { MatchOption result ((name : List ℕ) → HasNameOn schema.now.types.items id.0 path.now name → ⊥) (λ name. HasNameOn schema.now.types.items id.0 path.now name.now) }
{
    let (last, front) = path.split_last()?;
    let outer = type_on(schema, id, front)?;
    part_name(outer, *last)
}

/// Returns the type to which a path leads from the type with this number, if it leads to one.
fn type_on<'schema>(schema: &'schema Schema, id: TypeId, path: &[usize]) -> Option<&'schema Type>
    ensures { MatchOption result ((ty : «Type») → LeadsToType schema.now.types.items id.0 path.now ty → ⊥) (λ ty. LeadsToType schema.now.types.items id.0 path.now ty.now) }
{
    let mut ty = type_at(schema.types(), id)?;
    for index in path {
        ty = type_at(schema.types(), part_type(ty, *index)?)?;
    }
    Some(ty)
}
