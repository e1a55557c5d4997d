//! Every departure of a message from DER, by its type.
ghost use Rattle.std.specs.Prelude.{◌≡◌, ◌++◌, ◌∷◌, [], Some, None, IfOk, IfErr, OnOk, List, MatchOption};
ghost use Rattle.std.specs.List.Sorted.{IsNonDecreasingBy, IsPermutation};
ghost use Rattle.rasn_lint.specs.declared.by_schema.OpenTypes.TheVariants.{Unexamined};
ghost use Rattle.rasn_lint.specs.declared.departure.Departure.{Departure};
ghost use Rattle.rasn_lint.specs.Judged.{TypedUnless, OpenIf, AreOfPart, AreJudged};
ghost use Rattle.rasn_lint.specs.Listed.{HasAllIf};
ghost use Rattle.rasn_lint.specs.Refusals.{aspect_of};
ghost use Rattle.rasn_lint.specs.Lint.{IsFirstDeparture, IsRemainderOf, AreAll, offset_of, IsLint, IsNoLint, rest_after};

use crate::departure::{Departure, aspect_of};
use crate::judge::{Way, faults_of, note_faults, site_at};
use crate::open::{Wanted, note_open};
use crate::trail::{Step, extend_path, extend_trail};
use rasn::refuse_remainder;
use rasn_dynamic::{Refusal, Span, check_or_locate, parts_of};
use rasn_schema::{Schema, Type, TypeId, type_at};
use rasn_types::types::Codec;
use std::alloc::{AllocError, Global};
use thiserror::Error;

/// Whether the octets of open types are looked into.
#[derive(Clone, Copy, Debug, PartialEq, Eq)]
pub enum OpenTypes {
    /// They are what the reader of DER reads: of a value of any tag, a definite length.
    Unexamined,
    /// They are also well formed, as [`is_well_formed`](crate::der::is_well_formed) tells. So is
    /// each unknown value of an extensible SEQUENCE or SET.
    Examined,
}

/// Why a message has no list of departures.
#[derive(Debug, Drop, Error)]
pub enum LintError {
    /// BER doesn't read it, or memory ran out for that.
    #[error("{0}")]
    Refused(Refusal),
    /// So many octets follow the value.
    #[error("BER: octets after the value: {0}")]
    Remainder(usize),
    /// Memory ran out.
    #[error("out of memory")]
    OutOfMemory,
}

/// Returns the refusal of octets after the value, if there are some.
pub fn remainder_refusal(alloc: Global, id: TypeId, octets: &[u8], rest: &[u8]) -> Option<Refusal>
    ensures { MatchOption result (rest.now ≡ []) (IsRemainderOf octets.now rest.now) }
{
    match refuse_remainder(Codec::Der, rest) {
        Ok(()) => None,
        Err(error) => Some(Refusal {
            error,
            offset: octets.len().saturating_sub(rest.len()),
            id,
            steps: Vec::new(alloc),
            is_cut: false,
        }),
    }
}

/// Returns where and why DER doesn't read the octets as a value of the type, if it doesn't.
pub fn der_departure(
    alloc: Global,
    schema: &Schema,
    id: TypeId,
    octets: &[u8],
) -> Result<Option<Departure>, AllocError>
    ensures { IfOk result (IsFirstDeparture Unexamined schema.now.types.items id.0 octets.now) }
{
    match check_or_locate(alloc, Codec::Der, schema, id, octets) {
        Ok(rest) => match remainder_refusal(alloc, id, octets, rest) {
            Some(refusal) => Ok(Some(departure_of(refusal))),
            None => Ok(None),
        },
        Err(refusal) => if refusal.error.is_out_of_memory() {
            Err(AllocError)
        } else {
            Ok(Some(departure_of(refusal)))
        },
    }
}

/// Returns a refusal of the reader as a departure.
pub fn departure_of(refusal: Refusal) -> Departure
    ensures refusal { result.refusal ≡ refusal }
    ensures inner { result.inner ≡ None }
    ensures aspect { result.aspect ≡ aspect_of refusal.error.kind }
{
    let aspect = aspect_of(&refusal.error.kind);
    Departure {
        refusal,
        aspect,
        inner: None,
    }
}

/// Appends the departures of a part by its type, unless DER reads the message. The trail leads to
/// the part before it.
fn note_typed(
    alloc: Global,
    list: &mut Vec<Departure>,
    schema: &Schema,
    is_read: bool,
    opens: OpenTypes,
    trail: &[Step<'_>],
    ty: &Type,
    way: Way<'_, '_>,
) -> Result<(), AllocError>
    ensures { OnOk result ((ds : List Departure) × (list.new.items ≡ list.old.items ++ ds)
        × TypedUnless is_read opens schema.now.types.items way.entry.len trail.now way.entry.path.now way.entry.part.now (Some ty.now) ds) }
{
    if is_read {
        return Ok(());
    }
    let faults = faults_of(alloc, schema, opens, trail, way.part, ty)?;
    let site = site_at(way, way.part.left, None);
    note_faults(alloc, list, site, faults)?;
    Ok(())
}

/// Appends the departures inside a part, if open types are looked into.
fn note_examined(
    alloc: Global,
    list: &mut Vec<Departure>,
    opens: OpenTypes,
    ty: &Type,
    way: Way<'_, '_>,
) -> Result<(), AllocError>
    ensures listed { OnOk result ((ds : List Departure) × (list.new.items ≡ list.old.items ++ ds)
        × OpenIf opens way.entry.len way.entry.path.now way.entry.part.now (Some ty.now) ds) }
    ensures complete { OnOk result ((ds : List Departure) → list.new.items ≡ list.old.items ++ ds → HasAllIf opens way.entry.part.now (Some ty.now) ds) }
{
    match opens {
        OpenTypes::Unexamined => Ok(()),
        OpenTypes::Examined => note_open(alloc, list, Wanted::All, ty, way),
    }
}

/// Appends the departures of a part. The trail leads to the part before it.
fn judge_part(
    alloc: Global,
    list: &mut Vec<Departure>,
    schema: &Schema,
    is_read: bool,
    opens: OpenTypes,
    trail: &[Step<'_>],
    way: Way<'_, '_>,
) -> Result<(), AllocError>
    ensures { OnOk result ((ds : List Departure) × (list.new.items ≡ list.old.items ++ ds)
        × AreOfPart is_read opens schema.now.types.items way.entry.len trail.now way.entry.path.now way.entry.part.now ds) }
{
    match type_at(schema.types(), way.part.id) {
        Some(ty) => {
            note_typed(alloc, list, schema, is_read, opens, trail, ty, way)?;
            note_examined(alloc, list, opens, ty, way)?;
            Ok(())
        }
        None => Ok(()),
    }
}

/// Returns the departures of parts of a message of so many octets.
pub fn judge_parts(
    alloc: Global,
    schema: &Schema,
    is_read: bool,
    opens: OpenTypes,
    len: usize,
    parts: &[Span<'_>],
) -> Result<Vec<Departure>, AllocError>
    ensures { IfOk result (λ list. AreJudged is_read opens schema.now.types.items len [] [] parts.now list.items) }
{
    let mut list = Vec::new(alloc);
    let mut trail = Vec::new(alloc);
    let mut path = Vec::new(alloc);
    for part in parts {
        extend_path(&mut path, part)?;
        let way = Way {
            part,
            path: path.as_slice(),
            len,
        };
        let before = trail.as_slice();
        judge_part(alloc, &mut list, schema, is_read, opens, before, way)?;
        extend_trail(&mut trail, part)?;
    }
    Ok(list)
}

/// Returns the departures of a message with these parts.
fn judge_message(
    alloc: Global,
    schema: &Schema,
    id: TypeId,
    octets: &[u8],
    opens: OpenTypes,
    parts: &[Span<'_>],
) -> Result<Vec<Departure>, AllocError>
    ensures { IfOk result (λ list. AreAll opens schema.now.types.items id.0 octets.now parts.now list.items) }
{
    let departure = der_departure(alloc, schema, id, octets)?;
    let is_read = departure.is_none();
    let mut list = judge_parts(alloc, schema, is_read, opens, octets.len(), parts)?;
    if !list.is_empty() {
        return Ok(list);
    }
    let Some(departure) = departure else {
        return Ok(list);
    };
    list.push(departure)?;
    Ok(list)
}

/// Returns the departures in the order of their places. Those of one place keep theirs.
fn in_order(list: Vec<Departure>) -> Result<Vec<Departure>, AllocError>
    ensures { IfOk result (λ sorted. IsPermutation list.items sorted.items × IsNonDecreasingBy offset_of sorted.items) }
{
    let mut list = list;
    list.sort_by_key(|departure| departure.refusal.offset)?;
    Ok(list)
}

/// Returns the octets after the first of the parts, which is the whole value.
pub fn rest_after<'input>(parts: &[Span<'_>], octets: &'input [u8]) -> &'input [u8]
    ensures { result.now ≡ rest_after parts.now octets.now }
{
    match parts {
        [whole, ..] => &octets[whole.octets.len().min(octets.len())..],
        [] => octets,
    }
}

/// Returns every departure from DER of octets that BER reads as a value of the type, in the order
/// of the bytes: nothing exactly if DER reads them and, where open types are looked into, the
/// octets of each are well formed, and each unknown value is.
///
/// Each part of the value is judged on its own, in its place, its header and its contents.
///
/// - In its place: an element of a SET OF whose octets are less than those of the one before it
///   (X.690 11.6), a component of a SET, also one that its type doesn't name, whose tag is below
///   that of the one before it (10.3), and a component that is its default (11.5).
/// - In its header: a tag number in more octets than it needs (8.1.2.4), a constructed bit that
///   isn't the one that the type is written with, as of a string in segments (8.1.2.5, 10.2), and a
///   length that is indefinite or in more octets than it needs (10.1).
/// - In its contents, with a header of DER in place of its own, and with segments one after the
///   other: what the reader of DER refuses (8, 11).
///
/// # Errors
/// - `Refused` if BER doesn't read a value at the start of the octets, with the place.
/// - `Remainder` with the number of octets that follow it, if some do.
/// - `OutOfMemory`.
///
/// # Examples
/// ```
/// // INTEGER 5 with a length in two octets (X.690 10.1)
/// let octets: &[u8] = &[0x02, 0x81, 0x01, 0x05];
/// let departures = rasn_lint::lint(alloc, &schema, id, octets, OpenTypes::Examined)?;
/// // one departure: NonMinimalLength, in the header of the whole value
/// ```
#[tactic(auto, using(crate::proofs::Clean::listed, crate::proofs::Clean::followed))]
pub fn lint(
    alloc: Global,
    schema: &Schema,
    id: TypeId,
    octets: &[u8],
    opens: OpenTypes,
) -> Result<Vec<Departure>, LintError>
    ensures list { IfOk result (λ list. IsLint opens schema.now.types.items id.0 octets.now list.items) }
    ensures fails { IfErr result (IsNoLint schema.now.types.items id.0 octets.now) }
{
    let parts = match parts_of(alloc, Codec::Ber, schema, id, octets) {
        Ok(parts) => parts,
        Err(refusal) => return Err(LintError::Refused(refusal)),
    };
    let all = parts.list.as_slice();
    let rest = rest_after(all, octets);
    if !rest.is_empty() {
        return Err(LintError::Remainder(rest.len()));
    }
    let Ok(list) = judge_message(alloc, schema, id, octets, opens, all) else {
        return Err(LintError::OutOfMemory);
    };
    match in_order(list) {
        Ok(list) => Ok(list),
        Err(_) => Err(LintError::OutOfMemory),
    }
}
