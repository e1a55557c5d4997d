//! What departs inside an open type, where no type is known.
ghost use Rattle.std.specs.Prelude.{◌≡◌, ◌<◌, ◌^◌, ◌++◌, ◌∷◌, ◌↔◌, [], ℕ, List, length, OnOk, IfSome, MatchOption, Some};
ghost use Rattle.std.specs.List.{AllByRecursion};
ghost use Rattle.rasn_types.specs.Shapes.{looked_for};
ghost use Rattle.rasn_types.specs.Truth.{IsWhether};
ghost use Rattle.rasn_schema.specs.declared.types.«Type».TheVariants.{Any};
ghost use Rattle.rasn_lint.specs.Judged.{AreOfUnknown, AreOpenDepartures};
ghost use Rattle.rasn_lint.specs.Listed.{HasAll, HasAllInside, HasAllOfEach, IsOnlyRest, IsSplit, IsLookedInto, IsLooked};
ghost use Rattle.rasn_lint.specs.Open.{IsEndLen, IsEndOf, IsAfterHeader, IsFoundIn, IsExtra, IsAfter, AllPending, IsReached, IsKept, IsInside, GrowsInside, GrowsUnknown};
ghost use Rattle.rasn_lint.specs.Untyped.{HasOpen, HasContents, HasNoContents, IsFollowedBy, IsUnread};
ghost use Rattle.rasn_lint.specs.WellFormed.{IsWellFormed};
ghost use Rattle.rasn_lint.specs.declared.departure.Departure.{Departure};
ghost use Rattle.rasn_lint.specs.declared.open.Wanted.TheVariants.{All, First};

use crate::departure::{Aspect, Departure};
use crate::der::encoding::octets_before;
use crate::der::{are_encodings, is_well_formed};
use crate::header::is_constructed;
use crate::judge::{Way, note, note_faults, site_at};
use crate::place::{reader_of, tag_of};
use crate::trail::go_along;
use crate::untyped::{extra, faults_of, unreadable};
use rasn_dynamic::Span;
use rasn_schema::Type;
use rasn_types::types::Tag;
use std::alloc::{AllocError, Global};

/// How many departures inside a value of an open type are wanted.
#[derive(Clone, Copy)]
pub enum Wanted {
    /// All.
    All,
    /// The first one at least.
    First,
}

/// The contents octets of an encoding.
#[derive(Clone, Copy)]
struct Contents<'input> {
    octets: &'input [u8],
    /// How many octets are before them in the encoding.
    header_len: usize,
}

/// Encodings that are still to be looked at, one after the other.
#[derive(Clone, Copy)]
struct Pending<'input> {
    octets: &'input [u8],
    /// The index of the first of them.
    index: usize,
    /// In how many encodings they are.
    depth: usize,
    /// How many octets there are from their start to the end of the message.
    left: usize,
}

/// Returns the number of end-of-contents octets of an encoding (X.690 8.1.5): one of indefinite
/// length takes steps to be skipped.
#[tactic(auto, using(crate::proofs::Opened::no_end, crate::proofs::Opened::some_end, crate::proofs::Opened::nothing_skipped))]
fn end_len(alloc: Global, octets: &[u8]) -> usize
    ensures { IsEndLen octets.now result }
{
    let mut decoder = reader_of(alloc, octets);
    let Ok(steps) = decoder.skip_value() else {
        return 0;
    };
    if steps == 0 { 0 } else { 2 }
}

/// Returns the same of a value of an open type with this tag: without a tag, its octets are those
/// of the encoding that it holds.
fn end_of(alloc: Global, tag: Tag, octets: &[u8]) -> usize
    ensures { IsEndOf (looked_for tag) octets.now result }
{
    if tag == Tag::EOC {
        0
    } else {
        end_len(alloc, octets)
    }
}

/// Returns the octets of a value of an open type with this tag, as BER finds them.
fn contents_at(alloc: Global, tag: Tag, octets: &[u8]) -> Option<Contents<'_>>
    ensures { MatchOption result ((inside : List ℕ) → HasOpen tag octets.now inside → ⊥)
        (λ found. HasOpen tag octets.now found.octets.now × IsAfterHeader octets.now found × (length found.octets.now < 2 ^ 64)) }
{
    let mut decoder = reader_of(alloc, octets);
    let Ok(contents) = decoder.decode_open(tag) else {
        return None;
    };
    let header_len = octets
        .len()
        .saturating_sub(contents.len())
        .saturating_sub(decoder.remaining().len())
        .saturating_sub(end_of(alloc, tag, octets));
    Some(Contents {
        octets: contents,
        header_len,
    })
}

/// Returns the tag of the encoding at the start of octets, and its contents.
fn contents_of(alloc: Global, octets: &[u8]) -> Option<(Tag, Contents<'_>)>
    ensures { MatchOption result (HasNoContents octets.now) (λ found. HasContents found.0 octets.now found.1.octets.now × IsAfterHeader octets.now found.1) }
{
    let tag = tag_of(alloc, octets)?;
    let Some(contents) = contents_at(alloc, tag, octets) else {
        return None;
    };
    Some((tag, contents))
}

/// Returns what follows the first of these encodings, as BER skips it.
fn after_first(alloc: Global, octets: &[u8]) -> Option<&[u8]>
    ensures exact { MatchOption result (IsUnread octets.now) (λ rest. IsFollowedBy octets.now rest.now) }
    ensures one { IfSome result (λ rest. IsOnlyRest octets.now rest.now) }
{
    let mut decoder = reader_of(alloc, octets);
    let Ok(_) = decoder.skip_value() else {
        return None;
    };
    Some(decoder.remaining())
}

/// Keeps encodings that are looked at later, unless there are none.
fn keep<'input>(
    pending: &mut Vec<Pending<'input>>,
    encodings: Pending<'input>,
) -> Result<(), AllocError>
    ensures { OnOk result (IsKept encodings.entry pending.old.items pending.new.items) }
{
    if encodings.octets.is_empty() {
        return Ok(());
    }
    pending.push(encodings)?;
    Ok(())
}

/// Appends what departs of the first of these encodings, to which the path leads, and keeps those
/// inside it.
fn look_into<'input>(
    alloc: Global,
    list: &mut Vec<Departure>,
    way: Way<'_, '_>,
    path: &[usize],
    pending: &mut Vec<Pending<'input>>,
    next: Pending<'input>,
) -> Result<(), AllocError>
    requires { IsExtra next → ⊥ }
    ensures grows { OnOk result ((inside : List ℕ) → IsReached way.entry.part.now inside path.now next.entry pending.old.items
        → GrowsInside way.entry.len way.entry.part.now way.entry.path.now inside list.old.items list.new.items) }
    ensures all { OnOk result ((inside : List ℕ) → IsReached way.entry.part.now inside path.now next.entry pending.old.items
        → AllPending way.entry.part.now inside path.now pending.new.items) }
    ensures told { OnOk result (IsLookedInto path.now next.entry.octets.now list.old.items list.new.items pending.old.items pending.new.items) }
{
    let octets = next.octets;
    let site = site_at(way, next.left, Some(path));
    let Some((tag, contents)) = contents_of(alloc, octets) else {
        let error = unreadable(alloc, octets);
        return note(alloc, list, site, Aspect::Header, Some(error));
    };
    let faults = faults_of(alloc, tag, contents.octets, octets)?;
    note_faults(alloc, list, site, faults)?;
    if !is_constructed(octets) {
        return Ok(());
    }
    let inside = Pending {
        octets: contents.octets,
        index: 0,
        depth: path.len() + 1,
        left: next.left.saturating_sub(contents.header_len),
    };
    keep(pending, inside)
}

/// Returns whether encodings follow the one of the open type, where there may be none.
fn is_extra(encodings: Pending<'_>) -> bool
    ensures { IsWhether result (IsExtra encodings.entry) }
{
    encodings.depth == 0 && encodings.index > 0
}

/// Returns the encodings after the first of these.
fn after<'input>(next: Pending<'input>, rest: &'input [u8]) -> Pending<'input>
    ensures { IsAfter next.entry rest.now result }
{
    Pending {
        octets: rest,
        index: next.index.saturating_add(1),
        depth: next.depth,
        left: next
            .left
            .saturating_sub(next.octets.len().saturating_sub(rest.len())),
    }
}

/// Appends what departs of the first of these encodings, to which the path leads, and keeps those
/// inside it and those after it.
fn look<'input>(
    alloc: Global,
    list: &mut Vec<Departure>,
    way: Way<'_, '_>,
    path: &[usize],
    pending: &mut Vec<Pending<'input>>,
    next: Pending<'input>,
) -> Result<(), AllocError>
    ensures grows { OnOk result ((inside : List ℕ) → IsReached way.entry.part.now inside path.now next.entry pending.old.items
        → GrowsInside way.entry.len way.entry.part.now way.entry.path.now inside list.old.items list.new.items) }
    ensures all { OnOk result ((inside : List ℕ) → IsReached way.entry.part.now inside path.now next.entry pending.old.items
        → AllPending way.entry.part.now inside path.now pending.new.items) }
    ensures told { OnOk result ((inside : List ℕ) → IsReached way.entry.part.now inside path.now next.entry pending.old.items
        → IsLooked path.now next.entry list.old.items list.new.items pending.old.items pending.new.items) }
{
    let site = site_at(way, next.left, Some(path));
    if is_extra(next) {
        let error = extra(next.octets);
        return note(alloc, list, site, Aspect::Contents, Some(error));
    }
    let Some(rest) = after_first(alloc, next.octets) else {
        let error = unreadable(alloc, next.octets);
        return note(alloc, list, site, Aspect::Header, Some(error));
    };
    keep(pending, after(next, rest))?;
    look_into(alloc, list, way, path, pending, next)
}

/// Returns whether no more departures are wanted than were found.
fn is_enough(wanted: Wanted, found: usize) -> bool
    ensures { IsWhether result ((wanted ≡ First) × (0 < found)) }
{
    match wanted {
        Wanted::All => false,
        Wanted::First => found > 0,
    }
}

/// Appends what departs of these encodings of a part and inside them, or the first of it: `wanted`
/// tells.
///
/// Each encoding is looked at once. That takes a number of steps in proportion to its octets,
/// except that one of indefinite length is skipped to find its end.
fn look_along(
    alloc: Global,
    list: &mut Vec<Departure>,
    wanted: Wanted,
    way: Way<'_, '_>,
    encodings: Pending<'_>,
) -> Result<(), AllocError>
    requires here { IsFoundIn way.part.now encodings.octets.now encodings.left }
    requires first { encodings.index ≡ 0 }
    requires outermost { encodings.depth ≡ 0 }
    requires size { length encodings.octets.now < 2 ^ 64 }
    ensures grows { OnOk result (GrowsInside way.entry.len way.entry.part.now way.entry.path.now encodings.entry.octets.now list.old.items list.new.items) }
    ensures complete { OnOk result (wanted ≡ All → (ds : List Departure) → list.new.items ≡ list.old.items ++ ds → HasAll encodings.entry.octets.now ds) }
{
    let before = list.len();
    let mut path = Vec::new(alloc);
    let mut pending = Vec::new(alloc);
    pending.push(encodings)?;
    // Each encoding has an octet of its own.
    'encodings: for _ in encodings.octets {
        let Some(next) = pending.pop() else {
            return Ok(());
        };
        go_along(&mut path, next.depth, next.index)?;
        look(alloc, list, way, &path, &mut pending, next)?;
        if is_enough(wanted, list.len().saturating_sub(before)) {
            return Ok(());
        }
    }
    Ok(())
}

/// Appends that these octets, which are those of a value of an open type, aren't well formed.
fn note_whole(
    alloc: Global,
    list: &mut Vec<Departure>,
    way: Way<'_, '_>,
    octets: &[u8],
    left: usize,
) -> Result<(), AllocError>
    requires here { IsFoundIn way.part.now octets.now left }
    requires formed { IsWellFormed octets.now → ⊥ }
    ensures { OnOk result ((d : Departure) × (list.new.items ≡ list.old.items ++ d ∷ []) × IsInside way.entry.len way.entry.part.now way.entry.path.now octets.now d) }
{
    let site = site_at(way, left, Some(&[]));
    let error = unreadable(alloc, octets);
    note(alloc, list, site, Aspect::Contents, Some(error))
}

/// Appends what departs inside a value of an open type with these contents: nothing exactly if they
/// are well formed.
fn note_inside(
    alloc: Global,
    list: &mut Vec<Departure>,
    wanted: Wanted,
    way: Way<'_, '_>,
    contents: Contents<'_>,
) -> Result<(), AllocError>
    requires after { IsAfterHeader way.part.now.octets.now contents }
    requires size { length contents.octets.now < 2 ^ 64 }
    ensures listed { OnOk result ((ds : List Departure) × (list.new.items ≡ list.old.items ++ ds) × ((ds ≡ []) ↔ IsWellFormed contents.entry.octets.now)
        × AllByRecursion (IsInside way.entry.len way.entry.part.now way.entry.path.now contents.entry.octets.now) ds) }
    ensures complete { OnOk result (wanted ≡ All → (IsWellFormed contents.entry.octets.now → ⊥) → (ds : List Departure) → list.new.items ≡ list.old.items ++ ds → HasAll contents.entry.octets.now ds) }
{
    if is_well_formed(alloc, contents.octets)? {
        return Ok(());
    }
    let encodings = Pending {
        octets: contents.octets,
        index: 0,
        depth: 0,
        left: way.part.left.saturating_sub(contents.header_len),
    };
    let before = list.len();
    look_along(alloc, list, wanted, way, encodings)?;
    if list.len() == before {
        note_whole(alloc, list, way, contents.octets, encodings.left)?;
    }
    Ok(())
}

/// Appends what departs inside a part, or the first of it, if it is a value of an open type with
/// this tag.
fn note_any(
    alloc: Global,
    list: &mut Vec<Departure>,
    wanted: Wanted,
    tag: Tag,
    way: Way<'_, '_>,
) -> Result<(), AllocError>
    ensures listed { OnOk result ((ds : List Departure) × (list.new.items ≡ list.old.items ++ ds) × AreOpenDepartures way.entry.len way.entry.path.now way.entry.part.now (Some (Any tag)) ds) }
    ensures complete { OnOk result (wanted ≡ All → (ds : List Departure) → list.new.items ≡ list.old.items ++ ds → HasAllInside way.entry.part.now (Some (Any tag)) ds) }
{
    match contents_at(alloc, tag, way.part.octets) {
        Some(contents) => note_inside(alloc, list, wanted, way, contents),
        None => Ok(()),
    }
}

/// Returns the octets of the first of these encodings, as BER skips it, and the others.
fn split_first(alloc: Global, octets: &[u8]) -> Option<(&[u8], &[u8])>
    ensures { MatchOption result (IsUnread octets.now) (λ s. IsSplit octets.now s.0.now s.1.now) }
{
    let others = after_first(alloc, octets)?;
    Some((octets_before(octets, others), others))
}

/// Appends what departs inside each of the unknown values, or the first of it.
fn note_each(
    alloc: Global,
    list: &mut Vec<Departure>,
    wanted: Wanted,
    way: Way<'_, '_>,
) -> Result<(), AllocError>
    ensures grows { OnOk result (GrowsUnknown way.entry.len way.entry.part.now way.entry.path.now list.old.items list.new.items) }
    ensures complete { OnOk result (wanted ≡ All → (ds : List Departure) → list.new.items ≡ list.old.items ++ ds → HasAllOfEach way.entry.part.now.octets.now ds) }
{
    let octets = way.part.octets;
    let before = list.len();
    let mut rest = octets;
    // Each encoding has an octet of its own.
    'values: for _ in octets {
        let Some((first, others)) = split_first(alloc, rest) else {
            return Ok(());
        };
        let header_len = octets.len().saturating_sub(rest.len());
        let contents = Contents {
            octets: first,
            header_len,
        };
        note_inside(alloc, list, wanted, way, contents)?;
        if is_enough(wanted, list.len().saturating_sub(before)) {
            return Ok(());
        }
        rest = others;
    }
    Ok(())
}

/// Appends what departs inside unknown values, or the first of it: nothing exactly if they are
/// well-formed encodings, one after the other.
fn note_unknown(
    alloc: Global,
    list: &mut Vec<Departure>,
    wanted: Wanted,
    way: Way<'_, '_>,
) -> Result<(), AllocError>
    ensures listed { OnOk result ((ds : List Departure) × (list.new.items ≡ list.old.items ++ ds) × AreOfUnknown way.entry.len way.entry.path.now way.entry.part.now ds) }
    ensures complete { OnOk result (wanted ≡ All → (ds : List Departure) → list.new.items ≡ list.old.items ++ ds → HasAllOfEach way.entry.part.now.octets.now ds) }
{
    let octets = way.part.octets;
    if are_encodings(alloc, octets)? {
        return Ok(());
    }
    let before = list.len();
    note_each(alloc, list, wanted, way)?;
    if list.len() == before {
        note_whole(alloc, list, way, octets, way.part.left)?;
    }
    Ok(())
}

/// Appends what departs inside a part, or the first of it, if it is a value of an open type, or
/// unknown values.
pub fn note_open(
    alloc: Global,
    list: &mut Vec<Departure>,
    wanted: Wanted,
    ty: &Type,
    way: Way<'_, '_>,
) -> Result<(), AllocError>
    ensures listed { OnOk result ((ds : List Departure) × (list.new.items ≡ list.old.items ++ ds) × AreOpenDepartures way.entry.len way.entry.path.now way.entry.part.now (Some ty.now) ds) }
    ensures complete { OnOk result (wanted ≡ All → (ds : List Departure) → list.new.items ≡ list.old.items ++ ds → HasAllInside way.entry.part.now (Some ty.now) ds) }
{
    match ty {
        Type::Any { tag } => note_any(alloc, list, wanted, *tag, way),
        Type::Unknown => note_unknown(alloc, list, wanted, way),
        _ => Ok(()),
    }
}
