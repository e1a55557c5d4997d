//! The parts of a message, as they are read.
ghost use Rattle.std.specs.Prelude.{◌≡◌, [], length, Some, None};
ghost use Rattle.rasn_dynamic.specs.Faults.{octets_after};
ghost use Rattle.rasn_dynamic.specs.Listed.{IsEmpty, HasRoom, IsNoted, IsFinished, IsInside, IsOutside, IsCut, is_wanted};

use crate::trace::octets_after;
use rasn_de::ber::de::Decoder;
use rasn_schema::TypeId;
use std::alloc::Global;

/// For how many parts there is room from the start at most.
const MOST_EXPECTED: usize = 1024;

/// A part of a message as it was read: a value that is in it, or the message itself.
#[derive(Debug, Clone, Copy)]
pub struct Span<'input> {
    /// The number of its type.
    pub id: TypeId,
    /// Its index in the value that holds it.
    pub index: usize,
    /// In how many others it is: 0 for the message itself.
    pub depth: usize,
    /// How many octets there are from its start to the end of the message.
    pub left: usize,
    /// All of its octets; while it is read, those from its start on.
    pub octets: &'input [u8],
}

/// The parts of a message that have been read, and where the reader is.
#[derive(Drop)]
pub struct Spans<'input> {
    /// The parts in the order of their octets, each before those inside it. `None` if they aren't
    /// listed, or if memory ran out.
    pub list: Option<Vec<Span<'input>>>,
    /// How many octets of the message follow those that the decoder sees.
    pub after: usize,
    /// Of which types the parts are listed, by the numbers of the types. `None`: of all.
    pub wanted: Option<Vec<bool>>,
}

/// Returns a list of parts that notes none.
pub fn no_list<'input>() -> Spans<'input> {
    Spans {
        list: None,
        after: 0,
        wanted: None,
    }
}

/// Returns an empty list of parts, with room for those that so many octets may have.
fn empty_list<'input>(alloc: Global, len: usize) -> Vec<Span<'input>>
    ensures { result.items ≡ [] }
{
    let count = (len / 8).min(MOST_EXPECTED);
    match Vec::with_capacity(alloc, count) {
        Ok(list) => list,
        Err(_) => Vec::new(alloc),
    }
}

/// Returns an empty list of the parts of a message of `len` octets.
pub fn new_list<'input>(alloc: Global, len: usize) -> Spans<'input>
    ensures empty { IsEmpty result }
    ensures all { result.wanted ≡ None }
{
    Spans {
        list: Some(empty_list(alloc, len)),
        after: 0,
        wanted: None,
    }
}

/// Returns an empty list of those parts of a message whose types are wanted.
pub fn new_list_of<'input>(alloc: Global, wanted: Vec<bool>) -> Spans<'input>
    ensures empty { IsEmpty result }
    ensures wanted { result.wanted ≡ Some wanted }
{
    Spans {
        list: Some(Vec::new(alloc)),
        after: 0,
        wanted: Some(wanted),
    }
}

/// Returns whether parts of a type are listed.
#[inline(always)]
fn is_wanted(spans: &Spans<'_>, id: TypeId) -> bool
    ensures { result ≡ is_wanted spans.now.wanted id.0 }
{
    match &spans.wanted {
        Some(types) => match types.get(id.0) {
            Some(is_wanted) => *is_wanted,
            None => false,
        },
        None => true,
    }
}

/// Makes room in a full list for one more part. If memory runs out, there is no list from then on.
#[cold]
#[inline(never)]
fn grow(spans: &mut Spans<'_>)
    ensures { HasRoom spans.old spans.new }
{
    let Some(list) = &mut spans.list else {
        return;
    };
    match list.reserve(1) {
        Ok(()) => {}
        Err(_) => {
            spans.list = None;
        }
    }
}

/// Makes room in the list for one more part. If memory runs out, there is no list from then on.
#[inline(always)]
fn make_room(spans: &mut Spans<'_>)
    ensures { HasRoom spans.old spans.new }
{
    let Some(list) = &spans.list else {
        return;
    };
    if list.len() >= list.capacity() {
        grow(spans);
    }
}

/// Notes a part that is read next, if it is to be listed; from it types are followed `levels` deep:
/// as deep as can be from the message, and one level less from each part inside. Returns its place
/// in the list. If memory runs out, there is no list from then on.
#[inline(always)]
pub fn note<'input>(
    spans: &mut Spans<'input>,
    id: TypeId,
    index: usize,
    levels: usize,
    octets: &'input [u8],
) -> usize
    ensures { IsNoted id index levels octets.now spans.old result spans.new }
{
    if !is_wanted(spans, id) {
        return usize::MAX;
    }
    make_room(spans);
    let left = spans.after.saturating_add(octets.len());
    let Some(list) = &mut spans.list else {
        return 0;
    };
    let place = list.len();
    list.push_reserved(Span {
        id,
        index,
        depth: usize::MAX - levels,
        left,
        octets,
    });
    place
}

/// Returns the octets before the rest, if they end with it.
fn cut<'input>(octets: &'input [u8], rest: &[u8]) -> &'input [u8]
    ensures { IsCut octets.now rest.now result.now }
{
    &octets[..octets.len().saturating_sub(rest.len())]
}

/// Ends the part at this place of the list, if it is listed: its octets are those before the rest.
#[inline(always)]
pub fn finish(spans: &mut Spans<'_>, place: usize, rest: &[u8])
    ensures { IsFinished place rest.now spans.old spans.new }
{
    let Some(list) = &mut spans.list else {
        return;
    };
    if place >= list.len() {
        return;
    }
    let part = &mut list[place];
    part.octets = cut(part.octets, rest);
}

/// Goes to the contents of a value, which this decoder reads. Returns how many octets follow those
/// that the decoder outside sees.
#[inline(always)]
pub fn go_inside(spans: &mut Spans<'_>, decoder: &Decoder<'_>, inner: &Decoder<'_>) -> usize
    ensures { IsInside (octets_after inner.now.closing (length decoder.now.rest)) spans.old result spans.new }
{
    let after = spans.after;
    spans.after = after.saturating_add(octets_after(decoder, inner));
    after
}

/// Goes back out of the contents of a value.
#[inline(always)]
pub fn go_outside(spans: &mut Spans<'_>, after: usize)
    ensures { IsOutside after spans.old spans.new }
{
    spans.after = after;
}

/// Returns the list.
pub fn list_of<'input>(spans: Spans<'input>) -> Option<Vec<Span<'input>>>
    ensures { result ≡ spans.entry.list }
{
    spans.list
}
