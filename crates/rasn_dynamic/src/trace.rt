//! Where in the input a value couldn't be read.
ghost use Rattle.std.specs.Prelude.{◌≡◌, ◌+◌, ◌<◌, ◌≤◌, ◌^◌, Option, Some, length};
ghost use Rattle.rasn_dynamic.specs.Faults.{IsMarked, IsLonger, IsStepped, IsMoved, octets_after};
ghost use Rattle.rasn_dynamic.specs.declared.trace.UnreadValue.{UnreadValue};

use rasn_de::ber::de::Decoder;
use rasn_schema::TypeId;
use std::alloc::Global;

/// The innermost value that couldn't be read.
#[derive(Drop)]
pub struct UnreadValue {
    /// The number of its type.
    pub id: TypeId,
    /// How many octets there are from its start to the end of what its decoder sees.
    pub left: usize,
    /// Its index in the value that holds it, then the index of that one, and so on outwards.
    pub steps: Vec<usize>,
    /// Whether outer steps are missing, since memory ran out for them.
    pub is_cut: bool,
}

/// Names a value, unless one inside it is named.
#[cold]
#[inline(never)]
pub fn mark(alloc: Global, trace: &mut Option<UnreadValue>, id: TypeId, left: usize)
    ensures { IsMarked id left trace.old trace.new }
{
    match trace {
        Some(_) => {}
        None => {
            *trace = Some(UnreadValue {
                id,
                left,
                steps: Vec::new(alloc),
                is_cut: false,
            });
        }
    }
}

/// Adds a step outwards, unless steps are missing already. If memory runs out, this one is.
fn lengthen(fault: &mut UnreadValue, index: usize)
    ensures { IsLonger index fault.old fault.new }
{
    if fault.is_cut {
        return;
    }
    if fault.steps.push(index).is_err() {
        fault.is_cut = true;
    }
}

/// Adds a step outwards. What is named stays named.
#[cold]
#[inline(never)]
pub fn step(trace: &mut Option<UnreadValue>, index: usize)
    ensures { IsStepped index trace.old trace.new }
{
    if let Some(fault) = trace {
        lengthen(fault, index);
    }
}

/// Names a value that holds no others as the part with this index, unless one inside it is named.
#[cold]
#[inline(never)]
pub fn mark_part(
    alloc: Global,
    trace: &mut Option<UnreadValue>,
    id: TypeId,
    left: usize,
    index: usize,
)
    ensures { (mid : Option UnreadValue) × IsMarked id left trace.old mid × IsStepped index mid trace.new }
{
    mark(alloc, trace, id, left);
    step(trace, index);
}

/// Returns how many octets are left to read.
#[inline(always)]
pub fn octets_left(decoder: &Decoder<'_>) -> usize
    ensures { result ≡ length decoder.now.rest }
{
    decoder.remaining().len()
}

/// Returns how many octets follow the contents of a value: of those that end-of-contents octets
/// end, none, since `inner` sees what follows them.
#[inline(always)]
pub fn octets_after(decoder: &Decoder<'_>, inner: &Decoder<'_>) -> usize
    ensures { result ≡ octets_after inner.now.closing (length decoder.now.rest) }
{
    if inner.may_be_closed() {
        0
    } else {
        octets_left(decoder)
    }
}

/// Counts octets that follow the contents, which the decoder of the contents doesn't see.
#[cold]
#[inline(never)]
pub fn add_after(trace: &mut Option<UnreadValue>, after: usize)
    requires { (f : UnreadValue) → trace.old ≡ Some f → f.left + after < 2 ^ 64 }
    ensures { IsMoved after trace.old trace.new }
{
    if let Some(fault) = trace {
        fault.left += after;
    }
}
