//! Rendering: the octets of deferred headers are inserted into the gathered octets, from the back.
ghost use Rattle.std.specs.Prelude.{◌≡◌, ◌<◌, ◌≤◌, ◌+◌, ◌-◌, ◌++◌, length, take, drop, IfOk, OnOk, OnErr};
ghost use Rattle.rasn_enc.specs.Buffer.DeferredHeaders.{deferred_octets, rendered, Rising, header_octets_count, front_run};
ghost use Rattle.rasn_enc.specs.Buffer.Moves.{Moves};

use crate::ber::enc::writer::deferred_headers::DeferredHeader;
use std::alloc::AllocError;
use std::simd::Simd;

/// Moves octets up by `by` in blocks of `N`, the last block first, until fewer than `N` octets
/// remain. Returns the end of the octets that remain.
fn move_blocks<const N: usize>(buffer: &mut [u8], at: usize, end: usize, by: usize) -> usize
    requires some { 0 < N }
    requires order { at ≤ end }
    requires within { end + by ≤ length buffer.old }
    ensures left { (at ≤ result) × (result ≤ end) }
    ensures moved { Moves buffer.old buffer.new result end by }
{
    let mut left = end;
    while left - at >= N {
        left -= N;
        Simd::<u8, N>::from_slice(&buffer[left..]).copy_to_slice(&mut buffer[left + by..]);
    }
    left
}

/// Moves the octets from `at` to `end` up by `by`.
fn move_up(buffer: &mut [u8], at: usize, end: usize, by: usize)
    requires order { at ≤ end }
    requires within { end + by ≤ length buffer.old }
    ensures { Moves buffer.old buffer.new at end by }
{
    let left = move_blocks::<32>(buffer, at, end, by);
    let left = move_blocks::<8>(buffer, at, left, by);
    buffer.copy_within(at..left, at + by);
}

/// Writes octets into the buffer, from `at` on.
fn write_at(buffer: &mut [u8], at: usize, octets: &[u8])
    requires { at + length octets.now ≤ length buffer.old }
    ensures { buffer.new ≡ take at buffer.old ++ (octets.now ++ drop (at + length octets.now) buffer.old) }
{
    buffer[at..at + octets.len()].copy_from_slice(octets);
}

/// Moves the octets from the deferred header's place to `from` up, to end at `to`, and writes the
/// header's own octets before them. Returns the number of octets written.
fn splice_header(buffer: &mut [u8], header: DeferredHeader, from: usize, to: usize) -> usize
    requires order { header.at ≤ from }
    requires within { to ≤ length buffer.old }
    requires room { from + length (deferred_octets header) ≤ to }
    ensures moved { buffer.new ≡ take (to - result) buffer.old ++ (deferred_octets header ++ (drop header.at (take from buffer.old) ++ drop to buffer.old)) }
    ensures count { result ≡ (from - header.at) + length (deferred_octets header) }
{
    let run = from - header.at;
    let rest = header.rest.as_slice();
    let n = rest.len();
    move_up(buffer, header.at, from, to - from);
    write_at(buffer, to - run - n, rest);
    run + n
}

/// Renders a buffer that begins with `gathered` octets and has the length of the rendered octets.
/// Returns the number of copies: of gathered octets that are moved to their places, and of octets
/// of deferred headers.
fn render(buffer: &mut [u8], gathered: usize, headers: &[DeferredHeader]) -> usize
    requires rising { Rising 0 headers.now gathered }
    requires room { length buffer.old ≡ gathered + header_octets_count headers.now }
    ensures output { buffer.new ≡ rendered (take gathered buffer.old) 0 headers.now }
    ensures copies { result ≤ length buffer.new }
    ensures exact { result + front_run headers.now gathered ≡ length buffer.new }
{
    let mut copies: usize = 0;
    let mut from = gathered;
    let mut to = buffer.len();
    let mut k = headers.len();
    while k > 0 {
        k -= 1;
        let header = headers[k];
        let written = splice_header(buffer, header, from, to);
        copies += written;
        to -= written;
        from = header.at;
    }
    copies
}

/// Inserts the octets of all deferred headers into the gathered octets. The vector grows once, if
/// there is a deferred header.
#[inline(always)]
fn rendered_in(
    gathered: Vec<u8>,
    headers: &[DeferredHeader],
    measured: usize,
) -> Result<Vec<u8>, AllocError>
    requires rising { Rising 0 headers.now (length gathered.items) }
    requires measure { measured ≡ length (rendered gathered.items 0 headers.now) }
    ensures { IfOk result (λ v. v.items ≡ rendered gathered.items 0 headers.now) }
{
    let mut buffer = gathered;
    if headers.is_empty() {
        return Ok(buffer);
    }
    let count = buffer.len();
    grow(&mut buffer, measured)?;
    render(&mut buffer, count, headers);
    Ok(buffer)
}

/// Inserts the octets of all deferred headers into the gathered octets of a list that begins at
/// `start`, and removes the octets before the list.
#[inline(always)]
pub fn rendered_from(
    gathered: Vec<u8>,
    headers: &[DeferredHeader],
    start: usize,
    measured: usize,
) -> Result<Vec<u8>, AllocError>
    requires rising { Rising start headers.now (length gathered.items) }
    requires measure { measured ≡ length (rendered gathered.items start headers.now) }
    ensures { IfOk result (λ v. v.items ≡ rendered gathered.items start headers.now) }
{
    let Some(whole) = start.checked_add(measured) else {
        return Err(AllocError);
    };
    let mut octets = rendered_in(gathered, headers, whole)?;
    cut_front(&mut octets, start);
    Ok(octets)
}

/// Removes the first `count` octets.
fn cut_front(octets: &mut Vec<u8>, count: usize)
    requires { count ≤ length octets.old.items }
    ensures { octets.new.items ≡ drop count octets.old.items }
{
    if count > 0 {
        octets.drain(..count);
    }
}

/// Grows a vector to `whole` octets, the first of which are those that it had.
fn grow(buffer: &mut Vec<u8>, whole: usize) -> Result<(), AllocError>
    requires { length buffer.old.items ≤ whole }
    ensures len { OnOk result (length buffer.new.items ≡ whole) }
    ensures front { OnOk result (take (length buffer.old.items) buffer.new.items ≡ buffer.old.items) }
    ensures err { OnErr result (buffer.new.items ≡ buffer.old.items) }
{
    buffer.resize(whole, 0)
}
