//! Blocks of PEM (RFC 7468) of a text.
ghost use Rattle.std.specs.Prelude.{◌≡◌, ◌+◌, ◌-◌, ◌≤◌, length, List, ℕ};
ghost use Rattle.rasn_text.specs.Pem.{AreBefore};
ghost use Rattle.rasn_c.specs.Status.{IsNumberOf};
ghost use Rattle.rasn_c.specs.Blocks.{AnswersBlock, AreContentsPut};

use crate::buffers::fill;
use crate::status::Status;
use rasn_text::{Block, PemError, blocks, line_start};
use std::alloc::Global;

/// Where a block of PEM is in a text: `soq_block` of the header.
#[repr(C)]
#[derive(Clone, Copy, Debug, PartialEq, Eq)]
pub struct BlockPlace {
    /// Where its label begins, in octets from the start of the text.
    pub label: usize,
    /// How many octets its label has.
    pub label_length: usize,
    /// The number of its first line, counted from 1.
    pub line: usize,
}

/// There is no block.
const NO_PLACE: BlockPlace = BlockPlace {
    label: 0,
    label_length: 0,
    line: 0,
};

/// How many octets of the first line of a block are before its label: `-----BEGIN `.
const BEFORE_LABEL: usize = 11;

/// Writes the octets of the block of PEM with this index, counted from 0, to the buffer, and where
/// it is. `needed` is the number of octets, also if the buffer is smaller; the buffer is then
/// unchanged.
#[unsafe(no_mangle)]
pub extern "C" fn soq_proved_pem(
    alloc: Global,
    text: &[u8],
    index: usize,
    place: &mut BlockPlace,
    buffer: &mut [u8],
    needed: &mut usize,
) -> u32
    ensures { IsNumberOf (AnswersBlock text.now index place.new buffer.old buffer.new needed.new) result }
{
    put_block(alloc, text, index, place, buffer, needed).number()
}

fn put_block(
    alloc: Global,
    text: &[u8],
    index: usize,
    place: &mut BlockPlace,
    buffer: &mut [u8],
    needed: &mut usize,
) -> Status
    ensures { AnswersBlock text.now index place.new buffer.old buffer.new needed.new result }
{
    *needed = 0;
    *place = NO_PLACE;
    let Ok(found) = blocks(alloc, text) else {
        return Status::OutOfMemory;
    };
    let Some(block) = found.as_slice().get(index) else {
        return Status::Absent;
    };
    *place = place_of(text, block);
    put_contents(&block.contents, buffer, needed)
}

/// Writes the octets of a block, if it has any, to the front of the buffer if they fit.
fn put_contents(
    contents: &Result<Vec<u8>, PemError>,
    buffer: &mut [u8],
    needed: &mut usize,
) -> Status
    ensures { AreContentsPut contents.now buffer.old buffer.new needed.new result }
{
    match contents {
        Ok(octets) => fill(octets, buffer, needed),
        Err(_) => {
            *needed = 0;
            Status::Refused
        }
    }
}

/// Returns where a block of this text is.
fn place_of(text: &[u8], block: &Block<'_>) -> BlockPlace
    ensures label { (front : List (List ℕ)) (rest : List ℕ) → AreBefore text.now front rest → length front + 1 ≡ block.now.line → result.label ≡ length text.now - length rest + 11 }
    ensures length { result.label_length ≡ length block.now.label.now }
    ensures line { result.line ≡ block.now.line }
{
    BlockPlace {
        label: line_start(text, block.line) + BEFORE_LABEL,
        label_length: block.label.len(),
        line: block.line,
    }
}
