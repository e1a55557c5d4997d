//! PEM, the textual encoding of octets (RFC 7468).
ghost use Rattle.std.specs.Prelude.{◌≡◌, ◌≢◌, ◌+◌, ◌-◌, ◌<◌, ◌≤◌, ◌∷◌, ◌++◌, List, ℕ, IfOk, IfSome, OnOk, MatchOption, length, map, option_to_list};
ghost use Rattle.std.specs.List.{All, filter};
ghost use Rattle.rasn_types.specs.Truth.{IsWhether};
ghost use Rattle.rasn_text.specs.Pem.{AreLines, AreBefore, IsBoundary, IsNoBoundary, IsContents, AreBlocks, AreBlocksOf, IsDecoded, IsNextBlock, end, is_space, is_symbol};

use base64::DecodeAllocError;
use base64::engine::general_purpose::STANDARD;
use std::alloc::{AllocError, Global};
use thiserror::Error;

/// The reason why a block of PEM has no octets.
#[derive(Clone, Copy, Debug, PartialEq, Eq, Drop, Error)]
pub enum PemError {
    /// No line `-----END LABEL-----` with the label of the first line follows.
    #[error("no line -----END LABEL----- with the label of the first")]
    End,
    /// The lines between these two aren't base64 (RFC 4648, 4).
    #[error("base64: {0}")]
    Base64(base64::DecodeError),
}

/// A block of PEM.
#[derive(Debug, Drop)]
pub struct Block<'text> {
    /// What is between BEGIN and the dashes.
    pub label: &'text [u8],
    /// The number of its first line, counted from 1.
    pub line: usize,
    /// The octets that its lines encode.
    pub contents: Result<Vec<u8>, PemError>,
}

/// The text that the first line of a block begins with.
const BEGIN: &[u8] = b"-----BEGIN ";

/// The text that the last line of a block begins with.
const END: &[u8] = b"-----END ";

/// The text that both lines end with.
const DASHES: &[u8] = b"-----";

/// Returns the blocks of a text, each with its octets or with why it has none. Other lines, before
/// the first block and between two, are skipped (RFC 7468 2).
///
/// # Errors
/// If an allocation fails.
///
/// # Examples
/// ```
/// let blocks = rasn_text::blocks(alloc, b"-----BEGIN X-----\nAQH/\n-----END X-----\n")?;
/// // one block with the label `X` and the octets 01 01 FF
/// ```
pub fn blocks<'text>(alloc: Global, octets: &'text [u8]) -> Result<Vec<Block<'text>>, AllocError>
    ensures { IfOk result (λ bs. AreBlocksOf octets.now bs.items) }
{
    let lines = lines_of(alloc, octets)?;
    blocks_in(alloc, lines.as_slice())
}

/// Returns the blocks that begin in these lines.
fn blocks_in<'lines, 'text>(
    alloc: Global,
    lines: &'lines [&'text [u8]],
) -> Result<Vec<Block<'text>>, AllocError>
    ensures { IfOk result (λ bs. AreBlocks (length lines.now) (map (λ l. l.now) lines.now) bs.items) }
{
    let mut blocks = Vec::new(alloc);
    let mut place = 0;
    while place < lines.len() {
        let number = place + 1;
        let (block, more) = block_at(alloc, number, lines[place], &lines[number..])?;
        push_block(&mut blocks, block)?;
        place = lines.len() - more.len();
    }
    Ok(blocks)
}

/// Appends a block, if there is one.
fn push_block<'text>(
    blocks: &mut Vec<Block<'text>>,
    block: Option<Block<'text>>,
) -> Result<(), AllocError>
    ensures { OnOk result (blocks.new.items ≡ blocks.old.items ++ option_to_list block.entry) }
{
    match block {
        Some(block) => match blocks.push(block) {
            Ok(()) => Ok(()),
            Err(_) => Err(AllocError),
        },
        None => Ok(()),
    }
}

/// Returns the block that begins in the line with this number, if one does, and the lines after it.
fn block_at<'lines, 'text>(
    alloc: Global,
    number: usize,
    line: &'text [u8],
    after: &'lines [&'text [u8]],
) -> Result<(Option<Block<'text>>, &'lines [&'text [u8]]), AllocError>
    ensures block { IfOk result (λ r. IsNextBlock number line.now (map (λ l. l.now) after.now) r.0 (map (λ l. l.now) r.1.now)) }
    ensures fewer { IfOk result (λ r. length r.1.now ≤ length after.now) }
{
    match label_after(line, BEGIN) {
        None => Ok((None, after)),
        Some(label) => {
            let (contents, more) = contents_of(alloc, label, after)?;
            let block = Block {
                label,
                line: number,
                contents,
            };
            Ok((Some(block), more))
        }
    }
}

/// Returns the lines of a text.
fn lines_of<'text>(alloc: Global, octets: &'text [u8]) -> Result<Vec<&'text [u8]>, AllocError>
    ensures { IfOk result (λ lines. AreLines octets.now (map (λ l. l.now) lines.items)) }
{
    let mut lines = Vec::new(alloc);
    let mut rest = octets;
    while let Some((line, after)) = first_line(rest) {
        lines.push(line)?;
        rest = after;
    }
    lines.push(rest)?;
    Ok(lines)
}

/// Returns where the line with this number begins, in octets from the start of the text. If there
/// are fewer lines, it is some place in the text.
pub fn line_start(octets: &[u8], number: usize) -> usize
    ensures start { (front : List (List ℕ)) (rest : List ℕ) → AreBefore octets.now front rest → length front + 1 ≡ number → result ≡ length octets.now - length rest }
    ensures within { result ≤ length octets.now }
{
    let mut rest = octets;
    let mut line = 1;
    while line < number {
        match first_line(rest) {
            Some((_, after)) => {
                rest = after;
                line += 1;
            }
            None => return octets.len(),
        }
    }
    octets.len() - rest.len()
}

/// Returns what is before the first line feed, and what is after it.
fn first_line(octets: &[u8]) -> Option<(&[u8], &[u8])>
    ensures parts { MatchOption result (All (λ c. c ≢ 10) octets.now) (λ r. (octets.now ≡ r.0.now ++ 10 ∷ r.1.now) × All (λ c. c ≢ 10) r.0.now) }
    ensures fewer { IfSome result (λ r. length r.1.now < length octets.now) }
{
    for (place, octet) in octets.iter().enumerate() {
        if *octet == b'\n' {
            return Some((&octets[..place], &octets[place + 1..]));
        }
    }
    None
}

/// Returns the label between these words and the dashes, if only white space follows these.
fn label_after<'text>(line: &'text [u8], words: &[u8]) -> Option<&'text [u8]>
    ensures { MatchOption result (IsNoBoundary words.now line.now) (λ label. IsBoundary words.now label.now line.now) }
{
    let text = line.trim_ascii_end();
    match text.strip_prefix(words) {
        Some(behind) => behind.strip_suffix(DASHES),
        None => None,
    }
}

/// Returns the octets that the lines up to the last one of a block encode, and the lines after it.
/// If the block has no last line, those from the next line of dashes on follow it.
fn contents_of<'lines, 'text>(
    alloc: Global,
    label: &[u8],
    lines: &'lines [&'text [u8]],
) -> Result<(Result<Vec<u8>, PemError>, &'lines [&'text [u8]]), AllocError>
    ensures contents { IfOk result (λ r. IsContents label.now (map (λ l. l.now) lines.now) r.0 (map (λ l. l.now) r.1.now)) }
    ensures fewer { IfOk result (λ r. length r.1.now ≤ length lines.now) }
{
    let mut symbols = Vec::new(alloc);
    let mut rest = lines;
    while let [line, after @ ..] = rest {
        if line.starts_with(DASHES) {
            if is_last(line, label) {
                return Ok((decoded(alloc, &symbols)?, after));
            }
            return Ok((Err(PemError::End), rest));
        }
        push_symbols(&mut symbols, line)?;
        rest = after;
    }
    Ok((Err(PemError::End), rest))
}

/// Returns whether the line is the last of a block with this label.
fn is_last(line: &[u8], label: &[u8]) -> bool
    ensures { IsWhether result (IsBoundary end label.now line.now) }
{
    match label_after(line, END) {
        Some(last) => last == label,
        None => false,
    }
}

/// Appends a line without its white space.
fn push_symbols(symbols: &mut Vec<u8>, line: &[u8]) -> Result<(), AllocError>
    ensures { OnOk result (symbols.new.items ≡ symbols.old.items ++ filter is_symbol line.now) }
{
    for octet in line {
        if !is_space(*octet) {
            symbols.push(*octet)?;
        }
    }
    Ok(())
}

/// Returns whether the octet is white space (RFC 7468, 3).
pub fn is_space(octet: u8) -> bool
    ensures { result ≡ is_space octet }
{
    matches!(octet, b' ' | b'\t' | b'\n' | 0x0B | 0x0C | b'\r')
}

/// Returns the octets that the symbols encode.
fn decoded(alloc: Global, symbols: &[u8]) -> Result<Result<Vec<u8>, PemError>, AllocError>
    ensures { IfOk result (IsDecoded symbols.now) }
{
    match STANDARD.decode(alloc, symbols) {
        Ok(octets) => Ok(Ok(octets)),
        Err(DecodeAllocError::DecodeError(error)) => Ok(Err(PemError::Base64(error))),
        Err(DecodeAllocError::OutOfMemory) => Err(AllocError),
    }
}
