//! Skipping of complete encodings, nested to any depth, without recursion (X.690 8.1.1.1, 8.1.5).
ghost use Rattle.std.specs.Prelude.{◌≡◌, ◌+◌, ◌*◌, ◌≤◌, ◌∷◌, List, ℕ, Some, None, length, MatchOption, IfOk};
ghost use Rattle.rasn_types.specs.Tags.{loose};
ghost use Rattle.rasn_types.specs.Framing.{AreOctets};
ghost use Rattle.rasn_types.specs.Shapes.{looked_for};
ghost use Rattle.rasn_de.specs.State.{IsEnd};
ghost use Rattle.rasn_de.specs.declared.ber.de.parser.headers.Expected.TheVariants.{AnyTag};
ghost use Rattle.rasn_de.specs.Headers.{header_at};
ghost use Rattle.rasn_de.specs.Skipping.{Skipped, EncodingsToEnd, IsUnparsable, IsFault, Exactly, passed};
ghost use Rattle.rasn_de.specs.Any.{OpenAt, as_lists};
ghost use Rattle.rasn_de.specs.ParserViews.{ParsesAs, header};

use crate::ber::de::parser::headers::{Expected, Spelling, read_value};
use crate::ber::de::parser::{Contents, ParseError, Value};
use rasn_types::types::{Codec, Tag};

/// The number of octets that close contents of indefinite length (X.690 8.1.5).
const CLOSING_LENGTH: usize = 2;

/// Reads the value at the start of the input, which may have any tag and be encoded as in an open
/// type. Returns it and what follows.
fn read_any_value(rule: Codec, input: &[u8]) -> Result<(Value<'_>, &[u8]), ParseError>
    ensures exact { ParsesAs header result (header_at (loose rule) AnyTag input.now) }
    ensures octets { AreOctets input.now }
{
    read_value(Spelling::loose(rule), Expected::AnyTag, input)
}

/// Returns what follows end-of-contents octets, or `None` if the input doesn't begin with them.
fn after_closing(input: &[u8]) -> Option<&[u8]>
    ensures { MatchOption result ((more : List ℕ) → input.now ≡ 0 ∷ 0 ∷ more → ⊥) (λ after. input.now ≡ 0 ∷ 0 ∷ after.now) }
{
    match input {
        [0, 0, after @ ..] => Some(after),
        _ => None,
    }
}

/// Skips the contents of a value of indefinite length, which are complete encodings, and their
/// end-of-contents octets. A counter of the values that are open replaces recursion. Returns the
/// number of steps and what follows. A step skips end-of-contents octets, or a header and its
/// contents if their length is definite.
pub fn skip_contents(rule: Codec, input: &[u8]) -> Result<(usize, &[u8]), ParseError>
    ensures exact { Exactly (EncodingsToEnd rule input.now) (IsUnparsable rule input.now) (passed result) }
    ensures half { IfOk result (λ p. 2 * p.0 + length p.1.now ≤ length input.now) }
    ensures some { IfOk result (λ p. 1 ≤ p.0) }
{
    let mut rest = input;
    let mut open: usize = 0;
    let mut turns: usize = 0;
    'values: loop {
        if let Some(after) = after_closing(rest) {
            turns += 1;
            rest = after;
            if open == 0 {
                return Ok((turns, rest));
            }
            open -= 1;
            continue;
        }
        let (value, after) = read_any_value(rule, rest)?;
        if let Contents::Indefinite = value.contents {
            open += 1;
        }
        turns += 1;
        rest = after;
    }
}

/// Skips one complete encoding. Returns the number of steps that its contents take, which is 0 if
/// its length is definite, and what follows.
pub fn skip_encoding(rule: Codec, input: &[u8]) -> Result<(usize, &[u8]), ParseError>
    ensures exact { Exactly (Skipped rule input.now) (IsFault rule input.now) (passed result) }
    ensures half { IfOk result (λ p. 2 * p.0 + length p.1.now ≤ length input.now) }
{
    let (value, rest) = read_any_value(rule, input)?;
    match value.contents {
        Contents::Definite(_) => Ok((0, rest)),
        Contents::Indefinite => skip_contents(rule, rest),
    }
}

/// Returns one complete encoding and what follows.
fn read_encoding(rule: Codec, input: &[u8]) -> Result<(&[u8], &[u8]), ParseError>
    ensures { OpenAt rule None input.now (as_lists result) }
{
    let (_, after) = skip_encoding(rule, input)?;
    let (text, _) = input.split_at(input.len() - after.len());
    Ok((text, after))
}

/// Returns the contents of the next value, which must have this tag, without end-of-contents
/// octets, and what follows the value.
fn read_tagged(rule: Codec, tag: Tag, input: &[u8]) -> Result<(&[u8], &[u8]), ParseError>
    ensures { OpenAt rule (Some tag) input.now (as_lists result) }
{
    let expected = Expected::as_written(rule, tag, true);
    let (value, rest) = read_value(Spelling::of_rule(rule), expected, input)?;
    match value.contents {
        Contents::Definite(contents) => Ok((contents, rest)),
        Contents::Indefinite => {
            let (_, after) = skip_contents(rule, rest)?;
            let (contents, _) = rest.split_at(rest.len() - after.len() - CLOSING_LENGTH);
            Ok((contents, after))
        }
    }
}

/// Returns the octets of an open type and what follows. If the tag is `Tag::EOC`, the octets are
/// one complete encoding; otherwise they are the contents of one value of the tag.
#[tactic(auto, using(crate::proofs::Any::Reads::opens_end))]
pub fn read_open(rule: Codec, tag: Tag, input: &[u8]) -> Result<(&[u8], &[u8]), ParseError>
    ensures exact { OpenAt rule (looked_for tag) input.now (as_lists result) }
    ensures end { IfOk result (λ p. IsEnd input.now p.1.now) }
{
    if tag == Tag::EOC {
        read_encoding(rule, input)
    } else {
        read_tagged(rule, tag, input)
    }
}
