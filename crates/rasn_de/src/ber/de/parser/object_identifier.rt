//! The contents of an OBJECT IDENTIFIER (X.690 8.19).
ghost use Rattle.std.specs.Prelude.{◌≡◌, ◌∷◌, ◌++◌, [], OnOk, IfOk, IfErr};
ghost use Rattle.rasn_de.specs.declared.ber.de.parser.ParseError.TheVariants.{OutOfMemory};
ghost use Rattle.rasn_de.specs.ObjectIdentifier.{ParsesArcs, arc_at, first_two};
ghost use Rattle.rasn_de.specs.Checks.{ChecksArcs};
ghost use Rattle.rasn_de.specs.ParserViews.{ParsesAs, pair};

use crate::ber::de::parser::ParseError;
use crate::ber::de::parser::headers::{is_padded, read_number128};
use crate::ber::rules::is_der;
use rasn_types::error::DerDecodeErrorKind;
use rasn_types::types::{Codec, ObjectIdentifier};
use std::alloc::Global;

/// Appends an arc to the others.
fn push_arc(arcs: &mut Vec<u32>, arc: u32) -> Result<(), ParseError>
    ensures ok { OnOk result (arcs.new.items ≡ arcs.old.items ++ arc ∷ []) }
    ensures err { IfErr result (λ f. f ≡ OutOfMemory) }
{
    match arcs.push(arc) {
        Ok(()) => Ok(()),
        Err(_) => Err(ParseError::OutOfMemory),
    }
}

/// Returns the first two arcs, which share the first subidentifier (X.690 8.19.4), with capacity
/// for one more arc for each octet after it.
fn first_arcs(alloc: Global, subidentifier: u32, behind: usize) -> Result<Vec<u32>, ParseError>
    ensures ok { IfOk result (λ v. v.items ≡ first_two subidentifier) }
    ensures err { IfErr result (λ f. f ≡ OutOfMemory) }
{
    let first = (subidentifier / 40).min(2);
    let Ok(mut arcs) = Vec::with_capacity(alloc, behind.saturating_add(2)) else {
        return Err(ParseError::OutOfMemory);
    };
    push_arc(&mut arcs, first)?;
    push_arc(&mut arcs, subidentifier - 40 * first)?;
    Ok(arcs)
}

/// Reads the next subidentifier, and returns it and what follows. Under DER it must have no
/// superfluous octets. A subidentifier of one octet is the most frequent one, and is checked for
/// first.
#[tactic(auto, unfolding(crate::specs::Headers::number128_at))]
#[inline(always)]
fn read_arc(rules: Codec, input: &[u8]) -> Result<(u32, &[u8]), ParseError>
    ensures { ParsesAs pair result (arc_at rules input.now) }
{
    if let [octet @ 0..=127, after @ ..] = input {
        return Ok((u32::from(*octet), after));
    }
    if is_der(rules) && is_padded(input) {
        return Err(ParseError::Der(DerDecodeErrorKind::NonMinimalArc));
    }
    read_number128(ParseError::UnsupportedObjectIdentifierArc, input)
}

/// Returns the object identifier that contents octets encode.
#[inline]
pub fn read_object_identifier(
    alloc: Global,
    rules: Codec,
    contents: &[u8],
) -> Result<ObjectIdentifier, ParseError>
    ensures { ParsesArcs rules contents.now result }
{
    let (subidentifier, mut rest) = read_arc(rules, contents)?;
    let mut arcs = first_arcs(alloc, subidentifier, rest.len())?;
    while !rest.is_empty() {
        let (arc, after) = read_arc(rules, rest)?;
        push_arc(&mut arcs, arc)?;
        rest = after;
    }
    Ok(ObjectIdentifier::new(arcs).unwrap())
}

/// Returns an error if contents octets encode no object identifier. Nothing is allocated.
pub fn check_object_identifier(rules: Codec, contents: &[u8]) -> Result<(), ParseError>
    ensures { ChecksArcs rules contents.now result }
{
    let (_, mut rest) = read_arc(rules, contents)?;
    while !rest.is_empty() {
        let (_, after) = read_arc(rules, rest)?;
        rest = after;
    }
    Ok(())
}
