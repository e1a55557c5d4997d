//! Encodings that follow DER at every depth, whatever their type (X.690 8.1, 10, 11).
ghost use Rattle.std.specs.Prelude.{◌≡◌, IfOk, OnOk, IsOk, List, ℕ, false};
ghost use Rattle.rasn_types.specs.declared.types.tag.Tag.{Tag};
ghost use Rattle.rasn_types.specs.Contents.{joined_lists};
ghost use Rattle.rasn_types.specs.Framing.{Frame, definite};
ghost use Rattle.rasn_types.specs.Tags.{der_form};
ghost use Rattle.rasn_types.specs.Truth.{IsWhether};
ghost use Rattle.rasn_lint.specs.Pending.{Keeps};
ghost use Rattle.rasn_lint.specs.WellFormed.{IsWellFormed, AreWellFormed, AreEncodings, AllowsParts, AllowsEncoding};

use crate::der::contents::allows_contents;
use crate::der::encoding::{Encoding, read_encoding};
use crate::der::order::is_in_order;
use crate::der::universal::{ContentsRule, rule_of};
use std::alloc::{AllocError, Global};

pub(crate) mod contents;
pub(crate) mod encoding;
pub mod laws;
pub(crate) mod order;
pub mod universal;

/// Returns whether a constructed encoding may have these encodings as its contents.
#[tactic(auto, using(crate::proofs::Rules::no_parts))]
fn allows_parts(alloc: Global, rule: ContentsRule, contents: &[u8]) -> bool
    ensures { (parts : List (List ℕ)) → contents.now ≡ joined_lists parts → AreWellFormed parts → IsWhether result (AllowsParts rule parts) }
{
    match rule {
        ContentsRule::Values => true,
        ContentsRule::Unknown => true,
        ContentsRule::Set => is_in_order(alloc, contents),
        _ => false,
    }
}

/// Returns whether the form and the contents of an encoding are allowed for its tag.
#[tactic(auto, using(crate::proofs::Rules::allowed_plain, crate::proofs::Rules::allowed_nested))]
fn is_allowed(alloc: Global, encoding: &Encoding<'_>) -> bool
    ensures { AllowsEncoding result encoding.now.tag encoding.now.is_constructed encoding.now.contents.now }
{
    let rule = rule_of(encoding.tag);
    if encoding.is_constructed {
        allows_parts(alloc, rule, encoding.contents)
    } else {
        allows_contents(rule, encoding.contents)
    }
}

/// Keeps octets that are read later, unless there are none.
#[tactic(auto, using(rasn_de::proofs::Leaves::Integer::empty_is, crate::proofs::Pending::keeps_none, crate::proofs::Pending::keeps_last))]
fn keep<'input>(outer: &mut Vec<&'input [u8]>, octets: &'input [u8]) -> Result<(), AllocError>
    ensures { OnOk result (Keeps octets.now outer.old.items outer.new.items) }
{
    if octets.is_empty() {
        return Ok(());
    }
    outer.push(octets)?;
    Ok(())
}

/// Returns whether contents are well-formed encodings, one after the other. The octets that follow
/// the open values replace recursion: contents are read in place of what follows their value, which
/// is read after them.
///
/// Each header is read once, and at most twice more for the order of the SET that it is directly
/// in. The contents octets of a primitive encoding are looked at once. Two neighbours in a SET are
/// compared in at most as many steps as the shorter one has octets, so all of them in at most as
/// many as the SET has without its longest component. What is compared is thus in a component of at
/// most half of the SET's octets: of n octets each is compared in at most log2 n of the SETs around
/// it. So the time is linear where no SET is inside a SET, and at most n log2 n.
#[tactic(auto, using(rasn_de::proofs::Leaves::Integer::empty_is, rasn_de::proofs::Leaves::Integer::not_empty, crate::proofs::Pending::starts, crate::proofs::Pending::closes, crate::proofs::Pending::ends, crate::proofs::Pending::none_begins, crate::proofs::Pending::passes, crate::proofs::Pending::opens, crate::proofs::Pending::refuses, crate::proofs::Pending::smaller_closed, crate::proofs::Pending::smaller_passed, crate::proofs::Pending::smaller_opened))]
pub(crate) fn are_encodings(alloc: Global, contents: &[u8]) -> Result<bool, AllocError>
    ensures { IfOk result (λ b. IsWhether b (AreEncodings contents.now)) }
{
    let mut rest = contents;
    let mut outer: Vec<&[u8]> = Vec::new(alloc);
    'encodings: loop {
        if rest.is_empty() {
            match outer.pop() {
                Some(after) => {
                    rest = after;
                    continue;
                }
                None => return Ok(true),
            }
        }
        let Some(encoding) = read_encoding(alloc, rest) else {
            return Ok(false);
        };
        if !is_allowed(alloc, &encoding) {
            return Ok(false);
        }
        if !encoding.is_constructed {
            rest = encoding.rest;
            continue;
        }
        keep(&mut outer, encoding.rest)?;
        rest = encoding.contents;
    }
}

/// Returns whether the octets are one encoding that follows DER at every depth.
///
/// - Each header has a definite length, and its tag number and its length have the fewest octets
///   (X.690 8.1.2.4, 10.1). The contents of a constructed encoding are encodings of which the same
///   holds, whatever its tag.
/// - An encoding with a universal tag has the form of its type, so that strings are primitive
///   (X.690 10.2), and contents that DER allows: [`ContentsRule`](universal::ContentsRule) has
///   them. Of another tag's primitive encoding any contents are allowed.
/// - The components of a SET are in the order of a SET, with rising tags (X.690 10.3), or in that
///   of a SET OF, with ascending octets (X.690 11.6).
///
/// A tag number is below 2^32. Values may be nested to any depth, without recursion. Memory is
/// taken for a constructed value that others follow in the same contents.
///
/// # Errors
/// `AllocError` if an allocation fails.
///
/// # Examples
/// ```
/// // BOOLEAN TRUE (X.690 8.2, 11.1)
/// let is_der = rasn_lint::der::is_well_formed(alloc, &[0x01, 0x01, 0xFF])?;
/// // `is_der` is true; of 01 01 05 it is false
/// ```
#[tactic(auto, using(rasn_de::proofs::Leaves::Integer::empty_is, rasn_de::proofs::Leaves::Integer::not_empty, crate::proofs::Steps::nothing_follows, crate::proofs::Steps::disallowed, crate::proofs::Steps::plain, crate::proofs::Steps::nested_result, crate::proofs::Steps::not_plain))]
pub fn is_well_formed(alloc: Global, octets: &[u8]) -> Result<bool, AllocError>
    ensures exact { IfOk result (λ b. IsWhether b (IsWellFormed octets.now)) }
    ensures primitive { (tag : Tag) (rest contents : List ℕ) → Frame der_form octets.now tag false rest (definite contents) → IsOk result }
{
    let Some(encoding) = read_encoding(alloc, octets) else {
        return Ok(false);
    };
    if !encoding.rest.is_empty() {
        return Ok(false);
    }
    if !is_allowed(alloc, &encoding) {
        return Ok(false);
    }
    if encoding.is_constructed {
        return are_encodings(alloc, encoding.contents);
    }
    Ok(true)
}
