//! Gathering primitive values and closing constructed ones: each is counted in the length of its
//! list.
ghost use Rattle.std.specs.Prelude.{◌≡◌, ◌<◌, ◌≤◌, ◌+◌, ◌++◌, ◌∷◌, [], length, take, drop, suc, vec_len, IfOk, OnOk, OnErr};
ghost use Rattle.rasn_enc.specs.Buffer.Lists.{tags_of};
ghost use Rattle.rasn_enc.specs.Buffer.DeferredHeaders.{header_octets, head_of, back, Encloses};
ghost use Rattle.rasn_enc.specs.Buffer.OpenValues.{noted, AppendsCounted};

use crate::ber::enc::writer::Open;
use crate::ber::enc::writer::contents::{Contents, append_primitive};
use crate::ber::enc::writer::deferred_headers::{
    DeferredHeader, ROOM, append_end_of_contents, defer_rest, fill_room, header_for, header_len,
};
use crate::ber::enc::writer::kept_tags::{record_tag, reserve_tag};
use rasn_types::ber::rules::EncodingRules;
use rasn_types::types::{Codec, Tag};
use std::alloc::AllocError;

/// Returns the sum of `measured` and the number of octets from `at` on. If it overflows, the octets
/// from `at` on are removed.
fn count_from(gathered: &mut Vec<u8>, at: usize, measured: usize) -> Result<usize, AllocError>
    requires { at ≤ vec_len gathered.old }
    ensures total { IfOk result (λ n. n + at ≡ measured + vec_len gathered.old) }
    ensures same { OnOk result (gathered.new.items ≡ gathered.old.items) }
    ensures err { OnErr result (gathered.new.items ≡ take at gathered.old.items) }
{
    match measured.checked_add(gathered.len() - at) {
        Some(total) => Ok(total),
        None => {
            gathered.truncate(at);
            Err(AllocError)
        }
    }
}

/// Gathers a primitive value, and returns the new length of its list.
#[inline(always)]
pub fn gather<T: Contents>(
    gathered: &mut Vec<u8>,
    tags: &mut Option<Vec<Tag>>,
    measured: usize,
    tag: Tag,
    contents: &T,
) -> Result<usize, AllocError>
    ensures ok { IfOk result (AppendsCounted (T.IsWritten contents.now) tag measured gathered.old.items gathered.new.items) }
    ensures noted { OnOk result (tags_of tags.new ≡ noted (tags_of tags.old) (tag ∷ [])) }
    ensures err { OnErr result (gathered.new.items ≡ gathered.old.items) }
    ensures same { OnErr result (tags_of tags.new ≡ tags_of tags.old) }
{
    let at = gathered.len();
    reserve_tag(tags)?;
    append_primitive(gathered, tag, contents)?;
    let total = count_from(gathered, at, measured)?;
    record_tag(tags, tag);
    Ok(total)
}

/// Gathers octets as they are, and returns the new length of their list.
pub fn gather_octets(
    gathered: &mut Vec<u8>,
    measured: usize,
    octets: &[u8],
) -> Result<usize, AllocError>
    ensures ok { OnOk result (gathered.new.items ≡ gathered.old.items ++ octets.now) }
    ensures total { IfOk result (λ n. n ≡ measured + length octets.now) }
    ensures err { OnErr result (gathered.new.items ≡ gathered.old.items) }
{
    let Some(total) = measured.checked_add(octets.len()) else {
        return Err(AllocError);
    };
    gathered.extend_from_slice(octets)?;
    Ok(total)
}

/// Returns the number of end-of-contents octets that a rule writes.
fn back_len(rule: Codec) -> usize
    ensures count { result ≡ length (back rule) }
    ensures small { result < 3 }
{
    if EncodingRules::of_codec(rule).is_cer() {
        2
    } else {
        0
    }
}

fn sum(a: usize, b: usize, c: usize) -> Result<usize, AllocError>
    ensures { IfOk result (λ n. n ≡ a + (b + c)) }
{
    match b.checked_add(c) {
        Some(n) => match a.checked_add(n) {
            Some(n) => Ok(n),
            None => Err(AllocError),
        },
        None => Err(AllocError),
    }
}

/// Closes a value of `count` contents octets, and appends it to the list that it interrupted: writes
/// its header before the contents, and the end-of-contents octets, if any, after them. If an
/// allocation fails, what was written before the value stays as it is.
#[inline(always)]
pub fn close_value(
    gathered: &mut Vec<u8>,
    headers: &mut Vec<DeferredHeader>,
    value: &mut Open,
    rule: Codec,
    tag: Tag,
    count: usize,
) -> Result<(), AllocError>
    requires room { value.old.end + 2 ≤ vec_len gathered.old }
    requires index { value.old.last ≤ vec_len headers.old }
    ensures place { (value.new.end ≡ value.old.end) × (value.new.last ≡ value.old.last) }
    ensures start { (value.new.list.start ≡ value.old.list.start) × (value.new.list.first ≡ value.old.list.first) }
    ensures octets { OnOk result (Encloses value.old.end value.old.last (header_octets (head_of rule tag count)) (back rule) gathered.old.items headers.old.items gathered.new.items headers.new.items) }
    ensures total { OnOk result (value.new.list.measured ≡ value.old.list.measured + (length (header_octets (head_of rule tag count)) + length (back rule) + count)) }
    ensures noted { OnOk result (tags_of value.new.list.tags ≡ noted (tags_of value.old.list.tags) (tag ∷ [])) }
    ensures err { OnErr result ((take value.old.end gathered.new.items ≡ take value.old.end gathered.old.items) × (take value.old.last headers.new.items ≡ take value.old.last headers.old.items)) }
    ensures same { OnErr result ((value.new.list.measured ≡ value.old.list.measured) × (tags_of value.new.list.tags ≡ tags_of value.old.list.tags)) }
{
    let head = header_for(rule, tag, count);
    let total = sum(
        value.list.measured,
        header_len(head) + back_len(rule),
        count,
    )?;
    reserve_tag(&mut value.list.tags)?;
    let rest = fill_room(gathered, value.end, head)?;
    defer_rest(headers, value.last, value.end + ROOM, rest)?;
    append_end_of_contents(gathered, rule)?;
    record_tag(&mut value.list.tags, tag);
    value.list.measured = total;
    Ok(())
}
