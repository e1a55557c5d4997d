//! The storage of what an encoder writes: the output, and a list for each value that is still open.
//!
//! Values are gathered one after the other in one vector. A constructed value leaves room before
//! its contents for the two octets that every header has at least. If its header has more, a
//! deferred header holds the others; the octets of all deferred headers are inserted at once, from
//! the back, when the output is asked for. The contracts of these calls are about views alone, so
//! only the bodies of the calls depend on how the octets are stored.
ghost use Rattle.std.specs.Prelude.{ℕ, List, ◌≡◌, ◌<◌, ◌≤◌, ◌-◌, ◌⊎◌, [], length, take, drop, Ok, Err, IfOk, IfErr, OnOk, OnErr, false};
ghost use Rattle.rasn_types.specs.Truth.{IsWhether, IsUnless};
ghost use Rattle.rasn_types.specs.Bytes.{ConstructedEncoding, AreAscending};
ghost use Rattle.rasn_types.specs.declared.types.tag.Tag.{Tag};
ghost use Rattle.rasn_types.specs.Tags.{IsTagBelow};
ghost use Rattle.rasn_enc.specs.View.{View, started, opened, appended, IsBelow};
ghost use Rattle.rasn_enc.specs.Buffer.Lists.{IsEndOf};
ghost use Rattle.rasn_enc.specs.Buffer.OpenValues.{kept_of};
ghost use Rattle.rasn_enc.specs.Primitive.{Appends, AppendsPrimitive, IsAllocError};
ghost use Rattle.rasn_enc.specs.Order.{octets_less, FallsBetween};

use crate::ber::enc::writer::contents::Contents;
use crate::ber::enc::writer::cursors::{place, rendered_before};
use crate::ber::enc::writer::cutting::cut;
use crate::ber::enc::writer::deferred_headers::{DeferredHeader, ROOM};
use crate::ber::enc::writer::gathering::{close_value, gather};
use crate::ber::enc::writer::kept_tags::{cut_tags, tags_out_of_order};
use crate::ber::enc::writer::open_values::{pop_innermost, push_innermost};
use crate::ber::enc::writer::rendering::rendered_from;
use crate::ber::enc::{Encoder, out_of_memory};
use rasn_types::error::EncodeError;
use rasn_types::types::{Codec, Tag};
use std::alloc::Global;
use std::mem;

pub(super) mod base_128;
pub(super) mod contents;
pub(super) mod cursors;
pub(super) mod cutting;
pub(super) mod deferred_headers;
pub(super) mod gathering;
pub(super) mod header_rest;
pub(super) mod headers;
pub(super) mod kept_tags;
pub(super) mod leading_tag;
pub(super) mod open_values;
pub(super) mod rendering;
mod untagged;

/// The end of a list: its number of octets and its number of tags.
#[derive(Clone, Copy, Drop)]
pub struct ListEnd {
    octets: usize,
    tags: usize,
}

/// A list of values.
#[derive(Drop)]
pub struct ValueList {
    /// The index of the list's first octet in the gathered octets.
    pub start: usize,
    /// The index of the list's first deferred header.
    pub first: usize,
    /// The number of octets in the list once it is rendered.
    pub measured: usize,
    /// The tags of the list's values, if they are kept.
    pub tags: Option<Vec<Tag>>,
}

/// An open value, with the list that it interrupted. That list has the gathered octets up to `end`,
/// where the value's room begins, and the deferred headers up to number `last`.
#[derive(Drop)]
pub struct Open {
    pub list: ValueList,
    pub end: usize,
    pub last: usize,
}

impl Encoder {
    /// Makes an encoder with an empty output, which is written into this vector, replacing what it
    /// holds.
    #[inline(always)]
    pub(super) fn empty(alloc: Global, rule: Codec, buffer: Vec<u8>, keeps_tags: bool) -> Encoder
        ensures { result ≡ started rule keeps_tags }
    {
        let mut gathered = buffer;
        gathered.clear();
        let tags = if keeps_tags {
            Some(Vec::new(alloc))
        } else {
            None
        };
        Encoder {
            alloc,
            rule,
            gathered,
            headers: Vec::new(alloc),
            list: ValueList {
                start: 0,
                first: 0,
                measured: 0,
                tags,
            },
            around: Vec::new(alloc),
            innermost: None,
        }
    }

    /// Returns the octets of the last list.
    #[inline(always)]
    pub(super) fn rendered(self) -> Result<Vec<u8>, EncodeError>
        ensures ok { IfOk result (λ v. v.items ≡ self.last.octets) }
        ensures refused { IfErr result (IsAllocError self.rule) }
    {
        let Encoder {
            alloc: _,
            rule,
            gathered,
            headers,
            list,
            around: _,
            innermost: _,
        } = self;
        let ValueList {
            start,
            first,
            measured,
            tags: _,
        } = list;
        match rendered_from(gathered, &headers[first..], start, measured) {
            Ok(octets) => Ok(octets),
            Err(_) => Err(out_of_memory(rule)),
        }
    }

    /// Opens a value, whose contents are all that is written until `close`.
    ///
    /// # Errors
    /// Only `OutOfMemory`. On error, no value is opened.
    #[inline(always)]
    pub fn open(&mut self, keeps_tags: bool) -> Result<(), EncodeError>
        ensures ok { OnOk result (self.new ≡ opened self.old keeps_tags) }
        ensures err { OnErr result (self.new ≡ self.old) }
        ensures memory_alone { IfErr result (IsAllocError self.old.rule) }
    {
        let rule = self.rule;
        if self.gathered.reserve(ROOM).is_err() {
            return Err(out_of_memory(rule));
        }
        match push_innermost(&mut self.around, &mut self.innermost) {
            Ok(()) => {
                let end = self.gathered.len();
                let last = self.headers.len();
                let tags = if keeps_tags {
                    Some(Vec::new(self.alloc))
                } else {
                    None
                };
                self.gathered.push_reserved(0);
                self.gathered.push_reserved(0);
                let inner = ValueList {
                    start: self.gathered.len(),
                    first: last,
                    measured: 0,
                    tags,
                };
                let list = mem::replace(&mut self.list, inner);
                self.innermost = Some(Open { list, end, last });
                Ok(())
            }
            Err(_) => Err(out_of_memory(rule)),
        }
    }

    /// Closes the value that was opened last, or drops it if `outcome` is an error.
    ///
    /// # Errors
    /// The error of `outcome`; `OutOfMemory` if an allocation fails. On error, nothing is written:
    /// the value is dropped with its contents.
    #[inline(always)]
    pub fn close(&mut self, tag: Tag, outcome: Result<(), EncodeError>) -> Result<(), EncodeError>
        requires { 0 < length self.old.below }
        ensures ok { OnOk result ((v : View) → IsBelow v self.old → Appends (ConstructedEncoding v.rule tag self.old.last.octets) tag v self.new) }
        ensures accepted { OnOk result (outcome ≡ Ok tt) }
        ensures err { OnErr result ((v : View) → IsBelow v self.old → self.new ≡ v) }
        ensures refused { IfErr result (λ e. IsAllocError self.old.rule e ⊎ (outcome ≡ Err e)) }
    {
        if let Err(error) = outcome {
            self.abandon();
            return Err(error);
        }
        let rule = self.rule;
        let count = self.list.measured;
        let mut open = pop_innermost(&mut self.around, &mut self.innermost);
        let closed = close_value(
            &mut self.gathered,
            &mut self.headers,
            &mut open,
            rule,
            tag,
            count,
        );
        let Open { list, end, last } = open;
        self.list = list;
        match closed {
            Ok(()) => Ok(()),
            Err(_) => {
                self.gathered.truncate(end);
                self.headers.truncate(last);
                Err(out_of_memory(rule))
            }
        }
    }

    /// Drops the value that was opened last, with its contents.
    fn abandon(&mut self)
        requires { 0 < length self.old.below }
        ensures { (v : View) → IsBelow v self.old → self.new ≡ v }
    {
        let Open { list, end, last } = pop_innermost(&mut self.around, &mut self.innermost);
        self.gathered.truncate(end);
        self.headers.truncate(last);
        self.list = list;
    }

    /// Appends a primitive value to the last list.
    #[inline(always)]
    pub(super) fn leaf<T: Contents>(&mut self, tag: Tag, contents: &T) -> Result<(), EncodeError>
        ensures ok { OnOk result (AppendsPrimitive (T.IsWritten contents.now) tag self.old self.new) }
        ensures err { OnErr result (self.new ≡ self.old) }
        ensures memory_alone { IfErr result (IsAllocError self.old.rule) }
    {
        match gather(
            &mut self.gathered,
            &mut self.list.tags,
            self.list.measured,
            tag,
            contents,
        ) {
            Ok(total) => {
                self.list.measured = total;
                Ok(())
            }
            Err(_) => Err(out_of_memory(self.rule)),
        }
    }

    /// Returns the end of the last list.
    pub(super) fn end(&self) -> ListEnd
        ensures { IsEndOf self.now.last result }
    {
        ListEnd {
            octets: self.list.measured,
            tags: self.list.tags.as_ref().map_or(0, |tags| tags.len()),
        }
    }

    /// Removes from the last list what was appended after `end`.
    pub(super) fn cut_back(&mut self, end: ListEnd)
        ensures { (v : View) (octets : List ℕ) (tags : List Tag) → IsEndOf v.last end → self.old ≡ appended v octets tags → self.new ≡ v }
    {
        if self.list.measured < end.octets {
            return;
        }
        cut(
            &mut self.gathered,
            &mut self.headers,
            self.list.start,
            self.list.first,
            self.list.measured,
            end.octets,
        );
        self.list.measured = end.octets;
        cut_tags(&mut self.list.tags, end.tags);
    }

    /// Returns the number of octets in the last list, which is the contents of the value that was
    /// opened last, or the output if no value is open.
    pub fn last_len(&self) -> usize
        ensures { result ≡ length self.now.last.octets }
    {
        self.list.measured
    }

    /// Returns whether the octets of the last list from `middle` on are less than those from `from`
    /// to `middle` (X.690 11.6).
    pub fn neighbours_out_of_order(&self, from: usize, middle: usize) -> bool
        requires order { from ≤ middle }
        requires within { middle ≤ length self.now.last.octets }
        ensures { IsWhether result (FallsBetween from middle self.now.last.octets) }
    {
        self.is_less_at(from, middle)
    }

    fn is_less_at(&self, from: usize, middle: usize) -> bool
        requires order { from ≤ middle }
        requires within { middle ≤ length self.now.last.octets }
        ensures { result ≡ octets_less (drop middle self.now.last.octets) (take (middle - from) (drop from self.now.last.octets)) }
    {
        let headers = &self.headers[self.list.first..];
        let left = place(
            &self.gathered,
            headers,
            self.list.start,
            self.list.measured,
            middle,
        );
        let right = place(
            &self.gathered,
            headers,
            self.list.start,
            self.list.measured,
            from,
        );
        rendered_before(&self.gathered, headers, left, right, middle - from)
    }

    /// Returns whether a tag that the last list keeps is below the one before it (X.690 9.3).
    pub fn kept_tags_out_of_order(&self) -> bool
        ensures { IsUnless result (AreAscending IsTagBelow (kept_of self.now.last.tags)) }
    {
        match &self.list.tags {
            Some(tags) => tags_out_of_order(tags),
            None => false,
        }
    }
}
