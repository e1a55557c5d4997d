//! Guesses the type of a message that none of the types reads.

use crate::dump::whole_encoding;
use crate::types::MessageType;
use rasn_de::ber::de::{Decoder, DecoderOptions};
use rasn_dynamic::check_or_locate;
use rasn_schema::{Presence, Schema, Type, TypeId, components_of, part_type, type_at};
use rasn_types::types::{Codec, Tag};
use std::alloc::{AllocError, Global};

/// Limits how many octets of a message are looked at.
const LOOKED_AT: usize = 16_384;

/// Limits how many values in one another have their parts looked at.
const LEVELS: usize = 8;

/// Limits at how many octets of contents a part is looked for one octet after the other.
const TRIED: usize = 64;

/// Limits how often that is done in a message, and how many encodings without an end are looked at:
/// each may take as long as the message.
const TRIED_IN_ALL: usize = 4_096;

/// Has the greatest length of an encoding whose length takes one octet (X.690 8.1.3.4).
const SHORT: usize = 0x81;

/// Says how much of a message a type reads that doesn't read it as a whole.
#[derive(Clone, Copy)]
pub(crate) struct Likeness {
    /// The octets of parts that are read, and one for each part that isn't but has the tag of its
    /// type. Of what could be something else less is counted.
    read: usize,
    /// The required components that aren't found.
    missing: usize,
    /// Says where the last part ends that is counted.
    end: usize,
}

impl Likeness {
    /// Says that nothing is read.
    pub(crate) const NONE: Likeness = Likeness {
        read: 0,
        missing: 0,
        end: 0,
    };

    /// Returns that so many octets are read.
    fn of(len: usize) -> Likeness {
        Likeness {
            read: len,
            missing: 0,
            end: len,
        }
    }

    /// Returns that of what is read a quarter counts, since it may be of another type as well.
    fn doubtful(self) -> Likeness {
        Likeness {
            read: self.read.saturating_add(2) / 4,
            ..self
        }
    }

    /// Returns whether more is read than in another case, or as much with fewer components missing.
    pub(crate) fn is_more_than(&self, other: &Likeness) -> bool {
        self.read > other.read || self.read == other.read && self.missing < other.missing
    }
}

/// Has what parts are read by.
#[derive(Clone, Copy)]
struct Reader<'a> {
    alloc: Global,
    schema: &'a Schema,
}

/// Octets in which parts of a type are looked for.
#[derive(Clone, Copy)]
struct Contents<'a> {
    octets: &'a [u8],
    /// How many octets are before them in the encoding that they are of.
    before: usize,
    /// Whether an encoding may begin at any of them, since a length before them is wrong.
    is_lost: bool,
}

/// The parts of a type from an index on.
#[derive(Clone, Copy)]
struct PartsFrom<'a> {
    ty: &'a Type,
    next: usize,
}

/// An encoding, or octets that begin as one.
#[derive(Clone, Copy)]
struct First<'a> {
    octets: &'a [u8],
    /// Whether it ends within the octets that it is in.
    is_whole: bool,
    /// Whether it may begin at another octet.
    is_lost: bool,
}

/// Where parts are looked for in contents, and how much of them is read so far.
#[derive(Clone, Copy)]
struct Walk<'a> {
    rest: &'a [u8],
    /// How many octets are before them in the encoding that they are of.
    at: usize,
    /// Whether an encoding may begin at any of them.
    is_lost: bool,
    /// The index of the first part that may be next.
    next: usize,
    /// How many more octets are tried one by one.
    tries: usize,
    sum: Likeness,
}

impl<'a> Walk<'a> {
    fn of(contents: Contents<'a>) -> Walk<'a> {
        Walk {
            rest: contents.octets,
            at: contents.before,
            is_lost: contents.is_lost,
            next: 0,
            tries: TRIED,
            sum: Likeness::NONE,
        }
    }

    /// Counts an encoding of which the part with this index reads so much, and goes on after it.
    fn count(&mut self, ty: &Type, first: First<'_>, found: Likeness, index: usize) {
        self.miss(ty, index);
        self.next = index.saturating_add(1);
        self.sum.read = self.sum.read.saturating_add(found.read);
        self.sum.missing = self.sum.missing.saturating_add(found.missing);
        self.sum.end = self.at.saturating_add(found.end);
        self.is_lost = !first.is_whole;
        self.go_on(if first.is_whole {
            first.octets.len()
        } else {
            found.end
        });
    }

    /// Goes on after an encoding of which no part reads anything, or one octet if nothing says where
    /// it ends.
    fn skip(&mut self, first: First<'_>) {
        if first.is_lost || !first.is_whole {
            self.is_lost = true;
            self.tries = self.tries.saturating_sub(1);
            self.go_on(1);
        } else {
            self.go_on(first.octets.len());
        }
    }

    /// Counts the required components that aren't found before the one with this index.
    fn miss(&mut self, ty: &Type, index: usize) {
        let missing = required(ty, self.next, index);
        self.sum.missing = self.sum.missing.saturating_add(missing);
    }

    /// Goes on by so many octets, and by one at least.
    fn go_on(&mut self, len: usize) {
        let len = len.max(1);
        self.at = self.at.saturating_add(len);
        self.rest = self.rest.get(len..).unwrap_or(&[]);
    }
}

/// Returns how much a type reads of a message, whatever tag and length the message has, if that is
/// enough to say that the message is of the type.
///
/// # Errors
/// `AllocError` if memory runs out.
pub(crate) fn likeness_of(
    alloc: Global,
    wanted: &MessageType<'_>,
    octets: &[u8],
) -> Result<Likeness, AllocError> {
    let schema = wanted.schema;
    let Some(ty) = type_at(schema.types(), wanted.root) else {
        return Ok(Likeness::NONE);
    };
    let reader = Reader { alloc, schema };
    let octets = octets.get(..LOOKED_AT).unwrap_or(octets);
    let mut tries = TRIED_IN_ALL;
    let mut found = parts_read(reader, ty, contents_for(ty, octets), LEVELS, &mut tries)?;
    if first_tag(alloc, octets) == Some(ty.tag()) {
        found.read = found.read.saturating_add(1);
    } else if found.read < octets.len() / 2 {
        return Ok(Likeness::NONE);
    }
    Ok(if found.read > 1 {
        found
    } else {
        Likeness::NONE
    })
}

/// Returns how much a type of the schema reads of an encoding: all, or its parts.
#[cycle(read_by)]
fn read_by(
    reader: Reader<'_>,
    id: TypeId,
    first: First<'_>,
    levels: usize,
    tries: &mut usize,
) -> Result<Likeness, AllocError> {
    let octets = first.octets;
    let all = Likeness::of(octets.len());
    let Some(ty) = type_at(reader.schema.types(), id) else {
        return Ok(Likeness::NONE);
    };
    if let Type::Choice { .. } = ty {
        return parts_in(reader, ty, octets, levels, tries);
    }
    if is_any(ty) && ty.tag() == Tag::EOC {
        return Ok(all.doubtful());
    }
    if first_tag(reader.alloc, octets) != Some(ty.tag()) {
        return Ok(Likeness::NONE);
    }
    match check_or_locate(reader.alloc, Codec::Ber, reader.schema, id, octets) {
        Ok(_) if holds_any(reader.schema, ty) => return Ok(all.doubtful()),
        Ok(_) => return Ok(all),
        Err(refusal) if refusal.error.is_out_of_memory() => return Err(AllocError),
        Err(_) => {}
    }
    let mut found = parts_in(reader, ty, octets, levels, tries)?;
    if found.read == 0 {
        found.end = 1;
        if !first.is_whole {
            found.read = all.doubtful().read;
        }
    }
    found.read = found.read.saturating_add(1);
    Ok(found)
}

/// Returns how much the parts of a type read of an encoding.
#[cycle(read_by)]
fn parts_in(
    reader: Reader<'_>,
    ty: &Type,
    octets: &[u8],
    levels: usize,
    tries: &mut usize,
) -> Result<Likeness, AllocError> {
    if levels == 0 {
        return Ok(Likeness::NONE);
    }
    parts_read(reader, ty, contents_for(ty, octets), levels - 1, tries)
}

/// Returns how much of the encodings in these contents the parts of a type read, in their order.
#[cycle(read_by)]
fn parts_read(
    reader: Reader<'_>,
    ty: &Type,
    contents: Contents<'_>,
    levels: usize,
    tries: &mut usize,
) -> Result<Likeness, AllocError> {
    let mut walk = Walk::of(contents);
    // Each turn goes on by an octet at least.
    for _ in contents.octets {
        if walk.rest.is_empty() || walk.tries == 0 || *tries == 0 {
            break;
        }
        let first = first_of(reader.alloc, walk.rest, walk.is_lost);
        if first.is_lost || !first.is_whole {
            *tries = tries.saturating_sub(1);
        }
        let parts = PartsFrom {
            ty,
            next: walk.next,
        };
        let (found, index) = most_read(reader, parts, first, levels, tries)?;
        if found.read > 0 {
            walk.count(ty, first, found, index);
        } else {
            walk.skip(first);
        }
    }
    walk.miss(ty, usize::MAX);
    Ok(walk.sum)
}

/// Returns how much of an encoding that part reads that reads most of it, and its index.
#[cycle(read_by)]
fn most_read(
    reader: Reader<'_>,
    parts: PartsFrom<'_>,
    first: First<'_>,
    levels: usize,
    tries: &mut usize,
) -> Result<(Likeness, usize), AllocError> {
    let PartsFrom { ty, next } = parts;
    let mut most = (Likeness::NONE, next);
    for index in next..usize::MAX {
        let Some(id) = part_type(ty, index) else {
            break;
        };
        let found = read_by(reader, id, first, levels, tries)?;
        if found.read > most.0.read {
            most = (found, index);
        }
        if found.read >= first.octets.len() || has_one_part(ty) {
            break;
        }
    }
    let (mut found, index) = most;
    if found.read == 0 && first.is_whole && !first.is_lost {
        found = read_within(reader, parts, first.octets, levels, tries)?.doubtful();
    }
    if first.is_lost {
        found = found.doubtful();
    }
    Ok((found, index))
}

/// Returns how much the next part reads of the contents of an encoding with another tag, if it is
/// most of them.
#[cycle(read_by)]
fn read_within(
    reader: Reader<'_>,
    parts: PartsFrom<'_>,
    octets: &[u8],
    levels: usize,
    tries: &mut usize,
) -> Result<Likeness, AllocError> {
    let Some(id) = part_type(parts.ty, parts.next) else {
        return Ok(Likeness::NONE);
    };
    let Some(ty) = type_at(reader.schema.types(), id) else {
        return Ok(Likeness::NONE);
    };
    let found = parts_in(reader, ty, octets, levels, tries)?;
    Ok(if found.read > octets.len() / 2 {
        found
    } else {
        Likeness::NONE
    })
}

/// Returns how many of the components with these indices are required.
fn required(ty: &Type, from: usize, to: usize) -> usize {
    let mut count = 0usize;
    for (index, component) in components_of(ty).iter().enumerate() {
        if from <= index && index < to && matches!(component.presence, Presence::Required) {
            count = count.saturating_add(1);
        }
    }
    count
}

/// Returns whether a type is an open type.
fn is_any(ty: &Type) -> bool {
    matches!(ty, Type::Any { .. })
}

/// Returns whether a type is an open type, also in an explicit tag.
fn holds_any(schema: &Schema, ty: &Type) -> bool {
    if let Type::Tagged { inner, .. } = ty {
        return match type_at(schema.types(), *inner) {
            Some(inner) => is_any(inner),
            None => false,
        };
    }
    is_any(ty)
}

/// Returns whether all parts of a type are of one type.
fn has_one_part(ty: &Type) -> bool {
    matches!(
        ty,
        Type::SequenceOf { .. } | Type::SetOf { .. } | Type::Tagged { .. }
    )
}

/// Returns the tag with which octets begin, if it can be read.
fn first_tag(alloc: Global, octets: &[u8]) -> Option<Tag> {
    let decoder = Decoder::new(alloc, octets, DecoderOptions::of(Codec::Ber));
    decoder.peek_tag().ok()
}

/// Returns the encoding with which octets begin, or all of them if it doesn't end in them.
fn first_of(alloc: Global, octets: &[u8], is_lost: bool) -> First<'_> {
    let whole = whole_encoding(alloc, octets);
    First {
        octets: whole.unwrap_or(octets),
        is_whole: whole.is_some(),
        is_lost,
    }
}

/// Returns in which octets of a value of this type its parts are (X.690 8.1.3).
fn contents_for<'a>(ty: &Type, octets: &'a [u8]) -> Contents<'a> {
    let (before, is_lost) = match octets.get(1) {
        _ if matches!(ty, Type::Choice { .. }) => (0, false),
        Some(length @ 0x81..=0x88) => ((*length as usize).saturating_sub(0x7E), false),
        Some(length) => (2, *length > 0x88 && octets.len() > SHORT),
        None => (octets.len(), false),
    };
    Contents {
        octets: octets.get(before..).unwrap_or(&[]),
        before,
        is_lost,
    }
}
