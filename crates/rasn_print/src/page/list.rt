//! The parts of messages and of what they hold, with their places.

use crate::dump::{End, Entries, are_entries};
use crate::identifiers::built_in_name;
use crate::known::{Form, Known};
use crate::offsets::rest_of;
use crate::reading::refuse_rest;
use crate::refusal_text::text_of;
use crate::types::MessageType;
use rasn_dynamic::{Part, Refusal, decode, parts_of};
use rasn_schema::{LeafKind, Type, TypeId, Value, type_at};
use rasn_types::types::Tag;
use std::alloc::{AllocError, Global};

/// How many messages may be in one another: each is one that an open type or a string holds.
const NESTED: usize = 32;

/// What the script has in place of an index or a type that there isn't.
const NONE: i64 = -1;

/// The parts that are listed so far.
#[derive(Drop)]
pub(crate) struct Listed<'a> {
    alloc: Global,
    pub known: &'a Known<'a>,
    /// The type of the message, and its rules.
    wanted: &'a MessageType<'a>,
    /// Six numbers of each part: how deep it is, how many octets after the part before it it begins,
    /// how many octets its header has and it has itself, its index in what holds it, and its type.
    pub numbers: Vec<i64>,
    /// Where the last part begins.
    before: usize,
    /// For each type of the schema, whether a part is of it.
    pub types: Vec<bool>,
    /// The identifiers that have names, and these.
    pub identifiers: Vec<(String, &'a str)>,
    /// What is wrong at which octet.
    pub faults: Vec<(usize, String)>,
}

/// Where octets are that are a message.
#[derive(Clone, Copy)]
pub(crate) struct Nest {
    /// Where they begin.
    offset: usize,
    /// In how many parts they are.
    depth: usize,
    /// How many more messages may be in one another.
    levels: usize,
}

impl Nest {
    /// The place of the message that is listed.
    pub(crate) const WHOLE: Nest = Nest {
        offset: 0,
        depth: 0,
        levels: NESTED,
    };
}

/// A part as the script has it.
#[derive(Clone, Copy)]
struct Line {
    depth: usize,
    offset: usize,
    header_len: usize,
    len: usize,
    index: Option<usize>,
    id: Option<TypeId>,
}

/// A part that others are in.
#[derive(Clone, Copy)]
struct Outer {
    id: TypeId,
    /// The name of the identifier that says what its open types are.
    hint: Option<&'static str>,
}

impl<'a> Listed<'a> {
    /// Returns that nothing is listed yet of a message of this type.
    pub(crate) fn new(
        alloc: Global,
        known: &'a Known<'a>,
        wanted: &'a MessageType<'a>,
    ) -> Result<Listed<'a>, AllocError> {
        let mut types = Vec::new(alloc);
        for _ in known.schema.types() {
            types.push(false)?;
        }
        Ok(Listed {
            alloc,
            known,
            wanted,
            numbers: Vec::new(alloc),
            before: 0,
            types,
            identifiers: Vec::new(alloc),
            faults: Vec::new(alloc),
        })
    }

    /// Adds a part.
    fn push(&mut self, line: &Line) -> Result<(), AllocError> {
        let after = line.offset.saturating_sub(self.before);
        self.before = line.offset;
        self.numbers.push(number_of(line.depth))?;
        self.numbers.push(number_of(after))?;
        self.numbers.push(number_of(line.header_len))?;
        self.numbers.push(number_of(line.len))?;
        self.numbers.push(line.index.map_or(NONE, number_of))?;
        self.numbers
            .push(line.id.map_or(NONE, |id| number_of(id.0)))?;
        if let Some(id) = line.id {
            if let Some(is_used) = self.types.get_mut(id.0) {
                *is_used = true;
            }
        }
        Ok(())
    }

    /// Adds encodings whose types aren't known, of octets in this place, if each header can be read.
    fn push_entries(&mut self, octets: &[u8], nest: Nest) -> Result<(), AllocError> {
        match are_entries(self.alloc, octets) {
            Ok(true) => {}
            Ok(false) => return Ok(()),
            Err(_) => return Err(AllocError),
        }
        let mut entries = Entries::new(self.alloc, octets);
        // Each encoding has an octet of its own.
        for _ in octets {
            let Ok(Some(entry)) = entries.next() else {
                break;
            };
            self.push(&Line {
                depth: nest.depth.saturating_add(entry.depth),
                offset: nest.offset.saturating_add(entry.offset),
                header_len: entry.header_len,
                len: entry.octets.len(),
                index: None,
                id: None,
            })?;
        }
        Ok(())
    }

    /// Adds the name of an identifier, if it has one. Returns the one by which types are known.
    fn name_identifier(&mut self, part: &Part<'_>) -> Result<Option<&'static str>, AllocError> {
        let (alloc, schema) = (self.alloc, &self.known.schema);
        let value = match decode(alloc, self.wanted.rule, schema, part.id, part.octets) {
            Ok(value) => value,
            Err(error) if error.is_out_of_memory() => return Err(AllocError),
            Err(_) => return Ok(None),
        };
        let Value::Arcs(identifier) = &value else {
            return Ok(None);
        };
        let known = self.known;
        let Some(name) = known.identifier_name(identifier) else {
            return Ok(None);
        };
        if !self.identifiers.iter().any(|it| it.1 == name) {
            self.identifiers.push((identifier.to_string(alloc)?, name))?;
        }
        Ok(built_in_name(identifier.arcs()))
    }

    /// Adds why octets at an offset aren't a message of the type that an identifier names.
    fn push_fault(
        &mut self,
        offset: usize,
        octets: &[u8],
        hint: &str,
        refusal: &Refusal,
    ) -> Result<(), AllocError> {
        let begin = octets.get(refusal.offset..).unwrap_or(&[]);
        let cause = text_of(self.alloc, &refusal.error, begin, End::Input)?;
        let text = format!(in self.alloc; "not of {hint}: {cause}")?;
        self.faults.push((offset, text))?;
        Ok(())
    }
}

/// Returns a number as the script has it.
fn number_of(count: usize) -> i64 {
    i64::try_from(count).unwrap_or(i64::MAX)
}

/// Lists the parts of a message of this type, which is in this place, and of what it holds. Returns
/// why it is refused, if it is: then nothing is listed.
///
/// # Errors
/// `AllocError` if memory runs out.
#[cycle(list)]
pub(crate) fn list(
    listed: &mut Listed<'_>,
    id: TypeId,
    octets: &[u8],
    nest: Nest,
) -> Result<Option<Refusal>, AllocError> {
    let alloc = listed.alloc;
    let mut parts = match parts_of(alloc, listed.wanted.rule, &listed.known.schema, id, octets) {
        Ok(parts) => parts,
        Err(refusal) if refusal.error.is_out_of_memory() => return Err(AllocError),
        Err(refusal) => return Ok(Some(refusal)),
    };
    if let Err(refusal) = refuse_rest(alloc, listed.wanted, octets, rest_of(&parts, octets)) {
        return Ok(Some(refusal));
    }
    let mut around = Vec::new(alloc);
    for _ in 0..parts.list.len() {
        let Ok(Some(part)) = parts.next(alloc) else {
            return Err(AllocError);
        };
        let path = parts.path.as_slice();
        around.truncate(path.len());
        let place = Nest {
            offset: nest.offset.saturating_add(part.offset),
            depth: nest.depth.saturating_add(path.len()),
            ..nest
        };
        push_part(listed, &part, path, place)?;
        note_name(listed, &mut around, &part, path.last().copied())?;
        list_held(listed, around.as_slice(), &part, place)?;
        around.push(Outer {
            id: part.id,
            hint: None,
        })?;
    }
    Ok(None)
}

/// Adds a part of a message. Of unknown values there may be none.
fn push_part(
    listed: &mut Listed<'_>,
    part: &Part<'_>,
    path: &[usize],
    place: Nest,
) -> Result<(), AllocError> {
    if part.octets.is_empty() {
        return Ok(());
    }
    let is_unknown = matches!(type_of(listed, part.id), Some(Type::Unknown));
    listed.push(&Line {
        depth: place.depth,
        offset: place.offset,
        header_len: if is_unknown { 0 } else { part.header_len },
        len: part.octets.len(),
        index: path.last().copied(),
        id: Some(part.id),
    })
}

/// Returns the type with this number.
fn type_of<'a>(listed: &Listed<'a>, id: TypeId) -> Option<&'a Type> {
    type_at(listed.known.schema.types(), id)
}

/// Returns whether values of a type have their open types told by what is around them: a list, a
/// CHOICE or what is in an explicit tag.
fn is_passed(ty: Option<&Type>) -> bool {
    matches!(
        ty,
        Some(
            Type::SequenceOf { .. } | Type::SetOf { .. } | Type::Choice { .. } | Type::Tagged { .. }
        )
    )
}

/// Notes the name of an identifier for the SEQUENCE that it is a component of and, if it begins that,
/// for the one that has this as a component.
fn note_name(
    listed: &mut Listed<'_>,
    around: &mut Vec<Outer>,
    part: &Part<'_>,
    index: Option<usize>,
) -> Result<(), AllocError> {
    let ty = type_of(listed, part.id);
    if !matches!(ty, Some(Type::Leaf { kind, .. }) if *kind == LeafKind::ObjectIdentifier) {
        return Ok(());
    }
    let name = listed.name_identifier(part)?;
    let reach = if index == Some(0) { 2 } else { 1 };
    for outer in around.as_mut_slice().iter_mut().rev().take(reach) {
        if is_passed(type_at(listed.known.schema.types(), outer.id)) {
            break;
        }
        if outer.hint.is_none() {
            outer.hint = name;
        }
    }
    Ok(())
}

/// Returns the name of the identifier that says what a part in these holds.
fn hint_in(listed: &Listed<'_>, around: &[Outer]) -> Option<&'static str> {
    for outer in around.iter().rev() {
        if !is_passed(type_of(listed, outer.id)) {
            return outer.hint;
        }
    }
    None
}

/// Lists what a part holds, if it is of an open type, an OCTET STRING or a BIT STRING: by the type
/// that the identifier beside it names, or else the encodings in an open type.
#[cycle(list)]
fn list_held(
    listed: &mut Listed<'_>,
    around: &[Outer],
    part: &Part<'_>,
    place: Nest,
) -> Result<(), AllocError> {
    let Some((form, begin)) = held_in(type_of(listed, part.id), part) else {
        return Ok(());
    };
    let end = part.octets.len().saturating_sub(if begin > 0 && part.is_indefinite {
        2
    } else {
        0
    });
    let held = part.octets.get(begin..end).unwrap_or(&[]);
    let nest = Nest {
        offset: place.offset.saturating_add(begin),
        depth: place.depth.saturating_add(1),
        levels: place.levels,
    };
    let hint = hint_in(listed, around).unwrap_or("");
    match listed.known.find(form, hint) {
        Some(id) if nest.levels > 0 => {
            let nest = Nest {
                levels: nest.levels - 1,
                ..nest
            };
            match list(listed, id, held, nest)? {
                Some(refusal) => listed.push_fault(nest.offset, held, hint, &refusal),
                None => Ok(()),
            }
        }
        Some(_) | None if form == Form::Open => listed.push_entries(held, nest),
        Some(_) | None => Ok(()),
    }
}

/// Returns in which form a part holds octets, and how many of its own are before them.
fn held_in(ty: Option<&Type>, part: &Part<'_>) -> Option<(Form, usize)> {
    let is_constructed = matches!(part.octets, [first, ..] if (*first / 0x20) % 2 == 1);
    match ty? {
        Type::Any { tag } if *tag == Tag::EOC => Some((Form::Open, 0)),
        Type::Any { .. } => Some((Form::Open, part.header_len)),
        Type::Unknown => Some((Form::Open, 0)),
        Type::Leaf { kind, .. } if *kind == LeafKind::OctetString && !is_constructed => {
            Some((Form::Octets, part.header_len))
        }
        Type::Leaf { kind, .. } if *kind == LeafKind::BitString && !is_constructed => {
            match part.octets.get(part.header_len) {
                Some(0) => Some((Form::Bits, part.header_len.saturating_add(1))),
                Some(_) | None => None,
            }
        }
        Type::Leaf { .. }
        | Type::Enumerated { .. }
        | Type::Tagged { .. }
        | Type::Choice { .. }
        | Type::Sequence { .. }
        | Type::Set { .. }
        | Type::SequenceOf { .. }
        | Type::SetOf { .. } => None,
    }
}
