//! The Rattle type of a part.
use crate::integers::integer_word;
use crate::kinds::typed_kind;
use crate::members::inner_of;
use crate::plan::Plan;
use crate::tags::tag_type;
use crate::template::push_times;
use crate::twins::alternatives_of;
use rasn_schema::{LeafKind, Type, TypeId};
use rasn_types::types::{Class, Tag};
use std::alloc::AllocError;

impl Plan<'_> {
    /// Returns the Rattle type of a part of the type `of`. A type that leads back to `of` is
    /// written as an open type.
    pub(crate) fn expression(&self, of: usize, id: TypeId) -> Result<String, AllocError> {
        let mut text = String::new(self.alloc);
        let mut closing: usize = 0;
        let mut next = Some(id.0);
        for _ in 0..self.schema.types().len() {
            if let Some(id) = next {
                let (opened, inner) = self.push_level(&mut text, of, id)?;
                closing = closing.saturating_add(opened);
                next = inner;
            }
        }
        push_times(&mut text, ">", closing)?;
        Ok(text)
    }

    /// Adds the outermost level of a type. Returns how many brackets it opens, and the type in
    /// them.
    fn push_level(
        &self,
        text: &mut String,
        of: usize,
        id: usize,
    ) -> Result<(usize, Option<usize>), AllocError> {
        let ty = self.type_of(id);
        let twin = self.twins.get(&id).copied();
        if !self.names.contains_key(&id) && twin.is_none() {
            return self.push_unnamed(text, ty);
        }
        if self.leads_to(id, of)? {
            let opened = self.push_implicit(text, ty.tag(), None)?;
            text.push_str(open_word(ty.tag()))?;
            return Ok((opened, None));
        }
        if twin.is_some() {
            let opened = self.push_implicit(text, ty.tag(), None)?;
            return Ok((opened, twin));
        }
        let (name, _file) = self.names_of(id);
        text.push_str(name)?;
        Ok((0, None))
    }

    /// Adds the outermost level of a type without a name.
    pub(crate) fn push_unnamed(
        &self,
        text: &mut String,
        ty: &Type,
    ) -> Result<(usize, Option<usize>), AllocError> {
        if let Type::Tagged { tag, inner } = ty {
            let tag = tag_type(self.alloc, *tag)?;
            write!(text, "Explicit<{tag}, ")?;
            return Ok((1, Some(inner.0)));
        }
        let opened = self.push_implicit(text, ty.tag(), universal_number(ty))?;
        push_word(text, ty)?;
        match inner_of(ty) {
            Some(inner) => Ok((opened.saturating_add(1), Some(inner.0))),
            None => Ok((opened, None)),
        }
    }

    /// Adds `Implicit` for a tag, unless it is the type's universal one or none. Returns how many
    /// brackets are opened.
    fn push_implicit(
        &self,
        text: &mut String,
        tag: Tag,
        own: Option<u32>,
    ) -> Result<usize, AllocError> {
        if tag.class == Class::Universal && (own.is_none() || own == Some(tag.value)) {
            return Ok(0);
        }
        let tag = tag_type(self.alloc, tag)?;
        write!(text, "Implicit<{tag}, ")?;
        Ok(1)
    }

    /// Returns whether a part has a tag of its own.
    pub(crate) fn has_tag(&self, id: TypeId) -> bool {
        self.type_of(id.0).tag() != Tag::EOC
    }

    /// Returns whether a part is an open type without a tag of its own, as the unknown alternative
    /// of a CHOICE with an extension marker is.
    fn is_unknown_value(&self, id: TypeId) -> bool {
        matches!(self.type_of(id.0), Type::Any { .. }) && !self.has_tag(id)
    }

    /// Returns whether a part is a CHOICE without an extension marker.
    pub(crate) fn is_closed_choice(&self, id: TypeId) -> bool {
        let ty = self.type_of(id.0);
        matches!(ty, Type::Choice { .. })
            && alternatives_of(ty)
                .last()
                .is_none_or(|last| !self.is_unknown_value(last.type_id))
    }
}

/// Adds the word of a type without a name and without its tag, which for a list opens a bracket.
pub(crate) fn push_word(text: &mut String, ty: &Type) -> Result<(), AllocError> {
    match ty {
        Type::Leaf {
            kind: LeafKind::FixedOctetString(size),
            ..
        } => write!(text, "FixedOctetString<{size}>"),
        _ => text.push_str(word(ty)),
    }
}

/// Returns the word of a type without a name.
pub(crate) fn word(ty: &Type) -> &'static str {
    match ty {
        Type::Leaf {
            kind: LeafKind::Integer,
            constraints,
            ..
        } => integer_word(constraints).0,
        Type::Leaf {
            kind: LeafKind::AnyOctets | LeafKind::Universal,
            tag,
            ..
        } => octets_word(*tag),
        Type::Leaf { kind, .. } => typed_kind(*kind).names().rattle,
        Type::SequenceOf { .. } => "Vec<",
        Type::SetOf { .. } => "SetOf<",
        Type::Unknown => "Unknown",
        Type::Enumerated { .. }
        | Type::Any { .. }
        | Type::Tagged { .. }
        | Type::Choice { .. }
        | Type::Sequence { .. }
        | Type::Set { .. } => "Any",
    }
}

/// Returns the number of the universal tag that a type's word has (X.680 8.4). A string of any
/// octets has that of its own.
fn universal_number(ty: &Type) -> Option<u32> {
    match ty {
        Type::Leaf {
            kind: LeafKind::AnyOctets | LeafKind::Universal,
            tag,
            ..
        } if tag.class == Class::Universal => Some(tag.value),
        Type::Leaf { kind, .. } => Some(typed_kind(*kind).names().number),
        Type::SequenceOf { .. } => Some(16),
        Type::SetOf { .. } => Some(17),
        Type::Enumerated { .. }
        | Type::Any { .. }
        | Type::Tagged { .. }
        | Type::Choice { .. }
        | Type::Sequence { .. }
        | Type::Set { .. }
        | Type::Unknown => None,
    }
}

/// Returns the word of a string of any octets.
fn octets_word(tag: Tag) -> &'static str {
    match (tag.class, tag.value) {
        (Class::Universal, 20) => "TeletexString",
        (Class::Universal, 25) => "GraphicString",
        _ => "GeneralString",
    }
}

/// Returns the word of an open type with a tag.
pub(crate) fn open_word(tag: Tag) -> &'static str {
    match (tag.class, tag.value) {
        (Class::Universal, 16) => "OpenSequence",
        (Class::Universal, 17) => "OpenSet",
        _ => "Any",
    }
}
