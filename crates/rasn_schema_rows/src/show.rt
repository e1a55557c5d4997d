//! Types of a schema as text.
use crate::same::{constraints_of, numbers};
use rasn_compiler::Resolved;
use rasn_schema::{Alternative, Component, NamedNumber, Presence, Schema, Type, TypeId};
use rasn_types::types::{Bound, Class, Constraints, Tag};
use std::alloc::{AllocError, Global};
use std::fmt::Display;

/// How deep types are shown in one another. Deeper ones are `..`.
const MAX_LEVELS: usize = 4;

/// Returns a type as text, and the number of constraints that aren't checked.
pub(crate) fn shown(alloc: Global, resolved: &Resolved) -> Result<String, AllocError> {
    let mut text = String::new(alloc);
    show(&mut text, &resolved.schema, resolved.root, MAX_LEVELS)?;
    if resolved.unchecked > 0 {
        let unchecked = resolved.unchecked;
        write!(text, " ({unchecked} unchecked)")?;
    }
    Ok(text)
}

/// Adds a type, with those that it is made of so many levels deep.
#[cycle(show)]
fn show(text: &mut String, schema: &Schema, id: TypeId, levels: usize) -> Result<(), AllocError> {
    if levels == 0 {
        return text.push_str("..");
    }
    let Some(ty) = schema.types().get(id.0) else {
        return text.push('?');
    };
    push_head(text, ty)?;
    match ty {
        Type::Choice { alternatives, .. } => {
            show_alternatives(text, schema, alternatives, levels - 1)
        }
        Type::Sequence { components, .. } | Type::Set { components, .. } => {
            show_components(text, schema, components, levels - 1)
        }
        Type::Tagged { inner, .. } => {
            text.push(' ')?;
            show(text, schema, *inner, levels - 1)
        }
        Type::SequenceOf { element, .. } | Type::SetOf { element, .. } => {
            text.push_str(" OF ")?;
            show(text, schema, *element, levels - 1)
        }
        _ => Ok(()),
    }
}

/// Adds alternatives.
#[cycle(show)]
fn show_alternatives(
    text: &mut String,
    schema: &Schema,
    alternatives: &[Alternative],
    levels: usize,
) -> Result<(), AllocError> {
    text.push_str(" {")?;
    for alternative in alternatives {
        write!(text, " {}: ", alternative.name.as_str())?;
        show(text, schema, alternative.type_id, levels)?;
    }
    text.push_str(" }")
}

/// Adds components.
#[cycle(show)]
fn show_components(
    text: &mut String,
    schema: &Schema,
    components: &[Component],
    levels: usize,
) -> Result<(), AllocError> {
    text.push_str(" {")?;
    for component in components {
        write!(text, " {}: ", component.name.as_str())?;
        show(text, schema, component.type_id, levels)?;
        push_presence(text, schema, component)?;
    }
    text.push_str(" }")
}

/// Adds whether a component may be absent, and the value that it has then.
fn push_presence(
    text: &mut String,
    schema: &Schema,
    component: &Component,
) -> Result<(), AllocError> {
    match &component.presence {
        Presence::Required => Ok(()),
        Presence::Optional => text.push_str(" OPTIONAL"),
        Presence::Addition => text.push_str(" ADDITION"),
        Presence::Default(value) => {
            let view = schema.view(component.type_id, value);
            write!(text, " DEFAULT {view}")
        }
    }
}

/// Returns the word for a type that isn't a leaf.
fn word(ty: &Type) -> &'static str {
    match ty {
        Type::Choice { .. } => "CHOICE",
        Type::Sequence { .. } | Type::SequenceOf { .. } => "SEQUENCE",
        Type::Set { .. } | Type::SetOf { .. } => "SET",
        Type::Tagged { .. } => "explicit",
        Type::Unknown => "unknown",
        Type::Enumerated { .. } => "ENUMERATED",
        Type::Any { .. } => "ANY",
        Type::Leaf { .. } => "",
    }
}

/// Adds the name of a type, its tag and its bounds, and the names of its numbers.
fn push_head(text: &mut String, ty: &Type) -> Result<(), AllocError> {
    match ty {
        Type::Leaf { kind, .. } => write!(text, "{kind:?}")?,
        _ => text.push_str(word(ty))?,
    }
    if ty.tag() != Tag::EOC {
        push_tag(text, ty.tag())?;
    }
    push_constraints(text, &constraints_of(ty))?;
    push_numbers(text, numbers(ty))
}

fn push_tag(text: &mut String, tag: Tag) -> Result<(), AllocError> {
    let class = match tag.class {
        Class::Universal => 'u',
        Class::Application => 'a',
        Class::Context => 'c',
        Class::Private => 'p',
    };
    let value = tag.value;
    write!(text, " {class}{value}")
}

fn push_numbers(text: &mut String, numbers: &[NamedNumber]) -> Result<(), AllocError> {
    for named in numbers {
        let number = named.number;
        write!(text, " {}({number})", named.name.as_str())?;
    }
    Ok(())
}

fn push_constraints(text: &mut String, constraints: &Constraints) -> Result<(), AllocError> {
    if let Some(bound) = &constraints.value {
        push_bound(text, "", bound)?;
    }
    if let Some(bound) = &constraints.size {
        push_bound(text, "SIZE ", bound)?;
    }
    Ok(())
}

/// Adds bounds after a word.
fn push_bound<T: Display>(
    text: &mut String,
    word: &str,
    bound: &Bound<T>,
) -> Result<(), AllocError> {
    let marker = if bound.extensible { ", ..." } else { "" };
    let bounds = &bound.constraint;
    write!(text, " {word}({bounds}{marker})")
}
