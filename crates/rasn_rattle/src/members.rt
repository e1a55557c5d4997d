//! The types that a type is made of.
use rasn_schema::{Alternative, Component, Presence, Type, TypeId, components_of};
use std::alloc::{AllocError, Global};

/// A component, an alternative, the elements of a list, or what is in an explicit tag.
#[derive(Clone, Copy)]
pub(crate) struct Member<'schema> {
    /// Its name.
    pub(crate) name: &'schema str,
    /// Its type.
    pub(crate) type_id: TypeId,
    /// Whether it may be absent, so that its field is an `Option`.
    pub(crate) is_optional: bool,
}

/// Returns what a type is made of.
pub(crate) fn members_of(alloc: Global, ty: &Type) -> Result<Vec<Member<'_>>, AllocError> {
    if let Type::Choice { alternatives, .. } = ty {
        return alternative_members(alloc, alternatives);
    }
    let mut members = component_members(alloc, components_of(ty))?;
    if let Some(type_id) = inner_of(ty) {
        let name = if matches!(ty, Type::Tagged { .. }) {
            "value"
        } else {
            "item"
        };
        members.push(Member {
            name,
            type_id,
            is_optional: false,
        })?;
    }
    Ok(members)
}

/// Returns the components of a SEQUENCE or a SET.
fn component_members(
    alloc: Global,
    components: &[Component],
) -> Result<Vec<Member<'_>>, AllocError> {
    let mut members = Vec::new(alloc);
    for component in components {
        members.push(Member {
            name: component.name.as_str(),
            type_id: component.type_id,
            is_optional: matches!(component.presence, Presence::Optional | Presence::Addition),
        })?;
    }
    Ok(members)
}

/// Returns the alternatives of a CHOICE.
fn alternative_members(
    alloc: Global,
    alternatives: &[Alternative],
) -> Result<Vec<Member<'_>>, AllocError> {
    let mut members = Vec::new(alloc);
    for alternative in alternatives {
        members.push(Member {
            name: alternative.name.as_str(),
            type_id: alternative.type_id,
            is_optional: false,
        })?;
    }
    Ok(members)
}

/// Returns the type within a tag, or of the elements of a list.
pub(crate) fn inner_of(ty: &Type) -> Option<TypeId> {
    match ty {
        Type::Tagged { inner, .. } => Some(*inner),
        Type::SequenceOf { element, .. } | Type::SetOf { element, .. } => Some(*element),
        _ => None,
    }
}
