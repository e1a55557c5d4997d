//! Parts and types that are found by name.

use crate::types::{A_PAIR, PAIR, TYPES, made, schema_of, value};
use rasn_schema::constants::types_of;
use rasn_schema::{Schema, Type, TypeId, TypeName, View, index_named, name_of_number};
use std::alloc::Global;

/// Returns whether there is a part that is shown so.
fn is_shown(alloc: Global, part: Option<View<'_, '_>>, expected: &str) -> bool {
    match part {
        Some(part) => format!(in alloc; "{part}").is_ok_and(|text| text.as_str() == expected),
        None => false,
    }
}

/// Returns whether the parts of a pair are found by index and by name.
fn are_parts(alloc: Global, pair: &View<'_, '_>) -> bool {
    is_shown(alloc, pair.at(0), "other")
        && is_shown(alloc, pair.get("kind"), "other")
        && is_shown(alloc, pair.get("either"), "flag : TRUE")
        && pair.at(2).is_none()
        && pair.get("third").is_none()
}

/// Returns whether the value of an alternative is found by its name alone.
fn is_chosen(alloc: Global, either: &View<'_, '_>) -> bool {
    is_shown(alloc, either.get("flag"), "TRUE") && either.get("none").is_none()
}

fn are_found(alloc: Global, schema: &Schema) -> Option<bool> {
    let value = value(alloc, schema, PAIR, A_PAIR)?;
    let pair = schema.view(PAIR, &value);
    Some(are_parts(alloc, &pair) && is_chosen(alloc, &pair.get("either")?))
}

#[test]
fn parts_are_found_by_name(rt: HostRuntime) {
    let schema = made(&rt, rt.alloc(), TYPES);
    assert!(rt; are_found(rt.alloc(), &schema) == Some(true));
}

fn type_name(alloc: Global, name: &str, type_id: TypeId) -> Option<TypeName> {
    Some(TypeName {
        name: String::from_str(alloc, name).ok()?,
        type_id,
    })
}

/// Returns the schema with names, one of them of two types.
fn named(alloc: Global) -> Option<Schema> {
    let mut names = Vec::new(alloc);
    for (name, id) in [("Kind", TypeId(0)), ("Pair", PAIR), ("Pair", TypeId(0))] {
        names.push(type_name(alloc, name, id)?).ok()?;
    }
    Some(schema_of(alloc, TYPES)?.with_names(names))
}

fn are_types_found(alloc: Global) -> Option<bool> {
    let schema = named(alloc)?;
    Some(schema.type_named("Pair") == Some(PAIR) && schema.type_named("Other").is_none())
}

#[test]
fn types_are_found_by_name(rt: HostRuntime) {
    assert!(rt; are_types_found(rt.alloc()) == Some(true));
}

/// Returns whether each name in the type is found, and no other.
fn has_names(ty: &Type) -> bool {
    match ty {
        Type::Sequence { components, .. } => {
            index_named(components, "either") == Some(1)
                && index_named(components, "flag").is_none()
        }
        Type::Choice { alternatives, .. } => {
            index_named(alternatives, "none") == Some(1)
                && index_named(alternatives, "either").is_none()
        }
        Type::Leaf { names, .. } => {
            names.is_empty()
                || index_named(names, "other") == Some(0) && index_named(names, "7").is_none()
        }
        _ => true,
    }
}

/// Returns whether 7 has its name, and no other number one.
fn has_number(ty: &Type) -> bool {
    match ty {
        Type::Leaf { names, .. } => {
            names.is_empty()
                || name_of_number(names, 7) == Some("other") && name_of_number(names, 0).is_none()
        }
        _ => true,
    }
}

#[test]
fn names_are_looked_up(rt: HostRuntime) {
    if let Ok(types) = types_of(rt.alloc(), TYPES) {
        for ty in &types {
            assert!(rt; has_names(ty) && has_number(ty));
        }
    }
}
