//! Unknown alternatives: those that a newer version of a module may add to a CHOICE with an
//! extension marker (X.680 29).
use crate::position::Position;
use crate::resolver::node::{Node, Part, Place, Use};
use crate::words::MARKER;
use rasn_schema::{Presence, Type};
use rasn_types::types::Tag;
use std::alloc::{AllocError, Global};

/// Gives each CHOICE with an extension marker a last alternative of an open type, which is named
/// `...`, unless it is closed or its last alternative is an open type. Unknown values are the last
/// component of an extensible SEQUENCE.
pub(crate) fn add_unknown_alternatives(
    alloc: Global,
    nodes: &mut Vec<Node<'_>>,
) -> Result<(), AllocError> {
    let open = open_nodes(alloc, nodes.as_slice())?;
    let open_type = nodes.len();
    let mut place = None;
    for (index, node) in nodes.iter_mut().enumerate() {
        if open.get(index).copied().unwrap_or(false) {
            place = Some(node.place);
            add_unknown(node, open_type)?;
        }
    }
    if let Some(place) = place {
        nodes.push(open_type_node(alloc, place))?;
    }
    Ok(())
}

/// Returns of each node whether it is a CHOICE that gets an unknown alternative.
fn open_nodes(alloc: Global, nodes: &[Node<'_>]) -> Result<Vec<bool>, AllocError> {
    let mut open = Vec::with_capacity(alloc, nodes.len())?;
    for node in nodes {
        open.push(takes_unknown(node) && !node.is_closed && !has_open_last(nodes, node))?;
    }
    Ok(open)
}

/// Returns whether a node is a CHOICE whose alternatives an unknown one may follow.
fn takes_unknown(node: &Node<'_>) -> bool {
    match &node.ty {
        Type::Choice { .. } => node.is_extensible && !node.parts.is_empty(),
        _ => false,
    }
}

/// Adds the unknown alternative of a CHOICE.
fn add_unknown(node: &mut Node<'_>, open_type: usize) -> Result<(), AllocError> {
    let alternative = Part {
        name: MARKER,
        position: node.position,
        of: Use::of(node.place, 0),
        node: open_type,
        presence: Presence::Required,
    };
    node.parts.push(alternative)?;
    Ok(())
}

/// Returns the type of unknown alternatives.
fn open_type_node<'text>(alloc: Global, place: Place) -> Node<'text> {
    Node {
        ty: Type::Any { tag: Tag::EOC },
        parts: Vec::new(alloc),
        is_extensible: false,
        is_closed: false,
        inner: None,
        name: MARKER,
        is_named: false,
        place,
        position: Position::START,
        unchecked: 0,
        spoilt: None,
    }
}

/// Returns whether the last part of a node is of an open type.
fn has_open_last(nodes: &[Node<'_>], node: &Node<'_>) -> bool {
    let Some(last) = node.parts.last() else {
        return false;
    };
    match nodes.get(last.node) {
        Some(found) => is_open(&found.ty),
        None => false,
    }
}

fn is_open(ty: &Type) -> bool {
    match ty {
        Type::Any { tag } => *tag == Tag::EOC,
        _ => false,
    }
}

/// Closes the CHOICEs that a type is made of where the tag of an unknown alternative could be that
/// of another part: an alternative of another CHOICE, a component of a SET, and a component of a
/// SEQUENCE that follows an optional one, or that is optional and not the last (X.680 25.6).
pub(crate) fn close_parts(ty: &Type, is_extensible: bool, parts: &mut Vec<Part<'_>>) {
    match ty {
        Type::Choice { .. } | Type::Set { .. } => {
            for part in parts.iter_mut() {
                part.of.is_closed = true;
            }
        }
        Type::Sequence { .. } => close_uncertain(is_extensible, parts),
        Type::Leaf { .. }
        | Type::Enumerated { .. }
        | Type::Any { .. }
        | Type::Tagged { .. }
        | Type::SequenceOf { .. }
        | Type::SetOf { .. }
        | Type::Unknown => {}
    }
}

/// Closes the components of a SEQUENCE that are optional, except at its end, or that follow an
/// optional one.
fn close_uncertain(is_extensible: bool, parts: &mut Vec<Part<'_>>) {
    let count = parts.len();
    let mut follows_optional = false;
    for (index, part) in parts.iter_mut().enumerate() {
        let is_optional = is_optional(&part.presence);
        let is_last = index + 1 == count && !is_extensible;
        part.of.is_closed = follows_optional || (is_optional && !is_last);
        follows_optional = is_optional;
    }
}

fn is_optional(presence: &Presence) -> bool {
    match presence {
        Presence::Required | Presence::Addition => false,
        Presence::Optional | Presence::Default(_) => true,
    }
}
