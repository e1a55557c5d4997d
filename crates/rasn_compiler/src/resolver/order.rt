//! The order of a schema's types: the alternatives of a CHOICE have lower numbers than it.
use crate::resolver::node::Node;
use crate::tags::MAX_TAGS;
use rasn_schema::{Type, TypeId};
use std::alloc::{AllocError, Global};

/// As many CHOICEs may be in one another, each an alternative of the next without a tag: to find the
/// alternative that has a tag a reader calls itself for each of them.
const MAX_CHOICES: usize = 512;

/// The limit of these, as faults name it.
pub(crate) const TOO_MANY_CHOICES: &str = "512 CHOICEs in one another";

/// The types are gone through as often at most. In each round the next of the CHOICEs in one another and
/// of a type's tags get their numbers, of which there are no more than this.
const MAX_ROUNDS: usize = MAX_CHOICES + MAX_TAGS + 2;

/// Nodes in the order of their types.
#[derive(Drop)]
pub(crate) struct Order {
    /// The number of each node's type, if it has one yet.
    numbers: Vec<Option<usize>>,
    /// The node of each type.
    pub(crate) nodes: Vec<usize>,
    /// How many CHOICEs are in one another from each node on that has a number.
    choices: Vec<usize>,
}

impl Order {
    /// Returns the number of a node's type.
    pub(crate) fn type_id(&self, node: usize) -> TypeId {
        TypeId(self.number(node).unwrap_or(0))
    }

    /// Returns the number of the type within an explicit tag, or of elements.
    pub(crate) fn inner_id(&self, inner: Option<usize>) -> TypeId {
        match inner {
            Some(node) => self.type_id(node),
            None => TypeId(0),
        }
    }

    /// Returns the node of a type.
    pub(crate) fn node(&self, id: TypeId) -> usize {
        self.nodes.get(id.0).copied().unwrap_or(0)
    }

    /// Returns whether more CHOICEs are in one another from a node on than may be.
    pub(crate) fn is_beyond(&self, node: usize) -> bool {
        match self.choices.get(node) {
            Some(choices) => *choices > MAX_CHOICES,
            None => false,
        }
    }

    /// Returns the number of a node's type, if it has one yet.
    pub(crate) fn number(&self, node: usize) -> Option<usize> {
        match self.numbers.get(node) {
            Some(number) => *number,
            None => None,
        }
    }

    /// Gives each node a number that may have one now, the last first.
    fn round(&mut self, nodes: &[Node<'_>], are_spoilt: &[bool]) -> Result<(), AllocError> {
        for back in 0..nodes.len() {
            let node = nodes.len() - 1 - back;
            let is_left = self.number(node).is_none() && !is_spoilt(are_spoilt, node);
            if is_left && self.is_ready(nodes, node) {
                self.add(nodes, node)?;
            }
        }
        Ok(())
    }

    /// Gives a node the next number.
    fn add(&mut self, nodes: &[Node<'_>], node: usize) -> Result<(), AllocError> {
        let number = self.nodes.len();
        let choices = self.choices_from(nodes, node);
        if let Some(place) = self.choices.get_mut(node) {
            *place = choices;
        }
        if let Some(place) = self.numbers.get_mut(node) {
            *place = Some(number);
            self.nodes.push(node)?;
        }
        Ok(())
    }

    /// Returns how many CHOICEs are in one another from a node on, whose alternatives have numbers.
    fn choices_from(&self, nodes: &[Node<'_>], node: usize) -> usize {
        match nodes.get(node) {
            Some(found) if is_choice(&found.ty) => {
                let mut within = 0usize;
                for part in &found.parts {
                    within = within.max(self.choices.get(part.node).copied().unwrap_or(0));
                }
                within.saturating_add(1)
            }
            _ => 0,
        }
    }

    /// Returns whether all nodes have a number that need a lower one.
    fn is_ready(&self, nodes: &[Node<'_>], node: usize) -> bool {
        let Some(found) = nodes.get(node) else {
            return true;
        };
        match &found.ty {
            Type::Choice { .. } => {
                for part in &found.parts {
                    if self.number(part.node).is_none() {
                        return false;
                    }
                }
                true
            }
            Type::Tagged { .. } => match found.inner {
                Some(inner) => !is_tagged(nodes, inner) || self.number(inner).is_some(),
                None => true,
            },
            Type::Leaf { .. }
            | Type::Enumerated { .. }
            | Type::Any { .. }
            | Type::Sequence { .. }
            | Type::Set { .. }
            | Type::SequenceOf { .. }
            | Type::SetOf { .. }
            | Type::Unknown => true,
        }
    }
}

fn is_choice(ty: &Type) -> bool {
    matches!(ty, Type::Choice { .. })
}

fn is_tagged(nodes: &[Node<'_>], node: usize) -> bool {
    match nodes.get(node) {
        Some(found) => matches!(found.ty, Type::Tagged { .. }),
        None => false,
    }
}

/// Returns whether a node has no schema, as these say.
pub(crate) fn is_spoilt(are_spoilt: &[bool], node: usize) -> bool {
    match are_spoilt.get(node) {
        Some(is_spoilt) => *is_spoilt,
        None => true,
    }
}

/// Returns the order of the types that were resolved, without those that are spoilt. Types that
/// lead back to themselves where that isn't allowed have no number in it.
pub(crate) fn ordered(
    alloc: Global,
    nodes: &[Node<'_>],
    are_spoilt: &[bool],
) -> Result<Order, AllocError> {
    let mut order = Order {
        numbers: vec![in alloc; None; nodes.len()]?,
        nodes: Vec::with_capacity(alloc, nodes.len())?,
        choices: vec![in alloc; 0; nodes.len()]?,
    };
    for _ in 0..MAX_ROUNDS {
        let before = order.nodes.len();
        order.round(nodes, are_spoilt)?;
        if order.nodes.len() == before {
            break;
        }
    }
    Ok(order)
}
