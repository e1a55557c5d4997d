//! Types that have no schema, and those that are made of them.
use crate::fault::{Fault, Halt, Problem};
use crate::modules::Modules;
use crate::resolver::node::{Node, Spoilt, Stage};
use crate::resolver::order::{Order, TOO_MANY_CHOICES, is_spoilt, ordered};
use std::alloc::{AllocError, Global};

/// The nodes that are made of each node.
#[derive(Drop)]
struct Users {
    /// The place in the list where those of each node end.
    ends: Vec<usize>,
    list: Vec<usize>,
}

impl Users {
    /// Returns the nodes that are made of each of these.
    fn new(alloc: Global, nodes: &[Node<'_>]) -> Result<Users, AllocError> {
        let mut ends = vec![in alloc; 0usize; nodes.len()]?;
        for node in nodes {
            for part in &node.parts {
                count(&mut ends, part.node);
            }
            if let Some(inner) = node.inner {
                count(&mut ends, inner);
            }
        }
        let total = add_up(&mut ends);
        let mut users = Users {
            ends,
            list: vec![in alloc; 0; total]?,
        };
        for (user, node) in nodes.iter().enumerate() {
            for part in &node.parts {
                users.add(part.node, user);
            }
            if let Some(inner) = node.inner {
                users.add(inner, user);
            }
        }
        Ok(users)
    }

    /// Adds a user of a node.
    fn add(&mut self, node: usize, user: usize) {
        if let Some(end) = self.ends.get_mut(node) {
            if let Some(place) = self.list.get_mut(*end) {
                *place = user;
                *end = end.saturating_add(1);
            }
        }
    }

    /// Returns the users of a node.
    fn of(&self, node: usize) -> &[usize] {
        let start = match node.checked_sub(1) {
            Some(before) => self.ends.get(before).copied().unwrap_or(0),
            None => 0,
        };
        let end = self.ends.get(node).copied().unwrap_or(0);
        self.list.as_slice().get(start..end).unwrap_or(&[])
    }
}

/// Counts a user of a node.
fn count(ends: &mut Vec<usize>, node: usize) {
    if let Some(end) = ends.get_mut(node) {
        *end = end.saturating_add(1);
    }
}

/// Puts in place of each number the sum of those before it. Returns the sum of all.
fn add_up(counts: &mut Vec<usize>) -> usize {
    let mut total = 0usize;
    for count in counts.iter_mut() {
        let before = total;
        total = total.saturating_add(*count);
        *count = before;
    }
    total
}

/// Types that were resolved, and which of them have no schema.
#[derive(Drop)]
pub(crate) struct Resolutions<'text> {
    alloc: Global,
    pub(crate) nodes: Vec<Node<'text>>,
    users: Users,
    are_spoilt: Vec<bool>,
    /// The number, counted from 1, of the last root in whose search for a fault each node was seen.
    seen: Vec<usize>,
}

impl<'text> Resolutions<'text> {
    /// Returns the types that were resolved, and marks those that are made of one with a fault.
    pub(crate) fn new(
        alloc: Global,
        nodes: Vec<Node<'text>>,
    ) -> Result<Resolutions<'text>, AllocError> {
        let count = nodes.len();
        let mut read = Resolutions {
            alloc,
            users: Users::new(alloc, nodes.as_slice())?,
            nodes,
            are_spoilt: vec![in alloc; false; count]?,
            seen: vec![in alloc; 0; count]?,
        };
        for node in 0..count {
            if read
                .nodes
                .get(node)
                .is_some_and(|found| found.spoilt.is_some())
            {
                read.spread(node)?;
            }
        }
        Ok(read)
    }

    /// Returns whether a node has no schema.
    pub(crate) fn is_spoilt(&self, node: usize) -> bool {
        is_spoilt(self.are_spoilt.as_slice(), node)
    }

    /// Marks a type that has no schema for this reason, unless it has another one, and those that
    /// are made of it.
    pub(crate) fn spoil(
        &mut self,
        node: usize,
        stage: Stage,
        reason: Halt<'text>,
    ) -> Result<(), AllocError> {
        let Halt::Fault(fault) = reason else {
            return Err(AllocError);
        };
        if let Some(found) = self.nodes.get_mut(node) {
            if found.spoilt.is_none() {
                found.spoilt = Some(Spoilt { stage, fault });
            }
        }
        self.spread(node)
    }

    /// Marks a node, and those that are made of it.
    fn spread(&mut self, node: usize) -> Result<(), AllocError> {
        let mut list = Vec::new(self.alloc);
        mark(&mut self.are_spoilt, &mut list, node)?;
        for next in 0..self.nodes.len() {
            let Some(node) = list.get(next).copied() else {
                break;
            };
            for user in self.users.of(node) {
                mark(&mut self.are_spoilt, &mut list, *user)?;
            }
        }
        Ok(())
    }

    /// Returns the order of the types that have a schema. Those that lead back to themselves where
    /// that isn't allowed, and those of which more CHOICEs are in one another than may be, have
    /// none.
    pub(crate) fn order(&mut self, modules: &Modules<'text>) -> Result<Order, AllocError> {
        let order = ordered(
            self.alloc,
            self.nodes.as_slice(),
            self.are_spoilt.as_slice(),
        )?;
        let mut is_whole = true;
        for node in 0..self.nodes.len() {
            if order.is_beyond(node) {
                is_whole = false;
                self.spoil_out_of_order(modules, node, true)?;
            }
        }
        for node in 0..self.nodes.len() {
            if order.number(node).is_none() && !self.is_spoilt(node) {
                is_whole = false;
                self.spoil_out_of_order(modules, node, false)?;
            }
        }
        if is_whole {
            return Ok(order);
        }
        ordered(
            self.alloc,
            self.nodes.as_slice(),
            self.are_spoilt.as_slice(),
        )
    }

    /// Marks a type that has no place in the order: since there are too many CHOICEs in one
    /// another, or since it leads back to itself. It has a fault of its own even if it is made of
    /// another such type.
    fn spoil_out_of_order(
        &mut self,
        modules: &Modules<'text>,
        node: usize,
        is_beyond: bool,
    ) -> Result<(), AllocError> {
        let Some(found) = self.nodes.get(node) else {
            return Ok(());
        };
        let problem = if is_beyond {
            Problem::Beyond(TOO_MANY_CHOICES)
        } else {
            Problem::Endless(found.name)
        };
        let fault = modules.fault(found.place.module, found.position, problem);
        self.spoil(node, Stage::Ordering, fault)
    }

    /// Returns the fault of a type that has no schema: the first one that is found of the earliest
    /// stage in what it is made of. The roots are told apart by these numbers.
    pub(crate) fn fault_of(
        &mut self,
        root: usize,
        number: usize,
    ) -> Result<Option<Fault<'text>>, AllocError> {
        let mut list = Vec::new(self.alloc);
        let stamp = number.saturating_add(1);
        see(&mut self.seen, &mut list, root, stamp)?;
        let mut best: Option<(Stage, Fault<'text>)> = None;
        for next in 0..self.nodes.len() {
            let Some(found) = list
                .get(next)
                .and_then(|node: &usize| self.nodes.get(*node))
            else {
                break;
            };
            if let Some(spoilt) = &found.spoilt {
                best = better(best, spoilt);
                if spoilt.stage == Stage::Resolving {
                    break;
                }
            }
            for part in &found.parts {
                see(&mut self.seen, &mut list, part.node, stamp)?;
            }
            if let Some(inner) = found.inner {
                see(&mut self.seen, &mut list, inner, stamp)?;
            }
        }
        Ok(best.map(|(_, fault)| fault))
    }
}

/// Returns the fault that comes first: that of the earlier stage; of the same stage the first one
/// while types are put into an order, and the last one while rules are checked, since numbers are
/// given from the back.
fn better<'text>(
    best: Option<(Stage, Fault<'text>)>,
    spoilt: &Spoilt<'text>,
) -> Option<(Stage, Fault<'text>)> {
    let found = Some((spoilt.stage, *spoilt.fault));
    match best {
        None => found,
        Some((stage, _)) if spoilt.stage < stage => found,
        Some((stage, _)) if spoilt.stage == stage && stage > Stage::Ordering => found,
        Some(best) => Some(best),
    }
}

/// Marks a node, unless it is marked, and adds it to the list.
fn mark(are_spoilt: &mut Vec<bool>, list: &mut Vec<usize>, node: usize) -> Result<(), AllocError> {
    if let Some(is_spoilt) = are_spoilt.get_mut(node) {
        if !*is_spoilt {
            *is_spoilt = true;
            list.push(node)?;
        }
    }
    Ok(())
}

/// Adds a node to the list, unless it was seen in the same search.
fn see(
    seen: &mut Vec<usize>,
    list: &mut Vec<usize>,
    node: usize,
    stamp: usize,
) -> Result<(), AllocError> {
    if let Some(last) = seen.get_mut(node) {
        if *last != stamp {
            *last = stamp;
            list.push(node)?;
        }
    }
    Ok(())
}
