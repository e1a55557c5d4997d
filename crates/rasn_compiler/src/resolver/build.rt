//! The list of types that are being resolved.
use crate::fault::{Fault, Halt};
use crate::library::TypeRef;
use crate::position::Position;
use crate::resolver::node::{Asked, Node, Part, Place, Shape, Spoilt, Stage, Use};
use crate::resolver::shape::Resolver;
use crate::resolver::unknown::close_parts;
use rasn_schema::Type;
use rasn_types::types::Tag;
use std::alloc::{AllocError, Global};
use std::collections::BTreeMap;

/// As many types may be resolved together.
const MAX_TYPES: usize = 100_000;

/// As many components and alternatives may they have in all.
const MAX_PARTS: usize = 1_000_000;

/// The steps that it takes to resolve a type, beside those for what it is made of.
const STEPS: usize = 32;

/// The limit of both, as faults name it.
pub(crate) const TOO_MANY_TYPES: &str = "100000 types, or a million components, in one type";

/// Types that were asked for, in the order of their nodes, and the nodes of the first of them.
#[derive(Drop)]
struct Requests<'text> {
    asked: Vec<Asked<'text>>,
    /// The numbers of these types' nodes.
    numbers: BTreeMap<Use, usize>,
    nodes: Vec<Node<'text>>,
    /// How many components and alternatives the nodes have.
    parts: usize,
}

impl<'text> Requests<'text> {
    fn new(alloc: Global) -> Requests<'text> {
        Requests {
            asked: Vec::new(alloc),
            numbers: BTreeMap::new(alloc),
            nodes: Vec::new(alloc),
            parts: 0,
        }
    }

    /// Returns the node of a type, which is added if it isn't there.
    fn node_of(&mut self, asked: Asked<'text>) -> Result<usize, AllocError> {
        if let Some(node) = self.numbers.get(&asked.of) {
            return Ok(*node);
        }
        let node = self.asked.len();
        self.numbers.insert(asked.of, node)?;
        self.asked.push(asked)?;
        Ok(node)
    }
}

/// A type that is wanted, and its node, or why it has none.
#[derive(Clone, Copy)]
pub(crate) struct Target<'text> {
    pub(crate) of: TypeRef<'text>,
    pub(crate) found: Result<usize, Fault<'text>>,
}

impl<'modules, 'text> Resolver<'modules, 'text> {
    /// Resolves the types that are wanted, and those that they are made of. The nodes of the wanted
    /// ones are the first. If there are more types than there may be, the last node is that of the
    /// others.
    pub(crate) fn nodes(
        &mut self,
        wanted: &[TypeRef<'text>],
    ) -> Result<(Vec<Target<'text>>, Vec<Node<'text>>), AllocError> {
        let mut requests = Requests::new(self.alloc);
        let mut targets = Vec::with_capacity(self.alloc, wanted.len())?;
        for of in wanted {
            let found = fault_or(self.target(&mut requests, *of))?;
            targets.push(Target { of: *of, found })?;
        }
        for next in 0..MAX_TYPES {
            let Some(asked) = requests.asked.get(next).copied() else {
                break;
            };
            self.resolve(&mut requests, asked)?;
            if requests.parts > MAX_PARTS {
                break;
            }
        }
        self.end(&mut requests)?;
        let Requests { nodes, .. } = requests;
        Ok((targets, nodes))
    }

    /// Returns the node of a type that is wanted. If it is called so, the name is its own.
    fn target(
        &mut self,
        requests: &mut Requests<'text>,
        of: TypeRef<'text>,
    ) -> Result<usize, Halt<'text>> {
        let place = Place::of(of.module);
        let next = self.type_meant(place, None, of.name, &[], of.position)?;
        let asked = self.asked(Use::of(next.place, next.index), of.name)?;
        Ok(requests.node_of(Asked {
            is_named: asked.is_named || asked.name == of.name,
            ..asked
        })?)
    }

    /// Puts one node in place of those that there may not be any more.
    fn end(&self, requests: &mut Requests<'text>) -> Result<(), AllocError> {
        let count = requests.nodes.len();
        let Some(asked) = requests.asked.get(count).copied() else {
            return Ok(());
        };
        for node in requests.nodes.iter_mut() {
            for part in node.parts.iter_mut() {
                part.node = part.node.min(count);
            }
            node.inner = node.inner.map(|inner| inner.min(count));
        }
        let first = requests.asked.first().copied().unwrap_or(asked);
        let position = self.position_of(first);
        let fault = self.beyond(first.of.place, position, TOO_MANY_TYPES);
        let node = self.faulty(first, position, fault)?;
        requests.nodes.push(node)?;
        Ok(())
    }

    /// Returns the place of a type.
    fn position_of(&self, asked: Asked<'text>) -> Position {
        match self.modules.type_at(asked.of.place.module, asked.of.index) {
            Ok(ty) => ty.position,
            Err(_) => Position::START,
        }
    }

    /// Resolves a type that was asked for, or adds why it can't be.
    fn resolve(
        &mut self,
        requests: &mut Requests<'text>,
        asked: Asked<'text>,
    ) -> Result<(), AllocError> {
        let before = self.unchecked;
        let position = self.position_of(asked);
        let node = match self.resolved(requests, asked, position) {
            Ok(node) => node,
            Err(halt) => self.faulty(asked, position, halt)?,
        };
        requests.parts = requests.parts.saturating_add(node.parts.len());
        requests.nodes.push(Node {
            unchecked: self.unchecked.saturating_sub(before),
            ..node
        })?;
        Ok(())
    }

    /// Returns the node of a type that was asked for, and asks for the types that it is made of.
    fn resolved(
        &mut self,
        requests: &mut Requests<'text>,
        asked: Asked<'text>,
        position: Position,
    ) -> Result<Node<'text>, Halt<'text>> {
        let steps = asked.name.len().saturating_add(STEPS);
        self.step(steps, asked.of.place, position)?;
        let shape = self.shape(asked)?;
        self.node(requests, asked, position, shape)
    }

    /// Returns the node of a type that can't be resolved for this reason.
    fn faulty(
        &self,
        asked: Asked<'text>,
        position: Position,
        reason: Halt<'text>,
    ) -> Result<Node<'text>, AllocError> {
        let Halt::Fault(fault) = reason else {
            return Err(AllocError);
        };
        Ok(Node {
            ty: Type::Any { tag: Tag::EOC },
            parts: Vec::new(self.alloc),
            is_extensible: false,
            is_closed: false,
            inner: None,
            name: asked.name,
            is_named: false,
            place: asked.of.place,
            position,
            unchecked: 0,
            spoilt: Some(Spoilt {
                stage: Stage::Resolving,
                fault,
            }),
        })
    }

    /// Returns the node of a type that is used so.
    fn request(
        &mut self,
        requests: &mut Requests<'text>,
        of: Use,
        name: &'text str,
    ) -> Result<usize, Halt<'text>> {
        let asked = self.asked(of, name)?;
        Ok(requests.node_of(asked)?)
    }

    /// Asks for the types of components or alternatives.
    fn request_parts(
        &mut self,
        requests: &mut Requests<'text>,
        parts: &mut Vec<Part<'text>>,
    ) -> Result<(), Halt<'text>> {
        for part in parts.iter_mut() {
            part.node = self.request(requests, part.of, part.name)?;
        }
        Ok(())
    }

    /// Returns a node, and asks for the types that it is made of.
    fn node(
        &mut self,
        requests: &mut Requests<'text>,
        asked: Asked<'text>,
        position: Position,
        shape: Shape<'text>,
    ) -> Result<Node<'text>, Halt<'text>> {
        let mut shape = shape;
        let lent = &mut shape;
        close_parts(&lent.ty, lent.is_extensible, &mut lent.parts);
        self.request_parts(requests, &mut shape.parts)?;
        let inner = match shape.inner {
            Some(of) => Some(self.request(requests, of, asked.name)?),
            None => None,
        };
        let Shape {
            ty,
            parts,
            is_extensible,
            ..
        } = shape;
        Ok(Node {
            ty,
            parts,
            is_extensible,
            is_closed: asked.of.is_closed,
            inner,
            name: asked.name,
            is_named: asked.is_named,
            place: asked.of.place,
            position,
            unchecked: 0,
            spoilt: None,
        })
    }
}

/// Returns the fault in place of a reason, unless that is that memory ran out.
fn fault_or<'text, T>(
    outcome: Result<T, Halt<'text>>,
) -> Result<Result<T, Fault<'text>>, AllocError> {
    match outcome {
        Ok(value) => Ok(Ok(value)),
        Err(Halt::Fault(fault)) => Ok(Err(*fault)),
        Err(Halt::OutOfMemory) => Err(AllocError),
    }
}
