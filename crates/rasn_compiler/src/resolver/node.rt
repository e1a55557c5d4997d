//! Types that are being resolved.
use crate::fault::Fault;
use crate::position::Position;
use crate::tree::Unread;
use rasn_schema::{Presence, Type};
use rasn_types::types::Tag;
use std::alloc::Global;

/// Where names are looked up.
#[derive(Clone, Copy, PartialEq, Eq, PartialOrd, Ord)]
pub(crate) struct Place {
    pub(crate) module: usize,
    /// Which parameters are known (X.683 8.3): 0 if there are none.
    pub(crate) scope: usize,
}

impl Place {
    /// Returns the place of what has no parameters in a module.
    pub(crate) fn of(module: usize) -> Place {
        Place { module, scope: 0 }
    }
}

/// A type as it is used: a type of a module within an automatic tag (X.680 25.7), without so many
/// of its explicit tags. An extensible CHOICE is closed where the tag of an unknown alternative
/// could be that of another part.
#[derive(Clone, Copy, PartialEq, Eq, PartialOrd, Ord)]
pub(crate) struct Use {
    pub(crate) place: Place,
    pub(crate) index: usize,
    pub(crate) automatic: Option<u32>,
    pub(crate) peeled: usize,
    pub(crate) is_closed: bool,
}

impl Use {
    /// Returns the use of a type as it is written.
    pub(crate) fn of(place: Place, index: usize) -> Use {
        Use {
            place,
            index,
            automatic: None,
            peeled: 0,
            is_closed: false,
        }
    }
}

/// The tags of a type that are known so far, the outermost first.
#[derive(Drop)]
pub(crate) struct Tags {
    /// Tags of their own.
    pub(crate) explicit: Vec<Tag>,
    /// The tag that replaces the next one (X.680 31.2.7).
    pub(crate) implicit: Option<Tag>,
    /// Whether that tag is an automatic one, and nothing else is known.
    pub(crate) is_automatic: bool,
}

/// A type whose references were followed.
#[derive(Drop)]
pub(crate) struct Unfolded<'text> {
    /// The last use on the way that means the same.
    pub(crate) same: Use,
    /// The name of that type, if it is an assignment's.
    pub(crate) same_name: Option<&'text str>,
    /// The name of the last reference on the way.
    pub(crate) name: Option<&'text str>,
    /// The tags on the way from there.
    pub(crate) tags: Tags,
    /// The constraints on the way, each with its place, the outermost first.
    pub(crate) constraints: Vec<(Place, Unread<'text>)>,
    /// The place of the type at the end, which is no reference.
    pub(crate) place: Place,
    /// The index of that type.
    pub(crate) index: usize,
}

/// A component or an alternative.
#[derive(Drop)]
pub(crate) struct Part<'text> {
    pub(crate) name: &'text str,
    pub(crate) position: Position,
    pub(crate) of: Use,
    /// The index of its type's node.
    pub(crate) node: usize,
    pub(crate) presence: Presence,
}

/// A type whose references were followed, without the numbers of other types.
#[derive(Drop)]
pub(crate) struct Shape<'text> {
    /// The type, without its components or alternatives.
    pub(crate) ty: Type,
    /// Its components or alternatives.
    pub(crate) parts: Vec<Part<'text>>,
    /// Whether unknown values come after the components, or an unknown alternative after the others
    /// (X.680 25, 27, 29).
    pub(crate) is_extensible: bool,
    /// The type within its explicit tag, or of its elements.
    pub(crate) inner: Option<Use>,
}

impl<'text> Shape<'text> {
    /// Returns the shape of a type that is made of no others.
    pub(crate) fn alone(alloc: Global, ty: Type) -> Shape<'text> {
        Shape {
            ty,
            parts: Vec::new(alloc),
            is_extensible: false,
            inner: None,
        }
    }
}

/// A type that was resolved, which has the numbers of nodes in place of those of types.
#[derive(Drop)]
pub(crate) struct Node<'text> {
    pub(crate) ty: Type,
    pub(crate) parts: Vec<Part<'text>>,
    /// Whether unknown values come after the components, or an unknown alternative after the others
    /// (X.680 25, 27, 29).
    pub(crate) is_extensible: bool,
    /// True of a CHOICE that gets no unknown alternative where it is used.
    pub(crate) is_closed: bool,
    /// The node of the type within its explicit tag, or of its elements.
    pub(crate) inner: Option<usize>,
    pub(crate) name: &'text str,
    /// Whether the name is the type's own, and not that of a component.
    pub(crate) is_named: bool,
    pub(crate) place: Place,
    pub(crate) position: Position,
    /// The number of its constraints that a schema doesn't check.
    pub(crate) unchecked: usize,
    /// The reason for which it has no schema, unless that is a type that it is made of.
    pub(crate) spoilt: Option<Spoilt<'text>>,
}

/// When a type is found to have no schema: an earlier reason comes first.
#[derive(Clone, Copy, PartialEq, Eq, PartialOrd, Ord)]
pub(crate) enum Stage {
    /// Its notation is followed.
    Resolving,
    /// Types are put into an order.
    Ordering,
    /// The rules of CHOICEs are checked.
    Choices,
    /// The rules of other types are checked.
    Rules,
    /// Defaults are compared with their types.
    Defaults,
}

/// The reason for which a type has no schema.
#[derive(Drop)]
pub(crate) struct Spoilt<'text> {
    pub(crate) stage: Stage,
    pub(crate) fault: Box<Fault<'text>>,
}

/// A type that was asked for, and what it is called in errors.
#[derive(Clone, Copy)]
pub(crate) struct Asked<'text> {
    pub(crate) of: Use,
    pub(crate) name: &'text str,
    pub(crate) is_named: bool,
}
