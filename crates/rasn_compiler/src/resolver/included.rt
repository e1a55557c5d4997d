//! COMPONENTS OF (X.680 25.5, 27.2).
use crate::fault::Halt;
use crate::resolver::mark::Mark;
use crate::resolver::node::Place;
use crate::resolver::shape::Resolver;
use crate::tree::{Base, Component, TypeIndex};
use crate::types::Within;
use std::alloc::{AllocError, Global};

/// How many types may be included in one another.
const MAX_ROUNDS: usize = 64;

/// How many components a list may have.
const MAX_LISTED: usize = 100_000;

/// What is included in one another with more types.
const TOO_MANY_ROUNDS: &str = "64 types that COMPONENTS OF includes in one another";

/// A component, with the place that it comes from.
#[derive(Clone, Copy)]
pub(crate) struct Listed<'text> {
    pub(crate) place: Place,
    pub(crate) component: Component<'text>,
}

impl<'modules, 'text> Resolver<'modules, 'text> {
    /// Returns a list in which the components of types are in place of COMPONENTS OF.
    pub(crate) fn listed(
        &mut self,
        place: Place,
        list: &[Component<'text>],
        within: Within,
        is_automatic: bool,
    ) -> Result<Vec<Listed<'text>>, Halt<'text>> {
        let mut listed = listed_at(self.alloc, place, list)?;
        for _ in 0..MAX_ROUNDS {
            let Some((at, of)) = first_included(listed.as_slice()) else {
                return Ok(listed);
            };
            let position = self.modules.type_at(at.module, of.0)?.position;
            self.step(listed.len(), at, position)?;
            listed = self.included(listed.as_slice(), within, is_automatic)?;
        }
        match first_included(listed.as_slice()) {
            Some((at, of)) => Err(self.many_inclusions(at, of, within)),
            None => Ok(listed),
        }
    }

    /// Returns the fault of types that are included in one another without end, or of so many.
    fn many_inclusions(&mut self, place: Place, of: TypeIndex, within: Within) -> Halt<'text> {
        let position = match self.modules.type_at(place.module, of.0) {
            Ok(ty) => ty.position,
            Err(halt) => return halt,
        };
        match self.is_endless_inclusion(place, of, within) {
            Ok(true) => self.endless(place, position, "COMPONENTS OF"),
            Ok(false) => self.beyond(place, position, TOO_MANY_ROUNDS),
            Err(halt) => halt,
        }
    }

    /// Returns whether the first COMPONENTS OF of each list leads back to a list before it.
    fn is_endless_inclusion(
        &mut self,
        place: Place,
        of: TypeIndex,
        within: Within,
    ) -> Result<bool, Halt<'text>> {
        let mut at = place;
        let mut of = of;
        let mut mark = Mark::new(place, of.0);
        for _ in 0..MAX_ROUNDS {
            let position = self.modules.type_at(at.module, of.0)?.position;
            let (inner, base) = self.base_of(at, of.0, position)?;
            let Some(next) = included_list(base, within).and_then(first_of) else {
                return Ok(false);
            };
            at = inner;
            of = next;
            if mark.is_again(at, of.0) {
                return Ok(true);
            }
        }
        Ok(false)
    }

    /// Returns a list in which the roots of types are in place of COMPONENTS OF.
    fn included(
        &mut self,
        list: &[Listed<'text>],
        within: Within,
        is_automatic: bool,
    ) -> Result<Vec<Listed<'text>>, Halt<'text>> {
        let mut found = Vec::with_capacity(self.alloc, list.len())?;
        for listed in list {
            match listed.component {
                Component::Of(of) => {
                    self.include(&mut found, listed.place, of, within, is_automatic)?;
                }
                _ => found.push(*listed)?,
            }
        }
        Ok(found)
    }

    /// Adds the roots of a type, which is of the same kind.
    fn include(
        &mut self,
        found: &mut Vec<Listed<'text>>,
        place: Place,
        of: TypeIndex,
        within: Within,
        is_automatic: bool,
    ) -> Result<(), Halt<'text>> {
        let position = self.modules.type_at(place.module, of.0)?.position;
        let (at, base) = self.base_of(place, of.0, position)?;
        let Some(list) = included_list(base, within) else {
            let rule = "COMPONENTS OF a type of another kind (X.680 25.5, 27.2)";
            return Err(self.broken(place, position, rule));
        };
        if !is_automatic && self.is_automatic(at, list)? {
            let what = "COMPONENTS OF a type with automatic tags";
            return Err(self.unsupported(place, position, what));
        }
        if found.len() > MAX_LISTED {
            return Err(self.beyond(place, position, "100000 components in one type"));
        }
        self.step(list.len(), place, position)?;
        push_roots(found, at, list)?;
        Ok(())
    }
}

/// Returns components with their place.
fn listed_at<'text>(
    alloc: Global,
    place: Place,
    list: &[Component<'text>],
) -> Result<Vec<Listed<'text>>, AllocError> {
    let mut listed = Vec::with_capacity(alloc, list.len())?;
    for component in list {
        listed.push(Listed {
            place,
            component: *component,
        })?;
    }
    Ok(listed)
}

/// Returns the place and the type of the first COMPONENTS OF.
fn first_included(list: &[Listed<'_>]) -> Option<(Place, TypeIndex)> {
    for listed in list {
        if let Component::Of(of) = listed.component {
            return Some((listed.place, of));
        }
    }
    None
}

/// Returns the type of the first COMPONENTS OF.
fn first_of(list: &[Component<'_>]) -> Option<TypeIndex> {
    for component in list {
        if let Component::Of(of) = component {
            return Some(*of);
        }
    }
    None
}

/// Returns the components of a type, if it may be included.
fn included_list<'modules, 'text>(
    base: &'modules Base<'text>,
    within: Within,
) -> Option<&'modules [Component<'text>]> {
    match (base, within) {
        (Base::Sequence(list), Within::Sequence) => Some(list.as_slice()),
        (Base::Set(list), Within::Set) => Some(list.as_slice()),
        _ => None,
    }
}

/// Adds the components that are outside the extension additions (X.680 25.5).
fn push_roots<'text>(
    found: &mut Vec<Listed<'text>>,
    place: Place,
    list: &[Component<'text>],
) -> Result<(), AllocError> {
    let mut markers = 0usize;
    for component in list {
        match component {
            Component::Marker(_) => markers = markers.saturating_add(1),
            _ if markers != 1 => found.push(Listed {
                place,
                component: *component,
            })?,
            _ => {}
        }
    }
    Ok(())
}
