//! CHOICEs to which a newer version of a module may add alternatives (X.680 29).
use crate::fault::Halt;
use crate::resolver::node::{Place, Use};
use crate::resolver::shape::{Resolver, prefix};
use crate::tree::{Base, Component};
use std::collections::BTreeSet;

/// As many CHOICEs that are alternatives of one, or of one another, are looked at.
const MAX_LOOKED_AT: usize = 100_000;

/// The alternatives that have no tag as they are written, each once.
#[derive(Drop)]
struct Untagged {
    list: Vec<Use>,
    seen: BTreeSet<Use>,
}

impl<'modules, 'text> Resolver<'modules, 'text> {
    /// Returns whether a newer version may have other alternatives than these: a CHOICE has an
    /// extension marker, or one has that is an alternative of it, or of one in it, without a tag.
    pub(crate) fn is_growing(
        &mut self,
        place: Place,
        list: &[Component<'text>],
    ) -> Result<bool, Halt<'text>> {
        if self.has_additions(place, list) {
            return Ok(true);
        }
        let mut untagged = Untagged {
            list: Vec::new(self.alloc),
            seen: BTreeSet::new(self.alloc),
        };
        self.add_untagged(&mut untagged, place, list)?;
        for next in 0..MAX_LOOKED_AT {
            let Some(of) = untagged.list.get(next).copied() else {
                break;
            };
            let Some((at, inner)) = self.choice_at(of)? else {
                continue;
            };
            if self.has_additions(at, inner) {
                return Ok(true);
            }
            self.add_untagged(&mut untagged, at, inner)?;
        }
        Ok(false)
    }

    /// Returns whether a CHOICE has an extension marker, or its module implies one (X.680 13.4).
    fn has_additions(&self, place: Place, list: &[Component<'text>]) -> bool {
        self.modules.is_extensible(place.module) || has_marker(list)
    }

    /// Adds the alternatives of a CHOICE that have no tag as they are written.
    fn add_untagged(
        &self,
        untagged: &mut Untagged,
        place: Place,
        list: &[Component<'text>],
    ) -> Result<(), Halt<'text>> {
        if self.is_automatic(place, list)? {
            return Ok(());
        }
        for component in list {
            if let Component::Named { of, .. } = component {
                let alternative = Use::of(place, of.0);
                if self.may_be_choice(alternative)? && untagged.seen.insert(alternative)? {
                    untagged.list.push(alternative)?;
                }
            }
        }
        Ok(())
    }

    /// Returns whether an alternative has no tag as it is written, and is a CHOICE or a reference.
    fn may_be_choice(&self, of: Use) -> Result<bool, Halt<'text>> {
        let ty = self.modules.type_at(of.place.module, of.index)?;
        let is_candidate = matches!(
            ty.base,
            Base::Choice(_)
                | Base::Reference { .. }
                | Base::Selection { .. }
                | Base::ClassField { .. }
        );
        Ok(is_candidate && ty.tags.is_empty())
    }

    /// Returns the alternatives of a type, if it is a CHOICE without a tag. A type with a fault is
    /// none.
    fn choice_at(
        &mut self,
        of: Use,
    ) -> Result<Option<(Place, &'modules [Component<'text>])>, Halt<'text>> {
        let unfolded = match self.unfold(of) {
            Ok(unfolded) => unfolded,
            Err(Halt::Fault(_)) => return Ok(None),
            Err(Halt::OutOfMemory) => return Err(Halt::OutOfMemory),
        };
        let modules = self.modules;
        let ty = modules.type_at(unfolded.place.module, unfolded.index)?;
        match &ty.base {
            Base::Choice(list) if prefix(&unfolded, 0, true).is_none() => {
                Ok(Some((unfolded.place, list.as_slice())))
            }
            _ => Ok(None),
        }
    }
}

/// Returns whether an extension marker is among alternatives.
fn has_marker(list: &[Component<'_>]) -> bool {
    for component in list {
        if let Component::Marker(_) = component {
            return true;
        }
    }
    false
}
