//! Components and alternatives (X.680 25, 27, 29).
use crate::fault::Halt;
use crate::modules::Modules;
use crate::position::Position;
use crate::resolver::included::Listed;
use crate::resolver::node::{Part, Place, Use};
use crate::resolver::shape::Resolver;
use crate::tree::{Component, Presence as Written, Tagging, TypeIndex};
use crate::types::Within;
use rasn_schema::Presence;
use std::alloc::Global;
use std::collections::BTreeSet;

/// The components of a SEQUENCE or a SET, or the alternatives of a CHOICE.
#[derive(Drop)]
pub(crate) struct Components<'text> {
    pub(crate) parts: Vec<Part<'text>>,
    /// Whether unknown values follow them.
    pub(crate) is_extensible: bool,
}

/// How many components were seen of a list, and their names.
#[derive(Drop)]
pub(crate) struct Seen<'text> {
    within: Within,
    /// Whether they get automatic tags.
    is_automatic: bool,
    /// How many the two roots have in all.
    roots: u32,
    root: u32,
    additions: u32,
    markers: usize,
    names: BTreeSet<&'text str>,
}

impl<'text> Seen<'text> {
    /// Begins a list with so many components in its two roots.
    pub(crate) fn new(
        alloc: Global,
        within: Within,
        is_automatic: bool,
        roots: u32,
    ) -> Seen<'text> {
        Seen {
            within,
            is_automatic,
            roots,
            root: 0,
            additions: 0,
            markers: 0,
            names: BTreeSet::new(alloc),
        }
    }

    /// Returns whether an extension addition is next: between the markers, or after the only one
    /// (X.680 25.1).
    pub(crate) fn is_addition(&self) -> bool {
        self.markers == 1
    }

    /// Counts a component and returns its automatic tag: first the roots are counted, then the
    /// additions (X.680 25.7, 29.2).
    pub(crate) fn count(&mut self) -> Option<u32> {
        let number = if self.is_addition() {
            let number = self.roots.saturating_add(self.additions);
            self.additions = self.additions.saturating_add(1);
            number
        } else {
            let number = self.root;
            self.root = number.saturating_add(1);
            number
        };
        if self.is_automatic {
            Some(number)
        } else {
            None
        }
    }

    /// Counts a marker, and returns the rule that it breaks: two are allowed, and nothing follows
    /// the second of a CHOICE (X.680 25.1, 29.1).
    pub(crate) fn add_marker(&mut self) -> Option<&'static str> {
        self.markers = self.markers.saturating_add(1);
        if self.markers > 2 {
            return Some("more than two markers (X.680 25.1, 29.1)");
        }
        None
    }

    /// Returns the rule that a component of this name breaks.
    fn broken_by(&self, written: Written<'text>) -> Option<&'static str> {
        if self.within != Within::Choice {
            return None;
        }
        if self.markers > 1 {
            return Some("an alternative after the second marker (X.680 29.1)");
        }
        match written {
            Written::Required => None,
            _ => Some("an alternative with OPTIONAL or DEFAULT (X.680 29.1)"),
        }
    }
}

impl<'modules, 'text> Resolver<'modules, 'text> {
    /// Resolves the components of a SEQUENCE or a SET, or the alternatives of a CHOICE.
    pub(crate) fn components(
        &mut self,
        place: Place,
        list: &[Component<'text>],
        within: Within,
    ) -> Result<Components<'text>, Halt<'text>> {
        let is_automatic = self.is_automatic(place, list)?;
        let listed = self.listed(place, list, within, is_automatic)?;
        let roots = count_roots(listed.as_slice());
        let mut seen = Seen::new(self.alloc, within, is_automatic, roots);
        let parts = self.parts(listed.as_slice(), &mut seen)?;
        let is_extensible = match within {
            Within::Choice => self.is_growing(place, list)?,
            Within::Sequence | Within::Set => {
                has_unknown(self.modules, place, listed.as_slice(), within)
            }
        };
        Ok(Components {
            parts,
            is_extensible,
        })
    }

    /// Resolves the components or alternatives of a list.
    fn parts(
        &mut self,
        list: &[Listed<'text>],
        seen: &mut Seen<'text>,
    ) -> Result<Vec<Part<'text>>, Halt<'text>> {
        let mut parts = Vec::new(self.alloc);
        for listed in list {
            if let Some(part) = self.part(listed, seen)? {
                parts.push(part)?;
            }
        }
        Ok(parts)
    }

    /// Resolves a component or an alternative, if it isn't a marker.
    fn part(
        &mut self,
        listed: &Listed<'text>,
        seen: &mut Seen<'text>,
    ) -> Result<Option<Part<'text>>, Halt<'text>> {
        let place = listed.place;
        match listed.component {
            Component::Named {
                position,
                name,
                of,
                presence,
            } => {
                self.step(name.len().saturating_add(1), place, position)?;
                self.check_component(place, position, name, presence, seen)?;
                let is_addition = seen.is_addition();
                let automatic = seen.count();
                Ok(Some(Part {
                    name,
                    position,
                    of: Use {
                        automatic,
                        ..Use::of(place, of.0)
                    },
                    node: 0,
                    presence: self.presence(place, of, presence, is_addition)?,
                }))
            }
            Component::Marker(position) => {
                self.broken_if(place, position, seen.add_marker())?;
                Ok(None)
            }
            Component::Of(_) => Ok(None),
        }
    }

    /// Refuses a component whose name another has, or that can't be in its list.
    fn check_component(
        &self,
        place: Place,
        position: Position,
        name: &'text str,
        written: Written<'text>,
        seen: &mut Seen<'text>,
    ) -> Result<(), Halt<'text>> {
        self.broken_if(place, position, seen.broken_by(written))?;
        if !seen.names.insert(name)? {
            let rule = "two components or alternatives have the same name (X.680 25, 27, 29)";
            return Err(self.broken(place, position, rule));
        }
        Ok(())
    }

    /// Returns whether the components of a list get automatic tags: none of them has a tag that is
    /// written (X.680 25.7, 29.2).
    pub(crate) fn is_automatic(
        &self,
        place: Place,
        list: &[Component<'text>],
    ) -> Result<bool, Halt<'text>> {
        if self.modules.tagging(place.module) != Tagging::Automatic {
            return Ok(false);
        }
        for component in list {
            if let Component::Named { of, .. } = component {
                if !self.modules.type_at(place.module, of.0)?.tags.is_empty() {
                    return Ok(false);
                }
            }
        }
        Ok(true)
    }

    /// Returns whether a component may be absent. An extension addition may, since values of an
    /// earlier version don't have it.
    fn presence(
        &mut self,
        place: Place,
        of: TypeIndex,
        written: Written<'text>,
        is_addition: bool,
    ) -> Result<Presence, Halt<'text>> {
        match written {
            Written::Required if is_addition => Ok(Presence::Optional),
            Written::Required => Ok(Presence::Required),
            Written::Optional => Ok(Presence::Optional),
            Written::Default(value, position) => {
                let value = self.default_value(place, of, value, position)?;
                Ok(Presence::Default(value))
            }
        }
    }
}

/// Returns whether such components or alternatives have unknown ones after them: where a SEQUENCE
/// or a CHOICE has its additions at its end, and where a SET has some anywhere. A module may imply
/// a marker (X.680 13.4, 25, 27, 29).
pub(crate) fn has_unknown(
    modules: &Modules<'_>,
    place: Place,
    list: &[Listed<'_>],
    within: Within,
) -> bool {
    let is_implied = modules.is_extensible(place.module);
    match within {
        Within::Set => is_implied || has_marker(list),
        Within::Sequence | Within::Choice => ends_with_additions(list, is_implied),
    }
}

/// Returns whether a list has an extension marker.
fn has_marker(list: &[Listed<'_>]) -> bool {
    for listed in list {
        if let Component::Marker(_) = listed.component {
            return true;
        }
    }
    false
}

/// Returns whether additions come after all components: after the only marker, or before a second
/// one that nothing follows (X.680 25).
fn ends_with_additions(list: &[Listed<'_>], is_implied: bool) -> bool {
    let mut are_last = is_implied;
    let mut markers = 0usize;
    for listed in list {
        match listed.component {
            Component::Marker(_) => {
                markers = markers.saturating_add(1);
                are_last = true;
            }
            _ if markers > 1 => are_last = false,
            _ => {}
        }
    }
    are_last
}

/// Returns how many components are outside the extension additions.
pub(crate) fn count_roots(list: &[Listed<'_>]) -> u32 {
    let mut roots = 0u32;
    let mut markers = 0usize;
    for listed in list {
        match listed.component {
            Component::Marker(_) => markers = markers.saturating_add(1),
            _ if markers != 1 => roots = roots.saturating_add(1),
            _ => {}
        }
    }
    roots
}
