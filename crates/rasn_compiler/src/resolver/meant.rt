//! What names mean where they are used (X.680 13.12, X.683 8.3).
use crate::fault::Halt;
use crate::position::Position;
use crate::resolver::node::Place;
use crate::resolver::shape::Resolver;
use crate::tree::{Assigned, Assignment, Given, TypeIndex, Value};

/// What a name means.
#[derive(Clone, Copy)]
pub(crate) enum Meant<'text> {
    /// What the parameter of this name is given, and where that means something.
    Given(Place, Given<'text>),
    /// What is assigned to the name, and the index of its module.
    Assigned(usize, Assignment<'text>),
}

/// A value that has a name.
#[derive(Clone, Copy)]
pub(crate) struct NamedValue<'text> {
    pub(crate) place: Place,
    /// The type before it. What a parameter is given has none.
    pub(crate) of: Option<TypeIndex>,
    pub(crate) value: Value<'text>,
}

impl<'modules, 'text> Resolver<'modules, 'text> {
    /// Returns what a name means. `outside` is the module that is written before it.
    pub(crate) fn meaning(
        &self,
        place: Place,
        outside: Option<&'text str>,
        name: &'text str,
        position: Position,
    ) -> Result<Meant<'text>, Halt<'text>> {
        if outside.is_none() {
            if let Some(bound) = self.bound(place, name) {
                return Ok(Meant::Given(bound.place, bound.given));
            }
        }
        let (module, assignment) = self.modules.meaning(place.module, outside, name, position)?;
        Ok(Meant::Assigned(module, assignment))
    }

    /// Returns the value that a name means. What else it may not be is in the fault.
    pub(crate) fn value_meant(
        &self,
        place: Place,
        outside: Option<&'text str>,
        name: &'text str,
        position: Position,
        expected: &'static str,
    ) -> Result<NamedValue<'text>, Halt<'text>> {
        match self.meaning(place, outside, name, position)? {
            Meant::Given(place, Given::Value(value)) => Ok(NamedValue {
                place,
                of: None,
                value,
            }),
            Meant::Assigned(
                module,
                Assignment {
                    assigned: Assigned::Value { of, value },
                    ..
                },
            ) => Ok(NamedValue {
                place: Place::of(module),
                of: Some(of),
                value,
            }),
            Meant::Given(_, _) | Meant::Assigned(_, _) => {
                Err(self.expected(place, position, expected))
            }
        }
    }
}
