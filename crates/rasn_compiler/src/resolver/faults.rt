//! Faults at a place of a module.
use crate::fault::{Halt, Problem};
use crate::position::Position;
use crate::resolver::node::Place;
use crate::resolver::shape::Resolver;

impl<'modules, 'text> Resolver<'modules, 'text> {
    /// Returns the fault of something else that has to be at a place.
    pub(crate) fn expected(
        &self,
        place: Place,
        position: Position,
        what: &'static str,
    ) -> Halt<'text> {
        self.modules
            .fault(place.module, position, Problem::Expected(what))
    }

    /// Returns the fault of what a schema can't carry.
    pub(crate) fn unsupported(
        &self,
        place: Place,
        position: Position,
        what: &'static str,
    ) -> Halt<'text> {
        self.modules
            .fault(place.module, position, Problem::Unsupported(what))
    }

    /// Returns the fault of a rule that is broken.
    pub(crate) fn broken(
        &self,
        place: Place,
        position: Position,
        rule: &'static str,
    ) -> Halt<'text> {
        self.modules
            .fault(place.module, position, Problem::Broken(rule))
    }

    /// Returns a fault if a rule is broken.
    pub(crate) fn broken_if(
        &self,
        place: Place,
        position: Position,
        rule: Option<&'static str>,
    ) -> Result<(), Halt<'text>> {
        match rule {
            Some(rule) => Err(self.broken(place, position, rule)),
            None => Ok(()),
        }
    }

    /// Returns the fault of a name that isn't defined.
    pub(crate) fn undefined(
        &self,
        place: Place,
        position: Position,
        name: &'text str,
    ) -> Halt<'text> {
        self.modules
            .fault(place.module, position, Problem::Undefined(name))
    }

    /// Returns the fault of names that lead to one another without end.
    pub(crate) fn endless(
        &self,
        place: Place,
        position: Position,
        name: &'text str,
    ) -> Halt<'text> {
        self.modules
            .fault(place.module, position, Problem::Endless(name))
    }

    /// Returns the fault of more of something than is allowed.
    pub(crate) fn beyond(
        &self,
        place: Place,
        position: Position,
        what: &'static str,
    ) -> Halt<'text> {
        self.modules
            .fault(place.module, position, Problem::Beyond(what))
    }

    /// Returns the fault of a type that takes more steps than are allowed.
    pub(crate) fn out_of_steps(&self, place: Place, position: Position) -> Halt<'text> {
        self.modules
            .fault(place.module, position, Problem::OutOfSteps)
    }
}
