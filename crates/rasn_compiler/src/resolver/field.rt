//! Fields of classes, and alternatives of a CHOICE that are selected (X.681 14, X.680 30).
use crate::fault::Halt;
use crate::position::Position;
use crate::resolver::lookup::{MAX_NAMES, TOO_MANY_NAMES};
use crate::resolver::mark::Mark;
use crate::resolver::meant::Meant;
use crate::resolver::node::Place;
use crate::resolver::reference::{Next, steps_of, written_name};
use crate::resolver::shape::Resolver;
use crate::resolver::value::alternative_named;
use crate::tree::{Actual, Assigned, Base, Class, Component, Field, Given, TypeIndex};

impl<'modules, 'text> Resolver<'modules, 'text> {
    /// Returns the type of a class's field, or None if any type may be there (X.681 14.2). The
    /// fields before the last are of objects.
    pub(crate) fn field_type(
        &mut self,
        place: Place,
        class: TypeIndex,
        path: &[&'text str],
        position: Position,
    ) -> Result<Option<Next<'text>>, Halt<'text>> {
        let mut at = place;
        let mut of = Some(class);
        for name in path {
            let Some(class) = of else {
                return Err(self.expected(place, position, "a field of objects"));
            };
            let (found, class) = self.class_of(at, class.0, position)?;
            self.step(class.fields.len(), place, position)?;
            let Some(field) = field_named(class.fields.as_slice(), name) else {
                return Err(self.undefined(place, position, name));
            };
            at = found;
            of = field.of;
        }
        match of {
            Some(of) => Ok(Some(Next::of(at, of.0))),
            None => Ok(None),
        }
    }

    /// Returns a class, following references to it (X.681 9.2).
    pub(crate) fn class_of(
        &mut self,
        place: Place,
        index: usize,
        position: Position,
    ) -> Result<(Place, &'modules Class<'text>), Halt<'text>> {
        let modules = self.modules;
        let mut at = place;
        let mut index = index;
        let mut mark = Mark::new(place, index);
        for _ in 0..MAX_NAMES {
            let ty = modules.type_at(at.module, index)?;
            self.step(steps_of(ty), place, position)?;
            if let Base::Class(class) = &ty.base {
                return Ok((at, class));
            }
            let Base::Reference {
                module,
                name,
                actuals,
            } = &ty.base
            else {
                return Err(self.expected(place, position, "a class"));
            };
            (at, index) = self.class_meant(at, *module, name, actuals.as_slice(), position)?;
            if mark.is_again(at, index) {
                return Err(self.endless(place, position, written_name(&ty.base)));
            }
        }
        Err(self.beyond(place, position, TOO_MANY_NAMES))
    }

    /// Returns what the name of a class means, a class or a reference to one, or what a parameter
    /// of this name is given.
    fn class_meant(
        &mut self,
        place: Place,
        outside: Option<&'text str>,
        name: &'text str,
        actuals: &[Actual<'text>],
        position: Position,
    ) -> Result<(Place, usize), Halt<'text>> {
        let (module, assignment) = match self.meaning(place, outside, name, position)? {
            Meant::Given(at, Given::Type(index)) => return Ok((at, index.0)),
            Meant::Given(_, _) => return Err(self.expected(place, position, "a class")),
            Meant::Assigned(module, assignment) => (module, assignment),
        };
        let index = match assignment.assigned {
            Assigned::Class { fields } => fields.0,
            Assigned::Type(of) => of.0,
            Assigned::Value { .. } | Assigned::Values { .. } => {
                let what = "the type of an object's field";
                return Err(self.unsupported(place, position, what));
            }
            Assigned::Macro => return Err(self.expected(place, position, "a class")),
        };
        let inner = self.entered(place, module, &assignment, actuals, position)?;
        Ok((inner, index))
    }

    /// Returns the type of the values of INSTANCE OF a class (X.681 C).
    pub(crate) fn instance_of(
        &mut self,
        place: Place,
        class: &'text str,
        position: Position,
    ) -> Result<Next<'text>, Halt<'text>> {
        let (at, index) = self.class_meant(place, None, class, &[], position)?;
        self.class_of(at, index, position)?;
        self.given_type("InstanceOf", "INSTANCE OF")
    }

    /// Returns the type of the alternative of this name (X.680 30).
    pub(crate) fn selected(
        &mut self,
        place: Place,
        name: &'text str,
        of: usize,
        position: Position,
    ) -> Result<Next<'text>, Halt<'text>> {
        let (at, list) = self.choice_of(place, of, position)?;
        self.step(list.len(), place, position)?;
        let is_automatic = self.is_automatic(at, list)?;
        match alternative_named(list, name) {
            Some((index, of)) => Ok(Next {
                automatic: automatic_tag(is_automatic, index),
                ..Next::of(at, of.0)
            }),
            None => Err(self.undefined(place, position, name)),
        }
    }

    /// Returns the alternatives of a CHOICE, following references to it.
    fn choice_of(
        &mut self,
        place: Place,
        index: usize,
        position: Position,
    ) -> Result<(Place, &'modules [Component<'text>]), Halt<'text>> {
        let modules = self.modules;
        let mut next = Next::of(place, index);
        let mut mark = Mark::new(place, index);
        for _ in 0..MAX_NAMES {
            let ty = modules.type_at(next.place.module, next.index)?;
            self.step(steps_of(ty), place, position)?;
            if let Base::Choice(list) = &ty.base {
                return Ok((next.place, list.as_slice()));
            }
            let Base::Reference {
                module,
                name,
                actuals,
            } = &ty.base
            else {
                return Err(self.expected(place, position, "a CHOICE"));
            };
            next = self.type_meant(next.place, *module, name, actuals.as_slice(), position)?;
            if mark.is_again(next.place, next.index) {
                return Err(self.endless(place, position, written_name(&ty.base)));
            }
        }
        Err(self.beyond(place, position, TOO_MANY_NAMES))
    }

    /// Returns a type that is given to every module.
    pub(crate) fn given_type(
        &mut self,
        name: &'text str,
        shown: &'text str,
    ) -> Result<Next<'text>, Halt<'text>> {
        let place = Place::of(self.modules.modules.len());
        let next = self.type_meant(place, None, name, &[], Position::START)?;
        Ok(Next {
            name: Some(shown),
            ..next
        })
    }
}

/// Returns the automatic tag of the alternative with this index, if those of its CHOICE have such
/// (X.680 29.2).
pub(crate) fn automatic_tag(is_automatic: bool, index: usize) -> Option<u32> {
    if is_automatic {
        u32::try_from(index).ok()
    } else {
        None
    }
}

/// Returns the field of this name.
pub(crate) fn field_named<'text>(fields: &[Field<'text>], name: &str) -> Option<Field<'text>> {
    for field in fields {
        if field.name == name {
            return Some(*field);
        }
    }
    None
}
