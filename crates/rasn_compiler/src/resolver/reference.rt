//! References that are followed (X.680 16.3, 30, X.681 14, C, X.683 9).
use crate::fault::Halt;
use crate::position::Position;
use crate::resolver::lookup::{MAX_NAMES, TOO_MANY_NAMES};
use crate::resolver::mark::Mark;
use crate::resolver::meant::Meant;
use crate::resolver::node::Place;
use crate::resolver::shape::Resolver;
use crate::tree::{Actual, Assigned, Base, Builtin, Given, Type, Unread};

/// What a type leads to.
#[derive(Clone, Copy)]
pub(crate) struct Next<'text> {
    pub(crate) place: Place,
    pub(crate) index: usize,
    /// The automatic tag that it is within (X.680 29.2).
    pub(crate) automatic: Option<u32>,
    /// The name that it has, if it is an assignment's.
    pub(crate) name: Option<&'text str>,
    /// The set of its values, if the name is that of one (X.680 16.6).
    pub(crate) members: Option<Unread<'text>>,
}

impl<'text> Next<'text> {
    /// Returns a type that no tag is around and that has no name.
    pub(crate) fn of(place: Place, index: usize) -> Next<'text> {
        Next {
            place,
            index,
            automatic: None,
            name: None,
            members: None,
        }
    }
}

impl<'modules, 'text> Resolver<'modules, 'text> {
    /// Returns the type that a type leads to, or None if it is no reference. An open type is none.
    pub(crate) fn next(
        &mut self,
        place: Place,
        ty: &'modules Type<'text>,
    ) -> Result<Option<Next<'text>>, Halt<'text>> {
        match &ty.base {
            Base::Reference {
                module,
                name,
                actuals,
            } => found(self.type_meant(place, *module, name, actuals.as_slice(), ty.position)),
            Base::Builtin(Builtin::External) => found(self.given_type("External", "EXTERNAL")),
            Base::InstanceOf(class) => found(self.instance_of(place, class, ty.position)),
            Base::Selection { name, of } => { found(self.selected(place, name, of.0, ty.position)) }
            Base::ClassField { class, path } => {
                self.field_type(place, *class, path.as_slice(), ty.position)
            }
            Base::Builtin(_)
            | Base::Integer(_)
            | Base::BitString(_)
            | Base::Enumerated(_)
            | Base::Sequence(_)
            | Base::Set(_)
            | Base::Choice(_)
            | Base::SequenceOf(_)
            | Base::SetOf(_)
            | Base::AnyDefinedBy(_)
            | Base::Class(_) => Ok(None),
        }
    }

    /// Returns the type that a name means (X.680 16.3), or that a parameter of this name is given
    /// (X.683 9).
    pub(crate) fn type_meant(
        &mut self,
        place: Place,
        outside: Option<&'text str>,
        name: &'text str,
        actuals: &[Actual<'text>],
        position: Position,
    ) -> Result<Next<'text>, Halt<'text>> {
        let (module, assignment) = match self.meaning(place, outside, name, position)? {
            Meant::Given(at, Given::Type(index)) => return Ok(Next::of(at, index.0)),
            Meant::Given(_, _) => return Err(self.expected(place, position, "a type")),
            Meant::Assigned(module, assignment) => (module, assignment),
        };
        let (of, members) = match assignment.assigned {
            Assigned::Type(of) => (of, None),
            Assigned::Values { of, members } => (of, Some(members)),
            Assigned::Macro => return Err(self.unsupported(place, position, "a macro")),
            Assigned::Class { .. } | Assigned::Value { .. } => {
                return Err(self.expected(place, position, "a type"));
            }
        };
        let inner = self.entered(place, module, &assignment, actuals, position)?;
        Ok(Next {
            name: Some(name),
            members,
            ..Next::of(inner, of.0)
        })
    }

    /// Returns the base of the type that a type's references lead to, and its place.
    pub(crate) fn base_of(
        &mut self,
        place: Place,
        index: usize,
        position: Position,
    ) -> Result<(Place, &'modules Base<'text>), Halt<'text>> {
        let (at, end) = self.end_of(place, index, position)?;
        let ty = self.modules.type_at(at.module, end)?;
        Ok((at, &ty.base))
    }

    /// Returns the type that a type's references lead to, which is no reference.
    pub(crate) fn end_of(
        &mut self,
        place: Place,
        index: usize,
        position: Position,
    ) -> Result<(Place, usize), Halt<'text>> {
        let mut next = Next::of(place, index);
        let mut mark = Mark::new(place, index);
        for _ in 0..MAX_NAMES {
            let ty = self.modules.type_at(next.place.module, next.index)?;
            self.step(steps_of(ty), place, position)?;
            match self.next(next.place, ty)? {
                Some(found) => next = found,
                None => return Ok((next.place, next.index)),
            }
            if mark.is_again(next.place, next.index) {
                return Err(self.endless(place, position, written_name(&ty.base)));
            }
        }
        Err(self.beyond(place, position, TOO_MANY_NAMES))
    }
}

/// Returns how many steps it takes to follow a type.
pub(crate) fn steps_of(ty: &Type<'_>) -> usize {
    let name = written_name(&ty.base).len();
    let around = ty.tags.len().saturating_add(ty.constraints.len());
    name.saturating_add(around).saturating_add(1)
}

/// Returns the name that a type is written by, if it is a reference.
pub(crate) fn written_name<'text>(base: &Base<'text>) -> &'text str {
    match base {
        Base::Reference { name, .. } | Base::Selection { name, .. } | Base::InstanceOf(name) => {
            name
        }
        Base::ClassField { path, .. } => match path.last() {
            Some(field) => field,
            None => "",
        },
        Base::Builtin(_)
        | Base::Integer(_)
        | Base::BitString(_)
        | Base::Enumerated(_)
        | Base::Sequence(_)
        | Base::Set(_)
        | Base::Choice(_)
        | Base::SequenceOf(_)
        | Base::SetOf(_)
        | Base::AnyDefinedBy(_)
        | Base::Class(_) => "",
    }
}

/// Returns a type that a reference leads to.
fn found<'text>(
    next: Result<Next<'text>, Halt<'text>>,
) -> Result<Option<Next<'text>>, Halt<'text>> {
    Ok(Some(next?))
}
