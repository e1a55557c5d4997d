//! Parameters and what they are given (X.683).
use crate::fault::Halt;
use crate::lexer::tokens;
use crate::position::Position;
use crate::resolver::node::Place;
use crate::resolver::shape::Resolver;
use crate::token::Token;
use crate::tree::{Actual, Assignment, Base, Given, Type, Unread, Value};
use std::alloc::{AllocError, Global};

/// How many assignments may give parameters to one another.
const MAX_DEPTH: usize = 64;

/// What parameters have that more are given to one another.
const TOO_DEEP: &str = "64 parameters that are given to one another";

/// How many parameters an assignment may have.
const MAX_PARAMETERS: usize = 64;

/// How many uses of parameterized assignments a type may be made of.
const MAX_SCOPES: usize = 4096;

/// What a parameter is given.
#[derive(Clone, Copy)]
pub(crate) struct Bound<'text> {
    /// The parameter's name.
    name: &'text str,
    /// Where what is given means something.
    pub(crate) place: Place,
    /// Where that begins.
    position: Position,
    pub(crate) given: Given<'text>,
}

impl Bound<'_> {
    /// Returns whether two parameters are given the same.
    fn is_same(&self, other: &Bound<'_>) -> bool {
        self.place == other.place && self.position == other.position
    }
}

/// What the parameters of an assignment are given where it is used (X.683 9).
#[derive(Drop)]
pub(crate) struct Scope<'text> {
    /// The module of the assignment.
    module: usize,
    /// The place of the assignment's name.
    position: Position,
    bounds: Vec<Bound<'text>>,
    /// The innermost scope that what is given is within: 0 if there is none.
    around: usize,
    /// How many scopes what is given is within, and this one.
    depth: usize,
}

impl Scope<'_> {
    /// Returns whether a scope is that of the same assignment with the same parameters.
    fn is_same(&self, other: &Scope<'_>) -> bool {
        self.module == other.module
            && self.position == other.position
            && are_same(self.bounds.as_slice(), other.bounds.as_slice())
    }
}

/// Returns whether the parameters of an assignment are given the same.
fn are_same(these: &[Bound<'_>], others: &[Bound<'_>]) -> bool {
    for (one, other) in these.iter().zip(others) {
        if !one.is_same(other) {
            return false;
        }
    }
    true
}

impl<'modules, 'text> Resolver<'modules, 'text> {
    /// Returns what a name is given, if it is that of a parameter.
    pub(crate) fn bound(&self, place: Place, name: &str) -> Option<Bound<'text>> {
        let scope = self.scopes.get(place.scope.checked_sub(1)?)?;
        for bound in &scope.bounds {
            if bound.name == name {
                return Some(*bound);
            }
        }
        None
    }

    /// Returns what the name of a type is given, if it is that of a parameter.
    pub(crate) fn bound_type(&self, place: Place, base: &Base<'text>) -> Option<Bound<'text>> {
        let Base::Reference {
            module: None,
            name,
            ..
        } = base
        else {
            return None;
        };
        self.bound(place, name)
    }

    /// Returns the place of an assignment in a module, which is used at another place and is given
    /// this (X.683 9.4).
    pub(crate) fn entered(
        &mut self,
        from: Place,
        module: usize,
        assignment: &Assignment<'text>,
        actuals: &[Actual<'text>],
        position: Position,
    ) -> Result<Place, Halt<'text>> {
        let Some(parameters) = assignment.parameters else {
            if actuals.is_empty() {
                return Ok(Place::of(module));
            }
            return Err(self.broken(from, position, "what is given has no parameter (X.683 9)"));
        };
        let bounds = self.bounds(from, parameters, actuals, position)?;
        let (around, depth) = self.depth(bounds.as_slice());
        let scope = Scope {
            module,
            position: assignment.position,
            bounds,
            around,
            depth,
        };
        if depth <= MAX_DEPTH {
            return self.scope(from, scope, position);
        }
        if self.is_within_itself(&scope) {
            return Err(self.endless(from, position, assignment.name));
        }
        Err(self.beyond(from, position, TOO_DEEP))
    }

    /// Returns the place of a scope, which is added if it isn't there.
    fn scope(
        &mut self,
        from: Place,
        scope: Scope<'text>,
        position: Position,
    ) -> Result<Place, Halt<'text>> {
        let module = scope.module;
        let count = self.scopes.len();
        self.step(count, from, position)?;
        for (index, known) in self.scopes.iter().enumerate() {
            if known.is_same(&scope) {
                return Ok(Place {
                    module,
                    scope: index.saturating_add(1),
                });
            }
        }
        if self.scopes.len() >= MAX_SCOPES {
            let what = "4096 uses of parameterized assignments in one type";
            return Err(self.beyond(from, position, what));
        }
        self.scopes.push(scope)?;
        Ok(Place {
            module,
            scope: self.scopes.len(),
        })
    }

    /// Returns what each parameter is given.
    fn bounds(
        &mut self,
        from: Place,
        parameters: Unread<'text>,
        actuals: &[Actual<'text>],
        position: Position,
    ) -> Result<Vec<Bound<'text>>, Halt<'text>> {
        self.step(parameters.text.len(), from, position)?;
        let names = parameter_names(self.alloc, parameters)?;
        if names.len() > MAX_PARAMETERS {
            return Err(self.beyond(from, position, "64 parameters of one assignment"));
        }
        if names.len() != actuals.len() {
            return Err(self.broken(from, position, "each parameter has to be given (X.683 9)"));
        }
        let mut bounds = Vec::with_capacity(self.alloc, names.len())?;
        for (name, actual) in names.iter().zip(actuals) {
            bounds.push(self.given(from, name, actual)?)?;
        }
        Ok(bounds)
    }

    /// Returns what a parameter is given. A set of values or of objects is the same as any other,
    /// since no type depends on it.
    fn given(
        &self,
        from: Place,
        name: &'text str,
        actual: &Actual<'text>,
    ) -> Result<Bound<'text>, Halt<'text>> {
        Ok(match self.given_again(from, actual)? {
            Some(known) => Bound { name, ..known },
            None => Bound {
                name,
                place: from,
                position: actual.position,
                given: actual.given,
            }
            .plain(),
        })
    }

    /// Returns what is given to a parameter that is itself given to another.
    fn given_again(
        &self,
        from: Place,
        actual: &Actual<'text>,
    ) -> Result<Option<Bound<'text>>, Halt<'text>> {
        match actual.given {
            Given::Type(index) => {
                let ty = self.modules.type_at(from.module, index.0)?;
                if is_alone(ty) {
                    Ok(self.bound_type(from, &ty.base))
                } else {
                    Ok(None)
                }
            }
            Given::Value(Value::Name { module: None, name }) => Ok(self.bound(from, name)),
            Given::Value(_) | Given::Members(_) => Ok(None),
        }
    }

    /// Returns the scope around one whose parameters are given this, of those that most are around,
    /// and how many there are then within one another.
    fn depth(&self, bounds: &[Bound<'text>]) -> (usize, usize) {
        let mut around = 0usize;
        let mut depth = 0usize;
        for bound in bounds {
            let found = self.depth_of(bound.place.scope);
            if found > depth {
                around = bound.place.scope;
                depth = found;
            }
        }
        (around, depth.saturating_add(1))
    }

    /// Returns how many scopes a scope is within, and this one: none if there are no parameters.
    fn depth_of(&self, scope: usize) -> usize {
        match self.scopes.get(scope.wrapping_sub(1)) {
            Some(found) => found.depth,
            None => 0,
        }
    }

    /// Returns whether a scope is within another one of the same assignment.
    fn is_within_itself(&self, scope: &Scope<'text>) -> bool {
        let mut around = scope.around;
        for _ in 0..MAX_DEPTH {
            let Some(found) = self.scopes.get(around.wrapping_sub(1)) else {
                return false;
            };
            if found.module == scope.module && found.position == scope.position {
                return true;
            }
            around = found.around;
        }
        false
    }
}

impl<'text> Bound<'text> {
    /// Returns what a parameter is given, without the place of a set.
    fn plain(self) -> Bound<'text> {
        match self.given {
            Given::Members(_) => Bound {
                place: Place::of(0),
                position: Position::START,
                ..self
            },
            Given::Type(_) | Given::Value(_) => self,
        }
    }
}

/// Returns whether neither tags nor constraints are beside a type.
fn is_alone(ty: &Type<'_>) -> bool {
    ty.tags.is_empty() && ty.constraints.is_empty()
}

/// Returns the names of an assignment's parameters, each the last word before a comma (X.683 8.3).
fn parameter_names<'text>(
    alloc: Global,
    parameters: Unread<'text>,
) -> Result<Vec<&'text str>, AllocError> {
    let items: Vec<Token<'text>> = tokens(alloc, parameters.text, parameters.position)?;
    let mut names = Vec::new(alloc);
    let mut last = "";
    for item in &items {
        if item.text == "," {
            names.push(last)?;
        }
        last = item.text;
    }
    names.push(last)?;
    Ok(names)
}
