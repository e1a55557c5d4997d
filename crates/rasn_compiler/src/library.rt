//! The types of a set of modules in one schema.
ghost use Rattle.std.specs.Prelude.{IfOk, IfSome, MatchOption};
ghost use Rattle.rasn_compiler.specs.Libraries.{AreRoots, IsCalled, IsFirstCalled, IsIndexCalled, IsNoneCalled, IsTypeIn};
ghost use Rattle.rasn_types.specs.Truth.{IsWhether};

use crate::fault::Fault;
use crate::modules::Modules;
use crate::position::Position;
use crate::resolver::{Resolver, assembled};
use crate::steps::Steps;
use crate::tree::{Assigned, Assignment};
use rasn_schema::{Schema, Type, TypeId, type_at};
use std::alloc::{AllocError, Global};

/// A type of a module, of which a library may be made.
#[derive(Clone, Copy, Debug, PartialEq, Eq)]
pub struct TypeRef<'text> {
    /// The index of its module.
    pub module: usize,
    pub name: &'text str,
    /// The place to which faults refer if the name means no type.
    pub(crate) position: Position,
}

/// A type of a library.
#[derive(Clone, Copy, Debug, PartialEq, Eq)]
pub struct Root<'text> {
    /// The name of its module.
    pub module: &'text str,
    pub name: &'text str,
    /// The index of its module.
    pub index: usize,
    /// Its number in the schema.
    pub type_id: TypeId,
}

impl Root<'_> {
    /// Returns whether this is the name of the type, also after that of its module and a dot.
    pub fn is_called(&self, name: &str) -> bool
        ensures { IsWhether result (IsCalled self.now name.now) }
    {
        if self.name == name {
            return true;
        }
        let Some(rest) = name.strip_prefix(self.module) else {
            return false;
        };
        match rest.strip_prefix(".") {
            Some(rest) => rest == self.name,
            None => false,
        }
    }
}

/// A type that has no schema.
#[derive(Clone, Copy, Debug, PartialEq, Eq)]
pub struct Unresolved<'text> {
    /// The name of its module.
    pub module: &'text str,
    pub name: &'text str,
    /// The index of its module.
    pub index: usize,
    /// The first fault that is found in what it is made of.
    pub fault: Fault<'text>,
}

/// Types of modules in one schema, which has the types that they are made of once. A type that
/// breaks a rule, or is made of one that does, is a NULL there, to which no root leads.
#[derive(Drop)]
pub struct Library<'text> {
    /// The types, with the names of those that have one: first their own, then those of the roots.
    pub schema: Schema,
    /// The types that were wanted and have a schema, in their order.
    pub roots: Vec<Root<'text>>,
    /// Those that have none.
    pub faults: Vec<Unresolved<'text>>,
    /// The number of constraints of each type that the schema doesn't check.
    pub(crate) unchecked: Vec<usize>,
}

impl<'text> Library<'text> {
    /// Returns the first type that has this name: `TYPE` or `MODULE.TYPE`.
    pub fn find(&self, name: &str) -> Option<&Root<'text>>
        ensures { MatchOption result (IsNoneCalled self.now.roots.items name.now) (λ root. IsFirstCalled self.now.roots.items name.now root.now) }
    {
        first_called(&self.roots, name)
    }

    /// Returns the number of the first root, if it has this name.
    pub(crate) fn first_root(&self, name: &str) -> Option<TypeId>
        ensures { AreRoots self.now.schema self.now.roots.items → IfSome result (λ id. IsTypeIn self.now.schema name.now id) }
    {
        let root = self.roots.first()?;
        if root.name == name {
            Some(root.type_id)
        } else {
            None
        }
    }

    /// Returns the number of constraints in what a type is made of that the schema doesn't check.
    ///
    /// # Errors
    /// `AllocError` if memory runs out.
    pub fn unchecked(&self, alloc: Global, id: TypeId) -> Result<usize, AllocError> {
        let types = self.schema.types();
        let mut is_known = vec![in alloc; false; types.len()]?;
        let mut list = Vec::new(alloc);
        add_type(&mut is_known, &mut list, id)?;
        let mut count = 0usize;
        for next in 0..types.len() {
            let Some(id) = list.get(next).copied() else {
                break;
            };
            count = count.saturating_add(self.unchecked.get(id.0).copied().unwrap_or(0));
            if let Some(ty) = type_at(types, id) {
                add_types_of(&mut is_known, &mut list, ty)?;
            }
        }
        Ok(count)
    }
}

/// Returns the first root that has this name.
fn first_called<'a, 'text>(roots: &'a [Root<'text>], name: &str) -> Option<&'a Root<'text>>
    ensures { MatchOption result (IsNoneCalled roots.now name.now) (λ root. IsFirstCalled roots.now name.now root.now) }
{
    let index = index_called(roots, name)?;
    Some(&roots[index])
}

/// Returns the index of the first root that has this name, if one has it.
fn index_called(roots: &[Root<'_>], name: &str) -> Option<usize>
    ensures { MatchOption result (IsNoneCalled roots.now name.now) (λ k. IsIndexCalled roots.now name.now k) }
{
    for (index, root) in roots.iter().enumerate() {
        if root.is_called(name) {
            return Some(index);
        }
    }
    None
}

/// Adds the types that a type is made of, unless they are known.
fn add_types_of(
    is_known: &mut Vec<bool>,
    list: &mut Vec<TypeId>,
    ty: &Type,
) -> Result<(), AllocError> {
    match ty {
        Type::Leaf { .. } | Type::Enumerated { .. } | Type::Any { .. } | Type::Unknown => Ok(()),
        Type::Tagged { inner: id, .. }
        | Type::SequenceOf { element: id, .. }
        | Type::SetOf { element: id, .. } => add_type(is_known, list, *id),
        Type::Choice { alternatives, .. } => {
            for alternative in alternatives {
                add_type(is_known, list, alternative.type_id)?;
            }
            Ok(())
        }
        Type::Sequence { components, .. } | Type::Set { components, .. } => {
            for component in components {
                add_type(is_known, list, component.type_id)?;
            }
            Ok(())
        }
    }
}

/// Adds a type, unless it is known.
fn add_type(
    is_known: &mut Vec<bool>,
    list: &mut Vec<TypeId>,
    id: TypeId,
) -> Result<(), AllocError> {
    if let Some(is_known) = is_known.get_mut(id.0) {
        if !*is_known {
            *is_known = true;
            list.push(id)?;
        }
    }
    Ok(())
}

impl<'text> Modules<'text> {
    /// Returns all types that have no parameters, in the order of the texts.
    ///
    /// # Errors
    /// `AllocError` if memory runs out.
    pub fn types(&self, alloc: Global) -> Result<Vec<TypeRef<'text>>, AllocError> {
        let mut types = Vec::new(alloc);
        for (index, module) in self.modules.iter().enumerate() {
            for assignment in &module.assignments {
                if self.is_plain_type(index, assignment) {
                    types.push(TypeRef {
                        module: index,
                        name: assignment.name,
                        position: module.position,
                    })?;
                }
            }
        }
        Ok(types)
    }

    /// Returns the first type without parameters that has this name: `TYPE` or `MODULE.TYPE`.
    pub fn find(&self, name: &str) -> Option<TypeRef<'text>> {
        let (wanted, type_name) = name.split_once('.').unwrap_or(("", name));
        for (index, module) in self.modules.iter().enumerate() {
            if wanted.is_empty() || wanted == module.name {
                if let Some(found) = self.type_of_module(index, type_name) {
                    return Some(found);
                }
            }
        }
        None
    }

    /// Returns the type of this name of a built-in module.
    pub fn built_in(&self, module: &str, name: &str) -> Option<TypeRef<'text>> {
        self.type_of_module(self.built_in_index_of(module)?, name)
    }

    /// Returns the type of this name of the module with this index, if it has no parameters.
    fn type_of_module(&self, index: usize, name: &str) -> Option<TypeRef<'text>> {
        let module = self.modules.get(index)?;
        for assignment in &module.assignments {
            if assignment.name == name && self.is_plain_type(index, assignment) {
                return Some(TypeRef {
                    module: index,
                    name: assignment.name,
                    position: module.position,
                });
            }
        }
        None
    }

    /// Returns whether an assignment of a module is one of a type without parameters.
    fn is_plain_type(&self, module: usize, assignment: &Assignment<'text>) -> bool {
        matches!(assignment.assigned, Assigned::Type(_))
            && assignment.parameters.is_none()
            && !self.is_class_at(module, None, assignment.name, assignment.position)
    }

    /// Returns a schema of these types, each of which is a root or a fault of the library. A type
    /// with a fault spoils what is made of it and nothing else. Each root means the same as in the
    /// schema of it alone that [`Modules::schema`] returns, which says more of it.
    ///
    /// # Errors
    /// `AllocError` if memory runs out.
    ///
    /// # Examples
    /// ```
    /// let types = modules.types(alloc)?;
    /// let library = modules.library(alloc, &types)?;
    /// if let Some(person) = library.find("Person") {
    ///     let value = rasn_dynamic::decode(alloc, codec, &library.schema, person.type_id, octets)?;
    /// }
    /// ```
    pub fn library(
        &self,
        alloc: Global,
        wanted: &[TypeRef<'text>],
    ) -> Result<Library<'text>, AllocError>
        ensures roots { IfOk result (λ library. AreRoots library.schema library.roots.items) }
    {
        let mut count = Steps::OF_A_TYPE;
        for module in &self.modules {
            count = count.saturating_add(module.types.len().saturating_mul(Steps::OF_EACH));
        }
        let mut steps = Steps::new(count);
        self.library_within(alloc, wanted, &mut steps)
    }

    /// Returns a schema of these types, as [`Modules::library`] does, within the steps that are
    /// left.
    ///
    /// # Errors
    /// `AllocError` if memory runs out.
    pub(crate) fn library_within(
        &self,
        alloc: Global,
        wanted: &[TypeRef<'text>],
        steps: &mut Steps,
    ) -> Result<Library<'text>, AllocError>
        ensures roots { IfOk result (λ library. AreRoots library.schema library.roots.items) }
    {
        let mut resolver = Resolver {
            alloc,
            modules: self,
            unchecked: 0,
            scopes: Vec::new(alloc),
            steps: *steps,
        };
        let (targets, nodes) = resolver.nodes(wanted)?;
        *steps = resolver.steps;
        assembled(alloc, self, targets, nodes)
    }
}
