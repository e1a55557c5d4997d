//! Values of OBJECT IDENTIFIER that have names.
ghost use Rattle.std.specs.Prelude.{IfOk, IfSome, OnOk};
ghost use Rattle.rasn_compiler.specs.Identifiers.{AreValuesOf, IsOneOf, IsValue};

use crate::fault::Halt;
use crate::modules::Modules;
use crate::resolver::{Place, Resolver};
use crate::steps::Steps;
use crate::tree::{Assigned, Assignment, Base, Builtin, Module, TypeIndex};
use rasn_schema::Value;
use rasn_types::types::{ObjectIdentifier, TryClone};
use std::alloc::{AllocError, Global};

/// An identifier, with the name that a module assigns it to.
#[derive(Debug, Drop)]
pub struct NamedIdentifier<'text> {
    pub name: &'text str,
    pub identifier: ObjectIdentifier,
}

impl<'text> Modules<'text> {
    /// Returns the values of OBJECT IDENTIFIER (X.680 32) that modules assign to names (16), without
    /// those of built-in modules, in the order of the texts. One that isn't a value of its type, or
    /// that has parameters, is left out: [`Modules::warnings`] returns what is wrong.
    ///
    /// # Errors
    /// `AllocError` if memory runs out.
    ///
    /// # Examples
    /// ```
    /// // of `id-a OBJECT IDENTIFIER ::= { iso 2 840 }`:
    /// let found = modules.identifiers(alloc)?;
    /// // `found[0].name` is id-a, and `found[0].identifier` is 1.2.840
    /// ```
    #[tactic(auto, using(crate::proofs::NamedValues::are_values_of_none))]
    pub fn identifiers(&self, alloc: Global) -> Result<Vec<NamedIdentifier<'text>>, AllocError>
        ensures { IfOk result (λ found. AreValuesOf self.now.modules.items found.items) }
    {
        let mut resolver = Resolver {
            alloc,
            modules: self,
            unchecked: 0,
            scopes: Vec::new(alloc),
            steps: Steps::new(Steps::OF_A_TYPE),
        };
        let mut found = Vec::new(alloc);
        for (index, module) in self.modules.iter().enumerate() {
            if self.is_built_in(index) {
                break;
            }
            add_identifiers(&mut resolver, index, module, &mut found)?;
        }
        Ok(found)
    }
}

/// Adds the identifiers that the module with this index assigns to names.
fn add_identifiers<'text>(
    resolver: &mut Resolver<'_, 'text>,
    index: usize,
    owner: &Module<'text>,
    found: &mut Vec<NamedIdentifier<'text>>,
) -> Result<(), AllocError>
    ensures { (all : _) → IsOneOf all owner.now → AreValuesOf all found.old.items → OnOk result (AreValuesOf all found.new.items) }
{
    for assignment in &owner.assignments {
        let Some(identifier) = identifier_of(resolver, index, owner, assignment)? else {
            continue;
        };
        found.push(NamedIdentifier {
            name: assignment.name,
            identifier,
        })?;
    }
    Ok(())
}

/// Returns the identifier that an assignment of a module has.
fn identifier_of<'text>(
    resolver: &mut Resolver<'_, 'text>,
    index: usize,
    module: &Module<'text>,
    assignment: &Assignment<'text>,
) -> Result<Option<ObjectIdentifier>, AllocError>
    ensures { IfOk result (λ found. IfSome found (λ _. IsValue assignment.now.assigned)) }
{
    let Assigned::Value { of, value } = assignment.assigned else {
        return Ok(None);
    };
    if assignment.parameters.is_some() || !may_be_identifier(module, of) {
        return Ok(None);
    }
    let value = match resolver.default_value(Place::of(index), of, value, assignment.position) {
        Ok(value) => value,
        Err(Halt::OutOfMemory) => return Err(AllocError),
        Err(Halt::Fault(_)) => return Ok(None),
    };
    let Value::Arcs(identifier) = &value else {
        return Ok(None);
    };
    Ok(Some(identifier.try_clone(resolver.alloc)?))
}

/// Returns whether a type of a module is OBJECT IDENTIFIER, or has a name that may mean it.
fn may_be_identifier(module: &Module<'_>, of: TypeIndex) -> bool {
    match module.types.get(of.0) {
        Some(ty) => matches!(
            ty.base,
            Base::Builtin(Builtin::ObjectIdentifier) | Base::Reference { .. }
        ),
        None => false,
    }
}
