//! Schemas of types (X.680 to X.683): what a type of a module is once its references, tags and
//! constraints are followed.
//!
//! Types are resolved one after another from a list. Each names the types that it is made of, which
//! are added to the list unless they are there, so that types that reach themselves end.

ghost use Rattle.std.specs.Prelude.{◌≡◌, ◌<◌, length, IfOk, Some};
ghost use Rattle.rasn_schema.specs.Named.{IsNamed};

mod bounds;
mod build;
mod components;
mod default;
mod digits;
mod emit;
mod enumerated;
mod faults;
mod field;
mod growing;
mod identifier;
mod included;
mod leaf;
mod lookup;
mod mark;
mod meant;
mod node;
mod number;
mod object;
mod octets;
mod open_value;
mod order;
mod reference;
mod schema_fault;
mod scope;
mod shape;
mod spoilt;
mod unfold;
mod unknown;
mod value;

use crate::fault::{Halt, Problem, Stop};
use crate::library::{Library, TypeRef};
use crate::modules::Modules;
use crate::steps::Steps;
pub(crate) use emit::assembled;
pub(crate) use lookup::MAX_NAMES;
pub(crate) use node::Place;
use rasn_schema::{Schema, TypeId};
pub(crate) use shape::Resolver;
use std::alloc::Global;

/// A type that was resolved.
#[derive(Drop)]
pub struct Resolved {
    /// The type and the types that it is made of, with the names of those that have one.
    pub schema: Schema,
    /// The number of the type.
    pub root: TypeId,
    /// The number of constraints that the schema doesn't check.
    pub unchecked: usize,
}

impl<'text> Modules<'text> {
    /// Returns a schema of a type of a module (X.680 16.2), in which the type has its name. A
    /// SEQUENCE with an extension marker, whose additions are at its end, has unknown values as its
    /// last component, and so has a SET with such a marker: what a newer version of the module has
    /// there is kept (X.680 25, 27). A CHOICE with a marker has an open type as its last
    /// alternative, unless its type is used where a tag couldn't tell an unknown alternative from
    /// another part (X.680 29).
    ///
    /// # Errors
    /// `Fault` with the first fault that is found in what the type is made of, `OutOfSteps` among
    /// them if it takes more than [`Steps::OF_A_TYPE`]; `OutOfMemory` if memory runs out.
    ///
    /// # Examples
    /// ```
    /// let person = modules.schema(alloc, "Names", "Person")?;
    /// let value = rasn_dynamic::decode(alloc, Codec::Der, &person.schema, person.root, octets)?;
    /// ```
    pub fn schema(&self, alloc: Global, module: &str, name: &str) -> Result<Resolved, Stop<'text>>
        ensures root { IfOk result (λ r. r.root.0 < length r.schema.types.items) }
        ensures named { IfOk result (λ r. (names : _) × (r.schema.names ≡ Some names) × IsNamed names.items name.now r.root) }
    {
        let mut steps = Steps::new(Steps::OF_A_TYPE);
        self.schema_within(alloc, module, name, &mut steps)
    }

    /// Returns a schema of a type of a module, as [`Modules::schema`] does, within the steps that
    /// are left. Those that are taken are no longer left, whether there is a schema or not.
    ///
    /// # Errors
    /// As [`Modules::schema`], and `Fault` with `OutOfSteps` if the type takes more steps than are
    /// left.
    pub fn schema_within(
        &self,
        alloc: Global,
        module: &str,
        name: &str,
        steps: &mut Steps,
    ) -> Result<Resolved, Stop<'text>>
        ensures root { IfOk result (λ r. r.root.0 < length r.schema.types.items) }
        ensures named { IfOk result (λ r. (names : _) × (r.schema.names ≡ Some names) × IsNamed names.items name.now r.root) }
    {
        Ok(self.resolved(alloc, module, name, steps)?)
    }

    /// Resolves a type of a module.
    fn resolved(
        &self,
        alloc: Global,
        module: &str,
        name: &str,
        steps: &mut Steps,
    ) -> Result<Resolved, Halt<'text>>
        ensures root { IfOk result (λ r. r.root.0 < length r.schema.types.items) }
        ensures named { IfOk result (λ r. (names : _) × (r.schema.names ≡ Some names) × IsNamed names.items name.now r.root) }
    {
        let (index, known, position) = self.type_named(module, name)?;
        let of = TypeRef {
            module: index,
            name: known,
            position,
        };
        let library = self.library_within(alloc, &[of], steps)?;
        if let Some(found) = library.faults.first() {
            return Err(Halt::of(alloc, found.fault));
        }
        let Some(root) = library.first_root(name) else {
            return Err(self.fault(index, position, Problem::Expected("a type")));
        };
        let unchecked = library.unchecked(alloc, root)?;
        let Library { schema, .. } = library;
        Ok(Resolved {
            schema,
            root,
            unchecked,
        })
    }
}
