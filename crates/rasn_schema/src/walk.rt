//! Which types some types are made of.
ghost use Rattle.std.specs.Prelude.{◌≡◌, ◌≤◌, ◌<◌, ℕ, Some, IfOk, OnOk};
ghost use Rattle.rasn_schema.specs.declared.type_id.TypeId.{TypeId};
ghost use Rattle.rasn_schema.specs.Held.{part_type};
ghost use Rattle.rasn_schema.specs.Made.{AreReachedFrom, IsReachedFrom, IsAdded, IsWalk, IsNone, steps_left};

use crate::schema::Schema;
use crate::type_id::TypeId;
use crate::types::{Type, type_at};
use crate::view::part_type;
use std::alloc::{AllocError, Global};

impl Schema {
    /// Returns of each type, in the order of their numbers, whether it is one of these types or one
    /// of what they are made of: of their parts, the parts of those, and so on. A number of no type
    /// reaches nothing. Each type is visited once, and no stack is taken.
    ///
    /// # Errors
    /// `AllocError` if memory runs out.
    ///
    /// # Examples
    /// ```
    /// let is_reached = schema.reached_from(alloc, &[root])?;
    /// for (ty, is_reached) in schema.types().iter().zip(&is_reached) {
    ///     // ..
    /// }
    /// ```
    pub fn reached_from(&self, alloc: Global, roots: &[TypeId]) -> Result<Vec<bool>, AllocError>
        ensures { IfOk result (λ marks. AreReachedFrom self.now.types.items roots.now marks.items) }
    {
        let types = self.types();
        let mut walk = Walk::new(alloc, types, roots)?;
        while let Some(id) = walk.left.pop() {
            walk.visit(types, id)?;
        }
        let Walk { is_reached, .. } = walk;
        Ok(is_reached)
    }
}

/// A walk from types to those that they are made of.
#[derive(Drop)]
struct Walk {
    /// Whether each type was reached.
    is_reached: Vec<bool>,
    /// The types that were reached, and whose parts weren't yet.
    left: Vec<TypeId>,
}

impl Walk {
    /// Returns a walk that has reached these types.
    fn new(alloc: Global, types: &[Type], roots: &[TypeId]) -> Result<Walk, AllocError>
        ensures { IfOk result (λ walk. IsWalk types.now roots.now roots.now IsNone walk.is_reached.items walk.left.items) }
    {
        let mut walk = Walk {
            is_reached: vec![in alloc; false; types.len()]?,
            left: Vec::new(alloc),
        };
        for id in roots {
            walk.reach(*id)?;
        }
        Ok(walk)
    }

    /// Reaches a type, unless it was reached.
    fn reach(&mut self, id: TypeId) -> Result<(), AllocError>
        ensures { OnOk result (IsAdded self.old.is_reached.items self.old.left.items id self.new.is_reached.items self.new.left.items) }
    {
        if id.0 < self.is_reached.len() && !self.is_reached[id.0] {
            self.is_reached[id.0] = true;
            self.left.push(id)?;
        }
        Ok(())
    }

    /// Reaches the types of the parts of a type that was reached.
    fn visit(&mut self, types: &[Type], id: TypeId) -> Result<(), AllocError>
        ensures walk { (roots : _) → IsReachedFrom types.now roots id.0 → IsWalk types.now roots roots (λ k. k ≡ id.0) self.old.is_reached.items self.old.left.items
            → OnOk result (IsWalk types.now roots roots IsNone self.new.is_reached.items self.new.left.items) }
        ensures steps { OnOk result (steps_left self.new.is_reached.items self.new.left.items ≤ steps_left self.old.is_reached.items self.old.left.items) }
    {
        let Some(ty) = type_at(types, id) else {
            return Ok(());
        };
        for index in 0..part_count(ty) {
            if let Some(part) = part_type(ty, index) {
                self.reach(part)?;
            }
        }
        Ok(())
    }
}

/// Returns how many parts a type has, of which each element of a list is one.
fn part_count(ty: &Type) -> usize
    ensures { (i : ℕ) (id : TypeId) → Some id ≡ part_type ty.now i → (j : ℕ) × (j < result) × (Some id ≡ part_type ty.now j) }
{
    match ty {
        Type::Leaf { .. } | Type::Enumerated { .. } | Type::Any { .. } | Type::Unknown => 0,
        Type::Tagged { .. } | Type::SequenceOf { .. } | Type::SetOf { .. } => 1,
        Type::Choice { alternatives, .. } => alternatives.len(),
        Type::Sequence { components, .. } | Type::Set { components, .. } => components.len(),
    }
}
