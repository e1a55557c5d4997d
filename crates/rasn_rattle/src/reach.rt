//! Which types a type leads to.
use crate::files::OPEN_LIST;
use crate::plan::Plan;
use rasn_schema::TypeId;
use std::alloc::AllocError;
use std::collections::{BTreeMap, BTreeSet};

/// A walk from types to those that they are made of.
#[derive(Drop)]
struct Walk {
    /// The types that were reached.
    reached: BTreeSet<usize>,
    /// Those of them whose parts are still to be visited.
    left: Vec<usize>,
}

impl Walk {
    /// Reaches a type.
    fn reach(&mut self, id: usize) -> Result<(), AllocError> {
        if !self.reached.contains(&id) {
            self.reached.insert(id)?;
            self.left.push(id)?;
        }
        Ok(())
    }
}

impl Plan<'_> {
    /// Returns whether the parts of a type lead to another one, or it is the other one.
    pub(crate) fn leads_to(&self, from: usize, to: usize) -> Result<bool, AllocError> {
        let mut walk = self.new_walk();
        self.visit(&mut walk, from)?;
        self.visit_parts(&mut walk)?;
        Ok(walk.reached.contains(&to))
    }

    /// Returns the types that these are made of, or those of them that the options name.
    pub(crate) fn reached_by(&self, wanted: &[TypeId]) -> Result<BTreeSet<usize>, AllocError> {
        let mut walk = self.new_walk();
        for id in wanted {
            if self.is_wanted(id.0) {
                self.visit(&mut walk, id.0)?;
            }
        }
        self.visit_parts(&mut walk)?;
        let Walk { reached, .. } = walk;
        Ok(reached)
    }

    /// Returns whether a file is wanted for a type.
    pub(crate) fn is_wanted(&self, id: usize) -> bool {
        match self.names.get(&id) {
            Some(naming) => self.options.is_wanted(naming.notation.as_str()),
            None => false,
        }
    }

    /// Returns the types that other crates have, with the names of these.
    pub(crate) fn foreign_by(
        &self,
        held: &[(TypeId, String)],
    ) -> Result<BTreeMap<usize, String>, AllocError> {
        let mut foreign = BTreeMap::new(self.alloc);
        for (id, crate_name) in held {
            let mut walk = self.new_walk();
            self.visit(&mut walk, id.0)?;
            self.visit_parts(&mut walk)?;
            for id in walk.reached.iter() {
                let name = String::from_str(self.alloc, crate_name.as_str())?;
                foreign.insert(*id, name)?;
            }
        }
        Ok(foreign)
    }

    /// Returns a walk that has reached nothing.
    fn new_walk(&self) -> Walk {
        Walk {
            reached: BTreeSet::new(self.alloc),
            left: Vec::new(self.alloc),
        }
    }

    /// Reaches a type. Of a type under another tag it is the type itself.
    fn visit(&self, walk: &mut Walk, id: usize) -> Result<(), AllocError> {
        walk.reach(self.twin_or_self(id))
    }

    /// Reaches what the types lead to. Each is visited once.
    fn visit_parts(&self, walk: &mut Walk) -> Result<(), AllocError> {
        for _ in 0..self.schema.types().len() {
            let Some(id) = walk.left.pop() else {
                break;
            };
            self.visit_parts_of(walk, id)?;
        }
        Ok(())
    }

    /// Reaches the parts of a type, unless another crate has it, or it is written as an open type.
    fn visit_parts_of(&self, walk: &mut Walk, id: usize) -> Result<(), AllocError> {
        if self.foreign.contains_key(&id) || self.is_opened(id) {
            return Ok(());
        }
        if let Some(twin) = self.retagged.get(&id) {
            return self.visit(walk, *twin);
        }
        let members = self.placed_members_of(id)?;
        for member in &members {
            self.visit(walk, member.type_id.0)?;
        }
        Ok(())
    }

    /// Returns the types that an impl names a type of the constant for: those that aren't part of
    /// another one.
    pub(crate) fn static_roots(&self) -> Result<BTreeSet<usize>, AllocError> {
        let mut roots = BTreeSet::new(self.alloc);
        let mut walk = self.new_walk();
        for (id, _naming) in self.names.iter() {
            if self.has_static(*id)? {
                roots.insert(*id)?;
                self.reach_static_parts(&mut walk, *id)?;
            }
        }
        self.reach_static(&mut walk)?;
        for id in walk.reached.iter() {
            roots.remove(&self.twin_or_self(*id));
        }
        Ok(roots)
    }

    /// Returns the numbers that types have in the constant: these, and what they are made of there,
    /// in the order of the schema.
    pub(crate) fn static_numbers(
        &self,
        roots: &BTreeSet<usize>,
    ) -> Result<BTreeMap<usize, usize>, AllocError> {
        let mut walk = self.new_walk();
        for id in roots.iter() {
            walk.reach(*id)?;
        }
        self.reach_static(&mut walk)?;
        let mut numbers = BTreeMap::new(self.alloc);
        for (number, id) in walk.reached.iter().enumerate() {
            numbers.insert(*id, number)?;
        }
        Ok(numbers)
    }

    /// Reaches what the types are made of in the constant.
    fn reach_static(&self, walk: &mut Walk) -> Result<(), AllocError> {
        for _ in 0..self.schema.types().len() {
            let Some(id) = walk.left.pop() else {
                break;
            };
            self.reach_static_parts(walk, id)?;
        }
        Ok(())
    }

    /// Reaches what a type is made of in the constant.
    fn reach_static_parts(&self, walk: &mut Walk, id: usize) -> Result<(), AllocError> {
        if self.reason_against(id)?.is_some() {
            return Ok(());
        }
        let members = self.placed_members_of(id)?;
        for member in &members {
            walk.reach(member.type_id.0)?;
        }
        Ok(())
    }

    /// Returns whether a type is made of one that is made of itself, or that an option has as a
    /// list of any components.
    pub(crate) fn has_no_constant(&self, id: usize) -> Result<bool, AllocError> {
        let mut walk = self.new_walk();
        self.visit(&mut walk, id)?;
        self.visit_parts(&mut walk)?;
        for reached in walk.reached.iter() {
            if self.open_word_of(*reached) == OPEN_LIST || self.is_recursive(*reached)? {
                return Ok(true);
            }
        }
        Ok(false)
    }

    /// Returns whether a type is made of itself, and isn't written as an open type for an option.
    fn is_recursive(&self, id: usize) -> Result<bool, AllocError> {
        if self.is_opened(id) {
            return Ok(false);
        }
        let members = self.placed_members_of(id)?;
        for member in &members {
            if self.leads_to(member.type_id.0, id)? {
                return Ok(true);
            }
        }
        Ok(false)
    }
}
