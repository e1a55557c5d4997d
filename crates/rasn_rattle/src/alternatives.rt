//! The alternatives of a CHOICE, and in place of one that is a CHOICE those of that.
use crate::members::{Member, members_of};
use crate::plan::Plan;
use crate::twins::alternatives_of;
use crate::words::variant;
use rasn_schema::{Type, TypeId};
use std::alloc::AllocError;
use std::collections::{BTreeMap, BTreeSet};

/// An alternative of a CHOICE, or of a CHOICE that is one of its alternatives.
#[derive(Clone, Copy)]
pub(crate) struct Placed<'schema> {
    /// The number of the CHOICE that it is an alternative of.
    pub(crate) choice: usize,
    /// The name of the alternative that is this CHOICE, or nothing if it is the outer CHOICE.
    pub(crate) outer: &'schema str,
    /// Its name.
    pub(crate) name: &'schema str,
    /// Its type.
    pub(crate) type_id: TypeId,
}

/// The alternatives of a CHOICE, while those in it that are a CHOICE are opened.
#[derive(Drop)]
struct Opening<'schema> {
    /// The numbers of each CHOICE that was opened.
    opened: BTreeSet<usize>,
    /// The alternatives that aren't looked at yet, the next one last.
    left: Vec<Placed<'schema>>,
}

impl<'schema> Plan<'schema> {
    /// Returns the alternatives of a CHOICE. In place of an alternative that is itself a CHOICE
    /// without an extension marker are its alternatives, which have the same encodings
    /// (X.690 8.13).
    pub(crate) fn placed_of(&self, id: usize) -> Result<Vec<Placed<'schema>>, AllocError> {
        let mut placed = Vec::new(self.alloc);
        let mut opening = Opening {
            opened: BTreeSet::new(self.alloc),
            left: Vec::new(self.alloc),
        };
        self.open(&mut opening, id, "")?;
        for _ in 0..self.alternative_count() {
            let Some(next) = opening.left.pop() else {
                break;
            };
            let inner = next.type_id.0;
            let is_opened = opening.opened.contains(&inner) || self.is_opened(inner);
            if self.is_closed_choice(next.type_id) && !is_opened {
                self.open(&mut opening, inner, next.name)?;
            } else {
                placed.push(next)?;
            }
        }
        Ok(placed)
    }

    /// Puts the alternatives of a CHOICE before those that are left.
    fn open(
        &self,
        opening: &mut Opening<'schema>,
        id: usize,
        outer: &'schema str,
    ) -> Result<(), AllocError> {
        opening.opened.insert(id)?;
        for alternative in alternatives_of(self.type_of(id)).iter().rev() {
            opening.left.push(Placed {
                choice: self.twin_or_self(id),
                outer,
                name: alternative.name.as_str(),
                type_id: alternative.type_id,
            })?;
        }
        Ok(())
    }

    /// Returns how many alternatives all types have.
    fn alternative_count(&self) -> usize {
        let mut count: usize = 0;
        for ty in self.schema.types() {
            count = count.saturating_add(alternatives_of(ty).len());
        }
        count
    }

    /// Returns what the file of a type names: what the type is made of, and of an alternative that
    /// is a CHOICE the alternatives.
    pub(crate) fn placed_members_of(&self, id: usize) -> Result<Vec<Member<'schema>>, AllocError> {
        let ty = self.type_of(id);
        if !matches!(ty, Type::Choice { .. }) {
            return members_of(self.alloc, ty);
        }
        let mut members = Vec::new(self.alloc);
        let placed = self.placed_of(id)?;
        for alternative in &placed {
            members.push(Member {
                name: alternative.name,
                type_id: alternative.type_id,
                is_optional: false,
            })?;
        }
        Ok(members)
    }

    /// Returns the names of the variants of alternatives. Where two would have the same name, that
    /// of one in a CHOICE within the outer one begins with the name of that.
    pub(crate) fn variants_of(&self, placed: &[Placed<'_>]) -> Result<Vec<String>, AllocError> {
        let mut counts: BTreeMap<String, usize> = BTreeMap::new(self.alloc);
        for alternative in placed {
            let small = self.small_variant(alternative.name)?;
            let count = counts.get(small.as_str()).copied().unwrap_or(0);
            counts.insert(small, count.saturating_add(1))?;
        }
        let mut variants = Vec::new(self.alloc);
        for alternative in placed {
            let small = self.small_variant(alternative.name)?;
            let is_alone = counts.get(small.as_str()).copied() == Some(1);
            variants.push(self.placed_variant(alternative, is_alone)?)?;
        }
        Ok(variants)
    }

    /// Returns the name of the variant of an alternative, which no other has if it is alone.
    fn placed_variant(&self, placed: &Placed<'_>, is_alone: bool) -> Result<String, AllocError> {
        if is_alone || placed.outer.is_empty() {
            return variant(self.alloc, placed.name);
        }
        let name = format!(in self.alloc; "{}-{}", placed.outer, placed.name)?;
        variant(self.alloc, name.as_str())
    }

    /// Returns the name of a variant in small letters.
    fn small_variant(&self, name: &str) -> Result<String, AllocError> {
        let variant = variant(self.alloc, name)?;
        variant.as_str().to_ascii_lowercase(self.alloc)
    }
}
