//! The types as a constant, with the impls that say which type of the constant each Rattle type is.
use crate::bounds::static_bounds;
use crate::kinds::{is_alias, typed_kind};
use crate::layout::{List, listed};
use crate::plan::Plan;
use crate::tags::static_tag;
use crate::twins::constraints_of;
use rasn_schema::{Component, NamedNumber, Presence, Type, TypeId, Value};
use std::alloc::{AllocError, Global};
use std::collections::BTreeMap;

/// What precedes the types.
const HEAD: &str = "//! The types as data, for what reads and writes by a schema.
use rasn_schema::constants::prelude::*;

/// The types, which refer to one another by their numbers. A CHOICE has the alternatives of those
/// that are alternatives of it, and what this crate has as open types is open.
pub const TYPES: &[StaticType] = &[
";

/// The text of a constant.
#[derive(Drop)]
struct Constant<'plan, 'schema> {
    plan: &'plan Plan<'schema>,
    alloc: Global,
    /// The numbers that the types have in the constant, by those that they have in the schema.
    numbers: BTreeMap<usize, usize>,
    text: String,
}

impl Plan<'_> {
    /// Returns the text of the file that has the types as a constant.
    pub(crate) fn static_text(&self) -> Result<String, AllocError> {
        let roots = self.static_roots()?;
        let mut constant = Constant {
            plan: self,
            alloc: self.alloc,
            numbers: self.static_numbers(&roots)?,
            text: String::from_str(self.alloc, HEAD)?,
        };
        for id in 0..self.schema.types().len() {
            if constant.numbers.contains_key(&id) {
                constant.push_type(id)?;
            }
        }
        constant.text.push_str("];\n")?;
        for (id, naming) in self.names.iter() {
            if roots.contains(id) {
                constant.push_impl(*id, naming.rust.as_str())?;
            }
        }
        let Constant { text, .. } = constant;
        Ok(text)
    }

    /// Returns whether a type of this crate is in the constant as it is written.
    pub(crate) fn has_static(&self, id: usize) -> Result<bool, AllocError> {
        let is_own = self.reached.contains(&id) && self.foreign_crate(id).is_none();
        if !is_own || is_alias(self.type_of(id)) || self.retagged.contains_key(&id) {
            return Ok(false);
        }
        Ok(self.reason_against(id)?.is_none() && !self.has_no_constant(id)?)
    }
}

impl Constant<'_, '_> {
    /// Adds a type.
    fn push_type(&mut self, id: usize) -> Result<(), AllocError> {
        let text = self.type_text(id)?;
        let text = text.as_str().replace(self.alloc, "\n", "\n    ")?;
        writeln!(self.text, "    {text},")
    }

    /// Returns the text of a type.
    fn type_text(&self, id: usize) -> Result<String, AllocError> {
        let ty = self.plan.type_of(id);
        let tag = static_tag(self.alloc, ty.tag())?;
        let tag = tag.as_str();
        if matches!(ty, Type::Any { .. }) || self.plan.reason_against(id)?.is_some() {
            return listed(self.alloc, "Any(", &[tag], ")");
        }
        match ty {
            Type::Leaf { kind, names, .. } => {
                let kind = typed_kind(*kind);
                let kind = format!(in self.alloc; "{kind:?}")?;
                let bounds = static_bounds(self.alloc, &constraints_of(ty))?;
                let names = self.numbers_text(names)?;
                let values = [kind.as_str(), tag, bounds.as_str(), names.as_str()];
                listed(self.alloc, "Leaf(", &values, ")")
            }
            Type::Enumerated { numbers, .. } => {
                let numbers = self.numbers_text(numbers)?;
                listed(self.alloc, "Enumerated(", &[tag, numbers.as_str()], ")")
            }
            Type::Choice { name, .. } => {
                let name = format!(in self.alloc; "\"{name}\"")?;
                let alternatives = self.alternatives_text(id)?;
                listed(
                    self.alloc,
                    "Choice(",
                    &[name.as_str(), alternatives.as_str()],
                    ")",
                )
            }
            holder => self.holder_text(holder, tag),
        }
    }

    /// Returns the text of a type that holds others, or of `Unknown`.
    fn holder_text(&self, ty: &Type, tag: &str) -> Result<String, AllocError> {
        match ty {
            Type::Tagged { inner, .. } => {
                let number = self.number_of(*inner);
                format!(in self.alloc; "Tagged({tag}, {number})")
            }
            Type::Sequence { components, .. } => {
                let components = self.components_text(components)?;
                listed(self.alloc, "Sequence(", &[tag, components.as_str()], ")")
            }
            Type::Set {
                name,
                components,
                ..
            } => {
                let name = format!(in self.alloc; "\"{name}\"")?;
                let components = self.components_text(components)?;
                listed(
                    self.alloc,
                    "Set(",
                    &[name.as_str(), tag, components.as_str()],
                    ")",
                )
            }
            Type::SequenceOf { element, .. } => self.list_text("SequenceOf(", ty, tag, *element),
            Type::SetOf { element, .. } => self.list_text("SetOf(", ty, tag, *element),
            _ => String::from_str(self.alloc, "Unknown"),
        }
    }

    /// Returns the text of a SEQUENCE OF or a SET OF.
    fn list_text(
        &self,
        word: &str,
        ty: &Type,
        tag: &str,
        element: TypeId,
    ) -> Result<String, AllocError> {
        let number = format!(in self.alloc; "{}", self.number_of(element))?;
        let bounds = static_bounds(self.alloc, &constraints_of(ty))?;
        listed(
            self.alloc,
            word,
            &[tag, number.as_str(), bounds.as_str()],
            ")",
        )
    }

    /// Returns the number of a type in the constant.
    fn number_of(&self, id: TypeId) -> usize {
        self.numbers.get(&id.0).copied().unwrap_or(id.0)
    }

    /// Returns the text of a CHOICE's alternatives.
    fn alternatives_text(&self, id: usize) -> Result<String, AllocError> {
        let mut list = List::new(self.alloc);
        let placed = self.plan.placed_of(id)?;
        for alternative in &placed {
            let name = format!(in self.alloc; "\"{}\"", alternative.name)?;
            let number = format!(in self.alloc; "{}", self.number_of(alternative.type_id))?;
            list.push_tuple(&[name.as_str(), number.as_str()])?;
        }
        list.between("&[", "]")
    }

    /// Returns the text of numbers with names.
    fn numbers_text(&self, numbers: &[NamedNumber]) -> Result<String, AllocError> {
        let mut list = List::new(self.alloc);
        for named in numbers {
            let name = format!(in self.alloc; "\"{}\"", named.name)?;
            let number = format!(in self.alloc; "{}", named.number)?;
            list.push_tuple(&[name.as_str(), number.as_str()])?;
        }
        list.between("&[", "]")
    }

    /// Returns the text of components.
    fn components_text(&self, components: &[Component]) -> Result<String, AllocError> {
        let mut list = List::new(self.alloc);
        for component in components {
            let name = format!(in self.alloc; "\"{}\"", component.name)?;
            let presence = presence_text(self.alloc, &component.presence)?;
            let number = format!(in self.alloc; "{}", self.number_of(component.type_id))?;
            list.push_tuple(&[name.as_str(), presence.as_str(), number.as_str()])?;
        }
        list.between("&[", "]")
    }

    /// Adds the impl that says which type of the constant a type is.
    fn push_impl(&mut self, id: usize, name: &str) -> Result<(), AllocError> {
        let number = self.number_of(TypeId(id));
        write!(self.text, "\nimpl HasSchema for crate::{name} {{\n")?;
        write!(self.text, "    ghost ID = {{ {number} }};\n\n")?;
        write!(self.text, "    const ID: usize = {number};\n\n")?;
        self.text.push_str("    fn types() -> &'static [StaticType] {\n        TYPES\n    }\n}\n")
    }
}

/// Returns the text that says whether a component may be absent. Other defaults than these aren't
/// written: the type that has them is an open type.
fn presence_text(alloc: Global, presence: &Presence) -> Result<String, AllocError> {
    match presence {
        Presence::Required => String::from_str(alloc, "Required"),
        Presence::Optional => String::from_str(alloc, "Optional"),
        Presence::Addition => String::from_str(alloc, "Addition"),
        Presence::Default(Value::Boolean(truth)) => format!(in alloc; "Default(Truth({truth}))"),
        Presence::Default(Value::Integer(number)) => {
            format!(in alloc; "Default(Number({number}))")
        }
        Presence::Default(_) => String::from_str(alloc, "Default(Empty)"),
    }
}
