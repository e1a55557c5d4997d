//! What is wrong in a module and spoils none of its types.
use crate::fault::{Fault, Halt, Problem};
use crate::modules::Modules;
use crate::position::Position;
use crate::resolver::{MAX_NAMES, Place, Resolver};
use crate::steps::Steps;
use crate::tree::{
    Assigned, Assignment, Base, Builtin, Import, Meaning, Module, Tag, TagClass, Tagging, Type,
    TypeIndex, Value,
};
use std::alloc::{AllocError, Global};
use std::collections::BTreeSet;

/// How many types are followed to find out whether a tag may be implicit.
const MAX_FOLLOWED: usize = 100_000;

/// The modules that are looked at, and what was found in them.
#[derive(Drop)]
struct Search<'modules, 'text> {
    /// What reads values.
    resolver: Resolver<'modules, 'text>,
    /// What each module exports, unless that is all.
    exported: Vec<Option<BTreeSet<&'text str>>>,
    /// How many types may still be followed.
    followed: usize,
    found: Vec<Fault<'text>>,
}

impl<'text> Modules<'text> {
    /// Returns what is wrong in the modules that aren't built in and spoils none of their types, in
    /// the order of the texts: what EXPORTS and IMPORTS name and isn't there (X.680 13.12, 13.16),
    /// a name that has two meanings, tags that may not be (31.2), constraints of another kind than
    /// their type (51), and values that aren't of their type (16).
    ///
    /// # Errors
    /// `AllocError` if memory runs out.
    pub fn warnings(&self, alloc: Global) -> Result<Vec<Fault<'text>>, AllocError> {
        let mut search = Search::new(alloc, self)?;
        let mut names = BTreeSet::new(alloc);
        for (index, module) in self.modules.iter().enumerate() {
            if self.is_built_in(index) {
                break;
            }
            if !names.insert(module.name)? {
                search.warn(module, module.position, module.name, SECOND_MODULE)?;
            }
            search.look_at_exports(module)?;
            search.look_at_imports(module)?;
            search.look_at_types(index, module)?;
            search.look_at_values(index, module)?;
        }
        let Search { found, .. } = search;
        Ok(found)
    }
}

/// What is wrong about the name of a module that an earlier one has.
const SECOND_MODULE: &str = "is the name of an earlier module too, which it means (X.680 13)";

/// What is wrong about an implicit tag of a type without a tag.
const NO_TAG: &str = "is before a CHOICE or an open type, where a tag is explicit (X.680 31.2.9)";

/// Returns what EXPORTS names, unless it names all.
fn exported<'text>(
    alloc: Global,
    module: &Module<'text>,
) -> Result<Option<BTreeSet<&'text str>>, AllocError> {
    let Some(symbols) = &module.exports else {
        return Ok(None);
    };
    let mut names = BTreeSet::new(alloc);
    for symbol in symbols {
        let _ = names.insert(symbol.name)?;
    }
    Ok(Some(names))
}

/// Returns the fault of a value of this name that isn't one of its type, or that is made of a name
/// that isn't defined.
fn value_fault<'text, T: Drop>(
    read: Result<T, Halt<'text>>,
    name: &'text str,
) -> Result<Option<Fault<'text>>, AllocError> {
    let fault = match read {
        Ok(_) => return Ok(None),
        Err(Halt::OutOfMemory) => return Err(AllocError),
        Err(Halt::Fault(fault)) => *fault,
    };
    let problem = match fault.problem {
        Problem::Broken(_) | Problem::Expected(_) => {
            Problem::Doubtful(name, "isn't a value of its type (X.680 16)")
        }
        Problem::Undefined(part) if part.starts_with(|first: char| first.is_ascii_lowercase()) => {
            Problem::Doubtful(part, "isn't defined, in a value (X.680 13)")
        }
        Problem::Undefined(_)
        | Problem::Unexpected { .. }
        | Problem::Beyond(_)
        | Problem::OutOfSteps
        | Problem::NotLoaded(_)
        | Problem::Endless(_)
        | Problem::Doubtful(_, _)
        | Problem::Clash(_, _)
        | Problem::Unsupported(_) => return Ok(None),
    };
    Ok(Some(Fault { problem, ..fault }))
}

impl<'modules, 'text> Search<'modules, 'text> {
    /// Returns a search in which nothing was found yet.
    fn new(
        alloc: Global,
        modules: &'modules Modules<'text>,
    ) -> Result<Search<'modules, 'text>, AllocError> {
        let mut names = Vec::with_capacity(alloc, modules.modules.len())?;
        for module in &modules.modules {
            names.push(exported(alloc, module)?)?;
        }
        Ok(Search {
            resolver: Resolver {
                alloc,
                modules,
                unchecked: 0,
                scopes: Vec::new(alloc),
                steps: Steps::new(Steps::OF_A_TYPE),
            },
            exported: names,
            followed: MAX_FOLLOWED,
            found: Vec::new(alloc),
        })
    }

    /// Adds the values that aren't of their type (X.680 16). Objects of a class (X.681 11), and what
    /// has parameters, aren't looked at.
    fn look_at_values(&mut self, index: usize, module: &Module<'text>) -> Result<(), AllocError> {
        for assignment in &module.assignments {
            if let Assigned::Value { of, value } = assignment.assigned {
                if assignment.parameters.is_none() && !self.is_of_class(index, module, of) {
                    self.look_at_value(index, assignment, of, value)?;
                }
            }
        }
        Ok(())
    }

    /// Returns whether a governor in a module is the name of a class (X.681 11).
    fn is_of_class(&self, index: usize, module: &Module<'text>, of: TypeIndex) -> bool {
        let Some(governor) = module.types.get(of.0) else {
            return false;
        };
        let Base::Reference {
            module: outside,
            name,
            ..
        } = &governor.base
        else {
            return false;
        };
        let modules = self.resolver.modules;
        modules.is_class_at(index, *outside, name, governor.position)
    }

    /// Adds that a value isn't of its type (X.680 16), unless it is.
    fn look_at_value(
        &mut self,
        index: usize,
        assignment: &Assignment<'text>,
        of: TypeIndex,
        value: Value<'text>,
    ) -> Result<(), AllocError> {
        let read = self
            .resolver
            .default_value(Place::of(index), of, value, assignment.position);
        if let Some(fault) = value_fault(read, assignment.name)? {
            self.found.push(fault)?;
        }
        Ok(())
    }

    /// Adds what is wrong about a name at a place.
    fn warn(
        &mut self,
        module: &Module<'text>,
        position: Position,
        name: &'text str,
        rule: &'static str,
    ) -> Result<(), AllocError> {
        self.found.push(Fault {
            source: module.source,
            position,
            problem: Problem::Doubtful(name, rule),
        })?;
        Ok(())
    }

    /// Adds the names in EXPORTS that aren't there (X.680 13.12).
    fn look_at_exports(&mut self, module: &Module<'text>) -> Result<(), AllocError> {
        let Some(symbols) = &module.exports else {
            return Ok(());
        };
        for symbol in symbols {
            if !module.meanings.contains_key(symbol.name) {
                let rule = "is exported, but neither defined nor imported (X.680 13.12)";
                self.warn(module, symbol.position, symbol.name, rule)?;
            }
        }
        Ok(())
    }

    /// Adds the names in IMPORTS that aren't there (X.680 13.16).
    fn look_at_imports(&mut self, module: &Module<'text>) -> Result<(), AllocError> {
        for (index, import) in module.imports.iter().enumerate() {
            self.look_at_import(module, index, import)?;
        }
        Ok(())
    }

    /// Adds the names of an import that aren't there.
    fn look_at_import(
        &mut self,
        module: &Module<'text>,
        index: usize,
        import: &Import<'text>,
    ) -> Result<(), AllocError> {
        for symbol in &import.symbols {
            if let Some(rule) = self.rule_of_import(module, index, import, symbol.name) {
                self.warn(module, symbol.position, symbol.name, rule)?;
            }
        }
        Ok(())
    }

    /// Returns the rule that a name in IMPORTS breaks. Of a module that isn't among the texts
    /// nothing is known.
    fn rule_of_import(
        &self,
        module: &Module<'text>,
        index: usize,
        import: &Import<'text>,
        name: &str,
    ) -> Option<&'static str> {
        match module.meanings.get(name)? {
            Meaning::Assigned(_) => {
                return Some("is imported and defined, and means what is defined (X.680 14)");
            }
            Meaning::Imported(first) if *first != index => {
                return Some("is imported twice, and means what the first is (X.680 14)");
            }
            Meaning::Imported(_) => {}
        }
        let modules = self.resolver.modules;
        let other = modules.index_of(import.module)?;
        if !modules.modules.get(other)?.meanings.contains_key(name) {
            return Some("isn't defined in the module that it is imported from (X.680 13.16)");
        }
        match self.exported.get(other)? {
            Some(names) if !names.contains(name) => {
                Some("isn't exported by the module that it is imported from (X.680 13.16)")
            }
            Some(_) | None => None,
        }
    }

    /// Adds what is wrong about the tags and the constraints of types.
    fn look_at_types(&mut self, index: usize, module: &Module<'text>) -> Result<(), AllocError> {
        for ty in &module.types {
            self.look_at_classes(module, ty)?;
            self.look_at_constraints(module, ty)?;
            if let Some(tag) = implicit(ty) {
                if self.has_no_tag(index, ty) {
                    self.warn(module, tag.position, "IMPLICIT", NO_TAG)?;
                }
            }
        }
        Ok(())
    }

    /// Adds the tags of the class UNIVERSAL (X.680 31.2).
    fn look_at_classes(
        &mut self,
        module: &Module<'text>,
        ty: &Type<'text>,
    ) -> Result<(), AllocError> {
        for tag in &ty.tags {
            if tag.class == TagClass::Universal {
                let rule = "is the class of the standard's own types (X.680 31.2)";
                self.warn(module, tag.position, "UNIVERSAL", rule)?;
            }
        }
        Ok(())
    }

    /// Adds the constraints that the values of a type can't have (X.680 51).
    fn look_at_constraints(
        &mut self,
        module: &Module<'text>,
        ty: &Type<'text>,
    ) -> Result<(), AllocError> {
        for constraint in &ty.constraints {
            if let Some((name, rule)) = misplaced(&ty.base, constraint.text) {
                self.warn(module, constraint.position, name, rule)?;
            }
        }
        Ok(())
    }

    /// Returns whether a type of a module, within its own tags, is a CHOICE or an open type without
    /// one.
    fn has_no_tag(&mut self, module: usize, ty: &Type<'text>) -> bool {
        let modules = self.resolver.modules;
        let Some(mut named) = referred(modules, module, ty) else {
            return is_without_tag(&ty.base);
        };
        for _ in 0..MAX_NAMES {
            if self.followed == 0 {
                return false;
            }
            self.followed = self.followed.saturating_sub(1);
            let Ok(ty) = modules.type_at(named.0, named.1) else {
                return false;
            };
            if !ty.tags.is_empty() {
                return false;
            }
            let Some(next) = referred(modules, named.0, ty) else {
                return is_without_tag(&ty.base);
            };
            named = next;
        }
        false
    }
}

/// Returns the module and the index there of the type that another one names, without parameters.
fn referred<'text>(
    modules: &Modules<'text>,
    module: usize,
    ty: &Type<'text>,
) -> Option<(usize, usize)> {
    let Base::Reference {
        module: outside,
        name,
        actuals,
    } = &ty.base
    else {
        return None;
    };
    if !actuals.is_empty() {
        return None;
    }
    let Ok((found, assignment)) = modules.meaning(module, *outside, name, ty.position) else {
        return None;
    };
    let Assigned::Type(of) = assignment.assigned else {
        return None;
    };
    Some((found, of.0))
}

/// Returns the innermost tag of a type, if IMPLICIT follows it.
fn implicit<'ty, 'text>(ty: &'ty Type<'text>) -> Option<&'ty Tag<'text>> {
    let tag = ty.tags.last()?;
    if tag.tagging == Some(Tagging::Implicit) {
        Some(tag)
    } else {
        None
    }
}

/// Returns whether a type that is no reference is one without a tag.
fn is_without_tag(base: &Base<'_>) -> bool {
    matches!(
        base,
        Base::Choice(_) | Base::AnyDefinedBy(_) | Base::Builtin(Builtin::Any)
    )
}

/// Returns what a constraint of a type begins with, if that is of another kind than its values, and
/// the rule. What a reference leads to isn't looked at.
fn misplaced(base: &Base<'_>, text: &str) -> Option<(&'static str, &'static str)> {
    if text.starts_with("SIZE") && has_no_size(base) {
        return Some((
            "SIZE",
            "is of a type whose values have no size (X.680 51.5)",
        ));
    }
    if !text.contains("..") {
        return None;
    }
    if text.starts_with("MAX") {
        return Some((
            "MAX",
            "begins a range, which MIN or a value begins (X.680 51.4)",
        ));
    }
    if text.starts_with(|first: char| first.is_ascii_digit()) && has_no_number(base) {
        return Some((
            "a range of numbers",
            "is of a type of other values (X.680 51.4)",
        ));
    }
    if text.starts_with('"') && matches!(base, Base::Integer(_)) {
        return Some((
            "a range of characters",
            "is of a type of numbers (X.680 51.4)",
        ));
    }
    None
}

/// Returns whether the values of a type have no size.
fn has_no_size(base: &Base<'_>) -> bool {
    matches!(
        base,
        Base::Integer(_)
            | Base::Enumerated(_)
            | Base::Sequence(_)
            | Base::Set(_)
            | Base::Choice(_)
            | Base::Builtin(
                Builtin::Boolean | Builtin::Null | Builtin::Real | Builtin::ObjectIdentifier
            )
    )
}

/// Returns whether the values of a type are no numbers.
fn has_no_number(base: &Base<'_>) -> bool {
    matches!(
        base,
        Base::BitString(_)
            | Base::Enumerated(_)
            | Base::Sequence(_)
            | Base::Set(_)
            | Base::Choice(_)
            | Base::Builtin(
                Builtin::Boolean
                    | Builtin::Null
                    | Builtin::OctetString
                    | Builtin::ObjectIdentifier
                    | Builtin::Utf8String
                    | Builtin::Ia5String
                    | Builtin::VisibleString
                    | Builtin::PrintableString
                    | Builtin::NumericString
            )
    )
}
