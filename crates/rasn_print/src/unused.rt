//! Types of modules that no other type uses.

use rasn_compiler::{
    Actual, Assigned, Assignment, Base, Component, Given, Modules, TypeIndex, TypeRef,
};
use std::alloc::{AllocError, Global};
use std::collections::BTreeMap;

/// The names that types of modules use.
type Names<'text> = BTreeMap<&'text str, ()>;

/// Returns those of these types, which are some of their modules, whose name is in no other type of
/// these modules.
///
/// # Errors
/// `AllocError` if memory runs out.
pub(crate) fn unused_types<'text>(
    alloc: Global,
    read: &Modules<'text>,
    types: &[TypeRef<'text>],
) -> Result<Vec<TypeRef<'text>>, AllocError> {
    let mut names = BTreeMap::new(alloc);
    let mut last = None;
    for of in types {
        if last != Some(of.module) {
            add_names(&mut names, alloc, read, of.module)?;
            last = Some(of.module);
        }
    }
    let mut unused = Vec::new(alloc);
    for of in types {
        if !names.contains_key(&of.name) {
            unused.push(*of)?;
        }
    }
    Ok(unused)
}

/// Adds the names that types of the module with this index use, except of each its own.
fn add_names<'text>(
    names: &mut Names<'text>,
    alloc: Global,
    read: &Modules<'text>,
    module: usize,
) -> Result<(), AllocError> {
    let Some(module) = read.modules.get(module) else {
        return Ok(());
    };
    for assignment in &module.assignments {
        let Assigned::Type(index) = assignment.assigned else {
            continue;
        };
        let mut inner = vec![in alloc; index]?;
        // Each type is in one assignment, once.
        for next in 0..module.types.len() {
            let Some(TypeIndex(index)) = inner.get(next).copied() else {
                break;
            };
            if let Some(ty) = module.types.get(index) {
                add_base(names, &mut inner, assignment, &ty.base)?;
            }
        }
    }
    Ok(())
}

/// Adds the name that a type is, and lists the types that are in it.
fn add_base<'text>(
    names: &mut Names<'text>,
    inner: &mut Vec<TypeIndex>,
    assignment: &Assignment<'text>,
    base: &Base<'text>,
) -> Result<(), AllocError> {
    match base {
        Base::Reference { name, actuals, .. } => {
            if *name != assignment.name {
                names.insert(*name, ())?;
            }
            add_actuals(inner, actuals.as_slice())
        }
        Base::Sequence(components) | Base::Set(components) | Base::Choice(components) => {
            add_components(inner, components.as_slice())
        }
        Base::SequenceOf(list) | Base::SetOf(list) => Ok(inner.push(list.element)?),
        Base::Selection { of, .. } => Ok(inner.push(*of)?),
        Base::ClassField { class, .. } => Ok(inner.push(*class)?),
        Base::Builtin(_)
        | Base::Integer(_)
        | Base::BitString(_)
        | Base::Enumerated(_)
        | Base::AnyDefinedBy(_)
        | Base::Class(_)
        | Base::InstanceOf(_) => Ok(()),
    }
}

/// Lists the types that are given for parameters.
fn add_actuals(inner: &mut Vec<TypeIndex>, actuals: &[Actual<'_>]) -> Result<(), AllocError> {
    for actual in actuals {
        if let Given::Type(index) = actual.given {
            inner.push(index)?;
        }
    }
    Ok(())
}

/// Lists the types of components.
fn add_components(
    inner: &mut Vec<TypeIndex>,
    components: &[Component<'_>],
) -> Result<(), AllocError> {
    for component in components {
        match component {
            Component::Named { of, .. } | Component::Of(of) => inner.push(*of)?,
            Component::Marker(_) => {}
        }
    }
    Ok(())
}
