//! The types that a crate is written of.
ghost use Rattle.std.specs.Prelude.{◌≡◌, [], IfOk};

use crate::options::Options;
use crate::template::push_separator;
use rasn_compiler::{Library, Module, Modules, TypeRef, Unresolved};
use rasn_schema::{Schema, TypeId};
use std::alloc::{AllocError, Global};
use std::collections::BTreeSet;

/// The types that a crate is written of, in one schema.
#[derive(Drop)]
pub struct Held {
    /// The types, and those that they are made of.
    pub schema: Schema,
    /// The types for which files are written.
    pub(crate) wanted: Vec<TypeId>,
    /// The types that another crate has, with its name.
    pub(crate) foreign: Vec<(TypeId, String)>,
    /// The names of the modules that these files are written from, with commas between them.
    pub(crate) modules: String,
}

/// Returns the types without parameters of the first `wanted` modules, for which files are written,
/// and of the modules that they import, or why the first one that is asked for has no schema. Of
/// types with the same name the first one counts. Another one without a schema is left out.
///
/// # Errors
/// `AllocError` if memory runs out.
pub fn types_held<'text>(
    options: &Options,
    read: &Modules<'text>,
    wanted: usize,
) -> Result<Result<Held, Unresolved<'text>>, AllocError>
    ensures { wanted ≡ 0 → IfOk result (λ found. IfOk found (λ held. held.wanted.items ≡ [])) }
{
    let alloc = options.alloc;
    let modules = first_names(alloc, read, wanted)?;
    let types = named_once(alloc, read, wanted)?;
    let Library {
        schema,
        roots,
        faults,
        ..
    } = read.library(alloc, types.as_slice())?;
    for found in &faults {
        if options.is_wanted(found.name) {
            return Ok(Err(*found));
        }
    }
    let mut held = Held {
        schema,
        wanted: Vec::new(alloc),
        foreign: Vec::new(alloc),
        modules,
    };
    for root in &roots {
        if root.index < wanted {
            held.wanted.push(root.type_id)?;
        } else if let Some(crate_name) = options.crate_of(root.module) {
            let crate_name = String::from_str(alloc, crate_name)?;
            held.foreign.push((root.type_id, crate_name))?;
        }
    }
    Ok(Ok(held))
}

/// Returns the names of the first modules, as many as `wanted`, with commas between them.
fn first_names(alloc: Global, read: &Modules<'_>, wanted: usize) -> Result<String, AllocError> {
    let mut names = String::new(alloc);
    for module in read.modules.iter().take(wanted) {
        push_separator(&mut names, ", ")?;
        names.push_str(module.name)?;
    }
    Ok(names)
}

/// Returns the types without parameters of the first modules, as many as `wanted`, and of those that
/// they import, each name once.
fn named_once<'text>(
    alloc: Global,
    read: &Modules<'text>,
    wanted: usize,
) -> Result<Vec<TypeRef<'text>>, AllocError> {
    let imported = imported(alloc, read, wanted)?;
    let mut names = BTreeSet::new(alloc);
    let mut types = Vec::new(alloc);
    for of in &read.types(alloc)? {
        let Some(module) = read.modules.get(of.module) else {
            continue;
        };
        let is_held = of.module < wanted || imported.contains(module.name);
        if is_held && names.insert(of.name)? {
            types.push(*of)?;
        }
    }
    Ok(types)
}

/// Returns the names of the modules that the first ones import, as many as `wanted`, and of those
/// that these import.
fn imported(
    alloc: Global,
    read: &Modules<'_>,
    wanted: usize,
) -> Result<BTreeSet<String>, AllocError> {
    let mut names = BTreeSet::new(alloc);
    for module in read.modules.iter().take(wanted) {
        add_imports(alloc, &mut names, module)?;
    }
    for _ in 0..read.modules.len() {
        add_further_imports(alloc, &mut names, read)?;
    }
    Ok(names)
}

/// Adds the names of the modules that those with these names import.
fn add_further_imports(
    alloc: Global,
    names: &mut BTreeSet<String>,
    read: &Modules<'_>,
) -> Result<(), AllocError> {
    for module in &read.modules {
        if names.contains(module.name) {
            add_imports(alloc, names, module)?;
        }
    }
    Ok(())
}

/// Adds the names of the modules that this one imports.
fn add_imports(
    alloc: Global,
    names: &mut BTreeSet<String>,
    module: &Module<'_>,
) -> Result<(), AllocError> {
    for import in &module.imports {
        names.insert(String::from_str(alloc, import.module)?)?;
    }
    Ok(())
}
