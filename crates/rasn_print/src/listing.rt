//! Lists of the types of modules, and types as modules.

use crate::catalog::{CONTENTS, named_type};
use crate::command_line::Call;
use crate::fault::CallFault;
use crate::work::printed;
use rasn_compiler::{Library, Modules, Root, Stop, TypeRef};
use rasn_text::{Escaping, visible};
use std::alloc::{AllocError, Global};
use std::collections::BTreeMap;
use std::io::Write;

/// Prints the type that a call names as a module, with the types that it is made of, or else a line
/// for each type of the modules that aren't built in if the call has modules, and of those that are
/// if it has none. Returns whether each has a schema.
///
/// # Errors
/// `Call` if the type isn't known, or has no schema. `Write` if the output can't be written,
/// `Closed` if its reader has gone, `Memory` if memory runs out.
pub fn print_types<W: Write>(
    alloc: Global,
    read: &Modules<'_>,
    call: &Call,
    output: &mut W,
) -> Result<bool, CallFault> {
    match &call.type_name {
        Some(name) => {
            print_notation(alloc, read, name.as_str(), output)?;
            Ok(true)
        }
        None => print_lines(alloc, read, !call.modules.is_empty(), output),
    }
}

/// Prints a type of the modules as a module, with the types that it is made of.
fn print_notation<W: Write>(
    alloc: Global,
    read: &Modules<'_>,
    name: &str,
    output: &mut W,
) -> Result<(), CallFault> {
    let of = named_type(alloc, read, name)?;
    let module = match read.modules.get(of.module) {
        Some(module) => module.name,
        None => "",
    };
    match read.schema(alloc, module, of.name) {
        Ok(resolved) => {
            let text = resolved.notation(alloc)?.to_string(alloc)?;
            let text = printed(alloc, Escaping::Lines, text)?;
            output
                .write_all(text.as_bytes())
                .map_err(CallFault::of_write)
        }
        Err(Stop::Fault(fault)) => Err(CallFault::of_call(alloc, &fault)),
        Err(Stop::OutOfMemory) => Err(CallFault::Memory),
    }
}

/// Prints a line for each type of the modules that aren't built in, or else of those that are: its
/// name, the number of its constraints and contents that aren't checked, or why it has no schema. Of
/// two modules of one name the first counts. Returns whether each has a schema.
fn print_lines<W: Write>(
    alloc: Global,
    read: &Modules<'_>,
    are_own: bool,
    output: &mut W,
) -> Result<bool, CallFault> {
    let (own, built_in) = types_by_origin(alloc, read)?;
    let types = if are_own { own } else { built_in };
    let library = read.library(alloc, types.as_slice())?;
    let (mut faults, mut roots) = (0usize, 0usize);
    for of in &types {
        let line = match (library.faults.get(faults), library.roots.get(roots)) {
            (Some(found), _) if found.index == of.module && found.name == of.name => {
                faults = faults.saturating_add(1);
                format!(in alloc; "{}.{}: {}", found.module, found.name, found.fault)?
            }
            (_, Some(root)) => {
                roots = roots.saturating_add(1);
                root_line(alloc, &library, root)?
            }
            (_, None) => break,
        };
        let line = visible(alloc, Escaping::Line, line.as_str())?;
        writeln!(output, "{line}").map_err(CallFault::of_write)?;
    }
    Ok(library.faults.is_empty())
}

/// Returns the types of modules that aren't built in, and of all others but the module of what is in
/// open types. Of two modules of one name the types of the first count.
pub(crate) fn types_by_origin<'text>(
    alloc: Global,
    read: &Modules<'text>,
) -> Result<(Vec<TypeRef<'text>>, Vec<TypeRef<'text>>), AllocError> {
    let hidden = read.built_in(CONTENTS, "Universal").map(|of| of.module);
    let mut first = BTreeMap::new(alloc);
    for (index, module) in read.modules.iter().enumerate() {
        if Some(index) != hidden && !first.contains_key(&module.name) {
            first.insert(module.name, index)?;
        }
    }
    let mut own = Vec::new(alloc);
    let mut built_in = Vec::new(alloc);
    for of in &read.types(alloc)? {
        let Some(module) = read.modules.get(of.module) else {
            continue;
        };
        if first.get(&module.name).copied() != Some(of.module) {
            continue;
        }
        if is_built_in(read, module.name, *of) {
            built_in.push(*of)?;
        } else {
            own.push(*of)?;
        }
    }
    Ok((own, built_in))
}

/// Returns whether the module of this name that has a type is built in.
fn is_built_in(read: &Modules<'_>, module: &str, of: TypeRef<'_>) -> bool {
    match read.built_in(module, of.name) {
        Some(built_in) => built_in.module == of.module,
        None => false,
    }
}

/// Returns the line of a type that has a schema.
fn root_line(alloc: Global, library: &Library<'_>, root: &Root<'_>) -> Result<String, AllocError> {
    let (module, name) = (root.module, root.name);
    match library.unchecked(alloc, root.type_id)? {
        0 => format!(in alloc; "{module}.{name}"),
        count => format!(in alloc;
            "{module}.{name}: constraints and contents that aren't checked: {count}"
        ),
    }
}
