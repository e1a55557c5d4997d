//! Whether the types of a library mean what they do in a schema of their own.

use crate::same::are_same;
use rasn_compiler::{Library, Modules, Resolved, Root, Source, Stop, Unresolved};
use std::alloc::{AllocError, Global};
use std::fs;
use std::io::{self, Write};

/// Prints the types of a file of modules, or of these modules if it names none, that mean something
/// else in the library of all types than in a schema of their own, or have another fault.
pub fn print_library<W: Write>(
    rt: &HostRuntime,
    read: &Modules<'_>,
    name: &str,
    output: &mut W,
) -> io::Result<()> {
    let alloc = rt.alloc();
    if name.is_empty() {
        return print_others(alloc, read, output);
    }
    let text = fs::read_to_string(rt, name)?;
    let sources = [Source {
        name,
        text: text.as_str(),
    }];
    print_others(alloc, &Modules::parse(alloc, &sources)?, output)
}

/// Prints the types of these modules that mean something else, or that there are none.
fn print_others<W: Write>(alloc: Global, read: &Modules<'_>, output: &mut W) -> io::Result<()> {
    let types = read.types(alloc)?;
    let library = read.library(alloc, &types)?;
    let others = print_roots(alloc, read, &library, output)?;
    let faults = print_faults(alloc, read, &library, output)?;
    let count = library.roots.len().saturating_add(library.faults.len());
    if others == 0 && faults == 0 && count == types.len() {
        writeln!(output, "library\tthe same")?;
    }
    Ok(())
}

/// Prints the types of the library that mean something else, and returns how many do.
fn print_roots<W: Write>(
    alloc: Global,
    read: &Modules<'_>,
    library: &Library<'_>,
    output: &mut W,
) -> io::Result<usize> {
    let mut others = 0usize;
    for root in &library.roots {
        if !is_same(alloc, read, library, root)? {
            others = others.saturating_add(1);
            writeln!(output, "library\t{}.{}\tanother", root.module, root.name)?;
        }
    }
    Ok(others)
}

/// Prints the types without a meaning in the library that have another fault alone, and returns how
/// many have.
fn print_faults<W: Write>(
    alloc: Global,
    read: &Modules<'_>,
    library: &Library<'_>,
    output: &mut W,
) -> io::Result<usize> {
    let mut others = 0usize;
    for found in &library.faults {
        if !is_same_fault(alloc, read, found)? {
            others = others.saturating_add(1);
            let fault = &found.fault;
            writeln!(output, "library\t{}.{}\t{fault}", found.module, found.name)?;
        }
    }
    Ok(others)
}

/// Returns whether a type means the same in a schema of its own.
fn is_same(
    alloc: Global,
    read: &Modules<'_>,
    library: &Library<'_>,
    root: &Root<'_>,
) -> Result<bool, AllocError> {
    match read.schema(alloc, root.module, root.name) {
        Ok(alone) => is_alone(alloc, library, root, &alone),
        Err(Stop::OutOfMemory) => Err(AllocError),
        Err(Stop::Fault(_)) => Ok(false),
    }
}

/// Returns whether a type of the library is this one.
fn is_alone(
    alloc: Global,
    library: &Library<'_>,
    root: &Root<'_>,
    alone: &Resolved,
) -> Result<bool, AllocError> {
    let unchecked = library.unchecked(alloc, root.type_id)?;
    let found = library.find(root.name).is_some();
    let schema = &library.schema;
    let is_same = are_same(alloc, schema, root.type_id, &alone.schema, alone.root)?;
    Ok(is_same && found && unchecked == alone.unchecked)
}

/// Returns whether a type alone has the same fault.
fn is_same_fault(
    alloc: Global,
    read: &Modules<'_>,
    found: &Unresolved<'_>,
) -> Result<bool, AllocError> {
    match read.schema(alloc, found.module, found.name) {
        Ok(_) => Ok(false),
        Err(Stop::OutOfMemory) => Err(AllocError),
        Err(Stop::Fault(fault)) => Ok(fault == found.fault),
    }
}
