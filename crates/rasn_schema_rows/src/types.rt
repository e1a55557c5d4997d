//! What the types of a file of modules are.

use crate::modules::is_plain_type;
use crate::show::shown;
use rasn_compiler::{Module, Modules, Resolved, Source};
use std::alloc::Global;
use std::fs;
use std::io::{self, Write};

/// Prints what a row asks of a file of modules.
pub fn print_file<W: Write>(
    rt: &HostRuntime,
    verb: &str,
    name: &str,
    output: &mut W,
) -> io::Result<()> {
    let text = fs::read_to_string(rt, name)?;
    let sources = [Source {
        name,
        text: text.as_str(),
    }];
    let read = Modules::parse(rt.alloc(), &sources)?;
    match verb {
        "warnings" => print_warnings(rt.alloc(), &read, output),
        "identifiers" => print_identifiers(rt.alloc(), &read, output),
        _ => print_types(rt.alloc(), &read, output),
    }
}

/// Prints the faults of modules, and the schema of each type or why it has none.
fn print_types<W: Write>(alloc: Global, read: &Modules<'_>, output: &mut W) -> io::Result<()> {
    for fault in &read.faults {
        writeln!(output, "{fault}")?;
    }
    for module in &read.modules {
        print_module(alloc, read, module, output)?;
    }
    Ok(())
}

/// Prints what is wrong in modules and spoils none of their types.
fn print_warnings<W: Write>(alloc: Global, read: &Modules<'_>, output: &mut W) -> io::Result<()> {
    for warning in &read.warnings(alloc)? {
        writeln!(output, "{warning}")?;
    }
    Ok(())
}

/// Prints the values of modules that are identifiers.
fn print_identifiers<W: Write>(
    alloc: Global,
    read: &Modules<'_>,
    output: &mut W,
) -> io::Result<()> {
    for found in &read.identifiers(alloc)? {
        writeln!(output, "{} {}", found.name, found.identifier)?;
    }
    Ok(())
}

/// Prints the types of a module, a line for each. Those of the module `Shown` are printed as
/// modules.
fn print_module<'text, W: Write>(
    alloc: Global,
    read: &Modules<'text>,
    module: &Module<'text>,
    output: &mut W,
) -> io::Result<()> {
    for assignment in &module.assignments {
        let name = assignment.name;
        if is_plain_type(assignment) && !read.is_class(module.name, name) {
            print_type(alloc, read, (module.name, name), output)?;
        }
    }
    Ok(())
}

/// Prints a type, or why it has no schema.
fn print_type<W: Write>(
    alloc: Global,
    read: &Modules<'_>,
    (module, name): (&str, &str),
    output: &mut W,
) -> io::Result<()> {
    match read.schema(alloc, module, name) {
        Ok(resolved) => print_schema(alloc, &resolved, (module, name), output),
        Err(stop) => writeln!(output, "{name}: {stop}"),
    }
}

/// Prints a type that has a schema.
fn print_schema<W: Write>(
    alloc: Global,
    resolved: &Resolved,
    (module, name): (&str, &str),
    output: &mut W,
) -> io::Result<()> {
    if module == "Shown" {
        let notation = resolved.notation(alloc)?;
        return write!(output, "{notation}");
    }
    let shown = shown(alloc, resolved)?;
    writeln!(output, "{name}: {shown}")
}
