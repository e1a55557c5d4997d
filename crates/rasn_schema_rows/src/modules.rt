//! The types of modules: how many there are, how many of them have a schema, and how many of these
//! schemas are read again from the module that they are shown as and from their octets.

use crate::same::are_same;
use crate::schema_octets::octets_difference;
use rasn_compiler::{Assigned, Assignment, Module, Modules, Resolved, Source};
use rasn_schema::constants::{StaticType, types_of};
use rasn_schema::{Schema, TypeId};
use rasn_schema_bench::{CERTIFICATE, CERTIFICATE_TYPES, FILTER, FILTER_TYPES};
use std::alloc::{AllocError, Global};
use std::io::{self, Write};

/// Prints the types of each module, and whether two types are those of the tables of
/// `rasn_schema_bench`.
pub fn print_modules<W: Write>(
    alloc: Global,
    read: &Modules<'_>,
    output: &mut W,
) -> io::Result<()> {
    for module in &read.modules {
        print_module(alloc, read, module, output)?;
    }
    let name = ("Certificates", "Certificate");
    print_table(alloc, read, name, (CERTIFICATE_TYPES, CERTIFICATE), output)?;
    print_table(
        alloc,
        read,
        ("LDAP", "Filter"),
        (FILTER_TYPES, FILTER),
        output,
    )
}

/// Prints which types of a module have no schema, and how many have one. Types with parameters
/// aren't counted.
fn print_module<'text, W: Write>(
    alloc: Global,
    read: &Modules<'text>,
    module: &Module<'text>,
    output: &mut W,
) -> io::Result<()> {
    let mut types = 0usize;
    let mut counts = Counts { loaded: 0, same: 0 };
    for assignment in &module.assignments {
        if is_plain_type(assignment) && !read.is_class(module.name, assignment.name) {
            types = types.saturating_add(1);
            print_type(
                alloc,
                read,
                (module.name, assignment.name),
                &mut counts,
                output,
            )?;
        }
    }
    let source = module.source;
    let name = module.name;
    let Counts { loaded, same } = counts;
    writeln!(
        output,
        "module\t{source}\t{name}\t{types}\t{loaded}\t{same}"
    )
}

/// How many types of a module have a schema, and how many of these schemas are read again from the
/// module that they are shown as and from their octets.
#[derive(Clone, Copy)]
struct Counts {
    loaded: usize,
    same: usize,
}

/// Returns whether an assignment is one of a type without parameters.
pub fn is_plain_type(assignment: &Assignment<'_>) -> bool {
    match assignment.assigned {
        Assigned::Type(_) => assignment.parameters.is_none(),
        _ => false,
    }
}

/// Counts a type, and prints why it has no schema, or why that isn't read again from the module
/// that it is shown as or from its octets.
fn print_type<'text, W: Write>(
    alloc: Global,
    read: &Modules<'text>,
    (module, name): (&'text str, &'text str),
    counts: &mut Counts,
    output: &mut W,
) -> io::Result<()> {
    match read.schema(alloc, module, name) {
        Ok(resolved) => print_schema(alloc, (module, name), &resolved, counts, output),
        Err(stop) => writeln!(output, "type\t{module}.{name}\t{stop}"),
    }
}

/// Counts a type that has a schema, and prints why that isn't read again from the module that it is
/// shown as or from its octets.
fn print_schema<W: Write>(
    alloc: Global,
    (module, name): (&str, &str),
    resolved: &Resolved,
    counts: &mut Counts,
    output: &mut W,
) -> io::Result<()> {
    counts.loaded = counts.loaded.saturating_add(1);
    if let Some(difference) = difference(alloc, resolved, name)? {
        return writeln!(output, "shown\t{module}.{name}\t{difference}");
    }
    if let Some(difference) = octets_difference(alloc, resolved)? {
        return writeln!(output, "octets\t{module}.{name}\t{difference}");
    }
    counts.same = counts.same.saturating_add(1);
    Ok(())
}

/// Returns why the module that a schema is shown as doesn't have the same types, if it hasn't.
fn difference(
    alloc: Global,
    resolved: &Resolved,
    name: &str,
) -> Result<Option<String>, AllocError> {
    let notation = resolved.notation(alloc)?;
    let text = format!(in alloc; "{notation}")?;
    difference_from(alloc, resolved, name, text.as_str())
}

/// Returns why the text of a module doesn't have the same types as the schema, if it hasn't.
fn difference_from<'text>(
    alloc: Global,
    resolved: &Resolved,
    name: &'text str,
    text: &'text str,
) -> Result<Option<String>, AllocError> {
    let sources = [Source { name, text }];
    let read = Modules::parse(alloc, &sources)?;
    difference_in(alloc, resolved, name, &read)
}

/// Returns why a module doesn't have the same types as the schema, if it hasn't.
fn difference_in(
    alloc: Global,
    resolved: &Resolved,
    name: &str,
    read: &Modules<'_>,
) -> Result<Option<String>, AllocError> {
    if let Some(fault) = read.faults.first() {
        return format!(in alloc; "{fault}").map(Some);
    }
    match read.schema(alloc, "Schema", name) {
        Ok(again) => difference_of(alloc, resolved, &again.schema, again.root),
        Err(stop) => format!(in alloc; "{stop}").map(Some),
    }
}

/// Returns that a type of another schema isn't the same, if it isn't.
fn difference_of(
    alloc: Global,
    resolved: &Resolved,
    schema: &Schema,
    root: TypeId,
) -> Result<Option<String>, AllocError> {
    if are_same(alloc, &resolved.schema, resolved.root, schema, root)? {
        return Ok(None);
    }
    String::from_str(alloc, "other types").map(Some)
}

/// Prints whether a type of a module, if it is there, is that of a table of constants.
fn print_table<W: Write>(
    alloc: Global,
    read: &Modules<'_>,
    (module, name): (&str, &str),
    (table, root): (&[StaticType], TypeId),
    output: &mut W,
) -> io::Result<()> {
    match read.schema(alloc, module, name) {
        Ok(resolved) => {
            let answer = table_answer(alloc, &resolved, table, root)?;
            writeln!(output, "table\t{module}.{name}\t{answer}")
        }
        Err(_) => Ok(()),
    }
}

/// Returns whether a type is that of a table of constants.
fn table_answer(
    alloc: Global,
    resolved: &Resolved,
    table: &[StaticType],
    root: TypeId,
) -> Result<&'static str, AllocError> {
    match Schema::new(types_of(alloc, table)?) {
        Ok(schema) => match difference_of(alloc, resolved, &schema, root)? {
            None => Ok("the same"),
            Some(_) => Ok("another"),
        },
        Err(_) => Ok("no schema"),
    }
}
