//! The schema of a type of modules.
ghost use Rattle.std.specs.Prelude.{◌≡◌, MatchOption, MatchResult, option_copied};
ghost use Rattle.rasn_types.specs.Truth.{IsWhether};
ghost use Rattle.rasn_schema_octets.specs.Octets.{IsSchemaOctets};
ghost use Rattle.rasn_c.specs.Status.{IsNumberOf};
ghost use Rattle.rasn_c.specs.Reasons.{IsStopAt};
ghost use Rattle.rasn_c.specs.Compiling.{AnswersCompile, AreNoTexts, AreSources, AreTexts, AssignsType, HasTypeCalled, HasNoTypeCalled, IsCompiled, IsFirstWith, IsNameOf, IsNoSchema, IsNotCompiled, IsSchemaOf, IsText, IsTypeCalled, source_parts, text_parts};

use crate::buffers::deliver;
use crate::reasons::{CallStop, NO_REASON, Reason, report, stop_of, without_memory};
use crate::status::Status;
use rasn_compiler::{Assigned, Assignment, Fault, Module, Modules, Resolved, Source, Stop};
use rasn_schema_octets::{WriteFault, write};
use std::alloc::{AllocError, Global};
use std::str;

/// A text of modules, with the name that faults have for it: `soq_texts` of the header. Both are
/// UTF-8.
#[repr(C)]
#[derive(Clone, Copy, Debug)]
pub struct Texts<'a> {
    pub name: &'a [u8],
    pub text: &'a [u8],
}

/// Writes the schema of a type of the modules of these texts to the buffer. The type is `TYPE`, the
/// first of this name, or `MODULE.TYPE`.
#[unsafe(no_mangle)]
pub extern "C" fn soq_proved_compile(
    alloc: Global,
    texts: &[Texts<'_>],
    name: &[u8],
    buffer: &mut [u8],
    needed: &mut usize,
    reason: &mut Reason,
    text: &mut [u8],
) -> u32
    ensures { IsNumberOf (AnswersCompile texts.now name.now reason.new text.old text.new buffer.old buffer.new needed.new) result }
{
    let made = schema_octets(alloc, texts, name);
    deliver(report(made, reason, text), buffer, needed).number()
}

/// Returns the octets of the schema of a type of these modules.
fn schema_octets(alloc: Global, texts: &[Texts<'_>], name: &[u8]) -> Result<Vec<u8>, CallStop>
    ensures { MatchResult result (λ v. IsCompiled texts.now name.now v.items) (λ stop. IsNotCompiled texts.now name.now stop stop.status) }
{
    let sources = match sources_of(alloc, texts) {
        Ok(sources) => sources,
        Err(stop) => return Err(stop),
    };
    let Ok(name) = str::from_utf8(name) else {
        let text = "the type's name isn't UTF-8";
        return Err(stop_of(alloc, Status::UnknownType, text));
    };
    let read = match Modules::parse(alloc, sources.as_slice()) {
        Ok(read) => read,
        Err(error) => return Err(without_memory(alloc, error)),
    };
    if let Some(first) = read.faults.first() {
        return Err(faults_stop(alloc, first, read.faults.as_slice()));
    }
    schema_of(alloc, &read, name)
}

/// Returns the octets of the schema of a type of these modules, which have no faults.
fn schema_of(alloc: Global, read: &Modules<'_>, name: &str) -> Result<Vec<u8>, CallStop>
    ensures { MatchResult result (λ v. IsSchemaOf read.now.modules.items name.now v.items) (λ stop. IsNoSchema read.now.modules.items name.now stop stop.status) }
{
    let (module_name, type_name) = names_in(name);
    let Some(module) = first_with(read.modules.as_slice(), module_name, type_name) else {
        let text = "no module has a type of this name";
        return Err(stop_of(alloc, Status::UnknownType, text));
    };
    match read.schema(alloc, module.name, type_name) {
        Ok(resolved) => octets_of(alloc, &resolved),
        Err(Stop::OutOfMemory) => Err(CallStop::plain(alloc, Status::OutOfMemory)),
        Err(Stop::Fault(fault)) => Err(faults_stop(alloc, &fault, &[fault])),
    }
}

/// Returns the name of a module, if one is named, and that of a type: `MODULE.TYPE`.
fn names_in(name: &str) -> (Option<&str>, &str)
    ensures { IsNameOf name.now (option_copied result.0) result.1.now }
{
    match name.split_once('.') {
        Some((module, type_name)) => (Some(module), type_name),
        None => (None, name),
    }
}

/// Returns the texts, each with its name.
fn sources_of<'a>(alloc: Global, texts: &[Texts<'a>]) -> Result<Vec<Source<'a>>, CallStop>
    ensures { MatchResult result (λ sources. AreTexts texts.now × AreSources texts.now sources.items) (λ stop. AreNoTexts texts.now stop.status) }
{
    let mut sources = Vec::new(alloc);
    for text in texts {
        let Some(source) = source_of(text) else {
            let text = "a text of modules isn't UTF-8";
            return Err(stop_of(alloc, Status::Refused, text));
        };
        if sources.push(source).is_err() {
            return Err(CallStop::plain(alloc, Status::OutOfMemory));
        }
    }
    Ok(sources)
}

/// Returns a text with its name, if both are UTF-8.
fn source_of<'a>(text: &Texts<'a>) -> Option<Source<'a>>
    ensures { MatchOption result (IsText text.now → ⊥) (λ source. IsText text.now × (source_parts source ≡ text_parts text.now)) }
{
    let Texts { name, text } = *text;
    match (str::from_utf8(name), str::from_utf8(text)) {
        (Ok(name), Ok(text)) => Some(Source { name, text }),
        _ => None,
    }
}

/// Returns the octets of a schema.
fn octets_of(alloc: Global, resolved: &Resolved) -> Result<Vec<u8>, CallStop>
    ensures { MatchResult result (λ v. IsSchemaOctets resolved.now.schema resolved.now.root resolved.now.unchecked v.items) (λ stop. IsStopAt 0 0 stop stop.status) }
{
    let Resolved {
        schema,
        root,
        unchecked,
    } = resolved;
    match write(alloc, schema, *root, *unchecked) {
        Ok(octets) => Ok(octets),
        Err(WriteFault::OutOfMemory) => Err(CallStop::plain(alloc, Status::OutOfMemory)),
        Err(fault) => match format!(in alloc; "{fault}") {
            Ok(text) => Err(CallStop::of_text(Status::Refused, NO_REASON, text)),
            Err(error) => Err(without_memory(alloc, error)),
        },
    }
}

/// Returns the end for modules with these faults: their lines, and the place of the first.
fn faults_stop(alloc: Global, first: &Fault<'_>, faults: &[Fault<'_>]) -> CallStop
    ensures { IsStopAt first.now.position.line first.now.position.column result result.status }
{
    let mut reason = NO_REASON;
    reason.line = first.position.line;
    reason.column = first.position.column;
    match lines_of(alloc, faults) {
        Ok(text) => CallStop::of_text(Status::Refused, reason, text),
        Err(error) => without_memory(alloc, error),
    }
}

/// Returns a line for each fault.
fn lines_of(alloc: Global, faults: &[Fault<'_>]) -> Result<String, AllocError> {
    let mut lines = String::new(alloc);
    for fault in faults {
        if !lines.is_empty() {
            lines.push('\n')?;
        }
        write!(lines, "{fault}")?;
    }
    Ok(lines)
}

/// Returns the first module that has a type of this name, of those of this name if one is named.
fn first_with<'list, 'text>(
    modules: &'list [Module<'text>],
    module_name: Option<&str>,
    type_name: &str,
) -> Option<&'list Module<'text>>
    ensures { MatchOption result (HasNoTypeCalled modules.now (option_copied module_name.entry) type_name.now) (λ m. IsFirstWith modules.now (option_copied module_name.entry) type_name.now m.now) }
{
    for module in modules {
        if has_type_called(module, module_name, type_name) {
            return Some(module);
        }
    }
    None
}

/// Returns whether a module has a type of this name, and is called so if a module is named.
fn has_type_called(module: &Module<'_>, module_name: Option<&str>, type_name: &str) -> bool
    ensures { IsWhether result (HasTypeCalled (option_copied module_name.entry) type_name.now «module».now) }
{
    match module_name {
        Some(wanted) => module.name == wanted && assigns_type(&module.assignments, type_name),
        None => assigns_type(&module.assignments, type_name),
    }
}

/// Returns whether one of the assignments is that of a type to this name, without parameters.
fn assigns_type(assignments: &[Assignment<'_>], name: &str) -> bool
    ensures { IsWhether result (AssignsType name.now assignments.now) }
{
    for assignment in assignments {
        if is_type_called(assignment, name) {
            return true;
        }
    }
    false
}

/// Returns whether an assignment is that of a type to this name, without parameters.
fn is_type_called(assignment: &Assignment<'_>, name: &str) -> bool
    ensures { IsWhether result (IsTypeCalled name.now assignment.now) }
{
    match assignment.assigned {
        Assigned::Type(_) => assignment.parameters.is_none() && assignment.name == name,
        Assigned::Value { .. }
        | Assigned::Values { .. }
        | Assigned::Class { .. }
        | Assigned::Macro => false,
    }
}
