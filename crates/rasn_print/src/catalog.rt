//! The types that messages may be of, each resolved once one may be of it.
ghost use Rattle.std.specs.Prelude.{◌≡◌, ◌<◌, [], Some, IfOk, IfSome, length, slice_get};
ghost use Rattle.rasn_print.specs.declared.command_line.Work.TheVariants.{Dump};
ghost use Rattle.rasn_print.specs.declared.known.Candidates.TheVariants.{Named, Nothing};
ghost use Rattle.rasn_print.specs.Catalogs.{IsIndexOf};

use crate::command_line::{Call, Work};
use crate::fault::CallFault;
use crate::known::{Candidates, Known};
use crate::listing::types_by_origin;
use crate::messages::{MESSAGES, labelled};
use crate::similar::most_similar;
use crate::texts::Texts;
use crate::types::KnownType;
use crate::unused::unused_types;
use rasn_compiler::{Fault, Library, Modules, NamedIdentifier, Root, Source, TypeRef};
use rasn_schema::TypeId;
use rasn_text::{Escaping, visible};
use rasn_types::types::ObjectIdentifier;
use std::alloc::{AllocError, Global};
use std::collections::BTreeMap;

/// The name of the module of what is in open types.
pub(crate) const CONTENTS: &str = "Contents";

/// Its type of values of universal types.
const UNIVERSAL: &str = "Universal";

/// Limits how many types of `--module` are tried.
const MOST_TRIED: usize = 100;

/// Returns the modules of these texts and of this repository, and the faults of these texts, a line
/// each. An assignment or a module that has a fault isn't among the modules.
///
/// # Errors
/// `Memory` if memory runs out.
pub fn modules_of<'text>(
    alloc: Global,
    texts: &[Source<'text>],
) -> Result<(Modules<'text>, String), CallFault> {
    let read = Texts::ALL.modules(alloc, texts)?;
    let faults = lines_of(alloc, &read.faults)?;
    Ok((read, faults))
}

/// Returns what is wrong in modules that aren't built in and spoils none of their types, a line each.
///
/// # Errors
/// `Memory` if memory runs out.
pub fn warnings_of(alloc: Global, read: &Modules<'_>) -> Result<String, CallFault> {
    lines_of(alloc, &read.warnings(alloc)?)
}

/// Returns a line for each fault.
fn lines_of(alloc: Global, faults: &[Fault<'_>]) -> Result<String, CallFault> {
    let mut lines = String::new(alloc);
    for fault in faults {
        let line = visible(alloc, Escaping::Line, fault.to_string(alloc)?.as_str())?;
        writeln!(lines, "{line}")?;
    }
    Ok(lines)
}

/// The types of a call that were resolved so far.
#[derive(Drop)]
pub struct Catalog<'read, 'text> {
    /// The modules that the call names and those of this repository, if it names some.
    read: Option<&'read Modules<'text>>,
    known: Vec<Known<'text>>,
}

impl<'read, 'text> Catalog<'read, 'text> {
    /// Returns a catalog of the types of these modules, or without them of those of this repository,
    /// which are read when a message may be of them.
    pub fn new(alloc: Global, read: Option<&'read Modules<'text>>) -> Catalog<'read, 'text>
        ensures { result.known.items ≡ [] }
    {
        Catalog {
            read,
            known: Vec::new(alloc),
        }
    }

    /// Resolves the type that a call names, if it names one.
    ///
    /// # Errors
    /// `Call` if it isn't known, or has no schema. `Memory` if memory runs out.
    pub fn resolve_named(&mut self, alloc: Global, call: &Call) -> Result<(), CallFault> {
        if call.type_name.is_some() {
            self.resolve(alloc, call, Candidates::Named)?;
        }
        Ok(())
    }

    /// Returns whether it is worth while to try the first of these types alone: all are tried, those
    /// of this repository alone, and aren't resolved yet.
    pub(crate) fn may_try_first(&self, candidates: Candidates) -> bool {
        self.read.is_none()
            && candidates == Candidates::Tried
            && self.index_of(candidates).is_none()
    }

    /// Returns the index of these types of a call, which are resolved if they weren't.
    ///
    /// # Errors
    /// As `resolve_named`.
    pub(crate) fn resolve(
        &mut self,
        alloc: Global,
        call: &Call,
        candidates: Candidates,
    ) -> Result<usize, CallFault>
        ensures { IfOk result (IsIndexOf candidates self.new.known.items) }
    {
        if let Some(index) = self.index_of(candidates) {
            return Ok(index);
        }
        let known = self.resolved(alloc, call, candidates)?;
        let index = self.known.len();
        self.known.push(known)?;
        Ok(index)
    }

    /// Returns the types with this index.
    pub(crate) fn known(&self, index: usize) -> &Known<'text>
        requires { index < length self.now.known.items }
        ensures { Some result.now ≡ slice_get self.now.known.items index }
    {
        &self.known[index]
    }

    /// Returns the index of these types, if they are resolved.
    fn index_of(&self, candidates: Candidates) -> Option<usize>
        ensures { IfSome result (IsIndexOf candidates self.now.known.items) }
    {
        for (index, known) in self.known.iter().enumerate() {
            if known.candidates.is(candidates) {
                return Some(index);
            }
        }
        None
    }

    /// Resolves the types that a message may be of.
    fn resolved(
        &self,
        alloc: Global,
        call: &Call,
        candidates: Candidates,
    ) -> Result<Known<'text>, CallFault>
        ensures { IfOk result (λ known. known.candidates ≡ candidates) }
    {
        let Some(read) = self.read else {
            let read = modules_for(alloc, call, candidates)?;
            let wanted = types_for(alloc, &read, call, candidates, false)?;
            return known_of(alloc, &read, call, candidates, wanted);
        };
        let wanted = types_for(alloc, read, call, candidates, true)?;
        known_of(alloc, read, call, candidates, wanted)
    }
}

/// Returns what decides of which type a message of a call with this label is.
pub(crate) fn candidates_for(call: &Call, label: Option<&str>) -> Candidates
    ensures dumped { call.now.work ≡ Dump → result ≡ Nothing }
    ensures named { (call.now.work ≡ Dump → ⊥) → (name : _) → call.now.type_name ≡ Some name → result ≡ Named }
{
    if call.work == Work::Dump {
        return Candidates::Nothing;
    }
    if call.type_name.is_some() {
        return Candidates::Named;
    }
    match labelled(label.unwrap_or("")) {
        Some(index) => Candidates::Labelled(index),
        None => Candidates::Tried,
    }
}

/// Returns the modules of this repository that these types are of or are made of, or all if the
/// type that the call names isn't one of them as it is written.
fn modules_for<'text>(
    alloc: Global,
    call: &Call,
    candidates: Candidates,
) -> Result<Modules<'text>, AllocError> {
    let read = texts_for(alloc, call, candidates)?.modules(alloc, &[])?;
    match &call.type_name {
        Some(name) if read.find(name).is_none() => Texts::ALL.modules(alloc, &[]),
        _ => Ok(read),
    }
}

/// Returns which texts of this repository have these types and what they are made of.
fn texts_for(alloc: Global, call: &Call, candidates: Candidates) -> Result<Texts, AllocError> {
    let mut texts = Texts::NONE;
    if let (Candidates::Named, Some(name)) = (candidates, &call.type_name) {
        texts.add_assigned(alloc, name)?;
    }
    for (index, (module, _, _, is_tried)) in MESSAGES.iter().enumerate() {
        if candidates.have(index, *is_tried) {
            texts.add_module(module);
        }
    }
    match contents_for(call.work, candidates).len() {
        0 => {}
        // Values of universal types hold none of other modules.
        1 => texts.add_alone(CONTENTS),
        _ => texts.add_module(CONTENTS),
    }
    Ok(texts)
}

/// Returns the types of the module Contents by which such work shows what messages hold.
fn contents_for(work: Work, candidates: Candidates) -> &'static [&'static str] {
    match work {
        Work::Show if candidates == Candidates::First => &[],
        Work::Show => &[UNIVERSAL, "Open", "Octets", "Bits"],
        Work::Dump | Work::Get | Work::Table => &[UNIVERSAL],
        Work::Check
        | Work::Lint
        | Work::Json
        | Work::Encode
        | Work::Example
        | Work::Normalise
        | Work::Types => &[],
    }
}

/// Returns these types of messages of a call in one schema with those by which what they hold is
/// shown.
fn known_of<'text>(
    alloc: Global,
    read: &Modules<'text>,
    call: &Call,
    candidates: Candidates,
    wanted: Vec<TypeRef<'text>>,
) -> Result<Known<'text>, CallFault>
    ensures { IfOk result (λ known. known.candidates ≡ candidates) }
{
    let shown = contents_for(call.work, candidates);
    let all = with_contents(alloc, read, wanted.as_slice(), shown)?;
    let library = read.library(alloc, all.as_slice())?;
    let types = known_types(alloc, &library, wanted.as_slice())?;
    if candidates == Candidates::Named && types.is_empty() {
        return Err(no_schema(alloc, &library));
    }
    let universal = contents(&library, read, UNIVERSAL);
    let open = contents(&library, read, "Open");
    let octets = contents(&library, read, "Octets");
    let bits = contents(&library, read, "Bits");
    let Library { schema, .. } = library;
    Ok(Known {
        schema,
        candidates,
        types,
        universal,
        open,
        octets,
        bits,
        identifiers: identifiers_for(alloc, read, shown)?,
        is_cut: call.work == Work::Show && !call.is_full,
    })
}

/// Returns these types, and those of the module of what is in open types that have these names.
fn with_contents<'text>(
    alloc: Global,
    read: &Modules<'text>,
    wanted: &[TypeRef<'text>],
    names: &[&str],
) -> Result<Vec<TypeRef<'text>>, AllocError> {
    let mut all = Vec::from_slice(alloc, wanted)?;
    for name in names {
        if let Some(of) = read.built_in(CONTENTS, name) {
            all.push(of)?;
        }
    }
    Ok(all)
}

/// Returns those of these types that the library has.
fn known_types<'text>(
    alloc: Global,
    library: &Library<'text>,
    wanted: &[TypeRef<'text>],
) -> Result<Vec<KnownType<'text>>, AllocError> {
    let mut types = Vec::new(alloc);
    for of in wanted {
        if let Some(root) = root_of(library, *of) {
            types.push(KnownType::new(alloc, &library.schema, root)?)?;
        }
    }
    Ok(types)
}

/// Returns the names of the identifiers of modules that aren't built in, the first of each, for work
/// that shows contents by these types: none without types.
fn identifiers_for(
    alloc: Global,
    read: &Modules<'_>,
    shown: &[&str],
) -> Result<BTreeMap<ObjectIdentifier, String>, AllocError> {
    let mut names = BTreeMap::new(alloc);
    if shown.is_empty() {
        return Ok(names);
    }
    for found in read.identifiers(alloc)? {
        let NamedIdentifier {
            name,
            identifier,
            ..
        } = found;
        if !names.contains_key(&identifier) {
            names.insert(identifier, String::from_str(alloc, name)?)?;
        }
    }
    Ok(names)
}

/// Returns a type of the modules, if it is one of the library.
fn root_of<'a, 'text>(library: &'a Library<'text>, of: TypeRef<'_>) -> Option<&'a Root<'text>> {
    let mut roots = library.roots.iter();
    roots.find(|root| root.index == of.module && root.name == of.name)
}

/// Returns the number of the type of this name of the module of what is in open types.
fn contents(library: &Library<'_>, read: &Modules<'_>, name: &str) -> Option<TypeId> {
    Some(root_of(library, read.built_in(CONTENTS, name)?)?.type_id)
}

/// Returns why the type that a call names has no schema: it is the first of the library.
fn no_schema(alloc: Global, library: &Library<'_>) -> CallFault {
    match library.faults.first() {
        Some(found) => CallFault::of_call(alloc, &found.fault),
        None => CallFault::of_call(alloc, &"the type has no schema"),
    }
}

/// Returns the types of these modules that a message of a call may be of: of those that aren't built
/// in, if there are some, the types that no other of them uses, at most 100, and those of standards.
fn types_for<'text>(
    alloc: Global,
    read: &Modules<'text>,
    call: &Call,
    candidates: Candidates,
    has_own: bool,
) -> Result<Vec<TypeRef<'text>>, CallFault> {
    if let (Candidates::Named, Some(name)) = (candidates, &call.type_name) {
        return Ok(vec![in alloc; named_type(alloc, read, name)?]?);
    }
    let mut types = Vec::new(alloc);
    if has_own && candidates == Candidates::Tried {
        let (own, _) = types_by_origin(alloc, read)?;
        types = unused_types(alloc, read, own.as_slice())?;
        types.truncate(MOST_TRIED);
    }
    for (index, (module, name, _, is_tried)) in MESSAGES.iter().enumerate() {
        if candidates.have(index, *is_tried) {
            if let Some(of) = read.built_in(module, name) {
                types.push(of)?;
            }
        }
    }
    Ok(types)
}

/// Returns the type with this name: `MODULE.TYPE`, or the first one of the name. Small letters may be
/// capitals and the reverse if no type has the name as it is.
pub(crate) fn named_type<'text>(
    alloc: Global,
    read: &Modules<'text>,
    name: &str,
) -> Result<TypeRef<'text>, CallFault> {
    if let Some(of) = read.find(name) {
        return Ok(of);
    }
    let text = match most_similar(alloc, read, name)? {
        Some(found) if found.is_spelled_so => return Ok(found.of),
        Some(found) => format!(in alloc;
            "no type {name} is known; did you mean {}?",
            found.of.name
        )?,
        None => format!(in alloc;
            "no type {name} is known; `soqavise types` prints those that are known"
        )?,
    };
    Err(CallFault::of_call(alloc, &text))
}
