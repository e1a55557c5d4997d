//! The schema of the types that were resolved.
ghost use Rattle.std.specs.Prelude.{◌≡◌, ◌<◌, length, IfOk, OnOk, Some};
ghost use Rattle.rasn_schema.specs.Named.{IsNamed};
ghost use Rattle.rasn_schema.specs.declared.type_id.TypeId.{TypeId};
ghost use Rattle.rasn_compiler.specs.Libraries.{AreNamed, AreRoots};

use crate::fault::{Fault, Halt, Problem};
use crate::library::{Library, Root, TypeRef, Unresolved};
use crate::modules::Modules;
use crate::resolver::build::Target;
use crate::resolver::node::{Node, Part, Stage};
use crate::resolver::order::Order;
use crate::resolver::schema_fault::{schema_fault, type_of_error};
use crate::resolver::spoilt::Resolutions;
use crate::resolver::unknown::add_unknown_alternatives;
use crate::words::MARKER;
use rasn_schema::{
    Alternative, Component, LeafKind, Presence, Schema, SchemaError, Type, TypeId, TypeName,
    broken_rule_at, type_at, unfit_default_at,
};
use rasn_types::types::{Constraints, Tag};
use std::alloc::{AllocError, Global};
use std::mem;

/// The problem of a name that means no type.
const NO_TYPE: Problem<'static> = Problem::Expected("a type");

/// Returns the library of the types that were resolved, of which these were wanted.
pub(crate) fn assembled<'text>(
    alloc: Global,
    modules: &Modules<'text>,
    targets: Vec<Target<'text>>,
    nodes: Vec<Node<'text>>,
) -> Result<Library<'text>, AllocError>
    ensures { IfOk result (λ library. AreRoots library.schema library.roots.items) }
{
    let mut nodes = nodes;
    add_unknown_alternatives(alloc, &mut nodes)?;
    let mut read = Resolutions::new(alloc, nodes)?;
    let order = read.order(modules)?;
    let mut types = filled(alloc, &mut read.nodes, &order)?;
    check_rules(alloc, modules, &mut read, &order, &mut types)?;
    let collected = roots_of(alloc, modules, &targets, &mut read, &order, types.len())?;
    let unchecked = unchecked(alloc, read.nodes.as_slice(), &order)?;
    match Schema::new(types) {
        Ok(schema) => Ok(library_of(schema, collected, unchecked)),
        Err(error) => {
            let reason = schema_fault(modules, read.nodes.as_slice(), &order, error);
            refused(alloc, modules, targets, reason)
        }
    }
}

/// Returns the library of these types, whose roots were collected.
fn library_of<'text>(
    schema: Schema,
    collected: Collected<'text>,
    unchecked: Vec<usize>,
) -> Library<'text>
    ensures { AreNamed (length schema.types.items) collected.entry.names.items collected.entry.roots.items → AreRoots result.schema result.roots.items }
{
    let Collected {
        roots,
        faults,
        names,
    } = collected;
    Library {
        schema: schema.with_names(names),
        roots,
        faults,
        unchecked,
    }
}

/// Returns a library in which each type has this fault.
fn refused<'text>(
    alloc: Global,
    modules: &Modules<'text>,
    targets: Vec<Target<'text>>,
    reason: Halt<'text>,
) -> Result<Library<'text>, AllocError>
    ensures { IfOk result (λ library. AreRoots library.schema library.roots.items) }
{
    let Halt::Fault(fault) = reason else {
        return Err(AllocError);
    };
    let mut faults = Vec::with_capacity(alloc, targets.len())?;
    for target in &targets {
        faults.push(unresolved(modules, target.of, *fault))?;
    }
    match Schema::new(Vec::new(alloc)) {
        Ok(schema) => Ok(Library {
            schema,
            roots: Vec::new(alloc),
            faults,
            unchecked: Vec::new(alloc),
        }),
        Err(_) => Err(AllocError),
    }
}

/// The roots and the faults of a library, and the names of its types.
#[derive(Drop)]
struct Collected<'text> {
    roots: Vec<Root<'text>>,
    faults: Vec<Unresolved<'text>>,
    names: Vec<TypeName>,
}

/// Returns the roots and the faults of a library of so many types, and the names of the types: first
/// their own, then those of the roots. A type that is wanted alone has the wanted name first.
fn roots_of<'text>(
    alloc: Global,
    modules: &Modules<'text>,
    targets: &[Target<'text>],
    read: &mut Resolutions<'text>,
    order: &Order,
    count: usize,
) -> Result<Collected<'text>, AllocError>
    ensures { IfOk result (λ c. AreNamed count c.names.items c.roots.items) }
{
    let mut collected = Collected {
        roots: Vec::new(alloc),
        faults: Vec::new(alloc),
        names: Vec::new(alloc),
    };
    let is_alone = targets.len() == 1;
    if !is_alone {
        push_own_names(alloc, &mut collected.names, read.nodes.as_slice(), order)?;
    }
    for (index, target) in targets.iter().enumerate() {
        let found = number_of(modules, read, order, *target, index)?;
        collected.add(alloc, modules, target.of, found, count)?;
    }
    if is_alone {
        push_own_names(alloc, &mut collected.names, read.nodes.as_slice(), order)?;
    }
    Ok(collected)
}

impl<'text> Collected<'text> {
    /// Adds a type that was wanted, of so many types: a root if it has a number.
    fn add(
        &mut self,
        alloc: Global,
        modules: &Modules<'text>,
        of: TypeRef<'text>,
        found: Result<usize, Fault<'text>>,
        count: usize,
    ) -> Result<(), AllocError>
        ensures { AreNamed count self.old.names.items self.old.roots.items → OnOk result (AreNamed count self.new.names.items self.new.roots.items) }
    {
        match found {
            Ok(number) if number < count => {
                let type_id = TypeId(number);
                push_name(alloc, &mut self.names, of.name, type_id)?;
                self.roots.push(Root {
                    module: modules.name_of_module(of.module),
                    name: of.name,
                    index: of.module,
                    type_id,
                })?;
            }
            Ok(_) => {}
            Err(fault) => self.faults.push(unresolved(modules, of, fault))?,
        }
        Ok(())
    }
}

/// Returns that a type has no schema.
fn unresolved<'text>(
    modules: &Modules<'text>,
    of: TypeRef<'text>,
    fault: Fault<'text>,
) -> Unresolved<'text> {
    Unresolved {
        module: modules.name_of_module(of.module),
        name: of.name,
        index: of.module,
        fault,
    }
}

/// Returns the number of a type that was wanted, or why it has none. It has this index among the
/// wanted ones.
fn number_of<'text>(
    modules: &Modules<'text>,
    read: &mut Resolutions<'text>,
    order: &Order,
    target: Target<'text>,
    index: usize,
) -> Result<Result<usize, Fault<'text>>, AllocError> {
    let node = match target.found {
        Ok(node) => node,
        Err(fault) => return Ok(Err(fault)),
    };
    if !read.is_spoilt(node) {
        if let Some(number) = order.number(node) {
            return Ok(Ok(number));
        }
    }
    match read.fault_of(node, index)? {
        Some(fault) => Ok(Err(fault)),
        None => match modules.fault(target.of.module, target.of.position, NO_TYPE) {
            Halt::Fault(fault) => Ok(Err(*fault)),
            Halt::OutOfMemory => Err(AllocError),
        },
    }
}

/// Marks the types that break a rule, and those that are made of them: in their place are NULLs.
fn check_rules<'text>(
    alloc: Global,
    modules: &Modules<'text>,
    read: &mut Resolutions<'text>,
    order: &Order,
    types: &mut Vec<Type>,
) -> Result<(), AllocError> {
    for number in 0..types.len() {
        let id = TypeId(number);
        if let Some(error) = broken_rule_at(types.as_slice(), id) {
            let stage = stage_of(type_at(types.as_slice(), id));
            spoil(modules, read, order, stage, error)?;
        }
    }
    replace_spoilt(alloc, read, order, types);
    for number in 0..types.len() {
        if let Some(error) = unfit_default_at(types.as_slice(), TypeId(number)) {
            spoil(modules, read, order, Stage::Defaults, error)?;
        }
    }
    replace_spoilt(alloc, read, order, types);
    Ok(())
}

/// Returns when the rules of a type are checked.
fn stage_of(ty: Option<&Type>) -> Stage {
    if matches!(ty, Some(Type::Choice { .. })) {
        Stage::Choices
    } else {
        Stage::Rules
    }
}

/// Marks the type that breaks a rule.
fn spoil<'text>(
    modules: &Modules<'text>,
    read: &mut Resolutions<'text>,
    order: &Order,
    stage: Stage,
    error: SchemaError,
) -> Result<(), AllocError> {
    let reason = schema_fault(modules, read.nodes.as_slice(), order, error);
    read.spoil(order.node(type_of_error(error)), stage, reason)
}

/// Puts NULLs in place of the types that have no schema.
fn replace_spoilt(alloc: Global, read: &Resolutions<'_>, order: &Order, types: &mut Vec<Type>) {
    for (number, node) in order.nodes.iter().enumerate() {
        if read.is_spoilt(*node) {
            if let Some(ty) = types.get_mut(number) {
                *ty = null_type(alloc);
            }
        }
    }
}

/// Returns the type NULL.
fn null_type(alloc: Global) -> Type {
    Type::Leaf {
        kind: LeafKind::Null,
        tag: Tag::NULL,
        constraints: Constraints::NONE,
        names: Vec::new(alloc),
    }
}

/// Returns of each type the number of constraints that the schema doesn't check.
fn unchecked(alloc: Global, nodes: &[Node<'_>], order: &Order) -> Result<Vec<usize>, AllocError> {
    let mut counts = Vec::with_capacity(alloc, order.nodes.len())?;
    for index in &order.nodes {
        counts.push(nodes.get(*index).map_or(0, |node| node.unchecked))?;
    }
    Ok(counts)
}

/// Returns the types in their order, and after them that of unknown values, if one has such.
fn filled(
    alloc: Global,
    nodes: &mut Vec<Node<'_>>,
    order: &Order,
) -> Result<Vec<Type>, AllocError> {
    let mut types = Vec::with_capacity(alloc, order.nodes.len())?;
    let mut has_unknown = false;
    for index in &order.nodes {
        if let Some(node) = nodes.get_mut(*index) {
            has_unknown = has_unknown || ends_unknown(node);
            types.push(taken(alloc, node, order)?)?;
        }
    }
    if has_unknown {
        types.push(Type::Unknown)?;
    }
    Ok(types)
}

/// Takes the type of a node, with the numbers of types in place of those of nodes.
fn taken(alloc: Global, node: &mut Node<'_>, order: &Order) -> Result<Type, AllocError> {
    fill(alloc, node, order)?;
    Ok(mem::replace(&mut node.ty, Type::Any { tag: Tag::EOC }))
}

/// Returns whether unknown values are the last component of a type.
fn ends_unknown(node: &Node<'_>) -> bool {
    node.is_extensible && matches!(node.ty, Type::Sequence { .. } | Type::Set { .. })
}

/// Puts the numbers of types in place of those of nodes, and the parts into their type.
fn fill(alloc: Global, node: &mut Node<'_>, order: &Order) -> Result<(), AllocError> {
    match &mut node.ty {
        Type::Tagged { inner, .. } => *inner = order.inner_id(node.inner),
        Type::SequenceOf { element, .. } => *element = order.inner_id(node.inner),
        Type::SetOf { element, .. } => *element = order.inner_id(node.inner),
        Type::Sequence { components, .. } | Type::Set { components, .. } => {
            *components = components_of(alloc, &mut node.parts, order)?;
            if node.is_extensible {
                components.push(unknown_values(alloc, order)?)?;
            }
        }
        Type::Choice { alternatives, .. } => {
            *alternatives = alternatives_of(alloc, node.parts.as_slice(), order)?;
        }
        Type::Leaf { .. } | Type::Enumerated { .. } | Type::Any { .. } | Type::Unknown => {}
    }
    Ok(())
}

/// Returns the components of a type.
fn components_of(
    alloc: Global,
    parts: &mut Vec<Part<'_>>,
    order: &Order,
) -> Result<Vec<Component>, AllocError> {
    let mut components = Vec::with_capacity(alloc, parts.len())?;
    for part in parts.iter_mut() {
        let name = String::from_str(alloc, part.name)?;
        let presence = mem::replace(&mut part.presence, Presence::Required);
        components.push(Component {
            name,
            presence,
            type_id: order.type_id(part.node),
        })?;
    }
    Ok(components)
}

/// Returns the last component of an extensible SEQUENCE or SET, whose type follows all others.
fn unknown_values(alloc: Global, order: &Order) -> Result<Component, AllocError> {
    Ok(Component {
        name: String::from_str(alloc, MARKER)?,
        presence: Presence::Required,
        type_id: TypeId(order.nodes.len()),
    })
}

/// Returns the alternatives of a CHOICE.
fn alternatives_of(
    alloc: Global,
    parts: &[Part<'_>],
    order: &Order,
) -> Result<Vec<Alternative>, AllocError> {
    let mut alternatives = Vec::with_capacity(alloc, parts.len())?;
    for part in parts {
        let name = String::from_str(alloc, part.name)?;
        alternatives.push(Alternative {
            name,
            type_id: order.type_id(part.node),
        })?;
    }
    Ok(alternatives)
}

/// Adds the names that types have of their own.
fn push_own_names(
    alloc: Global,
    names: &mut Vec<TypeName>,
    nodes: &[Node<'_>],
    order: &Order,
) -> Result<(), AllocError>
    ensures { (other : _) (id : TypeId) → IsNamed names.old.items other id → OnOk result (IsNamed names.new.items other id) }
{
    push_names(alloc, names, nodes, order, false)?;
    push_names(alloc, names, nodes, order, true)
}

/// Adds the names of the types that are closed CHOICEs, or of the others. A CHOICE that is closed
/// in one use has its name after the one that isn't.
fn push_names(
    alloc: Global,
    names: &mut Vec<TypeName>,
    nodes: &[Node<'_>],
    order: &Order,
    are_closed: bool,
) -> Result<(), AllocError>
    ensures { (other : _) (id : TypeId) → IsNamed names.old.items other id → OnOk result (IsNamed names.new.items other id) }
{
    for (index, node) in nodes.iter().enumerate() {
        if node.is_named && node.is_closed == are_closed {
            push_name(alloc, names, node.name, order.type_id(index))?;
        }
    }
    Ok(())
}

/// Adds the name of a type.
fn push_name(
    alloc: Global,
    names: &mut Vec<TypeName>,
    name: &str,
    type_id: TypeId,
) -> Result<(), AllocError>
    ensures last { OnOk result (IsNamed names.new.items name.now type_id) }
    ensures more { (other : _) (id : TypeId) → IsNamed names.old.items other id → OnOk result (IsNamed names.new.items other id) }
{
    let name = String::from_str(alloc, name)?;
    names.push(TypeName { name, type_id })?;
    Ok(())
}
