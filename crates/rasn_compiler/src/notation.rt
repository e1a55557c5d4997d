//! Schemas as modules (X.680 13).
use crate::lexer::is_type_name;
use crate::resolver::Resolved;
use crate::words::MARKER;
use rasn_schema::{
    Alternative, Component, LeafKind, NamedNumber, Presence, Schema, Type, TypeId, TypeName,
    type_at,
};
use rasn_types::types::{Bound, Class, Constraints, Tag};
use std::alloc::{AllocError, Global};
use std::collections::{BTreeMap, BTreeSet};
use std::fmt;

/// An extension marker and the comma before it.
const AND_MARKER: &str = ", ...";

/// A schema that is shown as a module, from which the same types are read again.
///
/// Each type of the schema that has a name, and each that is made of others, is a type of the
/// module; one without a name is called `Type-` and its number. Tags are written as they are
/// encoded.
///
/// # Examples
/// ```
/// let notation = resolved.notation(alloc)?;
/// println!(rt; "{notation}")?;
/// ```
#[derive(Drop)]
pub struct Notation<'schema> {
    schema: &'schema Schema,
    /// The name of each type that has one in the module, by its number.
    names: BTreeMap<usize, String>,
}

impl Resolved {
    /// Returns the schema as a module, in which the type that was resolved has the name that was
    /// asked for.
    ///
    /// # Errors
    /// `AllocError` if memory runs out.
    pub fn notation(&self, alloc: Global) -> Result<Notation<'_>, AllocError> {
        let schema = &self.schema;
        Ok(Notation {
            schema,
            names: type_names(alloc, schema, Some(self.root))?,
        })
    }
}

/// Returns the types of a schema as a module.
///
/// # Errors
/// `AllocError` if memory runs out.
pub fn notation_of(alloc: Global, schema: &Schema) -> Result<Notation<'_>, AllocError> {
    Ok(Notation {
        schema,
        names: type_names(alloc, schema, None)?,
    })
}

/// Returns the names of a schema's types, each the name of one type only. The root has one.
fn type_names(
    alloc: Global,
    schema: &Schema,
    root: Option<TypeId>,
) -> Result<BTreeMap<usize, String>, AllocError> {
    let mut names = Names {
        of_types: BTreeMap::new(alloc),
        used: BTreeSet::new(alloc),
    };
    if let Some(known) = &schema.names {
        names.add_known(alloc, known)?;
    }
    for (id, ty) in schema.types().iter().enumerate() {
        if root == Some(TypeId(id)) || is_made_of_others(ty) {
            names.add_missing(alloc, id)?;
        }
    }
    Ok(names.of_types)
}

/// Names of types, each that of one type only.
#[derive(Drop)]
struct Names {
    of_types: BTreeMap<usize, String>,
    used: BTreeSet<String>,
}

impl Names {
    /// Adds the names that a module may have for the types (X.680 12.2), the first of each type.
    fn add_known(&mut self, alloc: Global, known: &[TypeName]) -> Result<(), AllocError> {
        for named in known {
            let name = named.name.as_str();
            if is_type_name(name) && !self.used.contains(name) {
                self.add(alloc, named.type_id.0, name)?;
            }
        }
        Ok(())
    }

    /// Adds a name for the type with this number, if it has none.
    fn add_missing(&mut self, alloc: Global, id: usize) -> Result<(), AllocError> {
        if self.of_types.contains_key(&id) {
            return Ok(());
        }
        let mut name = format!(in alloc; "Type-{id}")?;
        for suffix in 0..self.used.len() {
            if !self.used.contains(name.as_str()) {
                break;
            }
            name = format!(in alloc; "Type-{id}-{suffix}")?;
        }
        self.add(alloc, id, name.as_str())
    }

    /// Adds a name that isn't used, unless the type has one.
    fn add(&mut self, alloc: Global, id: usize, name: &str) -> Result<(), AllocError> {
        if !self.of_types.contains_key(&id) {
            self.used.insert(String::from_str(alloc, name)?)?;
            self.of_types.insert(id, String::from_str(alloc, name)?)?;
        }
        Ok(())
    }
}

/// Returns whether a type has parts, or elements, that may have parts of their own.
fn is_made_of_others(ty: &Type) -> bool {
    match ty {
        Type::Leaf { .. }
        | Type::Enumerated { .. }
        | Type::Any { .. }
        | Type::Unknown
        | Type::Tagged { .. } => false,
        Type::Choice { .. }
        | Type::Sequence { .. }
        | Type::Set { .. }
        | Type::SequenceOf { .. }
        | Type::SetOf { .. } => true,
    }
}

/// Shows the module. Types are in the order in which the root leads to them.
impl fmt::Display for Notation<'_> {
    fn fmt<W: fmt::Write>(&self, f: &mut fmt::Formatter<W>) -> fmt::Result {
        f.write_str("Schema DEFINITIONS EXPLICIT TAGS ::= BEGIN\n")?;
        let count = self.schema.types().len();
        for back in 0..count {
            self.write_assignment(f, TypeId(count - 1 - back))?;
        }
        f.write_str("END\n")
    }
}

impl Notation<'_> {
    /// Writes the assignment of a type, if it has one.
    fn write_assignment<W: fmt::Write>(
        &self,
        f: &mut fmt::Formatter<W>,
        id: TypeId,
    ) -> fmt::Result {
        let Some(name) = self.names.get(&id.0) else {
            return Ok(());
        };
        let Some(ty) = type_at(self.schema.types(), id) else {
            return Ok(());
        };
        f.write_str(name.as_str())?;
        f.write_str(" ::= ")?;
        self.write_type(f, ty)?;
        f.write_str("\n")
    }

    /// Writes a type of an assignment.
    fn write_type<W: fmt::Write>(&self, f: &mut fmt::Formatter<W>, ty: &Type) -> fmt::Result {
        match ty {
            Type::Tagged { tag, inner } => {
                write_explicit(f, *tag)?;
                self.write_use(f, *inner)
            }
            Type::Choice { alternatives, .. } => self.write_alternatives(f, alternatives),
            Type::Sequence { tag, components } => {
                self.write_components(f, *tag, 16, "SEQUENCE", components)
            }
            Type::Set {
                tag,
                components,
                ..
            } => self.write_components(f, *tag, 17, "SET", components),
            Type::SequenceOf {
                tag,
                element,
                constraints,
            } => self.write_element(f, *tag, 16, "SEQUENCE", constraints, *element),
            Type::SetOf {
                tag,
                element,
                constraints,
            } => self.write_element(f, *tag, 17, "SET", constraints, *element),
            other => write_plain(f, other),
        }
    }

    /// Writes the name of a type. One without a name is written with its explicit tags, up to the
    /// first type within them that has one (X.680 31.2).
    fn write_use<W: fmt::Write>(&self, f: &mut fmt::Formatter<W>, id: TypeId) -> fmt::Result {
        let types = self.schema.types();
        let mut id = id;
        for _ in 0..types.len() {
            if let Some(name) = self.names.get(&id.0) {
                return f.write_str(name.as_str());
            }
            match type_at(types, id) {
                Some(Type::Tagged { tag, inner }) => {
                    write_explicit(f, *tag)?;
                    id = *inner;
                }
                Some(ty) => return write_plain(f, ty),
                None => break,
            }
        }
        Ok(())
    }

    /// Writes SEQUENCE OF or SET OF, with the bounds of its size (X.680 26, 28).
    fn write_element<W: fmt::Write>(
        &self,
        f: &mut fmt::Formatter<W>,
        tag: Tag,
        number: u32,
        word: &str,
        constraints: &Constraints,
        element: TypeId,
    ) -> fmt::Result {
        write_own(f, tag, number, word)?;
        write_size(f, constraints)?;
        f.write_str(" OF ")?;
        self.write_use(f, element)
    }

    /// Writes a CHOICE, a line for each alternative (X.680 29). In place of an unknown alternative
    /// it writes an extension marker.
    fn write_alternatives<W: fmt::Write>(
        &self,
        f: &mut fmt::Formatter<W>,
        alternatives: &[Alternative],
    ) -> fmt::Result {
        f.write_str("CHOICE {")?;
        for (index, alternative) in alternatives.iter().enumerate() {
            self.write_alternative(f, index, alternative)?;
        }
        f.write_str(" }")
    }

    /// Writes the name and the type of an alternative, or an extension marker.
    fn write_alternative<W: fmt::Write>(
        &self,
        f: &mut fmt::Formatter<W>,
        index: usize,
        alternative: &Alternative,
    ) -> fmt::Result {
        if alternative.name.as_str() == MARKER {
            return write_marker(f, index);
        }
        self.write_part(f, index, alternative.name.as_str(), alternative.type_id)
    }

    /// Writes a SEQUENCE or a SET, a line for each component (X.680 25, 27).
    fn write_components<W: fmt::Write>(
        &self,
        f: &mut fmt::Formatter<W>,
        tag: Tag,
        number: u32,
        word: &str,
        components: &[Component],
    ) -> fmt::Result {
        write_own(f, tag, number, word)?;
        f.write_str(" {")?;
        for (index, component) in components.iter().enumerate() {
            self.write_component(f, index, component)?;
        }
        f.write_str(" }")
    }

    /// Writes the name and the type of a component, and whether it may be absent. In place of
    /// unknown values it writes an extension marker.
    fn write_component<W: fmt::Write>(
        &self,
        f: &mut fmt::Formatter<W>,
        index: usize,
        component: &Component,
    ) -> fmt::Result {
        if let Some(Type::Unknown) = type_at(self.schema.types(), component.type_id) {
            return write_marker(f, index);
        }
        self.write_part(f, index, component.name.as_str(), component.type_id)?;
        self.write_presence(f, component)
    }

    /// Writes the name and the type of an alternative or a component, after a comma if it isn't the
    /// first.
    fn write_part<W: fmt::Write>(
        &self,
        f: &mut fmt::Formatter<W>,
        index: usize,
        name: &str,
        id: TypeId,
    ) -> fmt::Result {
        f.write_str(separator(index))?;
        f.write_str(name)?;
        f.write_str(" ")?;
        self.write_use(f, id)
    }

    /// Writes whether a component may be absent, and the value that it has then.
    fn write_presence<W: fmt::Write>(
        &self,
        f: &mut fmt::Formatter<W>,
        component: &Component,
    ) -> fmt::Result {
        match &component.presence {
            Presence::Required | Presence::Addition => Ok(()),
            Presence::Optional => f.write_str(" OPTIONAL"),
            Presence::Default(value) => {
                let view = self.schema.view(component.type_id, value);
                write!(f, " DEFAULT {view}")
            }
        }
    }
}

/// Returns what is written before the part with this index.
fn separator(index: usize) -> &'static str {
    if index == 0 { "\n    " } else { ",\n    " }
}

/// Writes an extension marker in place of the part with this index.
fn write_marker<W: fmt::Write>(f: &mut fmt::Formatter<W>, index: usize) -> fmt::Result {
    f.write_str(separator(index))?;
    f.write_str(MARKER)
}

/// Writes a tag (X.680 31.2).
fn write_tag<W: fmt::Write>(f: &mut fmt::Formatter<W>, tag: Tag) -> fmt::Result {
    let class = match tag.class {
        Class::Universal => "UNIVERSAL ",
        Class::Application => "APPLICATION ",
        Class::Context => "",
        Class::Private => "PRIVATE ",
    };
    let number = tag.value;
    write!(f, "[{class}{number}]")
}

/// Writes an explicit tag (X.680 31.2).
fn write_explicit<W: fmt::Write>(f: &mut fmt::Formatter<W>, tag: Tag) -> fmt::Result {
    write_tag(f, tag)?;
    f.write_str(" EXPLICIT ")
}

/// Writes a type that is made of no others.
fn write_plain<W: fmt::Write>(f: &mut fmt::Formatter<W>, ty: &Type) -> fmt::Result {
    match ty {
        Type::Leaf {
            kind,
            tag,
            constraints,
            names,
        } => write_leaf(f, *kind, *tag, constraints, names.as_slice()),
        Type::Enumerated { tag, numbers } => {
            write_own(f, *tag, 10, "ENUMERATED")?;
            write_numbers(f, numbers.as_slice(), "")
        }
        Type::Any { tag } => write_any(f, *tag),
        _ => Ok(()),
    }
}

/// Writes a type's own tag, unless it is the universal one of this number, and the words of the
/// type.
fn write_own<W: fmt::Write>(
    f: &mut fmt::Formatter<W>,
    tag: Tag,
    number: u32,
    words: &str,
) -> fmt::Result {
    if tag.class != Class::Universal || tag.value != number {
        write_tag(f, tag)?;
        f.write_str(" IMPLICIT ")?;
    }
    f.write_str(words)
}

/// Writes a type whose values hold no others. An ENUMERATED with a marker is one with names.
fn write_leaf<W: fmt::Write>(
    f: &mut fmt::Formatter<W>,
    kind: LeafKind,
    tag: Tag,
    constraints: &Constraints,
    names: &[NamedNumber],
) -> fmt::Result {
    if kind == LeafKind::Signed64 && !names.is_empty() {
        write_own(f, tag, 10, "ENUMERATED")?;
        return write_numbers(f, names, AND_MARKER);
    }
    let (words, number) = words_of(kind, tag);
    write_own(f, tag, number, words)?;
    if !names.is_empty() {
        write_numbers(f, names, "")?;
    }
    write_kind(f, kind)?;
    write_value(f, constraints)?;
    write_size(f, constraints)
}

/// Writes the range of a type that is of fixed width, or its size.
fn write_kind<W: fmt::Write>(f: &mut fmt::Formatter<W>, kind: LeafKind) -> fmt::Result {
    if let LeafKind::FixedOctetString(size) = kind {
        return write!(f, " (SIZE ({size}))");
    }
    let range = kind.names().range;
    if range.is_empty() {
        return Ok(());
    }
    write!(f, " ({range})")
}

/// Writes the bounds of a value (X.680 51.4).
fn write_value<W: fmt::Write>(f: &mut fmt::Formatter<W>, constraints: &Constraints) -> fmt::Result {
    if let Some(bound) = &constraints.value {
        f.write_str(" (")?;
        write_bound(f, bound)?;
        f.write_str(")")?;
    }
    Ok(())
}

/// Writes the bounds of a size (X.680 51.5).
fn write_size<W: fmt::Write>(f: &mut fmt::Formatter<W>, constraints: &Constraints) -> fmt::Result {
    if let Some(bound) = &constraints.size {
        f.write_str(" (SIZE (")?;
        write_bound(f, bound)?;
        f.write_str("))")?;
    }
    Ok(())
}

/// Writes a range, with the marker if it has one (X.680 51.4, 49.4).
fn write_bound<W: fmt::Write, T: fmt::Display>(
    f: &mut fmt::Formatter<W>,
    bound: &Bound<T>,
) -> fmt::Result {
    let range = &bound.constraint;
    write!(f, "{range}")?;
    f.write_str(if bound.extensible { AND_MARKER } else { "" })
}

/// Writes names with their numbers in braces, and what follows the last (X.680 19, 20, 22).
fn write_numbers<W: fmt::Write>(
    f: &mut fmt::Formatter<W>,
    names: &[NamedNumber],
    end: &str,
) -> fmt::Result {
    let mut separator = " { ";
    for named in names {
        let name = named.name.as_str();
        let number = named.number;
        write!(f, "{separator}{name}({number})")?;
        separator = ", ";
    }
    f.write_str(end)?;
    f.write_str(" }")
}

/// Writes an open type: a type with this tag whose contents aren't looked into, or any type.
fn write_any<W: fmt::Write>(f: &mut fmt::Formatter<W>, tag: Tag) -> fmt::Result {
    if tag == Tag::EOC {
        return f.write_str("ANY");
    }
    let (words, number) = unseen_words(tag);
    write_own(f, tag, number, words)
}

/// Returns the words of a type with this universal tag whose contents aren't looked into, and the
/// number of the tag. With another tag it is an EMBEDDED PDV, whose values may be of any type
/// (X.680 36).
fn unseen_words(tag: Tag) -> (&'static str, u32) {
    match (tag.class, tag.value) {
        (Class::Universal, 29) => ("CHARACTER STRING", 29),
        _ => ("EMBEDDED PDV", 11),
    }
}

/// Returns the words of a type, and the number of its universal tag (X.680 table 1).
fn words_of(kind: LeafKind, tag: Tag) -> (&'static str, u32) {
    if kind == LeafKind::AnyOctets {
        return string_words(tag);
    }
    match unparsed_words(kind, tag) {
        Some(words) => (words, tag.value),
        None => (kind.names().notation, kind.names().number),
    }
}

/// Returns the words of a type whose contents aren't checked, if this is the kind of its leaf, and
/// its universal tag.
fn unparsed_words(kind: LeafKind, tag: Tag) -> Option<&'static str> {
    match (kind, tag.class, tag.value) {
        (LeafKind::Utf8, Class::Universal, 35) => Some("OID-IRI"),
        (LeafKind::Utf8, Class::Universal, 36) => Some("RELATIVE-OID-IRI"),
        _ => None,
    }
}

/// Returns the word of a string of any octets with this tag, and the number of its universal tag
/// (X.680 table 8).
fn string_words(tag: Tag) -> (&'static str, u32) {
    match (tag.class, tag.value) {
        (Class::Universal, 7) => ("ObjectDescriptor", 7),
        (Class::Universal, 20) => ("TeletexString", 20),
        (Class::Universal, 21) => ("VideotexString", 21),
        (Class::Universal, 25) => ("GraphicString", 25),
        _ => ("GeneralString", 27),
    }
}
