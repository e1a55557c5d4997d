//! Values as indented lines with the names of a schema.
ghost use Rattle.std.specs.Prelude.{◌≡◌, IfSome};
ghost use Rattle.rasn_print.specs.Queries.{IsAround};

pub(crate) mod large;
pub(crate) mod object;

use crate::dump::{End, Entries, Entry, are_entries, primitive_text, push_entry, push_indent};
use crate::fault::CallFault;
use crate::identifiers::{built_in_name, identifier_text};
use crate::known::{Form, Known};
use crate::leaf::{digits_text, leaf_text, string_text};
use crate::name::name_text;
use crate::refusal_text::text_of;
use crate::types::MessageType;
use crate::work::Shown;
use large::Lines;
use rasn_dynamic::decode;
use rasn_schema::{LeafKind, Schema, Type, TypeId, Value, View, part_name, part_type, type_at};
use rasn_types::types::{Codec, ObjectIdentifier};
use std::alloc::{AllocError, Global};
use std::fmt;
use std::io::Write;
use std::net::{Ipv4Addr, Ipv6Addr};

/// How many values may be in one another, those in open types among them. A CHOICE and what is in an
/// explicit tag are at the level of what they hold.
const LEVELS: usize = 256;

/// How many of them a message may have: a decoder has as many levels. Where fewer remain an open type
/// is shown without its type, so values that are read are shown whole.
const MESSAGE_LEVELS: usize = 128;

/// Where a value is printed.
#[derive(Clone, Copy)]
struct LinePlace<'a> {
    alloc: Global,
    known: &'a Known<'a>,
    /// The rules by which octets inside open types are read.
    rule: Codec,
    /// How many more values may be in one another.
    levels: usize,
    /// How many lines it is in.
    depth: usize,
    /// What is before the colon.
    title: &'a str,
    /// The name of the identifier beside the value.
    hint: Option<&'static str>,
}

impl<'a> LinePlace<'a> {
    /// Returns where a message with this title is printed.
    fn of(alloc: Global, known: &'a Known<'a>, rule: Codec, title: &'a str) -> LinePlace<'a> {
        LinePlace {
            alloc,
            known,
            rule,
            levels: LEVELS,
            depth: 0,
            title,
            hint: None,
        }
    }
}

/// Whether there was memory for what is appended.
type Appended = Result<(), AllocError>;

/// Returns a value of this type as indented lines, the first of which has the name of the type.
///
/// # Errors
/// `AllocError` if memory runs out.
pub fn value_text(
    alloc: Global,
    known: &Known<'_>,
    wanted: &MessageType<'_>,
    value: &Value<'_>,
) -> Result<String, AllocError> {
    let place = LinePlace::of(alloc, known, wanted.rule, wanted.name);
    let mut text = String::new(alloc);
    print(&mut text, place, &wanted.schema.view(wanted.root, value))?;
    Ok(text)
}

/// Writes the value of this type that octets encode as the same lines, as soon as there are some.
///
/// # Errors
/// `Write` or `Closed` if they can't be written, `Memory` if memory runs out.
pub(crate) fn write_large<W: Write + Drop>(
    lines: &mut Lines<'_, W>,
    alloc: Global,
    known: &Known<'_>,
    shown: &Shown,
    octets: &[u8],
) -> Result<(), CallFault> {
    let place = LinePlace::of(alloc, known, shown.rule, shown.name.as_str());
    large::write(lines, place, &known.schema, shown.root, octets)?;
    lines.text.push_str(shown.end.as_str())?;
    lines.flush(alloc)
}

/// Returns a value in a line, if it is one that holds no others, a name or an address: a character
/// string as it is, and other values as `value_text` has them.
///
/// # Errors
/// `AllocError` if memory runs out.
pub(crate) fn line_text(
    alloc: Global,
    known: &Known<'_>,
    title: &str,
    view: &View<'_, '_>,
) -> Result<Option<String>, AllocError> {
    let place = LinePlace::of(alloc, known, Codec::Ber, title);
    let mut title = String::from_str(alloc, title)?;
    let (inner, shown) = innermost(&mut title, place, view)?;
    if shown.is_some() {
        return Ok(shown);
    }
    match type_at(inner.schema.types(), inner.type_id) {
        Some(ty @ (Type::Leaf { .. } | Type::Enumerated { .. })) => {
            match string_text(alloc, Some(ty), inner.value)? {
                Some(text) => Ok(Some(text)),
                None => Ok(Some(leaf_text(alloc, known, Some(ty), inner.value, known.is_cut)?)),
            }
        }
        Some(
            Type::Tagged { .. }
            | Type::Choice { .. }
            | Type::Sequence { .. }
            | Type::Set { .. }
            | Type::SequenceOf { .. }
            | Type::SetOf { .. }
            | Type::Any { .. }
            | Type::Unknown,
        )
        | None => Ok(None),
    }
}

/// Appends a line of a title and a value.
fn push_line<T: fmt::Display>(text: &mut String, place: LinePlace<'_>, value: &T) -> Appended {
    let title = place.title;
    push_indent(text, place.depth)?;
    writeln!(text, "{title}: {value}")
}

/// Appends the lines of a value. The names of the alternatives that it is of CHOICEs in one another
/// follow the title.
#[cycle(print)]
fn print(text: &mut String, place: LinePlace<'_>, view: &View<'_, '_>) -> Appended {
    if place.levels == 0 {
        return push_line(text, place, &"..");
    }
    let levels = place.levels - 1;
    let mut title = String::from_str(place.alloc, place.title)?;
    let (inner, shown) = innermost(&mut title, place, view)?;
    let title = title.as_str();
    let place = LinePlace {
        levels,
        title,
        ..place
    };
    match shown {
        Some(shown) => push_line(text, place, &shown),
        None => print_by(text, place, &inner),
    }
}

/// Returns what is inside CHOICEs and explicit tags, with its text if it has one in a line, and
/// appends the names of the alternatives to the title.
fn innermost<'view, 'input>(
    title: &mut String,
    place: LinePlace<'_>,
    view: &View<'view, 'input>,
) -> Result<(View<'view, 'input>, Option<String>), AllocError> {
    let mut inner = view.schema.view(view.type_id, view.value);
    for _ in 0..usize::MAX {
        if let Some(shown) = short_text(place, title.as_str(), &inner)? {
            return Ok((inner, Some(shown)));
        }
        let Some((name, next)) = inside(&inner) else {
            break;
        };
        if !name.is_empty() {
            write!(title, ".{name}")?;
        }
        inner = next;
    }
    Ok((inner, None))
}

/// Returns what is in an explicit tag, or the alternative of a CHOICE with its name, which is empty
/// if it is the only one. Returns `None` of other values.
pub(crate) fn inside<'view, 'input>(
    view: &View<'view, 'input>,
) -> Option<(&'view str, View<'view, 'input>)>
    ensures part { IfSome result (λ found. IsAround view.now.schema.now.types.items view.now.type_id.0 view.now.value.now found.1.type_id found.1.value.now) }
    ensures schema { IfSome result (λ found. found.1.schema.now ≡ view.now.schema.now) }
{
    let ty = type_at(view.schema.types(), view.type_id)?;
    if let Type::Tagged { inner, .. } = ty {
        return Some(("", view.schema.view(*inner, view.value)));
    }
    let Value::Chosen(index, value) = view.value else {
        return None;
    };
    let inner = view.schema.view(part_type(ty, *index)?, value);
    if part_type(ty, 1).is_none() {
        return Some(("", inner));
    }
    Some((part_name(ty, *index)?, inner))
}

/// Appends the lines of a value that is in no CHOICE and no explicit tag any more.
#[cycle(print)]
fn print_by(text: &mut String, place: LinePlace<'_>, view: &View<'_, '_>) -> Appended {
    let value = view.value;
    let Some(ty) = type_at(view.schema.types(), view.type_id) else {
        return Ok(());
    };
    match ty {
        Type::Any { .. } => print_octets(text, place, value, Form::Open),
        Type::Unknown => print_additions(text, place, value),
        Type::Leaf { kind, .. } if *kind == LeafKind::OctetString => {
            print_octets(text, place, value, Form::Octets)
        }
        Type::Leaf { kind, .. } if *kind == LeafKind::BitString => {
            print_octets(text, place, value, Form::Bits)
        }
        Type::Leaf { .. } | Type::Enumerated { .. } => {
            let shown = leaf_text(
                place.alloc,
                place.known,
                Some(ty),
                value,
                place.known.is_cut,
            )?;
            push_line(text, place, &shown)
        }
        Type::Sequence { .. } | Type::Set { .. } | Type::SequenceOf { .. } | Type::SetOf { .. } =>
            print_parts(text, place, view.schema, ty, parts_of(value)),
        // What is in these is printed in their place.
        Type::Tagged { .. } | Type::Choice { .. } => Ok(()),
    }
}

/// Returns the components or elements of a value.
fn parts_of<'value, 'input>(value: &'value Value<'input>) -> &'value [Value<'input>] {
    match value {
        Value::Items(values) | Value::Elements(values) => values.as_slice(),
        Value::Boolean(_)
        | Value::Null
        | Value::Integer(_)
        | Value::Bits(_)
        | Value::Octets(_)
        | Value::Text(_)
        | Value::Units(_)
        | Value::Arcs(_)
        | Value::Instant(_)
        | Value::Day(_)
        | Value::Chosen(_, _)
        | Value::Absent => &[],
    }
}

/// Appends the lines of components or elements. An identifier that is the first component is in the
/// line of the title.
#[cycle(print)]
fn print_parts<'view>(
    text: &mut String,
    place: LinePlace<'_>,
    schema: &'view Schema,
    ty: &Type,
    values: &'view [Value<'_>],
) -> Appended {
    let is_list = matches!(ty, Type::SequenceOf { .. } | Type::SetOf { .. });
    print_heading(text, place, is_list, values)?;
    let hint = if is_list { place.hint } else { hint_of(values) };
    for (index, value) in values.iter().enumerate() {
        let Some(id) = part_type(ty, index) else {
            break;
        };
        let is_identifier = index == 0 && matches!(value, Value::Arcs(_));
        if matches!(value, Value::Absent) || is_identifier && !is_list {
            continue;
        }
        let title = match part_name(ty, index) {
            Some(name) => String::from_str(place.alloc, name)?,
            None => format!(in place.alloc; "[{index}]")?,
        };
        let part = LinePlace {
            depth: place.depth.saturating_add(1),
            title: title.as_str(),
            hint,
            ..place
        };
        print(text, part, &schema.view(id, value))?;
    }
    Ok(())
}

/// Appends the line of the title of components or elements.
fn print_heading(
    text: &mut String,
    place: LinePlace<'_>,
    is_list: bool,
    values: &[Value<'_>],
) -> Appended {
    if is_list && values.is_empty() {
        return push_line(text, place, &"empty");
    }
    if let (false, Some(Value::Arcs(identifier))) = (is_list, values.first()) {
        let shown = identifier_text(place.alloc, place.known, identifier)?;
        return push_line(text, place, &shown);
    }
    print_title(text, place)
}

/// Appends a line of a title.
fn print_title(text: &mut String, place: LinePlace<'_>) -> Appended {
    let title = place.title;
    push_indent(text, place.depth)?;
    writeln!(text, "{title}")
}

/// Appends the lines of octets: of the value whose encoding they are, if the identifier beside them
/// says its type.
#[cycle(print)]
fn print_octets(
    text: &mut String,
    place: LinePlace<'_>,
    value: &Value<'_>,
    form: Form,
) -> Appended {
    if let Value::Bits(bits) = value {
        let mut octets = Vec::new(place.alloc);
        bits.as_bitstr().append_to(&mut octets)?;
        return print_held(text, place, value, form, &octets);
    }
    let Value::Octets(held) = value else {
        return Ok(());
    };
    print_held(text, place, value, form, held.as_slice())
}

/// Appends the lines of a value that holds these octets.
#[cycle(print)]
fn print_held(
    text: &mut String,
    place: LinePlace<'_>,
    value: &Value<'_>,
    form: Form,
    octets: &[u8],
) -> Appended {
    let (alloc, known) = (place.alloc, place.known);
    match held_by(place, form, octets)? {
        Held::Unknown if form == Form::Open => print_encoding(text, place, octets),
        Held::Unknown => {
            let shown = leaf_text(alloc, known, None, value, known.is_cut)?;
            push_line(text, place, &shown)
        }
        Held::Value(id, held) => {
            let inner = LinePlace {
                hint: None,
                ..place
            };
            print(text, inner, &known.schema.view(id, &held))
        }
        Held::Refused(cause) => {
            let shown = digits_text(alloc, octets, known.is_cut)?;
            push_line(text, place, &format!(in alloc; "{shown} ({cause})")?)
        }
    }
}

/// Octets of an open type or a string, read by the type that the identifier beside them names.
#[derive(Drop)]
enum Held<'input> {
    /// Octets: nothing says their type.
    Unknown,
    /// The encoding of this value of the type with this number.
    Value(TypeId, Value<'input>),
    /// None of its type, for this reason.
    Refused(String),
}

/// Returns what octets in this form are.
fn held_by<'input>(
    place: LinePlace<'_>,
    form: Form,
    octets: &'input [u8],
) -> Result<Held<'input>, AllocError> {
    let (alloc, known, hint) = (place.alloc, place.known, place.hint.unwrap_or(""));
    if place.levels <= MESSAGE_LEVELS {
        return Ok(Held::Unknown);
    }
    let Some(id) = known.find(form, hint) else {
        return Ok(Held::Unknown);
    };
    match decode(alloc, place.rule, &known.schema, id, octets) {
        Ok(value) => Ok(Held::Value(id, value)),
        Err(error) if error.is_out_of_memory() => Err(AllocError),
        Err(error) => {
            let cause = text_of(alloc, &error, octets, End::Input)?;
            Ok(Held::Refused(format!(in alloc; "not of {hint}: {cause}")?))
        }
    }
}

/// Appends the lines of unknown values, each of which is an encoding.
fn print_additions(text: &mut String, place: LinePlace<'_>, value: &Value<'_>) -> Appended {
    let Value::Items(values) = value else {
        return Ok(());
    };
    for value in values {
        if let Value::Octets(octets) = value {
            print_encoding(text, place, octets.as_slice())?;
        }
    }
    Ok(())
}

/// Appends the lines of an encoding of a type that isn't known.
fn print_encoding(text: &mut String, place: LinePlace<'_>, octets: &[u8]) -> Appended {
    let Ok(is_whole) = are_entries(place.alloc, octets) else {
        return Err(AllocError);
    };
    if !is_whole {
        let shown = digits_text(place.alloc, octets, place.known.is_cut)?;
        return push_line(text, place, &shown);
    }
    let mut entries = Entries::new(place.alloc, octets);
    for _ in octets {
        match entries.next() {
            Ok(Some(entry)) => print_entry(text, place, &entry)?,
            Ok(None) => return Ok(()),
            Err(_) => return Err(AllocError),
        }
    }
    Ok(())
}

/// Appends the line of an encoding in an open type, whose title the outermost one has.
fn print_entry(text: &mut String, place: LinePlace<'_>, entry: &Entry<'_>) -> Appended {
    push_indent(text, place.depth.saturating_add(entry.depth))?;
    if entry.depth == 0 {
        let title = place.title;
        write!(text, "{title}: ")?;
    }
    if entry.depth == 0 && !entry.is_constructed {
        text.push_str(primitive_text(place.alloc, place.known, entry)?.as_str())?;
    } else {
        push_entry(text, place.alloc, place.known, entry)?;
    }
    text.push('\n')
}

/// Returns the name of the identifier that says what the open types of a SEQUENCE are: the first
/// component that is an OBJECT IDENTIFIER or begins with one, as an AlgorithmIdentifier.
fn hint_of(values: &[Value<'_>]) -> Option<&'static str> {
    for value in values {
        if let Some(identifier) = identifier_in(value) {
            return built_in_name(identifier.arcs());
        }
    }
    None
}

/// Returns the OBJECT IDENTIFIER that a value is or begins with.
fn identifier_in<'value>(value: &'value Value<'_>) -> Option<&'value ObjectIdentifier> {
    let first = match value {
        Value::Items(parts) => parts.first(),
        value => Some(value),
    };
    match first {
        Some(Value::Arcs(identifier)) => Some(identifier),
        _ => None,
    }
}

/// Returns the name of a type of a schema.
fn name_of_type(schema: &Schema, id: TypeId) -> Option<&str> {
    let named = schema.names.as_ref()?.iter().find(|it| it.type_id == id)?;
    Some(named.name.as_str())
}

/// Returns whether values of a type are distinguished names or what these are made of.
fn is_name(schema: &Schema, id: TypeId) -> bool {
    matches!(
        name_of_type(schema, id),
        Some("RDNSequence" | "RelativeDistinguishedName")
    )
}

/// Returns a value in one line, if it reads better so: distinguished names and addresses.
fn short_text(
    place: LinePlace<'_>,
    title: &str,
    view: &View<'_, '_>,
) -> Result<Option<String>, AllocError> {
    let (alloc, value) = (place.alloc, view.value);
    if is_name(view.schema, view.type_id) {
        return name_text(alloc, place.known, value);
    }
    if let Value::Octets(octets) = value {
        let name = name_of_type(view.schema, view.type_id);
        if name == Some("IpAddress") || title.ends_with("iPAddress") {
            return address_text(alloc, octets.as_slice());
        }
    }
    Ok(None)
}

/// Returns an IPv4 or IPv6 address as such if it has 4 or 16 octets.
fn address_text(alloc: Global, octets: &[u8]) -> Result<Option<String>, AllocError> {
    if let Ok(octets) = <[u8; 4]>::try_from(octets) {
        return Ok(Some(Ipv4Addr::from(octets).to_string(alloc)?));
    }
    match <[u8; 16]>::try_from(octets) {
        Ok(octets) => Ok(Some(Ipv6Addr::from(octets).to_string(alloc)?)),
        Err(_) => Ok(None),
    }
}
