//! The components of a SEQUENCE or a SET, as parts of a struct's text.
use crate::defaults::{DefaultText, default_name, push_default};
use crate::layout::{is_short, push_alias};
use crate::plan::Plan;
use crate::template::{push_separator, push_times};
use crate::words::field_name;
use rasn_schema::{Component, Presence, Type, TypeId, components_of};
use std::alloc::{AllocError, Global};

/// A part of a struct.
#[derive(Drop)]
pub(crate) struct Part<'schema> {
    /// The name of its field.
    field: String,
    /// Its name in the notation.
    name: &'schema str,
    /// Its type.
    type_id: TypeId,
    /// The comment on an open type in it, if there is one.
    reason: &'static str,
    /// The presence, as the name of the type that reads it.
    presence: &'static str,
    /// The type of the field, without `Option`.
    expression: String,
    /// The default.
    default: Option<DefaultText>,
    /// The name of the default, or the type.
    argument: String,
    /// Whether it is the unknown values of a SET.
    is_rest: bool,
}

impl<'schema> Plan<'schema> {
    /// Returns the parts of a SEQUENCE or a SET.
    pub(crate) fn parts_of(&self, id: usize) -> Result<Vec<Part<'schema>>, AllocError> {
        let ty = self.type_of(id);
        let mut parts = Vec::new(self.alloc);
        for component in components_of(ty) {
            parts.push(self.part_of(id, component, matches!(ty, Type::Set { .. }))?)?;
        }
        Ok(parts)
    }

    /// Returns a part of a SEQUENCE or a SET.
    fn part_of(
        &self,
        id: usize,
        component: &'schema Component,
        is_set: bool,
    ) -> Result<Part<'schema>, AllocError> {
        let is_unknown = matches!(self.type_of(component.type_id.0), Type::Unknown);
        let field = if is_unknown {
            String::from_str(self.alloc, "unknown")?
        } else {
            field_name(self.alloc, component.name.as_str())?
        };
        let expression = self.expression(id, component.type_id)?;
        let part = Part {
            argument: String::from_str(self.alloc, expression.as_str())?,
            expression,
            name: component.name.as_str(),
            type_id: component.type_id,
            reason: self.leads_back(id, component.type_id)?,
            presence: self.presence_word(id, component)?,
            default: None,
            is_rest: is_unknown && is_set,
            field,
        };
        self.with_default(id, component, part)
    }

    /// Returns a part with its default, if it has one.
    fn with_default(
        &self,
        id: usize,
        component: &Component,
        part: Part<'schema>,
    ) -> Result<Part<'schema>, AllocError> {
        let mut part = part;
        if let Some(default) = self.default_of(id, component)? {
            part.expression = String::from_str(self.alloc, default.ty.as_str())?;
            part.argument = default_name(self.alloc, part.field.as_str())?;
            part.default = Some(default);
        }
        Ok(part)
    }

    /// Returns the presence of a component, as the name of the type that reads it.
    fn presence_word(&self, of: usize, component: &Component) -> Result<&'static str, AllocError> {
        let id = component.type_id;
        let is_choice = self.is_closed_choice(id)
            && self.reason_against(id.0)?.is_none()
            && !self.leads_to(id.0, of)?;
        let is_explicit = matches!(self.type_of(id.0), Type::Tagged { .. });
        Ok(match component.presence {
            Presence::Required => "Required",
            Presence::Optional if is_choice => "OptionalChoice",
            Presence::Optional => "Optional",
            Presence::Addition => "Addition",
            Presence::Default(_) if is_choice => "DefaultedChoice",
            Presence::Default(_) if is_explicit => "DefaultedExplicit",
            Presence::Default(_) => "Defaulted",
        })
    }

    /// Returns the fields, with the notation of each.
    pub(crate) fn fields_text(&self, id: usize, parts: &[Part<'_>]) -> Result<String, AllocError> {
        let mut text = String::new(self.alloc);
        for part in parts {
            let notation = self.part_notation(id, part.name, part.type_id)?;
            let (field, ty) = (part.field.as_str(), part.expression.as_str());
            write!(text, "{notation}{}", part.reason)?;
            match part.presence {
                "Optional" | "OptionalChoice" | "Addition" => {
                    writeln!(text, "    pub {field}: Option<{ty}>,")?;
                }
                _ => writeln!(text, "    pub {field}: {ty},")?,
            }
        }
        Ok(text)
    }

    /// Returns the beginning of the `match` that reads the parts of a SET.
    fn read_set_call(&self, id: usize, parts: &[Part<'_>]) -> Result<String, AllocError> {
        let mut names = String::new(self.alloc);
        for part in parts {
            if !part.is_rest {
                push_separator(&mut names, ", ")?;
                write!(names, "\"{}\"", part.name)?;
            }
        }
        let (name, _file) = self.names_of(id);
        let line = format!(in self.alloc;
            "        let parts = match decoder.read_set::<Parts>(tag, \"{name}\", &[{names}]) {{"
        )?;
        if is_short(line.as_str()) {
            return Ok(line);
        }
        let mut call = String::from_str(
            self.alloc,
            "        let parts = match decoder.read_set::<Parts>(\n",
        )?;
        write!(call, "            tag,\n            \"{name}\",\n")?;
        write!(call, "            &[{names}],\n        ) {{")?;
        Ok(call)
    }

    /// Returns how the parts are read.
    pub(crate) fn read_text(
        &self,
        id: usize,
        parts: &[Part<'_>],
        is_set: bool,
    ) -> Result<String, AllocError> {
        let mut text = String::new(self.alloc);
        let call = if is_set {
            self.read_set_call(id, parts)?
        } else {
            String::from_str(
                self.alloc,
                "        let parts = match decoder.read_sequence::<Parts>(tag) {",
            )?
        };
        writeln!(text, "{call}\n            Ok(parts) => parts,")?;
        writeln!(
            text,
            "            Err(error) => return Err(error),\n        }};"
        )?;
        if parts.is_empty() {
            writeln!(text, "        let End = parts;")?;
        }
        push_patterns(&mut text, parts)?;
        let (name, _file) = self.names_of(id);
        push_literal(&mut text, name, parts)?;
        Ok(text)
    }
}

/// Returns the names of the parts, as a term.
pub(crate) fn names_term(alloc: Global, parts: &[Part<'_>]) -> Result<String, AllocError> {
    let mut names = String::new(alloc);
    for part in parts {
        if !part.is_rest {
            write!(names, "codes \"{}\" ∷ ", part.name)?;
        }
    }
    names.push_str("[]")?;
    Ok(names)
}

/// Adds the patterns that take the parts apart, one after another.
fn push_patterns(text: &mut String, parts: &[Part<'_>]) -> Result<(), AllocError> {
    for (index, part) in parts.iter().enumerate() {
        if part.is_rest {
            break;
        }
        let rest = match parts.get(index.saturating_add(1)) {
            Some(next) if next.is_rest => "unknown",
            Some(_) => "rest",
            None => "End",
        };
        let source = if index == 0 { "parts" } else { "rest" };
        let (presence, field) = (part.presence, part.field.as_str());
        writeln!(text, "        let {presence}({field}, {rest}) = {source};")?;
    }
    Ok(())
}

/// Adds the value of a struct with its fields, on a line if they are short.
fn push_literal(text: &mut String, name: &str, parts: &[Part<'_>]) -> Result<(), AllocError> {
    let alloc = *text.allocator();
    let mut short = String::new(alloc);
    let mut long = String::new(alloc);
    for part in parts {
        let field = part.field.as_str();
        push_separator(&mut short, ", ")?;
        short.push_str(field)?;
        writeln!(long, "            {field},")?;
    }
    if parts.is_empty() {
        writeln!(text, "        Ok({name} {{}})")
    } else if short.len() <= 18 {
        writeln!(text, "        Ok({name} {{ {short} }})")
    } else {
        writeln!(text, "        Ok({name} {{\n{long}        }})")
    }
}

/// Returns the types that read the parts, each with the one after it.
pub(crate) fn parts_text(alloc: Global, parts: &[Part<'_>]) -> Result<String, AllocError> {
    let mut text = String::from_str(alloc, "/// The components, as they are read.\n")?;
    let mut name = String::from_str(alloc, "Parts")?;
    for (index, part) in parts.iter().enumerate() {
        if part.is_rest {
            break;
        }
        let number = index.saturating_add(1);
        let next = match parts.get(number) {
            Some(next) if next.is_rest => String::from_str(alloc, "Unknown")?,
            Some(_) => format!(in alloc; "Parts{number}")?,
            None => String::from_str(alloc, "End")?,
        };
        let arguments = [part.argument.as_str(), next.as_str()];
        if index > 0 {
            text.push('\n')?;
        }
        push_alias(&mut text, name.as_str(), part.presence, &arguments)?;
        name = next;
    }
    if parts.is_empty() {
        text.push_str("type Parts = End;\n")?;
    }
    Ok(text)
}

/// Returns the fields as the value of the parts.
pub(crate) fn tree_text(alloc: Global, parts: &[Part<'_>]) -> Result<String, AllocError> {
    let mut text = String::new(alloc);
    let mut count: usize = 0;
    for part in parts {
        if !part.is_rest {
            write!(text, "record {{ 0 = a.{}; 1 = ", part.field.as_str())?;
            count = count.saturating_add(1);
        }
    }
    text.push_str(if ends_with_rest(parts) {
        "a.unknown"
    } else {
        "record {}"
    })?;
    push_times(&mut text, " }", count)?;
    Ok(text)
}

/// Returns how the parts are written, from the last to the first.
pub(crate) fn write_text(
    alloc: Global,
    parts: &[Part<'_>],
    is_set: bool,
) -> Result<String, AllocError> {
    let mut text = String::new(alloc);
    let mut rest = String::from_str(
        alloc,
        if ends_with_rest(parts) {
            "&self.unknown"
        } else {
            "End"
        },
    )?;
    for (index, part) in parts.iter().enumerate().rev() {
        if !part.is_rest {
            rest = put_text(alloc, part, rest.as_str())?;
            if index > 0 {
                writeln!(text, "        let rest = {rest};")?;
                rest = String::from_str(alloc, "rest")?;
            }
        }
    }
    push_write_call(&mut text, is_set, rest.as_str())?;
    Ok(text)
}

/// Adds the call that writes the parts.
fn push_write_call(text: &mut String, is_set: bool, parts: &str) -> Result<(), AllocError> {
    let write = if is_set {
        "write_sorted_set"
    } else {
        "write_sequence"
    };
    if parts.len() > 55 {
        write!(text, "        encoder.{write}(\n            tag,\n")?;
        return write!(text, "            {parts},\n        )\n");
    }
    writeln!(text, "        encoder.{write}(tag, {parts})")
}

/// Returns how a part is written before the rest.
fn put_text(alloc: Global, part: &Part<'_>, rest: &str) -> Result<String, AllocError> {
    let (field, argument) = (part.field.as_str(), part.argument.as_str());
    match part.presence {
        "Required" => format!(in alloc; "Put(&self.{field}, {rest})"),
        "Defaulted" => format!(in alloc; "PutDefault::<{argument}, _>(&self.{field}, {rest})"),
        "DefaultedExplicit" => {
            format!(in alloc; "PutDefaultExplicit::<{argument}, _>(&self.{field}, {rest})")
        }
        presence => format!(in alloc; "Put{presence}(&self.{field}, {rest})"),
    }
}

/// Returns the defaults, each as a type.
pub(crate) fn defaults_text(alloc: Global, parts: &[Part<'_>]) -> Result<String, AllocError> {
    let mut text = String::new(alloc);
    for part in parts {
        if let Some(default) = &part.default {
            push_default(&mut text, part.name, part.argument.as_str(), default)?;
        }
    }
    Ok(text)
}

/// Returns whether one of the parts has a default.
pub(crate) fn has_defaults(parts: &[Part<'_>]) -> bool {
    parts.iter().any(|part| part.default.is_some())
}

/// Returns whether the last part is the unknown values of a SET.
pub(crate) fn ends_with_rest(parts: &[Part<'_>]) -> bool {
    parts.last().is_some_and(|last| last.is_rest)
}
