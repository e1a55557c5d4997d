//! Defaults of components (X.680 25.8).
use crate::expression::word;
use crate::kinds::{has_file, is_alias, is_extensible};
use crate::layout::is_short;
use crate::plan::Plan;
use crate::tags::tag_type;
use crate::template::Values;
use crate::words::{camel, variant};
use rasn_schema::{Component, LeafKind, NamedNumber, Presence, Type, Value, name_of_number};
use rasn_types::types::{Class, Tag};
use std::alloc::{AllocError, Global};

/// A default as a type of its own.
const DEFAULT: &str = "
/// The default of `@part@`.
#[derive(Drop)]
pub struct @Default@;

impl DefaultValue for @Default@ {
    ghost use Rattle.std.specs.Prelude.{@prelude@};
    ghost use Rattle.rasn_types.specs.Shapes.{@shapes@};

    type Value = @type@;

    ghost default_tree = { @tree@ };

@head@
        Ok(@value@)
    }
}
";

/// A default as text.
#[derive(Drop)]
pub(crate) struct DefaultText {
    /// The type of the value.
    pub(crate) ty: String,
    /// The value.
    value: String,
    /// Its tree.
    tree: String,
    /// The type of the explicit tag.
    prefix: Option<String>,
}

/// Returns the name of the default of a field.
pub(crate) fn default_name(alloc: Global, field: &str) -> Result<String, AllocError> {
    let mut name = camel(alloc, field)?;
    name.push_str("Default")?;
    Ok(name)
}

impl Plan<'_> {
    /// Returns the default of a component, if it has one that can be written.
    pub(crate) fn default_of(
        &self,
        of: usize,
        component: &Component,
    ) -> Result<Option<DefaultText>, AllocError> {
        let Presence::Default(value) = &component.presence else {
            return Ok(None);
        };
        let (prefix, id) = match self.type_of(component.type_id.0) {
            Type::Tagged { tag, inner } => (Some(tag_type(self.alloc, *tag)?), *inner),
            _ => (None, component.type_id),
        };
        let Some((value, tree)) = self.default_value(id.0, value)? else {
            return Ok(None);
        };
        Ok(Some(DefaultText {
            ty: self.expression(of, id)?,
            value,
            tree,
            prefix,
        }))
    }

    /// Returns a value and its tree, if it can be written.
    fn default_value(
        &self,
        id: usize,
        value: &Value<'_>,
    ) -> Result<Option<(String, String)>, AllocError> {
        if self.retagged.contains_key(&self.twin_or_self(id)) {
            return Ok(None);
        }
        match value {
            Value::Boolean(truth) => self.default_number(id, i128::from(*truth)),
            Value::Integer(integer) => match integer.to_i128() {
                Some(number) => self.default_number(id, number),
                None => Ok(None),
            },
            Value::Items(items) if items.is_empty() => self.empty_list(id),
            _ => Ok(None),
        }
    }

    /// Returns a number, or a BOOLEAN as 0 or 1, as a value of a type, and its tree.
    fn default_number(
        &self,
        id: usize,
        number: i128,
    ) -> Result<Option<(String, String)>, AllocError> {
        let own = self.twin_or_self(id);
        let Some(plain) = self.plain_value(own, number)? else {
            return Ok(None);
        };
        let number = number_term(self.alloc, number)?;
        let tree = format!(in self.alloc; "number ({number})")?;
        Ok(Some((self.wrapped(id, own, plain)?, tree)))
    }

    /// Returns a number as a value of a type, without tags and constraints of its own.
    fn plain_value(&self, id: usize, number: i128) -> Result<Option<String>, AllocError> {
        let ty = self.type_of(id);
        let text = match ty {
            Type::Leaf {
                kind: LeafKind::Boolean,
                ..
            } => {
                let truth = number != 0;
                format!(in self.alloc; "{truth}")?
            }
            _ if is_extensible(ty) => format!(in self.alloc; "Extensible::from_number({number})")?,
            Type::Leaf { kind, .. } if is_number(*kind) => {
                if word(ty) == "Integer" {
                    format!(in self.alloc; "Integer::from_i128(alloc, {number})?")?
                } else {
                    format!(in self.alloc; "{number}")?
                }
            }
            Type::Enumerated { numbers, .. } => return self.variant_of(id, numbers, number),
            _ => return Ok(None),
        };
        Ok(Some(text))
    }

    /// Returns the variant with a number.
    fn variant_of(
        &self,
        id: usize,
        numbers: &[NamedNumber],
        number: i128,
    ) -> Result<Option<String>, AllocError> {
        let Ok(number) = isize::try_from(number) else {
            return Ok(None);
        };
        let Some(name) = name_of_number(numbers, number) else {
            return Ok(None);
        };
        let variant = variant(self.alloc, name)?;
        let (ty, _file) = self.names_of(id);
        Ok(Some(format!(in self.alloc; "{ty}::{variant}")?))
    }

    /// Returns the value in the struct of its constraint and under the tags that no struct or enum
    /// has: that of the type and that of the part.
    fn wrapped(&self, id: usize, own: usize, plain: String) -> Result<String, AllocError> {
        let ty = self.type_of(own);
        let mut text = plain;
        if self.names.contains_key(&own) && matches!(ty, Type::Leaf { .. }) && !is_alias(ty) {
            let (name, _file) = self.names_of(own);
            text = format!(in self.alloc; "{name} {{ value: {text} }}")?;
        }
        if is_alias(ty) && ty.tag().class != Class::Universal {
            text = format!(in self.alloc; "Implicit::new({text})")?;
        }
        if id != own && self.type_of(id).tag().class != Class::Universal {
            text = format!(in self.alloc; "Implicit::new({text})")?;
        }
        Ok(text)
    }

    /// Returns an empty list as a value of a type, and its tree.
    fn empty_list(&self, id: usize) -> Result<Option<(String, String)>, AllocError> {
        let ty = self.type_of(id);
        let is_plain = matches!(ty, Type::SequenceOf { .. })
            && ty.tag() == Tag::SEQUENCE
            && !has_file(ty);
        if !is_plain {
            return Ok(None);
        }
        let value = String::from_str(self.alloc, "Vec::new(alloc)")?;
        Ok(Some((value, String::from_str(self.alloc, "items []")?)))
    }
}

/// Adds the text of a default.
pub(crate) fn push_default(
    text: &mut String,
    part: &str,
    name: &str,
    default: &DefaultText,
) -> Result<(), AllocError> {
    let (prelude, shapes) = uses_of(default.tree.as_str());
    let mut values = Values::new(*text.allocator());
    values.add_str("part", part);
    values.add_str("Default", name);
    values.add_str("prelude", prelude);
    values.add_str("shapes", shapes);
    values.add_str("type", default.ty.as_str());
    values.add_str("tree", default.tree.as_str());
    values.add("head", head_of(*text.allocator(), default));
    values.add_str("value", default.value.as_str());
    text.push_str(values.filled(DEFAULT)?.as_str())?;
    if let Some(prefix) = &default.prefix {
        writeln!(
            text,
            "\nimpl ExplicitDefault for {name} {{\n    type Prefix = {prefix};\n}}"
        )?;
    }
    Ok(())
}

/// Returns the head of the function that returns a default.
fn head_of(alloc: Global, default: &DefaultText) -> Result<String, AllocError> {
    let parameter = if default.value.as_str().contains("alloc") {
        "alloc"
    } else {
        "_alloc"
    };
    let ty = default.ty.as_str();
    let head = format!(in alloc;
        "    fn default_value({parameter}: Global) -> Result<{ty}, AllocError> {{"
    )?;
    if is_short(head.as_str()) {
        return Ok(head);
    }
    format!(in alloc;
        "    fn default_value(\n        {parameter}: Global,\n    ) -> Result<{ty}, AllocError> {{"
    )
}

/// Returns what the tree of a default is made of.
fn uses_of(tree: &str) -> (&'static str, &'static str) {
    if tree.starts_with("items") {
        ("[]", "items")
    } else if tree.contains("neg_ℤ") {
        ("neg_ℤ, pos", "number")
    } else {
        ("pos", "number")
    }
}

/// Returns a number as contracts have it.
pub(crate) fn number_term(alloc: Global, number: i128) -> Result<String, AllocError> {
    let positive = number.unsigned_abs();
    if number < 0 {
        return format!(in alloc; "neg_ℤ (pos {positive})");
    }
    format!(in alloc; "pos {positive}")
}

/// Returns whether the values of a kind are numbers.
fn is_number(kind: LeafKind) -> bool {
    matches!(
        kind,
        LeafKind::Integer
            | LeafKind::Signed32
            | LeafKind::Signed64
            | LeafKind::Unsigned32
            | LeafKind::Unsigned64
    )
}
