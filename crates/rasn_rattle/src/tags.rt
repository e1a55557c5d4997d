//! Tags as text.
use crate::template::Values;
use rasn_types::types::{Class, Tag};
use std::alloc::{AllocError, Global};

/// Adds the values that a template has for a tag: in contracts, what that is imported from, and as
/// a constant.
pub(crate) fn add_tag(values: &mut Values, tag: Tag) {
    let alloc = values.alloc;
    values.add("tag", ghost_tag(alloc, tag));
    values.add("const_tag", const_tag(alloc, tag));
    values.add_str("tag_use", tag_use(tag));
}

/// Returns a tag as contracts have it.
fn ghost_tag(alloc: Global, tag: Tag) -> Result<String, AllocError> {
    let class = class_word(tag.class);
    let value = tag.value;
    if tag.class == Class::Universal {
        return format!(in alloc; "in_universal {value}");
    }
    format!(in alloc; "record {{ class = {class}; value = {value} }}")
}

/// Returns a tag as a constant.
pub(crate) fn const_tag(alloc: Global, tag: Tag) -> Result<String, AllocError> {
    if let Some(word) = universal_word(tag) {
        return format!(in alloc; "Tag::{word}");
    }
    let class = class_word(tag.class);
    let value = tag.value;
    format!(in alloc; "Tag {{\n        class: Class::{class},\n        value: {value},\n    }}")
}

/// Returns a tag as a constant with types has it.
pub(crate) fn static_tag(alloc: Global, tag: Tag) -> Result<String, AllocError> {
    if let Some(word) = universal_word(tag) {
        return format!(in alloc; "Tag::{word}");
    }
    let class = class_word(tag.class);
    let value = tag.value;
    format!(in alloc; "tag!({class}, {value})")
}

/// Returns the type that names a tag in `Implicit` and `Explicit`: of a universal tag a type that
/// has it.
pub(crate) fn tag_type(alloc: Global, tag: Tag) -> Result<String, AllocError> {
    if let Some(word) = universal_type(tag) {
        return String::from_str(alloc, word);
    }
    let class = match tag.class {
        Class::Application => "Application",
        Class::Private => "Private",
        Class::Context | Class::Universal => "Context",
    };
    let value = tag.value;
    format!(in alloc; "{class}Tag<{value}>")
}

/// Returns a type that has a universal tag, if there is one (X.680 8.4).
pub(crate) fn universal_type(tag: Tag) -> Option<&'static str> {
    if tag.class != Class::Universal {
        return None;
    }
    match tag.value {
        1 => Some("bool"),
        2 => Some("Integer"),
        3 => Some("BitString"),
        4 => Some("OctetString"),
        5 => Some("()"),
        6 => Some("ObjectIdentifier"),
        12 => Some("Utf8String"),
        16 => Some("Vec<bool>"),
        17 => Some("SetOf<bool>"),
        18 => Some("NumericString"),
        19 => Some("PrintableString"),
        20 => Some("TeletexString"),
        22 => Some("Ia5String"),
        23 => Some("UtcTime"),
        24 => Some("GeneralizedTime"),
        25 => Some("GraphicString"),
        26 => Some("VisibleString"),
        27 => Some("GeneralString"),
        30 => Some("BmpString"),
        31 => Some("Date"),
        _ => None,
    }
}

/// Returns a tag in notation (X.680 31.2).
pub(crate) fn notation_of_tag(alloc: Global, tag: Tag) -> Result<String, AllocError> {
    let class = match tag.class {
        Class::Universal => "UNIVERSAL ",
        Class::Application => "APPLICATION ",
        Class::Context => "",
        Class::Private => "PRIVATE ",
    };
    let value = tag.value;
    format!(in alloc; "[{class}{value}]")
}

/// Returns what a tag in contracts is imported from.
fn tag_use(tag: Tag) -> &'static str {
    match tag.class {
        Class::Universal => "Rattle.rasn_types.specs.Tags.{in_universal}",
        Class::Application => {
            "Rattle.rasn_types.specs.declared.types.tag.Class.TheVariants.{Application}"
        }
        Class::Context => "Rattle.rasn_types.specs.declared.types.tag.Class.TheVariants.{Context}",
        Class::Private => "Rattle.rasn_types.specs.declared.types.tag.Class.TheVariants.{Private}",
    }
}

/// Returns the name of a class.
fn class_word(class: Class) -> &'static str {
    match class {
        Class::Universal => "Universal",
        Class::Application => "Application",
        Class::Context => "Context",
        Class::Private => "Private",
    }
}

/// Returns the name of the constant of a universal tag, if there is one.
fn universal_word(tag: Tag) -> Option<&'static str> {
    if tag.class != Class::Universal {
        return None;
    }
    match tag.value {
        0 => Some("EOC"),
        1 => Some("BOOL"),
        2 => Some("INTEGER"),
        3 => Some("BIT_STRING"),
        4 => Some("OCTET_STRING"),
        5 => Some("NULL"),
        6 => Some("OBJECT_IDENTIFIER"),
        10 => Some("ENUMERATED"),
        12 => Some("UTF8_STRING"),
        16 => Some("SEQUENCE"),
        17 => Some("SET"),
        18 => Some("NUMERIC_STRING"),
        19 => Some("PRINTABLE_STRING"),
        20 => Some("TELETEX_STRING"),
        22 => Some("IA5_STRING"),
        23 => Some("UTC_TIME"),
        24 => Some("GENERALIZED_TIME"),
        25 => Some("GRAPHIC_STRING"),
        26 => Some("VISIBLE_STRING"),
        27 => Some("GENERAL_STRING"),
        30 => Some("BMP_STRING"),
        31 => Some("DATE"),
        _ => None,
    }
}
