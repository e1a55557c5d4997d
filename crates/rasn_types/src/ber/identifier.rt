//! Identifier octets as a value (X.690 8.1.2).
ghost use Rattle.std.specs.Prelude.{◌≡◌, not};
ghost use Rattle.rasn_types.specs.Tags.{tag_bit};

use crate::types::{Class, Tag};
use std::marker::Model;
use std::ops::Deref;

/// A tag, and whether the encoding is constructed. Identifiers are ordered by the tag, then
/// primitive before constructed.
#[derive(Clone, Copy, Debug, PartialEq, Eq, PartialOrd, Ord)]
pub struct Identifier {
    /// The tag.
    pub tag: Tag,
    is_constructed: bool,
}

impl Model for Identifier {
    ghost use Rattle.rasn_types.specs.Tags.{TagAndBit};

    ghost Value = { TagAndBit };

    ghost view = { λ i. record { tag = i.tag; bit = i.is_constructed } };

    ghost inverse = { λ i. record { tag = i.tag; is_constructed = i.bit } };
}

impl Identifier {
    /// Returns the identifier with a class, a constructed bit and a tag number.
    pub fn new(class: Class, is_constructed: bool, tag: u32) -> Identifier
        ensures { result ≡ record { tag = record { class = class; value = tag }; bit = is_constructed } }
    {
        Identifier::from_tag(Tag::new(class, tag), is_constructed)
    }

    /// Returns the identifier with a tag and a constructed bit.
    pub fn from_tag(tag: Tag, is_constructed: bool) -> Identifier
        ensures { result ≡ record { tag = tag; bit = is_constructed } }
    {
        Identifier {
            tag,
            is_constructed,
        }
    }

    /// Returns the identifier with this class and constructed bit and another tag number.
    pub fn tag(self, tag: u32) -> Identifier
        ensures { result ≡ record { tag = record { class = self.tag.class; value = tag }; bit = self.bit } }
    {
        Identifier {
            tag: self.tag.set_value(tag),
            is_constructed: self.is_constructed,
        }
    }

    /// Returns whether the encoding is constructed.
    pub fn is_constructed(&self) -> bool
        ensures { result ≡ self.now.bit }
    {
        self.is_constructed
    }

    /// Returns whether the encoding is primitive.
    pub fn is_primitive(&self) -> bool
        ensures { result ≡ not self.now.bit }
    {
        !self.is_constructed
    }
}

/// Returns whether every value with this tag is constructed: EXTERNAL, SEQUENCE and SET
/// (X.690 8.18, 8.9, 8.11).
#[inline]
pub fn is_always_constructed(tag: Tag) -> bool
    ensures { result ≡ tag_bit tag }
{
    match tag.class {
        Class::Universal => tag.value == 8 || tag.value == 16 || tag.value == 17,
        _ => false,
    }
}

impl Deref for Identifier {
    type Target = Tag;

    ghost deref_gives = { λ i t. t ≡ i.tag };

    fn deref(&self) -> &Tag {
        &self.tag
    }
}
