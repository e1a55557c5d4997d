//! The fields of constructed types.
ghost use Rattle.std.specs.Prelude.{◌≡◌, count_by};
ghost use Rattle.rasn_types.specs.Described.{is_optional_or_default};
ghost use Rattle.rasn_types.specs.declared.types.fields.FieldPresence.TheVariants.{Required, Optional, Default};
ghost use Rattle.rasn_types.specs.Truth.{IsWhether};

use crate::types::Tag;

/// Whether a field is required.
#[derive(Clone, Copy, Debug, PartialEq, Eq)]
pub enum FieldPresence {
    /// The field is always present.
    Required,
    /// The field may be left out (OPTIONAL).
    Optional,
    /// The field may be left out, and then has its default (DEFAULT).
    Default,
}

/// A field of a SEQUENCE or a SET.
#[derive(Clone, Copy, Debug)]
pub struct Field {
    /// The position among the fields, from 0.
    pub index: usize,
    /// The tag of the field's encoding.
    pub tag: Tag,
    /// Whether the field may be left out.
    pub presence: FieldPresence,
    /// The name that errors report.
    pub name: &'static str,
}

impl Field {
    /// Returns a required field.
    pub const fn new_required(index: usize, tag: Tag, name: &'static str) -> Field
        ensures { (result.index ≡ index) × (result.tag ≡ tag) × (result.presence ≡ Required) × (result.name ≡ name.entry) }
    {
        Field {
            index,
            tag,
            presence: FieldPresence::Required,
            name,
        }
    }

    /// Returns a field that may be left out.
    pub const fn new_optional(index: usize, tag: Tag, name: &'static str) -> Field
        ensures { (result.index ≡ index) × (result.tag ≡ tag) × (result.presence ≡ Optional) × (result.name ≡ name.entry) }
    {
        Field {
            index,
            tag,
            presence: FieldPresence::Optional,
            name,
        }
    }

    /// Returns a field that may be left out, and then has its default.
    pub const fn new_default(index: usize, tag: Tag, name: &'static str) -> Field
        ensures { (result.index ≡ index) × (result.tag ≡ tag) × (result.presence ≡ Default) × (result.name ≡ name.entry) }
    {
        Field {
            index,
            tag,
            presence: FieldPresence::Default,
            name,
        }
    }
}

/// A type of fields, each of which has a presence.
pub trait HasPresence {
    ghost use Rattle.std.specs.Prelude.{◌≡◌};
    ghost use Rattle.rasn_types.specs.declared.types.fields.FieldPresence.{FieldPresence};

    ghost presence_of: { Self → FieldPresence };

    /// Returns whether the field is required, optional or has a default.
    fn presence(&self) -> FieldPresence
        ensures { result ≡ presence_of self.now };
}

impl HasPresence for Field {
    ghost presence_of = { λ field. field.presence };

    fn presence(&self) -> FieldPresence {
        self.presence
    }
}

/// The fields of a constructed type, in their order.
#[derive(Clone, Copy, Debug)]
pub struct Fields<const N: usize, F = Field> {
    /// The fields, in their order.
    pub fields: [F; N],
}

impl<const N: usize, F: HasPresence + Copy> Fields<N, F> {
    /// Returns a list of these fields.
    pub const fn from_static(fields: [F; N]) -> Fields<N, F>
        ensures { result.fields ≡ fields }
    {
        Fields { fields }
    }

    /// Returns the number of fields.
    pub const fn len(&self) -> usize
        ensures { result ≡ N }
    {
        N
    }

    /// Returns whether there are no fields.
    pub const fn is_empty(&self) -> bool
        ensures { IsWhether result (N ≡ 0) }
    {
        N == 0
    }

    /// Returns the number of fields that may be left out.
    pub fn number_of_optional_and_default_fields(&self) -> usize
        ensures { result ≡ count_by (λ field. is_optional_or_default (F.presence_of field)) self.now.fields }
    {
        count_optional_and_default(&self.fields)
    }
}

fn count_optional_and_default<F: HasPresence + Copy>(fields: &[F]) -> usize
    ensures { result ≡ count_by (λ field. is_optional_or_default (F.presence_of field)) fields.now }
{
    fields
        .iter()
        .filter(|field| field.presence() != FieldPresence::Required)
        .count()
}
