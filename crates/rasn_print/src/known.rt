//! Types of what is in open types and in strings whose octets are an encoding.

use crate::identifiers::built_in_name;
use crate::types::KnownType;
use rasn_dynamic::decode;
use rasn_schema::{Schema, Type, TypeId, Value, index_named, part_type, type_at};
use rasn_types::types::{Codec, ObjectIdentifier};
use std::alloc::{AllocError, Global};
use std::collections::BTreeMap;

/// Where octets are whose type an identifier beside them says.
#[derive(Clone, Copy, Debug, PartialEq, Eq)]
pub(crate) enum Form {
    Open,
    Octets,
    Bits,
}

/// What decides of which type a message is.
#[derive(Clone, Copy, Debug, PartialEq, Eq)]
pub(crate) enum Candidates {
    /// The call, which names its type.
    Named,
    /// Its label, which is one of the message of a standard with this index.
    Labelled(usize),
    /// Whether the first of the types that are tried reads it.
    First,
    /// Which of the types that are tried is the first to read it.
    Tried,
    /// Nothing: its encodings are shown without a type.
    Nothing,
}

impl Candidates {
    ghost use Rattle.std.specs.Prelude.{◌≡◌, true};

    /// Returns whether both are the same.
    pub(crate) fn is(self, other: Candidates) -> bool
        ensures { result ≡ true → self ≡ other }
    {
        match (self, other) {
            (Candidates::Labelled(one), Candidates::Labelled(two)) => one == two,
            (Candidates::Named, Candidates::Named)
            | (Candidates::First, Candidates::First)
            | (Candidates::Tried, Candidates::Tried)
            | (Candidates::Nothing, Candidates::Nothing) => true,
            _ => false,
        }
    }

    /// Returns whether the type of the message of a standard with this index is one of them.
    pub(crate) fn have(self, index: usize, is_tried: bool) -> bool {
        match self {
            Candidates::Labelled(labelled) => labelled == index,
            Candidates::First => index == 0,
            Candidates::Tried => is_tried,
            Candidates::Named | Candidates::Nothing => false,
        }
    }
}

/// Types of a call, in one schema: those that a message may be of and, for work that shows it, those
/// of what extensions, attributes and contents hold, by identifier, which are the ones of the module
/// Contents (`contents.asn1`).
#[derive(Drop)]
pub struct Known<'text> {
    pub(crate) schema: Schema,
    pub(crate) candidates: Candidates,
    /// The types that a message may be of: a single one, unless they are tried.
    pub(crate) types: Vec<KnownType<'text>>,
    /// The types of the module Contents.
    pub(crate) universal: Option<TypeId>,
    pub(crate) open: Option<TypeId>,
    pub(crate) octets: Option<TypeId>,
    pub(crate) bits: Option<TypeId>,
    /// The names of the identifiers of modules that aren't built in.
    pub(crate) identifiers: BTreeMap<ObjectIdentifier, String>,
    /// Whether long octets are cut where they are shown.
    pub(crate) is_cut: bool,
}

impl Known<'_> {
    /// Returns the name of an identifier: that of a module that isn't built in, or else of one that is.
    pub(crate) fn identifier_name(&self, identifier: &ObjectIdentifier) -> Option<&str> {
        match self.identifiers.get(identifier) {
            Some(name) => Some(name.as_str()),
            None => built_in_name(identifier.arcs()),
        }
    }

    /// Returns the value of the type `Universal` whose encoding in BER these octets are.
    pub(crate) fn universal_value<'input>(
        &self,
        alloc: Global,
        octets: &'input [u8],
    ) -> Result<Option<Value<'input>>, AllocError> {
        let Some(id) = self.universal else {
            return Ok(None);
        };
        match decode(alloc, Codec::Ber, &self.schema, id, octets) {
            Ok(value) => Ok(Some(value)),
            Err(error) if error.is_out_of_memory() => Err(AllocError),
            Err(_) => Ok(None),
        }
    }

    /// Returns the type of octets in this form beside the identifier with this name: the one inside
    /// the explicit tag of the alternative that the name has.
    pub(crate) fn find(&self, form: Form, name: &str) -> Option<TypeId> {
        let list = match form {
            Form::Open => self.open,
            Form::Octets => self.octets,
            Form::Bits => self.bits,
        };
        let types = self.schema.types();
        let choice = type_at(types, list?)?;
        let Type::Choice { alternatives, .. } = choice else {
            return None;
        };
        let tagged = part_type(choice, index_named(alternatives.as_slice(), name)?)?;
        part_type(type_at(types, tagged)?, 0)
    }
}
