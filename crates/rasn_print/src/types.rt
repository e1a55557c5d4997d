//! The types of messages.
ghost use Rattle.std.specs.Prelude.{◌≡◌, Some};
ghost use Rattle.rasn_types.specs.declared.types.codec.Codec.{Codec};

use crate::messages::rule_of;
use rasn_compiler::Root;
use rasn_schema::{Schema, Type, TypeId};
use rasn_types::types::Codec;
use std::alloc::{AllocError, Global};

/// The type of a message: its number in a schema, and the rules by which it is read.
#[derive(Clone, Copy)]
pub struct MessageType<'a> {
    pub name: &'a str,
    /// The name of its module.
    pub module: &'a str,
    pub rule: Codec,
    pub schema: &'a Schema,
    pub root: TypeId,
    /// Whether an open type or unknown values are among what it is made of.
    pub holds_open: bool,
}

/// A type of a schema that a message may be of.
#[derive(Clone, Copy)]
pub(crate) struct KnownType<'text> {
    name: &'text str,
    /// The name of its module.
    module: &'text str,
    root: TypeId,
    holds_open: bool,
}

impl<'text> KnownType<'text> {
    /// Returns a type of this schema.
    pub(crate) fn new(
        alloc: Global,
        schema: &Schema,
        root: &Root<'text>,
    ) -> Result<KnownType<'text>, AllocError> {
        Ok(KnownType {
            name: root.name,
            module: root.module,
            root: root.type_id,
            holds_open: holds_open(alloc, schema, root.type_id)?,
        })
    }
}

impl<'a> MessageType<'a> {
    /// Returns a type of a schema, which is read by these rules or else by those of its module.
    pub(crate) fn new(
        schema: &'a Schema,
        of: &KnownType<'a>,
        rule: Option<Codec>,
    ) -> MessageType<'a>
        ensures rule { (given : Codec) → rule ≡ Some given → result.rule ≡ given }
        ensures of { (result.root ≡ of.now.root) × (result.holds_open ≡ of.now.holds_open) × (result.schema.now ≡ schema.now) }
    {
        let rule = match rule {
            Some(rule) => rule,
            None => rule_of(of.module),
        };
        MessageType {
            name: of.name,
            module: of.module,
            rule,
            schema,
            root: of.root,
            holds_open: of.holds_open,
        }
    }

    /// Returns its rules, its schema and the number that it has there.
    pub(crate) fn parts(&self) -> (Codec, &'a Schema, TypeId)
        ensures { (result.0 ≡ self.now.rule) × (result.1.now ≡ self.now.schema.now) × (result.2 ≡ self.now.root) }
    {
        (self.rule, self.schema, self.root)
    }
}

/// Returns whether an open type or unknown values are among what a type is made of.
fn holds_open(alloc: Global, schema: &Schema, root: TypeId) -> Result<bool, AllocError> {
    let is_reached = schema.reached_from(alloc, &[root])?;
    for (ty, is_reached) in schema.types().iter().zip(is_reached.as_slice()) {
        if *is_reached && matches!(ty, Type::Any { .. } | Type::Unknown) {
            return Ok(true);
        }
    }
    Ok(false)
}
