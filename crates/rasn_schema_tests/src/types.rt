//! The types of the tests.

use rasn_dynamic::decode;
use rasn_schema::constants::prelude::*;
use rasn_schema::constants::types_of;
use rasn_schema::{Schema, TypeId, Value};
use rasn_types::types::Codec;
use std::alloc::Global;
use std::process::Abort;

/// `Pair ::= SEQUENCE { kind INTEGER { other(7) }, either CHOICE { flag BOOLEAN, none NULL } }`, a
/// SET OF and a SEQUENCE OF integers, and what they are made of.
pub const TYPES: &[StaticType] = &[
    Leaf(Integer, Tag::INTEGER, NONE, &[("other", 7)]),
    Leaf(Boolean, Tag::BOOL, NONE, &[]),
    Leaf(Null, Tag::NULL, NONE, &[]),
    Choice("Either", &[("flag", 1), ("none", 2)]),
    Sequence(Tag::SEQUENCE, PARTS),
    SetOf(Tag::SET, 0, NONE),
    SequenceOf(Tag::SEQUENCE, 0, NONE),
];

const PARTS: &[StaticComponent] = &[("kind", Required, 0), ("either", Required, 3)];

/// The number of BOOLEAN.
pub const FLAG: TypeId = TypeId(1);

/// The number of Pair.
pub const PAIR: TypeId = TypeId(4);

/// The number of the SET OF.
pub const SET: TypeId = TypeId(5);

/// The number of the SEQUENCE OF.
pub const LIST: TypeId = TypeId(6);

/// `{ kind other, either flag : TRUE }`
pub const A_PAIR: &[u8] = &[0x30, 6, 2, 1, 7, 1, 1, 0xFF];

/// Returns the schema of these types; none if it isn't one, or memory runs out.
pub fn schema_of(alloc: Global, types: &[StaticType]) -> Option<Schema> {
    Schema::new(types_of(alloc, types).ok()?).ok()
}

/// Returns the schema of these types. Panics if there is none.
pub fn made(rt: &impl Abort, alloc: Global, types: &[StaticType]) -> Schema {
    match schema_of(alloc, types) {
        Some(schema) => schema,
        None => panic!(rt; "no schema"),
    }
}

/// Returns the value that all of the octets are.
pub fn value<'octets>(
    alloc: Global,
    schema: &Schema,
    id: TypeId,
    octets: &'octets [u8],
) -> Option<Value<'octets>> {
    decode(alloc, Codec::Ber, schema, id, octets).ok()
}
