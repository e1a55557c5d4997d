//! Schemas as octets.
ghost use Rattle.std.specs.Prelude.{MatchResult};
ghost use Rattle.rasn_c.specs.Schemas.{IsAsked, IsNotAsked, IsStatusOf};

use crate::reasons::{CallStop, NO_REASON};
use crate::rules::rule_numbered;
use crate::status::Status;
use rasn::types::Codec;
use rasn_schema::{Schema, TypeId};
use rasn_schema_octets::{Compiled, ReadFault, read};
use std::alloc::Global;

/// What a call by a schema reads: a type, and the rules.
#[derive(Drop)]
pub(crate) struct Query {
    pub schema: Schema,
    pub root: TypeId,
    pub rule: Codec,
}

/// Returns the type whose schema has these octets, and the rules of this number.
pub(crate) fn query_of(alloc: Global, schema: &[u8], rule: u32) -> Result<Query, CallStop>
    ensures { MatchResult result (λ a. IsAsked schema.now rule a.schema a.root a.rule) (λ stop. IsNotAsked schema.now rule stop.status) }
{
    let Some(rule) = rule_numbered(rule) else {
        return Err(CallStop::plain(alloc, Status::UnknownRule));
    };
    match read(alloc, schema) {
        Ok(compiled) => {
            let Compiled { schema, root, .. } = compiled;
            Ok(Query { schema, root, rule })
        }
        Err(fault) => Err(schema_stop(alloc, &fault)),
    }
}

/// Returns the end of a call whose schema's octets have this fault.
fn schema_stop(alloc: Global, fault: &ReadFault) -> CallStop
    ensures { IsStatusOf fault.now result.status }
{
    if matches!(fault, ReadFault::OutOfMemory) {
        return CallStop::plain(alloc, Status::OutOfMemory);
    }
    match format!(in alloc; "{fault}") {
        Ok(text) => CallStop::of_text(Status::BadSchema, NO_REASON, text),
        Err(_) => CallStop::plain(alloc, Status::OutOfMemory),
    }
}
