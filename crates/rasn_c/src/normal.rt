//! Conversion of an encoding under any of the three rules to that of DER.
ghost use Rattle.rasn_c.specs.Status.{IsNumberOf};
ghost use Rattle.rasn_c.specs.Normal.{AnswersNormalise, IsRefusal};

use crate::buffers::fill;
use crate::rules::rule_numbered;
use crate::status::Status;
use crate::types::{TypedAnswer, answer_of};
use rasn::de::Decode;
use rasn::enc::Encode;
use rasn::types::{Codec, LawfulEq};
use rasn::{NormaliseError, normalise};
use std::alloc::Global;

impl TypedAnswer for Result<Vec<u8>, NormaliseError> {
    ghost use Rattle.std.specs.Prelude.{MatchResult};
    ghost use Rattle.rasn.specs.Normal.{IsNormal, IsNoNormal};

    ghost IsOfType = { λ rule shape errors input answer. MatchResult answer (λ octets. IsNormal rule shape input octets.items) (IsNoNormal rule shape input) };

    /// Returns the DER octets of the value that all of the octets encode.
    fn of_type<T: Decode + Encode + LawfulEq>(
        alloc: Global,
        rule: Codec,
        octets: &[u8],
    ) -> Result<Vec<u8>, NormaliseError> {
        normalise::<T>(alloc, rule, octets)
    }
}

/// Writes the DER octets of the value that all of the octets encode to the buffer, as `normalise`
/// returns them. The type and the rules are given by their numbers. `needed` is the number of DER
/// octets, also if the buffer is smaller; the buffer is then unchanged.
#[unsafe(no_mangle)]
pub extern "C" fn soq_proved_normalise(
    alloc: Global,
    type_number: u32,
    rule: u32,
    octets: &[u8],
    buffer: &mut [u8],
    needed: &mut usize,
) -> u32
    ensures { IsNumberOf (AnswersNormalise type_number rule octets.now buffer.old buffer.new needed.new) result }
{
    put_normal(alloc, type_number, rule, octets, buffer, needed).number()
}

fn put_normal(
    alloc: Global,
    type_number: u32,
    rule: u32,
    octets: &[u8],
    buffer: &mut [u8],
    needed: &mut usize,
) -> Status
    ensures { AnswersNormalise type_number rule octets.now buffer.old buffer.new needed.new result }
{
    *needed = 0;
    let Some(rule) = rule_numbered(rule) else {
        return Status::UnknownRule;
    };
    match answer_of::<Result<Vec<u8>, NormaliseError>>(alloc, type_number, rule, octets) {
        Some(Ok(normal)) => fill(&normal, buffer, needed),
        Some(Err(error)) => refusal(&error),
        None => Status::UnknownType,
    }
}

/// The status of a refusal.
fn refusal(error: &NormaliseError) -> Status
    ensures { IsRefusal error.now result }
{
    if error.is_out_of_memory() {
        Status::OutOfMemory
    } else {
        Status::Refused
    }
}
