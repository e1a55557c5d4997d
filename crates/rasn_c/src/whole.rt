//! A value that is all of the octets.
ghost use Rattle.std.specs.Prelude.{MatchResult, []};
ghost use Rattle.rasn_types.specs.Grammar.{Reads, top};
ghost use Rattle.rasn_c.specs.Whole.{IsNoWhole};
ghost use Rattle.rasn_c.specs.WorkedWhole.{WorkedWhole};

use crate::status::Status;
use rasn::de::Decode;
use rasn::types::Codec;
use std::alloc::Global;

/// Returns the value that all of the octets are.
///
/// # Errors
/// `OutOfMemory` if an allocation fails, otherwise `Refused`.
pub fn whole_value<T: Decode>(alloc: Global, rule: Codec, octets: &[u8]) -> Result<T, Status>
    ensures { MatchResult result (λ v. Reads rule T.shape 128 (top rule) octets.now (T.tree v) []) (IsNoWhole rule T.shape octets.now) }
{
    match rasn::decode::<T>(alloc, rule, octets) {
        Ok(value) => Ok(value),
        Err(error) => {
            if error.is_out_of_memory() {
                Err(Status::OutOfMemory)
            } else {
                Err(Status::Refused)
            }
        }
    }
}

/// Proves of a few octets whether they are a whole value. The function does nothing when it runs.
pub fn worked_whole_values()
    ensures { WorkedWhole }
{}
