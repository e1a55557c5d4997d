//! The check that octets are the one DER encoding of a value.
ghost use Rattle.std.specs.Prelude.{◌≡◌};
ghost use Rattle.rasn_c.specs.Status.{IsNumberOf};
ghost use Rattle.rasn_c.specs.Canonical.{AnswersCheck, check_status};

use crate::status::Status;
use crate::types::{TypedAnswer, answer_of};
use rasn::de::Decode;
use rasn::der;
use rasn::enc::Encode;
use rasn::types::{Codec, LawfulEq};
use std::alloc::{AllocError, Global};

impl TypedAnswer for Result<bool, AllocError> {
    ghost use Rattle.std.specs.Prelude.{IfOk};
    ghost use Rattle.rasn_types.specs.declared.types.codec.Codec.TheVariants.{Der};
    ghost use Rattle.rasn_types.specs.Truth.{IsWhether};
    ghost use Rattle.rasn.specs.Normal.{IsNormal};

    ghost IsOfType = { λ rule shape errors octets answer. IfOk answer (λ is. IsWhether is (IsNormal Der shape octets octets)) };

    /// Returns whether the octets are the one DER encoding of a value of the type.
    fn of_type<T: Decode + Encode + LawfulEq>(
        alloc: Global,
        _rule: Codec,
        octets: &[u8],
    ) -> Result<bool, AllocError> {
        der::is_canonical::<T>(alloc, octets)
    }
}

/// Returns the status of the check that the octets are the one DER encoding of a value of the type
/// with this number. The result is that of `der::is_canonical`.
#[unsafe(no_mangle)]
pub extern "C" fn soq_proved_check(alloc: Global, type_number: u32, octets: &[u8]) -> u32
    ensures { IsNumberOf (AnswersCheck type_number octets.now) result }
{
    check(alloc, type_number, octets).number()
}

fn check(alloc: Global, type_number: u32, octets: &[u8]) -> Status
    ensures { AnswersCheck type_number octets.now result }
{
    status_of(answer_of(alloc, type_number, Codec::Der, octets))
}

/// Returns the status of a check with this result, which no type has if its number is unknown.
fn status_of(answer: Option<Result<bool, AllocError>>) -> Status
    ensures { result ≡ check_status answer }
{
    match answer {
        Some(Ok(true)) => Status::Ok,
        Some(Ok(false)) => Status::Refused,
        Some(Err(_)) => Status::OutOfMemory,
        None => Status::UnknownType,
    }
}
