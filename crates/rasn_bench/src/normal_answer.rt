//! The results that the program prints for lines when it normalises.
ghost use Rattle.std.specs.Prelude.{IfOk, IsTrue, ◌↔◌, ◌≢◌, ◌≡◌, codes};
ghost use Rattle.rasn.specs.Normal.{IsOutOfMemoryAlone};
ghost use Rattle.rasn_bench.specs.NormalAnswers.{IsNormalAnswerTo, IsNormalisedAnswer};
ghost use Rattle.rasn_bench.specs.declared.normal_answer.NormalAnswer.TheVariants.{Malformed};

use crate::answer::write_octets;
use crate::line::Request;
use crate::names::{decode_error_name, encode_error_name};
use crate::typed_answer::{TypedAnswer, answer_to};
use rasn::de::Decode;
use rasn::enc::Encode;
use rasn::types::{Codec, LawfulEq};
use rasn::{NormaliseError, normalise};
use std::alloc::{AllocError, Global};
use std::fmt;

/// The result for a line.
#[derive(Debug, Drop)]
pub enum NormalAnswer {
    /// The DER octets of the value.
    Normal { octets: Vec<u8> },
    /// There are no DER octets, for the cause `name`.
    Refused { name: &'static str },
    /// The line isn't well-formed.
    Malformed,
}

impl NormalAnswer {
    /// Returns the result for a line without its line feed.
    ///
    /// # Errors
    /// If an allocation fails for the octets of the line.
    pub fn to_line(alloc: Global, line: &str) -> Result<NormalAnswer, AllocError>
        ensures { IfOk result (IsNormalAnswerTo line.now) }
    {
        match Request::asked(alloc, line)? {
            Some((request, octets)) => Ok(answer_to(alloc, request, &octets)),
            None => Ok(NormalAnswer::Malformed),
        }
    }

    /// Returns the result if normalising octets returned this.
    pub fn of_normalised(normalised: Result<Vec<u8>, NormaliseError>) -> NormalAnswer
        ensures { IsNormalisedAnswer normalised result }
    {
        match normalised {
            Ok(octets) => NormalAnswer::Normal { octets },
            Err(error) => NormalAnswer::Refused {
                name: error_name(&error),
            },
        }
    }

    /// Returns whether the line was well-formed.
    pub fn is_well_formed(&self) -> bool
        ensures { IsTrue result ↔ (self.now ≢ Malformed) }
    {
        !matches!(self, NormalAnswer::Malformed)
    }
}

impl TypedAnswer for NormalAnswer {
    ghost use Rattle.rasn_bench.specs.NormalAnswers.{IsNormalAnswer};

    ghost IsOfType = { λ rule shape _ input answer. IsNormalAnswer rule shape input answer };

    /// Reads all of the octets as a value of the type under the rule, and encodes it under DER.
    fn of_type<T: Decode + Encode + LawfulEq>(
        alloc: Global,
        rule: Codec,
        _word: &'static str,
        octets: &[u8],
    ) -> NormalAnswer {
        NormalAnswer::of_normalised(normalise::<T>(alloc, rule, octets))
    }
}

/// Returns the name of the innermost kind of the error.
fn error_name(error: &NormaliseError) -> &'static str
    ensures { IsOutOfMemoryAlone error.now → result.now ≡ codes "OutOfMemory" }
{
    match error {
        NormaliseError::Decode(error) => decode_error_name(&error.kind),
        NormaliseError::Encode(error) => encode_error_name(&error.kind),
        NormaliseError::NotCanonical => "NotCanonical",
    }
}

impl fmt::Display for NormalAnswer {
    fn fmt<W: fmt::Write>(&self, f: &mut fmt::Formatter<W>) -> fmt::Result {
        match self {
            NormalAnswer::Malformed => f.write_str("malformed"),
            NormalAnswer::Refused { name } => write!(f, "refused {name}"),
            NormalAnswer::Normal { octets } => write_octets(octets, f),
        }
    }
}
