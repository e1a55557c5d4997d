//! Conversion of an encoding under any of the three rules to the DER encoding of its value
//! (X.690 10).
ghost use Rattle.std.specs.Prelude.{◌≡◌, IfOk, IfErr, IsTrue, ◌↔◌};
ghost use Rattle.rasn_types.specs.declared.types.codec.Codec.TheVariants.{Der};
ghost use Rattle.rasn_types.specs.Framing.{AreOctets};
ghost use Rattle.rasn.specs.Headline.{AnsweredAlone};
ghost use Rattle.rasn.specs.Refusals.{FailsAlone};
ghost use Rattle.rasn.specs.Normal.{IsNormal, IsNoNormal, IsIdentified, IsKept, IsUnchanged, IsAnswered, IsByRules, IsReadingError, IsOutOfMemoryAlone, SameExactlyIfEqual};

use crate::{decode, der};
use rasn_de::de::Decode;
use rasn_enc::enc::Encode;
use rasn_types::error::{DecodeError, EncodeError};
use rasn_types::types::{Codec, LawfulEq};
use std::alloc::Global;
use std::error::Error;
use std::fmt;

/// The reason why an input has no DER encoding.
#[derive(Debug, PartialEq, Eq, Drop)]
pub enum NormaliseError {
    /// The input isn't exactly one value of the type.
    Decode(DecodeError),
    /// The value has no DER octets.
    Encode(EncodeError),
    /// DER doesn't read back what it writes of the value, or reads it as another value.
    NotCanonical,
}

impl NormaliseError {
    /// Returns whether the cause is that an allocation failed.
    pub fn is_out_of_memory(&self) -> bool
        ensures { IsTrue result ↔ IsOutOfMemoryAlone self.now }
    {
        match self {
            NormaliseError::Decode(error) => error.is_out_of_memory(),
            NormaliseError::Encode(error) => error.is_out_of_memory(),
            NormaliseError::NotCanonical => false,
        }
    }
}

/// Writes the text of the cause.
impl fmt::Display for NormaliseError {
    ghost use Rattle.rasn.specs.Normal.{shown_normalise_error};

    ghost output = { shown_normalise_error };

    fn fmt<W: fmt::Write>(&self, f: &mut fmt::Formatter<W>) -> fmt::Result {
        match self {
            NormaliseError::Decode(error) => fmt::Display::fmt(error, f),
            NormaliseError::Encode(error) => fmt::Display::fmt(error, f),
            NormaliseError::NotCanonical => {
                f.write_str("the value isn't read back from its DER octets")
            }
        }
    }
}

impl Error for NormaliseError {}

/// Returns the DER encoding of the value in the input, which must be exactly one value by these
/// rules.
///
/// If the input is a carried value of a lawful shape (docs/GLOSSARY.md): two such inputs have the
/// same octets exactly if their values are equal; normalising the result returns the same octets
/// again; an input that DER reads is returned unchanged; and the only error is that an allocation
/// fails.
///
/// # Errors
/// `Decode` if the rules don't read the input, with `UnexpectedExtraData` and these rules if octets
/// follow the value (X.690 8.1.1.1). `Encode` if the value has no DER octets. `NotCanonical` if DER
/// doesn't read these octets, or reads them as another value.
///
/// # Examples
/// ```
/// // The BIT STRING '0A3B5F291CD'H in two segments (X.690 8.6.4.2)
/// let octets: &[u8] = &[
///     0x23, 0x80, 0x03, 0x03, 0x00, 0x0A, 0x3B, 0x03, 0x05, 0x04, 0x5F, 0x29, 0x1C, 0xD0, 0x00,
///     0x00,
/// ];
/// let normal = rasn::normalise::<BitString>(alloc, Codec::Ber, octets)?;
/// // `normal` is 03 07 04 0A 3B 5F 29 1C D0
/// ```
pub fn normalise<T: Decode + Encode + LawfulEq>(
    alloc: Global,
    rule: Codec,
    input: &[u8],
) -> Result<Vec<u8>, NormaliseError>
    ensures normal { IfOk result (λ octets. IsNormal rule T.shape input.now octets.items) }
    ensures identifies { IfOk result (λ octets. IsIdentified rule T.shape input.now octets.items) }
    ensures kept { IfOk result (λ octets. IsKept rule T.shape input.now octets.items) }
    ensures unchanged { IfOk result (λ octets. IsUnchanged rule T.shape input.now octets.items) }
    ensures answered { IfErr result (λ error. IsAnswered rule T.shape input.now error) }
    ensures fails { IfErr result (λ error. IsNoNormal rule T.shape input.now error) }
    ensures errors { IfErr result (IsReadingError (T.Decode.errors T.TAG T.CONSTRAINTS) rule T.shape input.now) }
    ensures rules { IfErr result (λ error. IsByRules rule error) }
{
    convert::<T>(alloc, rule, input)
}

/// Proves that two inputs of carried values of a lawful shape have the same DER octets exactly if
/// the values are equal, whatever rules each is read by. It is a theorem about the clauses of
/// `normalise`; the function does nothing when it runs.
pub fn same_exactly_if_equal()
    ensures { SameExactlyIfEqual }
{}

/// Reads the value, writes it by DER, and reads the result back.
fn convert<T: Decode + Encode + LawfulEq>(
    alloc: Global,
    rule: Codec,
    input: &[u8],
) -> Result<Vec<u8>, NormaliseError>
    ensures normal { IfOk result (λ octets. IsNormal rule T.shape input.now octets.items) }
    ensures octets { IfOk result (λ octets. AreOctets octets.items) }
    ensures fails { IfErr result (λ error. IsNoNormal rule T.shape input.now error) }
    ensures errors { IfErr result (IsReadingError (T.Decode.errors T.TAG T.CONSTRAINTS) rule T.shape input.now) }
    ensures rules { IfErr result (λ error. IsByRules rule error) }
{
    let value = decode::<T>(alloc, rule, input).map_err(NormaliseError::Decode)?;
    let octets = der::encode(alloc, &value).map_err(NormaliseError::Encode)?;
    match read_back::<T>(alloc, &octets) {
        Ok(again) if again.means_same(&value) => Ok(octets),
        Err(error) if error.is_out_of_memory() => Err(NormaliseError::Decode(error)),
        _ => Err(NormaliseError::NotCanonical),
    }
}

/// Reads back what was written, which must be exactly one value.
fn read_back<T: Decode>(alloc: Global, written: &[u8]) -> Result<T, DecodeError>
    ensures exact { AnsweredAlone Der T.shape T.tree written.now result }
    ensures errors { IfErr result (FailsAlone (T.Decode.errors T.TAG T.CONSTRAINTS) Der T.shape written.now) }
    ensures rules { IfErr result (λ e. e.codec ≡ Der) }
    ensures octets { AreOctets written.now }
{
    der::decode(alloc, written)
}
