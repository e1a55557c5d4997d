//! Reading and writing one value by the canonical encoding rules (X.690 9, 11).
ghost use Rattle.std.specs.Prelude.{ℕ, List, ◌≡◌, [], IfOk, IfErr, OnOk, OnErr};
ghost use Rattle.rasn_types.specs.Bytes.{Bytes};
ghost use Rattle.rasn_types.specs.declared.types.codec.Codec.TheVariants.{Cer};
ghost use Rattle.rasn_de.specs.State.{IsEnd};
ghost use Rattle.rasn_de.specs.Beyond.{got};
ghost use Rattle.rasn.specs.Headline.{Answered, AnsweredFirst, BeyondFirst, EncodingFails};
ghost use Rattle.rasn.specs.Refusals.{FailsFirst};

pub use crate::ber::{Identifier, de, enc};
use crate::entry;
use rasn_de::de::Decode;
use rasn_enc::ber::enc::EncoderOptions;
use rasn_enc::enc::Encode;
use rasn_types::error::{DecodeError, EncodeError};
use rasn_types::types::Codec;
use std::alloc::Global;

/// Reads the value at the front of the input, and ignores the octets after it.
///
/// # Errors
/// Those of `decode_with_remainder`.
///
/// # Examples
/// ```
/// // BOOLEAN TRUE, for which CER has the octet FF alone (X.690 11.1)
/// let value: bool = rasn::cer::decode(alloc, &[0x01, 0x01, 0xFF])?;
/// // `value` is true
/// let refused = rasn::cer::decode::<bool>(alloc, &[0x01, 0x01, 0x05]);
/// // `refused` is an error
/// ```
#[inline(always)]
pub fn decode<T: Decode>(alloc: Global, input: &[u8]) -> Result<T, DecodeError>
    ensures exact { AnsweredFirst Cer T.shape T.tree input.now result }
    ensures beyond { IfOk result (λ v. (rest : List ℕ) × BeyondFirst (got (T.beyond T.TAG)) Cer input.now v rest) }
    ensures errors { IfErr result (FailsFirst (T.errors T.TAG T.CONSTRAINTS) Cer input.now) }
    ensures rules { IfErr result (λ e. e.codec ≡ Cer) }
{
    let (value, _) = decode_with_remainder(alloc, input)?;
    Ok(value)
}

/// Reads the value at the front of the input, and returns it with the remaining octets, which are a
/// suffix of the input. The value and the remainder are exactly those to which the grammar relates
/// the input.
///
/// # Errors
/// The error of `T::decode` if the input doesn't begin with a value of the type; `OutOfMemory` if
/// an allocation fails.
///
/// # Examples
/// ```
/// let input: &[u8] = &[0x01, 0x01, 0xFF, 0x00];
/// let (value, rest) = rasn::cer::decode_with_remainder::<bool>(alloc, input)?;
/// // `value` is true, `rest` has the octet 00 (X.690 8.2)
/// ```
#[inline(always)]
pub fn decode_with_remainder<T: Decode>(
    alloc: Global,
    input: &[u8],
) -> Result<(T, &[u8]), DecodeError>
    ensures exact { Answered Cer T.shape T.tree input.now result }
    ensures beyond { IfOk result (λ read. BeyondFirst (got (T.beyond T.TAG)) Cer input.now read.0 read.1.now) }
    ensures errors { IfErr result (FailsFirst (T.errors T.TAG T.CONSTRAINTS) Cer input.now) }
    ensures end { IfOk result (λ read. IsEnd input.now read.1.now) }
    ensures rules { IfErr result (λ e. e.codec ≡ Cer) }
{
    entry::decode_with_remainder(alloc, Codec::Cer, input)
}

/// Returns the value's octets.
///
/// # Errors
/// The error of the value's `encode` if the value has no encoding under these rules; `OutOfMemory`
/// if an allocation fails.
///
/// # Examples
/// ```
/// let octets = rasn::cer::encode(alloc, &true)?;
/// // `octets` are 01 01 FF (X.690 8.2, 11.1)
/// ```
#[inline(always)]
pub fn encode<T: Encode>(alloc: Global, value: &T) -> Result<Vec<u8>, EncodeError>
    ensures ok { IfOk result (λ octets. Bytes Cer T.shape (T.tree value.now) octets.items) }
    ensures fails { IfErr result (EncodingFails Cer T.shape (T.tree value.now)) }
    ensures rules { IfErr result (λ e. e.codec ≡ Cer) }
{
    entry::encode(alloc, value, EncoderOptions::cer())
}

/// Writes the value's octets into the vector, replacing what it holds.
///
/// # Errors
/// Those of `encode`. The vector is then empty.
///
/// # Examples
/// ```
/// let mut buffer = Vec::new(alloc);
/// rasn::cer::encode_buf(alloc, &false, &mut buffer)?;
/// // `buffer` has the octets 01 01 00 (X.690 8.2)
/// ```
pub fn encode_buf<T: Encode>(
    alloc: Global,
    value: &T,
    buffer: &mut Vec<u8>,
) -> Result<(), EncodeError>
    ensures ok { OnOk result (Bytes Cer T.shape (T.tree value.now) buffer.new.items) }
    ensures emptied { OnErr result (buffer.new.items ≡ []) }
    ensures fails { IfErr result (EncodingFails Cer T.shape (T.tree value.now)) }
    ensures rules { IfErr result (λ e. e.codec ≡ Cer) }
{
    entry::encode_buf(alloc, value, buffer, EncoderOptions::cer())
}
