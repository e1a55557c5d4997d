//! Reading and writing one value by the distinguished encoding rules (X.690 10, 11).
//!
//! A value is *carried* if it has DER octets and is within the limits of the decoder, so that it is
//! read back. A type has a *lawful* shape if its parts are distinguished by their tags where X.680
//! asks for it (25.6, 27.3, 29.3) and its open types are in places where they can be read.
ghost use Rattle.std.specs.Prelude.{◌≡◌, [], IfOk, IfErr, OnOk, OnErr, false};
ghost use Rattle.std.specs.Fn.{FnOnceTakesAtMut};
ghost use Rattle.rasn_types.specs.Bytes.{Bytes};
ghost use Rattle.rasn_types.specs.Truth.{IsWhether};
ghost use Rattle.rasn_types.specs.declared.types.codec.Codec.TheVariants.{Der};
ghost use Rattle.rasn_de.specs.State.{IsEnd};
ghost use Rattle.rasn_de.specs.Beyond.{got};
ghost use Rattle.rasn.specs.Headline.{Answered, AnsweredAlone, BeyondFirst, Identify, ConsumesWritten, IsAsWritten, ScopeRefuses, EncodingFails};
ghost use Rattle.rasn.specs.Refusals.{FailsFirst, FailsAlone};
ghost use Rattle.rasn.specs.Normal.{IsNormal};
ghost use Rattle.rasn_enc.specs.View.{started};
ghost use Rattle.rasn_enc.specs.Closures.{OnlyAppends, WritesOutput};

pub use crate::ber::{Identifier, de, enc};
use crate::{entry, normalise};
use rasn_de::de::Decode;
use rasn_enc::ber::enc::{Encoder, EncoderOptions};
use rasn_enc::enc::Encode;
use rasn_types::error::{DecodeError, EncodeError};
use rasn_types::types::{Codec, LawfulEq};
use std::alloc::{AllocError, Global};

/// Reads an input that is exactly one value. If the value is carried and its shape is lawful, the
/// input is exactly what `encode` writes of the value.
///
/// # Errors
/// Those of `decode_with_remainder`; `UnexpectedExtraData` with the number of octets if octets
/// follow the value (X.690 8.1.1.1).
///
/// # Examples
/// ```
/// // The BIT STRING '0A3B5F291CD'H (X.690 8.6.4.2)
/// let octets: &[u8] = &[0x03, 0x07, 0x04, 0x0A, 0x3B, 0x5F, 0x29, 0x1C, 0xD0];
/// let bits: BitString = rasn::der::decode(alloc, octets)?;
/// // `bits` has 44 bits
/// ```
#[inline(always)]
pub fn decode<T: Decode>(alloc: Global, input: &[u8]) -> Result<T, DecodeError>
    ensures exact { AnsweredAlone Der T.shape T.tree input.now result }
    ensures beyond { IfOk result (λ v. BeyondFirst (got (T.beyond T.TAG)) Der input.now v []) }
    ensures errors { IfErr result (FailsAlone (T.errors T.TAG T.CONSTRAINTS) Der T.shape input.now) }
    ensures written { IsAsWritten T.shape T.tree input.now result }
    ensures rules { IfErr result (λ e. e.codec ≡ Der) }
{
    entry::decode(alloc, Codec::Der, input)
}

/// Reads the value at the front of the input, and returns it with the remaining octets, which are a
/// suffix of the input. The value and the remainder are exactly those to which the grammar relates
/// the input.
///
/// If the value is carried and its shape is lawful, the octets before the remainder are exactly
/// those that `encode` writes of the value: it has one encoding, and no other is read
/// (X.690 10, 11).
///
/// # Errors
/// The error of `T::decode` if the input doesn't begin with a value of the type; `OutOfMemory` if
/// an allocation fails.
///
/// # Examples
/// ```
/// let input: &[u8] = &[0x01, 0x01, 0xFF, 0x00];
/// let (value, rest) = rasn::der::decode_with_remainder::<bool>(alloc, input)?;
/// // `value` is true, `rest` has the octet 00 (X.690 8.2, 11.1)
/// ```
#[inline(always)]
pub fn decode_with_remainder<T: Decode>(
    alloc: Global,
    input: &[u8],
) -> Result<(T, &[u8]), DecodeError>
    ensures exact { Answered Der T.shape T.tree input.now result }
    ensures beyond { IfOk result (λ read. BeyondFirst (got (T.beyond T.TAG)) Der input.now read.0 read.1.now) }
    ensures errors { IfErr result (FailsFirst (T.errors T.TAG T.CONSTRAINTS) Der input.now) }
    ensures end { IfOk result (λ read. IsEnd input.now read.1.now) }
    ensures written { ConsumesWritten T.shape T.tree input.now result }
    ensures rules { IfErr result (λ e. e.codec ≡ Der) }
{
    entry::decode_with_remainder(alloc, Codec::Der, input)
}

/// Returns the value's octets, which depend on the value alone: two carried values of a lawful
/// shape have the same octets exactly if they are equal.
///
/// # Errors
/// The error of the value's `encode` if the value has no encoding under these rules; `OutOfMemory`
/// if an allocation fails.
///
/// # Examples
/// ```
/// let octets = rasn::der::encode(alloc, &true)?;
/// // `octets` are 01 01 FF (X.690 8.2, 11.1)
/// ```
#[inline(always)]
pub fn encode<T: Encode>(alloc: Global, value: &T) -> Result<Vec<u8>, EncodeError>
    ensures ok { IfOk result (λ octets. Bytes Der T.shape (T.tree value.now) octets.items) }
    ensures canonical { IfOk result (λ octets. Identify T.shape (T.tree value.now) octets.items) }
    ensures fails { IfErr result (EncodingFails Der T.shape (T.tree value.now)) }
    ensures rules { IfErr result (λ e. e.codec ≡ Der) }
{
    entry::encode(alloc, value, EncoderOptions::der())
}

/// Writes the value's octets into the vector, replacing what it holds.
///
/// # Errors
/// Those of `encode`. The vector is then empty.
///
/// # Examples
/// ```
/// let mut buffer = Vec::new(alloc);
/// rasn::der::encode_buf(alloc, &true, &mut buffer)?;
/// // `buffer` has the octets 01 01 FF (X.690 8.2, 11.1)
/// ```
pub fn encode_buf<T: Encode>(
    alloc: Global,
    value: &T,
    buffer: &mut Vec<u8>,
) -> Result<(), EncodeError>
    ensures ok { OnOk result (Bytes Der T.shape (T.tree value.now) buffer.new.items) }
    ensures canonical { OnOk result (Identify T.shape (T.tree value.now) buffer.new.items) }
    ensures emptied { OnErr result (buffer.new.items ≡ []) }
    ensures fails { IfErr result (EncodingFails Der T.shape (T.tree value.now)) }
    ensures rules { IfErr result (λ e. e.codec ≡ Der) }
{
    entry::encode_buf(alloc, value, buffer, EncoderOptions::der())
}

/// Returns the octets of the values that the closure `values` writes, one after the other. It may
/// write any number of values.
///
/// # Errors
/// Any error that `values` returns; `OutOfMemory` if an allocation fails.
///
/// # Examples
/// ```
/// let octets = rasn::der::encode_scope(alloc, |encoder| {
///     true.encode(encoder)?;
///     false.encode(encoder)
/// })?;
/// // `octets` are 01 01 FF 01 01 00 (X.690 8.2, 11.1)
/// ```
pub fn encode_scope<F: FnOnce(&mut Encoder) -> Result<(), EncodeError>>(
    alloc: Global,
    values: F,
) -> Result<Vec<u8>, EncodeError>
    requires callable { FnOnceTakesAtMut F.FnOnce values (started Der false) }
    requires keeps { OnlyAppends F.FnOnce values (started Der false) }
    ensures ok { IfOk result (λ octets. WritesOutput F.FnOnce values Der octets.items) }
    ensures fails { IfErr result (ScopeRefuses F.FnOnce values Der) }
{
    entry::encode_scope(alloc, values, EncoderOptions::der())
}

/// Returns whether the octets are the one DER encoding of a value of the type (X.690 10, 11).
///
/// # Errors
/// `AllocError` if an allocation fails.
///
/// # Examples
/// ```
/// // TRUE is FF under DER, and any octet except 00 under BER (X.690 8.2.2, 11.1).
/// let with_ff = rasn::der::is_canonical::<bool>(alloc, &[0x01, 0x01, 0xFF])?;
/// // `with_ff` is true
/// let with_05 = rasn::der::is_canonical::<bool>(alloc, &[0x01, 0x01, 0x05])?;
/// // `with_05` is false
/// ```
pub fn is_canonical<T: Decode + Encode + LawfulEq>(
    alloc: Global,
    octets: &[u8],
) -> Result<bool, AllocError>
    ensures { IfOk result (λ answer. IsWhether answer (IsNormal Der T.shape octets.now octets.now)) }
{
    match normalise::<T>(alloc, Codec::Der, octets) {
        Ok(normal) => Ok(normal.as_slice() == octets),
        Err(error) if error.is_out_of_memory() => Err(AllocError),
        Err(_) => Ok(false),
    }
}
